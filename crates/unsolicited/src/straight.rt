// One of the four readers, by its place in the order of trial, behind one check of the line: what
// the second engine asks (document 02, CR 6). It stands beside that of the responses, since each
// crate knows its own readers. A place is a number, and one past the last is refused with 3:
// UrcAtKeeps has it so. Two matches find the reader, by whose four arms a list of closures would be
// no plainer.
ghost use Rattle.std.specs.Prelude.{◌≡◌};
ghost use Rattle.text.specs.Line.{refusal_by};
ghost use Rattle.text.specs.Reading.{refusal_in};
ghost use Rattle.text.specs.says.Refusal.{refusal_said, ChecksKeep};
ghost use Rattle.unsolicited.specs.Urc.{urc_reading_at};
ghost use Rattle.unsolicited.specs.says.Urc.{says, UrcAtKeeps};

use crate::Urc;
use crate::cereg::CEReg;
use crate::cgreg::CGReg;
use crate::creg::CReg;
use crate::ugnsinf::GnssReport;
use text::line;
use text::refusal::Refusal;

fn checked_at(place: usize, line: &[u8]) -> Result<Urc, Refusal>
    ensures { says result ≡ urc_reading_at place line.now }
{
    match place {
        0 => GnssReport::from_checked(line).map(Urc::GnssReport),
        1 => CReg::from_checked(line).map(Urc::NetworkRegistration),
        2 => CGReg::from_checked(line).map(Urc::NetworkRegistration),
        3 => CEReg::from_checked(line).map(Urc::NetworkRegistration),
        _ => Err(Refusal::NotThisLine),
    }
}

// What the reader at a place says of the line; past the last, refusal 3.
#[tactic(auto, using(crate::proofs::Stripped::checks))]
pub fn read_at(place: usize, line: &[u8]) -> Result<Urc, Refusal>
    ensures { UrcAtKeeps place line.now result }
{
    line::check_line(line)?; // the only check before a value
    checked_at(place, line)
}

#[tactic(auto, unfolding(text::specs::Reading::mapped, crate::specs::Urc::urc_readings, crate::specs::Urc::urc_reading_at), using(crate::proofs::ByPlace::past_last))]
fn refusal_checked_at(place: usize, line: &[u8]) -> Result<(), Refusal>
    ensures { refusal_said result ≡ refusal_in (urc_reading_at place line.now) }
{
    match place {
        0 => GnssReport::refusal_checked(line),
        1 => CReg::refusal_checked(line),
        2 => CGReg::refusal_checked(line),
        3 => CEReg::refusal_checked(line),
        _ => Err(Refusal::NotThisLine),
    }
}

// The answer of `read_at` with its value forgotten.
#[tactic(auto, using(crate::proofs::Stripped::checks))]
pub fn refusal_at(place: usize, line: &[u8]) -> Result<(), Refusal>
    ensures { ChecksKeep (refusal_by (urc_reading_at place) line.now) result }
{
    line::check_line(line)?;
    refusal_checked_at(place, line)
}
