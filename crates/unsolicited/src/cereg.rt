// +CEREG: the registration in the evolved packet system. Its fields cannot be told by their number,
// so the status alone is read.
ghost use Rattle.std.specs.Prelude.{◌≡◌};
ghost use Rattle.text.specs.Field.{fields};
ghost use Rattle.text.specs.Number.{signed};
ghost use Rattle.text.specs.Reading.{refusal_in};
ghost use Rattle.text.specs.says.Refusal.{option_said, refusal_said};
ghost use Rattle.unsolicited.specs.Registration.{cereg_status, cereg_fields, cereg_text};
ghost use Rattle.unsolicited.specs.says.Registration.{says, RegistrationKeeps};

use crate::network_registration::{NetworkRegistration, RegistrationStatus};
use crate::prefix;
use text::refusal::Refusal;
use text::{bytes, field, line, number, reader};

#[derive(Clone, Copy)]
pub struct CEReg;

// The number of the status.
#[tactic(auto, using(crate::proofs::Registrations::chosen))]
fn status_in(rest: &[u8]) -> Option<i32>
    ensures { option_said result ≡ signed 10 2147483647 (cereg_status (fields 44 rest.now)) }
{
    let first = reader::nth_field(rest, 0);
    if field::field_count(rest, b',') < 2 {
        return number::parse_i32(first);
    }
    let second = reader::nth_field(rest, 1);
    if bytes::all_digits(second) {
        return number::parse_i32(second);
    }
    number::parse_i32(first)
}

impl CEReg {
    #[tactic(auto, unfolding(text::specs::Reading::only, text::specs::Reading::need_else, crate::specs::Registration::cereg_text, crate::specs::Registration::cereg_fields))]
    pub(crate) fn from_checked(line: &[u8]) -> Result<NetworkRegistration, Refusal>
        ensures { says result ≡ cereg_text line.now }
    {
        let rest = prefix::behind(line, b"+CEREG: ")?;
        let status = status_in(rest).ok_or(Refusal::NotThisLine)?;
        Ok(NetworkRegistration {
            status: RegistrationStatus::from(status),
            lac: None,
            ci: None,
        })
    }

    #[tactic(auto, using(crate::proofs::Stripped::checks))]
    pub fn from_line(line: &[u8]) -> Result<NetworkRegistration, Refusal>
        ensures { RegistrationKeeps cereg_text line.now result }
    {
        line::check_line(line)?;
        CEReg::from_checked(line)
    }

    // The answer of `from_checked` with its value forgotten.
    #[tactic(auto, unfolding(text::specs::Reading::only, text::specs::Reading::need_else, crate::specs::Registration::cereg_text, crate::specs::Registration::cereg_fields))]
    pub(crate) fn refusal_checked(line: &[u8]) -> Result<(), Refusal>
        ensures { refusal_said result ≡ refusal_in (cereg_text line.now) }
    {
        let rest = prefix::behind(line, b"+CEREG: ")?;
        status_in(rest).ok_or(Refusal::NotThisLine)?;
        Ok(())
    }
}
