// The registration in the network: what +CREG, +CGREG and +CEREG share, and their trial.
ghost use Rattle.std.specs.Prelude.{◌≡◌, [], ◌∷◌, ◌≤◌, IfSome};
ghost use Rattle.text.specs.Bytes.{bytes};
ghost use Rattle.text.specs.Field.{fields, nth};
ghost use Rattle.text.specs.Part.{trimmed};
ghost use Rattle.text.specs.Reading.{refusal_in};
ghost use Rattle.text.specs.says.Refusal.{option_said, refusal_said};
ghost use Rattle.unsolicited.specs.Places.{status_place};
ghost use Rattle.unsolicited.specs.Registration.{registration_at, registration_fields};
ghost use Rattle.unsolicited.specs.Registration.{registration_text};
ghost use Rattle.unsolicited.specs.says.Registration.{says, RegistrationKeeps, StatusKeeps};

use crate::cereg::CEReg;
use crate::cgreg::CGReg;
use crate::creg::CReg;
use text::refusal::Refusal;
use text::{field, line, number, part, reader};

#[derive(Clone, Copy, Debug, PartialEq, Eq)]
pub enum RegistrationStatus {
    NotRegistered = 0,
    RegisteredHome = 1,
    Searching = 2,
    RegistrationDenied = 3,
    Unknown = 4,
    RegisteredRoaming = 5,
}

#[derive(Clone, Copy, Debug, PartialEq, Eq)]
pub struct NetworkRegistration {
    pub status: RegistrationStatus,
    // Location area code.
    pub lac: Option<u16>,
    // Cell ID.
    pub ci: Option<u32>,
}

impl From<i32> for RegistrationStatus {
    ghost from_gives = { λ number status. StatusKeeps number status };

    // By its number, in a match, since `as` makes no enum of a number; every other is as 0.
    #[tactic(auto, using(crate::proofs::Registrations::by_number))]
    fn from(number: i32) -> RegistrationStatus {
        match number {
            1 => RegistrationStatus::RegisteredHome,
            2 => RegistrationStatus::Searching,
            3 => RegistrationStatus::RegistrationDenied,
            4 => RegistrationStatus::Unknown,
            5 => RegistrationStatus::RegisteredRoaming,
            _ => RegistrationStatus::NotRegistered,
        }
    }
}

// Field n without its quotes.
fn unquoted(rest: &[u8], n: usize) -> &[u8]
    ensures { result.now ≡ trimmed (bytes "\"") (nth n (fields 44 rest.now)) }
{
    part::trim(reader::nth_field(rest, n), b'"')
}

// The status in field n, then lac and ci.
#[tactic(auto, unfolding(text::specs::Reading::need_else, crate::specs::Registration::registration_at, crate::specs::Registration::hex_in))]
fn registration_at(rest: &[u8], n: usize) -> Result<NetworkRegistration, Refusal>
    requires { n ≤ 1 }
    ensures { says result ≡ registration_at n (fields 44 rest.now) }
{
    let status = number::parse_i32(reader::nth_field(rest, n)).ok_or(Refusal::NotThisLine)?;
    Ok(NetworkRegistration {
        status: RegistrationStatus::from(status),
        lac: number::parse_hex_u16(unquoted(rest, n + 1)),
        ci: number::parse_hex_u32(unquoted(rest, n + 2)),
    })
}

// The field of so many that is the status: of 1 or 4 the first, of 2, 5 or `longest` the second; any
// other count is refused.
#[tactic(auto, using(crate::proofs::Registrations::placing))]
fn status_place(count: usize, longest: usize) -> Option<usize>
    ensures place { option_said result ≡ status_place (2 ∷ 5 ∷ longest ∷ []) count }
    ensures low { IfSome result (λ n. n ≤ 1) }
{
    if (count == 1) | (count == 4) {
        return Some(0);
    }
    if (count == 2) | (count == 5) | (count == longest) {
        return Some(1);
    }
    None
}

// Reads what follows the prefix: one to `longest` fields.
#[tactic(auto, unfolding(text::specs::Reading::only, text::specs::Reading::either, crate::specs::Registration::registration_fields))]
pub(crate) fn registration(rest: &[u8], longest: usize) -> Result<NetworkRegistration, Refusal>
    ensures { says result ≡ registration_fields (2 ∷ 5 ∷ longest ∷ []) (fields 44 rest.now) }
{
    let n = status_place(field::field_count(rest, b','), longest).ok_or(Refusal::NotThisLine)?;
    registration_at(rest, n)
}

// As `registration`, with every value forgotten: what is unreadable beside the status refuses
// nothing.
#[tactic(auto, unfolding(text::specs::Reading::only, text::specs::Reading::either, text::specs::Reading::need_else, crate::specs::Registration::registration_at, crate::specs::Registration::registration_fields))]
pub(crate) fn refusal(rest: &[u8], longest: usize) -> Result<(), Refusal>
    ensures { refusal_said result
        ≡ refusal_in (registration_fields (2 ∷ 5 ∷ longest ∷ []) (fields 44 rest.now)) }
{
    let n = status_place(field::field_count(rest, b','), longest).ok_or(Refusal::NotThisLine)?;
    number::parse_i32(reader::nth_field(rest, n)).ok_or(Refusal::NotThisLine)?;
    Ok(())
}

impl NetworkRegistration {
    #[tactic(auto, using(crate::proofs::Registrations::plain_creg, crate::proofs::Registrations::plain_cgreg), unfolding(text::specs::Reading::first_of, crate::specs::Registration::registration_text))]
    pub(crate) fn from_checked(line: &[u8]) -> Result<NetworkRegistration, Refusal>
        ensures { says result ≡ registration_text line.now }
    {
        if let Ok(value) = CReg::from_checked(line) {
            return Ok(value);
        }
        if let Ok(value) = CGReg::from_checked(line) {
            return Ok(value);
        }
        CEReg::from_checked(line)
    }

    #[tactic(auto, using(crate::proofs::Stripped::checks))]
    pub fn from_line(line: &[u8]) -> Result<NetworkRegistration, Refusal>
        ensures { RegistrationKeeps registration_text line.now result }
    {
        line::check_line(line)?;
        NetworkRegistration::from_checked(line)
    }
}
