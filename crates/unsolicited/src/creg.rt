// +CREG: the registration in the circuit-switched network.
ghost use Rattle.std.specs.Prelude.{◌≡◌};
ghost use Rattle.text.specs.Reading.{refusal_in};
ghost use Rattle.text.specs.says.Refusal.{refusal_said};
ghost use Rattle.unsolicited.specs.Registration.{creg_text};
ghost use Rattle.unsolicited.specs.says.Registration.{says, RegistrationKeeps};

use crate::network_registration::NetworkRegistration;
use crate::{network_registration, prefix};
use text::line;
use text::refusal::Refusal;

#[derive(Clone, Copy)]
pub struct CReg;

impl CReg {
    #[tactic(auto, using(crate::proofs::Registrations::fields_five), unfolding(text::specs::Reading::only, crate::specs::Registration::creg_text))]
    pub(crate) fn from_checked(line: &[u8]) -> Result<NetworkRegistration, Refusal>
        ensures { says result ≡ creg_text line.now }
    {
        let rest = prefix::behind(line, b"+CREG: ")?;
        network_registration::registration(rest, 5)
    }

    #[tactic(auto, using(crate::proofs::Stripped::checks))]
    pub fn from_line(line: &[u8]) -> Result<NetworkRegistration, Refusal>
        ensures { RegistrationKeeps creg_text line.now result }
    {
        line::check_line(line)?;
        CReg::from_checked(line)
    }

    // The answer of `from_checked` with its value forgotten.
    #[tactic(auto, using(crate::proofs::Registrations::fields_five), unfolding(text::specs::Reading::only, crate::specs::Registration::creg_text))]
    pub(crate) fn refusal_checked(line: &[u8]) -> Result<(), Refusal>
        ensures { refusal_said result ≡ refusal_in (creg_text line.now) }
    {
        let rest = prefix::behind(line, b"+CREG: ")?;
        network_registration::refusal(rest, 5)
    }
}
