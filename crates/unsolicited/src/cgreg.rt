// +CGREG: the registration in the packet-switched network.
ghost use Rattle.std.specs.Prelude.{◌≡◌};
ghost use Rattle.text.specs.Reading.{refusal_in};
ghost use Rattle.text.specs.says.Refusal.{refusal_said};
ghost use Rattle.unsolicited.specs.Registration.{cgreg_text};
ghost use Rattle.unsolicited.specs.says.Registration.{says, RegistrationKeeps};

use crate::network_registration::NetworkRegistration;
use crate::{network_registration, prefix};
use text::line;
use text::refusal::Refusal;

#[derive(Clone, Copy)]
pub struct CGReg;

impl CGReg {
    #[tactic(auto, unfolding(text::specs::Reading::only, crate::specs::Registration::cgreg_text))]
    pub(crate) fn from_checked(line: &[u8]) -> Result<NetworkRegistration, Refusal>
        ensures { says result ≡ cgreg_text line.now }
    {
        let rest = prefix::behind(line, b"+CGREG: ")?;
        network_registration::registration(rest, 8)
    }

    #[tactic(auto, using(crate::proofs::Stripped::checks))]
    pub fn from_line(line: &[u8]) -> Result<NetworkRegistration, Refusal>
        ensures { RegistrationKeeps cgreg_text line.now result }
    {
        line::check_line(line)?;
        CGReg::from_checked(line)
    }

    // The answer of `from_checked` with its value forgotten.
    #[tactic(auto, unfolding(text::specs::Reading::only, crate::specs::Registration::cgreg_text))]
    pub(crate) fn refusal_checked(line: &[u8]) -> Result<(), Refusal>
        ensures { refusal_said result ≡ refusal_in (cgreg_text line.now) }
    {
        let rest = prefix::behind(line, b"+CGREG: ")?;
        network_registration::refusal(rest, 8)
    }
}
