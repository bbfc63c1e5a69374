// The modem's unsolicited codes, a module for each file of the Rust's at_command/unsolicited, and
// their trial. Each `from_line` is the Rust's public name, with the contract of its own that the
// theorems cite: a trait over them would need both in each impl. Each `from_checked` and
// `refusal_checked` has a prefix, a reader and a contract of its own: one function for all would be
// handed the three, and be no plainer.
#![tactic(auto)]

mod calendar;
pub mod cereg;
pub mod cgreg;
pub mod creg;
pub mod network_registration;
mod prefix;
pub mod straight;
pub mod ugnsinf;

ghost use Rattle.std.specs.Prelude.{◌≡◌};
ghost use Rattle.text.specs.Gives.{Gives};
ghost use Rattle.unsolicited.specs.Urc.{begins, urc_text};
ghost use Rattle.unsolicited.specs.says.Urc.{says, UrcKeeps};

use crate::network_registration::NetworkRegistration;
use crate::ugnsinf::GnssReport;
use text::refusal::Refusal;
use text::{bytes, line};

#[derive(Clone, Copy, Debug, PartialEq)]
pub enum Urc {
    GnssReport(GnssReport),
    NetworkRegistration(NetworkRegistration),
}

impl Urc {
    // The trial, without the line check.
    pub(crate) fn from_checked(line: &[u8]) -> Result<Urc, Refusal>
        ensures { says result ≡ urc_text line.now }
    {
        let refusal = match GnssReport::from_checked(line) {
            Ok(report) => return Ok(Urc::GnssReport(report)),
            Err(refusal) => refusal,
        };
        match NetworkRegistration::from_checked(line) {
            Ok(registration) => Ok(Urc::NetworkRegistration(registration)),
            Err(later) => Err(refusal.worse(later)),
        }
    }

    // Whether the line begins as an unsolicited one does: a caller need not ask the readers of any
    // other.
    #[tactic(auto, unfolding(crate::specs::Urc::begins))]
    pub fn begins(line: &[u8]) -> bool
        ensures { Gives (begins line.now) result }
    {
        bytes::starts_with(line, b"+UGNSINF: ")
            || bytes::starts_with(line, b"+CREG: ")
            || bytes::starts_with(line, b"+CGREG: ")
            || bytes::starts_with(line, b"+CEREG: ")
    }

    #[tactic(auto, using(crate::proofs::Stripped::checks))]
    pub fn from_line(line: &[u8]) -> Result<Urc, Refusal>
        ensures { UrcKeeps line.now result }
    {
        line::check_line(line)?;
        Urc::from_checked(line)
    }
}
