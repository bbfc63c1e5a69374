// AT+CCID: the number of the SIM card.
#![tactic(auto, unfolding(text::specs::Line::checked, text::specs::Reading::only, text::specs::Reading::need_else, text::specs::Reading::sized, crate::specs::Ccid::card_text, crate::specs::Ccid::iccid_text))]

ghost use Rattle.std.specs.Prelude.{◌≡◌};
ghost use Rattle.at_command.specs.Ccid.{card_text, iccid_text};
ghost use Rattle.at_command.specs.Request.{show_iccid};
ghost use Rattle.at_command.specs.says.Ccid.{says, IccidKeeps};
ghost use Rattle.at_command.specs.says.Request.{EncodeKeeps};

use crate::write;
use text::refusal::Refusal;
use text::{bytes, line, number, part};

#[derive(Clone, Copy, Debug, PartialEq, Eq)]
pub struct Iccid {
    pub country: u8,
    pub issuer: u8,
    pub account: u64,
}

// Reads a number whose padding is gone.
fn card(t: &[u8]) -> Result<Iccid, Refusal>
    ensures { says result ≡ card_text t.now }
{
    if t.len() < 19 || 20 < t.len() {
        return Err(Refusal::NotThisLine);
    }
    if !bytes::starts_with(t, b"89") {
        return Err(Refusal::NotThisLine);
    }
    let country = number::parse_u8(part::part(t, 2, 4)).ok_or(Refusal::NotThisLine)?;
    let issuer = number::parse_u8(part::part(t, 4, 6)).ok_or(Refusal::NotThisLine)?;
    let account = number::parse_u64(part::skip(t, 6)).ok_or(Refusal::NotThisLine)?;
    Ok(Iccid {
        country,
        issuer,
        account,
    })
}

impl Iccid {
    pub(crate) fn from_checked(line: &[u8]) -> Result<Iccid, Refusal>
        ensures { says result ≡ iccid_text line.now }
    {
        card(part::trim_end(line, b'f', b'F'))
    }

    pub fn from_line(line: &[u8]) -> Result<Iccid, Refusal>
        ensures { IccidKeeps line.now result }
    {
        line::check_line(line)?;
        Iccid::from_checked(line)
    }
}

// AT+CCID
#[derive(Clone, Copy)]
pub struct ShowIccid;

impl ShowIccid {
    pub fn encode(self, out: &mut [u8]) -> Result<usize, Refusal>
        ensures { EncodeKeeps show_iccid out.old result out.new }
    {
        write::plain(b"AT+CCID\r", out)
    }
}
