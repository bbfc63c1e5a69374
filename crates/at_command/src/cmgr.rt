// AT+CMGR: an SMS message.
#![tactic(auto, unfolding(text::specs::Line::checked, text::specs::Reading::only, text::specs::Reading::fitting, crate::specs::Cmgr::cmgr_fields, crate::specs::Cmgr::cmgr_text))]

ghost use Rattle.std.specs.Prelude.{◌≡◌, drop};
ghost use Rattle.text.specs.Field.{fields};
ghost use Rattle.text.specs.says.Handed.{TextKeeps};
ghost use Rattle.at_command.specs.Cmgr.{cmgr_fields, cmgr_text};
ghost use Rattle.at_command.specs.Handed.{sender_handed};
ghost use Rattle.at_command.specs.Request.{read_sms};
ghost use Rattle.at_command.specs.says.Cmgr.{says, SmsMessageKeeps};
ghost use Rattle.at_command.specs.says.Request.{EncodeKeeps};

use crate::write::Command;
use crate::{prefix, unquoted};
use text::handed::TextAt;
use text::part::Place;
use text::refusal::Refusal;
use text::{field, handed, line, part, reader};

// The sender's place in the line. The message's text is empty, as in the Rust.
#[derive(Clone, Copy)]
pub struct SmsMessage {
    pub sender: Place,
}

// Reads what follows the prefix of seven bytes.
fn sms_message(line: &[u8]) -> Result<SmsMessage, Refusal>
    ensures { says result ≡ cmgr_fields (fields 44 (drop 7 line.now)) }
{
    let rest = part::skip(line, prefix::SIZE);
    if field::field_count(rest, b',') < 3 {
        return Err(Refusal::NotThisLine);
    }
    if 20 < part::trim(reader::nth_field(rest, 1), b'"').len() {
        return Err(Refusal::TextTooLong);
    }
    Ok(SmsMessage {
        sender: unquoted::unquoted_field(line, 1),
    })
}

impl SmsMessage {
    pub(crate) fn from_checked(line: &[u8]) -> Result<SmsMessage, Refusal>
        ensures { says result ≡ cmgr_text line.now }
    {
        prefix::strip(line, b"+CMGR: ").ok_or(Refusal::NotThisLine)?;
        sms_message(line)
    }

    pub fn from_line(line: &[u8]) -> Result<SmsMessage, Refusal>
        ensures { SmsMessageKeeps line.now result }
    {
        line::check_line(line)?;
        SmsMessage::from_checked(line)
    }

    // The sender.
    pub fn sender_text<'a>(line: &'a [u8]) -> Result<&'a [u8], Refusal>
        ensures { TextKeeps line.entry line.entry (sender_handed line.now) result }
    {
        let message = SmsMessage::from_line(line)?;
        Ok(handed::cut(TextAt::InLine(message.sender), line, line))
    }
}

// AT+CMGR=<index>
#[derive(Clone, Copy)]
pub struct ReadSms {
    pub index: u8,
}

impl ReadSms {
    pub fn encode(self, out: &mut [u8]) -> Result<usize, Refusal>
        ensures { EncodeKeeps (read_sms self.index) out.old result out.new }
    {
        let mut command = Command::new();
        command.text(b"AT+CMGR=");
        command.decimal(self.index as u16);
        command.byte(b'\r');
        command.write_to(out)
    }
}
