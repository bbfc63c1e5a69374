// AT+CMGF: the format of SMS messages.
#![tactic(auto, unfolding(text::specs::Line::checked, text::specs::Reading::only, text::specs::Reading::need_else, crate::specs::Cmgf::cmgf_text))]

ghost use Rattle.std.specs.Prelude.{◌≡◌};
ghost use Rattle.text.specs.Code.{code_in};
ghost use Rattle.text.specs.says.Refusal.{option_mapped};
ghost use Rattle.at_command.specs.Cmgf.{message_formats, cmgf_text};
ghost use Rattle.at_command.specs.Request.{get_sms_message_format, set_sms_message_format};
ghost use Rattle.at_command.specs.says.Cmgf.{says, format_number, SmsMessageFormatKeeps};
ghost use Rattle.at_command.specs.says.Request.{EncodeKeeps};

use crate::{prefix, write};
use text::bytes::is_text;
use text::line;
use text::refusal::Refusal;

#[derive(Clone, Copy, Debug, PartialEq, Eq)]
pub enum SmsMessageFormat {
    Pdu = 0,
    Text = 1,
}

fn format_of(t: &[u8]) -> Option<SmsMessageFormat>
    ensures { option_mapped format_number result ≡ code_in message_formats t.now }
{
    match t {
        _ if is_text(t, b"0") => Some(SmsMessageFormat::Pdu),
        _ if is_text(t, b"1") => Some(SmsMessageFormat::Text),
        _ => None,
    }
}

impl SmsMessageFormat {
    pub(crate) fn from_checked(line: &[u8]) -> Result<SmsMessageFormat, Refusal>
        ensures { says result ≡ cmgf_text line.now }
    {
        let rest = prefix::strip(line, b"+CMGF: ").ok_or(Refusal::NotThisLine)?;
        format_of(rest).ok_or(Refusal::NotThisLine)
    }

    pub fn from_line(line: &[u8]) -> Result<SmsMessageFormat, Refusal>
        ensures { SmsMessageFormatKeeps line.now result }
    {
        line::check_line(line)?;
        SmsMessageFormat::from_checked(line)
    }
}

// AT+CMGF?
#[derive(Clone, Copy)]
pub struct GetSmsMessageFormat;

impl GetSmsMessageFormat {
    pub fn encode(self, out: &mut [u8]) -> Result<usize, Refusal>
        ensures { EncodeKeeps get_sms_message_format out.old result out.new }
    {
        write::plain(b"AT+CMGF?\r", out)
    }
}

// AT+CMGF=<format>
#[derive(Clone, Copy)]
pub struct SetSmsMessageFormat(pub SmsMessageFormat);

impl SetSmsMessageFormat {
    pub fn encode(self, out: &mut [u8]) -> Result<usize, Refusal>
        ensures { EncodeKeeps (set_sms_message_format (format_number self.0)) out.old result out.new }
    {
        let format = self.0;
        match format {
            SmsMessageFormat::Pdu => write::plain(b"AT+CMGF=0\r", out),
            SmsMessageFormat::Text => write::plain(b"AT+CMGF=1\r", out),
        }
    }
}
