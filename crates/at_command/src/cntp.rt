// AT+CNTP: the time of the network.
#![tactic(auto, unfolding(text::specs::Line::checked, text::specs::Reading::only, text::specs::Reading::need_else, text::specs::Reading::either, text::specs::Reading::fitting, crate::specs::Cntp::cntp_rest, crate::specs::Cntp::cntp_text))]

ghost use Rattle.std.specs.Prelude.{◌≡◌, drop};
ghost use Rattle.text.specs.Code.{code_in};
ghost use Rattle.text.specs.says.Handed.{TextKeeps};
ghost use Rattle.text.specs.says.Refusal.{option_mapped};
ghost use Rattle.at_command.specs.Cntp.{ntp_codes, cntp_rest, cntp_text};
ghost use Rattle.at_command.specs.Handed.{time_handed};
ghost use Rattle.at_command.specs.Request.{synchronize_network_time, execute};
ghost use Rattle.at_command.specs.says.Cntp.{says, code_number, NetworkTimeKeeps};
ghost use Rattle.at_command.specs.says.Request.{EncodeKeeps};

use crate::prefix;
use crate::write::{self, Command};
use text::bytes::is_text;
use text::handed::TextAt;
use text::part::Place;
use text::refusal::Refusal;
use text::{bytes, handed, line, part};

#[derive(Clone, Copy, Debug, PartialEq, Eq)]
pub enum SyncNtpStatusCode {
    Success = 1,
    NetworkError = 61,
    DnsResolutionError = 62,
    ConnectionError = 63,
    ServiceResponseError = 64,
    ServiceResponseTimeout = 65,
}

#[derive(Clone, Copy)]
pub struct NetworkTime {
    pub code: SyncNtpStatusCode,
    // Where the time stands in the line, if it is there.
    pub time: Option<Place>,
}

fn code_of(t: &[u8]) -> Option<SyncNtpStatusCode>
    ensures { option_mapped code_number result ≡ code_in ntp_codes t.now }
{
    match t {
        _ if is_text(t, b"1") => Some(SyncNtpStatusCode::Success),
        _ if is_text(t, b"61") => Some(SyncNtpStatusCode::NetworkError),
        _ if is_text(t, b"62") => Some(SyncNtpStatusCode::DnsResolutionError),
        _ if is_text(t, b"63") => Some(SyncNtpStatusCode::ConnectionError),
        _ if is_text(t, b"64") => Some(SyncNtpStatusCode::ServiceResponseError),
        _ if is_text(t, b"65") => Some(SyncNtpStatusCode::ServiceResponseTimeout),
        _ => None,
    }
}

// Reads what follows the prefix of seven bytes; the time's place is counted from the line's start.
fn network_time(line: &[u8]) -> Result<NetworkTime, Refusal>
    ensures { says result ≡ cntp_rest (drop 7 line.now) }
{
    let rest = part::skip(line, prefix::SIZE);
    let code = code_of(part::before_byte(rest, b',')).ok_or(Refusal::NotThisLine)?;
    if !bytes::has_byte(rest, b',') {
        return Ok(NetworkTime { code, time: None });
    }
    if 32 < part::after_byte(rest, b',').len() {
        return Err(Refusal::TextTooLong);
    }
    let start = bytes::find(line, prefix::SIZE, b',') + 1;
    Ok(NetworkTime {
        code,
        time: Some(Place {
            start,
            end: line.len(),
        }),
    })
}

// The place of no text. A time that the line lacks is handed out as an empty part of the line,
// which has a place (TextKeeps, time_handed).
const NOWHERE: Place = Place { start: 0, end: 0 };

impl NetworkTime {
    pub(crate) fn from_checked(line: &[u8]) -> Result<NetworkTime, Refusal>
        ensures { says result ≡ cntp_text line.now }
    {
        prefix::strip(line, b"+CNTP: ").ok_or(Refusal::NotThisLine)?;
        network_time(line)
    }

    pub fn from_line(line: &[u8]) -> Result<NetworkTime, Refusal>
        ensures { NetworkTimeKeeps line.now result }
    {
        line::check_line(line)?;
        NetworkTime::from_checked(line)
    }

    // The time, empty where the line has none.
    pub fn time_text<'a>(line: &'a [u8]) -> Result<&'a [u8], Refusal>
        ensures { TextKeeps line.entry line.entry (time_handed line.now) result }
    {
        let time = NetworkTime::from_line(line)?.time.unwrap_or(NOWHERE);
        Ok(handed::cut(TextAt::InLine(time), line, line))
    }
}

// AT+CNTP="<ntp_server>",<timezone>,<cid>
#[derive(Clone, Copy)]
pub struct SynchronizeNetworkTime {
    pub timezone: u16,
    pub cid: u8,
}

impl SynchronizeNetworkTime {
    pub fn encode(self, ntp_server: &[u8], out: &mut [u8]) -> Result<usize, Refusal>
        ensures { EncodeKeeps (synchronize_network_time ntp_server.now self.timezone self.cid) out.old result out.new }
    {
        write::check_texts(ntp_server, 64, b"", 0)?;
        let mut command = Command::new();
        command.text(b"AT+CNTP=");
        command.quoted(ntp_server);
        command.byte(b',');
        command.decimal(self.timezone);
        command.byte(b',');
        command.decimal(self.cid as u16);
        command.byte(b'\r');
        command.write_to(out)
    }
}

// AT+CNTP
#[derive(Clone, Copy)]
pub struct Execute;

impl Execute {
    pub fn encode(self, out: &mut [u8]) -> Result<usize, Refusal>
        ensures { EncodeKeeps execute out.old result out.new }
    {
        write::plain(b"AT+CNTP\r", out)
    }
}
