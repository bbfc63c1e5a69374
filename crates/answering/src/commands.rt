// Writes commands: for a request, its fields parted by one TAB, the command's bytes, `refused` and the number, or `unknown` where the line is no request.
// A CR is a byte of the request.
use crate::show::Refused;
use at_command::cmgf::SmsMessageFormat;
use at_command::request::Request;
use std::io;
use std::io::Write;
use text::{bytes, field, number, part};

// A longer line is unknown: of one that long some bytes may be gone (see console::input).
pub(crate) const LONGEST: usize = 32767;

pub(crate) fn answer(out: &mut impl Write, line: &[u8]) -> io::Result<()> {
    match request_of(line) {
        Some(request) if line.len() <= LONGEST => command(out, request, line),
        _ => write!(out, "unknown"),
    }
}

// The request that a line asks for: its name, and so many fields behind it.
pub(crate) fn request_of(line: &[u8]) -> Option<Request> {
    let mut fields = line.split(|byte| *byte == b'\t');
    let name = fields.next()?;
    match (fields.next(), fields.next(), fields.next(), fields.next()) {
        (None, ..) => without_fields(name),
        (Some(argument), None, ..) => with_one(name, argument),
        (Some(_), Some(_), None, _) if bytes::is_text(name, b"DownloadToFileSystem") => {
            Some(Request::DownloadToFileSystem)
        }
        (Some(_), Some(timezone), Some(cid), None)
            if bytes::is_text(name, b"SynchronizeNetworkTime") => {
            let timezone = number::parse_u16(timezone)?;
            let cid = number::parse_u8(cid)?;
            Some(Request::SynchronizeNetworkTime { timezone, cid })
        }
        _ => None,
    }
}

// The names, here and below, are those of the input: neither FromStr nor TryFrom can be written
// here, since these and the requests are all of other crates.
fn without_fields(name: &[u8]) -> Option<Request> {
    match name {
        b"GetSignalQuality" => Some(Request::GetSignalQuality),
        b"ShowIccid" => Some(Request::ShowIccid),
        b"GetImei" => Some(Request::GetImei),
        b"GetOperatorInfo" => Some(Request::GetOperatorInfo),
        b"SetAutomaticOperator" => Some(Request::SetAutomaticOperator),
        b"GetSystemInfo" => Some(Request::GetSystemInfo),
        b"Execute" => Some(Request::Execute),
        b"GetSmsMessageFormat" => Some(Request::GetSmsMessageFormat),
        _ => None,
    }
}

fn with_one(name: &[u8], argument: &[u8]) -> Option<Request> {
    match name {
        b"SetManualOperator" => Some(Request::SetManualOperator),
        b"SetSmsMessageFormat" => message_format(argument).map(Request::SetSmsMessageFormat),
        b"ReadSms" => number::parse_u8(argument).map(|index| Request::ReadSms { index }),
        _ => None,
    }
}

fn message_format(text: &[u8]) -> Option<SmsMessageFormat> {
    match text {
        b"Pdu" => Some(SmsMessageFormat::Pdu),
        b"Text" => Some(SmsMessageFormat::Text),
        _ => None,
    }
}

// The texts of a request are its first fields. The array is lent to `encode`, which writes in no
// other way.
fn command(out: &mut impl Write, request: Request, line: &[u8]) -> io::Result<()> {
    let mut command = [0u8; 256];
    let first = field::field(line, b'\t', 1);
    let second = field::field(line, b'\t', 2);
    match request.encode(first, second, &mut command) {
        Ok(n) => out.write_all(part::part(&command, 0, n)),
        Err(refusal) => write!(out, "{}", Refused(refusal)),
    }
}
