// One of the thirteen readers, by its place in the order of trial, behind one check of the line:
// what the second engine asks (document 02, CR 6). A place is a number, and one past the last is
// refused with 3: ResponseAtKeeps has it so. A match finds the reader: a list of closures would
// first give all readers one type, and be no plainer.
#![tactic(auto, unfolding(text::specs::Line::checked, text::specs::Reading::mapped, crate::specs::Response::readings, crate::specs::Response::reading_at))]

ghost use Rattle.std.specs.Prelude.{◌≡◌};
ghost use Rattle.text.specs.Line.{refusal_by};
ghost use Rattle.text.specs.says.Refusal.{ChecksKeep};
ghost use Rattle.at_command.specs.Response.{reading_at};
ghost use Rattle.at_command.specs.says.Response.{says, ResponseAtKeeps};

use crate::ResponseCode;
use crate::ccid::Iccid;
use crate::cmgf::SmsMessageFormat;
use crate::cmgr::SmsMessage;
use crate::cntp::NetworkTime;
use crate::cops::OperatorInfo;
use crate::cpsi::SystemInfo;
use crate::csq::SignalQuality;
use crate::generic_response::{CloseOk, GenericOk, SimError, WritePrompt};
use crate::gsn::Imei;
use crate::httptofs::DownloadInfo;
use text::line;
use text::refusal::Refusal;

// What the reader at a place says, without the line check. Inlined, as `read_at` is: where only the
// refusal is wanted, no value is made.
#[inline(always)]
pub(crate) fn checked_at(place: usize, line: &[u8]) -> Result<ResponseCode, Refusal>
    ensures { says result ≡ reading_at place line.now }
{
    match place {
        0 => GenericOk::from_checked(line).map(ResponseCode::Ok),
        1 => SimError::from_checked(line).map(ResponseCode::Error),
        2 => WritePrompt::from_checked(line).map(ResponseCode::WritePrompt),
        3 => CloseOk::from_checked(line).map(ResponseCode::CloseOk),
        4 => Iccid::from_checked(line).map(ResponseCode::Iccid),
        5 => SignalQuality::from_checked(line).map(ResponseCode::SignalQuality),
        6 => SystemInfo::from_checked(line).map(ResponseCode::SystemInfo),
        7 => OperatorInfo::from_checked(line, b"0", b"").map(ResponseCode::OperatorInfo),
        8 => NetworkTime::from_checked(line).map(ResponseCode::NetworkTime),
        9 => DownloadInfo::from_checked(line).map(ResponseCode::DownloadInfo),
        10 => Imei::from_checked(line).map(ResponseCode::Imei),
        11 => SmsMessageFormat::from_checked(line).map(ResponseCode::SmsMessageFormat),
        12 => SmsMessage::from_checked(line).map(ResponseCode::SmsMessage),
        _ => Err(Refusal::NotThisLine),
    }
}

// What the reader at a place says of the line; past the last, 3.
#[inline(always)]
pub fn read_at(place: usize, line: &[u8]) -> Result<ResponseCode, Refusal>
    ensures { ResponseAtKeeps place line.now result }
{
    line::check_line(line)?;
    checked_at(place, line)
}

// The answer of `read_at` with its value forgotten.
pub fn refusal_at(place: usize, line: &[u8]) -> Result<(), Refusal>
    ensures { ChecksKeep (refusal_by (reading_at place) line.now) result }
{
    read_at(place, line)?;
    Ok(())
}
