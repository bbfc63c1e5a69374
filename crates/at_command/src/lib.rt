// The modem's commands and the responses to them, a module for each file of the Rust's at_command;
// of what is ported, what that names at its root is named here. Each `from_line` is the Rust's
// public name, with the contract of its own that the theorems cite, and so is each `encode` of one
// line, and each call that hands a text out: a trait over them would need both in each impl, and no
// reader without the check of the line is public. Each `from_checked` has a prefix, a reader and a
// contract of its own: one function for all would be handed the three, and be no plainer.
#![tactic(auto)]

ghost use Rattle.std.specs.Prelude.{◌≡◌, ◌<◌};
ghost use Rattle.at_command.specs.Response.{response_text};
ghost use Rattle.at_command.specs.says.Response.{says, TriedTo, TriedKeeps, ResponseCodeKeeps, KindKeeps};

pub use ccid::{Iccid, ShowIccid};
pub use cmgf::{GetSmsMessageFormat, SetSmsMessageFormat, SmsMessageFormat};
use cmgr::SmsMessage;
use cntp::NetworkTime;
pub use cntp::{Execute, SynchronizeNetworkTime};
pub use cops::{
    GetOperatorInfo, OperatorFormat, OperatorInfo, OperatorMode, SetAutomaticOperator,
    SetManualOperator,
};
pub use cpsi::{GetSystemInfo, SystemInfo, SystemMode};
pub use csq::{GetSignalQuality, SignalQuality};
pub use generic_response::{CloseOk, GenericOk, SimError, WritePrompt};
pub use gsn::{GetImei, Imei};
use httptofs::DownloadInfo;
pub use httptofs::DownloadToFileSystem;
pub use request::{Awaits, Request, ResponseKind};
use text::line;
use text::refusal::Refusal;

pub mod ccid;
pub mod cmgf;
pub mod cmgr;
pub mod cntp;
pub mod cops;
pub mod cpsi;
pub mod csq;
pub mod generic_response;
pub mod gsn;
pub mod httptofs;
mod prefix;
pub mod request;
pub mod straight;
mod unquoted;
mod write;

#[derive(Clone, Copy)]
pub enum ResponseCode {
    Ok(GenericOk),
    Error(SimError),
    WritePrompt(WritePrompt),
    CloseOk(CloseOk),
    Iccid(Iccid),
    SignalQuality(SignalQuality),
    SystemInfo(SystemInfo),
    OperatorInfo(OperatorInfo),
    NetworkTime(NetworkTime),
    DownloadInfo(DownloadInfo),
    Imei(Imei),
    SmsMessageFormat(SmsMessageFormat),
    SmsMessage(SmsMessage),
}

// Asks the reader at a place, when those before it refused: the worst refusal so far, where it
// refuses too; else what it says, as the Err that ends the trial.
#[inline(always)]
fn tried(place: usize, line: &[u8], refusal: Refusal) -> Result<Refusal, ResponseCode>
    requires { (place < 13) × TriedTo place line.now refusal }
    ensures { TriedKeeps place line.now result }
{
    match straight::checked_at(place, line) {
        Ok(code) => Err(code),
        Err(other) => Ok(refusal.worse(other)),
    }
}

// All readers in their order. A line for each: by a loop, which chooses the reader at each turn, the
// short lines took up to twice as long.
fn tried_all(line: &[u8]) -> Result<Refusal, ResponseCode>
    ensures { TriedKeeps 12 line.now result }
{
    let refusal = tried(0, line, Refusal::NotThisLine)?;
    let refusal = tried(1, line, refusal)?;
    let refusal = tried(2, line, refusal)?;
    let refusal = tried(3, line, refusal)?;
    let refusal = tried(4, line, refusal)?;
    let refusal = tried(5, line, refusal)?;
    let refusal = tried(6, line, refusal)?;
    let refusal = tried(7, line, refusal)?;
    let refusal = tried(8, line, refusal)?;
    let refusal = tried(9, line, refusal)?;
    let refusal = tried(10, line, refusal)?;
    let refusal = tried(11, line, refusal)?;
    tried(12, line, refusal)
}

impl ResponseCode {
    // The trial, without the line check: the first reader that accepts, else the worst refusal.
    pub(crate) fn from_checked(line: &[u8]) -> Result<ResponseCode, Refusal>
        ensures { says result ≡ response_text line.now }
    {
        match tried_all(line) {
            Ok(refusal) => Err(refusal),
            Err(code) => Ok(code),
        }
    }

    #[tactic(auto, unfolding(text::specs::Line::checked))]
    pub fn from_line(line: &[u8]) -> Result<ResponseCode, Refusal>
        ensures { ResponseCodeKeeps line.now result }
    {
        line::check_line(line)?;
        ResponseCode::from_checked(line)
    }

    pub fn kind(self) -> ResponseKind
        ensures { KindKeeps self result }
    {
        match self {
            ResponseCode::Ok(_) => ResponseKind::GenericOk,
            ResponseCode::Error(_) => ResponseKind::SimError,
            ResponseCode::WritePrompt(_) => ResponseKind::WritePrompt,
            ResponseCode::CloseOk(_) => ResponseKind::CloseOk,
            ResponseCode::Iccid(_) => ResponseKind::Iccid,
            ResponseCode::SignalQuality(_) => ResponseKind::SignalQuality,
            ResponseCode::SystemInfo(_) => ResponseKind::SystemInfo,
            ResponseCode::OperatorInfo(_) => ResponseKind::OperatorInfo,
            ResponseCode::NetworkTime(_) => ResponseKind::NetworkTime,
            ResponseCode::DownloadInfo(_) => ResponseKind::DownloadInfo,
            ResponseCode::Imei(_) => ResponseKind::Imei,
            ResponseCode::SmsMessageFormat(_) => ResponseKind::SmsMessageFormat,
            ResponseCode::SmsMessage(_) => ResponseKind::SmsMessage,
        }
    }
}
