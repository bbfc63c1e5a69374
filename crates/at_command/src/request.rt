// The requests under one name: what each writes, and the answers that it awaits.
ghost use Rattle.text.specs.Gives.{Gives};
ghost use Rattle.at_command.specs.Kind.{place_of};
ghost use Rattle.at_command.specs.says.Request.{kind_says, asked, KindAtKeeps, EncodeKeeps, AwaitsKeeps};

use crate::ccid::ShowIccid;
use crate::cmgf::{GetSmsMessageFormat, SetSmsMessageFormat, SmsMessageFormat};
use crate::cmgr::ReadSms;
use crate::cntp::{Execute, SynchronizeNetworkTime};
use crate::cops::{GetOperatorInfo, SetAutomaticOperator, SetManualOperator};
use crate::cpsi::GetSystemInfo;
use crate::csq::GetSignalQuality;
use crate::gsn::GetImei;
use crate::httptofs::DownloadToFileSystem;
use text::refusal::Refusal;

// The kinds of response, in the order of trial.
#[derive(Clone, Copy, Debug, PartialEq, Eq)]
pub enum ResponseKind {
    GenericOk = 0,
    SimError = 1,
    WritePrompt = 2,
    CloseOk = 3,
    Iccid = 4,
    SignalQuality = 5,
    SystemInfo = 6,
    OperatorInfo = 7,
    NetworkTime = 8,
    DownloadInfo = 9,
    Imei = 10,
    SmsMessageFormat = 11,
    SmsMessage = 12,
}

// In the order of their numbers. A static: of a const array a copy is laid on the stack at each use.
static KINDS: [ResponseKind; 13] = [
    ResponseKind::GenericOk,
    ResponseKind::SimError,
    ResponseKind::WritePrompt,
    ResponseKind::CloseOk,
    ResponseKind::Iccid,
    ResponseKind::SignalQuality,
    ResponseKind::SystemInfo,
    ResponseKind::OperatorInfo,
    ResponseKind::NetworkTime,
    ResponseKind::DownloadInfo,
    ResponseKind::Imei,
    ResponseKind::SmsMessageFormat,
    ResponseKind::SmsMessage,
];

impl ResponseKind {
    // How many kinds are tried before this one.
    pub fn place(self) -> u8
        ensures { Gives (place_of (kind_says self)) result }
    {
        self as u8
    }

    // The kind at a place; past the last, the last. The place is a number, since C hands over one,
    // and KindAtKeeps answers every number.
    pub fn at(place: u64) -> ResponseKind
        ensures { KindAtKeeps place result }
    {
        KINDS[place.min(12) as usize]
    }
}

// The answers that a request awaits, in order.
#[derive(Clone, Copy, Debug, PartialEq, Eq)]
pub enum Awaits {
    One(ResponseKind),
    Two(ResponseKind, ResponseKind),
}

// A request without its texts, which are lent beside it.
#[derive(Clone, Copy, Debug, PartialEq, Eq)]
pub enum Request {
    GetSignalQuality,
    ShowIccid,
    GetImei,
    GetOperatorInfo,
    SetManualOperator,
    SetAutomaticOperator,
    GetSystemInfo,
    SynchronizeNetworkTime { timezone: u16, cid: u8 },
    Execute,
    DownloadToFileSystem,
    GetSmsMessageFormat,
    SetSmsMessageFormat(SmsMessageFormat),
    ReadSms { index: u8 },
}

impl Request {
    pub fn awaits(self) -> Awaits
        ensures { AwaitsKeeps self result }
    {
        use Awaits::{One, Two};
        use ResponseKind::GenericOk;

        match self {
            Request::GetSignalQuality => Two(ResponseKind::SignalQuality, GenericOk),
            Request::ShowIccid => Two(ResponseKind::Iccid, GenericOk),
            Request::GetImei => Two(ResponseKind::Imei, GenericOk),
            Request::GetOperatorInfo => Two(ResponseKind::OperatorInfo, GenericOk),
            Request::GetSystemInfo => Two(ResponseKind::SystemInfo, GenericOk),
            Request::Execute => Two(GenericOk, ResponseKind::NetworkTime),
            Request::DownloadToFileSystem => Two(GenericOk, ResponseKind::DownloadInfo),
            Request::GetSmsMessageFormat => Two(ResponseKind::SmsMessageFormat, GenericOk),
            Request::ReadSms { .. } => Two(ResponseKind::SmsMessage, GenericOk),
            Request::SetManualOperator
            | Request::SetAutomaticOperator
            | Request::SynchronizeNetworkTime { .. }
            | Request::SetSmsMessageFormat(_) => One(GenericOk),
        }
    }

    // The size of the command that was written, or the refusal: 5, 12, 6 or 7. SetManualOperator's
    // plmn, SynchronizeNetworkTime's ntp_server and DownloadToFileSystem's url are `first`, and the
    // last one's file_path is `second`; the other requests have no texts. A match, since each has
    // an `encode` of its own, and is handed the texts that it has.
    pub fn encode(self, first: &[u8], second: &[u8], out: &mut [u8]) -> Result<usize, Refusal>
        ensures { EncodeKeeps (asked self first.now second.now) out.old result out.new }
    {
        match self {
            Request::GetSignalQuality => GetSignalQuality.encode(out),
            Request::ShowIccid => ShowIccid.encode(out),
            Request::GetImei => GetImei.encode(out),
            Request::GetOperatorInfo => GetOperatorInfo.encode(out),
            Request::SetManualOperator => SetManualOperator.encode(first, out),
            Request::SetAutomaticOperator => SetAutomaticOperator.encode(out),
            Request::GetSystemInfo => GetSystemInfo.encode(out),
            Request::SynchronizeNetworkTime { timezone, cid } => {
                SynchronizeNetworkTime { timezone, cid }.encode(first, out)
            }
            Request::Execute => Execute.encode(out),
            Request::DownloadToFileSystem => DownloadToFileSystem.encode(first, second, out),
            Request::GetSmsMessageFormat => GetSmsMessageFormat.encode(out),
            Request::SetSmsMessageFormat(format) => SetSmsMessageFormat(format).encode(out),
            Request::ReadSms { index } => ReadSms { index }.encode(out),
        }
    }
}
