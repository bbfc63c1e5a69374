// A request by its number, and its command written. Numbers for kinds, and what is lent one by one,
// are the C interface (bindings/c/sim7000.h).
ghost use Rattle.std.specs.Prelude.{◌≡◌, List, ℕ};
ghost use Rattle.text.specs.says.Refusal.{refusal_said};
ghost use Rattle.sim7000.specs.Command.{format_asked, asked_by};
ghost use Rattle.sim7000.specs.Command.{write_left, writes, ExportWriteKeeps};
ghost use Rattle.sim7000.specs.says.Wanted.{wanted_says};

use crate::numbers::status;
use at_command::cmgf::SmsMessageFormat;
use at_command::request::Request;
use text::refusal::Refusal;

#[tactic(auto, using(crate::proofs::Asking::format_none), unfolding(crate::specs::Command::format_asked))]
fn set_format(code: u8) -> Option<Request>
    ensures { (first second : List ℕ) → wanted_says result first second ≡ format_asked code }
{
    match code {
        0 => Some(Request::SetSmsMessageFormat(SmsMessageFormat::Pdu)),
        1 => Some(Request::SetSmsMessageFormat(SmsMessageFormat::Text)),
        _ => None,
    }
}

// The request that a number stands for.
#[tactic(auto, using(crate::proofs::Asking::asked_none), unfolding(crate::specs::Command::asked_by))]
pub(crate) fn request_in(request: u8, number: u16, code: u8) -> Option<Request>
    ensures { (first second : List ℕ)
        → wanted_says result first second ≡ asked_by request number code first second }
{
    match request {
        0 => Some(Request::GetSignalQuality),
        1 => Some(Request::ShowIccid),
        2 => Some(Request::GetImei),
        3 => Some(Request::GetOperatorInfo),
        4 => Some(Request::SetManualOperator),
        5 => Some(Request::SetAutomaticOperator),
        6 => Some(Request::GetSystemInfo),
        7 => Some(Request::SynchronizeNetworkTime {
            timezone: number,
            cid: code,
        }),
        8 => Some(Request::Execute),
        9 => Some(Request::DownloadToFileSystem),
        10 => Some(Request::GetSmsMessageFormat),
        11 => set_format(code),
        12 => Some(Request::ReadSms { index: code }),
        _ => None,
    }
}

// A number that is no request is refused with 3.
#[tactic(auto, using(crate::proofs::Asking::writes_none))]
fn write(
    request: Option<Request>,
    first: &[u8],
    second: &[u8],
    out: &mut [u8],
    size: &mut u64,
) -> Result<(), Refusal>
    ensures { write_left (refusal_said result) out.new size.new
        ≡ writes (wanted_says request first.now second.now) out.old size.old }
{
    let request = request.ok_or(Refusal::NotThisLine)?;
    *size = request.encode(first, second, out)? as u64;
    Ok(())
}

// 0, the command in front of `out` and its size; or the refusal, 3 for a number that is no request,
// and both as they were.
#[unsafe(no_mangle)]
pub extern "C" fn sim7000_write_command(
    request: u8,
    number: u16,
    code: u8,
    first: &[u8],
    second: &[u8],
    out: &mut [u8],
    size: &mut u64,
) -> u8
    ensures { ExportWriteKeeps request number code first.now second.now out.old size.old
        result out.new size.new }
{
    status(write(request_in(request, number, code), first, second, out, size))
}
