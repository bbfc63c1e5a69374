// The desk in lent parts: opened, fed, reset. Numbers for kinds, and what is lent one by one, are
// the C interface (bindings/c/sim7000.h): what the exports call is handed the same.
ghost use Rattle.std.specs.Prelude.{◌≡◌, List, ℕ, length};
ghost use Rattle.text.specs.says.Refusal.{refusal_said};
ghost use Rattle.desk.specs.Rules.{plain_mode, echo_mode};
ghost use Rattle.desk.specs.Says.{feed_says};
ghost use Rattle.sim7000.specs.Command.{open_left, opens, ExportOpenKeeps, ExportOpenEchoKeeps};
ghost use Rattle.sim7000.specs.Parts.{told_of, ExportFeedKeeps};
ghost use Rattle.sim7000.specs.Parts.{ExportResetKeeps, ExportIsOpenKeeps};
ghost use Rattle.sim7000.specs.says.Left.{LeaveKeeps};
ghost use Rattle.sim7000.specs.says.Wanted.{wanted_says};

use crate::numbers;
use crate::numbers::status;
use crate::request::request_in;
use at_command::request::Request;
use desk::{Feed, OpenedParts};
use text::refusal::Refusal;

// Zeros are the state after it: idle, no echo awaited, nothing held, and no line counted.
#[unsafe(no_mangle)]
pub extern "C" fn sim7000_reset(state: &mut [u64; 4])
    ensures { ExportResetKeeps state.old state.new }
{
    *state = [0; 4];
}

// 1 while a command is open, else 0.
#[unsafe(no_mangle)]
pub extern "C" fn sim7000_is_open(state: &[u64; 4]) -> u8
    ensures { ExportIsOpenKeeps state.now result }
{
    numbers::command_in(state[1]).is_some().into()
}

// What an open leaves in the numbers; a refusal leaves them.
fn leave(opened: OpenedParts, state: &mut [u64; 4], size: &mut u64) -> Result<(), Refusal>
    ensures { LeaveKeeps opened state.old size.old (refusal_said result) state.new size.new }
{
    *size = opened.answer? as u64;
    *state = numbers::numbers_of(opened.state);
    Ok(())
}

// A number that is no request is refused with 3, before 8 and 9 too.
#[tactic(auto, using(crate::proofs::Asking::opens_none))]
fn open(
    state: &mut [u64; 4],
    request: Option<Request>,
    first: &[u8],
    second: &[u8],
    out: &mut [u8],
    size: &mut u64,
) -> Result<(), Refusal>
    ensures { (line sent : List ℕ) → length line ≡ 257
        → open_left (refusal_said result) state.new sent out.new size.new
        ≡ opens plain_mode (wanted_says request first.now second.now)
        line state.old sent out.old size.old }
{
    let request = request.ok_or(Refusal::NotThisLine)?;
    let opened = desk::open_on(numbers::state_in(state), request, first, second, out);
    leave(opened, state, size)
}

// A command is opened and written. No open looks at the line's bytes, and this one not at what was
// sent, so they are not lent.
#[unsafe(no_mangle)]
pub extern "C" fn sim7000_open(
    state: &mut [u64; 4],
    request: u8,
    number: u16,
    code: u8,
    first: &[u8],
    second: &[u8],
    out: &mut [u8],
    size: &mut u64,
) -> u8
    ensures { ExportOpenKeeps state.old request number code first.now second.now out.old size.old
        result state.new out.new size.new }
{
    let request = request_in(request, number, code);
    status(open(state, request, first, second, out, size))
}

// Beside `open`, since the desk's call is lent `sent` too: one function for both would be lent it
// or not, and its contract would be both of these.
#[tactic(auto, using(crate::proofs::Asking::opens_none))]
fn open_echo(
    state: &mut [u64; 4],
    sent: &mut [u8; 210],
    request: Option<Request>,
    first: &[u8],
    second: &[u8],
    out: &mut [u8],
    size: &mut u64,
) -> Result<(), Refusal>
    ensures { (line : List ℕ) → length line ≡ 257
        → open_left (refusal_said result) state.new sent.new out.new size.new
        ≡ opens echo_mode (wanted_says request first.now second.now)
        line state.old sent.old out.old size.old }
{
    let request = request.ok_or(Refusal::NotThisLine)?;
    let before = numbers::state_in(state);
    let opened = desk::open_echo_on(before, sent, request, first, second, out);
    leave(opened, state, size)
}

// The same for a modem with echo on: what is written is kept in `sent`, and until it comes back as
// a line no answer is taken for it.
#[unsafe(no_mangle)]
pub extern "C" fn sim7000_open_echo(
    state: &mut [u64; 4],
    sent: &mut [u8; 210],
    request: u8,
    number: u16,
    code: u8,
    first: &[u8],
    second: &[u8],
    out: &mut [u8],
    size: &mut u64,
) -> u8
    ensures { ExportOpenEchoKeeps state.old sent.old request number code first.now second.now
        out.old size.old result state.new sent.new out.new size.new }
{
    let request = request_in(request, number, code);
    status(open_echo(state, sent, request, first, second, out, size))
}

// What a feed tells, in numbers.
fn told_of(feed: Feed) -> [u64; 5]
    ensures { result ≡ told_of (feed_says feed) }
{
    let taken = feed.taken as u64;
    match feed.heard {
        None => [0, taken, 0, 0, 0],
        Some(heard) => [
            heard.event.number(),
            taken,
            heard.size as u64,
            heard.event.stray(),
            heard.ordinal.into(),
        ],
    }
}

// What a feed leaves in the lent parts; a refusal leaves them.
fn feed(
    line: &mut [u8; 257],
    state: &mut [u64; 4],
    sent: &[u8; 210],
    chunk: &[u8],
    text: &mut [u8],
    told: &mut [u64; 5],
) -> Result<(), Refusal>
    ensures { ExportFeedKeeps line.old state.old sent.now chunk.now text.old told.old
        (refusal_said result) line.new state.new text.new told.new }
{
    let fed = desk::feed_on(line, numbers::state_in(state), sent, chunk, text);
    *told = told_of(fed.answer?);
    *state = numbers::numbers_of(fed.state);
    Ok(())
}

// Bytes are fed up to the first event.
#[unsafe(no_mangle)]
pub extern "C" fn sim7000_feed(
    line: &mut [u8; 257],
    state: &mut [u64; 4],
    sent: &[u8; 210],
    chunk: &[u8],
    text: &mut [u8],
    told: &mut [u64; 5],
) -> u8
    ensures { ExportFeedKeeps line.old state.old sent.now chunk.now text.old told.old
        result line.new state.new text.new told.new }
{
    status(feed(line, state, sent, chunk, text, told))
}
