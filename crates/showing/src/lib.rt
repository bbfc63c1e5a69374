// What the show programs do: standard input goes to a desk with AT+CSQ open, in one mode or the other, and each event is printed with its line and the line's number.
#![tactic(auto)]

ghost use Rattle.std.specs.Prelude.{◌≡◌, IfOk};
ghost use Rattle.desk.specs.Desk.{after_bytes};
ghost use Rattle.desk.specs.Says.{state_of, answer_says};
ghost use Rattle.desk.specs.Demand.{taken_by};

use at_command::request::Request;
use console::output;
use console::said::Said;
pub use desk::Mode;
use desk::{Desk, Event, Feed, Heard};
use std::fmt::Display;
use std::io;
use std::io::{Cursor, Input, Print, Read, Write};
use text::part;
use text::refusal::Refusal;

// A line of output, composed in an array and written at once: a word, and the bytes behind it, if
// any. The array is of fixed size, since there is no heap.
fn print<D: Display + Drop>(
    writer: &mut impl Write,
    word: D,
    rest: Option<&[u8]>,
) -> io::Result<()> {
    let mut line = [0u8; 512];
    let mut out = Cursor::new(&mut line[..]);
    write!(out, "{word}")?;
    let mut n = out.position() as usize;
    if let Some(rest) = rest {
        n = output::put(&mut line, n, b" ");
        n = output::put(&mut line, n, rest);
    }
    n = output::put(&mut line, n, b"\n");
    output::flush(writer, &line, n)
}

// What the desk heard, with its line.
fn say(writer: &mut impl Write, heard: Heard, text: &[u8]) -> io::Result<()> {
    let line = match heard.event {
        Event::Overlong => None,
        _ => Some(part::part(text, 0, heard.size)),
    };
    print(writer, Said(heard), line)
}

// Says what a feed tells, and answers how many bytes were taken. An error is the writer's.
fn told<W: Write>(out: &mut W, answer: Result<Feed, Refusal>, text: &[u8]) -> io::Result<usize>
    ensures { IfOk result (λ n. n ≡ taken_by (answer_says answer)) }
{
    match answer {
        Ok(
            Feed {
                taken,
                heard: Some(heard),
            },
        ) => {
            say(out, heard, text)?;
            Ok(taken)
        }
        Ok(Feed { taken, heard: None }) => Ok(taken),
        // never: text has room for every line
        Err(_) => Ok(0),
    }
}

// Feeds a chunk, event by event, until all its bytes are taken. The desk is a local, lent to the
// call that alters it. An error is the writer's, and the desk then goes with it. A `while`, since a
// turn takes as many bytes as the feed says, and no `for` goes by that.
fn drain<W: Write>(out: &mut W, desk: Desk, chunk: &[u8]) -> io::Result<Desk>
    ensures { IfOk result (λ d. state_of d ≡ after_bytes (state_of desk) chunk.now) }
{
    let mut desk = desk;
    let mut text = [0u8; 256];
    let mut rest = chunk;
    while !rest.is_empty() {
        let answer = desk.feed_lent(rest, &mut text);
        let taken = told(out, answer, &text)?;
        rest = part::skip(rest, taken);
    }
    Ok(desk)
}

// What is read is answered at once. The arrays, here and in `drain`, are lent to the calls, and of
// fixed size, so that no input makes them grow.
fn show<R: Read, W: Write>(reader: &mut R, out: &mut W, mode: Mode) -> io::Result<()> {
    let mut desk = Desk::new();
    let mut command = [0u8; 256];
    let Ok(n) = desk.open_in_lent(mode, Request::GetSignalQuality, b"", b"", &mut command) else {
        return Ok(());
    };
    let sent = part::part(&command, 0, n);
    print(out, "open", Some(sent.strip_suffix(b"\r").unwrap_or(sent)))?;
    let mut buffer = [0u8; 65536];
    // no input has more turns: each reads a byte
    for _ in 0..u64::MAX {
        let n = reader.read(&mut buffer)?;
        if n == 0 {
            break;
        }
        desk = drain(out, desk, &buffer[..n])?;
    }
    let end = if desk.state.command.is_some() {
        "end open"
    } else {
        "end idle"
    };
    print(out, end, None)
}

pub fn run(rt: &(impl Input + Print), mode: Mode) -> io::Result<()> {
    let mut reader = rt.reader();
    let mut out = io::writer(rt);
    show(&mut reader, &mut out, mode)
}
