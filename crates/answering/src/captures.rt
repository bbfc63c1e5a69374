// Plays a capture on a desk of its own: a line of steps, in the script language of oracle/README.md. Each event is printed on a line of its own.
use crate::commands::LONGEST;
use crate::output::Output;
use crate::show::{Hex, Refused};
use crate::{commands, hex};
use at_command::request::Request;
use console::said::Said;
use desk::{Desk, Feed, Heard, State};
use std::io;
use std::io::Write;
use text::refusal::Refusal;
use text::{field, part};

pub(crate) fn answer<W: Write>(out: &mut Output<W>, line: &[u8]) -> io::Result<()> {
    // a line of which some bytes may be gone (see console::input) is no step
    let line = if line.len() <= LONGEST { line } else { b"" };
    let mut steps = line.split(|byte| *byte == b' ');
    let mut session = Session::new();
    if let Some(first) = steps.next() {
        session.begin(first, out)?;
    }
    for step in steps {
        session.step(step, out)?;
    }
    let end = match session.desk.state.command {
        Some(_) => "open",
        None => "idle",
    };
    write!(out, "end {end}")
}

// A desk, what its feeds and its opens are lent, and how many bytes an open gets of that: `room` is
// set by a step, and is no length of what stands there. The arrays are of fixed size, here and in
// `step`, so that no input makes them grow.
#[derive(Clone, Copy)]
struct Session {
    desk: Desk,
    text: [u8; 256],
    command: [u8; 256],
    room: usize,
}

impl Session {
    fn new() -> Session {
        Session {
            desk: Desk::new(),
            text: [0; 256],
            command: [0; 256],
            room: 256,
        }
    }

    // The same, but for the bytes that mean nothing yet.
    fn aged(byte: u8) -> Session {
        Session {
            desk: Desk {
                line: [byte; 257],
                sent: [byte; 210],
                state: State::default(),
            },
            text: [byte; 256],
            command: [byte; 256],
            room: 256,
        }
    }

    // The first step, which may be one that no other may.
    fn begin<W: Write>(&mut self, step: &[u8], out: &mut Output<W>) -> io::Result<()> {
        if let Some((b'x', digits)) = step.split_first() {
            if let Some([byte]) = hex::decode(digits, &mut [0; 1]) {
                *self = Session::aged(*byte);
                return Ok(());
            }
        }
        self.step(step, out)
    }

    // A step: a letter, and bytes in hexadecimal behind it.
    fn step<W: Write>(&mut self, step: &[u8], out: &mut Output<W>) -> io::Result<()> {
        let mut bytes = [0u8; 16384];
        let Some((letter, digits)) = step.split_first() else {
            return unknown(out);
        };
        let Some(given) = hex::decode(digits, &mut bytes) else {
            return unknown(out);
        };
        match (letter, given) {
            (b'f', chunk) => self.feed_all(chunk, out),
            // with a text buffer that is a byte too short
            (b's', chunk) => self.feed(chunk, 255, out).map(|_| ()),
            (b'o', asked) => self.open(asked, Desk::open_lent, out),
            (b'e', asked) => self.open(asked, Desk::open_echo_lent, out),
            (b'l', [room]) => {
                self.room = usize::from(*room);
                Ok(())
            }
            (b'r', []) => {
                self.desk.reset_lent();
                Ok(())
            }
            (b't', []) => spelled(out, "text", &self.text),
            (b'c', []) => spelled(out, "command", &self.command),
            _ => unknown(out),
        }
    }

    // Feeds a chunk, event by event, until all its bytes are taken.
    fn feed_all<W: Write>(&mut self, chunk: &[u8], out: &mut Output<W>) -> io::Result<()> {
        let mut rest = chunk;
        // each feed takes a byte
        for _ in 0..chunk.len() {
            if rest.is_empty() {
                break;
            }
            let taken = self.feed(rest, 256, out)?;
            rest = part::skip(rest, taken);
        }
        Ok(())
    }

    // One feed, which is lent so many bytes for the text. Says how many it took, all where it is refused.
    fn feed<W: Write>(
        &mut self,
        chunk: &[u8],
        room: usize,
        out: &mut Output<W>,
    ) -> io::Result<usize> {
        let Session { desk, text, .. } = self;
        let text = &mut text[..];
        let room = room.min(text.len());
        match desk.feed_lent(chunk, &mut text[..room]) {
            Ok(Feed { taken, heard: None }) => Ok(taken),
            Ok(
                Feed {
                    taken,
                    heard: Some(heard),
                },
            ) => {
                say(heard, text, out)?;
                Ok(taken)
            }
            Err(refusal) => {
                refused(out, refusal)?;
                Ok(chunk.len())
            }
        }
    }

    // Opens a request by a call of the desk, in one mode or the other.
    fn open<F, W: Write>(&mut self, asked: &[u8], opens: F, out: &mut Output<W>) -> io::Result<()>
    where
        F: FnOnce(&mut Desk, Request, &[u8], &[u8], &mut [u8]) -> Result<usize, Refusal>,
        requires { F.IsAlwaysCallable opens }
    {
        let Some(request) = commands::request_of(asked) else {
            return unknown(out);
        };
        let first = field::field(asked, b'\t', 1);
        let second = field::field(asked, b'\t', 2);
        let Session {
            desk,
            command,
            room,
            ..
        } = self;
        let command = &mut command[..];
        let room = (*room).min(command.len());
        match opens(desk, request, first, second, &mut command[..room]) {
            Ok(n) => spelled(out, "open", part::part(command, 0, n)),
            Err(refusal) => refused(out, refusal),
        }
    }
}

fn unknown<W: Write>(out: &mut Output<W>) -> io::Result<()> {
    write!(out, "unknown")?;
    out.end_line()
}

// A word, and bytes behind it.
fn spelled<W: Write>(out: &mut Output<W>, word: &str, bytes: &[u8]) -> io::Result<()> {
    write!(out, "{word} {}", Hex(bytes))?;
    out.end_line()
}

fn refused<W: Write>(out: &mut Output<W>, refusal: Refusal) -> io::Result<()> {
    write!(out, "{}", Refused(refusal))?;
    out.end_line()
}

// What a desk heard, and its line.
fn say<W: Write>(heard: Heard, text: &[u8], out: &mut Output<W>) -> io::Result<()> {
    write!(out, "{}", Said(heard))?;
    if 0 < heard.size {
        write!(out, " {}", Hex(part::part(text, 0, heard.size)))?;
    }
    out.end_line()
}
