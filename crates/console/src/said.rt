// What the programs print of an event, before its line.
ghost use Rattle.std.specs.Prelude.{◌≡◌, Some};
ghost use Rattle.desk.specs.Says.{event_says};
ghost use Rattle.text.specs.Part.{part_of};
ghost use Rattle.console.specs.Said.{word_of, said_text};

use crate::output;
use desk::{Event, Heard};
use std::{fmt, str};
use text::part;

// The event's word, the ordinal of its line, and a stray's number.
#[derive(Clone, Copy)]
pub struct Said(pub Heard);

fn word(event: Event) -> &'static [u8]
    ensures { result.now ≡ word_of (event_says event) }
{
    match event {
        Event::Overlong => b"overlong",
        Event::Stray(_) => b"stray",
        Event::Failed => b"failed",
        Event::Taken => b"taken",
        Event::Done => b"done",
        Event::Short => b"short",
        Event::Unsolicited => b"unsolicited",
        Event::Echo => b"echo",
    }
}

// Lays the text at the front of an array that has room for every one, and says where it ends. The
// array is lent, since there is no heap.
fn lay(heard: Heard, out: &mut [u8; 64]) -> usize
    ensures { part_of out.new 0 result ≡ said_text heard }
{
    let Heard { event, ordinal, .. } = heard;
    let at = output::put(out, 0, word(event));
    let at = output::put(out, at, b" ");
    let at = output::put_decimal(out, at, ordinal.into());
    if let Event::Stray(_) = event {
        let at = output::put(out, at, b" ");
        return output::put_decimal(out, at, event.stray());
    }
    at
}

impl fmt::Display for Said {
    ghost output = { λ s. Some (said_text s.0) };

    fn fmt<W: fmt::Write>(&self, f: &mut fmt::Formatter<W>) -> fmt::Result {
        let mut text = [0u8; 64];
        let n = lay(self.0, &mut text);
        match str::from_utf8(part::part(&text, 0, n)) {
            Ok(text) => f.write_str(text),
            // never: words and digits are ASCII
            Err(_) => Err(fmt::Error),
        }
    }
}
