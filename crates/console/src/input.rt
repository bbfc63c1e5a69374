// Lines of a reader, cut at LF in a buffer of fixed size: no input makes it grow. A line of more
// than half the buffer is handed out without some of its bytes, and is then still as long as half
// the buffer. A last line needs no LF.
ghost use Rattle.std.specs.Prelude.{◌≤◌, length, IfOk, IfSome};
ghost use Rattle.console.specs.Input.{NextLineKeeps, NextTurnKeeps, KeepsSize};

use crate::output;
use std::io;
use std::io::{Read, Write};
use text::part::Place;
use text::{bytes, part};

// A turn of a program that answers line by line out of buffers that it lends: the line's place, that
// of what is read and not cut yet, where the answer goes in the other buffer, and how many turns
// may follow. None may at the end of the input.
#[derive(Clone, Copy)]
pub struct Turn {
    pub line: Place,
    pub rest: Place,
    pub at: usize,
    pub left: u64,
}

// An empty place: before the first turn nothing is read, and behind the last nobody looks. An
// Option for these two would be asked about at each turn.
const NOWHERE: Place = Place { start: 0, end: 0 };

// Before the first turn. No input has more lines than may follow.
pub const FIRST: Turn = Turn {
    line: NOWHERE,
    rest: NOWHERE,
    at: 0,
    left: u64::MAX,
};

// A line, and what is read behind it.
#[derive(Clone, Copy)]
struct Next {
    line: Place,
    rest: Place,
}

// Moves the bytes at a place to the front, half a buffer at most, and says how many.
fn keep(buffer: &mut [u8], place: Place) -> usize
    ensures { result ≤ length buffer.new }
{
    let kept = part::part(buffer, place.start, place.end).len();
    let n = kept.min(buffer.len() / 2);
    if 0 < n {
        buffer.copy_within(place.start..place.start + n, 0);
    }
    n
}

// The next line, and none at the end of the input.
fn next_line<R: Read>(reader: &mut R, buffer: &mut [u8], read: Place) -> io::Result<Option<Next>>
    ensures line { IfOk result (λ found. IfSome found (λ next. NextLineKeeps next buffer.new)) }
    ensures size { KeepsSize buffer.old buffer.new }
{
    let mut rest = read;
    let mut from = rest.start;
    // no input has more turns: each reads a byte
    for _ in 0..u64::MAX {
        let read = part::part(buffer, 0, rest.end);
        let end = bytes::find(read, from, b'\n');
        if end < read.len() {
            let line = Place {
                start: rest.start,
                end,
            };
            let rest = Place {
                start: end + 1,
                end: rest.end,
            };
            return Ok(Some(Next { line, rest }));
        }
        from = keep(buffer, rest);
        let end = from + reader.read(&mut buffer[from..])?;
        rest = Place { start: 0, end };
        if end == 0 {
            return Ok(None);
        }
        if end == from {
            let line = rest;
            let rest = Place { start: end, end };
            return Ok(Some(Next { line, rest }));
        }
    }
    Ok(None)
}

// The turn of the next line. At the end of the input all that stands in out is written, and so it is
// where a read fails.
pub fn next_turn<R: Read, W: Write>(
    reader: &mut R,
    writer: &mut W,
    buffer: &mut [u8],
    out: &[u8],
    turn: Turn,
) -> std::io::Result<Turn>
    ensures turn { IfOk result (λ next. NextTurnKeeps turn next buffer.new) }
    ensures size { KeepsSize buffer.old buffer.new }
{
    let found = next_line(reader, buffer, turn.rest);
    if let Ok(Some(Next { line, rest })) = found {
        return Ok(Turn {
            line,
            rest,
            at: turn.at,
            left: turn.left.saturating_sub(1),
        });
    }
    output::flush(writer, out, turn.at)?;
    found?;
    Ok(Turn { left: 0, ..FIRST })
}
