// What the programs `lines`, `commands`, `captures` and `vectors` do: each line of standard input is answered, by `captures` with as many lines as it has events and
// by the others with one. Lines are cut at LF, and a last line needs none.
#![tactic(auto)]

use console::input;
use console::input::{FIRST, Turn};
use std::io;
use std::io::{Input, Print, Read, Write};
use text::part;

mod captures;
mod commands;
mod hex;
mod lines;
mod output;
mod show;
mod vectors;

use output::Output;

// How many bytes are read ahead at most, in an array of fixed size: no input makes it grow.
const SIZE: usize = 65536;

#[derive(Clone, Copy)]
pub enum Program {
    Lines,
    Commands,
    Captures,
    Vectors,
}

impl Program {
    // Writes the answer to a line, without the LF at its end. A match: a trait, or the four
    // functions handed over, would make public what stands in these four modules.
    fn answer<W: Write>(self, out: &mut Output<W>, line: &[u8]) -> io::Result<()> {
        match self {
            Program::Lines => lines::answer(out, line),
            Program::Commands => commands::answer(out, line),
            Program::Captures => captures::answer(out, line),
            Program::Vectors => vectors::answer(out, line),
        }
    }
}

// Answers each line of a reader. At the end, and where a read fails, what is answered by then is
// written first.
fn answer_all<R: Read, W: Write + Drop>(
    program: Program,
    reader: &mut R,
    writer: W,
) -> io::Result<()> {
    let mut out = Output::new(writer);
    let mut buffer = [0u8; SIZE];
    let mut turn = FIRST;
    // no input has more lines
    for _ in 0..u64::MAX {
        let before = Turn {
            at: out.waiting,
            ..turn
        };
        turn = input::next_turn(reader, &mut out.writer, &mut buffer, &out.buffer, before)?;
        if turn.left == 0 {
            break;
        }
        let line = part::part(&buffer, turn.line.start, turn.line.end);
        program.answer(&mut out, line)?;
        out.end_line()?;
    }
    Ok(())
}

pub fn run(rt: &(impl Input + Print), program: Program) -> io::Result<()> {
    answer_all(program, &mut rt.reader(), io::writer(rt))
}
