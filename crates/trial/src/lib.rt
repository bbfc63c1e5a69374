// Reads a line, whichever reader takes it. Here the readers are tried in their order, both trials in
// turn behind one check of the line's length and of its UTF-8; `straight` asks the one that could
// take the line.
#![tactic(auto)]

mod row;
pub mod straight;

ghost use Rattle.trial.specs.says.Line.{LineKeeps, SortedKeeps, SortKeeps};

use at_command::ResponseCode;
use at_command::request::ResponseKind;
use text::refusal::Refusal;
use unsolicited::Urc;

// What a line says.
#[derive(Clone, Copy)]
pub enum Line {
    Response(ResponseCode),
    Unsolicited(Urc),
}

// What a line is to a desk. Its names say more than an `Option<ResponseKind>` would.
#[derive(Clone, Copy)]
pub enum Sort {
    Response(ResponseKind),
    Unsolicited,
}

// Which reader takes a line: a response's kind, or one of the two unsolicited ones.
#[derive(Clone, Copy)]
pub enum Taker {
    Response(ResponseKind),
    GnssReport,
    NetworkRegistration,
}

impl Line {
    // No response begins as an unsolicited line does, so one of the two trials alone is asked.
    pub fn from_line(line: &[u8]) -> Result<Line, Refusal>
        ensures { LineKeeps line.now result }
    {
        if Urc::begins(line) {
            return Ok(Line::Unsolicited(Urc::from_line(line)?));
        }
        Ok(Line::Response(ResponseCode::from_line(line)?))
    }

    pub fn sort(self) -> Sort
        ensures { SortedKeeps self result }
    {
        match self {
            Line::Response(code) => Sort::Response(code.kind()),
            Line::Unsolicited(_) => Sort::Unsolicited,
        }
    }
}

pub fn sort_of(line: &[u8]) -> Result<Sort, Refusal>
    ensures { SortKeeps line.now result }
{
    Ok(Line::from_line(line)?.sort())
}
