// The second engine (document 02, CR 6): it asks the one reader that could take the line, whose check
// of the line's length and UTF-8 is the only one on its path. What it answers is what the trials in
// their order answer, refusals included: the contracts are theirs.
ghost use Rattle.std.specs.Prelude.{◌≡◌};
ghost use Rattle.text.specs.Condition.{Points};
ghost use Rattle.text.specs.Line.{refusal_by};
ghost use Rattle.text.specs.says.Refusal.{ChecksKeep};
ghost use Rattle.at_command.specs.says.Response.{ResponseCodeKeeps};
ghost use Rattle.unsolicited.specs.says.Urc.{UrcKeeps};
ghost use Rattle.trial.specs.Answer.{said_text};
ghost use Rattle.trial.specs.Conditions.{all_conditions};
ghost use Rattle.trial.specs.Taker.{taker_at};
ghost use Rattle.trial.specs.says.Line.{taker_value, LineKeeps, SortKeeps, TakerKeeps};

use crate::{Line, Sort, Taker, row};
use at_command::request::ResponseKind;
use at_command::{ResponseCode, straight as responses};
use text::part;
use text::refusal::Refusal;
use unsolicited::{Urc, straight as urcs};

// How many rows are those of responses. A row is a number here too: `row::NONE` says why.
const RESPONSES: usize = 13;

// The thirteen responses: a line with the row of an unsolicited one, or of none, is none of theirs.
pub fn response(line: &[u8]) -> Result<ResponseCode, Refusal>
    ensures { ResponseCodeKeeps line.now result }
{
    responses::read_at(row::row_of(line), line)
}

// The four unsolicited ones, likewise.
pub fn urc(line: &[u8]) -> Result<Urc, Refusal>
    ensures { UrcKeeps line.now result }
{
    let row = row::row_of(line);
    if row < RESPONSES {
        return urcs::read_at(row::NONE, line);
    }
    urcs::read_at(row - RESPONSES, line)
}

// All seventeen.
pub fn said(line: &[u8]) -> Result<Line, Refusal>
    ensures { LineKeeps line.now result }
{
    let row = row::row_of(line);
    if row < RESPONSES {
        return Ok(Line::Response(responses::read_at(row, line)?));
    }
    Ok(Line::Unsolicited(urcs::read_at(row - RESPONSES, line)?))
}

// The refusal of a line, with no value kept.
fn check(row: usize, line: &[u8]) -> Result<(), Refusal>
    requires { Points all_conditions line.now row }
    ensures { ChecksKeep (refusal_by said_text line.now) result }
{
    if row < RESPONSES {
        return responses::refusal_at(row, line);
    }
    urcs::refusal_at(row - RESPONSES, line)
}

// The reader of a row.
fn taker_at(row: usize) -> Taker
    ensures { taker_value result ≡ taker_at row }
{
    if row < RESPONSES {
        return Taker::Response(ResponseKind::at(row as u64));
    }
    if row == RESPONSES {
        return Taker::GnssReport;
    }
    Taker::NetworkRegistration
}

// For sorting alone: which reader takes the line. skip(line, 0) has the compiler pass its place and
// its length one by one: loaded as one piece they would wait for the two stores of a caller in C.
pub fn taker(line: &[u8]) -> Result<Taker, Refusal>
    ensures { TakerKeeps line.now result }
{
    let row = row::row_of(part::skip(line, 0));
    check(row, line)?;
    Ok(taker_at(row))
}

// And what the line is to a desk.
pub fn sort_of(line: &[u8]) -> Result<Sort, Refusal>
    ensures { SortKeeps line.now result }
{
    Ok(match taker(line)? {
        Taker::Response(kind) => Sort::Response(kind),
        Taker::GnssReport | Taker::NetworkRegistration => Sort::Unsolicited,
    })
}
