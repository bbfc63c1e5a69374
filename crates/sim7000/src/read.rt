// A line is read: which reader takes it, and what it says.
ghost use Rattle.text.specs.says.Refusal.{refusal_said};
ghost use Rattle.sim7000.specs.Reader.{SortLineKeeps};
ghost use Rattle.sim7000.specs.Values.{ReadLineKeeps};

use crate::numbers::status;
use crate::values;
use text::refusal::Refusal;
use trial::{Line, Taker, straight};

fn read(line: &[u8], values: &mut [u64; 20]) -> Result<(), Refusal>
    ensures { ReadLineKeeps line.now values.old (refusal_said result) values.new }
{
    *values = match straight::said(line)? {
        Line::Response(code) => values::response_values(code),
        Line::Unsolicited(urc) => values::urc_values(urc),
    };
    Ok(())
}

// 0, and the reader's number and values in `values`; or the refusal, and `values` as it was.
#[unsafe(no_mangle)]
pub extern "C" fn sim7000_read_line(line: &[u8], values: &mut [u64; 20]) -> u8
    ensures { ReadLineKeeps line.now values.old result values.new }
{
    status(read(line, values))
}

// The number of the reader that takes the line, or 128 and the refusal.
#[unsafe(no_mangle)]
pub extern "C" fn sim7000_sort_line(line: &[u8]) -> u8
    ensures { SortLineKeeps line.now result }
{
    match straight::taker(line) {
        Ok(Taker::Response(kind)) => kind.place() + 1,
        Ok(Taker::GnssReport) => 14,
        Ok(Taker::NetworkRegistration) => 15,
        Err(refusal) => 128 + refusal.number(),
    }
}
