// Where a quoted field stands in a line.
ghost use Rattle.std.specs.Prelude.{◌≡◌, ◌<◌, length, drop};
ghost use Rattle.text.specs.Field.{fields};
ghost use Rattle.text.specs.says.Part.{place_says};
ghost use Rattle.at_command.specs.Unquoted.{unquoted_field};

use crate::prefix;
use text::part::Place;
use text::{field, part, reader};

// Field n of what follows a prefix of seven bytes, without the quotes at its ends.
pub(crate) fn unquoted_field(line: &[u8], n: usize) -> Place
    requires { n < length (fields 44 (drop 7 line.now)) }
    ensures { place_says result ≡ unquoted_field n (fields 44 (drop 7 line.now)) }
{
    let rest = part::skip(line, prefix::SIZE);
    let quoted = reader::nth_field(rest, n);
    let at = field::field_start(rest, b',', n);
    let lead = part::trim_start(quoted, b'"');
    let left = part::trim(quoted, b'"').len();
    let start = prefix::SIZE + at + lead;
    Place {
        start,
        end: start + left,
    }
}
