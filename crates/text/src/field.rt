// The fields of a line between separators.
ghost use Rattle.std.specs.Prelude.{length};
ghost use Rattle.text.specs.Part.{IsPart};
ghost use Rattle.text.specs.Field.{fields, nth, place_of};
ghost use Rattle.text.specs.Gives.{Gives};

use crate::{bytes, part};

// Where field n of s begins, counted from 0, where b parts the fields; one past the end where there
// is none.
pub fn field_start(s: &[u8], b: u8, n: usize) -> usize
    ensures { Gives (place_of n (fields b s.now)) result }
{
    let mut at = 0;
    for _k in 0..n {
        let e = bytes::find(s, at, b);
        if s.len() <= e {
            return s.len() + 1;
        }
        at = e + 1;
    }
    at
}

// Field n of s, counted from 0; empty past the last.
pub fn field(s: &[u8], b: u8, n: usize) -> &[u8]
    ensures { IsPart s.entry result (place_of n (fields b s.now)) (nth n (fields b s.now)) }
{
    let at = field_start(s, b, n);
    part::part(s, at, bytes::find(s, at, b))
}

// How many fields s has.
pub fn field_count(s: &[u8], b: u8) -> usize
    ensures { Gives (length (fields b s.now)) result }
{
    bytes::count_byte(s, b) + 1
}
