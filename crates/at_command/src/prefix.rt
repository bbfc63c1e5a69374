// The text that a line begins with, by which its reader is told.
ghost use Rattle.std.specs.Prelude.{◌≡◌, true, false, length, drop, MatchOption};
ghost use Rattle.text.specs.Bytes.{starts_with};

use text::{bytes, part};

// How long the prefixes +CNTP, +COPS and +CMGR are, whose readers give places in the whole line.
pub(crate) const SIZE: usize = 7;

// What follows the prefix. A slice's own `strip_prefix` tests with the slice's `starts_with`, and
// `bytes::starts_with` says why that is not taken here.
pub(crate) fn strip<'a>(line: &'a [u8], prefix: &[u8]) -> Option<&'a [u8]>
    ensures { MatchOption result (starts_with prefix.now line.now ≡ false)
        (λ rest. (starts_with prefix.now line.now ≡ true) × (rest.now ≡ drop (length prefix.now) line.now)) }
{
    if !bytes::starts_with(line, prefix) {
        return None;
    }
    Some(part::skip(line, prefix.len()))
}
