// Parts of a line: no copies, each says its bytes and its place in the line.
ghost use Rattle.std.specs.Prelude.{◌≡◌, ◌+◌, [], ◌∷◌, length, drop};
ghost use Rattle.text.specs.Bytes.{index_of};
ghost use Rattle.text.specs.Gives.{Gives};
ghost use Rattle.text.specs.Part.{IsPart, part_of, before, after, trim_end, trimmed, trim_place};

use crate::bytes;

// Where a text stands in its line.
#[derive(Clone, Copy)]
pub struct Place {
    pub start: usize,
    pub end: usize,
}

// The bytes from a up to e: an end past the length is the length, and a start past the end gives
// none.
pub fn part(s: &[u8], a: usize, e: usize) -> &[u8]
    ensures { IsPart s.entry result a (part_of s.now a e) }
{
    let n = s.len();
    if n < a {
        return &s[n..n];
    }
    if n < e {
        return &s[a..n];
    }
    if e < a {
        return &s[a..a];
    }
    &s[a..e]
}

// What follows the first n bytes.
pub fn skip(s: &[u8], n: usize) -> &[u8]
    ensures { IsPart s.entry result n (drop n s.now) }
{
    part(s, n, s.len())
}

// The part before the first b, all of s where it has none.
pub fn before_byte(s: &[u8], b: u8) -> &[u8]
    ensures { IsPart s.entry result 0 (before b s.now) }
{
    part(s, 0, bytes::find(s, 0, b))
}

// The part after the first b, empty where s has none.
pub fn after_byte(s: &[u8], b: u8) -> &[u8]
    ensures { IsPart s.entry result (index_of b s.now + 1) (after b s.now) }
{
    part(s, bytes::find(s, 0, b) + 1, s.len())
}

// How many bytes are left of s without those at its end that are a or b.
fn end_of(s: &[u8], a: u8, b: u8) -> usize
    ensures { result ≡ length (trim_end (a ∷ b ∷ []) s.now) }
{
    for i in (0..s.len()).rev() {
        if s[i] != a && s[i] != b {
            return i + 1;
        }
    }
    0
}

// s without the bytes at its end that are a or b.
pub fn trim_end(s: &[u8], a: u8, b: u8) -> &[u8]
    ensures { IsPart s.entry result 0 (trim_end (a ∷ b ∷ []) s.now) }
{
    part(s, 0, end_of(s, a, b))
}

// Where s begins without the bs at its front; 0 where it has nothing else.
pub fn trim_start(s: &[u8], b: u8) -> usize
    ensures { Gives (trim_place (b ∷ []) s.now) result }
{
    s.iter().position(|x| *x != b).unwrap_or(0)
}

// s without the bs at both ends.
pub fn trim(s: &[u8], b: u8) -> &[u8]
    ensures { IsPart s.entry result (trim_place (b ∷ []) s.now) (trimmed (b ∷ []) s.now) }
{
    part(s, trim_start(s, b), end_of(s, b, b))
}
