// Tests on a line's bytes, and where a byte stands.
#![tactic(auto, using(crate::proofs::Finding::has_is, crate::proofs::Finding::same_is))]

ghost use Rattle.std.specs.Prelude.{◌≡◌, ◌+◌, ◌<◌, length, drop, slice_index};
ghost use Rattle.text.specs.Bytes.{same, starts_with, ends_with, index_of, count_of, has, all_within, all_digits};
ghost use Rattle.text.specs.Gives.{Gives};

use crate::digit;

// The byte at an index, 0 past the end.
pub fn byte_at(s: &[u8], i: usize) -> u8
    ensures { Gives (slice_index s.now i) result }
{
    s.get(i).copied().unwrap_or(0)
}

// The index of the first b of s at or after `from`: where there is none, the length, or `from`
// where that is larger.
pub fn find(s: &[u8], from: usize, b: u8) -> usize
    ensures { Gives (from + index_of b (drop from s.now)) result }
{
    if s.len() <= from {
        return from;
    }
    let rest = &s[from..];
    from + rest.iter().position(|x| *x == b).unwrap_or(rest.len())
}

// Whether s has a b.
pub fn has_byte(s: &[u8], b: u8) -> bool
    ensures { Gives (has b s.now) result }
{
    s.contains(&b)
}

// How often b stands in s, a text of at most 255 bytes. The count is a byte too, so that the
// compiler counts in sixteen places at once: `filter` and `count` took twice as long.
fn count_few(s: &[u8], b: u8) -> u8
    requires { length s.now < 256 }
    ensures { result ≡ count_of b s.now }
{
    let mut n = 0;
    for x in s {
        n += u8::from(*x == b);
    }
    n
}

// How often b stands in s. A line is one such text: to count it in chunks too took a fifth longer.
pub fn count_byte(s: &[u8], b: u8) -> usize
    ensures { Gives (count_of b s.now) result }
{
    if s.len() < 256 {
        return usize::from(count_few(s, b));
    }
    let mut n = 0;
    for few in s.chunks(255) {
        n += usize::from(count_few(few, b));
    }
    n
}

// Whether s begins with p. Most lines differ early: a slice's own `starts_with`, which compares
// many bytes at once, took up to 2.3 times as long at them.
pub fn starts_with(s: &[u8], p: &[u8]) -> bool
    ensures { Gives (starts_with p.now s.now) result }
{
    if s.len() < p.len() {
        return false;
    }
    for (i, x) in p.iter().enumerate() {
        if s[i] != *x {
            return false;
        }
    }
    true
}

// Whether s is the text t.
pub fn is_text(s: &[u8], t: &[u8]) -> bool
    ensures { Gives (same s.now t.now) result }
{
    s == t
}

// Whether s ends with p.
pub fn ends_with(s: &[u8], p: &[u8]) -> bool
    ensures { Gives (ends_with p.now s.now) result }
{
    if s.len() < p.len() {
        return false;
    }
    starts_with(&s[s.len() - p.len()..], p)
}

// Whether all bytes of s lie from lo to hi.
pub fn all_within(s: &[u8], lo: u8, hi: u8) -> bool
    ensures { Gives (all_within lo hi s.now) result }
{
    s.iter().all(|x| lo <= *x && *x <= hi)
}

// Whether all bytes of s are ASCII digits.
pub fn all_digits(s: &[u8]) -> bool
    ensures { Gives (all_digits s.now) result }
{
    s.iter().all(|x| digit::is_ascii_digit(*x))
}
