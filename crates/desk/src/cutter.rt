// Cutting a modem's bytes into lines, with no array copied. `line` is lent, and its first `len`
// bytes are held. The two are no struct: one that holds the lent array is no plainer, since each
// method would have to promise that the array behind it is still the same. `chunk` is lent beside
// them, as it is to the public `feed_on` (FeedOnKeeps).
ghost use Rattle.std.specs.Prelude.{ℕ, ◌≡◌, ◌+◌, false, [], ◌∷◌, ◌++◌, ◌≤◌, ◌<◌, length, take, slice_index};
ghost use lib.Seq.{paste};
ghost use Rattle.desk.specs.Cut.{bare, is_prompt, cut_one};
ghost use Rattle.desk.specs.Lines.{line_of};
ghost use Rattle.desk.specs.Desk.{view_of, buffered};
ghost use Rattle.desk.specs.Search.{tray_of, found_after, Filled, Plain, Past};
ghost use Rattle.desk.specs.Says.{found_line, pushed_says, found_says};

use std::simd::u8x8;

// What ends a feed: a line past its length, or the first bytes of the buffer, so many. Both are
// events, and in an `Option<usize>` the first would be a line that is missing.
#[derive(Clone, Copy)]
pub enum Piece {
    Overlong,
    Line(usize),
}

// How many bytes are held after a byte, and what it completes, if anything: an empty line is none.
#[derive(Clone, Copy)]
pub struct Pushed {
    pub len: usize,
    pub piece: Option<Piece>,
}

// How a search ends: the bytes taken, how many are held after them, and what the search stopped at,
// if anything.
#[derive(Clone, Copy)]
pub struct Found {
    pub taken: usize,
    pub len: usize,
    pub piece: Option<Piece>,
}

// A line without the one CR at its end.
#[tactic(auto, using(crate::proofs::Echoing::bares))]
pub(crate) fn without_cr(line: &[u8]) -> &[u8]
    ensures { result.now ≡ bare line.now }
{
    line.strip_suffix(b"\r").unwrap_or(line)
}

// What an LF makes of the len bytes before it.
#[tactic(auto, using(crate::proofs::Cutting::ends))]
fn end_of(line: &[u8; 257], len: usize) -> Option<Piece>
    ensures { found_line result line.now ≡ line_of (cut_one (view_of (tray_of line.now len)) 10).piece }
{
    if len > 257 {
        return Some(Piece::Overlong);
    }
    match without_cr(&line[..len]).len() {
        0 => None,
        size @ 1..=256 => Some(Piece::Line(size)),
        _ => Some(Piece::Overlong),
    }
}

// Whether b makes "> " of the one byte that is held.
#[tactic(auto, using(crate::proofs::Cutting::prompts))]
fn is_prompt(line: &[u8; 257], len: usize, b: u8) -> bool
    requires { len ≤ 257 }
    ensures { result ≡ is_prompt (take len line.now ++ b ∷ []) }
{
    len == 1 && line[0] == b'>' && b == b' '
}

// Whether a line of len bytes is past its length with b: only a CR may stand behind 256.
#[tactic(auto, using(crate::proofs::Cutting::pasts))]
fn is_past(len: usize, b: u8) -> bool
    ensures { Past len b result }
{
    len > 256 || len == 256 && b != b'\r'
}

// One byte.
#[tactic(auto, using(crate::proofs::Cutting::pushes))]
fn push(line: &mut [u8; 257], len: usize, b: u8) -> Pushed
    ensures { pushed_says result line.new ≡ buffered (tray_of line.old len) b }
{
    if b == b'\n' {
        return Pushed {
            len: 0,
            piece: end_of(line, len),
        };
    }
    if is_past(len, b) {
        return Pushed {
            len: 258,
            piece: None,
        };
    }
    let prompt = is_prompt(line, len, b);
    line[len] = b;
    if prompt {
        return Pushed {
            len: 0,
            piece: Some(Piece::Line(2)),
        };
    }
    Pushed {
        len: len + 1,
        piece: None,
    }
}

// Whether b may be part of a prompt: it or the one byte that is held is '>'.
fn may_prompt(line: &[u8; 257], len: usize, b: u8) -> bool
    ensures { result ≡ false → Plain line.now len b }
{
    match len {
        0 => b == b'>',
        1 => line[0] == b'>',
        _ => false,
    }
}

// Whether an LF is among eight bytes.
fn has_lf(eight: u8x8) -> bool
    requires { length eight ≡ 8 }
    ensures { result ≡ false → (k : ℕ) → k < 8 → slice_index eight k ≡ 10 → ⊥ }
{
    eight.simd_eq(u8x8::splat(b'\n')).to_bitmask() != 0
}

// Lays the bytes of part behind the len that are held, up to an LF, and says how many: eight at a
// time, then those before the LF, or fewer than eight at the end, one by one.
fn lay_to_lf(line: &mut [u8], len: usize, part: &[u8]) -> usize
    requires { len + length part.now ≤ length line.old }
    ensures few { result ≤ length part.now }
    ensures clear { (k : ℕ) → k < result → slice_index part.now k ≡ 10 → ⊥ }
    ensures laid { line.new ≡ paste line.old len part.now result }
{
    let mut n = 0;
    for k in 0..part.len() / 8 {
        let eight = u8x8::from_slice(&part[8 * k..]);
        if has_lf(eight) {
            break;
        }
        eight.copy_to_slice(&mut line[len + n..]);
        n += 8;
    }
    for b in &part[n..] {
        if *b == b'\n' {
            break;
        }
        line[len + n] = *b;
        n += 1;
    }
    n
}

// Lays the bytes of chunk from at on behind the len that are held, up to an LF, the 256th byte or
// the chunk's end, and says how many. None where a prompt may come of them: its bytes go one by
// one.
fn fill(line: &mut [u8; 257], len: usize, chunk: &[u8], at: usize) -> usize
    ensures { Filled line.old len chunk.now at result line.new }
{
    if len > 255 || at >= chunk.len() || may_prompt(line, len, chunk[at]) {
        return 0;
    }
    let rest = &chunk[at..];
    lay_to_lf(line, len, &rest[..rest.len().min(256 - len)])
}

// The search stops at the first byte that stops a feed; the count taken runs through that byte, or
// is the whole chunk. A loop, since document 01 wants one that yields the count by `break`.
pub(crate) fn search(line: &mut [u8; 257], start: usize, chunk: &[u8]) -> Found
    ensures { found_says result line.new ≡ found_after 0 (tray_of line.old start) chunk.now }
{
    let mut len = start;
    let mut i = 0;
    let mut piece = None;
    let taken = loop {
        let n = fill(line, len, chunk, i);
        len += n;
        i += n;
        if i >= chunk.len() {
            break i;
        }
        let pushed = push(line, len, chunk[i]);
        i += 1;
        len = pushed.len;
        piece = pushed.piece;
        if piece.is_some() {
            break i;
        }
    };
    Found { taken, len, piece }
}
