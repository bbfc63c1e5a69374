// What the writers of requests share: the check of texts, and the command as it is written.
ghost use Rattle.std.specs.Prelude.{ℕ, ◌≡◌, true, List, [], ◌∷◌, ◌++◌, ◌+◌, ◌*◌, ◌%◌, ◌≤◌, length, take};
ghost use Rattle.text.specs.says.Refusal.{refusal_said};
ghost use Rattle.at_command.specs.Piece.{marked, escaped, quoted, decimal};
ghost use Rattle.at_command.specs.Request.{up_to, refusal_of, fitting, LeavesWritten};
ghost use Rattle.at_command.specs.says.Request.{encoded_says};

use std::marker::Model;
use text::refusal::Refusal;
use text::{bytes, copy};

// Two texts of a request, each with the most bytes that it may have.
pub(crate) fn check_texts(
    first: &[u8],
    most: usize,
    second: &[u8],
    limit: usize,
) -> Result<(), Refusal>
    ensures { refusal_said result ≡ refusal_of (up_to most first.now ∷ up_to limit second.now ∷ []) }
{
    if most < first.len() || limit < second.len() {
        return Err(Refusal::ArgumentTooLong);
    }
    if !bytes::all_within(first, 32, 126) || !bytes::all_within(second, 32, 126) {
        return Err(Refusal::ArgumentBytes);
    }
    Ok(())
}

// Whether x is a quote or a backslash.
fn is_marked(x: u8) -> bool
    ensures { result ≡ marked x }
{
    x == b'"' || x == b'\\'
}

// The last decimal digit of n.
fn digit(n: u16) -> u8
    ensures { result ≡ 48 + n % 10 }
{
    48 + (n % 10) as u8
}

// Writes a command that is there whole.
pub(crate) fn plain(command: &[u8], out: &mut [u8]) -> Result<usize, Refusal>
    ensures { LeavesWritten (fitting command.now (length out.old)) out.old (encoded_says result) out.new }
{
    if out.len() < command.len() {
        return Err(Refusal::NoRoom);
    }
    Ok(copy::lay(command, 0, out))
}

// The most bytes that a command has.
const MOST: usize = 210;

// Lays a byte behind the first len, or drops it where there is no room, and says how many stand
// there.
fn push(x: u8, len: usize, bytes: &mut [u8; MOST]) -> usize
    requires { len ≤ 210 }
    ensures most { result ≤ 210 }
    ensures kept { take result bytes.new ≡ take 210 (take len bytes.old ++ x ∷ []) }
{
    if len < MOST {
        bytes[len] = x;
        return len + 1;
    }
    len
}

// The same of a text, with a backslash before each quote and backslash.
fn push_text(piece: &[u8], len: usize, bytes: &mut [u8; MOST]) -> usize
    requires { len ≤ 210 }
    ensures most { result ≤ 210 }
    ensures kept { take result bytes.new ≡ take 210 (take len bytes.old ++ escaped piece.now) }
{
    let mut end = len;
    for x in piece {
        if is_marked(*x) {
            end = push(b'\\', end, bytes);
        }
        end = push(*x, end, bytes);
    }
    end
}

// The same where all surely has room, which is asked once and not at each byte.
fn lay_text(piece: &[u8], len: usize, bytes: &mut [u8; MOST]) -> usize
    requires { len + 2 * length piece.now ≤ 210 }
    ensures most { result ≤ 210 }
    ensures kept { take result bytes.new ≡ take 210 (take len bytes.old ++ escaped piece.now) }
{
    let mut end = len;
    for x in piece {
        if is_marked(*x) {
            bytes[end] = b'\\';
            end += 1;
        }
        bytes[end] = *x;
        end += 1;
    }
    end
}

// Whether no byte of a text wants a backslash.
fn is_plain(piece: &[u8]) -> bool
    ensures { result ≡ true → escaped piece.now ≡ piece.now }
{
    bytes::count_byte(piece, b'"') == 0 && bytes::count_byte(piece, b'\\') == 0
}

// A command that is being written, piece behind piece, until it goes into the buffer that is lent
// for it. What goes past its 210 bytes is dropped: no request has a longer command. It is an array
// and a length, since the library has no heap.
#[derive(Drop)]
pub(crate) struct Command {
    bytes: [u8; MOST],
    len: usize,
}

impl Model for Command {
    ghost Value = { List ℕ };

    ghost view = { λ c. take c.len c.bytes };

    ghost invariant = { λ c. c.len ≤ 210 };
}

impl Command {
    pub(crate) fn new() -> Command
        ensures { result ≡ [] }
    {
        Command {
            bytes: [0; MOST],
            len: 0,
        }
    }

    #[inline(always)]
    pub(crate) fn text(&mut self, piece: &[u8])
        ensures { self.new ≡ take 210 (self.old ++ piece.now) }
    {
        self.len = copy::lay(piece, self.len, &mut self.bytes);
    }

    pub(crate) fn byte(&mut self, x: u8)
        ensures { self.new ≡ take 210 (self.old ++ x ∷ []) }
    {
        self.len = push(x, self.len, &mut self.bytes);
    }

    // The text, with a backslash before each quote and backslash. Most have none, and go whole.
    fn escaped(&mut self, piece: &[u8])
        ensures { self.new ≡ take 210 (self.old ++ escaped piece.now) }
    {
        if is_plain(piece) {
            self.text(piece);
        } else if piece.len() <= (MOST - self.len) / 2 {
            self.len = lay_text(piece, self.len, &mut self.bytes);
        } else {
            self.len = push_text(piece, self.len, &mut self.bytes);
        }
    }

    // The text in quotes, as `{:?}` writes it: a backslash before each quote and backslash.
    pub(crate) fn quoted(&mut self, piece: &[u8])
        ensures { self.new ≡ take 210 (self.old ++ quoted piece.now) }
    {
        self.byte(b'"');
        self.escaped(piece);
        self.byte(b'"');
    }

    // The number in decimal.
    pub(crate) fn decimal(&mut self, n: u16)
        ensures { self.new ≡ take 210 (self.old ++ decimal n) }
    {
        if 10 <= n {
            self.decimal(n / 10);
        }
        self.byte(digit(n));
    }

    // Writes the command into the buffer, which stays as it was where it has no room.
    pub(crate) fn write_to(&self, out: &mut [u8]) -> Result<usize, Refusal>
        ensures { LeavesWritten (fitting self.now (length out.old)) out.old (encoded_says result) out.new }
    {
        plain(&self.bytes[..self.len], out)
    }
}
