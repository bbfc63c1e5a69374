// The row by which a line goes, in the table of what each reader asks of a line's front and end
// (specs/Conditions.antt), counted from 0: no other reader could take the line. It looks at no more
// than the first five bytes, the classes of the first and the last, and where the line ends.
ghost use Rattle.std.specs.Prelude.{◌≡◌, true, List, [], ◌∷◌, ℕ};
ghost use Rattle.text.specs.Class.{class_of, class_number};
ghost use Rattle.text.specs.Condition.{is_digit_class, first_byte, last_byte, Points};
ghost use Rattle.trial.specs.Conditions.{all_conditions};
ghost use Rattle.trial.specs.Row.{no_row, Front, ByLetters};

use text::{bytes, class};

// No reader's row. A row past the table's needs no case of its own: no line meets its condition, and
// a reader past the last refuses every line with 3. So rows are numbers, and there is no `Option`.
pub(crate) const NONE: usize = 255;

// The first byte, a plus before it left out, and the last one; 0 where there is none.
fn first_byte(line: &[u8]) -> u8
    ensures { result ≡ first_byte line.now }
{
    let first = bytes::byte_at(line, 0);
    if first == b'+' {
        return bytes::byte_at(line, 1);
    }
    first
}

fn last_byte(line: &[u8]) -> u8
    ensures { result ≡ last_byte line.now }
{
    let n = line.len();
    if n == 0 {
        return 0;
    }
    bytes::byte_at(line, n - 1)
}

// A number in front: the end tells CLOSE OK from an ICCID, which may end in letters, and where it
// ends an ICCID from an IMEI.
fn number_row(last: u8, line: &[u8]) -> usize
    requires { (is_digit_class (class_of (first_byte line.now)) ≡ true) × (last ≡ class_number (last_byte line.now)) }
    ensures { Points all_conditions line.now result }
{
    if last == class::OTHER {
        return 3;
    }
    if last != class::DIGIT {
        return 4;
    }
    if line.len() < 17 {
        return 10;
    }
    4
}

// The letters in front: "+CM", and the two bytes behind it.
fn message_row(d: u8, e: u8) -> usize
    ensures { (l : List ℕ) → Front (43 ∷ 67 ∷ 77 ∷ d ∷ e ∷ []) l → ByLetters l result }
{
    if d != b'G' {
        return 1;
    }
    if e == b'F' {
        return 11;
    }
    12
}

// "+C", and three.
fn code_row(c: u8, d: u8, e: u8) -> usize
    ensures { (l : List ℕ) → Front (43 ∷ 67 ∷ c ∷ d ∷ e ∷ []) l → ByLetters l result }
{
    match c {
        b'R' => 14,
        b'G' => 15,
        b'E' => 16,
        b'S' => 5,
        b'M' => message_row(d, e),
        b'P' => 6,
        b'O' => 7,
        b'N' => 8,
        _ => NONE,
    }
}

// "+", and four.
fn plus_row(b: u8, c: u8, d: u8, e: u8) -> usize
    ensures { (l : List ℕ) → Front (43 ∷ b ∷ c ∷ d ∷ e ∷ []) l → ByLetters l result }
{
    match b {
        b'C' => code_row(c, d, e),
        b'U' => 13,
        b'H' => 9,
        _ => NONE,
    }
}

// The first five bytes, each by itself, here and above: each function is for those at which its rows
// part, and a struct of all five would say less of what it reads.
fn letter_row(a: u8, b: u8, c: u8, d: u8, e: u8) -> usize
    ensures { (l : List ℕ) → Front (a ∷ b ∷ c ∷ d ∷ e ∷ []) l → ByLetters l result }
{
    match a {
        b'+' => plus_row(b, c, d, e),
        b'O' => 0,
        b'S' => 0,
        b'E' => 1,
        b'>' => 2,
        _ => NONE,
    }
}

// No letter in front is a reader's: a number may stand there.
fn other_row(line: &[u8]) -> usize
    requires { ByLetters line.now no_row }
    ensures { Points all_conditions line.now result }
{
    let ends = class::classes_of(first_byte(line), last_byte(line));
    if ends.first == class::DIGIT {
        return number_row(ends.last, line);
    }
    NONE
}

// Letters first, since most lines begin with one: the table is asked where none of them stands in front.
pub(crate) fn row_of(line: &[u8]) -> usize
    ensures { Points all_conditions line.now result }
{
    let a = bytes::byte_at(line, 0);
    let b = bytes::byte_at(line, 1);
    let c = bytes::byte_at(line, 2);
    let d = bytes::byte_at(line, 3);
    let e = bytes::byte_at(line, 4);
    let row = letter_row(a, b, c, d, e);
    if row != NONE {
        return row;
    }
    other_row(line)
}
