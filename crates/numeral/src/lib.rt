// A desk numeral, read as the nearest f32. The quotient of its digits by a power of ten is formed
// in whole numbers: the counts of leading zero bits of the two fix the exponent, two divisions give
// 24 binary digits, and the remainder rounds them.
#![tactic(auto)]

ghost use Rattle.std.specs.Prelude.{◌≡◌, Bool, false, ◌+◌, ◌*◌, ◌^◌, ◌≤◌, ◌<◌, length};
ghost use Rattle.std.specs.Float.Ieee as Ieee;
ghost use Rattle.std.specs.Float.{binary32};
ghost use Rattle.std.specs.Float.Ieee.Nearest.{closest};
ghost use Rattle.text.specs.Gives.{Gives};
ghost use Rattle.text.specs.Reading.{present};
ghost use Rattle.numeral.specs.Numeral.{unsigned, behind_sign, decimal_of, is_numeral};
ghost use Rattle.numeral.specs.Place.{Placed};
ghost use Rattle.numeral.specs.says.Numeral.{NumeralKeeps};

use text::digit;

pub mod bits;

// How many digits a numeral has at most.
const MAX_DIGITS: usize = 15;

const TENS: [u64; 16] = [
    1,
    10,
    100,
    1_000,
    10_000,
    100_000,
    1_000_000,
    10_000_000,
    100_000_000,
    1_000_000_000,
    10_000_000_000,
    100_000_000_000,
    1_000_000_000_000,
    10_000_000_000_000,
    100_000_000_000_000,
    1_000_000_000_000_000,
];

fn ten_to(k: usize) -> u64
    requires { k ≤ 15 }
    ensures { result ≡ 10 ^ k }
{
    TENS[k]
}

// How far x is moved up for its highest set bit to stand at bit 49.
fn shift_of(x: u64) -> u32
    requires { (0 < x) × (x < 2 ^ 50) }
    ensures { Placed x result }
{
    x.leading_zeros() - 14
}

fn raised(x: u64, r: u32) -> u64
    requires { Placed x r }
    ensures { result ≡ x * 2 ^ r }
{
    x << r
}

// The 24 leading binary digits of n / d, rounded to the nearest, a tie to the even one.
fn significand(n: u64, d: u64) -> u32
    requires { (d ≤ n) × (n < 2 * d) × (d < 2 ^ 50) }
    ensures { (result ≡ closest (n * 2 ^ 23) d) × (result ≤ 2 ^ 24) }
{
    let a = n * 4096;
    let b = a % d * 2048;
    let q = (a / d * 2048 + b / d) as u32;
    let t = b % d * 2;
    if t < d {
        return q;
    }
    if t == d {
        return q + q % 2;
    }
    q + 1
}

// A decimal of at most fifteen digits: number / 10^places, or its negation. The sign stands by
// itself, since -0 is a numeral too, and no integer has it.
#[derive(Clone, Copy)]
struct Decimal {
    negative: bool,
    number: u64,
    places: usize,
    ghost short: { number < 10 ^ 15 },
    ghost within: { places ≤ 15 },
}

impl Decimal {
    ghost use Rattle.numeral.specs.says.Decimal.{said};

    // The decimal that digits and at most one point say, behind the sign.
    fn digits_from(text: &[u8], negative: bool) -> Option<Decimal>
        ensures { said result ≡ behind_sign negative text.now }
    {
        let mut number: u64 = 0;
        let mut count: usize = 0;
        // how many stand before the point, once it was read
        let mut front: Option<usize> = None;
        for &c in text {
            if c == b'.' {
                if front.is_some() {
                    return None;
                }
                front = Some(count);
            } else {
                if !digit::is_ascii_digit(c) {
                    return None;
                }
                if MAX_DIGITS <= count {
                    return None;
                }
                number = number * 10 + digit::value(c) as u64;
                count += 1;
            }
        }
        if count == 0 {
            return None;
        }
        let places = match front {
            Some(front) => count - front,
            None => 0,
        };
        Some(Decimal {
            negative,
            number,
            places,
        })
    }

    // The decimal that s says.
    fn scan(s: &[u8]) -> Option<Decimal>
        ensures { said result ≡ decimal_of s.now }
    {
        Decimal::digits_from(unsigned(s), s.starts_with(b"-"))
    }

    // The bit pattern of the f32 nearest to number / 10^places.
    fn magnitude(self) -> u32
        ensures { Ieee.to_bits binary32 (Ieee.round binary32 false self.number (10 ^ self.places))
            ≡ result }
    {
        if self.number == 0 {
            return 0;
        }
        let d = ten_to(self.places);
        let a = shift_of(self.number);
        let b = shift_of(d);
        let n = raised(self.number, a);
        let e = raised(d, b);
        if n < e {
            return (125 + b - a) * 0x80_0000 + significand(n * 2, e);
        }
        (126 + b - a) * 0x80_0000 + significand(n, e)
    }

    // The nearest f32.
    fn nearest(self) -> f32
        ensures { result ≡ Ieee.round binary32 self.negative self.number (10 ^ self.places) }
    {
        let magnitude = f32::from_bits(self.magnitude());
        if self.negative { -magnitude } else { magnitude }
    }
}

// What stands behind the sign, where there is one.
fn unsigned(s: &[u8]) -> &[u8]
    ensures { result.now ≡ unsigned s.now }
{
    let has_sign = s.starts_with(b"-") | s.starts_with(b"+");
    &s[has_sign as usize..]
}

// The f32 nearest to the decimal that s says, a tie going to the even significand.
pub fn read(s: &[u8]) -> Option<f32>
    ensures { NumeralKeeps s.now result }
{
    let decimal = Decimal::scan(s)?;
    Some(decimal.nearest())
}

// Whether the bytes are one to fifteen digits and at most one point. They are counted in one pass
// with no branch on them, which is faster than two chains of `filter` and `count`.
fn is_counted(text: &[u8]) -> bool
    ensures { (negative : Bool) → result ≡ present (behind_sign negative text.now) }
{
    let mut digits = 0;
    let mut points = 0;
    for &c in text {
        digits += digit::is_ascii_digit(c) as usize;
        points += (c == b'.') as usize;
    }
    (digits + points == text.len()) & (points <= 1) & (1 <= digits) & (digits <= MAX_DIGITS)
}

// Whether `read` would give a value: every decimal has a nearest f32, so nothing need be rounded,
// and no number is made.
pub fn is_numeral(s: &[u8]) -> bool
    ensures { Gives (is_numeral s.now) result }
{
    is_counted(unsigned(s))
}
