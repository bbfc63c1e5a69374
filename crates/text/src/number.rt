// Whole numbers, one reader per width over one reader of digits.
ghost use Rattle.std.specs.Prelude.{◌≡◌, ◌≤◌, ℕ};
ghost use Rattle.text.specs.Number.{digit_value, magnitude, unsigned, negative, signed};
ghost use Rattle.text.specs.says.Number.{base_number};
ghost use Rattle.text.specs.says.Refusal.{option_mapped, ParsedKeeps};

use crate::{bytes, digit, part};

// The bases in which a line has numbers.
#[derive(Clone, Copy)]
enum Base {
    Decimal = 10,
    Hexadecimal = 16,
}

impl Base {
    fn number(self) -> u64
        ensures { (result ≡ base_number self) × (1 ≤ result) }
    {
        self as u64
    }
}

// What a hexadecimal digit is worth.
fn digit_value(x: u8) -> Option<u8>
    ensures { ParsedKeeps (digit_value x) result }
{
    if digit::is_ascii_digit(x) {
        return Some(digit::value(x));
    }
    match x {
        b'A'..=b'F' => Some(x - 55),
        b'a'..=b'f' => Some(x - 87),
        _ => None,
    }
}

// The number of at most max whose digits the bytes are.
fn magnitude(s: &[u8], base: Base, max: u64) -> Option<u64>
    ensures { ParsedKeeps (magnitude (base_number base) max s.now) result }
{
    if s.is_empty() {
        return None;
    }
    let radix = base.number();
    let limit = max / radix;
    let mut n: u64 = 0;
    for x in s {
        let d = u64::from(digit_value(*x)?);
        if radix <= d {
            return None;
        }
        // n * radix must not pass max
        if limit < n {
            return None;
        }
        let m = n * radix;
        if max - m < d {
            return None;
        }
        n = m + d;
    }
    Some(n)
}

// The same after an optional plus.
#[tactic(auto, unfolding(crate::specs::Number::unsigned))]
fn unsigned(s: &[u8], base: Base, max: u64) -> Option<u64>
    ensures { ParsedKeeps (unsigned (base_number base) max s.now) result }
{
    if bytes::starts_with(s, b"+") {
        return magnitude(part::skip(s, 1), base, max);
    }
    magnitude(s, base, max)
}

// A type that a number of up to its greatest fits. A trait of its own: TryFrom knows no greatest
// value, and would answer an error that cannot come.
trait Width: Sized {
    ghost value: { Self → ℕ };

    ghost MAX: { ℕ };

    const MAX: u64;

    fn narrow(n: u64) -> Self
        requires { n ≤ MAX }
        ensures { value result ≡ n };
}

impl Width for u8 {
    ghost value = { λ n. n };

    ghost MAX = { 255 };

    const MAX: u64 = 255;

    fn narrow(n: u64) -> u8 {
        n as u8
    }
}

impl Width for u16 {
    ghost value = { λ n. n };

    ghost MAX = { 65535 };

    const MAX: u64 = 65535;

    fn narrow(n: u64) -> u16 {
        n as u16
    }
}

impl Width for u32 {
    ghost value = { λ n. n };

    ghost MAX = { 4294967295 };

    const MAX: u64 = 4294967295;

    fn narrow(n: u64) -> u32 {
        n as u32
    }
}

impl Width for u64 {
    ghost value = { λ n. n };

    ghost MAX = { 18446744073709551615 };

    const MAX: u64 = 18446744073709551615;

    fn narrow(n: u64) -> u64 {
        n
    }
}

// An unsigned number that fits the type.
fn parse<T: Width>(s: &[u8], base: Base) -> Option<T>
    ensures { option_mapped T.value result ≡ unsigned (base_number base) T.MAX s.now }
{
    match unsigned(s, base, T::MAX) {
        Some(n) => Some(T::narrow(n)),
        None => None,
    }
}

pub fn parse_u8(s: &[u8]) -> Option<u8>
    ensures { ParsedKeeps (unsigned 10 255 s.now) result }
{
    parse::<u8>(s, Base::Decimal)
}

pub fn parse_u16(s: &[u8]) -> Option<u16>
    ensures { ParsedKeeps (unsigned 10 65535 s.now) result }
{
    parse(s, Base::Decimal)
}

pub fn parse_u32(s: &[u8]) -> Option<u32>
    ensures { ParsedKeeps (unsigned 10 4294967295 s.now) result }
{
    parse(s, Base::Decimal)
}

pub fn parse_u64(s: &[u8]) -> Option<u64>
    ensures { ParsedKeeps (unsigned 10 18446744073709551615 s.now) result }
{
    parse(s, Base::Decimal)
}

pub fn parse_hex_u16(s: &[u8]) -> Option<u16>
    ensures { ParsedKeeps (unsigned 16 65535 s.now) result }
{
    parse(s, Base::Hexadecimal)
}

pub fn parse_hex_u32(s: &[u8]) -> Option<u32>
    ensures { ParsedKeeps (unsigned 16 4294967295 s.now) result }
{
    parse(s, Base::Hexadecimal)
}

// -m, formed below zero, where the least i32 has a place.
fn negative(m: u64) -> i32
    requires { m ≤ 2147483648 }
    ensures { result ≡ negative m }
{
    if m == 0 {
        return 0;
    }
    -1 - ((m - 1) as i32)
}

pub fn parse_i32(s: &[u8]) -> Option<i32>
    ensures { ParsedKeeps (signed 10 2147483647 s.now) result }
{
    if bytes::starts_with(s, b"-") {
        return Some(negative(magnitude(part::skip(s, 1), Base::Decimal, 2147483648)?));
    }
    Some(unsigned(s, Base::Decimal, 2147483647)? as i32)
}
