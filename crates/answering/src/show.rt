// How the programs print a value.
use crate::hex;
use console::number::Decimal;
use console::output;
use std::fmt::Display;
use std::io::Write;
use std::{fmt, io, str};
use text::part;
use text::refusal::Refusal;

// A value, or `none` where the line lacks it.
#[derive(Clone, Copy)]
pub(crate) struct OrNone<T>(pub(crate) Option<T>);

impl<T: Display> Display for OrNone<T> {
    fn fmt<W: fmt::Write>(&self, f: &mut fmt::Formatter<W>) -> fmt::Result {
        match &self.0 {
            Some(value) => write!(f, "{value}"),
            None => f.write_str("none"),
        }
    }
}

pub(crate) fn decimal(number: impl Into<u64> + Drop) -> Decimal {
    Decimal(number.into())
}

// A number that may be below zero.
#[derive(Clone, Copy)]
pub(crate) struct Signed(pub(crate) i32);

impl Display for Signed {
    fn fmt<W: fmt::Write>(&self, f: &mut fmt::Formatter<W>) -> fmt::Result {
        let sign = if self.0 < 0 { "-" } else { "" };
        let size = decimal(self.0.unsigned_abs());
        write!(f, "{sign}{size}")
    }
}

// Digits, which are ASCII: an error is the formatter's.
fn digits<W: fmt::Write>(f: &mut fmt::Formatter<W>, digits: &[u8]) -> fmt::Result {
    f.write_str(str::from_utf8(digits).map_err(|_| fmt::Error)?)
}

// The 32 bits of a float, in hexadecimal, by `output::put_hex`. The arrays, here and in `Hex`, are
// lent to what lays the digits, since there is no heap.
#[derive(Clone, Copy)]
pub(crate) struct Bits(pub(crate) f32);

impl Display for Bits {
    fn fmt<W: fmt::Write>(&self, f: &mut fmt::Formatter<W>) -> fmt::Result {
        let mut laid = [0u8; 16];
        let n = output::put_hex(&mut laid, 0, numeral::bits::bits_of(self.0).into());
        digits(f, part::part(&laid, 0, n))
    }
}

// Bytes in hexadecimal, two digits each.
#[derive(Clone, Copy)]
pub(crate) struct Hex<'a>(pub(crate) &'a [u8]);

impl Display for Hex<'_> {
    fn fmt<W: fmt::Write>(&self, f: &mut fmt::Formatter<W>) -> fmt::Result {
        let mut laid = [0u8; 64];
        for run in self.0.chunks(32) {
            digits(f, hex::encode(run, &mut laid))?;
        }
        Ok(())
    }
}

// A refusal, by its number.
#[derive(Clone, Copy)]
pub(crate) struct Refused(pub(crate) Refusal);

impl Display for Refused {
    fn fmt<W: fmt::Write>(&self, f: &mut fmt::Formatter<W>) -> fmt::Result {
        write!(f, "refused {}", decimal(self.0.number()))
    }
}

// A text in quotes, its bytes as they are.
pub(crate) fn quoted(out: &mut impl Write, text: &[u8]) -> io::Result<()> {
    out.write_all(b"\"")?;
    out.write_all(text)?;
    out.write_all(b"\"")
}
