// A number as the programs print it.
ghost use Rattle.std.specs.Prelude.{Some};
ghost use Rattle.std.specs.Fmt.{decimal};

use crate::output;
use std::{fmt, str};
use text::part;

// In decimal, by `output::put_decimal`, which is lent an array for it: there is no heap.
#[derive(Clone, Copy)]
pub struct Decimal(pub u64);

impl fmt::Display for Decimal {
    ghost output = { λ n. Some (decimal n.0) };

    fn fmt<W: fmt::Write>(&self, f: &mut fmt::Formatter<W>) -> fmt::Result {
        let Decimal(number) = *self;
        let mut digits = [0u8; 20];
        let n = output::put_decimal(&mut digits, 0, number);
        match str::from_utf8(part::part(&digits, 0, n)) {
            Ok(text) => f.write_str(text),
            // never: digits are ASCII
            Err(_) => Err(fmt::Error),
        }
    }
}
