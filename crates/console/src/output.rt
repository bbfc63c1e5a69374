// Texts and numbers laid into a lent buffer, one behind the other. Each call says where the next one
// goes; what has no room is left out. The buffer and the place in it are two parameters, since each
// is a public call.
ghost use Rattle.std.specs.Prelude.{IfOk, OnOk};
ghost use Rattle.std.specs.Io.KnownBytes.{Appends};
ghost use Rattle.text.specs.Part.{part_of};
ghost use Rattle.console.specs.Output.{Puts, PutsDecimal, PutsHex, EndsLine, LaysLineEnd};

use std::io::Write;
use text::{copy, part};

// A line has this much room at least when it begins.
const ROOM: usize = 1024;

pub fn put(out: &mut [u8], at: usize, s: &[u8]) -> usize
    ensures { Puts s.now at out.old result out.new }
{
    if out.len() < at || out.len() - at < s.len() {
        return at;
    }
    copy::lay(s, at, out)
}

// The number in decimal. Its digits, here and below, stand in an array that the library is lent,
// since there is no heap.
pub fn put_decimal(out: &mut [u8], at: usize, n: u64) -> usize
    ensures { PutsDecimal n at out.old result out.new }
{
    let mut digits = [0u8; 20];
    let k = io::decimal(n, &mut digits);
    put(out, at, &digits[..k])
}

// The number in hexadecimal: eight digits, or as many as it has.
pub fn put_hex(out: &mut [u8], at: usize, n: u64) -> usize
    ensures { PutsHex n at out.old result out.new }
{
    let mut digits = [0u8; 16];
    let k = io::hex(n, 8, &mut digits);
    put(out, at, &digits[..k])
}

// Writes the first n bytes of out. After an error it is not known how many of them were written.
pub fn flush<W: Write>(writer: &mut W, out: &[u8], n: usize) -> std::io::Result<()>
    ensures { OnOk result
        (Appends (W.contents writer.old) (W.contents writer.new) (part_of out.now 0 n)) }
{
    writer.write_all(part::part(out, 0, n))
}

// Ends the line at `at`, writes all where out is nearly full, and says where the next line begins.
pub fn end_line<W: Write>(writer: &mut W, out: &mut [u8], at: usize) -> std::io::Result<usize>
    ensures line { IfOk result (λ next. EndsLine at out.old next out.new) }
    ensures laid { LaysLineEnd at out.old out.new }
{
    let e = put(out, at, b"\n");
    if out.len().saturating_sub(ROOM) < e {
        flush(writer, out, e)?;
        return Ok(0);
    }
    Ok(e)
}
