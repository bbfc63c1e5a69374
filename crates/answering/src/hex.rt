// Bytes spelled in hexadecimal, two digits each.
ghost use Rattle.std.specs.Prelude.{◌<◌, IfSome};

use text::digit;

// A digit's worth, letters in either case.
fn nibble(x: u8) -> Option<u8>
    ensures { IfSome result (λ n. n < 16) }
{
    match x {
        b'a'..=b'f' => Some(x - b'a' + 10),
        b'A'..=b'F' => Some(x - b'A' + 10),
        _ if digit::is_ascii_digit(x) => Some(digit::value(x)),
        _ => None,
    }
}

// The bytes that a text spells, at the front of out. None where a digit is missing, something else
// stands there, or out has no room.
pub(crate) fn decode<'a>(hex: &[u8], out: &'a mut [u8]) -> Option<&'a [u8]> {
    let n = hex.len() / 2;
    if hex.len() % 2 != 0 || out.len() < n {
        return None;
    }
    let out = &mut out[..n];
    for (byte, pair) in out.iter_mut().zip(hex.chunks_exact(2)) {
        let [high, low] = pair else { return None };
        *byte = nibble(*high)? * 16 + nibble(*low)?;
    }
    Some(out)
}

// The digit of what is below 16.
fn digit_of(n: u8) -> u8
    requires { n < 16 }
{
    b"0123456789abcdef"[usize::from(n)]
}

// Spells bytes at the front of out, as many as have room.
pub(crate) fn encode<'a>(bytes: &[u8], out: &'a mut [u8]) -> &'a [u8] {
    let n = bytes.len().min(out.len() / 2);
    let out = &mut out[..2 * n];
    for (pair, byte) in out.chunks_exact_mut(2).zip(bytes) {
        if let [high, low] = pair {
            *high = digit_of(*byte / 16);
            *low = digit_of(*byte % 16);
        }
    }
    out
}
