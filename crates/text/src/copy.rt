// Bytes laid into a lent buffer.
ghost use Rattle.std.specs.Prelude.{◌≡◌, ◌+◌, ◌<◌, ◌≤◌, length, drop};
ghost use lib.Seq.{paste};
ghost use Rattle.text.specs.Copy.{least, LayKeeps};
ghost use Rattle.text.specs.Gives.{Gives};

use std::simd::Simd;

// The smaller of two numbers. `min` does it, but this name is public, so it stays.
pub fn least(a: usize, b: usize) -> usize
    ensures { Gives (least a b) result }
{
    a.min(b)
}

// Lays N bytes of the piece, from index i on, where they stand once the piece is laid at `at`: one
// load and one store. Of copy_from_slice more than a few bytes become memmove, and the archive
// needs memcpy alone.
#[inline(always)]
fn lay_chunk<const N: usize>(piece: &[u8], i: usize, at: usize, out: &mut [u8])
    requires { (i + N ≤ length piece.now) × (at + i + N ≤ length out.old) }
    ensures { out.new ≡ paste out.old (at + i) (drop i piece.now) N }
{
    Simd::<u8, N>::from_slice(&piece[i..]).copy_to_slice(&mut out[at + i..]);
}

// Lays the first n bytes of the piece, fewer than sixteen, at `at`. Two chunks may lie over one
// another.
fn lay_few(piece: &[u8], n: usize, at: usize, out: &mut [u8])
    requires { (n ≤ length piece.now) × (at + n ≤ length out.old) × (n < 16) }
    ensures { out.new ≡ paste out.old at piece.now n }
{
    if 8 <= n {
        lay_chunk::<8>(piece, 0, at, out);
        lay_chunk::<8>(piece, n - 8, at, out);
    } else if 4 <= n {
        lay_chunk::<4>(piece, 0, at, out);
        lay_chunk::<4>(piece, n - 4, at, out);
    } else {
        for i in 0..n {
            out[at + i] = piece[i];
        }
    }
}

// Lays the piece into out from index `at` on, or as much of it as has room there, and says where it
// ends: sixteen bytes at a time, of which the last may lie over others. `out` and `at` are two, as
// the public contract has them (LayKeeps).
pub fn lay(piece: &[u8], at: usize, out: &mut [u8]) -> usize
    ensures { LayKeeps piece.now at out.old result out.new }
{
    if out.len() < at {
        return at;
    }
    let n = piece.len().min(out.len() - at);
    if n < 16 {
        lay_few(piece, n, at, out);
        return at + n;
    }
    for k in 0..n / 16 {
        lay_chunk::<16>(piece, 16 * k, at, out);
    }
    lay_chunk::<16>(piece, n - 16, at, out);
    at + n
}
