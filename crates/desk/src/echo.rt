// The echo of a command, which a modem with echo on sends before the answers.
ghost use Rattle.std.specs.Prelude.{◌≡◌};
ghost use Rattle.desk.specs.Judge.{is_echo};
ghost use Rattle.desk.specs.Desk.{echo_in, size_in};

use crate::cutter;

// The size of the echo that is awaited, 0 where none is: a size above the bytes that are kept
// awaits none.
pub(crate) fn size_of(sent: &[u8], echo: usize) -> usize
    ensures { result ≡ size_in (echo_in sent.now echo) }
{
    if echo <= sent.len() { echo } else { 0 }
}

// Whether the line equals the command, with or without its final CR. The two are compared, and a
// struct of both would be no plainer.
#[tactic(auto, using(crate::proofs::Echoing::echoes, text::proofs::Finding::same_is))]
pub(crate) fn is_echo(line: &[u8], sent: &[u8]) -> bool
    ensures { result ≡ is_echo sent.now line.now }
{
    line == sent || line == cutter::without_cr(sent)
}
