// The text that a line begins with, by which its reader is told.
ghost use Rattle.std.specs.Prelude.{◌≡◌, true, false, length, drop, MatchResult};
ghost use Rattle.text.specs.Bytes.{starts_with};
ghost use Rattle.text.specs.says.Refusal.{number_of};

use text::refusal::Refusal;

// What follows the prefix.
#[tactic(auto, using(crate::proofs::Stripped::stripped))]
pub(crate) fn behind<'a>(line: &'a [u8], prefix: &[u8]) -> Result<&'a [u8], Refusal>
    ensures { MatchResult result
        (λ rest. (starts_with prefix.now line.now ≡ true) × (rest.now ≡ drop (length prefix.now) line.now))
        (λ k. (starts_with prefix.now line.now ≡ false) × (number_of k ≡ 3)) }
{
    line.strip_prefix(prefix).ok_or(Refusal::NotThisLine)
}
