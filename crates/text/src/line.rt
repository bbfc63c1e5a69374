// The check that every line passes first.
ghost use Rattle.text.specs.Line.{line_check};
ghost use Rattle.text.specs.says.Refusal.{ChecksKeep};

use crate::refusal::Refusal;
use crate::utf8;

// What every reader refuses: a line of more than 256 bytes, then one that is not UTF-8.
#[tactic(auto, using(crate::proofs::LineLaws::check_long, crate::proofs::LineLaws::check_good, crate::proofs::LineLaws::check_bad))]
#[inline(always)]
pub fn check_line(s: &[u8]) -> Result<(), Refusal>
    ensures { ChecksKeep (line_check s.now) result }
{
    if 256 < s.len() {
        return Err(Refusal::LineTooLong);
    }
    if !utf8::is_utf8(s) {
        return Err(Refusal::NotUtf8);
    }
    Ok(())
}
