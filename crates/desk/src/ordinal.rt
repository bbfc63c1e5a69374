// The ordinals of lines.
ghost use Rattle.std.specs.Prelude.{◌≡◌, suc};
ghost use Rattle.desk.specs.Ordinal.{capped};

// The ordinal of the next line, so many having been counted. At the greatest it stays.
#[tactic(auto, using(crate::proofs::Numbering::next_capped))]
pub(crate) fn next(counted: u32) -> u32
    ensures { result ≡ capped (suc counted) }
{
    counted.saturating_add(1)
}
