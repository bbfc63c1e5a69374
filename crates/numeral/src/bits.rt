// The bits of an f32, for what hands a float over as a number.
ghost use Rattle.text.specs.Gives.{Gives};
ghost use Rattle.numeral.specs.Bits.{bits_of};

// A NaN, which no reader answers, gives one pattern: the language leaves the bits of a NaN open.
#[tactic(auto, unfolding(crate::specs::Bits::bits_of))]
pub fn bits_of(x: f32) -> u32
    ensures { Gives (bits_of x) result }
{
    if x.is_nan() {
        return 0x7fc0_0000;
    }
    x.to_bits()
}
