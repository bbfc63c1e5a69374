// A decimal digit, told in one way and in this file alone: 48 is subtracted, wrapping, and what is
// left is below ten. It is then the digit's value.
ghost use Rattle.text.specs.Digit.{is_digit, above_zero};
ghost use Rattle.text.specs.Gives.{Gives};

// The value of a digit; of any other byte ten or more.
pub fn value(x: u8) -> u8
    ensures { Gives (above_zero x) result }
{
    std::num::wrapping_sub_u8(x, 48)
}

// Whether the byte is one of '0' to '9'.
pub fn is_ascii_digit(x: u8) -> bool
    ensures { Gives (is_digit x) result }
{
    value(x) < 10
}
