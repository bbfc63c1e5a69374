// Texts handed out of a line that is read anew: a part of the line and no copy, or the refusal.
ghost use Rattle.text.specs.Handed.{IsHanded};
ghost use Rattle.text.specs.says.Handed.{at_says};

use crate::part;
use crate::part::Place;

// Where a text stands: in the line, or in the text lent for it where the line has none.
#[derive(Clone, Copy)]
pub enum TextAt {
    InLine(Place),
    InFallback(Place),
}

// The part of the line, or of the text lent for it.
#[tactic(auto, unfolding(crate::specs::Handed::IsHanded))]
pub fn cut<'a>(at: TextAt, line: &'a [u8], fallback: &'a [u8]) -> &'a [u8]
    ensures { IsHanded line.entry fallback.entry (at_says at) result }
{
    match at {
        TextAt::InLine(place) => part::part(line, place.start, place.end),
        TextAt::InFallback(place) => part::part(fallback, place.start, place.end),
    }
}
