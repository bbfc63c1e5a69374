// The desk set back: the command is closed, no echo is awaited, an unfinished line is forgotten,
// and lines are counted anew.
ghost use Rattle.desk.specs.Keeps.{ResetKeeps};

use crate::{Desk, State};

impl Desk {
    pub fn reset(self) -> Desk
        ensures { ResetKeeps self result }
    {
        Desk {
            state: State::default(),
            ..self
        }
    }
}
