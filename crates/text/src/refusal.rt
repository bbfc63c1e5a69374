// Why a line, a request or a chunk is refused.
ghost use Rattle.text.specs.Gives.{Gives};
ghost use Rattle.text.specs.says.Refusal.{number_of, WorseKeeps};

// Each with its number in docs/RULES.md.
#[derive(Clone, Copy, Debug, PartialEq, Eq)]
pub enum Refusal {
    // The line has more than 256 bytes.
    LineTooLong = 1,
    // The line is not UTF-8.
    NotUtf8 = 2,
    // The line is not one of the reader's.
    NotThisLine = 3,
    // A text in the line is longer than its place allows.
    TextTooLong = 4,
    // A text of a request is too long.
    ArgumentTooLong = 5,
    // A text of a request has a byte outside 32 to 126.
    ArgumentBytes = 6,
    // The output buffer has no room for the command.
    NoRoom = 7,
    // A command is open.
    CommandOpen = 8,
    // Bytes of an unfinished line are held.
    LineHeld = 9,
    // The text buffer has fewer than 256 bytes.
    TextBufferTooSmall = 10,
    // An operator number is not five or six digits.
    OperatorNumber = 12,
    // A satellite fix has no date, or one that never was.
    NoSuchDate = 13,
}

impl Refusal {
    pub fn number(self) -> u8
        ensures { Gives (number_of self) result }
    {
        self as u8
    }

    // The refusal of two readers tried one after the other: the first's, unless that is 3.
    pub fn worse(self, other: Refusal) -> Refusal
        ensures { WorseKeeps self other result }
    {
        if self == Refusal::NotThisLine {
            return other;
        }
        self
    }
}
