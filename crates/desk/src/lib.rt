// The desk: a modem's bytes are cut into lines, and each line is an event of the open command, an
// unsolicited one or a stray.
#![tactic(auto)]

ghost use Rattle.text.specs.Gives.{Gives};
ghost use Rattle.desk.specs.Judge.{event_number, stray_number};
ghost use Rattle.desk.specs.Says.{event_says};
ghost use Rattle.desk.specs.Keeps.{NewKeeps};

mod cutter;
mod echo;
mod feed;
mod judge;
mod lent;
mod open;
mod ordinal;
mod reset;

use at_command::request::Awaits;
pub use feed::{Fed, FedParts, Feed, Heard, feed_on};
pub use open::{Mode, Opened, OpenedParts, open_echo_on, open_on};

// What a desk keeps beside its two buffers, in numbers but for the command. Every value of every
// field has a meaning, so no state is ill-formed. By default it is that of a new desk: zeros, and
// no command.
#[derive(Clone, Copy, Debug, Default, PartialEq, Eq)]
pub struct State {
    // How many bytes are held of the line that is coming. Above 257 it is being dropped.
    pub len: usize,
    // The answers that the open command still awaits; none where no command is open.
    pub command: Option<Awaits>,
    // The size of the echo that comes before them. None does where it is 0, or above 210, which no
    // command is longer than.
    pub echo: usize,
    // The lines counted since the last accepted open or reset.
    pub counted: u32,
}

// line[..len] is held of the line that is coming, and sent[..echo] is the echo that is awaited.
#[derive(Clone, Copy)]
pub struct Desk {
    pub line: [u8; 257],
    pub sent: [u8; 210],
    pub state: State,
}

// What a line, or the end of one past its length, tells.
#[derive(Clone, Copy, Debug, PartialEq, Eq)]
pub enum Event {
    Overlong,
    // No answer that is awaited, by its refusal's number, 0 where a reader takes the line. It is no
    // `Option<Refusal>`, since `number` and `stray` promise an answer for every number.
    Stray(u8),
    Failed,
    Taken,
    Done,
    Short,
    Unsolicited,
    Echo,
}

impl Event {
    // By a match, since `as` takes no enum of which a variant has a field.
    pub fn number(self) -> u64
        ensures { Gives (event_number (event_says self)) result }
    {
        match self {
            Event::Unsolicited => 1,
            Event::Taken => 2,
            Event::Done => 3,
            Event::Short => 4,
            Event::Failed => 5,
            Event::Stray(_) => 6,
            Event::Overlong => 7,
            Event::Echo => 8,
        }
    }

    // The number of a stray, 0 of any other event: C is told numbers (stray_number).
    pub fn stray(self) -> u64
        ensures { Gives (stray_number (event_says self)) result }
    {
        match self {
            Event::Stray(number) => number.into(),
            _ => 0,
        }
    }
}

impl Desk {
    pub fn new() -> Self
        ensures { NewKeeps result }
    {
        Desk {
            line: [0; 257],
            sent: [0; 210],
            state: State::default(),
        }
    }
}
