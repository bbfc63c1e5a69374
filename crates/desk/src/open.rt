// A command is opened: its bytes are written, and its answers awaited. The calls, with a request,
// its texts and the buffer as their parameters, are public and have their contracts (OpenKeeps,
// OpenOnKeeps, OpenEchoOnKeeps): so `open` and `open_echo` stay, each one call of `open_in`.
ghost use Rattle.desk.specs.Keeps.{OpenKeeps, OpenOnKeeps, OpenEchoOnKeeps};
ghost use Rattle.desk.specs.Rules.{plain_mode, echo_mode};
ghost use Rattle.desk.specs.Says.{mode_says};

use crate::{Desk, State};
use at_command::request::Request;
use text::refusal::Refusal;
use text::{copy, part};

// A command is opened in plain mode, or in echo mode, for a modem with echo on: until the command
// comes back as a line, no answer is taken for it.
#[derive(Clone, Copy, Debug, PartialEq, Eq)]
pub enum Mode {
    Plain,
    Echo,
}

// The size of the command that was written. Refused while a command is open or a line is held, and
// as the writer refuses.
#[derive(Clone, Copy)]
pub struct Opened {
    pub desk: Desk,
    pub answer: Result<usize, Refusal>,
}

// The answer of an open on a desk that is lent in parts.
#[derive(Clone, Copy)]
pub struct OpenedParts {
    pub state: State,
    pub answer: Result<usize, Refusal>,
}

// An open on a desk that is lent in parts: no open looks at the line's bytes, and this one not at
// what was sent.
pub fn open_on(
    state: State,
    request: Request,
    first: &[u8],
    second: &[u8],
    out: &mut [u8],
) -> OpenedParts
    ensures { OpenOnKeeps state request first.now second.now out.old result out.new }
{
    if state.command.is_some() {
        return OpenedParts {
            state,
            answer: Err(Refusal::CommandOpen),
        };
    }
    if state.len > 0 {
        return OpenedParts {
            state,
            answer: Err(Refusal::LineHeld),
        };
    }
    let answer = request.encode(first, second, out);
    match answer {
        Err(_) => OpenedParts { state, answer },
        Ok(_) => OpenedParts {
            state: State {
                command: Some(request.awaits()),
                echo: 0,
                counted: 0,
                ..state
            },
            answer,
        },
    }
}

// The same in echo mode: what is written is kept, and awaited before the answers. Nothing is kept
// of an open that is refused.
pub fn open_echo_on(
    state: State,
    sent: &mut [u8; 210],
    request: Request,
    first: &[u8],
    second: &[u8],
    out: &mut [u8],
) -> OpenedParts
    ensures { OpenEchoOnKeeps state sent.old request first.now second.now out.old result sent.new out.new }
{
    let opened = open_on(state, request, first, second, out);
    let Ok(size) = opened.answer else {
        return opened;
    };
    let _end = copy::lay(part::part(out, 0, size), 0, sent);
    OpenedParts {
        state: State {
            echo: size,
            ..opened.state
        },
        ..opened
    }
}

impl Desk {
    // A match: the call of echo mode is lent `sent` too, and a closure for each mode would be no
    // plainer.
    pub fn open_in(
        mut self,
        mode: Mode,
        request: Request,
        first: &[u8],
        second: &[u8],
        out: &mut [u8],
    ) -> Opened
        ensures { OpenKeeps (mode_says mode) self request first.now second.now out.old result out.new }
    {
        let OpenedParts { state, answer } = match mode {
            Mode::Plain => open_on(self.state, request, first, second, out),
            Mode::Echo => open_echo_on(self.state, &mut self.sent, request, first, second, out),
        };
        Opened {
            desk: Desk { state, ..self },
            answer,
        }
    }

    pub fn open(self, request: Request, first: &[u8], second: &[u8], out: &mut [u8]) -> Opened
        ensures { OpenKeeps plain_mode self request first.now second.now out.old result out.new }
    {
        self.open_in(Mode::Plain, request, first, second, out)
    }

    pub fn open_echo(self, request: Request, first: &[u8], second: &[u8], out: &mut [u8]) -> Opened
        ensures { OpenKeeps echo_mode self request first.now second.now out.old result out.new }
    {
        self.open_in(Mode::Echo, request, first, second, out)
    }
}
