// Bytes are fed to the desk, up to the first event. What the public calls are lent is as their
// contracts have it (FeedKeeps, FeedOnKeeps). `sent` and `line` are apart below them too: the one
// is the desk's and the other the cutter's, and a struct of both would be no plainer.
ghost use Rattle.std.specs.Prelude.{ℕ, ◌≡◌, ◌≤◌, length};
ghost use Rattle.text.specs.Reading.{read};
ghost use Rattle.desk.specs.Search.{Judges, Tells};
ghost use Rattle.desk.specs.Says.{kept_says, event_says, found_line, size_of, heard_says};
ghost use Rattle.desk.specs.Keeps.{FeedKeeps, FeedOnKeeps};

use crate::cutter::{Found, Piece};
use crate::judge::Judged;
use crate::{Desk, Event, State, cutter, echo, judge, ordinal};
use text::copy;
use text::refusal::Refusal;
use trial::straight;

// An event, the ordinal of its line, and the line's size: the line is at the front of the text
// buffer.
#[derive(Clone, Copy)]
pub struct Heard {
    pub event: Event,
    pub ordinal: u32,
    pub size: usize,
}

// How many bytes are taken, and what was heard, if anything: then the last of them ends its line.
#[derive(Clone, Copy)]
pub struct Feed {
    pub taken: usize,
    pub heard: Option<Heard>,
}

// Refused if the text buffer has fewer than 256 bytes. This and the next are beside `Opened` and
// `OpenedParts`, which differ in what is answered: a generic of two parameters would say less than
// the names.
#[derive(Clone, Copy)]
pub struct Fed {
    pub desk: Desk,
    pub answer: Result<Feed, Refusal>,
}

// The answer of a feed on a desk that is lent in parts.
#[derive(Clone, Copy)]
pub struct FedParts {
    pub state: State,
    pub answer: Result<Feed, Refusal>,
}

// What a line is, and the state after it: the line that is awaited is Echo; any other before it is
// what it is to an idle desk; where no echo is awaited the table decides.
fn rule_line(state: State, sent: &[u8], line: &[u8]) -> (State, Event)
    ensures { Judges (kept_says sent.now state) line.now (kept_says sent.now result.0) (event_says result.1) × (result.0.len ≡ state.len) }
{
    let state = State {
        echo: echo::size_of(sent, state.echo),
        counted: ordinal::next(state.counted),
        ..state
    };
    if state.echo == 0 {
        let Judged { command, event } = judge::judge(state.command, straight::sort_of(line));
        return (State { command, ..state }, event);
    }
    if echo::is_echo(line, &sent[..state.echo]) {
        return (State { echo: 0, ..state }, Event::Echo);
    }
    let judged = judge::judge(None, straight::sort_of(line));
    (state, judged.event)
}

// What a search stopped at, if anything, and the state after it; a line is laid in text.
fn rule(
    state: State,
    sent: &[u8],
    piece: Option<Piece>,
    line: &[u8],
    text: &mut [u8],
) -> (State, Option<Heard>)
    requires { (size_of piece ≤ length line.now) × (size_of piece ≤ length text.old) }
    ensures { ((taken : ℕ) → Tells (kept_says sent.now state) (found_line piece line.now) taken text.old (kept_says sent.now result.0) (read (heard_says taken result.1)) text.new) × (result.0.len ≡ state.len) }
{
    let Some(piece) = piece else {
        return (state, None);
    };
    match piece {
        Piece::Overlong => {
            let state = State {
                echo: echo::size_of(sent, state.echo),
                counted: ordinal::next(state.counted),
                ..state
            };
            let heard = Heard {
                event: Event::Overlong,
                ordinal: state.counted,
                size: 0,
            };
            (state, Some(heard))
        }
        Piece::Line(size) => {
            let (state, event) = rule_line(state, sent, &line[..size]);
            let _end = copy::lay(&line[..size], 0, text);
            let heard = Heard {
                event,
                ordinal: state.counted,
                size,
            };
            (state, Some(heard))
        }
    }
}

// A feed on a desk that is lent in parts: no array is copied.
#[tactic(auto, using(crate::proofs::Feeding::found_size, crate::proofs::Feeding::fed_refused))]
pub fn feed_on(
    line: &mut [u8; 257],
    state: State,
    sent: &[u8; 210],
    chunk: &[u8],
    text: &mut [u8],
) -> FedParts
    ensures { FeedOnKeeps line.old state sent.now chunk.now text.old result line.new text.new }
{
    if text.len() < 256 {
        return FedParts {
            state,
            answer: Err(Refusal::TextBufferTooSmall),
        };
    }
    let Found { taken, len, piece } = cutter::search(line, state.len, chunk);
    let (state, heard) = rule(State { len, ..state }, sent, piece, line, text);
    FedParts {
        state,
        answer: Ok(Feed { taken, heard }),
    }
}

impl Desk {
    pub fn feed(mut self, chunk: &[u8], text: &mut [u8]) -> Fed
        ensures { FeedKeeps self chunk.now text.old result text.new }
    {
        let FedParts { state, answer } = feed_on(
            &mut self.line,
            self.state,
            &self.sent,
            chunk,
            text,
        );
        Fed {
            desk: Desk { state, ..self },
            answer,
        }
    }
}
