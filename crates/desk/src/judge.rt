// The desk's table: what a line is to the command that is open.
ghost use Rattle.std.specs.Prelude.{◌≡◌};
ghost use Rattle.text.specs.Reading.{read};
ghost use Rattle.at_command.specs.says.Request.{kind_says, awaits_says};
ghost use Rattle.trial.specs.Sort.{response};
ghost use Rattle.trial.specs.says.Line.{sort_says};
ghost use Rattle.desk.specs.Judge.{table};
ghost use Rattle.desk.specs.Says.{command_says, ruling_says};
ghost use Rattle.desk.specs.Search.{Next};

use crate::Event;
use at_command::request::{Awaits, ResponseKind};
use text::refusal::Refusal;
use trial::Sort;

// An event, and the command after it.
#[derive(Clone, Copy)]
pub struct Judged {
    pub command: Option<Awaits>,
    pub event: Event,
}

// The answer that is awaited next, and what it is once it comes.
fn next_of(awaits: Awaits) -> (ResponseKind, Judged)
    ensures { Next (awaits_says awaits) (kind_says result.0) (ruling_says result.1) }
{
    match awaits {
        Awaits::One(next) => (
            next,
            Judged {
                command: None,
                event: Event::Done,
            },
        ),
        Awaits::Two(next, last) => (
            next,
            Judged {
                command: Some(Awaits::One(last)),
                event: Event::Taken,
            },
        ),
    }
}

// A response, to the command that is open or to none.
#[tactic(auto, using(crate::proofs::Judging::table_tested), unfolding(crate::specs::Judge::table))]
fn respond(command: Option<Awaits>, kind: ResponseKind) -> Judged
    ensures { ruling_says result ≡ table (command_says command) (read (response (kind_says kind))) }
{
    let stays = Judged {
        command,
        event: Event::Stray(0),
    };
    let Some(awaits) = command else {
        return stays;
    };
    let (next, taken) = next_of(awaits);
    if kind == ResponseKind::SimError {
        return Judged {
            command: None,
            event: Event::Failed,
        };
    }
    if kind == next {
        return taken;
    }
    if kind == ResponseKind::GenericOk {
        return Judged {
            command: None,
            event: Event::Short,
        };
    }
    stays
}

// The first row that fits decides.
#[tactic(auto, using(crate::proofs::Judging::table_unsolicited), unfolding(crate::specs::Judge::table))]
pub(crate) fn judge(command: Option<Awaits>, sort: Result<Sort, Refusal>) -> Judged
    ensures { ruling_says result ≡ table (command_says command) (sort_says sort) }
{
    match sort {
        Err(refusal) => Judged {
            command,
            event: Event::Stray(refusal.number()),
        },
        Ok(Sort::Unsolicited) => Judged {
            command,
            event: Event::Unsolicited,
        },
        Ok(Sort::Response(kind)) => respond(command, kind),
    }
}
