// The numbers that stand for a desk's state, and for a refusal. State is the desk's own type, and
// [u64; 4] the language's, so From between the two cannot be written here.
ghost use Rattle.std.specs.Prelude.{◌≡◌, List, ℕ};
ghost use Rattle.text.specs.says.Refusal.{refusal_said};
ghost use Rattle.desk.specs.Judge.{awaiting};
ghost use Rattle.desk.specs.Ordinal.{capped};
ghost use Rattle.desk.specs.Says.{command_says, state_in};
ghost use Rattle.sim7000.specs.Parts.{awaited_in, number_of, desk_in, numbers_of};

use at_command::request::{Awaits, ResponseKind};
use desk::State;
use text::refusal::Refusal;

// 1 + k awaits kind k, 14 + 13 a + b awaits a, then b; every other number is no command.
#[tactic(auto, using(crate::proofs::Commands::awaits))]
pub(crate) fn command_in(n: u64) -> Option<Awaits>
    ensures { command_says result ≡ awaiting (awaited_in n) }
{
    match n {
        1..=13 => Some(Awaits::One(ResponseKind::at(n - 1))),
        14..=182 => {
            let m = n - 14;
            Some(Awaits::Two(ResponseKind::at(m / 13), ResponseKind::at(m % 13)))
        }
        _ => None,
    }
}

fn number_of(command: Option<Awaits>) -> u64
    ensures { result ≡ number_of (command_says command).awaited }
{
    match command {
        None => 0,
        Some(Awaits::One(a)) => 1 + u64::from(a.place()),
        Some(Awaits::Two(a, b)) => 14 + 13 * u64::from(a.place()) + u64::from(b.place()),
    }
}

// A number as a count of lines: a greater one is read as the greatest.
#[tactic(auto, using(desk::proofs::Numbering::capped_few, desk::proofs::Numbering::capped_many))]
fn count_in(n: u64) -> u32
    ensures { result ≡ capped n }
{
    u32::try_from(n).unwrap_or(u32::MAX)
}

// The state that the numbers are: each has a meaning.
pub(crate) fn state_in(numbers: &[u64; 4]) -> State
    ensures { (line sent : List ℕ) → state_in line result sent ≡ desk_in line numbers.now sent }
{
    State {
        len: numbers[0] as usize,
        command: command_in(numbers[1]),
        echo: numbers[2] as usize,
        counted: count_in(numbers[3]),
    }
}

pub(crate) fn numbers_of(state: State) -> [u64; 4]
    ensures { (line sent : List ℕ) → result ≡ numbers_of (state_in line state sent) }
{
    [
        state.len as u64,
        number_of(state.command),
        state.echo as u64,
        state.counted.into(),
    ]
}

// What a call answers in C: 0, or the refusal's number.
pub(crate) fn status(done: Result<(), Refusal>) -> u8
    ensures { result ≡ refusal_said done }
{
    match done {
        Ok(()) => 0,
        Err(refusal) => refusal.number(),
    }
}
