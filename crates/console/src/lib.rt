// What the programs share: lines cut from a reader, what is written in a buffer before it goes out,
// numbers, and the words of events.
#![tactic(auto)]

pub mod input;
pub mod number;
pub mod output;
pub mod said;
