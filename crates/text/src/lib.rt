// The bytes of a line: tests, parts, fields, numbers, UTF-8, and the check that every line passes first.
#![tactic(auto)]

pub mod bytes;
pub mod class;
pub mod copy;
pub mod digit;
pub mod field;
pub mod handed;
pub mod line;
pub mod number;
pub mod part;
pub mod reader;
pub mod refusal;
pub mod utf8;
