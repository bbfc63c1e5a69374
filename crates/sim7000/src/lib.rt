// What firmware links: the readers, the writers and the desk as C functions on numbers and lent
// bytes. `specs/` says what each number means.
#![tactic(auto)]

mod numbers;
mod parts;
mod read;
mod request;
mod values;
mod version;

pub use crate::parts::{
    sim7000_feed, sim7000_is_open, sim7000_open, sim7000_open_echo, sim7000_reset,
};
pub use crate::read::{sim7000_read_line, sim7000_sort_line};
pub use crate::request::sim7000_write_command;
pub use crate::version::sim7000_version;
