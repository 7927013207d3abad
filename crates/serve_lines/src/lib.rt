//! The lines of a served cluster: those that its threads say on standard error, which a thread of their own writes, and those that come on
//! standard input.
#![tactic(auto)]

mod command;
mod lined;
mod lines;
mod writer;

pub use command::{Command, Commands};
pub use lined::Lined;
pub use lines::{LINES_WAITING, Lines};
pub use writer::{say_last, start_writer};
