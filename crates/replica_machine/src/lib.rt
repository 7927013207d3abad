//! Which entries of a log take effect, and what a machine that follows the log has become and has said (Lamport, Paxos Made
//! Simple, 2001, section 3: every server runs the same state machine over the chosen commands).
#![tactic(auto)]

mod fault;
mod head;
mod input;
pub mod laws;
mod log;
mod machine;
mod roll;
mod steps;

pub use fault::{LoadFault, SaveFault};
pub use head::Head;
pub use input::Input;
pub use log::{AppliedLog, LearnFault, Step};
pub use machine::{Failed, Machine};
pub use paxos_packets::{Body, Entry, Slot, Transport};
pub use roll::{Roll, Standing};
