//! Reads the words of the program's command line as an order.
#![tactic(auto)]

mod args;
mod command;
mod number;
mod order;
mod usage;

pub use order::{Order, help_of, order_of};
pub use paxos_packets::Members;
pub use usage::{UsageFault, unreadable_words};
