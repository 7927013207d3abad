//! The acceptor: what one member commits and answers when it is asked for a promise or a vote (Lamport 2001, section 2.2).
#![tactic(auto)]

mod acceptor;
mod ahead;
mod fault;
pub mod laws;
mod verdict;

pub use acceptor::Acceptor;
pub use ahead::{Ahead, Replaced};
pub use fault::Memory;
pub use paxos_packets::{Ballot, Body, Change, Floor, Kind, Packet, Rows, Snapshot, Vote, Votes};
pub use verdict::{Answer, Verdict};
