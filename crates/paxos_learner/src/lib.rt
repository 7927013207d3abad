//! The learner: the votes that one member heard, and the entries that it learned (Lamport, Paxos Made Simple, 2001, section
//! 2.3).
#![tactic(auto)]

mod changes;
mod fault;
mod gained;
mod hearing;
mod learned;
mod learner;
mod room;
mod tallies;

pub use fault::LearnerFault;
pub use hearing::{Hearing, News};
pub use learned::{LearnedEntries, LearnedEntry};
pub use learner::Learner;
pub use paxos_packets::{Ballot, Body, Entries, Entry, Members, NodeSet, Slot, Vote};
pub use tallies::{SlotBallot, Tallies};
