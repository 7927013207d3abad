//! The proposer: what one member keeps of its own ballot, from the request for promises to the last proposal (Lamport, Paxos Made Simple,
//! 2001, sections 2.2 and 3).
#![tactic(auto)]

mod called;
mod fault;
mod identity;
pub mod laws;
mod moves;
mod phase;
mod promises;
mod proposals;
mod proposed;
mod proposer;
mod proposing;
mod reports;

pub use called::Called;
pub use fault::ProposerFault;
pub use identity::Identity;
pub use moves::Move;
pub use paxos_packets::{Ballot, Body, Entries, Entry, Floor, Members, Memory, Slot, Vote, Votes};
pub use promises::CountedPromise;
pub use proposals::Proposals;
pub use proposer::Proposer;
pub use proposing::{Offer, Proposing};
