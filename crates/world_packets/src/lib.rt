//! Every packet that the nodes of a cluster ever sent, in order, with an index that decides whether an equal one was sent
//! (docs/CONSENSUS.md, "The world").
#![tactic(auto)]

mod numbers;
mod sent;

pub use paxos_packets::{Body, Memory, Packet};
pub use sent::SentPackets;
