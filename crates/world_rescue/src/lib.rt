//! The events of a rescue, from what the nodes of a cluster hold: after them a node has applied an act (docs/CONSENSUS.md, "No dead end").
//! That they lead there is a law of `cluster_world`.
#![tactic(auto)]

mod bid;
mod crew;
mod falling;
mod fault;
mod reaching;
mod visits;

pub use crew::Crew;
pub use fault::CourseFault;
pub use paxos_node::{Event, Node};
pub use paxos_packets::{Body, Members};
