//! All nodes of a cluster and all packets that they ever sent, and the laws that hold over every list of events (Lamport, Paxos Made
//! Simple, 2001, section 2; docs/CONSENSUS.md, "The world" and "What holds over every list of events").
#![tactic(auto)]

mod cutting;
mod fault;
mod going_on;
mod handings;
pub mod laws;
mod member;
mod rescue;
mod run;
mod world;

pub use fault::{Memory, RescueFault};
pub use handings::Handings;
pub use paxos_node::Event;
pub use paxos_packets::{Body, Entry, Members, Packet, Transport};
pub use replica_machine::Machine;
pub use world::World;
