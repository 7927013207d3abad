//! One member's node in a world: a node that runs, or what one that is down has committed (docs/CONSENSUS.md, "The world").
#![tactic(auto)]

mod world_node;

pub use paxos_node::{Event, Node, Outcome, Packets};
pub use paxos_packets::{Body, Entries, Members, Memory, Rows};
pub use world_node::{NodeStatus, WorldNode};
