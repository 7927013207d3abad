//! What an actor is made of, and what is done to each part: the node plans and adopts, its store commits, its packets wait, and the machine
//! follows its log (docs/CONSENSUS.md, "A node with its store").
#![tactic(auto)]

mod fault;
mod following;
mod loading;
mod parts;
mod staging;
mod storing;
mod taking;
mod tried;

pub use actor_outboxes::Outboxes;
pub use fault::ActorFault;
pub use loading::load_log;
pub use parts::Parts;
pub use paxos_node::{Event, Node, NodeFault, Outcome};
pub use paxos_packets::{Ballot, Entry, Members, Packet, Rows, Snapshot};
pub use replica_machine::{AppliedLog, LoadFault, Machine, SaveFault};
pub use store_keeper::{Keeper, KeeperFault};
pub use tried::{FailedCommit, Staged, Tried, TriedEvents};
