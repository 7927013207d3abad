//! One node as it really runs: the node, a store that commits its rows first, the machine that follows its log, and its seat at the table,
//! through which packets go; what is left of an actor that ended, and how an actor begins from there (docs/CONSENSUS.md, "A node with its
//! store"; docs/ARCHITECTURE.md, "Threads").
#![tactic(auto)]

mod actor;
mod beginning;
mod compare;
mod event;
mod fetching;
mod flushing;
mod heard;
mod hearing;
pub mod laws;
mod making;
mod post;
mod posting;
mod preparing;
mod restart;
mod resuming;
mod rounding;
mod treating;
mod turning;

pub use actor::Actor;
pub use actor_parts::ActorFault;
pub use heard::Heard;
pub use hearing::Hearing;
pub use mail_table::{Mail, NodeSeat};
pub use paxos_node::{Event, Outcome};
pub use paxos_packets::{Ballot, Body, Entry, Members, NodeSet, Packet, Rows};
pub use post::Post;
pub use replica_machine::{AppliedLog, Machine};
pub use store_keeper::{Keeper, KeeperFault};
