//! One node of the cluster: acceptor, proposer and learner together, with the log that it applies and the entries that wait
//! for a slot (docs/CONSENSUS.md).
#![tactic(auto)]

mod adopting;
mod event;
mod events;
mod fault;
pub mod laws;
mod moves;
mod node;
mod outcome;
mod packets;
mod settling;
mod snapshots;
mod view;
mod waiting;

pub use event::Event;
pub use fault::NodeFault;
pub use node::Node;
pub use outcome::Outcome;
pub use packets::Packets;
pub use paxos_packets::{Ballot, Body, Change, Entries, Entry, Members, Packet, Rows, Vote, Votes};
pub use replica_machine::Roll;
pub use snapshots::{boot_in, roll_at};
pub use view::{NodeView, Opened};
