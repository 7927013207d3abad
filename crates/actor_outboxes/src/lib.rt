//! The packets of a node that wait to be sent: an outbox for each other member. When an outbox is full, its oldest packet gives way
//! (docs/CONSENSUS.md, "A node with its store").
#![tactic(auto)]

mod outboxes;

pub use outboxes::Outboxes;
pub use paxos_packets::{Members, Memory, Packet};
