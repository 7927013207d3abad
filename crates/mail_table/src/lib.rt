//! The table through which the nodes of a cluster pass packets, each node on its own thread: a box without a lock for each ordered pair of
//! nodes, and what all threads know together (docs/ARCHITECTURE.md, "Threads").
#![tactic(auto)]

mod batch;
mod fault;
mod founding;
mod gathering;
pub mod laws;
mod mail;
mod name;
mod office;
mod part;
mod plays;
mod seat;
mod size;
mod steps;

pub use batch::Batch;
pub use fault::{Memory, Worn};
pub use founding::{MOST_IN_BATCH, found, found_for_batches};
pub use mail::Mail;
pub use office::Office;
pub use part::{Doing, Parcel, Part, Try, View};
pub use paxos_node::{NodeView, Outcome};
pub use paxos_packets::{Body, Members, Packet, Rows};
pub use seat::{MOST_EVENTS, NodeSeat};
