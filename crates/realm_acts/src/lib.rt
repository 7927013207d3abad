//! What happens at a client's transport: the acts that entries of the log carry and that the realm takes.
#![tactic(auto)]

mod act;

pub use act::Act;
pub use paxos_packets::{Body, Memory, Shared};
pub use wamp_ids::Id;
pub use wamp_message_types::Read;
