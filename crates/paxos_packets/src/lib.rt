//! What the members of a cluster commit and send: ballots, slots, entries, votes, packets and rows (Lamport, Paxos Made
//! Simple, 2001, section 2).
#![tactic(auto)]

mod ballot;
mod body;
mod entry;
mod kept;
pub mod laws;
mod list;
mod members;
mod packet;
mod rows;
mod shared;
mod slot;
mod snapshot;
mod transport;
mod vote;

pub use ballot::Ballot;
pub use body::{Body, Memory};
pub use entry::{Entries, Entry};
pub use kept::KeptVotes;
pub use members::{Members, NodeSet};
pub use packet::{Kind, Packet};
pub use rows::{Change, Rows};
pub use shared::Shared;
pub use slot::{Floor, Slot};
pub use snapshot::Snapshot;
pub use transport::Transport;
pub use vote::{Vote, Votes};
