//! What the rows of a store's three tables read as (docs/CONSENSUS.md, "The store"), and what boots and changes make of the numbers that an
//! acceptor keeps.
#![tactic(auto)]

mod boots;
mod changes;
mod rows;

pub use boots::raise_boot;
pub use changes::numbers_after;
pub use command_codec::Coder;
pub use paxos_packets::{Ballot, Change, Rows};
pub use rows::{Numbers, is_other_version, old_numbers, read_rows};
pub use sqlite::Row;
pub use store_keeper::KeeperFault;
