//! What an acceptor keeps over a crash (Lamport 2001, section 2.5: stable storage): the trait of a store of rows, its faults, and
//! a store in memory that can be made to fail.
#![tactic(auto)]

mod fault;
mod keeper;
mod memory;

pub use fault::KeeperFault;
pub use keeper::Keeper;
pub use memory::MemKeeper;
pub use paxos_packets::{Body, Change, Memory, Rows};
