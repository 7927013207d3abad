//! Entries of the log as octets, for every type of body that has a coder: each entry has one spelling, and none is the beginning of
//! another.
#![tactic(auto)]

mod coder;
mod entry;
mod fault;
pub mod laws;
mod number;

pub use coder::Coder;
pub use entry::{put_entry, take_entry};
pub use fault::CodecFault;
pub use number::{Form, take_number};
pub use paxos_packets::Entry;
