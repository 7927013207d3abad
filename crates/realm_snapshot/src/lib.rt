//! A realm as octets, and the realm that octets are: what a node keeps of its realm in place of the entries that led to it.
//! docs/PROTOCOL.md, "Snapshots", has the layout, and what no realm is.
#![tactic(auto)]

mod cursor;
mod fault;
mod forms;
mod kept;
pub mod laws;
mod machine;
mod reading;
mod reading_parts;
mod snapshot;
mod writing;
mod writing_parts;

pub use kept::KeptRealm;
pub use realm_machine::Realm;
pub use replica_machine::{LoadFault, SaveFault};
pub use snapshot::{load, save};
