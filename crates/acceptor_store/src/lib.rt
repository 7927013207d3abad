//! An acceptor's rows in a SQLite file (Lamport 2001, section 2.5: stable storage): three tables that any `sqlite3` reads, and one
//! transaction for each commit.
#![tactic(auto)]

mod calls;
pub mod laws;
mod session;
mod sql;
mod statements;
mod store;
mod tables;

pub use command_codec::Coder;
pub use paxos_packets::{Body, Change, Rows};
pub use sql::SqlKeeper;
pub use sqlite::{Alter, Connection, FileStore};
pub use sqlite_disk::Disk;
pub use store_keeper::{Keeper, KeeperFault};
