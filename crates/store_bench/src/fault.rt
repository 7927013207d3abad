// The faults of a measure, and which faults of other crates become them.
use sqlite::Error as SqliteError;
use std::alloc::AllocError;
use std::io;
use store_keeper::KeeperFault;
use thiserror::Error;

/// Why a run ended before its end.
#[derive(Debug, Drop, Error)]
pub enum BenchFault {
    #[error("no connection: {0}")]
    Connection(#[from] SqliteError),
    #[error("{0}")]
    Keeper(#[from] KeeperFault),
    #[error("no memory for a vote")]
    Memory,
    #[error("the slots or rounds are at their end")]
    Slots,
    #[error("the clock or standard output failed")]
    Output,
}

impl From<AllocError> for BenchFault {
    fn from(_error: AllocError) -> BenchFault {
        BenchFault::Memory
    }
}

impl From<io::Error> for BenchFault {
    fn from(_error: io::Error) -> BenchFault {
        BenchFault::Output
    }
}
