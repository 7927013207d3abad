// The faults of a measure, and which faults of other crates become them.
use realm_machine::Failed;
use realm_snapshot::{LoadFault, SaveFault};
use std::alloc::{AllocError, AllocFailed};
use std::io;
use thiserror::Error;
use wamp_messages::Memory;

/// Why a run ended before its end.
#[derive(Debug, Drop, Error)]
pub enum BenchFault {
    #[error("the realm has failed")]
    Failed,
    #[error("what was saved is not loaded")]
    Damaged,
    #[error("a number is no id")]
    Number,
    #[error("out of memory")]
    Memory,
    #[error("the clock or standard output failed")]
    Output,
}

impl From<Failed> for BenchFault {
    fn from(_failed: Failed) -> BenchFault {
        BenchFault::Failed
    }
}

impl From<Memory> for BenchFault {
    fn from(_memory: Memory) -> BenchFault {
        BenchFault::Memory
    }
}

impl From<AllocError> for BenchFault {
    fn from(_error: AllocError) -> BenchFault {
        BenchFault::Memory
    }
}

impl<T: Drop> From<AllocFailed<T>> for BenchFault {
    fn from(_error: AllocFailed<T>) -> BenchFault {
        BenchFault::Memory
    }
}

impl From<io::Error> for BenchFault {
    fn from(_error: io::Error) -> BenchFault {
        BenchFault::Output
    }
}

impl From<SaveFault> for BenchFault {
    fn from(fault: SaveFault) -> BenchFault {
        match fault {
            SaveFault::Failed => BenchFault::Failed,
            SaveFault::Memory => BenchFault::Memory,
        }
    }
}

impl From<LoadFault> for BenchFault {
    fn from(fault: LoadFault) -> BenchFault {
        match fault {
            LoadFault::Damaged => BenchFault::Damaged,
            LoadFault::Memory => BenchFault::Memory,
        }
    }
}
