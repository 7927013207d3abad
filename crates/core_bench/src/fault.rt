// The faults of a measure, and which faults of other crates become them.
use paxos_node::NodeFault;
use realm_codec::CodecFault;
use replica_machine::{Failed, LearnFault};
use std::alloc::{AllocError, AllocFailed};
use std::io;
use test_stands::Missed;
use thiserror::Error;
use wamp_messages::Memory;

/// Why a run ended before its end.
#[derive(Debug, Drop, Error)]
pub enum BenchFault {
    #[error("an entry was not learned: {0}")]
    Learn(#[from] LearnFault),
    #[error("the log has failed")]
    Failed,
    #[error("the slots are at their end")]
    Slots,
    #[error("an act was not put or not taken: {0}")]
    Codec(#[from] CodecFault),
    #[error("the text is no message")]
    Text,
    #[error("an event was not planned or not adopted: {0}")]
    Node(NodeFault),
    #[error("an actor did not begin, or did not take an event")]
    Actor,
    #[error("no node has this number")]
    Nobody,
    #[error("entries stay pending, or an act was not applied at each node")]
    Stuck,
    #[error("out of memory")]
    Memory,
    #[error("the clock or standard output failed")]
    Output,
}

impl From<Failed> for BenchFault {
    fn from(_failed: Failed) -> BenchFault {
        BenchFault::Failed
    }
}

impl From<Missed> for BenchFault {
    fn from(missed: Missed) -> BenchFault {
        match missed {
            Missed::Nobody => BenchFault::Nobody,
            Missed::Node(fault) => BenchFault::Node(fault),
            Missed::Memory => BenchFault::Memory,
        }
    }
}

impl From<Memory> for BenchFault {
    fn from(_memory: Memory) -> BenchFault {
        BenchFault::Memory
    }
}

impl From<AllocError> for BenchFault {
    fn from(_error: AllocError) -> BenchFault {
        BenchFault::Memory
    }
}

impl<T: Drop> From<AllocFailed<T>> for BenchFault {
    fn from(_error: AllocFailed<T>) -> BenchFault {
        BenchFault::Memory
    }
}

impl From<io::Error> for BenchFault {
    fn from(_error: io::Error) -> BenchFault {
        BenchFault::Output
    }
}
