//! The faults of a table and of a node's word at it, and their numbers.
ghost use Rattle.std.specs.Prelude.{◌≡◌};

use std::alloc::{AllocError, AllocFailed};
use thiserror::Error;

/// Memory ran out for a table.
#[derive(Clone, Copy, Debug, PartialEq, Eq, Drop, Error)]
#[error("no memory for a mail table")]
pub struct Memory;

impl Memory {
    /// Returns the number of the fault.
    pub fn number(self) -> u8
        ensures { result ≡ 67 }
    {
        67
    }
}

impl From<AllocError> for Memory {
    fn from(_: AllocError) -> Memory {
        Memory
    }
}

impl<T: Drop> From<AllocFailed<T>> for Memory {
    fn from(_: AllocFailed<T>) -> Memory {
        Memory
    }
}

/// A node's word cannot count more events.
#[derive(Clone, Copy, Debug, PartialEq, Eq, Drop, Error)]
#[error("a node has made too many events")]
pub struct Worn;

impl Worn {
    /// Returns the number of the fault.
    pub fn number(self) -> u8
        ensures { result ≡ 68 }
    {
        68
    }
}
