// The fault that memory ran out, and its number.
ghost use Rattle.std.specs.Prelude.{◌≡◌};

use std::alloc::AllocError;
use thiserror::Error;

/// Memory ran out: the only error of the calls that return it.
#[derive(Clone, Copy, Debug, PartialEq, Eq, Hash, Error)]
#[error("out of memory")]
pub struct Memory;

impl Memory {
    /// Returns the fault's number, 12.
    pub fn number(self) -> u8
        ensures { result ≡ 12 }
    {
        12
    }
}

impl From<AllocError> for Memory {
    fn from(_error: AllocError) -> Memory {
        Memory
    }
}

impl From<wamp_ids::Memory> for Memory {
    fn from(_error: wamp_ids::Memory) -> Memory {
        Memory
    }
}

impl From<Memory> for AllocError {
    fn from(_error: Memory) -> AllocError {
        AllocError
    }
}
