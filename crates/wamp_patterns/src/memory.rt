// The fault that memory ran out, and its number.
ghost use Rattle.std.specs.Prelude.{◌≡◌};

use std::alloc::AllocFailed;
use thiserror::Error;

/// Memory ran out while a table was changed or searched; nothing was changed.
#[derive(Clone, Copy, Debug, PartialEq, Eq, Hash, Error)]
#[error("out of memory")]
pub struct Memory;

impl Memory {
    /// Returns the fault's number, 36.
    pub fn number(self) -> u8
        ensures { result ≡ 36 }
    {
        36
    }
}

impl<T: Drop> From<AllocFailed<T>> for Memory {
    fn from(_error: AllocFailed<T>) -> Memory {
        Memory
    }
}
