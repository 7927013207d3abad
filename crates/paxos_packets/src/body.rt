//! The trait of bodies, and the fault of a copy.

ghost use Rattle.std.specs.Prelude.{◌≡◌, Bool, true, IfOk};

use std::alloc::{AllocError, AllocFailed, Global};
use thiserror::Error;

/// Memory for a copy ran out.
#[derive(Clone, Copy, Debug, PartialEq, Eq, Drop, Error)]
#[error("no memory for a copy")]
pub struct Memory;

impl Memory {
    /// Returns the fault's number.
    pub fn number(self) -> u8
        ensures { result ≡ 49 }
    {
        49
    }
}

impl From<AllocError> for Memory {
    fn from(_: AllocError) -> Memory {
        Memory
    }
}

impl<T: Drop> From<AllocFailed<T>> for Memory {
    fn from(_: AllocFailed<T>) -> Memory {
        Memory
    }
}

/// A value that can be copied and compared: the body of an item, which is an act that every node applies, and every type that holds bodies.
pub trait Body: Drop {
    ghost same: { Self → Self → Bool };

    /// Returns a copy that equals its source, or `Memory` if memory runs out.
    fn copy(&self, alloc: Global) -> Result<Self, Memory>
        ensures { IfOk result (λ copy. copy ≡ self.now) };

    /// Returns whether the two are equal in value. Does not allocate.
    fn same(&self, other: &Self) -> bool
        ensures { result ≡ same self.now other.now };

    ghost reflexive: { (x : Self) → same x x ≡ true };

    ghost sound: { (x y : Self) → same x y ≡ true → x ≡ y };
}
