// The faults of frames, and their numbers.
ghost use Rattle.std.specs.Prelude.{◌≡◌};
ghost use Rattle.wamp_rawsocket.specs.Fault.{number_of};

use std::alloc::{AllocError, AllocFailed};
use thiserror::Error;

/// Why a frame was not read or not written.
#[derive(Clone, Copy, Debug, PartialEq, Eq, Error)]
pub enum FrameFault {
    #[error("a reserved bit of the frame's first octet is set")]
    Reserved,
    #[error("the frame's type is none that is in use")]
    BadType,
    #[error("the frame's payload is longer than its receiver takes")]
    TooLong,
    #[error("out of memory")]
    Memory,
    #[error("the stream has shown a fault before")]
    Failed,
}

impl FrameFault {
    /// Returns the number by which the program reports this fault: 31 to 35, in the order of the variants.
    pub fn number(self) -> u8
        ensures { result ≡ number_of self }
    {
        match self {
            FrameFault::Reserved => 31,
            FrameFault::BadType => 32,
            FrameFault::TooLong => 33,
            FrameFault::Memory => 34,
            FrameFault::Failed => 35,
        }
    }
}

impl From<AllocError> for FrameFault {
    ghost use Rattle.wamp_rawsocket.specs.declared.fault.FrameFault.TheVariants.{Memory};

    ghost from_gives = { λ _ fault. fault ≡ Memory };

    fn from(_error: AllocError) -> Self {
        FrameFault::Memory
    }
}

impl<T: Drop> From<AllocFailed<T>> for FrameFault {
    ghost use Rattle.wamp_rawsocket.specs.declared.fault.FrameFault.TheVariants.{Memory};

    ghost from_gives = { λ _ fault. fault ≡ Memory };

    fn from(_error: AllocFailed<T>) -> Self {
        FrameFault::Memory
    }
}
