// The faults of entries as octets, and their numbers.
ghost use Rattle.std.specs.Prelude.{◌≡◌};
ghost use Rattle.command_codec.specs.Fault.{fault_number};

use std::alloc::{AllocError, AllocFailed};
use thiserror::Error;

/// Why octets were not read, or an entry was not written.
#[derive(Clone, Copy, Debug, PartialEq, Eq, Error)]
pub enum CodecFault {
    #[error("the octets end too early")]
    Short,
    #[error("an octet is no tag that is in use")]
    Tag,
    #[error("a number is out of its range, or a text is none that is written")]
    Range,
    #[error("octets follow the entry")]
    Rest,
    #[error("out of memory")]
    Memory,
}

impl CodecFault {
    /// Returns the fault's number: 41 to 45, in the order of the variants.
    pub fn number(self) -> u8
        ensures { result ≡ fault_number self }
    {
        match self {
            CodecFault::Short => 41,
            CodecFault::Tag => 42,
            CodecFault::Range => 43,
            CodecFault::Rest => 44,
            CodecFault::Memory => 45,
        }
    }
}

impl From<AllocError> for CodecFault {
    ghost use Rattle.command_codec.specs.declared.fault.CodecFault.TheVariants.{Memory};

    ghost from_gives = { λ _ fault. fault ≡ Memory };

    fn from(_: AllocError) -> CodecFault {
        CodecFault::Memory
    }
}

impl<T: Drop> From<AllocFailed<T>> for CodecFault {
    ghost use Rattle.command_codec.specs.declared.fault.CodecFault.TheVariants.{Memory};

    ghost from_gives = { λ _ fault. fault ≡ Memory };

    fn from(_: AllocFailed<T>) -> CodecFault {
        CodecFault::Memory
    }
}
