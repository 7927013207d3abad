//! The faults of saving and loading, and their numbers.
ghost use Rattle.std.specs.Prelude.{◌≡◌};
ghost use Rattle.replica_machine.specs.Fault.{save_fault_number, load_fault_number};

use command_codec::CodecFault;
use std::alloc::AllocError;
use thiserror::Error;

/// Why a machine or a log was not saved.
#[derive(Clone, Copy, Debug, PartialEq, Eq, Error)]
pub enum SaveFault {
    #[error("the machine or the log has failed")]
    Failed,
    #[error("out of memory")]
    Memory,
}

impl SaveFault {
    /// Returns the fault's number: 48 or 92, in the order of the variants.
    pub fn number(self) -> u8
        ensures { result ≡ save_fault_number self }
    {
        match self {
            SaveFault::Failed => 48,
            SaveFault::Memory => 92,
        }
    }
}

impl From<AllocError> for SaveFault {
    ghost use Rattle.replica_machine.specs.declared.fault.SaveFault.TheVariants.{Memory};

    ghost from_gives = { λ _ fault. fault ≡ Memory };

    fn from(_: AllocError) -> SaveFault {
        SaveFault::Memory
    }
}

/// Why no machine or log was made of octets.
#[derive(Clone, Copy, Debug, PartialEq, Eq, Error)]
pub enum LoadFault {
    #[error("the octets are none that were saved")]
    Damaged,
    #[error("out of memory")]
    Memory,
}

impl LoadFault {
    /// Returns the fault's number: 91 or 92, in the order of the variants.
    pub fn number(self) -> u8
        ensures { result ≡ load_fault_number self }
    {
        match self {
            LoadFault::Damaged => 91,
            LoadFault::Memory => 92,
        }
    }
}

impl From<CodecFault> for LoadFault {
    ghost use Rattle.replica_machine.specs.Fault.{of_codec};

    ghost from_gives = { λ fault given. given ≡ of_codec fault };

    fn from(fault: CodecFault) -> LoadFault {
        match fault {
            CodecFault::Memory => LoadFault::Memory,
            CodecFault::Short | CodecFault::Tag | CodecFault::Range | CodecFault::Rest => {
                LoadFault::Damaged
            },
        }
    }
}
