// The faults of a script's run, and which faults of other crates become them.
ghost use Rattle.std.specs.Prelude.{◌≡◌};

use crate::lines::LinesFault;
use std::alloc::{AllocError, AllocFailed};
use thiserror::Error;

/// Why a script was not run to its end.
#[derive(Clone, Copy, Debug, PartialEq, Eq, Error)]
pub enum ScriptFault {
    /// The line with this number, counted from 1, is not an event.
    #[error("line {0}: not an event")]
    Line(u64),
    #[error("out of memory")]
    Memory,
    #[error("the script cannot be read")]
    Read,
    #[error("the text cannot be written")]
    Write,
    /// The script was not at its end after the last read that is made.
    #[error("too many reads")]
    Reads,
}

impl From<AllocError> for ScriptFault {
    ghost use Rattle.script_program.specs.declared.fault.ScriptFault.TheVariants.{Memory};

    ghost from_gives = { λ _ fault. fault ≡ Memory };

    fn from(_error: AllocError) -> ScriptFault {
        ScriptFault::Memory
    }
}

impl<T: Drop> From<AllocFailed<T>> for ScriptFault {
    ghost use Rattle.script_program.specs.declared.fault.ScriptFault.TheVariants.{Memory};

    ghost from_gives = { λ _ fault. fault ≡ Memory };

    fn from(_error: AllocFailed<T>) -> ScriptFault {
        ScriptFault::Memory
    }
}

impl From<paxos_packets::Memory> for ScriptFault {
    ghost use Rattle.script_program.specs.declared.fault.ScriptFault.TheVariants.{Memory};

    ghost from_gives = { λ _ fault. fault ≡ Memory };

    fn from(_error: paxos_packets::Memory) -> ScriptFault {
        ScriptFault::Memory
    }
}

impl From<cluster_world::Memory> for ScriptFault {
    ghost use Rattle.script_program.specs.declared.fault.ScriptFault.TheVariants.{Memory};

    ghost from_gives = { λ _ fault. fault ≡ Memory };

    fn from(_error: cluster_world::Memory) -> ScriptFault {
        ScriptFault::Memory
    }
}

impl From<LinesFault> for ScriptFault {
    ghost use Rattle.script_program.specs.Run.{fault_of};

    ghost from_gives = { λ fault made. made ≡ fault_of fault };

    fn from(fault: LinesFault) -> ScriptFault {
        match fault {
            LinesFault::NotAnEvent(number) => ScriptFault::Line(number),
            LinesFault::Memory => ScriptFault::Memory,
        }
    }
}
