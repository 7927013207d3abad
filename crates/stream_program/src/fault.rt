// The faults of the program's runs: their statuses and texts.
ghost use Rattle.std.specs.Prelude.{◌≡◌};
ghost use Rattle.stream_program.specs.Fault.{status_of};

use client_listener::ListenFault;
use realm_machine::Failed;
use std::alloc::{AllocError, AllocFailed};
use std::error::Error;
use std::fmt;
use wamp_messages::Memory;

/// Why a run of the program failed. It shows as the text that the program writes on standard error.
#[derive(Clone, Copy, Debug, PartialEq, Eq, Hash)]
pub enum RunFault {
    /// The line of this number, from 1, is no event of a script.
    Line(u64),
    /// A node of the cluster failed, with the number of its fault.
    Store(u8),
    /// Memory ran out.
    Memory,
    /// The transport failed, with the number of its fault.
    Transport(u8),
}

impl RunFault {
    /// Returns the status with which the program ends: 3 to 6, in the order of the variants.
    pub fn status(self) -> u8
        ensures { result ≡ status_of self }
    {
        match self {
            RunFault::Line(_) => 3,
            RunFault::Store(_) => 4,
            RunFault::Memory => 5,
            RunFault::Transport(_) => 6,
        }
    }
}

impl fmt::Display for RunFault {
    fn fmt<W: fmt::Write>(&self, f: &mut fmt::Formatter<W>) -> fmt::Result {
        match self {
            RunFault::Line(number) => write!(f, "line {number}: not an event"),
            RunFault::Store(fault) => write!(f, "store: {fault}"),
            RunFault::Memory => write!(f, "memory"),
            RunFault::Transport(fault) => write!(f, "transport: {fault}"),
        }
    }
}

impl Error for RunFault {}

impl From<AllocError> for RunFault {
    ghost use Rattle.stream_program.specs.declared.fault.RunFault.TheVariants.{Memory};

    ghost from_gives = { λ _ fault. fault ≡ Memory };

    fn from(_error: AllocError) -> RunFault {
        RunFault::Memory
    }
}

impl<T: Drop> From<AllocFailed<T>> for RunFault {
    ghost use Rattle.stream_program.specs.declared.fault.RunFault.TheVariants.{Memory};

    ghost from_gives = { λ _ fault. fault ≡ Memory };

    fn from(_error: AllocFailed<T>) -> RunFault {
        RunFault::Memory
    }
}

impl From<Memory> for RunFault {
    ghost use Rattle.stream_program.specs.declared.fault.RunFault.TheVariants.{Memory};

    ghost from_gives = { λ _ fault. fault ≡ Memory };

    fn from(_error: Memory) -> RunFault {
        RunFault::Memory
    }
}

impl From<Failed> for RunFault {
    ghost use Rattle.stream_program.specs.declared.fault.RunFault.TheVariants.{Memory};

    ghost from_gives = { λ _ fault. fault ≡ Memory };

    fn from(_error: Failed) -> RunFault {
        RunFault::Memory
    }
}

impl From<ListenFault> for RunFault {
    ghost use Rattle.stream_program.specs.Fault.{run_fault_of};

    ghost from_gives = { λ fault made. made ≡ run_fault_of fault };

    fn from(fault: ListenFault) -> RunFault {
        match fault {
            ListenFault::Memory => RunFault::Memory,
            ListenFault::Handshake
            | ListenFault::Frame
            | ListenFault::Read
            | ListenFault::Write
            | ListenFault::Turns
            | ListenFault::Wide => RunFault::Transport(fault.number()),
        }
    }
}
