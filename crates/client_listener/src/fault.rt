// The faults of serving a client, and their numbers.
ghost use Rattle.std.specs.Prelude.{◌≡◌};
ghost use Rattle.client_listener.specs.Fault.{number_of};

use std::alloc::AllocError;
use thiserror::Error;
use wamp_messages::Memory;

/// Why a client was not served any further.
#[derive(Clone, Copy, Debug, PartialEq, Eq, Error)]
pub enum ListenFault {
    #[error("the handshake is refused, not answered or cut short")]
    Handshake,
    #[error("the client sent what is no frame")]
    Frame,
    #[error("a read failed")]
    Read,
    #[error("a write failed")]
    Write,
    #[error("the turns are spent")]
    Turns,
    #[error("out of memory")]
    Memory,
    #[error("a message or PONG is longer than the client takes")]
    Wide,
}

impl ListenFault {
    /// Returns the fault's number: 81 to 87, in the order of the variants.
    pub fn number(self) -> u8
        ensures { result ≡ number_of self }
    {
        match self {
            ListenFault::Handshake => 81,
            ListenFault::Frame => 82,
            ListenFault::Read => 83,
            ListenFault::Write => 84,
            ListenFault::Turns => 85,
            ListenFault::Memory => 86,
            ListenFault::Wide => 87,
        }
    }
}

impl From<AllocError> for ListenFault {
    ghost use Rattle.client_listener.specs.declared.fault.ListenFault.TheVariants.{Memory};

    ghost from_gives = { λ _ fault. fault ≡ Memory };

    fn from(_error: AllocError) -> ListenFault {
        ListenFault::Memory
    }
}

impl From<Memory> for ListenFault {
    ghost use Rattle.client_listener.specs.declared.fault.ListenFault.TheVariants.{Memory};

    ghost from_gives = { λ _ fault. fault ≡ Memory };

    fn from(_error: Memory) -> ListenFault {
        ListenFault::Memory
    }
}
