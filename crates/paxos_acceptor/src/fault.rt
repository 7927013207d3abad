// The fault of an acceptor, and its number.
ghost use Rattle.std.specs.Prelude.{◌≡◌};

use thiserror::Error;

/// Memory ran out while planning or adopting. If `adopt` returns it, the acceptor is failed.
#[derive(Clone, Copy, Debug, PartialEq, Eq, Drop, Error)]
#[error("no memory for the acceptor")]
pub struct Memory;

impl Memory {
    /// Returns the fault's number.
    pub fn number(self) -> u8
        ensures { result ≡ 50 }
    {
        50
    }
}

impl From<paxos_packets::Memory> for Memory {
    fn from(_: paxos_packets::Memory) -> Memory {
        Memory
    }
}
