//! The faults of a node, and their numbers.

ghost use Rattle.std.specs.Prelude.{◌≡◌};
ghost use Rattle.paxos_node.specs.Fault.{number_of};

use thiserror::Error;

/// Why a node did not plan an event, or did not adopt what was planned.
#[derive(Clone, Copy, Debug, PartialEq, Eq, Drop, Error)]
pub enum NodeFault {
    /// No round is left for a new ballot.
    #[error("no round is left for a new ballot")]
    Rounds,
    /// No more entries may be pending, or no number is left for an act.
    #[error("no room for one more pending entry")]
    Full,
    /// Another entry was learned in a slot, or a snapshot's octets begin with no head.
    #[error("another entry was learned in the slot")]
    Disagree,
    /// Memory ran out.
    #[error("no memory for the node")]
    Memory,
}

impl NodeFault {
    /// Returns the fault's number.
    pub fn number(self) -> u8
        ensures { result ≡ number_of self }
    {
        match self {
            NodeFault::Rounds => 51,
            NodeFault::Full => 74,
            NodeFault::Disagree => 55,
            NodeFault::Memory => 54,
        }
    }
}
