// The faults of a proposer, and their numbers.
ghost use Rattle.std.specs.Prelude.{◌≡◌};
ghost use Rattle.paxos_proposer.specs.Fault.{number_of};

use thiserror::Error;

/// Why a proposer did not do what it was asked for. The proposer is then as it was.
#[derive(Clone, Copy, Debug, PartialEq, Eq, Drop, Error)]
pub enum ProposerFault {
    /// No round is left for a new ballot.
    #[error("no round is left for a new ballot")]
    Rounds,
    /// No slot is left for a new entry.
    #[error("no slot is left for a new entry")]
    SlotsFull,
    /// The member does not lead.
    #[error("the member does not lead")]
    NotLeading,
    /// Memory ran out.
    #[error("no memory for the proposer")]
    Memory,
}

impl ProposerFault {
    /// Returns the fault's number.
    pub fn number(self) -> u8
        ensures { result ≡ number_of self }
    {
        match self {
            ProposerFault::Rounds => 51,
            ProposerFault::SlotsFull => 52,
            ProposerFault::NotLeading => 53,
            ProposerFault::Memory => 54,
        }
    }
}
