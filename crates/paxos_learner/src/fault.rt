//! The faults of a learner, and their numbers.

ghost use Rattle.std.specs.Prelude.{◌≡◌};
ghost use Rattle.paxos_learner.specs.Fault.{number_of};

use thiserror::Error;

/// Why a learner did not take over what it heard. The learner is then as it was.
#[derive(Clone, Copy, Debug, PartialEq, Eq, Drop, Error)]
pub enum LearnerFault {
    /// Another entry was learned in the slot.
    #[error("another entry was learned in the slot")]
    Disagree,
    /// Memory ran out.
    #[error("no memory for the learner")]
    Memory,
}

impl LearnerFault {
    /// Returns the fault's number.
    pub fn number(self) -> u8
        ensures { result ≡ number_of self }
    {
        match self {
            LearnerFault::Disagree => 55,
            LearnerFault::Memory => 56,
        }
    }
}
