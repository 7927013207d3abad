//! The faults of a rescue's course.

ghost use Rattle.std.specs.Prelude.{◌≡◌};

use paxos_packets::Memory;
use thiserror::Error;

/// Why the events of a course were not listed.
#[derive(Clone, Copy, Debug, PartialEq, Eq, Drop, Error)]
pub enum CourseFault {
    /// No round is left for a ballot of the node, or no slot for an entry.
    #[error("no round or no slot is left")]
    NoRoom,
    /// Memory ran out for the events.
    #[error("no memory for the events")]
    Memory,
}

impl From<Memory> for CourseFault {
    ghost use Rattle.world_rescue.specs.declared.fault.CourseFault.TheVariants as fault;

    ghost from_gives = { λ _ given. given ≡ fault.Memory };

    fn from(_: Memory) -> CourseFault {
        CourseFault::Memory
    }
}
