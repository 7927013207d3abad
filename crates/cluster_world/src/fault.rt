//! The faults of a world and of a rescue, and their numbers.

ghost use Rattle.std.specs.Prelude.{◌≡◌};
ghost use Rattle.cluster_world.specs.Rescue.{rescue_fault_number};

use thiserror::Error;
use world_rescue::CourseFault;

/// Memory ran out for a world, or for an event in it.
#[derive(Clone, Copy, Debug, PartialEq, Eq, Drop, Error)]
#[error("no memory for the world")]
pub struct Memory;

impl Memory {
    /// Returns the fault's number.
    pub fn number(self) -> u8
        ensures { result ≡ 60 }
    {
        60
    }
}

/// Why no events bring an act to be applied at a node.
#[derive(Clone, Copy, Debug, PartialEq, Eq, Drop, Error)]
pub enum RescueFault {
    /// No majority of the nodes is up.
    #[error("no majority of the nodes is up")]
    NoMajority,
    /// The node is down, or not a member.
    #[error("the node is down")]
    NodeDown,
    /// A node that is up holds a round above 2^48 - 8, or a vote in a slot or a floor above 2^40 - 4,097.
    #[error("a round, a slot or a floor of a node that is up is too great")]
    NoRoom,
    /// Memory ran out for the events.
    #[error("no memory for the events")]
    Memory,
}

impl RescueFault {
    /// Returns the fault's number: 57 to 60, in the order of the variants.
    pub fn number(self) -> u8
        ensures { result ≡ rescue_fault_number self }
    {
        match self {
            RescueFault::NoMajority => 57,
            RescueFault::NodeDown => 58,
            RescueFault::NoRoom => 59,
            RescueFault::Memory => 60,
        }
    }
}

impl From<CourseFault> for RescueFault {
    ghost use Rattle.cluster_world.specs.Rescue.{of_course};

    ghost from_gives = { λ fault given. given ≡ of_course fault };

    fn from(fault: CourseFault) -> RescueFault {
        match fault {
            CourseFault::NoRoom => RescueFault::NoRoom,
            CourseFault::Memory => RescueFault::Memory,
        }
    }
}

impl From<paxos_packets::Memory> for RescueFault {
    ghost use Rattle.cluster_world.specs.declared.fault.RescueFault.TheVariants as rescue;

    ghost from_gives = { λ _ given. given ≡ rescue.Memory };

    fn from(_: paxos_packets::Memory) -> RescueFault {
        RescueFault::Memory
    }
}
