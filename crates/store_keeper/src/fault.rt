// The faults of a keeper, and their numbers.
ghost use Rattle.std.specs.Prelude.{◌≡◌};
ghost use Rattle.store_keeper.specs.Fault.{number_of};

use thiserror::Error;

/// Why rows were not read or not written.
#[derive(Clone, Copy, Debug, PartialEq, Eq, Error)]
pub enum KeeperFault {
    #[error("the store has failed")]
    Store,
    #[error("what is stored is damaged")]
    Damaged,
    #[error("what is stored is of another version")]
    Version,
    #[error("no memory for what is stored")]
    Memory,
    #[error("the store has shown a fault before, and is to be opened again")]
    Failed,
    #[error("no boot number is left")]
    Boots,
}

impl KeeperFault {
    /// Returns the number of the fault: 61 to 66, in the order of the variants.
    pub fn number(self) -> u8
        ensures { result ≡ number_of self }
    {
        match self {
            KeeperFault::Store => 61,
            KeeperFault::Damaged => 62,
            KeeperFault::Version => 63,
            KeeperFault::Memory => 64,
            KeeperFault::Failed => 65,
            KeeperFault::Boots => 66,
        }
    }
}

impl From<paxos_packets::Memory> for KeeperFault {
    ghost use Rattle.store_keeper.specs.declared.fault.KeeperFault.TheVariants.{Memory};

    ghost from_gives = { λ _ fault. fault ≡ Memory };

    fn from(_: paxos_packets::Memory) -> KeeperFault {
        KeeperFault::Memory
    }
}
