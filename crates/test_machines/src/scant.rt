//! A machine for which memory runs out as it is saved, or loaded.
ghost use Rattle.std.specs.Prelude.{◌≡◌, ℕ, ◌+◌, Bool, false, [], IfOk, OnOk, OnErr};
ghost use Rattle.test_machines.specs.Sum.{saved_sum, loaded_sum};

use crate::number::Number;
use crate::sum;
use paxos_packets::Transport;
use replica_machine::{Failed, Input, LoadFault, Machine, SaveFault};
use std::alloc::Global;
use std::marker::Model;

// After so many inputs there is no memory to save it, and none to load it.
const UNSAVED: u64 = 2;

const UNLOADED: u64 = 3;

/// A machine that counts its inputs and says nothing. Memory runs out as it is saved after two of them, or loaded as one that has taken
/// three.
#[derive(Drop)]
pub struct Scant {
    alloc: Global,
    taken: u64,
    failed: bool,
}

impl Model for Scant {
    ghost Value = { ℕ × Bool };

    ghost view = { λ s. (s.taken, s.failed) };
}

impl Scant {
    /// Returns a machine that has taken no input.
    pub fn new(alloc: Global) -> Scant
        ensures { result ≡ (0, false) }
    {
        Scant {
            alloc,
            taken: 0,
            failed: false,
        }
    }

    /// Returns how many inputs it has taken.
    pub fn taken(&self) -> u64
        ensures { result ≡ self.now.0 }
    {
        self.taken
    }
}

impl Machine for Scant {
    type Body = Number;

    type Say = Transport;

    ghost Content = { ℕ };

    ghost content = { λ s. s.0 };

    ghost has_failed = { λ s. s.1 };

    ghost steps = { record { next = λ taken input. taken + 1; says = λ taken input. []; to = λ y. y } };

    ghost saved = { saved_sum };

    ghost loaded = { loaded_sum };

    ghost is_sound = { λ s. Unit {0} };

    ghost keeps = { λ s input given sound. tt };

    fn apply(&mut self, _input: &Input<Number>) -> Result<Vec<Transport>, Failed> {
        if self.failed || self.taken == u64::MAX {
            self.failed = true;
            return Err(Failed);
        }
        self.taken += 1;
        Ok(Vec::new(self.alloc))
    }

    fn to(say: &Transport) -> Transport {
        *say
    }

    fn save(&self, alloc: Global) -> Result<Vec<u8>, SaveFault> {
        if self.failed {
            return Err(SaveFault::Failed);
        }
        if self.taken == UNSAVED {
            return Err(SaveFault::Memory);
        }
        sum::save(alloc, self.taken)
    }

    fn load(alloc: Global, octets: &[u8]) -> Result<Scant, LoadFault> {
        let taken = sum::load(octets)?;
        if taken == UNLOADED {
            return Err(LoadFault::Memory);
        }
        Ok(Scant {
            alloc,
            taken,
            failed: false,
        })
    }
}
