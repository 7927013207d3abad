//! A machine that fails after some inputs.
ghost use Rattle.std.specs.Prelude.{◌≡◌, ℕ, ◌+◌, Bool, false, [], IfOk, OnOk, OnErr};
ghost use Rattle.test_machines.specs.Sum.{saved_sum, loaded_sum};

use crate::number::Number;
use crate::sum;
use paxos_packets::Transport;
use replica_machine::{Failed, Input, LoadFault, Machine, SaveFault};
use std::alloc::Global;
use std::marker::Model;

/// A machine that counts its inputs and says nothing. It takes a number of them, and refuses each after these; one that is loaded refuses
/// none.
#[derive(Drop)]
pub struct Refuses {
    alloc: Global,
    takes: u64,
    taken: u64,
    failed: bool,
}

impl Model for Refuses {
    ghost Value = { ℕ × Bool };

    ghost view = { λ r. (r.taken, r.failed) };
}

impl Refuses {
    /// Returns a machine that takes `takes` inputs.
    pub fn new(alloc: Global, takes: u64) -> Refuses
        ensures { result ≡ (0, false) }
    {
        Refuses {
            alloc,
            takes,
            taken: 0,
            failed: false,
        }
    }

    /// Returns how many inputs it has taken.
    pub fn taken(&self) -> u64
        ensures { result ≡ self.now.0 }
    {
        self.taken
    }
}

impl Machine for Refuses {
    type Body = Number;

    type Say = Transport;

    ghost Content = { ℕ };

    ghost content = { λ r. r.0 };

    ghost has_failed = { λ r. r.1 };

    ghost steps = { record { next = λ taken input. taken + 1; says = λ taken input. []; to = λ y. y } };

    ghost saved = { saved_sum };

    ghost loaded = { loaded_sum };

    ghost is_sound = { λ s. Unit {0} };

    ghost keeps = { λ s input given sound. tt };

    fn apply(&mut self, _input: &Input<Number>) -> Result<Vec<Transport>, Failed> {
        if self.failed || self.taken >= self.takes {
            self.failed = true;
            return Err(Failed);
        }
        self.taken += 1;
        Ok(Vec::new(self.alloc))
    }

    fn to(say: &Transport) -> Transport {
        *say
    }

    fn save(&self, alloc: Global) -> Result<Vec<u8>, SaveFault> {
        if self.failed {
            return Err(SaveFault::Failed);
        }
        sum::save(alloc, self.taken)
    }

    fn load(alloc: Global, octets: &[u8]) -> Result<Refuses, LoadFault> {
        let sum = sum::load(octets)?;
        Ok(Refuses {
            alloc,
            takes: u64::MAX,
            taken: sum,
            failed: false,
        })
    }
}
