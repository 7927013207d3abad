//! A machine whose content is a sum.
ghost use Rattle.std.specs.Prelude.{◌≡◌, ℕ, Bool, false, IfOk, OnOk};
ghost use Rattle.replica_machine.specs.Examples.{added, sum_said, adds};
ghost use Rattle.test_machines.specs.Sum.{saved_sum, loaded_sum};

use crate::number::Number;
use crate::sum;
use paxos_packets::Transport;
use replica_machine::{Failed, Input, LoadFault, Machine, SaveFault};
use std::alloc::Global;
use std::marker::Model;

/// A machine that adds up, and says each sum so far to its act's transport.
#[derive(Drop)]
pub struct Count {
    alloc: Global,
    sum: u64,
    failed: bool,
}

impl Model for Count {
    ghost Value = { ℕ × Bool };

    ghost view = { λ c. (c.sum, c.failed) };
}

impl Count {
    /// Returns a machine that has added nothing up.
    pub fn new(alloc: Global) -> Count
        ensures { result ≡ (0, false) }
    {
        Count {
            alloc,
            sum: 0,
            failed: false,
        }
    }

    /// Returns the sum so far.
    pub fn sum(&self) -> u64
        ensures { result ≡ self.now.0 }
    {
        self.sum
    }

    fn add(&mut self, input: &Input<Number>) -> Result<Vec<(Transport, u64)>, Failed>
        ensures sum { OnOk result (self.new.0 ≡ added self.old.0 input.now) }
        ensures said { IfOk result (λ said. said.items ≡ sum_said self.old.0 input.now) }
        ensures failed { self.new.1 ≡ self.old.1 }
    {
        let mut said = Vec::new(self.alloc);
        if let Input::Item { transport, body } = input {
            let sum = self.sum.checked_add(u64::from(body.get())).ok_or(Failed)?;
            said.push((*transport, sum))?;
            self.sum = sum;
        }
        Ok(said)
    }
}

impl Machine for Count {
    type Body = Number;

    type Say = (Transport, u64);

    ghost Content = { ℕ };

    ghost content = { λ c. c.0 };

    ghost has_failed = { λ c. c.1 };

    ghost steps = { adds };

    ghost saved = { saved_sum };

    ghost loaded = { loaded_sum };

    ghost is_sound = { λ s. Unit {0} };

    ghost keeps = { λ s input given sound. tt };

    fn apply(&mut self, input: &Input<Number>) -> Result<Vec<(Transport, u64)>, Failed> {
        if self.failed {
            return Err(Failed);
        }
        let said = self.add(input);
        self.failed = said.is_err();
        said
    }

    fn to(say: &(Transport, u64)) -> Transport {
        say.0
    }

    fn save(&self, alloc: Global) -> Result<Vec<u8>, SaveFault> {
        if self.failed {
            return Err(SaveFault::Failed);
        }
        sum::save(alloc, self.sum)
    }

    fn load(alloc: Global, octets: &[u8]) -> Result<Count, LoadFault> {
        let sum = sum::load(octets)?;
        Ok(Count {
            alloc,
            sum,
            failed: false,
        })
    }
}
