//! A machine whose content is a sum, with sayings to transports of a later boot.
ghost use Rattle.std.specs.Prelude.{◌≡◌, ℕ, Bool, false, IfOk, IfSome, OnOk};
ghost use Rattle.replica_machine.specs.Examples.{added};
ghost use Rattle.test_machines.specs.Foretold.{foretold, next_one};
ghost use Rattle.test_machines.specs.Sum.{saved_sum, loaded_sum};

use crate::number::Number;
use crate::sum;
use paxos_packets::Transport;
use replica_machine::{Failed, Input, LoadFault, Machine, SaveFault};
use std::alloc::Global;
use std::marker::Model;

/// A machine that adds up, and says each sum so far to its act's transport, and to the one with its number in that node's next boot.
#[derive(Drop)]
pub struct Foretells {
    alloc: Global,
    sum: u64,
    failed: bool,
}

impl Model for Foretells {
    ghost Value = { ℕ × Bool };

    ghost view = { λ f. (f.sum, f.failed) };
}

// Returns the transport with this number in its node's next boot, if a boot is left.
fn next_one(transport: Transport) -> Option<Transport>
    ensures { IfSome result (λ next. next ≡ next_one transport) }
{
    let boot = transport.boot.checked_add(1)?;
    Some(Transport {
        node: transport.node,
        boot,
        number: transport.number,
    })
}

impl Foretells {
    /// Returns a machine that has added nothing up.
    pub fn new(alloc: Global) -> Foretells
        ensures { result ≡ (0, false) }
    {
        Foretells {
            alloc,
            sum: 0,
            failed: false,
        }
    }

    fn add(&mut self, input: &Input<Number>) -> Result<Vec<(Transport, u64)>, Failed>
        ensures sum { OnOk result (self.new.0 ≡ added self.old.0 input.now) }
        ensures said { IfOk result (λ said. said.items ≡ foretold self.old.0 input.now) }
        ensures failed { self.new.1 ≡ self.old.1 }
    {
        let mut said = Vec::new(self.alloc);
        if let Input::Item { transport, body } = input {
            let sum = self.sum.checked_add(u64::from(body.get())).ok_or(Failed)?;
            said.push((*transport, sum))?;
            said.push((next_one(*transport).ok_or(Failed)?, sum))?;
            self.sum = sum;
        }
        Ok(said)
    }
}

impl Machine for Foretells {
    type Body = Number;

    type Say = (Transport, u64);

    ghost Content = { ℕ };

    ghost content = { λ f. f.0 };

    ghost has_failed = { λ f. f.1 };

    ghost steps = { record { next = added; says = foretold; to = λ y. y.0 } };

    ghost saved = { saved_sum };

    ghost loaded = { loaded_sum };

    ghost is_sound = { λ s. Unit {0} };

    ghost keeps = { λ s input given sound. tt };

    fn apply(&mut self, input: &Input<Number>) -> Result<Vec<(Transport, u64)>, Failed> {
        if self.failed {
            return Err(Failed);
        }
        let said = self.add(input);
        self.failed = said.is_err();
        said
    }

    fn to(say: &(Transport, u64)) -> Transport {
        say.0
    }

    fn save(&self, alloc: Global) -> Result<Vec<u8>, SaveFault> {
        if self.failed {
            return Err(SaveFault::Failed);
        }
        sum::save(alloc, self.sum)
    }

    fn load(alloc: Global, octets: &[u8]) -> Result<Foretells, LoadFault> {
        let sum = sum::load(octets)?;
        Ok(Foretells {
            alloc,
            sum,
            failed: false,
        })
    }
}
