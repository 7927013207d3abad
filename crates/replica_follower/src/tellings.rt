//! An iterator over what transports were handed.

ghost use Rattle.std.specs.Prelude.{◌≡◌, ◌≢◌, MatchOption, [], ◌∷◌};
ghost use Rattle.replica_follower.specs.Handed.{tellings, TellAll};

use crate::handed::Told;
use paxos_packets::Transport;
use std::collections::BTreeMap;
use std::collections::btree_map::Iter;
use std::marker::Model;

/// The transports that were handed something, by boot and number, each with all of it, oldest first. Contracts see what is left of them.
#[derive(Drop)]
pub struct Tellings<'a, Y> {
    left: Iter<'a, Transport, Told<Y>>,
}

impl<'a, Y> Model for Tellings<'a, Y> {
    ghost use Rattle.std.specs.Prelude.{List};
    ghost use Rattle.paxos_packets.specs.declared.transport.Transport.{Transport};
    ghost use Rattle.replica_follower.specs.Handed.{tellings};

    ghost Value = { List (Transport × List Y) };

    ghost view = { λ a. tellings a.left };
}

impl<'a, Y> Tellings<'a, Y> {
    // Returns all of these.
    pub(crate) fn of(told: &'a BTreeMap<Transport, Told<Y>>) -> Tellings<'a, Y>
        ensures are { result ≡ tellings told.now.entries }
        ensures all { TellAll told.now.entries result }
    {
        Tellings { left: told.iter() }
    }

    /// Returns the next one, or `None` after the last. Does not allocate.
    pub fn next(&mut self) -> Option<(Transport, &'a [Y])>
        ensures { MatchOption result ((self.old ≡ []) × (self.new ≡ [])) (λ told. self.old ≡ (told.0, told.1.now) ∷ self.new) }
    {
        next_in(&mut self.left)
    }
}

// Returns the next one that was handed something.
fn next_in<'a, Y>(left: &mut Iter<'a, Transport, Told<Y>>) -> Option<(Transport, &'a [Y])>
    ensures { MatchOption result ((tellings left.old ≡ []) × (tellings left.new ≡ []))
        (λ told. tellings left.old ≡ (told.0, told.1.now) ∷ tellings left.new) }
{
    for _turn in 0..left.len() {
        let (transport, told) = left.next()?;
        let says = told.says();
        if !says.is_empty() {
            return Some((*transport, says));
        }
    }
    None
}
