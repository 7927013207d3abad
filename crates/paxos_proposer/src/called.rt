// The entries that a majority's promises call for, found slot by slot without a copy.
ghost use Rattle.std.specs.Prelude.{◌≡◌, ◌≤◌, ◌^◌, max, option_copied};
ghost use Rattle.paxos_proposer.specs.Called.{called_at};
ghost use Rattle.paxos_proposer.specs.Reports.{past_reports};

use crate::promises::CountedPromise;
use crate::reports::{best, past_in, past_of};
use paxos_packets::{Ballot, Entry, Slot, Votes};
use std::marker::Model;

/// What a promise calls for that makes a proposer lead, by reference: for each slot from its first proposal's to the greatest one
/// reported, the entry that was reported with the greatest ballot, or `Noop`. No call of it allocates.
#[derive(Drop)]
pub struct Called<'a, B> {
    pub(crate) ballot: Ballot,
    pub(crate) first: u64,
    pub(crate) promises: &'a [CountedPromise<B>],
    pub(crate) last: &'a Votes<B>,
}

impl<'a, B> Model for Called<'a, B> {
    ghost use Rattle.std.specs.Prelude.{◌≤◌, ◌++◌};
    ghost use Rattle.paxos_proposer.specs.Called.{CalledFor};
    ghost use Rattle.paxos_proposer.specs.Reports.{reports};

    ghost Value = { CalledFor B };

    ghost view = { λ c. record { ballot = c.ballot; first = c.first; votes = reports c.promises.now ++ c.last.now } };

    ghost invariant = { λ c. 1 ≤ c.first };
}

impl<'a, B> Called<'a, B> {
    /// Returns the ballot in which the proposer leads then.
    pub fn ballot(&self) -> Ballot
        ensures { result ≡ self.now.ballot }
    {
        self.ballot
    }

    /// Returns the slot of its first proposal.
    pub fn first(&self) -> u64
        ensures first { result ≡ self.now.first }
        ensures least { 1 ≤ result }
    {
        self.first
    }

    /// Returns one past the greatest slot reported, and at least the first one. Takes a number of steps that grows with the votes reported.
    pub fn past(&self) -> u64
        ensures past { result ≡ past_reports self.now.first self.now.votes }
        ensures least { self.now.first ≤ result }
        ensures most { result ≤ max self.now.first (2 ^ 40) }
    {
        past_in(past_of(self.first, self.promises), self.last.as_slice())
    }

    /// Returns the entry that was reported for the slot with the greatest ballot. Takes a number of steps that grows with the promises.
    pub fn at(&self, slot: Slot) -> Option<&'a Entry<B>>
        ensures { option_copied result ≡ called_at slot self.now.votes }
    {
        match best(slot, self.promises, self.last) {
            Some(vote) => Some(&vote.entry),
            None => None,
        }
    }
}
