// What one event adds to a proposer's proposals.
ghost use Rattle.std.specs.Prelude.{◌≡◌, ◌≤◌, ◌+◌, [], ◌∷◌, ◌++◌, OnOk};
ghost use Rattle.paxos_proposer.specs.Proposals.{stands_among};

use crate::proposals::Proposals;
use paxos_packets::{Body, Entry, Memory, Vote};
use std::alloc::Global;
use std::marker::Model;

// What an event proposes, in order. Nearly every event proposes at most one entry, which is stored inline; only further ones allocate.
#[derive(Drop)]
pub(crate) struct Proposed<B> {
    first: Option<Vote<B>>,
    rest: Proposals<B>,
}

impl<B> Model for Proposed<B> {
    ghost use Rattle.paxos_proposer.specs.Proposals.{KeptProposals};
    ghost use Rattle.paxos_proposer.specs.Proposed.{behind_first, AreBehindFirst};

    ghost Value = { KeptProposals B };

    ghost view = { λ p. behind_first p.first p.rest };

    ghost invariant = { λ p. AreBehindFirst p.first p.rest };
}

impl<B> Proposed<B> {
    // Returns no proposals. Does not allocate; `make_room` will, from `alloc`, once something is proposed.
    pub fn new(alloc: Global) -> Proposed<B>
        ensures { result.votes ≡ [] }
    {
        Proposed {
            first: None,
            rest: Proposals::new(alloc),
        }
    }

    // Reserves memory for one more proposal. They stay as they were, with `Memory` too.
    pub fn make_room(&mut self) -> Result<(), Memory>
        ensures votes { self.new.votes ≡ self.old.votes }
        ensures ok { OnOk result (1 ≤ self.new.room) }
        ensures kept { self.old.room ≤ self.new.room }
    {
        match self.first {
            None => Ok(()),
            Some(_) => self.rest.reserve(1),
        }
    }
}

impl<B: Drop> Proposed<B> {
    // Removes all of them, and keeps their memory.
    pub fn clear(&mut self)
        ensures votes { self.new.votes ≡ [] }
        ensures room { self.old.room ≤ self.new.room }
    {
        self.first = None;
        self.rest.clear();
    }

    // Appends the vote as a proposal. Does not allocate, and takes a constant number of steps.
    pub fn push_reserved(&mut self, vote: Vote<B>)
        requires { 1 ≤ self.old.room }
        ensures votes { self.new.votes ≡ self.old.votes ++ vote ∷ [] }
        ensures room { self.old.room ≤ self.new.room + 1 }
    {
        match self.first {
            None => self.first = Some(vote),
            Some(_) => self.rest.push_reserved(vote),
        }
    }
}

impl<B: Body> Proposed<B> {
    // Returns whether an equal entry was proposed in a slot after the first `applied`. Does not allocate. Compares the first proposal, and
    // finds the others as `Proposals::stands` does.
    pub fn stands(&self, applied: u64, entry: &Entry<B>) -> bool
        ensures { result ≡ stands_among B.same applied entry.now self.now.votes }
    {
        let Some(first) = &self.first else {
            return false;
        };
        (applied < first.slot.get() && first.entry.same(entry)) || self.rest.stands(applied, entry)
    }
}
