// The proposals of one ballot, and a table by which an equal entry is found.
ghost use Rattle.std.specs.Prelude.{◌≡◌, ℕ, ◌≤◌, ◌+◌, [], ◌∷◌, ◌++◌, true, IsTrue, OnOk, OnErr, option_copied};
ghost use Rattle.std.specs.Map.{lookup};
ghost use Rattle.paxos_proposer.specs.Identity.{same_identity};
ghost use Rattle.paxos_proposer.specs.Proposals.{stands_among, behind, AreUpTo, IsOld};

use crate::identity::Identity;
use indexmap::IndexMap;
use paxos_packets::{Body, Entry, Memory, Vote};
use std::alloc::Global;
use std::marker::Model;

/// What was proposed in one ballot, in the order of proposing.
pub struct Proposals<B> {
    list: Vec<Vote<B>>,
    // the greatest slot in which an entry of this identity was proposed
    latest: IndexMap<Identity, u64>,
}

impl<B: Drop> Drop for Proposals<B> {
    fn drop(self) {
        let Proposals {
            list: _list,
            latest: _latest,
        } = self;
    }
}

impl<B> Model for Proposals<B> {
    ghost use Rattle.std.specs.Prelude.{◌-◌, min, vec_len, vec_capacity};
    ghost use Rattle.indexmap.specs.IndexMap.{spare};
    ghost use Rattle.paxos_proposer.specs.Proposals.{KeptProposals, AreListed};

    ghost Value = { KeptProposals B };

    ghost view = { λ p. record { votes = p.list.items; room = min (vec_capacity p.list - vec_len p.list) (spare p.latest) } };

    ghost invariant = { λ p. AreListed p.latest.entries p.list.items };
}

impl<B> Proposals<B> {
    /// Returns no proposals. Does not allocate; `reserve` will, from `alloc`.
    pub fn new(alloc: Global) -> Proposals<B>
        ensures { result.votes ≡ [] }
    {
        Proposals {
            list: Vec::new(alloc),
            latest: IndexMap::new(alloc),
        }
    }

    /// Returns the proposals, in order.
    pub fn as_slice(&self) -> &[Vote<B>]
        ensures { result.now ≡ self.now.votes }
    {
        self.list.as_slice()
    }

    /// Returns the proposals in slots after the first `applied`, if their slots are consecutive, as a leader's are. Takes a constant number
    /// of steps.
    pub fn behind(&self, applied: u64) -> &[Vote<B>]
        requires { (next : ℕ) × AreUpTo next self.now.votes }
        ensures { result.now ≡ behind applied self.now.votes }
    {
        behind(self.list.as_slice(), applied)
    }

    /// Reserves memory for `more` further proposals. They stay as they were, with `Memory` too.
    pub fn reserve(&mut self, more: usize) -> Result<(), Memory>
        ensures votes { self.new.votes ≡ self.old.votes }
        ensures ok { OnOk result (more ≤ self.new.room) }
        ensures kept { self.old.room ≤ self.new.room }
    {
        self.list.reserve(more)?;
        self.latest.reserve(more)?;
        Ok(())
    }
}

impl<B: Drop> Proposals<B> {
    /// Removes all of them, and keeps their memory.
    pub fn clear(&mut self)
        ensures votes { self.new.votes ≡ [] }
        ensures room { self.old.room ≤ self.new.room }
    {
        self.list.clear();
        self.latest.clear();
    }

    /// Forgets those in slots up to this one, and keeps their memory. Takes a number of steps that grows with the proposals.
    pub fn forget(&mut self, floor: u64)
        ensures votes { self.new.votes ≡ behind floor self.old.votes }
        ensures room { self.old.room ≤ self.new.room }
    {
        self.list.retain(|vote| floor < vote.slot.get());
        self.latest.retain(|_identity, latest| floor < *latest);
    }

    /// Appends the vote as a proposal. Does not allocate, and takes a constant number of steps.
    pub fn push_reserved(&mut self, vote: Vote<B>)
        requires { 1 ≤ self.old.room }
        ensures votes { self.new.votes ≡ self.old.votes ++ vote ∷ [] }
        ensures room { self.old.room ≤ self.new.room + 1 }
    {
        let identity = Identity::of(&vote.entry);
        let latest = latest_with(&self.latest, &identity, vote.slot.get());
        let Ok(_) = self.latest.insert(identity, latest) else {
            unreachable!()
        };
        self.list.push_reserved(vote);
    }
}

impl<B: Body> Proposals<B> {
    /// Returns whether an equal entry was proposed in a slot after the first `applied`. Does not allocate. Takes a constant number of steps
    /// if the slots are consecutive, as a leader's are, and entries of one identity are equal, as acts of one number are; otherwise it
    /// looks at each proposal.
    pub fn stands(&self, applied: u64, entry: &Entry<B>) -> bool
        ensures { result ≡ stands_among B.same applied entry.now self.now.votes }
    {
        let identity = Identity::of(entry);
        let Some(latest) = self.latest.get(&identity) else {
            return false;
        };
        let latest = *latest;
        if latest <= applied {
            return false;
        }
        stands_at(&self.list, latest, applied, entry) || stands_among(&self.list, applied, entry)
    }
}

// Returns the votes in slots after the first `applied`, if their slots are consecutive.
fn behind<B>(votes: &[Vote<B>], applied: u64) -> &[Vote<B>]
    requires { (next : ℕ) × AreUpTo next votes.now }
    ensures { result.now ≡ behind applied votes.now }
{
    let Some(first) = votes.first() else {
        return votes;
    };
    let passed = applied.saturating_sub(first.slot.get() - 1) as usize;
    &votes[passed.min(votes.len())..]
}

// Returns the greatest slot of the identity, this one included.
fn latest_with(table: &IndexMap<Identity, u64>, identity: &Identity, slot: u64) -> u64
    ensures slot { slot ≤ result }
    ensures old { IsOld result (lookup (same_identity identity.now) table.now.entries) }
{
    match table.get(identity) {
        Some(latest) => slot.max(*latest),
        None => slot,
    }
}

// Returns whether the vote at the slot's distance from the first proposal has an equal entry, and is not applied yet.
fn stands_at<B: Body>(votes: &[Vote<B>], slot: u64, applied: u64, entry: &Entry<B>) -> bool
    ensures { IsTrue result → stands_among B.same applied entry.now votes.now ≡ true }
{
    let Some(first) = votes.first() else {
        return false;
    };
    let Some(place) = slot.checked_sub(first.slot.get()) else {
        return false;
    };
    match votes.get(place as usize) {
        Some(vote) => applied < vote.slot.get() && vote.entry.same(entry),
        None => false,
    }
}

// Returns whether a vote among these has an equal entry, and is not applied yet.
fn stands_among<B: Body>(votes: &[Vote<B>], applied: u64, entry: &Entry<B>) -> bool
    ensures { result ≡ stands_among B.same applied entry.now votes.now }
{
    for vote in votes {
        if applied < vote.slot.get() && vote.entry.same(entry) {
            return true;
        }
    }
    false
}
