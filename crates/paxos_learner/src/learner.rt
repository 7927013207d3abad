//! The learner: how it hears votes and reports, by themselves or in room that was made.

ghost use Rattle.std.specs.Prelude.{◌≡◌, ◌↔◌, ◌+◌, ◌<◌, ◌≤◌, true, Err, OnOk, OnErr, IsOkUnless, option_copied};
ghost use Rattle.paxos_learner.specs.declared.fault.LearnerFault.TheVariants.{Disagree, Memory};
ghost use Rattle.paxos_packets.specs.Members.{is_in, is_majority};
ghost use Rattle.paxos_learner.specs.Learned.{has_room_on, is_closed, KeepsPlaces, Rises};
ghost use Rattle.paxos_learner.specs.Tallies.{nodes_heard};
ghost use Rattle.paxos_learner.specs.Learner.{learned_at, learn_among, is_other, begun, forgot, told, voted, disagrees, vote_disagrees};
ghost use Rattle.paxos_learner.specs.Learner.{has_room_at, KeepsRoom, makes_majority};

use crate::fault::LearnerFault;
use crate::learned::LearnedEntries;
use crate::tallies::{SlotBallot, Tallies};
use paxos_packets::{Ballot, Body, Entry, Floor, Members, NodeSet, Slot, Vote};
use std::alloc::Global;
use std::marker::Model;

/// One member as a learner: what it heard of the members' votes, and the entries that it learned (Lamport 2001, section 2.3), both above a
/// floor, up to which a snapshot gives the log: what it hears of a slot that is not above the floor changes nothing.
///
/// Its calls come in pairs. `vote` and `tell` hear one thing by itself: they may allocate, and return `Disagree` or `Memory`.
/// `vote_in_room` and `tell_in_room` carry out what an event planned by a `Hearing`: the plan has found disagreement already, and
/// `make_room_for` has reserved the memory before the event was committed, so they cannot fail.
pub struct Learner<B> {
    alloc: Global,
    members: Members,
    heard: Tallies,
    learned: LearnedEntries<B>,
}

impl<B: Drop> Drop for Learner<B> {
    fn drop(self) {
        let Learner {
            alloc: _,
            members: _,
            heard: _heard,
            learned: _learned,
        } = self;
    }
}

impl<B> Model for Learner<B> {
    ghost use Rattle.paxos_learner.specs.Learner.{Held, held_of};

    ghost Value = { Held B };

    ghost view = { λ l. held_of l.members l.heard l.learned };
}

impl<B> Learner<B> {
    /// Returns a learner of these members that heard and learned nothing above the floor. Does not allocate; the other calls will, from
    /// `alloc`.
    pub fn new(alloc: Global, members: Members, floor: Floor) -> Learner<B>
        ensures { result.state ≡ begun members floor }
    {
        Learner {
            alloc,
            members,
            heard: Tallies::new(alloc),
            learned: LearnedEntries::new(alloc, floor),
        }
    }

    /// Returns whether the slot is closed: not above the floor. Does not allocate.
    pub fn is_closed(&self, slot: Slot) -> bool
        ensures { result ≡ is_closed self.now.state.learner.floor slot }
    {
        self.learned.is_closed(slot)
    }

    /// Returns the entry that was learned in the slot; in a closed one none is. Does not allocate. Takes a constant number of steps if all
    /// slots between the floor and it are learned; above a gap, a number logarithmic in the number of entries above it.
    pub fn learned(&self, slot: Slot) -> Option<&Entry<B>>
        ensures { option_copied result ≡ learned_at slot self.now.state.learner.learned }
    {
        self.learned.find(slot)
    }

    /// Shows that what was learned ascends by slot, from above the floor: a call for proofs, which does nothing. Does not allocate.
    pub fn ascends(&self)
        ensures { Rises self.now.state.learner.floor self.now.state.learner.learned }
    {
        self.learned.ascends();
    }

    /// Returns whether a vote of the member in this ballot and slot makes a majority there. Does not allocate.
    pub fn makes_majority(&self, node: u8, ballot: Ballot, slot: Slot) -> bool
        ensures { result ≡ makes_majority self.now.state.members node ballot slot self.now.state.learner }
    {
        let place = SlotBallot { slot, ballot };
        let nodes = self.nodes(&place).with(node);
        self.has_majority(nodes)
    }
}

impl<B> Learner<B> {
    // Returns the members that were heard to have voted there.
    pub(crate) fn nodes(&self, place: &SlotBallot) -> NodeSet
        ensures { result ≡ nodes_heard place.now self.now.state.learner.heard }
    {
        self.heard.nodes(place)
    }

    // Returns whether these are more than half of the members.
    pub(crate) fn has_majority(&self, nodes: NodeSet) -> bool
        ensures { result ≡ is_majority self.now.state.members (is_in nodes) }
    {
        self.members.majority(nodes)
    }
}

impl<B: Body> Learner<B> {
    /// Hears that the member voted for the entry in this ballot and slot, and learns the entry once a majority is heard to have done so.
    /// Returns `Disagree` if it would be learned, and another was learned in the slot. After a fault the learner is as it was.
    pub fn vote(
        &mut self,
        node: u8,
        ballot: Ballot,
        slot: Slot,
        entry: &Entry<B>,
    ) -> Result<(), LearnerFault>
        ensures ok { OnOk result (self.new.state ≡ voted node (record { slot = slot; ballot = ballot; entry = entry.now }) self.old.state) }
        ensures err { OnErr result (self.new.state ≡ self.old.state) }
        ensures disagree { (result ≡ Err Disagree) ↔ (vote_disagrees B.same self.old.state.members node
            (record { slot = slot; ballot = ballot; entry = entry.now }) self.old.state.learner ≡ true) }
    {
        if self.is_closed(slot) {
            return Ok(());
        }
        let place = SlotBallot { slot, ballot };
        let nodes = self.heard.nodes(&place).with(node);
        if !self.members.majority(nodes) {
            return self.heard.hear(node, &place);
        }
        // Of three members or more one is no majority, so the place was heard before, and its count does not allocate.
        let _count = self.members.count();
        learn(self.alloc, &mut self.learned, slot, entry)?;
        let Ok(()) = self.heard.hear(node, &place) else {
            unreachable!()
        };
        Ok(())
    }

    /// Hears that a member learned the entry in the slot. Returns `Disagree` if another was learned there. After a fault the learner is as
    /// it was.
    pub fn tell(&mut self, slot: Slot, entry: &Entry<B>) -> Result<(), LearnerFault>
        ensures ok { OnOk result (self.new.state ≡ told slot entry.now self.old.state) }
        ensures err { OnErr result (self.new.state ≡ self.old.state) }
        ensures disagree { (result ≡ Err Disagree) ↔ (disagrees B.same slot entry.now self.old.state.learner ≡ true) }
    {
        if self.is_closed(slot) {
            return Ok(());
        }
        learn(self.alloc, &mut self.learned, slot, entry)
    }
}

impl<B: Body> Learner<B> {
    /// Returns whether another entry was learned in the slot, so that `tell` returns `Disagree`. Does not allocate.
    pub fn disagrees(&self, slot: Slot, entry: &Entry<B>) -> bool
        ensures { result ≡ disagrees B.same slot entry.now self.now.state.learner }
    {
        if self.is_closed(slot) {
            return false;
        }
        match self.learned(slot) {
            Some(known) => !known.same(entry),
            None => false,
        }
    }

    /// Returns whether this vote of the member makes a majority, and another entry was learned in its slot, so that `vote` returns
    /// `Disagree`. Does not allocate.
    pub fn vote_disagrees(&self, node: u8, vote: &Vote<B>) -> bool
        ensures { result ≡ vote_disagrees B.same self.now.state.members node vote.now self.now.state.learner }
    {
        let place = SlotBallot {
            slot: vote.slot,
            ballot: vote.ballot,
        };
        let nodes = self.nodes(&place).with(node);
        if !self.has_majority(nodes) {
            return false;
        }
        self.disagrees(vote.slot, &vote.entry)
    }
}

impl<B: Drop> Learner<B> {
    /// Reserves memory for votes in `votes` pairs of slot and ballot in which none was heard. On `Memory` the room is the one of before.
    pub fn make_room(&mut self, votes: usize) -> Result<(), LearnerFault>
        ensures ok { OnOk result (votes ≤ self.new.room.votes) }
        ensures state { self.new.state ≡ self.old.state }
        ensures places { KeepsRoom self.old self.new }
        ensures memory { IsOkUnless result Memory }
    {
        self.heard.make_room(votes)
    }

    /// Reserves memory for the entry of the slot. On `Memory` the room is the one of before. Takes a number of steps logarithmic in the
    /// number of slots above a gap.
    pub fn make_room_at(&mut self, slot: Slot) -> Result<(), LearnerFault>
        ensures ok { OnOk result (has_room_at slot self.new ≡ true) }
        ensures state { self.new.state ≡ self.old.state }
        ensures votes { self.new.room.votes ≡ self.old.room.votes }
        ensures places { KeepsRoom self.old self.new }
        ensures memory { IsOkUnless result Memory }
    {
        self.learned.keep_place(slot)
    }

    /// Hears this vote of the member as `vote` does, given room for it. Never runs out of memory, copies nothing, and never reports
    /// `Disagree`: a slot keeps the entry that was learned there.
    pub fn vote_in_room(&mut self, node: u8, vote: Vote<B>)
        requires votes { 0 < self.old.room.votes }
        requires place { has_room_at vote.slot self.old ≡ true }
        ensures state { self.new.state ≡ voted node vote self.old.state }
        ensures votes { self.old.room.votes ≤ self.new.room.votes + 1 }
        ensures places { KeepsRoom self.old self.new }
    {
        let Vote {
            slot,
            ballot,
            entry,
        } = vote;
        if self.learned.is_closed(slot) {
            return;
        }
        let place = SlotBallot { slot, ballot };
        let voters = self.heard.nodes(&place).with(node);
        let Ok(()) = self.heard.hear(node, &place) else {
            unreachable!()
        };
        if !self.members.majority(voters) {
            return;
        }
        learn_in_place(&mut self.learned, slot, entry);
    }

    /// Hears what a member learned as `tell` does, given room for it. Never runs out of memory, copies nothing, and never reports
    /// `Disagree`: a slot keeps the entry that was learned there.
    pub fn tell_in_room(&mut self, slot: Slot, entry: Entry<B>)
        requires { has_room_at slot self.old ≡ true }
        ensures state { self.new.state ≡ told slot entry self.old.state }
        ensures votes { self.new.room.votes ≡ self.old.room.votes }
        ensures places { KeepsRoom self.old self.new }
    {
        if self.learned.is_closed(slot) {
            return;
        }
        learn_in_place(&mut self.learned, slot, entry);
    }

    /// Notes that a snapshot gives the log up to this floor, which is not below the one before: what was heard and learned up to it is
    /// forgotten. No slot loses its room. Takes a number of steps that grows with what was heard and learned above the floor before.
    pub fn forget(&mut self, floor: Floor)
        requires { self.old.state.learner.floor ≤ floor }
        ensures state { self.new.state ≡ forgot floor self.old.state }
        ensures votes { self.old.room.votes ≤ self.new.room.votes }
        ensures places { KeepsRoom self.old self.new }
    {
        self.heard.forget(floor);
        self.learned.forget(floor);
    }
}

// Learns the entry in a slot above the floor, unless one was learned there.
fn learn<B: Body>(
    alloc: Global,
    learned: &mut LearnedEntries<B>,
    slot: Slot,
    entry: &Entry<B>,
) -> Result<(), LearnerFault>
    requires { learned.old.floor < slot }
    ensures floor { learned.new.floor ≡ learned.old.floor }
    ensures ok { OnOk result (learned.new.learned ≡ learn_among slot entry.now learned.old.learned) }
    ensures err { OnErr result (learned.new.learned ≡ learned.old.learned) }
    ensures disagree { (result ≡ Err Disagree) ↔ (is_other B.same entry.now (learned_at slot learned.old.learned) ≡ true) }
{
    if let Some(known) = learned.find(slot) {
        if known.same(entry) {
            return Ok(());
        }
        return Err(LearnerFault::Disagree);
    }
    let Ok(copy) = entry.copy(alloc) else {
        return Err(LearnerFault::Memory);
    };
    learned.put(slot, copy)
}

// Learns the entry in its place above the floor, unless one was learned in the slot.
fn learn_in_place<B: Drop>(learned: &mut LearnedEntries<B>, slot: Slot, entry: Entry<B>)
    requires above { learned.old.floor < slot }
    requires place { has_room_on slot learned.old ≡ true }
    ensures floor { learned.new.floor ≡ learned.old.floor }
    ensures learned { learned.new.learned ≡ learn_among slot entry learned.old.learned }
    ensures places { KeepsPlaces learned.old learned.new }
{
    if let Some(_known) = learned.find(slot) {
        return;
    }
    learned.put_in_place(slot, entry);
}
