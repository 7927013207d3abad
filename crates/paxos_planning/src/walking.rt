//! Whether the votes that a node would cast in an event disagree with what was learned, found by reference: for a node that has no memory
//! to plan the event. Its entries are gone through in order, each with the slot that it would have; an entry that stands has none. No call
//! allocates, and the steps are as many as the entries squared, and as the entries times what was proposed before.

ghost use Rattle.std.specs.Prelude.{◌≡◌, ◌≤◌, ◌<◌, ◌&&◌, true, suc, length, ◌^◌, nat_lt, [], ◌∷◌, ◌++◌, if◌then◌else◌};
ghost use Rattle.std.specs.List.{list_any};
ghost use Rattle.paxos_packets.specs.Entry.{same_entry};
ghost use Rattle.paxos_proposer.specs.Proposals.{stands_among};
ghost use Rattle.paxos_proposer.specs.Reports.{called_for, entry_or_noop, best};
ghost use Rattle.paxos_planning.specs.Node.{log_length};
ghost use Rattle.paxos_planning.specs.Walking.{entry_of, called_entry, walked_through, proposes_then, differs, walk_on, walk_all, walk_from};
ghost use Rattle.paxos_planning.specs.Walking.{proposes_other, promise_other, called_votes, called_other, votes_of, Leads, LeadsBy};

use crate::parts::Parts;
use crate::wanted::Wanted;
use paxos_learner::Learner;
use paxos_packets::{Ballot, Body, Entry, Floor, Slot, Vote, Votes};
use paxos_proposer::Called;

// How far the entries are gone through: the slot of the next proposal, the first place from which on no equal entry is proposed again, and
// whether a vote would disagree.
#[derive(Clone, Copy, Drop)]
pub(crate) struct Walk {
    next: u64,
    from: usize,
    other: bool,
}

// A leader's ballot and next slot, and what it proposed before.
#[derive(Drop)]
pub(crate) struct Lead<'a, B> {
    ballot: Ballot,
    next: u64,
    // Whether a vote before that slot disagrees.
    other: bool,
    applied: u64,
    earlier: Earlier<'a, B>,
}

// What a leader proposed before the entries that are gone through: before the event, in slots that are not applied; or what a promise calls
// for that makes it lead.
#[derive(Drop)]
pub(crate) enum Earlier<'a, B> {
    Proposed(&'a [Vote<B>]),
    Called(Called<'a, B>),
}

// One past the last slot.
const SLOT_END: u64 = 1 << 40;

impl<'a, B: Body> Parts<'a, B> {
    /// Returns whether a vote that the node would cast as a leader for one of these entries disagrees with what was learned. Does not
    /// allocate.
    pub fn proposes_other(&self, entries: &[Entry<B>]) -> bool
        ensures { result ≡ proposes_other B.same self.now.members self.now.me (log_length self.now.state) self.now.state.learner
            self.now.state.proposer.role entries.now }
    {
        let Some(lead) = self.leads() else {
            return false;
        };
        self.walk(&lead, entries).other
    }

    /// Returns what `proposes_other` does of these entries and one more after them.
    pub fn proposes_other_then(&self, entries: &[Entry<B>], added: &Wanted<'_, B>) -> bool
        ensures { result ≡ proposes_other B.same self.now.members self.now.me (log_length self.now.state) self.now.state.learner
            self.now.state.proposer.role (entries.now ++ entry_of added.now ∷ []) }
    {
        let Some(lead) = self.leads() else {
            return false;
        };
        let walk = self.walk(&lead, entries);
        self.ends_other(&lead, entries, walk, added)
    }

    // Returns where it leads, if it leads and a slot is left.
    fn leads(&self) -> Option<Lead<'a, B>>
        ensures { Leads B.same self.now result }
    {
        let proposer = self.proposer();
        let Some(ballot) = proposer.ballot() else {
            return None;
        };
        let slot = match proposer.next() {
            Ok(slot) => slot,
            Err(_) => return None,
        };
        Some(Lead {
            ballot,
            next: slot.get(),
            other: false,
            applied: self.applied(),
            earlier: Earlier::Proposed(proposer.proposed_after(self.applied())),
        })
    }

    // Returns whether a vote that the node would cast because of this promise disagrees with what was learned: for an entry that the promise
    // calls for, if it makes the node lead, or then for one that is pending. Does not allocate.
    pub(crate) fn promise_other(
        &self,
        sender: u8,
        ballot: Ballot,
        floor: Floor,
        votes: &Votes<B>,
    ) -> bool
        ensures { result ≡ promise_other B.same self.now.members self.now.me sender ballot floor votes.now self.now.state }
    {
        match self.leads_by(sender, ballot, floor, votes) {
            None => false,
            Some(lead) => self.walk(&lead, self.pending()).other,
        }
    }

    // Returns where this promise makes it lead, if it does, once the entries are proposed that it calls for.
    fn leads_by<'b>(
        &'b self,
        sender: u8,
        ballot: Ballot,
        floor: Floor,
        votes: &'b Votes<B>,
    ) -> Option<Lead<'b, B>>
        ensures { LeadsBy B.same self.now sender ballot floor votes.now result }
    {
        let Some(called) = self
            .proposer()
            .calls(sender, ballot, floor, votes, self.floor())
        else {
            return None;
        };
        called.first(); // for the proof
        Some(Lead {
            ballot: called.ballot(),
            next: called.past(),
            other: self.called_other(&called),
            applied: self.applied(),
            earlier: Earlier::Called(called),
        })
    }

    // Returns whether a vote for one of the entries that a promise calls for disagrees.
    fn called_other(&self, called: &Called<'_, B>) -> bool
        ensures { result ≡ called_other B.same self.now.members self.now.me called.now.ballot self.now.state.learner called.now.first
            (called_for called.now.first called.now.votes) }
    {
        let first = called.first();
        let past = called.past();
        for slot in first..past {
            if self.differs_at(called, slot) {
                return true;
            }
        }
        false
    }

    // Returns whether a vote for the entry disagrees that a promise calls for in this slot.
    fn differs_at(&self, called: &Called<'_, B>, slot: u64) -> bool
        requires least { 1 ≤ slot }
        requires most { slot < 2 ^ 40 }
        ensures { result ≡ differs B.same self.now.members self.now.me called.now.ballot self.now.state.learner slot
            (entry_or_noop (best slot called.now.votes)) }
    {
        let wanted = match called_in(called, slot) {
            Some(entry) => Wanted::Held(entry),
            None => Wanted::Noop,
        };
        self.differs(called.ballot(), slot, &wanted)
    }

    // Goes through these entries.
    fn walk(&self, lead: &Lead<'_, B>, entries: &[Entry<B>]) -> Walk
        requires { 1 ≤ lead.now.next }
        ensures walk { walked_through entries.now result ≡ walk_all B.same self.now.members self.now.me lead.now.applied lead.now.ballot
            (votes_of lead.now.earlier) self.now.state.learner entries.now (walk_from lead.now.next lead.now.other) }
        ensures from { result.from ≤ length entries.now }
        ensures least { 1 ≤ result.next }
    {
        let mut walk = Walk {
            next: lead.next,
            from: 0,
            other: lead.other,
        };
        let mut place = 0;
        for entry in entries {
            let before = &entries[..place];
            place += 1;
            walk = self.walk_on(lead, before, place, walk, &Wanted::Held(entry));
        }
        walk
    }

    // Goes on to this entry, after these, and to the place after it.
    fn walk_on(
        &self,
        lead: &Lead<'_, B>,
        before: &[Entry<B>],
        after: usize,
        walk: Walk,
        wanted: &Wanted<'_, B>,
    ) -> Walk
        requires least { 1 ≤ walk.next }
        requires from { walk.from ≤ length before.now }
        requires after { after ≡ suc (length before.now) }
        ensures walk { walked_through (before.now ++ entry_of wanted.now ∷ []) result ≡ walk_on B.same self.now.members self.now.me
            lead.now.applied lead.now.ballot (votes_of lead.now.earlier) self.now.state.learner (entry_of wanted.now)
            (walked_through before.now walk) }
        ensures from { result.from ≤ suc (length before.now) }
        ensures least { 1 ≤ result.next }
    {
        let proposes = proposes_then(lead, &before[walk.from..], walk.next, wanted);
        let other = walk.other || (proposes && self.differs(lead.ballot, walk.next, wanted));
        let stays = proposes && walk.next <= lead.applied;
        Walk {
            next: next_after(proposes, walk.next),
            from: if stays { after } else { walk.from },
            other,
        }
    }

    // Returns whether a vote disagrees once this entry is gone through, after these.
    fn ends_other(
        &self,
        lead: &Lead<'_, B>,
        before: &[Entry<B>],
        walk: Walk,
        wanted: &Wanted<'_, B>,
    ) -> bool
        requires least { 1 ≤ walk.next }
        requires from { walk.from ≤ length before.now }
        ensures { result ≡ (walk_on B.same self.now.members self.now.me lead.now.applied lead.now.ballot (votes_of lead.now.earlier)
            self.now.state.learner (entry_of wanted.now) (walked_through before.now walk)).other }
    {
        let proposes = proposes_then(lead, &before[walk.from..], walk.next, wanted);
        walk.other || (proposes && self.differs(lead.ballot, walk.next, wanted))
    }

    // Returns whether the node's vote for the entry in this ballot and slot would disagree with what was learned.
    fn differs(&self, ballot: Ballot, slot: u64, wanted: &Wanted<'_, B>) -> bool
        requires { 1 ≤ slot }
        ensures { result ≡ differs B.same self.now.members self.now.me ballot self.now.state.learner slot (entry_of wanted.now) }
    {
        differs(self.learner(), self.me(), ballot, slot, wanted)
    }
}

// Returns whether the member's vote for the entry in this ballot and slot would disagree with what was learned.
#[tactic(auto, unfolding(paxos_proposer::specs::Proposer::slot_end))]
fn differs<B: Body>(
    learner: &Learner<B>,
    me: u8,
    ballot: Ballot,
    slot: u64,
    wanted: &Wanted<'_, B>,
) -> bool
    requires { 1 ≤ slot }
    ensures { result ≡ differs B.same learner.now.state.members me ballot learner.now.state.learner slot (entry_of wanted.now) }
{
    let Some(slot) = Slot::new(slot) else {
        return false;
    };
    if learner.is_closed(slot) {
        return false;
    }
    if !learner.makes_majority(me, ballot, slot) {
        return false;
    }
    match learner.learned(slot) {
        Some(known) => !wanted.equals(known),
        None => false,
    }
}

// Returns whether the entry is proposed in this slot: it is one, and no equal entry stands, nor is among the recent ones.
#[tactic(auto, unfolding(paxos_proposer::specs::Proposer::slot_end))]
fn proposes_then<B: Body>(
    lead: &Lead<'_, B>,
    recent: &[Entry<B>],
    next: u64,
    wanted: &Wanted<'_, B>,
) -> bool
    ensures proposes { result ≡ proposes_then B.same lead.now.applied (votes_of lead.now.earlier) next recent.now (entry_of wanted.now) }
    ensures bound { result ≡ true → next < 2 ^ 40 }
{
    next < SLOT_END && !lead.earlier.stands(lead.applied, wanted) && !is_among(recent, wanted)
}

impl<'a, B: Body> Earlier<'a, B> {
    // Returns whether an equal entry was proposed in a slot that is not applied.
    fn stands(&self, applied: u64, wanted: &Wanted<'_, B>) -> bool
        ensures { result ≡ stands_among B.same applied (entry_of wanted.now) (votes_of self.now) }
    {
        match self {
            Earlier::Proposed(votes) => stands(votes, applied, wanted),
            Earlier::Called(called) => is_called(called, applied, wanted),
        }
    }
}

// Returns whether a promise calls for an equal entry, in a slot that is not applied.
fn is_called<B: Body>(called: &Called<'_, B>, applied: u64, wanted: &Wanted<'_, B>) -> bool
    ensures { result ≡ stands_among B.same applied (entry_of wanted.now)
        (called_votes called.now.ballot called.now.first (called_for called.now.first called.now.votes)) }
{
    let first = called.first();
    let past = called.past();
    for slot in first..past {
        if is_called_in(called, slot, applied, wanted) {
            return true;
        }
    }
    false
}

// Returns whether a promise calls for an equal entry in this slot, which is not applied.
fn is_called_in<B: Body>(
    called: &Called<'_, B>,
    slot: u64,
    applied: u64,
    wanted: &Wanted<'_, B>,
) -> bool
    requires least { 1 ≤ slot }
    requires most { slot < 2 ^ 40 }
    ensures { result ≡ nat_lt applied slot && same_entry B.same (entry_or_noop (best slot called.now.votes)) (entry_of wanted.now) }
{
    applied < slot && wanted.equals_called(called_in(called, slot))
}

// Returns the entry that was reported for this slot with the greatest ballot.
fn called_in<'a, B>(called: &Called<'a, B>, slot: u64) -> Option<&'a Entry<B>>
    requires least { 1 ≤ slot }
    requires most { slot < 2 ^ 40 }
    ensures { called_entry result ≡ entry_or_noop (best slot called.now.votes) }
{
    let Some(slot) = Slot::new(slot) else {
        unreachable!()
    };
    called.at(slot)
}

// Returns whether a vote among these, in a slot after the applied ones, is for an equal entry.
fn stands<B: Body>(proposed: &[Vote<B>], applied: u64, wanted: &Wanted<'_, B>) -> bool
    ensures { result ≡ stands_among B.same applied (entry_of wanted.now) proposed.now }
{
    for vote in proposed {
        if applied < vote.slot.get() && wanted.equals(&vote.entry) {
            return true;
        }
    }
    false
}

// Returns whether an equal entry is among these.
fn is_among<B: Body>(entries: &[Entry<B>], wanted: &Wanted<'_, B>) -> bool
    ensures { result ≡ list_any (λ e. same_entry B.same e (entry_of wanted.now)) entries.now }
{
    for entry in entries {
        if wanted.equals(entry) {
            return true;
        }
    }
    false
}

// Returns the slot of the proposal after this one.
fn next_after(proposes: bool, next: u64) -> u64
    requires { proposes ≡ true → next < 2 ^ 40 }
    ensures { result ≡ if proposes then suc next else next }
{
    if proposes { next + 1 } else { next }
}
