// The proposer: how it begins a ballot, counts promises, proposes and steps down.
ghost use Rattle.std.specs.Prelude.{◌≡◌, ◌↔◌, ℕ, ◌≤◌, ◌+◌, true, false, List, [], Some, None, Ok, Err, IsOk, IfOk, OnOk, OnErr, IsOkUnless, option_map};
ghost use Rattle.std.specs.Option.{ForSome};
ghost use Rattle.paxos_proposer.specs.declared.fault.ProposerFault.TheVariants.{Rounds, SlotsFull, NotLeading, Memory};
ghost use Rattle.paxos_packets.specs.declared.vote.Vote.{Vote};
ghost use Rattle.paxos_proposer.specs.Promises.{counts, called_by, promised};
ghost use Rattle.paxos_proposer.specs.Proposals.{stands, behind, AreInSlots, ProposesInTurn};
ghost use Rattle.paxos_proposer.specs.Proposer.{own_ballot, is_spent, is_leading, slots_spent, next_slot, ballot_of, is_below, is_refused};
ghost use Rattle.paxos_proposer.specs.Reports.{is_counted, called_for};
ghost use Rattle.paxos_proposer.specs.Role.{Idle, Leading};
ghost use Rattle.paxos_proposer.specs.Proposing.{first_asked, promises_of, proposals_of, led_from};
ghost use Rattle.paxos_proposer.specs.State.{role_of, IsAboveNone};
ghost use Rattle.paxos_proposer.specs.State.{HasRoom, role_in, with_role, begun, saw, started, after_promise, after_submit, after_nack};
ghost use Rattle.paxos_proposer.specs.State.{stepped_down, after_raise};

use crate::called::Called;
use crate::fault::ProposerFault;
use crate::phase::Phase;
use crate::promises::{CountedPromise, is_counted, is_majority_with, lowest_with};
use crate::proposals::Proposals;
use crate::reports::called_for;
use paxos_packets::{Ballot, Body, Entries, Entry, Floor, Members, Slot, Vote, Votes};
use std::alloc::Global;
use std::marker::Model;

// The last round of a ballot.
pub(crate) const LAST_ROUND: u64 = (1 << 48) - 1;

/// One member as a proposer: its ballot under way with the promises of it, or, once a majority has promised, with what it proposed in it;
/// and the greatest round that it saw. All of it is lost in a crash.
///
/// An entry *stands* if an equal one was proposed in the ballot under way, in a slot that is not applied yet.
pub struct Proposer<B> {
    alloc: Global,
    me: u8,
    members: Members,
    seen: u64,
    phase: Phase,
    promises: Vec<CountedPromise<B>>,
    proposed: Proposals<B>,
}

impl<B: Drop> Drop for Proposer<B> {
    fn drop(self) {
        let Proposer {
            alloc: _,
            me: _,
            members: _,
            seen: _,
            phase: _phase,
            promises: _promises,
            proposed: _proposed,
        } = self;
    }
}

impl<B> Model for Proposer<B> {
    ghost use Rattle.std.specs.Prelude.{◌-◌, vec_len, vec_capacity};
    ghost use Rattle.paxos_proposer.specs.State.{Held, role_of, IsAboveNone, IsInTurn};

    ghost Value = { Held B };

    ghost view = { λ p. record {
      state = record {
        me = p.me;
        members = p.members;
        proposer = record { role = role_of p.phase p.promises.items p.proposed.votes; seen = p.seen };
      };
      room = record { promises = vec_capacity p.promises - vec_len p.promises; proposals = p.proposed.room };
    } };

    ghost invariant = { λ p. IsAboveNone p.phase × IsInTurn p.phase p.proposed.votes };
}

impl<B> Proposer<B> {
    /// Returns a proposer with this number, of these members, that has no ballot under way and saw no round. Does not allocate; other calls
    /// will, from `alloc`.
    pub fn new(alloc: Global, me: u8, members: Members) -> Proposer<B>
        ensures { result.state ≡ begun me members }
    {
        Proposer {
            alloc,
            me,
            members,
            seen: 0,
            phase: Phase::Idle,
            promises: Vec::new(alloc),
            proposed: Proposals::new(alloc),
        }
    }

    /// Returns whether a majority has promised its ballot under way.
    pub fn is_leading(&self) -> bool
        ensures { result ≡ is_leading (role_in self.now) }
    {
        match self.phase {
            Phase::Leading { .. } => true,
            Phase::Idle | Phase::Preparing { .. } => false,
        }
    }

    /// Returns the ballot under way.
    pub fn ballot(&self) -> Option<Ballot>
        ensures { result ≡ ballot_of (role_in self.now) }
    {
        match self.phase {
            Phase::Idle => None,
            Phase::Preparing { ballot, .. } => Some(ballot),
            Phase::Leading { ballot, .. } => Some(ballot),
        }
    }

    /// Returns the slot of its next proposal, `NotLeading` if it does not lead, or `SlotsFull` if no slot is left.
    #[tactic(auto, unfolding(crate::specs::Proposer::slot_end))]
    pub fn next(&self) -> Result<Slot, ProposerFault>
        ensures ok { IfOk result (λ slot. next_slot (role_in self.now) ≡ Some slot) }
        ensures idle { (result ≡ Err NotLeading) ↔ (is_leading (role_in self.now) ≡ false) }
        ensures full { (result ≡ Err SlotsFull) ↔ (slots_spent (role_in self.now) ≡ true) }
        ensures otherwise { is_leading (role_in self.now) ≡ true → slots_spent (role_in self.now) ≡ false → IsOk result }
    {
        match self.phase {
            Phase::Leading { next, .. } => match Slot::new(next) {
                Some(slot) => Ok(slot),
                None => Err(ProposerFault::SlotsFull),
            },
            Phase::Idle | Phase::Preparing { .. } => Err(ProposerFault::NotLeading),
        }
    }

    /// Returns the ballot that `start` would begin, whose round is one above the greatest that was seen, or `Rounds` if no round is left.
    #[tactic(auto, unfolding(crate::specs::Proposer::round_end))]
    pub fn next_ballot(&self) -> Result<Ballot, ProposerFault>
        ensures ok { IfOk result (λ ballot. ballot ≡ own_ballot self.now.state.me self.now.state.proposer) }
        ensures rounds { (result ≡ Err Rounds) ↔ (is_spent self.now.state.proposer ≡ true) }
        ensures otherwise { is_spent self.now.state.proposer ≡ false → IsOk result }
    {
        if self.seen >= LAST_ROUND {
            return Err(ProposerFault::Rounds);
        }
        Ok(Ballot {
            round: self.seen + 1,
            node: self.me,
        })
    }

    /// Returns the slot from which on the ballot that is being prepared asks for votes.
    pub fn preparing(&self) -> Option<u64>
        ensures { result ≡ first_asked (role_in self.now) }
    {
        match self.phase {
            Phase::Preparing { first, .. } => Some(first),
            Phase::Idle | Phase::Leading { .. } => None,
        }
    }

    /// Returns whether a promise of the node was counted.
    pub fn is_counted(&self, node: u8) -> bool
        ensures { result ≡ is_counted (promises_of (role_in self.now)) node }
    {
        match self.phase {
            Phase::Preparing { .. } => is_counted(&self.promises, node),
            Phase::Idle | Phase::Leading { .. } => false,
        }
    }

    /// Returns what it proposed in its ballot under way, in the slots after the first `applied`. What a leader proposed is in slots that
    /// follow one another, up to its next one. Takes a constant number of steps.
    pub fn proposed_after(&self, applied: u64) -> &[Vote<B>]
        ensures behind { result.now ≡ behind applied (proposals_of (role_in self.now)) }
        ensures slots { AreInSlots (proposals_of (role_in self.now)) }
        ensures turn { ProposesInTurn (role_in self.now) }
    {
        match self.phase {
            Phase::Leading { .. } => self.proposed.behind(applied),
            Phase::Idle | Phase::Preparing { .. } => &[],
        }
    }

    /// Notes that a packet with a ballot of this round came.
    pub fn saw(&mut self, round: u64)
        ensures state { self.new.state ≡ saw round self.old.state }
        ensures room { self.new.room ≡ self.old.room }
    {
        self.seen = self.seen.max(round);
    }

    // Returns its number.
    pub(crate) fn me(&self) -> u8
        ensures { result ≡ self.now.state.me }
    {
        self.me
    }

    // Returns the greatest round that it saw.
    pub(crate) fn seen(&self) -> u64
        ensures { result ≡ self.now.state.proposer.seen }
    {
        self.seen
    }

    // Returns what it does.
    pub(crate) fn phase(&self) -> Phase
        ensures role { role_in self.now ≡ role_of result (promises_of (role_in self.now)) (proposals_of (role_in self.now)) }
        ensures above { IsAboveNone result }
    {
        self.phase
    }

    // Returns from which slot on the ballot that is being prepared would be led, if a promise with this floor were counted; `own` is the
    // member's own floor.
    pub(crate) fn led_from(&self, floor: Floor, own: Floor) -> u64
        ensures slot { (node : ℕ) (votes : List (Vote B)) → result ≡ led_from node floor votes own (role_in self.now) }
        ensures least { 1 ≤ result }
    {
        match self.phase {
            Phase::Preparing { first, .. } => lowest_with(first, own, &self.promises, floor),
            Phase::Idle | Phase::Leading { .. } => 1,
        }
    }

    // Returns whether a promise of this ballot by this node is to be counted.
    fn counts(&self, node: u8, ballot: Ballot) -> bool
        ensures { result ≡ counts node ballot (role_in self.now) }
    {
        match self.phase {
            Phase::Preparing { ballot: own, .. } => ballot == own
                && !is_counted(&self.promises, node),
            Phase::Idle | Phase::Leading { .. } => false,
        }
    }

    // Returns whether the ballot under way is below this one.
    fn is_below(&self, ballot: &Ballot) -> bool
        ensures { result ≡ is_below ballot.now (role_in self.now) }
    {
        match &self.phase {
            Phase::Idle => false,
            Phase::Preparing { ballot: own, .. } => own.is_below(ballot),
            Phase::Leading { ballot: own, .. } => own.is_below(ballot),
        }
    }

    // Returns whether this ballot is under way, and below the promise.
    fn is_refused(&self, ballot: &Ballot, promised: &Ballot) -> bool
        ensures { result ≡ is_refused ballot.now promised.now (role_in self.now) }
    {
        match &self.phase {
            Phase::Idle => false,
            Phase::Preparing { ballot: own, .. } => ballot == own && own.is_below(promised),
            Phase::Leading { ballot: own, .. } => ballot == own && own.is_below(promised),
        }
    }
}

impl<B: Drop> Proposer<B> {
    /// Begins its next ballot with this member's own promise, which reports its floor, and these votes: those of its rows from the slot
    /// `first` on. Drops what the ballot before it had. Returns `Rounds` if no round is left. After a fault the proposer is as it was.
    pub fn start(
        &mut self,
        first: u64,
        floor: Floor,
        votes: Votes<B>,
    ) -> Result<Ballot, ProposerFault>
        requires { 1 ≤ first }
        ensures ok { OnOk result (self.new.state ≡ started first floor votes self.old.state) }
        ensures ballot { IfOk result (λ ballot. ballot ≡ own_ballot self.old.state.me self.old.state.proposer) }
        ensures err { OnErr result (self.new.state ≡ self.old.state) }
        ensures rounds { (result ≡ Err Rounds) ↔ (is_spent self.old.state.proposer ≡ true) }
        ensures memory { is_spent self.old.state.proposer ≡ false → IsOkUnless result Memory }
    {
        let ballot = self.next_ballot()?;
        if self.promises.reserve(1).is_err() {
            return Err(ProposerFault::Memory);
        }
        self.start_in_room(first, floor, votes);
        Ok(ballot)
    }

    /// Proposes the entry in its next slot, and returns the slot; returns `NotLeading` if it does not lead, and `SlotsFull` if no slot is
    /// left. After a fault the proposer is as it was. Takes a constant number of steps, unless the proposals move to larger memory.
    pub fn submit(&mut self, entry: Entry<B>) -> Result<Slot, ProposerFault>
        ensures ok { OnOk result (self.new.state ≡ after_submit entry self.old.state) }
        ensures slot { IfOk result (λ slot. next_slot (role_in self.old) ≡ Some slot) }
        ensures err { OnErr result (self.new.state ≡ self.old.state) }
        ensures idle { (result ≡ Err NotLeading) ↔ (is_leading (role_in self.old) ≡ false) }
        ensures full { (result ≡ Err SlotsFull) ↔ (slots_spent (role_in self.old) ≡ true) }
        ensures memory { is_leading (role_in self.old) ≡ true → slots_spent (role_in self.old) ≡ false → IsOkUnless result Memory }
    {
        let slot = self.next()?;
        if self.proposed.reserve(1).is_err() {
            return Err(ProposerFault::Memory);
        }
        self.submit_in_room(entry);
        Ok(slot)
    }

    /// Notes that a member refused the ballot because it promised another: the ballot under way ends if it is this one, and below that
    /// promise. Does not allocate.
    pub fn on_nack(&mut self, ballot: Ballot, promised: Ballot)
        ensures state { self.new.state ≡ after_nack ballot promised self.old.state }
        ensures promises { self.old.room.promises ≤ self.new.room.promises }
        ensures proposals { self.old.room.proposals ≤ self.new.room.proposals }
    {
        if self.is_refused(&ballot, &promised) {
            self.rest();
        }
    }

    /// Notes that this member promised the ballot: its own ballot under way ends if it is below that one. Does not allocate.
    pub fn step_down(&mut self, ballot: Ballot)
        ensures state { self.new.state ≡ stepped_down ballot self.old.state }
        ensures promises { self.old.room.promises ≤ self.new.room.promises }
        ensures proposals { self.old.room.proposals ≤ self.new.room.proposals }
    {
        if self.is_below(&ballot) {
            self.rest();
        }
    }

    /// Notes that a snapshot gives this member's log up to the floor: a leader proposes above it only, and forgets what it proposed up to
    /// it. Takes a number of steps that grows with its proposals. Does not allocate.
    pub fn raise_above(&mut self, floor: Floor)
        ensures state { self.new.state ≡ after_raise floor self.old.state }
        ensures promises { self.old.room.promises ≤ self.new.room.promises }
        ensures proposals { self.old.room.proposals ≤ self.new.room.proposals }
    {
        let Phase::Leading { ballot, next } = self.phase else {
            return;
        };
        self.proposed.forget(floor.get());
        self.phase = Phase::Leading {
            ballot,
            next: next.max(floor.get() + 1),
        };
    }

    /// Reserves memory for `promises` further promises and `proposals` further proposals. The proposer stays as it was, with a fault too.
    pub fn make_room(&mut self, promises: usize, proposals: usize) -> Result<(), ProposerFault>
        ensures state { self.new.state ≡ self.old.state }
        ensures ok { OnOk result (HasRoom promises proposals self.new.room) }
        ensures memory { IsOkUnless result Memory }
    {
        if self.promises.reserve(promises).is_err() || self.proposed.reserve(proposals).is_err() {
            return Err(ProposerFault::Memory);
        }
        Ok(())
    }

    /// Does what `start` does, given that a round is left, and room for a promise. Does not allocate.
    #[tactic(auto, unfolding(crate::specs::Proposer::round_end))]
    pub fn start_in_room(&mut self, first: u64, floor: Floor, votes: Votes<B>)
        requires first { 1 ≤ first }
        requires round { is_spent self.old.state.proposer ≡ false }
        requires room { 1 ≤ self.old.room.promises }
        ensures state { self.new.state ≡ started first floor votes self.old.state }
        ensures promises { self.old.room.promises ≤ self.new.room.promises + 1 }
        ensures proposals { self.old.room.proposals ≤ self.new.room.proposals }
    {
        self.seen += 1;
        let ballot = Ballot {
            round: self.seen,
            node: self.me,
        };
        self.promises.clear();
        self.proposed.clear();
        self.promises.push_reserved(CountedPromise {
            node: self.me,
            floor,
            votes,
        });
        self.phase = Phase::Preparing { ballot, first };
    }

    /// Does what `on_promise` does, given room for a promise, but does not compute what the reports call for. Does not allocate.
    pub fn on_promise_in_room(
        &mut self,
        node: u8,
        ballot: Ballot,
        floor: Floor,
        votes: Votes<B>,
        own: Floor,
    )
        requires { 1 ≤ self.old.room.promises }
        ensures state { self.new.state ≡ after_promise node ballot floor votes own self.old.state }
        ensures promises { self.old.room.promises ≤ self.new.room.promises + 1 }
        ensures proposals { self.old.room.proposals ≤ self.new.room.proposals }
    {
        let Phase::Preparing {
            ballot: under_way,
            first,
        } = self.phase
        else {
            return;
        };
        if !self.counts(node, ballot) {
            return;
        }
        if !is_majority_with(self.members, &self.promises, node) {
            self.promises
                .push_reserved(CountedPromise { node, floor, votes });
            return;
        }
        let next = lowest_with(first, own, &self.promises, floor);
        self.promises.clear();
        self.proposed.clear();
        self.phase = Phase::Leading {
            ballot: under_way,
            next,
        };
    }

    /// Does what `submit` does, given that the proposer leads, a slot is left, and there is room for a proposal. Does not allocate, and
    /// takes a constant number of steps.
    #[tactic(auto, unfolding(crate::specs::Proposer::slot_end))]
    pub fn submit_in_room(&mut self, entry: Entry<B>)
        requires leading { is_leading (role_in self.old) ≡ true }
        requires slot { slots_spent (role_in self.old) ≡ false }
        requires room { 1 ≤ self.old.room.proposals }
        ensures state { self.new.state ≡ after_submit entry self.old.state }
        ensures promises { self.new.room.promises ≡ self.old.room.promises }
        ensures proposals { self.old.room.proposals ≤ self.new.room.proposals + 1 }
    {
        let Phase::Leading { ballot, next } = self.phase else {
            unreachable!()
        };
        let Some(slot) = Slot::new(next) else {
            unreachable!()
        };
        self.proposed.push_reserved(Vote {
            slot,
            ballot,
            entry,
        });
        self.phase = Phase::Leading {
            ballot,
            next: next + 1,
        };
    }

    // Ends the ballot under way.
    fn rest(&mut self)
        ensures state { self.new.state ≡ with_role Idle self.old.state }
        ensures promises { self.old.room.promises ≤ self.new.room.promises }
        ensures proposals { self.old.room.proposals ≤ self.new.room.proposals }
    {
        self.promises.clear();
        self.proposed.clear();
        self.phase = Phase::Idle;
    }
}

impl<B> Proposer<B> {
    /// Returns what this promise calls for, as `called_by` does, by reference; `None` if it does not make the proposer lead. Does not
    /// allocate.
    pub fn calls<'a>(
        &'a self,
        node: u8,
        ballot: Ballot,
        floor: Floor,
        votes: &'a Votes<B>,
        own: Floor,
    ) -> Option<Called<'a, B>>
        ensures called { option_map (λ c. called_for c.first c.votes) result
            ≡ called_by self.now.state.members node ballot floor votes.now own (role_in self.now) }
        ensures role { ForSome result
            (λ c. promised self.now.state.members node ballot floor votes.now own (role_in self.now) ≡ Leading c.ballot c.first []) }
    {
        let Phase::Preparing {
            ballot: under_way,
            first,
        } = self.phase
        else {
            return None;
        };
        if !self.counts(node, ballot) || !is_majority_with(self.members, &self.promises, node) {
            return None;
        }
        Some(Called {
            ballot: under_way,
            first: lowest_with(first, own, &self.promises, floor),
            promises: &self.promises,
            last: votes,
        })
    }
}

impl<B: Body> Proposer<B> {
    /// Returns whether it proposed an equal entry in its ballot under way, in a slot after the first `applied`. Does not allocate; for the
    /// steps see `Proposals::stands`.
    pub fn stands(&self, applied: u64, entry: &Entry<B>) -> bool
        ensures { result ≡ stands B.same applied (role_in self.now) entry.now }
    {
        match self.phase {
            Phase::Leading { .. } => self.proposed.stands(applied, entry),
            Phase::Idle | Phase::Preparing { .. } => false,
        }
    }

    /// Returns the entries that this promise calls for, if it makes the proposer lead: for each slot from the first one that was asked for
    /// to the greatest one reported, but only above its own floor and each one that was reported, the entry that was reported with the
    /// greatest ballot, or `Noop`.
    pub fn called_by(
        &self,
        node: u8,
        ballot: Ballot,
        floor: Floor,
        votes: &Votes<B>,
        own: Floor,
    ) -> Result<Option<Entries<B>>, ProposerFault>
        ensures called { IfOk result
            (λ called. called ≡ called_by self.now.state.members node ballot floor votes.now own (role_in self.now)) }
        ensures memory { IsOkUnless result Memory }
    {
        let Phase::Preparing { first, .. } = self.phase else {
            return Ok(None);
        };
        if !self.counts(node, ballot) || !is_majority_with(self.members, &self.promises, node) {
            return Ok(None);
        }
        let first = lowest_with(first, own, &self.promises, floor);
        match called_for(self.alloc, first, &self.promises, votes) {
            Ok(entries) => Ok(Some(entries)),
            Err(_) => Err(ProposerFault::Memory),
        }
    }

    /// Counts a member's promise of the ballot, which reported this floor and these votes, if the ballot is under way and no promise of that
    /// member was counted yet; `own` is the floor of this member now. With a majority the proposer leads, and the result is the entries
    /// that it has to propose then (`called_by`). After a fault the proposer is as it was.
    pub fn on_promise(
        &mut self,
        node: u8,
        ballot: Ballot,
        floor: Floor,
        votes: Votes<B>,
        own: Floor,
    ) -> Result<Option<Entries<B>>, ProposerFault>
        ensures ok { OnOk result (self.new.state ≡ after_promise node ballot floor votes own self.old.state) }
        ensures called { IfOk result (λ called. called ≡ called_by self.old.state.members node ballot floor votes own (role_in self.old)) }
        ensures err { OnErr result (self.new.state ≡ self.old.state) }
        ensures memory { IsOkUnless result Memory }
    {
        let Ok(called) = self.called_by(node, ballot, floor, &votes, own) else {
            return Err(ProposerFault::Memory);
        };
        if self.promises.reserve(1).is_err() {
            return Err(ProposerFault::Memory);
        }
        self.on_promise_in_room(node, ballot, floor, votes, own);
        Ok(called)
    }
}
