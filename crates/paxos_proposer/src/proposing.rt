// How an event is planned on a proposer: what is to be done to it, and what it would be then.
ghost use Rattle.std.specs.Prelude.{◌≡◌, ◌↔◌, ◌≤◌, [], true, false, is_some, Err, IsOk, IfOk, OnOk, OnErr, IsOkUnless};
ghost use Rattle.paxos_proposer.specs.declared.fault.ProposerFault.TheVariants.{Rounds, Memory};
ghost use Rattle.paxos_proposer.specs.declared.moves.Move.TheVariants.{Started, Promised, Nacked, SteppedDown, Submitted};
ghost use Rattle.paxos_proposer.specs.Moves.{ArePossible};
ghost use Rattle.paxos_proposer.specs.Promises.{called_by};
ghost use Rattle.paxos_proposer.specs.Proposals.{stands};
ghost use Rattle.paxos_proposer.specs.Proposer.{own_ballot, is_spent, is_leading, is_below, is_refused};
ghost use Rattle.paxos_proposer.specs.Proposing.{after, role_then, and_move, and_seen, offer_of, led};
ghost use Rattle.paxos_proposer.specs.State.{saw, started, after_promise, after_submit, after_nack, stepped_down};

use crate::fault::ProposerFault;
use crate::moves::Move;
use crate::phase::Phase;
use crate::proposed::Proposed;
use crate::proposer::{LAST_ROUND, Proposer};
use paxos_packets::{Ballot, Body, Entries, Entry, Floor, Slot, Vote, Votes};
use std::alloc::Global;
use std::marker::Model;

/// A leader's next proposal: where it would go.
#[derive(Clone, Copy, Debug, PartialEq, Eq)]
pub struct Offer {
    /// The ballot in which it leads.
    pub ballot: Ballot,
    /// The slot of its next proposal.
    pub slot: Slot,
}

/// A proposer, and what is to be done to it: an event is planned on it, and the proposer itself stays as it is. It keeps only what changes,
/// and copies nothing else of the proposer. After a fault what is to be done is as it was.
#[derive(Drop)]
pub struct Proposing<'a, B> {
    alloc: Global,
    proposer: &'a Proposer<B>,
    moves: Vec<Move<B>>,
    seen: u64,
    phase: Phase,
    // Whether what was proposed before still counts in the ballot under way, and what more is proposed in it.
    goes_on: bool,
    proposed: Proposed<B>,
}

impl<'a, B> Model for Proposing<'a, B> {
    ghost use Rattle.paxos_proposer.specs.Moves.{after_moves, ArePossible};
    ghost use Rattle.paxos_proposer.specs.Proposing.{Draft, IsTold};

    ghost Value = { Draft B };

    ghost view = { λ p. record { before = p.proposer.now.state; moves = p.moves.items } };

    ghost invariant = { λ p. IsTold p.seen p.phase p.goes_on p.proposed.votes p.proposer.now.state
        (after_moves p.moves.items p.proposer.now.state) × ArePossible p.moves.items p.proposer.now.state };
}

impl<'a, B> Proposing<'a, B> {
    /// Begins planning on the proposer, with nothing to be done. Does not allocate; the other calls will, from `alloc`.
    pub fn of(alloc: Global, proposer: &'a Proposer<B>) -> Proposing<'a, B>
        ensures before { result.before ≡ proposer.now.state }
        ensures moves { result.moves ≡ [] }
    {
        Proposing {
            alloc,
            proposer,
            moves: Vec::new(alloc),
            seen: proposer.seen(),
            phase: proposer.phase(),
            goes_on: true,
            proposed: Proposed::new(alloc),
        }
    }

    /// Returns whether a majority would have promised its ballot under way.
    pub fn is_leading(&self) -> bool
        ensures { result ≡ is_leading (role_then self.now) }
    {
        match self.phase {
            Phase::Leading { .. } => true,
            Phase::Idle | Phase::Preparing { .. } => false,
        }
    }

    /// Returns where it would propose next, or `None` if it would not lead, or no slot would be left.
    #[tactic(auto, unfolding(crate::specs::Proposer::slot_end))]
    pub fn offer(&self) -> Option<Offer>
        ensures { result ≡ offer_of (role_then self.now) }
    {
        let Phase::Leading { ballot, next } = self.phase else {
            return None;
        };
        let Some(slot) = Slot::new(next) else {
            return None;
        };
        Some(Offer { ballot, slot })
    }

    /// Returns the ballot that `start` would begin, or `Rounds` if no round is left.
    #[tactic(auto, unfolding(crate::specs::Proposer::round_end))]
    pub fn next_ballot(&self) -> Result<Ballot, ProposerFault>
        ensures ok { IfOk result (λ ballot. ballot ≡ own_ballot (after self.now).me (after self.now).proposer) }
        ensures rounds { (result ≡ Err Rounds) ↔ (is_spent (after self.now).proposer ≡ true) }
        ensures otherwise { is_spent (after self.now).proposer ≡ false → IsOk result }
    {
        if self.seen >= LAST_ROUND {
            return Err(ProposerFault::Rounds);
        }
        Ok(Ballot {
            round: self.seen + 1,
            node: self.proposer.me(),
        })
    }

    // Returns whether the ballot under way would be below this one.
    fn is_below(&self, ballot: &Ballot) -> bool
        ensures { result ≡ is_below ballot.now (role_then self.now) }
    {
        match &self.phase {
            Phase::Idle => false,
            Phase::Preparing { ballot: own, .. } => own.is_below(ballot),
            Phase::Leading { ballot: own, .. } => own.is_below(ballot),
        }
    }

    // Returns whether this ballot would be under way, and below the promise.
    fn is_refused(&self, ballot: &Ballot, promised: &Ballot) -> bool
        ensures { result ≡ is_refused ballot.now promised.now (role_then self.now) }
    {
        match &self.phase {
            Phase::Idle => false,
            Phase::Preparing { ballot: own, .. } => ballot == own && own.is_below(promised),
            Phase::Leading { ballot: own, .. } => ballot == own && own.is_below(promised),
        }
    }
}

impl<'a, B: Drop> Proposing<'a, B> {
    /// Returns what is to be done, in order: each move is possible when its turn comes.
    pub fn into_moves(self) -> Vec<Move<B>>
        ensures moves { result.items ≡ self.entry.moves }
        ensures possible { ArePossible self.entry.moves self.entry.before }
    {
        let Proposing { moves, .. } = self;
        moves
    }

    /// Plans that a packet with a ballot of this round came. Nothing is to be done if it would have seen that round or a later one.
    pub fn saw(&mut self, round: u64) -> Result<(), ProposerFault>
        ensures ok { OnOk result (self.new ≡ and_seen round self.old) }
        ensures before { self.new.before ≡ self.old.before }
        ensures after { OnOk result (after self.new ≡ saw round (after self.old)) }
        ensures err { OnErr result (self.new ≡ self.old) }
        ensures memory { IsOkUnless result Memory }
    {
        if round <= self.seen {
            return Ok(());
        }
        if self.moves.reserve(1).is_err() {
            return Err(ProposerFault::Memory);
        }
        self.moves.push_reserved(Move::Saw { round });
        self.seen = round;
        Ok(())
    }

    /// Plans that it begins its next ballot with this member's own promise, which reports its floor and these votes.
    #[tactic(auto, unfolding(crate::specs::Proposer::round_end))]
    pub fn start(&mut self, first: u64, floor: Floor, votes: Votes<B>) -> Result<(), ProposerFault>
        requires first { 1 ≤ first }
        requires round { is_spent (after self.old).proposer ≡ false }
        ensures ok { OnOk result (self.new ≡ and_move (Started first floor votes) self.old) }
        ensures after { OnOk result (after self.new ≡ started first floor votes (after self.old)) }
        ensures err { OnErr result (self.new ≡ self.old) }
        ensures memory { IsOkUnless result Memory }
    {
        if self.moves.reserve(1).is_err() {
            return Err(ProposerFault::Memory);
        }
        self.seen += 1;
        let ballot = Ballot {
            round: self.seen,
            node: self.proposer.me(),
        };
        self.moves.push_reserved(Move::Started {
            first,
            floor,
            votes,
        });
        self.proposed.clear();
        self.goes_on = false;
        self.phase = Phase::Preparing { ballot, first };
        Ok(())
    }

    /// Plans that a member refused the ballot because it promised another.
    pub fn on_nack(&mut self, ballot: Ballot, promised: Ballot) -> Result<(), ProposerFault>
        ensures before { self.new.before ≡ self.old.before }
        ensures after { OnOk result (after self.new ≡ after_nack ballot promised (after self.old)) }
        ensures err { OnErr result (self.new ≡ self.old) }
        ensures memory { IsOkUnless result Memory }
    {
        if !self.is_refused(&ballot, &promised) {
            return Ok(());
        }
        if self.moves.reserve(1).is_err() {
            return Err(ProposerFault::Memory);
        }
        self.moves.push_reserved(Move::Nacked { ballot, promised });
        self.proposed.clear();
        self.goes_on = false;
        self.phase = Phase::Idle;
        Ok(())
    }

    /// Plans that this member promised the ballot: its own ballot under way ends if it is below that one.
    pub fn step_down(&mut self, ballot: Ballot) -> Result<(), ProposerFault>
        ensures before { self.new.before ≡ self.old.before }
        ensures after { OnOk result (after self.new ≡ stepped_down ballot (after self.old)) }
        ensures err { OnErr result (self.new ≡ self.old) }
        ensures memory { IsOkUnless result Memory }
    {
        if !self.is_below(&ballot) {
            return Ok(());
        }
        if self.moves.reserve(1).is_err() {
            return Err(ProposerFault::Memory);
        }
        self.moves.push_reserved(Move::SteppedDown { ballot });
        self.proposed.clear();
        self.goes_on = false;
        self.phase = Phase::Idle;
        Ok(())
    }
}

impl<'a, B: Body> Proposing<'a, B> {
    /// Returns whether an equal entry would stand in its ballot under way, in a slot after the first `applied`.
    pub fn stands(&self, applied: u64, entry: &Entry<B>) -> bool
        ensures { result ≡ stands B.same applied (role_then self.now) entry.now }
    {
        let Phase::Leading { .. } = self.phase else {
            return false;
        };
        (self.goes_on && self.proposer.stands(applied, entry))
            || self.proposed.stands(applied, entry)
    }

    /// Plans a member's promise of the ballot, which reported this floor and these votes, given that nothing was planned before that ends or
    /// begins a ballot; `own` is the floor of this member now. With a majority the proposer leads, and the result is the entries that it has to propose then.
    pub fn on_promise(
        &mut self,
        node: u8,
        ballot: Ballot,
        floor: Floor,
        votes: Votes<B>,
        own: Floor,
    ) -> Result<Option<Entries<B>>, ProposerFault>
        requires { role_then self.old ≡ self.old.before.proposer.role }
        ensures ok { OnOk result (self.new ≡ and_move (Promised node ballot floor votes own) self.old) }
        ensures after { OnOk result (after self.new ≡ after_promise node ballot floor votes own (after self.old)) }
        ensures called { IfOk result
            (λ called. called ≡ called_by (after self.old).members node ballot floor votes own (role_then self.old)) }
        ensures err { OnErr result (self.new ≡ self.old) }
        ensures memory { IsOkUnless result Memory }
    {
        let called = self.proposer.called_by(node, ballot, floor, &votes, own)?;
        let slot = self.proposer.led_from(floor, own);
        if self.moves.reserve(1).is_err() {
            return Err(ProposerFault::Memory);
        }
        self.moves.push_reserved(Move::Promised {
            node,
            ballot,
            floor,
            votes,
            own,
        });
        let Some(entries) = called else {
            return Ok(None);
        };
        self.proposed.clear();
        self.goes_on = false;
        self.phase = led(self.phase, slot);
        Ok(Some(entries))
    }

    /// Plans that it proposes the entry at its offer.
    #[tactic(auto, unfolding(crate::specs::Proposer::slot_end))]
    pub fn submit(&mut self, entry: &Entry<B>) -> Result<(), ProposerFault>
        requires { is_some (offer_of (role_then self.old)) ≡ true }
        ensures ok { OnOk result (self.new ≡ and_move (Submitted entry.now) self.old) }
        ensures after { OnOk result (after self.new ≡ after_submit entry.now (after self.old)) }
        ensures err { OnErr result (self.new ≡ self.old) }
        ensures memory { IsOkUnless result Memory }
    {
        let Phase::Leading { ballot, next } = self.phase else {
            unreachable!()
        };
        let Some(slot) = Slot::new(next) else {
            unreachable!()
        };
        let (Ok(kept), Ok(copy)) = (entry.copy(self.alloc), entry.copy(self.alloc)) else {
            return Err(ProposerFault::Memory);
        };
        if self.moves.reserve(1).is_err() || self.proposed.make_room().is_err() {
            return Err(ProposerFault::Memory);
        }
        self.moves.push_reserved(Move::Submitted { entry: copy });
        self.proposed.push_reserved(Vote {
            slot,
            ballot,
            entry: kept,
        });
        self.phase = Phase::Leading {
            ballot,
            next: next + 1,
        };
        Ok(())
    }
}

// Returns the phase after a majority's promises, with the slot from which on it leads.
fn led(phase: Phase, slot: u64) -> Phase
    ensures { result ≡ led slot phase }
{
    match phase {
        Phase::Idle => Phase::Idle,
        Phase::Preparing { ballot, .. } => Phase::Leading { ballot, next: slot },
        Phase::Leading { ballot, next } => Phase::Leading { ballot, next },
    }
}
