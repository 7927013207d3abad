//! A node's parts as a draft reads them, and whether a packet disagrees with what was learned.

ghost use Rattle.std.specs.Prelude.{◌≡◌, ◌+◌, ◌<◌, ◌^◌, ◌&&◌, [], length, IfOk, is_none, option_copied};
ghost use Rattle.paxos_learner.specs.Learned.{Begins};
ghost use Rattle.paxos_learner.specs.Learner.{vote_disagrees};
ghost use Rattle.paxos_packets.specs.Snapshot.{floor_in};
ghost use Rattle.paxos_packets.specs.Vote.{votes_from};
ghost use Rattle.paxos_acceptor.specs.Acceptor.{may_accept, given_by};
ghost use Rattle.paxos_planning.specs.Node.{log_length};
ghost use Rattle.paxos_planning.specs.Parts.{proposer_of, learner_of, first_learned, whole};
ghost use Rattle.paxos_planning.specs.Replies.{brings_other};

use crate::draft::may_accept;
use paxos_acceptor::Acceptor;
use paxos_learner::{Hearing, Learner};
use paxos_packets::{Ballot, Body, Entry, Floor, Kind, Members, Memory, Snapshot, Vote, Votes};
use paxos_proposer::{Proposer, Proposing};
use std::alloc::Global;
use std::marker::Model;

/// The parts of a node that is up, by reference.
#[derive(Drop)]
pub struct Parts<'a, B> {
    me: u8,
    members: Members,
    acceptor: &'a Acceptor<B>,
    proposer: &'a Proposer<B>,
    learner: &'a Learner<B>,
    // How many of the first entries that the learner learned above its floor are applied.
    applied: usize,
    pending: &'a [Entry<B>],
    taken: u64,
}

impl<'a, B> Model for Parts<'a, B> {
    ghost use Rattle.std.specs.Prelude.{◌≡◌, ◌+◌, ◌<◌, ◌^◌, true, length};
    ghost use Rattle.paxos_packets.specs.Snapshot.{floor_in};
    ghost use Rattle.paxos_learner.specs.Learned.{Begins};
    ghost use Rattle.paxos_planning.specs.Parts.{Whole, first_learned};

    ghost Value = { Whole B };

    ghost view = { λ p. record {
      me = p.me;
      members = p.members;
      state = record {
        rows = p.acceptor.now.rows;
        up = true;
        proposer = p.proposer.now.state.proposer;
        learner = p.learner.now.state.learner;
        applied = first_learned p.applied p.learner.now.state.learner.learned;
        pending = p.pending.now;
        taken = p.taken;
      };
    } };

    ghost invariant = { λ p. (p.proposer.now.state.me ≡ p.me) × (p.proposer.now.state.members ≡ p.members)
        × (p.learner.now.state.members ≡ p.members)
        × (p.learner.now.state.learner.floor ≡ floor_in p.acceptor.now.rows.snapshot)
        × (length (first_learned p.applied p.learner.now.state.learner.learned) ≡ p.applied)
        × Begins (floor_in p.acceptor.now.rows.snapshot) (first_learned p.applied p.learner.now.state.learner.learned) p.learner.now.state.learner.learned
        × (floor_in p.acceptor.now.rows.snapshot + p.applied < 2 ^ 40) };
}

impl<'a, B> Parts<'a, B> {
    /// Returns the parts of the node with this number, of these members, that has applied what its learner learned in the first `applied`
    /// slots above the floor.
    pub fn of(
        me: u8,
        members: Members,
        acceptor: &'a Acceptor<B>,
        proposer: &'a Proposer<B>,
        learner: &'a Learner<B>,
        applied: usize,
        pending: &'a [Entry<B>],
        taken: u64,
    ) -> Parts<'a, B>
        requires me { proposer.now.state.me ≡ me }
        requires members { proposer.now.state.members ≡ members }
        requires learner_members { learner.now.state.members ≡ members }
        requires floor { learner.now.state.learner.floor ≡ floor_in acceptor.now.rows.snapshot }
        requires length { length (first_learned applied learner.now.state.learner.learned) ≡ applied }
        requires begins { Begins (floor_in acceptor.now.rows.snapshot) (first_learned applied learner.now.state.learner.learned) learner.now.state.learner.learned }
        requires within { floor_in acceptor.now.rows.snapshot + applied < 2 ^ 40 }
        ensures { result ≡ whole me members acceptor.now.rows proposer.now.state.proposer learner.now.state.learner
            (first_learned applied learner.now.state.learner.learned) pending.now taken }
    {
        Parts {
            me,
            members,
            acceptor,
            proposer,
            learner,
            applied,
            pending,
            taken,
        }
    }

    // Returns the node's number.
    pub(crate) fn me(&self) -> u8
        ensures { result ≡ self.now.me }
    {
        self.me
    }

    // Returns the members.
    pub(crate) fn members(&self) -> Members
        ensures { result ≡ self.now.members }
    {
        self.members
    }

    // Returns how often the node was started.
    pub(crate) fn boot(&self) -> u64
        ensures { result ≡ self.now.state.rows.boot }
    {
        self.acceptor.boot()
    }

    // Returns the greatest ballot that the node has promised, if any.
    pub(crate) fn promised(&self) -> Option<Ballot>
        ensures { result ≡ self.now.state.rows.promised }
    {
        self.acceptor.promised()
    }

    // Returns its floor, up to which its snapshot gives the log.
    pub(crate) fn floor(&self) -> Floor
        ensures { result ≡ floor_in self.now.state.rows.snapshot }
    {
        self.acceptor.floor()
    }

    // Returns its snapshot, if that gives the slot with this number.
    pub(crate) fn gives(&self, slot: u64) -> Option<&'a Snapshot>
        ensures { option_copied result ≡ given_by self.now.state.rows.snapshot slot }
    {
        self.acceptor.gives(slot)
    }

    // Returns its proposer.
    pub(crate) fn proposer(&self) -> &'a Proposer<B>
        ensures { result.now.state ≡ proposer_of self.now.me self.now.members self.now.state }
    {
        self.proposer
    }

    // Returns its learner.
    pub(crate) fn learner(&self) -> &'a Learner<B>
        ensures { result.now.state ≡ learner_of self.now.members self.now.state }
    {
        self.learner
    }

    // Returns the length of its log.
    pub(crate) fn applied(&self) -> u64
        ensures length { result ≡ log_length self.now.state }
        ensures within { result < 2 ^ 40 }
    {
        self.acceptor.floor().get() + self.applied as u64
    }

    // What it learned above its floor begins with its log there.
    pub(crate) fn begins(&self)
        ensures floor { self.now.state.learner.floor ≡ floor_in self.now.state.rows.snapshot }
        ensures begins { Begins (floor_in self.now.state.rows.snapshot) self.now.state.applied self.now.state.learner.learned }
    {
        let _ = &self.learner;
    }

    // Returns the entries that wait for a slot.
    pub(crate) fn pending(&self) -> &'a [Entry<B>]
        ensures { result.now ≡ self.now.state.pending }
    {
        self.pending
    }

    // Begins planning on its proposer, with nothing to be done.
    pub(crate) fn proposing(&self, alloc: Global) -> Proposing<'a, B>
        ensures before { result.before ≡ proposer_of self.now.me self.now.members self.now.state }
        ensures moves { result.moves ≡ [] }
    {
        Proposing::of(alloc, self.proposer)
    }

    // Begins planning on its learner, with nothing to hear.
    pub(crate) fn hearing(&self, alloc: Global) -> Hearing<'a, B>
        ensures before { result.before ≡ learner_of self.now.members self.now.state }
        ensures news { result.news ≡ [] }
    {
        Hearing::of(alloc, self.learner)
    }
}

impl<'a, B: Body> Parts<'a, B> {
    /// Returns whether the packet brings another entry than the one that was learned in its slot: a vote for it that is cast or that makes a
    /// majority, or a report of it; or whether the node, as a leader, votes for another because of it. Does not allocate.
    pub fn brings_other(&self, sender: u8, kind: &Kind<B>) -> bool
        ensures { result ≡ brings_other B.same self.now.members self.now.me sender kind.now self.now.state }
    {
        match kind {
            Kind::Accept { vote } => self.casts_other(vote),
            Kind::Accepted { vote } => self.learner().vote_disagrees(sender, vote),
            Kind::Learned { slot, entry } => self.learner().disagrees(*slot, entry),
            Kind::Promise {
                ballot,
                floor,
                votes,
            } => self.promise_other(sender, *ballot, *floor, votes),
            Kind::Forward { entries } => self.proposes_other(entries.as_slice()),
            Kind::Prepare { .. } | Kind::Nack { .. } | Kind::Ask { .. } | Kind::Snapshot { .. } =>
                false,
        }
    }

    // Returns whether it casts this vote, and that disagrees with what was learned.
    fn casts_other(&self, vote: &Vote<B>) -> bool
        ensures { result ≡ (may_accept self.now.state.rows.promised vote.now.ballot && (is_none (given_by self.now.state.rows.snapshot vote.now.slot)
            && vote_disagrees B.same self.now.members self.now.me vote.now self.now.state.learner)) }
    {
        may_accept(self.promised(), vote.ballot)
            && self.gives(vote.slot.get()).is_none()
            && self.learner().vote_disagrees(self.me(), vote)
    }

    // Copies its votes from the slot with this number on.
    pub(crate) fn votes_from(&self, first: u64) -> Result<Votes<B>, Memory>
        ensures { IfOk result (λ votes. votes ≡ votes_from first self.now.state.rows.votes) }
    {
        let Ok(votes) = self.acceptor.votes_from(first) else {
            return Err(Memory);
        };
        Ok(votes)
    }
}
