//! What an event makes of a node, so far.

ghost use Rattle.std.specs.Prelude.{◌≡◌, ◌<◌, ◌^◌, suc, None, List, ◌∷◌, [], ◌++◌, length, map, OnOk, IfOk, option_copied};
ghost use Rattle.paxos_packets.specs.Packet.{packet, to_others};
ghost use Rattle.paxos_packets.specs.Vote.{put_vote, put_votes, votes_from};
ghost use Rattle.paxos_packets.specs.declared.vote.Vote.{Vote};
ghost use Rattle.paxos_learner.specs.Hearing.{after, hear_all};
ghost use Rattle.paxos_learner.specs.Learned.{Begins, Rises};
ghost use Rattle.paxos_learner.specs.Learner.{run_from, learn, count_vote, disagrees, vote_disagrees};
ghost use Rattle.paxos_packets.specs.Snapshot.{floor_in};
ghost use Rattle.paxos_acceptor.specs.Acceptor.{may_promise, may_accept, given_by};
ghost use Rattle.paxos_proposer.specs.Moves.{ArePossible};
ghost use Rattle.paxos_proposer.specs.Proposer.{is_leading};
ghost use Rattle.paxos_planning.specs.Node.{log_length};
ghost use Rattle.paxos_planning.specs.Parts.{proposer_of, learner_of};
ghost use Rattle.paxos_planning.specs.Drafting.{known, with_pending_entry, and_kept, plan_with_effects};
ghost use Rattle.paxos_planning.specs.Plan.{begun, send, promise, vote, count, hear_learned, cast};

use crate::effects::Effects;
use crate::parts::Parts;
use paxos_learner::Hearing;
use paxos_packets::{
    Ballot, Body, Change, Entries, Entry, Floor, Kind, Memory, Packet, Slot, Snapshot, Vote, Votes,
};
use paxos_proposer::Proposing;
use std::alloc::Global;
use std::marker::Model;

/// A node by reference, and what an event makes of it so far: what it commits and sends, what is done to its proposer, what its learner
/// hears, and the entry that becomes pending. After a fault its content is unspecified, and the event is planned no further.
#[derive(Drop)]
pub struct Draft<'a, B> {
    pub(crate) alloc: Global,
    pub(crate) node: Parts<'a, B>,
    pub(crate) added: Option<&'a Entry<B>>,
    pub(crate) change: Change<B>,
    pub(crate) packets: Vec<Packet<B>>,
    pub(crate) proposing: Proposing<'a, B>,
    pub(crate) hearing: Hearing<'a, B>,
    pub(crate) disagrees: bool,
}

impl<'a, B> Model for Draft<'a, B> {
    ghost use Rattle.std.specs.Prelude.{◌≡◌, None, [], option_copied};
    ghost use Rattle.paxos_acceptor.specs.Acceptor.{adopted};
    ghost use Rattle.paxos_learner.specs.Hearing as to_hear;
    ghost use Rattle.paxos_proposer.specs.Proposing as to_do;
    ghost use Rattle.paxos_planning.specs.Parts.{proposer_of, learner_of, pending_with, counted_with};
    ghost use Rattle.paxos_planning.specs.Drafting.{Drafted};

    ghost Value = { Drafted B };

    ghost view = { λ d. record {
      of = record { me = d.node.me; members = d.node.members; state = d.node.state; added = option_copied d.added };
      plan = record {
        node = record {
          rows = adopted d.node.state.rows d.change;
          up = d.node.state.up;
          proposer = (to_do.after d.proposing).proposer;
          learner = (to_hear.after d.hearing).learner;
          applied = d.node.state.applied;
          pending = pending_with (option_copied d.added) d.node.state.pending;
          taken = counted_with (option_copied d.added) d.node.state.taken;
        };
        change = d.change;
        packets = d.packets.items;
        applied = [];
        disagrees = d.disagrees;
      };
    } };

    ghost invariant = { λ d. (d.proposing.before ≡ proposer_of d.node.me d.node.members d.node.state)
        × (d.hearing.before ≡ learner_of d.node.members d.node.state) × (d.change.snapshot ≡ None) };
}

impl<'a, B> Draft<'a, B> {
    /// Begins a plan in which nothing happened yet, and this entry becomes pending. Does not allocate; the other calls will, from `alloc`.
    pub fn of(alloc: Global, node: Parts<'a, B>, added: Option<&'a Entry<B>>) -> Draft<'a, B>
        ensures of { result.of ≡ known node.entry.me node.entry.members node.entry.state (option_copied added.entry) }
        ensures plan { result.plan ≡ begun (with_pending_entry (option_copied added.entry) node.entry.state) }
    {
        let proposing = node.proposing(alloc);
        let hearing = node.hearing(alloc);
        Draft {
            alloc,
            node,
            added,
            change: Change::none(alloc),
            packets: Vec::new(alloc),
            proposing,
            hearing,
            disagrees: false,
        }
    }

    // Returns where its memory comes from.
    pub(crate) fn alloc(&self) -> Global {
        self.alloc
    }

    /// Returns the number of the node whose event it is.
    pub fn me(&self) -> u8
        ensures { result ≡ self.now.of.me }
    {
        self.node.me()
    }

    /// Returns how often its node was started.
    pub fn boot(&self) -> u64
        ensures { result ≡ self.now.of.state.rows.boot }
    {
        self.node.boot()
    }

    /// What its node learned above its floor begins with its log there.
    pub fn begins(&self)
        ensures floor { self.now.of.state.learner.floor ≡ floor_in self.now.of.state.rows.snapshot }
        ensures begins { Begins (floor_in self.now.of.state.rows.snapshot) self.now.of.state.applied self.now.of.state.learner.learned }
    {
        self.node.begins();
    }

    /// Returns whether it heard another entry for a slot that it had learned.
    pub fn disagrees(&self) -> bool
        ensures { result ≡ self.now.plan.disagrees }
    {
        self.disagrees
    }

    /// Returns the length of its log.
    pub fn applied(&self) -> u64
        ensures length { result ≡ log_length self.now.of.state }
        ensures plan { result ≡ log_length self.now.plan.node }
        ensures within { result < 2 ^ 40 }
    {
        self.node.applied()
    }

    // Returns whether it would lead.
    pub(crate) fn is_leading(&self) -> bool
        ensures { result ≡ is_leading self.now.plan.node.proposer.role }
    {
        self.proposing.is_leading()
    }

    // Returns what it promised: now, or else before.
    pub(crate) fn promised(&self) -> Option<Ballot>
        ensures { result ≡ self.now.plan.node.rows.promised }
    {
        self.change.promised.or(self.node.promised())
    }

    // Returns its floor, up to which its snapshot gives the log.
    pub(crate) fn floor(&self) -> Floor
        ensures { result ≡ floor_in self.now.plan.node.rows.snapshot }
    {
        self.node.floor()
    }

    // Returns its snapshot, if that gives the slot with this number.
    pub(crate) fn gives(&self, slot: u64) -> Option<&'a Snapshot>
        ensures { option_copied result ≡ given_by self.now.plan.node.rows.snapshot slot }
    {
        self.node.gives(slot)
    }

    // Returns whether the ballot may be promised.
    pub(crate) fn may_promise(&self, ballot: Ballot) -> bool
        ensures { result ≡ may_promise self.now.plan.node.rows.promised ballot }
    {
        match self.promised() {
            Some(promised) => promised.is_below(&ballot),
            None => true,
        }
    }

    // Returns whether a vote in the ballot may be cast.
    pub(crate) fn may_accept(&self, ballot: Ballot) -> bool
        ensures { result ≡ may_accept self.now.plan.node.rows.promised ballot }
    {
        may_accept(self.promised(), ballot)
    }
}

impl<'a, B: Drop> Draft<'a, B> {
    /// Returns all that the event does.
    pub fn into_effects(self) -> Effects<B>
        ensures plan { self.entry.plan ≡ plan_with_effects self.entry.of self.entry.plan.disagrees result }
        ensures moves { ArePossible result.moves.items (proposer_of self.entry.of.me self.entry.of.members self.entry.of.state) }
        ensures plain { result.change.snapshot ≡ None }
        ensures rises { Rises self.entry.of.state.learner.floor
            (hear_all result.news.items (learner_of self.entry.of.members self.entry.of.state)).learner.learned }
    {
        let Draft {
            change,
            packets,
            proposing,
            hearing,
            ..
        } = self;
        Effects {
            change,
            packets,
            moves: proposing.into_moves(),
            news: hearing.into_news(),
        }
    }
}

impl<'a, B: Body> Draft<'a, B> {
    /// Copies what would be learned after its log, up to the first slot that would have nothing.
    pub fn run(&self) -> Result<Entries<B>, Memory>
        ensures { IfOk result (λ run. run ≡ run_from (suc (log_length self.now.of.state)) self.now.plan.node.learner.learned) }
    {
        let Ok(run) = self.hearing.run_after(self.node.applied()) else {
            return Err(Memory);
        };
        Ok(run)
    }

    // Promises the ballot, which may end its own.
    pub(crate) fn promise(&mut self, ballot: Ballot) -> Result<(), Memory>
        ensures of { self.new.of ≡ self.old.of }
        ensures plan { OnOk result (self.new.plan ≡ promise ballot self.old.plan) }
    {
        let Ok(()) = self.proposing.step_down(ballot) else {
            return Err(Memory);
        };
        self.change.promised = Some(ballot);
        Ok(())
    }

    // Commits the vote, in its slot.
    fn keep(&mut self, voted: &Vote<B>) -> Result<(), Memory>
        ensures of { self.new.of ≡ self.old.of }
        ensures plan { OnOk result (self.new.plan ≡ and_kept voted.now self.old.plan) }
    {
        put_copy(self.alloc, &mut self.change.votes, voted)?;
        Ok(())
    }

    // Votes, which may end its own ballot.
    fn vote(&mut self, voted: &Vote<B>) -> Result<(), Memory>
        ensures of { self.new.of ≡ self.old.of }
        ensures plan { OnOk result (self.new.plan ≡ vote voted.now self.old.plan) }
    {
        self.promise(voted.ballot)?;
        self.keep(voted)?;
        Ok(())
    }

    // Counts a member's vote.
    pub(crate) fn count(&mut self, node: u8, vote: &Vote<B>) -> Result<(), Memory>
        ensures of { self.new.of ≡ self.old.of }
        ensures plan { OnOk result (self.new.plan ≡ count B.same self.old.of.members node vote.now self.old.plan) }
    {
        let other = count_in(&mut self.hearing, node, vote)?;
        self.disagrees = self.disagrees || other;
        Ok(())
    }

    // Hears what a slot holds.
    pub(crate) fn hear_learned(&mut self, slot: Slot, entry: &Entry<B>) -> Result<(), Memory>
        ensures of { self.new.of ≡ self.old.of }
        ensures plan { OnOk result (self.new.plan ≡ hear_learned B.same slot entry.now self.old.plan) }
    {
        let other = tell_in(&mut self.hearing, slot, entry)?;
        self.disagrees = self.disagrees || other;
        Ok(())
    }

    // Sends this to the member.
    pub(crate) fn send_to(&mut self, kind: Kind<B>, addressee: u8) -> Result<(), Memory>
        ensures of { self.new.of ≡ self.old.of }
        ensures plan { OnOk result (self.new.plan ≡ send (packet self.old.of.me kind addressee ∷ []) self.old.plan) }
    {
        let Ok(()) = self.packets.reserve(1) else {
            return Err(Memory);
        };
        self.packets.push_reserved(Packet {
            sender: self.node.me(),
            addressee,
            kind,
        });
        Ok(())
    }

    // Sends this to each other member.
    pub(crate) fn send_to_others(&mut self, kind: &Kind<B>) -> Result<(), Memory>
        ensures of { self.new.of ≡ self.old.of }
        ensures plan { OnOk result (self.new.plan ≡ send (to_others self.old.of.members self.old.of.me kind.now) self.old.plan) }
    {
        let me = self.node.me();
        let others = self.node.members().others(me);
        put_to_each(self.alloc, &mut self.packets, me, others.as_slice(), kind)?;
        Ok(())
    }

    // Casts a vote: it is committed, counted, and sent to the others.
    pub(crate) fn cast(&mut self, vote: &Vote<B>) -> Result<(), Memory>
        ensures of { self.new.of ≡ self.old.of }
        ensures plan { OnOk result (self.new.plan ≡ cast B.same self.old.of.members self.old.of.me vote.now self.old.plan) }
    {
        let Ok(copy) = vote.copy(self.alloc()) else {
            return Err(Memory);
        };
        let me = self.me();
        self.vote(vote)?;
        self.count(me, vote)?;
        self.send_to_others(&Kind::Accepted { vote: copy })?;
        Ok(())
    }

    // Copies its votes from the slot on, given that none is new.
    pub(crate) fn votes_from(&self, first: u64) -> Result<Votes<B>, Memory>
        requires { self.now.plan.change.votes ≡ [] }
        ensures votes { IfOk result (λ votes. votes ≡ votes_from first self.now.plan.node.rows.votes) }
    {
        self.node.votes_from(first)
    }
}

// Returns whether a vote in the ballot may be cast after this promise.
pub(crate) fn may_accept(promised: Option<Ballot>, ballot: Ballot) -> bool
    ensures { result ≡ may_accept promised ballot }
{
    match promised {
        Some(promised) => !ballot.is_below(&promised),
        None => true,
    }
}

// Appends this as a packet of the node to each of the others.
pub(crate) fn put_to_each<B: Body>(
    alloc: Global,
    packets: &mut Vec<Packet<B>>,
    me: u8,
    others: &[u8],
    kind: &Kind<B>,
) -> Result<(), Memory>
    ensures ok { OnOk result (packets.new.items ≡ packets.old.items ++ map (packet me kind.now) others.now) }
{
    for other in others {
        let Ok(copy) = kind.copy(alloc) else {
            return Err(Memory);
        };
        let Ok(()) = packets.reserve(1) else {
            return Err(Memory);
        };
        packets.push_reserved(Packet {
            sender: me,
            addressee: *other,
            kind: copy,
        });
    }
    Ok(())
}

// Puts a copy of the vote among those that are committed.
fn put_copy<B: Body>(alloc: Global, votes: &mut Votes<B>, vote: &Vote<B>) -> Result<(), Memory>
    ensures ok { OnOk result (votes.new ≡ put_vote vote.now votes.old) }
    ensures rows { OnOk result ((rows : List (Vote B)) → put_votes votes.new rows ≡ put_vote vote.now (put_votes votes.old rows)) }
{
    let _before = votes.as_slice().len();
    let Ok(copy) = vote.copy(alloc) else {
        return Err(Memory);
    };
    let Ok(()) = votes.put(copy) else {
        return Err(Memory);
    };
    Ok(())
}

// Plans hearing a member's vote. Returns whether another entry would be learned in its slot.
fn count_in<'a, B: Body>(
    hearing: &mut Hearing<'a, B>,
    node: u8,
    vote: &Vote<B>,
) -> Result<bool, Memory>
    ensures before { hearing.new.before ≡ hearing.old.before }
    ensures learner { OnOk result ((after hearing.new).learner
        ≡ count_vote hearing.old.before.members node vote.now (after hearing.old).learner) }
    ensures other { IfOk result (λ other. other
        ≡ vote_disagrees B.same hearing.old.before.members node vote.now (after hearing.old).learner) }
{
    let Ok(other) = hearing.vote(node, vote) else {
        return Err(Memory);
    };
    Ok(other)
}

// Plans hearing what a member learned. Returns whether another entry would be learned in the slot.
fn tell_in<'a, B: Body>(
    hearing: &mut Hearing<'a, B>,
    slot: Slot,
    entry: &Entry<B>,
) -> Result<bool, Memory>
    ensures before { hearing.new.before ≡ hearing.old.before }
    ensures learner { OnOk result ((after hearing.new).learner ≡ learn slot entry.now (after hearing.old).learner) }
    ensures other { IfOk result (λ other. other ≡ disagrees B.same slot entry.now (after hearing.old).learner) }
{
    let Ok(other) = hearing.tell(slot, entry) else {
        return Err(Memory);
    };
    Ok(other)
}
