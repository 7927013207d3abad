//! How a node adopts an outcome: it makes room, commits the change, and goes on.

ghost use Rattle.std.specs.Prelude.{◌≡◌, ◌<◌, ◌≤◌, ◌+◌, ◌^◌, vec_len, vec_capacity, true, false, length, IfOk, OnOk, OnErr, IsOkUnless, Err};
ghost use Rattle.paxos_node.specs.declared.fault.NodeFault.TheVariants.{Memory};
ghost use Rattle.paxos_node.specs.Adopting.{adopted, rested, committed, moved_on, Fits};
ghost use Rattle.paxos_planning.specs.Node.{log_length};
ghost use Rattle.paxos_acceptor.specs.Ahead.{taken_back};
ghost use Rattle.paxos_node.specs.Applying.{down};
ghost use Rattle.paxos_node.specs.Held.{learner_in, HasRoom, CanGoOn};
ghost use Rattle.paxos_learner.specs.Hearing.{HasRoomFor};
ghost use Rattle.paxos_learner.specs.Learner.{KeepsRoom};
ghost use Rattle.paxos_proposer.specs.Moves.{promises_in, proposals_in};
ghost use Rattle.paxos_proposer.specs.State.{HasRoom as HasRoomToPropose};

use crate::fault::NodeFault;
use crate::moves::Moves;
use crate::node::Node;
use crate::outcome::Outcome;
use crate::packets::Packets;
use crate::snapshots::{rest, roll_at};
use crate::waiting::{apply_all, wait};
use paxos_acceptor::{Acceptor, Ahead};
use paxos_learner::Learner;
use paxos_packets::{Body, Change, Entries, Entry};
use paxos_proposer::Proposer;

impl<B: Body> Node<B> {
    /// Reserves all memory that adopting this outcome needs. The node stays as it was, with `Memory` too. A failed node returns `Memory`.
    pub fn make_room(&mut self, outcome: &Outcome<B>) -> Result<(), NodeFault>
        ensures ok { OnOk result (HasRoom outcome.now self.new) }
        ensures state { self.new.state ≡ self.old.state }
        ensures me { self.new.me ≡ self.old.me }
        ensures members { self.new.members ≡ self.old.members }
        ensures failed { self.new.failed ≡ self.old.failed }
        ensures memory { IsOkUnless result Memory }
    {
        if self.failed {
            return Err(NodeFault::Memory);
        }
        let Ok(()) = make_room_in(
            &mut self.acceptor,
            &mut self.proposer,
            &mut self.learner,
            &mut self.pending,
            outcome,
        ) else {
            return Err(NodeFault::Memory);
        };
        Ok(())
    }

    /// Becomes what was planned, once that is committed, given room for it, and that the node has not failed (`HasRoom` says both); returns
    /// the packets to send, and the entries that it applied. Does not allocate, and copies nothing.
    pub fn adopt_in_room(&mut self, outcome: Outcome<B>) -> (Packets<B>, Entries<B>)
        requires room { HasRoom outcome self.old }
        requires fits { Fits self.old.me self.old.members outcome self.old.state }
        ensures state { self.new.state ≡ adopted self.old.me self.old.members outcome self.old.state }
        ensures me { self.new.me ≡ self.old.me }
        ensures members { self.new.members ≡ self.old.members }
        ensures failed { self.new.failed ≡ self.old.failed }
        ensures packets { result.0 ≡ outcome.packets }
        ensures applied { result.1 ≡ outcome.applied }
    {
        let Outcome {
            change,
            packets,
            applied,
            is_down,
            moves,
        } = outcome;
        self.commit(change, moves.over);
        if is_down {
            self.go_down();
            return (packets, applied);
        }
        self.go_on(moves, applied.as_slice());
        (packets, applied)
    }

    /// Makes room, and adopts the outcome. On `Memory` the node is as it was, and failed: make it anew, by `of`, from the rows that are
    /// committed. A failed node returns `Memory`.
    pub fn adopt(&mut self, outcome: Outcome<B>) -> Result<(Packets<B>, Entries<B>), NodeFault>
        requires { Fits self.old.me self.old.members outcome self.old.state }
        ensures ok { OnOk result (self.new.state ≡ adopted self.old.me self.old.members outcome self.old.state) }
        ensures packets { IfOk result (λ sent. sent.0 ≡ outcome.packets) }
        ensures applied { IfOk result (λ sent. sent.1 ≡ outcome.applied) }
        ensures ok_failed { OnOk result (self.new.failed ≡ false) }
        ensures me { self.new.me ≡ self.old.me }
        ensures members { self.new.members ≡ self.old.members }
        ensures err { OnErr result (self.new.state ≡ self.old.state) }
        ensures err_failed { OnErr result (self.new.failed ≡ true) }
        ensures failed { self.old.failed ≡ true → result ≡ Err Memory }
        ensures memory { IsOkUnless result Memory }
    {
        let Ok(()) = self.make_room(&outcome) else {
            self.failed = true;
            return Err(NodeFault::Memory);
        };
        Ok(self.adopt_in_room(outcome))
    }

    /// Goes down, over the rows before all changes that were noted. Returns the sum of these. Does not allocate.
    pub fn go_back(&mut self, ahead: Ahead<B>) -> Change<B>
        ensures state { self.new.state ≡ down (taken_back ahead self.old.state.rows) }
        ensures me { self.new.me ≡ self.old.me }
        ensures members { self.new.members ≡ self.old.members }
        ensures failed { self.new.failed ≡ self.old.failed }
        ensures change { result ≡ ahead.change }
    {
        let change = self.acceptor.take_back(ahead);
        self.go_down();
        change
    }

    // Adopts the change that is committed; with a snapshot, which came in a packet or not, the node rests on that first.
    fn commit(&mut self, change: Change<B>, over: bool)
        requires votes { length change.votes ≤ self.old.room.votes }
        requires rises { self.old.state.learner.floor ≤ (rested over change.snapshot self.old.state).learner.floor }
        requires within { log_length (rested over change.snapshot self.old.state) < 2 ^ 40 }
        ensures state { self.new.state ≡ committed over change self.old.state }
        ensures me { self.new.me ≡ self.old.me }
        ensures members { self.new.members ≡ self.old.members }
        ensures failed { self.new.failed ≡ self.old.failed }
        ensures proposer { self.new.room.proposer ≡ self.old.room.proposer }
        ensures votes { self.old.room.learner.votes ≤ self.new.room.learner.votes }
        ensures places { KeepsRoom (learner_in self.old) (learner_in self.new) }
        ensures pending { self.old.room.pending ≤ self.new.room.pending }
    {
        if let Some(snapshot) = &change.snapshot {
            rest(
                &mut self.learner,
                &mut self.roll,
                &mut self.pending,
                snapshot,
                over,
            );
            self.applied = 0;
            self.front = 0;
        }
        self.acceptor.adopt_in_room(change);
    }

    // Does the moves, and applies the entries.
    fn go_on(&mut self, moves: Moves<B>, applied: &[Entry<B>])
        requires { CanGoOn moves applied.now self.old }
        ensures state { self.new.state ≡ moved_on self.old.me self.old.members moves applied.now self.old.state }
        ensures me { self.new.me ≡ self.old.me }
        ensures members { self.new.members ≡ self.old.members }
        ensures failed { self.new.failed ≡ self.old.failed }
    {
        let Moves {
            proposer,
            news,
            added,
            front,
            ..
        } = moves;
        self.proposer.move_in_room(proposer);
        self.learner.hear_in_room(news);
        wait(&mut self.pending, &mut self.taken, added);
        apply_all(&mut self.roll, &mut self.pending, applied);
        self.applied += applied.len();
        self.front = front;
    }

    // Drops all but its rows.
    #[tactic(auto, using(paxos_planning::proofs::Standing::no_front))]
    fn go_down(&mut self)
        ensures state { self.new.state ≡ down self.old.state.rows }
        ensures me { self.new.me ≡ self.old.me }
        ensures members { self.new.members ≡ self.old.members }
        ensures failed { self.new.failed ≡ self.old.failed }
    {
        self.is_up = false;
        self.proposer = Proposer::new(self.alloc, self.me, self.members);
        self.learner = Learner::new(self.alloc, self.members, self.acceptor.floor());
        self.applied = 0;
        self.roll = roll_at(self.acceptor.snapshot());
        self.pending.clear();
        self.front = 0;
        self.taken = 0;
    }
}

// Reserves memory for the outcome in each part.
fn make_room_in<B: Body>(
    acceptor: &mut Acceptor<B>,
    proposer: &mut Proposer<B>,
    learner: &mut Learner<B>,
    pending: &mut Vec<Entry<B>>,
    outcome: &Outcome<B>,
) -> Result<(), NodeFault>
    ensures votes { OnOk result (length outcome.now.change.votes ≤ acceptor.new.room) }
    ensures proposer { OnOk result (HasRoomToPropose (promises_in outcome.now.moves.proposer) (proposals_in outcome.now.moves.proposer) proposer.new.room) }
    ensures learner { OnOk result (HasRoomFor outcome.now.moves.news learner.new) }
    ensures pending { OnOk result (vec_len pending.new + 1 ≤ vec_capacity pending.new) }
    ensures rows { acceptor.new.rows ≡ acceptor.old.rows }
    ensures stands { acceptor.new.failed ≡ acceptor.old.failed }
    ensures moved { proposer.new.state ≡ proposer.old.state }
    ensures heard { learner.new.state ≡ learner.old.state }
    ensures items { pending.new.items ≡ pending.old.items }
{
    let votes = outcome.change.votes.as_slice().len();
    let Ok(()) = acceptor.make_room(votes) else {
        return Err(NodeFault::Memory);
    };
    let Ok(()) = proposer.make_room_for(&outcome.moves.proposer) else {
        return Err(NodeFault::Memory);
    };
    let Ok(()) = learner.make_room_for(&outcome.moves.news) else {
        return Err(NodeFault::Memory);
    };
    let Ok(()) = pending.reserve(1) else {
        return Err(NodeFault::Memory);
    };
    Ok(())
}
