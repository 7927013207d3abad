// The moves of a proposer, and how they are made in room that was taken before.
ghost use Rattle.std.specs.Prelude.{◌≡◌, ◌≤◌, ◌+◌, OnOk, IsOkUnless, if◌then◌else◌};
ghost use Rattle.paxos_proposer.specs.declared.fault.ProposerFault.TheVariants.{Memory};
ghost use Rattle.paxos_proposer.specs.Moves.{after_move, after_moves, IsPossible, ArePossible, keeps_promise, keeps_proposal};
ghost use Rattle.paxos_proposer.specs.Moves.{promises_in, proposals_in};
ghost use Rattle.paxos_proposer.specs.State.{HasRoom};

use crate::fault::ProposerFault;
use crate::proposer::Proposer;
use paxos_packets::{Ballot, Entry, Floor, Votes};

/// One change of a proposer, by the call that makes it.
#[derive(Debug, Drop)]
pub enum Move<B> {
    /// `saw`.
    Saw {
        round: u64,
    },
    /// `start`.
    Started {
        first: u64,
        floor: Floor,
        votes: Votes<B>,
    },
    /// `on_promise`.
    Promised {
        node: u8,
        ballot: Ballot,
        floor: Floor,
        votes: Votes<B>,
        own: Floor,
    },
    /// `on_nack`.
    Nacked {
        ballot: Ballot,
        promised: Ballot,
    },
    /// `step_down`.
    SteppedDown {
        ballot: Ballot,
    },
    /// `submit`.
    Submitted {
        entry: Entry<B>,
    },
    /// `raise_above`.
    Raised {
        floor: Floor,
    },
}

impl<B: Drop> Proposer<B> {
    /// Reserves the memory that these moves need. The proposer stays as it was, with `Memory` too. Takes a number of steps that grows with
    /// the moves.
    pub fn make_room_for(&mut self, moves: &[Move<B>]) -> Result<(), ProposerFault>
        ensures state { self.new.state ≡ self.old.state }
        ensures ok { OnOk result (HasRoom (promises_in moves.now) (proposals_in moves.now) self.new.room) }
        ensures memory { IsOkUnless result Memory }
    {
        let promises = moves.iter().filter(|step| keeps_promise(*step)).count();
        let proposals = moves.iter().filter(|step| keeps_proposal(*step)).count();
        self.make_room(promises, proposals)
    }

    /// Makes these moves in order, given that each is possible when its turn comes, and room for all of them. Does not allocate.
    pub fn move_in_room(&mut self, moves: Vec<Move<B>>)
        requires possible { ArePossible moves.items self.old.state }
        requires room { HasRoom (promises_in moves.items) (proposals_in moves.items) self.old.room }
        ensures { self.new.state ≡ after_moves moves.items self.old.state }
    {
        do_all(self, moves);
    }
}

fn keeps_promise<B>(step: &Move<B>) -> bool
    ensures { result ≡ keeps_promise step.now }
{
    match step {
        Move::Started { .. } | Move::Promised { .. } => true,
        Move::Saw { .. }
        | Move::Nacked { .. }
        | Move::SteppedDown { .. }
        | Move::Submitted { .. }
        | Move::Raised { .. } => false,
    }
}

fn keeps_proposal<B>(step: &Move<B>) -> bool
    ensures { result ≡ keeps_proposal step.now }
{
    match step {
        Move::Submitted { .. } => true,
        Move::Saw { .. }
        | Move::Started { .. }
        | Move::Promised { .. }
        | Move::Nacked { .. }
        | Move::SteppedDown { .. }
        | Move::Raised { .. } => false,
    }
}

fn do_all<B: Drop>(proposer: &mut Proposer<B>, moves: Vec<Move<B>>)
    requires possible { ArePossible moves.items proposer.old.state }
    requires room { HasRoom (promises_in moves.items) (proposals_in moves.items) proposer.old.room }
    ensures { proposer.new.state ≡ after_moves moves.items proposer.old.state }
{
    for step in moves {
        do_one(proposer, step);
    }
}

fn do_one<B: Drop>(proposer: &mut Proposer<B>, step: Move<B>)
    requires possible { IsPossible step proposer.old.state }
    requires promise { (if keeps_promise step then 1 else 0) ≤ proposer.old.room.promises }
    requires proposal { (if keeps_proposal step then 1 else 0) ≤ proposer.old.room.proposals }
    ensures state { proposer.new.state ≡ after_move step proposer.old.state }
    ensures promises { proposer.old.room.promises ≤ proposer.new.room.promises + (if keeps_promise step then 1 else 0) }
    ensures proposals { proposer.old.room.proposals ≤ proposer.new.room.proposals + (if keeps_proposal step then 1 else 0) }
{
    match step {
        Move::Saw { round } => proposer.saw(round),
        Move::Started {
            first,
            floor,
            votes,
        } => proposer.start_in_room(first, floor, votes),
        Move::Promised {
            node,
            ballot,
            floor,
            votes,
            own,
        } => proposer.on_promise_in_room(node, ballot, floor, votes, own),
        Move::Nacked { ballot, promised } => proposer.on_nack(ballot, promised),
        Move::SteppedDown { ballot } => proposer.step_down(ballot),
        Move::Submitted { entry } => proposer.submit_in_room(entry),
        Move::Raised { floor } => proposer.raise_above(floor),
    }
}
