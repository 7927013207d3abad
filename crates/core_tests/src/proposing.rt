// What is planned on a proposer: rounds seen, a ballot begun, and a proposal as a leader; and that what is planned is done.
ghost use Rattle.paxos_proposer.specs.Moves.{ArePossible};

use crate::check::Check;
use paxos_packets::{Ballot, Entry, Floor, Members, Votes};
use paxos_proposer::{Move, Proposer, Proposing};
use std::alloc::Global;
use std::process::Abort;
use test_checks::check;
use test_machines::Number;

const FIRST: Ballot = Ballot { round: 1, node: 1 };

// A round is seen, and refusals come to a proposer at rest; its next ballot.
fn see(rt: &impl Abort, draft: &mut Proposing<'_, Number>) -> Ballot {
    draft.saw(4).expect(rt, "room for a move");
    draft.step_down(FIRST).expect(rt, "room for a move");
    draft
        .on_nack(FIRST, Ballot { round: 2, node: 2 })
        .expect(rt, "room for a move");
    draft.next_ballot().expect(rt, "a next ballot")
}

// That ballot, and how much is to be done.
fn seen(rt: &impl Abort, alloc: Global, proposer: &Proposer<Number>) -> (Ballot, usize) {
    let mut draft = Proposing::of(alloc, proposer);
    let next = see(rt, &mut draft);
    (next, draft.into_moves().len())
}

// It begins its next ballot.
fn begun(rt: &impl Abort, alloc: Global, proposer: &Proposer<Number>) -> Vec<Move<Number>>
    ensures { ArePossible result.items proposer.now.state }
{
    let mut draft = Proposing::of(alloc, proposer);
    let Ok(_next) = draft.next_ballot() else {
        return draft.into_moves();
    };
    draft
        .start(1, Floor::none(), Votes::new(alloc))
        .expect(rt, "room for a move");
    draft.into_moves()
}

// Node 2 promises the ballot, and then an entry is proposed. Also how many entries the promises call for.
fn led(
    rt: &impl Abort,
    alloc: Global,
    proposer: &Proposer<Number>,
) -> (Vec<Move<Number>>, usize, bool)
    ensures { ArePossible result.0.items proposer.now.state }
{
    let mut draft = Proposing::of(alloc, proposer);
    let promised = draft
        .on_promise(2, FIRST, Floor::none(), Votes::new(alloc), Floor::none())
        .expect(rt, "room for a promise");
    let called = match promised {
        Some(entries) => entries.as_slice().len(),
        None => 9,
    };
    if let Some(_offer) = draft.offer() {
        draft.submit(&Entry::Noop).expect(rt, "room for a move");
    }
    let stands = draft.is_leading() && draft.stands(0, &Entry::Noop);
    (draft.into_moves(), called, stands)
}

// What is planned is done.
fn take(rt: &impl Abort, proposer: &mut Proposer<Number>, moves: Vec<Move<Number>>)
    requires { ArePossible moves.items proposer.old.state }
{
    proposer
        .make_room_for(&moves)
        .expect(rt, "room for the moves");
    proposer.move_in_room(moves);
}

fn proposer(rt: &impl Abort, alloc: Global) -> Proposer<Number> {
    let members = Members::new(3).expect(rt, "3 members");
    Proposer::new(alloc, 1, members)
}

fn is_seen(rt: &impl Abort, alloc: Global, proposer: &Proposer<Number>) {
    check!(rt; seen(rt, alloc, proposer) == (Ballot { round: 5, node: 1 }, 1));
    check!(rt; proposer.next_ballot() == Ok(FIRST));
}

#[test]
fn what_is_seen_is_planned(rt: HostRuntime) {
    let proposer = proposer(&rt, rt.alloc());
    is_seen(&rt, rt.alloc(), &proposer);
}

// It begins: how many moves that takes, and whether it had no ballot before.
fn begin(rt: &impl Abort, alloc: Global, proposer: &mut Proposer<Number>) -> (usize, bool) {
    let moves = begun(rt, alloc, proposer);
    let before = (moves.len(), proposer.ballot().is_none());
    take(rt, proposer, moves);
    before
}

// It leads: how many moves that takes, how many entries the promises call for, and whether the entry is in what is planned.
fn lead(rt: &impl Abort, alloc: Global, proposer: &mut Proposer<Number>) -> (usize, usize, bool) {
    let (moves, called, stands) = led(rt, alloc, proposer);
    let planned = (moves.len(), called, stands);
    take(rt, proposer, moves);
    planned
}

fn is_done(rt: &impl Abort, alloc: Global, proposer: &mut Proposer<Number>) {
    check!(rt; begin(rt, alloc, proposer) == (1, true));
    check!(rt; proposer.ballot() == Some(FIRST));
    check!(rt; lead(rt, alloc, proposer) == (2, 0, true));
    check!(rt; proposer.is_leading());
    check!(rt; proposer.stands(0, &Entry::Noop));
}

#[test]
fn what_is_planned_is_done(rt: HostRuntime) {
    let mut proposer = proposer(&rt, rt.alloc());
    is_done(&rt, rt.alloc(), &mut proposer);
}
