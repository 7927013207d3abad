// A node that votes twice in one slot in a round, in two ballots, and promises the second one between them.
use crate::carrying::at;
use crate::check::Check;
use crate::counting::{ALL, Asked, Counting, Failing, NONE_FAILS, Script, Sum, goes};
use crate::hearing::Heard;
use crate::trial::{Trial, tried_by_rounds};
use paxos_packets::{Ballot, Rows, Slot};
use std::alloc::Global;
use std::process::Abort;
use test_checks::check;
use test_machines::{Count, Number};
use test_stands::{again, close_left};

const FIRST: Ballot = Ballot { round: 1, node: 2 };

const SECOND: Ballot = Ballot { round: 2, node: 3 };

// Nodes 2 and 3 are of one mind about the first ballot, of node 2, and then about the second one, of node 3. The boxes to node 1 are full
// meanwhile: of the Prepare of node 2, and of what node 3 asks for. So all else for node 1 waits until it has taken these: the Accept of the
// first ballot from node 2, and the Prepare and the Accepts of the second one from node 3.
const BEFORE: Script = &[
    (2, Asked::Start),
    (2, Asked::Turn),
    (3, Asked::Tick),
    (3, Asked::Turn),
    (2, Asked::Turn),
    (3, Asked::Start),
    (3, Asked::Turn),
    (2, Asked::Turn),
    (3, Asked::Turn),
    (1, Asked::Turn),
    (2, Asked::Turn),
    (3, Asked::Turn),
];

// The round: node 1 looks into the box of node 2 first.
const ROUND: Script = &[(1, Asked::Turn)];

const AFTER: Script = &[ALL];

// The ballot of the vote in slot 1.
fn voted(rows: &Rows<Number>) -> Option<Ballot> {
    let vote = rows.votes.find(Slot::new(1)?)?;
    Some(vote.ballot)
}

// What node 1 has of slot 1 and of promises: before the round, or after it.
type Kept = (Option<Ballot>, Ballot);

const OLD: Kept = (None, FIRST);

const NEW: Kept = (Some(SECOND), SECOND);

// Node 1 goes down with the first of these, and begins again with the second one.
fn crashes_with(
    rt: &impl Abort,
    alloc: Global,
    first: Counting<'_>,
    left_with: Kept,
    begins: Kept,
) {
    let (left, keeper) = first.crash();
    let (vote, promise) = left_with;
    let found = match left.rows() {
        Some(rows) => (voted(rows), rows.promised),
        None => (None, None),
    };
    check!(rt; found == (vote, Some(promise)));
    let begun = left.restart(alloc, Count::new(alloc), keeper.reopen());
    let actor = again(begun).expect(rt, "an actor");
    let promised = actor.promised();
    let (left, keeper) = actor.crash();
    let vote = match left.rows() {
        Some(rows) => voted(rows),
        None => None,
    };
    close_left(left);
    drop(keeper);
    let (wanted, promise) = begins;
    check!(rt; vote == wanted && promised == Some(promise));
}

/// How the commit of the round ends: it is made, or it fails and leaves the rows of before, or those after the round.
#[derive(Clone, Copy, PartialEq, Eq)]
pub enum Ends {
    Made,
    Old,
    New,
}

// Returns what node 1 has after the round, and after its restart.
const fn kept_after(ends: Ends) -> (Kept, Kept) {
    match ends {
        Ends::Made => (NEW, NEW),
        Ends::Old => (OLD, OLD),
        Ends::New => (OLD, NEW),
    }
}

fn runs(rt: &impl Abort, actors: &mut [Counting<'_>], heard: &mut Heard<Sum>, ends: Ends) {
    goes(rt, actors, heard, BEFORE);
    check!(rt; heard.faults.is_empty());
    check!(rt; at(rt, actors, 1).promised() == Some(FIRST));
    goes(rt, actors, heard, ROUND);
    if ends == Ends::Made {
        check!(rt; at(rt, actors, 1).promised() == Some(SECOND));
        goes(rt, actors, heard, AFTER);
        check!(rt; heard.faults.is_empty());
    } else {
        check!(rt; at(rt, actors, 1).promised() == Some(FIRST));
        check!(rt; heard.faults.first() == Some(&(1, 61)) && heard.faults.len() == 1);
    }
}

/// Node 1 votes in slot 1 in the first ballot and then in the second one, in one round. If its commit fails, neither vote stands, nor the promise
/// between them, or all of them do.
pub fn votes_twice(rt: &impl Abort, alloc: Global, actors: &mut Vec<Counting<'_>>, ends: Ends) {
    let mut heard = Heard::nothing(alloc);
    runs(rt, actors.as_mut_slice(), &mut heard, ends);
    drop(heard);
    let first = actors.pop().expect(rt, "a node");
    let (left_with, begins) = kept_after(ends);
    crashes_with(rt, alloc, first, left_with, begins);
}

// The commit of node 1 that has both votes in slot 1: after its first promise.
fn second_commit_fails(after: bool) -> Failing {
    Failing {
        node: 1,
        k: 2,
        after,
    }
}

#[test]
fn a_round_votes_twice_in_a_slot(rt: HostRuntime) {
    let ends = Ends::Made;
    tried_by_rounds(&rt, rt.alloc(), &NONE_FAILS, Trial::VotesTwice { ends });
}

#[test]
fn neither_of_two_votes_stands_if_their_commit_left_the_old_rows(rt: HostRuntime) {
    let ends = Ends::Old;
    tried_by_rounds(
        &rt,
        rt.alloc(),
        &second_commit_fails(false),
        Trial::VotesTwice { ends },
    );
}

#[test]
fn both_votes_stand_if_their_commit_left_the_new_rows(rt: HostRuntime) {
    let ends = Ends::New;
    tried_by_rounds(
        &rt,
        rt.alloc(),
        &second_commit_fails(true),
        Trial::VotesTwice { ends },
    );
}
