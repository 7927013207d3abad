// An actor whose store fails in a round, and which is restarted.
use crate::carrying::at;
use crate::check::Check;
use crate::counting::{Asked, Counting, Failing, Sum, fault_at};
use crate::crashing::{goes_on, restart_second};
use crate::hearing::Heard;
use crate::round_acts::{Acts, OneRound};
use crate::trial::{Trial, tried_by_rounds};
use paxos_packets::Ballot;
use std::alloc::Global;
use std::process::Abort;
use test_checks::{check, check_eq};

const FIRST: Ballot = Ballot { round: 1, node: 1 };

// Node 2 takes 5 and 6 in the round to which the Prepare of node 1 comes, whose commit fails. Neither act is made, and no promise; nothing is said
// or posted, and the actor has ended.
fn fails_in_round(rt: &impl Abort, actors: &mut [Counting<'_>]) {
    check_eq!(rt; fault_at(rt, actors, 1, Asked::Start), 0);
    check_eq!(rt; fault_at(rt, actors, 1, Asked::Turn), 0);
    let mut acts = Acts::of(2, &[5, 6]);
    let second = at(rt, actors, 2);
    check_eq!(rt; second.run_rounds(&OneRound, &mut acts), 61);
    check_eq!(rt; acts.counts(), (2, 0));
    check_eq!(rt; (second.pending_entries(), second.has_posted()), (0, false));
    check!(rt; second.promised().is_none());
    for asked in [Asked::Turn, Asked::Tick] {
        check_eq!(rt; fault_at(rt, actors, 2, asked), 71);
    }
}

fn runs(
    rt: &impl Abort,
    alloc: Global,
    actors: &mut Vec<Counting<'_>>,
    heard: &mut Heard<Sum>,
    after: bool,
) {
    fails_in_round(rt, actors.as_mut_slice());
    check!(rt; restart_second(alloc, actors));
    let second = at(rt, actors.as_mut_slice(), 2);
    let promised = if after { Some(FIRST) } else { None };
    check!(rt; second.promised() == promised);
    check_eq!(rt; second.pending_entries(), 1);
    goes_on(rt, actors.as_mut_slice(), heard);
}

/// An actor whose store fails in a round of two acts and a Prepare goes on with what that left: the rows of before, or those with the promise.
pub fn outlives_round(rt: &impl Abort, alloc: Global, actors: &mut Vec<Counting<'_>>, after: bool) {
    let mut heard = Heard::nothing(alloc);
    runs(rt, alloc, actors, &mut heard, after);
    drop(heard);
}

fn tries(rt: &impl Abort, alloc: Global, after: bool) {
    let failing = Failing {
        node: 2,
        k: 1,
        after,
    };
    tried_by_rounds(rt, alloc, &failing, Trial::OutlivesRound { after });
    tried_by_rounds(rt, alloc, &failing, Trial::Outlives);
}

#[test]
fn an_actor_outlives_a_round_that_left_the_old_rows(rt: HostRuntime) {
    tries(&rt, rt.alloc(), false);
}

#[test]
fn an_actor_outlives_a_round_that_left_the_new_rows(rt: HostRuntime) {
    tries(&rt, rt.alloc(), true);
}
