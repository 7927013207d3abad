// A leader whose store fails in a round of two acts, and which is restarted: both acts are in the logs in the end, or neither is.
use crate::carrying::{at, have_log};
use crate::check::Check;
use crate::counting::{ALL, Asked, Counting, Failing, Script, Sum, goes};
use crate::crashing::restarted;
use crate::hearing::{Heard, Told};
use crate::round_acts::{Acts, OneRound};
use crate::trial::{Trial, tried_by_rounds};
use std::alloc::Global;
use std::process::Abort;
use test_checks::{check, check_eq};

// Node 1 leads, at first and in its next boot.
const LEADING: Script = &[(1, Asked::Start), ALL];

// It takes 5 and 6 in a round, whose commit has its votes for both and fails. It goes down with its vote for its boot alone, and posts nothing.
fn fails_in_round(rt: &impl Abort, actors: &mut [Counting<'_>], heard: &mut Heard<Sum>) {
    goes(rt, actors, heard, LEADING);
    let mut acts = Acts::of(1, &[5, 6]);
    let first = at(rt, actors, 1);
    check_eq!(rt; first.run_rounds(&OneRound, &mut acts), 61);
    check_eq!(rt; acts.counts(), (2, 0));
    check_eq!(rt; (first.open_slots(), first.has_posted()), (1, false));
}

// Appends an item. Returns whether there is one, and memory for it.
fn put_back<T: Drop>(list: &mut Vec<T>, item: Option<T>) -> bool {
    let Some(item) = item else {
        return false;
    };
    match list.push(item) {
        Ok(()) => true,
        Err(left) => {
            drop(left);
            false
        }
    }
}

// Lets the first actor go on. Returns whether it does.
fn restart_first(alloc: Global, actors: &mut Vec<Counting<'_>>) -> bool {
    let Some(first) = actors.pop() else {
        return false;
    };
    put_back(actors, restarted(alloc, first))
}

const NEITHER: &[Told] = &[('b', 1, 1, 0), ('b', 1, 2, 0)];

const BOTH: &[Told] = &[
    ('b', 1, 1, 0),
    ('i', 1, 1, 1),
    ('i', 1, 1, 2),
    ('b', 1, 2, 0),
];

// In how many slots it has voted once it has begun again, and the logs in the end.
fn wanted(after: bool) -> (u64, &'static [Told]) {
    if after { (3, BOTH) } else { (1, NEITHER) }
}

fn runs(
    rt: &impl Abort,
    alloc: Global,
    actors: &mut Vec<Counting<'_>>,
    heard: &mut Heard<Sum>,
    after: bool,
) {
    let (slots, log) = wanted(after);
    fails_in_round(rt, actors.as_mut_slice(), heard);
    check!(rt; restart_first(alloc, actors));
    check_eq!(rt; at(rt, actors.as_mut_slice(), 1).open_slots(), slots);
    goes(rt, actors.as_mut_slice(), heard, LEADING);
    have_log(rt, actors.as_mut_slice(), log);
    check!(rt; heard.faults.is_empty());
}

/// A leader whose store fails in a round of two acts goes on with what that left: the rows of before, or those with both votes.
pub fn outlives_leading(
    rt: &impl Abort,
    alloc: Global,
    actors: &mut Vec<Counting<'_>>,
    after: bool,
) {
    let mut heard = Heard::nothing(alloc);
    runs(rt, alloc, actors, &mut heard, after);
    drop(heard);
}

// The third commit of node 1 fails: it has made its promise, and its vote for its boot.
fn tries(rt: &impl Abort, alloc: Global, after: bool) {
    let failing = Failing {
        node: 1,
        k: 3,
        after,
    };
    tried_by_rounds(rt, alloc, &failing, Trial::OutlivesLeading { after });
}

#[test]
fn neither_act_of_a_round_is_made_if_its_commit_left_the_old_rows(rt: HostRuntime) {
    tries(&rt, rt.alloc(), false);
}

#[test]
fn both_acts_of_a_round_are_made_if_its_commit_left_the_new_rows(rt: HostRuntime) {
    tries(&rt, rt.alloc(), true);
}
