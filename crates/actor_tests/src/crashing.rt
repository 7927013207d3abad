// An actor whose store fails, and which is restarted.
use crate::carrying::{at, has_log, have_log};
use crate::check::Check;
use crate::counting::{ALL, Asked, Counting, Failing, Script, Sum, fault_at, goes, serves};
use crate::cutting::{Cuts, Once};
use crate::hearing::{Heard, Told};
use crate::trial::{Trial, tried};
use paxos_packets::{Ballot, Transport};
use std::alloc::Global;
use std::process::Abort;
use test_checks::{check, check_eq};
use test_machines::Count;
use test_stands::{again, pop_two, push_two};

// A node, what it is asked for, the number of its fault, and whether its last turn has posted a packet by then.
type Row = (u8, Asked, u8, bool);

// The turn of the second actor on the Prepare of the first one fails and posts nothing, and the actor has ended.
const ENDING: &[Row] = &[
    (1, Asked::Start, 0, false),
    (1, Asked::Turn, 0, true),
    (2, Asked::Turn, 61, false),
    (2, Asked::Turn, 71, false),
    (2, Asked::Tick, 71, false),
];

fn ends(rt: &impl Abort, actors: &mut [Counting<'_>]) {
    for (node, asked, number, posts) in ENDING {
        let found = fault_at(rt, actors, *node, *asked);
        check_eq!(rt; found, *number);
        let posted = at(rt, actors, *node).has_posted();
        check_eq!(rt; posted, *posts);
    }
}

/// The actor that goes on from this one, its store opened again.
pub fn restarted<'a>(alloc: Global, actor: Counting<'a>) -> Option<Counting<'a>> {
    let (left, keeper) = actor.crash();
    again(left.restart(alloc, Count::new(alloc), keeper.reopen()))
}

/// Lets the second actor go on, between the others. Returns whether it does.
pub fn restart_second(alloc: Global, actors: &mut Vec<Counting<'_>>) -> bool {
    let Some((first, second)) = pop_two(actors) else {
        return false;
    };
    push_two(actors, first, restarted(alloc, second))
}

const BOTH: &[Told] = &[('b', 1, 1, 0), ('b', 2, 2, 0)];

// The second actor, which has begun again, reports its boot, and the first one begins its next ballot.
const STARTING: Script = &[(2, Asked::Tick), (1, Asked::Start)];

const NEXT: Ballot = Ballot { round: 2, node: 1 };

// What the second actor has pending is applied.
const GOING_ON: Script = &[ALL, (2, Asked::Tick), ALL];

/// The second actor, which has begun again, goes on with the others, and the logs of all are those of their boots.
pub fn goes_on(rt: &impl Abort, actors: &mut [Counting<'_>], heard: &mut Heard<Sum>) {
    goes(rt, actors, heard, STARTING);
    check!(rt; at(rt, actors, 1).promised() == Some(NEXT));
    goes(rt, actors, heard, GOING_ON);
    have_log(rt, actors, BOTH);
    check!(rt; heard.faults.is_empty());
}

fn runs(rt: &impl Abort, alloc: Global, actors: &mut Vec<Counting<'_>>, heard: &mut Heard<Sum>) {
    ends(rt, actors.as_mut_slice());
    check!(rt; restart_second(alloc, actors));
    goes_on(rt, actors.as_mut_slice(), heard);
}

/// An actor whose store fails goes on.
pub fn outlives(rt: &impl Abort, alloc: Global, actors: &mut Vec<Counting<'_>>) {
    let mut heard = Heard::nothing(alloc);
    runs(rt, alloc, actors, &mut heard);
    drop(heard);
}

// The first commit of the second actor fails, and leaves the old rows or the new ones.
fn fails_once(after: bool) -> Failing {
    Failing {
        node: 2,
        k: 1,
        after,
    }
}

#[test]
fn an_actor_outlives_a_commit_that_left_the_old_rows(rt: HostRuntime) {
    tried(&rt, rt.alloc(), &fails_once(false), Trial::Outlives);
}

#[test]
fn an_actor_outlives_a_commit_that_left_the_new_rows(rt: HostRuntime) {
    tried(&rt, rt.alloc(), &fails_once(true), Trial::Outlives);
}

// Cuts.

// The log at the end, of which the first four entries may be forgotten.
const SIX: &[Told] = &[
    ('b', 1, 1, 0),
    ('b', 2, 1, 0),
    ('i', 2, 1, 1),
    ('i', 2, 1, 2),
    ('b', 2, 2, 0),
    ('i', 2, 2, 1),
];

const LAST_TWO: &[Told] = &[('b', 2, 2, 0), ('i', 2, 2, 1)];

// The cut of the second actor fails, and the actor has ended.
fn fails_to_cut(rt: &impl Abort, actors: &mut [Counting<'_>], by_feed: bool) {
    if by_feed {
        let mut feed = Cuts::of(2);
        let good = at(rt, actors, 2).run(&Once, &mut feed);
        check_eq!(rt; (good, feed.shown()), (false, [(0, 4), (0, 4), (0, 0)]));
    } else {
        check_eq!(rt; fault_at(rt, actors, 2, Asked::Cut), 61);
    }
    check_eq!(rt; fault_at(rt, actors, 2, Asked::Cut), 71);
}

// The second actor, which has begun again, learns what it lacks, reports its boot, and takes 7.
const TAKING: Script = &[
    (2, Asked::Tick),
    ALL,
    (
        2,
        Asked::Take {
            transport: 1,
            number: 7,
        },
    ),
    ALL,
];

const AT_NEXT: Transport = Transport {
    node: 2,
    boot: 2,
    number: 1,
};

// The second actor has begun again with this floor, and goes on from there. Its machine has added up what is below it.
fn goes_on_from(rt: &impl Abort, actors: &mut [Counting<'_>], heard: &mut Heard<Sum>, floor: u64) {
    let second = at(rt, actors, 2);
    check_eq!(rt; (second.floor(), second.applied(), second.log().len()), (floor, floor, 0));
    goes(rt, actors, heard, TAKING);
    check!(rt; heard.says.as_slice().last() == Some(&(AT_NEXT, 18)) && heard.faults.is_empty());
    has_log(rt, at(rt, actors, 1), SIX);
    has_log(
        rt,
        at(rt, actors, 2),
        if floor == 0 { SIX } else { LAST_TWO },
    );
    has_log(rt, at(rt, actors, 3), SIX);
    check_eq!(rt; at(rt, actors, 2).applied(), 6);
}

fn fails_and_goes_on(
    rt: &impl Abort,
    alloc: Global,
    actors: &mut Vec<Counting<'_>>,
    heard: &mut Heard<Sum>,
    floor: u64,
    by_feed: bool,
) {
    serves(rt, actors.as_mut_slice(), heard);
    fails_to_cut(rt, actors.as_mut_slice(), by_feed);
    check!(rt; restart_second(alloc, actors));
    goes_on_from(rt, actors.as_mut_slice(), heard, floor);
}

/// An actor whose store fails at a cut goes on with what that left: the rows of before, or those with the floor.
pub fn outlives_cut(
    rt: &impl Abort,
    alloc: Global,
    actors: &mut Vec<Counting<'_>>,
    floor: u64,
    by_feed: bool,
) {
    let mut heard = Heard::nothing(alloc);
    fails_and_goes_on(rt, alloc, actors, &mut heard, floor, by_feed);
    drop(heard);
}

// The commit of the second actor that a cut makes after the session, which has five.
fn fails_at_cut(after: bool) -> Failing {
    Failing {
        node: 2,
        k: 6,
        after,
    }
}

// Whether the failed commit leaves the new rows, and the floor that they have.
const LEAVES: &[(bool, u64)] = &[(false, 0), (true, 4)];

fn tries_cuts(rt: &impl Abort, alloc: Global, by_feed: bool) {
    for (after, floor) in LEAVES {
        let trial = Trial::OutlivesCut {
            floor: *floor,
            by_feed,
        };
        tried(rt, alloc, &fails_at_cut(*after), trial);
    }
}

#[test]
fn an_actor_outlives_a_cut_that_fails(rt: HostRuntime) {
    tries_cuts(&rt, rt.alloc(), false);
}

#[test]
fn an_actor_outlives_a_cut_of_its_feed_that_fails(rt: HostRuntime) {
    tries_cuts(&rt, rt.alloc(), true);
}
