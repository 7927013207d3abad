// One session through three nodes, whose machines say each sum also to the transport of that number in its node's next boot.
use crate::check::Check;
use crate::packet_rows::{FIRST, FIVE, Held, SECOND, SIX};
use crate::schedule::{SESSION, Turn};
use crate::worlds::{Told, flush, hands_out, has_log, run_rows, turn, was_told, world_of};
use cluster_world::World;
use std::alloc::Global;
use std::process::Abort;
use test_checks::{check, check_eq};
use test_machines::Foretells;

// Three nodes with such machines.
fn foretelling(rt: &impl Abort, alloc: Global) -> World<Foretells> {
    world_of(
        rt,
        alloc,
        Foretells::new(alloc),
        Foretells::new(alloc),
        Foretells::new(alloc),
    )
}

// What was said to the transport of node 2 in boot 1, and to the one with its number in boot 2.
fn told(rt: &impl Abort, world: &World<Foretells>, first: &[u64], second: &[u64]) {
    check!(rt; was_told(world, 2, 1, 1, first));
    check!(rt; was_told(world, 2, 2, 1, second));
}

fn session(rt: &impl Abort, alloc: Global, world: &mut World<Foretells>) {
    check_eq!(rt; run_rows(rt, world, alloc, SESSION), None);
    told(rt, world, &[5, 11], &[]);
}

// The log of each node then: node 2 forwards its next Boot to the leader of its promise.
const LOG_AFTER: &[Held] = &[FIRST, SECOND, FIVE, SIX, Held::Boot(2, 2)];

const BOTH: &[Told] = &[(2, 1, 1, &[5, 11]), (2, 2, 1, &[5, 11])];

const BACK: &[Turn] = &[Turn::Crash(2), Turn::Restart(2)];

fn comes_back(rt: &impl Abort, alloc: Global, world: &mut World<Foretells>) {
    session(rt, alloc, world);
    for row in BACK {
        check!(rt; turn(rt, world, alloc, row));
    }
    check!(rt; world.is_up(2));
    check!(rt; has_log(world, 2, &[]));
    told(rt, world, &[5, 11], &[]);
    check!(rt; turn(rt, world, alloc, &Turn::Tick(2)));
    check!(rt; flush(rt, world, alloc, 38));
    for node in 1..=3 {
        check!(rt; has_log(world, node, LOG_AFTER), node);
    }
    told(rt, world, &[5, 11], &[5, 11]);
    check!(rt; hands_out(world, BOTH));
}

// All nodes cut, and then node 2 comes back: its next boot begins at the floor.
const CUT_BACK: &[Turn] = &[
    Turn::Cut(1),
    Turn::Cut(2),
    Turn::Cut(3),
    Turn::Crash(2),
    Turn::Restart(2),
    Turn::Tick(2),
];

const FIRST_ALONE: &[Told] = &[(2, 1, 1, &[5, 11])];

// Of what was said below a floor to a boot that begins above it, nothing is handed out.
fn comes_back_above_a_cut(rt: &impl Abort, alloc: Global, world: &mut World<Foretells>) {
    session(rt, alloc, world);
    for row in CUT_BACK {
        check!(rt; turn(rt, world, alloc, row));
    }
    check!(rt; flush(rt, world, alloc, 38));
    for node in 1..=3 {
        check_eq!(rt; world.floor(node), 4, node);
        check!(rt; has_log(world, node, &[Held::Boot(2, 2)]), node);
    }
    told(rt, world, &[5, 11], &[]);
    check!(rt; hands_out(world, FIRST_ALONE));
}

#[test]
fn what_was_said_below_a_floor_is_not_told_above_it(rt: HostRuntime) {
    let mut world = foretelling(&rt, rt.alloc());
    comes_back_above_a_cut(&rt, rt.alloc(), &mut world);
    drop(world);
}

#[test]
fn what_was_said_early_is_told_in_the_next_boot(rt: HostRuntime) {
    let mut world = foretelling(&rt, rt.alloc());
    comes_back(&rt, rt.alloc(), &mut world);
    drop(world);
}
