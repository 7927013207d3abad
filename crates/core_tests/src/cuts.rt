// Worlds of three nodes that cut: where their logs begin then, and which snapshots they take.
use crate::check::Check;
use crate::packet_rows::Held;
use crate::schedule::Turn;
use crate::session::counts;
use crate::worlds::{deliver, flush, flush_among, has_log, turn, world_of};
use cluster_world::World;
use replica_machine::{Machine, Standing};
use std::alloc::Global;
use std::process::Abort;
use test_checks::{check, check_eq};
use test_machines::{Count, Number, Scant};

// Lets the event of a row happen, and then delivers what is sent, with what comes meanwhile.
fn flushed<M: Machine<Body = Number>>(
    rt: &impl Abort,
    world: &mut World<M>,
    alloc: Global,
    row: &Turn,
) {
    let from = world.sent();
    check!(rt; turn(rt, world, alloc, row));
    check!(rt; flush(rt, world, alloc, from));
}

// Whether a node has this floor, and entries of these rows above it.
pub fn stands<M: Machine<Body = Number>>(
    world: &World<M>,
    node: u8,
    floor: u64,
    rows: &[Held],
) -> bool {
    world.floor(node) == floor && has_log(world, node, rows)
}

// Where another node stands at a node's floor.
fn standing_at<M: Machine>(world: &World<M>, node: u8, other: u8) -> Standing {
    let roll = world.standings(node);
    let standing = roll.standing(other);
    drop(roll);
    standing
}

// ---- a node takes no snapshot in which its present boot stands

const BOOTS: &[Held] = &[Held::Boot(1, 1), Held::Boot(3, 1)];

const ALL: &[Held] = &[
    Held::Boot(1, 1),
    Held::Boot(3, 1),
    Held::Item(1, 1, 1, 1, 5),
];

const BACK: &[Turn] = &[Turn::Crash(3), Turn::Restart(3), Turn::Tick(3)];

fn own_boot(rt: &impl Abort, alloc: Global, world: &mut World<Count>) {
    flushed(rt, world, alloc, &Turn::Start(1));
    flushed(rt, world, alloc, &Turn::Tick(3));
    let from = world.sent();
    check!(rt; turn(rt, world, alloc, &Turn::Take(1, 1, 5)));
    check!(rt; flush_among(rt, world, alloc, from, 2));
    check!(rt; stands(world, 1, 0, ALL));
    check!(rt; turn(rt, world, alloc, &Turn::Cut(1)));
    check!(rt; stands(world, 1, 3, &[]) && stands(world, 2, 0, ALL));
    check!(rt; turn(rt, world, alloc, &Turn::Tick(3)));
    // node 3 asks node 1, and gets its snapshot
    for number in [30, 32] {
        check!(rt; deliver(rt, world, alloc, number));
    }
    check!(rt; stands(world, 3, 0, BOOTS) && world.is_up(3));
    check_eq!(rt; standing_at(world, 3, 1), Standing::Unknown);
    for row in BACK {
        check!(rt; turn(rt, world, alloc, row));
    }
    check!(rt; deliver(rt, world, alloc, 32));
    check!(rt; stands(world, 3, 3, &[]));
    check_eq!(rt; standing_at(world, 3, 1), Standing::Live { boot: 1, taken: 1 });
    check_eq!(rt; standing_at(world, 3, 2), Standing::Unknown);
    check_eq!(rt; standing_at(world, 3, 3), Standing::Live { boot: 1, taken: 0 });
}

#[test]
fn a_snapshot_with_the_present_boot_is_not_taken(rt: HostRuntime) {
    let mut world = counts(&rt, rt.alloc());
    own_boot(&rt, rt.alloc(), &mut world);
    drop(world);
}

// ---- a floor is shown while a node is down, and of no other

fn shows_floors(rt: &impl Abort, alloc: Global, world: &mut World<Count>) {
    flushed(rt, world, alloc, &Turn::Start(1));
    for row in [Turn::Cut(2), Turn::Cut(2), Turn::Crash(2)] {
        check!(rt; turn(rt, world, alloc, &row));
        check!(rt; stands(world, 2, 1, &[]));
    }
    for node in [0, 4, 255] {
        check!(rt; stands(world, node, 0, &[]), node);
        check_eq!(rt; standing_at(world, node, 1), Standing::Unknown, node);
    }
    check_eq!(rt; standing_at(world, 2, 1), Standing::Live { boot: 1, taken: 0 });
    check!(rt; turn(rt, world, alloc, &Turn::Restart(2)));
    check!(rt; stands(world, 2, 1, &[]) && world.is_up(2));
}

#[test]
fn a_floor_outlives_a_crash(rt: HostRuntime) {
    let mut world = counts(&rt, rt.alloc());
    shows_floors(&rt, rt.alloc(), &mut world);
    drop(world);
}

// ---- machines for which memory runs out as they are saved, or loaded

fn scants(rt: &impl Abort, alloc: Global) -> World<Scant> {
    world_of(
        rt,
        alloc,
        Scant::new(alloc),
        Scant::new(alloc),
        Scant::new(alloc),
    )
}

const TWO: &[Held] = &[Held::Boot(1, 1), Held::Item(1, 1, 1, 1, 5)];

const THREE: &[Held] = &[
    Held::Boot(1, 1),
    Held::Item(1, 1, 1, 1, 5),
    Held::Item(1, 1, 2, 1, 6),
];

// After two inputs the machine of node 1 cannot be saved: the cut does not happen. After three it is saved.
fn cuts_later(rt: &impl Abort, alloc: Global, world: &mut World<Scant>) {
    check!(rt; turn(rt, world, alloc, &Turn::Crash(3)));
    flushed(rt, world, alloc, &Turn::Start(1));
    flushed(rt, world, alloc, &Turn::Take(1, 1, 5));
    check!(rt; stands(world, 1, 0, TWO));
    check!(rt; !turn(rt, world, alloc, &Turn::Cut(1)));
    check!(rt; stands(world, 1, 0, TWO));
    flushed(rt, world, alloc, &Turn::Take(1, 1, 6));
    check!(rt; stands(world, 1, 0, THREE));
    check!(rt; turn(rt, world, alloc, &Turn::Cut(1)));
    check!(rt; stands(world, 1, 3, &[]) && stands(world, 2, 0, THREE));
}

// Node 3 asks node 1, which sends its snapshot. Returns whether the world delivers it.
fn is_taken(rt: &impl Abort, alloc: Global, world: &mut World<Scant>) -> bool {
    let ask = world.sent().saturating_add(1);
    check!(rt; turn(rt, world, alloc, &Turn::Tick(3)));
    let snapshot = world.sent().saturating_add(1);
    check!(rt; deliver(rt, world, alloc, ask));
    check_eq!(rt; world.sent(), snapshot);
    deliver(rt, world, alloc, snapshot)
}

// A machine of three inputs cannot be loaded: node 3 takes that snapshot no more than node 1 restarts from it. One of four is loaded.
fn loads_later(rt: &impl Abort, alloc: Global, world: &mut World<Scant>) {
    cuts_later(rt, alloc, world);
    check!(rt; turn(rt, world, alloc, &Turn::Restart(3)));
    check!(rt; !is_taken(rt, alloc, world));
    check!(rt; stands(world, 3, 0, &[]) && world.is_up(3));
    let from = world.sent();
    check!(rt; turn(rt, world, alloc, &Turn::Take(1, 1, 7)));
    check!(rt; flush_among(rt, world, alloc, from, 2));
    check!(rt; stands(world, 1, 3, &[Held::Item(1, 1, 3, 1, 7)]));
    check!(rt; turn(rt, world, alloc, &Turn::Cut(1)));
    check!(rt; is_taken(rt, alloc, world));
    check!(rt; stands(world, 3, 4, &[]));
}

#[test]
fn a_machine_that_is_not_saved_or_loaded_refuses_the_event(rt: HostRuntime) {
    let mut world = scants(&rt, rt.alloc());
    loads_later(&rt, rt.alloc(), &mut world);
    drop(world);
}

const BOOTED_LATER: &[Held] = &[
    Held::Boot(1, 1),
    Held::Item(1, 1, 1, 1, 5),
    Held::Item(1, 1, 2, 1, 6),
    Held::Boot(2, 1),
];

// The restart does not happen: the node stays down, and all else goes on.
fn stays_down(rt: &impl Abort, alloc: Global, world: &mut World<Scant>) {
    cuts_later(rt, alloc, world);
    check!(rt; turn(rt, world, alloc, &Turn::Crash(1)));
    check!(rt; !turn(rt, world, alloc, &Turn::Restart(1)));
    check!(rt; !world.is_up(1) && stands(world, 1, 3, &[]));
    check!(rt; turn(rt, world, alloc, &Turn::Restart(3)));
    flushed(rt, world, alloc, &Turn::Start(2));
    check!(rt; has_log(world, 2, BOOTED_LATER));
}

#[test]
fn a_restart_is_refused_if_the_snapshot_is_not_loaded(rt: HostRuntime) {
    let mut world = scants(&rt, rt.alloc());
    stays_down(&rt, rt.alloc(), &mut world);
    drop(world);
}
