// Events that are not possible: each leaves the world as it is.
use crate::check::Check;
use crate::schedule::{SESSION, Turn};
use crate::session::{counts, goes, is_after_session};
use crate::worlds::{shown, turn};
use cluster_world::World;
use std::alloc::Global;
use std::process::Abort;
use test_checks::check;
use test_machines::Count;

// Of nodes that are up, and of what is no member.
const UP: &[Turn] = &[
    Turn::Take(2, 0, 7),
    Turn::Restart(1),
    Turn::Restart(2),
    Turn::Restart(3),
    Turn::Take(0, 1, 7),
    Turn::Tick(0),
    Turn::Start(0),
    Turn::Suspect(0, 1),
    Turn::Cut(0),
    Turn::Crash(0),
    Turn::Restart(0),
    Turn::Take(4, 1, 7),
    Turn::Tick(4),
    Turn::Start(4),
    Turn::Suspect(4, 1),
    Turn::Cut(4),
    Turn::Crash(4),
    Turn::Restart(4),
    Turn::Restart(255),
];

// Of node 3 while it is down; packet 36 is for it.
const DOWN: &[Turn] = &[
    Turn::Take(3, 1, 7),
    Turn::Tick(3),
    Turn::Start(3),
    Turn::Suspect(3, 1),
    Turn::Deliver(36),
    Turn::Cut(3),
    Turn::Crash(3),
];

// Of node 3 once it is up again, with no entry.
const EMPTY: &[Turn] = &[Turn::Restart(3), Turn::Cut(3)];

fn stays(rt: &impl Abort, alloc: Global, world: &mut World<Count>, turns: &[Turn]) {
    let before = shown(world);
    for (place, row) in turns.iter().enumerate() {
        check!(rt; turn(rt, world, alloc, row), place);
        check!(rt; shown(world) == before, place);
    }
}

fn stays_down(rt: &impl Abort, alloc: Global, world: &mut World<Count>) {
    goes(rt, alloc, world, &[Turn::Crash(3)]);
    check!(rt; shown(world) == (38, [4, 4, 0], [true, true, false], 2));
    stays(rt, alloc, world, DOWN);
    goes(rt, alloc, world, &[Turn::Restart(3)]);
    check!(rt; shown(world) == (38, [4, 4, 0], [true, true, true], 2));
    stays(rt, alloc, world, EMPTY);
}

fn stays_up(rt: &impl Abort, alloc: Global, world: &mut World<Count>) {
    goes(rt, alloc, world, SESSION);
    stays(rt, alloc, world, UP);
    is_after_session(rt, alloc, world);
    stays_down(rt, alloc, world)
}

#[test]
fn what_is_not_possible_changes_nothing(rt: HostRuntime) {
    let mut world = counts(&rt, rt.alloc());
    stays_up(&rt, rt.alloc(), &mut world);
    drop(world);
}
