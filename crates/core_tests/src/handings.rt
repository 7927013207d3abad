// To whom something was said: transports of three nodes, whose machines add up.
use crate::check::Check;
use crate::schedule::Turn;
use crate::session::counts;
use crate::worlds::{Told, flush, hands_out, turn};
use cluster_world::World;
use std::alloc::Global;
use std::process::Abort;
use test_checks::check;
use test_machines::Count;

// Acts of transports of three nodes; each is delivered to its end before the next.
const ACTS: &[Turn] = &[
    Turn::Start(1),
    Turn::Take(3, 9, 1),
    Turn::Take(1, 4, 2),
    Turn::Take(2, 1, 3),
    Turn::Take(1, 2, 4),
    Turn::Take(1, 4, 5),
];

// By node, boot and number, each with its sums so far.
const TOLD: &[Told] = &[
    (1, 1, 2, &[10]),
    (1, 1, 4, &[3, 15]),
    (2, 1, 1, &[6]),
    (3, 1, 9, &[1]),
];

fn tells_in_order(rt: &impl Abort, alloc: Global, world: &mut World<Count>) {
    check!(rt; hands_out(world, &[]));
    for index in 0..ACTS.len() {
        let done = world.sent();
        check!(rt; turn(rt, world, alloc, &ACTS[index]));
        check!(rt; flush(rt, world, alloc, done));
    }
    check!(rt; hands_out(world, TOLD));
}

#[test]
fn who_was_told_comes_by_node_boot_and_number(rt: HostRuntime) {
    let mut world = counts(&rt, rt.alloc());
    tells_in_order(&rt, rt.alloc(), &mut world);
    drop(world);
}
