// One session through three nodes, of which the third has a machine that refuses its second input.
use crate::check::Check;
use crate::packet_rows::{FIRST, LOG, PACKETS, SECOND};
use crate::schedule::{SESSION, Turn};
use crate::worlds::{flush, has_log, has_sent, run_rows, turn, world_of};
use cluster_world::World;
use std::alloc::Global;
use std::process::Abort;
use test_checks::{check, check_eq};
use test_machines::Refuses;

fn refusing(rt: &impl Abort, alloc: Global) -> World<Refuses> {
    world_of(
        rt,
        alloc,
        Refuses::new(alloc, 99),
        Refuses::new(alloc, 99),
        Refuses::new(alloc, 1),
    )
}

// The run ends at the event in which node 3 would apply the second entry, and so does what is left of it.
fn stops(rt: &impl Abort, alloc: Global, world: &mut World<Refuses>) {
    check_eq!(rt; run_rows(rt, world, alloc, SESSION), Some(20));
    check_eq!(rt; run_rows(rt, world, alloc, &SESSION[20..]), Some(0));
    check!(rt; has_log(world, 1, &[FIRST]));
    check!(rt; has_log(world, 2, &[FIRST, SECOND]));
    check!(rt; has_log(world, 3, &[FIRST]));
}

// One by one all others happen, but for one more that would teach node 3 the second slot.
fn goes_on(rt: &impl Abort, alloc: Global, world: &mut World<Refuses>) {
    for index in 20..SESSION.len() {
        let done = turn(rt, world, alloc, &SESSION[index]);
        check_eq!(rt; done, index != 20 && index != 30, index);
    }
    check!(rt; has_sent(rt, world, alloc, PACKETS));
    check!(rt; has_log(world, 1, LOG));
    check!(rt; has_log(world, 2, LOG));
    check!(rt; has_log(world, 3, &[FIRST]));
    for node in 1..=3 {
        check!(rt; world.is_up(node));
    }
}

// The node's restart makes its machine anew, and the node applies the whole log, with its new boot.
fn comes_back(rt: &impl Abort, alloc: Global, world: &mut World<Refuses>) {
    let from = world.sent();
    check!(rt; turn(rt, world, alloc, &Turn::Crash(3)));
    check!(rt; turn(rt, world, alloc, &Turn::Restart(3)));
    check!(rt; has_log(world, 3, &[]));
    check!(rt; turn(rt, world, alloc, &Turn::Tick(3)));
    check!(rt; flush(rt, world, alloc, from));
    for node in 1..=3 {
        check_eq!(rt; world.log(node).len(), LOG.len().saturating_add(1), node);
    }
}

fn is_given_up(rt: &impl Abort, alloc: Global, world: &mut World<Refuses>) {
    stops(rt, alloc, world);
    goes_on(rt, alloc, world);
    comes_back(rt, alloc, world)
}

#[test]
fn a_machine_that_refuses_is_given_up_until_its_node_restarts(rt: HostRuntime) {
    let mut world = refusing(&rt, rt.alloc());
    is_given_up(&rt, rt.alloc(), &mut world);
    drop(world);
}
