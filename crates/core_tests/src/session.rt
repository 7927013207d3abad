// One session through three nodes, whose machines add up: at once, one by one, with altered packets between, and each packet twice.
use crate::check::Check;
use crate::packet_rows::{FIRST, FIVE, Held, LOG, Mail, PACKETS, SECOND, SIX, Says, packet_of};
use crate::schedule::{SESSION, Turn};
use crate::worlds::{
    Told, deliver, hands_out, happens, has_log, has_sent, run_rows, shown, turn, was_told, world_of,
};
use cluster_world::{Memory, World};
use paxos_node::Event;
use paxos_packets::Transport;
use replica_machine::Machine;
use std::alloc::Global;
use std::process::Abort;
use test_checks::{check, check_eq};
use test_machines::{Count, Number};

// Three nodes whose machines add up.
pub fn counts(rt: &impl Abort, alloc: Global) -> World<Count> {
    world_of(
        rt,
        alloc,
        Count::new(alloc),
        Count::new(alloc),
        Count::new(alloc),
    )
}

// What is said after the session.
const TOLD: &[Told] = &[(2, 1, 1, &[5, 11])];

// Transports to which nothing is said: by node, boot and number.
const UNTOLD: &[(u8, u64, u32)] = &[
    (2, 1, 2),
    (2, 2, 1),
    (1, 1, 1),
    (3, 1, 1),
    (2, 0, 1),
    (2, 1, 0),
    (0, 1, 1),
    (4, 1, 1),
];

// No nodes of a world of three.
const STRANGERS: &[u8] = &[0, 4, 255];

// What each world shows after the session: all nodes are up with its log, and no other is.
fn has_logs<M: Machine<Body = Number>>(rt: &impl Abort, world: &World<M>) {
    for node in 1..=3 {
        check!(rt; world.is_up(node), node);
        check!(rt; has_log(world, node, LOG), node);
    }
    for node in STRANGERS {
        check!(rt; !world.is_up(*node), node);
        check!(rt; has_log(world, *node, &[]), node);
    }
}

// 5 and then 11 were said to the transport of node 2, and nothing to any other.
fn has_told<M: Machine<Say = (Transport, u64)>>(rt: &impl Abort, world: &World<M>) {
    check!(rt; was_told(world, 2, 1, 1, &[5, 11]));
    for (node, boot, number) in UNTOLD {
        check!(rt; was_told(world, *node, *boot, *number, &[]), node);
    }
    check!(rt; hands_out(world, TOLD));
}

// The world is the one after the session.
pub fn is_after_session(rt: &impl Abort, alloc: Global, world: &World<Count>) {
    check!(rt; has_sent(rt, world, alloc, PACKETS));
    check!(rt; world.packet(0).is_none());
    check!(rt; world.packet(39).is_none());
    has_logs(rt, world);
    has_told(rt, world);
}

#[test]
fn a_session_at_once(rt: HostRuntime) {
    let mut world = counts(&rt, rt.alloc());
    at_once(&rt, rt.alloc(), &mut world);
    drop(world);
}

fn at_once(rt: &impl Abort, alloc: Global, world: &mut World<Count>) {
    check_eq!(rt; run_rows(rt, world, alloc, SESSION), None);
    is_after_session(rt, alloc, world)
}

// The events of rows happen, one by one.
pub fn goes(rt: &impl Abort, alloc: Global, world: &mut World<Count>, turns: &[Turn]) {
    for (place, row) in turns.iter().enumerate() {
        check!(rt; turn(rt, world, alloc, row), place);
    }
}

fn one_by_one(rt: &impl Abort, alloc: Global, world: &mut World<Count>) {
    goes(rt, alloc, world, SESSION);
    is_after_session(rt, alloc, world)
}

#[test]
fn a_session_one_by_one(rt: HostRuntime) {
    let mut world = counts(&rt, rt.alloc());
    one_by_one(&rt, rt.alloc(), &mut world);
    drop(world);
}

// Packets that are like one of the session, but for one number, with the number of that one.
const ALTERED: &[(u8, Mail)] = &[
    (1, (Says::Prepare, 2, 2, (1, 1), 1, &[])),
    (1, (Says::Prepare, 1, 1, (1, 1), 1, &[])),
    (1, (Says::Prepare, 1, 4, (1, 1), 1, &[])),
    (1, (Says::Prepare, 1, 0, (1, 1), 1, &[])),
    (1, (Says::Prepare, 1, 2, (2, 1), 1, &[])),
    (1, (Says::Prepare, 1, 2, (1, 2), 1, &[])),
    (1, (Says::Prepare, 1, 2, (1, 1), 2, &[])),
    (3, (Says::Promise, 1, 1, (1, 1), 0, &[])),
    (3, (Says::Promise, 2, 2, (1, 1), 0, &[])),
    (3, (Says::Promise, 2, 1, (2, 1), 0, &[])),
    (3, (Says::Promise, 2, 1, (1, 2), 0, &[])),
    (5, (Says::Accept, 2, 2, (1, 1), 1, &[FIRST])),
    (5, (Says::Accept, 1, 1, (1, 1), 1, &[FIRST])),
    (5, (Says::Accept, 1, 2, (2, 1), 1, &[FIRST])),
    (5, (Says::Accept, 1, 2, (1, 2), 1, &[FIRST])),
    (5, (Says::Accept, 1, 2, (1, 1), 2, &[FIRST])),
    (5, (Says::Accept, 1, 2, (1, 1), 1, &[Held::Boot(2, 1)])),
    (5, (Says::Accept, 1, 2, (1, 1), 1, &[Held::Boot(1, 2)])),
    (7, (Says::Accepted, 2, 2, (1, 1), 1, &[FIRST])),
    (7, (Says::Accepted, 1, 1, (1, 1), 1, &[FIRST])),
    (7, (Says::Accepted, 1, 2, (2, 1), 1, &[FIRST])),
    (7, (Says::Accepted, 1, 2, (1, 2), 1, &[FIRST])),
    (7, (Says::Accepted, 1, 2, (1, 1), 2, &[FIRST])),
    (7, (Says::Accepted, 1, 2, (1, 1), 1, &[Held::Boot(2, 1)])),
    (13, (Says::Forward, 3, 1, (0, 0), 0, &[SECOND, FIVE])),
    (13, (Says::Forward, 2, 3, (0, 0), 0, &[SECOND, FIVE])),
    (
        13,
        (Says::Forward, 2, 1, (0, 0), 0, &[Held::Boot(3, 1), FIVE]),
    ),
    (
        13,
        (
            Says::Forward,
            2,
            1,
            (0, 0),
            0,
            &[SECOND, Held::Item(2, 1, 1, 1, 6)],
        ),
    ),
    (
        14,
        (
            Says::Forward,
            2,
            1,
            (0, 0),
            0,
            &[SECOND, Held::Item(2, 1, 1, 1, 6), SIX],
        ),
    ),
    (
        14,
        (
            Says::Forward,
            2,
            1,
            (0, 0),
            0,
            &[SECOND, FIVE, Held::Item(2, 1, 2, 1, 7)],
        ),
    ),
    (
        20,
        (Says::Accept, 1, 3, (1, 1), 3, &[Held::Item(1, 1, 1, 1, 5)]),
    ),
    (
        20,
        (Says::Accept, 1, 3, (1, 1), 3, &[Held::Item(2, 2, 1, 1, 5)]),
    ),
    (
        20,
        (Says::Accept, 1, 3, (1, 1), 3, &[Held::Item(2, 1, 2, 1, 5)]),
    ),
    (
        20,
        (Says::Accept, 1, 3, (1, 1), 3, &[Held::Item(2, 1, 1, 2, 5)]),
    ),
    (
        20,
        (Says::Accept, 1, 3, (1, 1), 3, &[Held::Item(2, 1, 1, 1, 6)]),
    ),
    (
        38,
        (
            Says::Accepted,
            3,
            2,
            (1, 1),
            4,
            &[Held::Item(2, 1, 2, 1, 7)],
        ),
    ),
];

// Delivers the packet of a row. Returns whether there was memory for it.
fn takes_mail(rt: &impl Abort, alloc: Global, world: &mut World<Count>, mail: &Mail) -> bool {
    let packet = packet_of(rt, alloc, mail);
    happens(world, Event::Deliver { packet })
}

// Packets that nobody sent change nothing, and are no hindrance to the one that they are like.
fn alters(rt: &impl Abort, alloc: Global, world: &mut World<Count>, number: u8) {
    let before = shown(world);
    for (like, mail) in ALTERED {
        if *like == number {
            check!(rt; takes_mail(rt, alloc, world, mail));
            check!(rt; shown(world) == before, number);
        }
    }
}

fn with_altered(rt: &impl Abort, alloc: Global, world: &mut World<Count>) {
    for row in SESSION {
        if let Turn::Deliver(number) = row {
            alters(rt, alloc, world, *number);
        }
        check!(rt; turn(rt, world, alloc, row), *row);
    }
    is_after_session(rt, alloc, world)
}

#[test]
fn what_nobody_sent_changes_nothing(rt: HostRuntime) {
    let mut world = counts(&rt, rt.alloc());
    with_altered(&rt, rt.alloc(), &mut world);
    drop(world);
}

// Delivers each packet after the first `from` twice, including those that come meanwhile. Returns how many were sent then.
fn flush_twice(rt: &impl Abort, alloc: Global, world: &mut World<Count>, from: usize) -> usize {
    for number in from..99 {
        if number >= world.sent() {
            break;
        }
        check!(rt; deliver(rt, world, alloc, number + 1));
        check!(rt; deliver(rt, world, alloc, number + 1));
    }
    world.sent()
}

const BEGINS: &[Turn] = &[Turn::Start(1)];

const TAKES: &[Turn] = &[Turn::Take(2, 1, 5), Turn::Take(2, 1, 6)];

// A second Prepare is answered by a Nack, and a second Accept by the same votes again; nothing else is sent twice.
fn twice(rt: &impl Abort, alloc: Global, world: &mut World<Count>) {
    goes(rt, alloc, world, BEGINS);
    let begun = flush_twice(rt, alloc, world, 0);
    check_eq!(rt; begun, 2 + 4 + 4 + 8);
    goes(rt, alloc, world, TAKES);
    let done = flush_twice(rt, alloc, world, begun);
    check_eq!(rt; done.checked_sub(begun), Some(2 + 3 * 12));
    has_logs(rt, world);
    has_told(rt, world);
}

#[test]
fn what_is_delivered_twice_takes_effect_once(rt: HostRuntime) {
    let mut world = counts(&rt, rt.alloc());
    twice(&rt, rt.alloc(), &mut world);
    drop(world);
}

#[test]
fn out_of_memory_has_a_number(rt: HostRuntime) {
    check_eq!(&rt; Memory.number(), 60);
}
