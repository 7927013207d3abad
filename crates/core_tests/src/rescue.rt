// Rescues: the rows worked out by hand, and what is asked of each rescue.
use crate::check::Check;
use crate::packet_rows::Held;
use crate::schedule::Turn;
use crate::session::counts;
use crate::worlds::{deliver, flush, happens, has_log, turn};
use cluster_world::{RescueFault, World};
use paxos_node::Event;
use paxos_packets::{Body, Entry, Kind, Packet, Transport};
use std::alloc::Global;
use std::panic::Expect;
use std::process::Abort;
use test_checks::{check, check_eq};
use test_machines::{Count, Number};

// The number of the transport whose act a rescue brings to be applied; no schedule takes an act of it.
pub const NUMBER: u32 = 77;

// Whether the node's log ends with the act's Item, and its machine was given it: so the Item took effect.
fn has_act(world: &World<Count>, node: u8, number: u32) -> bool {
    let Some(
        Entry::Item {
            node: own,
            boot,
            transport,
            body,
            ..
        },
    ) = world.log(node).last()
    else {
        return false;
    };
    let transport_then = Transport {
        node,
        boot: *boot,
        number,
    };
    *own == node && *transport == number && body.get() == 5 && world.said(transport_then).len() == 1
}

// How often the events restart the node, if they suspect none, cut none, restart no other, and crash none but the node right before that.
fn restarts(events: &[Event<Number>], node: u8) -> Option<usize> {
    let mut count = 0usize;
    let mut is_crashed = false;
    for event in events {
        match event {
            Event::Suspect { .. } | Event::Cut { .. } => return None,
            Event::Crash { node: other } => {
                if is_crashed || *other != node {
                    return None;
                }
                is_crashed = true;
            }
            Event::Restart { node: other } => {
                if *other != node {
                    return None;
                }
                is_crashed = false;
                count = count.saturating_add(1);
            }
            Event::Take { .. } | Event::Tick { .. } | Event::Start { .. } | Event::Deliver { .. } =>
                {
                    if is_crashed {
                        return None;
                    }
                }
        }
    }
    if is_crashed {
        return None;
    }
    Some(count)
}

// Whether no event brings the node's own votes to another node, which might apply the loss of its own boot by them.
fn tells_no_votes(events: &[Event<Number>], node: u8) -> bool {
    for event in events {
        if let Event::Deliver { packet } = event {
            if let Kind::Accepted { .. } = &packet.kind {
                if packet.sender == node {
                    return false;
                }
            }
        }
    }
    true
}

// The fault of a rescue, if it has one.
pub fn fault(world: &World<Count>, node: u8) -> Option<RescueFault> {
    match world.rescue(node, NUMBER, Number::new(5)) {
        Ok(events) => {
            drop(events);
            None
        }
        Err(fault) => Some(fault),
    }
}

// Rescues the node, and checks what the events lead to. Returns how often they restart it.
pub fn rescues(rt: &impl Abort, world: &mut World<Count>, node: u8, number: u32) -> usize {
    let events = world
        .rescue(node, number, Number::new(5))
        .expect(rt, "a rescue");
    let count = restarts(&events, node).expect(rt, "restarts of the node alone");
    check!(rt; count <= 1);
    check!(rt; tells_no_votes(&events, node));
    let before = ups(world);
    check!(rt; world.run(&events).is_ok());
    drop(events);
    check!(rt; has_act(world, node, number));
    check_eq!(rt; ups(world), before);
    count
}

// How many nodes are up.
pub fn ups(world: &World<Count>) -> u8 {
    let mut count = 0u8;
    for node in 1..=7 {
        if world.is_up(node) {
            count = count.saturating_add(1);
        }
    }
    count
}

// A leader crashes after one other has voted, and another one leads.
const CRASH: &[Turn] = &[Turn::Crash(1), Turn::Start(2)];

fn crashed(rt: &impl Abort, alloc: Global, world: &mut World<Count>) {
    check!(rt; turn(rt, world, alloc, &Turn::Start(1)));
    for number in [1, 3, 5] {
        check!(rt; deliver(rt, world, alloc, number));
    }
    for row in CRASH {
        check!(rt; turn(rt, world, alloc, row));
    }
    for number in [11, 12] {
        check!(rt; deliver(rt, world, alloc, number));
    }
}

fn leader_crash(rt: &impl Abort, alloc: Global, world: &mut World<Count>) {
    crashed(rt, alloc, world);
    check_eq!(rt; fault(world, 1), Some(RescueFault::NodeDown));
    check_eq!(rt; fault(world, 0), Some(RescueFault::NodeDown));
    check_eq!(rt; fault(world, 4), Some(RescueFault::NodeDown));
    check_eq!(rt; rescues(rt, world, 2, 1), 0);
    check!(rt; turn(rt, world, alloc, &Turn::Crash(3)));
    check_eq!(rt; fault(world, 2), Some(RescueFault::NoMajority));
    check_eq!(rt; fault(world, 1), Some(RescueFault::NoMajority));
}

#[test]
fn after_a_leaders_crash_another_node_is_rescued(rt: HostRuntime) {
    let mut world = counts(&rt, rt.alloc());
    leader_crash(&rt, rt.alloc(), &mut world);
    drop(world);
}

// A duel of two nodes, each of whose ballots the other's stops, until both have what they want.
const DUEL: &[Turn] = &[Turn::Start(1), Turn::Start(2)];

// The packets of it that are delivered before node 1 starts once more, and those after that.
const EARLY: &[usize] = &[1, 5, 3, 6];

const LATE: &[usize] = &[11, 13, 7];

const BOTH: &[Held] = &[Held::Boot(2, 1), Held::Boot(1, 1)];

fn duel(rt: &impl Abort, alloc: Global, world: &mut World<Count>) {
    for row in DUEL {
        check!(rt; turn(rt, world, alloc, row));
    }
    for number in EARLY {
        check!(rt; deliver(rt, world, alloc, *number));
    }
    check!(rt; turn(rt, world, alloc, &Turn::Start(1)));
    for number in LATE {
        check!(rt; deliver(rt, world, alloc, *number));
    }
    check!(rt; flush(rt, world, alloc, 0));
}

#[test]
fn a_duel_ends(rt: HostRuntime) {
    let mut world = counts(&rt, rt.alloc());
    duel(&rt, rt.alloc(), &mut world);
    for node in 1..=3 {
        check!(&rt; has_log(&world, node, BOTH), world.log(node).len());
    }
    drop(world);
}

// A line of a script.
#[derive(Clone, Copy, Debug, PartialEq, Eq)]
pub enum Line {
    Start(u8),
    // The packet that was sent under this number, from 1 on, is delivered.
    Deliver(usize),
    // The node takes an act of this transport.
    Take(u8, u32),
    Tick(u8),
    Crash(u8),
    Restart(u8),
}

// The number under which the packet was sent first.
fn number_of(world: &World<Count>, packet: &Packet<Number>) -> Option<usize> {
    for before in 0..world.sent() {
        let sent = world.packet(before + 1)?;
        if sent.same(packet) {
            return Some(before + 1);
        }
    }
    None
}

// The line of a script that stands for the event.
fn line_of(world: &World<Count>, event: &Event<Number>) -> Option<Line> {
    match event {
        Event::Take {
            node,
            transport,
            ..
        } => Some(Line::Take(*node, *transport)),
        Event::Tick { node } => Some(Line::Tick(*node)),
        Event::Start { node } => Some(Line::Start(*node)),
        Event::Deliver { packet } => Some(Line::Deliver(number_of(world, packet)?)),
        Event::Crash { node } => Some(Line::Crash(*node)),
        Event::Restart { node } => Some(Line::Restart(*node)),
        Event::Suspect { .. } | Event::Cut { .. } => None,
    }
}

// The rescue of node 2 after that crash, as the lines of a script.
const LINES: &[Line] = &[
    Line::Start(2),
    Line::Deliver(22),
    Line::Start(2),
    Line::Deliver(25),
    Line::Deliver(26),
    Line::Deliver(28),
    Line::Deliver(36),
    Line::Deliver(32),
    Line::Deliver(38),
    Line::Take(2, 1),
    Line::Deliver(40),
    Line::Deliver(44),
];

// Rescues the node, for an act of its transport 1: the events are these lines, and lead to the act.
pub fn shows(rt: &impl Abort, world: &mut World<Count>, node: u8, lines: &[Line]) {
    let events = world.rescue(node, 1, Number::new(5)).expect(rt, "a rescue");
    check_eq!(rt; events.len(), lines.len());
    let mut place = 0usize;
    for event in events {
        let line = line_of(world, &event);
        check_eq!(rt; line, lines.get(place).copied());
        check!(rt; happens(world, event));
        place = place.saturating_add(1);
    }
    check!(rt; has_act(world, node, 1));
}

#[test]
fn a_rescue_is_lines_of_a_script(rt: HostRuntime) {
    let mut world = counts(&rt, rt.alloc());
    crashed(&rt, rt.alloc(), &mut world);
    shows(&rt, &mut world, 2, LINES);
    drop(world);
}

#[test]
fn faults_have_their_numbers(rt: HostRuntime) {
    check_eq!(&rt; RescueFault::NoMajority.number(), 57);
    check_eq!(&rt; RescueFault::NodeDown.number(), 58);
    check_eq!(&rt; RescueFault::NoRoom.number(), 59);
    check_eq!(&rt; RescueFault::Memory.number(), 60);
}
