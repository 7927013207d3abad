// Events as rows, and those of one session through three nodes.
use crate::packet_rows::{Mail, PACKETS, packet_of};
use paxos_node::Event;
use std::alloc::Global;
use std::panic::Expect;
use std::process::Abort;
use test_machines::Number;

// An event at a node.
#[derive(Clone, Copy, Debug)]
pub enum Turn {
    // The node begins a ballot.
    Start(u8),
    // Time has passed at the node.
    Tick(u8),
    // The node cuts its log.
    Cut(u8),
    Crash(u8),
    Restart(u8),
    // The node suspects that the other one is lost.
    Suspect(u8, u8),
    // The node takes an act of this transport, with this body.
    Take(u8, u32, u32),
    // The packet of the session with this number, from 1 on, reaches its addressee.
    Deliver(u8),
}

// One session through three nodes, with its flushes written out.
pub const SESSION: &[Turn] = &[
    Turn::Start(1),
    Turn::Deliver(1),
    Turn::Deliver(2),
    Turn::Deliver(3),
    Turn::Deliver(4),
    Turn::Deliver(5),
    Turn::Deliver(6),
    Turn::Deliver(7),
    Turn::Deliver(8),
    Turn::Deliver(9),
    Turn::Deliver(10),
    Turn::Deliver(11),
    Turn::Deliver(12),
    Turn::Take(2, 1, 5),
    Turn::Take(2, 1, 6),
    Turn::Deliver(13),
    Turn::Deliver(14),
    Turn::Deliver(15),
    Turn::Deliver(16),
    Turn::Deliver(17),
    Turn::Deliver(18),
    Turn::Deliver(19),
    Turn::Deliver(20),
    Turn::Deliver(21),
    Turn::Deliver(22),
    Turn::Deliver(23),
    Turn::Deliver(24),
    Turn::Deliver(25),
    Turn::Deliver(26),
    Turn::Deliver(27),
    Turn::Deliver(28),
    Turn::Deliver(29),
    Turn::Deliver(30),
    Turn::Deliver(31),
    Turn::Deliver(32),
    Turn::Deliver(33),
    Turn::Deliver(34),
    Turn::Deliver(35),
    Turn::Deliver(36),
    Turn::Deliver(37),
    Turn::Deliver(38),
];

// The packet of the session with this number, from 1 on.
fn mail(rt: &impl Abort, number: u8) -> &'static Mail {
    let place = usize::from(number).saturating_sub(1);
    PACKETS.get(place).expect(rt, "a packet of the session")
}

// Returns the event of a row.
pub fn event_of(rt: &impl Abort, alloc: Global, turn: &Turn) -> Event<Number> {
    match *turn {
        Turn::Start(node) => Event::Start { node },
        Turn::Tick(node) => Event::Tick { node },
        Turn::Cut(node) => Event::Cut {
            node,
            snapshot: None,
        },
        Turn::Crash(node) => Event::Crash { node },
        Turn::Restart(node) => Event::Restart { node },
        Turn::Suspect(node, other) => Event::Suspect { node, other },
        Turn::Take(node, transport, body) => Event::Take {
            node,
            transport,
            body: Number::new(body),
        },
        Turn::Deliver(number) => Event::Deliver {
            packet: packet_of(rt, alloc, mail(rt, number)),
        },
    }
}

// Returns the events of rows.
pub fn events_of(rt: &impl Abort, alloc: Global, turns: &[Turn]) -> Vec<Event<Number>> {
    let mut events = Vec::new(alloc);
    for turn in turns {
        let event = event_of(rt, alloc, turn);
        events.push(event).expect(rt, "memory for an event");
    }
    events
}
