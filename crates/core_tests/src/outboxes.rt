// Outboxes: the oldest packet goes first, one that could not go comes back, some go together, and a full outbox loses its oldest.
use crate::check::Check;
use actor_outboxes::Outboxes;
use paxos_packets::{Entries, Kind, Members, Packet};
use std::alloc::Global;
use std::process::Abort;
use test_checks::check_eq;

// An Ask of node 2, by its addressee and its slot.
type Told = (u8, u64);

// What is put at the end of the queues, and what goes first then; (0, 0) if nothing waits.
const OLDEST_FIRST: &[(&[Told], Told)] = &[
    (
        &[(3, 1), (1, 2), (2, 3), (3, 4), (9, 5), (0, 6), (1, 7)],
        (3, 1),
    ),
    (&[], (1, 2)),
    (&[(3, 8)], (3, 4)),
    (&[], (1, 7)),
    (&[], (3, 8)),
    (&[], (0, 0)),
    (&[(1, 9)], (1, 9)),
];

fn push_asks(rt: &impl Abort, packets: &mut Vec<Packet<u32>>, asks: &[Told]) {
    for (addressee, first) in asks {
        let packet = Packet {
            sender: 2,
            addressee: *addressee,
            kind: Kind::Ask { first: *first },
        };
        packets.push(packet).expect(rt, "room for a packet");
    }
}

fn put(rt: &impl Abort, alloc: Global, outboxes: &mut Outboxes<u32>, asks: &[Told]) {
    let mut packets = Vec::new(alloc);
    push_asks(rt, &mut packets, asks);
    outboxes.put_all(packets);
}

fn first_in(packet: &Packet<u32>) -> u64 {
    match &packet.kind {
        Kind::Ask { first } => *first,
        _ => 0,
    }
}

fn next(outboxes: &mut Outboxes<u32>) -> Told {
    let Some(packet) = outboxes.take() else {
        return (0, 0);
    };
    let told = (packet.addressee, first_in(&packet));
    drop(packet);
    told
}

fn outboxes(rt: &impl Abort, alloc: Global) -> Outboxes<u32> {
    let members = Members::new(3).expect(rt, "three members");
    Outboxes::new(alloc, 2, members).expect(rt, "room for the outboxes")
}

fn goes_first(
    rt: &impl Abort,
    alloc: Global,
    outboxes: &mut Outboxes<u32>,
    rows: &[(&[Told], Told)],
) {
    for (asks, first) in rows {
        put(rt, alloc, outboxes, asks);
        check_eq!(rt; next(outboxes), *first);
    }
}

// Whom a packet is taken for, whether it goes or comes back, and which it is; 0 if none waits.
const FOR_ONE: &[(u8, bool, u64)] = &[
    (1, false, 2),
    (1, true, 2),
    (1, true, 4),
    (1, true, 0),
    (3, false, 1),
    (3, false, 1),
    (3, true, 1),
    (3, true, 3),
    (2, true, 0),
    (0, true, 0),
    (9, true, 0),
];

// The oldest packet for a node, which goes, or comes back.
fn next_for(outboxes: &mut Outboxes<u32>, peer: u8, goes: bool) -> u64 {
    let Some(packet) = outboxes.take_for(peer) else {
        return 0;
    };
    let first = first_in(&packet);
    if goes {
        drop(packet);
    } else {
        outboxes.put_back(packet);
    }
    first
}

fn comes_back(rt: &impl Abort, alloc: Global, outboxes: &mut Outboxes<u32>) {
    put(
        rt,
        alloc,
        outboxes,
        &[(3, 1), (1, 2), (9, 5), (3, 3), (1, 4)],
    );
    for (peer, goes, first) in FOR_ONE {
        check_eq!(rt; next_for(outboxes, *peer, *goes), *first);
    }
}

#[test]
fn a_packet_that_could_not_go_comes_first_again(rt: HostRuntime) {
    let mut outboxes = outboxes(&rt, rt.alloc());
    comes_back(&rt, rt.alloc(), &mut outboxes);
    drop(outboxes);
}

#[test]
fn the_oldest_packet_goes_first(rt: HostRuntime) {
    let mut outboxes = outboxes(&rt, rt.alloc());
    goes_first(&rt, rt.alloc(), &mut outboxes, OLDEST_FIRST);
    drop(outboxes);
}

// More packets for node 1 than its outbox holds.
fn fill(rt: &impl Abort, alloc: Global, outboxes: &mut Outboxes<u32>) {
    for first in 2..4_099 {
        put(rt, alloc, outboxes, &[(1, first)]);
    }
}

fn loses_its_oldest(rt: &impl Abort, alloc: Global, outboxes: &mut Outboxes<u32>) {
    fill(rt, alloc, outboxes);
    goes_first(rt, alloc, outboxes, &[(&[(3, 1)], (1, 3)), (&[], (1, 4))]);
}

#[test]
fn a_full_outbox_loses_its_oldest(rt: HostRuntime) {
    let mut outboxes = outboxes(&rt, rt.alloc());
    loses_its_oldest(&rt, rt.alloc(), &mut outboxes);
    drop(outboxes);
}

// Packets that go together.

// A packet of node 2 to node 1: an Ask from this slot on, or a Forward if it is 0.
fn push_packet(rt: &impl Abort, alloc: Global, packets: &mut Vec<Packet<u32>>, first: u64) {
    let kind = if first == 0 {
        Kind::Forward {
            entries: Entries::new(alloc),
        }
    } else {
        Kind::Ask { first }
    };
    let packet = Packet {
        sender: 2,
        addressee: 1,
        kind,
    };
    packets.push(packet).expect(rt, "room for a packet");
}

fn put_for_one(rt: &impl Abort, alloc: Global, outboxes: &mut Outboxes<u32>, firsts: &[u64]) {
    let mut packets = Vec::new(alloc);
    for first in firsts {
        push_packet(rt, alloc, &mut packets, *first);
    }
    outboxes.put_all(packets);
}

// How many packets go together, and which are the first one and the last one.
type Together = (usize, u64, u64);

const NONE: Together = (0, 0, 0);

fn counted(first: &Packet<u32>, rest: &[Packet<u32>]) -> Together {
    let last = match rest.last() {
        Some(packet) => first_in(packet),
        None => first_in(first),
    };
    (rest.len().saturating_add(1), first_in(first), last)
}

// The oldest packets for node 1, so many at most, which go, or come back.
fn go_together(alloc: Global, outboxes: &mut Outboxes<u32>, most: usize, go: bool) -> Together {
    if most == 0 {
        return NONE;
    }
    let Some((first, rest)) = outboxes.take_many(alloc, 1, most) else {
        return NONE;
    };
    let counted = counted(&first, rest.as_slice());
    if go {
        drop(first);
        drop(rest);
    } else {
        outboxes.put_back_all(1, first, rest);
    }
    counted
}

// What goes of 65 packets, if 64 may go together: none of it is lost if they come back.
const OF_65: &[(bool, Together)] = &[
    (false, (64, 1, 64)),
    (true, (64, 1, 64)),
    (false, (1, 65, 65)),
    (true, (1, 65, 65)),
    (true, NONE),
];

fn goes_by_64(rt: &impl Abort, alloc: Global, outboxes: &mut Outboxes<u32>) {
    for first in 1..=65 {
        put_for_one(rt, alloc, outboxes, &[first]);
    }
    for (go, together) in OF_65 {
        let found = go_together(alloc, outboxes, 64, *go);
        check_eq!(rt; found, *together);
    }
}

#[test]
fn up_to_so_many_packets_go_together(rt: HostRuntime) {
    let mut outboxes = outboxes(&rt, rt.alloc());
    goes_by_64(&rt, rt.alloc(), &mut outboxes);
    drop(outboxes);
}

// What waits, how many packets are taken together, and what goes of them, and of those after them: a Forward gives way to a later one that is
// taken with it.
const WITH_FORWARDS: &[(&[u64], usize, Together, Together)] = &[
    (&[0, 5, 0, 6], 64, (3, 5, 6), NONE),
    (&[5, 0, 0, 0], 64, (2, 5, 0), NONE),
    (&[0, 0], 64, (1, 0, 0), NONE),
    (&[0, 5, 6, 0], 2, (2, 0, 5), (2, 6, 0)),
    (&[0, 0, 0, 5], 2, (1, 0, 0), (2, 0, 5)),
];

fn gives_way(rt: &impl Abort, alloc: Global, outboxes: &mut Outboxes<u32>) {
    for (waiting, most, together, next) in WITH_FORWARDS {
        put_for_one(rt, alloc, outboxes, waiting);
        check_eq!(rt; go_together(alloc, outboxes, *most, true), *together);
        check_eq!(rt; go_together(alloc, outboxes, *most, true), *next);
    }
}

#[test]
fn a_forward_gives_way_to_a_later_one(rt: HostRuntime) {
    let mut outboxes = outboxes(&rt, rt.alloc());
    gives_way(&rt, rt.alloc(), &mut outboxes);
    drop(outboxes);
}
