// Packets that were ever sent: an equal one is found as soon as it was sent, and not before.
use crate::check::Check;
use crate::packets::{kinds, packet_of};
use paxos_packets::{Body, Kind, Packet};
use std::alloc::Global;
use std::process::Abort;
use test_checks::check_eq;
use test_machines::Number;
use world_packets::SentPackets;

fn push_copy<B: Body>(
    rt: &impl Abort,
    alloc: Global,
    packets: &mut Vec<Packet<B>>,
    packet: &Packet<B>,
) {
    let copy = packet.copy(alloc).expect(rt, "room for a copy");
    packets.push(copy).expect(rt, "room for a packet");
}

// The packet, twice.
fn twice<B: Body>(rt: &impl Abort, alloc: Global, packet: &Packet<B>) -> Vec<Packet<B>> {
    let mut packets = Vec::new(alloc);
    push_copy(rt, alloc, &mut packets, packet);
    push_copy(rt, alloc, &mut packets, packet);
    packets
}

// Sends a packet of this kind, twice.
fn send_twice<B: Body>(rt: &impl Abort, alloc: Global, sent: &mut SentPackets<B>, kind: &Kind<B>) {
    let packet = packet_of(rt, alloc, kind);
    let packets = twice(rt, alloc, &packet);
    drop(packet);
    sent.make_room(packets.len())
        .expect(rt, "room for two packets");
    sent.push_all_in_room(packets);
}

fn was_sent<B: Body>(
    rt: &impl Abort,
    alloc: Global,
    sent: &SentPackets<B>,
    kind: &Kind<B>,
) -> bool {
    let packet = packet_of(rt, alloc, kind);
    let was_sent = sent.was_sent(&packet);
    drop(packet);
    was_sent
}

// Whether just the packets of the kinds before this one were sent, each twice.
fn are_sent_before<B: Body>(
    rt: &impl Abort,
    alloc: Global,
    kinds: &[Kind<B>],
    sent: &SentPackets<B>,
    before: usize,
) {
    check_eq!(rt; sent.as_slice().len(), before.saturating_mul(2));
    for (i, kind) in kinds.iter().enumerate() {
        check_eq!(rt; was_sent(rt, alloc, sent, kind), i < before, (i, before));
    }
}

// Sends packets of each kind, one after the other.
fn are_found<B: Body>(
    rt: &impl Abort,
    alloc: Global,
    kinds: &[Kind<B>],
    sent: &mut SentPackets<B>,
) {
    for (i, kind) in kinds.iter().enumerate() {
        are_sent_before(rt, alloc, kinds, sent, i);
        send_twice(rt, alloc, sent, kind);
    }
    are_sent_before(rt, alloc, kinds, sent, kinds.len());
}

#[test]
fn packets_are_found_once_they_were_sent(rt: HostRuntime) {
    let kinds = kinds(&rt, rt.alloc(), &Number::new(1), &Number::new(2));
    let mut sent = SentPackets::new(rt.alloc());
    are_found(&rt, rt.alloc(), kinds.as_slice(), &mut sent);
    drop(sent);
    drop(kinds);
}
