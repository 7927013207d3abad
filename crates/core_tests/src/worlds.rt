// Worlds of three nodes: how they go on, and what they show.
ghost use Rattle.std.specs.Prelude.{◌≡◌, false};

use crate::packet_rows::{Held, Mail, is_log, is_mail};
use crate::schedule::{Turn, event_of, events_of};
use cluster_world::World;
use paxos_node::Event;
use paxos_packets::{Body, Members, Packet, Transport};
use replica_machine::Machine;
use std::alloc::Global;
use std::panic::Expect;
use std::process::Abort;
use test_machines::Number;

// The first world of three nodes with these machines.
pub fn world_of<M: Machine>(rt: &impl Abort, alloc: Global, one: M, two: M, three: M) -> World<M>
    requires one { M.has_failed one ≡ false }
    requires two { M.has_failed two ≡ false }
    requires three { M.has_failed three ≡ false }
    requires alike { M.content one ≡ M.content two }
    requires all_alike { M.content one ≡ M.content three }
{
    let members = Members::new(3).expect(rt, "3 members");
    let mut machines = Vec::new(alloc);
    machines.push(one).expect(rt, "memory for a machine");
    machines.push(two).expect(rt, "memory for a machine");
    machines.push(three).expect(rt, "memory for a machine");
    World::new(alloc, members, machines).expect(rt, "memory for a world")
}

// Lets the events happen. Returns the index of the one for which memory ran out, if it did.
fn run<M: Machine<Body = Number>>(world: &mut World<M>, events: &[Event<Number>]) -> Option<usize> {
    match world.run(events) {
        Ok(()) => None,
        Err((index, _)) => Some(index),
    }
}

// Lets the events of rows happen, at once. Returns the index of the one for which memory ran out, if it did.
pub fn run_rows<M: Machine<Body = Number>>(
    rt: &impl Abort,
    world: &mut World<M>,
    alloc: Global,
    turns: &[Turn],
) -> Option<usize> {
    let events = events_of(rt, alloc, turns);
    let done = run(world, &events);
    drop(events);
    done
}

// Lets one event happen. Returns whether there was memory for it.
pub fn happens<M: Machine<Body = Number>>(world: &mut World<M>, event: Event<Number>) -> bool {
    let events = [event];
    let done = run(world, &events);
    drop(events);
    done.is_none()
}

// Lets the event of a row happen. Returns whether there was memory for it.
pub fn turn<M: Machine<Body = Number>>(
    rt: &impl Abort,
    world: &mut World<M>,
    alloc: Global,
    turn: &Turn,
) -> bool {
    happens(world, event_of(rt, alloc, turn))
}

// A copy of the packet that was sent under this number, from 1 on.
fn sent<M: Machine<Body = Number>>(
    rt: &impl Abort,
    world: &World<M>,
    alloc: Global,
    number: usize,
) -> Packet<Number> {
    let packet = world.packet(number).expect(rt, "a packet");
    packet.copy(alloc).expect(rt, "memory for a packet")
}

// Delivers the packet that was sent under this number. Returns whether there was memory for it.
pub fn deliver<M: Machine<Body = Number>>(
    rt: &impl Abort,
    world: &mut World<M>,
    alloc: Global,
    number: usize,
) -> bool {
    let packet = sent(rt, world, alloc, number);
    happens(world, Event::Deliver { packet })
}

// Delivers each packet after the first `from`, including those that come meanwhile. Returns whether there was memory for all.
pub fn flush<M: Machine<Body = Number>>(
    rt: &impl Abort,
    world: &mut World<M>,
    alloc: Global,
    from: usize,
) -> bool {
    for number in from..999 {
        if number >= world.sent() {
            break;
        }
        if !deliver(rt, world, alloc, number + 1) {
            return false;
        }
    }
    true
}

// Whether the packet with this number, from 1 on, goes from one of the nodes up to `most` to another one of them.
fn is_among<M: Machine<Body = Number>>(world: &World<M>, number: usize, most: u8) -> bool {
    match world.packet(number) {
        Some(packet) => packet.sender <= most && packet.addressee <= most,
        None => false,
    }
}

// Delivers each packet among the nodes up to `most` after the first `from`, including those that come meanwhile. Returns whether there was
// memory for all.
pub fn flush_among<M: Machine<Body = Number>>(
    rt: &impl Abort,
    world: &mut World<M>,
    alloc: Global,
    from: usize,
    most: u8,
) -> bool {
    for number in from..999 {
        if number >= world.sent() {
            break;
        }
        if is_among(world, number + 1, most) && !deliver(rt, world, alloc, number + 1) {
            return false;
        }
    }
    true
}

// Whether the log of a node holds the entries of these rows.
pub fn has_log<M: Machine<Body = Number>>(world: &World<M>, node: u8, rows: &[Held]) -> bool {
    is_log(world.log(node), rows)
}

// Whether the packets of these rows were sent, in this order, and no others.
pub fn has_sent<M: Machine<Body = Number>>(
    rt: &impl Abort,
    world: &World<M>,
    alloc: Global,
    rows: &[Mail],
) -> bool {
    if world.sent() != rows.len() {
        return false;
    }
    for place in 0..rows.len() {
        let packet = world.packet(place + 1).expect(rt, "a packet");
        if !is_mail(rt, alloc, packet, &rows[place]) {
            return false;
        }
    }
    true
}

// Whether these are the sums that were said to a transport, in order.
fn are_sums(transport: Transport, said: &[(Transport, u64)], sums: &[u64]) -> bool {
    if said.len() != sums.len() {
        return false;
    }
    for place in 0..sums.len() {
        if said[place] != (transport, sums[place]) {
            return false;
        }
    }
    true
}

// Whether these sums were said to the transport of a node, in order.
pub fn was_told<M: Machine<Say = (Transport, u64)>>(
    world: &World<M>,
    node: u8,
    boot: u64,
    number: u32,
    sums: &[u64],
) -> bool {
    let transport = Transport { node, boot, number };
    are_sums(transport, world.said(transport), sums)
}

// A transport by its node, boot and number, and the sums that were said to it.
pub type Told = (u8, u64, u32, &'static [u64]);

// Whether a world hands out these sums to these transports, in this order, and nothing else.
pub fn hands_out<M: Machine<Say = (Transport, u64)>>(world: &World<M>, rows: &[Told]) -> bool {
    let mut handings = world.handed();
    for (node, boot, number, sums) in rows {
        let Some((transport, said)) = handings.next() else {
            return false;
        };
        if (transport.node, transport.boot, transport.number) != (*node, *boot, *number) {
            return false;
        }
        if !are_sums(transport, said, sums) {
            return false;
        }
    }
    handings.next().is_none()
}

// How many packets were sent, how long the logs of the nodes are, which of them are up, and how many sums were said to the transport of node 2.
pub fn shown<M: Machine>(world: &World<M>) -> (usize, [usize; 3], [bool; 3], usize) {
    let transport = Transport {
        node: 2,
        boot: 1,
        number: 1,
    };
    (
        world.sent(),
        [world.log(1).len(), world.log(2).len(), world.log(3).len()],
        [world.is_up(1), world.is_up(2), world.is_up(3)],
        world.said(transport).len(),
    )
}
