// Random schedules with cuts: each beside itself without them, and rescues from where they lead.
use crate::check::Check;
use crate::random_worlds::{Draws, first_world, judge};
use crate::schedule::Turn;
use crate::worlds::{deliver, turn};
use cluster_world::World;
use paxos_packets::{Body, Entry, Members};
use std::alloc::Global;
use std::panic::Expect;
use std::process::Abort;
use test_checks::{check, check_eq};
use test_machines::{Count, Number};

// A line of a schedule: an event at a node, or the packet with this number, from 1 on, reaches its addressee.
#[derive(Clone, Copy)]
enum Line {
    Turn(Turn),
    Deliver(usize),
}

// The next line, if so many packets were sent: of 100 lines three are starts of nodes 1 and 2, four ticks, eight acts, three suspicions, one a
// crash, five restarts and six cuts, and all others deliveries. Of these three of four are of the packet after the last that was delivered so,
// which `next` numbers.
fn next_line(draws: &mut Draws, next: &mut usize, members: u8, sent: usize) -> Line {
    let node = draws.node(members);
    let other = draws.node(members);
    match draws.below(100) {
        0..=2 => Line::Turn(Turn::Start(if node % 2 == 1 { 1 } else { 2 })),
        3..=6 => Line::Turn(Turn::Tick(node)),
        7..=14 => Line::Turn(Turn::Take(node, draws.number(3).saturating_add(1), draws.number(9))),
        15..=17 => Line::Turn(Turn::Suspect(node, other)),
        18 => Line::Turn(Turn::Crash(node)),
        19..=23 => Line::Turn(Turn::Restart(node)),
        24..=29 => Line::Turn(Turn::Cut(node)),
        _ => Line::Deliver(next_number(draws, next, sent)),
    }
}

fn next_number(draws: &mut Draws, next: &mut usize, sent: usize) -> usize {
    if draws.below(4) == 0 {
        return sent.saturating_sub(draws.below(sent as u64) as usize);
    }
    let number = sent.min(*next);
    *next = number.saturating_add(1);
    number
}

// Plays a line; a packet that was not sent is not delivered.
fn plays(rt: &impl Abort, world: &mut World<Count>, alloc: Global, line: Line) {
    match line {
        Line::Turn(row) => {
            check!(rt; turn(rt, world, alloc, &row));
        }
        Line::Deliver(number) => {
            if number != 0 && number <= world.sent() {
                check!(rt; deliver(rt, world, alloc, number));
            }
        }
    }
}

// ---- each beside itself without its cuts

// Checks that what a node shows above its floor stands in `whole`, the log that the nodes have shown so far, or goes on with it.
fn joins(
    rt: &impl Abort,
    world: &World<Count>,
    alloc: Global,
    node: u8,
    whole: &mut Vec<Entry<Number>>,
) {
    let mut slot = world.floor(node) as usize;
    check!(rt; slot <= whole.len(), node);
    for entry in world.log(node) {
        if slot < whole.len() {
            check!(rt; entry.same(&whole[slot]), slot);
        } else {
            let entry = entry.copy(alloc).expect(rt, "memory for an entry");
            whole.push(entry).expect(rt, "memory for an entry");
        }
        slot = slot.saturating_add(1);
    }
}

fn all_join(
    rt: &impl Abort,
    world: &World<Count>,
    alloc: Global,
    members: u8,
    whole: &mut Vec<Entry<Number>>,
) {
    for node in 1..=members {
        joins(rt, world, alloc, node, whole);
    }
}

// How many nodes have a floor.
fn floors(world: &World<Count>, members: u8) -> usize {
    let mut count = 0usize;
    for node in 1..=members {
        if world.floor(node) != 0 {
            count = count.saturating_add(1);
        }
    }
    count
}

// Plays both, line by line. After each line, of two logs of one world, at any two moments, one is a prefix of the other where both show a slot.
fn go_beside(
    rt: &impl Abort,
    alloc: Global,
    draws: &mut Draws,
    members: u8,
    cut: &mut World<Count>,
    whole: &mut World<Count>,
) {
    let mut shown = Vec::new(alloc);
    let mut beside = Vec::new(alloc);
    let mut next = 1_usize;
    for _ in 0..draws.below(300).saturating_add(10) {
        let line = next_line(draws, &mut next, members, cut.sent());
        plays(rt, cut, alloc, line);
        all_join(rt, cut, alloc, members, &mut shown);
        if let Line::Turn(Turn::Cut(_)) = line {
            continue;
        }
        plays(rt, whole, alloc, line);
        all_join(rt, whole, alloc, members, &mut beside);
    }
    check_eq!(rt; floors(whole, members), 0);
}

// Returns how many nodes have a floor in the end.
fn beside(rt: &impl Abort, alloc: Global, seed: u64) -> usize {
    let mut draws = Draws::of(seed);
    let members = draws.node(5).saturating_add(2);
    let count = Members::new(members).expect(rt, "3 to 7 members");
    let mut cut = first_world(rt, alloc, count);
    let mut whole = first_world(rt, alloc, count);
    go_beside(rt, alloc, &mut draws, members, &mut cut, &mut whole);
    let count = floors(&cut, members);
    drop(cut);
    drop(whole);
    count
}

#[test]
fn logs_agree_over_floors(rt: HostRuntime) {
    let mut count = 0usize;
    for seed in 0..400 {
        count = count.saturating_add(beside(&rt, rt.alloc(), seed));
    }
    check!(&rt; 400 <= count, count);
}

// ---- rescues

// Whether the line delivers a packet that is lost: of those to the node that hears little three of four are.
fn is_lost(draws: &mut Draws, world: &World<Count>, line: Line, deaf: u8) -> bool {
    let Line::Deliver(number) = line else {
        return false;
    };
    match world.packet(number) {
        Some(packet) => packet.addressee == deaf && draws.below(4) != 0,
        None => false,
    }
}

// A world of these members after a schedule with cuts, in which this node hears little.
fn cut_world(
    rt: &impl Abort,
    alloc: Global,
    draws: &mut Draws,
    members: u8,
    deaf: u8,
) -> World<Count> {
    let count = Members::new(members).expect(rt, "3 to 7 members");
    let mut world = first_world(rt, alloc, count);
    let mut next = 1_usize;
    for _ in 0..draws.below(300).saturating_add(10) {
        let line = next_line(draws, &mut next, members, world.sent());
        if !is_lost(draws, &world, line, deaf) {
            plays(rt, &mut world, alloc, line);
        }
    }
    world
}

// Whether the floor of another node that is up is above the node's log.
fn is_behind(world: &World<Count>, members: u8, node: u8) -> bool {
    let length = world
        .floor(node)
        .saturating_add(world.log(node).len() as u64);
    for other in 1..=members {
        if other != node && world.is_up(other) && length < world.floor(other) {
            return true;
        }
    }
    false
}

// Rescues a node of such a world, in every other one the node that hears little. Returns whether it was rescued, whether it had to rest on
// another's snapshot first, and how often it was restarted.
fn rescue_one(rt: &impl Abort, alloc: Global, members: u8, seed: u64) -> (usize, usize, usize) {
    let mut draws = Draws::of(seed);
    let deaf = if seed % 2 == 0 {
        draws.node(members)
    } else {
        0
    };
    let mut world = cut_world(rt, alloc, &mut draws, members, deaf);
    let node = if deaf == 0 { draws.node(members) } else { deaf };
    let is_behind = is_behind(&world, members, node);
    let (rescued, restarted) = judge(rt, &mut world, members, node);
    drop(world);
    (rescued, if is_behind { rescued } else { 0 }, restarted)
}

// How many worlds there are of each count of members.
const WORLDS: u64 = 2000;

// Rescues from worlds of these members: so many rescues, so many of nodes behind a floor, and so many restarts, as a run of the definitions
// told before.
fn rescues_over_floors(rt: &impl Abort, alloc: Global, members: u8, wanted: (usize, usize, usize)) {
    let mut all = (0usize, 0usize, 0usize);
    for seed in 0..WORLDS {
        let one = rescue_one(rt, alloc, members, seed);
        all = (
            all.0.saturating_add(one.0),
            all.1.saturating_add(one.1),
            all.2.saturating_add(one.2),
        );
    }
    check_eq!(rt; all, wanted);
}

#[test]
fn nodes_of_3_are_rescued_over_floors(rt: HostRuntime) {
    rescues_over_floors(&rt, rt.alloc(), 3, (1672, 576, 193));
}

#[test]
fn nodes_of_4_are_rescued_over_floors(rt: HostRuntime) {
    rescues_over_floors(&rt, rt.alloc(), 4, (1664, 380, 55));
}

#[test]
fn nodes_of_5_are_rescued_over_floors(rt: HostRuntime) {
    rescues_over_floors(&rt, rt.alloc(), 5, (1734, 370, 43));
}

#[test]
fn nodes_of_6_are_rescued_over_floors(rt: HostRuntime) {
    rescues_over_floors(&rt, rt.alloc(), 6, (1740, 224, 12));
}

#[test]
fn nodes_of_7_are_rescued_over_floors(rt: HostRuntime) {
    rescues_over_floors(&rt, rt.alloc(), 7, (1762, 143, 6));
}
