// Random worlds after schedules of five kinds without cuts, and rescues from there.
ghost use Rattle.std.specs.Prelude.{◌≡◌, ◌+◌, vec_len};
ghost use Rattle.core_tests.specs.Machines.{AllNew};

use crate::check::Check;
use crate::rescue::{NUMBER, fault, rescues, ups};
use crate::worlds::happens;
use cluster_world::{RescueFault, World};
use paxos_node::Event;
use paxos_packets::{Body, Members};
use std::alloc::Global;
use std::panic::Expect;
use std::process::Abort;
use test_checks::{check, check_eq};
use test_machines::{Count, Number};

// Draws, each from the one before it.
#[derive(Drop)]
pub struct Draws {
    state: u64,
}

impl Draws {
    // The draws of a seed.
    pub fn of(seed: u64) -> Draws {
        Draws {
            state: seed.wrapping_mul(0x9E37_79B9_7F4A_7C15),
        }
    }

    // The next draw below this number, or 0.
    pub fn below(&mut self, bound: u64) -> u64 {
        self.state = self
            .state
            .wrapping_mul(6_364_136_223_846_793_005)
            .wrapping_add(1_442_695_040_888_963_407);
        (self.state >> 33) % bound.max(1)
    }

    // The next number below this one, of an act or a transport.
    pub fn number(&mut self, bound: u64) -> u32 {
        u32::try_from(self.below(bound)).unwrap_or(0)
    }

    // The next node of a cluster with this many members.
    pub fn node(&mut self, members: u8) -> u8 {
        u8::try_from(self.below(u64::from(members)))
            .unwrap_or(0)
            .saturating_add(1)
    }
}

// A kind of schedule: how many of 100 events are starts, ticks, acts, suspicions, crashes and restarts, the rest being deliveries; and how
// many nodes start ballots.
#[derive(Clone, Copy)]
struct Mix {
    starts: u64,
    ticks: u64,
    acts: u64,
    suspicions: u64,
    crashes: u64,
    restarts: u64,
    leaders: u8,
}

// Duels, partial accepts, losses, crashed minorities, gaps.
const MIXES: &[Mix] = &[
    Mix {
        starts: 25,
        ticks: 5,
        acts: 10,
        suspicions: 0,
        crashes: 0,
        restarts: 2,
        leaders: 2,
    },
    Mix {
        starts: 6,
        ticks: 1,
        acts: 12,
        suspicions: 0,
        crashes: 4,
        restarts: 6,
        leaders: 7,
    },
    Mix {
        starts: 4,
        ticks: 3,
        acts: 8,
        suspicions: 12,
        crashes: 0,
        restarts: 5,
        leaders: 7,
    },
    Mix {
        starts: 6,
        ticks: 4,
        acts: 10,
        suspicions: 2,
        crashes: 6,
        restarts: 8,
        leaders: 7,
    },
    Mix {
        starts: 10,
        ticks: 6,
        acts: 30,
        suspicions: 1,
        crashes: 0,
        restarts: 2,
        leaders: 7,
    },
];

// The next event of such a schedule, or none if there is no packet yet.
fn event(
    rt: &impl Abort,
    alloc: Global,
    world: &World<Count>,
    draws: &mut Draws,
    members: u8,
    mix: &Mix,
) -> Option<Event<Number>> {
    let node = draws.node(members);
    let leader = draws.node(members.min(mix.leaders));
    let mut at = draws.below(100);
    if at < mix.starts {
        return Some(Event::Start { node: leader });
    }
    at -= mix.starts;
    if at < mix.ticks {
        return Some(Event::Tick { node });
    }
    at -= mix.ticks;
    if at < mix.acts {
        return Some(Event::Take {
            node,
            transport: draws.number(3).saturating_add(1),
            body: Number::new(draws.number(9)),
        });
    }
    at -= mix.acts;
    if at < mix.suspicions {
        let other = draws.node(members);
        return Some(Event::Suspect { node, other });
    }
    at -= mix.suspicions;
    if at < mix.crashes {
        return Some(Event::Crash { node });
    }
    at -= mix.crashes;
    if at < mix.restarts {
        return Some(Event::Restart { node });
    }
    delivery(rt, alloc, world, draws)
}

// Some packet reaches its addressee, mostly one of the last that were sent.
fn delivery(
    rt: &impl Abort,
    alloc: Global,
    world: &World<Count>,
    draws: &mut Draws,
) -> Option<Event<Number>> {
    let sent = world.sent() as u64;
    if sent == 0 {
        return None;
    }
    let window = if draws.below(4) == 0 {
        sent
    } else {
        sent.min(draws.below(20).saturating_add(8))
    };
    let number = sent.saturating_sub(draws.below(window));
    let packet = world.packet(number as usize).expect(rt, "a packet");
    Some(Event::Deliver {
        packet: packet.copy(alloc).expect(rt, "memory for a packet"),
    })
}

// Appends a machine that has added nothing up.
fn push_new(rt: &impl Abort, alloc: Global, machines: &mut Vec<Count>)
    ensures count { vec_len machines.new ≡ vec_len machines.old + 1 }
    ensures new { AllNew machines.old.items → AllNew machines.new.items }
{
    machines
        .push(Count::new(alloc))
        .expect(rt, "memory for a machine");
}

// As many machines as there are members, which have added nothing up.
fn new_machines(rt: &impl Abort, alloc: Global, members: Members) -> Vec<Count>
    ensures count { vec_len result ≡ members }
    ensures new { AllNew result.items }
{
    let mut machines = Vec::new(alloc);
    for _turn in 0..members.count() {
        push_new(rt, alloc, &mut machines);
    }
    machines
}

// The first world of these members.
pub fn first_world(rt: &impl Abort, alloc: Global, members: Members) -> World<Count> {
    let machines = new_machines(rt, alloc, members);
    World::new(alloc, members, machines).expect(rt, "memory for a world")
}

// A world of these members after a schedule of this mix.
fn scheduled(
    rt: &impl Abort,
    alloc: Global,
    draws: &mut Draws,
    members: u8,
    mix: &Mix,
) -> World<Count> {
    let count = Members::new(members).expect(rt, "3 to 7 members");
    let mut world = first_world(rt, alloc, count);
    for _ in 0..draws.below(300).saturating_add(10) {
        if let Some(event) = event(rt, alloc, &world, draws, members, mix) {
            check!(rt; happens(&mut world, event));
        }
    }
    world
}

// Rescues a node of a random world, or checks the fault. Returns how often the node was rescued, and how often it was restarted.
fn try_one(rt: &impl Abort, alloc: Global, seed: u64, mix: &Mix) -> (usize, usize) {
    let mut draws = Draws::of(seed);
    let members = draws.node(5).saturating_add(2);
    let mut world = scheduled(rt, alloc, &mut draws, members, mix);
    let node = draws.node(members);
    let counts = judge(rt, &mut world, members, node);
    drop(world);
    counts
}

// Rescues the node, or checks the fault. Returns whether it was rescued, and how often it was restarted.
pub fn judge(rt: &impl Abort, world: &mut World<Count>, members: u8, node: u8) -> (usize, usize) {
    let majority = u64::from(members) < 2 * u64::from(ups(world));
    match fault(world, node) {
        None => {
            check!(rt; majority && world.is_up(node));
            (1, rescues(rt, world, node, NUMBER))
        }
        Some(RescueFault::NoMajority) => {
            check!(rt; !majority);
            (0, 0)
        }
        Some(RescueFault::NodeDown) => {
            check!(rt; majority && !world.is_up(node));
            (0, 0)
        }
        Some(fault) => {
            check_eq!(rt; Some(fault), None);
            (0, 0)
        }
    }
}

// How many worlds there are of each kind.
const WORLDS: u64 = 2000;

// Rescues from random worlds of a kind, at least `least` of them, and `restarted` with a restart.
fn rescues_from(rt: &impl Abort, alloc: Global, mix: &Mix, least: usize, restarted: usize) {
    let mut all = (0usize, 0usize);
    for seed in 0..WORLDS {
        let one = try_one(rt, alloc, seed, mix);
        all = (all.0.saturating_add(one.0), all.1.saturating_add(one.1));
    }
    check!(rt; least <= all.0, all.0);
    check!(rt; restarted <= all.1, all.1);
}

#[test]
fn duels_are_rescued(rt: HostRuntime) {
    rescues_from(&rt, rt.alloc(), &MIXES[0], 1500, 0);
}

#[test]
fn partial_accepts_are_rescued(rt: HostRuntime) {
    rescues_from(&rt, rt.alloc(), &MIXES[1], 500, 0);
}

#[test]
fn losses_are_rescued(rt: HostRuntime) {
    rescues_from(&rt, rt.alloc(), &MIXES[2], 1500, 5);
}

#[test]
fn crashed_minorities_are_rescued(rt: HostRuntime) {
    rescues_from(&rt, rt.alloc(), &MIXES[3], 500, 0);
}

#[test]
fn gaps_are_rescued(rt: HostRuntime) {
    rescues_from(&rt, rt.alloc(), &MIXES[4], 1500, 0);
}
