// Three nodes with machines of whose octets none is made: a restart gives up the machine of its node, and all else goes on.
ghost use Rattle.std.specs.Prelude.{false, None, []};

use crate::check::Check;
use crate::packet_rows::{FIRST, Held};
use crate::schedule::Turn;
use crate::worlds::{deliver, flush, has_log, turn, world_of};
use cluster_world::World;
use paxos_packets::Transport;
use replica_machine::{Failed, Input, LoadFault, Machine, SaveFault};
use std::alloc::Global;
use std::marker::Model;
use std::process::Abort;
use test_checks::{check, check_eq};
use test_machines::Number;

// A machine that takes each input, and says nothing.
#[derive(Drop)]
struct Fleeting {
    alloc: Global,
}

impl Model for Fleeting {
    ghost Value = { Unit {0} };

    ghost view = { λ f. tt };
}

impl Machine for Fleeting {
    type Body = Number;

    type Say = Transport;

    ghost Content = { Unit {0} };

    ghost content = { λ f. tt };

    ghost has_failed = { λ f. false };

    ghost steps = { record { next = λ s input. s; says = λ s input. []; to = λ y. y } };

    ghost saved = { λ s. [] };

    ghost loaded = { λ octets. None };

    ghost is_sound = { λ s. ⊥ };

    ghost keeps = { λ s input given sound. sound };

    fn apply(&mut self, _input: &Input<Number>) -> Result<Vec<Transport>, Failed> {
        Ok(Vec::new(self.alloc))
    }

    fn to(say: &Transport) -> Transport {
        *say
    }

    fn save(&self, alloc: Global) -> Result<Vec<u8>, SaveFault> {
        Ok(Vec::new(alloc))
    }

    fn load(_alloc: Global, _octets: &[u8]) -> Result<Fleeting, LoadFault> {
        Err(LoadFault::Damaged)
    }
}

// Delivers each packet after the first `from`, and those that come meanwhile. Returns how many of these events the world refuses.
fn refused(rt: &impl Abort, alloc: Global, world: &mut World<Fleeting>, from: usize) -> usize {
    let mut refused = 0usize;
    for number in from..999 {
        if number >= world.sent() {
            break;
        }
        if !deliver(rt, world, alloc, number + 1) {
            refused = refused.saturating_add(1);
        }
    }
    refused
}

const BACK: &[Turn] = &[Turn::Crash(3), Turn::Restart(3), Turn::Tick(3)];

// Node 3 restarts, and asks both others for the log: it would apply the first entry at each of their answers. They vote for its new Boot,
// and have this log then.
fn restarts(rt: &impl Abort, alloc: Global, world: &mut World<Fleeting>, log: &[Held]) {
    let from = world.sent();
    for row in BACK {
        check!(rt; turn(rt, world, alloc, row));
    }
    check_eq!(rt; refused(rt, alloc, world, from), 2);
    check!(rt; has_log(world, 1, log) && has_log(world, 2, log));
    check!(rt; has_log(world, 3, &[]) && world.is_up(3));
}

fn is_given_up(rt: &impl Abort, alloc: Global, world: &mut World<Fleeting>) {
    check!(rt; turn(rt, world, alloc, &Turn::Start(1)));
    check!(rt; flush(rt, world, alloc, 0));
    for node in 1..=3 {
        check!(rt; has_log(world, node, &[FIRST]), node);
    }
    restarts(rt, alloc, world, &[FIRST, Held::Boot(3, 2)]);
    restarts(
        rt,
        alloc,
        world,
        &[FIRST, Held::Boot(3, 2), Held::Boot(3, 3)],
    );
}

#[test]
fn a_machine_that_is_not_loaded_is_given_up(rt: HostRuntime) {
    let mut world = world_of(
        &rt,
        rt.alloc(),
        Fleeting { alloc: rt.alloc() },
        Fleeting { alloc: rt.alloc() },
        Fleeting { alloc: rt.alloc() },
    );
    is_given_up(&rt, rt.alloc(), &mut world);
    drop(world);
}
