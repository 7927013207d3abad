// A peer that always has a packet is not fetched from first again and again.
use crate::carrying::at;
use crate::check::Check;
use crate::counting::{Asked, Counting, NONE_FAILS, fault_at};
use crate::trial::{Trial, tried};
use std::process::Abort;
use test_checks::check_eq;

// Whose packets node 1 treats, turn by turn, if both peers have one at each of them.
const PEERS: &[u8] = &[2, 3, 2, 3, 2, 3, 2, 3];

// Nodes 2 and 3 are asked for it.
fn both(rt: &impl Abort, actors: &mut [Counting<'_>], asked: Asked) {
    for node in 2..=3 {
        check_eq!(rt; fault_at(rt, actors, node, asked), 0);
    }
}

/// Nodes 2 and 3 tick for each turn of node 1, which sends it packets; then each posts before each of its turns.
pub fn rotates(rt: &impl Abort, actors: &mut [Counting<'_>]) {
    for _ in PEERS {
        both(rt, actors, Asked::Tick);
    }
    for peer in PEERS {
        both(rt, actors, Asked::Turn);
        check_eq!(rt; fault_at(rt, actors, 1, Asked::Turn), 0);
        check_eq!(rt; at(rt, actors, 1).from(), Some(*peer));
    }
}

#[test]
fn peers_are_fetched_from_in_rotation(rt: HostRuntime) {
    tried(&rt, rt.alloc(), &NONE_FAILS, Trial::Rotates);
}
