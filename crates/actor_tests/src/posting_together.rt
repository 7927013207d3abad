// What a round posts to a peer together.
use crate::carrying::at;
use crate::check::Check;
use crate::counting::{Asked, Counting, NONE_FAILS, fault_at};
use crate::trial::{Trial, tried_by_rounds};
use std::process::Abort;
use test_checks::check_eq;

// How many packets of node 1 come to node 2, round by round, once 65 wait for it.
const CAME: &[usize] = &[64, 1, 0];

/// Node 1 ticks 65 times, each of which sends a packet to nodes 2 and 3. Then nodes 1 and 2 go by rounds; node 3, to which only the first
/// ones can go, goes last.
pub fn posts_together(rt: &impl Abort, actors: &mut [Counting<'_>]) {
    for _ in 0..65u8 {
        check_eq!(rt; fault_at(rt, actors, 1, Asked::Tick), 0);
    }
    for came in CAME {
        check_eq!(rt; fault_at(rt, actors, 1, Asked::Turn), 0);
        check_eq!(rt; fault_at(rt, actors, 2, Asked::Turn), 0);
        check_eq!(rt; at(rt, actors, 2).came().len(), *came);
    }
    for came in CAME {
        check_eq!(rt; fault_at(rt, actors, 3, Asked::Turn), 0);
        check_eq!(rt; at(rt, actors, 3).came().len(), *came);
        check_eq!(rt; fault_at(rt, actors, 1, Asked::Turn), 0);
    }
}

#[test]
fn a_round_posts_64_packets_together(rt: HostRuntime) {
    tried_by_rounds(&rt, rt.alloc(), &NONE_FAILS, Trial::PostsTogether);
}
