// What an actor shows of its last turn, and that no other call changes it.
use crate::carrying::at;
use crate::check::Check;
use crate::counting::{Asked, Counting, NONE_FAILS, fault_at};
use crate::trial::{Trial, tried};
use node_actor::Heard;
use paxos_packets::{Ballot, NodeSet};
use std::process::Abort;
use test_checks::check_eq;

// The ballot that node 1 begins.
const FIRST: Ballot = Ballot { round: 1, node: 1 };

// What a node is asked for; and what it shows then: from whom its last turn fetched a packet, what that shows, to whom it posted, and in
// how many slots after its log it has voted.
type Row = (u8, Asked, Option<u8>, Option<Heard>, &'static [u8], u64);

const ROWS: &[Row] = &[
    // No turn was taken yet.
    (1, Asked::Start, None, None, &[], 0),
    // Its Prepare goes to both.
    (1, Asked::Turn, None, None, &[2, 3], 0),
    (2, Asked::Turn, Some(1), Some(Heard::Prepare(FIRST)), &[], 0),
    // Its Promise goes to node 1, and nothing has come since.
    (2, Asked::Turn, None, None, &[1], 0),
    // It leads, and votes for its boot.
    (1, Asked::Turn, Some(2), Some(Heard::Ballot(FIRST)), &[], 1),
    // What is no turn changes nothing.
    (1, Asked::Tick, Some(2), Some(Heard::Ballot(FIRST)), &[], 1),
    (
        1,
        Asked::Take {
            transport: 1,
            number: 5,
        },
        Some(2),
        Some(Heard::Ballot(FIRST)),
        &[],
        2,
    ),
    (2, Asked::Tick, None, None, &[1], 0),
];

fn set_of(nodes: &[u8]) -> NodeSet {
    let mut set = NodeSet::new();
    for node in nodes {
        set.insert(*node);
    }
    set
}

/// Each is asked in turn, and shows what it is to show.
pub fn shows(rt: &impl Abort, actors: &mut [Counting<'_>]) {
    for (node, asked, from, heard, posted, slots) in ROWS {
        check_eq!(rt; fault_at(rt, actors, *node, *asked), 0);
        let actor = at(rt, actors, *node);
        check_eq!(rt; actor.from(), *from);
        check_eq!(rt; actor.heard(), *heard);
        check_eq!(rt; actor.posted(), set_of(posted));
        check_eq!(rt; actor.open_slots(), *slots);
    }
}

#[test]
fn a_turn_is_shown(rt: HostRuntime) {
    tried(&rt, rt.alloc(), &NONE_FAILS, Trial::Shows);
}
