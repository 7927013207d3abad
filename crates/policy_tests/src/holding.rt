// For how many beats acts and ticks are held back for another node.
use crate::check::Check;
use paxos_packets::Members;
use serve_policy::{Backpressure, Draining, Due, Gaining, Sign, Ticks, Turn};
use std::panic::Expect;
use std::process::Abort;
use test_checks::check_eq;

// At which beat how many packets wait, and whether acts are held back.
const BACKPRESSURE: &[(u64, usize, bool)] = &[
    (0, 64, false),
    (0, 65, true),
    (39, 65, true),
    (40, 65, false),
    (41, 64, false),
    (80, 4096, true),
    (81, 4096, false),
    (500, 65, false),
];

#[test]
fn acts_wait_40_beats_for_a_node_that_falls_behind(rt: HostRuntime) {
    let mut backpressure = Backpressure::new();
    for row in BACKPRESSURE {
        let (beat, waiting, holds) = *row;
        check_eq!(&rt; backpressure.holds(beat, waiting), holds, *row);
    }
}

// At which beat how many packets wait, whether one of them was posted, and whether ticks are held back.
const DRAINING: &[(u64, usize, bool, bool)] = &[
    (0, 64, false, false),
    (39, 65, false, true),
    (40, 65, false, false),
    (41, 65, true, true),
    (80, 4096, false, true),
    (81, 4096, false, false),
    (90, 4096, true, true),
    (91, 64, false, false),
    (130, 65, false, true),
    (131, 65, false, false),
];

// The same where a commit takes 25 beats: four commits more.
const SLOW_DRAINING: &[(u64, usize, bool, bool)] = &[
    (0, 64, false, false),
    (40, 65, false, true),
    (139, 65, false, true),
    (140, 65, false, false),
    (141, 65, true, true),
    (280, 4096, false, true),
    (281, 4096, false, false),
    (282, 64, false, false),
];

// Whether ticks are held back goes by these rows where a commit takes this many beats.
fn drains(rt: &impl Abort, rows: &[(u64, usize, bool, bool)], commit: u8) {
    let mut draining = Draining::new();
    for row in rows {
        let (beat, waiting, is_posted, holds) = *row;
        check_eq!(rt; draining.holds(beat, waiting, is_posted, commit), holds, *row);
    }
}

#[test]
fn ticks_wait_40_beats_after_the_last_packet_that_a_node_took(rt: HostRuntime) {
    drains(&rt, DRAINING, 0);
}

#[test]
fn ticks_wait_four_commits_more_where_commits_are_slow(rt: HostRuntime) {
    drains(&rt, SLOW_DRAINING, 25);
}

// How many beats a commit takes; each how many beats a node takes one of many packets that wait for it; and how many ticks come in 5,000
// beats.
const CRAWLING: &[(u8, u64, u64)] = &[
    // It takes packets, slowly or fast.
    (0, 1, 9),
    (0, 39, 9),
    (25, 39, 3),
    // In the 40 beats after each packet no tick comes, and then four do.
    (0, 60, 332),
];

// How many turns without a packet end the beats that are due.
const TURNS: u64 = 64;

// A beat of a node that has nothing to do ends.
fn pass(ticks: &mut Ticks) {
    let turn = Turn {
        from: None,
        sign: Sign::Nothing,
        applied: 0,
        is_pending: false,
        beats: 1,
    };
    for _ in 0..TURNS {
        ticks.count(turn);
    }
}

#[test]
fn a_node_that_crawls_holds_no_tick_back_for_longer_than_512_beats(rt: HostRuntime) {
    for row in CRAWLING {
        let (commit, each, wanted) = *row;
        let members = Members::new(3).expect(&rt, "three members");
        let mut ticks = Ticks::new(2, members, true);
        let mut draining = Draining::new();
        let mut count: u64 = 0;
        for _ in 0..5_000u64 {
            pass(&mut ticks);
            let beat = ticks.beats();
            let holds = draining.holds(beat, 4096, beat % each == 0, commit);
            if ticks.next(!holds, commit) == Some(Due::Tick) {
                count = count.saturating_add(1);
            }
        }
        check_eq!(&rt; count, wanted, *row);
    }
}

// From which slot on a node asks, of one whose log is how long, and is given by a snapshot up to where.
type Asks = (u64, u64, u64);

// What a node asks, if it asks; at which beat; and whether acts are held back then.
const GAINING: &[(Option<Asks>, u64, bool)] = &[
    (None, 0, false),
    (Some((1, 1024, 0)), 5, false),
    (Some((101, 8292, 0)), 10, true),
    // Acts are given in one beat of four.
    (None, 11, true),
    (None, 12, false),
    (None, 13, true),
    (None, 521, true),
    (Some((201, 9392, 0)), 521, true),
    (None, 522, false),
    // It lacks 7,169 of 8,192, and then an eighth less.
    (Some((1101, 8269, 0)), 530, false),
    (Some((1101, 8268, 0)), 531, true),
    (None, 1042, true),
    (None, 1043, false),
    // Its log begins anew.
    (Some((1, 9000, 0)), 1050, true),
    (Some((7977, 9000, 0)), 1051, false),
    (Some((7976, 9000, 0)), 1053, true),
    (None, 1563, true),
    (None, 1565, false),
    // It lacks what comes after the snapshot, and then what the snapshot gives: it waits for that.
    (Some((5001, 20_000, 5000)), 1570, true),
    (None, 1571, true),
    (Some((5001, 20_000, 5001)), 1573, false),
    (Some((5001, 30_000, 28_000)), 1575, false),
    // It has taken the snapshot, and is counted from there.
    (Some((28_001, 29_024, 28_000)), 1577, false),
    (Some((28_001, 30_000, 28_000)), 1578, true),
    (None, 2089, true),
    (None, 2090, false),
];

#[test]
fn acts_wait_512_beats_after_a_node_that_lacks_many_has_gained(rt: HostRuntime) {
    let mut gaining = Gaining::new();
    for row in GAINING {
        let (asks, beat, holds) = *row;
        if let Some((first, applied, floor)) = asks {
            gaining.asks(beat, first, applied, floor);
        }
        check_eq!(&rt; gaining.holds(beat), holds, *row);
    }
}
