// When a node ticks, begins a ballot and suspects another, beat by beat.
use crate::check::Check;
use paxos_packets::Members;
use serve_policy::{Due, Sign, Ticks, Turn};
use std::panic::Expect;
use std::process::Abort;
use test_checks::{check, check_eq};

// How many turns without a packet end the beats that are due.
const TURNS: u64 = 64;

// What a turn without a packet brings while one beat is due.
fn rest_of(applied: u64, is_pending: bool) -> Turn {
    Turn {
        from: None,
        sign: Sign::Nothing,
        applied,
        is_pending,
        beats: 1,
    }
}

// What a turn brings that treated a packet of this node.
fn packet_of(from: u8, sign: Sign, applied: u64) -> Turn {
    Turn {
        from: Some(from),
        sign,
        applied,
        is_pending: true,
        beats: 0,
    }
}

// This number of beats, one by one; in the last turn of each they end.
fn pass(rt: &impl Abort, ticks: &mut Ticks, beats: u64, turn: Turn) {
    for _ in 0..beats {
        for _ in 1..TURNS {
            check!(rt; !ticks.count(turn));
        }
        check!(rt; ticks.count(turn));
    }
}

// After how many beats a ballot is due where commits are fast, at most this number; ticks are let pass.
fn beats_to_start(rt: &impl Abort, ticks: &mut Ticks, most: u64, turn: Turn) -> Option<u64> {
    slow_to_start(rt, ticks, most, turn, 0)
}

// The same where a commit takes this many beats.
fn slow_to_start(
    rt: &impl Abort,
    ticks: &mut Ticks,
    most: u64,
    turn: Turn,
    commit: u8,
) -> Option<u64> {
    for beat in 1..most {
        pass(rt, ticks, 1, turn);
        for _ in 0..2 {
            if ticks.next(true, commit) == Some(Due::Start) {
                return Some(beat);
            }
        }
    }
    None
}

fn three(rt: &impl Abort) -> Members {
    Members::new(3).expect(rt, "three members")
}

#[test]
fn node_1_alone_begins_a_ballot_at_once(rt: HostRuntime) {
    let wanted = [Some(Due::Start), None, None];
    for (node, due) in (1..4).zip(wanted) {
        let mut ticks = Ticks::new(node, three(&rt), true);
        check_eq!(&rt; ticks.next(true, 0), due, node);
        check_eq!(&rt; ticks.next(true, 0), None, node);
    }
}

// How many beats more pass, whether the node may tick then, and whether a tick is due.
const TICKS: &[(u64, bool, bool)] = &[
    (4, true, false),
    (1, true, true),
    (0, true, false),
    (4, true, false),
    (1, true, true),
    (20, false, false),
    (0, true, true),
    (0, true, false),
    (5, true, true),
];

#[test]
fn a_tick_comes_each_five_beats_or_as_soon_as_it_may(rt: HostRuntime) {
    let mut ticks = Ticks::new(2, three(&rt), true);
    for row in TICKS {
        let (beats, may_tick, is_due) = *row;
        pass(&rt, &mut ticks, beats, rest_of(0, false));
        check_eq!(&rt; ticks.next(may_tick, 0) == Some(Due::Tick), is_due, *row);
    }
    check_eq!(&rt; ticks.beats(), 35);
}

#[test]
fn turns_count_only_while_beats_are_due_and_all_that_are_end(rt: HostRuntime) {
    let mut ticks = Ticks::new(2, three(&rt), true);
    let mut turn = rest_of(0, false);
    turn.beats = 0;
    for _ in 0..100 {
        check!(&rt; !ticks.count(turn));
    }
    turn.beats = 5;
    for _ in 1..TURNS {
        check!(&rt; !ticks.count(turn));
        check!(&rt; !ticks.count(packet_of(1, Sign::Nothing, 0)));
    }
    check!(&rt; ticks.count(turn));
    check_eq!(&rt; ticks.beats(), 5);
}

// What a packet showed, how long the log is then, and whether a tick is due.
const TOLD: &[(Sign, u64, bool)] = &[
    (Sign::Told, 63, false),
    (Sign::Told, 64, true),
    (Sign::Told, 64, false),
    (Sign::Nothing, 200, false),
    (Sign::Told, 263, false),
    (Sign::Told, 270, true),
    (Sign::Told, 333, false),
];

#[test]
fn sixty_four_entries_that_were_told_make_a_tick_due(rt: HostRuntime) {
    let mut ticks = Ticks::new(2, three(&rt), true);
    for row in TOLD {
        let (sign, applied, is_due) = *row;
        ticks.count(packet_of(1, sign, applied));
        check_eq!(&rt; ticks.next(true, 0) == Some(Due::Tick), is_due, *row);
    }
}

#[test]
fn a_full_answer_is_followed_up_while_another_node_takes_packets_unless_the_node_leads(
    rt: HostRuntime,
) {
    for owner in [1, 2] {
        let mut ticks = Ticks::new(2, three(&rt), true);
        ticks.count(packet_of(1, Sign::AtWork { owner }, 0));
        ticks.count(packet_of(1, Sign::Told, 64));
        check_eq!(&rt; ticks.next(false, 0) == Some(Due::Tick), owner == 1, owner);
        check_eq!(&rt; ticks.next(true, 0) == Some(Due::Tick), owner == 2, owner);
    }
}

// A node, and after how many beats its ballots come while nothing moves.
const PATIENCE: &[(u8, [u64; 5])] = &[
    (2, [608, 1216, 2432, 4864, 4864]),
    (3, [704, 1408, 2816, 5632, 5632]),
    (4, [800, 1600, 3200, 6400, 6400]),
];

#[test]
fn patience_differs_by_node_and_doubles_three_times(rt: HostRuntime) {
    for (node, waits) in PATIENCE {
        let mut ticks = Ticks::new(*node, three(&rt), true);
        for wait in waits {
            let found = beats_to_start(&rt, &mut ticks, 10_000, rest_of(0, true));
            check_eq!(&rt; found, Some(*wait), *node);
        }
    }
}

#[test]
fn the_ballot_at_the_start_counts_and_an_applied_entry_resets_patience(rt: HostRuntime) {
    let mut ticks = Ticks::new(1, three(&rt), true);
    check_eq!(&rt; ticks.next(true, 0), Some(Due::Start));
    let found = beats_to_start(&rt, &mut ticks, 10_000, rest_of(0, true));
    check_eq!(&rt; found, Some(1024));
    ticks.count(packet_of(2, Sign::Nothing, 1));
    let found = beats_to_start(&rt, &mut ticks, 10_000, rest_of(1, true));
    check_eq!(&rt; found, Some(512));
}

// Whether entries are pending, what a packet showed 500 beats after the start, and after how many beats more a ballot is due.
const MOVES: &[(bool, Sign, Option<u64>)] = &[
    (true, Sign::Nothing, Some(108)),
    (true, Sign::Told, Some(108)),
    (true, Sign::AtWork { owner: 3 }, Some(608)),
    (true, Sign::AtWork { owner: 2 }, Some(608)),
    (
        true,
        Sign::Prepared {
            owner: 3,
            slots: 31,
        },
        Some(608),
    ),
    (
        true,
        Sign::Prepared {
            owner: 3,
            slots: 32,
        },
        Some(609),
    ),
    // Two seconds and a half of patience are enough for 20,000 slots, which take up to half a second.
    (
        true,
        Sign::Prepared {
            owner: 3,
            slots: 20_000,
        },
        Some(1233),
    ),
    (false, Sign::Nothing, None),
];

#[test]
fn a_ballot_at_work_puts_patience_off(rt: HostRuntime) {
    for row in MOVES {
        let (is_pending, sign, wait) = *row;
        let mut ticks = Ticks::new(2, three(&rt), true);
        let turn = rest_of(0, is_pending);
        check_eq!(&rt; beats_to_start(&rt, &mut ticks, 501, turn), None);
        ticks.count(packet_of(3, sign, 0));
        check_eq!(&rt; beats_to_start(&rt, &mut ticks, 6000, turn), wait, *row);
    }
}

// After how many times five beats the ballots of node 2 come, if another node's ballot that takes over 64 slots is prepared each time.
const PREPARED: &[u64] = &[122, 244, 488, 976, 1952, 3904, 7808, 15_616, 31_232, 31_232];

#[test]
fn patience_with_a_takeover_doubles_eight_times(rt: HostRuntime) {
    let mut ticks = Ticks::new(2, three(&rt), true);
    let mut turn = rest_of(0, true);
    turn.beats = 5;
    let prepared = Sign::Prepared {
        owner: 3,
        slots: 64,
    };
    for wait in PREPARED {
        ticks.count(packet_of(3, prepared, 0));
        check_eq!(&rt; beats_to_start(&rt, &mut ticks, 100_000, turn), Some(*wait));
    }
    // The node's own ballots are not waited for as long.
    check_eq!(&rt; beats_to_start(&rt, &mut ticks, 100_000, rest_of(0, true)), Some(4864));
}

// Whether a ballot is due as soon as one of this owner has refused the node's own.
fn begins_again(ticks: &mut Ticks, owner: u8, applied: u64) -> bool {
    ticks.count(packet_of(3, Sign::Refused { owner }, applied));
    ticks.next(true, 0) == Some(Due::Start)
}

#[test]
fn a_ballot_that_an_old_promise_refused_is_begun_again_eight_times(rt: HostRuntime) {
    let mut ticks = Ticks::new(2, three(&rt), true);
    for time in 0..8u64 {
        check!(&rt; begins_again(&mut ticks, 3, 0), time);
    }
    check!(&rt; !begins_again(&mut ticks, 3, 0));
    ticks.count(packet_of(3, Sign::Nothing, 1));
    ticks.count(packet_of(1, Sign::AtWork { owner: 1 }, 1));
    check!(&rt; !begins_again(&mut ticks, 1, 1));
    check!(&rt; begins_again(&mut ticks, 3, 1));
    // Node 3 answers that ballot, so what it promises then is newer; the next ballot it has not answered.
    ticks.count(packet_of(3, Sign::AtWork { owner: 2 }, 1));
    check!(&rt; !begins_again(&mut ticks, 3, 1));
    check_eq!(&rt; beats_to_start(&rt, &mut ticks, 10_000, rest_of(1, true)), Some(1216));
    check!(&rt; begins_again(&mut ticks, 3, 1));
}

#[test]
fn node_1_begins_no_ballot_at_once_in_a_later_boot(rt: HostRuntime) {
    let mut ticks = Ticks::new(1, three(&rt), false);
    check_eq!(&rt; ticks.next(true, 0), None);
    check_eq!(&rt; beats_to_start(&rt, &mut ticks, 10_000, rest_of(0, true)), Some(512));
}

#[test]
fn a_tick_comes_each_fifty_beats_while_the_log_grows(rt: HostRuntime) {
    let mut ticks = Ticks::new(2, three(&rt), true);
    for beat in 1..101u64 {
        pass(&rt, &mut ticks, 1, rest_of(beat, true));
        let is_due = ticks.next(true, 0) == Some(Due::Tick);
        check_eq!(&rt; is_due, beat % 50 == 0, beat);
    }
    // It grew last in the turns of the beat that ended as the 100th.
    pass(&rt, &mut ticks, 3, rest_of(100, true));
    check_eq!(&rt; ticks.next(true, 0), None);
    pass(&rt, &mut ticks, 2, rest_of(100, true));
    check_eq!(&rt; ticks.next(true, 0), Some(Due::Tick));
}

// How many beats a commit takes, and after how many beats a tick comes: while the log rests, and while it grows.
const SLOW_TICKS: &[(u8, u64, u64)] = &[
    (1, 9, 90),
    (5, 25, 250),
    (25, 105, 1050),
    (100, 405, 4050),
];

#[test]
fn ticks_are_four_commits_further_apart_where_commits_are_slow(rt: HostRuntime) {
    for row in SLOW_TICKS {
        let (commit, resting, growing) = *row;
        let mut ticks = Ticks::new(2, three(&rt), true);
        pass(
            &rt,
            &mut ticks,
            resting.saturating_sub(1),
            rest_of(0, false),
        );
        check_eq!(&rt; ticks.next(true, commit), None, *row);
        pass(&rt, &mut ticks, 1, rest_of(0, false));
        check_eq!(&rt; ticks.next(true, commit), Some(Due::Tick), *row);
        for beat in 1..growing {
            pass(&rt, &mut ticks, 1, rest_of(beat, true));
            check_eq!(&rt; ticks.next(true, commit), None, (*row, beat));
        }
        pass(&rt, &mut ticks, 1, rest_of(growing, true));
        check_eq!(&rt; ticks.next(true, commit), Some(Due::Tick), *row);
        // The log rests from now on.
        pass(
            &rt,
            &mut ticks,
            resting.saturating_sub(1),
            rest_of(growing, true),
        );
        check_eq!(&rt; ticks.next(true, commit), None, *row);
        pass(&rt, &mut ticks, 1, rest_of(growing, true));
        check_eq!(&rt; ticks.next(true, commit), Some(Due::Tick), *row);
        // What another node has told in full is asked for at once.
        ticks.count(packet_of(1, Sign::Told, growing.saturating_add(64)));
        check_eq!(&rt; ticks.next(true, commit), Some(Due::Tick), *row);
    }
}

// A node, how many beats a commit takes there, and after how many beats its ballots come while nothing moves: up to 26 beats a commit, as many
// as where commits are fast.
const SLOW_PATIENCE: &[(u8, u8, [u64; 3])] = &[
    (2, 25, [608, 1216, 2432]),
    (2, 26, [608, 1216, 2432]),
    (2, 27, [624, 1248, 2496]),
    (3, 27, [720, 1440, 2880]),
    (2, 100, [1792, 3584, 7168]),
];

#[test]
fn patience_has_16_commits_where_commits_are_slow(rt: HostRuntime) {
    for (node, commit, waits) in SLOW_PATIENCE {
        let mut ticks = Ticks::new(*node, three(&rt), true);
        for wait in waits {
            let found = slow_to_start(&rt, &mut ticks, 10_000, rest_of(0, true), *commit);
            check_eq!(&rt; found, Some(*wait), (*node, *commit));
        }
    }
}

// How many times five beats pass, each time with a packet of this node, if one is given; and the digits of those that are suspected.
const SUSPECTS: &[(u64, Option<u8>, u64)] = &[
    (4095, Some(1), 0),
    (1, Some(1), 3),
    (4095, None, 0),
    (1, None, 13),
    (4095, Some(3), 0),
    (1, None, 1),
];

// The digits of those that are suspected now; ticks are let pass.
fn suspected(ticks: &mut Ticks) -> u64 {
    let mut digits: u64 = 0;
    for _ in 0..4 {
        if let Some(Due::Suspect(node)) = ticks.next(true, 0) {
            digits = digits.saturating_mul(10).saturating_add(u64::from(node));
        }
    }
    digits
}

#[test]
fn a_node_that_is_silent_for_20480_beats_is_suspected(rt: HostRuntime) {
    let mut ticks = Ticks::new(2, three(&rt), true);
    let mut turn = rest_of(0, false);
    turn.beats = 5;
    for row in SUSPECTS {
        let (times, hears, digits) = *row;
        let mut found: u64 = 0;
        for _ in 0..times {
            pass(&rt, &mut ticks, 1, turn);
            if let Some(from) = hears {
                ticks.count(packet_of(from, Sign::Nothing, 0));
            }
            found = found
                .saturating_mul(10)
                .saturating_add(suspected(&mut ticks));
        }
        check_eq!(&rt; found, digits, *row);
    }
}
