// How time becomes beats, how many acts a node gives, and which of its clients it waits for.
use crate::check::Check;
use serve_policy::{
    Admission, Passed, Reader, beats_due, left_of_waits, left_to_wait, looks_aside,
};
use test_checks::{check, check_eq};

// Beats that are due, of which none was skipped.
const ONE: Passed = Passed::Due {
    skipped: 0,
    beats: 1,
};

const TWO: Passed = Passed::Due {
    skipped: 0,
    beats: 2,
};

const THREE: Passed = Passed::Due {
    skipped: 0,
    beats: 3,
};

const FIVE: Passed = Passed::Due {
    skipped: 0,
    beats: 5,
};

// How many microseconds passed since the beat with this number; whether beats are counted one by one; and what is due.
const CLOCK: &[(u64, u64, bool, Passed)] = &[
    (0, 0, true, Passed::Early { left: 2_000 }),
    (1_499, 7, true, Passed::Early { left: 501 }),
    (1_500, 7, true, ONE),
    (3_499, 7, true, ONE),
    (3_500, 7, true, TWO),
    (9_500, 0, true, FIVE),
    (
        11_500,
        0,
        true,
        Passed::Due {
            skipped: 1,
            beats: 5,
        },
    ),
    (
        2_000_000,
        0,
        true,
        Passed::Due {
            skipped: 995,
            beats: 5,
        },
    ),
    // A tick of the cluster ends with each fifth beat.
    (1_500, 0, false, Passed::Early { left: 8_500 }),
    (9_499, 0, false, Passed::Early { left: 501 }),
    (9_500, 0, false, FIVE),
    (1_499, 4, false, Passed::Early { left: 501 }),
    (1_500, 4, false, ONE),
    (5_499, 12, false, Passed::Early { left: 501 }),
    (5_500, 12, false, THREE),
    (
        u64::MAX,
        3,
        false,
        Passed::Due {
            skipped: 9_223_372_036_854_771,
            beats: 5,
        },
    ),
];

#[test]
fn counts_at_most_five_beats_of_two_milliseconds(rt: HostRuntime) {
    for row in CLOCK {
        let (micros, beat, is_quick, wanted) = *row;
        check_eq!(&rt; beats_due(micros, beat, is_quick), wanted, (micros, beat, is_quick));
    }
}

#[test]
fn waits_for_slow_clients_for_80_milliseconds(rt: HostRuntime) {
    check_eq!(&rt; left_to_wait(0), 80_000);
    check_eq!(&rt; left_to_wait(79_999), 1);
    check_eq!(&rt; left_to_wait(80_000), 0);
    check_eq!(&rt; left_to_wait(u64::MAX), 0);
}

// How many microseconds have passed since the last wait, for how many the node has waited, and how many of these count.
const WAITS: &[(u64, u64, u64)] = &[
    (0, 80_000, 80_000),
    (24, 80_000, 80_000),
    (25, 80_000, 79_998),
    (500_000, 80_000, 40_000),
    (999_999, 80_000, 2),
    (1_000_000, 80_000, 0),
    (u64::MAX, 80_000, 0),
];

#[test]
fn waits_for_80_milliseconds_of_a_second(rt: HostRuntime) {
    for row in WAITS {
        let (passed, waited, wanted) = *row;
        check_eq!(&rt; left_of_waits(passed, waited), wanted, *row);
    }
}

// How long a wait takes at the least if a client slows its node down for as long as it may.
const WAIT: u64 = 1_000;

// Of how many microseconds of ten seconds a node waits, if a client is slow again this long after each wait.
fn waits_in_all(between: u64) -> u64 {
    let mut now: u64 = 0;
    let mut counts: u64 = 0;
    let mut waited: u64 = 0;
    let mut passed: u64 = 0;
    for _ in 0..20_000u64 {
        if now >= 10_000_000 {
            break;
        }
        counts = left_of_waits(passed, counts);
        let micros = left_to_wait(counts);
        counts = counts.saturating_add(micros);
        waited = waited.saturating_add(micros);
        passed = between.max(WAIT);
        now = now.saturating_add(micros).saturating_add(passed);
    }
    waited
}

#[test]
fn a_client_that_reads_in_bursts_costs_at_most_a_twelfth_of_the_time(rt: HostRuntime) {
    for between in [0u64, 1_000, 20_000, 100_000, 920_000, 2_000_000] {
        let waited = waits_in_all(between);
        check!(&rt; waited <= 880_000, (between, waited));
    }
}

// Whether the node leads, how many entries are pending, and how many acts come before the next round.
const ACTS: &[(bool, usize, u32)] = &[
    (true, 0, 64),
    (true, 1, 64),
    (true, 936, 64),
    (true, 937, 63),
    (true, 999, 1),
    (true, 1000, 0),
    (true, 1024, 0),
    (true, usize::MAX, 0),
    (false, 0, 64),
    (false, 1, 0),
    (false, 1024, 0),
];

#[test]
fn gives_64_acts_up_to_1000_pending_if_it_leads_and_else_only_if_none_is(rt: HostRuntime) {
    let mut admission = Admission::new();
    check!(&rt; !admission.has_room());
    for row in ACTS {
        let (leads, pending, count) = *row;
        admission.begin(leads, pending);
        for _ in 0..count {
            check!(&rt; admission.has_room(), *row);
            admission.give();
        }
        check!(&rt; !admission.has_room(), *row);
        admission.give();
        check!(&rt; !admission.has_room(), *row);
    }
}

#[test]
fn looks_at_more_clients_in_a_round_without_acts_if_commits_take_long(rt: HostRuntime) {
    check_eq!(&rt; looks_aside(0), 8);
    check_eq!(&rt; looks_aside(1), 64);
    check_eq!(&rt; looks_aside(100), 64);
}

// The room for sayings that is left after 64 more were put, whether the node then waits for the client, and whether it has done so in vain.
const ROOM: &[(usize, bool, bool)] = &[
    (8192, false, false),
    (7169, false, false),
    (7168, true, false),
    (0, true, true),
    (0, false, false),
    (7680, false, false),
    (7168, false, false),
    (8127, false, false),
    (7168, false, false),
    (8128, false, false),
    (7168, true, false),
];

#[test]
fn waits_once_for_a_client_until_it_has_caught_up(rt: HostRuntime) {
    let mut reader = Reader::new();
    for row in ROOM {
        let (room, waits, is_vain) = *row;
        for _ in 1..64 {
            check!(&rt; !reader.put());
        }
        check!(&rt; reader.put());
        check_eq!(&rt; reader.judge(room), waits, room);
        if is_vain {
            reader.ignore();
        }
    }
}
