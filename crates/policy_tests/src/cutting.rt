// When a node cuts its log, and when one is behind the others' snapshots for good.
use crate::check::Check;
use serve_policy::{Behind, Debt, Telling, is_long, rest_after};
use test_checks::check_eq;

// How many entries are above the floor, how many packets wait for a member, whether a member is owed entries, and whether the log is long enough to be
// cut.
const LENGTHS: &[(u64, usize, bool, bool)] = &[
    (0, 0, false, false),
    (4095, 0, false, false),
    (4096, 0, false, true),
    (4096, 256, false, true),
    (4096, 257, false, false),
    (65_535, 256, false, true),
    (65_535, 257, false, false),
    (65_536, 257, false, true),
    (65_536, 0, true, false),
    (131_071, 0, true, false),
    (131_072, 257, true, true),
    (u64::MAX, usize::MAX, true, true),
];

#[test]
fn a_log_is_cut_after_4096_entries_or_later_while_a_member_does_not_keep_up(rt: HostRuntime) {
    for row in LENGTHS {
        let (entries, waiting, is_owed, wanted) = *row;
        check_eq!(&rt; is_long(entries, waiting, is_owed), wanted, *row);
    }
}

// At which beat how many packets wait for a member, how long this node's log is, from which slot on the member asks, if it asks, of a node whose
// floor is 50; and whether a cut is put off for what it is owed.
const DEBTS: &[(u64, usize, u64, Option<u64>, bool)] = &[
    (0, 2047, 100, None, false),
    (1, 2048, 100, None, true),
    (2, 4096, 200, Some(100), true),
    (3, 2047, 300, None, true),
    (4, 0, 400, Some(200), true),
    // It has what may have been lost.
    (5, 0, 400, Some(201), false),
    (6, 0, 500, None, false),
    // It takes no packets for 2,560 beats, and takes them again.
    (10, 3000, 500, None, true),
    (2569, 3000, 600, None, true),
    (2570, 3000, 700, None, false),
    (2571, 257, 700, Some(600), true),
    // It does not ask for 2,560 beats.
    (5130, 0, 9000, None, true),
    (5131, 0, 9000, None, false),
    // It waits for a snapshot, and has taken one; it lacks 1,025 entries, and 1,024; and it has those of then.
    (5132, 0, 9000, Some(50), true),
    (5133, 0, 9100, Some(8076), true),
    (5134, 0, 9100, Some(8077), true),
    (5135, 0, 9200, Some(9100), true),
    (5136, 0, 9200, Some(9101), false),
    // It is late, and does not ask any more.
    (5140, 0, 20_000, Some(51), true),
    (7699, 0, 30_000, None, true),
    (7700, 0, 30_000, None, false),
    // It asks while many packets wait for it.
    (8000, 3000, 30_000, None, true),
    (10_000, 3000, 31_000, Some(30_500), true),
    (12_559, 3000, 40_000, None, true),
    (12_560, 3000, 40_000, None, false),
    // It takes them, and asks again and again for an entry that it is owed.
    (12_561, 0, 40_000, Some(39_999), true),
    (15_000, 0, 40_100, Some(39_999), true),
    (17_559, 0, 40_200, None, true),
    (17_560, 0, 40_200, None, false),
];

#[test]
fn a_cut_is_put_off_until_a_member_has_asked_for_what_it_is_owed(rt: HostRuntime) {
    let mut debt = Debt::new();
    for row in DEBTS {
        let (beat, waiting, log, asks, wanted) = *row;
        if let Some(first) = asks {
            debt.asks(beat, first, log, 50);
        }
        debt.wait(beat, waiting, log);
        check_eq!(&rt; debt.is_owed(beat), wanted, *row);
    }
}

// How many microseconds a cut took, and how many the next one waits.
const RESTS: &[(u32, u64)] = &[(0, 0), (1, 4), (4_400, 17_600), (u32::MAX, 17_179_869_180)];

#[test]
fn a_cut_waits_for_four_times_as_long_as_the_last_one_took(rt: HostRuntime) {
    for row in RESTS {
        let (took, wanted) = *row;
        check_eq!(&rt; rest_after(took), wanted, *row);
    }
}

// How long a node's log is, where a snapshot ends that comes, if one comes; how many ticks there are, each after such a turn; and whether the
// node is behind for good then.
const BEHIND: &[(u64, Option<u64>, u8, bool)] = &[
    (0, None, 40, false),
    (100, Some(4196), 15, false),
    (100, Some(4196), 1, true),
    // Its log grows.
    (101, Some(4196), 15, false),
    // A tick without a snapshot, and with one that ends where the log does, counts for nothing.
    (101, None, 40, false),
    (101, Some(101), 40, false),
    (101, Some(102), 1, true),
    // It takes a snapshot.
    (4196, Some(4196), 40, false),
    (4200, Some(8292), 16, true),
];

#[test]
fn a_node_is_behind_for_good_after_16_ticks_with_a_snapshot_that_it_does_not_take(rt: HostRuntime) {
    let mut behind = Behind::new();
    for row in BEHIND {
        let (log, floor, ticks, wanted) = *row;
        for _ in 0..ticks {
            behind.see(log, floor);
            behind.tick();
        }
        check_eq!(&rt; behind.is_for_good(false), wanted, *row);
        check_eq!(&rt; behind.is_for_good(true), false, *row);
    }
}

#[test]
fn a_node_that_may_be_told_is_behind_for_good_after_2048_ticks(rt: HostRuntime) {
    let mut behind = Behind::new();
    for count in 0..2048u16 {
        check_eq!(&rt; behind.is_for_good(true), false, count);
        check_eq!(&rt; behind.is_for_good(false), count >= 16, count);
        behind.see(0, Some(4096));
        behind.tick();
    }
    check_eq!(&rt; behind.is_for_good(true), true);
}

// How long a node's log is, where a snapshot of a member ends that comes, or another packet of it; how many ticks follow; and whether the member
// may tell the entry after the log then.
const TELLING: &[(u64, Option<u64>, u16, bool)] = &[
    (100, None, 0, true),
    (100, None, 4095, true),
    (100, None, 4096, false),
    (100, Some(101), 0, false),
    // It sends packets for other slots, and a snapshot of before.
    (100, None, 1, false),
    (100, Some(99), 1, false),
    // The log grows to where the snapshot ends, and beyond.
    (101, None, 1, true),
    (101, Some(101), 1, true),
    (101, Some(4096), 1, false),
    (4096, Some(4096), 4095, true),
    (4096, Some(4096), 5000, false),
];

#[test]
fn a_member_may_tell_until_it_offers_a_snapshot_or_is_not_heard_for_4096_ticks(rt: HostRuntime) {
    let mut telling = Telling::new();
    check_eq!(&rt; telling.may_tell(0), false);
    for row in TELLING {
        let (log, floor, ticks, wanted) = *row;
        telling.hears(log, floor);
        for _ in 0..ticks {
            telling.tick();
        }
        check_eq!(&rt; telling.may_tell(log), wanted, *row);
        // It has not shown yet what it has above a longer log.
        check_eq!(&rt; telling.may_tell(log.saturating_add(1)), ticks < 4096, *row);
    }
}

#[test]
fn snapshots_between_two_ticks_count_once(rt: HostRuntime) {
    let mut behind = Behind::new();
    for count in 0..16u8 {
        check_eq!(&rt; behind.is_for_good(false), false, count);
        for _ in 0..40u8 {
            behind.see(0, Some(4096));
            behind.see(0, None);
        }
        behind.tick();
    }
    check_eq!(&rt; behind.is_for_good(false), true);
}
