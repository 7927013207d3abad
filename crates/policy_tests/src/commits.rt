// How long a node's commits take, as its rounds with commits have shown.
use crate::check::Check;
use serve_policy::Commits;
use test_checks::check_eq;

// How many microseconds a round took and how many commits it had; and how many beats a commit takes then.
type Row = (u32, u32, u8);

// A round without a commit shows nothing: 500 microseconds, 1,500 and 3,500.
const FIRST: &[Row] = &[
    (5_000_000, 0, 0),
    (5_000_000, 1, 0),
    (5_000_000, 1, 0),
    (5_000_000, 0, 0),
    (5_000_000, 1, 1),
    (5_000_000, 0, 1),
    (0, 0, 1),
];

// Commits of 10 milliseconds: the time is 500 microseconds, then 1,500, 3,500, 7,500 and 10,000. Of what it is too long after that an eighth
// goes with each commit: 9,000, 8,125, 7,360, 6,440 and 5,640 are left.
const RISING: &[Row] = &[
    (10_000, 1, 0),
    (10_000, 1, 0),
    (10_000, 1, 1),
    (10_000, 1, 3),
    (10_000, 1, 5),
    (10_000, 1, 5),
    (2_000, 1, 4),
    (2_000, 1, 4),
    (2_000, 1, 3),
    (0, 1, 3),
    (40, 1, 2),
];

// Of several commits each takes its part of the round: 60, 500, 1,500, 1,995, 4,000 and 3,999 after them. An eighth of less than eight
// microseconds is none.
const MANY: &[Row] = &[
    (480, 8, 0),
    (1_000, 2, 0),
    (30_000, 20, 0),
    (19_959, 10, 0),
    (40_000, 10, 2),
    (39_999, 10, 2),
    (39_920, 10, 1),
];

// One commit that takes five seconds among others of 800 microseconds: 500, 800, 2,100 and then 1,938.
const STALL: &[Row] = &[(800, 1, 0), (6_400, 8, 0), (5_000_000, 1, 1), (800, 1, 0)];

// The bounds of a beat and of a hundred: 10,250, 21,000, 42,500, 85,500 and 171,500 lie between.
const BEATS: &[Row] = &[
    (500, 1, 0),
    (1_500, 1, 0),
    (1_999, 1, 0),
    (2_000, 1, 1),
    (3_999, 1, 1),
    (4_000, 1, 2),
    (4_999, 1, 2),
    (5_000, 1, 2),
    (4_000, 1, 2),
    (5_000_000, 1, 5),
    (5_000_000, 1, 10),
    (5_000_000, 1, 21),
    (5_000_000, 1, 42),
    (5_000_000, 1, 85),
    (199_999, 1, 99),
    (200_000, 1, 100),
    (202_000, 1, 100),
    (u32::MAX, 1, 100),
];

const RUNS: &[&[Row]] = &[FIRST, RISING, MANY, STALL, BEATS];

#[test]
fn a_commit_takes_what_rounds_with_commits_show(rt: HostRuntime) {
    for rows in RUNS {
        let mut commits = Commits::new();
        check_eq!(&rt; commits.beats(), 0);
        for row in *rows {
            let (micros, count, beats) = *row;
            commits.note(micros, count);
            check_eq!(&rt; commits.beats(), beats, *row);
        }
    }
}
