// A file of the store of node 2 stops after k calls, k from 0 until a run meets no stop.
use crate::check::Check;
use crate::disks::{Leaves, Plan, Which, live_on_disks};
use crate::session::{Course, Life, Stop};
use std::alloc::Global;
use std::process::Abort;
use test_checks::check_eq;

// The most calls that a file takes before the crash.
const MOST_CALLS: u64 = 1_000;

// How many runs met a stop, each at one call: before the store was open, as the node began a boot, and in a commit. Of these last two, after
// how many the rows that were found were new. And after how many of all the node took the snapshot of node 1.
type Stops = (u64, u64, u64, u64, u64);

fn counted(stops: Stops, life: Life, opened_late: bool) -> Stops {
    let (opening, boot, commit, new, takes) = stops;
    (
        opening.saturating_add(u64::from(opened_late)),
        boot.saturating_add(u64::from(life.stop == Stop::Boot)),
        commit.saturating_add(u64::from(life.stop == Stop::Commit)),
        new.saturating_add(u64::from(life.is_new)),
        takes.saturating_add(u64::from(life.takes)),
    )
}

// The stops of all runs until one met none.
fn stops(rt: &impl Abort, alloc: Global, course: Course, plan: Plan) -> Stops {
    let mut stops = (0, 0, 0, 0, 0);
    for calls in 0..MOST_CALLS {
        let (life, opened_late) = live_on_disks(rt, alloc, course, plan, calls);
        if !opened_late && life.stop == Stop::Nowhere {
            return stops;
        }
        stops = counted(stops, life, opened_late);
    }
    panic!(rt; "stops without end")
}

// The stops of this file, if the crash leaves of the log and of the database file nothing, all, nothing of the log alone, and nothing of
// the database file alone. The log is copied into the database file once it has this many frames.
fn sweep(
    rt: &impl Abort,
    alloc: Global,
    course: Course,
    which: Which,
    frames: usize,
) -> [Stops; 4] {
    let (nothing, all) = (Leaves::Nothing, Leaves::All);
    [
        stops(
            rt,
            alloc,
            course,
            Plan::new(which, frames, nothing, nothing),
        ),
        stops(rt, alloc, course, Plan::new(which, frames, all, all)),
        stops(rt, alloc, course, Plan::new(which, frames, nothing, all)),
        stops(rt, alloc, course, Plan::new(which, frames, all, nothing)),
    ]
}

// As the program has it: the log is not copied in this session.
const LONG: usize = 1_000;

// The log is copied again and again.
const SHORT: usize = 4;

// If the log is lost, the rows are those of before. If it is kept, they are new after one stop of each of the six commits, at its sync.

#[test]
fn the_log_stops(rt: HostRuntime) {
    let found = sweep(&rt, rt.alloc(), Course::Whole, Which::Log, LONG);
    let (lost, kept) = ((23, 5, 26, 0, 0), (23, 5, 26, 6, 0));
    check_eq!(&rt; found, [lost, kept, lost, kept]);
}

#[test]
fn the_database_file_stops(rt: HostRuntime) {
    let found = sweep(&rt, rt.alloc(), Course::Whole, Which::Database, LONG);
    check_eq!(&rt; found, [(14, 0, 0, 0, 0); 4]);
}

#[test]
fn a_short_log_stops(rt: HostRuntime) {
    let found = sweep(&rt, rt.alloc(), Course::Whole, Which::Log, SHORT);
    let (lost, kept) = ((23, 16, 34, 0, 0), (23, 16, 34, 6, 0));
    check_eq!(&rt; found, [lost, kept, lost, kept]);
}

#[test]
fn the_database_file_of_a_short_log_stops(rt: HostRuntime) {
    let found = sweep(&rt, rt.alloc(), Course::Whole, Which::Database, SHORT);
    check_eq!(&rt; found, [(14, 6, 4, 0, 0); 4]);
}

// The same with a cut of node 1, a boot and a snapshot that node 2 takes, and its own cut: eleven commits.

#[test]
fn the_log_stops_in_a_session_of_cuts(rt: HostRuntime) {
    let found = sweep(&rt, rt.alloc(), Course::Cut, Which::Log, LONG);
    let (lost, kept) = ((23, 10, 46, 0, 21), (23, 10, 46, 11, 20));
    check_eq!(&rt; found, [lost, kept, lost, kept]);
}

#[test]
fn the_database_file_stops_in_a_session_of_cuts(rt: HostRuntime) {
    let found = sweep(&rt, rt.alloc(), Course::Cut, Which::Database, LONG);
    check_eq!(&rt; found, [(14, 0, 0, 0, 0); 4]);
}

#[test]
fn a_short_log_stops_in_a_session_of_cuts(rt: HostRuntime) {
    let found = sweep(&rt, rt.alloc(), Course::Cut, Which::Log, SHORT);
    let (lost, kept) = ((23, 21, 72, 0, 29), (23, 21, 72, 11, 28));
    check_eq!(&rt; found, [lost, kept, lost, kept]);
}

#[test]
fn the_database_file_of_a_short_log_stops_in_a_session_of_cuts(rt: HostRuntime) {
    let found = sweep(&rt, rt.alloc(), Course::Cut, Which::Database, SHORT);
    check_eq!(&rt; found, [(14, 6, 12, 0, 4); 4]);
}

// The session without cuts by rounds, in which node 2 begins one boot and makes three commits, of its promise, of its vote in slot 1, and of its
// votes in slots 2 to 4 together. Each is five calls of the log: two writes, a sync, the octet that makes them valid, and a sync. By turns there are
// two commits more, the first of which finds no room in a long log (a write more), and four frames in a short one, which it copies (nine calls more).

#[test]
fn the_log_stops_by_rounds(rt: HostRuntime) {
    let found = sweep(&rt, rt.alloc(), Course::ByRounds, Which::Log, LONG);
    let (lost, kept) = ((23, 5, 15, 0, 0), (23, 5, 15, 4, 0));
    check_eq!(&rt; found, [lost, kept, lost, kept]);
}

#[test]
fn a_short_log_stops_by_rounds(rt: HostRuntime) {
    let found = sweep(&rt, rt.alloc(), Course::ByRounds, Which::Log, SHORT);
    let (lost, kept) = ((23, 16, 15, 0, 0), (23, 16, 15, 4, 0));
    check_eq!(&rt; found, [lost, kept, lost, kept]);
}
