// A store without a node, over files that have rows. One of them stops after k calls, k from 0 until a run meets no stop: as a store of
// version 1 is opened, and as one of this version commits a snapshot, a promise and a vote.
use crate::check::Check;
use crate::disks::{
    Fused, Leaves, Octets, Plan, Stored, Which, closed, connected, crashed_files, files_of,
    files_with, new_files, new_store, octets_of, opened, store_over,
};
use crate::kept::{are_same, ballot_of, snapshot_at, vote_in};
use acceptor_store::SqlKeeper;
use paxos_packets::{Change, Rows, Votes};
use sqlite::{Alter, Connection, Files};
use std::alloc::Global;
use std::process::Abort;
use store_keeper::Keeper;
use test_checks::{check, check_eq};
use test_machines::{Number, Octet};

// The most calls that a file takes.
const MOST_CALLS: u64 = 1_000;

// The slot, the round and the number of a vote.
type Cast = (u64, u64, u32);

// The boot, the round of the promise, the floor, how many octets the snapshot has after it, and the votes; 0 for none.
type Content<'a> = (u64, u64, u8, usize, &'a [Cast]);

fn put_all(rt: &impl Abort, votes: &mut Votes<Number>, casts: &[Cast]) {
    for (slot, round, number) in casts {
        let ballot = ballot_of(*round).expect(rt, "a ballot");
        votes
            .put(vote_in(rt, *slot, ballot, *number))
            .expect(rt, "room for a vote");
    }
}

fn rows_of(rt: &impl Abort, alloc: Global, content: Content<'_>) -> Rows<Number> {
    let (boot, round, floor, length, casts) = content;
    let mut rows = Rows::bare(alloc, boot);
    rows.promised = ballot_of(round);
    rows.snapshot = snapshot_at(rt, alloc, floor, length);
    put_all(rt, &mut rows.votes, casts);
    rows
}

fn change_of(rt: &impl Abort, alloc: Global, content: Content<'_>) -> Change<Number> {
    let (_, round, floor, length, casts) = content;
    let mut change = Change::none(alloc);
    change.promised = ballot_of(round);
    change.snapshot = snapshot_at(rt, alloc, floor, length);
    put_all(rt, &mut change.votes, casts);
    change
}

// The version and the rows that files have, a change that is committed then, and the rows after it. Without a change the store is opened
// alone.
#[derive(Drop)]
struct Case {
    octets: Octets,
    version: i64,
    before: Rows<Number>,
    change: Option<Change<Number>>,
    after: Rows<Number>,
}

// Where a run stopped.
#[derive(Clone, Copy, PartialEq, Eq)]
enum Stop {
    Nowhere,
    Opening,
    Commit,
}

// A store over any storage: one call each, without contracts.

fn commit_to<S: Alter>(
    rt: &impl Abort,
    keeper: &mut SqlKeeper<Number, Octet, S>,
    change: &Change<Number>,
) -> Stop {
    match keeper.commit(change) {
        Ok(()) => Stop::Nowhere,
        Err(fault) => {
            check_eq!(rt; fault.number(), 61);
            Stop::Commit
        }
    }
}

fn version_in<S: Alter>(rt: &impl Abort, conn: &mut Connection<S>) -> i64 {
    let row = conn
        .query_row("SELECT version FROM meta", &[])
        .expect(rt, "a row");
    row.get(0).expect(rt, "a version")
}

fn loaded<S: Alter>(rt: &impl Abort, keeper: &mut SqlKeeper<Number, Octet, S>) -> Rows<Number> {
    keeper.load().expect(rt, "rows")
}

// The version in a database, and the rows that a store over it has.
fn found_over<S: Alter + Drop>(
    rt: &impl Abort,
    alloc: Global,
    conn: Connection<S>,
) -> (i64, Rows<Number>) {
    let mut conn = conn;
    let version = version_in(rt, &mut conn);
    match opened(alloc, conn) {
        Ok(keeper) => {
            let mut keeper = keeper;
            let rows = loaded(rt, &mut keeper);
            drop(keeper);
            (version, rows)
        }
        Err(_) => panic!(rt; "no store"),
    }
}

fn found_in(
    rt: &impl Abort,
    alloc: Global,
    files: Files<Fused>,
    frames: usize,
) -> (i64, Rows<Number>) {
    match connected(alloc, files, frames) {
        Ok(conn) => found_over(rt, alloc, conn),
        Err(_) => panic!(rt; "no database"),
    }
}

// Commits the change, if there is one, and returns the files.
fn committed(
    rt: &impl Abort,
    keeper: Stored,
    change: &Option<Change<Number>>,
) -> (Stop, Files<Fused>) {
    let mut keeper = keeper;
    let stop = match change {
        Some(change) => commit_to(rt, &mut keeper, change),
        None => Stop::Nowhere,
    };
    (stop, files_of(closed(keeper)))
}

// Where the store over these files stopped, and the files.
fn lived(
    rt: &impl Abort,
    alloc: Global,
    files: Files<Fused>,
    frames: usize,
    change: &Option<Change<Number>>,
) -> (Stop, Files<Fused>) {
    match store_over(alloc, files, frames) {
        Ok(keeper) => committed(rt, keeper, change),
        Err(files) => (Stop::Opening, files),
    }
}

// Whether what is found is new, and not what was there before. It is one of both, and new in this version alone.
fn is_new(rt: &impl Abort, case: &Case, version: i64, rows: &Rows<Number>) -> bool {
    if version == case.version && are_same(&case.before, rows) {
        return version == 2 && are_same(&case.after, rows);
    }
    check_eq!(rt; version, 2);
    check!(rt; are_same(&case.after, rows));
    true
}

// Where the run stopped, if this file does after so many calls, and whether what is found after the crash is new.
fn run(rt: &impl Abort, alloc: Global, case: &Case, plan: Plan, calls: u64) -> (Stop, bool) {
    let files = files_with(rt, alloc, &case.octets, plan.which, calls);
    let (stop, files) = lived(rt, alloc, files, plan.frames, &case.change);
    let left = crashed_files(rt, alloc, files, plan);
    let (version, rows) = found_in(rt, alloc, left, plan.frames);
    let is_new = is_new(rt, case, version, &rows);
    drop(rows);
    (stop, is_new)
}

// How many runs met a stop, each at one call: before the store was open, and in the commit; and after how many of them what was found was
// new.
type Stops = (u64, u64, u64);

fn counted(stops: Stops, stop: Stop, is_new: bool) -> Stops {
    let (opening, commit, new) = stops;
    (
        opening.saturating_add(u64::from(stop == Stop::Opening)),
        commit.saturating_add(u64::from(stop == Stop::Commit)),
        new.saturating_add(u64::from(is_new)),
    )
}

// The stops of all runs until one met none, after which what is found is new, whatever the crash leaves.
fn stops(rt: &impl Abort, alloc: Global, case: &Case, plan: Plan) -> Stops {
    let mut stops = (0, 0, 0);
    for calls in 0..MOST_CALLS {
        let (stop, is_new) = run(rt, alloc, case, plan, calls);
        if stop == Stop::Nowhere {
            check!(rt; is_new);
            return stops;
        }
        stops = counted(stops, stop, is_new);
    }
    panic!(rt; "stops without end")
}

// The stops of this file, if the crash leaves of the log and of the database file nothing, all, nothing of the log alone, and nothing of
// the database file alone.
fn sweep(rt: &impl Abort, alloc: Global, case: &Case, which: Which, frames: usize) -> [Stops; 4] {
    let (nothing, all) = (Leaves::Nothing, Leaves::All);
    [
        stops(rt, alloc, case, Plan::new(which, frames, nothing, nothing)),
        stops(rt, alloc, case, Plan::new(which, frames, all, all)),
        stops(rt, alloc, case, Plan::new(which, frames, nothing, all)),
        stops(rt, alloc, case, Plan::new(which, frames, all, nothing)),
    ]
}

// A store of version 1, with a promise of round 2 in boot 3, and two votes.

const OLD_TABLES: &str =
    "CREATE TABLE meta (k INTEGER PRIMARY KEY, version INTEGER NOT NULL, boot INTEGER NOT NULL, round INTEGER NOT NULL, node INTEGER NOT NULL) STRICT; CREATE TABLE vote (slot INTEGER PRIMARY KEY, round INTEGER NOT NULL, node INTEGER NOT NULL, entry BLOB NOT NULL) STRICT";

const OLD_ROWS: &str =
    "INSERT INTO meta VALUES (1, 1, 3, 2, 1); INSERT INTO vote VALUES (1, 1, 1, X'0302000000000000000100000000000000010000000107'), (2, 2, 1, X'0302000000000000000100000000000000010000000108')";

const OLD: Content<'static> = (3, 2, 0, 0, &[(1, 1, 7), (2, 2, 8)]);

fn written<S: Alter + Drop>(rt: &impl Abort, conn: Connection<S>) -> S {
    let mut conn = conn;
    conn.execute_batch(OLD_TABLES).expect(rt, "the tables");
    conn.execute_batch(OLD_ROWS).expect(rt, "the rows");
    conn.into_store()
}

fn old_octets(rt: &impl Abort, alloc: Global) -> Octets {
    match connected(alloc, new_files(alloc), LONG) {
        Ok(conn) => octets_of(rt, alloc, files_of(written(rt, conn))),
        Err(_) => panic!(rt; "no database"),
    }
}

fn old_store(rt: &impl Abort, alloc: Global) -> Case {
    Case {
        octets: old_octets(rt, alloc),
        version: 1,
        before: rows_of(rt, alloc, OLD),
        change: None,
        after: rows_of(rt, alloc, OLD),
    }
}

// A store with a snapshot at slot 1, and a cut at slot 3, with a promise and a vote.

const FIRST: Content<'static> = (0, 1, 0, 0, &[(1, 1, 7), (2, 1, 7), (3, 1, 7), (4, 1, 7)]);

const CUT: Content<'static> = (0, 0, 1, 9_000, &[]);

const HELD: Content<'static> = (0, 1, 1, 9_000, &[(2, 1, 7), (3, 1, 7), (4, 1, 7)]);

const NEXT: Content<'static> = (0, 2, 3, 5_000, &[(5, 2, 8)]);

const HELD_NEXT: Content<'static> = (0, 2, 3, 5_000, &[(4, 1, 7), (5, 2, 8)]);

fn commit_content<S: Alter>(
    rt: &impl Abort,
    alloc: Global,
    keeper: &mut SqlKeeper<Number, Octet, S>,
    content: Content<'_>,
) {
    let change = change_of(rt, alloc, content);
    check!(rt; commit_to(rt, keeper, &change) == Stop::Nowhere);
    drop(change);
}

fn held_octets(rt: &impl Abort, alloc: Global) -> Octets {
    let mut keeper = new_store(rt, alloc);
    commit_content(rt, alloc, &mut keeper, FIRST);
    commit_content(rt, alloc, &mut keeper, CUT);
    octets_of(rt, alloc, files_of(closed(keeper)))
}

fn held_store(rt: &impl Abort, alloc: Global) -> Case {
    Case {
        octets: held_octets(rt, alloc),
        version: 2,
        before: rows_of(rt, alloc, HELD),
        change: Some(change_of(rt, alloc, NEXT)),
        after: rows_of(rt, alloc, HELD_NEXT),
    }
}

// As the program has it: the log is not copied.
const LONG: usize = 1_000;

// The log is copied by the commit.
const SHORT: usize = 4;

fn old_stops(rt: &impl Abort, alloc: Global, which: Which, frames: usize) -> [Stops; 4] {
    let case = old_store(rt, alloc);
    let found = sweep(rt, alloc, &case, which, frames);
    drop(case);
    found
}

fn held_stops(rt: &impl Abort, alloc: Global, which: Which, frames: usize) -> [Stops; 4] {
    let case = held_store(rt, alloc);
    let found = sweep(rt, alloc, &case, which, frames);
    drop(case);
    found
}

// If the log is lost, what is found is what was there before. If it is kept, it is new after one stop: at the sync of the commit.

#[test]
fn the_log_stops_as_a_store_of_version_one_is_opened(rt: HostRuntime) {
    let found = old_stops(&rt, rt.alloc(), Which::Log, LONG);
    let (lost, kept) = ((63, 0, 0), (63, 0, 1));
    check_eq!(&rt; found, [lost, kept, lost, kept]);
}

#[test]
fn the_database_file_stops_as_a_store_of_version_one_is_opened(rt: HostRuntime) {
    let found = old_stops(&rt, rt.alloc(), Which::Database, LONG);
    check_eq!(&rt; found, [(8, 0, 0); 4]);
}

#[test]
fn a_short_log_stops_as_a_store_of_version_one_is_opened(rt: HostRuntime) {
    let found = old_stops(&rt, rt.alloc(), Which::Log, SHORT);
    let (lost, kept) = ((72, 0, 0), (72, 0, 1));
    check_eq!(&rt; found, [lost, kept, lost, kept]);
}

#[test]
fn the_database_file_of_a_short_log_stops_as_a_store_of_version_one_is_opened(rt: HostRuntime) {
    let found = old_stops(&rt, rt.alloc(), Which::Database, SHORT);
    check_eq!(&rt; found, [(13, 0, 0); 4]);
}

#[test]
fn the_log_stops_in_a_cut(rt: HostRuntime) {
    let found = held_stops(&rt, rt.alloc(), Which::Log, LONG);
    let (lost, kept) = ((81, 6, 0), (81, 6, 1));
    check_eq!(&rt; found, [lost, kept, lost, kept]);
}

#[test]
fn the_database_file_stops_in_a_cut(rt: HostRuntime) {
    let found = held_stops(&rt, rt.alloc(), Which::Database, LONG);
    check_eq!(&rt; found, [(8, 0, 0); 4]);
}

#[test]
fn a_short_log_stops_in_a_cut(rt: HostRuntime) {
    let found = held_stops(&rt, rt.alloc(), Which::Log, SHORT);
    let (lost, kept) = ((81, 18, 0), (81, 18, 1));
    check_eq!(&rt; found, [lost, kept, lost, kept]);
}

#[test]
fn the_database_file_of_a_short_log_stops_in_a_cut(rt: HostRuntime) {
    let found = held_stops(&rt, rt.alloc(), Which::Database, SHORT);
    check_eq!(&rt; found, [(8, 8, 0); 4]);
}
