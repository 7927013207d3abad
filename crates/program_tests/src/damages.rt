// A damaged store: what a load, a commit and a boot return of it, and what the keeper returns next.
use crate::check::Check;
use crate::sql::{
    Ask, Call, NEW, Row, Sql, asked_whole, in_memory, life, load, opened, opened_after,
};
use sqlite::{Alter, Connection};
use std::alloc::Global;
use std::process::Abort;
use test_checks::check_eq;

// Boot 1, and a commit of the promise (1, 1) and of a vote for an Item in slot 1.
const ITEM: &[Row<'static>] = &[
    (Ask::Boot, (0, 1, 0, [0, 0, 0])),
    (Ask::Commit(1, 7, &[1]), (0, 0, 0, [0, 0, 0])),
];

// What a call returns: its fault's number or 0, the boot number, and whether promise and votes are those of `NEW`; and the fault of a load
// after it.
type Found = (u8, u64, u64, u8);

fn call_and_load<S: Alter>(
    rt: &impl Abort,
    alloc: Global,
    keeper: &mut Sql<S>,
    call: Call,
    whole: bool,
) -> Found {
    let (fault, boot, same, _) = asked_whole(rt, alloc, keeper, call, whole, whole);
    (fault, boot, same, load(keeper).0)
}

// What is found in the store after this life, damaged by this text: by a load, by a commit of nothing and by a boot, of which each is the
// first call after the store was opened.
fn damaged<S: Alter + Drop>(
    rt: &impl Abort,
    alloc: Global,
    conn: Connection<S>,
    first: &[Row<'_>],
    sql: &str,
) -> [Found; 3] {
    let conn = life(rt, alloc, conn, first);
    let mut keeper: Sql<S> = opened_after(rt, alloc, conn, sql);
    let loaded = call_and_load(rt, alloc, &mut keeper, Call::Load, true);
    let mut keeper: Sql<S> = opened(rt, alloc, keeper.close());
    let committed = call_and_load(rt, alloc, &mut keeper, Call::Commit, false);
    let mut keeper: Sql<S> = opened(rt, alloc, keeper.close());
    let booted = call_and_load(rt, alloc, &mut keeper, Call::Boot, true);
    drop(keeper);
    [loaded, committed, booted]
}

fn damaged_in_memory(rt: &impl Abort, alloc: Global, first: &[Row<'_>], sql: &str) -> [Found; 3] {
    damaged(rt, alloc, in_memory(rt, alloc), first, sql)
}

// Texts that damage the store, and the faults that a load and a boot return then, or else the boot number that they find.
const DAMAGES: &[(&str, (u8, u64), (u8, u64))] = &[
    ("UPDATE meta SET boot = 1", (0, 1), (0, 2)),
    ("UPDATE meta SET version = 9", (63, 0), (63, 0)),
    (
        "UPDATE meta SET version = 3; DELETE FROM snapshot",
        (63, 0),
        (63, 0),
    ),
    ("UPDATE meta SET version = 1", (62, 0), (62, 0)),
    ("UPDATE vote SET entry = X'09'", (62, 0), (62, 0)),
    ("UPDATE vote SET entry = X'0000'", (62, 0), (62, 0)),
    ("DELETE FROM meta", (62, 0), (62, 0)),
    ("INSERT INTO meta VALUES (2, 2, 1, 1, 1)", (62, 0), (62, 0)),
    ("UPDATE meta SET k = 2", (62, 0), (62, 0)),
    ("UPDATE meta SET round = 281474976710656", (62, 0), (62, 0)),
    ("UPDATE meta SET round = 0", (62, 0), (62, 0)),
    ("UPDATE meta SET node = 8", (62, 0), (62, 0)),
    ("UPDATE vote SET slot = 0", (62, 0), (62, 0)),
    ("UPDATE vote SET slot = 1099511627776", (62, 0), (62, 0)),
    ("UPDATE vote SET node = 8", (62, 0), (62, 0)),
    ("UPDATE vote SET round = 2", (62, 0), (62, 0)),
    (
        "UPDATE meta SET boot = 281474976710655",
        (0, 281474976710655),
        (66, 0),
    ),
    ("UPDATE meta SET boot = 281474976710656", (62, 0), (62, 0)),
    ("DELETE FROM snapshot", (62, 0), (62, 0)),
    ("INSERT INTO snapshot VALUES (2, 0, X'')", (62, 0), (62, 0)),
    ("UPDATE snapshot SET k = 2", (62, 0), (62, 0)),
    (
        "DELETE FROM vote; UPDATE snapshot SET floor = 1099511627776, bytes = X'0000010000000000'",
        (62, 0),
        (62, 0),
    ),
    ("UPDATE snapshot SET bytes = X'00'", (62, 0), (62, 0)),
    (
        "UPDATE vote SET slot = 2; UPDATE snapshot SET floor = 1",
        (62, 0),
        (62, 0),
    ),
    (
        "UPDATE vote SET slot = 3; UPDATE snapshot SET floor = 2, bytes = X'0000000000000001'",
        (62, 0),
        (62, 0),
    ),
    (
        "UPDATE snapshot SET floor = 1, bytes = X'0000000000000001'",
        (62, 0),
        (62, 0),
    ),
    ("CREATE TABLE other (a INTEGER) STRICT", (62, 0), (62, 0)),
    ("DROP TABLE snapshot", (62, 0), (62, 0)),
    ("DROP TABLE vote", (62, 0), (62, 0)),
    (
        "DROP TABLE meta; CREATE TABLE meta (k INTEGER PRIMARY KEY) STRICT",
        (62, 0),
        (62, 0),
    ),
];

// What a load returns after a commit or a boot that returned this: a keeper that returned a fault has failed.
fn after(fault: u8) -> u8 {
    if fault == 0 { 0 } else { 65 }
}

// Damages the store after this life, whose promise and votes are those of `NEW` if `same` is 1.
fn damages(
    rt: &impl Abort,
    alloc: Global,
    first: &[Row<'_>],
    same: u64,
    damage: &(&str, (u8, u64), (u8, u64)),
) {
    let (sql, (load, found), (boot, next)) = *damage;
    let found = (load, found, if load == 0 { same } else { 0 }, load);
    let committed = (load, 0, 0, after(load));
    let booted = (boot, next, if boot == 0 { same } else { 0 }, after(boot));
    let all = damaged_in_memory(rt, alloc, first, sql);
    check_eq!(rt; all, [found, committed, booted], sql);
}

#[test]
fn damage(rt: HostRuntime) {
    for damage in DAMAGES {
        damages(&rt, rt.alloc(), NEW, 1, damage);
        damages(&rt, rt.alloc(), ITEM, 0, damage);
    }
}
