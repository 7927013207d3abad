// An actor whose store is in SQLite, on disks in memory: its promise outlives it, and no boot follows the last one.
ghost use Rattle.std.specs.Prelude.{◌≡◌, All};
ghost use Rattle.test_stands.specs.Fresh.{IsFresh};

use crate::check::Check;
use crate::disks::new_store;
use crate::session::{Second, crashed, opened};
use acceptor_store::SqlKeeper;
use mail_table::{Mail, NodeSeat, Office, found};
use node_actor::{Keeper, Members};
use sqlite::Alter;
use std::alloc::Global;
use std::process::Abort;
use test_checks::check_eq;
use test_machines::{Count, Number, Octet};
use test_stands::{Begun, Left, SeatedActor, again, close_left};

/// A store that can be closed and opened again.
trait Reopens {
    /// Runs the text in the database, and returns the store opened again.
    fn reopen_after<R: Abort>(self, rt: &R, alloc: Global, sql: &str) -> Self;
}

impl<S: Alter> Reopens for SqlKeeper<Number, Octet, S> {
    fn reopen_after<R: Abort>(self, rt: &R, alloc: Global, sql: &str) -> Self {
        let mut conn = self.close();
        conn.execute_batch(sql).expect(rt, "a text that runs");
        match SqlKeeper::open(alloc, conn) {
            Ok(keeper) => keeper,
            Err(_refused) => panic!(rt; "no store"),
        }
    }
}

// What comes of a restart, once the text was run in the store; and the round that the node had promised.
fn restarted<'a, K: Keeper<Number> + Reopens>(
    rt: &impl Abort,
    alloc: Global,
    actor: Second<'a, K>,
    sql: &str,
) -> (Second<'a, K>, u64) {
    let (left, keeper) = crashed(actor);
    let round = promised(&left);
    let keeper = keeper.reopen_after(rt, alloc, sql);
    (left.restart(alloc, Count::new(alloc), keeper), round)
}

// The round that the node had promised, 0 if none.
fn promised(left: &Left<'_, Count>) -> u64 {
    match left.rows() {
        Some(rows) => match rows.promised {
            Some(ballot) => ballot.round,
            None => 0,
        },
        None => 0,
    }
}

// It begins five ballots, and promises each to itself.
fn begin_five<K: Keeper<Number>>(actor: &mut SeatedActor<'_, Count, K>) {
    for _ in 0..5 {
        drop(actor.start());
    }
}

// Drops what is left, and returns the number of the fault.
fn number_of<K: Keeper<Number> + Drop>(rt: &impl Abort, begun: Second<'_, K>) -> u8 {
    match begun {
        Begun::Again(_actor) => panic!(rt; "an actor"),
        Begun::Not(number, left, keeper) => {
            close_left(left);
            drop(keeper);
            number
        }
    }
}

const SAME: &str = "UPDATE meta SET boot = boot";

const LAST: &str = "UPDATE meta SET boot = 281474976710655";

// The round that the actor has promised after a restart, and the fault of the next one, if its store has the last boot number.
fn lives<K: Keeper<Number> + Reopens + Drop>(
    rt: &impl Abort,
    alloc: Global,
    actor: Second<'_, K>,
) -> (u64, u8) {
    let mut actor = again(actor).expect(rt, "an actor");
    begin_five(&mut actor);
    let (next, _) = restarted(rt, alloc, Begun::Again(actor), SAME);
    let next = again(next).expect(rt, "an actor again");
    let (last, round) = restarted(rt, alloc, Begun::Again(next), LAST);
    (round, number_of(rt, last))
}

fn lives_at<K: Keeper<Number> + Reopens + Drop>(
    rt: &impl Abort,
    alloc: Global,
    mail: &Mail<Number>,
    seats: &mut Vec<NodeSeat<Number>>,
    members: Members,
    keeper: K,
) -> (u64, u8)
    requires fresh { All (IsFresh mail.now) seats.old.items }
    requires members { members ≡ mail.now.members }
{
    let actor = opened(rt, alloc, mail, seats, members, keeper);
    lives(rt, alloc, actor)
}

// Does so at a new table.
fn outlives<K: Keeper<Number> + Reopens + Drop>(
    rt: &impl Abort,
    alloc: Global,
    keeper: K,
) -> (u64, u8) {
    let members = Members::new(3).expect(rt, "three members");
    let mut office = Office::new();
    let Ok((mail, mut seats)) = found::<Number>(alloc, &mut office, members) else {
        panic!(rt; "no room for a table");
    };
    lives_at(rt, alloc, &mail, &mut seats, members, keeper)
}

// Does so over any storage, since a call at the types of a file's pages is dear.
fn outlives_over<S: Alter + Drop>(
    rt: &impl Abort,
    alloc: Global,
    keeper: SqlKeeper<Number, Octet, S>,
) -> (u64, u8) {
    outlives(rt, alloc, keeper)
}

#[test]
fn a_promise_outlives_its_actor(rt: HostRuntime) {
    let alloc = rt.alloc();
    let (round, fault) = outlives_over(&rt, alloc, new_store(&rt, alloc));
    check_eq!(&rt; (round, fault), (5, 66));
}
