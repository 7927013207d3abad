// A store over SQLite, asked row by row: a new one, changes, those without a place, and disks that are opened after a crash.
use crate::check::Check;
use acceptor_store::SqlKeeper;
use command_codec::Coder;
use paxos_packets::{Ballot, Body, Change, Entry, Rows, Slot, Snapshot, Vote, Votes};
use sqlite::{Alter, Connection, FileStore, Files, MemStore, Options};
use sqlite_disk::{Crash, Memory};
use std::alloc::Global;
use std::process::Abort;
use store_keeper::{Keeper, KeeperFault};
use test_checks::check_eq;
use test_machines::{Number, Octet};

pub type Sql<S> = SqlKeeper<Number, Octet, S>;

/// What a keeper returned: its fault's number or 0, the boot number, the round promised, and the rounds of the votes in slots 1 to 3,
/// each 0 if there is none.
pub type Answer = (u8, u64, u64, [u64; 3]);

/// A call of a store.
#[derive(Clone, Copy)]
pub enum Call {
    Load,
    Boot,
    Commit,
}

/// What is asked of a store: a commit has its round, its bodies and its slots, and `Cut` commits a snapshot with this floor. `Floor` loads.
/// `Whole` is a call that commits, or whose rows are compared with: the promise (1, 1), if the first is true, and the vote in slot 1 and
/// that ballot for Boot (1, 1), if the second is.
pub enum Ask<'a> {
    Load,
    Boot,
    Commit(u64, u32, &'a [u64]),
    Cut(u8),
    Floor,
    Whole(Call, bool, bool),
    Failures,
}

/// A call, and what it returns; a commit returns its fault alone, and failures are in the place of the boot number. `Floor` has the
/// snapshot's floor there, and in the place of the round how many octets it has: both 0 if there is none. `Whole` has in the place of the
/// round whether promise and votes are just those: 1 or 0.
pub type Row<'a> = (Ask<'a>, Answer);

fn round_in(votes: &Votes<Number>, slot: u64) -> u64 {
    let Some(slot) = Slot::new(slot) else {
        return 0;
    };
    match votes.find(slot) {
        Some(vote) => vote.ballot.round,
        None => 0,
    }
}

fn answer(rows: &Rows<Number>) -> Answer {
    let promised = match rows.promised {
        Some(ballot) => ballot.round,
        None => 0,
    };
    let votes = &rows.votes;
    (
        0,
        rows.boot,
        promised,
        [round_in(votes, 1), round_in(votes, 2), round_in(votes, 3)],
    )
}

fn answered(loaded: Result<Rows<Number>, KeeperFault>) -> Answer {
    match loaded {
        Ok(rows) => {
            let answer = answer(&rows);
            drop(rows);
            answer
        }
        Err(fault) => (fault.number(), 0, 0, [0, 0, 0]),
    }
}

// A vote for an Item with this body.
fn vote(slot: Slot, ballot: Ballot, body: u32) -> Vote<Number> {
    Vote {
        slot,
        ballot,
        entry: Entry::Item {
            node: 1,
            boot: 1,
            seq: 1,
            transport: 1,
            body: Number::new(body),
        },
    }
}

fn put_all(rt: &impl Abort, votes: &mut Votes<Number>, ballot: Ballot, body: u32, slots: &[u64]) {
    for slot in slots {
        let slot = Slot::new(*slot).expect(rt, "a slot");
        votes
            .put(vote(slot, ballot, body))
            .expect(rt, "room for a vote");
    }
}

// A store over any storage: one call each, without contracts. What is asked of it in memory or on disks is one call of what goes over
// rows here, since each call at those types is dear.

// A new database in memory.
pub fn in_memory(rt: &impl Abort, alloc: Global) -> Connection<MemStore> {
    match Connection::open_in_memory(alloc) {
        Ok(conn) => conn,
        Err(_) => panic!(rt; "no room for a database"),
    }
}

// The store over this connection.
pub fn opened<B: Body, C: Coder<B>, S: Alter>(
    rt: &impl Abort,
    alloc: Global,
    conn: Connection<S>,
) -> SqlKeeper<B, C, S> {
    match SqlKeeper::open(alloc, conn) {
        Ok(keeper) => keeper,
        Err(_refused) => panic!(rt; "no store"),
    }
}

/// Loads the rows.
pub fn load<S: Alter>(keeper: &mut Sql<S>) -> Answer {
    answered(keeper.load())
}

fn boot<S: Alter>(keeper: &mut Sql<S>) -> Answer {
    answered(keeper.boot())
}

fn commit<S: Alter>(keeper: &mut Sql<S>, change: &Change<Number>) -> Answer {
    match keeper.commit(change) {
        Ok(()) => (0, 0, 0, [0, 0, 0]),
        Err(fault) => (fault.number(), 0, 0, [0, 0, 0]),
    }
}

// Commits a promise of this round of node 1, and votes for an Item with this body in this ballot, in these slots.
fn committed<S: Alter>(
    rt: &impl Abort,
    alloc: Global,
    keeper: &mut Sql<S>,
    round: u64,
    body: u32,
    slots: &[u64],
) -> Answer {
    let ballot = Ballot { round, node: 1 };
    let mut change = Change {
        promised: Some(ballot),
        snapshot: None,
        votes: Votes::new(alloc),
    };
    put_all(rt, &mut change.votes, ballot, body, slots);
    let done = commit(keeper, &change);
    drop(change);
    done
}

// The floor of the snapshot, and how many octets it has.
fn floor_of(rows: &Rows<Number>) -> (u64, u64) {
    match &rows.snapshot {
        Some(snapshot) => (snapshot.floor().get(), snapshot.octets().len() as u64),
        None => (0, 0),
    }
}

fn floor<S: Alter>(keeper: &mut Sql<S>) -> Answer {
    match keeper.load() {
        Ok(rows) => {
            let (floor, octets) = floor_of(&rows);
            drop(rows);
            (0, floor, octets, [0, 0, 0])
        }
        Err(fault) => (fault.number(), 0, 0, [0, 0, 0]),
    }
}

// Commits a snapshot with this floor.
fn cut<S: Alter>(rt: &impl Abort, alloc: Global, keeper: &mut Sql<S>, floor: u8) -> Answer {
    let octets = [0, 0, 0, 0, 0, 0, 0, floor];
    let octets = Vec::from_slice(alloc, &octets).expect(rt, "room for octets");
    let mut change: Change<Number> = Change::none(alloc);
    change.snapshot = Snapshot::of(octets).expect(rt, "room for a snapshot");
    let done = commit(keeper, &change);
    drop(change);
    done
}

const FIRST: Ballot = Ballot { round: 1, node: 1 };

fn put_boot(rt: &impl Abort, votes: &mut Votes<Number>) {
    let vote = Vote {
        slot: Slot::new(1).expect(rt, "a slot"),
        ballot: FIRST,
        entry: Entry::Boot { node: 1, boot: 1 },
    };
    votes.put(vote).expect(rt, "room for a vote");
}

// The promise (1, 1), and the vote for Boot (1, 1), or one of them, or neither.
fn change(rt: &impl Abort, alloc: Global, promises: bool, votes: bool) -> Change<Number> {
    let mut change = Change {
        promised: if promises { Some(FIRST) } else { None },
        snapshot: None,
        votes: Votes::new(alloc),
    };
    if votes {
        put_boot(rt, &mut change.votes);
    }
    change
}

// The fault or the boot number, and whether promise and votes are just these.
fn compared(found: Result<Rows<Number>, KeeperFault>, change: &Change<Number>) -> Answer {
    match found {
        Ok(rows) => {
            let same = rows.promised == change.promised && rows.votes.same(&change.votes);
            let boot = rows.boot;
            drop(rows);
            (0, boot, u64::from(same), [0, 0, 0])
        }
        Err(fault) => (fault.number(), 0, 0, [0, 0, 0]),
    }
}

fn load_whole<S: Alter>(keeper: &mut Sql<S>, change: &Change<Number>) -> Answer {
    compared(keeper.load(), change)
}

fn boot_whole<S: Alter>(keeper: &mut Sql<S>, change: &Change<Number>) -> Answer {
    compared(keeper.boot(), change)
}

fn whole<S: Alter>(keeper: &mut Sql<S>, call: Call, change: &Change<Number>) -> Answer {
    match call {
        Call::Load => load_whole(keeper, change),
        Call::Boot => boot_whole(keeper, change),
        Call::Commit => commit(keeper, change),
    }
}

/// Calls the keeper with this promise and this vote.
pub fn asked_whole<S: Alter>(
    rt: &impl Abort,
    alloc: Global,
    keeper: &mut Sql<S>,
    call: Call,
    promises: bool,
    votes: bool,
) -> Answer {
    let change = change(rt, alloc, promises, votes);
    let answer = whole(keeper, call, &change);
    drop(change);
    answer
}

fn asked<S: Alter>(rt: &impl Abort, alloc: Global, keeper: &mut Sql<S>, ask: &Ask<'_>) -> Answer {
    match ask {
        Ask::Load => load(keeper),
        Ask::Boot => boot(keeper),
        Ask::Commit(round, body, slots) => committed(rt, alloc, keeper, *round, *body, slots),
        Ask::Cut(floor) => cut(rt, alloc, keeper, *floor),
        Ask::Floor => floor(keeper),
        Ask::Whole(call, promises, votes) => asked_whole(
            rt, alloc, keeper, *call, *promises, *votes,
        ),
        Ask::Failures => (0, keeper.failures(), 0, [0, 0, 0]),
    }
}

// Asks for each row.
fn answers<S: Alter>(rt: &impl Abort, alloc: Global, keeper: &mut Sql<S>, rows: &[Row<'_>]) {
    for (ask, expected) in rows {
        let found = asked(rt, alloc, keeper, ask);
        check_eq!(rt; found, *expected);
    }
}

/// Opens a store, asks it for each row, closes it, and returns its connection.
pub fn life<S: Alter>(
    rt: &impl Abort,
    alloc: Global,
    conn: Connection<S>,
    rows: &[Row<'_>],
) -> Connection<S> {
    let mut keeper: Sql<S> = opened(rt, alloc, conn);
    answers(rt, alloc, &mut keeper, rows);
    keeper.close()
}

// One store after the other over a connection, each asked for its rows.
fn two_lives<S: Alter + Drop>(
    rt: &impl Abort,
    alloc: Global,
    conn: Connection<S>,
    first: &[Row<'_>],
    second: &[Row<'_>],
) {
    let conn = life(rt, alloc, conn, first);
    drop(life(rt, alloc, conn, second));
}

// Does so in memory.
fn two_in_memory(rt: &impl Abort, alloc: Global, first: &[Row<'_>], second: &[Row<'_>]) {
    two_lives(rt, alloc, in_memory(rt, alloc), first, second);
}

/// Boot 1, a commit of the promise (1, 1), and one of the vote for Boot (1, 1).
pub const NEW: &[Row<'static>] = &[
    (Ask::Whole(Call::Load, false, false), (0, 0, 1, [0, 0, 0])),
    (Ask::Whole(Call::Boot, false, false), (0, 1, 1, [0, 0, 0])),
    (Ask::Whole(Call::Commit, true, false), (0, 0, 0, [0, 0, 0])),
    (Ask::Whole(Call::Load, true, false), (0, 1, 1, [0, 0, 0])),
    (Ask::Whole(Call::Commit, false, true), (0, 0, 0, [0, 0, 0])),
    (Ask::Whole(Call::Load, true, true), (0, 1, 1, [0, 0, 0])),
    (Ask::Load, (0, 1, 1, [1, 0, 0])),
];

const AGAIN: &[Row<'static>] = &[
    (Ask::Whole(Call::Load, true, true), (0, 1, 1, [0, 0, 0])),
    (Ask::Whole(Call::Boot, true, true), (0, 2, 1, [0, 0, 0])),
    (Ask::Failures, (0, 0, 0, [0, 0, 0])),
];

#[test]
fn a_new_store(rt: HostRuntime) {
    two_in_memory(&rt, rt.alloc(), NEW, AGAIN);
}

const ROUNDS: &[Row<'static>] = &[
    (Ask::Commit(1, 7, &[2]), (0, 0, 0, [0, 0, 0])),
    (Ask::Commit(2, 8, &[1, 2, 3]), (0, 0, 0, [0, 0, 0])),
    (Ask::Load, (0, 0, 2, [2, 2, 2])),
    (Ask::Commit(3, 8, &[3]), (0, 0, 0, [0, 0, 0])),
];

const ROUNDS_AGAIN: &[Row<'static>] = &[(Ask::Load, (0, 0, 3, [2, 2, 3]))];

#[test]
fn changes(rt: HostRuntime) {
    two_in_memory(&rt, rt.alloc(), ROUNDS, ROUNDS_AGAIN);
}

const WITHOUT_A_PLACE: &[Row<'static>] = &[
    (Ask::Commit(3, 8, &[3]), (0, 0, 0, [0, 0, 0])),
    (Ask::Commit(4, 256, &[1]), (62, 0, 0, [0, 0, 0])),
    (Ask::Commit(4, 8, &[1]), (65, 0, 0, [0, 0, 0])),
    (Ask::Load, (65, 0, 0, [0, 0, 0])),
];

const WITHOUT_A_PLACE_AGAIN: &[Row<'static>] = &[
    (Ask::Load, (0, 0, 3, [0, 0, 3])),
    (Ask::Commit(2, 8, &[]), (62, 0, 0, [0, 0, 0])),
];

#[test]
fn changes_without_a_place(rt: HostRuntime) {
    two_in_memory(&rt, rt.alloc(), WITHOUT_A_PLACE, WITHOUT_A_PLACE_AGAIN);
}

// A cut forgets the votes up to its floor, and a boot keeps the snapshot. The floor is not repeated.
const CUTS: &[Row<'static>] = &[
    (Ask::Commit(3, 8, &[1, 2, 3]), (0, 0, 0, [0, 0, 0])),
    (Ask::Cut(2), (0, 0, 0, [0, 0, 0])),
    (Ask::Load, (0, 0, 3, [0, 0, 3])),
    (Ask::Floor, (0, 2, 8, [0, 0, 0])),
    (Ask::Boot, (0, 1, 3, [0, 0, 3])),
    (Ask::Floor, (0, 2, 8, [0, 0, 0])),
    (Ask::Cut(2), (62, 0, 0, [0, 0, 0])),
    (Ask::Floor, (65, 0, 0, [0, 0, 0])),
];

// It is found again, and no vote is taken at it.
const CUTS_AGAIN: &[Row<'static>] = &[
    (Ask::Floor, (0, 2, 8, [0, 0, 0])),
    (Ask::Load, (0, 1, 3, [0, 0, 3])),
    (Ask::Commit(3, 9, &[3]), (0, 0, 0, [0, 0, 0])),
    (Ask::Commit(3, 9, &[2, 3]), (62, 0, 0, [0, 0, 0])),
];

// One cut after the other, of all votes and of none; and a lower floor.
const HIGHER: &[Row<'static>] = &[
    (Ask::Cut(1), (0, 0, 0, [0, 0, 0])),
    (Ask::Commit(1, 7, &[2, 3]), (0, 0, 0, [0, 0, 0])),
    (Ask::Cut(3), (0, 0, 0, [0, 0, 0])),
    (Ask::Cut(4), (0, 0, 0, [0, 0, 0])),
    (Ask::Load, (0, 0, 1, [0, 0, 0])),
    (Ask::Cut(3), (62, 0, 0, [0, 0, 0])),
];

const HIGHER_AGAIN: &[Row<'static>] = &[
    (Ask::Floor, (0, 4, 8, [0, 0, 0])),
    (Ask::Cut(5), (0, 0, 0, [0, 0, 0])),
    (Ask::Floor, (0, 5, 8, [0, 0, 0])),
];

#[test]
fn snapshots(rt: HostRuntime) {
    two_in_memory(&rt, rt.alloc(), CUTS, CUTS_AGAIN);
    two_in_memory(&rt, rt.alloc(), HIGHER, HIGHER_AGAIN);
}

/// Runs the text in a store, and returns it opened again.
pub fn opened_after<S: Alter>(
    rt: &impl Abort,
    alloc: Global,
    conn: Connection<S>,
    sql: &str,
) -> Sql<S> {
    let mut conn = conn;
    conn.execute_batch(sql).expect(rt, "a text that runs");
    opened(rt, alloc, conn)
}

// The storage after a life.
fn storage_after<S: Alter + Drop>(
    rt: &impl Abort,
    alloc: Global,
    conn: Connection<S>,
    rows: &[Row<'_>],
) -> S {
    life(rt, alloc, conn, rows).into_store()
}

fn on_disks<D: Crash + Drop>(
    rt: &impl Abort,
    alloc: Global,
    files: Files<D>,
) -> Connection<FileStore<D>> {
    assert!(rt; files.may_be_used());
    match Connection::open_files(alloc, files, Options::new(1)) {
        Ok(conn) => conn,
        Err(_left) => panic!(rt; "no database"),
    }
}

// The disks after a life that a crash ends: what was not synced is lost.
fn life_on_disks<D: Crash + Drop>(
    rt: &impl Abort,
    alloc: Global,
    files: Files<D>,
    rows: &[Row<'_>],
) -> Files<D> {
    let conn = on_disks(rt, alloc, files);
    let mut files = storage_after(rt, alloc, conn, rows).close();
    files.log.crash();
    files.db.crash();
    files
}

const BEFORE_A_CRASH: &[Row<'static>] = &[
    (Ask::Boot, (0, 1, 0, [0, 0, 0])),
    (Ask::Commit(1, 7, &[]), (0, 0, 0, [0, 0, 0])),
    (Ask::Commit(1, 7, &[1, 2]), (0, 0, 0, [0, 0, 0])),
];

const BEHIND_A_CRASH: &[Row<'static>] = &[
    (Ask::Load, (0, 1, 1, [1, 1, 0])),
    (Ask::Boot, (0, 2, 1, [1, 1, 0])),
    (Ask::Cut(1), (0, 0, 0, [0, 0, 0])),
];

const BEHIND_ANOTHER: &[Row<'static>] = &[
    (Ask::Load, (0, 2, 1, [0, 1, 0])),
    (Ask::Floor, (0, 1, 8, [0, 0, 0])),
];

fn lives_on_disks<D: Crash + Drop>(rt: &impl Abort, alloc: Global, files: Files<D>) {
    let files = life_on_disks(rt, alloc, files, BEFORE_A_CRASH);
    let files = life_on_disks(rt, alloc, files, BEHIND_A_CRASH);
    drop(life_on_disks(rt, alloc, files, BEHIND_ANOTHER));
}

#[test]
fn disks_opened_anew(rt: HostRuntime) {
    let alloc = rt.alloc();
    let files = Files {
        log: Memory::new(alloc),
        db: Memory::new(alloc),
    };
    lives_on_disks(&rt, alloc, files);
}
