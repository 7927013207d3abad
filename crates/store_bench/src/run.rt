// The runs: commits after what a store has, and what they take.
use crate::body::{LENGTH, Octets, Plain};
use crate::fault::BenchFault;
use acceptor_store::SqlKeeper;
use paxos_packets::{Ballot, Change, Entry, Rows, Slot, Snapshot, Vote, Votes};
use sqlite::{Alter, Connection, File, FileStore};
use std::alloc::Global;
use std::time::{Duration, Instant};
use store_keeper::Keeper;

type Store<S> = SqlKeeper<Octets, Plain, S>;

// What a boot found: the boot number, the round of the promise and how many votes there are.
#[derive(Clone, Copy)]
struct Found {
    boot: u64,
    round: u64,
    votes: u64,
}

fn found_in(rows: &Rows<Octets>) -> Found {
    let round = match rows.promised {
        Some(ballot) => ballot.round,
        None => 0,
    };
    Found {
        boot: rows.boot,
        round,
        votes: rows.votes.as_slice().len() as u64,
    }
}

// An Item of 200 octets.
fn item(alloc: Global, seq: u64) -> Result<Entry<Octets>, BenchFault> {
    let octets = [b'x'; LENGTH];
    let body = Octets::of(alloc, octets.as_slice()).map_err(|_| BenchFault::Memory)?;
    Ok(Entry::Item {
        node: 1,
        boot: 1,
        seq,
        transport: 1,
        body,
    })
}

// A vote of this round in this slot.
fn vote(alloc: Global, slot: u64, round: u64) -> Result<Vote<Octets>, BenchFault> {
    Ok(Vote {
        slot: Slot::new(slot).ok_or(BenchFault::Slots)?,
        ballot: Ballot { round, node: 1 },
        entry: item(alloc, slot)?,
    })
}

// A vote of this round in this slot, and with it the promise of that round if `promises`.
fn change(
    alloc: Global,
    slot: u64,
    round: u64,
    promises: bool,
) -> Result<Change<Octets>, BenchFault> {
    let mut votes = Votes::new(alloc);
    if votes.put(vote(alloc, slot, round)?).is_err() {
        return Err(BenchFault::Memory);
    }
    let promised = if promises {
        Some(Ballot { round, node: 1 })
    } else {
        None
    };
    Ok(Change {
        promised,
        snapshot: None,
        votes,
    })
}

// One call each, without contracts, so that no function above carries those of the keeper. A connection is handed back with each fault, so
// that nothing here drops what a database is made of.

fn open<S: Alter>(
    alloc: Global,
    conn: Connection<S>,
) -> Result<Store<S>, (BenchFault, Connection<S>)> {
    if !conn.is_autocommit() {
        return Err((BenchFault::Slots, conn));
    }
    match SqlKeeper::open(alloc, conn) {
        Ok(store) => Ok(store),
        Err((fault, conn)) => Err((BenchFault::Keeper(fault), conn)),
    }
}

fn boot<S: Alter>(store: &mut Store<S>) -> Result<Found, BenchFault> {
    let rows = store.boot()?;
    Ok(found_in(&rows))
}

fn load<S: Alter>(store: &mut Store<S>) -> Result<Found, BenchFault> {
    let rows = store.load()?;
    Ok(found_in(&rows))
}

fn commit<S: Alter>(store: &mut Store<S>, change: &Change<Octets>) -> Result<(), BenchFault> {
    store.commit(change)?;
    Ok(())
}

// A promise alone.
fn promise<S: Alter>(alloc: Global, store: &mut Store<S>, round: u64) -> Result<(), BenchFault> {
    let change = Change {
        promised: Some(Ballot { round, node: 1 }),
        snapshot: None,
        votes: Votes::new(alloc),
    };
    commit(store, &change)
}

// A vote of this round in this slot, and with it the promise of that round if `promises`.
fn commit_next<S: Alter>(
    alloc: Global,
    store: &mut Store<S>,
    slot: u64,
    round: u64,
    promises: bool,
) -> Result<(), BenchFault> {
    let next = change(alloc, slot, round, promises)?;
    commit(store, &next)
}

// Commits a vote in each of the next slots, `times` times, each with another promise if `promises`.
fn commits<S: Alter>(
    alloc: Global,
    store: &mut Store<S>,
    from: Found,
    times: u64,
    promises: bool,
) -> Result<(), BenchFault> {
    let mut slot = from.votes;
    let mut round = from.round;
    for _ in 0..times {
        slot = slot.saturating_add(1);
        if promises {
            round = round.saturating_add(1);
        }
        commit_next(alloc, store, slot, round, promises)?;
    }
    Ok(())
}

// Prints on standard error what one of `times` steps took.
fn tell(rt: &HostRuntime, what: &str, taken: Duration, times: u64) {
    let each = taken.as_nanos() / u128::from(times.max(1));
    let _ = eprintln!(rt; "{what}: {each} ns");
}

// Prints on standard error what one of `times` steps took since the start.
fn tell_since(rt: &HostRuntime, what: &str, start: Instant, times: u64) -> Result<(), BenchFault> {
    tell(rt, what, start.elapsed(rt)?, times);
    Ok(())
}

// Begins a boot, and makes a first promise if the store has none.
fn begin<S: Alter>(rt: &HostRuntime, store: &mut Store<S>) -> Result<Found, BenchFault> {
    let start = Instant::now(rt)?;
    let mut begun = boot(store)?;
    tell_since(rt, "loading and a boot", start, 1)?;
    if begun.round == 0 {
        promise(rt.alloc(), store, 1)?;
        begun.round = 1;
    }
    Ok(begun)
}

// Commits `times` votes, then `times` promises with a vote, and prints what a commit took.
fn time_commits<S: Alter>(
    rt: &HostRuntime,
    store: &mut Store<S>,
    from: Found,
    times: u64,
) -> Result<(), BenchFault> {
    let start = Instant::now(rt)?;
    commits(rt.alloc(), store, from, times, false)?;
    tell_since(rt, "a commit of a vote", start, times)?;
    let with_votes = Found {
        votes: from.votes.saturating_add(times),
        ..from
    };
    let start = Instant::now(rt)?;
    commits(rt.alloc(), store, with_votes, times, true)?;
    tell_since(rt, "a commit of a promise and a vote", start, times)
}

// Begins a boot, measures commits after what the store has, and prints what it holds then.
fn run_over<S: Alter>(
    rt: &HostRuntime,
    store: &mut Store<S>,
    times: u64,
) -> Result<(), BenchFault> {
    let from = begin(rt, store)?;
    time_commits(rt, store, from, times)?;
    let held = load(store)?;
    println!(rt;
        "boot {}: {times} commits of a vote, {times} of a promise and a vote; {} votes are held, and round {} is promised",
        held.boot, held.votes, held.round
    )?;
    Ok(())
}

/// What a run measures.
#[derive(Clone, Copy, Debug)]
pub enum Measure {
    /// So many commits of a vote, then as many of a promise and a vote.
    Commits(u64),
    /// One commit of a snapshot at this floor, of this many octets.
    Cut(u64, usize),
}

// The whole run over a connection, which is given back.
fn run<S: Alter>(
    rt: &HostRuntime,
    conn: Connection<S>,
    measure: Measure,
) -> (Connection<S>, Result<(), BenchFault>) {
    match open(rt.alloc(), conn) {
        Ok(store) => {
            let mut store = store;
            let done = match measure {
                Measure::Commits(times) => run_over(rt, &mut store, times),
                Measure::Cut(floor, length) => cut_over(rt, &mut store, floor, length),
            };
            (store.close(), done)
        }
        Err((fault, conn)) => (conn, Err(fault)),
    }
}

/// Measures a store in memory.
pub fn in_memory(rt: &HostRuntime, measure: Measure) -> Result<(), BenchFault> {
    let conn = Connection::open_in_memory(rt.alloc())?;
    let (conn, done) = run(rt, conn, measure);
    drop(conn);
    done
}

// Runs over a file that took this long to open, and closes it.
fn run_on(
    rt: &HostRuntime,
    conn: Connection<FileStore<File>>,
    start: Instant,
    measure: Measure,
) -> Result<(), BenchFault> {
    let (conn, done) = match tell_since(rt, "opening", start, 1) {
        Ok(()) => run(rt, conn, measure),
        Err(fault) => (conn, Err(fault)),
    };
    let closed = conn.close();
    done?;
    closed?;
    Ok(())
}

/// Measures a store on the file at this path; commits go on after what it has, and a cut wants an empty one.
pub fn on_file(rt: &HostRuntime, path: &str, measure: Measure) -> Result<(), BenchFault> {
    let start = Instant::now(rt)?;
    let conn = Connection::open(rt, path)?;
    run_on(rt, conn, start, measure)
}

// How many votes a cut leaves.
const LEFT: u64 = 64;

// How many votes a commit has while a store is filled.
const BATCH: u64 = 1024;

// Votes of round 1 in the slots from `first` to `last`, with the promise of that round.
fn votes_of(alloc: Global, first: u64, last: u64) -> Result<Change<Octets>, BenchFault> {
    let mut votes = Votes::new(alloc);
    for slot in first..=last {
        if votes.put(vote(alloc, slot, 1)?).is_err() {
            return Err(BenchFault::Memory);
        }
    }
    Ok(Change {
        promised: Some(Ballot { round: 1, node: 1 }),
        snapshot: None,
        votes,
    })
}

// Fills an empty store with votes in the slots up to `last`.
fn fill<S: Alter>(alloc: Global, store: &mut Store<S>, last: u64) -> Result<(), BenchFault> {
    let mut first = 1u64;
    for _ in 0..=last / BATCH {
        let end = first.saturating_add(BATCH - 1).min(last);
        let change = votes_of(alloc, first, end)?;
        commit(store, &change)?;
        first = end.saturating_add(1);
    }
    Ok(())
}

// A snapshot of this many octets at this floor.
fn snapshot(alloc: Global, floor: u64, length: usize) -> Result<Snapshot, BenchFault> {
    let mut octets = Vec::from_slice(alloc, floor.to_be_bytes().as_slice())?;
    let rest = vec![in alloc; b'x'; length.saturating_sub(octets.len())]?;
    octets.extend_from_slice(rest.as_slice())?;
    match Snapshot::of(octets) {
        Ok(Some(snapshot)) => Ok(snapshot),
        Ok(None) => Err(BenchFault::Slots),
        Err(_) => Err(BenchFault::Memory),
    }
}

// Commits a snapshot of this many octets at this floor.
fn cut<S: Alter>(
    alloc: Global,
    store: &mut Store<S>,
    floor: u64,
    length: usize,
) -> Result<(), BenchFault> {
    let change = Change {
        promised: None,
        snapshot: Some(snapshot(alloc, floor, length)?),
        votes: Votes::new(alloc),
    };
    commit(store, &change)
}

// Fills the store with votes, commits a snapshot that forgets all but the last ones, and prints what is held then.
fn cut_over<S: Alter>(
    rt: &HostRuntime,
    store: &mut Store<S>,
    floor: u64,
    length: usize,
) -> Result<(), BenchFault> {
    boot(store)?;
    let start = Instant::now(rt)?;
    fill(rt.alloc(), store, floor.saturating_add(LEFT))?;
    tell_since(rt, "filling the store", start, 1)?;
    let start = Instant::now(rt)?;
    cut(rt.alloc(), store, floor, length)?;
    tell_since(rt, "a commit of a snapshot", start, 1)?;
    let held = load(store)?;
    println!(rt;
        "{floor} votes are forgotten with a snapshot of {length} octets; {} votes are held",
        held.votes
    )?;
    Ok(())
}
