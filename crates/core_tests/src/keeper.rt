// The keeper in memory: boots, loads and commits, snapshots, commits that fail, and the faults' numbers.
use crate::check::Check;
use crate::snapshots::snapshot_of;
use paxos_packets::{Ballot, Change, Entry, Rows, Slot, Vote, Votes};
use std::alloc::Global;
use std::process::Abort;
use store_keeper::{Keeper, KeeperFault, MemKeeper};
use test_checks::{check, check_eq};
use test_machines::Number;

// What a keeper returned: its fault's number or 0, the boot number, the round promised, and the rounds of the votes in slots 1 to 3,
// each 0 if there is none.
type Answer = (u8, u64, u64, [u64; 3]);

fn round_in(votes: &Votes<Number>, slot: u64) -> u64 {
    let Some(slot) = Slot::new(slot) else {
        return 0;
    };
    match votes.find(slot) {
        Some(vote) => vote.ballot.round,
        None => 0,
    }
}

fn answer(loaded: &Result<Rows<Number>, KeeperFault>) -> Answer {
    let rows = match loaded {
        Ok(rows) => rows,
        Err(fault) => return (fault.number(), 0, 0, [0, 0, 0]),
    };
    let promised = match rows.promised {
        Some(ballot) => ballot.round,
        None => 0,
    };
    let votes = &rows.votes;
    (
        0,
        rows.boot,
        promised,
        [round_in(votes, 1), round_in(votes, 2), round_in(votes, 3)],
    )
}

fn number(done: Result<(), KeeperFault>) -> u8 {
    match done {
        Ok(()) => 0,
        Err(fault) => fault.number(),
    }
}

// Puts votes for Boot (1, 1) in this ballot, in these slots.
fn put_votes(rt: &impl Abort, votes: &mut Votes<Number>, ballot: Ballot, slots: &[u64]) {
    for slot in slots {
        let slot = Slot::new(*slot).expect(rt, "a slot");
        let vote = Vote {
            slot,
            ballot,
            entry: Entry::Boot { node: 1, boot: 1 },
        };
        votes.put(vote).expect(rt, "room for a vote");
    }
}

// A promise of this round of node 1, and such votes.
fn change(rt: &impl Abort, alloc: Global, round: u64, slots: &[u64]) -> Change<Number> {
    let ballot = Ballot { round, node: 1 };
    let mut votes = Votes::new(alloc);
    put_votes(rt, &mut votes, ballot, slots);
    Change {
        promised: Some(ballot),
        snapshot: None,
        votes,
    }
}

// One call each: what a test owns it lends to these.

fn boot(keeper: &mut MemKeeper<Number>) -> Answer {
    answer(&keeper.boot())
}

fn load(keeper: &mut MemKeeper<Number>) -> Answer {
    answer(&keeper.load())
}

fn commit(
    rt: &impl Abort,
    alloc: Global,
    keeper: &mut MemKeeper<Number>,
    round: u64,
    slots: &[u64],
) -> u8 {
    let change = change(rt, alloc, round, slots);
    let done = number(keeper.commit(&change));
    drop(change);
    done
}

// Commits with these rounds in these slots, each with its fault's number or 0.
fn commits(
    rt: &impl Abort,
    alloc: Global,
    keeper: &mut MemKeeper<Number>,
    rows: &[(u64, &[u64], u8)],
) {
    for (round, slots, wanted) in rows {
        check!(rt; commit(rt, alloc, keeper, *round, slots) == *wanted);
    }
}

// A boot, the promise of round 1, and a vote in slot 1.
fn first_run(rt: &impl Abort, alloc: Global, keeper: &mut MemKeeper<Number>) {
    check!(rt; boot(keeper) == (0, 1, 0, [0, 0, 0]));
    commits(rt, alloc, keeper, &[(1, &[], 0), (1, &[1], 0)]);
}

fn second_run(rt: &impl Abort, keeper: &mut MemKeeper<Number>) {
    check!(rt; load(keeper) == (0, 1, 1, [1, 0, 0]));
    check!(rt; boot(keeper) == (0, 2, 1, [1, 0, 0]));
    check!(rt; keeper.failures() == 0);
}

#[test]
fn what_is_committed_is_loaded(rt: HostRuntime) {
    let mut keeper = MemKeeper::new(rt.alloc());
    first_run(&rt, rt.alloc(), &mut keeper);
    let mut again = keeper.reopen();
    second_run(&rt, &mut again);
    drop(again);
}

fn replaces(rt: &impl Abort, alloc: Global, keeper: &mut MemKeeper<Number>) {
    let rows: [(u64, &[u64], u8); 3] = [(1, &[2], 0), (2, &[3, 2, 1], 0), (3, &[3], 0)];
    commits(rt, alloc, keeper, &rows);
    check!(rt; load(keeper) == (0, 0, 3, [2, 2, 3]));
}

#[test]
fn a_vote_replaces_that_of_its_slot(rt: HostRuntime) {
    let mut keeper = MemKeeper::new(rt.alloc());
    replaces(&rt, rt.alloc(), &mut keeper);
    drop(keeper);
}

// Commits a snapshot with this floor, and votes of this round in these slots.
fn cut(
    rt: &impl Abort,
    alloc: Global,
    keeper: &mut MemKeeper<Number>,
    floor: u8,
    round: u64,
    slots: &[u64],
) -> u8 {
    let mut change = change(rt, alloc, round, slots);
    change.snapshot = snapshot_of(rt, alloc, &[0, 0, 0, 0, 0, 0, 0, floor]);
    let done = number(keeper.commit(&change));
    drop(change);
    done
}

// The floor of the snapshot that is loaded, or 0 if there is none.
fn floor(rt: &impl Abort, keeper: &mut MemKeeper<Number>) -> u64 {
    let rows = keeper.load().expect(rt, "the rows");
    let floor = match &rows.snapshot {
        Some(snapshot) => snapshot.floor().get(),
        None => 0,
    };
    drop(rows);
    floor
}

fn is_cut(rt: &impl Abort, alloc: Global, keeper: &mut MemKeeper<Number>) {
    commits(rt, alloc, keeper, &[(1, &[1, 2, 3], 0)]);
    check!(rt; floor(rt, keeper) == 0);
    check!(rt; cut(rt, alloc, keeper, 1, 1, &[]) == 0);
    check!(rt; floor(rt, keeper) == 1);
    check!(rt; load(keeper) == (0, 0, 1, [0, 1, 1]));
    check!(rt; cut(rt, alloc, keeper, 2, 2, &[3]) == 0);
    check!(rt; floor(rt, keeper) == 2);
    check!(rt; load(keeper) == (0, 0, 2, [0, 0, 2]));
    // a change without a snapshot leaves it
    commits(rt, alloc, keeper, &[(3, &[3], 0)]);
}

#[test]
fn a_snapshot_takes_the_place_of_votes(rt: HostRuntime) {
    let mut keeper = MemKeeper::new(rt.alloc());
    is_cut(&rt, rt.alloc(), &mut keeper);
    let mut again = keeper.reopen();
    check!(&rt; floor(&rt, &mut again) == 2);
    check!(&rt; boot(&mut again) == (0, 1, 3, [0, 0, 3]));
    check!(&rt; floor(&rt, &mut again) == 2);
    drop(again);
}

// Two commits with the rounds 1 and 2 in slots 1 and 2, of which one fails: what these return.
fn commits_and_fails(
    rt: &impl Abort,
    alloc: Global,
    keeper: &mut MemKeeper<Number>,
    wants: (u8, u8),
) {
    check!(rt; boot(keeper) == (0, 1, 0, [0, 0, 0]));
    commits(rt, alloc, keeper, &[(1, &[1], wants.0), (2, &[2], wants.1)]);
}

fn has_failed(rt: &impl Abort, keeper: &mut MemKeeper<Number>) {
    check!(rt; load(keeper) == (65, 0, 0, [0, 0, 0]));
    check!(rt; boot(keeper) == (65, 0, 0, [0, 0, 0]));
    check!(rt; keeper.failures() == 1);
}

fn goes_on(rt: &impl Abort, alloc: Global, keeper: &mut MemKeeper<Number>, want: Answer) {
    check!(rt; load(keeper) == want);
    commits(rt, alloc, keeper, &[(3, &[3], 0)]);
}

// A keeper that fails at its kth commit: what it returns, and what is loaded once it is opened again.
fn fails(rt: &impl Abort, alloc: Global, k: u64, after: bool, wants: (u8, u8, Answer)) {
    let mut keeper = MemKeeper::failing(alloc, k, after);
    commits_and_fails(rt, alloc, &mut keeper, (wants.0, wants.1));
    has_failed(rt, &mut keeper);
    let mut again = keeper.reopen();
    goes_on(rt, alloc, &mut again, wants.2);
    drop(again);
}

#[test]
fn the_first_commit_fails(rt: HostRuntime) {
    let alloc = rt.alloc();
    fails(&rt, alloc, 1, false, (61, 65, (0, 1, 0, [0, 0, 0])));
    fails(&rt, alloc, 1, true, (61, 65, (0, 1, 1, [1, 0, 0])));
}

#[test]
fn the_second_commit_fails(rt: HostRuntime) {
    let alloc = rt.alloc();
    fails(&rt, alloc, 2, false, (0, 61, (0, 1, 1, [1, 0, 0])));
    fails(&rt, alloc, 2, true, (0, 61, (0, 1, 2, [1, 2, 0])));
}

#[test]
fn faults_have_their_numbers(rt: HostRuntime) {
    let numbers = [
        KeeperFault::Store.number(),
        KeeperFault::Damaged.number(),
        KeeperFault::Version.number(),
        KeeperFault::Memory.number(),
        KeeperFault::Failed.number(),
        KeeperFault::Boots.number(),
    ];
    check_eq!(&rt; numbers, [61, 62, 63, 64, 65, 66]);
}
