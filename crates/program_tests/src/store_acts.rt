// A store over SQLite of clients' acts: they are found again, and one without a spelling is refused.
use crate::check::Check;
use crate::sql::{in_memory, opened};
use acceptor_store::SqlKeeper;
use paxos_packets::{Ballot, Body, Change, Entry, Rows, Shared, Slot, Vote, Votes};
use realm_acts::{Act, Id, Read};
use realm_codec::ActCoder;
use sqlite::{Alter, Connection};
use std::alloc::Global;
use std::process::Abort;
use store_keeper::{Keeper, KeeperFault};
use test_checks::{check, check_eq};
use wamp_messages::{UnfitKind, read};

type Sql<S> = SqlKeeper<Act, ActCoder, S>;

// What a keeper returned: its fault's number or 0, the boot number, the round promised, and whether the votes are those that were asked
// for, with equal acts.
type Answer = (u8, u64, u64, bool);

// What is committed, or what votes are compared with: nothing but the promise, votes besides, or votes for other acts.
enum Part {
    Promise,
    Votes,
    Others,
}

// What is asked of a store.
enum Ask {
    Load(Part),
    Boot(Part),
    Commit(Part),
}

// A call, and what it returns; a commit returns its fault alone.
type Row = (Ask, Answer);

// What is asked of a new store with votes for these acts and others, and what of it opened again.
struct Case<'a> {
    words: &'a [&'a str],
    others: &'a [&'a str],
    first: &'a [Row],
    again: &'a [Row],
}

// The parts.
#[derive(Drop)]
struct Changes {
    promise: Change<Act>,
    votes: Change<Act>,
    others: Change<Act>,
}

impl Changes {
    fn part(&self, part: &Part) -> &Change<Act> {
        match part {
            Part::Promise => &self.promise,
            Part::Votes => &self.votes,
            Part::Others => &self.others,
        }
    }
}

// A SUBSCRIBE that is unfit and quiet, which only a PUBLISH may be: it has no spelling.
fn quiet(request: Id) -> Read {
    Read::Unfit {
        kind: UnfitKind::Subscribe,
        request,
        quiet: true,
    }
}

// `quiet`, or what is read of the text of a message: another word ends the test.
fn read_in(rt: &impl Abort, alloc: Global, word: &str) -> Read {
    if word == "quiet" {
        return quiet(Id::new(1).expect(rt, "an id"));
    }
    check!(rt; word.starts_with("["), word);
    read(alloc, word.as_bytes()).expect(rt, "room for a message")
}

fn shared(rt: &impl Abort, alloc: Global, read: Read) -> Shared<Read> {
    match Shared::new(alloc, read) {
        Ok(shared) => shared,
        Err(_) => panic!(rt; "no room for a message"),
    }
}

// `connect`, `hang up`, or what is said with draw 5.
fn act(rt: &impl Abort, alloc: Global, word: &str) -> Act {
    if word == "connect" {
        return Act::Connect;
    }
    if word == "hang up" {
        return Act::Hung;
    }
    let draw = Id::new(5).expect(rt, "an id");
    Act::Said {
        draw,
        read: shared(rt, alloc, read_in(rt, alloc, word)),
    }
}

// A vote in this slot and the ballot (1, 1) for an Item with this act.
fn vote(slot: Slot, body: Act) -> Vote<Act> {
    Vote {
        slot,
        ballot: Ballot { round: 1, node: 1 },
        entry: Entry::Item {
            node: 1,
            boot: 1,
            seq: 1,
            transport: 1,
            body,
        },
    }
}

fn put(rt: &impl Abort, alloc: Global, votes: &mut Votes<Act>, slot: u64, word: &str) {
    let slot = Slot::new(slot).expect(rt, "a slot");
    let vote = vote(slot, act(rt, alloc, word));
    votes.put(vote).expect(rt, "room for a vote");
}

// Votes for these acts in the slots 1 and on.
fn put_all(rt: &impl Abort, alloc: Global, votes: &mut Votes<Act>, words: &[&str]) {
    let mut slot = 1u64;
    for word in words {
        put(rt, alloc, votes, slot, word);
        slot = slot.saturating_add(1);
    }
}

// The promise (1, 1) alone.
fn promise(alloc: Global) -> Change<Act> {
    Change {
        promised: Some(Ballot { round: 1, node: 1 }),
        snapshot: None,
        votes: Votes::new(alloc),
    }
}

fn answer(rows: &Rows<Act>, votes: &Votes<Act>) -> Answer {
    let promised = match rows.promised {
        Some(ballot) => ballot.round,
        None => 0,
    };
    (0, rows.boot, promised, rows.votes.same(votes))
}

fn answered(loaded: Result<Rows<Act>, KeeperFault>, votes: &Votes<Act>) -> Answer {
    match loaded {
        Ok(rows) => {
            let answer = answer(&rows, votes);
            drop(rows);
            answer
        }
        Err(fault) => (fault.number(), 0, 0, false),
    }
}

// A store over any storage: one call each, without contracts.

fn load<S: Alter>(keeper: &mut Sql<S>, votes: &Votes<Act>) -> Answer {
    answered(keeper.load(), votes)
}

fn boot<S: Alter>(keeper: &mut Sql<S>, votes: &Votes<Act>) -> Answer {
    answered(keeper.boot(), votes)
}

fn commit<S: Alter>(keeper: &mut Sql<S>, change: &Change<Act>) -> Answer {
    match keeper.commit(change) {
        Ok(()) => (0, 0, 0, false),
        Err(fault) => (fault.number(), 0, 0, false),
    }
}

fn asked<S: Alter>(keeper: &mut Sql<S>, changes: &Changes, ask: &Ask) -> Answer {
    match ask {
        Ask::Load(part) => load(keeper, &changes.part(part).votes),
        Ask::Boot(part) => boot(keeper, &changes.part(part).votes),
        Ask::Commit(part) => commit(keeper, changes.part(part)),
    }
}

// Asks for each row.
fn answers<S: Alter>(rt: &impl Abort, keeper: &mut Sql<S>, changes: &Changes, rows: &[Row]) {
    for (ask, expected) in rows {
        let found = asked(keeper, changes, ask);
        check_eq!(rt; found, *expected);
    }
}

// Opens a store, asks it for each row, closes it, and returns its connection.
fn life<S: Alter>(
    rt: &impl Abort,
    alloc: Global,
    conn: Connection<S>,
    changes: &Changes,
    rows: &[Row],
) -> Connection<S> {
    let mut keeper: Sql<S> = opened(rt, alloc, conn);
    answers(rt, &mut keeper, changes, rows);
    keeper.close()
}

fn two_lives<S: Alter + Drop>(
    rt: &impl Abort,
    alloc: Global,
    conn: Connection<S>,
    changes: &Changes,
    case: &Case<'_>,
) {
    let conn = life(rt, alloc, conn, changes, case.first);
    drop(life(rt, alloc, conn, changes, case.again));
}

// Goes over the case in memory, with these changes, which have no votes yet.
fn run_with(rt: &impl Abort, alloc: Global, changes: &mut Changes, case: &Case<'_>) {
    put_all(rt, alloc, &mut changes.votes.votes, case.words);
    put_all(rt, alloc, &mut changes.others.votes, case.others);
    two_lives(rt, alloc, in_memory(rt, alloc), changes, case);
}

fn run(rt: &impl Abort, alloc: Global, case: &Case<'_>) {
    let mut changes = Changes {
        promise: promise(alloc),
        votes: promise(alloc),
        others: promise(alloc),
    };
    run_with(rt, alloc, &mut changes, case);
    drop(changes);
}

// A boot, a commit of the promise, one of the votes, and a load.
const FIRST: &[Row] = &[
    (Ask::Boot(Part::Promise), (0, 1, 0, true)),
    (Ask::Commit(Part::Promise), (0, 0, 0, false)),
    (Ask::Commit(Part::Votes), (0, 0, 0, false)),
    (Ask::Load(Part::Votes), (0, 1, 1, true)),
];

// Two loads, beside the votes and beside the others, and a boot.
const SECOND: &[Row] = &[
    (Ask::Load(Part::Votes), (0, 1, 1, true)),
    (Ask::Load(Part::Others), (0, 1, 1, false)),
    (Ask::Boot(Part::Votes), (0, 2, 1, true)),
];

const FOUND: &[Case<'static>] = &[
    Case {
        words: &["[16,1,{\"acknowledge\":true},\"a.b\",[7]]"],
        others: &["[16,1,{\"acknowledge\":true},\"a.b\",[8]]"],
        first: FIRST,
        again: SECOND,
    },
    Case {
        words: &["[32,1,{},\"a.b\"]"],
        others: &["[32,1,{},\"a.c\"]"],
        first: FIRST,
        again: SECOND,
    },
    Case {
        words: &["connect"],
        others: &["hang up"],
        first: FIRST,
        again: SECOND,
    },
];

#[test]
fn acts_are_found_again(rt: HostRuntime) {
    for case in FOUND {
        run(&rt, rt.alloc(), case);
    }
}

// Commits of the votes, of the others, and of the promise; then a load.
const REFUSED: &[Row] = &[
    (Ask::Commit(Part::Votes), (0, 0, 0, false)),
    (Ask::Commit(Part::Others), (62, 0, 0, false)),
    (Ask::Commit(Part::Promise), (65, 0, 0, false)),
    (Ask::Load(Part::Votes), (65, 0, 0, false)),
];

const REFUSED_AGAIN: &[Row] = &[(Ask::Load(Part::Votes), (0, 0, 1, true))];

const UNSPELLED: &[Case<'static>] = &[Case {
    words: &["connect"],
    others: &["[32,1,{},\"a.b\"]", "quiet"],
    first: REFUSED,
    again: REFUSED_AGAIN,
}];

#[test]
fn an_act_without_a_spelling_is_refused(rt: HostRuntime) {
    for case in UNSPELLED {
        run(&rt, rt.alloc(), case);
    }
}
