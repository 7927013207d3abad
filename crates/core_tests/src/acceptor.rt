// An acceptor that is asked for promises and votes: what it commits and sends, which changes it has, and which votes it copies.
use crate::check::Check;
use paxos_acceptor::{Acceptor, Answer, Memory, Verdict};
use paxos_packets::{
    Ballot, Body, Change, Entries, Entry, Floor, Kind, Packet, Rows, Slot, Vote, Votes,
};
use std::alloc::Global;
use std::process::Abort;
use test_checks::{check, check_eq};
use test_machines::Number;

fn vote_for<B: Body>(rt: &impl Abort, alloc: Global, ballot: Ballot, entry: &Entry<B>) -> Vote<B> {
    Vote {
        slot: Slot::new(1).expect(rt, "slot 1"),
        ballot,
        entry: entry.copy(alloc).expect(rt, "room for a copy"),
    }
}

// A vote in this ballot, if there is one.
fn votes_of<B: Body>(
    rt: &impl Abort,
    alloc: Global,
    entry: &Entry<B>,
    ballot: Option<Ballot>,
) -> Votes<B> {
    let Some(ballot) = ballot else {
        return Votes::new(alloc);
    };
    let vote = vote_for(rt, alloc, ballot, entry);
    let mut votes = Votes::new(alloc);
    votes.put(vote).expect(rt, "room for a vote");
    votes
}

// What an acceptor is asked for.
#[derive(Clone, Copy, Debug)]
enum Asked {
    Prepare,
    Accept,
    // What it is not concerned with.
    Ask,
}

// What it does then.
#[derive(Clone, Copy, Debug)]
enum Does {
    // It promises, and reports the vote in this ballot, if it has one.
    Promises(Option<Ballot>),
    // It refuses, since it has promised this ballot.
    Refuses(Ballot),
    Votes,
    Nothing,
}

impl Does {
    fn votes(self) -> bool {
        matches!(self, Does::Votes)
    }
}

// What is asked, in which ballot, and what the acceptor does.
type Row = (Asked, Ballot, Does);

fn kind_of<B: Body>(rt: &impl Abort, alloc: Global, entry: &Entry<B>, row: &Row) -> Kind<B> {
    let (asked, ballot, _) = *row;
    match asked {
        Asked::Prepare => Kind::Prepare { ballot, first: 1 },
        Asked::Accept => Kind::Accept {
            vote: vote_for(rt, alloc, ballot, entry),
        },
        Asked::Ask => Kind::Ask { first: 1 },
    }
}

fn packet_of<B: Body>(rt: &impl Abort, alloc: Global, entry: &Entry<B>, row: &Row) -> Packet<B> {
    Packet {
        sender: 2,
        addressee: 3,
        kind: kind_of(rt, alloc, entry, row),
    }
}

// A promise of this ballot, that reports the vote in the other ballot, if there is one.
fn promise<B: Body>(
    rt: &impl Abort,
    alloc: Global,
    entry: &Entry<B>,
    ballot: Ballot,
    voted: Option<Ballot>,
) -> Kind<B> {
    Kind::Promise {
        ballot,
        floor: Floor::none(),
        votes: votes_of(rt, alloc, entry, voted),
    }
}

// The kind of packet that is wanted in answer.
fn answer_of<B: Body>(rt: &impl Abort, alloc: Global, entry: &Entry<B>, row: &Row) -> Kind<B> {
    let (_, ballot, does) = *row;
    match does {
        Does::Promises(voted) => promise(rt, alloc, entry, ballot, voted),
        Does::Refuses(promised) => Kind::Nack { ballot, promised },
        Does::Votes | Does::Nothing => Kind::Accepted {
            vote: vote_for(rt, alloc, ballot, entry),
        },
    }
}

fn is_same_kind<B: Body>(
    rt: &impl Abort,
    alloc: Global,
    entry: &Entry<B>,
    row: &Row,
    kind: &Kind<B>,
) -> bool {
    let wanted = answer_of(rt, alloc, entry, row);
    let same = kind.same(&wanted);
    drop(wanted);
    same
}

// Whether the answer is that of the row: a vote goes to the others, a promise and a refusal to the sender.
fn is_answer<B: Body>(
    rt: &impl Abort,
    alloc: Global,
    entry: &Entry<B>,
    row: &Row,
    answer: &Answer<B>,
) -> bool {
    match answer {
        Answer::Nothing => matches!(row.2, Does::Nothing),
        Answer::ToSender { kind } => !row.2.votes() && is_same_kind(rt, alloc, entry, row, kind),
        Answer::ToOthers { kind } => row.2.votes() && is_same_kind(rt, alloc, entry, row, kind),
    }
}

// Whether the votes are this one alone.
fn are_voted<B: Body>(
    rt: &impl Abort,
    alloc: Global,
    entry: &Entry<B>,
    ballot: Ballot,
    votes: &Votes<B>,
) -> bool {
    let wanted = vote_for(rt, alloc, ballot, entry);
    let voted = has_voted(votes.as_slice(), &wanted);
    drop(wanted);
    voted
}

// Whether the change is that of the row: a promise and a vote raise what is promised to their ballot.
fn is_change<B: Body>(
    rt: &impl Abort,
    alloc: Global,
    entry: &Entry<B>,
    row: &Row,
    change: &Change<B>,
) -> bool {
    let (_, ballot, does) = *row;
    let promised = match does {
        Does::Promises(_) | Does::Votes => Some(ballot),
        Does::Refuses(_) | Does::Nothing => None,
    };
    let voted = if does.votes() {
        are_voted(rt, alloc, entry, ballot, &change.votes)
    } else {
        change.votes.as_slice().is_empty()
    };
    change.promised == promised && voted
}

fn is_verdict<B: Body>(
    rt: &impl Abort,
    alloc: Global,
    entry: &Entry<B>,
    row: &Row,
    verdict: &Verdict<B>,
) -> bool {
    is_change(rt, alloc, entry, row, &verdict.change)
        && is_answer(rt, alloc, entry, row, &verdict.answer)
}

// Lets the acceptor plan and adopt what the packet brings about. Returns whether it is what the row says.
fn takes<B: Body>(
    rt: &impl Abort,
    alloc: Global,
    acceptor: &mut Acceptor<B>,
    entry: &Entry<B>,
    row: &Row,
    packet: &Packet<B>,
) -> bool {
    let verdict = acceptor.plan(packet).expect(rt, "room for a verdict");
    let is_so = is_verdict(rt, alloc, entry, row, &verdict);
    let Verdict { change, answer } = verdict;
    drop(answer);
    let is_adopted = acceptor.adopt(change).is_ok();
    is_so && is_adopted
}

fn step<B: Body>(
    rt: &impl Abort,
    alloc: Global,
    acceptor: &mut Acceptor<B>,
    entry: &Entry<B>,
    row: &Row,
) -> bool {
    let packet = packet_of(rt, alloc, entry, row);
    let is_so = takes(rt, alloc, acceptor, entry, row, &packet);
    drop(packet);
    is_so
}

const LOW: Ballot = Ballot { round: 1, node: 2 };

const FIRST: Ballot = Ballot { round: 2, node: 1 };

const HIGH: Ballot = Ballot { round: 2, node: 2 };

// An acceptor of empty rows is asked for two promises, for votes of a lower and of the promised ballot, and for a higher promise.
const ROWS: &[Row] = &[
    (Asked::Prepare, FIRST, Does::Promises(None)),
    (Asked::Prepare, FIRST, Does::Refuses(FIRST)),
    (Asked::Accept, LOW, Does::Refuses(FIRST)),
    (Asked::Accept, FIRST, Does::Votes),
    (Asked::Prepare, HIGH, Does::Promises(Some(FIRST))),
    (Asked::Ask, LOW, Does::Nothing),
];

fn is_asked<B: Body>(rt: &impl Abort, alloc: Global, acceptor: &mut Acceptor<B>, entry: &Entry<B>) {
    for row in ROWS {
        check!(rt; step(rt, alloc, acceptor, entry, row), *row);
    }
}

// Whether this vote is the only one.
fn has_voted<B: Body>(votes: &[Vote<B>], wanted: &Vote<B>) -> bool {
    votes.len() == 1 && votes[0].same(wanted)
}

// Whether the acceptor promised the higher ballot, and has voted so.
fn is_left<B: Body>(acceptor: &Acceptor<B>, vote: &Vote<B>) -> bool {
    acceptor.boot() == 1
        && acceptor.promised() == Some(HIGH)
        && has_voted(acceptor.votes(), vote)
        && !acceptor.is_failed()
}

// Whether the acceptor's rows have this vote alone.
fn has_rows<B: Body>(acceptor: Acceptor<B>, vote: &Vote<B>) -> bool {
    let rows = acceptor.into_rows();
    let voted = has_voted(rows.votes.as_slice(), vote);
    drop(rows);
    voted
}

// How many votes it copies from the slot with this number on.
fn copied<B: Body>(rt: &impl Abort, acceptor: &Acceptor<B>, first: u64) -> usize {
    let votes = acceptor.votes_from(first).expect(rt, "room for a copy");
    let count = votes.as_slice().len();
    drop(votes);
    count
}

// Its one vote is copied from its slot on, and not from the next one.
fn is_copied<B: Body>(rt: &impl Abort, acceptor: &Acceptor<B>) {
    check_eq!(rt; copied(rt, acceptor, 1), 1);
    check_eq!(rt; copied(rt, acceptor, 2), 0);
}

// What a change promises, in which ballot it votes, if it does, and whether the acceptor that is left has all of it.
type Had = (Option<Ballot>, Option<Ballot>, bool);

// The acceptor has promised the higher ballot, and voted in the first.
const HAD: &[Had] = &[
    (None, None, true),
    (Some(HIGH), None, true),
    (Some(FIRST), None, false),
    (None, Some(FIRST), true),
    (None, Some(HIGH), false),
    (Some(HIGH), Some(FIRST), true),
    (Some(HIGH), Some(HIGH), false),
];

fn has<B: Body>(
    rt: &impl Abort,
    alloc: Global,
    acceptor: &Acceptor<B>,
    entry: &Entry<B>,
    row: &Had,
) -> bool {
    let change = Change {
        promised: row.0,
        snapshot: None,
        votes: votes_of(rt, alloc, entry, row.1),
    };
    let has_all = acceptor.has_all(&change);
    drop(change);
    has_all
}

// It has all of just the changes that its rows have.
fn has_what_is_adopted<B: Body>(
    rt: &impl Abort,
    alloc: Global,
    acceptor: &Acceptor<B>,
    entry: &Entry<B>,
) {
    for row in HAD {
        check_eq!(rt; has(rt, alloc, acceptor, entry, row), row.2, *row);
    }
}

// The acceptor is asked and left with this vote.
fn plays<B: Body>(
    rt: &impl Abort,
    alloc: Global,
    acceptor: &mut Acceptor<B>,
    entry: &Entry<B>,
    vote: &Vote<B>,
) {
    is_asked(rt, alloc, acceptor, entry);
    acceptor.make_room(1).expect(rt, "room for a vote");
    is_copied(rt, acceptor);
    check!(rt; is_left(acceptor, vote));
    has_what_is_adopted(rt, alloc, acceptor, entry);
}

fn acceptor<B>(alloc: Global) -> Acceptor<B> {
    Acceptor::of(
        alloc,
        Rows {
            boot: 1,
            promised: None,
            snapshot: None,
            votes: Votes::new(alloc),
        },
    )
}

fn is_voted_for<B: Body>(rt: &impl Abort, alloc: Global, entry: &Entry<B>) {
    let vote = vote_for(rt, alloc, FIRST, entry);
    let mut acceptor = acceptor(alloc);
    plays(rt, alloc, &mut acceptor, entry, &vote);
    let is_kept = has_rows(acceptor, &vote);
    drop(vote);
    check!(rt; is_kept);
}

#[test]
fn a_boot_is_voted_for(rt: HostRuntime) {
    is_voted_for(&rt, rt.alloc(), &Entry::<Number>::Boot { node: 1, boot: 1 });
}

fn item<B: Drop>(body: B) -> Entry<B> {
    Entry::Item {
        node: 1,
        boot: 1,
        seq: 1,
        transport: 1,
        body,
    }
}

// An entry whose body allocates.
fn large(rt: &impl Abort, alloc: Global) -> Entry<Entries<Number>> {
    let mut body = Entries::new(alloc);
    body.push(item(Number::new(7)))
        .expect(rt, "room for an entry");
    item(body)
}

#[test]
fn an_item_with_memory_is_voted_for(rt: HostRuntime) {
    let entry = large(&rt, rt.alloc());
    is_voted_for(&rt, rt.alloc(), &entry);
    drop(entry);
}

#[test]
fn out_of_memory_is_50(rt: HostRuntime) {
    check_eq!(&rt; Memory.number(), 50);
    let told = format!(in rt.alloc(); "{}", Memory).expect(&rt, "room for a text");
    check_eq!(&rt; told.as_str(), "no memory for the acceptor");
}
