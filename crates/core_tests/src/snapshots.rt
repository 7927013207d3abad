// Snapshots, and an acceptor that has one: a slot that it gives is closed.
use crate::check::Check;
use crate::votes::{are_votes, item, vote, votes_of};
use paxos_acceptor::{Acceptor, Answer, Verdict};
use paxos_packets::{Ballot, Body, Change, Kind, Packet, Rows, Snapshot};
use std::alloc::Global;
use std::process::Abort;
use test_checks::{check, check_eq};
use test_machines::Number;

// The snapshot of these octets, if they are one.
pub fn snapshot_of(rt: &impl Abort, alloc: Global, octets: &[u8]) -> Option<Snapshot> {
    let octets = Vec::from_slice(alloc, octets).expect(rt, "room for octets");
    Snapshot::of(octets).expect(rt, "room for a snapshot")
}

// Whether both are none, or the same.
pub fn are_same_snapshots(one: &Option<Snapshot>, other: &Option<Snapshot>) -> bool {
    match (one, other) {
        (Some(one), Some(other)) => one.same(other),
        (None, None) => true,
        _ => false,
    }
}

// The floor that octets begin with, or 0 if they are no snapshot.
fn floor_of(rt: &impl Abort, alloc: Global, octets: &[u8]) -> u64 {
    match snapshot_of(rt, alloc, octets) {
        Some(snapshot) => snapshot.floor().get(),
        None => 0,
    }
}

const BEGINNINGS: &[(&[u8], u64)] = &[
    (&[], 0),
    (&[0, 0, 0, 0, 0, 0, 1], 0),
    (&[0, 0, 0, 0, 0, 0, 0, 0], 0),
    (&[0, 0, 0, 0, 0, 0, 0, 1], 1),
    (&[0, 0, 0, 0, 0, 0, 1, 2, 9], 258),
    (&[0, 0, 0, 255, 255, 255, 255, 255], 1_099_511_627_775),
    (&[0, 0, 1, 0, 0, 0, 0, 0], 0),
];

#[test]
fn a_snapshot_begins_with_its_floor(rt: HostRuntime) {
    for (octets, floor) in BEGINNINGS {
        check_eq!(&rt; floor_of(&rt, rt.alloc(), octets), *floor);
    }
}

// Whether two are the same, the second of these octets.
fn is_same(rt: &impl Abort, alloc: Global, one: &Snapshot, octets: &[u8]) -> bool {
    match snapshot_of(rt, alloc, octets) {
        Some(other) => one.same(&other),
        None => false,
    }
}

const FIVE: &[u8] = &[0, 0, 0, 0, 0, 0, 0, 5, 1];

#[test]
fn snapshots_of_equal_octets_are_the_same(rt: HostRuntime) {
    let one = snapshot_of(&rt, rt.alloc(), FIVE).expect(&rt, "a snapshot");
    let shared = one.share().expect(&rt, "one holder more");
    let copy = shared.copy(rt.alloc()).expect(&rt, "one holder more");
    check!(&rt; one.same(&shared) && one.same(&copy));
    check_eq!(&rt; (copy.floor().get(), copy.octets() == FIVE), (5, true));
    check!(&rt; is_same(&rt, rt.alloc(), &one, FIVE));
    check!(&rt; !is_same(&rt, rt.alloc(), &one, &[0, 0, 0, 0, 0, 0, 0, 5, 2]));
    check!(&rt; !is_same(&rt, rt.alloc(), &one, &[0, 0, 0, 0, 0, 0, 0, 5]));
    drop(one);
    drop(shared);
    check_eq!(&rt; copy.octets().len(), 9);
    drop(copy);
}

const PROMISED: Ballot = Ballot { round: 2, node: 1 };

// It promised a ballot, its snapshot gives slots up to 5, and it voted in 6 and 7.
fn acceptor(rt: &impl Abort, alloc: Global) -> Acceptor<Number> {
    Acceptor::of(
        alloc,
        Rows {
            boot: 1,
            promised: Some(PROMISED),
            snapshot: snapshot_of(rt, alloc, FIVE),
            votes: votes_of(rt, alloc, &[(6, 2, 1), (7, 2, 1)]),
        },
    )
}

// The floor of the snapshot that gives a slot, or 0 if none does.
fn given(acceptor: &Acceptor<Number>, number: u64) -> u64 {
    match acceptor.gives(number) {
        Some(snapshot) => snapshot.floor().get(),
        None => 0,
    }
}

// Its floor, and that of the snapshot that gives each of the slots 1, 5 and 6.
fn gives(acceptor: &Acceptor<Number>) -> (u64, [u64; 3]) {
    (
        acceptor.floor().get(),
        [given(acceptor, 1), given(acceptor, 5), given(acceptor, 6)],
    )
}

#[test]
fn a_snapshot_gives_slots_up_to_its_floor(rt: HostRuntime) {
    let cut = acceptor(&rt, rt.alloc());
    check_eq!(&rt; gives(&cut), (5, [5, 5, 0]));
    check!(&rt; cut.snapshot().is_some());
    drop(cut);
    let first = Acceptor::of(rt.alloc(), Rows::first(rt.alloc()));
    check_eq!(&rt; gives(&first), (0, [0, 0, 0]));
    check!(&rt; first.snapshot().is_none());
    drop(first);
}

// A change: the floor of its snapshot, or 0 for none, and its votes; and the floor and the votes once that is adopted.
type Adopts = (
    u8,
    &'static [(u64, u64, u32)],
    u64,
    &'static [(u64, u64, u32)],
);

const ADOPTED: &[Adopts] = &[
    (0, &[], 5, &[(6, 2, 1), (7, 2, 1)]),
    (0, &[(8, 2, 2)], 5, &[(6, 2, 1), (7, 2, 1), (8, 2, 2)]),
    (6, &[], 6, &[(7, 2, 1)]),
    (6, &[(8, 2, 2)], 6, &[(7, 2, 1), (8, 2, 2)]),
    (9, &[], 9, &[]),
    // votes are forgotten before the change's own are put
    (7, &[(7, 2, 2)], 7, &[(7, 2, 2)]),
];

// A promise of what is promised, a snapshot with this floor, or none, and these votes.
fn change(rt: &impl Abort, alloc: Global, floor: u8, votes: &[(u64, u64, u32)]) -> Change<Number> {
    Change {
        promised: Some(PROMISED),
        snapshot: snapshot_of(rt, alloc, &[0, 0, 0, 0, 0, 0, 0, floor, 1]),
        votes: votes_of(rt, alloc, votes),
    }
}

fn adopts(rt: &impl Abort, alloc: Global, acceptor: &mut Acceptor<Number>, row: &Adopts) {
    let change = change(rt, alloc, row.0, row.1);
    acceptor.adopt(change).expect(rt, "room for a change");
    check_eq!(rt; acceptor.floor().get(), row.2, row.0);
    check!(rt; are_votes(acceptor.votes(), row.3), row.0);
    check!(rt; acceptor.promised() == Some(PROMISED), row.0);
}

#[test]
fn a_snapshot_takes_the_place_of_votes(rt: HostRuntime) {
    for row in ADOPTED {
        let mut acceptor = acceptor(&rt, rt.alloc());
        adopts(&rt, rt.alloc(), &mut acceptor, row);
        drop(acceptor);
    }
}

// Whether it has all of a change with a vote that it cast, and a snapshot with this floor, or none.
fn has(rt: &impl Abort, alloc: Global, acceptor: &Acceptor<Number>, floor: u8) -> bool {
    let change = change(rt, alloc, floor, &[(6, 2, 1)]);
    let has_all = acceptor.has_all(&change);
    drop(change);
    has_all
}

#[test]
fn a_change_with_a_snapshot_is_never_had(rt: HostRuntime) {
    let acceptor = acceptor(&rt, rt.alloc());
    check!(&rt; has(&rt, rt.alloc(), &acceptor, 0));
    check!(&rt; !has(&rt, rt.alloc(), &acceptor, 5));
    drop(acceptor);
}

// What it does.
#[derive(Clone, Copy, Debug, PartialEq, Eq)]
enum Does {
    // It promises, with this floor, and reports so many votes.
    Promises(u64, usize),
    Refuses,
    Votes,
    // It sends its snapshot, with this floor, and commits nothing.
    Shows(u64),
    Other,
}

fn done_by(verdict: &Verdict<Number>) -> Does {
    let commits = verdict.change.promised.is_some() || !verdict.change.votes.as_slice().is_empty();
    match &verdict.answer {
        Answer::ToSender { kind } => match kind {
            Kind::Promise { floor, votes, .. } => {
                Does::Promises(floor.get(), votes.as_slice().len())
            }
            Kind::Snapshot { snapshot } if !commits => Does::Shows(snapshot.floor().get()),
            Kind::Nack { .. } => Does::Refuses,
            _ => Does::Other,
        },
        Answer::ToOthers { .. } => Does::Votes,
        Answer::Nothing => Does::Other,
    }
}

// What it does when it is asked for a vote in this slot and round.
fn asked(rt: &impl Abort, alloc: Global, number: u64, round: u64) -> Does {
    let acceptor = acceptor(rt, alloc);
    let packet = Packet {
        sender: 2,
        addressee: 3,
        kind: Kind::Accept {
            vote: vote(rt, number, round, item(Number::new(1))),
        },
    };
    let verdict = acceptor.plan(&packet).expect(rt, "room for a verdict");
    let done = done_by(&verdict);
    drop(verdict);
    drop(packet);
    drop(acceptor);
    done
}

#[test]
fn a_slot_that_the_snapshot_gives_is_closed(rt: HostRuntime) {
    check_eq!(&rt; asked(&rt, rt.alloc(), 1, 2), Does::Shows(5));
    check_eq!(&rt; asked(&rt, rt.alloc(), 5, 3), Does::Shows(5));
    check_eq!(&rt; asked(&rt, rt.alloc(), 6, 3), Does::Votes);
    check_eq!(&rt; asked(&rt, rt.alloc(), 5, 1), Does::Refuses);
}

// What it does when it is asked for a promise, with its votes from this slot on.
fn promises(rt: &impl Abort, alloc: Global, first: u64) -> Does {
    let acceptor = acceptor(rt, alloc);
    let packet = Packet {
        sender: 2,
        addressee: 3,
        kind: Kind::Prepare {
            ballot: Ballot { round: 3, node: 2 },
            first,
        },
    };
    let verdict = acceptor.plan(&packet).expect(rt, "room for a verdict");
    let done = done_by(&verdict);
    drop(verdict);
    drop(packet);
    drop(acceptor);
    done
}

#[test]
fn a_promise_reports_what_is_above_the_floor(rt: HostRuntime) {
    check_eq!(&rt; promises(&rt, rt.alloc(), 1), Does::Promises(5, 2));
    check_eq!(&rt; promises(&rt, rt.alloc(), 7), Does::Promises(5, 1));
    check_eq!(&rt; promises(&rt, rt.alloc(), 8), Does::Promises(5, 0));
}
