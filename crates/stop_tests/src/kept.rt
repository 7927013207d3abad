// Whether what a node had promised and voted for is found again, on rows; and rows worked out by hand for that.
use crate::check::Check;
use paxos_packets::{Ballot, Body, Entry, Rows, Slot, Snapshot, Vote};
use std::alloc::Global;
use std::process::Abort;
use test_checks::check_eq;
use test_machines::Number;

// Whether a promise is found, or a later one in its place.
fn is_promise_kept(known: Option<Ballot>, found: Option<Ballot>) -> bool {
    match (known, found) {
        (None, _) => true,
        (Some(_), None) => false,
        (Some(known), Some(found)) => !found.is_below(&known),
    }
}

/// Up to which slot a snapshot gives the log, 0 without one.
pub fn floor_of(rows: &Rows<Number>) -> u64 {
    match &rows.snapshot {
        Some(snapshot) => snapshot.floor().get(),
        None => 0,
    }
}

// Whether a vote is found: itself, with its entry, or one of a later ballot in its slot, or a snapshot that has the slot.
fn is_vote_kept(known: &Vote<Number>, found: &Rows<Number>) -> bool {
    match found.votes.find(known.slot) {
        Some(vote) => {
            known.ballot.is_below(&vote.ballot)
                || vote.ballot == known.ballot && vote.entry.same(&known.entry)
        }
        None => known.slot.get() <= floor_of(found),
    }
}

fn are_votes_kept(known: &Rows<Number>, found: &Rows<Number>) -> bool {
    for vote in known.votes.as_slice() {
        if !is_vote_kept(vote, found) {
            return false;
        }
    }
    true
}

/// Whether all that was promised is found: the boot, the promise, the floor, and the votes, each of them, or a later one in its place, or a
/// snapshot that has its slot.
pub fn is_all_kept(known: &Rows<Number>, found: &Rows<Number>) -> bool {
    known.boot <= found.boot
        && is_promise_kept(known.promised, found.promised)
        && floor_of(known) <= floor_of(found)
        && are_votes_kept(known, found)
}

// Whether both are none, or have the same octets.
fn are_same_snapshots(known: &Option<Snapshot>, found: &Option<Snapshot>) -> bool {
    match known {
        Some(known) => match found {
            Some(found) => known.same(found),
            None => false,
        },
        None => found.is_none(),
    }
}

/// Whether both have the same boot, the same promise, the same snapshot, and the same votes with the same entries.
pub fn are_same(known: &Rows<Number>, found: &Rows<Number>) -> bool {
    known.boot == found.boot
        && known.promised == found.promised
        && are_same_snapshots(&known.snapshot, &found.snapshot)
        && known.votes.same(&found.votes)
}

// The boot, the round of the promise, the round and the number of the entry of a vote of ballots of node 1, which is in slot 3, and the floor
// of a snapshot; 0 for none.
type Row = (u64, u64, u64, u32, u8);

// What is found, and whether all of boot 2, the promise of round 5, the vote of round 4 for the number 7, and floor 1 is kept in it, and is
// the same.
const FOUND: &[(Row, bool, bool)] = &[
    ((2, 5, 4, 7, 1), true, true),
    ((3, 6, 4, 7, 1), true, false),
    ((1, 5, 4, 7, 1), false, false),
    ((2, 4, 4, 7, 1), false, false),
    ((2, 0, 4, 7, 1), false, false),
    ((2, 5, 0, 0, 1), false, false),
    ((2, 5, 3, 7, 1), false, false),
    ((2, 5, 4, 8, 1), false, false),
    ((2, 5, 5, 7, 1), true, false),
    ((2, 5, 5, 8, 1), true, false),
    ((2, 5, 4, 7, 0), false, false),
    ((2, 5, 4, 7, 2), true, false),
    ((2, 5, 0, 0, 2), false, false),
    ((2, 5, 0, 0, 3), true, false),
    ((2, 5, 0, 0, 4), true, false),
];

/// The ballot of node 1 in this round, or none for 0.
pub fn ballot_of(round: u64) -> Option<Ballot> {
    if round == 0 {
        return None;
    }
    Some(Ballot { round, node: 1 })
}

/// A vote in this slot for this number.
pub fn vote_in(rt: &impl Abort, slot: u64, ballot: Ballot, number: u32) -> Vote<Number> {
    Vote {
        slot: Slot::new(slot).expect(rt, "a slot"),
        ballot,
        entry: Entry::Item {
            node: 2,
            boot: 1,
            seq: 1,
            transport: 1,
            body: Number::new(number),
        },
    }
}

/// A snapshot at this floor, with this many octets after those of the floor.
pub fn snapshot_at(rt: &impl Abort, alloc: Global, floor: u8, length: usize) -> Option<Snapshot> {
    let mut octets = Vec::from_slice(alloc, &[0, 0, 0, 0, 0, 0, 0, floor]).expect(rt, "room");
    let rest = vec![in alloc; floor; length].expect(rt, "room");
    octets.extend_from_slice(rest.as_slice()).expect(rt, "room");
    Snapshot::of(octets).expect(rt, "room for a snapshot")
}

fn rows_of(rt: &impl Abort, alloc: Global, row: Row) -> Rows<Number> {
    let (boot, promised, voted, number, floor) = row;
    let mut rows = Rows::bare(alloc, boot);
    rows.promised = ballot_of(promised);
    rows.snapshot = snapshot_at(rt, alloc, floor, 0);
    if let Some(ballot) = ballot_of(voted) {
        rows.votes
            .put(vote_in(rt, 3, ballot, number))
            .expect(rt, "room for a vote");
    }
    rows
}

#[test]
fn a_vote_is_kept_with_its_entry(rt: HostRuntime) {
    let alloc = rt.alloc();
    let known = rows_of(&rt, alloc, (2, 5, 4, 7, 1));
    for wanted in FOUND {
        let (row, is_kept, is_same) = *wanted;
        let found = rows_of(&rt, alloc, row);
        let kept = is_all_kept(&known, &found);
        let same = are_same(&known, &found);
        drop(found);
        check_eq!(&rt; (kept, same), (is_kept, is_same), row);
    }
    drop(known);
}
