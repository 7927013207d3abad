// Votes of numbers that are put, found and copied; rows are a slot, a round and the number that the Item holds.
use crate::check::Check;
use paxos_packets::{Ballot, Body, Entry, KeptVotes, Slot, Vote, Votes};
use std::alloc::Global;
use std::process::Abort;
use test_checks::{check, check_eq};
use test_machines::Number;

pub fn item<B: Drop>(body: B) -> Entry<B> {
    Entry::Item {
        node: 2,
        boot: 3,
        seq: 4,
        transport: 5,
        body,
    }
}

pub fn slot(rt: &impl Abort, number: u64) -> Slot {
    Slot::new(number).expect(rt, "a slot's number")
}

pub fn vote<B: Drop>(rt: &impl Abort, number: u64, round: u64, entry: Entry<B>) -> Vote<B> {
    Vote {
        slot: slot(rt, number),
        ballot: Ballot { round, node: 1 },
        entry,
    }
}
// Puts a vote for each row: its slot, its round and the number that its Item holds.
fn put_rows(rt: &impl Abort, votes: &mut Votes<Number>, rows: &[(u64, u64, u32)]) {
    for (number, round, body) in rows {
        let vote = vote(rt, *number, *round, item(Number::new(*body)));
        votes.put(vote).expect(rt, "room for a vote");
    }
}

// Votes put in this order.
pub fn votes_of(rt: &impl Abort, alloc: Global, rows: &[(u64, u64, u32)]) -> Votes<Number> {
    let mut votes = Votes::new(alloc);
    put_rows(rt, &mut votes, rows);
    votes
}

// Whether the vote is in this slot and round, for the Item that holds this number.
fn is_vote(vote: &Vote<Number>, row: &(u64, u64, u32)) -> bool {
    let (number, round, body) = *row;
    vote.slot.get() == number
        && vote.ballot == Ballot { round, node: 1 }
        && vote.entry.same(&item(Number::new(body)))
}

// Whether these are the votes, in this order.
pub fn are_votes(votes: &[Vote<Number>], rows: &[(u64, u64, u32)]) -> bool {
    votes.len() == rows.len()
        && votes
            .iter()
            .zip(rows.iter())
            .all(|(vote, row)| is_vote(vote, row))
}

// Whether the vote for this slot is this one, or none is found if none is given.
fn finds(votes: &Votes<Number>, slot: Slot, row: Option<(u64, u64, u32)>) -> bool {
    match (votes.find(slot), row) {
        (Some(vote), Some(row)) => is_vote(vote, &row),
        (None, None) => true,
        _ => false,
    }
}

// Adds those of the others from this slot on to the votes.
fn put_from(
    rt: &impl Abort,
    alloc: Global,
    votes: &mut Votes<Number>,
    others: &Votes<Number>,
    from: u64,
) {
    let later = others.copy_from(alloc, from).expect(rt, "room for a copy");
    votes.put_all(later).expect(rt, "room for the votes");
}

fn are_copied_from(
    rt: &impl Abort,
    alloc: Global,
    votes: &Votes<Number>,
    from: u64,
    rows: &[(u64, u64, u32)],
) -> bool {
    let later = votes.copy_from(alloc, from).expect(rt, "room for a copy");
    let same = are_votes(later.as_slice(), rows);
    drop(later);
    same
}

// Whether the votes are a vote in slot 1, and those from this slot on added to it.
fn is_put_after_one(rt: &impl Abort, alloc: Global, votes: &Votes<Number>, from: u64) -> bool {
    let mut more = votes_of(rt, alloc, &[(1, 1, 1)]);
    put_from(rt, alloc, &mut more, votes, from);
    let same = more.same(votes);
    drop(more);
    same
}

#[test]
fn votes_stand_by_slot(rt: HostRuntime) {
    // the later vote replaces the first of its slot
    let votes = votes_of(
        &rt,
        rt.alloc(),
        &[(5, 1, 1), (1, 1, 1), (3, 1, 1), (3, 2, 2)],
    );
    check!(&rt; are_votes(votes.as_slice(), &[(1, 1, 1), (3, 2, 2), (5, 1, 1)]));
    drop(votes);
}

#[test]
fn votes_are_found_by_slot(rt: HostRuntime) {
    let (second, third) = (slot(&rt, 2), slot(&rt, 3));
    let votes = votes_of(&rt, rt.alloc(), &[(5, 1, 1), (1, 1, 1), (3, 2, 2)]);
    check!(&rt; finds(&votes, third, Some((3, 2, 2))));
    check!(&rt; finds(&votes, second, None));
    drop(votes);
}

fn are_copied(rt: &impl Abort, alloc: Global, votes: &Votes<Number>) {
    check!(rt; are_copied_from(rt, alloc, votes, 2, &[(3, 2, 2), (5, 1, 1)]));
    check!(rt; is_put_after_one(rt, alloc, votes, 2));
}

#[test]
fn votes_are_copied_from_a_slot_on(rt: HostRuntime) {
    let votes = votes_of(&rt, rt.alloc(), &[(5, 1, 1), (1, 1, 1), (3, 2, 2)]);
    are_copied(&rt, rt.alloc(), &votes);
    let all = votes.into_vec();
    check_eq!(&rt; all.len(), 3);
    drop(all);
}

// Puts votes in the room that was made for them.
fn kept_of(rt: &impl Abort, first: Votes<Number>, more: Votes<Number>) -> KeptVotes<Number> {
    let count = more.as_slice().len();
    let mut kept = KeptVotes::of(first);
    kept.make_room(count).expect(rt, "room for the votes");
    kept.put_all_in_room(more);
    kept
}

// How many votes are copied from slot 2 on.
fn copied(rt: &impl Abort, alloc: Global, kept: &KeptVotes<Number>) -> usize {
    let later = kept.copy_from(alloc, 2).expect(rt, "room for a copy");
    let count = later.as_slice().len();
    drop(later);
    count
}

// Whether votes in the slots 1 and 2 are kept, none in 3, and one from 2 on.
fn are_kept(rt: &impl Abort, alloc: Global, kept: &KeptVotes<Number>) -> bool {
    let (second, third) = (slot(rt, 2), slot(rt, 3));
    let found = kept.find(second).is_some() && kept.find(third).is_none();
    found && kept.as_slice().len() == 2 && copied(rt, alloc, kept) == 1
}

// A vote in slot 2, and then one in slot 1 and another in 2.
fn kept(rt: &impl Abort, alloc: Global) -> KeptVotes<Number> {
    let first = votes_of(rt, alloc, &[(2, 1, 1)]);
    let more = votes_of(rt, alloc, &[(1, 1, 2), (2, 2, 3)]);
    kept_of(rt, first, more)
}

#[test]
fn votes_are_put_where_there_is_room(rt: HostRuntime) {
    let kept = kept(&rt, rt.alloc());
    check!(&rt; are_kept(&rt, rt.alloc(), &kept));
    let votes = kept.into_votes();
    check!(&rt; are_votes(votes.as_slice(), &[(1, 1, 2), (2, 2, 3)]));
    drop(votes);
}

// Whether these votes are left above a floor, of votes in the slots 1, 3, 4 and 7.
fn leaves(rt: &impl Abort, alloc: Global, floor: u64, rows: &[(u64, u64, u32)]) -> bool {
    let votes = votes_of(rt, alloc, &[(1, 1, 1), (3, 1, 3), (4, 2, 4), (7, 1, 7)]);
    let mut kept = KeptVotes::of(votes);
    kept.forget(slot(rt, floor));
    let left = are_votes(kept.as_slice(), rows);
    drop(kept);
    left
}

// A floor, and the votes that are left above it.
type Left = (u64, &'static [(u64, u64, u32)]);

const LEFT: &[Left] = &[
    (1, &[(3, 1, 3), (4, 2, 4), (7, 1, 7)]),
    (2, &[(3, 1, 3), (4, 2, 4), (7, 1, 7)]),
    (3, &[(4, 2, 4), (7, 1, 7)]),
    (6, &[(7, 1, 7)]),
    (7, &[]),
    (1_099_511_627_775, &[]),
];

#[test]
fn votes_up_to_a_floor_are_forgotten(rt: HostRuntime) {
    for (floor, rows) in LEFT {
        check!(&rt; leaves(&rt, rt.alloc(), *floor, rows), *floor);
    }
}
