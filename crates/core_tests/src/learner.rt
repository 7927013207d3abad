// Steps of a learner: votes and reports, what it learns by them, disagreement, what it takes into room made for it, and what it forgets.
ghost use Rattle.std.specs.Prelude.{◌≡◌, ◌<◌, true, IsTrue};
ghost use Rattle.paxos_learner.specs.Learner.{has_room_at};

use crate::check::Check;
use paxos_learner::{Learner, LearnerFault};
use paxos_packets::{Ballot, Body, Entry, Floor, Members, Slot, Vote};
use std::alloc::Global;
use std::process::Abort;
use test_checks::{check, check_eq};
use test_machines::Number;

// The Boot of this node, and a Noop for 0.
fn entry(node: u8) -> Entry<Number> {
    if node == 0 {
        return Entry::Noop;
    }
    Entry::Boot { node, boot: 1 }
}

// Ballot (1, 1), or ballot (2, 2).
fn ballot(round: u64) -> Ballot {
    let node = if round == 1 { 1 } else { 2 };
    Ballot { round, node }
}

// Whether the learner learned this entry in the slot.
fn has_learned(learner: &Learner<Number>, slot: Slot, wanted: &Entry<Number>) -> bool {
    match learner.learned(slot) {
        Some(entry) => entry.same(wanted),
        None => false,
    }
}

// Makes room for a vote, and for the entry of the slot. Returns whether there was memory for both.
fn has_room(learner: &mut Learner<Number>, slot: Slot) -> bool
    ensures votes { IsTrue result → 0 < learner.new.room.votes }
    ensures place { IsTrue result → has_room_at slot learner.new ≡ true }
{
    learner.make_room(2).is_ok() && learner.make_room_at(slot).is_ok()
}

// Puts the vote in the room that is made for it. Returns whether there was memory for that.
fn vote_in_room(
    learner: &mut Learner<Number>,
    node: u8,
    round: u64,
    slot: Slot,
    entry: Entry<Number>,
) -> bool {
    if !has_room(learner, slot) {
        return false;
    }
    let ballot = ballot(round);
    learner.vote_in_room(
        node,
        Vote {
            slot,
            ballot,
            entry,
        },
    );
    true
}

// Puts the entry in the room that is made for it. Returns whether there was memory for that.
fn tell_in_room(learner: &mut Learner<Number>, slot: Slot, entry: Entry<Number>) -> bool {
    if !has_room(learner, slot) {
        return false;
    }
    learner.tell_in_room(slot, entry);
    true
}

// Forgets what is not above the slot, which is its floor from now on, unless it was closed. Returns whether it was not.
fn forget(learner: &mut Learner<Number>, slot: Slot) -> bool {
    if learner.is_closed(slot) {
        return false;
    }
    learner.forget(Floor::at(slot));
    true
}

// What is done or asked, and what comes of it. An entry is a node's Boot, by the node's number, or a Noop for 0.
enum Step {
    // A node votes in the first or the second ballot, in a slot, for an entry.
    Vote(u8, u64, u64, u8, Result<(), LearnerFault>),
    // A member reports an entry of a slot.
    Tell(u64, u8, Result<(), LearnerFault>),
    // Both, in the room that is made for it.
    VoteInRoom(u8, u64, u64, u8),
    TellInRoom(u64, u8),
    // A snapshot gives the log up to this slot, which is above the floor before.
    Forget(u64),
    // Whether a slot is closed.
    IsClosed(u64, bool),
    // Whether any entry was learned in a slot.
    HasAny(u64, bool),
    // This entry was learned in a slot.
    HasLearned(u64, u8),
}

fn slot_of(rt: &impl Abort, number: u64) -> Slot {
    Slot::new(number).expect(rt, "a slot")
}

// Takes the step. Returns whether it comes as it says.
fn take(rt: &impl Abort, learner: &mut Learner<Number>, step: &Step) -> bool {
    match step {
        Step::Vote(node, round, slot, of, wanted) => {
            learner.vote(*node, ballot(*round), slot_of(rt, *slot), &entry(*of)) == *wanted
        },
        Step::Tell(slot, of, wanted) => learner.tell(slot_of(rt, *slot), &entry(*of)) == *wanted,
        Step::VoteInRoom(node, round, slot, of) => {
            vote_in_room(learner, *node, *round, slot_of(rt, *slot), entry(*of))
        },
        Step::TellInRoom(slot, of) => tell_in_room(learner, slot_of(rt, *slot), entry(*of)),
        Step::Forget(slot) => forget(learner, slot_of(rt, *slot)),
        Step::IsClosed(slot, wanted) => learner.is_closed(slot_of(rt, *slot)) == *wanted,
        Step::HasAny(slot, wanted) => learner.learned(slot_of(rt, *slot)).is_some() == *wanted,
        Step::HasLearned(slot, of) => has_learned(learner, slot_of(rt, *slot), &entry(*of)),
    }
}

// Takes all steps; a note on a failed check is the step's place among them, from 0 on.
fn take_all(rt: &impl Abort, learner: &mut Learner<Number>, steps: &[Step]) {
    for (place, step) in steps.iter().enumerate() {
        check!(rt; take(rt, learner, step), place);
    }
}

// Takes all steps of a learner that begins at this floor.
fn check_from(rt: &impl Abort, alloc: Global, floor: Floor, steps: &[Step]) {
    let members = Members::new(3).expect(rt, "3 members");
    let mut learner = Learner::new(alloc, members, floor);
    take_all(rt, &mut learner, steps);
}

fn check(rt: &impl Abort, alloc: Global, steps: &[Step]) {
    check_from(rt, alloc, Floor::none(), steps);
}

const A_MAJORITY_IN_ONE_BALLOT_LEARNS: &[Step] = &[
    Step::Vote(1, 1, 1, 1, Ok(())),
    Step::Vote(1, 1, 1, 1, Ok(())),
    Step::Vote(2, 2, 1, 1, Ok(())),
    Step::Vote(4, 1, 1, 1, Ok(())),
    Step::HasAny(1, false),
    Step::Vote(3, 1, 1, 1, Ok(())),
    Step::HasLearned(1, 1),
];

#[test]
fn a_majority_in_one_ballot_learns(rt: HostRuntime) {
    check(&rt, rt.alloc(), A_MAJORITY_IN_ONE_BALLOT_LEARNS);
}

const ANOTHER_ENTRY_DISAGREES: &[Step] = &[
    Step::Tell(1, 1, Ok(())),
    Step::Tell(1, 1, Ok(())),
    Step::Tell(1, 0, Err(LearnerFault::Disagree)),
    Step::Vote(1, 1, 1, 0, Ok(())),
    Step::Vote(2, 1, 1, 0, Err(LearnerFault::Disagree)),
    Step::HasLearned(1, 1),
];

#[test]
fn another_entry_disagrees(rt: HostRuntime) {
    check_eq!(&rt; LearnerFault::Memory.number(), 56);
    check(&rt, rt.alloc(), ANOTHER_ENTRY_DISAGREES);
}

const WHAT_IS_TOLD_AHEAD_IS_FOUND: &[Step] = &[
    Step::Tell(2, 2, Ok(())),
    Step::Tell(4, 3, Ok(())),
    Step::HasAny(1, false),
    Step::Tell(1, 0, Ok(())),
    Step::HasLearned(1, 0),
    Step::HasLearned(2, 2),
    Step::HasLearned(4, 3),
];

#[test]
fn what_is_told_ahead_is_found(rt: HostRuntime) {
    check(&rt, rt.alloc(), WHAT_IS_TOLD_AHEAD_IS_FOUND);
}

const WHAT_HAS_ROOM_IS_TAKEN_IN: &[Step] = &[
    Step::VoteInRoom(1, 1, 1, 1),
    Step::HasAny(1, false),
    Step::TellInRoom(3, 0),
    Step::VoteInRoom(2, 1, 1, 1),
    Step::HasLearned(1, 1),
    Step::HasLearned(3, 0),
    Step::TellInRoom(1, 0),
    Step::HasLearned(1, 1),
];

#[test]
fn what_has_room_is_taken_in(rt: HostRuntime) {
    check(&rt, rt.alloc(), WHAT_HAS_ROOM_IS_TAKEN_IN);
}

// What was learned and heard up to slot 2 is gone, and what is said of it later changes nothing; above it all goes on.
const WHAT_IS_FORGOTTEN_IS_CLOSED: &[Step] = &[
    Step::Tell(1, 1, Ok(())),
    Step::Tell(2, 2, Ok(())),
    Step::Tell(4, 3, Ok(())),
    Step::Vote(1, 1, 5, 1, Ok(())),
    Step::Forget(2),
    Step::IsClosed(2, true),
    Step::IsClosed(3, false),
    Step::HasAny(1, false),
    Step::HasAny(2, false),
    Step::HasLearned(4, 3),
    Step::Tell(2, 0, Ok(())),
    Step::Vote(1, 1, 2, 0, Ok(())),
    Step::Vote(2, 1, 2, 0, Ok(())),
    Step::HasAny(2, false),
    Step::Tell(4, 0, Err(LearnerFault::Disagree)),
    Step::Tell(3, 2, Ok(())),
    Step::HasLearned(3, 2),
    Step::Vote(2, 1, 5, 1, Ok(())),
    Step::HasLearned(5, 1),
];

#[test]
fn what_is_forgotten_is_closed(rt: HostRuntime) {
    check(&rt, rt.alloc(), WHAT_IS_FORGOTTEN_IS_CLOSED);
}

const VOTES_AT_A_FLOOR_ARE_FORGOTTEN: &[Step] = &[
    Step::Vote(1, 1, 1, 1, Ok(())),
    Step::Vote(1, 1, 2, 1, Ok(())),
    Step::Forget(1),
    Step::Vote(2, 1, 1, 1, Ok(())),
    Step::HasAny(1, false),
    Step::Vote(2, 1, 2, 1, Ok(())),
    Step::HasLearned(2, 1),
];

#[test]
fn votes_at_a_floor_are_forgotten(rt: HostRuntime) {
    check(&rt, rt.alloc(), VOTES_AT_A_FLOOR_ARE_FORGOTTEN);
}

// A floor above all places of the run, and among those ahead of it.
const A_FLOOR_PASSES_ALL_PLACES: &[Step] = &[
    Step::Tell(1, 1, Ok(())),
    Step::Tell(3, 2, Ok(())),
    Step::Tell(300, 2, Ok(())),
    Step::Tell(900, 3, Ok(())),
    Step::Forget(5),
    Step::HasAny(3, false),
    Step::HasAny(6, false),
    Step::HasLearned(300, 2),
    Step::Tell(6, 1, Ok(())),
    Step::HasLearned(6, 1),
    Step::Forget(300),
    Step::HasAny(300, false),
    Step::HasLearned(900, 3),
    Step::Tell(301, 1, Ok(())),
    Step::Forget(1_000),
    Step::HasAny(900, false),
    Step::TellInRoom(1_002, 2),
    Step::TellInRoom(1_001, 1),
    Step::HasLearned(1_001, 1),
    Step::HasLearned(1_002, 2),
];

#[test]
fn a_floor_passes_all_places(rt: HostRuntime) {
    check(&rt, rt.alloc(), A_FLOOR_PASSES_ALL_PLACES);
}

const A_LEARNER_BEGINS_AT_A_FLOOR: &[Step] = &[
    Step::IsClosed(3, true),
    Step::Tell(3, 1, Ok(())),
    Step::HasAny(3, false),
    Step::Tell(4, 2, Ok(())),
    Step::HasLearned(4, 2),
    Step::TellInRoom(2, 0),
    Step::HasAny(2, false),
    Step::VoteInRoom(1, 1, 3, 1),
    Step::VoteInRoom(2, 1, 3, 1),
    Step::HasAny(3, false),
    Step::VoteInRoom(1, 1, 5, 1),
    Step::VoteInRoom(2, 1, 5, 1),
    Step::HasLearned(5, 1),
];

#[test]
fn a_learner_begins_at_a_floor(rt: HostRuntime) {
    let floor = Floor::new(3).expect(&rt, "a floor");
    check_from(&rt, rt.alloc(), floor, A_LEARNER_BEGINS_AT_A_FLOOR);
}
