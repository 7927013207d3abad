// Steps of a proposer: ballots, promises and what they call for, proposals, refusals, and moves in the room made for them.
use crate::check::Check;
use paxos_packets::{Ballot, Body, Entries, Entry, Floor, Members, Slot, Vote, Votes};
use paxos_proposer::{Move, Proposals, Proposer, ProposerFault};
use std::alloc::Global;
use std::process::Abort;
use test_checks::{check, check_eq};
use test_machines::Number;

// A vote that a promise reports: for the Boot of this node, in the slot and the ballot.
#[derive(Clone, Copy)]
struct Report {
    slot: u64,
    ballot: Ballot,
    node: u8,
}

const NONE: &[Report] = &[];

const fn ballot(round: u64, node: u8) -> Ballot {
    Ballot { round, node }
}

const fn reported(slot: u64, ballot: Ballot, node: u8) -> Report {
    Report { slot, ballot, node }
}

fn proposer(rt: &impl Abort, alloc: Global) -> Proposer<Number> {
    Proposer::new(alloc, 1, Members::new(3).expect(rt, "3 members"))
}

fn votes(rt: &impl Abort, alloc: Global, reports: &[Report]) -> Votes<Number> {
    let mut votes = Votes::new(alloc);
    for report in reports {
        let vote = Vote {
            slot: Slot::new(report.slot).expect(rt, "a slot"),
            ballot: report.ballot,
            entry: boot(report.node),
        };
        votes.put(vote).expect(rt, "room for a vote");
    }
    votes
}

// The act of this number, with this body.
fn item(body: u32) -> Entry<Number> {
    Entry::Item {
        node: 2,
        boot: 1,
        seq: 1,
        transport: 1,
        body: Number::new(body),
    }
}

fn boot(node: u8) -> Entry<Number> {
    Entry::Boot { node, boot: 1 }
}

// The nodes whose Boots these entries are, 0 for a Noop; another entry is 9.
fn boots(rt: &impl Abort, alloc: Global, entries: &Entries<Number>) -> Vec<u8> {
    let mut nodes = Vec::new(alloc);
    for entry in entries.as_slice() {
        let node = match entry {
            Entry::Noop => 0,
            Entry::Boot { node, .. } => *node,
            Entry::Lost { .. } | Entry::Item { .. } => 9,
        };
        nodes.push(node).expect(rt, "room for a node");
    }
    nodes
}

fn floor(rt: &impl Abort, number: u64) -> Floor {
    Floor::new(number).expect(rt, "a floor")
}

// Begins a ballot from this slot on, with its own promise above this floor.
fn start_above(
    rt: &impl Abort,
    alloc: Global,
    proposer: &mut Proposer<Number>,
    first: u64,
    above: u64,
) -> Result<Ballot, ProposerFault> {
    if first == 0 {
        panic!(rt; "no slot is numbered 0");
    }
    proposer.start(first, floor(rt, above), votes(rt, alloc, NONE))
}

fn start(
    rt: &impl Abort,
    alloc: Global,
    proposer: &mut Proposer<Number>,
    first: u64,
) -> Result<Ballot, ProposerFault> {
    start_above(rt, alloc, proposer, first, 0)
}

// The floor that a promise reports, and the proposer's own at that moment.
type Floors = (u64, u64);

const NO_FLOORS: Floors = (0, 0);

// Counts a promise with these floors and reports: whether the proposer leads then, and the Boots that it is to propose.
fn promise(
    rt: &impl Abort,
    alloc: Global,
    proposer: &mut Proposer<Number>,
    node: u8,
    ballot: Ballot,
    floors: Floors,
    reports: &[Report],
) -> Option<Vec<u8>> {
    let reported = votes(rt, alloc, reports);
    let called = proposer
        .on_promise(
            node,
            ballot,
            floor(rt, floors.0),
            reported,
            floor(rt, floors.1),
        )
        .expect(rt, "room for a promise");
    match called {
        Some(called) => Some(boots(rt, alloc, &called)),
        None => None,
    }
}

// An entry that is submitted: an act is known by its body.
#[derive(Clone, Copy)]
enum Proposal {
    Noop,
    Boot(u8),
    Act(u32),
}

fn entry_of(proposal: Proposal) -> Entry<Number> {
    match proposal {
        Proposal::Noop => Entry::Noop,
        Proposal::Boot(node) => boot(node),
        Proposal::Act(body) => item(body),
    }
}

// A ballot: its round, and the node that owns it.
type Owned = (u64, u8);

fn ballot_of(of: Owned) -> Ballot {
    ballot(of.0, of.1)
}

fn owned(ballot: Ballot) -> Owned {
    (ballot.round, ballot.node)
}

// What is done or asked, and what comes of it.
enum Step {
    // A ballot is begun from this slot on, without a floor of its own, or with this one.
    Start(u64, Result<Owned, ProposerFault>),
    StartAbove(u64, u64),
    // A node promises a ballot, and reports nothing: the number of entries to propose, if the proposer leads by this promise.
    Promise(u8, Owned, Option<usize>),
    // A node promises a ballot, with such floors.
    PromiseAbove(u8, Owned, Floors, Option<usize>),
    // A snapshot of its own gives the log up to this slot.
    RaiseAbove(u64),
    // An entry is submitted: its slot.
    Submit(Proposal, Result<u64, ProposerFault>),
    // A round was seen.
    Saw(u64),
    // The ballot was refused for a promise of the other.
    Nack(Owned, Owned),
    // A ballot was seen that ends its own, if it is greater.
    StepDown(Owned),
    // The slot of the next entry.
    Next(Result<u64, ProposerFault>),
    // Whether the entry is proposed for a slot after this number of slots.
    Stands(u64, Proposal, bool),
    // Whether the proposer leads.
    Leads(bool),
    // The slot from which on it asks for promises, while it does.
    AsksFrom(Option<u64>),
    // Whether the node's promise is counted.
    Counted(u8, bool),
    // How many entries are proposed for slots after this one.
    ProposedAfter(u64, usize),
    // The ballot that it owns.
    Owns(Option<Owned>),
}

fn starts(
    rt: &impl Abort,
    alloc: Global,
    proposer: &mut Proposer<Number>,
    first: u64,
    wanted: Result<Owned, ProposerFault>,
) -> bool {
    start(rt, alloc, proposer, first).map(|ballot| owned(ballot)) == wanted
}

fn starts_above(
    rt: &impl Abort,
    alloc: Global,
    proposer: &mut Proposer<Number>,
    first: u64,
    above: u64,
) -> bool {
    start_above(rt, alloc, proposer, first, above).is_ok()
}

fn owns(proposer: &Proposer<Number>) -> Option<Owned> {
    match proposer.ballot() {
        Some(ballot) => Some(owned(ballot)),
        None => None,
    }
}

// Whether it leads by this promise, and is to propose this number of entries.
fn promises(
    rt: &impl Abort,
    alloc: Global,
    proposer: &mut Proposer<Number>,
    node: u8,
    ballot: Ballot,
    floors: Floors,
    wanted: Option<usize>,
) -> bool {
    match promise(rt, alloc, proposer, node, ballot, floors, NONE) {
        Some(called) => wanted == Some(called.len()),
        None => wanted.is_none(),
    }
}

fn submits(
    proposer: &mut Proposer<Number>,
    proposal: Proposal,
    wanted: Result<u64, ProposerFault>,
) -> bool {
    let given = proposer.submit(entry_of(proposal));
    given.map(|slot| slot.get()) == wanted
}

fn saw(proposer: &mut Proposer<Number>, round: u64) -> bool {
    proposer.saw(round);
    true
}

fn nack(proposer: &mut Proposer<Number>, ballot: Ballot, promised: Ballot) -> bool {
    proposer.on_nack(ballot, promised);
    true
}

fn step_down(proposer: &mut Proposer<Number>, ballot: Ballot) -> bool {
    proposer.step_down(ballot);
    true
}

fn raise_above(proposer: &mut Proposer<Number>, floor: Floor) -> bool {
    proposer.raise_above(floor);
    true
}

fn is_next(proposer: &Proposer<Number>, wanted: Result<u64, ProposerFault>) -> bool {
    proposer.next().map(|slot| slot.get()) == wanted
}

// Takes the step. Returns whether it comes as it says.
fn take(rt: &impl Abort, alloc: Global, proposer: &mut Proposer<Number>, step: &Step) -> bool {
    match step {
        Step::Start(first, wanted) => starts(rt, alloc, proposer, *first, *wanted),
        Step::StartAbove(first, above) => starts_above(rt, alloc, proposer, *first, *above),
        Step::Promise(node, ballot, wanted) => {
            promises(
                rt,
                alloc,
                proposer,
                *node,
                ballot_of(*ballot),
                NO_FLOORS,
                *wanted,
            )
        },
        Step::PromiseAbove(node, ballot, floors, wanted) => {
            promises(
                rt,
                alloc,
                proposer,
                *node,
                ballot_of(*ballot),
                *floors,
                *wanted,
            )
        },
        Step::RaiseAbove(number) => raise_above(proposer, floor(rt, *number)),
        Step::Submit(proposal, wanted) => submits(proposer, *proposal, *wanted),
        Step::Saw(round) => saw(proposer, *round),
        Step::Nack(ballot, promised) => nack(proposer, ballot_of(*ballot), ballot_of(*promised)),
        Step::StepDown(ballot) => step_down(proposer, ballot_of(*ballot)),
        Step::Next(wanted) => is_next(proposer, *wanted),
        Step::Stands(after, proposal, wanted) => {
            proposer.stands(*after, &entry_of(*proposal)) == *wanted
        },
        Step::Leads(wanted) => proposer.is_leading() == *wanted,
        Step::AsksFrom(wanted) => proposer.preparing() == *wanted,
        Step::Counted(node, wanted) => proposer.is_counted(*node) == *wanted,
        Step::ProposedAfter(slot, wanted) => proposer.proposed_after(*slot).len() == *wanted,
        Step::Owns(wanted) => owns(proposer) == *wanted,
    }
}

// Takes all steps; a note on a failed check is the step's place among them, from 0 on.
fn take_all(rt: &impl Abort, alloc: Global, proposer: &mut Proposer<Number>, steps: &[Step]) {
    for (place, step) in steps.iter().enumerate() {
        check!(rt; take(rt, alloc, proposer, step), place);
    }
}

fn check(rt: &impl Abort, alloc: Global, steps: &[Step]) {
    let mut proposer = proposer(rt, alloc);
    take_all(rt, alloc, &mut proposer, steps);
}

// One of five members.
fn one_of_five(rt: &impl Abort, alloc: Global) -> Proposer<Number> {
    Proposer::new(alloc, 1, Members::new(5).expect(rt, "5 members"))
}

fn check_of_five(rt: &impl Abort, alloc: Global, steps: &[Step]) {
    let mut proposer = one_of_five(rt, alloc);
    take_all(rt, alloc, &mut proposer, steps);
}

const A_FIRST_BALLOT_LEADS_BY_A_MAJORITY: &[Step] = &[
    Step::Submit(Proposal::Noop, Err(ProposerFault::NotLeading)),
    Step::Owns(None),
    Step::Start(1, Ok((1, 1))),
    Step::Leads(false),
    Step::AsksFrom(Some(1)),
    Step::Counted(1, true),
    Step::Counted(2, false),
    Step::Submit(Proposal::Noop, Err(ProposerFault::NotLeading)),
    // its own was counted, and another ballot's is not
    Step::Promise(1, (1, 1), None),
    Step::Promise(3, (1, 3), None),
    Step::Leads(false),
    Step::Promise(2, (1, 1), Some(0)),
    Step::Leads(true),
    Step::AsksFrom(None),
    Step::ProposedAfter(0, 0),
    Step::Submit(Proposal::Boot(1), Ok(1)),
    Step::Submit(Proposal::Noop, Ok(2)),
    Step::Next(Ok(3)),
    Step::ProposedAfter(0, 2),
    Step::ProposedAfter(1, 1),
    Step::ProposedAfter(2, 0),
    Step::ProposedAfter(u64::MAX, 0),
];

#[test]
fn a_first_ballot_leads_by_a_majority(rt: HostRuntime) {
    check(&rt, rt.alloc(), A_FIRST_BALLOT_LEADS_BY_A_MAJORITY);
}

const ROUNDS_AND_SLOTS_END: &[Step] = &[
    Step::Saw(281_474_976_710_654),
    Step::Start(1_099_511_627_775, Ok((281_474_976_710_655, 1))),
    Step::Start(1, Err(ProposerFault::Rounds)),
    Step::Owns(Some((281_474_976_710_655, 1))),
    Step::Promise(2, (281_474_976_710_655, 1), Some(0)),
    Step::Submit(Proposal::Boot(1), Ok(1_099_511_627_775)),
    Step::Submit(Proposal::Boot(1), Err(ProposerFault::SlotsFull)),
    Step::Next(Err(ProposerFault::SlotsFull)),
];

#[test]
fn rounds_and_slots_end(rt: HostRuntime) {
    check_eq!(&rt; ProposerFault::Memory.number(), 54);
    check(&rt, rt.alloc(), ROUNDS_AND_SLOTS_END);
}

const A_GREATER_BALLOT_ENDS_ITS_OWN: &[Step] = &[
    Step::Start(1, Ok((1, 1))),
    Step::StepDown((1, 1)),
    Step::Nack((1, 1), (1, 1)),
    Step::Nack((1, 2), (2, 2)),
    Step::Owns(Some((1, 1))),
    Step::Nack((1, 1), (1, 2)),
    Step::Owns(None),
    Step::Start(1, Ok((2, 1))),
    Step::Promise(3, (2, 1), Some(0)),
    Step::StepDown((2, 2)),
    Step::Leads(false),
    Step::Submit(Proposal::Boot(1), Err(ProposerFault::NotLeading)),
];

#[test]
fn a_greater_ballot_ends_its_own(rt: HostRuntime) {
    check(&rt, rt.alloc(), A_GREATER_BALLOT_ENDS_ITS_OWN);
}

const A_PROPOSAL_STANDS_UNTIL_IT_IS_APPLIED: &[Step] = &[
    Step::Stands(0, Proposal::Boot(1), false),
    Step::Start(1, Ok((1, 1))),
    Step::Promise(2, (1, 1), Some(0)),
    Step::Submit(Proposal::Act(17), Ok(1)),
    Step::Submit(Proposal::Boot(1), Ok(2)),
    Step::Stands(0, Proposal::Act(17), true),
    Step::Stands(1, Proposal::Act(17), false),
    Step::Stands(0, Proposal::Act(18), false),
    Step::Stands(1, Proposal::Boot(1), true),
    Step::Stands(1, Proposal::Boot(2), false),
    Step::Stands(0, Proposal::Noop, false),
    Step::Submit(Proposal::Act(17), Ok(3)),
    Step::Stands(2, Proposal::Act(17), true),
];

#[test]
fn a_proposal_stands_until_it_is_applied(rt: HostRuntime) {
    check(&rt, rt.alloc(), A_PROPOSAL_STANDS_UNTIL_IT_IS_APPLIED);
}

const A_LEADER_PROPOSES_ABOVE_FLOORS: &[Step] = &[
    Step::Start(1, Ok((1, 1))),
    Step::PromiseAbove(2, (1, 1), (5, 3), Some(0)),
    Step::Submit(Proposal::Act(1), Ok(6)),
    Step::Submit(Proposal::Act(2), Ok(7)),
    Step::RaiseAbove(6),
    Step::Next(Ok(8)),
    Step::Stands(0, Proposal::Act(1), false),
    Step::Stands(0, Proposal::Act(2), true),
    Step::RaiseAbove(9),
    Step::Next(Ok(10)),
    Step::ProposedAfter(0, 0),
];

const ITS_OWN_FLOOR_IS_THE_GREATEST: &[Step] = &[
    Step::Start(4, Ok((1, 1))),
    Step::PromiseAbove(2, (1, 1), (5, 8), Some(0)),
    Step::Next(Ok(9)),
];

// The floor of its own promise, and the first slot that it asked for.
const THE_FLOOR_AT_ITS_START_IS_THE_GREATEST: &[Step] = &[
    Step::StartAbove(4, 6),
    Step::PromiseAbove(2, (1, 1), (5, 0), Some(0)),
    Step::Next(Ok(7)),
];

const THE_FIRST_SLOT_IS_THE_GREATEST: &[Step] = &[
    Step::StartAbove(9, 6),
    Step::PromiseAbove(2, (1, 1), (5, 7), Some(0)),
    Step::Next(Ok(9)),
];

#[test]
fn a_leader_proposes_above_floors(rt: HostRuntime) {
    check(&rt, rt.alloc(), A_LEADER_PROPOSES_ABOVE_FLOORS);
    check(&rt, rt.alloc(), ITS_OWN_FLOOR_IS_THE_GREATEST);
    check(&rt, rt.alloc(), THE_FLOOR_AT_ITS_START_IS_THE_GREATEST);
    check(&rt, rt.alloc(), THE_FIRST_SLOT_IS_THE_GREATEST);
}

// An earlier promise reports the greatest floor; of its own floors the one of the moment at which it leads counts.
const AN_EARLIER_FLOOR_COUNTS: &[Step] = &[
    Step::Start(1, Ok((1, 1))),
    Step::PromiseAbove(2, (1, 1), (7, 20), None),
    Step::PromiseAbove(4, (1, 1), (5, 3), Some(0)),
    Step::Next(Ok(8)),
];

#[test]
fn floors_of_all_counted_promises_count(rt: HostRuntime) {
    check_of_five(&rt, rt.alloc(), AN_EARLIER_FLOOR_COUNTS);
}

const A_FLOOR_LEAVES_WHO_DOES_NOT_LEAD: &[Step] = &[
    Step::RaiseAbove(9),
    Step::Owns(None),
    Step::Start(4, Ok((1, 1))),
    Step::RaiseAbove(9),
    Step::AsksFrom(Some(4)),
    Step::Counted(1, true),
    Step::Promise(2, (1, 1), Some(0)),
    Step::Next(Ok(4)),
    // a floor below its next slot leaves that, too
    Step::Submit(Proposal::Act(1), Ok(4)),
    Step::RaiseAbove(2),
    Step::Next(Ok(5)),
    Step::ProposedAfter(0, 1),
    Step::RaiseAbove(1_099_511_627_775),
    Step::Next(Err(ProposerFault::SlotsFull)),
    Step::Leads(true),
];

#[test]
fn a_floor_concerns_a_leader_alone(rt: HostRuntime) {
    check(&rt, rt.alloc(), A_FLOOR_LEAVES_WHO_DOES_NOT_LEAD);
}

// Proposes an act with this body in this slot.
fn propose(rt: &impl Abort, proposals: &mut Proposals<Number>, number: u64, body: u32) {
    let slot = Slot::new(number).expect(rt, "a slot");
    proposals.reserve(1).expect(rt, "room for a proposal");
    proposals.push_reserved(Vote {
        slot,
        ballot: ballot(1, 1),
        entry: item(body),
    });
}

// How many proposals there are, and which of the bodies 3 to 5 are proposed.
fn proposed(proposals: &Proposals<Number>) -> (usize, [bool; 3]) {
    (
        proposals.as_slice().len(),
        [
            proposals.stands(0, &item(3)),
            proposals.stands(0, &item(4)),
            proposals.stands(0, &item(5)),
        ],
    )
}

// A floor, and what is proposed above it.
const FORGOTTEN: &[(u64, (usize, [bool; 3]))] = &[
    (0, (4, [true, true, true])),
    (2, (4, [true, true, true])),
    (4, (2, [true, false, true])),
    (5, (1, [true, false, false])),
    (6, (0, [false, false, false])),
];

// The bodies 3 to 5 are proposed in the slots of these numbers, and 3 again in slot 6.
fn forgets(rt: &impl Abort, proposals: &mut Proposals<Number>) {
    for (number, body) in [(3, 3), (4, 4), (5, 5), (6, 3)] {
        propose(rt, proposals, number, body);
    }
    for (floor, left) in FORGOTTEN {
        proposals.forget(*floor);
        check_eq!(rt; proposed(proposals), *left, *floor);
    }
}

#[test]
fn proposals_up_to_a_floor_are_forgotten(rt: HostRuntime) {
    let mut proposals = Proposals::new(rt.alloc());
    forgets(&rt, &mut proposals);
    drop(proposals);
}

// The Boots that a proposer is to propose, once these two promises were counted, the second with such floors.
fn counted(
    rt: &impl Abort,
    alloc: Global,
    proposer: &mut Proposer<Number>,
    one: &[Report],
    other: &[Report],
    floors: Floors,
) -> Option<Vec<u8>> {
    proposer.saw(8);
    let own = ballot(9, 1);
    drop(start(rt, alloc, proposer, 2));
    drop(promise(rt, alloc, proposer, 2, own, NO_FLOORS, one));
    promise(rt, alloc, proposer, 4, own, floors, other)
}

fn called_by(
    rt: &impl Abort,
    alloc: Global,
    one: &[Report],
    other: &[Report],
    floors: Floors,
) -> Option<Vec<u8>> {
    let mut proposer = one_of_five(rt, alloc);
    counted(rt, alloc, &mut proposer, one, other, floors)
}

// Whether those of one of five members are these.
fn are_called(
    rt: &impl Abort,
    alloc: Global,
    one: &[Report],
    other: &[Report],
    floors: Floors,
    wanted: &[u8],
) -> bool {
    let called = called_by(rt, alloc, one, other, floors).expect(rt, "it leads");
    called.as_slice() == wanted
}

// What two promises report.
const ONE: &[Report] = &[
    Report {
        slot: 1,
        ballot: Ballot { round: 8, node: 2 },
        node: 7,
    },
    Report {
        slot: 2,
        ballot: Ballot { round: 4, node: 2 },
        node: 2,
    },
    Report {
        slot: 3,
        ballot: Ballot { round: 3, node: 3 },
        node: 3,
    },
    Report {
        slot: 5,
        ballot: Ballot { round: 2, node: 2 },
        node: 5,
    },
];

const OTHER: &[Report] = &[
    Report {
        slot: 2,
        ballot: Ballot { round: 4, node: 1 },
        node: 3,
    },
    Report {
        slot: 3,
        ballot: Ballot { round: 4, node: 1 },
        node: 4,
    },
    Report {
        slot: 5,
        ballot: Ballot { round: 2, node: 2 },
        node: 6,
    },
];

// The floor that the second of them reports, its own, and what is called for.
const CALLED: &[(Floors, &[u8])] = &[
    (NO_FLOORS, &[2, 4, 0, 6]),
    ((1, 1), &[2, 4, 0, 6]),
    ((3, 0), &[0, 6]),
    ((3, 4), &[6]),
    ((5, 0), &[]),
    ((8, 7), &[]),
];

#[test]
fn the_greatest_ballot_is_called_for_above_floors(rt: HostRuntime) {
    for (floors, wanted) in CALLED {
        check!(&rt; are_called(&rt, rt.alloc(), ONE, OTHER, *floors, wanted), *floors);
    }
}

#[test]
fn gaps_are_filled(rt: HostRuntime) {
    let one = [reported(4, ballot(1, 2), 2)];
    check!(&rt; are_called(&rt, rt.alloc(), &one, NONE, NO_FLOORS, &[0, 0, 2]));
}

// Sees the round as a move, in the room made for it.
fn sees(rt: &impl Abort, alloc: Global, proposer: &mut Proposer<Number>, round: u64) {
    let mut moves = Vec::new(alloc);
    moves
        .push(Move::Saw { round })
        .expect(rt, "room for a move");
    proposer
        .make_room_for(&moves)
        .expect(rt, "room for the moves");
    proposer.move_in_room(moves);
}

// Does so, and starts.
fn moved(
    rt: &impl Abort,
    alloc: Global,
    proposer: &mut Proposer<Number>,
    round: u64,
) -> Result<Ballot, ProposerFault> {
    sees(rt, alloc, proposer, round);
    start(rt, alloc, proposer, 1)
}

#[test]
fn moves_are_done_in_the_room_made_for_them(rt: HostRuntime) {
    let mut proposer = proposer(&rt, rt.alloc());
    check!(&rt; moved(&rt, rt.alloc(), &mut proposer, 6) == Ok(ballot(7, 1)));
}
