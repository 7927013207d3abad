// Rows on one node: what it sends and applies at its events, as a leader, as another node, in the last round, once it is lost, and with a
// snapshot.
use crate::check::Check;
use crate::snapshots::snapshot_of;
use paxos_node::{Event, Node, NodeFault, Packets};
use paxos_packets::{
    Ballot, Body, Entries, Entry, Floor, Kind, Members, Packet, Rows, Slot, Vote, Votes,
};
use std::alloc::Global;
use std::process::Abort;
use test_checks::check;
use test_machines::Number;

// A ballot: its round, and the node that owns it.
type Owned = (u64, u8);

// An entry.
#[derive(Clone, Copy)]
enum Held {
    Noop,
    // The Boot of a node.
    Boot(u8),
    // The first act of node 2, with body 7.
    Act,
    // The Lost of a node.
    Lost(u8),
}

// What a packet says.
#[derive(Clone, Copy)]
enum Says {
    // The ballot, and the first slot that it asks for.
    Prepare(Owned, u64),
    // The ballot, and the vote that it reports, in ballot (1, 2): its slot and entry.
    Promise(Owned, Option<(u64, Held)>),
    // The same above a floor.
    PromiseAbove(Owned, u64, Option<(u64, Held)>),
    // The ballot, and the one that is promised.
    Nack(Owned, Owned),
    // Octets that begin with this floor, and no others.
    Snapshot(u8),
    // The ballot, the slot and the entry.
    Accept(Owned, u64, Held),
    Accepted(Owned, u64, Held),
    // The first slot that it asks for.
    Ask(u64),
    // The slot and the entry.
    Learned(u64, Held),
    // Two entries.
    Forward(Held, Held),
}

// A packet that is sent: the node that it is for, and what it says.
type Mail = (u8, Says);

// What happens to a node.
#[derive(Clone, Copy)]
enum Happens {
    // Of these nodes.
    Tick(u8),
    Start(u8),
    Take(u8),
    // A packet reaches it: its sender, and what it says.
    Hears(u8, Says),
}

// What happens to a node, or what it is asked.
enum Step {
    // An event: how many entries the node applies, or its fault; and what it sends.
    Event(Happens, Result<u64, NodeFault>, &'static [Mail]),
    // A packet reaches it: its sender, and what it says; the node applies nothing, and sends this.
    Hears(u8, Says, &'static [Mail]),
    // The node takes this many acts.
    TakesMany(u64),
    IsUp(bool),
    Promised(Option<Owned>),
    // How many votes it has.
    Votes(usize),
    // Whether entries of it are pending.
    Waits(bool),
}

// A step, and how long the node's log is then.
type Row = (Step, u64);

fn ballot_of(of: Owned) -> Ballot {
    let (round, node) = of;
    Ballot { round, node }
}

fn promised_of(of: Option<Owned>) -> Option<Ballot> {
    match of {
        Some(of) => Some(ballot_of(of)),
        None => None,
    }
}

const NOTHING: &[Mail] = &[];

// What the first node sends as it begins its first ballot, and once that has a majority.
const PREPARES: &[Mail] = &[(2, Says::Prepare((1, 1), 1)), (3, Says::Prepare((1, 1), 1))];

const PROPOSES: &[Mail] = &[
    (2, Says::Accept((1, 1), 1, Held::Boot(1))),
    (3, Says::Accept((1, 1), 1, Held::Boot(1))),
    (2, Says::Accepted((1, 1), 1, Held::Boot(1))),
    (3, Says::Accepted((1, 1), 1, Held::Boot(1))),
];

fn entry_of(held: Held) -> Entry<Number> {
    match held {
        Held::Noop => Entry::Noop,
        Held::Boot(node) => Entry::Boot { node, boot: 1 },
        Held::Act => Entry::Item {
            node: 2,
            boot: 1,
            seq: 1,
            transport: 1,
            body: Number::new(7),
        },
        Held::Lost(node) => Entry::Lost { node, boot: 1 },
    }
}

fn slot_of(rt: &impl Abort, number: u64) -> Slot {
    Slot::new(number).expect(rt, "a slot")
}

fn vote_of(rt: &impl Abort, ballot: Owned, slot: u64, held: Held) -> Vote<Number> {
    let slot = slot_of(rt, slot);
    Vote {
        slot,
        ballot: ballot_of(ballot),
        entry: entry_of(held),
    }
}

// The vote that a promise reports, if it reports one.
fn votes_of(rt: &impl Abort, alloc: Global, reported: Option<(u64, Held)>) -> Votes<Number> {
    let mut votes = Votes::new(alloc);
    if let Some((slot, held)) = reported {
        let vote = vote_of(rt, (1, 2), slot, held);
        votes.put(vote).expect(rt, "room for a vote");
    }
    votes
}

// Two entries.
fn entries_of(rt: &impl Abort, alloc: Global, one: Held, other: Held) -> Entries<Number> {
    let mut entries = Entries::new(alloc);
    entries.push(entry_of(one)).expect(rt, "room for an entry");
    entries
        .push(entry_of(other))
        .expect(rt, "room for an entry");
    entries
}

// A Promise above a floor.
fn promise_of(
    rt: &impl Abort,
    alloc: Global,
    ballot: Owned,
    floor: u64,
    reported: Option<(u64, Held)>,
) -> Kind<Number> {
    Kind::Promise {
        ballot: ballot_of(ballot),
        floor: Floor::new(floor).expect(rt, "a floor"),
        votes: votes_of(rt, alloc, reported),
    }
}

// A Snapshot with this floor.
fn shown(rt: &impl Abort, alloc: Global, floor: u8) -> Kind<Number> {
    let octets = [0, 0, 0, 0, 0, 0, 0, floor];
    Kind::Snapshot {
        snapshot: snapshot_of(rt, alloc, &octets).expect(rt, "a snapshot"),
    }
}

// What a packet says.
fn kind_of(rt: &impl Abort, alloc: Global, says: Says) -> Kind<Number> {
    match says {
        Says::Prepare(ballot, first) => Kind::Prepare {
            ballot: ballot_of(ballot),
            first,
        },
        Says::Promise(ballot, reported) => promise_of(rt, alloc, ballot, 0, reported),
        Says::PromiseAbove(ballot, floor, reported) => {
            promise_of(rt, alloc, ballot, floor, reported)
        },
        Says::Nack(ballot, promised) => Kind::Nack {
            ballot: ballot_of(ballot),
            promised: ballot_of(promised),
        },
        Says::Snapshot(floor) => shown(rt, alloc, floor),
        Says::Accept(ballot, slot, held) => Kind::Accept {
            vote: vote_of(rt, ballot, slot, held),
        },
        Says::Accepted(ballot, slot, held) => Kind::Accepted {
            vote: vote_of(rt, ballot, slot, held),
        },
        Says::Ask(first) => Kind::Ask { first },
        Says::Learned(slot, held) => Kind::Learned {
            slot: slot_of(rt, slot),
            entry: entry_of(held),
        },
        Says::Forward(one, other) => Kind::Forward {
            entries: entries_of(rt, alloc, one, other),
        },
    }
}

// What happens to the node with this number.
fn event_of(rt: &impl Abort, alloc: Global, me: u8, happens: Happens) -> Event<Number> {
    match happens {
        Happens::Tick(node) => Event::Tick { node },
        Happens::Start(node) => Event::Start { node },
        Happens::Take(node) => Event::Take {
            node,
            transport: 1,
            body: Number::new(7),
        },
        Happens::Hears(sender, says) => Event::Deliver {
            packet: Packet {
                sender,
                addressee: me,
                kind: kind_of(rt, alloc, says),
            },
        },
    }
}

// Plans and adopts the event: how many entries are applied, how long the log is to be, and what is sent.
fn turn(
    node: &mut Node<Number>,
    event: &Event<Number>,
) -> Result<(u64, u64, Packets<Number>), NodeFault> {
    let outcome = node.plan(event)?;
    let log = outcome.log();
    let (packets, applied) = node.adopt(outcome)?;
    Ok((applied.as_slice().len() as u64, log, packets))
}

fn is_sent(rt: &impl Abort, alloc: Global, me: u8, packet: &Packet<Number>, wanted: &Mail) -> bool {
    let (addressee, says) = *wanted;
    let kind = kind_of(rt, alloc, says);
    packet.sender == me && packet.addressee == addressee && packet.kind.same(&kind)
}

fn are_sent(
    rt: &impl Abort,
    alloc: Global,
    me: u8,
    packets: &[Packet<Number>],
    wanted: &[Mail],
) -> bool {
    if packets.len() != wanted.len() {
        return false;
    }
    for index in 0..wanted.len() {
        if !is_sent(rt, alloc, me, &packets[index], &wanted[index]) {
            return false;
        }
    }
    true
}

// The event happens. Returns whether it has this outcome, the log is this long then, and this is sent.
fn comes_so(
    rt: &impl Abort,
    alloc: Global,
    me: u8,
    node: &mut Node<Number>,
    event: &Event<Number>,
    outcome: Result<u64, NodeFault>,
    length: u64,
    wanted: &[Mail],
) -> bool {
    match turn(node, event) {
        Ok((applied, log, packets)) => {
            outcome == Ok(applied)
                && log == length
                && are_sent(rt, alloc, me, packets.as_slice(), wanted)
        },
        Err(fault) => outcome == Err(fault) && wanted.is_empty(),
    }
}

// The node takes this many acts.
fn fill(rt: &impl Abort, alloc: Global, me: u8, node: &mut Node<Number>, acts: u64) {
    let take = event_of(rt, alloc, me, Happens::Take(me));
    for _ in 0..acts {
        turn(node, &take).expect(rt, "room for an act");
    }
}

fn is_filled(rt: &impl Abort, alloc: Global, me: u8, node: &mut Node<Number>, acts: u64) -> bool {
    fill(rt, alloc, me, node, acts);
    true
}

// Whether the node applies nothing at this packet, and sends this.
fn hears(
    rt: &impl Abort,
    alloc: Global,
    me: u8,
    node: &mut Node<Number>,
    happens: Happens,
    length: u64,
    sent: &[Mail],
) -> bool {
    let event = event_of(rt, alloc, me, happens);
    comes_so(rt, alloc, me, node, &event, Ok(0), length, sent)
}

// Takes the step of a row. Returns whether it comes as the row says.
fn take(rt: &impl Abort, alloc: Global, me: u8, node: &mut Node<Number>, row: &Row) -> bool {
    let (step, length) = row;
    let is_so = match step {
        Step::Event(event, outcome, sent) => {
            let event = event_of(rt, alloc, me, *event);
            comes_so(rt, alloc, me, node, &event, *outcome, *length, sent)
        },
        Step::Hears(sender, says, sent) => {
            let happens = Happens::Hears(*sender, *says);
            hears(rt, alloc, me, node, happens, *length, sent)
        },
        Step::TakesMany(acts) => is_filled(rt, alloc, me, node, *acts),
        Step::IsUp(wanted) => node.is_up() == *wanted,
        Step::Promised(wanted) => node.promised() == promised_of(*wanted),
        Step::Votes(wanted) => node.votes().len() == *wanted,
        Step::Waits(wanted) => node.has_pending() == *wanted,
    };
    is_so && node.applied() == *length
}

// The node with this number of three, under this promise.
fn node_of(rt: &impl Abort, alloc: Global, me: u8, promised: Option<Owned>) -> Node<Number> {
    let members = Members::new(3).expect(rt, "3 members");
    let rows = Rows {
        boot: 1,
        promised: promised_of(promised),
        snapshot: None,
        votes: Votes::new(alloc),
    };
    Node::of(alloc, me, members, rows).expect(rt, "room for a node")
}

fn are_so(rt: &impl Abort, alloc: Global, me: u8, node: &mut Node<Number>, rows: &[Row]) {
    for (place, row) in rows.iter().enumerate() {
        check!(rt; take(rt, alloc, me, node, row), place);
    }
}

// A node with this number, under this promise, goes as these rows say.
fn check(rt: &impl Abort, alloc: Global, me: u8, promised: Option<Owned>, rows: &[Row]) {
    let mut node = node_of(rt, alloc, me, promised);
    are_so(rt, alloc, me, &mut node, rows);
}

// What the first node asks for while nothing is applied.
const ASKS: &[Mail] = &[(2, Says::Ask(1)), (3, Says::Ask(1))];

const FIRST: &[Row] = &[
    (Step::Event(Happens::Tick(1), Ok(0), ASKS), 0),
    (Step::Event(Happens::Tick(2), Ok(0), NOTHING), 0),
    (Step::Event(Happens::Start(1), Ok(0), PREPARES), 0),
    (Step::Promised(Some((1, 1))), 0),
    (
        Step::Event(
            Happens::Hears(2, Says::Promise((1, 1), None)),
            Ok(0),
            PROPOSES,
        ),
        0,
    ),
    (Step::Votes(1), 0),
    (Step::Waits(true), 0),
    (
        Step::Event(
            Happens::Hears(2, Says::Accepted((1, 1), 1, Held::Boot(1))),
            Ok(1),
            NOTHING,
        ),
        1,
    ),
    (Step::Waits(false), 1),
    (
        Step::Event(
            Happens::Hears(2, Says::Learned(1, Held::Noop)),
            Err(NodeFault::Disagree),
            NOTHING,
        ),
        1,
    ),
];

#[test]
fn a_first_node_leads_and_learns(rt: HostRuntime) {
    check(&rt, rt.alloc(), 1, None, FIRST);
}

// What a leader sends for the Boot and the act of node 2.
const FORWARDED: &[Mail] = &[
    (2, Says::Accept((1, 1), 2, Held::Boot(2))),
    (3, Says::Accept((1, 1), 2, Held::Boot(2))),
    (2, Says::Accepted((1, 1), 2, Held::Boot(2))),
    (3, Says::Accepted((1, 1), 2, Held::Boot(2))),
    (2, Says::Accept((1, 1), 3, Held::Act)),
    (3, Says::Accept((1, 1), 3, Held::Act)),
    (2, Says::Accepted((1, 1), 3, Held::Act)),
    (3, Says::Accepted((1, 1), 3, Held::Act)),
];

// What it reports of its log.
const TELLS: &[Mail] = &[(3, Says::Learned(1, Held::Boot(1)))];

// What it sends again as time passes.
const REPEATS: &[Mail] = &[
    (2, Says::Accept((1, 1), 2, Held::Boot(2))),
    (3, Says::Accept((1, 1), 2, Held::Boot(2))),
    (2, Says::Accept((1, 1), 3, Held::Act)),
    (3, Says::Accept((1, 1), 3, Held::Act)),
    (2, Says::Ask(2)),
    (3, Says::Ask(2)),
];

const LEADS: &[Row] = &[
    (Step::Event(Happens::Start(1), Ok(0), PREPARES), 0),
    (
        Step::Event(
            Happens::Hears(2, Says::Promise((1, 1), None)),
            Ok(0),
            PROPOSES,
        ),
        0,
    ),
    (
        Step::Event(
            Happens::Hears(2, Says::Accepted((1, 1), 1, Held::Boot(1))),
            Ok(1),
            NOTHING,
        ),
        1,
    ),
    (
        Step::Event(
            Happens::Hears(2, Says::Forward(Held::Boot(2), Held::Act)),
            Ok(0),
            FORWARDED,
        ),
        1,
    ),
    (
        Step::Event(
            Happens::Hears(2, Says::Forward(Held::Boot(2), Held::Act)),
            Ok(0),
            NOTHING,
        ),
        1,
    ),
    (
        Step::Event(Happens::Hears(3, Says::Ask(1)), Ok(0), TELLS),
        1,
    ),
    (Step::Event(Happens::Tick(1), Ok(0), REPEATS), 1),
];

#[test]
fn a_leader_proposes_what_is_forwarded(rt: HostRuntime) {
    check(&rt, rt.alloc(), 1, None, LEADS);
}

// What the first node sends as it begins its next ballot, and if a promise reports a vote in slot 3.
const PREPARES_NEXT: &[Mail] = &[(2, Says::Prepare((2, 1), 1)), (3, Says::Prepare((2, 1), 1))];

const PROPOSES_NEXT: &[Mail] = &[
    (2, Says::Accept((2, 1), 1, Held::Noop)),
    (3, Says::Accept((2, 1), 1, Held::Noop)),
    (2, Says::Accepted((2, 1), 1, Held::Noop)),
    (3, Says::Accepted((2, 1), 1, Held::Noop)),
    (2, Says::Accept((2, 1), 2, Held::Noop)),
    (3, Says::Accept((2, 1), 2, Held::Noop)),
    (2, Says::Accepted((2, 1), 2, Held::Noop)),
    (3, Says::Accepted((2, 1), 2, Held::Noop)),
    (2, Says::Accept((2, 1), 3, Held::Boot(2))),
    (3, Says::Accept((2, 1), 3, Held::Boot(2))),
    (2, Says::Accepted((2, 1), 3, Held::Boot(2))),
    (3, Says::Accepted((2, 1), 3, Held::Boot(2))),
    (2, Says::Accept((2, 1), 4, Held::Boot(1))),
    (3, Says::Accept((2, 1), 4, Held::Boot(1))),
    (2, Says::Accepted((2, 1), 4, Held::Boot(1))),
    (3, Says::Accepted((2, 1), 4, Held::Boot(1))),
];

const REPORTED: &[Row] = &[
    (Step::Event(Happens::Start(1), Ok(0), PREPARES_NEXT), 0),
    (
        Step::Event(
            Happens::Hears(2, Says::Promise((2, 1), Some((3, Held::Boot(2))))),
            Ok(0),
            PROPOSES_NEXT,
        ),
        0,
    ),
    (Step::Votes(4), 0),
];

#[test]
fn reports_are_proposed_again(rt: HostRuntime) {
    check(&rt, rt.alloc(), 1, Some((1, 2)), REPORTED);
}

// What it sends in the last round.
const PREPARES_LAST: &[Mail] = &[
    (2, Says::Prepare((281_474_976_710_655, 1), 1)),
    (3, Says::Prepare((281_474_976_710_655, 1), 1)),
];

const LAST: &[Row] = &[
    (Step::Event(Happens::Start(1), Ok(0), PREPARES_LAST), 0),
    (Step::Promised(Some((281_474_976_710_655, 1))), 0),
];

const SPENT: &[Row] = &[
    (
        Step::Event(Happens::Start(1), Err(NodeFault::Rounds), NOTHING),
        0,
    ),
    (Step::Promised(Some((281_474_976_710_655, 2))), 0),
];

#[test]
fn rounds_end(rt: HostRuntime) {
    check(&rt, rt.alloc(), 1, Some((281_474_976_710_654, 2)), LAST);
    check(&rt, rt.alloc(), 1, Some((281_474_976_710_655, 2)), SPENT);
}

// Its Boot is pending already.
const FILLED: &[Row] = &[
    (Step::TakesMany(1023), 0),
    (
        Step::Event(Happens::Take(1), Err(NodeFault::Full), NOTHING),
        0,
    ),
];

#[test]
fn no_more_than_1024_are_pending(rt: HostRuntime) {
    check(&rt, rt.alloc(), 1, None, FILLED);
}

// What the second node sends as it votes, and as it takes an act.
const VOTES: &[Mail] = &[
    (1, Says::Accepted((1, 1), 1, Held::Boot(1))),
    (3, Says::Accepted((1, 1), 1, Held::Boot(1))),
];

const FORWARDS: &[Mail] = &[(1, Says::Forward(Held::Boot(2), Held::Act))];

const SECOND: &[Row] = &[
    (
        Step::Event(
            Happens::Hears(1, Says::Accept((1, 1), 1, Held::Boot(1))),
            Ok(0),
            VOTES,
        ),
        0,
    ),
    (
        Step::Event(
            Happens::Hears(1, Says::Accepted((1, 1), 1, Held::Boot(1))),
            Ok(1),
            NOTHING,
        ),
        1,
    ),
    (Step::Event(Happens::Take(2), Ok(0), FORWARDS), 1),
];

#[test]
fn another_node_forwards(rt: HostRuntime) {
    check(&rt, rt.alloc(), 2, None, SECOND);
}

// What the third node sends as it votes for its own Lost.
const VOTES_LOST: &[Mail] = &[
    (1, Says::Accepted((1, 1), 2, Held::Lost(3))),
    (2, Says::Accepted((1, 1), 2, Held::Lost(3))),
];

const TOLD: &[Row] = &[
    (
        Step::Event(
            Happens::Hears(1, Says::Learned(2, Held::Lost(3))),
            Ok(0),
            NOTHING,
        ),
        0,
    ),
    (Step::IsUp(true), 0),
    (
        Step::Event(
            Happens::Hears(1, Says::Learned(1, Held::Boot(3))),
            Ok(2),
            NOTHING,
        ),
        0,
    ),
    (Step::IsUp(false), 0),
    (Step::Event(Happens::Tick(3), Ok(0), NOTHING), 0),
];

const HEARD: &[Row] = &[
    (
        Step::Event(
            Happens::Hears(1, Says::Learned(1, Held::Boot(3))),
            Ok(1),
            NOTHING,
        ),
        1,
    ),
    (
        Step::Event(
            Happens::Hears(1, Says::Accepted((1, 1), 2, Held::Lost(3))),
            Ok(0),
            NOTHING,
        ),
        1,
    ),
    (
        Step::Event(
            Happens::Hears(1, Says::Accept((1, 1), 2, Held::Lost(3))),
            Ok(1),
            VOTES_LOST,
        ),
        0,
    ),
    (Step::IsUp(false), 0),
    (Step::Votes(1), 0),
];

#[test]
fn its_own_lost_leaves_it_down(rt: HostRuntime) {
    check(&rt, rt.alloc(), 3, None, TOLD);
    check(&rt, rt.alloc(), 3, None, HEARD);
}

// The third node, which promised the ballot (1, 2), and voted in it in slot 6: its snapshot gives the slots up to 5.
fn cut_node(rt: &impl Abort, alloc: Global) -> Node<Number> {
    let members = Members::new(3).expect(rt, "3 members");
    let rows = Rows {
        boot: 1,
        promised: promised_of(Some((1, 2))),
        snapshot: snapshot_of(rt, alloc, &[0, 0, 0, 0, 0, 0, 0, 5]),
        votes: votes_of(rt, alloc, Some((6, Held::Boot(2)))),
    };
    Node::of(alloc, 3, members, rows).expect(rt, "room for a node")
}

// It goes as these rows say.
fn check_cut(rt: &impl Abort, alloc: Global, rows: &[Row]) {
    let mut node = cut_node(rt, alloc);
    are_so(rt, alloc, 3, &mut node, rows);
}

// What it sends, above its floor and in a slot that the snapshot gives, and what it tells one that lacks its log.
const PROMISES: &[Mail] = &[(2, Says::PromiseAbove((2, 2), 5, Some((6, Held::Boot(2)))))];

const SHOWS: &[Mail] = &[(2, Says::Snapshot(5))];

const SHOWS_FIRST: &[Mail] = &[(1, Says::Snapshot(5))];

const REFUSES: &[Mail] = &[(1, Says::Nack((1, 1), (2, 2)))];

const VOTES_ABOVE: &[Mail] = &[
    (1, Says::Accepted((2, 2), 6, Held::Boot(1))),
    (2, Says::Accepted((2, 2), 6, Held::Boot(1))),
];

const SHOWS_AND_TELLS: &[Mail] = &[(1, Says::Snapshot(5)), (1, Says::Learned(6, Held::Boot(1)))];

const TELLS_ABOVE: &[Mail] = &[(1, Says::Learned(6, Held::Boot(1)))];

const CLOSED: &[Row] = &[
    (Step::Hears(2, Says::Prepare((2, 2), 1), PROMISES), 5),
    // in a slot up to the floor nothing is committed, not even a promise
    (
        Step::Hears(2, Says::Accept((2, 2), 5, Held::Noop), SHOWS),
        5,
    ),
    (
        Step::Hears(2, Says::Accept((3, 2), 1, Held::Noop), SHOWS),
        5,
    ),
    (Step::Promised(Some((2, 2))), 5),
    (
        Step::Hears(1, Says::Accept((1, 1), 5, Held::Noop), REFUSES),
        5,
    ),
    (Step::Hears(1, Says::Ask(1), SHOWS_FIRST), 5),
    (
        Step::Hears(2, Says::Accept((2, 2), 6, Held::Boot(1)), VOTES_ABOVE),
        5,
    ),
    (Step::Votes(1), 5),
    // what was learned right after the floor is applied
    (
        Step::Event(
            Happens::Hears(2, Says::Accepted((2, 2), 6, Held::Boot(1))),
            Ok(1),
            NOTHING,
        ),
        6,
    ),
    (Step::Hears(1, Says::Ask(5), SHOWS_AND_TELLS), 6),
    (Step::Hears(1, Says::Ask(6), TELLS_ABOVE), 6),
    (Step::Hears(1, Says::Ask(7), NOTHING), 6),
    // a Snapshot that gives no more than the log brings about nothing; one that gives more needs a head
    (Step::Hears(2, Says::Snapshot(6), NOTHING), 6),
    (
        Step::Event(
            Happens::Hears(2, Says::Snapshot(7)),
            Err(NodeFault::Disagree),
            NOTHING,
        ),
        6,
    ),
    (Step::Votes(1), 6),
];

#[test]
fn slots_up_to_its_floor_are_closed(rt: HostRuntime) {
    check_cut(&rt, rt.alloc(), CLOSED);
}

// What it sends as it begins a ballot, and once that has a majority: above its own floor, and above one that was reported.
const PREPARES_ABOVE: &[Mail] = &[(1, Says::Prepare((2, 3), 6)), (2, Says::Prepare((2, 3), 6))];

const PROPOSES_ABOVE: &[Mail] = &[
    (1, Says::Accept((2, 3), 6, Held::Boot(2))),
    (2, Says::Accept((2, 3), 6, Held::Boot(2))),
    (1, Says::Accepted((2, 3), 6, Held::Boot(2))),
    (2, Says::Accepted((2, 3), 6, Held::Boot(2))),
    (1, Says::Accept((2, 3), 7, Held::Boot(3))),
    (2, Says::Accept((2, 3), 7, Held::Boot(3))),
    (1, Says::Accepted((2, 3), 7, Held::Boot(3))),
    (2, Says::Accepted((2, 3), 7, Held::Boot(3))),
];

const PROPOSES_LATER: &[Mail] = &[
    (1, Says::Accept((2, 3), 8, Held::Noop)),
    (2, Says::Accept((2, 3), 8, Held::Noop)),
    (1, Says::Accepted((2, 3), 8, Held::Noop)),
    (2, Says::Accepted((2, 3), 8, Held::Noop)),
    (1, Says::Accept((2, 3), 9, Held::Act)),
    (2, Says::Accept((2, 3), 9, Held::Act)),
    (1, Says::Accepted((2, 3), 9, Held::Act)),
    (2, Says::Accepted((2, 3), 9, Held::Act)),
    (1, Says::Accept((2, 3), 10, Held::Boot(3))),
    (2, Says::Accept((2, 3), 10, Held::Boot(3))),
    (1, Says::Accepted((2, 3), 10, Held::Boot(3))),
    (2, Says::Accepted((2, 3), 10, Held::Boot(3))),
];

const ABOVE_ITS_OWN: &[Row] = &[
    (Step::Event(Happens::Start(3), Ok(0), PREPARES_ABOVE), 5),
    (
        Step::Hears(1, Says::PromiseAbove((2, 3), 4, None), PROPOSES_ABOVE),
        5,
    ),
    (Step::Votes(2), 5),
];

const ABOVE_A_REPORTED_ONE: &[Row] = &[
    (Step::Event(Happens::Start(3), Ok(0), PREPARES_ABOVE), 5),
    (
        Step::Hears(
            1,
            Says::PromiseAbove((2, 3), 7, Some((9, Held::Act))),
            PROPOSES_LATER,
        ),
        5,
    ),
    (Step::Votes(4), 5),
];

#[test]
fn it_leads_above_floors(rt: HostRuntime) {
    check_cut(&rt, rt.alloc(), ABOVE_ITS_OWN);
    check_cut(&rt, rt.alloc(), ABOVE_A_REPORTED_ONE);
}
