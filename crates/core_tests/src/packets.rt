// Slots, floors, ballots and members; and copies of each kind of packet, of shared bodies, entries, rows and changes.
ghost use Rattle.std.specs.Prelude.{◌≡◌, ◌==◌, ℕ, List, refl, IfOk};
ghost use Rattle.std.specs.Cmp.Lexicographic.{pointwise, bytes_decides};

use crate::check::Check;
use crate::snapshots::{are_same_snapshots, snapshot_of};
use crate::votes::{item, slot, vote, votes_of};
use paxos_packets::{
    Ballot, Body, Change, Entries, Entry, Floor, Kind, Members, Memory, NodeSet, Packet, Rows,
    Shared, Slot, Votes,
};
use std::alloc::Global;
use std::marker::Model;
use std::process::Abort;
use test_checks::{check, check_eq};
use test_machines::Number;

// A body that allocates.
#[derive(Drop)]
struct Text {
    octets: Vec<u8>,
}

impl Model for Text {
    ghost Value = { List ℕ };

    ghost view = { λ t. t.octets.items };
}

impl Body for Text {
    ghost same = { pointwise (λ x y. x == y) };

    fn copy(&self, alloc: Global) -> Result<Text, Memory> {
        text_of(alloc, &self.octets)
    }

    fn same(&self, other: &Text) -> bool {
        self.octets.as_slice() == other.octets.as_slice()
    }

    ghost reflexive = { λ xs. (bytes_decides xs xs).1 refl };

    ghost sound = { λ xs ys. (bytes_decides xs ys).0 };
}

fn text_of(alloc: Global, octets: &[u8]) -> Result<Text, Memory>
    ensures { IfOk result (λ text. text ≡ octets.now) }
{
    Ok(Text {
        octets: Vec::from_slice(alloc, octets)?,
    })
}

fn shared_of(rt: &impl Abort, alloc: Global, octets: &[u8]) -> Shared<Text>
    ensures { result ≡ octets.now }
{
    let text = text_of(alloc, octets).expect(rt, "room for a text");
    Shared::new(alloc, text).expect(rt, "room for a shared text")
}

#[test]
fn slots_have_their_range(rt: HostRuntime) {
    check!(&rt; Slot::new(0).is_none());
    check!(&rt; Slot::new(1 << 40).is_none());
    check_eq!(&rt; Slot::new(1).map(|s| s.get()), Some(1));
    check_eq!(&rt; Slot::new(1_099_511_627_775).map(|s| s.get()), Some(1_099_511_627_775));
}

#[test]
fn floors_have_their_range(rt: HostRuntime) {
    check!(&rt; Floor::new(1 << 40).is_none());
    check_eq!(&rt; Floor::new(0).map(|floor| floor.get()), Some(0));
    check_eq!(&rt; Floor::new(1_099_511_627_775).map(|floor| floor.get()), Some(1_099_511_627_775));
    check_eq!(&rt; (Floor::none().get(), Floor::at(slot(&rt, 7)).get()), (0, 7));
}

#[test]
fn ballots_go_by_round_then_node(rt: HostRuntime) {
    let low = Ballot { round: 1, node: 2 };
    let high = Ballot { round: 2, node: 1 };
    check!(&rt; low.is_below(&high));
    check!(&rt; low < high);
    check!(&rt; !high.is_below(&low));
    check!(&rt; !low.is_below(&low));
    check!(&rt; low.is_below(&Ballot { round: 1, node: 3 }));
    check!(&rt; low == low);
    check!(&rt; low != high);
}

#[test]
fn members_are_three_to_seven(rt: HostRuntime) {
    check!(&rt; Members::new(2).is_none());
    check!(&rt; Members::new(8).is_none());
    let four = Members::new(4).expect(&rt, "four members");
    check_eq!(&rt; four.count(), 4);
    check!(&rt; four.contains(1) && four.contains(4));
    check!(&rt; !four.contains(0) && !four.contains(5));
    check_eq!(&rt; four.others(2).as_slice(), [1, 3, 4].as_slice());
    check_eq!(&rt; four.others(9).as_slice(), [1, 2, 3, 4].as_slice());
}

#[test]
fn three_of_four_are_a_majority(rt: HostRuntime) {
    let four = Members::new(4).expect(&rt, "four members");
    let mut set = NodeSet::new();
    for node in [1, 4, 0, 7, 200] {
        set.insert(node);
    }
    check!(&rt; set.contains(4) && set.contains(7));
    check!(&rt; !set.contains(2) && !set.contains(200));
    check!(&rt; !four.majority(set), "two of four, and others that are no members");
    set.insert(3);
    check!(&rt; four.majority(set));
}

pub fn packet_of<B: Body>(rt: &impl Abort, alloc: Global, kind: &Kind<B>) -> Packet<B> {
    Packet {
        sender: 1,
        addressee: 2,
        kind: kind.copy(alloc).expect(rt, "room for a copy"),
    }
}

// Whether a copy of the packet is the same as the other.
fn is_copy_same<B: Body>(
    rt: &impl Abort,
    alloc: Global,
    packet: &Packet<B>,
    other: &Packet<B>,
) -> bool {
    let copy = packet.copy(alloc).expect(rt, "room for a copy");
    let same = copy.same(other);
    drop(copy);
    same
}

// Whether a copy of the packet is the same as a packet of this kind.
fn is_of_kind<B: Body>(rt: &impl Abort, alloc: Global, packet: &Packet<B>, kind: &Kind<B>) -> bool {
    let other = packet_of(rt, alloc, kind);
    let same = is_copy_same(rt, alloc, packet, &other);
    drop(other);
    same
}

// Whether packets of these kinds are the same.
fn are_same<B: Body>(rt: &impl Abort, alloc: Global, kind: &Kind<B>, other: &Kind<B>) -> bool {
    let packet = packet_of(rt, alloc, kind);
    let same = is_of_kind(rt, alloc, &packet, other);
    drop(packet);
    same
}

// Whether the copies of packets of each kind are the same as they, and as no other of them.
fn copies_are_told_apart<B: Body>(rt: &impl Abort, alloc: Global, kinds: &[Kind<B>]) {
    for (i, kind) in kinds.iter().enumerate() {
        for (j, other) in kinds.iter().enumerate() {
            check_eq!(rt; are_same(rt, alloc, kind, other), i == j, (i, j));
        }
    }
}

const BALLOT: Ballot = Ballot { round: 1, node: 1 };

// A Promise with a vote for this entry.
fn promise_with<B: Body>(rt: &impl Abort, alloc: Global, entry: Entry<B>) -> Kind<B> {
    let vote = vote(rt, 1, 1, entry);
    let mut votes = Votes::new(alloc);
    votes.put(vote).expect(rt, "room for a vote");
    Kind::Promise {
        ballot: BALLOT,
        floor: Floor::none(),
        votes,
    }
}

// A Promise above this floor, without a vote.
fn promise_above<B>(rt: &impl Abort, alloc: Global, floor: u64) -> Kind<B> {
    Kind::Promise {
        ballot: BALLOT,
        floor: Floor::new(floor).expect(rt, "a floor"),
        votes: Votes::new(alloc),
    }
}

// A Snapshot with this floor, and one octet after it.
fn snapshot_with<B>(rt: &impl Abort, alloc: Global, floor: u8, octet: u8) -> Kind<B> {
    let octets = [0, 0, 0, 0, 0, 0, 0, floor, octet];
    Kind::Snapshot {
        snapshot: snapshot_of(rt, alloc, &octets).expect(rt, "a snapshot"),
    }
}

fn accepted<B: Drop>(rt: &impl Abort, entry: Entry<B>) -> Kind<B> {
    Kind::Accepted {
        vote: vote(rt, 1, 1, entry),
    }
}

fn push_both<B: Drop>(
    rt: &impl Abort,
    entries: &mut Vec<Entry<B>>,
    first: Entry<B>,
    last: Entry<B>,
) {
    entries.push(first).expect(rt, "room for an entry");
    entries.push(last).expect(rt, "room for an entry");
}

fn forward<B: Body>(rt: &impl Abort, alloc: Global, first: Entry<B>, last: Entry<B>) -> Kind<B> {
    let mut entries = Vec::new(alloc);
    push_both(rt, &mut entries, first, last);
    Kind::Forward {
        entries: Entries::of(entries),
    }
}

// The last kinds of the list, which hold no body.
fn plain_kind<B: Body>(rt: &impl Abort, alloc: Global, number: u8) -> Kind<B> {
    match number {
        0 => Kind::Prepare {
            ballot: BALLOT,
            first: 1,
        },
        1 => Kind::Prepare {
            ballot: BALLOT,
            first: 2,
        },
        2 => promise_above(rt, alloc, 0),
        3 => Kind::Accept {
            vote: vote(rt, 1, 1, Entry::Boot { node: 1, boot: 1 }),
        },
        4 => accepted(rt, Entry::Boot { node: 1, boot: 1 }),
        5 => accepted(rt, Entry::Lost { node: 1, boot: 1 }),
        6 => Kind::Nack {
            ballot: BALLOT,
            promised: Ballot { round: 1, node: 2 },
        },
        7 => Kind::Learned {
            slot: slot(rt, 7),
            entry: Entry::Noop,
        },
        8 => promise_above(rt, alloc, 1),
        9 => snapshot_with(rt, alloc, 5, 1),
        10 => snapshot_with(rt, alloc, 5, 2),
        11 => snapshot_with(rt, alloc, 6, 1),
        _ => Kind::Ask { first: 1 },
    }
}

// An act with a copy of this body.
fn item_of<B: Body>(rt: &impl Abort, alloc: Global, body: &B) -> Entry<B> {
    item(body.copy(alloc).expect(rt, "room for a copy"))
}

// A packet's kind with a body in it, and from 5 on one without.
fn kind<B: Body>(rt: &impl Abort, alloc: Global, number: u8, body: &B, other: &B) -> Kind<B> {
    match number {
        0 => promise_with(rt, alloc, item_of(rt, alloc, body)),
        1 => accepted(rt, item_of(rt, alloc, body)),
        2 => accepted(rt, item_of(rt, alloc, other)),
        3 => forward(rt, alloc, Entry::Noop, item_of(rt, alloc, body)),
        4 => forward(rt, alloc, item_of(rt, alloc, body), Entry::Noop),
        _ => plain_kind(rt, alloc, number.saturating_sub(5)),
    }
}

fn push_kinds<B: Body>(
    rt: &impl Abort,
    alloc: Global,
    kinds: &mut Vec<Kind<B>>,
    body: &B,
    other: &B,
) {
    for number in 0..18 {
        let kind = kind(rt, alloc, number, body, other);
        kinds.push(kind).expect(rt, "room for a kind");
    }
}

// A packet of each kind, one with each entry, and ones that differ in one part.
pub fn kinds<B: Body>(rt: &impl Abort, alloc: Global, body: &B, other: &B) -> Vec<Kind<B>> {
    let mut kinds = Vec::new(alloc);
    push_kinds(rt, alloc, &mut kinds, body, other);
    kinds
}

// Packets with these bodies in them are copied.
fn bodies_are_copied<B: Body>(rt: &impl Abort, alloc: Global, body: &B, other: &B) {
    let kinds = kinds(rt, alloc, body, other);
    copies_are_told_apart(rt, alloc, kinds.as_slice());
    drop(kinds);
}

#[test]
fn small_bodies_are_copied(rt: HostRuntime) {
    bodies_are_copied(&rt, rt.alloc(), &Number::new(1), &Number::new(2));
}

#[test]
fn large_bodies_are_copied(rt: HostRuntime) {
    let body = text_of(rt.alloc(), b"a.b").expect(&rt, "room for a text");
    let other = text_of(rt.alloc(), b"a.c").expect(&rt, "room for a text");
    bodies_are_copied(&rt, rt.alloc(), &body, &other);
}

#[test]
fn shared_bodies_are_copied(rt: HostRuntime) {
    let body = shared_of(&rt, rt.alloc(), b"a.b");
    let other = shared_of(&rt, rt.alloc(), b"a.c");
    bodies_are_copied(&rt, rt.alloc(), &body, &other);
}

// Returns a second holder of these octets, whose first is dropped.
fn second_holder(rt: &impl Abort, alloc: Global, octets: &[u8]) -> Shared<Text> {
    let first = shared_of(rt, alloc, octets);
    first.share().expect(rt, "room for a second holder")
}

#[test]
fn a_shared_body_outlives_its_first_holder(rt: HostRuntime) {
    let second = second_holder(&rt, rt.alloc(), b"a.b");
    check_eq!(&rt; second.get().octets.as_slice(), b"a.b".as_slice());
}

// Whether there are two entries, of which the first alone has this body.
fn are_in_order(entries: &Entries<Number>) -> bool {
    let [first, second] = entries.as_slice() else {
        return false;
    };
    first.same(&item(Number::new(1))) && !second.same(&item(Number::new(1)))
}

// Whether a copy is the same, and what is made of its list again.
fn are_entries_copied(rt: &impl Abort, alloc: Global, entries: &Entries<Number>) -> bool {
    let copy = entries.copy(alloc).expect(rt, "room for a copy");
    let same = copy.same(entries);
    let again = Entries::of(copy.into_vec());
    let both = same && again.same(entries);
    drop(again);
    both
}

fn push_in_order(rt: &impl Abort, entries: &mut Entries<Number>) {
    entries
        .push(item(Number::new(1)))
        .expect(rt, "room for an entry");
    entries.push(Entry::Noop).expect(rt, "room for an entry");
}

#[test]
fn entries_keep_their_order(rt: HostRuntime) {
    let mut entries = Entries::new(rt.alloc());
    push_in_order(&rt, &mut entries);
    check!(&rt; are_in_order(&entries));
    let copied = are_entries_copied(&rt, rt.alloc(), &entries);
    drop(entries);
    check!(&rt; copied);
}

fn are_same_rows(rows: &Rows<Number>, others: &Rows<Number>) -> bool {
    rows.boot == others.boot
        && rows.promised == others.promised
        && are_same_snapshots(&rows.snapshot, &others.snapshot)
        && rows.votes.same(&others.votes)
}

fn are_rows_copied(rt: &impl Abort, alloc: Global, rows: &Rows<Number>) -> bool {
    let copy = rows.copy(alloc).expect(rt, "room for a copy");
    let same = are_same_rows(&copy, rows);
    drop(copy);
    same
}

fn is_change_copied(rt: &impl Abort, alloc: Global, change: &Change<Number>) -> bool {
    let copy = change.copy(alloc).expect(rt, "room for a copy");
    let same = copy.promised == change.promised
        && are_same_snapshots(&copy.snapshot, &change.snapshot)
        && copy.votes.same(&change.votes);
    drop(copy);
    same
}

const PROMISED: Option<Ballot> = Some(Ballot { round: 2, node: 1 });

const BASE: &[u8] = &[0, 0, 0, 0, 0, 0, 0, 5, 1];

#[test]
fn rows_are_copied(rt: HostRuntime) {
    let rows = Rows {
        boot: 4,
        promised: PROMISED,
        snapshot: snapshot_of(&rt, rt.alloc(), BASE),
        votes: votes_of(&rt, rt.alloc(), &[(6, 2, 1)]),
    };
    let copied = are_rows_copied(&rt, rt.alloc(), &rows);
    drop(rows);
    check!(&rt; copied);
}

#[test]
fn changes_are_copied(rt: HostRuntime) {
    let change = Change {
        promised: PROMISED,
        snapshot: snapshot_of(&rt, rt.alloc(), BASE),
        votes: votes_of(&rt, rt.alloc(), &[(6, 2, 1)]),
    };
    let copied = is_change_copied(&rt, rt.alloc(), &change);
    drop(change);
    check!(&rt; copied);
}

#[test]
fn out_of_memory_is_49(rt: HostRuntime) {
    check_eq!(&rt; Memory.number(), 49);
    let told = format!(in rt.alloc(); "{}", Memory).expect(&rt, "room for a text");
    check_eq!(&rt; told.as_str(), "no memory for a copy");
}
