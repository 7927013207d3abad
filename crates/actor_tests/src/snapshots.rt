// Snapshots that a peer shows, and that a store has: an actor goes on from one if a log is made of it; else it ends, or does not begin.
ghost use Rattle.cluster_world.specs.Has.{Has};
ghost use Rattle.mail_table.specs.Boxes.{Received};
ghost use Rattle.mail_table.specs.Seats.{Owns};
ghost use Rattle.actor_tests.specs.Fresh.{IsFresh};
ghost use Rattle.actor_tests.specs.Standing.{Knows};
ghost use Rattle.paxos_node.specs.Events.{owner, possible};
ghost use Rattle.paxos_node.specs.Plans.{is_planned};
ghost use Rattle.paxos_node.specs.declared.event.Event.TheVariants.{Deliver};
ghost use Rattle.paxos_packets.specs.declared.packet.Packet.{Packet};
ghost use Rattle.std.specs.Prelude.{false, ◌≡◌, ◌≤◌, ℕ, All, IfOk, IfSome, true};

use crate::actors::last_seat;
use crate::carrying::number;
use crate::check::Check;
use crate::posting::opened;
use crate::realms::{realm, saved_realm};
use mail_table::{Mail, NodeSeat, Office, found};
use node_actor::{Heard, Keeper, Machine};
use paxos_node::{Event, Node, Packets};
use paxos_packets::{Body, Change, Members, Packet, Rows, Snapshot, Votes};
use realm_machine::Act;
use replica_machine::AppliedLog;
use std::alloc::Global;
use std::panic::Expect;
use std::process::Abort;
use std::test::Fail;
use store_keeper::MemKeeper;
use test_checks::{check, check_eq};
use test_machines::{Count, Number, Scant};
use test_stands::{Begun, Left, SeatedActor, again, close_left, close_log, open_actor};

// Packets.

// What a snapshot has up to slot 5: a boot of node 1, or none, and what a machine has added up, in so many octets.
#[derive(Clone, Copy)]
struct Made {
    boot: u64,
    sum: u8,
    length: usize,
}

// How many octets the head of a log has, and how many a log that adds up.
const HEAD: usize = 127;

const WHOLE: usize = 135;

fn put(rt: &impl Abort, octets: &mut Vec<u8>, more: &[u8]) {
    octets.extend_from_slice(more).expect(rt, "room for octets");
}

// The octets of the snapshot. They are those of a whole log, and one more, cut to their length.
fn octets_of(rt: &impl Abort, alloc: Global, made: &Made) -> Vec<u8> {
    let mut octets = Vec::new(alloc);
    put(rt, &mut octets, &[0, 0, 0, 0, 0, 0, 0, 5]);
    put(rt, &mut octets, &made.boot.to_be_bytes());
    put(rt, &mut octets, &[0; 118]);
    put(rt, &mut octets, &[made.sum, 0]);
    octets.truncate(made.length);
    octets
}

// The rows of a node that rests on these octets.
fn rows_with(rt: &impl Abort, alloc: Global, octets: Vec<u8>) -> Rows<Number> {
    Rows {
        boot: 1,
        promised: None,
        snapshot: Snapshot::of(octets).expect(rt, "room for a snapshot"),
        votes: Votes::new(alloc),
    }
}

// What the node sends at this event, which comes from its seat.
fn sent_at(
    mail: &Mail<Number>,
    seat: &mut NodeSeat<Number>,
    node: &mut Node<Number>,
    event: &Event<Number>,
) -> Result<Packets<Number>, Fail>
    requires knows { Knows mail.now seat.old node.old }
    requires own { owner event.now ≡ seat.old.part.me }
    requires planned { is_planned event.now ≡ true }
    requires may { possible event.now node.old.state ≡ true }
    requires received { Received mail.now.members seat.old.part event.now }
    ensures sent { IfOk result (λ packets. (p : Packet ℕ) → Has packets p → Has seat.new.part.seen.sent p) }
    ensures owned { Owns mail.now seat.new }
{
    let outcome = node.plan(event)?;
    mail.advance(seat, &outcome)?;
    let (packets, applied) = node.adopt(outcome)?;
    drop(applied);
    Ok(packets)
}

// What the node answers to a packet that its seat fetched.
fn answers(
    mail: &Mail<Number>,
    seat: &mut NodeSeat<Number>,
    node: &mut Node<Number>,
    packet: Packet<Number>,
) -> Result<Packets<Number>, Fail>
    requires knows { Knows mail.now seat.old node.old }
    requires addressed { packet.addressee ≡ seat.old.part.me }
    requires received { Received mail.now.members seat.old.part (Deliver packet) }
    ensures sent { IfOk result (λ packets. (p : Packet ℕ) → Has packets p → Has seat.new.part.seen.sent p) }
    ensures owned { Owns mail.now seat.new }
{
    if !node.is_up() {
        drop(packet);
        return Err(Fail::from("the node is down"));
    }
    let event = Event::Deliver { packet };
    let done = sent_at(mail, seat, node, &event);
    drop(event);
    done
}

// The last of these packets, if it is for node 1.
fn for_first(packets: Packets<Number>) -> Option<Packet<Number>>
    ensures { IfSome result (λ p. Has packets p × (p.addressee ≡ 1)) }
{
    let mut list = packets.into_vec();
    let packet = list.pop()?;
    if packet.addressee == 1 {
        return Some(packet);
    }
    drop(packet);
    None
}

// Node 2 fetches what node 1 posted, and posts what it answers.
fn reply(
    rt: &impl Abort,
    mail: &Mail<Number>,
    two: &mut NodeSeat<Number>,
    node: &mut Node<Number>,
) -> Result<(), Fail>
    requires knows { Knows mail.now two.old node.old }
    requires single { mail.now.most ≡ 1 }
    requires members { 3 ≤ mail.now.members }
    ensures owned { Owns mail.now two.new }
{
    let Some(asked) = mail.fetch(two, 1) else {
        panic!(rt; "no Ask to node 2")
    };
    let sent = answers(mail, two, node, asked)?;
    let Some(shown) = for_first(sent) else {
        panic!(rt; "no packet to node 1")
    };
    check!(rt; mail.post(two, 1, shown).is_ok());
    Ok(())
}

// Node 1 asks what node 2 has learned.
fn asks<M: Machine, K: Keeper<M::Body>>(rt: &impl Abort, actor: &mut SeatedActor<'_, M, K>) {
    check_eq!(rt; number(actor.tick()), 0);
    check_eq!(rt; number(actor.turn()), 0);
    check!(rt; actor.has_posted());
}

// What comes of the snapshot at node 1: the number of the fault, and its floor. An actor that has ended returns 71.
type Comes = (u8, u64);

// The snapshot comes to node 1.
fn is_shown<M: Machine, K: Keeper<M::Body>>(
    rt: &impl Abort,
    actor: &mut SeatedActor<'_, M, K>,
    comes: Comes,
) {
    let (fault, floor) = comes;
    check_eq!(rt; number(actor.turn()), fault);
    check_eq!(rt; (actor.from(), actor.heard()), (Some(2), Some(Heard::Snapshot(5))));
    stands_at(rt, actor, floor);
    check_eq!(rt; number(actor.tick()), if fault == 0 { 0 } else { 71 });
}

// All of the log is below the floor.
fn stands_at<M: Machine, K: Keeper<M::Body>>(
    rt: &impl Abort,
    actor: &SeatedActor<'_, M, K>,
    floor: u64,
) {
    check_eq!(rt; (actor.floor(), actor.applied(), actor.log().len()), (floor, floor, 0));
}

// Whether the log is saved as these octets.
fn is_saved<M: Machine>(rt: &impl Abort, log: &AppliedLog<M>, octets: &[u8]) -> bool {
    let saved = log.save().expect(rt, "room for octets");
    let same = saved.as_slice() == octets;
    drop(saved);
    same
}

// The actor goes down, and begins again over its store. Its log is that of the octets if it has their floor.
fn begins_again<M: Machine, K: Keeper<M::Body> + Drop>(
    rt: &impl Abort,
    alloc: Global,
    actor: SeatedActor<'_, M, K>,
    machine: M,
    octets: &[u8],
    floor: u64,
)
    requires { M.has_failed machine ≡ false }
{
    let (left, keeper) = actor.crash();
    let actor = again(left.restart(alloc, machine, keeper)).expect(rt, "an actor");
    stands_at(rt, &actor, floor);
    let log = actor.leave();
    let same = is_saved(rt, &log, octets);
    close_log(log);
    check_eq!(rt; same, floor == 5);
}

// A machine, a second one for its actor's next boot, and its store.
struct Parts<M, K> {
    machine: M,
    next: M,
    keeper: K,
}

// Node 2 has the snapshot, and the actor of node 1 asks for what it stands for.
fn shows_it<M: Machine<Body = Number>, K: Keeper<Number> + Drop>(
    rt: &impl Abort,
    alloc: Global,
    mail: &Mail<Number>,
    seats: &mut Vec<NodeSeat<Number>>,
    members: Members,
    parts: Parts<M, K>,
    made: &Made,
    comes: Comes,
) -> Result<(), Fail>
    requires fresh { All (IsFresh mail.now) seats.old.items }
    requires single { mail.now.most ≡ 1 }
    requires members { (members ≡ mail.now.members) × (3 ≤ mail.now.members) }
    requires machine { M.has_failed parts.machine ≡ false }
    requires next { M.has_failed parts.next ≡ false }
{
    let Parts {
        machine,
        next,
        keeper,
    } = parts;
    let rows = rows_with(rt, alloc, octets_of(rt, alloc, made));
    drop(last_seat(rt, mail, seats));
    let mut two = last_seat(rt, mail, seats);
    let mut node = opened(alloc, mail, &mut two, members, rows)?;
    let one = last_seat(rt, mail, seats);
    let begun = open_actor(alloc, mail, one, members, machine, keeper);
    let mut actor = again(begun).expect(rt, "an actor");
    asks(rt, &mut actor);
    let done = reply(rt, mail, &mut two, &mut node);
    is_shown(rt, &mut actor, comes);
    let octets = octets_of(rt, alloc, made);
    begins_again(rt, alloc, actor, next, octets.as_slice(), comes.1);
    drop(octets);
    done
}

// What comes of snapshots at a machine that adds up.
const SHOWN: &[(Made, Comes)] = &[
    // no head of a log
    (
        Made {
            boot: 0,
            sum: 11,
            length: 8,
        },
        (72, 0),
    ),
    // a head that fits, and an octet is missing
    (
        Made {
            boot: 0,
            sum: 11,
            length: WHOLE - 1,
        },
        (72, 0),
    ),
    // and one too many
    (
        Made {
            boot: 0,
            sum: 11,
            length: WHOLE + 1,
        },
        (72, 0),
    ),
    (
        Made {
            boot: 0,
            sum: 11,
            length: WHOLE,
        },
        (0, 5),
    ),
    // the present boot of node 1 stands in it
    (
        Made {
            boot: 1,
            sum: 11,
            length: WHOLE,
        },
        (0, 0),
    ),
];

// A snapshot of three inputs, for which memory runs out as it is loaded.
const UNLOADED: Made = Made {
    boot: 0,
    sum: 3,
    length: WHOLE,
};

// One of four.
const LOADED: Made = Made {
    boot: 0,
    sum: 4,
    length: WHOLE,
};

fn shown_to_count(rt: &impl Abort, alloc: Global, made: &Made, comes: Comes) -> Result<(), Fail> {
    let members = Members::new(3).ok_or("3 members")?;
    let mut office = Office::new();
    let (mail, mut seats) = found::<Number>(alloc, &mut office, members)?;
    let parts = Parts {
        machine: Count::new(alloc),
        next: Count::new(alloc),
        keeper: MemKeeper::<Number>::new(alloc),
    };
    shows_it(rt, alloc, &mail, &mut seats, members, parts, made, comes)
}

fn shown_to_scant(rt: &impl Abort, alloc: Global, made: &Made, comes: Comes) -> Result<(), Fail> {
    let members = Members::new(3).ok_or("3 members")?;
    let mut office = Office::new();
    let (mail, mut seats) = found::<Number>(alloc, &mut office, members)?;
    let parts = Parts {
        machine: Scant::new(alloc),
        next: Scant::new(alloc),
        keeper: MemKeeper::<Number>::new(alloc),
    };
    shows_it(rt, alloc, &mail, &mut seats, members, parts, made, comes)
}

#[test]
fn a_snapshot_is_taken_if_a_log_is_made_of_it(rt: HostRuntime) -> Result<(), Fail> {
    for (made, comes) in SHOWN {
        shown_to_count(&rt, rt.alloc(), made, *comes)?;
    }
    Ok(())
}

#[test]
fn memory_may_run_out_for_a_snapshot(rt: HostRuntime) -> Result<(), Fail> {
    shown_to_scant(&rt, rt.alloc(), &UNLOADED, (76, 0))?;
    shown_to_scant(&rt, rt.alloc(), &LOADED, (0, 5))
}

// Stores.

// The boot and the floor that a store has.
fn stored_in<B: Body, K: Keeper<B>>(rt: &impl Abort, keeper: &mut K) -> (u64, u64) {
    let rows = keeper.load().expect(rt, "what is stored");
    let floor = match &rows.snapshot {
        Some(snapshot) => snapshot.floor().get(),
        None => 0,
    };
    let found = (rows.boot, floor);
    drop(rows);
    found
}

// The store of a node that was started once, and rests on these octets.
fn with_snapshot<B: Body, K: Keeper<B>>(
    rt: &impl Abort,
    alloc: Global,
    keeper: K,
    octets: Vec<u8>,
) -> K {
    let mut keeper = keeper;
    drop(keeper.boot().expect(rt, "a boot"));
    let change = Change {
        promised: None,
        snapshot: Snapshot::of(octets).expect(rt, "room for a snapshot"),
        votes: Votes::new(alloc),
    };
    keeper.commit(&change).expect(rt, "a commit");
    drop(change);
    keeper
}

// The actor has begun, and no entry is above the floor.
fn has_begun<M: Machine, K: Keeper<M::Body> + Drop>(
    rt: &impl Abort,
    actor: SeatedActor<'_, M, K>,
    floor: u64,
) {
    stands_at(rt, &actor, floor);
    let (left, keeper) = actor.crash();
    let mut keeper = keeper;
    let found = stored_in(rt, &mut keeper);
    drop(keeper);
    close_left(left);
    check_eq!(rt; found, (2, floor));
}

// No actor begins, nor does one when it is tried again; each returns this fault, and no boot has begun.
fn is_refused<M: Machine, K: Keeper<M::Body> + Drop>(
    rt: &impl Abort,
    alloc: Global,
    left: Left<'_, M>,
    machine: M,
    keeper: K,
    faults: (u8, u8),
)
    requires { M.has_failed machine ≡ false }
{
    match left.restart(alloc, machine, keeper) {
        Begun::Again(_actor) => panic!(rt; "an actor"),
        Begun::Not(number, left, keeper) => {
            let mut keeper = keeper;
            let (boots, _) = stored_in(rt, &mut keeper);
            drop(keeper);
            close_left(left);
            check_eq!(rt; (faults.0, number, boots), (faults.1, faults.1, 1));
        },
    }
}

// Opens a node on a store that was started once and rests on a snapshot: it begins there with this floor, or is refused.
fn begins_over<M: Machine, K: Keeper<M::Body> + Drop>(
    rt: &impl Abort,
    alloc: Global,
    mail: &Mail<M::Body>,
    seats: &mut Vec<NodeSeat<M::Body>>,
    members: Members,
    parts: Parts<M, K>,
    comes: Comes,
)
    requires fresh { All (IsFresh mail.now) seats.old.items }
    requires members { members ≡ mail.now.members }
    requires machine { M.has_failed parts.machine ≡ false }
    requires next { M.has_failed parts.next ≡ false }
{
    let Parts {
        machine,
        next,
        keeper,
    } = parts;
    let seat = last_seat(rt, mail, seats);
    match open_actor(alloc, mail, seat, members, machine, keeper) {
        Begun::Again(actor) => has_begun(rt, actor, comes.1),
        Begun::Not(number, left, keeper) => is_refused(
            rt,
            alloc,
            left,
            next,
            keeper,
            (number, comes.0),
        ),
    }
}

// What comes of a store with such a snapshot.
const STORED: &[(Made, Comes)] = &[
    (
        Made {
            boot: 1,
            sum: 11,
            length: 8,
        },
        (62, 0),
    ),
    (
        Made {
            boot: 1,
            sum: 11,
            length: WHOLE - 1,
        },
        (62, 0),
    ),
    (
        Made {
            boot: 1,
            sum: 11,
            length: WHOLE + 1,
        },
        (62, 0),
    ),
    (
        Made {
            boot: 1,
            sum: 11,
            length: WHOLE,
        },
        (0, 5),
    ),
];

fn counts_over(rt: &impl Abort, alloc: Global, made: &Made, comes: Comes) -> Result<(), Fail> {
    let members = Members::new(3).ok_or("3 members")?;
    let mut office = Office::new();
    let (mail, mut seats) = found::<Number>(alloc, &mut office, members)?;
    let keeper = MemKeeper::<Number>::new(alloc);
    let parts = Parts {
        machine: Count::new(alloc),
        next: Count::new(alloc),
        keeper: with_snapshot(rt, alloc, keeper, octets_of(rt, alloc, made)),
    };
    begins_over(rt, alloc, &mail, &mut seats, members, parts, comes);
    Ok(())
}

fn scant_over(rt: &impl Abort, alloc: Global, made: &Made, comes: Comes) -> Result<(), Fail> {
    let members = Members::new(3).ok_or("3 members")?;
    let mut office = Office::new();
    let (mail, mut seats) = found::<Number>(alloc, &mut office, members)?;
    let keeper = MemKeeper::<Number>::new(alloc);
    let parts = Parts {
        machine: Scant::new(alloc),
        next: Scant::new(alloc),
        keeper: with_snapshot(rt, alloc, keeper, octets_of(rt, alloc, made)),
    };
    begins_over(rt, alloc, &mail, &mut seats, members, parts, comes);
    Ok(())
}

#[test]
fn an_actor_begins_over_a_snapshot_if_a_log_is_made_of_it(rt: HostRuntime) -> Result<(), Fail> {
    for (made, comes) in STORED {
        counts_over(&rt, rt.alloc(), made, *comes)?;
    }
    Ok(())
}

#[test]
fn memory_may_run_out_for_a_stored_snapshot(rt: HostRuntime) -> Result<(), Fail> {
    scant_over(&rt, rt.alloc(), &UNLOADED, (76, 0))?;
    scant_over(&rt, rt.alloc(), &LOADED, (0, 5))
}

// A realm after one boot, saved. The first octet after the head is 1.
fn realm_octets(rt: &impl Abort, alloc: Global, first: u8) -> Vec<u8> {
    let mut octets = saved_realm(rt, alloc);
    if let Some(octet) = octets.get_mut(HEAD) {
        *octet = first;
    }
    octets
}

fn realm_over(rt: &impl Abort, alloc: Global, first: u8, comes: Comes) -> Result<(), Fail> {
    let members = Members::new(3).ok_or("3 members")?;
    let mut office = Office::new();
    let (mail, mut seats) = found::<Act>(alloc, &mut office, members)?;
    let keeper = MemKeeper::<Act>::new(alloc);
    let parts = Parts {
        machine: realm(rt, alloc),
        next: realm(rt, alloc),
        keeper: with_snapshot(rt, alloc, keeper, realm_octets(rt, alloc, first)),
    };
    begins_over(rt, alloc, &mail, &mut seats, members, parts, comes);
    Ok(())
}

#[test]
fn a_stored_realm_with_an_octet_changed_is_damaged(rt: HostRuntime) -> Result<(), Fail> {
    realm_over(&rt, rt.alloc(), 1, (0, 1))?;
    realm_over(&rt, rt.alloc(), 2, (62, 0))
}
