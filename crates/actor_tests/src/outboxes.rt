// Outboxes that are full.
ghost use Rattle.std.specs.Prelude.{◌≡◌, ◌≤◌, All, false};
ghost use Rattle.mail_table.specs.Seats.{Owns};
ghost use Rattle.actor_tests.specs.Fresh.{IsFresh};

use crate::actors::{gathered, last_seat, opened, put_seat, seat_of};
use crate::check::Check;
use crate::hearing::number;
use mail_table::{Mail, NodeSeat, Office, found};
use node_actor::{Actor, Body, Keeper, Machine, Members, Packet};
use paxos_packets::Kind;
use std::alloc::Global;
use std::panic::Expect;
use std::process::Abort;
use store_keeper::MemKeeper;
use test_checks::{check, check_eq};
use test_machines::{Count, Number};

// How often the first node turns at most.
const MOST_TURNS: u32 = 10_000;

fn ticks<M: Machine, K: Keeper<M::Body>>(
    mail: &Mail<M::Body>,
    actor: &mut Actor<M, K>,
    count: u32,
) -> u32
    requires { Owns mail.now actor.old.seat }
    ensures { Owns mail.now actor.new.seat }
{
    let mut done = 0u32;
    for _ in 0..count {
        if number(actor.tick(mail)) == 0 {
            done = done.saturating_add(1);
        }
    }
    done
}

// How many packets came to a node, and whether the last one was a Prepare.
#[derive(Clone, Copy)]
struct Came {
    count: u32,
    prepares: bool,
}

const NONE_CAME: Came = Came {
    count: 0,
    prepares: false,
};

fn is_prepare<B: Body>(packet: Packet<B>) -> bool {
    let prepares = if let Kind::Prepare { .. } = &packet.kind {
        true
    } else {
        false
    };
    drop(packet);
    prepares
}

// The node fetches from node 1; what came by then.
fn fetched<B: Body>(mail: &Mail<B>, seat: &mut NodeSeat<B>, came: Came) -> Came
    requires owned { Owns mail.now seat.old }
    requires single { mail.now.most ≡ 1 }
    requires members { 3 ≤ mail.now.members }
    ensures { Owns mail.now seat.new }
{
    let Some(packet) = mail.fetch(seat, 1) else {
        return came;
    };
    Came {
        count: came.count.saturating_add(1),
        prepares: is_prepare(packet),
    }
}

// What comes to nodes 2 and 3 by as many turns of node 1 as bring any.
fn drained<M: Machine, K: Keeper<M::Body>>(
    mail: &Mail<M::Body>,
    actor: &mut Actor<M, K>,
    two: &mut NodeSeat<M::Body>,
    three: &mut NodeSeat<M::Body>,
) -> (Came, Came)
    requires actor { Owns mail.now actor.old.seat }
    requires single { mail.now.most ≡ 1 }
    requires two { Owns mail.now two.old }
    requires three { Owns mail.now three.old }
    requires members { 3 ≤ mail.now.members }
    ensures actor { Owns mail.now actor.new.seat }
    ensures two { Owns mail.now two.new }
    ensures three { Owns mail.now three.new }
{
    let (mut second, mut third) = (NONE_CAME, NONE_CAME);
    for _ in 0..MOST_TURNS {
        let before = second.count.saturating_add(third.count);
        let turned = number(actor.turn(mail));
        second = fetched(mail, two, second);
        third = fetched(mail, three, third);
        if turned != 0 || second.count.saturating_add(third.count) == before {
            break;
        }
    }
    (second, third)
}

fn keeps_the_newest<M: Machine, K: Keeper<M::Body>>(
    rt: &impl Abort,
    mail: &Mail<M::Body>,
    actor: &mut Actor<M, K>,
    two: &mut NodeSeat<M::Body>,
    three: &mut NodeSeat<M::Body>,
)
    requires actor { Owns mail.now actor.old.seat }
    requires single { mail.now.most ≡ 1 }
    requires two { Owns mail.now two.old }
    requires three { Owns mail.now three.old }
    requires members { 3 ≤ mail.now.members }
    ensures actor { Owns mail.now actor.new.seat }
    ensures two { Owns mail.now two.new }
    ensures three { Owns mail.now three.new }
{
    check_eq!(rt; ticks(mail, actor, 4_096), 4_096);
    check_eq!(rt; number(actor.start(mail)), 0);
    let (second, third) = drained(mail, actor, two, three);
    check_eq!(rt; (second.count, second.prepares), (4_096, true));
    check_eq!(rt; (third.count, third.prepares), (4_096, true));
}

// Nodes 2 and 3 fetch what the actor of the first of these seats posts.
fn hear<M: Machine, K: Keeper<M::Body> + Drop>(
    rt: &impl Abort,
    alloc: Global,
    mail: &Mail<M::Body>,
    seats: &mut Vec<NodeSeat<M::Body>>,
    members: Members,
    machine: M,
    keeper: K,
)
    requires fresh { All (IsFresh mail.now) seats.old.items }
    requires single { mail.now.most ≡ 1 }
    requires members { (members ≡ mail.now.members) × (3 ≤ mail.now.members) }
    requires machine { M.has_failed machine ≡ false }
    ensures { All (Owns mail.now) seats.new.items }
{
    let mut three = last_seat(rt, mail, seats);
    let mut two = last_seat(rt, mail, seats);
    let mut one = opened(rt, alloc, mail, seats, members, machine, keeper);
    keeps_the_newest(rt, mail, &mut one, &mut two, &mut three);
    put_seat(rt, mail, seats, seat_of(one));
    put_seat(rt, mail, seats, two);
    put_seat(rt, mail, seats, three);
}

// Node 1 of three posts, with this machine and this store.
fn listen<M: Machine, K: Keeper<M::Body> + Drop>(
    rt: &impl Abort,
    alloc: Global,
    machine: M,
    keeper: K,
)
    requires { M.has_failed machine ≡ false }
{
    let members = Members::new(3).expect(rt, "3 members");
    let mut office = Office::new();
    let (mail, mut seats) = found::<M::Body>(alloc, &mut office, members).expect(rt, "a table");
    hear(rt, alloc, &mail, &mut seats, members, machine, keeper);
    check!(rt; gathered(rt, mail, seats) == [0; 7]);
}

#[test]
fn full_outboxes_lose_their_oldest_packets(rt: HostRuntime) {
    let keeper = MemKeeper::<Number>::new(rt.alloc());
    listen(&rt, rt.alloc(), Count::new(rt.alloc()), keeper);
}
