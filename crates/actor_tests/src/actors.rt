// Three actors at a table, from the opening of their nodes to the gathering of their seats. One function owns them, and lends them to what
// they live through. What cannot be had, as memory or a boot, ends the test at once, so that no way out drops an actor.
ghost use Rattle.std.specs.Prelude.{◌≡◌, All, false};
ghost use Rattle.mail_table.specs.Seats.{Owns};
ghost use Rattle.actor_tests.specs.Fresh.{IsFresh};

use crate::hearing::{Answer, Heard, hear};
use mail_table::{Mail, NodeSeat, Office, found, found_for_batches};
use node_actor::{Actor, ActorFault, Body, Keeper, Machine, Members};
use std::alloc::Global;
use std::panic::Expect;
use std::process::Abort;

// How often each node turns at most.
const MOST_ROUNDS: u32 = 1_000;

/// What three nodes live through.
pub trait Life<M: Machine, K: Keeper<M::Body>> {
    /// The machine of a node that begins.
    fn machine(&self) -> M
        ensures { M.has_failed result ≡ false };

    /// The store of a node that was never opened.
    fn keeper(&self) -> K;

    /// The store of a node that has gone down, opened again.
    fn reopened(&self, keeper: K) -> K;

    /// What they do. Returns whether node 2 is to begin again.
    fn live(
        &mut self,
        mail: &Mail<M::Body>,
        one: &mut Actor<M, K>,
        two: &mut Actor<M, K>,
        three: &mut Actor<M, K>,
        heard: &mut Heard<M::Say>,
    ) -> bool
        requires one { Owns mail.now one.old.seat }
        requires two { Owns mail.now two.old.seat }
        requires three { Owns mail.now three.old.seat }
        ensures one { Owns mail.now one.new.seat }
        ensures two { Owns mail.now two.new.seat }
        ensures three { Owns mail.now three.new.seat };

    /// What they do once node 2 has begun again.
    fn live_on(
        &mut self,
        mail: &Mail<M::Body>,
        one: &mut Actor<M, K>,
        two: &mut Actor<M, K>,
        three: &mut Actor<M, K>,
        heard: &mut Heard<M::Say>,
    )
        requires one { Owns mail.now one.old.seat }
        requires two { Owns mail.now two.old.seat }
        requires three { Owns mail.now three.old.seat }
        ensures one { Owns mail.now one.new.seat }
        ensures two { Owns mail.now two.new.seat }
        ensures three { Owns mail.now three.new.seat };

    /// Judges what was heard, and the lengths of the logs, by node.
    fn end(&self, heard: &Heard<M::Say>, lengths: &[u64; 7]);
}

/// The last of these seats, whose node was never opened.
pub fn last_seat<B: Body>(
    rt: &impl Abort,
    mail: &Mail<B>,
    seats: &mut Vec<NodeSeat<B>>,
) -> NodeSeat<B>
    requires fresh { All (IsFresh mail.now) seats.old.items }
    ensures fresh { All (IsFresh mail.now) seats.new.items }
    ensures seat { IsFresh mail.now result }
{
    let _ = mail;
    match seats.pop() {
        Some(seat) => seat,
        None => panic!(rt; "no seat"),
    }
}

/// The actor of this seat.
pub fn opened_at<M: Machine, K: Keeper<M::Body>>(
    rt: &impl Abort,
    alloc: Global,
    mail: &Mail<M::Body>,
    seat: NodeSeat<M::Body>,
    members: Members,
    machine: M,
    keeper: K,
) -> Actor<M, K>
    requires seat { IsFresh mail.now seat }
    requires members { members ≡ mail.now.members }
    requires machine { M.has_failed machine ≡ false }
    ensures { Owns mail.now result.seat }
{
    let me = seat.node();
    match Actor::open(alloc, mail, seat, me, members, machine, keeper) {
        Ok(actor) => actor,
        Err(_) => panic!(rt; "node {me} was not opened"),
    }
}

/// The actor of the last of these seats.
pub fn opened<M: Machine, K: Keeper<M::Body>>(
    rt: &impl Abort,
    alloc: Global,
    mail: &Mail<M::Body>,
    seats: &mut Vec<NodeSeat<M::Body>>,
    members: Members,
    machine: M,
    keeper: K,
) -> Actor<M, K>
    requires fresh { All (IsFresh mail.now) seats.old.items }
    requires members { members ≡ mail.now.members }
    requires machine { M.has_failed machine ≡ false }
    ensures fresh { All (IsFresh mail.now) seats.new.items }
    ensures owned { Owns mail.now result.seat }
{
    let seat = last_seat(rt, mail, seats);
    opened_at(rt, alloc, mail, seat, members, machine, keeper)
}

// What a turn returns, or at a table for batches a round without events of the node's own.
fn turned<M: Machine, K: Keeper<M::Body>>(
    alloc: Global,
    mail: &Mail<M::Body>,
    actor: &mut Actor<M, K>,
) -> Answer<M::Say>
    requires { Owns mail.now actor.old.seat }
    ensures { Owns mail.now actor.new.seat }
{
    if mail.most() == 1 {
        return actor.turn(mail);
    }
    let mut says = actor.silence();
    match actor.round(mail, Vec::new(alloc), &mut says) {
        Ok(held) => {
            drop(held);
            Ok(says)
        },
        Err(ActorFault::LostHere(none)) => {
            drop(none);
            Err(ActorFault::LostHere(says))
        },
        Err(fault) => {
            drop(says);
            Err(fault)
        },
    }
}

/// Takes a turn, or at a table for batches a round. Returns whether a packet moved.
pub fn turn<M: Machine, K: Keeper<M::Body>>(
    rt: &impl Abort,
    mail: &Mail<M::Body>,
    actor: &mut Actor<M, K>,
    heard: &mut Heard<M::Say>,
) -> bool
    requires { Owns mail.now actor.old.seat }
    ensures { Owns mail.now actor.new.seat }
{
    let done = turned(heard.alloc, mail, actor);
    let moved = done.is_ok() && has_moved(actor);
    hear(rt, heard, actor.me(), done);
    moved
}

// Whether the actor's last turn or round posted a packet, or treated one.
fn has_moved<M: Machine, K: Keeper<M::Body>>(actor: &Actor<M, K>) -> bool {
    let posted = actor.posted();
    let mut moved = actor.from().is_some() || !actor.came().is_empty();
    for node in 1..=7 {
        moved = moved || posted.contains(node);
    }
    moved
}

/// All nodes turn, one after another, until no packet is left that can go.
pub fn all_turns<M: Machine, K: Keeper<M::Body>>(
    rt: &impl Abort,
    mail: &Mail<M::Body>,
    one: &mut Actor<M, K>,
    two: &mut Actor<M, K>,
    three: &mut Actor<M, K>,
    heard: &mut Heard<M::Say>,
)
    requires one { Owns mail.now one.old.seat }
    requires two { Owns mail.now two.old.seat }
    requires three { Owns mail.now three.old.seat }
    ensures one { Owns mail.now one.new.seat }
    ensures two { Owns mail.now two.new.seat }
    ensures three { Owns mail.now three.new.seat }
{
    for _ in 0..MOST_ROUNDS {
        let first = turn(rt, mail, one, heard);
        let second = turn(rt, mail, two, heard);
        let third = turn(rt, mail, three, heard);
        if !first && !second && !third {
            return;
        }
    }
    panic!(rt; "packets without end")
}

/// Puts a seat at the end of these.
pub fn put_seat<B: Body>(
    rt: &impl Abort,
    mail: &Mail<B>,
    seats: &mut Vec<NodeSeat<B>>,
    seat: NodeSeat<B>,
)
    requires seats { All (Owns mail.now) seats.old.items }
    requires seat { Owns mail.now seat }
    ensures { All (Owns mail.now) seats.new.items }
{
    let _ = mail;
    seats.push(seat).expect(rt, "room for a seat");
}

/// Drops the actor's log, and returns its seat.
pub fn seat_of<M: Machine, K: Keeper<M::Body> + Drop>(actor: Actor<M, K>) -> NodeSeat<M::Body>
    ensures { result ≡ actor.seat }
{
    let (seat, log) = actor.leave();
    drop(log);
    seat
}

/// The lengths of the logs, by node.
pub fn gathered<B: Body>(rt: &impl Abort, mail: Mail<B>, seats: Vec<NodeSeat<B>>) -> [u64; 7]
    requires { All (Owns mail) seats.items }
{
    match mail.gather(seats) {
        Ok(lengths) => lengths,
        Err(_) => panic!(rt; "no seats of all nodes"),
    }
}

// Node 2; if it is to, it has begun again, over what is left of it.
fn again<M: Machine, K: Keeper<M::Body>, L: Life<M, K>>(
    rt: &impl Abort,
    alloc: Global,
    mail: &Mail<M::Body>,
    two: Actor<M, K>,
    life: &L,
    begins: bool,
) -> Actor<M, K>
    requires { Owns mail.now two.seat }
    ensures { Owns mail.now result.seat }
{
    if !begins {
        return two;
    }
    let (post, keeper) = two.crash();
    match Actor::restart(alloc, mail, post, life.machine(), life.reopened(keeper)) {
        Ok(actor) => actor,
        Err(_) => panic!(rt; "node 2 did not begin again"),
    }
}

// What the nodes do once node 2 has begun again, if it has.
fn live_on<M: Machine, K: Keeper<M::Body>, L: Life<M, K>>(
    mail: &Mail<M::Body>,
    one: &mut Actor<M, K>,
    two: &mut Actor<M, K>,
    three: &mut Actor<M, K>,
    life: &mut L,
    heard: &mut Heard<M::Say>,
    begins: bool,
)
    requires one { Owns mail.now one.old.seat }
    requires two { Owns mail.now two.old.seat }
    requires three { Owns mail.now three.old.seat }
    ensures one { Owns mail.now one.new.seat }
    ensures two { Owns mail.now two.new.seat }
    ensures three { Owns mail.now three.new.seat }
{
    if !begins {
        return;
    }
    life.live_on(mail, one, two, three, heard);
}

// The actors of these seats live so, and leave their seats.
fn live_at<M: Machine, K: Keeper<M::Body> + Drop, L: Life<M, K>>(
    rt: &impl Abort,
    alloc: Global,
    mail: &Mail<M::Body>,
    seats: &mut Vec<NodeSeat<M::Body>>,
    members: Members,
    life: &mut L,
    heard: &mut Heard<M::Say>,
)
    requires fresh { All (IsFresh mail.now) seats.old.items }
    requires members { members ≡ mail.now.members }
    ensures { All (Owns mail.now) seats.new.items }
{
    let mut three = opened(
        rt,
        alloc,
        mail,
        seats,
        members,
        life.machine(),
        life.keeper(),
    );
    let mut two = opened(
        rt,
        alloc,
        mail,
        seats,
        members,
        life.machine(),
        life.keeper(),
    );
    let mut one = opened(
        rt,
        alloc,
        mail,
        seats,
        members,
        life.machine(),
        life.keeper(),
    );
    let begins = life.live(mail, &mut one, &mut two, &mut three, heard);
    let mut two = again(rt, alloc, mail, two, life, begins);
    live_on(mail, &mut one, &mut two, &mut three, life, heard, begins);
    put_seat(rt, mail, seats, seat_of(one));
    put_seat(rt, mail, seats, seat_of(two));
    put_seat(rt, mail, seats, seat_of(three));
}

// The actors of all seats of this table live so, and are gathered.
fn live_all<M: Machine, K: Keeper<M::Body> + Drop, L: Life<M, K>>(
    rt: &impl Abort,
    alloc: Global,
    mail: Mail<M::Body>,
    seats: Vec<NodeSeat<M::Body>>,
    members: Members,
    life: &mut L,
)
    requires fresh { All (IsFresh mail) seats.items }
    requires members { members ≡ mail.members }
{
    let mut seats = seats;
    let mut heard = Heard::nothing(alloc);
    live_at(rt, alloc, &mail, &mut seats, members, life, &mut heard);
    let lengths = gathered(rt, mail, seats);
    life.end(&heard, &lengths);
    drop(heard);
}

/// Opens three nodes at a new table, lets them live so, and gathers them.
pub fn live<M: Machine, K: Keeper<M::Body> + Drop, L: Life<M, K>>(
    rt: &impl Abort,
    alloc: Global,
    life: &mut L,
) {
    let members = Members::new(3).expect(rt, "3 members");
    let mut office = Office::new();
    let (mail, seats) = found::<M::Body>(alloc, &mut office, members).expect(rt, "a table");
    live_all(rt, alloc, mail, seats, members, life);
}

/// The same at a table for batches, where each turn is a round.
pub fn live_by_rounds<M: Machine, K: Keeper<M::Body> + Drop, L: Life<M, K>>(
    rt: &impl Abort,
    alloc: Global,
    life: &mut L,
) {
    let members = Members::new(3).expect(rt, "3 members");
    let mut office = Office::new();
    let (mail, seats) = found_for_batches::<M::Body>(alloc, &mut office, members).expect(
        rt, "a table",
    );
    live_all(rt, alloc, mail, seats, members, life);
}
