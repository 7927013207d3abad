// Actors that cut their logs, and a node that takes a snapshot in place of the entries that it lacks. A feed gives the cuts.
ghost use Rattle.std.specs.Prelude.{◌≡◌, ◌≤◌, All, false};
ghost use Rattle.mail_table.specs.Seats.{Owns};
ghost use Rattle.actor_tests.specs.Fresh.{IsFresh};
ghost use Rattle.paxos_packets.specs.Members.{IsMember};

use crate::actors::{all_turns, gathered, last_seat, opened, opened_at, put_seat, seat_of, turn};
use crate::carrying::at;
use crate::check::Check;
use crate::counting::{Asked, Counting, Failing, NONE_FAILS, Sum, fault_at, serves};
use crate::hearing::{Heard, Told, hear, is_log};
use crate::trial::{Trial, tried};
use actor_run::{Feed, Gate, Seen, run_node};
use mail_table::{Mail, NodeSeat, Office, found};
use node_actor::{Actor, Body, Event, Keeper, Machine, Members};
use paxos_packets::Transport;
use std::alloc::Global;
use std::panic::Expect;
use std::process::Abort;
use store_keeper::MemKeeper;
use test_checks::{check, check_eq};
use test_machines::{Count, Number};
use test_stands::Source;

// Cuts that a feed gives.

/// Lets one turn pass.
#[derive(Clone, Copy)]
pub struct Once;

impl Gate for Once {
    fn pass(&self, _node: u8, turn: u64) -> bool {
        turn < 1
    }
}

/// Gives a cut of another node, then one of its own, both without a snapshot. Keeps what it is shown each time.
#[derive(Clone, Copy)]
pub struct Cuts {
    node: u8,
    asked: usize,
    shown: [(u64, u64); 3],
}

impl Cuts {
    /// Creates the feed of this node.
    pub fn of(node: u8) -> Cuts {
        Cuts {
            node,
            asked: 0,
            shown: [(0, 0); 3],
        }
    }

    /// The floor and the length of the log that it was shown, the first three times.
    pub fn shown(&self) -> [(u64, u64); 3] {
        self.shown
    }
}

// Another node than this one.
fn other_than(node: u8) -> u8 {
    if node == 1 { 2 } else { 1 }
}

// A cut of this node.
fn cut_of<B>(node: u8) -> Option<Event<B>> {
    Some(Event::Cut {
        node,
        snapshot: None,
    })
}

impl<B, Y: Drop> Feed<B, Y> for Cuts {
    ghost saw = { λ feed given got. Unit {0} };

    fn next(&mut self, seen: Seen) -> Option<Event<B>>
        ensures { Unit {0} }
    {
        let asked = self.asked;
        if let Some(shown) = self.shown.get_mut(asked) {
            *shown = (seen.floor, seen.applied);
        }
        self.asked = asked.saturating_add(1);
        match asked {
            0 => cut_of(other_than(self.node)),
            1 => cut_of(self.node),
            _ => None,
        }
    }

    fn hand(&mut self, says: Vec<Y>)
        ensures { Unit {0} }
    {
        drop(says);
    }
}

// The feed of the node gives a cut. Its log is forgotten then, and stands as before; the cut of another node is passed over.
fn cuts_by_feed<M: Machine, K: Keeper<M::Body>>(
    rt: &impl Abort,
    mail: &Mail<M::Body>,
    actor: &mut Actor<M, K>,
)
    requires owned { Owns mail.now actor.old.seat }
    requires single { mail.now.most ≡ 1 }
    ensures { Owns mail.now actor.new.seat }
{
    let mut feed = Cuts::of(actor.me());
    let done = run_node(mail, actor, &Once, &mut feed);
    let good = done.is_ok();
    drop(done);
    check!(rt; good);
    check_eq!(rt; feed.shown(), [(0, 2), (0, 2), (2, 2)]);
    has_floor(rt, actor, &[], (2, 2));
}

// Asserts what the log of a node is above its floor, and the floor and the length.
fn has_floor<M: Machine, K: Keeper<M::Body>>(
    rt: &impl Abort,
    actor: &Actor<M, K>,
    wants: &[Told],
    ends: (u64, u64),
) {
    is_log(rt, actor.log(), wants);
    check_eq!(rt; (actor.floor(), actor.applied()), ends);
}

// A session in which nodes 1 and 2 cut while node 3 is away.

// How often each node turns at most.
const MOST_ROUNDS: u32 = 1_000;

// What comes to node 3 is lost.
fn loses<B: Body>(mail: &Mail<B>, seat: &mut NodeSeat<B>, from: u8)
    requires seat { IsFresh mail.now seat.old }
    requires single { mail.now.most ≡ 1 }
    requires from { IsMember mail.now.members from }
    ensures { IsFresh mail.now seat.new }
{
    drop(mail.fetch(seat, from));
}

// Nodes 1 and 2 turn, one after the other, until no packet is left that can go.
fn two_turn<M: Machine, K: Keeper<M::Body>>(
    rt: &impl Abort,
    mail: &Mail<M::Body>,
    one: &mut Actor<M, K>,
    two: &mut Actor<M, K>,
    away: &mut NodeSeat<M::Body>,
    heard: &mut Heard<M::Say>,
)
    requires one { Owns mail.now one.old.seat }
    requires single { mail.now.most ≡ 1 }
    requires two { Owns mail.now two.old.seat }
    requires away { IsFresh mail.now away.old }
    requires members { 3 ≤ mail.now.members }
    ensures one { Owns mail.now one.new.seat }
    ensures two { Owns mail.now two.new.seat }
    ensures away { IsFresh mail.now away.new }
{
    for _ in 0..MOST_ROUNDS {
        let first = turn(rt, mail, one, heard);
        let second = turn(rt, mail, two, heard);
        loses(mail, away, 1);
        loses(mail, away, 2);
        if !first && !second {
            return;
        }
    }
    panic!(rt; "packets without end")
}

// What a node does.
#[derive(Clone, Copy)]
enum Does {
    Starts,
    Ticks,
    SuspectsThree,
}

fn node_does<M: Machine, K: Keeper<M::Body>>(
    rt: &impl Abort,
    mail: &Mail<M::Body>,
    actor: &mut Actor<M, K>,
    heard: &mut Heard<M::Say>,
    does: Does,
)
    requires { Owns mail.now actor.old.seat }
    ensures { Owns mail.now actor.new.seat }
{
    let node = actor.me();
    let done = match does {
        Does::Starts => actor.start(mail),
        Does::Ticks => actor.tick(mail),
        Does::SuspectsThree => actor.suspect(mail, 3),
    };
    hear(rt, heard, node, done);
}

fn takes<M: Machine, K: Keeper<M::Body>>(
    rt: &impl Abort,
    mail: &Mail<M::Body>,
    actor: &mut Actor<M, K>,
    heard: &mut Heard<M::Say>,
    act: M::Body,
)
    requires { Owns mail.now actor.old.seat }
    ensures { Owns mail.now actor.new.seat }
{
    let node = actor.me();
    let done = actor.take(mail, 1, act);
    hear(rt, heard, node, done);
}

const TWO: &[Told] = &[('b', 1, 1, 0), ('i', 1, 1, 1)];

// Node 1 leads and takes an act; then both cut.
fn two_cut<M: Machine, K: Keeper<M::Body>>(
    rt: &impl Abort,
    mail: &Mail<M::Body>,
    one: &mut Actor<M, K>,
    two: &mut Actor<M, K>,
    away: &mut NodeSeat<M::Body>,
    heard: &mut Heard<M::Say>,
    act: M::Body,
)
    requires one { Owns mail.now one.old.seat }
    requires single { mail.now.most ≡ 1 }
    requires two { Owns mail.now two.old.seat }
    requires away { IsFresh mail.now away.old }
    requires members { 3 ≤ mail.now.members }
    ensures one { Owns mail.now one.new.seat }
    ensures two { Owns mail.now two.new.seat }
    ensures away { IsFresh mail.now away.new }
{
    node_does(rt, mail, one, heard, Does::Starts);
    two_turn(rt, mail, one, two, away, heard);
    takes(rt, mail, one, heard, act);
    two_turn(rt, mail, one, two, away, heard);
    is_log(rt, one.log(), TWO);
    is_log(rt, two.log(), TWO);
    cuts_by_feed(rt, mail, one);
    cuts_by_feed(rt, mail, two);
}

// Node 3, which is up now, asks node 1, and takes the snapshot that it is shown.
fn takes_it<M: Machine, K: Keeper<M::Body>>(
    rt: &impl Abort,
    mail: &Mail<M::Body>,
    one: &mut Actor<M, K>,
    three: &mut Actor<M, K>,
    heard: &mut Heard<M::Say>,
)
    requires one { Owns mail.now one.old.seat }
    requires single { mail.now.most ≡ 1 }
    requires three { Owns mail.now three.old.seat }
    ensures one { Owns mail.now one.new.seat }
    ensures three { Owns mail.now three.new.seat }
{
    node_does(rt, mail, three, heard, Does::Ticks);
    turn(rt, mail, three, heard);
    turn(rt, mail, one, heard);
    turn(rt, mail, one, heard);
    turn(rt, mail, three, heard);
    check_eq!(rt; three.from(), Some(1));
    check_eq!(rt; three.heard(), Some(node_actor::Heard::Snapshot(2)));
    has_floor(rt, three, &[], (2, 2));
}

const BOOTS: &[Told] = &[('b', 2, 1, 0), ('b', 3, 2, 0)];

const THREE: &[Told] = &[('b', 2, 1, 0), ('b', 3, 2, 0), ('i', 3, 2, 1)];

const FOUR: &[Told] = &[
    ('b', 2, 1, 0),
    ('b', 3, 2, 0),
    ('i', 3, 2, 1),
    ('l', 3, 2, 0),
];

fn have_ends<M: Machine, K: Keeper<M::Body>>(
    rt: &impl Abort,
    one: &Actor<M, K>,
    two: &Actor<M, K>,
    three: &Actor<M, K>,
    wants: &[Told],
    ends: (u64, u64),
) {
    has_floor(rt, one, wants, ends);
    has_floor(rt, two, wants, ends);
    has_floor(rt, three, wants, ends);
}

// Node 2 leads, and node 3 reports its boot, and takes an act.
fn goes_on<M: Machine, K: Keeper<M::Body>>(
    rt: &impl Abort,
    mail: &Mail<M::Body>,
    one: &mut Actor<M, K>,
    two: &mut Actor<M, K>,
    three: &mut Actor<M, K>,
    heard: &mut Heard<M::Say>,
    act: M::Body,
)
    requires one { Owns mail.now one.old.seat }
    requires single { mail.now.most ≡ 1 }
    requires two { Owns mail.now two.old.seat }
    requires three { Owns mail.now three.old.seat }
    ensures one { Owns mail.now one.new.seat }
    ensures two { Owns mail.now two.new.seat }
    ensures three { Owns mail.now three.new.seat }
{
    all_turns(rt, mail, one, two, three, heard);
    node_does(rt, mail, two, heard, Does::Starts);
    all_turns(rt, mail, one, two, three, heard);
    node_does(rt, mail, three, heard, Does::Ticks);
    all_turns(rt, mail, one, two, three, heard);
    have_ends(rt, one, two, three, BOOTS, (2, 4));
    takes(rt, mail, three, heard, act);
    all_turns(rt, mail, one, two, three, heard);
    have_ends(rt, one, two, three, THREE, (2, 5));
    check!(rt; heard.faults.is_empty());
}

// Node 2 takes node 3 to be lost, which goes down, and shows its floor still.
fn is_lost<M: Machine, K: Keeper<M::Body>>(
    rt: &impl Abort,
    mail: &Mail<M::Body>,
    one: &mut Actor<M, K>,
    two: &mut Actor<M, K>,
    three: &mut Actor<M, K>,
    heard: &mut Heard<M::Say>,
)
    requires one { Owns mail.now one.old.seat }
    requires single { mail.now.most ≡ 1 }
    requires two { Owns mail.now two.old.seat }
    requires three { Owns mail.now three.old.seat }
    ensures one { Owns mail.now one.new.seat }
    ensures two { Owns mail.now two.new.seat }
    ensures three { Owns mail.now three.new.seat }
{
    node_does(rt, mail, two, heard, Does::SuspectsThree);
    all_turns(rt, mail, one, two, three, heard);
    check!(rt; heard.faults.first() == Some(&(3, 73)));
    has_floor(rt, one, FOUR, (2, 6));
    has_floor(rt, two, FOUR, (2, 6));
    has_floor(rt, three, &[], (2, 0));
}

// The session, after which node 3 may be lost.
fn session<M: Machine, K: Keeper<M::Body>>(
    rt: &impl Abort,
    mail: &Mail<M::Body>,
    one: &mut Actor<M, K>,
    two: &mut Actor<M, K>,
    three: &mut Actor<M, K>,
    heard: &mut Heard<M::Say>,
    act: M::Body,
    loses: bool,
)
    requires one { Owns mail.now one.old.seat }
    requires single { mail.now.most ≡ 1 }
    requires two { Owns mail.now two.old.seat }
    requires three { Owns mail.now three.old.seat }
    ensures one { Owns mail.now one.new.seat }
    ensures two { Owns mail.now two.new.seat }
    ensures three { Owns mail.now three.new.seat }
{
    takes_it(rt, mail, one, three, heard);
    goes_on(rt, mail, one, two, three, heard, act);
    if loses {
        is_lost(rt, mail, one, two, three, heard);
    }
}

// The store of a node that was started once.
fn started<B: Body, K: Keeper<B>>(rt: &impl Abort, keeper: K) -> K {
    let mut keeper = keeper;
    let rows = keeper.boot().expect(rt, "a boot");
    drop(rows);
    keeper
}

// The actors of these seats, of which the last one begins later, over a store that was started once, go through the session, and leave.
fn cut_at<M: Machine, K: Keeper<M::Body> + Drop, S: Source<M, K>>(
    rt: &impl Abort,
    alloc: Global,
    mail: &Mail<M::Body>,
    seats: &mut Vec<NodeSeat<M::Body>>,
    members: Members,
    source: &S,
    heard: &mut Heard<M::Say>,
    acts: (M::Body, M::Body),
    loses: bool,
)
    requires fresh { All (IsFresh mail.now) seats.old.items }
    requires single { mail.now.most ≡ 1 }
    requires members { (members ≡ mail.now.members) × (3 ≤ mail.now.members) }
    ensures { All (Owns mail.now) seats.new.items }
{
    let (first, second) = acts;
    let mut away = last_seat(rt, mail, seats);
    let (machine, keeper) = (source.machine(alloc), source.keeper(alloc, 2));
    let mut two = opened(rt, alloc, mail, seats, members, machine, keeper);
    let (machine, keeper) = (source.machine(alloc), source.keeper(alloc, 1));
    let mut one = opened(rt, alloc, mail, seats, members, machine, keeper);
    two_cut(rt, mail, &mut one, &mut two, &mut away, heard, first);
    let (machine, keeper) = (source.machine(alloc), started(rt, source.keeper(alloc, 3)));
    let mut three = opened_at(rt, alloc, mail, away, members, machine, keeper);
    session(
        rt, mail, &mut one, &mut two, &mut three, heard, second, loses,
    );
    put_seat(rt, mail, seats, seat_of(one));
    put_seat(rt, mail, seats, seat_of(two));
    put_seat(rt, mail, seats, seat_of(three));
}

// Returns the lengths of the logs that are gathered after the session.
fn lengths<M: Machine, K: Keeper<M::Body> + Drop, S: Source<M, K>>(
    rt: &impl Abort,
    alloc: Global,
    source: &S,
    heard: &mut Heard<M::Say>,
    acts: (M::Body, M::Body),
    loses: bool,
) -> [u64; 7] {
    let members = Members::new(3).expect(rt, "3 members");
    let mut office = Office::new();
    let (mail, mut seats) = found::<M::Body>(alloc, &mut office, members).expect(rt, "a table");
    cut_at(
        rt, alloc, &mail, &mut seats, members, source, heard, acts, loses,
    );
    gathered(rt, mail, seats)
}

const AT_ONE: Transport = Transport {
    node: 1,
    boot: 1,
    number: 1,
};

const AT_THREE: Transport = Transport {
    node: 3,
    boot: 2,
    number: 1,
};

// What is said: node 3 adds to the sum that its snapshot has.
const SAID: &[Sum] = &[(AT_ONE, 5), (AT_THREE, 11)];

// Whether node 3 is lost, and the lengths of the logs that are gathered, with what was forgotten.
const ENDS: &[(bool, [u64; 7])] = &[
    (false, [5, 5, 5, 0, 0, 0, 0]),
    (true, [6, 6, 0, 0, 0, 0, 0]),
];

fn ends_so(rt: &impl Abort, alloc: Global, loses: bool, wants: &[u64; 7]) {
    let mut heard = Heard::nothing(alloc);
    let acts = (Number::new(5), Number::new(6));
    let found = lengths::<Count, MemKeeper<Number>, Failing>(
        rt,
        alloc,
        &NONE_FAILS,
        &mut heard,
        acts,
        loses,
    );
    check_eq!(rt; found, *wants);
    check!(rt; heard.says.as_slice() == SAID);
    drop(heard);
}

#[test]
fn a_node_that_was_away_takes_a_snapshot(rt: HostRuntime) {
    for (loses, wants) in ENDS {
        ends_so(&rt, rt.alloc(), *loses, wants);
    }
}

// A cut after a cut.

// The second actor cuts twice after the session; its store fails at its seventh commit, and the session has five.
fn cuts_again(rt: &impl Abort, actors: &mut [Counting<'_>], heard: &mut Heard<Sum>) {
    serves(rt, actors, heard);
    for _ in 0..2u8 {
        check_eq!(rt; fault_at(rt, actors, 2, Asked::Cut), 0);
        let second = at(rt, actors, 2);
        check_eq!(rt; (second.floor(), second.applied(), second.log().len()), (4, 4, 0));
    }
}

/// A cut with nothing to forget commits nothing.
pub fn cuts_twice(rt: &impl Abort, alloc: Global, actors: &mut [Counting<'_>]) {
    let mut heard = Heard::nothing(alloc);
    cuts_again(rt, actors, &mut heard);
    drop(heard);
}

#[test]
fn the_second_cut_commits_nothing(rt: HostRuntime) {
    let failing = Failing {
        node: 2,
        k: 7,
        after: false,
    };
    tried(&rt, rt.alloc(), &failing, Trial::CutsTwice);
}
