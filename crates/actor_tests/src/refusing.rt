// What actors refuse, what is no event, and how many acts wait.
use crate::carrying::{all_turns, at, has_log, number};
use crate::check::Check;
use crate::counting::{Asked, Counting, NONE_FAILS, Sum, ask};
use crate::crashing::restarted;
use crate::hearing::Heard;
use crate::trial::{Trial, tried};
use node_actor::{ActorFault, Machine};
use paxos_packets::{Ballot, Change, Snapshot, Votes};
use std::alloc::Global;
use std::process::Abort;
use store_keeper::{Keeper, KeeperFault, MemKeeper};
use test_checks::{check, check_eq};
use test_machines::{Count, Number, Scant};
use test_stands::{Begun, Left, Plays, SeatedActor, Source, close, close_left, with_actors};

// Acts that are pending.

const ONE: Asked = Asked::Take {
    transport: 1,
    number: 1,
};

// Returns how many of `count` acts the actor takes.
fn takes(actor: &mut Counting<'_>, count: u32) -> u32 {
    let mut done = 0u32;
    for _ in 0..count {
        if number(ask(actor, ONE)) == 0 {
            done = done.saturating_add(1);
        }
    }
    done
}

// The actor takes as many acts as can wait, and goes on.
fn fills_up(rt: &impl Abort, actor: &mut Counting<'_>) {
    let taken = takes(actor, 1_023);
    let faults = (number(ask(actor, ONE)), number(ask(actor, Asked::Tick)));
    check_eq!(rt; (taken, faults.0, faults.1), (1_023, 74, 0));
}

#[test]
fn a_full_actor_goes_on(rt: HostRuntime) {
    tried(&rt, rt.alloc(), &NONE_FAILS, Trial::Fills);
}

// Nothing has moved, and nothing is applied.
fn is_still(rt: &impl Abort, actor: &Counting<'_>) {
    check!(rt; !actor.has_moved());
    has_log(rt, actor, &[]);
}

// What is no event: a cut is none while nothing is applied.
const NO_EVENTS: &[Asked] = &[
    Asked::Turn,
    Asked::Cut,
    Asked::Take {
        transport: 0,
        number: 5,
    },
    Asked::Turn,
];

// It changes nothing.
fn passes(rt: &impl Abort, actor: &mut Counting<'_>) {
    is_still(rt, actor);
    for asked in NO_EVENTS {
        check_eq!(rt; number(ask(actor, *asked)), 0);
        is_still(rt, actor);
    }
}

/// What the actor of node 1 does before anything has come: it fills up, or what is no event passes it.
pub fn first_does(rt: &impl Abort, actors: &mut [Counting<'_>], fills: bool) {
    let actor = at(rt, actors, 1);
    if fills {
        fills_up(rt, actor);
    } else {
        passes(rt, actor);
    }
}

#[test]
fn no_event_changes_nothing(rt: HostRuntime) {
    tried(&rt, rt.alloc(), &NONE_FAILS, Trial::Rests);
}

#[test]
fn an_actor_begins_again(rt: HostRuntime) {
    tried(&rt, rt.alloc(), &NONE_FAILS, Trial::Restarts);
}

/// The actor, which has gone down, has begun again.
pub fn begins_again(rt: &impl Abort, alloc: Global, actor: Counting<'_>) {
    let mut actor = restarted(alloc, actor).expect(rt, "an actor");
    is_still(rt, &actor);
    let number = number(actor.tick());
    close(actor);
    check_eq!(rt; number, 0);
}

// Restarts on other stores.

// How often the node of another store was started, the round and the node of the ballot that it promised then, and the floor of its
// snapshot; 0 for none.
type Other = (u64, (u64, u8), u8);

// That store.
fn keeper_with(rt: &impl Abort, alloc: Global, other: &Other) -> MemKeeper<Number> {
    let (boots, (round, _), _) = *other;
    let mut keeper = MemKeeper::new(alloc);
    for _ in 0..boots {
        boot(rt, &mut keeper);
    }
    if 0 < round {
        promise(rt, alloc, &mut keeper, other);
    }
    keeper
}

fn boot(rt: &impl Abort, keeper: &mut MemKeeper<Number>) {
    let rows = keeper.boot().expect(rt, "a boot");
    drop(rows);
}

// The promise, and the snapshot, if there is one.
fn change(rt: &impl Abort, alloc: Global, other: &Other) -> Change<Number> {
    let (_, (round, node), floor) = *other;
    let octets = [0, 0, 0, 0, 0, 0, 0, floor];
    let octets = Vec::from_slice(alloc, &octets).expect(rt, "room for octets");
    Change {
        promised: Some(Ballot { round, node }),
        snapshot: Snapshot::of(octets).expect(rt, "room for a snapshot"),
        votes: Votes::new(alloc),
    }
}

fn promise(rt: &impl Abort, alloc: Global, keeper: &mut MemKeeper<Number>, other: &Other) {
    let change = change(rt, alloc, other);
    keeper.commit(&change).expect(rt, "a commit");
    drop(change);
}

// How often its node was started.
fn boots_of(rt: &impl Abort, keeper: &mut MemKeeper<Number>) -> u64 {
    let rows = keeper.load().expect(rt, "what is stored");
    rows.boot
}

// What is left after a restart on a store of another node, and whether that returned 62 and began no boot.
fn refused<'a>(
    rt: &impl Abort,
    alloc: Global,
    left: Left<'a, Count>,
    keeper: MemKeeper<Number>,
    boots: u64,
) -> (Left<'a, Count>, bool) {
    match left.restart(alloc, Count::new(alloc), keeper) {
        Begun::Again(_actor) => panic!(rt; "an actor"),
        Begun::Not(number, left, mut keeper) => {
            let found = boots_of(rt, &mut keeper);
            drop(keeper);
            (left, number == 62 && found == boots)
        },
    }
}

const OTHERS: &[Other] = &[
    (0, (0, 3), 0),
    (1, (0, 3), 0),
    (1, (2, 3), 0),
    (2, (2, 3), 0),
    (0, (1, 3), 0),
    // the node's own promise, and a snapshot
    (1, (1, 1), 5),
    (2, (1, 1), 5),
];

// Whether all of them are refused.
fn refuses_all(rt: &impl Abort, alloc: Global, left: Left<'_, Count>) -> bool {
    let mut left = left;
    let mut all = true;
    for other in OTHERS {
        let keeper = keeper_with(rt, alloc, other);
        let (next, is_one) = refused(rt, alloc, left, keeper, other.0);
        left = next;
        all = all && is_one;
    }
    let is_first = left.me() == 1;
    close_left(left);
    all && is_first
}

fn ended<'a>(actor: Counting<'a>) -> Left<'a, Count> {
    let mut actor = actor;
    let _ = number(actor.start());
    let (left, keeper) = actor.crash();
    drop(keeper);
    left
}

/// An actor that has promised its own round 1 goes down, and is not restarted on other stores.
pub fn refuses(rt: &impl Abort, alloc: Global, actor: Counting<'_>) {
    let all = refuses_all(rt, alloc, ended(actor));
    check!(rt; all);
}

#[test]
fn other_stores_are_refused(rt: HostRuntime) {
    tried(&rt, rt.alloc(), &NONE_FAILS, Trial::Refuses);
}

// A machine for which memory runs out as it is saved.

// Three of them, over stores in memory.
#[derive(Clone, Copy)]
struct Scants;

impl Source<Scant, MemKeeper<Number>> for Scants {
    fn machine(&self, alloc: Global) -> Scant {
        Scant::new(alloc)
    }

    fn keeper(&self, alloc: Global, _node: u8) -> MemKeeper<Number> {
        MemKeeper::new(alloc)
    }
}

// After two inputs the machine of node 1 is not saved, which ends the actor. Nothing is forgotten.
fn is_not_saved<M: Machine<Body = Number>, K: Keeper<Number>>(
    rt: &impl Abort,
    actors: &mut [SeatedActor<'_, M, K>],
    heard: &mut Heard<M::Say>,
) {
    check_eq!(rt; number(at(rt, actors, 1).start()), 0);
    all_turns(rt, actors, heard);
    check_eq!(rt; number(at(rt, actors, 1).take(1, Number::new(5))), 0);
    all_turns(rt, actors, heard);
    for fault in [76, 71] {
        let first = at(rt, actors, 1);
        check_eq!(rt; number(first.cut()), fault);
        check_eq!(rt; (first.floor(), first.applied(), first.log().len()), (0, 2, 2));
    }
}

#[derive(Drop)]
struct Saving<R> {
    rt: R,
    alloc: Global,
}

impl<R: Abort> Plays<Scant, MemKeeper<Number>> for Saving<&R> {
    type End = ();

    fn play(&mut self, actors: &mut Vec<SeatedActor<'_, Scant, MemKeeper<Number>>>) {
        let mut heard = Heard::nothing(self.alloc);
        is_not_saved(self.rt, actors.as_mut_slice(), &mut heard);
        drop(heard);
    }
}

#[test]
fn memory_may_run_out_at_a_cut(rt: HostRuntime) {
    let mut saving = Saving {
        rt: &rt,
        alloc: rt.alloc(),
    };
    with_actors::<Scant, MemKeeper<Number>, _, _>(rt.alloc(), &Scants, &mut saving).expect(
        &rt,
        "three actors",
    );
}

// The texts of faults.

fn fault_of(alloc: Global, number: u8) -> ActorFault<Sum> {
    match number {
        51 => ActorFault::Rounds,
        62 => ActorFault::Keeper(KeeperFault::Damaged),
        71 => ActorFault::Failed,
        72 => ActorFault::Disagree,
        73 => ActorFault::LostHere(Vec::new(alloc)),
        74 => ActorFault::Full,
        75 => ActorFault::Worn,
        _ => ActorFault::Memory,
    }
}

const TEXTS: &[(u8, &str)] = &[
    (51, "no round is left for a new ballot"),
    (62, "what is stored is damaged"),
    (71, "the actor has failed before"),
    (72, "another entry was learned in the slot"),
    (73, "the node is lost in its present boot"),
    (74, "no room for one more pending entry"),
    (75, "the node has taken all events that its word counts"),
    (76, "no memory for the actor"),
];

// Whether the fault's text is this.
fn has_text(rt: &impl Abort, alloc: Global, fault: &ActorFault<Sum>, text: &str) -> bool {
    let told = format!(in alloc; "{fault}").expect(rt, "room for a text");
    told.as_str() == text
}

fn is_told(rt: &impl Abort, alloc: Global, fault: &ActorFault<Sum>, number: u8, text: &str) {
    let same = has_text(rt, alloc, fault, text);
    check_eq!(rt; (fault.number(), same), (number, true));
}

#[test]
fn faults_have_numbers_and_texts(rt: HostRuntime) {
    for (number, text) in TEXTS {
        let fault = fault_of(rt.alloc(), *number);
        is_told(&rt, rt.alloc(), &fault, *number, text);
        drop(fault);
    }
}
