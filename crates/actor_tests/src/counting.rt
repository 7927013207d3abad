// Three actors with a machine that adds up.
use crate::carrying::{all_turns, at, have_log, hear, number};
use crate::check::Check;
use crate::hearing::{Heard, Told};
use crate::trial::{Trial, tried, tried_by_rounds};
use paxos_packets::Transport;
use std::alloc::Global;
use std::process::Abort;
use store_keeper::MemKeeper;
use test_checks::{check, check_eq};
use test_machines::{Count, Number};
use test_stands::{Answer, SeatedActor, Source, close_log};

/// An actor that adds up, over a keeper in memory.
pub type Counting<'a> = SeatedActor<'a, Count, MemKeeper<Number>>;

/// What these say.
pub type Sum = (Transport, u64);

/// The node whose kth commit fails, and whether that leaves the new rows.
#[derive(Clone, Copy)]
pub struct Failing {
    pub node: u8,
    pub k: u64,
    pub after: bool,
}

/// No commit fails.
pub const NONE_FAILS: Failing = Failing {
    node: 0,
    k: 0,
    after: false,
};

impl Source<Count, MemKeeper<Number>> for Failing {
    fn machine(&self, alloc: Global) -> Count {
        Count::new(alloc)
    }

    fn keeper(&self, alloc: Global, node: u8) -> MemKeeper<Number> {
        let k = if node == self.node { self.k } else { 0 };
        MemKeeper::failing(alloc, k, self.after)
    }
}

/// What an actor is asked for.
#[derive(Clone, Copy)]
pub enum Asked {
    /// It begins a ballot.
    Start,
    /// Lets time pass.
    Tick,
    /// Takes a turn.
    Turn,
    /// It cuts its log.
    Cut,
    /// It takes this number of this transport.
    Take { transport: u32, number: u32 },
}

/// What the actor returns.
pub fn ask(actor: &mut Counting<'_>, asked: Asked) -> Answer<Sum> {
    match asked {
        Asked::Start => actor.start(),
        Asked::Tick => actor.tick(),
        Asked::Turn => actor.turn(),
        Asked::Cut => actor.cut(),
        Asked::Take { transport, number } => actor.take(transport, Number::new(number)),
    }
}

/// Returns the number of the fault of what the node is asked for, 0 if it has none.
pub fn fault_at(rt: &impl Abort, actors: &mut [Counting<'_>], node: u8, asked: Asked) -> u8 {
    let actor = at(rt, actors, node);
    number(ask(actor, asked))
}

fn hear_at(
    rt: &impl Abort,
    actors: &mut [Counting<'_>],
    heard: &mut Heard<Sum>,
    node: u8,
    asked: Asked,
) {
    let actor = at(rt, actors, node);
    hear(rt, heard, node, ask(actor, asked));
}

/// What nodes are asked for, one after the other; with node 0 all turn in rotation, whatever is asked.
pub type Script = &'static [(u8, Asked)];

/// All nodes turn until no packet is left.
pub const ALL: (u8, Asked) = (0, Asked::Turn);

fn step(
    rt: &impl Abort,
    actors: &mut [Counting<'_>],
    heard: &mut Heard<Sum>,
    node: u8,
    asked: Asked,
) {
    if node == 0 {
        all_turns(rt, actors, heard);
    } else {
        hear_at(rt, actors, heard, node, asked);
    }
}

/// They are asked for it.
pub fn goes(rt: &impl Abort, actors: &mut [Counting<'_>], heard: &mut Heard<Sum>, script: Script) {
    for (node, asked) in script {
        step(rt, actors, heard, *node, *asked);
    }
}

// Node 1 leads, and node 2 takes 5 and 6 of its transport 1.
const SESSION: Script = &[
    (1, Asked::Start),
    ALL,
    (
        2,
        Asked::Take {
            transport: 1,
            number: 5,
        },
    ),
    (
        2,
        Asked::Take {
            transport: 1,
            number: 6,
        },
    ),
    ALL,
];

const FOUR: &[Told] = &[
    ('b', 1, 1, 0),
    ('b', 2, 1, 0),
    ('i', 2, 1, 1),
    ('i', 2, 1, 2),
];

const AT_TWO: Transport = Transport {
    node: 2,
    boot: 1,
    number: 1,
};

const SUMS: &[Sum] = &[(AT_TWO, 5), (AT_TWO, 11)];

/// The session, after which all three have the same log.
pub fn serves(rt: &impl Abort, actors: &mut [Counting<'_>], heard: &mut Heard<Sum>) {
    goes(rt, actors, heard, SESSION);
    have_log(rt, actors, FOUR);
    check!(rt; heard.says.as_slice() == SUMS && heard.faults.is_empty());
}

// How long the log is that an actor leaves, and what its machine has added up.
fn left_of(actor: Counting<'_>) -> (usize, u64) {
    let log = actor.leave();
    let left = (log.applied().len(), log.machine().sum());
    close_log(log);
    left
}

fn leave_all(rt: &impl Abort, actors: &mut Vec<Counting<'_>>) {
    for _ in 0..3u8 {
        let actor = actors.pop().expect(rt, "a node");
        check_eq!(rt; left_of(actor), (4, 11));
    }
}

/// The session goes through all three, which leave.
pub fn serve_and_leave(rt: &impl Abort, alloc: Global, actors: &mut Vec<Counting<'_>>) {
    let mut heard = Heard::nothing(alloc);
    serves(rt, actors.as_mut_slice(), &mut heard);
    drop(heard);
    leave_all(rt, actors);
}

#[test]
fn one_session_goes_through_three_nodes(rt: HostRuntime) {
    tried(&rt, rt.alloc(), &NONE_FAILS, Trial::Serves);
}

#[test]
fn one_session_goes_through_three_nodes_by_rounds(rt: HostRuntime) {
    tried_by_rounds(&rt, rt.alloc(), &NONE_FAILS, Trial::Serves);
}

/// Whether a call of the node fails since its store failed, as is wanted.
pub fn fails(rt: &impl Abort, alloc: Global, actors: &mut [Counting<'_>], node: u8, wanted: bool) {
    let mut heard = Heard::nothing(alloc);
    goes(rt, actors, &mut heard, SESSION);
    let failed = heard.faults.first() == Some(&(node, 61));
    drop(heard);
    check!(rt; failed == wanted);
}

fn fails_at(rt: &impl Abort, alloc: Global, node: u8, k: u64, wanted: bool) {
    let failing = Failing {
        node,
        k,
        after: false,
    };
    tried(rt, alloc, &failing, Trial::Fails { node, wanted });
}

// How many commits each node makes in the session.
const COMMITS: &[(u8, u64)] = &[(1, 4), (2, 5), (3, 5)];

#[test]
fn the_last_commit_is_known(rt: HostRuntime) {
    for (node, count) in COMMITS {
        fails_at(&rt, rt.alloc(), *node, *count, true);
        fails_at(&rt, rt.alloc(), *node, count + 1, false);
    }
}
