// Three actors in one process over stores in memory: the traffic of `nodes` over a mail table, with what an actor adds to it.
use crate::bodies::Numbers;
use crate::cluster::{Cluster, Counts, Load, measure};
use crate::fault::BenchFault;
use std::alloc::Global;
use store_keeper::MemKeeper;
use test_machines::{Count, Number};
use test_stands::{NODES, Plays, SeatedActor, Source, count_of, with_actors};

/// An actor that adds up, over a store in memory.
pub type Adding<'a> = SeatedActor<'a, Count, MemKeeper<Number>>;

/// Where these come from.
pub struct Fresh;

impl Source<Count, MemKeeper<Number>> for Fresh {
    fn machine(&self, alloc: Global) -> Count {
        Count::new(alloc)
    }

    fn keeper(&self, alloc: Global, _node: u8) -> MemKeeper<Number> {
        MemKeeper::new(alloc)
    }
}

// What an actor is asked for.
#[derive(Clone, Copy)]
enum Asked {
    Start,
    Tick,
    Take(Number),
    Turn,
}

fn at<'s, 'a>(actors: &'s mut [Adding<'a>], node: u8) -> Result<&'s mut Adding<'a>, BenchFault> {
    let index = usize::from(NODES.saturating_sub(node));
    actors.get_mut(index).ok_or(BenchFault::Nobody)
}

// How much was said to transports.
fn ask(actor: &mut Adding<'_>, asked: Asked) -> Result<u64, BenchFault> {
    let done = match asked {
        Asked::Start => actor.start(),
        Asked::Tick => actor.tick(),
        Asked::Take(body) => actor.take(1, body),
        Asked::Turn => actor.turn(),
    };
    match count_of(done) {
        Ok(said) => Ok(said),
        Err(_) => Err(BenchFault::Actor),
    }
}

fn ask_at(actors: &mut [Adding<'_>], node: u8, asked: Asked) -> Result<u64, BenchFault> {
    ask(at(actors, node)?, asked)
}

// How much was said in a turn, whether a packet was treated in it, and whether one was treated or posted.
fn turn_at(actors: &mut [Adding<'_>], node: u8) -> Result<(u64, bool, bool), BenchFault> {
    let actor = at(actors, node)?;
    let said = ask(actor, Asked::Turn)?;
    Ok((said, actor.has_treated(), actor.has_moved()))
}

fn has_pending_at(actors: &mut [Adding<'_>], node: u8) -> Result<bool, BenchFault> {
    Ok(at(actors, node)?.has_pending())
}

// Whether all logs have one length.
fn have_one_length(actors: &mut [Adding<'_>]) -> bool {
    are_of_one_length(actors)
}

fn are_of_one_length(actors: &[Adding<'_>]) -> bool {
    let Some(first) = actors.first() else {
        return false;
    };
    let length = first.applied();
    for actor in actors {
        if actor.applied() != length {
            return false;
        }
    }
    true
}

// The actors, the last one first, and how much their machines said to transports: one sum for each act, at its own node.
#[derive(Drop)]
struct Standing<'s, 'a> {
    actors: &'s mut [Adding<'a>],
    said: u64,
    counts: Counts,
}

impl Standing<'_, '_> {
    // One event of the node.
    fn event(&mut self, node: u8, asked: Asked) -> Result<(), BenchFault> {
        let said = ask_at(self.actors, node, asked)?;
        self.counts.event();
        self.said = self.said.saturating_add(said);
        Ok(())
    }

    // One turn of the node; whether a packet was posted or treated in it. One that was treated is counted.
    fn turn(&mut self, node: u8) -> Result<bool, BenchFault> {
        let (said, treated, moved) = turn_at(self.actors, node)?;
        if treated {
            self.counts.packet();
            self.said = self.said.saturating_add(said);
        }
        Ok(moved)
    }

    // A turn of each node; whether a packet moved.
    fn turn_each(&mut self) -> Result<bool, BenchFault> {
        let mut moved = false;
        for node in 1..=NODES {
            moved = self.turn(node)? || moved;
        }
        Ok(moved)
    }
}

impl Cluster for Standing<'_, '_> {
    type Body = Number;

    fn start(&mut self, node: u8) -> Result<(), BenchFault> {
        self.event(node, Asked::Start)
    }

    fn tick(&mut self, node: u8) -> Result<(), BenchFault> {
        self.event(node, Asked::Tick)
    }

    fn take(&mut self, node: u8, body: Number) -> Result<(), BenchFault> {
        self.event(node, Asked::Take(body))
    }

    // The nodes take turns until no packet moves.
    fn pass_all(&mut self) -> Result<(), BenchFault> {
        for _ in 0..u64::MAX {
            if !self.turn_each()? {
                return Ok(());
            }
        }
        Ok(())
    }

    fn has_pending(&mut self, node: u8) -> Result<bool, BenchFault> {
        has_pending_at(self.actors, node)
    }

    // Whether one sum was heard for each act, and all logs have one length.
    fn has_all(&mut self, acts: u64) -> bool {
        self.said == acts && have_one_length(self.actors)
    }

    fn counts(&mut self) -> &mut Counts {
        &mut self.counts
    }
}

// A run.
#[derive(Drop)]
struct Measuring<'r> {
    rt: &'r HostRuntime,
    load: Load,
}

impl Plays<Count, MemKeeper<Number>> for Measuring<'_> {
    type End = Result<(), BenchFault>;

    fn play(&mut self, actors: &mut Vec<Adding<'_>>) -> Result<(), BenchFault> {
        let mut standing = Standing {
            actors: actors.as_mut_slice(),
            said: 0,
            counts: Counts::nothing(),
        };
        measure(self.rt, &mut standing, &Numbers, self.load, "actors")
    }
}

/// Takes the acts, a window at a time, at two of three actors by turns, which pass their packets over a mail table, a turn each in rotation;
/// prints how many were applied, events and packets, and on standard error what they took. Each body is a number, each store is in memory.
pub fn run(rt: &HostRuntime, load: Load) -> Result<(), BenchFault> {
    let mut measuring = Measuring { rt, load };
    with_actors::<Count, MemKeeper<Number>, _, _>(rt.alloc(), &Fresh, &mut measuring).ok_or(
        BenchFault::Actor,
    )?
}
