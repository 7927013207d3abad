// Three actors, each on its own thread, over a mail table and stores in memory: acts are taken at the second one.
use crate::actors::{Adding, Fresh};
use crate::cluster::Load;
use crate::fault::BenchFault;
use actor_run::{Feed, Gate, Seen};
use paxos_node::Event;
use paxos_packets::Transport;
use std::sync::atomic::{AtomicBool, Ordering};
use std::thread;
use std::thread::Threads;
use std::time::Instant;
use store_keeper::MemKeeper;
use test_machines::{Count, Number};
use test_stands::{NODES, Plays, with_actors};

// After how many turns in which nothing came a node ticks, in a row or not, and after how many its thread gives way each time, so that each
// node comes to its turns if processors are short.
const QUIET: u64 = 100_000;

const STRETCH: u64 = 1024;

// How many turns a node makes at most.
const MOST_TURNS: u64 = 1 << 40;

// The node at which acts are taken. It does not lead.
const TAKER: u8 = 2;

type Sum = (Transport, u64);

// What a run is to do: whether the first node starts, how many acts there are, and how many may be under way.
#[derive(Clone, Copy)]
struct Part {
    starts: bool,
    load: Load,
}

// How many turns there were, and in how many no packet came.
#[derive(Clone, Copy)]
struct Turns {
    all: u64,
    idle: u64,
}

// Turns are made until all acts are answered.
#[derive(Drop)]
struct Until<'a> {
    open: &'a AtomicBool,
}

impl Gate for Until<'_> {
    fn pass(&self, _node: u8, turn: u64) -> bool {
        turn < MOST_TURNS && self.open.load(Ordering::Relaxed)
    }
}

// What a node is asked for: a start, acts, a limited number at a time, and ticks. It shuts the gate of all nodes once its acts are answered.
#[derive(Drop)]
struct Asks<'a> {
    open: &'a AtomicBool,
    node: u8,
    part: Part,
    taken: u64,
    answered: u64,
    quiet: u64,
    turns: Turns,
}

// What is due at a node.
#[derive(Clone, Copy)]
enum Due {
    Start,
    Act,
    Tick,
    Nothing,
}

impl Asks<'_> {
    // A start, once; then an act, if one more may be under way; then a tick, after each `QUIET` turns in which nothing came. What came between
    // them does not begin the count anew: a tick sends something to each other node, so the fastest one would keep the others from ever
    // ticking, and an act that was taken before its node knew who leads would wait for ever.
    fn due(&mut self) -> Due {
        if self.part.starts {
            self.part.starts = false;
            return Due::Start;
        }
        let under_way = self.taken.saturating_sub(self.answered);
        if self.taken < self.part.load.acts && under_way < self.part.load.width {
            self.taken += 1;
            return Due::Act;
        }
        if QUIET <= self.quiet {
            self.quiet = 0;
            return Due::Tick;
        }
        Due::Nothing
    }

    // A turn begins; whether a packet came in the last one.
    fn begins(&mut self, came: bool) {
        self.turns.all = self.turns.all.saturating_add(1);
        if came {
            return;
        }
        self.quiet = self.quiet.saturating_add(1);
        self.turns.idle = self.turns.idle.saturating_add(1);
        if self.quiet % STRETCH == 0 {
            thread::yield_now();
        }
    }
}

impl Feed<Number, Sum> for Asks<'_> {
    ghost saw = { λ feed given got. Unit {0} };

    fn next(&mut self, seen: Seen) -> Option<Event<Number>>
        ensures { Unit {0} }
    {
        match self.due() {
            Due::Start => Some(Event::Start { node: self.node }),
            Due::Act => Some(Event::Take {
                node: self.node,
                transport: 1,
                body: Number::new(1),
            }),
            Due::Tick => Some(Event::Tick { node: self.node }),
            Due::Nothing => {
                self.begins(seen.from.is_some());
                None
            }
        }
    }

    fn hand(&mut self, says: Vec<Sum>)
        ensures { Unit {0} }
    {
        self.answered = self.answered.saturating_add(says.len() as u64);
        drop(says);
        if 0 < self.part.load.acts && self.part.load.acts <= self.answered {
            self.open.store(false, Ordering::Relaxed);
        }
    }
}

// What a node is asked for of this part: the first one starts, and one takes the acts.
fn asks_of<'a>(open: &'a AtomicBool, node: u8, part: Part) -> Asks<'a> {
    Asks {
        open,
        node,
        part: Part {
            starts: part.starts && node == 1,
            load: Load {
                acts: if node == TAKER { part.load.acts } else { 0 },
                width: part.load.width,
            },
        },
        taken: 0,
        answered: 0,
        quiet: 0,
        turns: Turns { all: 0, idle: 0 },
    }
}

// The node runs until the gate is shut; it is shut then. Whether no fault ended it.
fn run_one(actor: &mut Adding<'_>, asks: &mut Asks<'_>) -> bool {
    let gate = Until { open: asks.open };
    let good = actor.run(&gate, asks);
    asks.open.store(false, Ordering::Relaxed);
    good
}

// The turns of three nodes.
fn turns_of(one: &Asks<'_>, two: &Asks<'_>, three: &Asks<'_>) -> Turns {
    Turns {
        all: one
            .turns
            .all
            .saturating_add(two.turns.all)
            .saturating_add(three.turns.all),
        idle: one
            .turns
            .idle
            .saturating_add(two.turns.idle)
            .saturating_add(three.turns.idle),
    }
}

// Runs each node on its own thread, until each act is answered. `None` if a fault ended a node, or one act was answered twice.
fn run_three(
    threads: &impl Threads,
    one: &mut Adding<'_>,
    two: &mut Adding<'_>,
    three: &mut Adding<'_>,
    part: Part,
) -> Option<Turns> {
    let open = AtomicBool::new(true);
    let mut first = asks_of(&open, 1, part);
    let mut second = asks_of(&open, TAKER, part);
    let mut third = asks_of(&open, 3, part);
    let (one_ran, (two_ran, three_ran)) = thread::join(
        threads,
        || run_one(one, &mut first),
        || {
            thread::join(
                threads,
                || run_one(two, &mut second),
                || run_one(three, &mut third),
            )
        },
    );
    if !one_ran || !two_ran || !three_ran || second.answered != part.load.acts {
        return None;
    }
    Some(turns_of(&first, &second, &third))
}

// The three actors, the first node's last.
fn run_actors(
    threads: &impl Threads,
    actors: &mut [Adding<'_>],
    part: Part,
) -> Result<Turns, BenchFault> {
    let (three, rest) = actors.split_first_mut().ok_or(BenchFault::Nobody)?;
    let (two, rest) = rest.split_first_mut().ok_or(BenchFault::Nobody)?;
    let one = rest.first_mut().ok_or(BenchFault::Nobody)?;
    run_three(threads, one, two, three, part).ok_or(BenchFault::Stuck)
}

// Prints on standard error how many acts were answered in a second, what one took, and how many turns found no packet.
fn tell(rt: &HostRuntime, turns: Turns, acts: u64, nanos: u128) {
    let _ = eprintln!(rt;
        "{} acts a second, {} ns an act, {} turns, of which {} in 100 found no packet",
        u128::from(acts).saturating_mul(1_000_000_000) / nanos.max(1),
        nanos / u128::from(acts.max(1)),
        turns.all,
        turns.idle.saturating_mul(100) / turns.all.max(1)
    );
}

// The first node leads, and one act is answered, before the time begins.
const FIRST: Part = Part {
    starts: true,
    load: Load { acts: 1, width: 1 },
};

// Makes the run, and prints what came of it.
fn run_over(
    rt: &HostRuntime,
    threads: &impl Threads,
    actors: &mut [Adding<'_>],
    load: Load,
) -> Result<(), BenchFault> {
    run_actors(threads, actors, FIRST)?;
    let start = Instant::now(rt)?;
    let turns = run_actors(
        threads,
        actors,
        Part {
            starts: false,
            load,
        },
    )?;
    let nanos = start.elapsed(rt)?.as_nanos();
    let acts = load.acts;
    println!(rt; "{acts} acts answered at one of {NODES} actors on threads")?;
    tell(rt, turns, acts, nanos);
    Ok(())
}

// A run.
#[derive(Drop)]
struct Measuring<'r, T> {
    rt: &'r HostRuntime,
    threads: T,
    load: Load,
}

impl<T: Threads> Plays<Count, MemKeeper<Number>> for Measuring<'_, &T> {
    type End = Result<(), BenchFault>;

    fn play(&mut self, actors: &mut Vec<Adding<'_>>) -> Result<(), BenchFault> {
        run_over(self.rt, self.threads, actors.as_mut_slice(), self.load)
    }
}

/// Takes these acts, of which `width` are under way at most, at the second of three actors, each of which runs on its own thread;
/// prints how many were answered, and on standard error what they took by the clock, and how many turns found no packet. Each body is a
/// number, each store is in memory.
pub fn run(rt: &HostRuntime, threads: &impl Threads, load: Load) -> Result<(), BenchFault> {
    let mut measuring = Measuring { rt, threads, load };
    with_actors::<Count, MemKeeper<Number>, _, _>(rt.alloc(), &Fresh, &mut measuring).ok_or(
        BenchFault::Actor,
    )?
}
