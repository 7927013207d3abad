// Three nodes, each run on its own thread, by turns or by rounds.
ghost use Rattle.std.specs.Prelude.{◌≡◌, []};
ghost use Rattle.mail_table.specs.Seats.{Owns};

use crate::actors::{Life, live, live_by_rounds};
use crate::check::Check;
use crate::counting::Sum;
use crate::hearing::Heard;
use crate::round_telling::{RoundAsks, run_rounds_telling};
use crate::telling::{Adding, Asks, Telling, is_replay, run_telling};
use actor_run::{Gate, RoundSeen, Seen};
use mail_table::Mail;
use node_actor::Event;
use std::alloc::Global;
use std::process::Abort;
use std::sync::atomic::{AtomicU64, Ordering};
use std::thread;
use std::thread::{Threads, join_mut};
use store_keeper::MemKeeper;
use test_checks::{check, check_eq};
use test_machines::{Count, Number};

// How many acts each node takes, how many of them may wait for their answers, after how many turns in which nothing came it ticks, in a row or
// not, and after how many it lets other threads go first. No number of turns ends a run: if the host takes a processor away, one thread makes
// millions of them while another is at rest.
const ACTS: u32 = 1_000;

const WINDOW: u32 = 16;

const QUIET: u32 = 20_000;

const YIELDS: u64 = 256;

// Passes until three feeds were handed all their answers.
#[derive(Drop)]
struct Until<'a> {
    served: &'a AtomicU64,
}

impl<'a> Gate for Until<'a> {
    fn pass(&self, _node: u8, turn: u64) -> bool {
        if turn % YIELDS == 0 {
            thread::yield_now();
        }
        self.served.load(Ordering::SeqCst) < 3
    }
}

// Gives a start to node 1, the acts of a node, each of another transport, from 1 on, and ticks; counts the answers that come in order.
#[derive(Drop)]
struct Acts<'a> {
    node: u8,
    starts: bool,
    given: u32,
    quiet: u32,
    answered: u32,
    sum: u64,
    strange: bool,
    served: &'a AtomicU64,
}

impl<'a> Acts<'a> {
    fn of(node: u8, served: &'a AtomicU64) -> Acts<'a> {
        Acts {
            node,
            starts: node == 1,
            given: 0,
            quiet: 0,
            answered: 0,
            sum: 0,
            strange: false,
            served,
        }
    }

    // One answer: to the next transport, and of a greater sum.
    fn count(&mut self, said: Sum) {
        let (to, sum) = said;
        let next = self.answered.saturating_add(1);
        if to.node != self.node || to.boot != 1 || to.number != next || sum <= self.sum {
            self.strange = true;
            return;
        }
        self.answered = next;
        self.sum = sum;
        if next == ACTS {
            self.served.fetch_add(1, Ordering::SeqCst);
        }
    }

    // An act, if one more may wait for its answer.
    fn act(&mut self) -> Option<Event<Number>> {
        if self.given == ACTS || WINDOW <= self.given.saturating_sub(self.answered) {
            return None;
        }
        self.given = self.given.saturating_add(1);
        Some(Event::Take {
            node: self.node,
            transport: self.given,
            body: Number::new(1),
        })
    }

    // A tick, after each `QUIET` turns in which nothing came. What came between them does not begin the count anew: a tick sends something to
    // each other node, so the fastest one would keep the others from ever ticking, and acts that were taken before their node knew who leads
    // would wait for ever.
    fn tick(&mut self, came: bool) -> Option<Event<Number>> {
        if came {
            return None;
        }
        self.quiet = self.quiet.saturating_add(1);
        if self.quiet < QUIET {
            return None;
        }
        self.quiet = 0;
        Some(Event::Tick { node: self.node })
    }
}

impl<'a> Acts<'a> {
    // What the node asks for next, if the last turn or round brought something, or nothing.
    fn ask(&mut self, came: bool) -> Option<Event<Number>> {
        if self.starts {
            self.starts = false;
            return Some(Event::Start { node: self.node });
        }
        if let Some(event) = self.act() {
            return Some(event);
        }
        self.tick(came)
    }

    fn count_all(&mut self, says: &[Sum]) {
        for said in says {
            self.count(*said);
        }
    }
}

impl<'a> Asks for Acts<'a> {
    fn next(&mut self, seen: Seen) -> Option<Event<Number>> {
        self.ask(seen.from.is_some())
    }

    fn hear(&mut self, says: &[Sum]) {
        self.count_all(says);
    }
}

impl<'a> RoundAsks for Acts<'a> {
    fn next(&mut self, seen: &RoundSeen<'_>) -> Option<Event<Number>> {
        self.ask(!seen.came.is_empty())
    }

    fn hear(&mut self, says: &[Sum]) {
        self.count_all(says);
    }
}

// What came of the run of a node: how many answers came in order, whether anything is strange, and how long its log was.
#[derive(Clone, Copy)]
struct Ran {
    answered: u32,
    strange: bool,
    length: usize,
}

// Runs the node over a feed that has told nothing yet, by turns, or at a table for batches by rounds. Returns whether no fault ended it.
fn run_by(
    alloc: Global,
    mail: &Mail<Number>,
    actor: &mut Adding,
    gate: &Until<'_>,
    feed: &mut Telling<Acts<'_>>,
) -> bool
    requires owned { Owns mail.now actor.old.seat }
    requires gave { feed.old.gave.items ≡ [] }
    requires got { feed.old.got.items ≡ [] }
    ensures { Owns mail.now actor.new.seat }
{
    if mail.most() == 1 {
        run_telling(mail, actor, gate, feed)
    } else {
        run_rounds_telling(alloc, mail, actor, gate, feed)
    }
}

// The run of a node. Its log is to have what its feed gave, and what its feed got is to be what that log says.
fn run(alloc: Global, mail: &Mail<Number>, actor: &mut Adding, node: u8, served: &AtomicU64) -> Ran
    requires { Owns mail.now actor.old.seat }
    ensures { Owns mail.now actor.new.seat }
{
    let mut feed = Telling::of(alloc, Acts::of(node, served));
    let gate = Until { served };
    let good = run_by(alloc, mail, actor, &gate, &mut feed);
    let same = is_replay(alloc, node, actor.log(), &feed);
    // a run that a fault ends before the others are served ends them, too
    served.fetch_add(3, Ordering::SeqCst);
    let ran = Ran {
        answered: feed.asks.answered,
        strange: feed.asks.strange || !good || !same,
        length: actor.log().len(),
    };
    drop(feed);
    ran
}

// Three runs side by side.
fn run_all<R: Threads>(
    rt: &R,
    alloc: Global,
    mail: &Mail<Number>,
    one: &mut Adding,
    two: &mut Adding,
    three: &mut Adding,
) -> (Ran, (Ran, Ran))
    requires one { Owns mail.now one.old.seat }
    requires two { Owns mail.now two.old.seat }
    requires three { Owns mail.now three.old.seat }
    ensures one { Owns mail.now one.new.seat }
    ensures two { Owns mail.now two.new.seat }
    ensures three { Owns mail.now three.new.seat }
{
    let served = AtomicU64::new(0);
    join_mut(
        rt,
        &mut || -> Ran
            requires { Owns mail.now one.now.seat }
            ensures { Owns mail.entry.now one.exit.now.seat }
        { run(alloc, mail, one, 1, &served) },
        &mut || -> (Ran, Ran)
            requires two { Owns mail.now two.now.seat }
            requires three { Owns mail.now three.now.seat }
            ensures { Owns mail.entry.now two.exit.now.seat × Owns mail.entry.now three.exit.now.seat }
        {
            join_mut(
                rt,
                &mut || -> Ran
                    requires { Owns mail.now two.now.seat }
                    ensures { Owns mail.entry.now two.exit.now.seat }
                { run(alloc, mail, two, 2, &served) },
                &mut || -> Ran
                    requires { Owns mail.now three.now.seat }
                    ensures { Owns mail.entry.now three.exit.now.seat }
                { run(alloc, mail, three, 3, &served) },
            )
        },
    )
}

// Asserts that a node answered all its acts, in order, and that its log has them; gives how long the log was.
fn ended(rt: &impl Abort, ran: Ran) -> u64 {
    check_eq!(rt; ran.answered, ACTS);
    check!(rt; !ran.strange);
    check!(rt; ACTS as usize <= ran.length);
    ran.length as u64
}

// Three nodes that run side by side, and how long their logs are then.
#[derive(Drop)]
struct Side<'a, R> {
    rt: &'a R,
    alloc: Global,
    lengths: [u64; 7],
}

impl<R: Abort + Threads> Life<Count, MemKeeper<Number>> for Side<'_, R> {
    fn machine(&self) -> Count {
        Count::new(self.alloc)
    }

    fn keeper(&self) -> MemKeeper<Number> {
        MemKeeper::new(self.alloc)
    }

    fn reopened(&self, keeper: MemKeeper<Number>) -> MemKeeper<Number> {
        keeper.reopen()
    }

    fn live(
        &mut self,
        mail: &Mail<Number>,
        one: &mut Adding,
        two: &mut Adding,
        three: &mut Adding,
        _heard: &mut Heard<Sum>,
    ) -> bool {
        let (first, (second, third)) = run_all(self.rt, self.alloc, mail, one, two, three);
        let (first, second) = (ended(self.rt, first), ended(self.rt, second));
        self.lengths = [first, second, ended(self.rt, third), 0, 0, 0, 0];
        false
    }

    fn live_on(
        &mut self,
        _mail: &Mail<Number>,
        _one: &mut Adding,
        _two: &mut Adding,
        _three: &mut Adding,
        _heard: &mut Heard<Sum>,
    ) {}

    fn end(&self, _heard: &Heard<Sum>, lengths: &[u64; 7]) {
        check!(self.rt; *lengths == self.lengths);
    }
}

#[test]
fn each_node_answers_its_acts_in_order(rt: HostRuntime) {
    let mut side = Side {
        rt: &rt,
        alloc: rt.alloc(),
        lengths: [0; 7],
    };
    live::<Count, MemKeeper<Number>, _>(&rt, rt.alloc(), &mut side);
}

#[test]
fn each_node_answers_its_acts_in_order_by_rounds(rt: HostRuntime) {
    let mut side = Side {
        rt: &rt,
        alloc: rt.alloc(),
        lengths: [0; 7],
    };
    live_by_rounds::<Count, MemKeeper<Number>, _>(&rt, rt.alloc(), &mut side);
}
