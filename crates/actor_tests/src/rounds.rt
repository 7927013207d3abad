// Three nodes that go by rounds, one after another, in one thread.
ghost use Rattle.mail_table.specs.Seats.{Owns};

use crate::actors::{Life, live_by_rounds};
use crate::check::Check;
use crate::counting::Sum;
use crate::hearing::Heard;
use crate::telling::Adding;
use actor_run::{Gate, RoundFeed, RoundSeen, run_rounds};
use mail_table::Mail;
use node_actor::Event;
use std::alloc::Global;
use std::process::Abort;
use store_keeper::MemKeeper;
use test_checks::{check, check_eq};
use test_machines::{Count, Number};

// Passes for so many rounds.
#[derive(Drop)]
struct Most {
    rounds: u64,
}

impl Gate for Most {
    fn pass(&self, _node: u8, turn: u64) -> bool {
        turn < self.rounds
    }
}

// Gives a start, if it is to, and acts of transport 1, each of the number 1, up to so many; and a tick for each round in which nothing came and
// nothing else is given. Counts the sums that come one after another.
#[derive(Drop)]
struct Ones {
    node: u8,
    boot: u64,
    starts: bool,
    wanted: u32,
    given: u32,
    ticks: bool,
    sum: u64,
    strange: bool,
}

impl Ones {
    // The node has said this sum, if it has said any.
    fn of(node: u8, boot: u64, sum: u64) -> Ones {
        Ones {
            node,
            boot,
            starts: false,
            wanted: 0,
            given: 0,
            ticks: true,
            sum,
            strange: false,
        }
    }

    // An act, if one more is wanted.
    fn act(&mut self) -> Option<Event<Number>> {
        if self.given == self.wanted {
            return None;
        }
        self.given = self.given.saturating_add(1);
        Some(Event::Take {
            node: self.node,
            transport: 1,
            body: Number::new(1),
        })
    }

    // A tick, one a round.
    fn tick(&mut self, came: bool) -> Option<Event<Number>> {
        if came || !self.ticks {
            self.ticks = true;
            return None;
        }
        self.ticks = false;
        Some(Event::Tick { node: self.node })
    }

    // One answer: of the next sum.
    fn count(&mut self, said: Sum) {
        let (to, sum) = said;
        let next = self.sum.saturating_add(1);
        if to.node != self.node || to.boot != self.boot || to.number != 1 || sum != next {
            self.strange = true;
            return;
        }
        self.sum = next;
    }
}

impl RoundFeed<Number, Sum> for Ones {
    ghost saw = { λ feed given got. Unit {0} };

    fn next(&mut self, seen: &RoundSeen<'_>) -> Option<Event<Number>>
        ensures { Unit {0} }
    {
        if self.starts {
            self.starts = false;
            return Some(Event::Start { node: self.node });
        }
        if let Some(event) = self.act() {
            return Some(event);
        }
        self.tick(!seen.came.is_empty())
    }

    fn hand(&mut self, says: Vec<Sum>)
        ensures { Unit {0} }
    {
        for said in says.as_slice() {
            self.count(*said);
        }
        drop(says);
    }
}

// Lets the node go so many rounds. Returns the number of the fault that ended it, 0 if none did.
fn go(alloc: Global, mail: &Mail<Number>, actor: &mut Adding, feed: &mut Ones, rounds: u64) -> u8
    requires { Owns mail.now actor.old.seat }
    ensures { Owns mail.now actor.new.seat }
{
    let done = run_rounds(alloc, mail, actor, &Most { rounds }, feed);
    let number = match &done {
        Ok(()) => 0,
        Err(fault) => fault.number(),
    };
    drop(done);
    number
}

// What the three nodes are asked for.
#[derive(Drop)]
struct Three {
    one: Ones,
    two: Ones,
    three: Ones,
}

// How often each node goes a round, one after another, until all is said that is to be.
const SLICES: u32 = 200;

// The nodes go a round each, one after another, many times. Returns whether no fault ended one.
fn all_go(
    alloc: Global,
    mail: &Mail<Number>,
    one: &mut Adding,
    two: &mut Adding,
    three: &mut Adding,
    feeds: &mut Three,
) -> bool
    requires one { Owns mail.now one.old.seat }
    requires two { Owns mail.now two.old.seat }
    requires three { Owns mail.now three.old.seat }
    ensures one { Owns mail.now one.new.seat }
    ensures two { Owns mail.now two.new.seat }
    ensures three { Owns mail.now three.new.seat }
{
    let mut good = true;
    for _ in 0..SLICES {
        let first = go(alloc, mail, one, &mut feeds.one, 1);
        let second = go(alloc, mail, two, &mut feeds.two, 1);
        let third = go(alloc, mail, three, &mut feeds.three, 1);
        good = good && first == 0 && second == 0 && third == 0;
    }
    good
}

// How many acts find room at a node with nothing pending, and how many its feed gives until a whole round of them is held back.
const TAKEN: u32 = 1_024;

const GIVEN: u32 = 1_088;

// Node 2 fills up, and holds back what finds no room; the others take its acts over. Then it is crashed, and takes acts in its next boot.
#[derive(Drop)]
struct ByRounds<'a, R> {
    rt: &'a R,
    alloc: Global,
}

impl<R: Abort> Life<Count, MemKeeper<Number>> for ByRounds<'_, R> {
    fn machine(&self) -> Count {
        Count::new(self.alloc)
    }

    fn keeper(&self) -> MemKeeper<Number> {
        MemKeeper::new(self.alloc)
    }

    fn reopened(&self, keeper: MemKeeper<Number>) -> MemKeeper<Number> {
        keeper.reopen()
    }

    fn live(
        &mut self,
        mail: &Mail<Number>,
        one: &mut Adding,
        two: &mut Adding,
        three: &mut Adding,
        _heard: &mut Heard<Sum>,
    ) -> bool {
        let mut feeds = Three {
            one: Ones::of(1, 1, 0),
            two: Ones::of(2, 1, 0),
            three: Ones::of(3, 1, 0),
        };
        feeds.one.starts = true;
        let good = all_go(self.alloc, mail, one, two, three, &mut feeds);
        check!(self.rt; good);
        feeds.two.wanted = 10;
        check_eq!(self.rt; go(self.alloc, mail, two, &mut feeds.two, 1), 0);
        check_eq!(self.rt; feeds.two.given, 10);
        feeds.two.wanted = 2 * GIVEN;
        check_eq!(self.rt; go(self.alloc, mail, two, &mut feeds.two, 30), 0);
        check_eq!(self.rt; feeds.two.given, GIVEN);
        feeds.two.wanted = GIVEN;
        let good = all_go(self.alloc, mail, one, two, three, &mut feeds);
        check!(self.rt; good && !feeds.two.strange);
        check_eq!(self.rt; feeds.two.sum, u64::from(TAKEN));
        drop(feeds);
        true
    }

    fn live_on(
        &mut self,
        mail: &Mail<Number>,
        one: &mut Adding,
        two: &mut Adding,
        three: &mut Adding,
        _heard: &mut Heard<Sum>,
    ) {
        let mut feeds = Three {
            one: Ones::of(1, 1, 0),
            two: Ones::of(2, 2, u64::from(TAKEN)),
            three: Ones::of(3, 1, 0),
        };
        feeds.two.wanted = 10;
        let good = all_go(self.alloc, mail, one, two, three, &mut feeds);
        check!(self.rt; good && !feeds.two.strange);
        check_eq!(self.rt; feeds.two.sum, u64::from(TAKEN) + 10);
        drop(feeds);
    }

    fn end(&self, _heard: &Heard<Sum>, lengths: &[u64; 7]) {
        let [first, second, third, ..] = *lengths;
        check!(self.rt; u64::from(TAKEN) + 10 <= first && first == second && first == third);
    }
}

#[test]
fn holds_back_what_finds_no_room_in_a_round(rt: HostRuntime) {
    let mut life = ByRounds {
        rt: &rt,
        alloc: rt.alloc(),
    };
    live_by_rounds::<Count, MemKeeper<Number>, _>(&rt, rt.alloc(), &mut life);
}
