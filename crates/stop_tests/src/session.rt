// Three actors that add up: a session through them, in which the store of node 2 may stop; the crash of node 2, and its restart on what
// that left; and what follows until the three logs are one. One function owns the actors, and lends them to the others. What cannot be
// had, as memory or an actor, ends the test at once, so that no way out drops an actor.
ghost use Rattle.std.specs.Prelude.{◌≡◌, All};
ghost use Rattle.test_stands.specs.Fresh.{IsFresh};

use crate::check::Check;
use crate::kept::{are_same, floor_of, is_all_kept};
use mail_table::{Mail, NodeSeat, Office, found, found_for_batches};
use node_actor::{Entry, Keeper, KeeperFault, Members};
use paxos_packets::{Body, Rows, Transport};
use std::alloc::Global;
use std::process::Abort;
use store_keeper::MemKeeper;
use test_checks::{check, check_eq};
use test_machines::{Count, Number};
use test_stands::{Answer, Begun, Left, SeatedActor, again, close, open_actor, told_of};

// How often each node turns at most.
const MOST_ROUNDS: u32 = 1_000;

// An actor whose store does not stop.
type Other<'a> = SeatedActor<'a, Count, MemKeeper<Number>>;

/// An actor whose store may stop, or what is left of it.
pub type Second<'a, K> = Begun<'a, Count, K>;

/// What becomes of a store whose node has crashed.
pub trait Crashes<K> {
    /// Returns the store, opened again on what the crash left.
    fn reopened(&self, keeper: K) -> K;
}

/// What the nodes do before node 2 crashes.
#[derive(Clone, Copy, PartialEq, Eq)]
pub enum Course {
    /// They go through a session.
    Whole,
    /// They go through a session, and node 1 cuts its log. Node 2 begins again over the same store, takes the snapshot of node 1, cuts its
    /// own log, and goes on.
    Cut,
    /// The same session, at a table for batches, where each turn is a round.
    ByRounds,
    /// The same session and cuts by rounds.
    CutByRounds,
}

fn goes_by_rounds(course: Course) -> bool {
    match course {
        Course::Whole | Course::Cut => false,
        Course::ByRounds | Course::CutByRounds => true,
    }
}

/// Where the store of node 2 stopped: nowhere, as the node began a boot, or in a commit.
#[derive(Clone, Copy, Debug, PartialEq, Eq)]
pub enum Stop {
    Nowhere,
    Boot,
    Commit,
}

/// A life of node 2: where its store stopped; whether the rows that it found are new, and not those that it had; and whether it took the
/// snapshot of node 1 then.
#[derive(Clone, Copy)]
pub struct Life {
    pub stop: Stop,
    pub is_new: bool,
    pub takes: bool,
}

// What calls returned: how many sums, the last sum, the first fault, and the last one after that, each 0 if there is none.
#[derive(Clone, Copy)]
struct Heard {
    says: u64,
    sum: u64,
    fault: u8,
    next: u8,
}

const NOTHING: Heard = Heard {
    says: 0,
    sum: 0,
    fault: 0,
    next: 0,
};

fn hear(heard: &mut Heard, done: Answer<(Transport, u64)>) {
    let (says, number) = told_of(done);
    if let Some(says) = says {
        hear_sums(heard, says.as_slice());
        drop(says);
    }
    hear_fault(heard, number);
}

fn hear_sums(heard: &mut Heard, says: &[(Transport, u64)]) {
    for (_, sum) in says {
        heard.says = heard.says.saturating_add(1);
        heard.sum = *sum;
    }
}

fn hear_fault(heard: &mut Heard, number: u8) {
    if number == 0 {
        return;
    }
    if heard.fault == 0 {
        heard.fault = number;
    } else {
        heard.next = number;
    }
}

// What an actor is asked for.
#[derive(Clone, Copy)]
enum Asked {
    Start,
    Tick,
    Take(u32),
    Cut,
}

fn ask<K: Keeper<Number>>(actor: &mut SeatedActor<'_, Count, K>, heard: &mut Heard, asked: Asked) {
    let done = match asked {
        Asked::Start => actor.start(),
        Asked::Tick => actor.tick(),
        Asked::Take(number) => actor.take(1, Number::new(number)),
        Asked::Cut => actor.cut(),
    };
    hear(heard, done);
}

fn ask_second<K: Keeper<Number>>(two: &mut Second<'_, K>, heard: &mut Heard, asked: Asked) {
    match two {
        Begun::Again(actor) => ask(actor, heard, asked),
        Begun::Not(..) => {}
    }
}

// Takes a turn. Returns whether a packet moved.
fn turn<K: Keeper<Number>>(actor: &mut SeatedActor<'_, Count, K>, heard: &mut Heard) -> bool {
    let done = actor.turn();
    let moved = done.is_ok() && actor.has_moved();
    hear(heard, done);
    moved
}

fn turn_second<K: Keeper<Number>>(two: &mut Second<'_, K>, heard: &mut Heard) -> bool {
    match two {
        Begun::Again(actor) => turn(actor, heard),
        Begun::Not(..) => false,
    }
}

// A turn of each node that is up. Returns whether a packet moved.
fn round<K: Keeper<Number>>(
    one: &mut Other<'_>,
    two: &mut Second<'_, K>,
    three: &mut Other<'_>,
    others: &mut Heard,
    second: &mut Heard,
) -> bool {
    let first = turn(one, others);
    let middle = turn_second(two, second);
    let last = turn(three, others);
    first || middle || last
}

// The nodes turn, one after another, until no packet is left that can go.
fn all_turns<K: Keeper<Number>>(
    rt: &impl Abort,
    one: &mut Other<'_>,
    two: &mut Second<'_, K>,
    three: &mut Other<'_>,
    others: &mut Heard,
    second: &mut Heard,
) {
    for _ in 0..MOST_ROUNDS {
        if !round(one, two, three, others, second) {
            return;
        }
    }
    panic!(rt; "packets without end")
}

// Node 1 leads, and node 2 takes 5 and 6 of its transport 1. `second` hears what the calls of node 2 returned.
fn session<K: Keeper<Number>>(
    rt: &impl Abort,
    one: &mut Other<'_>,
    two: &mut Second<'_, K>,
    three: &mut Other<'_>,
    second: &mut Heard,
) {
    let mut others = NOTHING;
    ask(one, &mut others, Asked::Start);
    all_turns(rt, one, two, three, &mut others, second);
    ask_second(two, second, Asked::Take(5));
    ask_second(two, second, Asked::Take(6));
    all_turns(rt, one, two, three, &mut others, second);
    check_eq!(rt; others.fault, 0);
}

// Node 2, which goes down after the session, and begins again over the same store, unless a call of it has returned a fault.
fn begun_again<'a, K: Keeper<Number>>(
    alloc: Global,
    two: Second<'a, K>,
    heard: Heard,
) -> Second<'a, K> {
    match two {
        Begun::Again(actor) => {
            if heard.fault == 0 {
                let (left, keeper) = actor.crash();
                left.restart(alloc, Count::new(alloc), keeper)
            } else {
                Begun::Again(actor)
            }
        }
        Begun::Not(number, left, keeper) => Begun::Not(number, left, keeper),
    }
}

// Node 2 has taken the snapshot of node 1, unless its store has stopped.
fn has_taken<K: Keeper<Number>>(rt: &impl Abort, two: &Second<'_, K>, heard: Heard) {
    if let Begun::Again(actor) = two {
        check!(rt; heard.fault != 0 || actor.floor() == 4);
    }
}

// Node 2, which has begun again, goes two rounds in which nothing comes. So it looks into the box of node 1 first in the round to which both
// others answer, and is shown the snapshot of node 1 before the entries of node 3, after which it would not take it.
fn goes_idle<K: Keeper<Number>>(two: &mut Second<'_, K>, second: &mut Heard) {
    for _ in 0..2u8 {
        let _ = turn_second(two, second);
    }
}

// Node 1 cuts its log. Node 2, which has begun again, ticks, and is shown that snapshot; it cuts its own log, and takes 7.
fn goes_over_cuts<K: Keeper<Number>>(
    rt: &impl Abort,
    one: &mut Other<'_>,
    two: &mut Second<'_, K>,
    three: &mut Other<'_>,
    second: &mut Heard,
) {
    let mut others = NOTHING;
    ask(one, &mut others, Asked::Cut);
    ask_second(two, second, Asked::Tick);
    all_turns(rt, one, two, three, &mut others, second);
    has_taken(rt, two, *second);
    ask_second(two, second, Asked::Cut);
    ask_second(two, second, Asked::Take(7));
    all_turns(rt, one, two, three, &mut others, second);
    check_eq!(rt; others.fault, 0);
}

// Node 2, which has begun again, ticks, and node 1 leads in its next ballot; node 2 ticks once more. Its log ends with the boot that it
// began on what it found. Then it takes 8, and says what the acts of the whole log add up to, which node 3 has.
fn goes_on<K: Keeper<Number>>(
    rt: &impl Abort,
    one: &mut Other<'_>,
    two: &mut Second<'_, K>,
    three: &mut Other<'_>,
    found: Found,
) {
    let mut others = NOTHING;
    let mut second = NOTHING;
    ask_second(two, &mut second, Asked::Tick);
    ask(one, &mut others, Asked::Start);
    all_turns(rt, one, two, three, &mut others, &mut second);
    ask_second(two, &mut second, Asked::Tick);
    all_turns(rt, one, two, three, &mut others, &mut second);
    check!(rt; ends_with_boot(three.log(), found.boot.saturating_add(1)));
    ask_second(two, &mut second, Asked::Take(8));
    all_turns(rt, one, two, three, &mut others, &mut second);
    check_eq!(rt; (others.fault, second.fault), (0, 0));
    check_eq!(rt; (second.says, second.sum), (1, sum_of(three.log())));
}

// Where the store stopped: a node that could not begin has the fault 61; one whose commit failed has 61 and then, at each call, 71.
fn stop_of<K: Keeper<Number>>(rt: &impl Abort, two: &Second<'_, K>, heard: Heard) -> Stop {
    if let Begun::Not(number, ..) = two {
        check_eq!(rt; *number, 61);
        return Stop::Boot;
    }
    if heard.fault == 0 {
        return Stop::Nowhere;
    }
    check_eq!(rt; heard.fault, 61);
    check!(rt; heard.next == 0 || heard.next == 71);
    Stop::Commit
}

// What node 2 finds again.

// Returns whether these are new rows. A node that was never opened had none.
fn are_new(rt: &impl Abort, known: Option<&Rows<Number>>, found: &Rows<Number>) -> bool {
    match known {
        Some(known) => {
            check!(rt; is_all_kept(known, found));
            !are_same(known, found)
        }
        None => found.boot != 0,
    }
}

// The boot and the floor that the store has, and whether its rows are new.
#[derive(Clone, Copy)]
struct Found {
    boot: u64,
    floor: u64,
    is_new: bool,
}

fn found_in<K: Keeper<Number>>(
    rt: &impl Abort,
    known: Option<&Rows<Number>>,
    keeper: &mut K,
) -> Found {
    let rows = keeper.load().expect(rt, "rows");
    let found = Found {
        boot: rows.boot,
        floor: floor_of(&rows),
        is_new: are_new(rt, known, &rows),
    };
    drop(rows);
    found
}

// Whether a call after a fault returns 65.
fn has_failed<K: Keeper<Number>>(keeper: &mut K) -> bool {
    let next = keeper.load();
    let failed = matches!(&next, Err(KeeperFault::Failed));
    drop(next);
    failed
}

/// What is left of node 2, and its store.
pub fn crashed<'a, K: Keeper<Number>>(two: Second<'a, K>) -> (Left<'a, Count>, K) {
    match two {
        Begun::Again(actor) => actor.crash(),
        Begun::Not(_, left, keeper) => (left, keeper),
    }
}

// Node 2, begun again on what the crash left, and what it found.
fn restarted<'a, K: Keeper<Number>, C: Crashes<K>>(
    rt: &impl Abort,
    alloc: Global,
    two: Second<'a, K>,
    crashes: &C,
    stop: Stop,
) -> (Second<'a, K>, Found) {
    let (left, mut keeper) = crashed(two);
    check_eq!(rt; has_failed(&mut keeper), stop != Stop::Nowhere);
    let mut keeper = crashes.reopened(keeper);
    let found = found_in(rt, left.rows(), &mut keeper);
    (left.restart(alloc, Count::new(alloc), keeper), found)
}

// What the logs are in the end.

fn are_same_logs<B: Body>(left: &[Entry<B>], right: &[Entry<B>]) -> bool {
    for (one, other) in left.iter().zip(right) {
        if !one.same(other) {
            return false;
        }
    }
    left.len() == right.len()
}

// Whether the entry is this boot of node 2.
fn is_boot<B>(entry: &Entry<B>, number: u64) -> bool {
    match entry {
        Entry::Boot { node, boot } => *node == 2 && *boot == number,
        Entry::Noop | Entry::Lost { .. } | Entry::Item { .. } => false,
    }
}

fn ends_with_boot<B>(log: &[Entry<B>], number: u64) -> bool {
    match log.last() {
        Some(entry) => is_boot(entry, number),
        None => false,
    }
}

// What the acts of a log add up to.
fn sum_of(log: &[Entry<Number>]) -> u64 {
    let mut sum = 0u64;
    for entry in log {
        sum = sum.saturating_add(number_in(entry));
    }
    sum
}

fn number_in(entry: &Entry<Number>) -> u64 {
    match entry {
        Entry::Item { body, .. } => u64::from(body.get()),
        Entry::Noop | Entry::Boot { .. } | Entry::Lost { .. } => 0,
    }
}

// Whether this is what the whole log has above the floor.
fn is_above<B: Body>(whole: &[Entry<B>], floor: u64, log: &[Entry<B>]) -> bool {
    match usize::try_from(floor) {
        Ok(floor) => match whole.get(floor..) {
            Some(rest) => are_same_logs(rest, log),
            None => false,
        },
        Err(_) => false,
    }
}

// The log of a node is the whole log: what it has above its floor is.
fn is_level<K: Keeper<Number>>(
    rt: &impl Abort,
    whole: &[Entry<Number>],
    actor: &SeatedActor<'_, Count, K>,
) {
    check!(rt; is_above(whole, actor.floor(), actor.log()));
    check_eq!(rt; actor.applied(), whole.len() as u64);
}

// The three logs are one, their floors counted. Node 3 has no floor.
fn are_level<K: Keeper<Number>>(
    rt: &impl Abort,
    one: &Other<'_>,
    two: &SeatedActor<'_, Count, K>,
    three: &Other<'_>,
) {
    check_eq!(rt; three.floor(), 0);
    is_level(rt, three.log(), one);
    is_level(rt, three.log(), two);
    is_level(rt, three.log(), three);
}

// What is whole without a stop: how many sums node 2 has said, the length of its log, and its floor. After the session it has two boots and
// two acts; then it takes the snapshot of node 1 at 4, has a boot more, which it cuts, and one more act.
fn whole_of(course: Course) -> (u64, u64, u64) {
    match course {
        Course::Whole | Course::ByRounds => (2, 4, 0),
        Course::Cut | Course::CutByRounds => (3, 6, 5),
    }
}

fn is_whole<K: Keeper<Number>>(rt: &impl Abort, two: &Second<'_, K>, heard: Heard, course: Course) {
    let (length, floor) = match two {
        Begun::Again(actor) => (actor.applied(), actor.floor()),
        Begun::Not(..) => (0, 0),
    };
    check_eq!(rt; (heard.says, length, floor), whole_of(course));
}

// The nodes go through the course. Returns node 2, and what its calls returned.
fn gone<'a, K: Keeper<Number>>(
    rt: &impl Abort,
    alloc: Global,
    one: &mut Other<'_>,
    two: Second<'a, K>,
    three: &mut Other<'_>,
    course: Course,
) -> (Second<'a, K>, Heard) {
    let mut two = two;
    let mut heard = NOTHING;
    session(rt, one, &mut two, three, &mut heard);
    match course {
        Course::Whole | Course::ByRounds => (two, heard),
        Course::Cut | Course::CutByRounds => {
            let mut two = begun_again(alloc, two, heard);
            if goes_by_rounds(course) {
                goes_idle(&mut two, &mut heard);
            }
            goes_over_cuts(rt, one, &mut two, three, &mut heard);
            (two, heard)
        }
    }
}

// The actors of these seats live so.
fn lives<K: Keeper<Number> + Drop, C: Crashes<K>>(
    rt: &impl Abort,
    alloc: Global,
    one: Other<'_>,
    two: Second<'_, K>,
    three: Other<'_>,
    crashes: &C,
    course: Course,
) -> Life {
    let mut one = one;
    let mut three = three;
    let (two, heard) = gone(rt, alloc, &mut one, two, &mut three, course);
    let stop = stop_of(rt, &two, heard);
    if stop == Stop::Nowhere {
        is_whole(rt, &two, heard, course);
    }
    let (mut two, found) = restarted(rt, alloc, two, crashes, stop);
    check!(rt; stop != Stop::Nowhere || !found.is_new);
    if goes_by_rounds(course) {
        let mut idle = NOTHING;
        goes_idle(&mut two, &mut idle);
    }
    goes_on(rt, &mut one, &mut two, &mut three, found);
    let two = again(two).expect(rt, "node 2");
    are_level(rt, &one, &two, &three);
    let takes = found.floor < two.floor();
    close(one);
    close(two);
    close(three);
    Life {
        stop,
        is_new: found.is_new,
        takes,
    }
}

// The last of these seats, whose node was never opened.
fn last_seat(
    rt: &impl Abort,
    mail: &Mail<Number>,
    seats: &mut Vec<NodeSeat<Number>>,
) -> NodeSeat<Number>
    requires { All (IsFresh mail.now) seats.old.items }
    ensures fresh { All (IsFresh mail.now) seats.new.items }
    ensures seat { IsFresh mail.now result }
{
    let _ = mail;
    match seats.pop() {
        Some(seat) => seat,
        None => panic!(rt; "no seat"),
    }
}

/// The actor of the last of these seats.
pub fn opened<'a, K: Keeper<Number>>(
    rt: &impl Abort,
    alloc: Global,
    mail: &'a Mail<Number>,
    seats: &mut Vec<NodeSeat<Number>>,
    members: Members,
    keeper: K,
) -> Second<'a, K>
    requires fresh { All (IsFresh mail.now) seats.old.items }
    requires members { members ≡ mail.now.members }
    ensures { All (IsFresh mail.now) seats.new.items }
{
    let seat = last_seat(rt, mail, seats);
    open_actor(alloc, mail, seat, members, Count::new(alloc), keeper)
}

fn opened_in_memory<'a>(
    rt: &impl Abort,
    alloc: Global,
    mail: &'a Mail<Number>,
    seats: &mut Vec<NodeSeat<Number>>,
    members: Members,
) -> Other<'a>
    requires fresh { All (IsFresh mail.now) seats.old.items }
    requires members { members ≡ mail.now.members }
    ensures { All (IsFresh mail.now) seats.new.items }
{
    let keeper = MemKeeper::new(alloc);
    again(opened(rt, alloc, mail, seats, members, keeper)).expect(rt, "an actor")
}

fn live_at<K: Keeper<Number> + Drop, C: Crashes<K>>(
    rt: &impl Abort,
    alloc: Global,
    mail: &Mail<Number>,
    seats: &mut Vec<NodeSeat<Number>>,
    members: Members,
    keeper: K,
    crashes: &C,
    course: Course,
) -> Life
    requires fresh { All (IsFresh mail.now) seats.old.items }
    requires members { members ≡ mail.now.members }
{
    let three = opened_in_memory(rt, alloc, mail, seats, members);
    let two = opened(rt, alloc, mail, seats, members, keeper);
    let one = opened_in_memory(rt, alloc, mail, seats, members);
    lives(rt, alloc, one, two, three, crashes, course)
}

// The same at a table for batches.
fn live_by_rounds<K: Keeper<Number> + Drop, C: Crashes<K>>(
    rt: &impl Abort,
    alloc: Global,
    keeper: K,
    crashes: &C,
    course: Course,
) -> Life {
    let members = Members::new(3).expect(rt, "three members");
    let mut office = Office::new();
    let Ok((mail, mut seats)) = found_for_batches::<Number>(alloc, &mut office, members) else {
        panic!(rt; "no room for a table");
    };
    live_at(
        rt, alloc, &mail, &mut seats, members, keeper, crashes, course,
    )
}

/// Opens three nodes at a new table, the second with this store, and lets them live so.
pub fn live<K: Keeper<Number> + Drop, C: Crashes<K>>(
    rt: &impl Abort,
    alloc: Global,
    keeper: K,
    crashes: &C,
    course: Course,
) -> Life {
    if goes_by_rounds(course) {
        return live_by_rounds(rt, alloc, keeper, crashes, course);
    }
    let members = Members::new(3).expect(rt, "three members");
    let mut office = Office::new();
    let Ok((mail, mut seats)) = found::<Number>(alloc, &mut office, members) else {
        panic!(rt; "no room for a table");
    };
    live_at(
        rt, alloc, &mail, &mut seats, members, keeper, crashes, course,
    )
}
