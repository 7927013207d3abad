// A feed that keeps all that it gives and gets, so that the contract of a run speaks of both.
ghost use Rattle.std.specs.Prelude.{◌≡◌, ◌++◌, ◌∷◌, [], ℕ, List, eqb, true, false, IfSome};
ghost use Rattle.std.specs.Option.{option_to_list};
ghost use Rattle.mail_table.specs.Seats.{Owns};
ghost use Rattle.node_actor.specs.Views.{View, StandsFor};
ghost use Rattle.paxos_node.specs.declared.event.Event.{Event};
ghost use Rattle.paxos_packets.specs.declared.transport.Transport.{Transport};
ghost use Rattle.replica_machine.specs.Examples.{adds};
ghost use Rattle.test_machines.specs.Sum.{loaded_sum};
ghost use Rattle.actor_tests.specs.Telling.{Told, TellsAll};

use crate::counting::Sum;
use actor_run::{Feed, Gate, Seen, run_node};
use mail_table::Mail;
use node_actor::{Actor, Entry, Event};
use paxos_packets::Transport;
use replica_machine::Roll;
use std::alloc::Global;
use store_keeper::MemKeeper;
use test_machines::{Count, Number};

/// An actor that adds up, over a keeper in memory.
pub type Adding = Actor<Count, MemKeeper<Number>>;

/// Where events come from, and answers go.
pub trait Asks {
    /// Returns the next event, if there is one.
    fn next(&mut self, seen: Seen) -> Option<Event<Number>>;

    /// Hears what the node says.
    fn hear(&mut self, says: &[Sum]);
}

/// A feed that keeps all that it gave and got, oldest first.
#[derive(Drop)]
pub struct Telling<F> {
    pub asks: F,
    pub gave: Vec<Event<Number>>,
    pub got: Vec<Sum>,
    /// Whether memory ran out for some of it.
    pub short: bool,
}

impl<F> Telling<F> {
    /// Creates a feed that gave and got nothing yet.
    pub fn of(alloc: Global, asks: F) -> Telling<F>
        ensures gave { result.gave.items ≡ [] }
        ensures got { result.got.items ≡ [] }
    {
        Telling {
            asks,
            gave: Vec::new(alloc),
            got: Vec::new(alloc),
            short: false,
        }
    }
}

// Returns the event once more, if it has no packet.
fn again(event: &Event<Number>) -> Option<Event<Number>>
    ensures { IfSome result (λ e. e ≡ event.now) }
{
    match event {
        Event::Take {
            node,
            transport,
            body,
        } => Some(Event::Take {
            node: *node,
            transport: *transport,
            body: *body,
        }),
        Event::Tick { node } => Some(Event::Tick { node: *node }),
        Event::Start { node } => Some(Event::Start { node: *node }),
        Event::Suspect { node, other } => Some(Event::Suspect {
            node: *node,
            other: *other,
        }),
        Event::Deliver { .. } | Event::Cut { .. } | Event::Crash { .. } | Event::Restart { .. } =>
            None,
    }
}

/// Keeps the event, or that it is not kept.
pub fn keep_event(gave: &mut Vec<Event<Number>>, short: &mut bool, event: &Event<Number>)
    ensures { short.new ≡ false → (short.old ≡ false) × (gave.new.items ≡ gave.old.items ++ event.now ∷ []) }
{
    let Some(kept) = again(event) else {
        *short = true;
        return;
    };
    if gave.push(kept).is_err() {
        *short = true;
        return;
    }
}

/// Keeps what is said, or that it is not kept.
pub fn keep_says(got: &mut Vec<Sum>, short: &mut bool, says: &mut Vec<Sum>)
    ensures { short.new ≡ false → (short.old ≡ false) × (got.new.items ≡ got.old.items ++ says.old.items) }
{
    if got.append(says).is_err() {
        *short = true;
        return;
    }
}

impl<F: Asks> Feed<Number, Sum> for Telling<F> {
    ghost use Rattle.actor_tests.specs.Telling.{Told};

    ghost saw = { λ t given said. Told t.short t.gave.items t.got.items given said };

    fn next(&mut self, seen: Seen) -> Option<Event<Number>>
        ensures { (given : List (Event ℕ)) (said : List (Transport × ℕ)) → Told self.old.short self.old.gave.items self.old.got.items given said
            → Told self.new.short self.new.gave.items self.new.got.items (given ++ option_to_list result) said }
    {
        let Some(event) = self.asks.next(seen) else {
            return None;
        };
        keep_event(&mut self.gave, &mut self.short, &event);
        Some(event)
    }

    fn hand(&mut self, says: Vec<Sum>)
        ensures { (given : List (Event ℕ)) (said : List (Transport × ℕ)) → Told self.old.short self.old.gave.items self.old.got.items given said
            → Told self.new.short self.new.gave.items self.new.got.items given (said ++ says.items) }
    {
        let mut says = says;
        self.asks.hear(says.as_slice());
        keep_says(&mut self.got, &mut self.short, &mut says);
        drop(says);
    }
}

/// Runs the actor over a feed that has told nothing yet. Returns whether no fault ended it. Then the node took the acts that the feed gave,
/// in order, but for one that found no room at the end, and the feed got what the core hands out in the events that were made: this is what
/// the contract of `run_node` says of two lists that are there.
pub fn run_telling<G: Gate, F: Asks>(
    mail: &Mail<Number>,
    actor: &mut Adding,
    gate: &G,
    feed: &mut Telling<F>,
) -> bool
    requires owned { Owns mail.now actor.old.seat }
    requires single { mail.now.most ≡ 1 }
    requires gave { feed.old.gave.items ≡ [] }
    requires got { feed.old.got.items ≡ [] }
    ensures still_owned { Owns mail.now actor.new.seat }
    ensures told { result ≡ true → feed.new.short ≡ false → (view : View ℕ) → StandsFor actor.old view →
        TellsAll eqb adds (λ c. c.0) loaded_sum actor.old view feed.new.gave.items feed.new.got.items }
{
    let done = run_node(mail, actor, gate, feed);
    let good = done.is_ok();
    drop(done);
    good
}

// The acts among these events, each by its transport and its number, oldest first; some are missing if memory runs out.
fn acts_in(alloc: Global, events: &[Event<Number>]) -> Vec<(u32, u64)> {
    let mut acts = Vec::new(alloc);
    for event in events {
        if let Event::Take {
            transport,
            body,
            ..
        } = event
        {
            let _ = acts.push((*transport, u64::from(body.get())));
        }
    }
    acts
}

// The act of an entry, if it has one: whose it is, and its number.
fn act_of(entry: &Entry<Number>) -> Option<(Transport, u64)> {
    match entry {
        Entry::Item {
            node,
            boot,
            transport,
            body,
            ..
        } => {
            let of = Transport {
                node: *node,
                boot: *boot,
                number: *transport,
            };
            Some((of, u64::from(body.get())))
        },
        Entry::Noop | Entry::Boot { .. } | Entry::Lost { .. } => None,
    }
}

// Whether the node's acts that take effect in the log are these, in order, and the sums at them those.
fn has_acts(node: u8, log: &[Entry<Number>], acts: &[(u32, u64)], sums: &[Sum]) -> bool {
    let mut roll = Roll::new();
    let (mut sum, mut count) = (0u64, 0usize);
    for entry in log {
        if !roll.take(entry) {
            continue;
        }
        let Some((of, number)) = act_of(entry) else {
            continue;
        };
        sum = sum.saturating_add(number);
        if of.node != node {
            continue;
        }
        if acts.get(count) != Some(&(of.number, number)) || sums.get(count) != Some(&(of, sum)) {
            return false;
        }
        count = count.saturating_add(1);
    }
    count == acts.len() && count == sums.len()
}

/// Returns whether the node's log has just the acts that the feed gave, in order, and what the feed got is what the log says at them.
pub fn is_replay<F>(alloc: Global, node: u8, log: &[Entry<Number>], feed: &Telling<F>) -> bool {
    let acts = acts_in(alloc, feed.gave.as_slice());
    let same = has_acts(node, log, acts.as_slice(), feed.got.as_slice());
    drop(acts);
    same && !feed.short
}
