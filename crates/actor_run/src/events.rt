// What comes before a turn: makes the events that a feed gives.
ghost use Rattle.std.specs.Prelude.{◌≡◌, Option, List, [], true, MatchOption, OnOk};
ghost use Rattle.node_actor.specs.Snapshots.{own_cut};
ghost use Rattle.node_actor.specs.Views.{View, StandsFor};
ghost use Rattle.paxos_node.specs.declared.event.Event.{Event};
ghost use Rattle.mail_table.specs.Seats.{Owns};
ghost use Rattle.node_actor.specs.Calls.{is_own};
ghost use Rattle.actor_run.specs.Answers.{says_of, IsQuiet, Gets, Answered};
ghost use Rattle.actor_run.specs.Events.{asked_by, is_own_cut};
ghost use Rattle.actor_run.specs.Runs.{IsCut, Outset, Underway, Waits, Makes, Keeps};
ghost use Rattle.actor_run.specs.Seen.{count_for, counts, Shows};

use crate::feed::{Feed, Seen};
use mail_table::Mail;
use node_actor::{Actor, ActorFault, Event, Keeper, Machine};

// How many events may be made before a turn.
const EVENTS_A_TURN: u8 = 64;

// Returns how many packets wait for this member, 65,535 if there are more.
fn count_for<M: Machine, K: Keeper<M::Body>>(actor: &Actor<M, K>, peer: u8) -> u16
    ensures { result ≡ count_for peer actor.now.waiting }
{
    actor.waiting_for(peer).min(65_535) as u16
}

// Returns how many packets wait for each member, member 1 first.
pub(crate) fn waiting_of<M: Machine, K: Keeper<M::Body>>(actor: &Actor<M, K>) -> [u16; 7]
    ensures { result ≡ counts actor.now.waiting }
{
    [
        count_for(actor, 1),
        count_for(actor, 2),
        count_for(actor, 3),
        count_for(actor, 4),
        count_for(actor, 5),
        count_for(actor, 6),
        count_for(actor, 7),
    ]
}

// Returns what the feed is given.
fn seen_by<M: Machine, K: Keeper<M::Body>>(actor: &Actor<M, K>) -> Seen
    ensures { Shows actor.now result }
{
    Seen {
        from: actor.from(),
        heard: actor.heard(),
        applied: actor.applied(),
        floor: actor.floor(),
        pending: actor.has_pending(),
        pending_entries: actor.pending_entries(),
        posted: actor.posted(),
        waiting: waiting_of(actor),
        commits: actor.commits(),
        leads: actor.is_leading(),
        promised: actor.promised(),
        open_slots: actor.open_slots(),
    }
}

// Returns whether the event is one of this node that a feed may give. An act of the transport 0 is not.
pub(crate) fn is_own<B>(node: u8, event: &Event<B>) -> bool
    ensures { result ≡ is_own node event.now }
{
    match event {
        Event::Take {
            node: of,
            transport,
            ..
        } => *of == node && *transport > 0,
        Event::Tick { node: of } => *of == node,
        Event::Start { node: of } => *of == node,
        Event::Suspect { node: of, .. } => *of == node,
        Event::Deliver { .. } => false,
        Event::Cut { .. } => false,
        Event::Crash { .. } => false,
        Event::Restart { .. } => false,
    }
}

// Returns whether the event is a cut of this node.
pub(crate) fn is_own_cut<B>(node: u8, event: &Event<B>) -> bool
    ensures { result ≡ is_own_cut node event.now }
{
    match event {
        Event::Cut { node: of, .. } => *of == node,
        Event::Take { .. }
        | Event::Tick { .. }
        | Event::Start { .. }
        | Event::Suspect { .. }
        | Event::Deliver { .. }
        | Event::Crash { .. }
        | Event::Restart { .. } => false,
    }
}

// Returns the event that was held back, or the next one that the feed gives; none is held back then.
fn next_event<M: Machine, K: Keeper<M::Body>, F: Feed<M::Body, M::Say>>(
    actor: &Actor<M, K>,
    feed: &mut F,
    held: &mut Option<Event<M::Body>>,
) -> Option<Event<M::Body>>
    ensures next { (o : Outset M.Body M.Say M K) → Waits M.Body.same M.steps M.content M.loaded F.saw held.old o actor.now feed.old →
        MatchOption result (Waits M.Body.same M.steps M.content M.loaded F.saw Option.None o actor.now feed.new)
        (λ e. Underway M.Body.same M.steps M.content M.loaded F.saw (asked_by actor.now.node.me e) o actor.now feed.new) }
    ensures taken { held.new ≡ Option.None }
{
    if held.is_none() {
        return feed.next(seen_by(actor));
    }
    held.take()
}

// Hands out the sayings in a fault. Returns the fault without them.
pub(crate) fn strip_sayings<B, Y: Drop, F: Feed<B, Y>>(
    feed: &mut F,
    fault: ActorFault<Y>,
) -> ActorFault<Y>
    ensures quiet { IsQuiet fault result }
    ensures told { Gets F.saw (says_of fault) feed.old feed.new }
{
    match fault {
        ActorFault::LostHere(says) => {
            let none = Vec::new(*says.allocator());
            feed.hand(says);
            ActorFault::LostHere(none)
        },
        fault => fault,
    }
}

// Judges a fault at an event: drops the event at `Rounds`, returns it to be held back at `Full`, and returns any other fault.
fn refused<B: Drop, Y: Drop, F: Feed<B, Y>>(
    feed: &mut F,
    event: Event<B>,
    fault: ActorFault<Y>,
) -> Result<Option<Event<B>>, ActorFault<Y>>
    ensures { Answered F.saw fault event feed.old feed.new result }
{
    match fault {
        ActorFault::Rounds => {
            drop(event);
            Ok(None)
        },
        ActorFault::Full => Ok(Some(event)),
        fault => {
            drop(event);
            Err(strip_sayings(feed, fault))
        },
    }
}

// Cuts the actor's log, and hands out what it says then. No event is held back.
fn cut<M: Machine, K: Keeper<M::Body>, F: Feed<M::Body, M::Say>>(
    mail: &Mail<M::Body>,
    actor: &mut Actor<M, K>,
    feed: &mut F,
) -> Result<Option<Event<M::Body>>, ActorFault<M::Say>>
    requires owned { Owns mail.now actor.old.seat }
    ensures still_owned { Owns mail.now actor.new.seat }
    ensures me { actor.new.node.me ≡ actor.old.node.me }
    ensures makes { (o : Outset M.Body M.Say M K) →
        Underway M.Body.same M.steps M.content M.loaded F.saw [] o actor.old feed.old →
        Makes M.Body.same M.steps M.content M.loaded F.saw K.holds K.finds K.failures o actor.new feed.new result }
    ensures cuts { (view : View M.Body) → StandsFor actor.old view → OnOk result
        (IsCut M.Body.same M.steps M.content M.loaded K.holds K.finds K.failures (own_cut M.saved M.content actor.old.log)
        actor.old actor.new view) }
{
    match actor.cut(mail) {
        Ok(says) => {
            feed.hand(says);
            Ok(None)
        },
        Err(fault) => Err(strip_sayings(feed, fault)),
    }
}

// Makes an event that the feed gave; a cut is made as the actor makes it, whatever the event carries. Returns the event if it is held back.
fn make<M: Machine, K: Keeper<M::Body>, F: Feed<M::Body, M::Say>>(
    mail: &Mail<M::Body>,
    actor: &mut Actor<M, K>,
    feed: &mut F,
    event: Event<M::Body>,
) -> Result<Option<Event<M::Body>>, ActorFault<M::Say>>
    requires owned { Owns mail.now actor.old.seat }
    ensures still_owned { Owns mail.now actor.new.seat }
    ensures me { actor.new.node.me ≡ actor.old.node.me }
    ensures makes { (o : Outset M.Body M.Say M K) →
        Underway M.Body.same M.steps M.content M.loaded F.saw (asked_by actor.old.node.me event) o actor.old feed.old →
        Makes M.Body.same M.steps M.content M.loaded F.saw K.holds K.finds K.failures o actor.new feed.new result }
    ensures cuts { is_own_cut actor.old.node.me event ≡ true → (view : View M.Body) → StandsFor actor.old view → OnOk result
        (IsCut M.Body.same M.steps M.content M.loaded K.holds K.finds K.failures (own_cut M.saved M.content actor.old.log)
        actor.old actor.new view) }
{
    if is_own_cut(actor.me(), &event) {
        drop(event);
        return cut(mail, actor, feed);
    }
    if !is_own(actor.me(), &event) {
        drop(event);
        return Ok(None);
    }
    match actor.event(mail, &event) {
        Ok(says) => {
            drop(event);
            feed.hand(says);
            Ok(None)
        },
        Err(fault) => refused(feed, event, fault),
    }
}

// Makes at most 64 events, the one that was held back first; one may be held back then.
pub(crate) fn make_events<M: Machine, K: Keeper<M::Body>, F: Feed<M::Body, M::Say>>(
    mail: &Mail<M::Body>,
    actor: &mut Actor<M, K>,
    feed: &mut F,
    held: &mut Option<Event<M::Body>>,
) -> Result<(), ActorFault<M::Say>>
    requires owned { Owns mail.now actor.old.seat }
    ensures still_owned { Owns mail.now actor.new.seat }
    ensures makes { (o : Outset M.Body M.Say M K) →
        Waits M.Body.same M.steps M.content M.loaded F.saw held.old o actor.old feed.old →
        Keeps M.Body.same M.steps M.content M.loaded F.saw K.holds K.finds K.failures o actor.new feed.new held.new result }
{
    for _ in 0..EVENTS_A_TURN {
        let Some(event) = next_event(actor, feed, held) else {
            return Ok(());
        };
        *held = make(mail, actor, feed, event)?;
        if held.is_some() {
            return Ok(());
        }
    }
    Ok(())
}
