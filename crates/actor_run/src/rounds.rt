// Runs an actor by rounds: the events of its feed, and then a round, again and again, until the gate or a fault ends the run.
ghost use Rattle.std.specs.Prelude.{◌≡◌, ◌≤◌, ◌<◌, ◌+◌, true, false, List, [], ◌++◌, All, OnOk, IfErr, vec_len, vec_capacity};
ghost use Rattle.paxos_node.specs.declared.event.Event.{Event};
ghost use Rattle.mail_table.specs.Seats.{Owns};
ghost use Rattle.node_actor.specs.Calls.{is_own};
ghost use Rattle.node_actor.specs.Snapshots.{own_cut};
ghost use Rattle.node_actor.specs.Views.{View, StandsFor};
ghost use Rattle.actor_run.specs.Answers.{is_refusal, says_of, IsQuiet, Gets};
ghost use Rattle.actor_run.specs.Events.{asked_by, asked_in, is_own_cut};
ghost use Rattle.actor_run.specs.Runs.{IsCut, Outset, Underway};
ghost use Rattle.actor_run.specs.RoundRuns.{Gathers, Pauses, Passes, RunsRounds};
ghost use Rattle.actor_run.specs.Seen.{ShowsRound};

use crate::events::{is_own, is_own_cut, waiting_of};
use crate::gate::Gate;
use crate::round_feed::{RoundFeed, RoundSeen};
use mail_table::Mail;
use node_actor::{Actor, ActorFault, Event, Keeper, Machine};
use std::alloc::Global;
use std::mem;

// How many events of its own a round has at most.
const EVENTS_A_ROUND: usize = 64;

// Returns what the feed is given.
fn seen_by<M: Machine, K: Keeper<M::Body>>(actor: &Actor<M, K>) -> RoundSeen<'_>
    ensures { ShowsRound actor.now result }
{
    RoundSeen {
        came: actor.came(),
        applied: actor.applied(),
        floor: actor.floor(),
        pending: actor.pending_entries(),
        posted: actor.posted(),
        waiting: waiting_of(actor),
        commits: actor.commits(),
        leads: actor.is_leading(),
        promised: actor.promised(),
        open_slots: actor.open_slots(),
    }
}

// Hands out the sayings in a fault. Returns the fault without them.
fn strip_sayings<B, Y: Drop, F: RoundFeed<B, Y>>(
    feed: &mut F,
    fault: ActorFault<Y>,
) -> ActorFault<Y>
    ensures quiet { IsQuiet fault result }
    ensures told { Gets F.saw (says_of fault) feed.old feed.new }
{
    match fault {
        ActorFault::LostHere(says) => {
            let none = Vec::new(*says.allocator());
            feed.hand(says);
            ActorFault::LostHere(none)
        },
        fault => fault,
    }
}

// Cuts the actor's log, and hands out what it says then. The events of the round to come wait.
fn cut<M: Machine, K: Keeper<M::Body>, F: RoundFeed<M::Body, M::Say>>(
    mail: &Mail<M::Body>,
    actor: &mut Actor<M, K>,
    feed: &mut F,
) -> Result<(), ActorFault<M::Say>>
    requires owned { Owns mail.now actor.old.seat }
    ensures still_owned { Owns mail.now actor.new.seat }
    ensures me { actor.new.node.me ≡ actor.old.node.me }
    ensures fatal { IfErr result (λ fault. is_refusal fault ≡ false) }
    ensures gathers { (o : Outset M.Body M.Say M K) (own : List (Event M.Body)) →
        Underway M.Body.same M.steps M.content M.loaded F.saw (asked_in o.actor.node.me own) o actor.old feed.old →
        Gathers M.Body.same M.steps M.content M.loaded F.saw K.holds K.finds K.failures o actor.new feed.new own result }
    ensures cuts { (view : View M.Body) → StandsFor actor.old view → OnOk result
        ((made : IsCut M.Body.same M.steps M.content M.loaded K.holds K.finds K.failures (own_cut M.saved M.content actor.old.log)
        actor.old actor.new view) × Gets F.saw made.0.items feed.old feed.new) }
{
    actor.stands(); // for the proof
    match actor.cut(mail) {
        Ok(says) => {
            feed.hand(says);
            Ok(())
        },
        Err(fault) => Err(strip_sayings(feed, fault)),
    }
}

// Puts an event that the feed gave after the others of the round to come; there must be room for it. A Cut is made at once; an event that is not
// of this node is passed over.
fn take_in<M: Machine, K: Keeper<M::Body>, F: RoundFeed<M::Body, M::Say>>(
    mail: &Mail<M::Body>,
    actor: &mut Actor<M, K>,
    feed: &mut F,
    events: &mut Vec<Event<M::Body>>,
    event: Event<M::Body>,
) -> Result<(), ActorFault<M::Say>>
    requires owned { Owns mail.now actor.old.seat }
    requires own { All (λ e. is_own actor.old.node.me e ≡ true) events.old.items }
    requires room { vec_len events.old < vec_capacity events.old }
    ensures still_owned { Owns mail.now actor.new.seat }
    ensures own { All (λ e. is_own actor.new.node.me e ≡ true) events.new.items }
    ensures length { vec_len events.new ≤ vec_len events.old + 1 }
    ensures capacity { vec_capacity events.new ≡ vec_capacity events.old }
    ensures fatal { IfErr result (λ fault. is_refusal fault ≡ false) }
    ensures takes { (o : Outset M.Body M.Say M K) → Underway M.Body.same M.steps M.content M.loaded F.saw
        (asked_in o.actor.node.me events.old.items ++ asked_by o.actor.node.me event) o actor.old feed.old →
        Gathers M.Body.same M.steps M.content M.loaded F.saw K.holds K.finds K.failures o actor.new feed.new events.new.items result }
    ensures cuts { is_own_cut actor.old.node.me event ≡ true → (view : View M.Body) → StandsFor actor.old view → OnOk result
        ((made : IsCut M.Body.same M.steps M.content M.loaded K.holds K.finds K.failures (own_cut M.saved M.content actor.old.log)
        actor.old actor.new view) × Gets F.saw made.0.items feed.old feed.new) }
    ensures kept { is_own_cut actor.old.node.me event ≡ true → events.new ≡ events.old }
{
    if is_own_cut(actor.me(), &event) {
        drop(event);
        return cut(mail, actor, feed);
    }
    if !is_own(actor.me(), &event) {
        drop(event);
        return Ok(());
    }
    events.push_reserved(event);
    Ok(())
}

// Puts events of the feed after those that are held back, as many as a round has room for. A Cut is made at once. Memory for all of them is
// taken before the feed is asked.
fn gather<M: Machine, K: Keeper<M::Body>, F: RoundFeed<M::Body, M::Say>>(
    mail: &Mail<M::Body>,
    actor: &mut Actor<M, K>,
    feed: &mut F,
    events: &mut Vec<Event<M::Body>>,
) -> Result<(), ActorFault<M::Say>>
    requires owned { Owns mail.now actor.old.seat }
    requires own { All (λ e. is_own actor.old.node.me e ≡ true) events.old.items }
    requires few { vec_len events.old ≤ 64 }
    ensures still_owned { Owns mail.now actor.new.seat }
    ensures own { OnOk result (All (λ e. is_own actor.new.node.me e ≡ true) events.new.items) }
    ensures few { OnOk result (vec_len events.new ≤ 64) }
    ensures fatal { IfErr result (λ fault. is_refusal fault ≡ false) }
    ensures gathers { (o : Outset M.Body M.Say M K) →
        Pauses M.Body.same M.steps M.content M.loaded F.saw events.old.items o actor.old feed.old →
        Gathers M.Body.same M.steps M.content M.loaded F.saw K.holds K.finds K.failures o actor.new feed.new events.new.items result }
{
    let room = EVENTS_A_ROUND.saturating_sub(events.len());
    let Ok(()) = events.reserve(room) else {
        return Err(ActorFault::Memory);
    };
    for _turn in 0..room {
        let Some(event) = feed.next(&seen_by(actor)) else {
            return Ok(());
        };
        take_in(mail, actor, feed, events, event)?;
    }
    Ok(())
}

// Takes a round of the actor with these events of its own, and hands all that it says to the feed. Those that are held back are left in the list.
fn take_round<M: Machine, K: Keeper<M::Body>, F: RoundFeed<M::Body, M::Say>>(
    mail: &Mail<M::Body>,
    actor: &mut Actor<M, K>,
    feed: &mut F,
    events: &mut Vec<Event<M::Body>>,
) -> Result<(), ActorFault<M::Say>>
    requires owned { Owns mail.now actor.old.seat }
    requires own { All (λ e. is_own actor.old.node.me e ≡ true) events.old.items }
    requires few { vec_len events.old ≤ 64 }
    ensures still_owned { Owns mail.now actor.new.seat }
    ensures own { OnOk result (All (λ e. is_own actor.new.node.me e ≡ true) events.new.items) }
    ensures few { OnOk result (vec_len events.new ≤ 64) }
    ensures fatal { IfErr result (λ fault. is_refusal fault ≡ false) }
    ensures passes { (o : Outset M.Body M.Say M K) →
        Underway M.Body.same M.steps M.content M.loaded F.saw (asked_in o.actor.node.me events.old.items) o actor.old feed.old →
        Passes M.Body.same M.steps M.content M.loaded F.saw K.holds K.finds K.failures o actor.new feed.new events.new.items result }
{
    actor.stands(); // for the proof
    let none = Vec::new(*events.allocator());
    let own = mem::replace(events, none);
    let mut says = actor.silence();
    match actor.round(mail, own, &mut says) {
        Ok(held) => {
            feed.hand(says);
            *events = held;
            Ok(())
        },
        Err(fault) => {
            feed.hand(says);
            Err(fault)
        },
    }
}

// Gathers the events of a round, then takes it.
fn round<M: Machine, K: Keeper<M::Body>, F: RoundFeed<M::Body, M::Say>>(
    mail: &Mail<M::Body>,
    actor: &mut Actor<M, K>,
    feed: &mut F,
    events: &mut Vec<Event<M::Body>>,
) -> Result<(), ActorFault<M::Say>>
    requires owned { Owns mail.now actor.old.seat }
    requires own { All (λ e. is_own actor.old.node.me e ≡ true) events.old.items }
    requires few { vec_len events.old ≤ 64 }
    ensures still_owned { Owns mail.now actor.new.seat }
    ensures own { OnOk result (All (λ e. is_own actor.new.node.me e ≡ true) events.new.items) }
    ensures few { OnOk result (vec_len events.new ≤ 64) }
    ensures fatal { IfErr result (λ fault. is_refusal fault ≡ false) }
    ensures passes { (o : Outset M.Body M.Say M K) →
        Pauses M.Body.same M.steps M.content M.loaded F.saw events.old.items o actor.old feed.old →
        Passes M.Body.same M.steps M.content M.loaded F.saw K.holds K.finds K.failures o actor.new feed.new events.new.items result }
{
    match gather(mail, actor, feed, events) {
        Ok(()) => take_round(mail, actor, feed, events),
        Err(fault) => Err(fault),
    }
}

/// Runs the actor by rounds for as long as the gate allows, at most 2^64 - 1 of them. Each round has at most 64 events of its own: first those
/// that the last one held back, and then those that the feed gives; those are passed over that are not a Take of a transport from 1 on, Tick,
/// Start, Suspect or Cut of its node. A Cut is made by `Actor::cut` when the feed gives it, whatever it carries. Hands all sayings to the feed,
/// once a round.
///
/// An event for which no round is left is dropped. From one for which there is no room on, the events of a round are held back and made in the
/// next one, before any other. Any other fault ends the run and is returned, without sayings. Waits nowhere but in the gate.
pub fn run_rounds<M: Machine, K: Keeper<M::Body>, G: Gate, F: RoundFeed<M::Body, M::Say>>(
    alloc: Global,
    mail: &Mail<M::Body>,
    actor: &mut Actor<M, K>,
    gate: &G,
    feed: &mut F,
) -> Result<(), ActorFault<M::Say>>
    requires owned { Owns mail.now actor.old.seat }
    ensures still_owned { Owns mail.now actor.new.seat }
    ensures runs { (view : View M.Body) (gave : List (Event M.Body)) (got : List M.Say) → StandsFor actor.old view → F.saw feed.old gave got →
        RunsRounds M.Body.same M.steps M.content M.loaded F.saw K.holds K.finds K.failures
        (record { actor = actor.old; view = view; gave = gave; got = got }) actor.new feed.new result }
    ensures fatal { IfErr result (λ fault. is_refusal fault ≡ false) }
{
    let mut events = Vec::new(alloc);
    for turn in 0..u64::MAX {
        if !gate.pass(actor.me(), turn) {
            drop(events);
            return Ok(());
        }
        if let Err(fault) = round(mail, actor, feed, &mut events) {
            drop(events);
            return Err(fault);
        }
    }
    drop(events);
    Ok(())
}
