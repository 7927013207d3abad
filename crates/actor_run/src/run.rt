// Runs an actor: the events of its feed and then a turn, again and again, until the gate or a fault ends the run.
ghost use Rattle.std.specs.Prelude.{◌≡◌, Option, List, [], ◌++◌};
ghost use Rattle.paxos_node.specs.declared.event.Event.{Event};
ghost use Rattle.mail_table.specs.Seats.{Owns};
ghost use Rattle.node_actor.specs.Views.{View, StandsFor};
ghost use Rattle.actor_run.specs.Runs.{Outset, Waits, Keeps, Runs};

use crate::events::{make_events, strip_sayings};
use crate::feed::Feed;
use crate::gate::Gate;
use mail_table::Mail;
use node_actor::{Actor, ActorFault, Event, Keeper, Machine};

// Takes a turn of the actor, and hands all that it says to the feed. An event that is held back keeps waiting.
fn take_turn<M: Machine, K: Keeper<M::Body>, F: Feed<M::Body, M::Say>>(
    mail: &Mail<M::Body>,
    actor: &mut Actor<M, K>,
    feed: &mut F,
) -> Result<(), ActorFault<M::Say>>
    requires owned { Owns mail.now actor.old.seat }
    requires single { mail.now.most ≡ 1 }
    ensures still_owned { Owns mail.now actor.new.seat }
    ensures turned { (held : Option (Event M.Body)) (o : Outset M.Body M.Say M K) →
        Waits M.Body.same M.steps M.content M.loaded F.saw held o actor.old feed.old →
        Keeps M.Body.same M.steps M.content M.loaded F.saw K.holds K.finds K.failures o actor.new feed.new held result }
{
    match actor.turn(mail) {
        Ok(says) => {
            feed.hand(says);
            Ok(())
        },
        Err(fault) => Err(strip_sayings(feed, fault)),
    }
}

// Makes events of the feed, then takes a turn.
fn round<M: Machine, K: Keeper<M::Body>, F: Feed<M::Body, M::Say>>(
    mail: &Mail<M::Body>,
    actor: &mut Actor<M, K>,
    feed: &mut F,
    held: &mut Option<Event<M::Body>>,
) -> Result<(), ActorFault<M::Say>>
    requires owned { Owns mail.now actor.old.seat }
    requires single { mail.now.most ≡ 1 }
    ensures still_owned { Owns mail.now actor.new.seat }
    ensures makes { (o : Outset M.Body M.Say M K) →
        Waits M.Body.same M.steps M.content M.loaded F.saw held.old o actor.old feed.old →
        Keeps M.Body.same M.steps M.content M.loaded F.saw K.holds K.finds K.failures o actor.new feed.new held.new result }
{
    match make_events(mail, actor, feed, held) {
        Ok(()) => take_turn(mail, actor, feed),
        Err(fault) => Err(fault),
    }
}

/// Runs the actor for as long as the gate allows, at most 2^64 - 1 turns. Before each turn makes at most 64 events that the feed gives;
/// passes over those that are not a Take of a transport from 1 on, Tick, Start, Suspect or Cut of its node. A Cut is made by `Actor::cut`,
/// whatever it carries. Hands all sayings to the feed.
///
/// An event that returns `Rounds` is dropped; one that returns `Full` is made again before the next turn, before any other. Any other fault
/// ends the run and is returned, without its sayings. Waits nowhere but in the gate.
pub fn run_node<M: Machine, K: Keeper<M::Body>, G: Gate, F: Feed<M::Body, M::Say>>(
    mail: &Mail<M::Body>,
    actor: &mut Actor<M, K>,
    gate: &G,
    feed: &mut F,
) -> Result<(), ActorFault<M::Say>>
    requires owned { Owns mail.now actor.old.seat }
    requires single { mail.now.most ≡ 1 }
    ensures still_owned { Owns mail.now actor.new.seat }
    ensures runs { (view : View M.Body) (gave : List (Event M.Body)) (got : List M.Say) → StandsFor actor.old view → F.saw feed.old gave got →
        Runs M.Body.same M.steps M.content M.loaded F.saw K.holds K.finds K.failures
        (record { actor = actor.old; view = view; gave = gave; got = got }) actor.new feed.new result }
{
    let mut held = None;
    for turn in 0..u64::MAX {
        if !gate.pass(actor.me(), turn) {
            drop(held);
            return Ok(());
        }
        if let Err(fault) = round(mail, actor, feed, &mut held) {
            drop(held);
            return Err(fault);
        }
    }
    drop(held);
    Ok(())
}
