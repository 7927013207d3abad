// How the events that a round has tried are made: one commit, then their steps at the table, their packets, and what the machine says.
ghost use Rattle.std.specs.Prelude.{◌≡◌, ◌≤◌, ◌+◌, ◌^◌, ◌++◌, [], List, length, true, false, Ok, Err, IfOk, OnOk, OnErr, MatchResult};
ghost use Rattle.actor_parts.specs.Parts.{IsSound};
ghost use Rattle.actor_parts.specs.Steps.{StaysWho};
ghost use Rattle.actor_parts.specs.Tried.{events_in};
ghost use Rattle.mail_table.specs.Seats.{Owns};
ghost use Rattle.node_actor.specs.Actor.{acting, IsSeated};
ghost use Rattle.node_actor.specs.MidRound.{MakesAll};
ghost use Rattle.node_actor.specs.Posts.{advanced_all, AreSteps};
ghost use Rattle.node_actor.specs.Trying.{acting_before, Trying};
ghost use Rattle.node_actor.specs.Turns.{StaysAt};

use actor_parts::{ActorFault, Parts, Staged, Tried};
use mail_table::{Mail, NodeSeat};
use paxos_packets::Body;
use replica_machine::Machine;
use std::mem;
use store_keeper::Keeper;

// Makes the events that were tried, in this order:
//
// 1. commits what they change, in one commit, or ends the actor with the store's fault, and keeps the change and the events for a restart;
// 2. takes their steps at the table, one after another;
// 3. puts their packets into the outboxes, and makes the machine follow what they applied, event by event; appends what it says, or ends the actor
//    with `Memory`.
//
// So nothing of an event is seen before all of them are committed. None is tried then.
pub(crate) fn flush<M: Machine, K: Keeper<M::Body>>(
    mail: &Mail<M::Body>,
    seat: &mut NodeSeat<M::Body>,
    parts: &mut Parts<M, K>,
    staged: &mut Staged<M::Body>,
    says: &mut Vec<M::Say>,
) -> Result<(), ActorFault<M::Say>>
    requires owned { Owns mail.now seat.old }
    requires trying { Trying M.Body.same K.holds K.is_failed parts.old seat.old staged.old }
    ensures owned { Owns mail.now seat.new }
    ensures sound { IsSound M.Body.same K.holds K.is_failed parts.new }
    ensures seated { IsSeated M.Body.same (acting parts.new seat.new) }
    ensures trying { OnOk result (Trying M.Body.same K.holds K.is_failed parts.new seat.new staged.new) }
    ensures none { OnOk result (staged.new.tried ≡ []) }
    ensures state { OnOk result (parts.new.node.state ≡ parts.old.node.state) }
    ensures stays { StaysAt seat.old seat.new }
    ensures who { StaysWho parts.old parts.new }
    ensures makes { MakesAll M.Body.same M.steps M.content M.loaded K.holds K.finds K.failures (events_in staged.old.tried)
        (acting_before parts.old seat.old) (acting parts.new seat.new) says.old.items says.new.items result }
{
    parts.limits(); // for the proof
    if staged.is_empty() {
        return Ok(());
    }
    if let Err(fault) = parts.commit_all(staged) {
        let tried = mem::replace(staged, parts.nothing_tried());
        parts.spoil_all(tried);
        return Err(ActorFault::Keeper(fault));
    }
    step_all(mail, seat, staged.tried());
    let made = mem::replace(staged, parts.nothing_tried());
    let Ok(()) = parts.take_over_all(made, says) else {
        parts.spoil();
        return Err(ActorFault::Memory);
    };
    Ok(())
}

// Takes the steps of these events at the table, one after another; the node's word counts each.
pub(crate) fn step_all<B: Body>(mail: &Mail<B>, seat: &mut NodeSeat<B>, tried: &[Tried<B>])
    requires owned { Owns mail.now seat.old }
    requires may { AreSteps B.same seat.old.members tried.now seat.old.part }
    requires counts { seat.old.part.events + length tried.now ≤ 2 ^ 62 }
    ensures owned { Owns mail.now seat.new }
    ensures advanced { seat.new ≡ advanced_all B.same tried.now seat.old }
{
    for one in tried {
        let _ = mail.advance_by(seat, &one.event, one.log); // not `Worn`, since the word counts all
    }
}
