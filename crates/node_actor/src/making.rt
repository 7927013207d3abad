// How a round makes events: it tries each, to be made with others, and carries out alone what cannot be tried.
ghost use Rattle.std.specs.Prelude.{◌≡◌, ◌≤◌, ◌++◌, List, [], true, false, All, IfErr, IsErr, Ok, OnOk, OnErr, reverse, MatchResult, if◌then◌else◌};
ghost use Rattle.paxos_node.specs.Plans.{plans};
ghost use Rattle.paxos_node.specs.declared.event.Event as events;
ghost use Rattle.actor_parts.specs.Parts.{IsSound};
ghost use Rattle.actor_parts.specs.Steps.{OnlyNode, StaysWho};
ghost use Rattle.actor_parts.specs.Tried.{Tries, events_in};
ghost use Rattle.mail_table.specs.Boxes.{Received};
ghost use Rattle.mail_table.specs.Seats.{Owns};
ghost use Rattle.node_actor.specs.Actor.{Acting, acting, IsSeated};
ghost use Rattle.node_actor.specs.Calls.{is_cut, is_own};
ghost use Rattle.node_actor.specs.MidRound.{Ended, Heads, IsNext, MakesNext, MakesOne, MakesOwn};
ghost use Rattle.node_actor.specs.Rounds.{Look, came, held_own, made_in, made_own};
ghost use Rattle.node_actor.specs.Trying.{acting_before, Trying};
ghost use Rattle.node_actor.specs.Turns.{StaysAt};
ghost use Rattle.node_actor.specs.Views.{View, seen};

use crate::event::make_event;
use crate::flushing::flush;
use actor_parts::{ActorFault, Parts, Staged};
use mail_table::{MOST_EVENTS, Mail, NodeSeat};
use paxos_node::Event;
use paxos_packets::{Body, Memory};
use replica_machine::Machine;
use store_keeper::Keeper;

// Makes the own events, one after another. Returns those that are held back.
pub(crate) fn make_own<M: Machine, K: Keeper<M::Body>>(
    mail: &Mail<M::Body>,
    seat: &mut NodeSeat<M::Body>,
    parts: &mut Parts<M, K>,
    staged: &mut Staged<M::Body>,
    mut own: Vec<Event<M::Body>>,
    says: &mut Vec<M::Say>,
) -> Result<Vec<Event<M::Body>>, ActorFault<M::Say>>
    requires owned { Owns mail.now seat.old }
    requires trying { Trying M.Body.same K.holds K.is_failed parts.old seat.old staged.old }
    requires none { staged.old.tried ≡ [] }
    requires own { All (λ e. is_own parts.old.node.me e ≡ true) own.items }
    ensures owned { Owns mail.now seat.new }
    ensures trying { OnOk result (Trying M.Body.same K.holds K.is_failed parts.new seat.new staged.new) }
    ensures sound { OnErr result (IsSound M.Body.same K.holds K.is_failed parts.new) }
    ensures seated { OnErr result (IsSeated M.Body.same (acting parts.new seat.new)) }
    ensures who { StaysWho parts.old parts.new }
    ensures makes { MatchResult result
        (λ held. Heads M.Body.same M.steps M.content M.loaded K.holds K.finds K.failures (acting_before parts.old seat.old) seat.old says.old.items
        (made_own M.Body.same parts.old.node.members own.items seat.old.part.seen.node) (events_in staged.new.tried) []
        (acting_before parts.new seat.new) says.new.items
        × (held.items ≡ held_own M.Body.same parts.old.node.members own.items seat.old.part.seen.node))
        (λ fault. Ended M.Body.same M.steps M.content M.loaded K.holds K.finds K.failures own.items
        (acting_before parts.old seat.old) seat.old says.old.items (acting parts.new seat.new) says.new.items fault) }
{
    own.reverse();
    if let Err(fault) = make_all(mail, seat, parts, staged, &mut own, says) {
        drop(own);
        return Err(fault);
    }
    own.reverse();
    Ok(own)
}

// Makes the events of a list, from its end on, up to the first one for which there is no room. Leaves that and those before it in the list.
fn make_all<M: Machine, K: Keeper<M::Body>>(
    mail: &Mail<M::Body>,
    seat: &mut NodeSeat<M::Body>,
    parts: &mut Parts<M, K>,
    staged: &mut Staged<M::Body>,
    own: &mut Vec<Event<M::Body>>,
    says: &mut Vec<M::Say>,
) -> Result<(), ActorFault<M::Say>>
    requires owned { Owns mail.now seat.old }
    requires trying { Trying M.Body.same K.holds K.is_failed parts.old seat.old staged.old }
    requires none { staged.old.tried ≡ [] }
    requires own { All (λ e. is_own parts.old.node.me e ≡ true) own.old.items }
    ensures owned { Owns mail.now seat.new }
    ensures trying { OnOk result (Trying M.Body.same K.holds K.is_failed parts.new seat.new staged.new) }
    ensures sound { OnErr result (IsSound M.Body.same K.holds K.is_failed parts.new) }
    ensures seated { OnErr result (IsSeated M.Body.same (acting parts.new seat.new)) }
    ensures who { StaysWho parts.old parts.new }
    ensures makes { MatchResult result
        (λ u. MakesOwn M.Body.same M.steps M.content M.loaded K.holds K.finds K.failures (reverse own.old.items)
        (acting_before parts.old seat.old) says.old.items (events_in staged.new.tried) (acting_before parts.new seat.new) says.new.items
        (Ok u) (reverse own.new.items))
        (λ fault. Ended M.Body.same M.steps M.content M.loaded K.holds K.finds K.failures (reverse own.old.items)
        (acting_before parts.old seat.old) seat.old says.old.items (acting parts.new seat.new) says.new.items fault) }
{
    parts.limits(); // for the proof
    while let Some(event) = own.pop() {
        match make_one(mail, seat, parts, staged, event, says) {
            Ok(None) => {},
            Ok(Some(event)) => {
                own.push_reserved(event);
                return Ok(());
            },
            Err(fault) => return Err(fault),
        }
    }
    Ok(())
}

// Makes an event: tries it, to be made with others; or makes all that were tried, and then this one alone. Returns the event, if there is no room
// for it. One for which no round is left is passed over.
pub(crate) fn make_one<M: Machine, K: Keeper<M::Body>>(
    mail: &Mail<M::Body>,
    seat: &mut NodeSeat<M::Body>,
    parts: &mut Parts<M, K>,
    staged: &mut Staged<M::Body>,
    event: Event<M::Body>,
    says: &mut Vec<M::Say>,
) -> Result<Option<Event<M::Body>>, ActorFault<M::Say>>
    requires owned { Owns mail.now seat.old }
    requires trying { Trying M.Body.same K.holds K.is_failed parts.old seat.old staged.old }
    requires own { plans parts.old.node.me event parts.old.node.state ≡ true }
    requires other { is_cut event ≡ false }
    requires received { Received seat.old.members seat.old.part event }
    ensures owned { Owns mail.now seat.new }
    ensures trying { OnOk result (Trying M.Body.same K.holds K.is_failed parts.new seat.new staged.new) }
    ensures sound { OnErr result (IsSound M.Body.same K.holds K.is_failed parts.new) }
    ensures seated { OnErr result (IsSeated M.Body.same (acting parts.new seat.new)) }
    ensures stays { StaysAt seat.old seat.new }
    ensures who { StaysWho parts.old parts.new }
    ensures makes { (own rest : List (events.Event M.Body)) (old : Acting M.Body M K) (view : View M.Body) (start : List M.Say)
        (all : List (events.Event M.Body)) (looks : List (Look M.Body)) → old.spoiled ≡ false → (seen view).node.up ≡ true
        → Heads M.Body.same M.steps M.content M.loaded K.holds K.finds K.failures old view start all (events_in staged.old.tried) looks
        (acting_before parts.old seat.old) says.old.items
        → IsNext M.Body.same M.steps M.content M.loaded K.holds K.finds K.failures event own all rest looks old view
        → MatchResult result
        (λ held. MakesNext M.Body.same M.steps M.content M.loaded K.holds K.finds K.failures event own old view start all looks
        (events_in staged.new.tried) (acting_before parts.new seat.new) says.new.items (Ok held))
        (λ fault. Ended M.Body.same M.steps M.content M.loaded K.holds K.finds K.failures own old view start
        (acting parts.new seat.new) says.new.items fault) }
{
    let event = match try_one(seat, parts, staged, event) {
        Ok(()) => return Ok(None),
        Err(event) => event,
    };
    if let Err(fault) = flush(mail, seat, parts, staged, says) {
        drop(event);
        return Err(fault);
    }
    let Err(fault) = make_alone(mail, seat, parts, &event, says) else {
        *staged = parts.nothing_tried();
        drop(event);
        return Ok(None);
    };
    if let ActorFault::Full = fault {
        drop(fault);
        return Ok(Some(event));
    }
    drop(event);
    Err(fault)
}

// Makes all that were tried, and ends the actor with `Memory`.
pub(crate) fn stop_here<M: Machine, K: Keeper<M::Body>>(
    mail: &Mail<M::Body>,
    seat: &mut NodeSeat<M::Body>,
    parts: &mut Parts<M, K>,
    staged: &mut Staged<M::Body>,
    says: &mut Vec<M::Say>,
) -> Result<(), ActorFault<M::Say>>
    requires owned { Owns mail.now seat.old }
    requires trying { Trying M.Body.same K.holds K.is_failed parts.old seat.old staged.old }
    ensures owned { Owns mail.now seat.new }
    ensures sound { IsSound M.Body.same K.holds K.is_failed parts.new }
    ensures seated { IsSeated M.Body.same (acting parts.new seat.new) }
    ensures stays { StaysAt seat.old seat.new }
    ensures who { StaysWho parts.old parts.new }
    ensures err { IsErr result }
    ensures ends { (own rest : List (events.Event M.Body)) (old : Acting M.Body M K) (view : View M.Body) (start : List M.Say)
        (all : List (events.Event M.Body)) (looks : List (Look M.Body)) → old.spoiled ≡ false
        → Heads M.Body.same M.steps M.content M.loaded K.holds K.finds K.failures old view start all (events_in staged.old.tried) looks
        (acting_before parts.old seat.old) says.old.items
        → all ++ rest ≡ made_in M.Body.same old.node.members old.node.me own (came looks) (seen view)
        → IfErr result (λ fault. Ended M.Body.same M.steps M.content M.loaded K.holds K.finds K.failures own old view start
        (acting parts.new seat.new) says.new.items fault) }
{
    if let Err(fault) = flush(mail, seat, parts, staged, says) {
        return Err(fault);
    }
    parts.spoil();
    Err(ActorFault::Memory)
}

// Tries an event, if the node's word can count it with those that were tried. Returns the event if it is to be carried out alone.
fn try_one<M: Machine, K: Keeper<M::Body>>(
    seat: &NodeSeat<M::Body>,
    parts: &mut Parts<M, K>,
    staged: &mut Staged<M::Body>,
    event: Event<M::Body>,
) -> Result<(), Event<M::Body>>
    requires trying { Trying M.Body.same K.holds K.is_failed parts.old seat.now staged.old }
    requires own { plans parts.old.node.me event parts.old.node.state ≡ true }
    requires received { Received seat.now.members seat.now.part event }
    ensures trying { Trying M.Body.same K.holds K.is_failed parts.new seat.now staged.new }
    ensures ok { OnOk result (Tries M.Body.same parts.old.node.me parts.old.node.members event parts.old parts.new staged.old staged.new) }
    ensures err { IfErr result (λ back. (back ≡ event) × (staged.new ≡ staged.old) × (parts.new.node.state ≡ parts.old.node.state)) }
    ensures me { parts.new.node.me ≡ parts.old.node.me }
    ensures members { parts.new.node.members ≡ parts.old.node.members }
    ensures rest { OnlyNode parts.old parts.new }
{
    if seat.events().saturating_add(staged.len() as u64) >= MOST_EVENTS {
        return Err(event);
    }
    parts.try_event(event, staged)
}

// Carries an event out alone and appends what it says. One for which no round is left is passed over.
fn make_alone<M: Machine, K: Keeper<M::Body>>(
    mail: &Mail<M::Body>,
    seat: &mut NodeSeat<M::Body>,
    parts: &mut Parts<M, K>,
    event: &Event<M::Body>,
    says: &mut Vec<M::Say>,
) -> Result<(), ActorFault<M::Say>>
    requires owned { Owns mail.now seat.old }
    requires sound { IsSound M.Body.same K.holds K.is_failed parts.old }
    requires seated { IsSeated M.Body.same (acting parts.old seat.old) }
    requires serving { parts.old.spoiled ≡ false }
    requires own { plans parts.old.node.me event.now parts.old.node.state ≡ true }
    requires other { is_cut event.now ≡ false }
    requires received { Received seat.old.members seat.old.part event.now }
    ensures owned { Owns mail.now seat.new }
    ensures sound { IsSound M.Body.same K.holds K.is_failed parts.new }
    ensures seated { IsSeated M.Body.same (acting parts.new seat.new) }
    ensures stays { StaysAt seat.old seat.new }
    ensures who { StaysWho parts.old parts.new }
    ensures counts { K.failures parts.old.keeper ≤ K.failures parts.new.keeper }
    ensures makes { MakesOne M.Body.same M.steps M.content M.loaded K.holds K.finds K.failures event.now
        (acting parts.old seat.old) (acting parts.new seat.new) says.old.items says.new.items result }
{
    match make_event(mail, seat, parts, event) {
        Ok(more) => {
            let Ok(()) = append(says, more) else {
                parts.spoil();
                return Err(ActorFault::Memory);
            };
            Ok(())
        },
        Err(ActorFault::LostHere(more)) => {
            let Ok(()) = append(says, more) else {
                return Err(ActorFault::Memory);
            };
            Err(ActorFault::LostHere(parts.silence()))
        },
        Err(ActorFault::Rounds) => Ok(()),
        Err(ActorFault::Full) => Err(ActorFault::Full),
        Err(ActorFault::Failed) => Err(ActorFault::Failed),
        Err(ActorFault::Keeper(fault)) => Err(ActorFault::Keeper(fault)),
        Err(ActorFault::Disagree) => Err(ActorFault::Disagree),
        Err(ActorFault::Worn) => Err(ActorFault::Worn),
        Err(ActorFault::Memory) => Err(ActorFault::Memory),
    }
}

// Appends elements to a list. `Memory` if memory runs out, which leaves the list as it is.
fn append<T: Drop>(list: &mut Vec<T>, mut more: Vec<T>) -> Result<(), Memory>
    ensures ok { OnOk result (list.new.items ≡ list.old.items ++ more.items) }
    ensures err { OnErr result (list.new.items ≡ list.old.items) }
{
    let Ok(()) = list.append(&mut more) else {
        return Err(Memory);
    };
    Ok(())
}
