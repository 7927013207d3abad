// One event of an actor, from its plan to what the machine says.
ghost use Rattle.std.specs.Prelude.{◌≡◌, ◌<◌, ◌≤◌, ◌^◌, ◌++◌, [], List, length, true, false, Some, None, Ok, Err, is_some, IfOk, OnOk, IfSome};
ghost use Rattle.paxos_node.specs.Adopting.{Fits, Planned};
ghost use Rattle.paxos_node.specs.Held.{HasRoom};
ghost use Rattle.paxos_node.specs.Plans.{plans};
ghost use Rattle.paxos_node.specs.Snapshots.{may_cut};
ghost use Rattle.paxos_node.specs.declared.event.Event.TheVariants.{Cut};
ghost use Rattle.paxos_packets.specs.declared.entry.Entry.{Entry};
ghost use Rattle.paxos_packets.specs.declared.packet.Packet as packets;
ghost use Rattle.replica_machine.specs.Given.{AreGiven};
ghost use Rattle.replica_machine.specs.Log.{IsLogOf, length_in, machine_from};
ghost use Rattle.cluster_world.specs.MemberSnapshots.{own_cut, LoadsSaved};
ghost use Rattle.actor_parts.specs.Parts.{IsPlan, IsSound};
ghost use Rattle.actor_parts.specs.Snapshots.{base_log, is_no_log, unboxed, IsBase};
ghost use Rattle.actor_parts.specs.Steps.{StaysWho, IsAtEnd, TakesIn};
ghost use Rattle.mail_table.specs.Boxes.{Follows, Received};
ghost use Rattle.mail_table.specs.Seats.{Owns};
ghost use Rattle.node_actor.specs.Actor.{acting, IsSeated};
ghost use Rattle.node_actor.specs.Posts.{advanced};
ghost use Rattle.node_actor.specs.Calls.{Acts, ActsWith, Cuts, Rests, is_cut, turn_event};
ghost use Rattle.node_actor.specs.MidRound.{SeatGoes};
ghost use Rattle.node_actor.specs.Steps.{CarriesOn, CarriesOut, fault_without_plan, may_advance};
ghost use Rattle.node_actor.specs.Turns.{Reaches, ReachesWith, StaysAt};
ghost use Rattle.node_actor.specs.Views.{View, is_for};

use actor_parts::{ActorFault, Parts};
use mail_table::{Mail, NodeSeat};
use paxos_node::{Event, NodeFault, Outcome};
use paxos_packets::{Body, Memory, Packet};
use replica_machine::{AppliedLog, LoadFault, Machine};
use store_keeper::Keeper;

// Plans the event of this node, which is no cut, and carries it out, unless it is refused.
pub(crate) fn make_event<M: Machine, K: Keeper<M::Body>>(
    mail: &Mail<M::Body>,
    seat: &mut NodeSeat<M::Body>,
    parts: &mut Parts<M, K>,
    event: &Event<M::Body>,
) -> Result<Vec<M::Say>, ActorFault<M::Say>>
    requires owned { Owns mail.now seat.old }
    requires sound { IsSound M.Body.same K.holds K.is_failed parts.old }
    requires seated { IsSeated M.Body.same (acting parts.old seat.old) }
    requires own { parts.old.spoiled ≡ false → plans parts.old.node.me event.now parts.old.node.state ≡ true }
    requires other { is_cut event.now ≡ false }
    requires received { Received seat.old.members seat.old.part event.now }
    ensures owned { Owns mail.now seat.new }
    ensures sound { IsSound M.Body.same K.holds K.is_failed parts.new }
    ensures seated { IsSeated M.Body.same (acting parts.new seat.new) }
    ensures stays { StaysAt seat.old seat.new }
    ensures who { StaysWho parts.old parts.new }
    ensures counts { K.failures parts.old.keeper ≤ K.failures parts.new.keeper }
    ensures seat { parts.old.spoiled ≡ false → SeatGoes M.Body.same parts.old.node.members event.now seat.old seat.new result }
    ensures acts { (got : List (packets.Packet M.Body)) (view : View M.Body) → ReachesWith got parts.old.spoiled (Some event.now) view seat.old →
        ActsWith M.Body.same M.steps M.content M.loaded K.holds K.finds K.failures got (Some event.now)
        (acting parts.old view) (acting parts.new seat.new) view result }
{
    if parts.is_spoiled() {
        return Err(ActorFault::Failed);
    }
    parts.limits(); // for the proof
    match parts.plan(event) {
        Ok(outcome) => carry_on(mail, seat, parts, outcome),
        Err(NodeFault::Rounds) => Err(ActorFault::Rounds),
        Err(NodeFault::Full) => Err(ActorFault::Full),
        Err(NodeFault::Disagree) => {
            parts.spoil();
            Err(ActorFault::Disagree)
        },
        Err(NodeFault::Memory) => Err(stop(seat, parts)),
    }
}

// Ends the actor, since memory ran out before an event was carried out. Returns why the event is not taken.
fn stop<M: Machine, K: Keeper<M::Body>>(
    seat: &NodeSeat<M::Body>,
    parts: &mut Parts<M, K>,
) -> ActorFault<M::Say>
    ensures fault { result ≡ fault_without_plan seat.now }
    ensures spoiled { parts.new ≡ record parts.old { spoiled = true } }
{
    let fault = fault_without_plan(seat);
    parts.spoil();
    fault
}

// Returns why an event is not taken if memory ran out before it was carried out: `Worn` if the node's word counts no event more.
fn fault_without_plan<B: Body, Y>(seat: &NodeSeat<B>) -> ActorFault<Y>
    ensures { result ≡ fault_without_plan seat.now }
{
    if seat.may_advance() {
        ActorFault::Memory
    } else {
        ActorFault::Worn
    }
}

// Makes no event: returns no sayings, or that a fault has ended the actor.
pub(crate) fn pass<M: Machine, K: Keeper<M::Body>>(
    seat: &NodeSeat<M::Body>,
    parts: &Parts<M, K>,
) -> Result<Vec<M::Say>, ActorFault<M::Say>>
    requires sound { IsSound M.Body.same K.holds K.is_failed parts.now }
    requires seated { IsSeated M.Body.same (acting parts.now seat.now) }
    ensures acts { (view : View M.Body) → Reaches parts.now.spoiled None view seat.now →
        Acts M.Body.same M.steps M.content M.loaded K.holds K.finds K.failures None
        (acting parts.now view) (acting parts.now seat.now) view result }
    ensures rests { Rests (acting parts.now seat.now) (acting parts.now seat.now) result }
{
    let _ = seat; // for the proof
    if parts.is_spoiled() {
        return Err(ActorFault::Failed);
    }
    parts.limits(); // for the proof
    Ok(parts.silence())
}

// Makes a cut: the node rests on what its machine's log is saved as, if entries are applied above the floor; else it makes no event.
pub(crate) fn make_cut<M: Machine, K: Keeper<M::Body>>(
    mail: &Mail<M::Body>,
    seat: &mut NodeSeat<M::Body>,
    parts: &mut Parts<M, K>,
) -> Result<Vec<M::Say>, ActorFault<M::Say>>
    requires owned { Owns mail.now seat.old }
    requires sound { IsSound M.Body.same K.holds K.is_failed parts.old }
    requires seated { IsSeated M.Body.same (acting parts.old seat.old) }
    ensures owned { Owns mail.now seat.new }
    ensures sound { IsSound M.Body.same K.holds K.is_failed parts.new }
    ensures seated { IsSeated M.Body.same (acting parts.new seat.new) }
    ensures stays { StaysAt seat.old seat.new }
    ensures who { StaysWho parts.old parts.new }
    ensures cuts { (view : View M.Body) →
        Reaches parts.old.spoiled (Some (Cut parts.old.node.me (own_cut M.saved M.content parts.old.log))) view seat.old →
        Cuts M.Body.same M.steps M.content M.loaded K.holds K.finds K.failures (own_cut M.saved M.content parts.old.log)
        (acting parts.old view) (acting parts.new seat.new) view result }
    ensures rests { parts.old.node.state.applied ≡ [] → Rests (acting parts.old seat.old) (acting parts.new seat.new) result }
    ensures brings { (first : M.Content) (under : List (Entry M.Body)) → IsLogOf M.steps M.content first under parts.old.log
        → AreGiven (under ++ parts.old.log.applied)
        → OnOk result (0 < length parts.old.log.applied → LoadsSaved M.saved M.loaded (machine_from M.steps first) (under ++ parts.old.log.applied)) }
    ensures loads { (first : M.Content) (under : List (Entry M.Body)) → IsLogOf M.steps M.content first under parts.old.log
        → M.is_sound first → AreGiven (under ++ parts.old.log.applied)
        → OnOk result (0 < length parts.old.log.applied → is_no_log M.loaded (own_cut M.saved M.content parts.old.log) ≡ false) }
{
    if parts.is_spoiled() {
        return Err(ActorFault::Failed);
    }
    if !parts.has_applied() {
        return pass(seat, parts);
    }
    parts.limits(); // for the proof
    parts.fits_slots(); // for the proof
    let Ok(planned) = plan_cut(parts) else {
        return Err(stop(seat, parts));
    };
    match planned {
        None => pass(seat, parts),
        Some(outcome) => carry_out(mail, seat, parts, outcome, None),
    }
}

// Plans that the node, which is up, rests on what its machine's log is saved as; `None` if that is no snapshot of its log.
fn plan_cut<M: Machine, K: Keeper<M::Body>>(
    parts: &Parts<M, K>,
) -> Result<Option<Outcome<M::Body>>, Memory>
    requires up { parts.now.node.state.up ≡ true }
    ensures planned { IfOk result (λ plan. IfSome plan (λ outcome. Planned M.Body.same parts.now.node.members
        (Cut parts.now.node.me (own_cut M.saved M.content parts.now.log)) parts.now.node.state outcome)) }
    ensures exactly { IfOk result (λ plan. is_some plan ≡ may_cut (own_cut M.saved M.content parts.now.log) parts.now.node.state) }
    ensures rests { IfOk result (λ plan. IfSome plan (λ outcome.
        outcome.change.snapshot ≡ own_cut M.saved M.content parts.now.log)) }
    ensures brings { (first : M.Content) (under : List (Entry M.Body)) → IsLogOf M.steps M.content first under parts.now.log
        → AreGiven (under ++ parts.now.log.applied) → length_in parts.now.log < 2 ^ 40
        → OnOk result (LoadsSaved M.saved M.loaded (machine_from M.steps first) (under ++ parts.now.log.applied)) }
    ensures loads { (first : M.Content) (under : List (Entry M.Body)) → IsLogOf M.steps M.content first under parts.now.log
        → M.is_sound first → AreGiven (under ++ parts.now.log.applied) → length_in parts.now.log < 2 ^ 40
        → OnOk result (is_no_log M.loaded (own_cut M.saved M.content parts.now.log) ≡ false) }
{
    let Ok(octets) = parts.save() else {
        return Err(Memory);
    };
    let planned = parts.plan_cut(&octets);
    drop(octets);
    planned
}

// Hands the packet to the node, if it is for it, from another member.
pub(crate) fn deliver<M: Machine, K: Keeper<M::Body>>(
    mail: &Mail<M::Body>,
    seat: &mut NodeSeat<M::Body>,
    parts: &mut Parts<M, K>,
    packet: Packet<M::Body>,
) -> Result<Vec<M::Say>, ActorFault<M::Say>>
    requires owned { Owns mail.now seat.old }
    requires sound { IsSound M.Body.same K.holds K.is_failed parts.old }
    requires seated { IsSeated M.Body.same (acting parts.old seat.old) }
    requires received { Received seat.old.members seat.old.part (Event.Deliver packet) }
    ensures owned { Owns mail.now seat.new }
    ensures sound { IsSound M.Body.same K.holds K.is_failed parts.new }
    ensures seated { IsSeated M.Body.same (acting parts.new seat.new) }
    ensures stays { StaysAt seat.old seat.new }
    ensures who { StaysWho parts.old parts.new }
    ensures acts { (view : View M.Body) →
        Reaches parts.old.spoiled (turn_event parts.old.node.me parts.old.node.members (Some packet)) view seat.old →
        Acts M.Body.same M.steps M.content M.loaded K.holds K.finds K.failures
        (turn_event parts.old.node.me parts.old.node.members (Some packet))
        (acting parts.old view) (acting parts.new seat.new) view result }
{
    if !is_for(parts, &packet) {
        drop(packet);
        return pass(seat, parts);
    }
    let delivered = Event::Deliver { packet };
    let done = make_event(mail, seat, parts, &delivered);
    drop(delivered);
    done
}

// Returns whether the packet is for this node, from another member.
pub(crate) fn is_for<M: Machine, K: Keeper<M::Body>>(
    parts: &Parts<M, K>,
    packet: &Packet<M::Body>,
) -> bool
    ensures { result ≡ is_for parts.now.waiting.me parts.now.waiting.members packet.now }
{
    packet.addressee == parts.me()
        && parts.members().contains(packet.sender)
        && !(packet.sender == parts.me())
}

// Carries out the outcome of a planned event, which is no cut: if its node takes a snapshot, the machine is made of that first, or the actor ends
// with `Disagree` if no log is made of it, and with `Memory`.
fn carry_on<M: Machine, K: Keeper<M::Body>>(
    mail: &Mail<M::Body>,
    seat: &mut NodeSeat<M::Body>,
    parts: &mut Parts<M, K>,
    outcome: Outcome<M::Body>,
) -> Result<Vec<M::Say>, ActorFault<M::Say>>
    requires owned { Owns mail.now seat.old }
    requires sound { IsSound M.Body.same K.holds K.is_failed parts.old }
    requires seated { IsSeated M.Body.same (acting parts.old seat.old) }
    requires serving { parts.old.spoiled ≡ false }
    requires plan { IsPlan M.Body.same parts.old.node.me parts.old.node.members parts.old.node.state outcome }
    requires follows { Follows M.Body.same seat.old.members seat.old.part outcome }
    ensures owned { Owns mail.now seat.new }
    ensures sound { IsSound M.Body.same K.holds K.is_failed parts.new }
    ensures seated { IsSeated M.Body.same (acting parts.new seat.new) }
    ensures stays { StaysAt seat.old seat.new }
    ensures who { StaysWho parts.old parts.new }
    ensures counts { K.failures parts.old.keeper ≤ K.failures parts.new.keeper }
    ensures did { CarriesOn M.steps M.content K.holds K.finds K.failures M.loaded outcome
        (acting parts.old seat.old) (acting parts.new seat.new) result }
{
    match parts.load(&outcome) {
        Ok(made) => carry_out(mail, seat, parts, outcome, made),
        Err(LoadFault::Damaged) => {
            parts.spoil();
            drop(outcome);
            Err(ActorFault::Disagree)
        },
        Err(LoadFault::Memory) => {
            drop(outcome);
            Err(stop(seat, parts))
        },
    }
}

// Carries out the outcome of a planned event, in this order:
//
// 1. sees that the node's word can count one event more, or ends the actor with `Worn`;
// 2. allocates what adopting it needs, or ends the actor with `Memory`;
// 3. commits what it changes, or ends the actor with the store's fault, and keeps the outcome for a restart;
// 4. takes the step at the table;
// 5. lets the machine go on from the log that was made of the snapshot which the node takes, or cuts its log if the node rests on a snapshot of
//    that;
// 6. adopts it in the node;
// 7. puts its packets into the outboxes;
// 8. makes the machine follow what was applied, and returns what it says, or ends the actor with `Memory`, or with `LostHere` if the node is
//    down then.
//
// So nothing of an event is seen before it is committed.
fn carry_out<M: Machine, K: Keeper<M::Body>>(
    mail: &Mail<M::Body>,
    seat: &mut NodeSeat<M::Body>,
    parts: &mut Parts<M, K>,
    outcome: Outcome<M::Body>,
    made: Option<Box<AppliedLog<M>>>,
) -> Result<Vec<M::Say>, ActorFault<M::Say>>
    requires owned { Owns mail.now seat.old }
    requires sound { IsSound M.Body.same K.holds K.is_failed parts.old }
    requires seated { IsSeated M.Body.same (acting parts.old seat.old) }
    requires serving { parts.old.spoiled ≡ false }
    requires plan { IsPlan M.Body.same parts.old.node.me parts.old.node.members parts.old.node.state outcome }
    requires follows { Follows M.Body.same seat.old.members seat.old.part outcome }
    requires base { IsBase outcome parts.old.node.state (base_log (unboxed made) outcome.change.snapshot parts.old.log) }
    ensures owned { Owns mail.now seat.new }
    ensures sound { IsSound M.Body.same K.holds K.is_failed parts.new }
    ensures seated { IsSeated M.Body.same (acting parts.new seat.new) }
    ensures stays { StaysAt seat.old seat.new }
    ensures who { StaysWho parts.old parts.new }
    ensures counts { K.failures parts.old.keeper ≤ K.failures parts.new.keeper }
    ensures did { CarriesOut M.steps M.content K.holds K.finds K.failures (base_log (unboxed made) outcome.change.snapshot parts.old.log) outcome
        (acting parts.old seat.old) (acting parts.new seat.new) result }
{
    if !seat.may_advance() {
        parts.spoil();
        drop(outcome);
        drop(made);
        return Err(ActorFault::Worn);
    }
    let Ok(()) = parts.make_room(&outcome) else {
        parts.spoil();
        drop(outcome);
        drop(made);
        return Err(ActorFault::Memory);
    };
    match parts.commit(&outcome) {
        Err(fault) => {
            parts.spoil_at(outcome);
            drop(made);
            Err(ActorFault::Keeper(fault))
        },
        Ok(()) => {
            step(mail, seat, &outcome);
            parts.go_from(&outcome, made);
            parts.take_over(outcome)
        },
    }
}

// Takes the step of this outcome at the table; the node's word counts one event more.
fn step<B: Body>(mail: &Mail<B>, seat: &mut NodeSeat<B>, outcome: &Outcome<B>)
    requires owned { Owns mail.now seat.old }
    requires follows { Follows B.same seat.old.members seat.old.part outcome.now }
    requires may { may_advance seat.old ≡ true }
    ensures owned { Owns mail.now seat.new }
    ensures advanced { seat.new ≡ advanced outcome.now seat.old }
{
    let _ = mail.advance(seat, outcome); // not `Worn`, since `may_advance`
}
