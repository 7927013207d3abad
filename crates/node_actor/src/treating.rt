// How a round treats the packets of the other members.
ghost use Rattle.std.specs.Prelude.{◌≡◌, ◌==◌, ℕ, List, [], ◌∷◌, OnOk, OnErr, MatchResult, if◌then◌else◌};
ghost use Rattle.cluster_world.specs.Has.{Has};
ghost use Rattle.paxos_packets.specs.Members.{IsMember};
ghost use Rattle.paxos_packets.specs.declared.packet.Packet as packets;
ghost use Rattle.paxos_node.specs.declared.event.Event as events;
ghost use Rattle.actor_outboxes.specs.Outboxes.{IsPeer};
ghost use Rattle.actor_parts.specs.Parts.{IsSound};
ghost use Rattle.actor_parts.specs.Steps.{StaysWho};
ghost use Rattle.actor_parts.specs.Tried.{events_in};
ghost use Rattle.mail_table.specs.Boxes.{Received};
ghost use Rattle.mail_table.specs.Seats.{Owns};
ghost use Rattle.node_actor.specs.Actor.{Acting, acting, IsSeated};
ghost use Rattle.node_actor.specs.MidRound.{Amid, Ended};
ghost use Rattle.node_actor.specs.Rounds.{is_treated};
ghost use Rattle.node_actor.specs.Trying.{acting_before, Trying};
ghost use Rattle.node_actor.specs.Turns.{StaysAt};
ghost use Rattle.node_actor.specs.Views.{View};

use crate::event::is_for;
use crate::fetching::{after, fetch_all};
use crate::heard::heard_in;
use crate::hearing::{Hearing, Hearings};
use crate::making::{make_one, stop_here};
use actor_parts::{ActorFault, Parts, Staged};
use mail_table::{Batch, Mail, NodeSeat};
use paxos_node::Event;
use paxos_packets::{Body, Packet};
use replica_machine::Machine;
use store_keeper::Keeper;

// How many packets of one member a round treats before it looks no further into the member's box.
const PACKETS_OF_ONE: usize = 64;

// Treats the packets of each other member, one member after another from this one on.
pub(crate) fn treat_others<M: Machine, K: Keeper<M::Body>>(
    mail: &Mail<M::Body>,
    seat: &mut NodeSeat<M::Body>,
    parts: &mut Parts<M, K>,
    staged: &mut Staged<M::Body>,
    came: &mut Hearings,
    first: u8,
    says: &mut Vec<M::Say>,
) -> Result<(), ActorFault<M::Say>>
    requires owned { Owns mail.now seat.old }
    requires trying { Trying M.Body.same K.holds K.is_failed parts.old seat.old staged.old }
    requires first { IsMember parts.old.node.members first }
    ensures owned { Owns mail.now seat.new }
    ensures trying { OnOk result (Trying M.Body.same K.holds K.is_failed parts.new seat.new staged.new) }
    ensures sound { OnErr result (IsSound M.Body.same K.holds K.is_failed parts.new) }
    ensures seated { OnErr result (IsSeated M.Body.same (acting parts.new seat.new)) }
    ensures who { StaysWho parts.old parts.new }
    ensures treats { (own : List (events.Event M.Body)) (old : Acting M.Body M K) (view : View M.Body) (start : List M.Say)
        → Amid M.Body.same M.steps M.content M.loaded K.holds K.finds K.failures own old view start [] first []
        (events_in staged.old.tried) (acting_before parts.old seat.old) says.old.items came.old
        → MatchResult result
        (λ _. (at : List ℕ) × (last : ℕ) × ((k : ℕ) → IsPeer parts.old.node.me parts.old.node.members k → Has at k)
        × Amid M.Body.same M.steps M.content M.loaded K.holds K.finds K.failures own old view start at last []
        (events_in staged.new.tried) (acting_before parts.new seat.new) says.new.items came.new)
        (λ fault. Ended M.Body.same M.steps M.content M.loaded K.holds K.finds K.failures own old view start
        (acting parts.new seat.new) says.new.items fault) }
{
    let members = parts.members();
    let mut from = first;
    for _step in 0..members.count() {
        treat_other(mail, seat, parts, staged, came, from, says)?;
        from = after(members, from);
    }
    Ok(())
}

// Treats the packets of this member, if it is another.
fn treat_other<M: Machine, K: Keeper<M::Body>>(
    mail: &Mail<M::Body>,
    seat: &mut NodeSeat<M::Body>,
    parts: &mut Parts<M, K>,
    staged: &mut Staged<M::Body>,
    came: &mut Hearings,
    from: u8,
    says: &mut Vec<M::Say>,
) -> Result<(), ActorFault<M::Say>>
    requires owned { Owns mail.now seat.old }
    requires trying { Trying M.Body.same K.holds K.is_failed parts.old seat.old staged.old }
    requires member { IsMember parts.old.node.members from }
    ensures owned { Owns mail.now seat.new }
    ensures trying { OnOk result (Trying M.Body.same K.holds K.is_failed parts.new seat.new staged.new) }
    ensures sound { OnErr result (IsSound M.Body.same K.holds K.is_failed parts.new) }
    ensures seated { OnErr result (IsSeated M.Body.same (acting parts.new seat.new)) }
    ensures who { StaysWho parts.old parts.new }
    ensures treats { (own : List (events.Event M.Body)) (old : Acting M.Body M K) (view : View M.Body) (start : List M.Say) (at : List ℕ) (last : ℕ)
        → Amid M.Body.same M.steps M.content M.loaded K.holds K.finds K.failures own old view start at last []
        (events_in staged.old.tried) (acting_before parts.old seat.old) says.old.items came.old
        → MatchResult result
        (λ _. Amid M.Body.same M.steps M.content M.loaded K.holds K.finds K.failures own old view start
        (if from == parts.old.node.me then at else from ∷ at) from [] (events_in staged.new.tried) (acting_before parts.new seat.new)
        says.new.items came.new)
        (λ fault. Ended M.Body.same M.steps M.content M.loaded K.holds K.finds K.failures own old view start
        (acting parts.new seat.new) says.new.items fault) }
{
    if from == parts.me() {
        return Ok(());
    }
    treat_all_of(mail, seat, parts, staged, came, from, says)
}

// Treats the packets of a member: those of one look into its box, and of further ones until one finds nothing or enough came.
fn treat_all_of<M: Machine, K: Keeper<M::Body>>(
    mail: &Mail<M::Body>,
    seat: &mut NodeSeat<M::Body>,
    parts: &mut Parts<M, K>,
    staged: &mut Staged<M::Body>,
    came: &mut Hearings,
    from: u8,
    says: &mut Vec<M::Say>,
) -> Result<(), ActorFault<M::Say>>
    requires owned { Owns mail.now seat.old }
    requires trying { Trying M.Body.same K.holds K.is_failed parts.old seat.old staged.old }
    requires peer { IsPeer parts.old.node.me parts.old.node.members from }
    ensures owned { Owns mail.now seat.new }
    ensures trying { OnOk result (Trying M.Body.same K.holds K.is_failed parts.new seat.new staged.new) }
    ensures sound { OnErr result (IsSound M.Body.same K.holds K.is_failed parts.new) }
    ensures seated { OnErr result (IsSeated M.Body.same (acting parts.new seat.new)) }
    ensures who { StaysWho parts.old parts.new }
    ensures treats { (own : List (events.Event M.Body)) (old : Acting M.Body M K) (view : View M.Body) (start : List M.Say) (at : List ℕ) (last : ℕ)
        → Amid M.Body.same M.steps M.content M.loaded K.holds K.finds K.failures own old view start at last []
        (events_in staged.old.tried) (acting_before parts.old seat.old) says.old.items came.old
        → MatchResult result
        (λ _. Amid M.Body.same M.steps M.content M.loaded K.holds K.finds K.failures own old view start (from ∷ at) from []
        (events_in staged.new.tried) (acting_before parts.new seat.new) says.new.items came.new)
        (λ fault. Ended M.Body.same M.steps M.content M.loaded K.holds K.finds K.failures own old view start
        (acting parts.new seat.new) says.new.items fault) }
{
    let mut room = PACKETS_OF_ONE;
    'looks: while room > 0 {
        let found = look_into(mail, seat, parts, staged, came, from, says)?;
        if found == 0 {
            return Ok(());
        }
        room = room.saturating_sub(found);
    }
    Ok(())
}

// Looks into the box of a member and treats the packets that it finds. Returns how many there were.
fn look_into<M: Machine, K: Keeper<M::Body>>(
    mail: &Mail<M::Body>,
    seat: &mut NodeSeat<M::Body>,
    parts: &mut Parts<M, K>,
    staged: &mut Staged<M::Body>,
    came: &mut Hearings,
    from: u8,
    says: &mut Vec<M::Say>,
) -> Result<usize, ActorFault<M::Say>>
    requires owned { Owns mail.now seat.old }
    requires trying { Trying M.Body.same K.holds K.is_failed parts.old seat.old staged.old }
    requires peer { IsPeer parts.old.node.me parts.old.node.members from }
    ensures owned { Owns mail.now seat.new }
    ensures trying { OnOk result (Trying M.Body.same K.holds K.is_failed parts.new seat.new staged.new) }
    ensures sound { OnErr result (IsSound M.Body.same K.holds K.is_failed parts.new) }
    ensures seated { OnErr result (IsSeated M.Body.same (acting parts.new seat.new)) }
    ensures who { StaysWho parts.old parts.new }
    ensures treats { (own : List (events.Event M.Body)) (old : Acting M.Body M K) (view : View M.Body) (start : List M.Say) (at : List ℕ) (last : ℕ)
        → Amid M.Body.same M.steps M.content M.loaded K.holds K.finds K.failures own old view start at last []
        (events_in staged.old.tried) (acting_before parts.old seat.old) says.old.items came.old
        → MatchResult result
        (λ _. Amid M.Body.same M.steps M.content M.loaded K.holds K.finds K.failures own old view start (from ∷ at) from []
        (events_in staged.new.tried) (acting_before parts.new seat.new) says.new.items came.new)
        (λ fault. Ended M.Body.same M.steps M.content M.loaded K.holds K.finds K.failures own old view start
        (acting parts.new seat.new) says.new.items fault) }
{
    let Some(batch) = fetch_all(mail, seat, from) else {
        return Ok(0);
    };
    let found = batch.len();
    treat_batch(mail, seat, parts, staged, came, from, batch, says)?;
    Ok(found)
}

// Treats the packets of a batch that came from a member, in order.
fn treat_batch<M: Machine, K: Keeper<M::Body>>(
    mail: &Mail<M::Body>,
    seat: &mut NodeSeat<M::Body>,
    parts: &mut Parts<M, K>,
    staged: &mut Staged<M::Body>,
    came: &mut Hearings,
    from: u8,
    batch: Batch<M::Body>,
    says: &mut Vec<M::Say>,
) -> Result<(), ActorFault<M::Say>>
    requires owned { Owns mail.now seat.old }
    requires trying { Trying M.Body.same K.holds K.is_failed parts.old seat.old staged.old }
    requires received { (p : packets.Packet M.Body) → Has batch p → Received seat.old.members seat.old.part (events.Event.Deliver p) }
    ensures owned { Owns mail.now seat.new }
    ensures trying { OnOk result (Trying M.Body.same K.holds K.is_failed parts.new seat.new staged.new) }
    ensures sound { OnErr result (IsSound M.Body.same K.holds K.is_failed parts.new) }
    ensures seated { OnErr result (IsSeated M.Body.same (acting parts.new seat.new)) }
    ensures who { StaysWho parts.old parts.new }
    ensures treats { (own : List (events.Event M.Body)) (old : Acting M.Body M K) (view : View M.Body) (start : List M.Say) (at : List ℕ)
        → Amid M.Body.same M.steps M.content M.loaded K.holds K.finds K.failures own old view start at from batch
        (events_in staged.old.tried) (acting_before parts.old seat.old) says.old.items came.old
        → MatchResult result
        (λ _. Amid M.Body.same M.steps M.content M.loaded K.holds K.finds K.failures own old view start at from []
        (events_in staged.new.tried) (acting_before parts.new seat.new) says.new.items came.new)
        (λ fault. Ended M.Body.same M.steps M.content M.loaded K.holds K.finds K.failures own old view start
        (acting parts.new seat.new) says.new.items fault) }
{
    let (packet, rest) = batch.into_parts();
    if let Err(fault) = treat(mail, seat, parts, staged, came, from, packet, says) {
        drop(rest);
        return Err(fault);
    }
    treat_each(mail, seat, parts, staged, came, from, rest, says)
}

// Treats packets that came from a member, in order.
fn treat_each<M: Machine, K: Keeper<M::Body>>(
    mail: &Mail<M::Body>,
    seat: &mut NodeSeat<M::Body>,
    parts: &mut Parts<M, K>,
    staged: &mut Staged<M::Body>,
    came: &mut Hearings,
    from: u8,
    rest: Vec<Packet<M::Body>>,
    says: &mut Vec<M::Say>,
) -> Result<(), ActorFault<M::Say>>
    requires owned { Owns mail.now seat.old }
    requires trying { Trying M.Body.same K.holds K.is_failed parts.old seat.old staged.old }
    requires received { (p : packets.Packet M.Body) → Has rest.items p → Received seat.old.members seat.old.part (events.Event.Deliver p) }
    ensures owned { Owns mail.now seat.new }
    ensures trying { OnOk result (Trying M.Body.same K.holds K.is_failed parts.new seat.new staged.new) }
    ensures sound { OnErr result (IsSound M.Body.same K.holds K.is_failed parts.new) }
    ensures seated { OnErr result (IsSeated M.Body.same (acting parts.new seat.new)) }
    ensures who { StaysWho parts.old parts.new }
    ensures treats { (own : List (events.Event M.Body)) (old : Acting M.Body M K) (view : View M.Body) (start : List M.Say) (at : List ℕ)
        → Amid M.Body.same M.steps M.content M.loaded K.holds K.finds K.failures own old view start at from rest.items
        (events_in staged.old.tried) (acting_before parts.old seat.old) says.old.items came.old
        → MatchResult result
        (λ _. Amid M.Body.same M.steps M.content M.loaded K.holds K.finds K.failures own old view start at from []
        (events_in staged.new.tried) (acting_before parts.new seat.new) says.new.items came.new)
        (λ fault. Ended M.Body.same M.steps M.content M.loaded K.holds K.finds K.failures own old view start
        (acting parts.new seat.new) says.new.items fault) }
{
    for packet in rest {
        treat(mail, seat, parts, staged, came, from, packet, says)?;
    }
    Ok(())
}

// Hands the packet to the node, unless it comes too late or is not for it, and notes what it showed.
fn treat<M: Machine, K: Keeper<M::Body>>(
    mail: &Mail<M::Body>,
    seat: &mut NodeSeat<M::Body>,
    parts: &mut Parts<M, K>,
    staged: &mut Staged<M::Body>,
    came: &mut Hearings,
    from: u8,
    packet: Packet<M::Body>,
    says: &mut Vec<M::Say>,
) -> Result<(), ActorFault<M::Say>>
    requires owned { Owns mail.now seat.old }
    requires trying { Trying M.Body.same K.holds K.is_failed parts.old seat.old staged.old }
    requires received { Received seat.old.members seat.old.part (events.Event.Deliver packet) }
    ensures owned { Owns mail.now seat.new }
    ensures trying { OnOk result (Trying M.Body.same K.holds K.is_failed parts.new seat.new staged.new) }
    ensures sound { OnErr result (IsSound M.Body.same K.holds K.is_failed parts.new) }
    ensures seated { OnErr result (IsSeated M.Body.same (acting parts.new seat.new)) }
    ensures stays { StaysAt seat.old seat.new }
    ensures who { StaysWho parts.old parts.new }
    ensures treats { (own : List (events.Event M.Body)) (old : Acting M.Body M K) (view : View M.Body) (start : List M.Say) (at : List ℕ)
        (left : List (packets.Packet M.Body))
        → Amid M.Body.same M.steps M.content M.loaded K.holds K.finds K.failures own old view start at from (packet ∷ left)
        (events_in staged.old.tried) (acting_before parts.old seat.old) says.old.items came.old
        → MatchResult result
        (λ _. Amid M.Body.same M.steps M.content M.loaded K.holds K.finds K.failures own old view start at from left
        (events_in staged.new.tried) (acting_before parts.new seat.new) says.new.items came.new)
        (λ fault. Ended M.Body.same M.steps M.content M.loaded K.holds K.finds K.failures own old view start
        (acting parts.new seat.new) says.new.items fault) }
{
    let heard = heard_in(&packet.kind);
    let Ok(()) = came.push(Hearing { from, heard }) else {
        drop(packet);
        return stop_here(mail, seat, parts, staged, says);
    };
    if !is_treated(parts, &packet) {
        drop(packet);
        return Ok(());
    }
    match make_one(mail, seat, parts, staged, Event::Deliver { packet }, says) {
        Ok(held) => {
            drop(held); // none, since a packet asks for no room
            Ok(())
        },
        Err(fault) => Err(fault),
    }
}

// Returns whether a round hands the packet to the node: it is for it, from another member, and does not come too late.
fn is_treated<M: Machine, K: Keeper<M::Body>>(parts: &Parts<M, K>, packet: &Packet<M::Body>) -> bool
    ensures { result ≡ is_treated parts.now.waiting.me parts.now.waiting.members packet.now parts.now.node.state }
{
    is_for(parts, packet) && !parts.is_late(packet)
}
