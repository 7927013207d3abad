// A round: makes the node's own events, then treats the packets of the other members, and then posts what waits.
ghost use Rattle.std.specs.Prelude.{◌≡◌, ◌≤◌, ◌==◌, ◌++◌, List, length, true, false, All, MatchBool, MatchResult};
ghost use Rattle.cluster_world.specs.Has.{Has};
ghost use Rattle.paxos_packets.specs.Members.{IsMember};
ghost use Rattle.paxos_packets.specs.declared.packet.Packet as packets;
ghost use Rattle.actor_parts.specs.Parts.{IsSound};
ghost use Rattle.actor_parts.specs.Steps.{StaysWho};
ghost use Rattle.mail_table.specs.Boxes.{AreTo};
ghost use Rattle.mail_table.specs.Seats.{Owns, knows};
ghost use Rattle.mail_table.specs.Views.{box_of, lost, posting_all};
ghost use Rattle.node_actor.specs.Actor.{acting, acting_since, IsSeated};
ghost use Rattle.node_actor.specs.Calls.{is_own};
ghost use Rattle.node_actor.specs.Rounds.{PostsEach, PostsTogether, RoundOf};

use crate::fetching::after;
use crate::flushing::flush;
use crate::making::make_own;
use crate::posting::note_post;
use crate::treating::treat_others;
use crate::turning::LastTurn;
use actor_parts::{ActorFault, Parts};
use mail_table::{Batch, Mail, NodeSeat};
use paxos_node::Event;
use paxos_packets::{Body, NodeSet, Packet};
use replica_machine::Machine;
use store_keeper::Keeper;

// Takes a round. It fetches from the member `first` on, and the next round from the member after it.
pub(crate) fn round<M: Machine, K: Keeper<M::Body>>(
    mail: &Mail<M::Body>,
    seat: &mut NodeSeat<M::Body>,
    parts: &mut Parts<M, K>,
    first: &mut u8,
    last: &mut LastTurn,
    own: Vec<Event<M::Body>>,
    says: &mut Vec<M::Say>,
) -> Result<Vec<Event<M::Body>>, ActorFault<M::Say>>
    requires owned { Owns mail.now seat.old }
    requires sound { IsSound M.Body.same K.holds K.is_failed parts.old }
    requires seated { IsSeated M.Body.same (acting parts.old seat.old) }
    requires first { IsMember parts.old.node.members first.old }
    requires own { All (λ e. is_own parts.old.node.me e ≡ true) own.items }
    ensures owned { Owns mail.now seat.new }
    ensures sound { IsSound M.Body.same K.holds K.is_failed parts.new }
    ensures seated { IsSeated M.Body.same (acting parts.new seat.new) }
    ensures first { IsMember parts.new.node.members first.new }
    ensures who { StaysWho parts.old parts.new }
    ensures rounds { (said : List M.Say) × (says.new.items ≡ says.old.items ++ said)
        × RoundOf M.Body.same M.steps M.content M.loaded K.holds K.finds K.failures own.items
        (acting_since last.old parts.old seat.old) (acting_since last.new parts.new seat.new) seat.old said result }
{
    if parts.is_spoiled() {
        drop(own);
        return Err(ActorFault::Failed);
    }
    last.begin_round();
    let mut staged = parts.nothing_tried();
    let held = make_own(mail, seat, parts, &mut staged, own, says)?;
    if let Err(fault) = treat_others(mail, seat, parts, &mut staged, &mut last.came, *first, says) {
        drop(held);
        return Err(fault);
    }
    if let Err(fault) = flush(mail, seat, parts, &mut staged, says) {
        drop(held);
        return Err(fault);
    }
    *first = after(parts.members(), *first);
    last.posted = post_waiting(mail, seat, parts);
    Ok(held)
}

// Tries once for each peer for which packets wait to post the oldest together. Returns the peers to which some were posted.
fn post_waiting<M: Machine, K: Keeper<M::Body>>(
    mail: &Mail<M::Body>,
    seat: &mut NodeSeat<M::Body>,
    parts: &mut Parts<M, K>,
) -> NodeSet
    requires owned { Owns mail.now seat.old }
    requires sound { IsSound M.Body.same K.holds K.is_failed parts.old }
    requires seated { IsSeated M.Body.same (acting parts.old seat.old) }
    requires serving { parts.old.spoiled ≡ false }
    ensures owned { Owns mail.now seat.new }
    ensures sound { IsSound M.Body.same K.holds K.is_failed parts.new }
    ensures seated { IsSeated M.Body.same (acting parts.new seat.new) }
    ensures posts { PostsEach result (acting parts.old seat.old) (acting parts.new seat.new) seat.old seat.new }
{
    let mut posted = NodeSet::new();
    for peer in 1..parts.members().count() + 1 {
        let won = post_to(mail, seat, parts, peer);
        note_post(&mut posted, peer, won);
    }
    posted
}

// Tries once to post the oldest packets for this member together, if any wait. Returns whether the try won. The box is looked at before they are
// taken out of the outbox.
fn post_to<M: Machine, K: Keeper<M::Body>>(
    mail: &Mail<M::Body>,
    seat: &mut NodeSeat<M::Body>,
    parts: &mut Parts<M, K>,
    peer: u8,
) -> bool
    requires owned { Owns mail.now seat.old }
    requires sound { IsSound M.Body.same K.holds K.is_failed parts.old }
    requires seated { IsSeated M.Body.same (acting parts.old seat.old) }
    requires serving { parts.old.spoiled ≡ false }
    requires member { IsMember parts.old.node.members peer }
    ensures owned { Owns mail.now seat.new }
    ensures sound { IsSound M.Body.same K.holds K.is_failed parts.new }
    ensures seated { IsSeated M.Body.same (acting parts.new seat.new) }
    ensures posts { PostsTogether peer result (acting parts.old seat.old) (acting parts.new seat.new) seat.old seat.new }
{
    if parts.waiting_for(peer) == 0 {
        return false;
    }
    if !is_free(mail, seat, peer) {
        return false;
    }
    let Some((first, rest)) = parts.take_many(peer, mail.most()) else {
        return false;
    };
    let Err(batch) = post_all(mail, seat, peer, Batch::from_parts(first, rest)) else {
        return true;
    };
    let (first, rest) = batch.into_parts();
    parts.put_back_all(peer, first, rest);
    false
}

// Returns whether the box to this member is empty. If it is not, that was a try to post, which is lost.
fn is_free<B: Body>(mail: &Mail<B>, seat: &mut NodeSeat<B>, to: u8) -> bool
    requires owned { Owns mail.now seat.old }
    requires member { IsMember seat.old.members to }
    ensures owned { Owns mail.now seat.new }
    ensures found { MatchBool result (seat.new ≡ seat.old)
        (seat.new ≡ knows (lost (box_of seat.old.members seat.old.part.me to) seat.old.part) seat.old) }
{
    mail.is_free(seat, to)
}

// Tries once to post the packets to this member together.
fn post_all<B: Body>(
    mail: &Mail<B>,
    seat: &mut NodeSeat<B>,
    to: u8,
    batch: Batch<B>,
) -> Result<(), Batch<B>>
    requires owned { Owns mail.now seat.old }
    requires member { IsMember seat.old.members to }
    requires sent { (p : packets.Packet B) → Has batch p → Has seat.old.part.seen.sent p }
    requires addressed { AreTo to batch }
    requires short { length batch ≤ mail.now.most }
    ensures owned { Owns mail.now seat.new }
    ensures posted { MatchResult result
        (λ _. seat.new ≡ knows (posting_all (box_of seat.old.members seat.old.part.me to) batch seat.old.part) seat.old)
        (λ b. (b ≡ batch) × (seat.new ≡ knows (lost (box_of seat.old.members seat.old.part.me to) seat.old.part) seat.old)) }
{
    mail.post_all(seat, to, batch)
}
