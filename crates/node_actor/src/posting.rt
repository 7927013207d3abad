// Posts what waits, as far as boxes are empty.
ghost use Rattle.std.specs.Prelude.{◌≡◌, ◌⊎◌, ℕ, ◌==◌, nat_lt, true, false, ◌||◌, ◌&&◌, MatchResult};
ghost use Rattle.cluster_world.specs.Has.{Has};
ghost use Rattle.paxos_packets.specs.Members.{IsMember, is_in};
ghost use Rattle.actor_parts.specs.Parts.{IsSound};
ghost use Rattle.mail_table.specs.Seats.{Owns, knows};
ghost use Rattle.mail_table.specs.Views.{box_of, posting, lost};
ghost use Rattle.node_actor.specs.Actor.{acting, IsSeated};
ghost use Rattle.node_actor.specs.Turns.{PostsAlone, PostsOne};

use actor_parts::Parts;
use mail_table::{Mail, NodeSeat};
use paxos_packets::{Body, NodeSet, Packet};
use replica_machine::Machine;
use store_keeper::Keeper;

// Tries once to post the oldest packet to each peer for which packets are due. Returns the peers to which one was posted.
pub(crate) fn send_waiting<M: Machine, K: Keeper<M::Body>>(
    mail: &Mail<M::Body>,
    seat: &mut NodeSeat<M::Body>,
    parts: &mut Parts<M, K>,
) -> NodeSet
    requires owned { Owns mail.now seat.old }
    requires sound { IsSound M.Body.same K.holds K.is_failed parts.old }
    requires seated { IsSeated M.Body.same (acting parts.old seat.old) }
    requires serving { parts.old.spoiled ≡ false }
    ensures owned { Owns mail.now seat.new }
    ensures sound { IsSound M.Body.same K.holds K.is_failed parts.new }
    ensures seated { IsSeated M.Body.same (acting parts.new seat.new) }
    ensures posts { PostsAlone result (acting parts.old seat.old) (acting parts.new seat.new) seat.old seat.new }
{
    let mut posted = NodeSet::new();
    for peer in 1..parts.members().count() + 1 {
        let won = post_one(mail, seat, parts, peer);
        note_post(&mut posted, peer, won);
    }
    posted
}

// Adds the peer to the set, if a packet was posted to it.
pub(crate) fn note_post(set: &mut NodeSet, peer: u8, won: bool)
    ensures won { won ≡ true → (k : ℕ) → is_in set.new k ≡ (is_in set.old k || ((k == peer) && nat_lt k 8)) }
    ensures lost { won ≡ false → set.new ≡ set.old }
{
    if won {
        set.insert(peer);
    }
}

// Tries once to post the oldest packet for this member, if one waits. Returns whether the try won.
fn post_one<M: Machine, K: Keeper<M::Body>>(
    mail: &Mail<M::Body>,
    seat: &mut NodeSeat<M::Body>,
    parts: &mut Parts<M, K>,
    peer: u8,
) -> bool
    requires owned { Owns mail.now seat.old }
    requires sound { IsSound M.Body.same K.holds K.is_failed parts.old }
    requires seated { IsSeated M.Body.same (acting parts.old seat.old) }
    requires serving { parts.old.spoiled ≡ false }
    requires member { IsMember parts.old.node.members peer }
    ensures owned { Owns mail.now seat.new }
    ensures sound { IsSound M.Body.same K.holds K.is_failed parts.new }
    ensures seated { IsSeated M.Body.same (acting parts.new seat.new) }
    ensures posts { PostsOne peer result (acting parts.old seat.old) (acting parts.new seat.new) seat.old seat.new }
{
    let Some(packet) = parts.take_for(peer) else {
        return false;
    };
    let Err(packet) = post(mail, seat, peer, packet) else {
        return true;
    };
    parts.put_back(packet);
    false
}

// Tries once to post the packet to this member.
fn post<B: Body>(
    mail: &Mail<B>,
    seat: &mut NodeSeat<B>,
    to: u8,
    packet: Packet<B>,
) -> Result<(), Packet<B>>
    requires owned { Owns mail.now seat.old }
    requires member { IsMember seat.old.members to }
    requires sent { Has seat.old.part.seen.sent packet }
    requires addressed { packet.addressee ≡ to }
    ensures owned { Owns mail.now seat.new }
    ensures posted { MatchResult result
        (λ _. seat.new ≡ knows (posting (box_of seat.old.members seat.old.part.me to) packet seat.old.part) seat.old)
        (λ p. (p ≡ packet) × (seat.new ≡ knows (lost (box_of seat.old.members seat.old.part.me to) seat.old.part) seat.old)) }
{
    mail.post(seat, to, packet)
}
