// Fetches a packet, from one peer after another until a try wins.
ghost use Rattle.std.specs.Prelude.{◌≡◌, MatchOption, IfSome};
ghost use Rattle.paxos_packets.specs.Members.{IsMember};
ghost use Rattle.mail_table.specs.Seats.{Owns, knows};
ghost use Rattle.mail_table.specs.Views.{box_of, receiving, lost};
ghost use Rattle.node_actor.specs.Rounds.{look_at};
ghost use Rattle.node_actor.specs.Turns.{Fetches, after, round, passed_by};

use mail_table::{Batch, Mail, NodeSeat};
use paxos_packets::{Body, Members, Packet};

// Tries the other members' boxes once round from this one on, until a try wins. Returns whose packet came, and the packet.
pub(crate) fn fetch_round<B: Body>(
    mail: &Mail<B>,
    seat: &mut NodeSeat<B>,
    members: Members,
    first: u8,
) -> Option<(u8, Packet<B>)>
    requires owned { Owns mail.now seat.old }
    requires single { mail.now.most ≡ 1 }
    requires members { seat.old.members ≡ members }
    requires first { IsMember members first }
    ensures owned { Owns mail.now seat.new }
    ensures table { seat.new ≡ knows seat.new.part seat.old }
    ensures from { IfSome result (λ got. IsMember members got.0) }
    ensures fetches { Fetches members (round seat.old.part.me members first) seat.old.part result seat.new.part }
{
    let mut from = first;
    for _step in 0..members.count() {
        if let Some(packet) = fetch_other(mail, seat, from) {
            return Some((from, packet));
        }
        from = after(members, from);
    }
    None
}

// Tries once to fetch from this member, if it is another.
fn fetch_other<B: Body>(mail: &Mail<B>, seat: &mut NodeSeat<B>, from: u8) -> Option<Packet<B>>
    requires owned { Owns mail.now seat.old }
    requires single { mail.now.most ≡ 1 }
    requires member { IsMember seat.old.members from }
    ensures owned { Owns mail.now seat.new }
    ensures fetched { MatchOption result (seat.new ≡ knows (passed_by seat.old.members from seat.old.part) seat.old)
        (λ p. (from ≡ seat.old.part.me → ⊥) ×
        (seat.new ≡ knows (receiving (box_of seat.old.members from seat.old.part.me) p seat.old.part) seat.old)) }
{
    if from == seat.node() {
        return None;
    }
    mail.fetch(seat, from)
}

// Takes the packets out of the box from another member, all of them in one try, if any are in it.
pub(crate) fn fetch_all<B: Body>(
    mail: &Mail<B>,
    seat: &mut NodeSeat<B>,
    from: u8,
) -> Option<Batch<B>>
    requires owned { Owns mail.now seat.old }
    requires member { IsMember seat.old.members from }
    ensures owned { Owns mail.now seat.new }
    ensures fetched { seat.new ≡ knows (look_at seat.old.members from result seat.old.part) seat.old }
{
    mail.fetch_all(seat, from)
}

// Returns the member after this one; the first after the last.
pub(crate) fn after(members: Members, member: u8) -> u8
    requires { IsMember members member }
    ensures value { result ≡ after members member }
    ensures member { IsMember members result }
{
    if member == members.count() {
        1
    } else {
        member + 1
    }
}
