// A turn: posts what is due, and fetches and treats at most one packet.
ghost use Rattle.std.specs.Prelude.{◌≡◌, true, false, Err, []};
ghost use Rattle.paxos_packets.specs.Members.{IsMember};
ghost use Rattle.actor_parts.specs.Parts.{IsSound};
ghost use Rattle.actor_parts.specs.Steps.{StaysWho};
ghost use Rattle.mail_table.specs.Seats.{Owns};
ghost use Rattle.node_actor.specs.Actor.{acting, acting_since, no_turn, IsSeated};
ghost use Rattle.node_actor.specs.Turns.{Turns};

use crate::event::{deliver, pass};
use crate::fetching::{after, fetch_round};
use crate::heard::{Heard, heard_in};
use crate::hearing::Hearings;
use crate::posting::send_waiting;
use actor_parts::{ActorFault, Parts};
use mail_table::{Mail, NodeSeat};
use paxos_packets::NodeSet;
use replica_machine::Machine;
use std::alloc::Global;
use store_keeper::Keeper;

// What an actor shows of its last turn or round: the peer from which the turn fetched a packet, what that shows, the peers to which it posted, and
// what the packets of a round showed.
#[derive(Drop)]
pub(crate) struct LastTurn {
    pub(crate) from: Option<u8>,
    pub(crate) heard: Option<Heard>,
    pub(crate) posted: NodeSet,
    pub(crate) came: Hearings,
}

impl LastTurn {
    // Returns what is shown before any turn or round.
    pub(crate) fn none(alloc: Global) -> LastTurn
        ensures { result ≡ no_turn }
    {
        LastTurn {
            from: None,
            heard: None,
            posted: NodeSet::new(),
            came: Hearings::new(alloc),
        }
    }

    // Begins a round: nothing of it is shown yet.
    pub(crate) fn begin_round(&mut self)
        ensures { self.new ≡ no_turn }
    {
        self.note(None, None, NodeSet::new());
    }

    // Notes what a turn has shown. What came in the last round is forgotten.
    fn note(&mut self, from: Option<u8>, heard: Option<Heard>, posted: NodeSet)
        ensures { self.new ≡ record { from = from; heard = heard; posted = posted; came = [] } }
    {
        self.from = from;
        self.heard = heard;
        self.posted = posted;
        self.came.clear();
    }
}

// Posts what is due, as far as boxes are empty; then hands the packet that is fetched, if one is, to the node. It fetches from the member
// `first` on: the next turn from the one after the member whose packet came, so that those that always have one get turns equally.
pub(crate) fn turn<M: Machine, K: Keeper<M::Body>>(
    mail: &Mail<M::Body>,
    seat: &mut NodeSeat<M::Body>,
    parts: &mut Parts<M, K>,
    first: &mut u8,
    last: &mut LastTurn,
) -> Result<Vec<M::Say>, ActorFault<M::Say>>
    requires owned { Owns mail.now seat.old }
    requires single { mail.now.most ≡ 1 }
    requires sound { IsSound M.Body.same K.holds K.is_failed parts.old }
    requires seated { IsSeated M.Body.same (acting parts.old seat.old) }
    requires first { IsMember parts.old.node.members first.old }
    requires serving { parts.old.spoiled ≡ false }
    ensures owned { Owns mail.now seat.new }
    ensures sound { IsSound M.Body.same K.holds K.is_failed parts.new }
    ensures seated { IsSeated M.Body.same (acting parts.new seat.new) }
    ensures first { IsMember parts.new.node.members first.new }
    ensures who { StaysWho parts.old parts.new }
    ensures turns { Turns M.Body.same M.steps M.content M.loaded K.holds K.finds K.failures
        (acting_since last.old parts.old seat.old) (acting_since last.new parts.new seat.new) seat.old result }
{
    let members = parts.members();
    let posted = send_waiting(mail, seat, parts);
    match fetch_round(mail, seat, members, *first) {
        None => {
            *first = after(members, *first);
            last.note(None, None, posted);
            pass(seat, parts)
        },
        Some((from, packet)) => {
            let heard = heard_in(&packet.kind);
            *first = after(members, from);
            last.note(Some(from), Some(heard), posted);
            deliver(mail, seat, parts, packet)
        },
    }
}
