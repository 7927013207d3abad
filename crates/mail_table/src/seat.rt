//! A node's seat at the table.
ghost use Rattle.std.specs.Prelude.{◌≡◌, ◌<◌, ◌≤◌, [], slice_get, Some};
ghost use Rattle.paxos_packets.specs.Members.{IsMember};
ghost use Rattle.mail_table.specs.Boxes.{sits};
ghost use Rattle.mail_table.specs.Offices.{name_of};
ghost use Rattle.mail_table.specs.Views.{length_in, place, unopened};
ghost use Rattle.std.specs.Prelude.{◌*◌, ◌^◌, nat_lt};

use crate::office::Mark;
use crate::plays::Token;
use paxos_packets::Body;
use std::marker::Model;

/// How many events a node's word can count.
pub const MOST_EVENTS: u64 = 1 << 62;

/// The seat of one node at a table: the thread that has it may take the node's steps. It may be moved to another thread.
#[derive(Drop)]
pub struct NodeSeat<B: Body> {
    pub(crate) seat: Token<B>,
    pub(crate) node: u8,
    pub(crate) nodes: u8,
    // How many events the node's word counted, and how long the node's log is.
    pub(crate) events: u64,
    pub(crate) log: u64,
    pub(crate) mark: Mark,
}

impl<B: Body> Model for NodeSeat<B> {
    ghost use Rattle.std.specs.Prelude.{◌≡◌, slice_get, Some};
    ghost use Rattle.mail_table.specs.Offices.{name_of};
    ghost use Rattle.mail_table.specs.Seats.{Seated, IsAlone};
    ghost use Rattle.mail_table.specs.Views.{only};

    ghost Value = { Seated B };

    ghost view = { λ s. record { office = s.mark.seen.book; table = s.mark.number; members = s.nodes; part = only s.seat.me.0 } };

    ghost invariant = { λ s. IsAlone s.nodes s.node s.events s.log s.seat.table_id s.seat.me
        × (slice_get s.mark.seen.log s.mark.number ≡ Some (name_of s.seat.table_id)) };
}

impl<B: Body> NodeSeat<B> {
    /// Returns the number of its node.
    pub fn node(&self) -> u8
        ensures { result ≡ self.now.part.me }
    {
        self.node
    }

    /// Returns whether its node's word can count one event more: it counted fewer than 2^62. Then `advance` and `renew` are not `Worn`.
    pub fn may_advance(&self) -> bool
        ensures { result ≡ nat_lt self.now.part.events (2 ^ 62) }
    {
        self.events < MOST_EVENTS
    }

    /// Returns how many events its node's word has counted.
    pub fn events(&self) -> u64
        ensures { result ≡ self.now.part.events }
    {
        self.events
    }

    // Returns the number of its table in the office.
    pub(crate) fn table(&self) -> u64
        ensures { result ≡ self.now.table }
    {
        self.mark.number
    }

    // Returns the place of its node, from 0.
    pub(crate) fn place(&self) -> usize
        ensures value { result ≡ place self.now.part.me }
        ensures within { result < 7 }
    {
        self.node as usize - 1
    }

    // Returns how long the log of its node is.
    pub(crate) fn log(&self) -> u64
        ensures { result ≡ length_in self.now.part.seen }
    {
        self.log
    }

    // Creates the seat of a node that was never opened.
    pub(crate) fn of(seat: Token<B>, node: u8, nodes: u8, mark: Mark) -> NodeSeat<B>
        requires fresh { seat.me ≡ sits (unopened node) [] }
        requires member { IsMember nodes node }
        requires most { nodes ≤ 7 }
        requires slots { seat.table_id.slots ≡ 8 * (nodes * nodes) }
        requires marked { slice_get mark.seen.log mark.number ≡ Some (name_of seat.table_id) }
        ensures { result ≡ record { office = mark.seen.book; table = mark.number; members = nodes; part = unopened node } }
    {
        NodeSeat {
            seat,
            node,
            nodes,
            events: 0,
            log: 0,
            mark,
        }
    }
}
