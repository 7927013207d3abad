// The post of an actor, and its parts.
ghost use Rattle.std.specs.Prelude.{◌≡◌, option_copied};
ghost use Rattle.paxos_packets.specs.Members.{IsMember};
ghost use Rattle.node_actor.specs.Posts.{IsLeft};
ghost use Rattle.node_actor.specs.Preparing.{change_in, count_in};

use actor_parts::FailedCommit;
use mail_table::NodeSeat;
use paxos_packets::{Body, Change, Members, Rows};
use std::marker::Model;

/// What is left of an actor that crashed, or that could not begin: the node's number, the members, its last rows if it was ever opened, what a
/// failed commit was to leave, if one failed, and the node's seat at the table. An actor goes on from there.
pub struct Post<B: Body> {
    me: u8,
    members: Members,
    rows: Option<Rows<B>>,
    failed: Option<FailedCommit<B>>,
    seat: NodeSeat<B>,
}

impl<B: Body> Drop for Post<B> {
    fn drop(self) {
        let Post {
            me: _,
            members: _,
            rows: _rows,
            failed: _failed,
            seat: _seat,
        } = self;
    }
}

impl<B: Body> Model for Post<B> {
    ghost use Rattle.node_actor.specs.Posts.{Posted, IsLeft};

    ghost Value = { Posted B };

    ghost view = { λ p. record { me = p.me; members = p.members; rows = p.rows; failed = p.failed; seat = p.seat } };

    ghost invariant = { λ p. IsLeft B.same (record { me = p.me; members = p.members; rows = p.rows; failed = p.failed; seat = p.seat }) };
}

impl<B: Body> Post<B> {
    /// Creates what is left of a node from its parts.
    pub fn of(
        me: u8,
        members: Members,
        rows: Option<Rows<B>>,
        failed: Option<FailedCommit<B>>,
        seat: NodeSeat<B>,
    ) -> Post<B>
        requires { IsLeft B.same (record { me = me; members = members; rows = rows; failed = failed; seat = seat }) }
        ensures { result ≡ record { me = me; members = members; rows = rows; failed = failed; seat = seat } }
    {
        Post {
            me,
            members,
            rows,
            failed,
            seat,
        }
    }

    /// Returns the node's number.
    pub fn me(&self) -> u8
        ensures number { result ≡ self.now.me }
        ensures member { IsMember self.now.members self.now.me }
    {
        self.me
    }

    /// Returns the members.
    pub fn members(&self) -> Members
        ensures { result ≡ self.now.members }
    {
        self.members
    }

    /// Returns the node's last rows, if it was ever opened.
    pub fn rows(&self) -> Option<&Rows<B>>
        ensures { option_copied result ≡ self.now.rows }
    {
        self.rows.as_ref()
    }

    /// Returns the node's seat at the table. Does not allocate.
    pub fn seat(self) -> NodeSeat<B>
        ensures { result ≡ self.seat }
    {
        let Post {
            me: _,
            members: _,
            rows: _,
            failed: _,
            seat,
        } = self;
        seat
    }

    // Returns the change whose commit failed.
    pub(crate) fn change(&self) -> Option<&Change<B>>
        ensures { option_copied result ≡ change_in self.now.failed }
    {
        match &self.failed {
            Some(meant) => Some(meant.change()),
            None => None,
        }
    }

    // Returns of how many events that is.
    pub(crate) fn count(&self) -> u64
        ensures { result ≡ count_in self.now.failed }
    {
        match &self.failed {
            Some(meant) => meant.count(),
            None => 0,
        }
    }

    // Returns how many events the node's word has counted.
    pub(crate) fn events(&self) -> u64
        ensures { result ≡ self.now.seat.part.events }
    {
        self.seat.events()
    }

    // Returns what the failed commit was to leave, and the seat.
    pub(crate) fn into_parts(self) -> (Option<FailedCommit<B>>, NodeSeat<B>)
        ensures failed { result.0 ≡ self.failed }
        ensures seat { result.1 ≡ self.seat }
        ensures left { IsLeft B.same self }
    {
        let Post {
            me: _,
            members: _,
            rows: _,
            failed,
            seat,
        } = self;
        (failed, seat)
    }
}
