//! Packets and their kinds, with their copies and equality.

ghost use Rattle.paxos_packets.specs.Packet.{same_kind, same_packet, kind_equality, packet_equality};

use crate::ballot::Ballot;
use crate::body::{Body, Memory};
use crate::entry::{Entries, Entry};
use crate::slot::{Floor, Slot};
use crate::snapshot::Snapshot;
use crate::vote::{Vote, Votes};
use std::alloc::Global;

/// What a packet says (Lamport 2001, sections 2.2, 2.3 and 3; docs/CONSENSUS.md, "Packets", says when each kind is sent).
#[derive(Debug, Drop)]
pub enum Kind<B> {
    /// Asks for a promise of the ballot, and for the votes from the slot `first` on (1 to 2^40).
    Prepare {
        ballot: Ballot,
        first: u64,
    },
    /// Promises the ballot, and reports votes. All of them are for slots above `floor`, up to which the sender's log is in its snapshot; 0
    /// without one.
    Promise {
        ballot: Ballot,
        floor: Floor,
        votes: Votes<B>,
    },
    /// Asks for this vote.
    Accept {
        vote: Vote<B>,
    },
    /// This vote was cast.
    Accepted {
        vote: Vote<B>,
    },
    /// Refuses the ballot, since another is promised.
    Nack {
        ballot: Ballot,
        promised: Ballot,
    },
    /// Pending entries for a leader.
    Forward {
        entries: Entries<B>,
    },
    /// The entry was learned in the slot.
    Learned {
        slot: Slot,
        entry: Entry<B>,
    },
    /// Asks for what was learned from the slot `first` on (1 to 2^40).
    Ask {
        first: u64,
    },
    /// The sender's log up to a slot, for a member whose log ends before.
    Snapshot {
        snapshot: Snapshot,
    },
}

/// What one member sends to another. A packet may be lost, repeated or overtaken, but is never altered.
#[derive(Debug)]
pub struct Packet<B> {
    /// The member that sends it.
    pub sender: u8,
    /// The member that it is for.
    pub addressee: u8,
    /// What it says.
    pub kind: Kind<B>,
}

impl<B: Drop> Drop for Packet<B> {
    fn drop(self) {
        let Packet {
            sender: _,
            addressee: _,
            kind: _kind,
        } = self;
    }
}

impl<B: Body> Body for Kind<B> {
    ghost same = { same_kind B.same };

    fn copy(&self, alloc: Global) -> Result<Kind<B>, Memory> {
        Ok(match self {
            Kind::Prepare { ballot, first } => Kind::Prepare {
                ballot: *ballot,
                first: *first,
            },
            Kind::Promise {
                ballot,
                floor,
                votes,
            } => Kind::Promise {
                ballot: *ballot,
                floor: *floor,
                votes: votes.copy(alloc)?,
            },
            Kind::Accept { vote } => Kind::Accept {
                vote: vote.copy(alloc)?,
            },
            Kind::Accepted { vote } => Kind::Accepted {
                vote: vote.copy(alloc)?,
            },
            Kind::Nack { ballot, promised } => Kind::Nack {
                ballot: *ballot,
                promised: *promised,
            },
            Kind::Forward { entries } => Kind::Forward {
                entries: entries.copy(alloc)?,
            },
            Kind::Learned { slot, entry } => Kind::Learned {
                slot: *slot,
                entry: entry.copy(alloc)?,
            },
            Kind::Ask { first } => Kind::Ask { first: *first },
            Kind::Snapshot { snapshot } => Kind::Snapshot {
                snapshot: snapshot.copy(alloc)?,
            },
        })
    }

    fn same(&self, other: &Kind<B>) -> bool {
        match (self, other) {
            (
                Kind::Prepare { ballot, first },
                Kind::Prepare {
                    ballot: b,
                    first: f,
                },
            ) => ballot == b && first == f,
            (
                Kind::Promise {
                    ballot,
                    floor,
                    votes,
                },
                Kind::Promise {
                    ballot: b,
                    floor: f,
                    votes: v,
                },
            ) => ballot == b && floor == f && votes.same(v),
            (Kind::Accept { vote }, Kind::Accept { vote: v }) => vote.same(v),
            (Kind::Accepted { vote }, Kind::Accepted { vote: v }) => vote.same(v),
            (
                Kind::Nack { ballot, promised },
                Kind::Nack {
                    ballot: b,
                    promised: p,
                },
            ) => ballot == b && promised == p,
            (Kind::Forward { entries }, Kind::Forward { entries: e }) => entries.same(e),
            (Kind::Learned { slot, entry }, Kind::Learned { slot: s, entry: e }) => slot == s
                && entry.same(e),
            (Kind::Ask { first }, Kind::Ask { first: f }) => first == f,
            (Kind::Snapshot { snapshot }, Kind::Snapshot { snapshot: s }) => snapshot.same(s),
            _ => false,
        }
    }

    ghost reflexive = { (kind_equality B.same (record { reflexive = B.reflexive; sound = B.sound })).reflexive };

    ghost sound = { (kind_equality B.same (record { reflexive = B.reflexive; sound = B.sound })).sound };
}

impl<B: Body> Body for Packet<B> {
    ghost same = { same_packet B.same };

    fn copy(&self, alloc: Global) -> Result<Packet<B>, Memory> {
        Ok(Packet {
            sender: self.sender,
            addressee: self.addressee,
            kind: self.kind.copy(alloc)?,
        })
    }

    fn same(&self, other: &Packet<B>) -> bool {
        self.sender == other.sender
            && self.addressee == other.addressee
            && self.kind.same(&other.kind)
    }

    ghost reflexive = { (packet_equality B.same (record { reflexive = B.reflexive; sound = B.sound })).reflexive };

    ghost sound = { (packet_equality B.same (record { reflexive = B.reflexive; sound = B.sound })).sound };
}
