//! Packets that go through a box together.
ghost use Rattle.std.specs.Prelude.{◌≡◌, ◌<◌, ◌≤◌, [], ◌∷◌, length};

use paxos_packets::Packet;
use std::alloc::Global;
use std::marker::Model;

/// Packets that are put into a box, and taken out of it, together and in order: at least one. A clause sees the list of them.
#[derive(Debug)]
pub struct Batch<B> {
    first: Packet<B>,
    rest: Vec<Packet<B>>,
}

impl<B: Drop> Drop for Batch<B> {
    fn drop(self) {
        let Batch {
            first: _first,
            rest: _rest,
        } = self;
    }
}

impl<B> Model for Batch<B> {
    ghost use Rattle.std.specs.Prelude.{List, ◌∷◌};
    ghost use Rattle.paxos_packets.specs.declared.packet.Packet.{Packet};

    ghost Value = { List (Packet B) };

    ghost view = { λ b. b.first ∷ b.rest.items };
}

impl<B> Batch<B> {
    /// Returns a batch of one packet. Does not allocate.
    pub fn of(alloc: Global, packet: Packet<B>) -> Batch<B>
        ensures { result ≡ packet ∷ [] }
    {
        Batch {
            first: packet,
            rest: Vec::new(alloc),
        }
    }

    /// Returns the batch of a first packet and of these after it, in the vector's order. Does not allocate.
    pub fn from_parts(first: Packet<B>, rest: Vec<Packet<B>>) -> Batch<B>
        ensures { result ≡ first ∷ rest.items }
    {
        Batch { first, rest }
    }

    /// Returns the first packet, and those after it in order. Does not allocate.
    pub fn into_parts(self) -> (Packet<B>, Vec<Packet<B>>)
        ensures { self ≡ result.0 ∷ result.1.items }
    {
        let Batch { first, rest } = self;
        (first, rest)
    }

    /// Returns how many packets there are.
    pub fn len(&self) -> usize
        ensures count { result ≡ length self.now }
        ensures some { 0 < result }
    {
        1 + self.rest.len()
    }
}

impl<B: Drop> Batch<B> {
    // Returns the packet of a batch of one.
    pub(crate) fn into_one(self) -> Packet<B>
        requires one { length self ≤ 1 }
        ensures { self ≡ result ∷ [] }
    {
        let Batch { first, rest } = self;
        drop(rest);
        first
    }
}
