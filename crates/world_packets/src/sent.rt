// The packets that were ever sent, and whether an equal one was.
ghost use Rattle.std.specs.Prelude.{◌≡◌, ◌<◌, ◌≤◌, ◌+◌, [], ◌∷◌, ◌++◌, length, OnOk, vec_len, vec_capacity};
ghost use Rattle.indexmap.specs.IndexMap.{spare};
ghost use Rattle.world_packets.specs.Sent.{IsIndex, Seeks, is_among};

use crate::numbers::{Key, Numbers};
use indexmap::IndexMap;
use paxos_packets::{Body, Memory, Packet};
use std::alloc::Global;
use std::marker::Model;

/// Every packet ever sent, in order. No packet is ever taken out.
pub struct SentPackets<B> {
    packets: Vec<Packet<B>>,
    // The indices of the different packets.
    places: IndexMap<Key, usize>,
}

impl<B: Drop> Drop for SentPackets<B> {
    fn drop(self) {
        let SentPackets {
            packets: _packets,
            places: _places,
        } = self;
    }
}

impl<B> Model for SentPackets<B> {
    ghost use Rattle.std.specs.Prelude.{◌-◌, min, vec_len, vec_capacity};
    ghost use Rattle.indexmap.specs.IndexMap.{spare};
    ghost use Rattle.world_packets.specs.Sent.{Sent, IsIndex};

    ghost Value = { Sent B };

    ghost view = { λ s. record {
      packets = s.packets.items;
      room = min (vec_capacity s.packets - vec_len s.packets) (spare s.places);
    } };

    ghost invariant = { λ s. IsIndex s.places.entries s.packets.items };
}

impl<B> SentPackets<B> {
    /// Returns nothing sent. Does not allocate; `make_room` will, from `alloc`.
    pub fn new(alloc: Global) -> SentPackets<B>
        ensures { result.packets ≡ [] }
    {
        SentPackets {
            packets: Vec::new(alloc),
            places: IndexMap::new(alloc),
        }
    }

    /// Returns the packets, in order.
    pub fn as_slice(&self) -> &[Packet<B>]
        ensures { result.now ≡ self.now.packets }
    {
        self.packets.as_slice()
    }

    /// Reserves memory for `more` further packets. The packets stay as they were, with `Memory` too.
    pub fn make_room(&mut self, more: usize) -> Result<(), Memory>
        ensures packets { self.new.packets ≡ self.old.packets }
        ensures ok { OnOk result (more ≤ self.new.room) }
    {
        self.packets.reserve(more)?;
        self.places.reserve(more)?;
        Ok(())
    }
}

impl<B: Body> SentPackets<B> {
    /// Returns whether an equal packet was sent. Looks only at the packets with the same numbers, and at each of them once however often it
    /// was sent. Does not allocate.
    pub fn was_sent(&self, packet: &Packet<B>) -> bool
        ensures { result ≡ is_among B.same packet.now self.now.packets }
    {
        seek(&self.packets, &self.places, packet).is_none()
    }

    /// Appends the packets as sent, in this order. Does not allocate.
    pub fn push_all_in_room(&mut self, packets: Vec<Packet<B>>)
        requires { length packets.items ≤ self.old.room }
        ensures packets { self.new.packets ≡ self.old.packets ++ packets.items }
    {
        for packet in packets {
            self.push_in_room(packet);
        }
    }

    // Appends the packet as sent.
    fn push_in_room(&mut self, packet: Packet<B>)
        requires { 1 ≤ self.old.room }
        ensures packets { self.new.packets ≡ self.old.packets ++ packet ∷ [] }
        ensures room { self.old.room ≤ self.new.room + 1 }
    {
        list(&self.packets, &mut self.places, &packet);
        self.packets.push_reserved(packet);
    }
}

// Returns `None` if an equal packet was sent; otherwise the ordinal under which its index is to be kept.
fn seek<B: Body>(
    packets: &[Packet<B>],
    places: &IndexMap<Key, usize>,
    packet: &Packet<B>,
) -> Option<usize>
    requires { IsIndex places.now.entries packets.now }
    ensures { Seeks B.same packet.now packets.now places.now.entries result }
{
    let numbers = Numbers::of(packet);
    for ordinal in 0..packets.len() {
        let Some(place) = places.get(&Key { numbers, ordinal }) else {
            return Some(ordinal);
        };
        if packets[*place].same(packet) {
            return None;
        }
    }
    Some(packets.len())
}

// Notes the index after all packets for this one, if it differs from all of them.
fn list<B: Body>(packets: &[Packet<B>], places: &mut IndexMap<Key, usize>, packet: &Packet<B>)
    requires index { IsIndex places.old.entries packets.now }
    requires spare { 0 < spare places.old }
    ensures index { IsIndex places.new.entries (packets.now ++ packet.now ∷ []) }
    ensures spare { spare places.old ≤ spare places.new + 1 }
{
    let Some(ordinal) = seek(packets, places, packet) else {
        return;
    };
    let numbers = Numbers::of(packet);
    let Ok(_) = places.insert(Key { numbers, ordinal }, packets.len()) else {
        unreachable!()
    };
}
