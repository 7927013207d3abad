//! Lists of packets, such as an outcome has.

ghost use Rattle.std.specs.Prelude.{◌≡◌};

use paxos_packets::Packet;
use std::marker::Model;

/// Packets in the order in which they are to be sent.
#[derive(Debug)]
pub struct Packets<B> {
    list: Vec<Packet<B>>,
}

impl<B: Drop> Drop for Packets<B> {
    fn drop(self) {
        let Packets { list: _list } = self;
    }
}

impl<B> Model for Packets<B> {
    ghost use Rattle.std.specs.Prelude.{List};
    ghost use Rattle.paxos_packets.specs.declared.packet.Packet.{Packet};

    ghost Value = { List (Packet B) };

    ghost view = { λ p. p.list.items };
}

impl<B> Packets<B> {
    // Returns the list of these packets, in the vector's order.
    pub(crate) fn of(list: Vec<Packet<B>>) -> Packets<B>
        ensures { result ≡ list.items }
    {
        Packets { list }
    }

    /// Returns the packets, in order.
    pub fn as_slice(&self) -> &[Packet<B>]
        ensures { result.now ≡ self.now }
    {
        self.list.as_slice()
    }

    /// Returns the packets as a vector, in order. Does not allocate.
    pub fn into_vec(self) -> Vec<Packet<B>>
        ensures { result.items ≡ self }
    {
        let Packets { list } = self;
        list
    }
}
