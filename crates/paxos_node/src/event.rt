//! The events of nodes, each of which belongs to one of them.

ghost use Rattle.std.specs.Prelude.{◌≡◌, option_map};
ghost use Rattle.paxos_node.specs.Events.{owner, packet_in};

use paxos_packets::{Packet, Snapshot};

/// What may happen next in a cluster. Each event belongs to one node.
#[derive(Debug, Drop)]
pub enum Event<B> {
    /// The node takes an act of its transport with this number.
    Take {
        node: u8,
        transport: u32,
        body: B,
    },
    /// Time has passed at the node.
    Tick {
        node: u8,
    },
    /// The node begins a ballot.
    Start {
        node: u8,
    },
    /// The node takes the other one to be lost.
    Suspect {
        node: u8,
        other: u8,
    },
    /// The packet reaches its addressee.
    Deliver {
        packet: Packet<B>,
    },
    /// The node rests on this snapshot of its log, up to its last entry; without one nothing happens.
    Cut {
        node: u8,
        snapshot: Option<Snapshot>,
    },
    /// The node goes down; what it has not committed is lost.
    Crash {
        node: u8,
    },
    /// The node comes back with what it had committed, in a new boot.
    Restart {
        node: u8,
    },
}

impl<B> Event<B> {
    /// Returns the number of the node whose event it is; a packet's event is its addressee's. Does not allocate.
    pub fn node(&self) -> u8
        ensures { result ≡ owner self.now }
    {
        match self {
            Event::Take { node, .. } => *node,
            Event::Tick { node } => *node,
            Event::Start { node } => *node,
            Event::Suspect { node, .. } => *node,
            Event::Deliver { packet } => packet.addressee,
            Event::Cut { node, .. } => *node,
            Event::Crash { node } => *node,
            Event::Restart { node } => *node,
        }
    }

    /// Returns the packet that the event delivers, if it delivers one. Does not allocate.
    pub fn packet(&self) -> Option<&Packet<B>>
        ensures { option_map (λ packet. packet.now) result ≡ packet_in self.now }
    {
        match self {
            Event::Deliver { packet } => Some(packet),
            Event::Take { .. }
            | Event::Tick { .. }
            | Event::Start { .. }
            | Event::Suspect { .. }
            | Event::Cut { .. }
            | Event::Crash { .. }
            | Event::Restart { .. } => None,
        }
    }
}
