//! What one seat knows. No value of these types is ever made: contracts speak of them.

use paxos_node::NodeView;
use paxos_packets::Packet;
use std::collections::LinkedList;

/// Whether a node is putting a packet into a box, or taking one out, and into or out of which box.
pub enum Doing {
    /// It does neither.
    Idle,
    /// It puts one into this box.
    Sending(u64),
    /// It takes one out of this box.
    Taking(u64),
}

/// A try to put a packet into a box, or to take one out, and whether it won.
pub struct Try {
    pub at: u64,
    pub won: bool,
}

/// A packet, and the box that it went through.
pub struct Parcel<B> {
    pub at: u64,
    pub packet: Packet<B>,
}

/// What is known of one node of the table: its number; what it is doing at a box; what it put into boxes and took out of them, oldest
/// first; all its tries; how many events its word counted; and the node itself with all that it sent.
pub struct Part<B> {
    pub me: u64,
    pub doing: Doing,
    pub posted: LinkedList<Parcel<B>>,
    pub received: LinkedList<Parcel<B>>,
    pub tried: LinkedList<Try>,
    pub events: u64,
    pub seen: NodeView<B>,
}

/// A seat's view: a part for each node that it knows of.
pub type View<B> = LinkedList<Part<B>>;
