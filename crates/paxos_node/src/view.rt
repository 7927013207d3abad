//! The values by which contracts speak of a node: whether it was opened, with which rows, and what it sent.

use crate::node::Node;
use crate::packets::Packets;
use paxos_packets::Rows;
use std::marker::Model;

/// Whether a node was opened, and with which rows.
pub enum Opened<B> {
    /// It was not.
    Never,
    /// It was, with these.
    With(Rows<B>),
}

/// What is known of one node: whether it was opened, the node, and every packet that it sent. No value of this type is ever made: contracts
/// speak of it, so that they need not say what knows this.
pub struct NodeView<B> {
    opened: Opened<B>,
    node: Node<B>,
    sent: Packets<B>,
}

impl<B> Model for NodeView<B> {
    ghost use Rattle.paxos_node.specs.View.{Viewed};

    ghost Value = { Viewed B };

    ghost view = { λ v. record { opened = v.opened; node = v.node.state; sent = v.sent } };
}
