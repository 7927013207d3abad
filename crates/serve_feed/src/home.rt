// What the gate and the feed of a served node are made with.
use crate::pace::Pace;
use paxos_packets::Members;
use serve_connections::Lobby;
use std::sync::Arc;
use std::time::Instant;

/// What the gate and the feed of a node's thread share with it: the node's number, its cluster, and where nodes rest.
#[derive(Clone, Copy)]
pub struct Home<'a> {
    /// The node's number.
    pub node: u8,
    /// The members of its cluster.
    pub members: Members,
    /// The key that all nodes' draws come from.
    pub key: u64,
    /// Where the node rests.
    pub lobby: &'a Lobby,
    /// Where each node rests, node 1 first.
    pub lobbies: &'a [Arc<Lobby>],
    /// What the gate and the feed of the thread share.
    pub pace: &'a Pace,
    /// Whether the node's store is files, so that its commits wait for a disk.
    pub is_on_disk: bool,
    /// When the cluster began, if the clock could be read.
    pub began: Option<Instant>,
}
