//! The moves of an outcome: the part that is neither committed, sent nor applied.

use paxos_learner::News;
use paxos_packets::Entry;
use paxos_proposer::Move;
use std::marker::Model;

/// What an event does to the parts of a node, besides what it commits and applies.
#[derive(Debug, Drop)]
pub struct Moves<B> {
    // What is done to the proposer, what the learner hears, and the entry that becomes pending.
    pub(crate) proposer: Vec<Move<B>>,
    pub(crate) news: Vec<News<B>>,
    pub(crate) added: Option<Entry<B>>,
    // Whether the snapshot that is committed came in a packet.
    pub(crate) over: bool,
    // How many of the first pending entries stand after the event.
    pub(crate) front: usize,
    // The length of the log after the event, or 0 if the node is down then.
    pub(crate) log: u64,
}

impl<B> Model for Moves<B> {
    ghost use Rattle.paxos_node.specs.Moved.{Moved};

    ghost Value = { Moved B };

    ghost view = { λ m. record { proposer = m.proposer.items; news = m.news.items; added = m.added; over = m.over; front = m.front; log = m.log } };
}
