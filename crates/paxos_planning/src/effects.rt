//! The effects of an event, as a draft ends.

use paxos_learner::News;
use paxos_packets::{Change, Packet};
use paxos_proposer::Move;

/// What an event does before anything is applied.
#[derive(Debug, Drop)]
pub struct Effects<B> {
    /// What the node commits, in one commit.
    pub change: Change<B>,
    /// The packets that it sends, in order.
    pub packets: Vec<Packet<B>>,
    /// What is done to its proposer, in order.
    pub moves: Vec<Move<B>>,
    /// What its learner hears, in order.
    pub news: Vec<News<B>>,
}
