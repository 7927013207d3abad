//! Outcomes: the change, the packets, the applied entries and the moves of one event.

ghost use Rattle.std.specs.Prelude.{◌≡◌, option_copied};
ghost use Rattle.paxos_node.specs.Outcome.{outcome_with, resting_with};
ghost use Rattle.paxos_node.specs.Plans.{unchanged};

use crate::moves::Moves;
use crate::packets::Packets;
use paxos_learner::News;
use paxos_packets::{Change, Entries, Entry, Snapshot, Votes};
use paxos_planning::Effects;
use paxos_proposer::Move;
use std::alloc::Global;

/// What an event is to make of a node: it is committed first, and adopted then.
#[derive(Debug, Drop)]
pub struct Outcome<B> {
    /// What the node commits, in one commit.
    pub change: Change<B>,
    /// The packets that it sends, once that is committed.
    pub packets: Packets<B>,
    /// The entries that it applies.
    pub applied: Entries<B>,
    /// Whether the node is down then: one of the entries that it applies is the loss of its own boot.
    pub is_down: bool,
    pub(crate) moves: Moves<B>,
}

impl<B> Outcome<B> {
    // Returns the outcome that changes nothing of a node with a log of this length.
    pub(crate) fn nothing(alloc: Global, log: u64) -> Outcome<B>
        ensures { result ≡ unchanged log }
    {
        Outcome {
            change: Change::none(alloc),
            packets: Packets::of(Vec::new(alloc)),
            applied: Entries::new(alloc),
            is_down: false,
            moves: Moves {
                proposer: Vec::new(alloc),
                news: Vec::new(alloc),
                added: None,
                over: false,
                front: 0,
                log,
            },
        }
    }

    // Returns the outcome of resting on the snapshot, which came in a packet or not, with these moves and this news, and of applying these
    // entries; after them the log has this length.
    pub(crate) fn resting(
        alloc: Global,
        snapshot: Snapshot,
        over: bool,
        moves: Vec<Move<B>>,
        news: Vec<News<B>>,
        applied: Entries<B>,
        is_down: bool,
        log: u64,
    ) -> Outcome<B>
        ensures { result ≡ resting_with snapshot over moves.items news.items applied is_down log }
    {
        Outcome {
            change: Change {
                promised: None,
                snapshot: Some(snapshot),
                votes: Votes::new(alloc),
            },
            packets: Packets::of(Vec::new(alloc)),
            applied,
            is_down,
            moves: Moves {
                proposer: moves,
                news,
                added: None,
                over,
                front: 0,
                log,
            },
        }
    }

    // Returns the outcome of these effects and of applying these entries; after them the log has this length, and `front` of the first
    // pending entries stand.
    pub(crate) fn with(
        effects: Effects<B>,
        applied: Entries<B>,
        is_down: bool,
        log: u64,
        front: usize,
    ) -> Outcome<B>
        ensures { result ≡ outcome_with effects applied is_down log front }
    {
        let Effects {
            change,
            packets,
            moves,
            news,
        } = effects;
        Outcome {
            change,
            packets: Packets::of(packets),
            applied,
            is_down,
            moves: Moves {
                proposer: moves,
                news,
                added: None,
                over: false,
                front,
                log,
            },
        }
    }

    /// Returns the length of the log of the node that adopts it, or 0 if that node is down then.
    pub fn log(&self) -> u64
        ensures { result ≡ self.now.moves.log }
    {
        self.moves.log
    }

    /// Returns the entry that the event makes, if any: an act that is taken, or the loss of another node's boot.
    pub fn added(&self) -> Option<&Entry<B>>
        ensures { option_copied result ≡ self.now.moves.added }
    {
        self.moves.added.as_ref()
    }
}
