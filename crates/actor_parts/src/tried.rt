// Events of a round that are tried before they are committed together, and what a failed commit was to leave.
ghost use Rattle.std.specs.Prelude.{◌≡◌, ◌==◌, length};
ghost use Rattle.actor_parts.specs.Tried.{change_of, count_of};

use paxos_acceptor::Ahead;
use paxos_node::{Event, Outcome, Packets};
use paxos_packets::{Change, Entries};
use std::marker::Model;

/// An event by which its node went on, with what it sends and applies once it is committed.
#[derive(Drop)]
pub struct Tried<B> {
    /// The event.
    pub event: Event<B>,
    /// The length of the node's log after it.
    pub log: u64,
    pub(crate) packets: Packets<B>,
    pub(crate) applied: Entries<B>,
}

/// What a commit that failed was to leave.
#[derive(Drop)]
pub enum FailedCommit<B> {
    /// An event's outcome.
    One {
        outcome: Outcome<B>,
    },
    /// The change of these events.
    Round {
        change: Change<B>,
        tried: TriedEvents<B>,
    },
}

/// Events that were tried, in order.
pub struct TriedEvents<B> {
    list: Vec<Tried<B>>,
}

impl<B: Drop> Drop for TriedEvents<B> {
    fn drop(self) {
        let TriedEvents { list: _list } = self;
    }
}

impl<B> Model for TriedEvents<B> {
    ghost use Rattle.std.specs.Prelude.{List};
    ghost use Rattle.actor_parts.specs.declared.tried.Tried.{Tried};

    ghost Value = { List (Tried B) };

    ghost view = { λ t. t.list.items };
}

impl<B> TriedEvents<B> {
    // Returns these events, in the vector's order.
    pub(crate) fn of(list: Vec<Tried<B>>) -> TriedEvents<B>
        ensures { result ≡ list.items }
    {
        TriedEvents { list }
    }

    /// Returns the events, in order.
    pub fn as_slice(&self) -> &[Tried<B>]
        ensures { result.now ≡ self.now }
    {
        self.list.as_slice()
    }
}

impl<B> FailedCommit<B> {
    /// Returns the change that was to be committed.
    pub fn change(&self) -> &Change<B>
        ensures { result.now ≡ change_of self.now }
    {
        match self {
            FailedCommit::One { outcome } => &outcome.change,
            FailedCommit::Round { change, .. } => change,
        }
    }

    /// Returns how many events it was of.
    pub fn count(&self) -> u64
        ensures { result ≡ count_of self.now }
    {
        match self {
            FailedCommit::One { .. } => 1,
            FailedCommit::Round { tried, .. } => tried.as_slice().len() as u64,
        }
    }
}

/// The events of a round that were tried and are not committed, in order.
pub struct Staged<B> {
    pub(crate) ahead: Ahead<B>,
    pub(crate) tried: Vec<Tried<B>>,
}

impl<B: Drop> Drop for Staged<B> {
    fn drop(self) {
        let Staged {
            ahead: _ahead,
            tried: _tried,
        } = self;
    }
}

impl<B> Model for Staged<B> {
    ghost use Rattle.actor_parts.specs.Tried as trying;

    ghost Value = { trying.Staged B };

    ghost view = { λ s. record { ahead = s.ahead; tried = s.tried.items } };
}

impl<B> Staged<B> {
    /// Returns whether no event was tried.
    pub fn is_empty(&self) -> bool
        ensures { result ≡ (length self.now.tried == 0) }
    {
        self.tried.is_empty()
    }

    /// Returns how many events were tried.
    pub fn len(&self) -> usize
        ensures { result ≡ length self.now.tried }
    {
        self.tried.len()
    }

    /// Returns the events that were tried, in order.
    pub fn tried(&self) -> &[Tried<B>]
        ensures { result.now ≡ self.now.tried }
    {
        self.tried.as_slice()
    }

    // Returns what the events change, and the events.
    pub(crate) fn into_parts(self) -> (Ahead<B>, Vec<Tried<B>>)
        ensures ahead { result.0 ≡ self.ahead }
        ensures tried { result.1.items ≡ self.tried }
    {
        let Staged { ahead, tried } = self;
        (ahead, tried)
    }
}
