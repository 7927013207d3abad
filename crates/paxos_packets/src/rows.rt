//! What a node has committed, and what one event adds to it.

ghost use Rattle.std.specs.Prelude.{◌≡◌, IfOk};
ghost use Rattle.paxos_packets.specs.Rows.{bare_rows, first_rows, no_change};

use crate::ballot::Ballot;
use crate::body::{Body, Memory};
use crate::snapshot::Snapshot;
use crate::vote::Votes;
use std::alloc::Global;

/// What one event adds to a node's rows, in one commit.
#[derive(Debug, Drop)]
pub struct Change<B> {
    /// The new promise, or `None` if the promise stays.
    pub promised: Option<Ballot>,
    /// The new snapshot, or `None` if there is no new one. With it, votes up to its floor are forgotten before the others are added.
    pub snapshot: Option<Snapshot>,
    /// The votes that are added; each replaces the vote of its slot, if that has one.
    pub votes: Votes<B>,
}

/// What a node has committed, and finds again after a crash.
#[derive(Debug, Drop)]
pub struct Rows<B> {
    /// How often the node was started, from 1 to 2^48 - 1.
    pub boot: u64,
    /// The greatest ballot that the node has promised, if any.
    pub promised: Option<Ballot>,
    /// What stands for the log up to a slot, its floor, if any: votes are kept above it only.
    pub snapshot: Option<Snapshot>,
    /// For each slot, the last vote that the node cast there.
    pub votes: Votes<B>,
}

impl<B> Change<B> {
    /// Returns the change that adds nothing. Does not allocate; its votes will, from `alloc`.
    pub fn none(alloc: Global) -> Change<B>
        ensures { result ≡ no_change }
    {
        Change {
            promised: None,
            snapshot: None,
            votes: Votes::new(alloc),
        }
    }
}

impl<B> Rows<B> {
    /// Returns the rows of a node's first start, before it commits anything. Does not allocate; its votes will, from `alloc`.
    pub fn first(alloc: Global) -> Rows<B>
        ensures { result ≡ first_rows }
    {
        Rows::bare(alloc, 1)
    }

    /// Returns the rows after this many starts, if nothing is committed. Does not allocate; its votes will, from `alloc`.
    pub fn bare(alloc: Global, boot: u64) -> Rows<B>
        ensures { result ≡ bare_rows boot }
    {
        Rows {
            boot,
            promised: None,
            snapshot: None,
            votes: Votes::new(alloc),
        }
    }
}

impl<B: Body> Change<B> {
    /// Returns a copy that equals its source, or `Memory` if memory runs out.
    pub fn copy(&self, alloc: Global) -> Result<Change<B>, Memory>
        ensures { IfOk result (λ copy. copy ≡ self.now) }
    {
        let Change {
            promised,
            snapshot,
            votes,
        } = self;
        Ok(Change {
            promised: *promised,
            snapshot: copy_snapshot(snapshot)?,
            votes: votes.copy(alloc)?,
        })
    }
}

impl<B: Body> Rows<B> {
    /// Returns a copy that equals its source, or `Memory` if memory runs out.
    pub fn copy(&self, alloc: Global) -> Result<Rows<B>, Memory>
        ensures { IfOk result (λ copy. copy ≡ self.now) }
    {
        Ok(Rows {
            boot: self.boot,
            promised: self.promised,
            snapshot: copy_snapshot(&self.snapshot)?,
            votes: self.votes.copy(alloc)?,
        })
    }
}

// Adds a holder to the snapshot, if there is one.
fn copy_snapshot(snapshot: &Option<Snapshot>) -> Result<Option<Snapshot>, Memory>
    ensures { IfOk result (λ copy. copy ≡ snapshot.now) }
{
    match snapshot {
        Some(snapshot) => Ok(Some(snapshot.share()?)),
        None => Ok(None),
    }
}
