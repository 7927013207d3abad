// Changes that are planned one after another, before they are committed together.
ghost use Rattle.std.specs.Prelude.{◌≡◌, ◌++◌, [], None, List, length, take, map, IfOk, OnOk, OnErr, IsTrue, option_copied};
ghost use Rattle.paxos_packets.specs.Rows.{no_change};
ghost use Rattle.paxos_packets.specs.Vote.{IsAscending, vote_in};
ghost use Rattle.paxos_acceptor.specs.Ahead.{had, none_noted, replaced_by, with_change};

use crate::fault::Memory;
use paxos_packets::{Ballot, Body, Change, KeptVotes, Slot, Vote};
use std::alloc::Global;
use std::marker::Model;

/// What a slot had before a vote was put there.
#[derive(Debug, Drop)]
pub enum Replaced<B> {
    /// No vote was in this slot.
    Nothing { slot: Slot },
    /// This vote was in its slot.
    Held { vote: Vote<B> },
}

/// The sum of changes that rows have and that are not committed yet, and what the rows had in their place. None of the changes has a snapshot.
#[derive(Debug)]
pub struct Ahead<B> {
    alloc: Global,
    change: Change<B>,
    promised: Option<Ballot>,
    replaced: Vec<Replaced<B>>,
}

impl<B: Drop> Drop for Ahead<B> {
    fn drop(self) {
        let Ahead {
            alloc: _,
            change: _change,
            promised: _,
            replaced: _replaced,
        } = self;
    }
}

impl<B> Model for Ahead<B> {
    ghost use Rattle.std.specs.Prelude.{◌≡◌, None};
    ghost use Rattle.paxos_acceptor.specs.Ahead.{Noted};

    ghost Value = { Noted B };

    ghost view = { λ a. record { change = a.change; promised = a.promised; replaced = a.replaced.items } };

    ghost invariant = { λ a. a.change.snapshot ≡ None };
}

impl<B> Ahead<B> {
    /// Returns that no change is planned, of rows with this promise. Does not allocate; changes will, from `alloc`.
    pub fn none(alloc: Global, promised: Option<Ballot>) -> Ahead<B>
        ensures { result ≡ none_noted promised }
    {
        Ahead {
            alloc,
            change: Change::none(alloc),
            promised,
            replaced: Vec::new(alloc),
        }
    }

    /// Returns the sum of the changes.
    pub fn change(&self) -> &Change<B>
        ensures change { result.now ≡ self.now.change }
        ensures snapshot { self.now.change.snapshot ≡ None }
    {
        &self.change
    }

    /// Returns whether the changes add nothing, so that there is nothing to commit.
    pub fn adds_nothing(&self) -> bool
        ensures { IsTrue result → self.now.change ≡ no_change }
    {
        self.change.promised.is_none() && self.change.votes.as_slice().is_empty()
    }

    // Returns the sum of the changes, the promise of before them, and what each vote replaced, oldest first.
    pub(crate) fn into_parts(self) -> (Change<B>, Option<Ballot>, Vec<Replaced<B>>)
        ensures change { result.0 ≡ self.change }
        ensures promised { result.1 ≡ self.promised }
        ensures replaced { result.2.items ≡ self.replaced }
    {
        let Ahead {
            alloc: _,
            change,
            promised,
            replaced,
        } = self;
        (change, promised, replaced)
    }
}

impl<B: Body> Ahead<B> {
    // Adds a change without a snapshot, of rows with these votes. On `Memory` nothing is added.
    pub(crate) fn add(&mut self, held: &KeptVotes<B>, change: &Change<B>) -> Result<(), Memory>
        requires { change.now.snapshot ≡ None }
        ensures ok { OnOk result (self.new ≡ with_change change.now held.now.votes self.old) }
        ensures err { OnErr result (self.new ≡ self.old) }
        ensures sum { IsAscending self.old.change.votes }
        ensures new { IsAscending change.now.votes }
        ensures held { IsAscending held.now.votes }
    {
        let _ = held.as_slice(); // for the proof
        let _ = self.change.votes.as_slice(); // for the proof
        let _ = change.votes.as_slice(); // for the proof
        let copies = change.votes.copy(self.alloc)?;
        let count = self.replaced.len();
        let Ok(()) = note_all(
            self.alloc,
            &mut self.replaced,
            held,
            change.votes.as_slice(),
        ) else {
            self.replaced.truncate(count);
            return Err(Memory);
        };
        let Ok(()) = self.change.votes.put_all(copies) else {
            self.replaced.truncate(count);
            return Err(Memory);
        };
        if change.promised.is_some() {
            self.change.promised = change.promised;
        }
        Ok(())
    }
}

// Appends what each of the votes is to replace among those that are held. On `Memory` some may be appended.
fn note_all<B: Body>(
    alloc: Global,
    replaced: &mut Vec<Replaced<B>>,
    held: &KeptVotes<B>,
    votes: &[Vote<B>],
) -> Result<(), Memory>
    ensures ok { OnOk result (replaced.new.items ≡ replaced.old.items ++ replaced_by votes.now held.now.votes) }
    ensures front { take (length replaced.old.items) replaced.new.items ≡ replaced.old.items }
{
    for vote in votes {
        let had = had_at(alloc, held, vote.slot)?;
        let Ok(()) = replaced.push(had) else {
            return Err(Memory);
        };
    }
    Ok(())
}

// Returns what the slot has.
fn had_at<B: Body>(alloc: Global, held: &KeptVotes<B>, slot: Slot) -> Result<Replaced<B>, Memory>
    ensures { IfOk result (λ r. r ≡ had slot (vote_in slot held.now.votes)) }
{
    match held.find(slot) {
        None => Ok(Replaced::Nothing { slot }),
        Some(vote) => {
            let vote = vote.copy(alloc)?;
            Ok(Replaced::Held { vote })
        }
    }
}
