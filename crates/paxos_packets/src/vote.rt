//! Votes and lists of them by slot: how they are found, put, copied and compared.

ghost use Rattle.std.specs.Prelude.{◌≡◌, ◌+◌, ◌<◌, ◌≤◌, ℕ, suc, [], ◌∷◌, ◌++◌, length, None, option_copied, is_some, is_ok};
ghost use Rattle.std.specs.Prelude.{IsOk, IsTrue, vec_len, vec_capacity, IfOk, IfErr, IfSome, OnOk, OnErr};
ghost use Rattle.std.specs.Cmp.Lexicographic.{pointwise};
ghost use Rattle.paxos_packets.specs.Vote.{same_vote, vote_equality, votes_equality, IsAscending, place, vote_in};
ghost use Rattle.paxos_packets.specs.Vote.{put_back, put_vote, put_votes, votes_from};

use crate::ballot::Ballot;
use crate::body::{Body, Memory};
use crate::entry::Entry;
use crate::list::{all_same, copy_all};
use crate::slot::Slot;
use std::alloc::Global;
use std::marker::Model;

/// A vote for an entry in a slot and a ballot: a proposal that was accepted (Lamport 2001, section 2.2).
#[derive(Debug, Drop)]
pub struct Vote<B> {
    /// The slot that it is for.
    pub slot: Slot,
    /// The ballot in which it was cast.
    pub ballot: Ballot,
    /// The entry that it is for.
    pub entry: Entry<B>,
}

/// Votes by ascending slot, at most one for each slot.
#[derive(Debug)]
pub struct Votes<B> {
    list: Vec<Vote<B>>,
}

impl<B: Drop> Drop for Votes<B> {
    fn drop(self) {
        let Votes { list: _list } = self;
    }
}

impl<B> Model for Votes<B> {
    ghost use Rattle.std.specs.Prelude.{List};
    ghost use Rattle.paxos_packets.specs.declared.vote.Vote.{Vote};

    ghost Value = { List (Vote B) };

    ghost use Rattle.paxos_packets.specs.Vote.{IsAscending};

    ghost view = { λ v. v.list.items };

    ghost invariant = { λ v. IsAscending v.list.items };
}

impl<B> Votes<B> {
    /// Returns an empty list. Does not allocate; `put` will, from `alloc`.
    pub fn new(alloc: Global) -> Votes<B>
        ensures { result ≡ [] }
    {
        Votes {
            list: Vec::new(alloc),
        }
    }

    // Returns the list of these votes, which ascend.
    pub(crate) fn of(list: Vec<Vote<B>>) -> Votes<B>
        requires { IsAscending list.items }
        ensures { result ≡ list.items }
    {
        Votes { list }
    }

    /// Returns the votes, by ascending slot.
    pub fn as_slice(&self) -> &[Vote<B>]
        ensures votes { result.now ≡ self.now }
        ensures ascending { IsAscending self.now }
    {
        self.list.as_slice()
    }

    /// Returns the votes as a vector, by ascending slot. Does not allocate.
    pub fn into_vec(self) -> Vec<Vote<B>>
        ensures votes { result.items ≡ self }
        ensures ascending { IsAscending self }
    {
        let Votes { list } = self;
        list
    }

    /// Returns the vote in the slot, if any. Does not allocate, and takes a number of steps logarithmic in the number of votes.
    pub fn find(&self, slot: Slot) -> Option<&Vote<B>>
        ensures { option_copied result ≡ vote_in slot self.now }
    {
        find_in(&self.list, slot.get())
    }
}

impl<B: Drop> Votes<B> {
    /// Puts the vote into its slot, and replaces the vote that is there. After all others that takes a constant number of steps; otherwise
    /// its place is found in a number logarithmic in the number of votes. Only a vote for a new slot allocates, and moves the votes of
    /// later slots. On `Memory`, which only comes if the slot had no vote, the votes are as they were.
    pub fn put(&mut self, vote: Vote<B>) -> Result<(), Memory>
        ensures ok { OnOk result (self.new ≡ put_vote vote self.old) }
        ensures err { OnErr result (self.new ≡ self.old) }
        ensures absent { OnErr result (vote_in vote.slot self.old ≡ None) }
    {
        put_in(&mut self.list, vote)
    }

    /// Puts each of the votes, in order. On `Memory`, which only comes if room for all of them was refused, the votes are as they were.
    pub fn put_all(&mut self, votes: Votes<B>) -> Result<(), Memory>
        ensures ok { OnOk result (self.new ≡ put_votes votes self.old) }
        ensures err { OnErr result (self.new ≡ self.old) }
    {
        let Votes { list } = votes;
        put_all_in(&mut self.list, list)
    }
}

impl<B: Body> Votes<B> {
    /// Copies the votes from the slot with this number on; returns `Memory` if memory for them runs out. It copies no other vote, and looks
    /// at only a logarithmic number of others.
    pub fn copy_from(&self, alloc: Global, first: u64) -> Result<Votes<B>, Memory>
        ensures { IfOk result (λ votes. votes ≡ votes_from first self.now) }
    {
        Ok(Votes {
            list: copy_behind(alloc, &self.list, first)?,
        })
    }
}

impl<B: Body> Body for Votes<B> {
    ghost same = { pointwise (same_vote B.same) };

    fn copy(&self, alloc: Global) -> Result<Votes<B>, Memory> {
        Ok(Votes {
            list: copy_all(alloc, &self.list)?,
        })
    }

    fn same(&self, other: &Votes<B>) -> bool {
        all_same(&self.list, &other.list)
    }

    ghost reflexive = { (votes_equality B.same (record { reflexive = B.reflexive; sound = B.sound })).reflexive };

    ghost sound = { (votes_equality B.same (record { reflexive = B.reflexive; sound = B.sound })).sound };
}

impl<B: Body> Body for Vote<B> {
    ghost same = { same_vote B.same };

    fn copy(&self, alloc: Global) -> Result<Vote<B>, Memory> {
        Ok(Vote {
            slot: self.slot,
            ballot: self.ballot,
            entry: self.entry.copy(alloc)?,
        })
    }

    fn same(&self, other: &Vote<B>) -> bool {
        self.slot == other.slot && self.ballot == other.ballot && self.entry.same(&other.entry)
    }

    ghost reflexive = { (vote_equality B.same (record { reflexive = B.reflexive; sound = B.sound })).reflexive };

    ghost sound = { (vote_equality B.same (record { reflexive = B.reflexive; sound = B.sound })).sound };
}

// Returns how many of the votes are for slots below this number. Takes a constant number of steps if all are, as for the slot that is voted
// for next, and otherwise a number logarithmic in theirs.
fn place_of<B>(votes: &[Vote<B>], slot: u64) -> usize
    requires { IsAscending votes.now }
    ensures place { result ≡ place slot votes.now }
    ensures within { result ≤ length votes.now }
{
    if is_behind(votes, slot) {
        return votes.len();
    }
    votes.partition_point(|vote| vote.slot.get() < slot)
}

// Returns whether the slot with this number is after the last of the votes.
fn is_behind<B>(votes: &[Vote<B>], slot: u64) -> bool
    requires { IsAscending votes.now }
    ensures { IsTrue result → length votes.now ≡ place slot votes.now }
{
    match votes.last() {
        Some(last) => last.slot.get() < slot,
        None => false,
    }
}

// Returns the index of the slot's vote, or else where it would be.
fn seek<B>(votes: &[Vote<B>], slot: u64) -> Result<usize, usize>
    requires { IsAscending votes.now }
    ensures found { IfOk result (λ at. at ≡ place slot votes.now) }
    ensures found_within { IfOk result (λ at. at < length votes.now) }
    ensures free { IfErr result (λ at. at ≡ place slot votes.now) }
    ensures free_within { IfErr result (λ at. at ≤ length votes.now) }
    ensures which { is_ok result ≡ is_some (vote_in slot votes.now) }
{
    let place = place_of(votes, slot);
    match votes.get(place) {
        Some(vote) if vote.slot.get() == slot => Ok(place),
        _ => Err(place),
    }
}

// Copies the votes from the slot with this number on.
pub(crate) fn copy_behind<B: Body>(
    alloc: Global,
    votes: &[Vote<B>],
    first: u64,
) -> Result<Vec<Vote<B>>, Memory>
    requires { IsAscending votes.now }
    ensures copies { IfOk result (λ copies. copies.items ≡ votes_from first votes.now) }
    ensures ascending { IfOk result (λ copies. IsAscending copies.items) }
{
    let place = place_of(votes, first);
    copy_all(alloc, &votes[place..])
}

// Returns the vote in the slot, if any.
pub(crate) fn find_in<B>(votes: &[Vote<B>], slot: u64) -> Option<&Vote<B>>
    requires { IsAscending votes.now }
    ensures { option_copied result ≡ vote_in slot votes.now }
{
    match seek(votes, slot) {
        Ok(place) => Some(&votes[place]),
        Err(_) => None,
    }
}

// Puts the vote into its slot, and replaces the vote that is there.
fn put_in<B: Drop>(votes: &mut Vec<Vote<B>>, vote: Vote<B>) -> Result<(), Memory>
    requires { IsAscending votes.old.items }
    ensures ok { OnOk result (votes.new.items ≡ put_vote vote votes.old.items) }
    ensures err { OnErr result (votes.new.items ≡ votes.old.items) }
    ensures absent { OnErr result (vote_in vote.slot votes.old.items ≡ None) }
    ensures ascending { IsAscending votes.new.items }
    ensures length { vec_len votes.new ≤ vec_len votes.old + 1 }
    ensures capacity { vec_capacity votes.old ≤ vec_capacity votes.new }
    ensures succeeds { vec_len votes.old < vec_capacity votes.old → IsOk result }
{
    match seek(votes, vote.slot.get()) {
        Ok(place) => votes[place] = vote,
        Err(place) => votes.insert(place, vote)?,
    }
    Ok(())
}

// Puts each of the votes, in order, or none of them.
fn put_all_in<B: Drop>(votes: &mut Vec<Vote<B>>, more: Vec<Vote<B>>) -> Result<(), Memory>
    requires { IsAscending votes.old.items }
    ensures ok { OnOk result (votes.new.items ≡ put_votes more.items votes.old.items) }
    ensures err { OnErr result (votes.new.items ≡ votes.old.items) }
    ensures ascending { IsAscending votes.new.items }
{
    votes.reserve(more.len())?;
    put_all_in_room(votes, more);
    Ok(())
}

// Puts each of the votes, in order, given room for all of them.
pub(crate) fn put_all_in_room<B: Drop>(votes: &mut Vec<Vote<B>>, more: Vec<Vote<B>>)
    requires ascends { IsAscending votes.old.items }
    requires room { vec_len votes.old + length more.items ≤ vec_capacity votes.old }
    ensures votes { votes.new.items ≡ put_votes more.items votes.old.items }
    ensures ascending { IsAscending votes.new.items }
{
    for vote in more {
        let Ok(()) = put_in(votes, vote) else {
            unreachable!()
        };
    }
}

// Forgets the votes in slots up to this floor.
pub(crate) fn forget_in<B: Drop>(votes: &mut Vec<Vote<B>>, floor: u64)
    requires { IsAscending votes.old.items }
    ensures votes { votes.new.items ≡ votes_from (suc floor) votes.old.items }
    ensures ascending { IsAscending votes.new.items }
    ensures length { vec_len votes.new ≤ vec_len votes.old }
    ensures capacity { vec_capacity votes.new ≡ vec_capacity votes.old }
{
    votes.retain(|vote| floor < vote.slot.get());
}

// Puts another vote for the slot, or none, in the place of the one that is there, if one is.
pub(crate) fn put_back_in<B: Drop>(votes: &mut Vec<Vote<B>>, slot: u64, other: Option<Vote<B>>)
    requires ascends { IsAscending votes.old.items }
    requires slot { IfSome other (λ vote. vote.slot ≡ slot) }
    ensures votes { votes.new.items ≡ put_back slot other votes.old.items }
    ensures ascending { IsAscending votes.new.items }
{
    let Ok(place) = seek(votes, slot) else {
        drop(other);
        return;
    };
    match other {
        Some(vote) => votes[place] = vote,
        None => drop(votes.remove(place)),
    }
}
