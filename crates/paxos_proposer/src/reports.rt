// What the promises of a majority report, and which entries a new leader has to propose for that.
ghost use Rattle.std.specs.Prelude.{◌≡◌, ◌<◌, ◌≤◌, ◌^◌, List, [], ◌∷◌, ◌++◌, max, IfOk, OnOk, option_copied};
ghost use Rattle.paxos_packets.specs.declared.vote.Vote.{Vote};
ghost use Rattle.paxos_proposer.specs.Reports.{reports, best, greater, past_reports, entry_or_noop, called_for};

use crate::promises::CountedPromise;
use paxos_packets::{Body, Entries, Entry, Memory, Slot, Vote, Votes};
use std::alloc::Global;

// Returns the entries that these promises and a last one call for, from the first slot to the greatest one reported. Takes a number of
// steps that grows with the votes reported and, for each slot, with the promises.
pub(crate) fn called_for<B: Body>(
    alloc: Global,
    first: u64,
    promises: &[CountedPromise<B>],
    last: &Votes<B>,
) -> Result<Entries<B>, Memory>
    requires { 1 ≤ first }
    ensures { IfOk result (λ entries. entries ≡ called_for first (reports promises.now ++ last.now)) }
{
    let past = past_in(past_of(first, promises), last.as_slice());
    let mut entries = Vec::with_capacity(alloc, (past - first) as usize)?;
    for slot in first..past {
        push_called(alloc, &mut entries, slot, promises, last)?;
    }
    Ok(Entries::of(entries))
}

// Appends the entry that is called for in the slot.
fn push_called<B: Body>(
    alloc: Global,
    entries: &mut Vec<Entry<B>>,
    slot: u64,
    promises: &[CountedPromise<B>],
    last: &Votes<B>,
) -> Result<(), Memory>
    requires least { 1 ≤ slot }
    requires most { slot < 2 ^ 40 }
    ensures { OnOk result (entries.new.items ≡ entries.old.items ++ entry_or_noop (best slot (reports promises.now ++ last.now)) ∷ []) }
{
    let entry = called_in(alloc, slot, promises, last)?;
    entries.push(entry)?;
    Ok(())
}

// Returns the entry that is called for in the slot.
fn called_in<B: Body>(
    alloc: Global,
    slot: u64,
    promises: &[CountedPromise<B>],
    last: &Votes<B>,
) -> Result<Entry<B>, Memory>
    requires least { 1 ≤ slot }
    requires most { slot < 2 ^ 40 }
    ensures { IfOk result (λ entry. entry ≡ entry_or_noop (best slot (reports promises.now ++ last.now))) }
{
    let Some(slot) = Slot::new(slot) else {
        unreachable!()
    };
    match best(slot, promises, last) {
        Some(vote) => vote.entry.copy(alloc),
        None => Ok(Entry::Noop),
    }
}

// Returns the vote for the slot with the greatest ballot; of two with the same ballot, the later one.
pub(crate) fn best<'a, B>(
    slot: Slot,
    promises: &'a [CountedPromise<B>],
    last: &'a Votes<B>,
) -> Option<&'a Vote<B>>
    ensures { option_copied result ≡ best slot (reports promises.now ++ last.now) }
{
    let mut best = None;
    for promise in promises {
        best = greater(best, vote_for(slot, &promise.votes));
    }
    greater(best, vote_for(slot, last))
}

// Returns the vote for the slot among those of one promise, which has at most one for each slot.
fn vote_for<'a, B>(slot: Slot, votes: &'a Votes<B>) -> Option<&'a Vote<B>>
    ensures { (others : List (Vote B)) → best slot (votes.now ++ others) ≡ greater (option_copied result) (best slot others) }
{
    // They ascend by slot.
    let _ascending = votes.as_slice();
    votes.find(slot)
}

// Returns the vote with the greater ballot; of two with the same ballot, the later one.
fn greater<'a, B>(earlier: Option<&'a Vote<B>>, later: Option<&'a Vote<B>>) -> Option<&'a Vote<B>>
    ensures { option_copied result ≡ greater (option_copied earlier.entry) (option_copied later.entry) }
{
    let Some(vote) = earlier else { return later };
    match later {
        Some(other) if !other.ballot.is_below(&vote.ballot) => Some(other),
        _ => Some(vote),
    }
}

// Returns one past the greatest slot that these promises report, and at least the first one.
pub(crate) fn past_of<B>(first: u64, promises: &[CountedPromise<B>]) -> u64
    ensures past { result ≡ past_reports first (reports promises.now) }
    ensures least { first ≤ result }
    ensures most { result ≤ max first (2 ^ 40) }
{
    let mut past = first;
    for promise in promises {
        past = past_in(past, promise.votes.as_slice());
    }
    past
}

// Returns one past the greatest slot of these votes, and at least the first one.
pub(crate) fn past_in<B>(first: u64, votes: &[Vote<B>]) -> u64
    ensures past { result ≡ past_reports first votes.now }
    ensures least { first ≤ result }
    ensures most { result ≤ max first (2 ^ 40) }
{
    let mut past = first;
    for vote in votes {
        past = past.max(vote.slot.get() + 1);
    }
    past
}
