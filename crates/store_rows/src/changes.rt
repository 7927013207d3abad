// Which changes have a place over the numbers of a store, and the numbers after them.
ghost use Rattle.std.specs.Prelude.{◌≡◌, ◌≤◌, Some, None, IsTrue, ◌↔◌, nat_lt};
ghost use Rattle.std.specs.List.{list_all};
ghost use Rattle.store_rows.specs.Numbers.{is_ballot};
ghost use Rattle.store_rows.specs.Changes.{is_lower, is_placed, promise_after, floor_after, numbers_after};

use crate::rows::{Numbers, is_promised};
use paxos_packets::{Ballot, Change, Floor, Snapshot, Vote};

// Returns whether the ballot is one: a round from 1 to 2^48 - 1, and a node from 1 to 7.
fn is_ballot(ballot: &Ballot) -> bool
    ensures { result ≡ is_ballot ballot.now }
{
    (1..=281_474_976_710_655).contains(&ballot.round) && (1..=7).contains(&ballot.node)
}

// Returns whether the ballot is below the promise.
fn is_lower(ballot: &Ballot, promised: &Option<Ballot>) -> bool
    ensures { result ≡ is_lower ballot.now promised.now }
{
    match promised {
        Some(promised) => ballot.is_below(promised),
        None => false,
    }
}

// Returns the promise after a change, or `None` if the change lowers it.
fn promise_after(promised: &Option<Ballot>, change: &Option<Ballot>) -> Option<Option<Ballot>>
    ensures { result ≡ promise_after promised.now change.now }
{
    let Some(ballot) = change else {
        return Some(*promised);
    };
    if !is_ballot(ballot) || is_lower(ballot, promised) {
        return None;
    }
    Some(Some(*ballot))
}

// Returns the floor after a change, or `None` if the change lowers or repeats it.
fn floor_after(floor: Floor, snapshot: &Option<Snapshot>) -> Option<Floor>
    ensures { result ≡ floor_after floor snapshot.now }
{
    let Some(snapshot) = snapshot else {
        return Some(floor);
    };
    let _octets = snapshot.octets(); // for the proof
    if snapshot.floor().get() <= floor.get() {
        return None;
    }
    Some(Floor::at(snapshot.floor()))
}

// Returns whether the vote may be held under the promise, above the floor.
fn is_placed<B>(promised: &Option<Ballot>, floor: Floor, vote: &Vote<B>) -> bool
    ensures { result ≡ is_placed promised.now floor vote.now }
{
    is_ballot(&vote.ballot) && is_promised(promised, &vote.ballot) && floor.get() < vote.slot.get()
}

// Returns whether each of the votes may be held under the promise, above the floor.
fn are_placed<B>(promised: &Option<Ballot>, floor: Floor, votes: &[Vote<B>]) -> bool
    ensures { result ≡ list_all (is_placed promised.now floor) votes.now }
{
    for vote in votes {
        if !is_placed(promised, floor, vote) {
            return false;
        }
    }
    true
}

/// Returns the numbers after a change, or `None` if the change has no place over those that are known: it lowers the promise, lowers or
/// repeats the floor, or has a vote above the promise, a vote at or below the floor, or a ballot out of range.
pub fn numbers_after<B>(known: &Numbers, change: &Change<B>) -> Option<Numbers>
    ensures { result ≡ numbers_after known.now change.now }
{
    let floor = floor_after(known.floor, &change.snapshot)?;
    let promised = promise_after(&known.promised, &change.promised)?;
    if !are_placed(&promised, floor, change.votes.as_slice()) {
        return None;
    }
    Some(Numbers {
        boot: known.boot,
        promised,
        floor,
    })
}
