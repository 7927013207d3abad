// Counted promises, and when they make a majority.
ghost use Rattle.std.specs.Prelude.{◌≡◌, ℕ, ◌≤◌, List, ◌&&◌, nat_lt};
ghost use Rattle.paxos_packets.specs.Members.{is_in, is_majority};
ghost use Rattle.paxos_packets.specs.declared.vote.Vote.{Vote};
ghost use Rattle.paxos_proposer.specs.Promises.{and_promise_of, lowest, above_floors};
ghost use Rattle.paxos_proposer.specs.Reports.{is_counted};

use paxos_packets::{Floor, Members, NodeSet, Votes};

/// A counted promise: the member that gave it, its floor then, and the votes that it reported.
#[derive(Debug, Drop)]
pub struct CountedPromise<B> {
    pub node: u8,
    pub floor: Floor,
    pub votes: Votes<B>,
}

// Returns whether a promise of this node was counted.
pub(crate) fn is_counted<B>(promises: &[CountedPromise<B>], node: u8) -> bool
    ensures { result ≡ is_counted promises.now node }
{
    promises.iter().any(|promise| promise.node == node)
}

// Returns whether these promises and one of this node make a majority.
pub(crate) fn is_majority_with<B>(
    members: Members,
    promises: &[CountedPromise<B>],
    node: u8,
) -> bool
    ensures { (floor : ℕ) (votes : List (Vote B))
        → result ≡ is_majority members (is_counted (and_promise_of node floor votes promises.now)) }
{
    // There are at most 7 members.
    let _count = members.count();
    let mut nodes = nodes_of(promises);
    nodes.insert(node);
    members.majority(nodes)
}

// Returns the nodes whose promises were counted.
fn nodes_of<B>(promises: &[CountedPromise<B>]) -> NodeSet
    ensures { (node : ℕ) → is_in result node ≡ (is_counted promises.now node && nat_lt node 8) }
{
    let mut nodes = NodeSet::new();
    for promise in promises {
        nodes.insert(promise.node);
    }
    nodes
}

// Returns the first slot in which a leader with this floor may propose, if these promises and one more with the floor `last` were counted.
pub(crate) fn lowest_with<B>(
    first: u64,
    own: Floor,
    promises: &[CountedPromise<B>],
    last: Floor,
) -> u64
    ensures lowest { (node : ℕ) (votes : List (Vote B)) → result ≡ lowest first own (and_promise_of node last votes promises.now) }
    ensures least { 1 ≤ result }
{
    let slot = above_floors(first.max(own.get() + 1), promises);
    slot.max(last.get() + 1)
}

// Returns the slot, or the first one above each of these promises' floors, whichever is later.
fn above_floors<B>(slot: u64, promises: &[CountedPromise<B>]) -> u64
    ensures above { result ≡ above_floors slot promises.now }
    ensures least { slot ≤ result }
{
    let mut above = slot;
    for promise in promises {
        above = above.max(promise.floor.get() + 1);
    }
    above
}
