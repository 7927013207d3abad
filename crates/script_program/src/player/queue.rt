// Keeps the places of the packets between two members, for each ordered pair of them.
ghost use Rattle.std.specs.Prelude.{◌≡◌, ℕ, ◌<◌, ◌≤◌, ◌/◌, ◌%◌, ◌&&◌, ◌==◌, not, false, IfOk, OnOk, OnErr};
ghost use Rattle.std.specs.Prelude.{List, [], ◌∷◌, ◌++◌, length, slice_index_or};
ghost use Rattle.std.specs.List.{find};
ghost use Rattle.paxos_packets.specs.Members.{is_member};
ghost use Rattle.script_program.specs.Waiting.{is_due, is_listed, first_from};
ghost use Rattle.script_program.specs.Queue.{delivered_at, ArePassed, AreQueues, pair_of, least_of};

use crate::player::waiting::Sent;
use paxos_packets::{Members, Memory, NodeSet};
use std::alloc::Global;

// The number of queues: one for each ordered pair of the nodes 0 to 7.
const PAIRS: usize = 64;

// The places of the packets between two members, and how many of the first ones were delivered and are skipped.
#[derive(Drop)]
pub(crate) struct Queue {
    places: Vec<usize>,
    passed: usize,
}

// Returns queues without a place.
pub(crate) fn empty_queues(alloc: Global) -> Result<Vec<Queue>, Memory>
    ensures { IfOk result (λ queues. (members : ℕ) → AreQueues members [] queues.items) }
{
    let mut queues = Vec::with_capacity(alloc, PAIRS)?;
    for _pair in 0..PAIRS {
        queues.push(Queue {
            places: Vec::new(alloc),
            passed: 0,
        })?;
    }
    Ok(queues)
}

// Appends the place of the packet that was sent last to the queue of its pair, if both ends are members.
pub(crate) fn put_place(
    queues: &mut Vec<Queue>,
    members: Members,
    packet: Sent,
    place: usize,
) -> Result<(), Memory>
    requires { length queues.old.items ≡ 64 }
    ensures ok { OnOk result ((sent : List Sent) → place ≡ length sent → AreQueues members sent queues.old.items
        → AreQueues members (sent ++ packet ∷ []) queues.new.items) }
    ensures err { OnErr result ((sent : List Sent) → AreQueues members sent queues.old.items → AreQueues members sent queues.new.items) }
{
    if !are_members(members, packet) {
        return Ok(());
    }
    let pair = usize::from(packet.sender) * 8 + usize::from(packet.addressee);
    queues[pair].places.push(place)?;
    Ok(())
}

fn are_members(members: Members, packet: Sent) -> bool
    ensures { result ≡ (is_member members packet.sender && is_member members packet.addressee) }
{
    members.contains(packet.sender) && members.contains(packet.addressee)
}

// Returns the place of the first packet that is due, over the queues of all pairs.
pub(crate) fn first_in_any(
    queues: &mut Vec<Queue>,
    sent: &[Sent],
    members: Members,
    among: NodeSet,
) -> Option<usize>
    requires queues { AreQueues members sent.now queues.old.items }
    ensures value { result ≡ first_from (is_due members among) 0 sent.now }
    ensures queues { AreQueues members sent.now queues.new.items }
{
    let pairs = 8 * (usize::from(members.count()) + 1);
    let mut least = None;
    for pair in 0..pairs {
        least = least_of(least, first_of_pair(queues, sent, members, among, pair));
    }
    least
}

// Returns the place of the first packet that is due and belongs to this pair.
fn first_of_pair(
    queues: &mut Vec<Queue>,
    sent: &[Sent],
    members: Members,
    among: NodeSet,
    pair: usize,
) -> Option<usize>
    requires pair { pair < 64 }
    requires few { members ≤ 7 }
    requires queues { AreQueues members sent.now queues.old.items }
    ensures value { result ≡ first_from (λ p. is_due members among p && (pair_of p == pair)) 0 sent.now }
    ensures queues { AreQueues members sent.now queues.new.items }
{
    if !is_pair_listed(members, among, pair) {
        return None;
    }
    first_in(&mut queues[pair], sent)
}

fn is_pair_listed(members: Members, among: NodeSet, pair: usize) -> bool
    requires { pair < 64 }
    ensures { result ≡ (is_listed members among (pair / 8) && is_listed members among (pair % 8)) }
{
    is_listed(members, among, pair / 8) && is_listed(members, among, pair % 8)
}

fn is_listed(members: Members, among: NodeSet, node: usize) -> bool
    requires { node < 8 }
    ensures { result ≡ is_listed members among node }
{
    let node = node as u8;
    members.contains(node) && among.contains(node)
}

fn least_of(one: Option<usize>, other: Option<usize>) -> Option<usize>
    ensures { result ≡ least_of one other }
{
    match (one, other) {
        (Some(a), Some(b)) => Some(a.min(b)),
        (Some(a), None) => Some(a),
        (None, b) => b,
    }
}

// Returns the first place of the queue whose packet was not delivered. Those before it are skipped from now on.
fn first_in(queue: &mut Queue, sent: &[Sent]) -> Option<usize>
    requires within { queue.old.passed ≤ length queue.old.places.items }
    ensures value { ArePassed sent.now queue.old.places.items queue.old.passed
        → result ≡ find (λ place. not (delivered_at sent.now place)) queue.old.places.items }
    ensures places { queue.new.places.items ≡ queue.old.places.items }
    ensures within { queue.new.passed ≤ length queue.new.places.items }
    ensures passed { ArePassed sent.now queue.old.places.items queue.old.passed
        → ArePassed sent.now queue.new.places.items queue.new.passed }
{
    queue.passed = first_waiting(queue.places.as_slice(), queue.passed, sent);
    queue.places.get(queue.passed).copied()
}

// Returns how many of the first places were delivered, if the first `passed` were.
fn first_waiting(places: &[usize], passed: usize, sent: &[Sent]) -> usize
    requires { passed ≤ length places.now }
    ensures within { result ≤ length places.now }
    ensures passed { ArePassed sent.now places.now passed → ArePassed sent.now places.now result }
    ensures stops { result < length places.now → delivered_at sent.now (slice_index_or places.now result 0) ≡ false }
{
    for index in passed..places.len() {
        if !is_delivered(sent, places[index]) {
            return index;
        }
    }
    places.len()
}

fn is_delivered(sent: &[Sent], place: usize) -> bool
    ensures { result ≡ delivered_at sent.now place }
{
    match sent.get(place) {
        Some(packet) => packet.is_delivered,
        None => true,
    }
}
