//! What the helpers are asked, and what they answer.

ghost use Rattle.std.specs.Prelude.{◌≡◌, ◌++◌, ◌∷◌, [], IfOk, OnOk, map};
ghost use Rattle.std.specs.List.{flat_map};
ghost use Rattle.world_rescue.specs.Casting.{put_from};
ghost use Rattle.world_rescue.specs.Course.{seat_of, delivered, refused_round, asked_in_vain, seen_then, votes_then, promises, cast_by, pass};

use paxos_node::{Event, Node};
use paxos_packets::{Ballot, Body, Kind, Memory, Packet, Vote, Votes};
use std::alloc::Global;

// Appends that a packet reaches its addressee.
pub(crate) fn deliver<B: Drop>(
    events: &mut Vec<Event<B>>,
    sender: u8,
    kind: Kind<B>,
    addressee: u8,
) -> Result<(), Memory>
    ensures { OnOk result (events.new.items ≡ events.old.items ++ delivered sender kind addressee ∷ []) }
{
    let packet = Packet {
        sender,
        addressee,
        kind,
    };
    happen(events, Event::Deliver { packet })
}

// Appends an event.
pub(crate) fn happen<B: Drop>(events: &mut Vec<Event<B>>, event: Event<B>) -> Result<(), Memory>
    ensures { OnOk result (events.new.items ≡ events.old.items ++ event ∷ []) }
{
    let Ok(()) = events.push(event) else {
        return Err(Memory);
    };
    Ok(())
}

// Asks the helper to promise the ballot, and brings back the promise for which it refuses, if it does. Returns the round of that, or 0.
fn ask_in_vain<B: Drop>(
    events: &mut Vec<Event<B>>,
    helper: &Node<B>,
    ballot: Ballot,
    first: u64,
) -> Result<u64, Memory>
    ensures events { OnOk result (events.new.items ≡ events.old.items ++ asked_in_vain ballot first (seat_of helper.now)) }
    ensures round { IfOk result (λ round. round ≡ refused_round ballot helper.now.state.rows.promised) }
{
    deliver(
        events,
        ballot.node,
        Kind::Prepare { ballot, first },
        helper.me(),
    )?;
    let Some(promised) = helper.promised() else {
        return Ok(0);
    };
    if promised.is_below(&ballot) {
        return Ok(0);
    }
    deliver(
        events,
        helper.me(),
        Kind::Nack { ballot, promised },
        ballot.node,
    )?;
    Ok(promised.round)
}

// Asks each helper so. Returns the greatest round that the ballot's node saw then.
pub(crate) fn ask_all_in_vain<B: Drop>(
    events: &mut Vec<Event<B>>,
    helpers: &[&Node<B>],
    ballot: Ballot,
    first: u64,
) -> Result<u64, Memory>
    ensures events { OnOk result (events.new.items
        ≡ events.old.items ++ flat_map (asked_in_vain ballot first) (map (λ h. seat_of h.now) helpers.now)) }
    ensures seen { IfOk result (λ seen. seen ≡ seen_then ballot (map (λ h. seat_of h.now) helpers.now)) }
{
    let mut seen = ballot.round;
    for helper in helpers {
        let round = ask_in_vain(events, helper, ballot, first)?;
        seen = seen.max(round);
    }
    Ok(seen)
}

// Has the helper promise the ballot, once it has cast these votes, and brings its promise to the ballot's node. Returns the votes that it
// reports.
pub(crate) fn promise<B: Body>(
    alloc: Global,
    events: &mut Vec<Event<B>>,
    helper: &Node<B>,
    ballot: Ballot,
    first: u64,
    cast: &[Vote<B>],
) -> Result<Votes<B>, Memory>
    ensures events { OnOk result (events.new.items ≡ events.old.items ++ promises ballot first cast.now (seat_of helper.now)) }
    ensures votes { IfOk result (λ votes. votes ≡ votes_then first cast.now (seat_of helper.now)) }
{
    deliver(
        events,
        ballot.node,
        Kind::Prepare { ballot, first },
        helper.me(),
    )?;
    let votes = votes_then(alloc, helper, first, cast)?;
    let copy = votes.copy(alloc)?;
    deliver(
        events,
        helper.me(),
        Kind::Promise {
            ballot,
            floor: helper.floor(),
            votes: copy,
        },
        ballot.node,
    )?;
    Ok(votes)
}

// Returns the node's votes from this slot on, once it has cast these as well.
pub(crate) fn votes_then<B: Body>(
    alloc: Global,
    node: &Node<B>,
    first: u64,
    cast: &[Vote<B>],
) -> Result<Votes<B>, Memory>
    ensures { IfOk result (λ votes. votes ≡ votes_then first cast.now (seat_of node.now)) }
{
    let mut votes = node.votes_from(first)?;
    for vote in cast {
        put_from(alloc, &mut votes, first, vote)?;
    }
    Ok(votes)
}

// Puts a copy of the vote among those from this slot on, if it is one of them.
fn put_from<B: Body>(
    alloc: Global,
    votes: &mut Votes<B>,
    first: u64,
    vote: &Vote<B>,
) -> Result<(), Memory>
    ensures { OnOk result (votes.new ≡ put_from first vote.now votes.old) }
{
    if vote.slot.get() < first {
        return Ok(());
    }
    let copy = vote.copy(alloc)?;
    let Ok(()) = votes.put(copy) else {
        return Err(Memory);
    };
    Ok(())
}

// Has the helper cast the vote, and brings that to the node.
fn cast_by<B: Body>(
    alloc: Global,
    events: &mut Vec<Event<B>>,
    node: u8,
    vote: &Vote<B>,
    helper: &Node<B>,
) -> Result<(), Memory>
    ensures { OnOk result (events.new.items ≡ events.old.items ++ cast_by node vote.now (seat_of helper.now)) }
{
    let asked = vote.copy(alloc)?;
    deliver(events, node, Kind::Accept { vote: asked }, helper.me())?;
    let counted = vote.copy(alloc)?;
    deliver(events, helper.me(), Kind::Accepted { vote: counted }, node)
}

// Has each helper cast the vote, and brings that to the node.
fn cast_by_all<B: Body>(
    alloc: Global,
    events: &mut Vec<Event<B>>,
    node: u8,
    vote: &Vote<B>,
    helpers: &[&Node<B>],
) -> Result<(), Memory>
    ensures { OnOk result (events.new.items
        ≡ events.old.items ++ flat_map (cast_by node vote.now) (map (λ h. seat_of h.now) helpers.now)) }
{
    for helper in helpers {
        cast_by(alloc, events, node, vote, helper)?;
    }
    Ok(())
}

// Has each helper cast each of these votes, in order, and brings them to the node.
pub(crate) fn pass<B: Body>(
    alloc: Global,
    events: &mut Vec<Event<B>>,
    node: u8,
    votes: &[Vote<B>],
    helpers: &[&Node<B>],
) -> Result<(), Memory>
    ensures { OnOk result (events.new.items ≡ events.old.items ++ pass node (map (λ h. seat_of h.now) helpers.now) votes.now) }
{
    for vote in votes {
        cast_by_all(alloc, events, node, vote, helpers)?;
    }
    Ok(())
}
