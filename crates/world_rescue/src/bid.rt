//! A node's bid to lead: its ballot, what the helpers promise and report, and what it proposes then.

ghost use Rattle.std.specs.Prelude.{◌≡◌, ◌<◌, ◌≤◌, ◌++◌, ◌∷◌, [], suc, true, fold, map, IfOk, OnOk, IsOkUnless};
ghost use Rattle.std.specs.List.{flat_map};
ghost use Rattle.paxos_proposer.specs.Proposer.{own_ballot, round_end, submitted};
ghost use Rattle.paxos_proposer.specs.State.{role_in, with_role, after_submit};
ghost use Rattle.world_rescue.specs.Course.{seat_of, floor_of, propose_all, propose_new, proposes, hears};
ghost use Rattle.world_rescue.specs.Course.{votes_then, promises, lead};
ghost use Rattle.world_rescue.specs.Parts.{led_by};
ghost use Rattle.world_rescue.specs.Room.{has_slots};
ghost use Rattle.world_rescue.specs.declared.fault.CourseFault.TheVariants as fault;

use crate::fault::CourseFault;
use crate::visits::{happen, promise, votes_then};
use paxos_node::{Event, Node};
use paxos_packets::{Ballot, Body, Entries, Entry, Floor, Vote};
use paxos_proposer::Proposer;
use std::alloc::Global;

// What a node bids with: the length of its log, from which slot on it asks for votes, its floor, which votes it and the helpers have cast
// meanwhile, and what it proposes beside what the promises call for.
#[derive(Drop)]
pub(crate) struct Bid<'b, B> {
    pub(crate) applied: u64,
    pub(crate) first: u64,
    pub(crate) floor: Floor,
    pub(crate) cast: &'b [Vote<B>],
    pub(crate) pending: &'b [Entry<B>],
}

// Proposes the entry, if the node leads.
fn submit<B: Drop>(proposer: &mut Proposer<B>, entry: Entry<B>) -> Result<(), CourseFault>
    ensures state { OnOk result (proposer.new.state ≡ after_submit entry proposer.old.state) }
    ensures room { has_slots (submitted entry (role_in proposer.old)) ≡ true → IsOkUnless result fault.Memory }
{
    if !proposer.is_leading() {
        return Ok(());
    }
    let Ok(_) = proposer.next() else {
        return Err(CourseFault::NoRoom);
    };
    let Ok(_) = proposer.submit(entry) else {
        return Err(CourseFault::Memory);
    };
    Ok(())
}

// Proposes these entries.
fn propose_all<B: Drop>(proposer: &mut Proposer<B>, entries: Entries<B>) -> Result<(), CourseFault>
    ensures state { OnOk result (proposer.new.state ≡ with_role (propose_all entries (role_in proposer.old)) proposer.old.state) }
    ensures room { has_slots (propose_all entries (role_in proposer.old)) ≡ true → IsOkUnless result fault.Memory }
{
    for entry in entries.into_vec() {
        submit(proposer, entry)?;
    }
    Ok(())
}

// Proposes the entry, unless it stands.
fn propose_unless<B: Body>(
    alloc: Global,
    proposer: &mut Proposer<B>,
    applied: u64,
    entry: &Entry<B>,
) -> Result<(), CourseFault>
    ensures state { OnOk result (proposer.new.state
        ≡ with_role (propose_new B.same applied (entry.now ∷ []) (role_in proposer.old)) proposer.old.state) }
    ensures room { has_slots (propose_new B.same applied (entry.now ∷ []) (role_in proposer.old)) ≡ true → IsOkUnless result fault.Memory }
{
    if proposer.stands(applied, entry) {
        return Ok(());
    }
    let Ok(copy) = entry.copy(alloc) else {
        return Err(CourseFault::Memory);
    };
    submit(proposer, copy)
}

// Proposes each of these entries, unless it stands.
pub(crate) fn propose_new<B: Body>(
    alloc: Global,
    proposer: &mut Proposer<B>,
    applied: u64,
    entries: &[Entry<B>],
) -> Result<(), CourseFault>
    ensures state { OnOk result (proposer.new.state
        ≡ with_role (propose_new B.same applied entries.now (role_in proposer.old)) proposer.old.state) }
    ensures room { has_slots (propose_new B.same applied entries.now (role_in proposer.old)) ≡ true → IsOkUnless result fault.Memory }
{
    for entry in entries {
        propose_unless(alloc, proposer, applied, entry)?;
    }
    Ok(())
}

// Proposes what a majority's promises call for, if they do, and then each of these entries, unless it stands.
fn proposes<B: Body>(
    alloc: Global,
    proposer: &mut Proposer<B>,
    applied: u64,
    pending: &[Entry<B>],
    called: Option<Entries<B>>,
) -> Result<(), CourseFault>
    ensures state { OnOk result (proposer.new.state
        ≡ with_role (proposes B.same applied pending.now called (role_in proposer.old)) proposer.old.state) }
    ensures room { has_slots (proposes B.same applied pending.now called (role_in proposer.old)) ≡ true → IsOkUnless result fault.Memory }
{
    let Some(entries) = called else {
        return Ok(());
    };
    propose_all(proposer, entries)?;
    propose_new(alloc, proposer, applied, pending)
}

// Has the helper promise the ballot, and hears its promise.
fn hear<B: Body>(
    alloc: Global,
    events: &mut Vec<Event<B>>,
    proposer: &mut Proposer<B>,
    helper: &Node<B>,
    ballot: Ballot,
    bid: &Bid<'_, B>,
) -> Result<(), CourseFault>
    ensures events { OnOk result (events.new.items
        ≡ events.old.items ++ promises ballot bid.now.first bid.now.cast.now (seat_of helper.now)) }
    ensures state { OnOk result (proposer.new.state ≡ with_role (hears B.same proposer.old.state.members bid.now.applied bid.now.pending.now ballot
        helper.now.me (floor_of (seat_of helper.now)) (votes_then bid.now.first bid.now.cast.now (seat_of helper.now)) bid.now.floor
        (role_in proposer.old)) proposer.old.state) }
    ensures room { has_slots (hears B.same proposer.old.state.members bid.now.applied bid.now.pending.now ballot helper.now.me
        (floor_of (seat_of helper.now)) (votes_then bid.now.first bid.now.cast.now (seat_of helper.now)) bid.now.floor (role_in proposer.old)) ≡ true →
        IsOkUnless result fault.Memory }
{
    let votes = promise(alloc, events, helper, ballot, bid.first, bid.cast)?;
    let Ok(called) = proposer.on_promise(helper.me(), ballot, helper.floor(), votes, bid.floor)
    else {
        return Err(CourseFault::Memory);
    };
    proposes(alloc, proposer, bid.applied, bid.pending, called)
}

// Has each helper promise the ballot, and hears the promises.
fn hear_all<B: Body>(
    alloc: Global,
    events: &mut Vec<Event<B>>,
    proposer: &mut Proposer<B>,
    helpers: &[&Node<B>],
    ballot: Ballot,
    bid: &Bid<'_, B>,
) -> Result<(), CourseFault>
    ensures events { OnOk result (events.new.items ≡ events.old.items
        ++ flat_map (promises ballot bid.now.first bid.now.cast.now) (map (λ h. seat_of h.now) helpers.now)) }
    ensures state { OnOk result (proposer.new.state ≡ with_role (fold (λ r s. hears B.same proposer.old.state.members bid.now.applied
        bid.now.pending.now ballot s.number (floor_of s) (votes_then bid.now.first bid.now.cast.now s) bid.now.floor r) (role_in proposer.old)
        (map (λ h. seat_of h.now) helpers.now)) proposer.old.state) }
    ensures room { has_slots (fold (λ r s. hears B.same proposer.old.state.members bid.now.applied bid.now.pending.now ballot s.number
        (floor_of s) (votes_then bid.now.first bid.now.cast.now s) bid.now.floor r) (role_in proposer.old) (map (λ h. seat_of h.now) helpers.now)) ≡ true →
        IsOkUnless result fault.Memory }
{
    for helper in helpers {
        hear(alloc, events, proposer, helper, ballot, bid)?;
    }
    Ok(())
}

// Begins the node's next ballot, which the helpers promise, and proposes what they call for and what is pending. Returns the ballot.
pub(crate) fn lead<B: Body>(
    alloc: Global,
    events: &mut Vec<Event<B>>,
    proposer: &mut Proposer<B>,
    own: &Node<B>,
    helpers: &[&Node<B>],
    bid: &Bid<'_, B>,
) -> Result<Ballot, CourseFault>
    requires first { 1 ≤ bid.now.first }
    requires me { proposer.old.state.me ≡ own.now.me }
    ensures events { OnOk result (events.new.items ≡ events.old.items ++ lead (own_ballot own.now.me proposer.old.state.proposer) bid.now.first
        bid.now.cast.now (map (λ h. seat_of h.now) helpers.now)) }
    ensures role { OnOk result (role_in proposer.new ≡ led_by B.same proposer.old.state.members bid.now.applied bid.now.pending.now
        (own_ballot own.now.me proposer.old.state.proposer) bid.now.first bid.now.cast.now own.now.me bid.now.floor
        (votes_then bid.now.first bid.now.cast.now (seat_of own.now)) (map (λ h. seat_of h.now) helpers.now)) }
    ensures me { OnOk result (proposer.new.state.me ≡ proposer.old.state.me) }
    ensures ballot { IfOk result (λ ballot. ballot ≡ own_ballot own.now.me proposer.old.state.proposer) }
    ensures room { suc proposer.old.state.proposer.seen < round_end →
        has_slots (led_by B.same proposer.old.state.members bid.now.applied bid.now.pending.now (own_ballot own.now.me proposer.old.state.proposer)
        bid.now.first bid.now.cast.now own.now.me bid.now.floor (votes_then bid.now.first bid.now.cast.now (seat_of own.now))
        (map (λ h. seat_of h.now) helpers.now)) ≡ true → IsOkUnless result fault.Memory }
{
    let Ok(_) = proposer.next_ballot() else {
        return Err(CourseFault::NoRoom);
    };
    happen(events, Event::Start { node: own.me() })?;
    let votes = votes_then(alloc, own, bid.first, bid.cast)?;
    let Ok(ballot) = proposer.start(bid.first, bid.floor, votes) else {
        return Err(CourseFault::Memory);
    };
    hear_all(alloc, events, proposer, helpers, ballot, bid)?;
    Ok(ballot)
}
