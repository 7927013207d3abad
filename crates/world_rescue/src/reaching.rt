//! How a rescue makes its node level: which snapshot the node asks for, the events by which it gets that, and what it is then.

ghost use Rattle.std.specs.Prelude.{◌≡◌, ◌<◌, ◌^◌, suc, Some, map, ◌++◌, ◌∷◌, [], IfOk, OnOk, IsOkUnless, option_copied, if◌then◌else◌};
ghost use Rattle.paxos_node.specs.Applying.{standing_of};
ghost use Rattle.paxos_node.specs.declared.event.Event.TheVariants.{Crash, Restart};
ghost use Rattle.paxos_packets.specs.declared.packet.Kind.TheVariants as kinds;
ghost use Rattle.paxos_planning.specs.Node.{log_length};
ghost use Rattle.paxos_proposer.specs.Proposer.{round_end, slot_end};
ghost use Rattle.replica_machine.specs.Roll.{HasStandings};
ghost use Rattle.world_rescue.specs.Course.{seat_of, delivered};
ghost use Rattle.world_rescue.specs.Level.{IsLevelOf};
ghost use Rattle.world_rescue.specs.Reaching.{highest, higher, floor_or, fetch, holds_boot, learned_after, falls_after};
ghost use Rattle.world_rescue.specs.Reaching.{begins_over, goes_over, node_over, preparing, reach_by, reached_by};
ghost use Rattle.world_rescue.specs.declared.fault.CourseFault.TheVariants as fault;

use crate::falling::{copied, falls_in, wanted_after};
use crate::fault::CourseFault;
use crate::visits::{deliver, happen};
use paxos_node::{Event, Node, boot_in, roll_at};
use paxos_packets::{Body, Entry, Floor, Kind, Memory, Snapshot};
use replica_machine::Roll;
use std::alloc::Global;
use std::marker::Model;

// A snapshot, and the number of the node that has it.
#[derive(Drop)]
pub(crate) struct Source<'a> {
    number: u8,
    snapshot: &'a Snapshot,
}

impl<'a> Model for Source<'a> {
    ghost use Rattle.world_rescue.specs.Reaching as reached;

    ghost Value = { reached.Source };

    ghost view = { λ s. record { number = s.number; snapshot = s.snapshot.now } };
}

impl Source<'_> {
    // Returns the floor of its snapshot.
    pub(crate) fn floor(&self) -> Floor
        ensures { result ≡ self.now.snapshot.floor }
    {
        Floor::at(self.snapshot.floor())
    }
}

// What a course goes by once its node is level.
#[derive(Drop)]
pub(crate) struct Level<'a, B> {
    pub(crate) boot: u64,
    // The greatest round that it saw.
    pub(crate) seen: u64,
    pub(crate) snapshot: Option<&'a Snapshot>,
    // The length of its log.
    pub(crate) log: Floor,
    pub(crate) pending: Vec<Entry<B>>,
    // How many acts it took in its boot.
    pub(crate) taken: u64,
}

impl<'a, B> Model for Level<'a, B> {
    ghost use Rattle.std.specs.Prelude.{option_copied};
    ghost use Rattle.world_rescue.specs.Level as levels;

    ghost Value = { levels.Level B };

    ghost view = { λ l. record {
      boot = l.boot;
      seen = l.seen;
      snapshot = option_copied l.snapshot;
      log = l.log;
      pending = l.pending.items;
      taken = l.taken;
    } };
}

// Has the node rest on the snapshot of a helper whose floor is above its log, if there is one, and its roll with it. Returns what the course
// goes by then.
pub(crate) fn reach<'a, B: Body>(
    alloc: Global,
    events: &mut Vec<Event<B>>,
    roll: &mut Roll,
    own: &'a Node<B>,
    helpers: &'a [&'a Node<B>],
) -> Result<Level<'a, B>, CourseFault>
    requires { HasStandings (standing_of own.now.state) roll.old }
    ensures events { OnOk result (events.new.items ≡ events.old.items
        ++ reach_by own.now.me own.now.state (highest (log_length own.now.state) (map (λ h. seat_of h.now) helpers.now))) }
    ensures level { IfOk result (λ level. IsLevelOf own.now.state.rows.votes level
        (reached_by own.now.me own.now.state (highest (log_length own.now.state) (map (λ h. seat_of h.now) helpers.now)))) }
    ensures roll { OnOk result (HasStandings (standing_of
        (reached_by own.now.me own.now.state (highest (log_length own.now.state) (map (λ h. seat_of h.now) helpers.now)))) roll.new) }
    ensures room { suc (reached_by own.now.me own.now.state (highest (log_length own.now.state) (map (λ h. seat_of h.now) helpers.now))).proposer.seen
        < round_end →
        log_length (reached_by own.now.me own.now.state (highest (log_length own.now.state) (map (λ h. seat_of h.now) helpers.now))) < slot_end →
        IsOkUnless result fault.Memory }
{
    let Ok(ballot) = own.next_ballot() else {
        return Err(CourseFault::NoRoom);
    };
    let Some(source) = highest(own.applied(), helpers) else {
        return as_it_is(alloc, own, ballot.round - 1);
    };
    reach_over(alloc, events, roll, own, &source, ballot.round)
}

// Returns the first snapshot with the greatest floor, if that is above this floor.
pub(crate) fn highest<'a, B>(floor: u64, helpers: &'a [&'a Node<B>]) -> Option<Source<'a>>
    ensures { result ≡ highest floor (map (λ h. seat_of h.now) helpers.now) }
{
    let mut found = None;
    for helper in helpers {
        found = higher(floor, found, helper);
    }
    found
}

// Returns the node's snapshot if its floor is above that of the one that was found, or else that one.
fn higher<'a, B>(floor: u64, found: Option<Source<'a>>, helper: &'a Node<B>) -> Option<Source<'a>>
    ensures { result ≡ higher floor found.entry (seat_of helper.now) }
{
    let Some(snapshot) = helper.snapshot() else {
        return found;
    };
    if floor_or(floor, &found) < snapshot.floor().get() {
        return Some(Source {
            number: helper.me(),
            snapshot,
        });
    }
    found
}

// Returns the floor of the snapshot that was found, or this one.
fn floor_or(floor: u64, found: &Option<Source<'_>>) -> u64
    ensures { result ≡ floor_or floor found.now }
{
    let Some(source) = found else {
        return floor;
    };
    source.floor().get()
}

// Has the node ask for the snapshot from this slot on, and get it.
pub(crate) fn fetch<B: Drop>(
    events: &mut Vec<Event<B>>,
    node: u8,
    first: u64,
    source: &Source<'_>,
) -> Result<(), Memory>
    ensures { OnOk result (events.new.items ≡ events.old.items ++ fetch node first source.now) }
{
    happen(events, Event::Tick { node })?;
    deliver(events, node, Kind::Ask { first }, source.number)?;
    give(events, node, source)
}

// Brings the snapshot to the node.
fn give<B: Drop>(events: &mut Vec<Event<B>>, node: u8, source: &Source<'_>) -> Result<(), Memory>
    ensures { OnOk result (events.new.items ≡ events.old.items ++ delivered source.now.number (kinds.Snapshot source.now.snapshot) node ∷ []) }
{
    let snapshot = source.snapshot.share()?;
    deliver(events, source.number, Kind::Snapshot { snapshot }, node)
}

// Returns what the course goes by if the node, which saw this round, is level as it is.
fn as_it_is<'a, B: Body>(
    alloc: Global,
    own: &'a Node<B>,
    seen: u64,
) -> Result<Level<'a, B>, CourseFault>
    requires { seen ≡ own.now.state.proposer.seen }
    ensures level { IfOk result (λ level. IsLevelOf own.now.state.rows.votes level own.now.state) }
    ensures room { log_length own.now.state < slot_end → IsOkUnless result fault.Memory }
{
    let Some(log) = Floor::new(own.applied()) else {
        return Err(CourseFault::NoRoom);
    };
    let pending = copied(alloc, own.pending())?;
    Ok(Level {
        boot: own.boot(),
        seen,
        snapshot: own.snapshot(),
        log,
        pending,
        taken: own.taken(),
    })
}

// The node begins the ballot of this round, and gets the snapshot; if that has its boot, or leads it to the loss of that, it begins its next
// boot.
fn reach_over<'a, B: Body>(
    alloc: Global,
    events: &mut Vec<Event<B>>,
    roll: &mut Roll,
    own: &Node<B>,
    source: &Source<'a>,
    round: u64,
) -> Result<Level<'a, B>, CourseFault>
    requires { round ≡ suc own.now.state.proposer.seen }
    ensures events { OnOk result (events.new.items ≡ events.old.items ++ reach_by own.now.me own.now.state (Some source.now)) }
    ensures level { IfOk result (λ level. IsLevelOf own.now.state.rows.votes level
        (node_over own.now.me source.now.snapshot (preparing own.now.me own.now.state))) }
    ensures roll { OnOk result (HasStandings (standing_of
        (node_over own.now.me source.now.snapshot (preparing own.now.me own.now.state))) roll.new) }
    ensures room { log_length (node_over own.now.me source.now.snapshot (preparing own.now.me own.now.state)) < slot_end →
        IsOkUnless result fault.Memory }
{
    let node = own.me();
    happen(events, Event::Start { node })?;
    fetch(events, node, own.applied() + 1, source)?;
    if holds_boot(own, source.snapshot) {
        return Ok(begins_again(alloc, events, roll, own, source, round)?);
    }
    goes_over(alloc, events, roll, own, source.snapshot, round)
}

// Returns whether the snapshot has the node's boot, or a later one, so that the node refuses it.
fn holds_boot<B>(own: &Node<B>, snapshot: &Snapshot) -> bool
    ensures { result ≡ holds_boot own.now.me snapshot.now own.now.state }
{
    own.boot() <= boot_in(roll_at(Some(snapshot)).standing(own.me()))
}

// The node, which refused the snapshot, begins its next boot, and gets it again.
fn begins_again<'a, B: Body>(
    alloc: Global,
    events: &mut Vec<Event<B>>,
    roll: &mut Roll,
    own: &Node<B>,
    source: &Source<'a>,
    round: u64,
) -> Result<Level<'a, B>, Memory>
    requires { round ≡ suc own.now.state.proposer.seen }
    ensures events { OnOk result (events.new.items ≡ events.old.items
        ++ Crash own.now.me ∷ Restart own.now.me ∷ delivered source.now.number (kinds.Snapshot source.now.snapshot) own.now.me ∷ []) }
    ensures level { IfOk result (λ level. IsLevelOf own.now.state.rows.votes level
        (begins_over own.now.me source.now.snapshot (preparing own.now.me own.now.state))) }
    ensures roll { OnOk result (HasStandings (standing_of
        (begins_over own.now.me source.now.snapshot (preparing own.now.me own.now.state))) roll.new) }
{
    let node = own.me();
    happen(events, Event::Crash { node })?;
    happen(events, Event::Restart { node })?;
    give(events, node, source)?;
    begun(alloc, roll, own, source.snapshot, round)
}

// The node rests on the snapshot, and applies what it had learned after it; if the loss of its boot is among that, it begins its next boot.
fn goes_over<'a, B: Body>(
    alloc: Global,
    events: &mut Vec<Event<B>>,
    roll: &mut Roll,
    own: &Node<B>,
    snapshot: &'a Snapshot,
    round: u64,
) -> Result<Level<'a, B>, CourseFault>
    requires { round ≡ suc own.now.state.proposer.seen }
    ensures events { OnOk result (events.new.items ≡ events.old.items ++ (if falls_after own.now.me snapshot.now own.now.state
        then Restart own.now.me ∷ [] else [])) }
    ensures level { IfOk result (λ level. IsLevelOf own.now.state.rows.votes level (if falls_after own.now.me snapshot.now own.now.state
        then begins_over own.now.me snapshot.now (preparing own.now.me own.now.state)
        else goes_over snapshot.now (preparing own.now.me own.now.state))) }
    ensures roll { OnOk result (HasStandings (standing_of (if falls_after own.now.me snapshot.now own.now.state
        then begins_over own.now.me snapshot.now (preparing own.now.me own.now.state)
        else goes_over snapshot.now (preparing own.now.me own.now.state))) roll.new) }
    ensures room { log_length (if falls_after own.now.me snapshot.now own.now.state
        then begins_over own.now.me snapshot.now (preparing own.now.me own.now.state)
        else goes_over snapshot.now (preparing own.now.me own.now.state)) < slot_end → IsOkUnless result fault.Memory }
{
    let run = own.run_after(Floor::at(snapshot.floor()))?;
    let done = goes_by(alloc, events, roll, own, snapshot, run.as_slice(), round);
    drop(run);
    done
}

// The same, by what it had learned after the snapshot.
fn goes_by<'a, B: Body>(
    alloc: Global,
    events: &mut Vec<Event<B>>,
    roll: &mut Roll,
    own: &Node<B>,
    snapshot: &'a Snapshot,
    run: &[Entry<B>],
    round: u64,
) -> Result<Level<'a, B>, CourseFault>
    requires round { round ≡ suc own.now.state.proposer.seen }
    requires run { run.now ≡ learned_after snapshot.now own.now.state }
    ensures events { OnOk result (events.new.items ≡ events.old.items ++ (if falls_after own.now.me snapshot.now own.now.state
        then Restart own.now.me ∷ [] else [])) }
    ensures level { IfOk result (λ level. IsLevelOf own.now.state.rows.votes level (if falls_after own.now.me snapshot.now own.now.state
        then begins_over own.now.me snapshot.now (preparing own.now.me own.now.state)
        else goes_over snapshot.now (preparing own.now.me own.now.state))) }
    ensures roll { OnOk result (HasStandings (standing_of (if falls_after own.now.me snapshot.now own.now.state
        then begins_over own.now.me snapshot.now (preparing own.now.me own.now.state)
        else goes_over snapshot.now (preparing own.now.me own.now.state))) roll.new) }
    ensures room { log_length (if falls_after own.now.me snapshot.now own.now.state
        then begins_over own.now.me snapshot.now (preparing own.now.me own.now.state)
        else goes_over snapshot.now (preparing own.now.me own.now.state)) < slot_end → IsOkUnless result fault.Memory }
{
    *roll = roll_at(Some(snapshot));
    if falls_in(roll, own.me(), own.boot(), run) {
        happen(events, Event::Restart { node: own.me() })?;
        return Ok(begun(alloc, roll, own, snapshot, round)?);
    }
    rides(alloc, roll, own, snapshot, run, round)
}

// Returns what the course goes by if the node rests on the snapshot, and applies this run after it.
fn rides<'a, B: Body>(
    alloc: Global,
    roll: &mut Roll,
    own: &Node<B>,
    snapshot: &'a Snapshot,
    run: &[Entry<B>],
    round: u64,
) -> Result<Level<'a, B>, CourseFault>
    requires round { round ≡ suc own.now.state.proposer.seen }
    requires run { run.now ≡ learned_after snapshot.now own.now.state }
    ensures level { IfOk result (λ level. IsLevelOf own.now.state.rows.votes level (goes_over snapshot.now (preparing own.now.me own.now.state))) }
    ensures roll { OnOk result (HasStandings (standing_of (goes_over snapshot.now (preparing own.now.me own.now.state))) roll.new) }
    ensures room { log_length (goes_over snapshot.now (preparing own.now.me own.now.state)) < slot_end → IsOkUnless result fault.Memory }
{
    let Some(log) = Floor::new(snapshot.floor().get() + run.len() as u64) else {
        return Err(CourseFault::NoRoom);
    };
    *roll = roll_at(Some(snapshot));
    let pending = wanted_after(alloc, roll, own.pending(), run)?;
    Ok(Level {
        boot: own.boot(),
        seen: round,
        snapshot: Some(snapshot),
        log,
        pending,
        taken: own.taken(),
    })
}

// Returns what the course goes by if the node begins its next boot on the snapshot.
fn begun<'a, B: Body>(
    alloc: Global,
    roll: &mut Roll,
    own: &Node<B>,
    snapshot: &'a Snapshot,
    round: u64,
) -> Result<Level<'a, B>, Memory>
    requires { round ≡ suc own.now.state.proposer.seen }
    ensures level { IfOk result (λ level. IsLevelOf own.now.state.rows.votes level
        (begins_over own.now.me snapshot.now (preparing own.now.me own.now.state))) }
    ensures roll { OnOk result (HasStandings (standing_of (begins_over own.now.me snapshot.now (preparing own.now.me own.now.state))) roll.new) }
{
    let boot = next(own.boot());
    let mut pending = Vec::new(alloc);
    let Ok(()) = pending.push(Entry::Boot {
        node: own.me(),
        boot,
    }) else {
        return Err(Memory);
    };
    *roll = roll_at(Some(snapshot));
    Ok(Level {
        boot,
        seen: round,
        snapshot: Some(snapshot),
        log: Floor::at(snapshot.floor()),
        pending,
        taken: 0,
    })
}

// Returns the number after this one; none of a boot or an act is above 2^48 - 1.
pub(crate) fn next(number: u64) -> u64
    ensures { number < 2 ^ 48 → result ≡ suc number }
{
    number.saturating_add(1)
}
