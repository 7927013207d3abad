//! Counts of votes: which members voted in a slot and a ballot.

ghost use Rattle.std.specs.Prelude.{◌≡◌, ◌+◌, ◌<◌, ◌≤◌, [], None, IsOk, OnOk, OnErr, IsOkUnless};
ghost use Rattle.std.specs.Map.{lookup};
ghost use Rattle.paxos_learner.specs.declared.fault.LearnerFault.TheVariants.{Memory};
ghost use Rattle.paxos_learner.specs.Tallies.{hear, heard_above, nodes_heard, insert_entry, same_place};

use crate::fault::LearnerFault;
use indexmap::IndexMap;
use paxos_packets::{Ballot, Floor, NodeSet, Slot};
use std::alloc::Global;
use std::marker::Model;

/// A slot and a ballot: votes are counted for each such pair by itself, called a place here.
#[derive(Clone, Copy, Debug, PartialEq, Eq, Hash)]
pub struct SlotBallot {
    pub slot: Slot,
    pub ballot: Ballot,
}

/// The members that were heard to have voted, for each place, in the order in which the places were first heard.
pub struct Tallies {
    table: IndexMap<SlotBallot, NodeSet>,
}

impl Drop for Tallies {
    fn drop(self) {
        let Tallies { table: _table } = self;
    }
}

impl Model for Tallies {
    ghost use Rattle.indexmap.specs.IndexMap.{spare};
    ghost use Rattle.paxos_learner.specs.Tallies.{Table};

    ghost Value = { Table };

    ghost view = { λ t. record { heard = t.table.entries; room = spare t.table } };
}

impl Tallies {
    /// Returns no votes heard. Does not allocate; `hear` will, from `alloc`.
    pub fn new(alloc: Global) -> Tallies
        ensures { result.heard ≡ [] }
    {
        Tallies {
            table: IndexMap::new(alloc),
        }
    }

    /// Returns the members that were heard to have voted there. Does not allocate, and takes a constant number of steps.
    pub fn nodes(&self, place: &SlotBallot) -> NodeSet
        ensures { result ≡ nodes_heard place.now self.now.heard }
    {
        match self.table.get(place) {
            Some(nodes) => *nodes,
            None => NodeSet::new(),
        }
    }

    /// Returns the members that were heard to have voted there, or `None` if no vote was heard there. Does not allocate, and takes a
    /// constant number of steps.
    pub fn find(&self, place: &SlotBallot) -> Option<NodeSet>
        ensures { result ≡ lookup (same_place place.now) self.now.heard }
    {
        match self.table.get(place) {
            Some(nodes) => Some(*nodes),
            None => None,
        }
    }

    /// Reserves memory for the votes of `places` further places.
    pub fn make_room(&mut self, places: usize) -> Result<(), LearnerFault>
        ensures ok { OnOk result (places ≤ self.new.room) }
        ensures heard { self.new.heard ≡ self.old.heard }
        ensures memory { IsOkUnless result Memory }
    {
        match self.table.reserve(places) {
            Ok(()) => Ok(()),
            Err(_) => Err(LearnerFault::Memory),
        }
    }

    /// Hears a vote of this member there. On `Memory`, which only comes if none was heard there before, and never if there is room, the
    /// tallies are as they were. Takes a constant number of steps, unless the table grows.
    pub fn hear(&mut self, node: u8, place: &SlotBallot) -> Result<(), LearnerFault>
        ensures ok { OnOk result (self.new.heard ≡ hear node place.now self.old.heard) }
        ensures err { OnErr result (self.new.heard ≡ self.old.heard) }
        ensures memory { IsOkUnless result Memory }
        ensures absent { OnErr result (lookup (same_place place.now) self.old.heard ≡ None) }
        ensures succeeds { 0 < self.old.room → IsOk result }
        ensures room { self.old.room ≤ self.new.room + 1 }
    {
        let nodes = self.nodes(place).with(node);
        self.put(*place, nodes)
    }

    /// Forgets the votes in slots up to this floor, and keeps their memory. Takes a number of steps that grows with the places.
    pub fn forget(&mut self, floor: Floor)
        ensures heard { self.new.heard ≡ heard_above floor self.old.heard }
        ensures room { self.old.room ≤ self.new.room }
    {
        let floor = floor.get();
        self.table.retain(|place, _nodes| floor < place.slot.get());
    }

    // Notes these members as those that voted at the place, given room for one more place.
    pub(crate) fn put_in_room(&mut self, place: SlotBallot, nodes: NodeSet)
        requires { 0 < self.old.room }
        ensures { self.new.heard ≡ insert_entry same_place self.old.heard place nodes }
    {
        let Ok(()) = self.put(place, nodes) else {
            unreachable!()
        };
    }

    fn put(&mut self, place: SlotBallot, nodes: NodeSet) -> Result<(), LearnerFault>
        ensures ok { OnOk result (self.new.heard ≡ insert_entry same_place self.old.heard place nodes) }
        ensures err { OnErr result (self.new.heard ≡ self.old.heard) }
        ensures memory { IsOkUnless result Memory }
        ensures absent { OnErr result (lookup (same_place place) self.old.heard ≡ None) }
        ensures succeeds { 0 < self.old.room → IsOk result }
        ensures room { self.old.room ≤ self.new.room + 1 }
    {
        match self.table.insert(place, nodes) {
            Ok(_) => Ok(()),
            Err(_) => Err(LearnerFault::Memory),
        }
    }
}
