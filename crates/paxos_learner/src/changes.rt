//! What one event changes of a learner's tallies.

ghost use Rattle.std.specs.Prelude.{◌≡◌, ◌<◌, [], OnOk, IsOkUnless};
ghost use Rattle.std.specs.Map.{lookup};
ghost use Rattle.paxos_learner.specs.declared.fault.LearnerFault.TheVariants.{Memory};
ghost use Rattle.paxos_learner.specs.Tallies.{insert_entry, same_place};

use crate::fault::LearnerFault;
use crate::tallies::{SlotBallot, Tallies};
use paxos_packets::NodeSet;
use std::alloc::Global;
use std::marker::Model;

// The sets of members that an event changes, by slot and ballot. Nearly every event changes one, which is stored inline; only further ones
// allocate.
#[derive(Drop)]
pub(crate) struct Changes {
    first: Option<(SlotBallot, NodeSet)>,
    rest: Tallies,
}

impl Model for Changes {
    ghost use Rattle.paxos_learner.specs.Tallies.{Table};
    ghost use Rattle.paxos_learner.specs.Changes.{behind, IsBehind};

    ghost Value = { Table };

    ghost view = { λ c. behind c.first c.rest };

    ghost invariant = { λ c. IsBehind c.first c.rest };
}

impl Changes {
    // Returns no changes. Does not allocate; `make_room` will, from `alloc`, once one has changed.
    pub fn new(alloc: Global) -> Changes
        ensures { result.heard ≡ [] }
    {
        Changes {
            first: None,
            rest: Tallies::new(alloc),
        }
    }

    // Returns the set at the place, if it changed. Takes a constant number of steps.
    pub fn find(&self, place: &SlotBallot) -> Option<NodeSet>
        ensures { result ≡ lookup (same_place place.now) self.now.heard }
    {
        match self.first {
            Some((at, nodes)) if *place == at => Some(nodes),
            _ => self.rest.find(place),
        }
    }

    // Reserves memory for one more place.
    pub fn make_room(&mut self) -> Result<(), LearnerFault>
        ensures ok { OnOk result (0 < self.new.room) }
        ensures heard { self.new.heard ≡ self.old.heard }
        ensures memory { IsOkUnless result Memory }
    {
        match self.first {
            None => Ok(()),
            Some(_) => self.rest.make_room(1),
        }
    }

    // Notes these members as those that voted at the place, given room for one more place.
    pub fn put_in_room(&mut self, place: SlotBallot, nodes: NodeSet)
        requires { 0 < self.old.room }
        ensures { self.new.heard ≡ insert_entry same_place self.old.heard place nodes }
    {
        let first = self.first;
        match first {
            None => self.first = Some((place, nodes)),
            Some((at, _)) => {
                if place == at {
                    self.first = Some((at, nodes));
                } else {
                    self.rest.put_in_room(place, nodes);
                }
            },
        }
    }
}
