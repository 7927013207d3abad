//! Snapshots: octets that stand for a log up to the floor that they begin with.

ghost use Rattle.std.specs.Prelude.{◌≡◌, IfOk, IfSome};
ghost use Rattle.paxos_packets.specs.Snapshot.{floor_at, snapshot_of, Begins, same_snapshot, snapshot_same, snapshot_sound};

use crate::body::{Body, Memory};
use crate::shared::Shared;
use crate::slot::Slot;
use std::alloc::Global;
use std::marker::Model;

/// A log as octets, up to the slot that they begin with, the floor (docs/PROTOCOL.md, "Snapshots"). The octets are held once, however many
/// rows and packets have the snapshot: a copy adds a holder.
#[derive(Debug)]
pub struct Snapshot {
    floor: Slot,
    octets: Shared<Vec<u8>>,
}

impl Drop for Snapshot {
    fn drop(self) {
        let Snapshot {
            floor: _,
            octets: _octets,
        } = self;
    }
}

impl Model for Snapshot {
    ghost use Rattle.std.specs.Prelude.{◌≡◌, Some};
    ghost use Rattle.paxos_packets.specs.Snapshot as taken;

    ghost Value = { taken.Snapshot };

    ghost view = { λ s. record { floor = s.floor; octets = s.octets.items } };

    ghost invariant = { λ s. (taken.floor_at s.octets.items ≡ Some s.floor) × taken.Begins s.floor s.octets.items };
}

impl Snapshot {
    /// Returns the snapshot of these octets, or `None` if they do not begin with a floor: eight octets that spell a slot's number, the
    /// highest first. Does not look at the other octets, and copies none. Returns `Memory` if memory for the holder runs out.
    pub fn of(octets: Vec<u8>) -> Result<Option<Snapshot>, Memory>
        ensures { IfOk result (λ made. made ≡ snapshot_of octets.items) }
    {
        let Some(floor) = floor_at(&octets) else {
            return Ok(None);
        };
        let octets = Shared::new(*octets.allocator(), octets)?;
        Ok(Some(Snapshot { floor, octets }))
    }

    /// Returns up to which slot the log is given.
    pub fn floor(&self) -> Slot
        ensures { result ≡ self.now.floor }
    {
        self.floor
    }

    /// Returns the octets. They begin with the floor, the highest octet first.
    pub fn octets(&self) -> &[u8]
        ensures octets { result.now ≡ self.now.octets }
        ensures begins { Begins self.now.floor self.now.octets }
    {
        self.octets.get().as_slice()
    }

    /// Adds a holder. Takes constant time, and does not allocate; returns `Memory` if no further holder can be counted.
    pub fn share(&self) -> Result<Snapshot, Memory>
        ensures { IfOk result (λ copy. copy ≡ self.now) }
    {
        Ok(Snapshot {
            floor: self.floor,
            octets: self.octets.share()?,
        })
    }
}

impl Body for Snapshot {
    ghost same = { same_snapshot };

    fn copy(&self, _alloc: Global) -> Result<Snapshot, Memory> {
        self.share()
    }

    fn same(&self, other: &Snapshot) -> bool {
        self.floor == other.floor && self.octets.get().as_slice() == other.octets.get().as_slice()
    }

    ghost reflexive = { snapshot_same };

    ghost sound = { snapshot_sound };
}

// Returns the floor that the octets begin with.
#[tactic(auto, unfolding(crate::specs::Snapshot::number_at, crate::specs::Snapshot::floor_end))]
fn floor_at(octets: &[u8]) -> Option<Slot>
    ensures floor { result ≡ floor_at octets.now }
    ensures begins { IfSome result (λ floor. Begins floor octets.now) }
{
    let first = octets.first_chunk::<8>()?;
    Slot::new(u64::from_be_bytes(*first))
}
