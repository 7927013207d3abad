//! The applied log: how it learns entries, applies them slot by slot, and is cut, saved and loaded.
ghost use Rattle.std.specs.Prelude.{◌≡◌, ◌↔◌, ◌<◌, ◌++◌, [], ◌∷◌, Option, Some, None, true, false, IsErr, IsOk, IsErrOf, IsOkUnless};
ghost use Rattle.std.specs.Prelude.{IfOk, IfErr, OnOk, OnErr, IfSome, IfNone, IsSomeAnd, if◌then◌else◌, List};
ghost use Rattle.std.specs.Prelude.{Err, ◌≢◌, ◌+◌, ◌-◌, ◌^◌, ◌≤◌, ◌||◌, min, length, map, vec_len};
ghost use Rattle.std.specs.Option.{option_copied};
ghost use Rattle.paxos_packets.specs.declared.entry.Entry.{Entry};
ghost use Rattle.replica_machine.specs.declared.fault.SaveFault.TheVariants as save;
ghost use Rattle.replica_machine.specs.Log.{learn_fault_number, learned_in, length_in, next_slot, first_log, cut_log};
ghost use Rattle.replica_machine.specs.Log.{Disagrees, Learns, Applies};
ghost use Rattle.replica_machine.specs.Log.{IsLogOf, Follows, Begins, machine_from, is_slot};
ghost use Rattle.replica_machine.specs.Given.{AreGiven};
ghost use Rattle.replica_machine.specs.Replay.{sayings_by_slot};
ghost use Rattle.replica_machine.specs.Roll.{IsRollOf};
ghost use Rattle.replica_machine.specs.Snapshot.{kept_of, kept_octets, head_reading, loaded_log, IsLoaded};

use crate::fault::{LoadFault, SaveFault};
use crate::head::{Head, put_kept, take_head};
use crate::machine::{Failed, Machine};
use crate::roll::Roll;
use crate::steps::{apply, apply_all};
use indexmap::IndexMap;
use paxos_packets::{Body, Entry, Slot};
use std::alloc::{AllocFailed, Global};
use std::marker::Model;
use thiserror::Error;

/// Why an entry was not learned.
#[derive(Clone, Copy, Debug, PartialEq, Eq, Error)]
pub enum LearnFault {
    #[error("another entry is learned in the slot")]
    Disagree,
    #[error("no memory for an entry")]
    Memory,
    #[error("the log has failed")]
    Failed,
}

impl LearnFault {
    /// Returns the fault's number: 46 to 48, in the order of the variants.
    pub fn number(self) -> u8
        ensures { result ≡ learn_fault_number self }
    {
        match self {
            LearnFault::Disagree => 46,
            LearnFault::Memory => 47,
            LearnFault::Failed => 48,
        }
    }
}

impl<T: Drop> From<AllocFailed<T>> for LearnFault {
    ghost use Rattle.replica_machine.specs.declared.log.LearnFault.TheVariants.{Memory};

    ghost from_gives = { λ _ fault. fault ≡ Memory };

    fn from(_: AllocFailed<T>) -> LearnFault {
        LearnFault::Memory
    }
}

/// What a log did in one slot.
#[derive(Debug, Drop)]
pub struct Step<Y> {
    /// The slot that was applied.
    pub slot: Slot,
    /// Whether its entry took effect.
    pub took: bool,
    /// What the machine said at it, in order; nothing if it took no effect.
    pub says: Vec<Y>,
}

/// A log that is learned slot by slot in any order, and the machine that follows it.
///
/// Entries that are learned ahead of the next slot are kept in a hash table, by their slots. An entry is never copied.
pub struct AppliedLog<M: Machine> {
    floor: u64,
    applied: Vec<Entry<M::Body>>,
    ahead: IndexMap<Slot, Entry<M::Body>>,
    roll: Roll,
    machine: M,
    failed: bool,
}

impl<M: Machine> Drop for AppliedLog<M> {
    fn drop(self) {
        let AppliedLog {
            floor: _,
            applied: _applied,
            ahead: _ahead,
            roll: _roll,
            machine: _machine,
            failed: _,
        } = self;
    }
}

impl<M: Machine> Model for AppliedLog<M> {
    ghost use Rattle.std.specs.Prelude.{◌<◌, ◌^◌};
    ghost use Rattle.replica_machine.specs.Log.{LogState};

    ghost Value = { LogState M.Body M };

    ghost view = { λ a. record {
      floor = a.floor;
      applied = a.applied.items;
      ahead = a.ahead.entries;
      roll = a.roll;
      machine = a.machine;
      failed = a.failed;
    } };

    ghost invariant = { λ a. a.floor < 2 ^ 40 };
}

impl<M: Machine> AppliedLog<M> {
    /// Returns a log in which nothing is learned, and the machine that is to follow it. Does not allocate; `learn` and `advance` will, from
    /// `alloc`.
    pub fn new(alloc: Global, machine: M) -> AppliedLog<M>
        ensures empty { result ≡ first_log machine }
        ensures follows { Follows M.steps M.content (M.content machine) result }
    {
        AppliedLog {
            floor: 0,
            applied: Vec::new(alloc),
            ahead: IndexMap::new(alloc),
            roll: Roll::new(),
            machine,
            failed: false,
        }
    }

    // Returns the entry that is learned in the slot.
    fn learned(&self, slot: Slot) -> Option<&Entry<M::Body>>
        ensures value { option_copied result ≡ learned_in slot self.now }
        ensures slot { is_slot slot ≡ true }
    {
        if slot.get() <= self.floor {
            return None;
        }
        let before = (slot.get() - self.floor - 1) as usize;
        if before < self.applied.len() {
            self.applied.get(before)
        } else {
            self.ahead.get(&slot)
        }
    }

    /// Learns the slot's entry. The same entry again changes nothing, nor does any entry of a slot up to the floor.
    ///
    /// Returns `Disagree` if another entry is learned there, `Memory` if memory for the entry runs out, and `Failed` if the log has failed;
    /// the log is then as it was. Takes constant time on average, whatever the log's length.
    pub fn learn(&mut self, slot: Slot, entry: Entry<M::Body>) -> Result<(), LearnFault>
        ensures ok { self.old.floor < slot → OnOk result (Learns slot entry self.old self.new) }
        ensures forgotten { slot ≤ self.old.floor → self.new ≡ self.old }
        ensures forgotten_ok { self.old.failed ≡ false → slot ≤ self.old.floor → IsOk result }
        ensures err { OnErr result (self.new ≡ self.old) }
        ensures failed { self.old.failed ≡ true → IsErrOf result LearnFault.Failed }
        ensures disagree { self.old.failed ≡ false → (IsErrOf result LearnFault.Disagree ↔ Disagrees slot entry self.old) }
        ensures again { self.old.failed ≡ false → learned_in slot self.old ≡ Some entry → IsOk result }
        ensures memory { self.old.failed ≡ false → learned_in slot self.old ≡ None → IsOkUnless result LearnFault.Memory }
    {
        if self.failed {
            return Err(LearnFault::Failed);
        }
        if slot.get() <= self.floor {
            return Ok(());
        }
        if let Some(learned) = self.learned(slot) {
            return if learned.same(&entry) {
                Ok(())
            } else {
                Err(LearnFault::Disagree)
            };
        }
        self.ahead.insert(slot, entry)?;
        Ok(())
    }

    // Returns how many slots are applied, with those up to the floor, or the greatest number there is.
    fn length(&self) -> u64
        ensures { result ≡ min (length_in self.now) (2 ^ 64 - 1) }
    {
        self.floor.saturating_add(self.applied.len() as u64)
    }

    // Returns the slot that is applied next, or `None` after the last one.
    fn next_slot(&self) -> Option<Slot>
        ensures { result ≡ (if is_slot (next_slot self.now) then Some (next_slot self.now) else None) }
    {
        Slot::new(self.length().saturating_add(1))
    }

    /// Applies the next slot if its entry is learned, and returns what came of it; `None` if it is not learned.
    ///
    /// After `Failed`, which comes if memory runs out or the machine fails, the log has failed: `learn` and `advance` return it from then
    /// on, and `applied` and `floor` still return what they returned before. Otherwise the machine has not failed, unless it had before.
    /// Takes constant time on average besides the machine's own, whatever the log's length.
    pub fn advance(&mut self) -> Result<Option<Step<M::Say>>, Failed>
        ensures failed { self.old.failed ≡ true → IsErr result }
        ensures waits { self.old.failed ≡ false → learned_in (next_slot self.old) self.old ≡ None → IsOk result }
        ensures none { IfOk result (λ step. IfNone step ((learned_in (next_slot self.old) self.old ≡ None) × (self.new ≡ self.old))) }
        ensures applies { IfOk result (λ step. IfSome step (λ s.
            Applies M.steps M.content self.old self.new s.slot s.took s.says.items)) }
        ensures err { OnErr result ((self.new.failed ≡ true) × (self.new.applied ≡ self.old.applied)) }
        ensures floor { self.new.floor ≡ self.old.floor }
        ensures machine { M.has_failed self.old.machine ≡ false → OnOk result (M.has_failed self.new.machine ≡ false) }
    {
        if self.failed {
            return Err(Failed);
        }
        let Some(slot) = self.next_slot() else {
            return Ok(None);
        };
        let Some(entry) = self.ahead.swap_remove(&slot) else {
            return Ok(None);
        };
        let Ok(step) = apply(
            &mut self.applied,
            &mut self.roll,
            &mut self.machine,
            slot,
            entry,
        ) else {
            self.failed = true;
            return Err(Failed);
        };
        Ok(Some(step))
    }

    /// Applies the entries in the next slots, given that nothing is learned there, and returns what the machine said at each.
    ///
    /// On `Memory` the machine was given nothing, and the log is as it was. After `Failed` the log has failed, as after `advance`; the first
    /// of the entries may be applied then, in order. Otherwise the machine has not failed, unless it had before. Takes constant time for
    /// each entry besides the machine's own, whatever the log's length.
    pub fn append(&mut self, entries: Vec<Entry<M::Body>>) -> Result<Vec<Vec<M::Say>>, LearnFault>
        requires { self.old.ahead ≡ [] }
        ensures applied { OnOk result (self.new.applied ≡ self.old.applied ++ entries.items) }
        ensures count { IfOk result (λ said. vec_len said ≡ length entries.items) }
        ensures ahead { self.new.ahead ≡ [] }
        ensures floor { self.new.floor ≡ self.old.floor }
        ensures alive { OnOk result (self.new.failed ≡ false) }
        ensures machine { M.has_failed self.old.machine ≡ false → OnOk result (M.has_failed self.new.machine ≡ false) }
        ensures failed { self.old.failed ≡ true → result ≡ Err LearnFault.Failed }
        ensures memory { IsErrOf result LearnFault.Memory → self.new ≡ self.old }
        ensures refused { IsErrOf result LearnFault.Failed → self.new.failed ≡ true }
        ensures no_other { IfErr result (λ fault. fault ≢ LearnFault.Disagree) }
        ensures err { OnErr result (Begins self.old.applied self.new.applied) }
        ensures front { OnErr result (Begins self.new.applied (self.old.applied ++ entries.items)) }
        ensures follows { (first : M.Content) → Follows M.steps M.content first self.old
            → OnOk result (Follows M.steps M.content first self.new) }
        ensures says { (first : M.Content) → Follows M.steps M.content first self.old
            → IfOk result (λ said. map (λ says. says.items) said.items
            ≡ sayings_by_slot (machine_from M.steps first) self.old.applied entries.items) }
        ensures rolled { (under : List (Entry M.Body)) → IsRollOf (under ++ self.old.applied) self.old.roll
            → OnOk result (IsRollOf (under ++ self.new.applied) self.new.roll) }
        ensures goes_on { (first : M.Content) (under : List (Entry M.Body))
            → IsLogOf M.steps M.content first under self.old
            → OnOk result (IsLogOf M.steps M.content first under self.new) }
        ensures told { (first : M.Content) (under : List (Entry M.Body))
            → IsLogOf M.steps M.content first under self.old
            → IfOk result (λ said. map (λ says. says.items) said.items
            ≡ sayings_by_slot (machine_from M.steps first) (under ++ self.old.applied) entries.items) }
    {
        if self.failed {
            return Err(LearnFault::Failed);
        }
        let Ok(mut said) = Vec::with_capacity(*self.applied.allocator(), entries.len()) else {
            return Err(LearnFault::Memory);
        };
        if self.applied.reserve(entries.len()).is_err() {
            return Err(LearnFault::Memory);
        }
        let Ok(()) = apply_all(
            &mut self.applied,
            &mut self.roll,
            &mut self.machine,
            entries,
            &mut said,
        ) else {
            self.failed = true;
            return Err(LearnFault::Failed);
        };
        Ok(said)
    }

    /// Forgets the entries that are applied: the log's length is its floor from then on. The machine stays as it is. A log that is longer
    /// than there are slots, which only `append` makes, stays as it was. Does not allocate.
    pub fn cut(&mut self)
        ensures cut { self.new ≡ cut_log self.old }
        ensures stands { (first : M.Content) (under : List (Entry M.Body))
            → IsLogOf M.steps M.content first under self.old → length_in self.old < 2 ^ 40
            → IsLogOf M.steps M.content first (under ++ self.old.applied) self.new }
    {
        let length = self.length();
        if length >= 1 << 40 {
            return;
        }
        self.floor = length;
        self.applied.clear();
    }

    /// Returns the octets of the log: its length, where nodes 1 to 7 stand after it, and its machine's. The entries are in none of them,
    /// nor are those ahead.
    ///
    /// Fails with `Failed`, exactly if the log or its machine has failed, and with `Memory`. `load` of the octets is a log that stands for
    /// the same one, if the content at first was sound, and the entries name nodes 1 to 7 and boots, Items and transports from 1. If it was
    /// not sound, `load` of them may fail, and makes no other log.
    ///
    /// Takes the time of the machine's own `save`, and a copy of its octets.
    pub fn save(&self) -> Result<Vec<u8>, SaveFault>
        ensures failed { IsErrOf result save.Failed ↔ ((self.now.failed || M.has_failed self.now.machine) ≡ true) }
        ensures octets { IfOk result (λ octets. octets.items ≡ kept_octets M.saved (kept_of M.content self.now)) }
        ensures fault { (self.now.failed || M.has_failed self.now.machine) ≡ false → IsOkUnless result save.Memory }
        ensures back { (first : M.Content) (under : List (Entry M.Body))
            → IsLogOf M.steps M.content first under self.now → M.is_sound first
            → AreGiven (under ++ self.now.applied) → length_in self.now < 2 ^ 40
            → IfOk result (λ octets. loaded_log M.loaded octets.items ≡ Some (kept_of M.content self.now)) }
        ensures only { (first : M.Content) (under : List (Entry M.Body))
            → IsLogOf M.steps M.content first under self.now → AreGiven (under ++ self.now.applied)
            → length_in self.now < 2 ^ 40
            → IfOk result (λ octets. IfSome (loaded_log M.loaded octets.items) (λ kept. kept ≡ kept_of M.content self.now)) }
    {
        if self.failed {
            return Err(SaveFault::Failed);
        }
        let alloc = *self.applied.allocator();
        let machine = self.machine.save(alloc)?;
        let Some(floor) = self.floor.checked_add(self.applied.len() as u64) else {
            return Err(SaveFault::Memory);
        };
        let head = Head {
            floor,
            standings: self.roll.seven(),
        };
        let mut octets = Vec::new(alloc);
        let done = put_kept(&head, &machine, &mut octets);
        drop(machine);
        done.and(Ok(octets))
    }

    /// Returns a log of the length that these octets say, in which no entry is left, and nothing is learned ahead. Its machine has not
    /// failed.
    ///
    /// Fails with `Damaged` if they are none that a log is saved as: if octets are missing or left, or a number is out of its range; and
    /// with `Memory`. Where the length and the standings at their head are damaged it fails with `Damaged`, whatever memory there is.
    pub fn load(alloc: Global, octets: &[u8]) -> Result<AppliedLog<M>, LoadFault>
        ensures loaded { IfOk result (λ log. IsSomeAnd (loaded_log M.loaded octets.now) (λ kept. IsLoaded M.content kept log)) }
        ensures machine { IfOk result (λ log. M.has_failed log.machine ≡ false) }
        ensures damaged { IsErrOf result LoadFault.Damaged → loaded_log M.loaded octets.now ≡ None }
        ensures head { IsErr (head_reading octets.now) → IsErrOf result LoadFault.Damaged }
    {
        let Ok((head, rest)) = take_head(octets) else {
            return Err(LoadFault::Damaged);
        };
        let machine = M::load(alloc, rest)?;
        Ok(AppliedLog {
            floor: head.floor,
            applied: Vec::new(alloc),
            ahead: IndexMap::new(alloc),
            roll: Roll::of(head.standings),
            machine,
            failed: false,
        })
    }

    /// Returns the slot up to which the entries are forgotten, 0 at first. Does not allocate.
    pub fn floor(&self) -> u64
        ensures { result ≡ self.now.floor }
    {
        self.floor
    }

    /// Returns the entries that are applied after the floor, in the order of their slots. Does not allocate.
    pub fn applied(&self) -> &[Entry<M::Body>]
        ensures { result.now ≡ self.now.applied }
    {
        self.applied.as_slice()
    }

    /// Returns the machine. Does not allocate.
    pub fn machine(&self) -> &M
        ensures { result.now ≡ self.now.machine }
    {
        &self.machine
    }
}
