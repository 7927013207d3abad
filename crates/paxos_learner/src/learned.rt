//! A table of learned entries by slot, with places for entries that are to come.

ghost use Rattle.std.specs.Prelude.{◌≡◌, ◌+◌, ◌<◌, ◌≤◌, ◌^◌, ℕ, suc, true, [], None, drop, length, IsTrue, MatchBool, OnOk, OnErr, IsOkUnless, option_copied};
ghost use Rattle.paxos_learner.specs.declared.fault.LearnerFault.TheVariants.{Memory};
ghost use Rattle.paxos_learner.specs.Learned.{is_closed, has_room_on, learned_above, placed, shelf_of, slots_above, starts_at, AreRising, KeepsPlaces, Rises};
ghost use Rattle.paxos_learner.specs.Learner.{learned_at, put_learned};

use crate::fault::LearnerFault;
use paxos_packets::{Entry, Floor, Slot};
use std::alloc::Global;
use std::collections::BTreeMap;
use std::marker::Model;

/// An entry that was learned in a slot.
#[derive(Debug, Drop)]
pub struct LearnedEntry<B> {
    pub slot: Slot,
    pub entry: Entry<B>,
}

/// What was learned above a floor, by ascending slot: the places of a run of slots right after it, and those of slots further ahead. A
/// place may be kept free for the entry of its slot, so that putting it there does not allocate.
pub struct LearnedEntries<B> {
    floor: Floor,
    run: Vec<Option<Entry<B>>>,
    ahead: BTreeMap<u64, Option<Entry<B>>>,
}

impl<B: Drop> Drop for LearnedEntries<B> {
    fn drop(self) {
        let LearnedEntries {
            floor: _,
            run: _run,
            ahead: _ahead,
        } = self;
    }
}

// How far after the run a slot may be for the run to be extended up to it.
const NEAR: u64 = 256;

impl<B> Model for LearnedEntries<B> {
    ghost use Rattle.std.specs.Prelude.{◌+◌, length};
    ghost use Rattle.paxos_learner.specs.Learned.{Shelf, shelf_of, AreRising};

    ghost Value = { Shelf B };

    ghost view = { λ l. shelf_of l.floor l.run.items l.ahead.entries };

    ghost invariant = { λ l. AreRising (l.floor + length l.run.items) l.ahead.entries };
}

impl<B> LearnedEntries<B> {
    /// Returns nothing learned above the floor. Does not allocate; `put` and `keep_place` will, from `alloc`.
    pub fn new(alloc: Global, floor: Floor) -> LearnedEntries<B>
        ensures { result ≡ record { floor = floor; learned = []; places = [] } }
    {
        let _number = floor.get();
        LearnedEntries {
            floor,
            run: Vec::new(alloc),
            ahead: BTreeMap::new(alloc),
        }
    }

    // Returns whether nothing was learned, and no place is kept.
    pub(crate) fn is_empty(&self) -> bool
        ensures { IsTrue result → self.now.learned ≡ [] }
    {
        self.run.is_empty() && self.ahead.is_empty()
    }

    // The entries ascend by slot, from above the floor.
    pub(crate) fn ascends(&self)
        ensures { Rises self.now.floor self.now.learned }
    {
        let _ = &self.run;
    }

    /// Returns whether the slot is not above the floor.
    pub fn is_closed(&self, slot: Slot) -> bool
        ensures { result ≡ is_closed self.now.floor slot }
    {
        slot.get() <= self.floor.get()
    }

    /// Returns the entry that was learned in the slot; in a closed one none is. Does not allocate. Takes a constant number of steps in the
    /// run; ahead of it, a number logarithmic in the number of places there.
    pub fn find(&self, slot: Slot) -> Option<&Entry<B>>
        ensures { option_copied result ≡ learned_at slot self.now.learned }
    {
        let number = slot.get();
        // For a closed slot this wraps to an index far past the run; nothing is found ahead of it either.
        let index = number.wrapping_sub(self.floor.get() + 1);
        match self.run.get(index as usize) {
            Some(place) => place.as_ref(),
            None => find_ahead(&self.ahead, number),
        }
    }
}

impl<B: Drop> LearnedEntries<B> {
    /// Puts the entry into a slot above the floor in which none was learned. On `Memory` the entries are as they were.
    pub fn put(&mut self, slot: Slot, entry: Entry<B>) -> Result<(), LearnerFault>
        requires above { self.old.floor < slot }
        requires free { learned_at slot self.old.learned ≡ None }
        ensures floor { self.new.floor ≡ self.old.floor }
        ensures ok { OnOk result (self.new.learned ≡ put_learned (record { slot = slot; entry = entry }) self.old.learned) }
        ensures err { OnErr result (self.new.learned ≡ self.old.learned) }
        ensures places { KeepsPlaces self.old self.new }
        ensures memory { IsOkUnless result Memory }
    {
        self.keep_place(slot)?;
        self.put_in_place(slot, entry);
        Ok(())
    }

    /// Keeps a place for the entry of the slot, unless it has one or needs none. Takes as many steps as the run grows; further ahead, a
    /// number logarithmic in the number of places there.
    pub fn keep_place(&mut self, slot: Slot) -> Result<(), LearnerFault>
        ensures ok { OnOk result (has_room_on slot self.new ≡ true) }
        ensures floor { self.new.floor ≡ self.old.floor }
        ensures learned { self.new.learned ≡ self.old.learned }
        ensures places { KeepsPlaces self.old self.new }
        ensures memory { IsOkUnless result Memory }
    {
        let number = slot.get();
        let floor = self.floor.get();
        if number <= floor {
            return Ok(());
        }
        if number > floor + self.run.len() as u64 + NEAR {
            return keep_ahead(floor, &self.run, &mut self.ahead, number);
        }
        keep_near(floor, &mut self.run, &mut self.ahead, number)
    }

    /// Puts the entry into its place, given that none was learned in the slot. Does not allocate.
    pub fn put_in_place(&mut self, slot: Slot, entry: Entry<B>)
        requires above { self.old.floor < slot }
        requires free { learned_at slot self.old.learned ≡ None }
        requires place { has_room_on slot self.old ≡ true }
        ensures floor { self.new.floor ≡ self.old.floor }
        ensures learned { self.new.learned ≡ put_learned (record { slot = slot; entry = entry }) self.old.learned }
        ensures places { KeepsPlaces self.old self.new }
    {
        let number = slot.get();
        let after = number - self.floor.get();
        if after <= self.run.len() as u64 {
            self.run[after as usize - 1] = Some(entry);
            return;
        }
        let Ok(_) = self.ahead.insert(number, Some(entry)) else {
            unreachable!()
        };
    }

    /// Forgets what is not above this floor, which is not below the one before, and counts from it on. No slot above it loses its place.
    /// Takes a number of steps that grows with the places of the run and of the slots ahead.
    pub fn forget(&mut self, floor: Floor)
        requires { self.old.floor ≤ floor }
        ensures floor { self.new.floor ≡ floor }
        ensures learned { self.new.learned ≡ learned_above floor self.old.learned }
        ensures slots { self.new.places ≡ slots_above floor self.old.places }
        ensures places { KeepsPlaces self.old self.new }
    {
        let number = floor.get();
        forget_run(&mut self.run, (number - self.floor.get()) as usize);
        self.ahead.retain(|slot, _place| number < *slot);
        self.floor = floor;
    }
}

// Drops the first places of a run, as many as this: all, if there are no more.
fn forget_run<B: Drop>(run: &mut Vec<Option<Entry<B>>>, count: usize)
    ensures { run.new.items ≡ drop count run.old.items }
{
    if count < run.len() {
        drop(run.drain(..count));
    } else {
        run.clear();
    }
}

// Keeps a place ahead of the run for the slot.
fn keep_ahead<B: Drop>(
    floor: u64,
    run: &[Option<Entry<B>>],
    ahead: &mut BTreeMap<u64, Option<Entry<B>>>,
    slot: u64,
) -> Result<(), LearnerFault>
    requires rising { AreRising (floor + length run.now) ahead.old.entries }
    requires behind { floor + length run.now < slot }
    requires most { slot < 2 ^ 40 }
    ensures ok { OnOk result (has_room_on slot (shelf_of floor run.now ahead.new.entries) ≡ true) }
    ensures rising { AreRising (floor + length run.now) ahead.new.entries }
    ensures learned { (shelf_of floor run.now ahead.new.entries).learned ≡ (shelf_of floor run.now ahead.old.entries).learned }
    ensures places { KeepsPlaces (shelf_of floor run.now ahead.old.entries) (shelf_of floor run.now ahead.new.entries) }
    ensures memory { IsOkUnless result Memory }
{
    let _ = floor;
    let _ = run;
    if ahead.contains_key(&slot) {
        return Ok(());
    }
    let Ok(_) = ahead.insert(slot, None) else {
        return Err(LearnerFault::Memory);
    };
    Ok(())
}

// Extends the run up to the slot.
fn keep_near<B: Drop>(
    floor: u64,
    run: &mut Vec<Option<Entry<B>>>,
    ahead: &mut BTreeMap<u64, Option<Entry<B>>>,
    slot: u64,
) -> Result<(), LearnerFault>
    requires rising { AreRising (floor + length run.old.items) ahead.old.entries }
    requires above { floor < slot }
    requires most { slot < 2 ^ 40 }
    ensures ok { OnOk result (has_room_on slot (shelf_of floor run.new.items ahead.new.entries) ≡ true) }
    ensures rising { AreRising (floor + length run.new.items) ahead.new.entries }
    ensures learned { (shelf_of floor run.new.items ahead.new.entries).learned ≡ (shelf_of floor run.old.items ahead.old.entries).learned }
    ensures places { KeepsPlaces (shelf_of floor run.old.items ahead.old.entries) (shelf_of floor run.new.items ahead.new.entries) }
    ensures memory { IsOkUnless result Memory }
{
    for last in floor + run.len() as u64..slot {
        extend(floor, run, ahead, last)?;
    }
    Ok(())
}

// Extends the run by one slot: with the place that is kept for it ahead, or with a free one.
fn extend<B: Drop>(
    floor: u64,
    run: &mut Vec<Option<Entry<B>>>,
    ahead: &mut BTreeMap<u64, Option<Entry<B>>>,
    last: u64,
) -> Result<(), LearnerFault>
    requires rising { AreRising (floor + length run.old.items) ahead.old.entries }
    requires last { last ≡ floor + length run.old.items }
    requires most { suc last < 2 ^ 40 }
    ensures ok { OnOk result (floor + length run.new.items ≡ suc last) }
    ensures rising { AreRising (floor + length run.new.items) ahead.new.entries }
    ensures learned { (shelf_of floor run.new.items ahead.new.entries).learned ≡ (shelf_of floor run.old.items ahead.old.entries).learned }
    ensures places { KeepsPlaces (shelf_of floor run.old.items ahead.old.entries) (shelf_of floor run.new.items ahead.new.entries) }
    ensures memory { IsOkUnless result Memory }
{
    if run.reserve(1).is_err() {
        return Err(LearnerFault::Memory);
    }
    if !stands_first(ahead, last + 1) {
        run.push_reserved(None);
        return Ok(());
    }
    let Some((_, place)) = ahead.pop_first() else {
        unreachable!()
    };
    run.push_reserved(place);
    Ok(())
}

// Returns whether the first place ahead is the slot's.
fn stands_first<B>(ahead: &BTreeMap<u64, Option<Entry<B>>>, slot: u64) -> bool
    ensures { MatchBool result (starts_at slot ahead.now.entries) (starts_at slot ahead.now.entries → ⊥) }
{
    match ahead.first_key_value() {
        Some((first, _)) => *first == slot,
        None => false,
    }
}

fn find_ahead<B>(ahead: &BTreeMap<u64, Option<Entry<B>>>, number: u64) -> Option<&Entry<B>>
    requires { AreRising 0 ahead.now.entries }
    ensures { option_copied result ≡ learned_at number (placed ahead.now.entries) }
{
    match ahead.get(&number) {
        Some(place) => place.as_ref(),
        None => None,
    }
}
