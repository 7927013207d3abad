//! Sets of ids by sessions: which groups each session is in.
ghost use Rattle.std.specs.Prelude.{◌≡◌, ℕ, ◌==◌, [], false, true, ◌&&◌, IfSome, IfNone, OnOk, OnErr, length, if◌then◌else◌};
ghost use Rattle.std.specs.List.Sorted.{IsStrictlySortedBy};
ghost use Rattle.std.specs.Ordering.{nat_cmp};
ghost use Rattle.realm_groups.specs.IdSets.{has_id_in, ids_of, is_id};

use std::alloc::{AllocError, Global};
use std::collections::btree_set::Iter;
use std::collections::{BTreeMap, BTreeSet};
use std::marker::Model;

// A set of ids. Its value is the ascending list of them.
#[derive(Drop)]
pub(crate) struct IdSet {
    ids: BTreeSet<u64>,
}

impl Model for IdSet {
    ghost use Rattle.std.specs.Prelude.{ℕ, List};
    ghost use Rattle.std.specs.Ordering.{nat_cmp};
    ghost use Rattle.std.specs.BTreeSet.{IsOrdered};

    ghost Value = { List ℕ };

    ghost view = { λ a. a.ids.keys };

    ghost invariant = { λ a. IsOrdered nat_cmp a.ids };
}

impl IdSet {
    fn new(alloc: Global) -> IdSet
        ensures { result ≡ [] }
    {
        IdSet {
            ids: BTreeSet::new(alloc),
        }
    }

    fn len(&self) -> usize
        ensures len { result ≡ length self.now }
        ensures ordered { IsStrictlySortedBy nat_cmp self.now }
    {
        self.ids.len()
    }

    fn has(&self, id: u64) -> bool
        ensures { result ≡ has_id_in self.now id }
    {
        self.ids.contains(&id)
    }

    fn add(&mut self, id: u64) -> Result<(), AllocError>
        ensures ok { OnOk result ((q : ℕ) → has_id_in self.new q ≡ (if is_id id q then true else has_id_in self.old q)) }
        ensures err { OnErr result (self.new ≡ self.old) }
    {
        let Ok(_) = self.ids.insert(id) else {
            return Err(AllocError);
        };
        Ok(())
    }

    // Removes the id; returns whether others are left.
    fn remove(&mut self, id: u64) -> bool
        ensures ids { (q : ℕ) → has_id_in self.new q ≡ (if is_id id q then false else has_id_in self.old q) }
        ensures none { result ≡ false → self.new ≡ [] }
    {
        let _ = self.ids.remove(&id);
        !self.ids.is_empty()
    }

    pub(crate) fn iter(&self) -> Iter<'_, u64>
        ensures ids { result ≡ self.now }
        ensures ordered { IsStrictlySortedBy nat_cmp self.now }
    {
        self.ids.iter()
    }
}

// The ids of each session. Each call takes a number of steps that is logarithmic in the number of sessions and of the ids.
#[derive(Drop)]
pub(crate) struct IdSets {
    sets: BTreeMap<u64, IdSet>,
}

impl Model for IdSets {
    ghost use Rattle.std.specs.Prelude.{ℕ, List};
    ghost use Rattle.std.specs.Ordering.{nat_cmp};
    ghost use Rattle.std.specs.BTreeMap.{IsOrdered};

    ghost Value = { List (ℕ × List ℕ) };

    ghost view = { λ a. a.sets.entries };

    ghost invariant = { λ a. IsOrdered nat_cmp a.sets };
}

impl IdSets {
    pub(crate) fn new(alloc: Global) -> IdSets
        ensures { result ≡ [] }
    {
        IdSets {
            sets: BTreeMap::new(alloc),
        }
    }

    // Returns how many ids the session has.
    #[tactic(auto, using(crate::proofs::Sets::none_rising))]
    pub(crate) fn count(&self, session: u64) -> usize
        ensures count { result ≡ length (ids_of self.now session) }
        ensures ordered { IsStrictlySortedBy nat_cmp (ids_of self.now session) }
    {
        match self.sets.get(&session) {
            Some(set) => set.len(),
            None => 0,
        }
    }

    pub(crate) fn has(&self, session: u64, id: u64) -> bool
        ensures { result ≡ has_id_in (ids_of self.now session) id }
    {
        match self.sets.get(&session) {
            Some(set) => set.has(id),
            None => false,
        }
    }

    // Adds the id to the session's. Fails only if memory runs out, and then changes nothing.
    pub(crate) fn add(&mut self, alloc: Global, session: u64, id: u64) -> Result<(), AllocError>
        ensures ok { OnOk result ((other q : ℕ) → has_id_in (ids_of self.new other) q
            ≡ (if session == other && is_id id q then true else has_id_in (ids_of self.old other) q)) }
        ensures err { OnErr result (self.new ≡ self.old) }
    {
        if let Some(set) = self.sets.get_mut(&session) {
            return set.add(id);
        }
        self.add_first(alloc, session, id)
    }

    // Adds the id of a session that has none. Fails only if memory runs out, and then changes nothing.
    fn add_first(&mut self, alloc: Global, session: u64, id: u64) -> Result<(), AllocError>
        requires { ids_of self.old session ≡ [] }
        ensures ok { OnOk result ((other q : ℕ) → has_id_in (ids_of self.new other) q
            ≡ (if session == other && is_id id q then true else has_id_in (ids_of self.old other) q)) }
        ensures err { OnErr result (self.new ≡ self.old) }
    {
        let mut set = IdSet::new(alloc);
        set.add(id)?;
        let Ok(_) = self.sets.insert(session, set) else {
            return Err(AllocError);
        };
        Ok(())
    }

    // Removes the id from the session's. Does not allocate.
    pub(crate) fn remove(&mut self, session: u64, id: u64)
        ensures { (other q : ℕ) → has_id_in (ids_of self.new other) q
            ≡ (if session == other && is_id id q then false else has_id_in (ids_of self.old other) q) }
    {
        let Some(set) = self.sets.get_mut(&session) else {
            return;
        };
        if !set.remove(id) {
            let _ = self.sets.remove(&session);
        }
    }

    // Removes all ids of the session and returns them. Does not allocate.
    pub(crate) fn take(&mut self, session: u64) -> Option<IdSet>
        ensures some { IfSome result (λ set. set ≡ ids_of self.old session) }
        ensures none { IfNone result (ids_of self.old session ≡ []) }
        ensures others { (other : ℕ) → ids_of self.new other ≡ (if session == other then [] else ids_of self.old other) }
    {
        self.sets.remove(&session)
    }
}
