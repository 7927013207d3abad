// Places by keys, each of which is looked up as a whole.
ghost use Rattle.std.specs.Prelude.{◌≡◌, [], Some, None, OnOk, OnErr, if◌then◌else◌};
ghost use Rattle.realm_lists.specs.PlaceIndex.{place_at};

use indexmap::IndexMap;
use std::alloc::{AllocError, Global};
use std::hash::Hash;
use std::marker::Model;

/// A hash table: the places of keys, in no order. Where keys are looked up by a part of them, use `PlaceIndex`.
///
/// Cost: each call takes a number of steps that does not depend on the number of keys, as a rule; at times `put` takes one for each key.
pub struct PlaceTable<K: Ord + Hash> {
    places: IndexMap<K, u64>,
}

impl<K: Ord + Hash + Drop> Drop for PlaceTable<K> {
    fn drop(self) {
        let PlaceTable { places: _places } = self;
    }
}

impl<K: Ord + Hash> Model for PlaceTable<K> {
    ghost use Rattle.std.specs.Prelude.{ℕ, List};

    ghost Value = { List (K × ℕ) };

    ghost view = { λ a. a.places.entries };
}

impl<K: Ord + Hash + Drop> PlaceTable<K> {
    /// Creates an empty table. Does not allocate.
    pub fn new(alloc: Global) -> PlaceTable<K>
        ensures { result ≡ [] }
    {
        PlaceTable {
            places: IndexMap::new(alloc),
        }
    }

    /// Returns the place of this key. Does not allocate.
    pub fn get(&self, key: K) -> Option<u64>
        ensures { result ≡ place_at K.cmp self.now key }
    {
        self.places.get(&key).copied()
    }

    /// Sets the place of this key. Fails only if memory runs out, and then changes nothing.
    pub fn put(&mut self, key: K, place: u64) -> Result<(), AllocError>
        ensures ok { OnOk result ((other : K) → place_at K.cmp self.new other
            ≡ (if K.eq key other then Some place else place_at K.cmp self.old other)) }
        ensures err { OnErr result (self.new ≡ self.old) }
    {
        let Ok(_) = self.places.insert(key, place) else {
            return Err(AllocError);
        };
        Ok(())
    }

    /// Removes the place of this key, if it has one. Does not allocate.
    pub fn remove(&mut self, key: K)
        ensures { (other : K) → place_at K.cmp self.new other
            ≡ (if K.eq key other then None else place_at K.cmp self.old other) }
    {
        let _ = self.places.swap_remove(&key);
    }
}
