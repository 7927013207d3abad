// Places by keys in order, also by the first part of a key.
ghost use Rattle.std.specs.Prelude.{◌≡◌, ◌+◌, ◌<◌, ◌^◌, [], Some, None, IfOk, OnOk, OnErr, if◌then◌else◌};
ghost use Rattle.realm_lists.specs.PlaceIndex.{place_at, places_under};

use std::alloc::{AllocError, Global};
use std::collections::BTreeMap;
use std::marker::Model;

/// An ordered index: the places of keys.
///
/// Cost: each call takes a number of steps that is logarithmic in the number of keys; `places_under` takes one more for each place.
pub struct PlaceIndex<K: Ord> {
    places: BTreeMap<K, u64>,
}

impl<K: Ord + Drop> Drop for PlaceIndex<K> {
    fn drop(self) {
        let PlaceIndex { places: _places } = self;
    }
}

impl<K: Ord> Model for PlaceIndex<K> {
    ghost use Rattle.std.specs.Prelude.{ℕ, List};
    ghost use Rattle.std.specs.BTreeMap.{IsOrdered};

    ghost Value = { List (K × ℕ) };

    ghost view = { λ a. a.places.entries };

    ghost invariant = { λ a. IsOrdered K.cmp a.places };
}

impl<K: Ord + Drop> PlaceIndex<K> {
    /// Creates an empty index. Does not allocate.
    pub fn new(alloc: Global) -> PlaceIndex<K>
        ensures { result ≡ [] }
    {
        PlaceIndex {
            places: BTreeMap::new(alloc),
        }
    }

    /// Returns the place of this key. Does not allocate.
    pub fn get(&self, key: K) -> Option<u64>
        ensures { result ≡ place_at K.cmp self.now key }
    {
        self.places.get(&key).copied()
    }

    /// Sets the place of this key. Fails only if memory runs out, and then changes nothing.
    pub fn put(&mut self, key: K, place: u64) -> Result<(), AllocError>
        ensures ok { OnOk result ((other : K) → place_at K.cmp self.new other
            ≡ (if K.eq key other then Some place else place_at K.cmp self.old other)) }
        ensures err { OnErr result (self.new ≡ self.old) }
    {
        let Ok(_) = self.places.insert(key, place) else {
            return Err(AllocError);
        };
        Ok(())
    }

    /// Removes the place of this key, if it has one. Does not allocate.
    pub fn remove(&mut self, key: K)
        ensures { (other : K) → place_at K.cmp self.new other
            ≡ (if K.eq key other then None else place_at K.cmp self.old other) }
    {
        let _ = self.places.remove(&key);
    }
}

impl PlaceIndex<(u64, u64)> {
    /// Returns the places of the keys that begin with this number, in the order of their second number. Fails only if memory runs out.
    pub fn places_under(&self, alloc: Global, first: u64) -> Result<Vec<u64>, AllocError>
        requires { first + 1 < 2 ^ 64 }
        ensures { IfOk result (λ found. found.items ≡ places_under self.now first) }
    {
        let mut found = Vec::new(alloc);
        for (_key, place) in self.places.range((first, 0)..(first + 1, 0)) {
            found.push(*place)?;
        }
        Ok(found)
    }
}
