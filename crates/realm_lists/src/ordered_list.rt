// A list by places, of which members are appended, replaced and removed.
ghost use Rattle.std.specs.Prelude.{◌≡◌, ℕ, ◌<◌, ◌^◌, [], ◌∷◌, ◌++◌, length, SomeIff, IfSome, IfOk, OnOk, OnErr, IsSome, option_copied};
ghost use Rattle.realm_lists.specs.OrderedList.{IsAbove, next_place, member_at, members, members_at, without, with_member};
ghost use Rattle.realm_lists.specs.Finding.{AreRising};
ghost use Rattle.std.specs.BTreeMap.{IsOrdered};
ghost use Rattle.std.specs.Ordering.{nat_cmp};
ghost use Rattle.std.specs.Map.Iter.{ShowsInOrder, deref_pair};

use std::alloc::{AllocError, Global};
use std::collections::BTreeMap;
use std::collections::btree_map::Iter;
use std::marker::Model;

/// A list that keeps the order in which its members came. Each member is at a place: a number that rises from each member to the next.
///
/// Cost: each call takes a number of steps that is logarithmic in the number of members, and `len` one. `at` takes that for each place,
/// `iter` and `to_vec` one step for each member.
pub struct OrderedList<T> {
    rows: BTreeMap<u64, T>,
}

impl<T: Drop> Drop for OrderedList<T> {
    fn drop(self) {
        let OrderedList { rows: _rows } = self;
    }
}

impl<T> Model for OrderedList<T> {
    ghost use Rattle.std.specs.Prelude.{ℕ, List};
    ghost use Rattle.std.specs.Ordering.{nat_cmp};
    ghost use Rattle.std.specs.BTreeMap.{IsOrdered};

    ghost Value = { List (ℕ × T) };

    ghost view = { λ a. a.rows.entries };

    ghost invariant = { λ a. IsOrdered nat_cmp a.rows };
}

impl<T> OrderedList<T> {
    /// Creates an empty list. Does not allocate.
    pub fn new(alloc: Global) -> OrderedList<T>
        ensures { result ≡ [] }
    {
        OrderedList {
            rows: BTreeMap::new(alloc),
        }
    }

    /// Returns the number of members. Does not allocate.
    pub fn len(&self) -> usize
        ensures { result ≡ length self.now }
    {
        self.rows.len()
    }

    /// Returns the place after the last member. `None` if the last member is at the last place of all, 2^64 - 1. Does not allocate.
    pub fn next_place(&self) -> Option<u64>
        ensures place { SomeIff result (next_place self.now < 2 ^ 64) (next_place self.now) }
        ensures above { IfSome result (λ place. IsAbove place self.now) }
    {
        let Some((last, _)) = self.rows.last_key_value() else {
            return Some(0);
        };
        let last = *last;
        if last == u64::MAX {
            return None;
        }
        Some(last + 1)
    }

    /// Returns the member at this place. Does not allocate.
    pub fn get(&self, place: u64) -> Option<&T>
        ensures member { option_copied result ≡ member_at place self.now }
        ensures rising { AreRising self.now }
    {
        self.rows.get(&place)
    }

    /// Iterates over the members with their places, in order. Does not allocate.
    pub fn iter(&self) -> Iter<'_, u64, T>
        ensures rows { result ≡ self.now }
        ensures runs { ShowsInOrder (deref_pair {K = ℕ} {X = T}) }
    {
        self.rows.iter()
    }
}

impl<T: Drop> OrderedList<T> {
    /// Appends the member at this place. Fails only if memory runs out, and then changes nothing.
    pub fn push(&mut self, place: u64, member: T) -> Result<(), AllocError>
        requires { IsAbove place self.old }
        ensures ok { OnOk result (self.new ≡ self.old ++ (place, member) ∷ []) }
        ensures err { OnErr result (self.new ≡ self.old) }
    {
        let Ok(_) = self.rows.insert(place, member) else {
            return Err(AllocError);
        };
        Ok(())
    }

    /// Removes the member at this place and returns it. Does not allocate.
    pub fn remove(&mut self, place: u64) -> Option<T>
        ensures member { result ≡ member_at place self.old }
        ensures rows { self.new ≡ without place self.old }
        ensures rising { AreRising self.old }
    {
        self.rows.remove(&place)
    }

    /// Replaces the member at this place. Does not allocate.
    pub fn set(&mut self, place: u64, member: T)
        requires { IsSome (member_at place self.old) }
        ensures { self.new ≡ with_member place member self.old }
    {
        *self.rows.get_mut(&place).unwrap() = member;
    }
}

impl<T: Copy + Drop> OrderedList<T> {
    /// Returns the members at these places, in order. Fails only if memory runs out.
    pub fn at(&self, alloc: Global, places: &[u64]) -> Result<OrderedList<T>, AllocError>
        ensures { IfOk result (λ found. found ≡ members_at places.now self.now) }
    {
        let found = gather(alloc, &self.rows, places)?;
        Ok(OrderedList { rows: found })
    }

    /// Returns the members in order. Fails only if memory runs out.
    pub fn to_vec(&self, alloc: Global) -> Result<Vec<T>, AllocError>
        ensures { IfOk result (λ list. list.items ≡ members self.now) }
    {
        let mut list = Vec::new(alloc);
        for member in self.rows.values() {
            list.push(*member)?;
        }
        Ok(list)
    }
}

// Returns the members at these places.
fn gather<T: Copy + Drop>(
    alloc: Global,
    rows: &BTreeMap<u64, T>,
    places: &[u64],
) -> Result<BTreeMap<u64, T>, AllocError>
    requires { IsOrdered nat_cmp rows.now }
    ensures members { IfOk result (λ found. found.entries ≡ members_at places.now rows.now.entries) }
    ensures ordered { IfOk result (λ found. IsOrdered nat_cmp found) }
{
    let mut found = BTreeMap::new(alloc);
    for place in places {
        if let Some(member) = rows.get(place) {
            found.insert(*place, *member)?;
        }
    }
    Ok(found)
}
