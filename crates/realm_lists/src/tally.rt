// Counts by numbers, such as the open calls of each caller.
ghost use Rattle.std.specs.Prelude.{◌≡◌, ℕ, ◌+◌, ◌-◌, ◌<◌, ◌^◌, ◌==◌, [], OnOk, OnErr, if◌then◌else◌};
ghost use Rattle.realm_lists.specs.Tally.{count_in};

use std::alloc::{AllocError, Global};
use std::collections::BTreeMap;
use std::marker::Model;

/// A counter for each number.
///
/// Cost: each call takes a number of steps that is logarithmic in the number of numbers that are counted.
pub struct Tally {
    counts: BTreeMap<u64, u64>,
}

impl Drop for Tally {
    fn drop(self) {
        let Tally { counts: _counts } = self;
    }
}

impl Model for Tally {
    ghost use Rattle.std.specs.Prelude.{ℕ, List};
    ghost use Rattle.std.specs.Ordering.{nat_cmp};
    ghost use Rattle.std.specs.BTreeMap.{IsOrdered};

    ghost Value = { List (ℕ × ℕ) };

    ghost view = { λ a. a.counts.entries };

    ghost invariant = { λ a. IsOrdered nat_cmp a.counts };
}

impl Tally {
    /// Creates a tally in which each count is 0. Does not allocate.
    pub fn new(alloc: Global) -> Tally
        ensures { result ≡ [] }
    {
        Tally {
            counts: BTreeMap::new(alloc),
        }
    }

    /// Returns the count of this number. Does not allocate.
    pub fn count(&self, key: u64) -> u64
        ensures { result ≡ count_in self.now key }
    {
        self.counts.get(&key).copied().unwrap_or(0)
    }

    /// Adds one to the count of this number. Fails only if memory runs out, and then changes nothing.
    pub fn add(&mut self, key: u64) -> Result<(), AllocError>
        requires { count_in self.old key + 1 < 2 ^ 64 }
        ensures ok { OnOk result ((other : ℕ) → count_in self.new other
            ≡ (if key == other then count_in self.old other + 1 else count_in self.old other)) }
        ensures err { OnErr result (self.new ≡ self.old) }
    {
        let count = self.count(key);
        let Ok(_) = self.counts.insert(key, count + 1) else {
            return Err(AllocError);
        };
        Ok(())
    }

    /// Takes one from the count of this number, unless it is 0. Does not allocate.
    pub fn take(&mut self, key: u64)
        ensures { (other : ℕ) → count_in self.new other
            ≡ (if key == other then count_in self.old other - 1 else count_in self.old other) }
    {
        let count = self.count(key);
        if count <= 1 {
            let _ = self.counts.remove(&key);
            return;
        }
        let Ok(_) = self.counts.insert(key, count - 1) else {
            unreachable!()
        };
    }
}
