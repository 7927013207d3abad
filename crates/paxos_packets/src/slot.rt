//! Slots and their range.

ghost use Rattle.std.specs.Prelude.{◌≡◌, ℕ, ◌<◌, ◌≤◌, ◌^◌, ◌↔◌, IsSome, IfSome};

use std::marker::Model;

/// A slot of the log, from 1 to 2^40 - 1.
#[derive(Clone, Copy, Debug, PartialEq, Eq, PartialOrd, Ord, Hash)]
pub struct Slot {
    number: u64,
}

impl Model for Slot {
    ghost Value = { ℕ };

    ghost view = { λ s. s.number };

    ghost invariant = { λ s. (1 ≤ s.number) × (s.number < 2 ^ 40) };

    ghost inverse = { λ n. record { number = n } };
}

impl Slot {
    /// Returns the slot with this number, or `None` if the number is 0 or above 2^40 - 1. Does not allocate.
    pub fn new(number: u64) -> Option<Slot>
        ensures valid { IsSome result ↔ ((1 ≤ number) × (number < 2 ^ 40)) }
        ensures value { IfSome result (λ s. s ≡ number) }
    {
        if (1..1 << 40).contains(&number) {
            Some(Slot { number })
        } else {
            None
        }
    }

    /// Returns the slot's number.
    pub fn get(self) -> u64
        ensures value { result ≡ self }
        ensures least { 1 ≤ result }
        ensures most { result < 2 ^ 40 }
    {
        self.number
    }
}

/// A floor: up to which slot a snapshot gives a log, from 1 to 2^40 - 1, or 0 without one.
#[derive(Clone, Copy, Debug, PartialEq, Eq, PartialOrd, Ord, Hash)]
pub struct Floor {
    number: u64,
}

impl Model for Floor {
    ghost Value = { ℕ };

    ghost view = { λ f. f.number };

    ghost invariant = { λ f. f.number < 2 ^ 40 };

    ghost inverse = { λ n. record { number = n } };
}

impl Floor {
    /// Returns the floor with this number, or `None` if it is above 2^40 - 1. Does not allocate.
    pub fn new(number: u64) -> Option<Floor>
        ensures valid { IsSome result ↔ (number < 2 ^ 40) }
        ensures value { IfSome result (λ f. f ≡ number) }
    {
        if number < 1 << 40 {
            Some(Floor { number })
        } else {
            None
        }
    }

    /// Returns the floor of a log that no snapshot gives.
    pub fn none() -> Floor
        ensures { result ≡ 0 }
    {
        Floor { number: 0 }
    }

    /// Returns the floor at this slot.
    pub fn at(slot: Slot) -> Floor
        ensures { result ≡ slot }
    {
        Floor { number: slot.get() }
    }

    /// Returns the floor's number.
    pub fn get(self) -> u64
        ensures value { result ≡ self }
        ensures most { result < 2 ^ 40 }
    {
        self.number
    }
}
