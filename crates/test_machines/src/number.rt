//! Numbers as bodies.
ghost use Rattle.std.specs.Prelude.{◌≡◌, ℕ, ◌==◌, refl};
ghost use Rattle.std.proofs.lemmas.Bool.{eq-eqb, eqb-true};

use paxos_packets::{Body, Memory};
use std::alloc::Global;
use std::marker::Model;

/// A body that is a number.
#[derive(Clone, Copy, Debug, PartialEq, Eq)]
pub struct Number {
    value: u32,
}

impl Model for Number {
    ghost Value = { ℕ };

    ghost view = { λ n. n.value };

    ghost inverse = { λ n. record { value = n } };
}

impl Number {
    /// Returns the body of this value.
    pub fn new(value: u32) -> Number
        ensures { result ≡ value }
    {
        Number { value }
    }

    /// Returns its value.
    pub fn get(self) -> u32
        ensures { result ≡ self }
    {
        self.value
    }
}

impl Body for Number {
    ghost same = { λ a b. a == b };

    ghost reflexive = { λ x. eq-eqb x x refl };

    ghost sound = { λ x y h. eqb-true x y h };

    fn copy(&self, _alloc: Global) -> Result<Number, Memory> {
        Ok(*self)
    }

    fn same(&self, other: &Number) -> bool {
        self == other
    }
}
