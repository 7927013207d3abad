// Ids and their range.
ghost use Rattle.std.specs.Prelude.{◌≡◌, ℕ, IsTrue, Some, None, if◌then◌else◌};
ghost use Rattle.wamp_ids.specs.Id.{is_id, id_after};

use std::marker::Model;

/// The greatest id, 2^53.
pub const LAST_ID: u64 = 9_007_199_254_740_992;

/// An id of WAMP: a whole number from 1 to 2^53 (WAMP specification, "IDs").
#[derive(Clone, Copy, Debug, PartialEq, Eq, PartialOrd, Ord, Hash)]
pub struct Id {
    number: u64,
}

impl Model for Id {
    ghost Value = { ℕ };

    ghost view = { λ a. a.number };

    ghost invariant = { λ a. IsTrue (is_id a.number) };

    ghost inverse = { λ n. record { number = n } };
}

impl Id {
    /// Returns the id with this number, or `None` if the number is 0 or above 2^53.
    pub fn new(number: u64) -> Option<Id>
        ensures { result ≡ (if is_id number then Some number else None) }
    {
        if 1 <= number && number <= LAST_ID {
            Some(Id { number })
        } else {
            None
        }
    }

    /// Returns the id's number.
    pub fn get(self) -> u64
        ensures value { result ≡ self }
        ensures range { IsTrue (is_id result) }
    {
        let Id { number } = self;
        number
    }

    /// Returns the id to hand out next: one more than this, or 1 after 2^53.
    pub fn next(self) -> Id
        ensures { result ≡ id_after self }
    {
        if self.number < LAST_ID {
            Id {
                number: self.number + 1,
            }
        } else {
            Id { number: 1 }
        }
    }
}
