// The faults of values that are no payload, and their numbers.
ghost use Rattle.std.specs.Prelude.{◌≡◌};
ghost use Rattle.wamp_values.specs.Fault.{number_of};

use std::alloc::AllocError;
use thiserror::Error;

/// Why a JSON value is no payload, or why no payload was made of it.
#[derive(Clone, Copy, Debug, PartialEq, Eq, Hash, Error)]
pub enum ValueFault {
    #[error("a payload's numbers are whole numbers from -2^63 to 2^64-1")]
    Number,
    #[error("a payload nests at most 126 deep")]
    Deep,
    #[error("out of memory")]
    Memory,
}

impl ValueFault {
    /// Returns the fault's number: 11, 13 or 12.
    pub fn number(self) -> u8
        ensures { result ≡ number_of self }
    {
        match self {
            ValueFault::Number => 11,
            ValueFault::Deep => 13,
            ValueFault::Memory => 12,
        }
    }
}

impl From<AllocError> for ValueFault {
    ghost use Rattle.std.specs.Prelude.{◌≡◌};
    ghost use Rattle.wamp_values.specs.declared.fault.ValueFault.TheVariants.{Memory};

    ghost from_gives = { λ _ e. e ≡ Memory };

    fn from(_error: AllocError) -> ValueFault {
        ValueFault::Memory
    }
}
