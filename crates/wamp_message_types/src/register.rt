// The messages of registrations.
ghost use Rattle.std.specs.Prelude.{◌≡◌, ◌↔◌, IfOk, IsTrue};

use crate::memory::Memory;
use wamp_ids::{Id, Invoke, Match, Text};

/// A client offers a procedure.
#[derive(Drop)]
pub struct Register {
    pub request: Id,
    pub matching: Match,
    pub invoke: Invoke,
    pub procedure: Text,
}

/// The procedure is registered.
#[derive(Clone, Copy, Debug, PartialEq, Eq, Drop)]
pub struct Registered {
    pub request: Id,
    pub registration: Id,
}

/// A client withdraws a procedure.
#[derive(Clone, Copy, Debug, PartialEq, Eq, Drop)]
pub struct Unregister {
    pub request: Id,
    pub registration: Id,
}

/// It is withdrawn.
#[derive(Clone, Copy, Debug, PartialEq, Eq, Drop)]
pub struct Unregistered {
    pub request: Id,
}

impl Register {
    /// Returns a copy, as `Message::copy` does.
    pub fn copy(&self) -> Result<Register, Memory>
        ensures { IfOk result (λ made. made ≡ self.now) }
    {
        Ok(Register {
            request: self.request,
            matching: self.matching,
            invoke: self.invoke,
            procedure: self.procedure.copy()?,
        })
    }

    /// Returns whether the two are equal, as `Message::same` does.
    pub fn same(&self, other: &Register) -> bool
        ensures { IsTrue result ↔ (self.now ≡ other.now) }
    {
        self.request == other.request
            && self.matching == other.matching
            && self.invoke == other.invoke
            && self.procedure.same(&other.procedure)
    }
}
