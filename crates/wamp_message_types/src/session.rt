// The messages that open and end a session.
ghost use Rattle.std.specs.Prelude.{◌≡◌, ◌↔◌, IfOk, IsTrue};

use crate::memory::Memory;
use wamp_ids::{Id, Text};
use wamp_values::Args;

/// A client asks for a session in a realm; `canceling` is set if it announces call canceling as a callee.
#[derive(Drop)]
pub struct Hello {
    pub realm: Text,
    pub canceling: bool,
}

/// The router opens the session.
#[derive(Clone, Copy, Debug, PartialEq, Eq, Drop)]
pub struct Welcome {
    pub session: Id,
}

/// Either side ends the session, or its opening, at once.
#[derive(Drop)]
pub struct Abort {
    pub reason: Text,
    pub args: Args,
}

/// Either side asks for the session's end, or answers such a request.
#[derive(Drop)]
pub struct Goodbye {
    pub reason: Text,
}

impl Hello {
    /// Returns a copy, as `Message::copy` does.
    pub fn copy(&self) -> Result<Hello, Memory>
        ensures { IfOk result (λ made. made ≡ self.now) }
    {
        Ok(Hello {
            realm: self.realm.copy()?,
            canceling: self.canceling,
        })
    }

    /// Returns whether the two are equal, as `Message::same` does.
    pub fn same(&self, other: &Hello) -> bool
        ensures { IsTrue result ↔ (self.now ≡ other.now) }
    {
        self.realm.same(&other.realm) && self.canceling == other.canceling
    }
}

impl Abort {
    /// Returns a copy, as `Message::copy` does.
    pub fn copy(&self) -> Result<Abort, Memory>
        ensures { IfOk result (λ made. made ≡ self.now) }
    {
        Ok(Abort {
            reason: self.reason.copy()?,
            args: self.args.copy()?,
        })
    }

    /// Returns whether the two are equal, as `Message::same` does.
    pub fn same(&self, other: &Abort) -> bool
        ensures { IsTrue result ↔ (self.now ≡ other.now) }
    {
        self.reason.same(&other.reason) && self.args.same(&other.args)
    }
}

impl Goodbye {
    /// Returns a copy, as `Message::copy` does.
    pub fn copy(&self) -> Result<Goodbye, Memory>
        ensures { IfOk result (λ made. made ≡ self.now) }
    {
        Ok(Goodbye {
            reason: self.reason.copy()?,
        })
    }

    /// Returns whether the two are equal, as `Message::same` does.
    pub fn same(&self, other: &Goodbye) -> bool
        ensures { IsTrue result ↔ (self.now ≡ other.now) }
    {
        self.reason.same(&other.reason)
    }
}
