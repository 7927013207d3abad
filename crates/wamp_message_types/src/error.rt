// The message that refuses a request.
ghost use Rattle.std.specs.Prelude.{◌≡◌, ◌↔◌, IfOk, IsTrue};

use crate::memory::Memory;
use crate::request_kind::RequestKind;
use wamp_ids::{Id, Text};
use wamp_values::Args;

/// A request is refused.
#[derive(Drop)]
pub struct Error {
    pub kind: RequestKind,
    pub request: Id,
    pub error: Text,
    pub args: Args,
}

impl Error {
    /// Returns a copy, as `Message::copy` does.
    pub fn copy(&self) -> Result<Error, Memory>
        ensures { IfOk result (λ made. made ≡ self.now) }
    {
        Ok(Error {
            kind: self.kind,
            request: self.request,
            error: self.error.copy()?,
            args: self.args.copy()?,
        })
    }

    /// Returns whether the two are equal, as `Message::same` does.
    pub fn same(&self, other: &Error) -> bool
        ensures { IsTrue result ↔ (self.now ≡ other.now) }
    {
        self.kind == other.kind
            && self.request == other.request
            && self.error.same(&other.error)
            && self.args.same(&other.args)
    }
}
