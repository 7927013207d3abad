// The messages of calls.
ghost use Rattle.std.specs.Prelude.{◌≡◌, ◌↔◌, IfOk, IsTrue};

use crate::memory::Memory;
use crate::publish::{copy_label, is_same_label};
use wamp_ids::{Id, Mode, Text};
use wamp_values::Args;

/// A client calls a procedure.
#[derive(Drop)]
pub struct Call {
    pub request: Id,
    /// Whether the callee is to be told the caller's session.
    pub disclose_me: bool,
    /// Whether the caller asks for progressive results.
    pub receive_progress: bool,
    pub procedure: Text,
    pub args: Args,
}

/// A client cancels its call.
#[derive(Clone, Copy, Debug, PartialEq, Eq, Drop)]
pub struct Cancel {
    pub request: Id,
    pub mode: Mode,
}

/// The call's result, or a part of it: the message RESULT.
#[derive(Drop)]
pub struct CallResult {
    pub request: Id,
    /// Whether more results of this call follow.
    pub progress: bool,
    pub args: Args,
}

/// A callee is asked for a call's result.
#[derive(Drop)]
pub struct Invocation {
    pub request: Id,
    pub registration: Id,
    /// The caller's session, if the caller discloses it.
    pub caller: Option<Id>,
    /// The procedure that is called, if the registration is not an exact one.
    pub procedure: Option<Text>,
    /// Whether the caller asks for progressive results.
    pub receive_progress: bool,
    pub args: Args,
}

/// A callee is notified that the call is canceled.
#[derive(Clone, Copy, Debug, PartialEq, Eq, Drop)]
pub struct Interrupt {
    pub request: Id,
    pub mode: Mode,
}

/// A callee answers an invocation, or a part of it.
#[derive(Drop)]
pub struct Yield {
    pub request: Id,
    /// Whether more answers to this invocation follow.
    pub progress: bool,
    pub args: Args,
}

impl Call {
    /// Returns a copy, as `Message::copy` does.
    pub fn copy(&self) -> Result<Call, Memory>
        ensures { IfOk result (λ made. made ≡ self.now) }
    {
        Ok(Call {
            request: self.request,
            disclose_me: self.disclose_me,
            receive_progress: self.receive_progress,
            procedure: self.procedure.copy()?,
            args: self.args.copy()?,
        })
    }

    /// Returns whether the two are equal, as `Message::same` does.
    pub fn same(&self, other: &Call) -> bool
        ensures { IsTrue result ↔ (self.now ≡ other.now) }
    {
        self.request == other.request
            && self.disclose_me == other.disclose_me
            && self.receive_progress == other.receive_progress
            && self.procedure.same(&other.procedure)
            && self.args.same(&other.args)
    }
}

impl CallResult {
    /// Returns a copy, as `Message::copy` does.
    pub fn copy(&self) -> Result<CallResult, Memory>
        ensures { IfOk result (λ made. made ≡ self.now) }
    {
        Ok(CallResult {
            request: self.request,
            progress: self.progress,
            args: self.args.copy()?,
        })
    }

    /// Returns whether the two are equal, as `Message::same` does.
    pub fn same(&self, other: &CallResult) -> bool
        ensures { IsTrue result ↔ (self.now ≡ other.now) }
    {
        self.request == other.request
            && self.progress == other.progress
            && self.args.same(&other.args)
    }
}

impl Invocation {
    /// Returns a copy, as `Message::copy` does.
    pub fn copy(&self) -> Result<Invocation, Memory>
        ensures { IfOk result (λ made. made ≡ self.now) }
    {
        Ok(Invocation {
            request: self.request,
            registration: self.registration,
            caller: self.caller,
            procedure: copy_label(&self.procedure)?,
            receive_progress: self.receive_progress,
            args: self.args.copy()?,
        })
    }

    /// Returns whether the two are equal, as `Message::same` does.
    pub fn same(&self, other: &Invocation) -> bool
        ensures { IsTrue result ↔ (self.now ≡ other.now) }
    {
        self.request == other.request
            && self.registration == other.registration
            && is_same_id(&self.caller, &other.caller)
            && is_same_label(&self.procedure, &other.procedure)
            && self.receive_progress == other.receive_progress
            && self.args.same(&other.args)
    }
}

impl Yield {
    /// Returns a copy, as `Message::copy` does.
    pub fn copy(&self) -> Result<Yield, Memory>
        ensures { IfOk result (λ made. made ≡ self.now) }
    {
        Ok(Yield {
            request: self.request,
            progress: self.progress,
            args: self.args.copy()?,
        })
    }

    /// Returns whether the two are equal, as `Message::same` does.
    pub fn same(&self, other: &Yield) -> bool
        ensures { IsTrue result ↔ (self.now ≡ other.now) }
    {
        self.request == other.request
            && self.progress == other.progress
            && self.args.same(&other.args)
    }
}

fn is_same_id(id: &Option<Id>, other: &Option<Id>) -> bool
    ensures { IsTrue result ↔ (id.now ≡ other.now) }
{
    match (id, other) {
        (Some(id), Some(other)) => *id == *other,
        (None, None) => true,
        _ => false,
    }
}
