//! A realm's open calls: how they open, how an answer or a cancel ends them, and which end with a session.
ghost use Rattle.std.specs.Prelude.{◌≡◌, ◌↔◌, ◌+◌, ◌<◌, ◌^◌, [], true, false, OnOk, OnErr, IfOk, IsErrOf, IsOkUnless, find};
ghost use Rattle.std.specs.Prelude.{filter, option_map, map};
ghost use Rattle.realm_sessions.specs.declared.fault.RealmFault.TheVariants as fault;
ghost use Rattle.realm_sessions.specs.Links.{has_number};
ghost use Rattle.realm_calls.specs.Calls.{with_list, is_invocation, has, call_of, peek, count_of, is_full, open_call, with_call};
ghost use Rattle.realm_calls.specs.Calls.{open_of, end, answer, cancel_one, cancel, is_by, calls_to, calls_by};
ghost use Rattle.realm_calls.specs.Calls.{without_callee, without_caller};

use crate::open_calls::OpenCalls;
use realm_sessions::RealmFault;
use std::alloc::Global;
use std::marker::Model;
use wamp_ids::{Id, Mode};

/// A call that is not answered yet.
#[derive(Clone, Copy, Debug, PartialEq, Eq)]
pub struct Open {
    /// The session that called, and its request.
    pub caller: Id,
    pub request: Id,
    /// The session that is called, and the invocation that it knows the call as.
    pub callee: Id,
    pub invocation: Id,
    /// Whether the caller takes progressive results (WAMP specification, "Progressive Call Results").
    pub progress: bool,
}

/// What becomes of a call that its caller cancels (WAMP specification, "Call Canceling").
#[derive(Clone, Copy, Debug, PartialEq, Eq)]
pub struct Cancelled {
    pub call: Open,
    /// Whether the call ended. Otherwise the callee's answer will end it.
    pub is_ended: bool,
    /// The mode of the INTERRUPT to the callee, if one is due.
    pub interrupt: Option<Mode>,
}

impl Open {
    // Returns whether this session called another.
    fn is_by(&self, session: Id) -> bool
        ensures { result ≡ is_by session self.now }
    {
        self.caller == session && !(self.callee == session)
    }
}

/// The open calls of a realm in order of opening, at most `limit` for each caller.
///
/// Cost: each method takes a number of steps that is logarithmic in the number of open calls. `open_of`, `leave_callee` and `leave_caller`
/// take as many for each of the session's calls; `to_vec` takes a step for each open call.
pub struct Calls {
    limit: u32,
    held: OpenCalls,
}

impl Drop for Calls {
    fn drop(self) {
        let Calls {
            limit: _,
            held: _held,
        } = self;
    }
}

impl Model for Calls {
    ghost use Rattle.realm_calls.specs.Calls.{Calls};

    ghost Value = { Calls };

    ghost view = { λ a. record { limit = a.limit; list = a.held } };
}

impl Calls {
    /// Creates it with no call open, for at most `limit` open calls of a caller at a time. Does not allocate.
    pub fn new(alloc: Global, limit: u32) -> Calls
        ensures { result ≡ record { limit = limit; list = [] } }
    {
        Calls {
            limit,
            held: OpenCalls::new(alloc),
        }
    }

    // Returns these calls, under this limit.
    pub(crate) fn holding(limit: u32, held: OpenCalls) -> Calls
        ensures { result ≡ record { limit = limit; list = held } }
    {
        Calls { limit, held }
    }

    /// Opens a call as the last one; `progress` says whether its caller takes progressive results. Neither the caller's request nor the
    /// callee's invocation may be open. The faults are `Limit`, exactly if the caller has `limit` open calls, and `Memory`; nothing has
    /// changed then.
    pub fn open(
        &mut self,
        caller: Id,
        request: Id,
        callee: Id,
        invocation: Id,
        progress: bool,
    ) -> Result<(), RealmFault>
        requires new { has self.old.list caller request ≡ false }
        requires free { has_number (open_of self.old.list callee) invocation ≡ false }
        ensures ok { OnOk result (self.new ≡ with_call self.old (open_call caller request callee invocation progress)) }
        ensures err { OnErr result (self.new ≡ self.old) }
        ensures limit { IsErrOf result fault.Limit ↔ (is_full self.old caller ≡ true) }
        ensures fault { is_full self.old caller ≡ false → IsOkUnless result fault.Memory }
    {
        if self.has_all(caller) {
            return Err(RealmFault::Limit);
        }
        self.held.push(Open {
            caller,
            request,
            callee,
            invocation,
            progress,
        })
    }

    /// Returns whether the caller has as many open calls as it may have: `open` returns `Limit` exactly then. Does not allocate.
    pub fn is_full(&self, caller: Id) -> bool
        ensures { result ≡ is_full self.now caller }
    {
        self.has_all(caller)
    }

    // Returns whether the caller has as many open calls as it may have; if not, their count may rise by one.
    fn has_all(&self, caller: Id) -> bool
        ensures full { result ≡ is_full self.now caller }
        ensures few { result ≡ false → count_of self.now.list caller + 1 < 2 ^ 64 }
    {
        !(self.held.count(caller) < u64::from(self.limit))
    }

    /// Returns the open calls in order of opening. The only fault is `Memory`.
    pub fn to_vec(&self) -> Result<Vec<Open>, RealmFault>
        ensures list { IfOk result (λ list. list.items ≡ self.now.list) }
        ensures fault { IsOkUnless result fault.Memory }
    {
        self.held.to_vec()
    }

    /// Returns whether the caller's request is open. Does not allocate.
    pub fn has(&self, caller: Id, request: Id) -> bool
        ensures { result ≡ has self.now.list caller request }
    {
        self.held.find_call(caller, request).is_some()
    }

    /// Returns the caller's open call under this request. Does not allocate.
    pub fn call_of(&self, caller: Id, request: Id) -> Option<&Open>
        ensures { option_map (λ call. call.now) result ≡ call_of self.now.list caller request }
    {
        self.held.find_call(caller, request)
    }

    /// Returns the open call that the callee knows as this invocation, and leaves it open: `answer` ends this one. Does not allocate.
    pub fn peek(&self, callee: Id, invocation: Id) -> Option<&Open>
        ensures { option_map (λ call. call.now) result ≡ peek self.now.list callee invocation }
    {
        self.held.find_invocation(callee, invocation)
    }

    /// Returns whether the callee has this invocation open. Does not allocate.
    pub fn is_invoked(&self, callee: Id, invocation: Id) -> bool
        ensures { result ≡ has_number (open_of self.now.list callee) invocation }
    {
        self.held.find_invocation(callee, invocation).is_some()
    }

    /// Returns the invocations that the callee has not answered, in order of opening. The only fault is `Memory`.
    pub fn open_of(&self, callee: Id) -> Result<Vec<Id>, RealmFault>
        ensures found { IfOk result (λ found. found.items ≡ open_of self.now.list callee) }
        ensures fault { IsOkUnless result fault.Memory }
    {
        let calls = self.held.of_callee(callee)?;
        invocations_of(&calls)
    }

    /// Ends the call that the callee answers by this invocation, and returns it. The only fault is `NotOpen`, if the callee has no such
    /// invocation open; nothing has changed then. Does not allocate.
    pub fn answer(&mut self, callee: Id, invocation: Id) -> Result<Open, RealmFault>
        ensures answer { result ≡ (answer self.old callee invocation).answer }
        ensures calls { self.new ≡ (answer self.old callee invocation).calls }
    {
        let Some(call) = self.held.find_invocation(callee, invocation) else {
            return Err(RealmFault::NotOpen);
        };
        let call = *call;
        self.held.end(&call);
        Ok(call)
    }

    /// Cancels the caller's call under this request (WAMP specification, "Call Canceling"). With `Skip`, or if the callee did not announce
    /// canceling, the call ends. With `Kill` the callee is to be interrupted, and its answer will end the call; with `KillNoWait` it is to
    /// be interrupted, and the call ends. The only fault is `NotOpen`, if the caller has no such request open; nothing has changed then.
    /// Does not allocate.
    pub fn cancel(
        &mut self,
        caller: Id,
        request: Id,
        mode: Mode,
        announces: bool,
    ) -> Result<Cancelled, RealmFault>
        ensures answer { result ≡ (cancel self.old caller request mode announces).answer }
        ensures calls { self.new ≡ (cancel self.old caller request mode announces).calls }
    {
        let Some(call) = self.held.find_call(caller, request) else {
            return Err(RealmFault::NotOpen);
        };
        let cancelled = cancel_one(call, mode, announces);
        if cancelled.is_ended {
            self.held.end(&cancelled.call);
        }
        Ok(cancelled)
    }

    /// Ends the calls to the session by others, and returns them in order of opening. Its calls to itself stay until `leave_caller`. The
    /// only fault is `Memory`; nothing has changed then.
    pub fn leave_callee(&mut self, session: Id) -> Result<Vec<Open>, RealmFault>
        ensures ended { IfOk result (λ ended. ended.items ≡ calls_to self.old.list session) }
        ensures ok { OnOk result (self.new ≡ with_list self.old (without_callee self.old.list session)) }
        ensures err { OnErr result (self.new ≡ self.old) }
        ensures fault { IsOkUnless result fault.Memory }
    {
        let ended = self.held.calls_to(session)?;
        self.held.end_all_to(session, &ended);
        Ok(ended)
    }

    /// Ends the calls by the session, and returns those to others, in order of opening. Its calls to itself end, too, but are not among
    /// them. The only fault is `Memory`; nothing has changed then.
    pub fn leave_caller(&mut self, session: Id) -> Result<Vec<Open>, RealmFault>
        ensures ended { IfOk result (λ ended. ended.items ≡ calls_by self.old.list session) }
        ensures ok { OnOk result (self.new ≡ with_list self.old (without_caller self.old.list session)) }
        ensures err { OnErr result (self.new ≡ self.old) }
        ensures fault { IsOkUnless result fault.Memory }
    {
        let ended = self.held.of_caller(session)?;
        let named = calls_by(&ended, session)?;
        self.held.end_all_of(session, &ended);
        Ok(named)
    }
}

// Returns what becomes of a call that is canceled.
fn cancel_one(call: &Open, mode: Mode, announces: bool) -> Cancelled
    ensures { result ≡ cancel_one call.now mode announces }
{
    match mode {
        Mode::Kill if announces => Cancelled {
            call: *call,
            is_ended: false,
            interrupt: Some(Mode::Kill),
        },
        Mode::KillNoWait if announces => Cancelled {
            call: *call,
            is_ended: true,
            interrupt: Some(Mode::KillNoWait),
        },
        _ => Cancelled {
            call: *call,
            is_ended: true,
            interrupt: None,
        },
    }
}

// Returns the invocations that these calls are known as.
fn invocations_of(calls: &Vec<Open>) -> Result<Vec<Id>, RealmFault>
    ensures found { IfOk result (λ found. found.items ≡ map (λ call. call.invocation) calls.now.items) }
    ensures fault { IsOkUnless result fault.Memory }
{
    let mut found = Vec::new(*calls.allocator());
    for call in calls {
        found.push(call.invocation)?;
    }
    Ok(found)
}

// Returns the calls by the session to others.
fn calls_by(calls: &Vec<Open>, session: Id) -> Result<Vec<Open>, RealmFault>
    ensures found { IfOk result (λ found. found.items ≡ calls_by calls.now.items session) }
    ensures fault { IsOkUnless result fault.Memory }
{
    let mut found = Vec::new(*calls.allocator());
    for call in calls {
        if call.is_by(session) {
            found.push(*call)?;
        }
    }
    Ok(found)
}
