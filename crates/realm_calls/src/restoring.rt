//! Open calls out of a list.
ghost use Rattle.std.specs.Prelude.{◌≡◌, false, ◌∷◌, [], ◌++◌, OnOk, IsOkUnless};
ghost use Rattle.realm_sessions.specs.declared.fault.RealmFault.TheVariants as fault;
ghost use Rattle.realm_sessions.specs.Apart.{is_refused, put_all};
ghost use Rattle.realm_sessions.specs.Restoring.{Restores, Becomes};
ghost use Rattle.realm_calls.specs.Calls.{has, has_invocation};
ghost use Rattle.realm_calls.specs.Restoring.{is_faulty, clash, calls_of};

use crate::calls::{Calls, Open};
use crate::open_calls::OpenCalls;
use realm_sessions::{RealmFault, RestoreFault};
use std::alloc::Global;

impl Calls {
    /// Makes these open calls, in their order, under this limit. A caller may have more open than that.
    ///
    /// Fails with `Damaged` if two calls have one caller and request, or one callee and invocation; and with `Memory`.
    ///
    /// Cost: for each call the look-ups of its request and of its invocation.
    pub fn of(alloc: Global, limit: u32, calls: &[Open]) -> Result<Calls, RestoreFault>
        ensures { Restores result (calls_of limit calls.now) }
    {
        let mut held = OpenCalls::new(alloc);
        put_calls(&mut held, calls)?;
        Ok(Calls::holding(limit, held))
    }
}

// Adds these calls after those that are held, unless one clashes with one before it.
fn put_calls(held: &mut OpenCalls, calls: &[Open]) -> Result<(), RestoreFault>
    ensures { Becomes result held.new (put_all is_faulty clash held.old calls.now) }
{
    for call in calls {
        if is_refused(held, call) {
            return Err(RestoreFault::Damaged);
        }
        add_call(held, call)?;
    }
    Ok(())
}

// Returns whether a call that is held is of the same caller and request, or of the same callee and invocation.
fn is_refused(held: &OpenCalls, call: &Open) -> bool
    ensures { result ≡ is_refused is_faulty clash held.now call.now }
{
    if is_requested(held, call) {
        return true;
    }
    is_invoked(held, call)
}

// Returns whether a call that is held is of the same caller and request.
fn is_requested(held: &OpenCalls, call: &Open) -> bool
    ensures { result ≡ has held.now call.now.caller call.now.request }
{
    held.find_call(call.caller, call.request).is_some()
}

// Returns whether a call that is held is of the same callee and invocation.
fn is_invoked(held: &OpenCalls, call: &Open) -> bool
    ensures { result ≡ has_invocation held.now call.now.callee call.now.invocation }
{
    held.find_invocation(call.callee, call.invocation).is_some()
}

// Adds the call, which clashes with none that is held.
fn add_call(held: &mut OpenCalls, call: &Open) -> Result<(), RealmFault>
    requires { is_refused is_faulty clash held.old call.now ≡ false }
    ensures ok { OnOk result (held.new ≡ held.old ++ call.now ∷ []) }
    ensures fault { IsOkUnless result fault.Memory }
{
    // more calls cannot be counted
    if held.count(call.caller) == u64::MAX {
        return Err(RealmFault::Memory);
    }
    held.push(*call)
}
