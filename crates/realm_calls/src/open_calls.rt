//! The open calls in order of opening, with the indexes that find them.
ghost use Rattle.std.specs.Prelude.{◌≡◌, ◌+◌, ◌-◌, ◌<◌, ◌^◌, ◌==◌, ℕ, false, not, None, Some, if◌then◌else◌, [], ◌∷◌, ◌++◌};
ghost use Rattle.std.specs.Prelude.{filter, option_map, IfOk, OnOk, OnErr, IsOkUnless};
ghost use Rattle.realm_sessions.specs.declared.fault.RealmFault.TheVariants as fault;
ghost use Rattle.realm_lists.specs.OrderedList.{IsAbove, members};
ghost use Rattle.realm_lists.specs.PlaceIndex.{is_key, place_of, places_under};
ghost use Rattle.realm_lists.specs.Tally.{count_in};
ghost use Rattle.realm_calls.specs.Calls.{is_call, is_invocation, has, has_invocation, call_of, peek, count_of, end, calls_to};
ghost use Rattle.realm_calls.specs.Calls.{without_callee, without_caller};
ghost use Rattle.realm_calls.specs.Indexed.{AreApart, of_caller, of_callee, end_all};

use crate::calls::Open;
use realm_lists::{OrderedList, PlaceIndex, Tally};
use realm_sessions::RealmFault;
use std::alloc::Global;
use std::marker::Model;
use wamp_ids::Id;

// The open calls. Each is at a place; one index leads from its caller and request to the place, another from its callee and invocation. The
// calls of each caller are counted.
pub struct OpenCalls {
    alloc: Global,
    rows: OrderedList<Open>,
    requests: PlaceIndex<(u64, u64)>,
    invocations: PlaceIndex<(u64, u64)>,
    counts: Tally,
}

impl Drop for OpenCalls {
    fn drop(self) {
        let OpenCalls {
            alloc: _,
            rows: _rows,
            requests: _requests,
            invocations: _invocations,
            counts: _counts,
        } = self;
    }
}

impl Model for OpenCalls {
    ghost use Rattle.std.specs.Prelude.{List};
    ghost use Rattle.realm_lists.specs.OrderedList.{members};
    ghost use Rattle.realm_calls.specs.declared.calls.Open.{Open};

    ghost Value = { List Open };

    ghost use Rattle.realm_calls.specs.Indexed.{AreIndexed};

    ghost view = { λ a. members a.rows };

    ghost invariant = { λ a. AreIndexed a.rows a.requests a.invocations a.counts };
}

impl OpenCalls {
    // Creates it with no call open.
    pub fn new(alloc: Global) -> OpenCalls
        ensures { result ≡ [] }
    {
        OpenCalls {
            alloc,
            rows: OrderedList::new(alloc),
            requests: PlaceIndex::new(alloc),
            invocations: PlaceIndex::new(alloc),
            counts: Tally::new(alloc),
        }
    }

    // Returns how many of the calls are the caller's.
    pub fn count(&self, caller: Id) -> u64
        ensures { result ≡ count_of self.now caller }
    {
        self.counts.count(caller.get())
    }

    // Returns the caller's call under this request.
    pub fn find_call(&self, caller: Id, request: Id) -> Option<&Open>
        ensures { option_map (λ call. call.now) result ≡ call_of self.now caller request }
    {
        let Some(place) = place_in(&self.requests, caller, request) else {
            return None;
        };
        self.rows.get(place)
    }

    // Returns the call that the callee knows as this invocation.
    pub fn find_invocation(&self, callee: Id, invocation: Id) -> Option<&Open>
        ensures { option_map (λ call. call.now) result ≡ peek self.now callee invocation }
    {
        let Some(place) = place_in(&self.invocations, callee, invocation) else {
            return None;
        };
        self.rows.get(place)
    }

    // Returns the open calls in order of opening.
    pub fn to_vec(&self) -> Result<Vec<Open>, RealmFault>
        ensures list { IfOk result (λ list. list.items ≡ self.now) }
        ensures fault { IsOkUnless result fault.Memory }
    {
        Ok(self.rows.to_vec(self.alloc)?)
    }

    // Returns the calls to the callee.
    pub fn of_callee(&self, session: Id) -> Result<Vec<Open>, RealmFault>
        ensures found { IfOk result (λ found. found.items ≡ filter (of_callee session) self.now) }
        ensures fault { IsOkUnless result fault.Memory }
    {
        let places = places_of(&self.invocations, self.alloc, session)?;
        let among = self.rows.at(self.alloc, &places)?;
        let calls = among.to_vec(self.alloc)?;
        Ok(to_callee(calls, session))
    }

    // Returns the calls of the caller.
    pub fn of_caller(&self, session: Id) -> Result<Vec<Open>, RealmFault>
        ensures found { IfOk result (λ found. found.items ≡ filter (of_caller session) self.now) }
        ensures fault { IsOkUnless result fault.Memory }
    {
        let places = places_of(&self.requests, self.alloc, session)?;
        let among = self.rows.at(self.alloc, &places)?;
        let calls = among.to_vec(self.alloc)?;
        Ok(by_caller(calls, session))
    }

    // Returns the calls to the session by others.
    pub fn calls_to(&self, session: Id) -> Result<Vec<Open>, RealmFault>
        ensures found { IfOk result (λ found. found.items ≡ calls_to self.now session) }
        ensures fault { IsOkUnless result fault.Memory }
    {
        let calls = self.of_callee(session)?;
        Ok(by_others(calls, session))
    }

    // Adds the call as the last one.
    pub fn push(&mut self, call: Open) -> Result<(), RealmFault>
        requires new { has self.old call.caller call.request ≡ false }
        requires free { has_invocation self.old call.callee call.invocation ≡ false }
        requires few { count_of self.old call.caller + 1 < 2 ^ 64 }
        ensures ok { OnOk result (self.new ≡ self.old ++ call ∷ []) }
        ensures err { OnErr result (self.new ≡ self.old) }
        ensures fault { IsOkUnless result fault.Memory }
    {
        let Some(place) = self.rows.next_place() else {
            return Err(RealmFault::Memory);
        };
        put_key(&mut self.requests, call.caller, call.request, place)?;
        let Ok(()) = put_key(&mut self.invocations, call.callee, call.invocation, place) else {
            remove_key(&mut self.requests, call.caller, call.request);
            return Err(RealmFault::Memory);
        };
        let Ok(()) = put_row(&mut self.rows, &mut self.counts, place, &call) else {
            remove_key(&mut self.requests, call.caller, call.request);
            remove_key(&mut self.invocations, call.callee, call.invocation);
            return Err(RealmFault::Memory);
        };
        Ok(())
    }

    // Shows that no two of the calls are one caller's under one request.
    pub fn are_apart(&self)
        ensures { AreApart self.now }
    {
        // for the proof
        let _ = self.rows.get(0);
    }

    // Ends the call.
    pub fn end(&mut self, ended: &Open)
        ensures { self.new ≡ end self.old ended.now }
    {
        let Some(place) = place_in(&self.requests, ended.caller, ended.request) else {
            return;
        };
        let Some(gone) = self.rows.remove(place) else {
            return;
        };
        remove_key(&mut self.requests, gone.caller, gone.request);
        remove_key(&mut self.invocations, gone.callee, gone.invocation);
        count_less(&mut self.counts, gone.caller);
    }

    // Ends these calls, one after the other.
    fn end_all(&mut self, ended: &[Open])
        ensures { self.new ≡ end_all self.old ended.now }
    {
        for call in ended {
            self.end(call);
        }
    }

    // Ends the calls to the session by others, which are these.
    pub fn end_all_to(&mut self, session: Id, ended: &[Open])
        requires { ended.now ≡ calls_to self.old session }
        ensures { self.new ≡ without_callee self.old session }
    {
        // for the proof
        self.are_apart();
        self.end_all(ended);
    }

    // Ends the caller's calls, which are these.
    pub fn end_all_of(&mut self, session: Id, ended: &[Open])
        requires { ended.now ≡ filter (of_caller session) self.old }
        ensures { self.new ≡ without_caller self.old session }
    {
        // for the proof
        self.are_apart();
        self.end_all(ended);
    }
}

// Retains the calls that are to the callee.
fn to_callee(mut calls: Vec<Open>, session: Id) -> Vec<Open>
    ensures { result.items ≡ filter (of_callee session) calls.items }
{
    calls.retain(|call| call.callee == session);
    calls
}

// Retains the calls that are the caller's.
fn by_caller(mut calls: Vec<Open>, session: Id) -> Vec<Open>
    ensures { result.items ≡ filter (of_caller session) calls.items }
{
    calls.retain(|call| call.caller == session);
    calls
}

// Retains the calls that are not the session's.
fn by_others(mut calls: Vec<Open>, session: Id) -> Vec<Open>
    ensures { result.items ≡ filter (λ call. not (of_caller session call)) calls.items }
{
    calls.retain(|call| !(call.caller == session));
    calls
}

// Returns the place of this key.
fn place_in(index: &PlaceIndex<(u64, u64)>, first: Id, second: Id) -> Option<u64>
    ensures { result ≡ place_of index.now (first, second) }
{
    index.get((first.get(), second.get()))
}

// Returns the places of the keys that begin with this id.
fn places_of(
    index: &PlaceIndex<(u64, u64)>,
    alloc: Global,
    first: Id,
) -> Result<Vec<u64>, RealmFault>
    ensures found { IfOk result (λ found. found.items ≡ places_under index.now first) }
    ensures fault { IsOkUnless result fault.Memory }
{
    Ok(index.places_under(alloc, first.get())?)
}

// Removes the place of this key.
fn remove_key(index: &mut PlaceIndex<(u64, u64)>, first: Id, second: Id)
    ensures { (key : ℕ × ℕ) → place_of index.new key
        ≡ (if is_key (first, second) key then None else place_of index.old key) }
{
    index.remove((first.get(), second.get()));
}

// Counts one more call of the caller.
fn count_more(counts: &mut Tally, caller: Id) -> Result<(), RealmFault>
    requires { count_in counts.old caller + 1 < 2 ^ 64 }
    ensures ok { OnOk result ((other : ℕ) → count_in counts.new other
        ≡ (if caller == other then count_in counts.old other + 1 else count_in counts.old other)) }
    ensures err { OnErr result (counts.new ≡ counts.old) }
    ensures fault { IsOkUnless result fault.Memory }
{
    counts.add(caller.get())?;
    Ok(())
}

// Counts one call of the caller less.
fn count_less(counts: &mut Tally, caller: Id)
    ensures { (other : ℕ) → count_in counts.new other
        ≡ (if caller == other then count_in counts.old other - 1 else count_in counts.old other) }
{
    counts.take(caller.get());
}

// Sets the place of this key.
fn put_key(
    index: &mut PlaceIndex<(u64, u64)>,
    first: Id,
    second: Id,
    place: u64,
) -> Result<(), RealmFault>
    ensures ok { OnOk result ((key : ℕ × ℕ) → place_of index.new key
        ≡ (if is_key (first, second) key then Some place else place_of index.old key)) }
    ensures err { OnErr result (index.new ≡ index.old) }
    ensures fault { IsOkUnless result fault.Memory }
{
    index.put((first.get(), second.get()), place)?;
    Ok(())
}

// Adds the call as the last one, and counts it.
fn put_row(
    rows: &mut OrderedList<Open>,
    counts: &mut Tally,
    place: u64,
    call: &Open,
) -> Result<(), RealmFault>
    requires above { IsAbove place rows.old }
    requires counted { (caller : ℕ) → count_in counts.old caller ≡ count_of (members rows.old) caller }
    requires few { count_of (members rows.old) call.now.caller + 1 < 2 ^ 64 }
    ensures ok { OnOk result (rows.new ≡ rows.old ++ (place, call.now) ∷ []) }
    ensures err { OnErr result (rows.new ≡ rows.old) }
    ensures counted { (caller : ℕ) → count_in counts.new caller ≡ count_of (members rows.new) caller }
    ensures fault { IsOkUnless result fault.Memory }
{
    count_more(counts, call.caller)?;
    let Ok(()) = rows.push(place, *call) else {
        count_less(counts, call.caller);
        return Err(RealmFault::Memory);
    };
    Ok(())
}
