//! Registrations out of a list.
ghost use Rattle.std.specs.Prelude.{◌≡◌, ◌∷◌, [], not, ◌&&◌, nat_lt, length, IfOk, IsOkUnless};
ghost use Rattle.realm_sessions.specs.declared.fault.RestoreFault.TheVariants as fault;
ghost use Rattle.realm_sessions.specs.Restoring.{Restores, Becomes};
ghost use Rattle.realm_registrations.specs.Registration.{is_shared};
ghost use Rattle.realm_registrations.specs.Restoring.{registrations_of, put_whole, put_registrations, put_registration};

use crate::callees::Callees;
use crate::registration::Registration;
use crate::registrations::Registrations;
use realm_groups::Groups;
use realm_sessions::RestoreFault;
use std::alloc::Global;
use std::marker::Model;
use wamp_ids::{Id, Invoke, Pattern};

/// What a registration is made of. To contracts it is that registration.
pub struct RegistrationParts {
    pub id: Id,
    pub pattern: Pattern<'static>,
    pub invoke: Invoke,
    /// In the order of joining; under `RoundRobin` the one that is called next comes first.
    pub callees: Vec<Id>,
}

impl Drop for RegistrationParts {
    fn drop(self) {
        let RegistrationParts {
            id: _,
            pattern: _pattern,
            invoke: _,
            callees: _callees,
        } = self;
    }
}

impl Model for RegistrationParts {
    ghost use Rattle.realm_registrations.specs.declared.registration.Registration.{Registration};

    ghost Value = { Registration };

    ghost view = { λ a. record { id = a.id; pattern = a.pattern; invoke = a.invoke; callees = a.callees.items } };
}

impl Registrations {
    /// Makes these registrations, `last` being the greatest id that was handed out, under this limit. A session may have more than that.
    ///
    /// Fails with `Damaged` if an id does not come after the one before, or is above the last one, if that is above 2^53, if two
    /// registrations have one pattern, if one has no callee, or a session twice, or is `Single` and has two; and with `Memory`.
    ///
    /// Cost: for each registration the look-up of its pattern, and one look-up for each callee.
    pub fn of(
        alloc: Global,
        limit: u32,
        list: &[RegistrationParts],
        last: u64,
    ) -> Result<Registrations, RestoreFault>
        ensures { Restores result (registrations_of limit list.now last) }
    {
        let mut groups = Groups::new(alloc);
        put_whole(alloc, &mut groups, list, last)?;
        Ok(Registrations::holding(alloc, limit, groups))
    }
}

// Adds these registrations after those that are there, and then hands out the ids up to the last one.
fn put_whole(
    alloc: Global,
    groups: &mut Groups<Registration>,
    list: &[RegistrationParts],
    last: u64,
) -> Result<(), RestoreFault>
    ensures { Becomes result groups.new (put_whole groups.old list.now last) }
{
    put_registrations(alloc, groups, list)?;
    groups.end_at(last)
}

// Adds these registrations after those that are there.
fn put_registrations(
    alloc: Global,
    groups: &mut Groups<Registration>,
    list: &[RegistrationParts],
) -> Result<(), RestoreFault>
    ensures { Becomes result groups.new (put_registrations groups.old list.now) }
{
    for parts in list {
        put_registration(alloc, groups, parts)?;
    }
    Ok(())
}

// Adds the registration as the last one, unless no realm has it after those that are there.
fn put_registration(
    alloc: Global,
    groups: &mut Groups<Registration>,
    parts: &RegistrationParts,
) -> Result<(), RestoreFault>
    ensures { Becomes result groups.new (put_registration groups.old parts.now) }
{
    let Some((first, more)) = parts.callees.split_first() else {
        return Err(RestoreFault::Damaged);
    };
    if is_overfull(parts.invoke, more) {
        return Err(RestoreFault::Damaged);
    }
    let registration = begun(alloc, parts, *first)?;
    groups.restore(parts.id, registration, *first, more)
}

// Returns whether the policy allows no callee after the first.
fn is_overfull(invoke: Invoke, more: &[Id]) -> bool
    ensures { result ≡ (not (is_shared invoke) && nat_lt 0 (length more.now)) }
{
    invoke == Invoke::Single && !more.is_empty()
}

// Returns the registration with this callee alone.
fn begun(alloc: Global, parts: &RegistrationParts, first: Id) -> Result<Registration, RestoreFault>
    ensures made { IfOk result (λ made. made ≡ record {
      id = parts.now.id;
      pattern = parts.now.pattern;
      invoke = parts.now.invoke;
      callees = first ∷ [];
    }) }
    ensures fault { IsOkUnless result fault.Memory }
{
    let Ok(pattern) = parts.pattern.copy(alloc) else {
        return Err(RestoreFault::Memory);
    };
    Ok(Registration {
        id: parts.id,
        pattern,
        invoke: parts.invoke,
        callees: Callees::of(alloc, first),
    })
}
