//! A realm's registrations: how sessions register and unregister, and which callee is chosen for a procedure.
ghost use Rattle.std.specs.Prelude.{◌≡◌, ◌≤◌, true, false, IfOk, OnOk, OnErr, IsOkUnless, None, map};
ghost use Rattle.wamp_ids.specs.Id.{last_id};
ghost use Rattle.realm_sessions.specs.declared.fault.RealmFault.TheVariants as fault;
ghost use Rattle.realm_sessions.specs.Fault.{Answers};
ghost use Rattle.realm_registrations.specs.Registrations.{no_registrations, is_full, register, register_at};
ghost use Rattle.realm_registrations.specs.Registrations.{registration_at, found_callee, is_callee, unregister};
ghost use Rattle.realm_registrations.specs.Registrations.{with_callee_at, without_callee_of, leave, choose, turn};

use crate::callees::Callees;
use crate::registration::{Chosen, Registration};
use realm_groups::Groups;
use realm_sessions::RealmFault;
use std::alloc::Global;
use std::marker::Model;
use wamp_ids::{Id, Invoke, LAST_ID, Pattern, Uri};

/// The registrations of a realm, at most `limit` for each session.
///
/// Cost: each call takes a number of steps that is logarithmic in the number of registrations and of sessions; `choose` takes what a table
/// of patterns takes to find the pattern that serves. `register` and `unregister` also go over the callees of the one registration, `leave`
/// over those of the registrations that the session has.
pub struct Registrations {
    limit: u32,
    alloc: Global,
    groups: Groups<Registration>,
}

impl Drop for Registrations {
    fn drop(self) {
        let Registrations {
            limit: _,
            alloc: _,
            groups: _groups,
        } = self;
    }
}

impl Model for Registrations {
    ghost use Rattle.realm_registrations.specs.Registrations.{Registrations};

    ghost Value = { Registrations };

    ghost view = { λ a. record { limit = a.limit; list = a.groups.list; last = a.groups.last } };
}

impl Registrations {
    /// Creates it with no registration, for at most `limit` of a session at a time. Does not allocate.
    pub fn new(alloc: Global, limit: u32) -> Registrations
        ensures { result ≡ no_registrations limit }
    {
        Registrations {
            limit,
            alloc,
            groups: Groups::new(alloc),
        }
    }

    // Returns these registrations, under this limit.
    pub(crate) fn holding(alloc: Global, limit: u32, groups: Groups<Registration>) -> Registrations
        ensures { result ≡ record { limit = limit; list = groups.list; last = groups.last } }
    {
        Registrations {
            limit,
            alloc,
            groups,
        }
    }

    /// Returns the registrations by ascending id. The only fault is `Memory`.
    pub fn to_vec(&self) -> Result<Vec<&Registration>, RealmFault>
        ensures list { IfOk result (λ list. map (λ registration. registration.now) list.items ≡ self.now.list) }
        ensures fault { IsOkUnless result fault.Memory }
    {
        self.groups.to_vec()
    }

    /// Returns the greatest id that was handed out, 0 before the first. Does not allocate.
    pub fn last(&self) -> u64
        ensures last { result ≡ self.now.last }
        ensures within { result ≤ last_id }
    {
        self.groups.last()
    }

    /// Adds the session as the last callee of the registration of this text and match, and returns the registration's id; if there is none,
    /// it is created. Returns the first fault that applies: `InvalidUri` if the pattern is reserved for the router; `AlreadyExists` if the
    /// registration is not shared under this policy, or the session is its callee; `Limit` if the session has `limit` registrations, or no
    /// id is left; `Memory`. Nothing has changed then.
    pub fn register(
        &mut self,
        session: Id,
        pattern: &Pattern<'_>,
        invoke: Invoke,
    ) -> Result<Id, RealmFault>
        ensures answer { Answers result (register self.old session pattern.now invoke).answer }
        ensures registrations { OnOk result (self.new ≡ (register self.old session pattern.now invoke).registrations) }
        ensures unchanged { OnErr result (self.new ≡ self.old) }
    {
        if pattern.is_reserved() {
            return Err(RealmFault::InvalidUri);
        }
        let Some(registration) = self.groups.at(pattern) else {
            return self.add_registration(session, pattern, invoke);
        };
        if !registration.may_join(session, invoke) {
            return Err(RealmFault::AlreadyExists);
        }
        let id = registration.id;
        if self.is_full(session) {
            return Err(RealmFault::Limit);
        }
        self.add_callee(session, pattern)?;
        Ok(id)
    }

    // Adds a registration of a text and match that have none, with this callee.
    fn add_registration(
        &mut self,
        session: Id,
        pattern: &Pattern<'_>,
        invoke: Invoke,
    ) -> Result<Id, RealmFault>
        requires { registration_at self.old pattern.now ≡ None }
        ensures answer { Answers result (register_at self.old session pattern.now invoke None).answer }
        ensures registrations { OnOk result (self.new ≡ (register_at self.old session pattern.now invoke None).registrations) }
        ensures unchanged { OnErr result (self.new ≡ self.old) }
    {
        if self.is_full(session) {
            return Err(RealmFault::Limit);
        }
        let Ok(pattern) = pattern.copy(self.alloc) else {
            return Err(RealmFault::Memory);
        };
        let callees = Callees::of(self.alloc, session);
        let Some(id) = Id::new(self.groups.last() + 1) else {
            unreachable!();
        };
        self.groups.push(
            session,
            Registration {
                id,
                pattern,
                invoke,
                callees,
            },
        )?;
        Ok(id)
    }

    // Adds the session as the last callee of the registration of this text and match; it must not be one of them.
    fn add_callee(&mut self, session: Id, pattern: &Pattern<'_>) -> Result<(), RealmFault>
        requires { found_callee session (registration_at self.old pattern.now) ≡ false }
        ensures ok { OnOk result (self.new ≡ with_callee_at self.old session pattern.now) }
        ensures err { OnErr result (self.new ≡ self.old) }
        ensures fault { IsOkUnless result fault.Memory }
    {
        self.groups.join(session, pattern)?;
        Ok(())
    }

    // Returns whether the session may not have another one: it has as many as it may have, or no id is left.
    fn is_full(&self, session: Id) -> bool
        ensures { result ≡ is_full self.now session }
    {
        !(self.groups.count(session) < self.limit as usize) || !(self.groups.last() < LAST_ID)
    }

    /// Removes the session from the callees of the registration of this id, and the registration if that was its last callee. The only
    /// fault is `NoSuchRegistration`, if the session is not one of its callees; nothing has changed then. Does not allocate.
    pub fn unregister(&mut self, session: Id, registration: Id) -> Result<(), RealmFault>
        ensures answer { result ≡ (unregister self.old session registration).answer }
        ensures registrations { self.new ≡ (unregister self.old session registration).registrations }
    {
        if !self.groups.has(session, registration) {
            return Err(RealmFault::NoSuchRegistration);
        }
        self.remove_callee(session, registration);
        Ok(())
    }

    // Removes the session from the callees of the registration of this id, of which it must be one.
    fn remove_callee(&mut self, session: Id, id: Id)
        requires { is_callee self.old session id ≡ true }
        ensures { self.new ≡ without_callee_of self.old session id }
    {
        // for the proof
        self.groups.are_held();
        self.groups.leave(session, id);
    }

    /// Removes the session from all its registrations, and the registrations that have no callee left. Does not allocate.
    pub fn leave(&mut self, session: Id)
        ensures { self.new ≡ leave self.old session }
    {
        // for the proof
        self.groups.are_held();
        self.groups.leave_all(session);
    }

    /// Returns the callee for this procedure: of the registration whose pattern serves it, the last callee under `Last`, else the first.
    /// `None` if no registration matches. Does not allocate.
    pub fn choose(&self, uri: &Uri<'_>) -> Option<Chosen>
        ensures { result ≡ choose self.now uri.now }
    {
        match self.groups.best(uri) {
            Some(registration) => registration.chosen(),
            None => None,
        }
    }

    /// Makes the registration's first callee its last, if its policy is `RoundRobin`. Does not allocate.
    pub fn turn(&mut self, registration: Id)
        ensures { self.new ≡ turn self.old registration }
    {
        self.groups.turn(registration);
    }
}
