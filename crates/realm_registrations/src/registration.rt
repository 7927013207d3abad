//! One registration: which sessions may join it, and which callee is chosen.
ghost use Rattle.std.specs.Prelude.{◌≡◌};
ghost use Rattle.realm_registrations.specs.Registration.{has_callee, may_join, is_shared, called, chosen, takes_turns, same_invoke};

use crate::callees::Callees;
use realm_groups::{Group, Turning};
use realm_sessions::RealmFault;
use wamp_ids::{Id, Invoke, Match, Pattern};

/// A registration: which procedures it serves, and the sessions that are called for them.
pub struct Registration {
    pub id: Id,
    pub pattern: Pattern<'static>,
    pub invoke: Invoke,
    /// In the order of joining; under `RoundRobin` the one that is called next comes first.
    pub callees: Callees,
}

impl Drop for Registration {
    fn drop(self) {
        let Registration {
            id: _,
            pattern: _pattern,
            invoke: _,
            callees: _callees,
        } = self;
    }
}

/// The callee that is chosen for a procedure.
#[derive(Clone, Copy, Debug, PartialEq, Eq)]
pub struct Chosen {
    /// The registration that serves it.
    pub registration: Id,
    /// The session that is called.
    pub callee: Id,
    /// How the registration matches the procedure.
    pub matching: Match,
}

impl Registration {
    pub fn has_callee(&self, session: Id) -> bool
        ensures { result ≡ has_callee session self.now }
    {
        self.callees.has(session)
    }

    // Returns whether the session may join it under this policy.
    pub fn may_join(&self, session: Id, invoke: Invoke) -> bool
        ensures { result ≡ may_join session invoke self.now }
    {
        is_shared(self.invoke) && is_same(self.invoke, invoke) && !self.has_callee(session)
    }

    // Returns the callee that is called next.
    pub fn chosen(&self) -> Option<Chosen>
        ensures { result ≡ chosen self.now }
    {
        let callee = called(self.invoke, &self.callees)?;
        Some(Chosen {
            registration: self.id,
            callee,
            matching: self.pattern.matching(),
        })
    }
}

impl Group for Registration {
    ghost use Rattle.std.specs.Prelude.{refl};
    ghost use Rattle.realm_registrations.specs.Registration.{with_callee, without_callee};

    ghost id_of = { λ registration. registration.id };

    ghost pattern_of = { λ registration. registration.pattern };

    ghost sessions_of = { λ registration. registration.callees };

    ghost with = { with_callee };

    ghost without = { without_callee };

    fn pattern(&self) -> &Pattern<'static> {
        &self.pattern
    }

    fn has_some(&self) -> bool {
        self.callees.has_some()
    }

    fn join(&mut self, session: Id) -> Result<(), RealmFault> {
        self.callees.join(session)
    }

    fn leave(&mut self, session: Id) {
        self.callees.leave(session);
    }

    ghost with_id = { λ session registration. refl };

    ghost with_pattern = { λ session registration. refl };

    ghost with_sessions = { λ session registration. refl };

    ghost without_id = { λ session registration. refl };

    ghost without_pattern = { λ session registration. refl };

    ghost without_sessions = { λ session registration. refl };
}

impl Turning for Registration {
    ghost use Rattle.realm_registrations.specs.Registration.{turned};
    ghost use Rattle.realm_registrations.specs.Turning.{turned_id, turned_pattern, turned_member, turned_held};

    ghost turned = { turned };

    fn turn(&mut self) {
        if takes_turns(self.invoke) {
            self.callees.turn();
        }
    }

    ghost turned_id = { turned_id };

    ghost turned_pattern = { turned_pattern };

    ghost turned_member = { turned_member };

    ghost turned_held = { turned_held };
}

fn is_same(invoke: Invoke, other: Invoke) -> bool
    ensures { result ≡ same_invoke invoke other }
{
    invoke == other
}

fn is_shared(invoke: Invoke) -> bool
    ensures { result ≡ is_shared invoke }
{
    match invoke {
        Invoke::Single => false,
        Invoke::First | Invoke::Last | Invoke::RoundRobin => true,
    }
}

fn takes_turns(invoke: Invoke) -> bool
    ensures { result ≡ takes_turns invoke }
{
    match invoke {
        Invoke::Single | Invoke::First | Invoke::Last => false,
        Invoke::RoundRobin => true,
    }
}

fn called(invoke: Invoke, callees: &Callees) -> Option<Id>
    ensures { result ≡ called invoke callees.now }
{
    match invoke {
        Invoke::Single | Invoke::First | Invoke::RoundRobin => callees.first(),
        Invoke::Last => callees.last(),
    }
}
