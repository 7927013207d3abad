//! The callees of one registration: how they join, leave and take turns.
ghost use Rattle.std.specs.Prelude.{◌≡◌, ◌-◌, [], ◌∷◌, length, slice_get, OnOk, OnErr, IfOk, IsOkUnless};
ghost use Rattle.realm_sessions.specs.declared.fault.RealmFault.TheVariants as fault;
ghost use Rattle.realm_sessions.specs.Members.{has_member, has_members, joined, others, rotated};
ghost use Rattle.realm_registrations.specs.Callees.{one};

use crate::rotation::Rotation;
use realm_sessions::RealmFault;
use std::alloc::Global;
use std::marker::Model;
use wamp_ids::Id;

/// The sessions that are called under a registration, in the order of their turns. A single callee is stored inline, and takes no
/// allocation.
///
/// Cost: `turn`, `first` and `last` take one step; `has`, `join` and `leave` go over the callees of this registration.
pub struct Callees {
    alone: Option<Id>,
    rotation: Rotation,
}

impl Drop for Callees {
    fn drop(self) {
        let Callees {
            alone: _,
            rotation: _rotation,
        } = self;
    }
}

impl Model for Callees {
    ghost use Rattle.std.specs.Prelude.{List, ℕ, Option, Some, [], ◌++◌, ◌≡◌};
    ghost use Rattle.realm_registrations.specs.Callees.{one};

    ghost Value = { List ℕ };

    ghost view = { λ a. one a.alone ++ a.rotation };

    ghost invariant = { λ a. (session : ℕ) → a.alone ≡ Some session → a.rotation ≡ [] };
}

impl Callees {
    /// Creates it with this session alone. Does not allocate.
    pub fn of(alloc: Global, session: Id) -> Callees
        ensures { result ≡ session ∷ [] }
    {
        Callees {
            alone: Some(session),
            rotation: Rotation::new(alloc),
        }
    }

    /// Returns their ids, in the order of their turns. The only fault is `Memory`.
    pub fn to_vec(&self, alloc: Global) -> Result<Vec<Id>, RealmFault>
        ensures list { IfOk result (λ list. list.items ≡ self.now) }
        ensures fault { IsOkUnless result fault.Memory }
    {
        let Some(session) = self.alone else {
            return self.rotation.to_vec(alloc);
        };
        Ok(vec![in alloc; session]?)
    }

    /// Returns the first in turn. Does not allocate.
    pub fn first(&self) -> Option<Id>
        ensures { result ≡ slice_get self.now 0 }
    {
        match self.alone {
            Some(session) => Some(session),
            None => self.rotation.first(),
        }
    }

    /// Returns the last in turn. Does not allocate.
    pub fn last(&self) -> Option<Id>
        ensures { result ≡ slice_get self.now (length self.now - 1) }
    {
        match self.alone {
            Some(session) => Some(session),
            None => self.rotation.last(),
        }
    }

    /// Returns whether the session is a callee. Does not allocate.
    pub fn has(&self, session: Id) -> bool
        ensures { result ≡ has_member session self.now }
    {
        match self.alone {
            Some(member) => member == session,
            None => self.rotation.has(session),
        }
    }

    /// Returns whether there is a callee. Does not allocate.
    pub fn has_some(&self) -> bool
        ensures { result ≡ has_members self.now }
    {
        match self.alone {
            Some(_) => true,
            None => self.rotation.has_some(),
        }
    }

    /// Adds the session as the last in turn. The only fault is `Memory`; nothing has changed then.
    pub fn join(&mut self, session: Id) -> Result<(), RealmFault>
        ensures ok { OnOk result (self.new ≡ joined session self.old) }
        ensures err { OnErr result (self.new ≡ self.old) }
        ensures fault { IsOkUnless result fault.Memory }
    {
        let Some(member) = self.alone else {
            return self.rotation.join(session);
        };
        let rotation = self.rotation.of_two(member, session)?;
        self.alone = None;
        self.rotation = rotation;
        Ok(())
    }

    /// Removes the session, if it is a callee. Does not allocate.
    pub fn leave(&mut self, session: Id)
        ensures { self.new ≡ others session self.old }
    {
        let Some(member) = self.alone else {
            self.rotation.leave(session);
            return;
        };
        if member == session {
            self.alone = None;
        }
    }

    /// Makes the first in turn the last. Does not allocate.
    pub fn turn(&mut self)
        ensures { self.new ≡ rotated self.old }
    {
        let None = self.alone else {
            return;
        };
        self.rotation.turn();
    }
}
