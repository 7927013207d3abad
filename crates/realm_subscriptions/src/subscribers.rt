//! The members of one subscription: how they join and leave.
ghost use Rattle.std.specs.Prelude.{◌≡◌, false, [], ◌∷◌, OnOk, OnErr, IfOk, IfSome, IsOkUnless};
ghost use Rattle.realm_sessions.specs.declared.fault.RealmFault.TheVariants as fault;
ghost use Rattle.realm_sessions.specs.Members.{has_member, has_members, joined, others};
ghost use Rattle.realm_subscriptions.specs.Subscribers.{one};

use crate::later::Later;
use realm_sessions::RealmFault;
use std::alloc::Global;
use std::marker::Model;
use wamp_ids::Id;

/// The members of a subscription in the order of joining, each once. The first member is stored inline, so that a single subscriber
/// allocates nothing.
///
/// Cost: each call takes a number of steps that is logarithmic in the number of members, `to_vec` one for each.
pub struct Subscribers {
    first: Option<Id>,
    later: Later,
}

impl Drop for Subscribers {
    fn drop(self) {
        let Subscribers {
            first: _,
            later: _later,
        } = self;
    }
}

impl Model for Subscribers {
    ghost use Rattle.std.specs.Prelude.{List, ℕ, ◌++◌};
    ghost use Rattle.realm_subscriptions.specs.Subscribers.{one};

    ghost Value = { List ℕ };

    ghost view = { λ a. one a.first ++ a.later };
}

impl Subscribers {
    /// Creates it with this session alone. Does not allocate.
    pub fn of(alloc: Global, session: Id) -> Subscribers
        ensures { result ≡ session ∷ [] }
    {
        Subscribers {
            first: Some(session),
            later: Later::new(alloc),
        }
    }

    /// Returns their ids, in the order of joining. The only fault is `Memory`.
    pub fn to_vec(&self, alloc: Global) -> Result<Vec<Id>, RealmFault>
        ensures list { IfOk result (λ list. list.items ≡ self.now) }
        ensures fault { IsOkUnless result fault.Memory }
    {
        let Some(first) = self.first else {
            return self.later.to_vec(alloc);
        };
        let mut list = Vec::new(alloc);
        list.push(first)?;
        let later = self.later.to_vec(alloc)?;
        list.extend_from_slice(&later)?;
        Ok(list)
    }

    /// Returns the only member, if it is the one that joined first. May return `None` although there is only one. Does not allocate.
    pub fn only(&self) -> Option<Id>
        ensures { IfSome result (λ session. self.now ≡ session ∷ []) }
    {
        if self.later.has_some() {
            return None;
        }
        self.first
    }

    /// Returns whether the session is a member. Does not allocate.
    pub fn has(&self, session: Id) -> bool
        ensures { result ≡ has_member session self.now }
    {
        is_one(&self.first, session) || self.later.has(session)
    }

    /// Returns whether there is a member. Does not allocate.
    pub fn has_some(&self) -> bool
        ensures { result ≡ has_members self.now }
    {
        self.first.is_some() || self.later.has_some()
    }

    /// Adds the session, which must not be a member, as the last one. The only fault is `Memory`; nothing has changed then.
    pub fn join(&mut self, session: Id) -> Result<(), RealmFault>
        requires { has_member session self.old ≡ false }
        ensures ok { OnOk result (self.new ≡ joined session self.old) }
        ensures err { OnErr result (self.new ≡ self.old) }
        ensures fault { IsOkUnless result fault.Memory }
    {
        self.later.join(session)
    }

    /// Removes the session, if it is a member. Does not allocate.
    pub fn leave(&mut self, session: Id)
        ensures { self.new ≡ others session self.old }
    {
        self.first = without(&self.first, session);
        self.later.leave(session);
    }
}

// Returns whether the first member is the session.
fn is_one(first: &Option<Id>, session: Id) -> bool
    ensures { result ≡ has_member session (one first.now) }
{
    match first {
        Some(member) => *member == session,
        None => false,
    }
}

// Returns the first member, unless it is the session.
fn without(first: &Option<Id>, session: Id) -> Option<Id>
    ensures { one result ≡ others session (one first.now) }
{
    match first {
        Some(member) if !(*member == session) => Some(*member),
        _ => None,
    }
}
