//! A realm's subscriptions: how sessions subscribe, unsubscribe and leave, and who gets an event.
ghost use Rattle.std.specs.Prelude.{◌≡◌, ◌≤◌, Ok, Err, length, map, true, OnOk, OnErr, IsOk, IfOk, IsOkUnless, MatchBool};
ghost use Rattle.wamp_ids.specs.Id.{last_id};
ghost use Rattle.realm_sessions.specs.declared.fault.RealmFault.TheVariants as fault;
ghost use Rattle.realm_sessions.specs.Fault.{Answers};
ghost use Rattle.realm_subscriptions.specs.Subscriptions.{no_subscriptions};
ghost use Rattle.realm_subscriptions.specs.Subscribing.{subscribe, is_subscribed};
ghost use Rattle.realm_subscriptions.specs.Leaving.{is_in, unsubscribe, leave};
ghost use Rattle.realm_subscriptions.specs.Receiving.{receivers};

use crate::receiving::{Receiver, receivers_in};
use crate::subscription::Subscription;
use realm_groups::Groups;
use realm_sessions::RealmFault;
use std::alloc::Global;
use std::marker::Model;
use wamp_ids::{Id, Pattern, Uri};

/// The subscriptions of a realm by ascending id, at most `limit` for each session.
///
/// Cost: each call takes a number of steps that is logarithmic in the number of subscriptions and of sessions, plus what its own comment
/// says.
pub struct Subscriptions {
    pub(crate) limit: u32,
    pub(crate) alloc: Global,
    pub(crate) groups: Groups<Subscription>,
}

impl Drop for Subscriptions {
    fn drop(self) {
        let Subscriptions {
            limit: _,
            alloc: _,
            groups: _groups,
        } = self;
    }
}

impl Model for Subscriptions {
    ghost use Rattle.realm_subscriptions.specs.Subscriptions.{Subscriptions};

    ghost Value = { Subscriptions };

    ghost view = { λ a. record { limit = a.limit; list = a.groups.list; last = a.groups.last } };
}

impl Subscriptions {
    /// Creates it with no subscription and no id handed out. A session may be a member of `limit` subscriptions. Does not allocate.
    pub fn new(alloc: Global, limit: u32) -> Subscriptions
        ensures { result ≡ no_subscriptions limit }
    {
        Subscriptions {
            limit,
            alloc,
            groups: Groups::new(alloc),
        }
    }

    // Returns these subscriptions, under this limit.
    pub(crate) fn holding(alloc: Global, limit: u32, groups: Groups<Subscription>) -> Subscriptions
        ensures { result ≡ record { limit = limit; list = groups.list; last = groups.last } }
    {
        Subscriptions {
            limit,
            alloc,
            groups,
        }
    }

    /// Returns the subscriptions by ascending id. The only fault is `Memory`.
    pub fn to_vec(&self) -> Result<Vec<&Subscription>, RealmFault>
        ensures list { IfOk result (λ list. map (λ subscription. subscription.now) list.items ≡ self.now.list) }
        ensures fault { IsOkUnless result fault.Memory }
    {
        self.groups.to_vec()
    }

    /// Returns the greatest id that was handed out, 0 before the first. Does not allocate.
    pub fn last(&self) -> u64
        ensures last { result ≡ self.now.last }
        ensures within { result ≤ last_id }
    {
        self.groups.last()
    }

    /// Adds the session as the last member of the pattern's subscription, and returns the subscription's id; a pattern without one gets
    /// one, with the next id. For a session that is a member already it returns the id, and nothing changes. The faults are `Limit`, if the
    /// session has `limit` subscriptions or no id is left, and then `Memory`; nothing has changed then.
    ///
    /// Cost: the pattern is copied only for a new subscription.
    pub fn subscribe(&mut self, session: Id, pattern: &Pattern<'_>) -> Result<Id, RealmFault>
        ensures answer { Answers result (subscribe self.old session pattern.now).answer }
        ensures ok { OnOk result (self.new ≡ (subscribe self.old session pattern.now).subscriptions) }
        ensures err { OnErr result (self.new ≡ self.old) }
        ensures member { is_subscribed self.old session pattern.now ≡ true → IsOk result }
    {
        self.subscribe_to(session, pattern)
    }

    /// Removes the session from the subscription of this id, and the subscription if that was its last member. The only fault is
    /// `NoSuchSubscription`, if the session is not a member of a subscription of this id; nothing has changed then. Does not allocate.
    pub fn unsubscribe(&mut self, session: Id, id: Id) -> Result<(), RealmFault>
        ensures answer { MatchBool (is_in self.old session id) (result ≡ Ok tt) (result ≡ Err fault.NoSuchSubscription) }
        ensures subscriptions { self.new ≡ unsubscribe self.old session id }
        ensures err { OnErr result (self.new ≡ self.old) }
    {
        if !self.is_in(session, id) {
            return Err(RealmFault::NoSuchSubscription);
        }
        self.leave_one(session, id);
        Ok(())
    }

    /// Removes the session from all its subscriptions, and the subscriptions that have no member left. Does not allocate. Goes over those
    /// subscriptions.
    pub fn leave(&mut self, session: Id)
        ensures { self.new ≡ leave self.old session }
    {
        self.leave_all(session);
    }

    /// Returns the receivers of an event under this URI: the members, in the order of joining, of each subscription whose pattern matches
    /// it, by ascending id over all three matches, without the session `except`. The only fault is `Memory`. Takes what a table of patterns
    /// takes to find those that match, and memory and steps for them and their members.
    pub fn receivers(&self, uri: &Uri<'_>, except: Option<Id>) -> Result<Vec<Receiver>, RealmFault>
        ensures found { IfOk result (λ found. found.items ≡ receivers self.now uri.now except) }
        ensures fault { IsOkUnless result fault.Memory }
    {
        receivers_in(self.alloc, &self.groups, uri, &except)
    }

    /// Returns the number of subscriptions. Does not allocate.
    pub fn len(&self) -> usize
        ensures { result ≡ length self.now.list }
    {
        self.groups.len()
    }
}
