//! How a session subscribes to a pattern.
ghost use Rattle.std.specs.Prelude.{◌≡◌, ◌+◌, ◌<◌, None, true, false, IsOk, OnOk, OnErr, IfOk, IsOkUnless};
ghost use Rattle.wamp_ids.specs.Id.{last_id};
ghost use Rattle.realm_sessions.specs.declared.fault.RealmFault.TheVariants as fault;
ghost use Rattle.realm_sessions.specs.Fault.{Answers};
ghost use Rattle.realm_subscriptions.specs.Subscriptions.{is_full, subscription_on};
ghost use Rattle.realm_subscriptions.specs.Subscribing.{subscribe, subscribe_to, add, join, is_subscribed};

use crate::subscribers::Subscribers;
use crate::subscription::Subscription;
use crate::subscriptions::Subscriptions;
use realm_sessions::RealmFault;
use wamp_ids::{Id, LAST_ID, Pattern};

impl Subscriptions {
    // Returns the id of the pattern's subscription, of which the session is a member then.
    pub(crate) fn subscribe_to(
        &mut self,
        session: Id,
        pattern: &Pattern<'_>,
    ) -> Result<Id, RealmFault>
        ensures answer { Answers result (subscribe self.old session pattern.now).answer }
        ensures ok { OnOk result (self.new ≡ (subscribe self.old session pattern.now).subscriptions) }
        ensures err { OnErr result (self.new ≡ self.old) }
        ensures member { is_subscribed self.old session pattern.now ≡ true → IsOk result }
    {
        let Some(found) = self.groups.at(pattern) else {
            return self.subscribe_anew(session, pattern);
        };
        let id = found.id;
        if found.has(session) {
            return Ok(id);
        }
        if self.is_full(session) {
            return Err(RealmFault::Limit);
        }
        self.join(session, pattern)?;
        Ok(id)
    }

    // Adds the session as the last member of the pattern's subscription.
    fn join(&mut self, session: Id, pattern: &Pattern<'_>) -> Result<(), RealmFault>
        requires { is_subscribed self.old session pattern.now ≡ false }
        ensures ok { OnOk result (self.new ≡ join self.old session pattern.now) }
        ensures err { OnErr result (self.new ≡ self.old) }
        ensures fault { IsOkUnless result fault.Memory }
    {
        self.groups.join(session, pattern)?;
        Ok(())
    }

    // Adds a subscription for a pattern that has none, unless the session may not have another one.
    fn subscribe_anew(&mut self, session: Id, pattern: &Pattern<'_>) -> Result<Id, RealmFault>
        requires { subscription_on self.old pattern.now ≡ None }
        ensures answer { Answers result (subscribe_to self.old session pattern.now None).answer }
        ensures ok { OnOk result (self.new ≡ (subscribe_to self.old session pattern.now None).subscriptions) }
        ensures err { OnErr result (self.new ≡ self.old) }
    {
        if self.is_full(session) {
            return Err(RealmFault::Limit);
        }
        self.add(session, pattern)
    }

    // Adds a subscription for the pattern with the session as its member, and returns its id.
    fn add(&mut self, session: Id, pattern: &Pattern<'_>) -> Result<Id, RealmFault>
        requires ids { self.old.last < last_id }
        requires new { subscription_on self.old pattern.now ≡ None }
        ensures id { IfOk result (λ id. id ≡ self.old.last + 1) }
        ensures ok { OnOk result (self.new ≡ add self.old session pattern.now) }
        ensures err { OnErr result (self.new ≡ self.old) }
        ensures fault { IsOkUnless result fault.Memory }
    {
        let Ok(pattern) = pattern.copy(self.alloc) else {
            return Err(RealmFault::Memory);
        };
        let members = Subscribers::of(self.alloc, session);
        let Some(id) = Id::new(self.groups.last() + 1) else {
            unreachable!();
        };
        self.groups.push(
            session,
            Subscription {
                id,
                pattern,
                members,
            },
        )?;
        Ok(id)
    }

    // Returns whether the session may not have another one: it has as many subscriptions as it may have, or no id is left.
    fn is_full(&self, session: Id) -> bool
        ensures { result ≡ is_full self.now session }
    {
        !(self.groups.count(session) < self.limit as usize) || !(self.groups.last() < LAST_ID)
    }
}
