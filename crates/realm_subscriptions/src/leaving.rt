//! How a session leaves a subscription, and all of them.
ghost use Rattle.std.specs.Prelude.{◌≡◌, ◌==◌, true, find};
ghost use Rattle.realm_groups.specs.Groups.{found_session};
ghost use Rattle.realm_subscriptions.specs.Leaving.{is_in, leave, unsubscribe};

use crate::subscriptions::Subscriptions;
use wamp_ids::Id;

impl Subscriptions {
    // Returns whether the session is a member of the subscription of this id.
    pub(crate) fn is_in(&self, session: Id, id: Id) -> bool
        ensures there { result ≡ is_in self.now session id }
        ensures found { result ≡ found_session (λ subscription. subscription.members) session
            (find (λ subscription. subscription.id == id) self.now.list) }
    {
        self.groups.has(session, id)
    }

    // Removes the session from the subscription of this id, of which it must be a member.
    pub(crate) fn leave_one(&mut self, session: Id, id: Id)
        requires { found_session (λ subscription. subscription.members) session
            (find (λ subscription. subscription.id == id) self.old.list) ≡ true }
        ensures { self.new ≡ unsubscribe self.old session id }
    {
        self.groups.leave(session, id);
    }

    // Removes the session from all its subscriptions.
    pub(crate) fn leave_all(&mut self, session: Id)
        ensures { self.new ≡ leave self.old session }
    {
        // for the proof
        self.groups.are_held();
        self.groups.leave_all(session);
    }
}
