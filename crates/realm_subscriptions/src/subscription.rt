//! One subscription, as a group of sessions.
ghost use Rattle.std.specs.Prelude.{◌≡◌};
ghost use Rattle.realm_subscriptions.specs.Subscription.{is_member};

use crate::subscribers::Subscribers;
use realm_groups::Group;
use realm_sessions::RealmFault;
use wamp_ids::{Id, Pattern};

/// A subscription, with the sessions that are its members in the order of joining.
pub struct Subscription {
    pub id: Id,
    pub pattern: Pattern<'static>,
    pub members: Subscribers,
}

impl Drop for Subscription {
    fn drop(self) {
        let Subscription {
            id: _,
            pattern: _pattern,
            members: _members,
        } = self;
    }
}

impl Subscription {
    // Returns whether the session is a member.
    pub(crate) fn has(&self, session: Id) -> bool
        ensures { result ≡ is_member session self.now }
    {
        self.members.has(session)
    }
}

impl Group for Subscription {
    ghost use Rattle.std.specs.Prelude.{refl};
    ghost use Rattle.realm_subscriptions.specs.Subscription.{with_member, without_member};

    ghost id_of = { λ subscription. subscription.id };

    ghost pattern_of = { λ subscription. subscription.pattern };

    ghost sessions_of = { λ subscription. subscription.members };

    ghost with = { with_member };

    ghost without = { without_member };

    fn pattern(&self) -> &Pattern<'static> {
        &self.pattern
    }

    fn has_some(&self) -> bool {
        self.members.has_some()
    }

    fn join(&mut self, session: Id) -> Result<(), RealmFault> {
        self.members.join(session)
    }

    fn leave(&mut self, session: Id) {
        self.members.leave(session);
    }

    ghost with_id = { λ session subscription. refl };

    ghost with_pattern = { λ session subscription. refl };

    ghost with_sessions = { λ session subscription. refl };

    ghost without_id = { λ session subscription. refl };

    ghost without_pattern = { λ session subscription. refl };

    ghost without_sessions = { λ session subscription. refl };
}
