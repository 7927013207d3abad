//! Subscriptions out of a list.
ghost use Rattle.std.specs.Prelude.{◌≡◌, ◌∷◌, [], IfOk, IsOkUnless};
ghost use Rattle.realm_sessions.specs.declared.fault.RestoreFault.TheVariants as fault;
ghost use Rattle.realm_sessions.specs.Restoring.{Restores, Becomes};
ghost use Rattle.realm_subscriptions.specs.Restoring.{subscriptions_of, put_whole, put_subscriptions, put_subscription};

use crate::subscribers::Subscribers;
use crate::subscription::Subscription;
use crate::subscriptions::Subscriptions;
use realm_groups::Groups;
use realm_sessions::RestoreFault;
use std::alloc::Global;
use std::marker::Model;
use wamp_ids::{Id, Pattern};

/// What a subscription is made of. To contracts it is that subscription.
pub struct SubscriptionParts {
    pub id: Id,
    pub pattern: Pattern<'static>,
    /// In the order of joining.
    pub members: Vec<Id>,
}

impl Drop for SubscriptionParts {
    fn drop(self) {
        let SubscriptionParts {
            id: _,
            pattern: _pattern,
            members: _members,
        } = self;
    }
}

impl Model for SubscriptionParts {
    ghost use Rattle.realm_subscriptions.specs.declared.subscription.Subscription.{Subscription};

    ghost Value = { Subscription };

    ghost view = { λ a. record { id = a.id; pattern = a.pattern; members = a.members.items } };
}

impl Subscriptions {
    /// Makes these subscriptions, `last` being the greatest id that was handed out, under this limit. A session may have more than that.
    ///
    /// Fails with `Damaged` if an id does not come after the one before, or is above the last one, if that is above 2^53, if two
    /// subscriptions have one pattern, or if one has no member, or a session twice; and with `Memory`.
    ///
    /// Cost: for each subscription the look-up of its pattern, and one look-up for each member.
    pub fn of(
        alloc: Global,
        limit: u32,
        list: &[SubscriptionParts],
        last: u64,
    ) -> Result<Subscriptions, RestoreFault>
        ensures { Restores result (subscriptions_of limit list.now last) }
    {
        let mut groups = Groups::new(alloc);
        put_whole(alloc, &mut groups, list, last)?;
        Ok(Subscriptions::holding(alloc, limit, groups))
    }
}

// Adds these subscriptions after those that are there, and then hands out the ids up to the last one.
fn put_whole(
    alloc: Global,
    groups: &mut Groups<Subscription>,
    list: &[SubscriptionParts],
    last: u64,
) -> Result<(), RestoreFault>
    ensures { Becomes result groups.new (put_whole groups.old list.now last) }
{
    put_subscriptions(alloc, groups, list)?;
    groups.end_at(last)
}

// Adds these subscriptions after those that are there.
fn put_subscriptions(
    alloc: Global,
    groups: &mut Groups<Subscription>,
    list: &[SubscriptionParts],
) -> Result<(), RestoreFault>
    ensures { Becomes result groups.new (put_subscriptions groups.old list.now) }
{
    for parts in list {
        put_subscription(alloc, groups, parts)?;
    }
    Ok(())
}

// Adds the subscription as the last one, unless no realm has it after those that are there.
fn put_subscription(
    alloc: Global,
    groups: &mut Groups<Subscription>,
    parts: &SubscriptionParts,
) -> Result<(), RestoreFault>
    ensures { Becomes result groups.new (put_subscription groups.old parts.now) }
{
    let Some((first, more)) = parts.members.split_first() else {
        return Err(RestoreFault::Damaged);
    };
    let subscription = begun(alloc, parts, *first)?;
    groups.restore(parts.id, subscription, *first, more)
}

// Returns the subscription with this member alone.
fn begun(alloc: Global, parts: &SubscriptionParts, first: Id) -> Result<Subscription, RestoreFault>
    ensures made { IfOk result (λ made. made ≡ record { id = parts.now.id; pattern = parts.now.pattern; members = first ∷ [] }) }
    ensures fault { IsOkUnless result fault.Memory }
{
    let Ok(pattern) = parts.pattern.copy(alloc) else {
        return Err(RestoreFault::Memory);
    };
    Ok(Subscription {
        id: parts.id,
        pattern,
        members: Subscribers::of(alloc, first),
    })
}
