//! Laws of subscriptions, each the contract of a function with an empty body.
ghost use Rattle.realm_subscriptions.specs.Laws.{NoneAreSound, SubscribeKeepsSound, UnsubscribeKeepsSound, LeaveKeepsSound};

/// Each text and match has one subscription; each subscription has members, each of them once; ids rise, and none is above the last one
/// that was handed out. This holds at first, and each change keeps it. So the order of the list is that of ascending ids. Does not
/// allocate.
pub fn subscriptions_are_sound()
    ensures none { NoneAreSound }
    ensures subscribe { SubscribeKeepsSound }
    ensures unsubscribe { UnsubscribeKeepsSound }
    ensures leave { LeaveKeepsSound }
{}
