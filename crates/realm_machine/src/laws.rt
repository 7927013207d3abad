//! Laws of the realm's step, each the contract of a function with an empty body. Those on sessions, registrations, subscriptions and calls,
//! over every list of inputs, are in the crate `realm_laws`.
ghost use Rattle.realm_machine.specs.Laws.{HungUpIsToldNothing, FollowsAsItsRealm, SaysAsItsRealm};

/// Nothing is said to a transport that hangs up: only others hear of the calls that end with its session. Does not allocate.
pub fn the_hung_up_are_told_nothing()
    ensures { HungUpIsToldNothing }
{}

/// Along every log a realm has the content of the machine that its configuration gives, and says what that says. Does not allocate.
pub fn a_realm_follows_its_log()
    ensures content { FollowsAsItsRealm }
    ensures says { SaysAsItsRealm }
{}
