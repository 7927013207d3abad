/// How the text of a subscription or a registration matches a URI (WAMP specification, "Pattern-based
/// Subscriptions" and "Pattern-based Registrations").
#[derive(Clone, Copy, Debug, PartialEq, Eq, Hash)]
pub enum Match {
    Exact,
    Prefix,
    Wildcard,
}

/// Which callee of a shared registration is called (WAMP specification, "Shared Registration").
#[derive(Clone, Copy, Debug, PartialEq, Eq, Hash)]
pub enum Invoke {
    Single,
    First,
    Last,
    RoundRobin,
}

/// What becomes of the callee's work when a call is canceled (WAMP specification, "Call Canceling").
#[derive(Clone, Copy, Debug, PartialEq, Eq, Hash)]
pub enum Mode {
    Skip,
    Kill,
    KillNoWait,
}
