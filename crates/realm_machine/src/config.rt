//! A realm's configuration: its name and its limits.
ghost use Rattle.std.specs.Prelude.{◌≡◌, bytes_eq};

use std::marker::Model;
use wamp_ids::Text;

/// How much a realm holds at most.
#[derive(Clone, Copy, Debug, PartialEq, Eq)]
pub struct Limits {
    /// Sessions of the realm.
    pub sessions: u32,
    /// Registrations of one session.
    pub registrations: u32,
    /// Subscriptions of one session.
    pub subscriptions: u32,
    /// Open calls of one session.
    pub calls: u32,
}

// The configuration of a realm.
pub struct Config {
    pub name: Text,
    pub limits: Limits,
}

impl Drop for Config {
    fn drop(self) {
        let Config {
            name: _name,
            limits: _limits,
        } = self;
    }
}

impl Model for Config {
    ghost use Rattle.realm_machine.specs.Config.{Config};

    ghost Value = { Config };

    ghost view = { λ a. record { name = a.name; limits = a.limits } };
}

impl Config {
    // Returns whether the realm has this name.
    pub fn is_named(&self, name: &Text) -> bool
        ensures { result ≡ bytes_eq name.now self.now.name }
    {
        name.as_str() == self.name.as_str()
    }
}
