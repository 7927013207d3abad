//! The limits of the realms of the program's runs.
use crate::config::Limits;

impl Limits {
    /// What a realm of the program's runs holds at the most.
    pub const SERVED: Limits = Limits {
        sessions: 4096,
        registrations: 1024,
        subscriptions: 1024,
        calls: 1024,
    };
}
