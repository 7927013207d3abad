// The messages of subscriptions.
ghost use Rattle.std.specs.Prelude.{◌≡◌, ◌↔◌, IfOk, IsTrue};

use crate::memory::Memory;
use wamp_ids::{Id, Match, Text};

/// A client asks for a topic's events.
#[derive(Drop)]
pub struct Subscribe {
    pub request: Id,
    pub matching: Match,
    pub topic: Text,
}

/// The client is subscribed.
#[derive(Clone, Copy, Debug, PartialEq, Eq, Drop)]
pub struct Subscribed {
    pub request: Id,
    pub subscription: Id,
}

/// A client leaves a subscription.
#[derive(Clone, Copy, Debug, PartialEq, Eq, Drop)]
pub struct Unsubscribe {
    pub request: Id,
    pub subscription: Id,
}

/// The client has left it.
#[derive(Clone, Copy, Debug, PartialEq, Eq, Drop)]
pub struct Unsubscribed {
    pub request: Id,
}

impl Subscribe {
    /// Returns a copy, as `Message::copy` does.
    pub fn copy(&self) -> Result<Subscribe, Memory>
        ensures { IfOk result (λ made. made ≡ self.now) }
    {
        Ok(Subscribe {
            request: self.request,
            matching: self.matching,
            topic: self.topic.copy()?,
        })
    }

    /// Returns whether the two are equal, as `Message::same` does.
    pub fn same(&self, other: &Subscribe) -> bool
        ensures { IsTrue result ↔ (self.now ≡ other.now) }
    {
        self.request == other.request
            && self.matching == other.matching
            && self.topic.same(&other.topic)
    }
}
