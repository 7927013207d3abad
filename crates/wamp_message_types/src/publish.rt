// The messages of publications and events.
ghost use Rattle.std.specs.Prelude.{◌≡◌, ◌↔◌, IfOk, IsTrue};

use crate::memory::Memory;
use wamp_ids::{Id, Text};
use wamp_values::Args;

/// A client publishes an event; it is answered only if `acknowledge` is set.
#[derive(Drop)]
pub struct Publish {
    pub request: Id,
    pub acknowledge: bool,
    pub exclude_me: bool,
    pub topic: Text,
    pub args: Args,
}

/// A publication was made.
#[derive(Clone, Copy, Debug, PartialEq, Eq, Drop)]
pub struct Published {
    pub request: Id,
    pub publication: Id,
}

/// An event for a subscriber; `topic` is given if the subscription is not an exact one.
#[derive(Drop)]
pub struct Event {
    pub subscription: Id,
    pub publication: Id,
    pub topic: Option<Text>,
    pub args: Args,
}

impl Publish {
    /// Returns a copy, as `Message::copy` does.
    pub fn copy(&self) -> Result<Publish, Memory>
        ensures { IfOk result (λ made. made ≡ self.now) }
    {
        Ok(Publish {
            request: self.request,
            acknowledge: self.acknowledge,
            exclude_me: self.exclude_me,
            topic: self.topic.copy()?,
            args: self.args.copy()?,
        })
    }

    /// Returns whether the two are equal, as `Message::same` does.
    pub fn same(&self, other: &Publish) -> bool
        ensures { IsTrue result ↔ (self.now ≡ other.now) }
    {
        self.request == other.request
            && self.acknowledge == other.acknowledge
            && self.exclude_me == other.exclude_me
            && self.topic.same(&other.topic)
            && self.args.same(&other.args)
    }
}

impl Event {
    /// Returns a copy, as `Message::copy` does.
    pub fn copy(&self) -> Result<Event, Memory>
        ensures { IfOk result (λ made. made ≡ self.now) }
    {
        Ok(Event {
            subscription: self.subscription,
            publication: self.publication,
            topic: copy_label(&self.topic)?,
            args: self.args.copy()?,
        })
    }

    /// Returns whether the two are equal, as `Message::same` does.
    pub fn same(&self, other: &Event) -> bool
        ensures { IsTrue result ↔ (self.now ≡ other.now) }
    {
        self.subscription == other.subscription
            && self.publication == other.publication
            && is_same_label(&self.topic, &other.topic)
            && self.args.same(&other.args)
    }
}

// Copies the text, if there is one.
pub(crate) fn copy_label(label: &Option<Text>) -> Result<Option<Text>, Memory>
    ensures { IfOk result (λ made. made ≡ label.now) }
{
    match label {
        Some(text) => Ok(Some(text.copy()?)),
        None => Ok(None),
    }
}

pub(crate) fn is_same_label(label: &Option<Text>, other: &Option<Text>) -> bool
    ensures { IsTrue result ↔ (label.now ≡ other.now) }
{
    match (label, other) {
        (Some(label), Some(other)) => label.same(other),
        (None, None) => true,
        _ => false,
    }
}
