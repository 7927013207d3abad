//! The events of a publication, and the topics that clients may publish to.
ghost use Rattle.std.specs.Prelude.{◌≡◌, ◌++◌, is_some, IfSome, IfOk, OnOk};
ghost use Rattle.std.specs.List.{flat_map};
ghost use Rattle.realm_machine.specs.Sayings.Events.{is_open_topic, told_topic, event_to};

use crate::memory::Memory;
use crate::sayings::Say;
use realm_sessions::Sessions;
use realm_subscriptions::Receiver;
use std::alloc::Global;
use wamp_ids::{Id, Match, Text, Uri};
use wamp_message_types::{Event, Message};
use wamp_values::Args;

// Adds the events for these receivers, in their order. Cost: a look-up for each, and a copy of the topic into each event that names it.
pub fn add_events_to(
    sessions: &Sessions,
    says: &mut Vec<Say>,
    receivers: &[Receiver],
    topic: &Uri<'_>,
    publication: Id,
    args: &Args,
) -> Result<(), Memory>
    ensures { OnOk result (says.new.items
        ≡ says.old.items ++ flat_map (event_to sessions.now.list topic.now publication args.now) receivers.now) }
{
    for receiver in receivers {
        add_event(sessions, says, receiver, topic, publication, args)?;
    }
    Ok(())
}

// Adds the event for one receiver, if its session has a transport.
fn add_event(
    sessions: &Sessions,
    says: &mut Vec<Say>,
    receiver: &Receiver,
    topic: &Uri<'_>,
    publication: Id,
    args: &Args,
) -> Result<(), Memory>
    ensures { OnOk result (says.new.items
        ≡ says.old.items ++ event_to sessions.now.list topic.now publication args.now receiver.now) }
{
    if let Some(transport) = sessions.by_id(receiver.member) {
        let topic = told_topic(*says.allocator(), receiver.matching, topic)?;
        let args = args.copy()?;
        says.push(Say::send(
            transport,
            Message::Event(Event {
                subscription: receiver.subscription,
                publication,
                topic,
                args,
            }),
        ))?;
    }
    Ok(())
}

// Returns the topic that the event names: the publication's, unless the match is exact.
fn told_topic(alloc: Global, matching: Match, topic: &Uri<'_>) -> Result<Option<Text>, Memory>
    ensures { IfOk result (λ told. told ≡ told_topic matching topic.now) }
{
    match matching {
        Match::Exact => Ok(None),
        Match::Prefix | Match::Wildcard => Ok(Some(Text::new(alloc, topic.as_str())?)),
    }
}

// Returns the text as a topic that clients may publish to: a URI that the router does not reserve. Does not allocate.
pub fn open_topic(topic: &Text) -> Option<Uri<'_>>
    ensures open { is_some result ≡ is_open_topic topic.now }
    ensures text { IfSome result (λ uri. uri ≡ topic.now) }
{
    let Ok(uri) = Uri::of(topic.as_str()) else {
        return None;
    };
    if uri.is_reserved() { None } else { Some(uri) }
}
