//! How a client publishes to a topic's subscribers.
ghost use Rattle.std.specs.Prelude.{◌≡◌, ◌++◌, OnOk};
ghost use Rattle.realm_machine.specs.Content.{Does};
ghost use Rattle.realm_machine.specs.Publishing.{publish, events};

use crate::content::Content;
use crate::memory::Memory;
use crate::requester::Requester;
use crate::sayings::{INVALID_URI, Say, add_events_to, open_topic};
use wamp_ids::{Id, Uri};
use wamp_message_types::{Message, Publish, Published, RequestKind};
use wamp_values::Args;

impl Content {
    // Publishes an event: the client is sent a reply if it asked for one, and the topic's subscribers get the event.
    pub fn publish(&self, requester: Requester, asked: &Publish) -> Result<Vec<Say>, Memory>
        ensures { Does result self.now (publish self.now requester asked.now) }
    {
        let Some(topic) = open_topic(&asked.topic) else {
            return if asked.acknowledge {
                self.refuse(
                    requester.transport,
                    RequestKind::Publish,
                    asked.request,
                    INVALID_URI,
                )
            } else {
                Ok(Vec::new(self.alloc))
            };
        };
        let publication = requester.draw;
        let mut says = Vec::new(self.alloc);
        if asked.acknowledge {
            let published = Published {
                request: asked.request,
                publication,
            };
            says.push(Say::send(requester.transport, Message::Published(published)))?;
        }
        let except = if asked.exclude_me {
            Some(requester.session)
        } else {
            None
        };
        self.add_events(&mut says, &topic, publication, &asked.args, except)?;
        Ok(says)
    }

    fn add_events(
        &self,
        says: &mut Vec<Say>,
        topic: &Uri<'_>,
        publication: Id,
        args: &Args,
        except: Option<Id>,
    ) -> Result<(), Memory>
        ensures { OnOk result (says.new.items
            ≡ says.old.items ++ events self.now topic.now publication args.now except) }
    {
        let receivers = self.subscriptions.receivers(topic, except)?;
        add_events_to(
            &self.sessions,
            says,
            receivers.as_slice(),
            topic,
            publication,
            args,
        )
    }
}
