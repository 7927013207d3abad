//! How a client subscribes to a pattern of topics.
ghost use Rattle.realm_machine.specs.Content.{Does, refuse};
ghost use Rattle.wamp_message_types.specs.declared.request_kind.RequestKind.TheVariants as kind;
ghost use Rattle.realm_machine.specs.Subscribing.{subscribe};

use crate::content::Content;
use crate::memory::Memory;
use crate::requester::Requester;
use crate::sayings::{INVALID_URI, LIMIT, Say};
use realm_sessions::RealmFault;
use wamp_ids::{Id, Pattern};
use wamp_message_types::{Message, RequestKind, Subscribe, Subscribed};

impl Content {
    // Subscribes the client to the topics that a pattern matches.
    pub fn subscribe(&mut self, requester: Requester, asked: &Subscribe) -> Result<Vec<Say>, Memory>
        ensures { Does result self.new (subscribe self.old requester asked.now) }
    {
        let request = asked.request;
        let Ok(pattern) = Pattern::of(asked.topic.as_str(), asked.matching) else {
            return self.refuse_subscribe(requester, request, INVALID_URI);
        };
        match self.subscriptions.subscribe(requester.session, &pattern) {
            Ok(subscription) => self.reply(
                requester.transport,
                Message::Subscribed(Subscribed {
                    request,
                    subscription,
                }),
            ),
            Err(RealmFault::Memory) => Err(Memory),
            Err(_) => self.refuse_subscribe(requester, request, LIMIT),
        }
    }

    fn refuse_subscribe(
        &self,
        requester: Requester,
        request: Id,
        error: &str,
    ) -> Result<Vec<Say>, Memory>
        ensures { Does result self.now (refuse self.now requester.transport kind.Subscribe request
            error.now) }
    {
        self.refuse(requester.transport, RequestKind::Subscribe, request, error)
    }
}
