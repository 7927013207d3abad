//! How a client leaves one of its subscriptions.
ghost use Rattle.realm_machine.specs.Content.{Does};
ghost use Rattle.realm_machine.specs.Unsubscribing.{unsubscribe};

use crate::content::Content;
use crate::memory::Memory;
use crate::requester::Requester;
use crate::sayings::{NO_SUCH_SUBSCRIPTION, Say};
use wamp_message_types::{Message, RequestKind, Unsubscribe, Unsubscribed};

impl Content {
    // Takes the client out of a subscription.
    pub fn unsubscribe(
        &mut self,
        requester: Requester,
        asked: &Unsubscribe,
    ) -> Result<Vec<Say>, Memory>
        ensures { Does result self.new (unsubscribe self.old requester asked.now) }
    {
        let left = self
            .subscriptions
            .unsubscribe(requester.session, asked.subscription);
        let request = asked.request;
        match left {
            Ok(()) => self.reply(
                requester.transport,
                Message::Unsubscribed(Unsubscribed { request }),
            ),
            Err(_) => self.refuse(
                requester.transport,
                RequestKind::Unsubscribe,
                request,
                NO_SUCH_SUBSCRIPTION,
            ),
        }
    }
}
