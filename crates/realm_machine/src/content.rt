//! What a realm holds, and the replies and refusals that the cases of its step share.
ghost use Rattle.std.specs.Prelude.{◌≡◌, IfOk};
ghost use Rattle.realm_machine.specs.Sayings.{say_to};
ghost use Rattle.realm_machine.specs.Content.{Does, empty, reply, refuse, refuse_for};

use crate::config::Limits;
use crate::memory::Memory;
use crate::sayings::{Say, refusal};
use paxos_packets::Transport;
use realm_calls::Calls;
use realm_registrations::Registrations;
use realm_sessions::{RealmFault, Sessions};
use realm_subscriptions::Subscriptions;
use std::alloc::Global;
use std::marker::Model;
use wamp_ids::Id;
use wamp_message_types::{Message, RequestKind};

// The content of a realm. Its methods are the cases of the step. They fail only if memory runs out, and may then have done a part.
pub struct Content {
    pub alloc: Global,
    pub sessions: Sessions,
    pub registrations: Registrations,
    pub subscriptions: Subscriptions,
    pub calls: Calls,
}

impl Drop for Content {
    fn drop(self) {
        let Content {
            alloc: _,
            sessions: _sessions,
            registrations: _registrations,
            subscriptions: _subscriptions,
            calls: _calls,
        } = self;
    }
}

impl Model for Content {
    ghost use Rattle.realm_machine.specs.Content.{Content};

    ghost Value = { Content };

    ghost view = { λ a. record { sessions = a.sessions; registrations = a.registrations; subscriptions = a.subscriptions; calls = a.calls } };
}

impl Content {
    // Creates it with no transport, registration, subscription or call, under these limits.
    pub fn new(alloc: Global, limits: Limits) -> Content
        ensures { result ≡ empty limits }
    {
        Content {
            alloc,
            sessions: Sessions::new(alloc, limits.sessions),
            registrations: Registrations::new(alloc, limits.registrations),
            subscriptions: Subscriptions::new(alloc, limits.subscriptions),
            calls: Calls::new(alloc, limits.calls),
        }
    }

    // Sends the transport the message, and says nothing else.
    pub fn reply(&self, transport: Transport, message: Message) -> Result<Vec<Say>, Memory>
        ensures { Does result self.now (reply self.now transport message) }
    {
        Ok(vec![in self.alloc; Say::send(transport, message)]?)
    }

    // Sends the message to the transport, if there is one.
    pub fn say_to(&self, place: &Option<Transport>, message: Message) -> Result<Vec<Say>, Memory>
        ensures { IfOk result (λ says. says.items ≡ say_to place.now message) }
    {
        match place {
            Some(transport) => self.reply(*transport, message),
            None => {
                drop(message);
                Ok(Vec::new(self.alloc))
            }
        }
    }

    // Refuses the request with this error.
    pub fn refuse(
        &self,
        transport: Transport,
        kind: RequestKind,
        request: Id,
        error: &str,
    ) -> Result<Vec<Say>, Memory>
        ensures { Does result self.now (refuse self.now transport kind request error.now) }
    {
        let message = refusal(self.alloc, kind, request, error)?;
        self.reply(transport, message)
    }

    // Refuses the request with the error of a part's fault; says nothing for a fault without one.
    pub fn refuse_for(
        &self,
        transport: Transport,
        kind: RequestKind,
        request: Id,
        fault: RealmFault,
    ) -> Result<Vec<Say>, Memory>
        ensures { Does result self.now (refuse_for self.now transport kind request fault) }
    {
        match fault.uri() {
            Some(error) => self.refuse(transport, kind, request, error),
            None => Ok(Vec::new(self.alloc)),
        }
    }
}
