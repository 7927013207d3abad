//! How a client registers procedures and withdraws them.
ghost use Rattle.realm_machine.specs.Content.{Does};
ghost use Rattle.realm_machine.specs.Registering.{register, unregister};

use crate::content::Content;
use crate::memory::Memory;
use crate::requester::Requester;
use crate::sayings::{INVALID_URI, Say};
use realm_sessions::RealmFault;
use wamp_ids::Pattern;
use wamp_message_types::{Message, Register, Registered, RequestKind, Unregister, Unregistered};

impl Content {
    // Registers the client for the procedures that a pattern matches.
    pub fn register(&mut self, requester: Requester, asked: &Register) -> Result<Vec<Say>, Memory>
        ensures { Does result self.new (register self.old requester asked.now) }
    {
        let transport = requester.transport;
        let request = asked.request;
        let Ok(pattern) = Pattern::of(asked.procedure.as_str(), asked.matching) else {
            return self.refuse(transport, RequestKind::Register, request, INVALID_URI);
        };
        match self
            .registrations
            .register(requester.session, &pattern, asked.invoke)
        {
            Ok(registration) => {
                let registered = Registered {
                    request,
                    registration,
                };
                self.reply(transport, Message::Registered(registered))
            }
            Err(RealmFault::Memory) => Err(Memory),
            Err(fault) => self.refuse_for(transport, RequestKind::Register, request, fault),
        }
    }

    // Withdraws a registration of the client.
    pub fn unregister(
        &mut self,
        requester: Requester,
        asked: &Unregister,
    ) -> Result<Vec<Say>, Memory>
        ensures { Does result self.new (unregister self.old requester asked.now) }
    {
        let transport = requester.transport;
        let request = asked.request;
        match self
            .registrations
            .unregister(requester.session, asked.registration)
        {
            Ok(()) => self.reply(transport, Message::Unregistered(Unregistered { request })),
            Err(fault) => self.refuse_for(transport, RequestKind::Unregister, request, fault),
        }
    }
}
