//! What an act does, by what the client sends.
ghost use Rattle.std.specs.Prelude.{◌≡◌, Some, None};
ghost use Rattle.realm_sessions.specs.Links.{by_transport};
ghost use Rattle.realm_machine.specs.Content.{Does};
ghost use Rattle.realm_machine.specs.Calling.{unfit_call};
ghost use Rattle.wamp_message_types.specs.declared.request_kind.RequestKind.TheVariants as kind;
ghost use Rattle.realm_machine.specs.Step.{refuse_unless, on_unfit, on_error, on_request, on_opening, on_message, on_read, on_act};

use crate::config::Config;
use crate::content::Content;
use crate::memory::Memory;
use crate::requester::Requester;
use crate::sayings::{INVALID_ARGUMENT, Say};
use paxos_packets::Transport;
use realm_acts::Act;
use wamp_ids::Id;
use wamp_message_types::{Error, Message, Read, RequestKind, UnfitKind};

impl Content {
    // Takes the step of an act.
    pub fn on_act(
        &mut self,
        config: &Config,
        transport: Transport,
        act: &Act,
    ) -> Result<Vec<Say>, Memory>
        ensures { Does result self.new (on_act config.now self.old transport act.now) }
    {
        match act {
            Act::Connect => {
                self.sessions.connect(transport)?;
                Ok(Vec::new(self.alloc))
            }
            Act::Said { draw, read } => {
                let Some(session) = self.sessions.by_transport(transport) else {
                    return Ok(Vec::new(self.alloc));
                };
                self.on_read(config, transport, session, *draw, read.get())
            }
            Act::Hung => self.remove(transport),
        }
    }

    fn on_read(
        &mut self,
        config: &Config,
        transport: Transport,
        session: Option<Id>,
        draw: Id,
        read: &Read,
    ) -> Result<Vec<Say>, Memory>
        requires { by_transport self.old.sessions.list transport ≡ Some session }
        ensures { Does result self.new (on_read config.now self.old transport session draw read.now) }
    {
        match read {
            Read::Good(message) => self.on_message(config, transport, session, draw, message),
            Read::Unfit {
                kind,
                request,
                quiet,
            } => match session {
                Some(session) => {
                    let requester = Requester {
                        transport,
                        session,
                        draw,
                    };
                    self.on_unfit(requester, *kind, *request, *quiet)
                }
                None => self.violation(transport),
            },
            Read::Bad(_) => self.violation(transport),
        }
    }

    // Refuses an unfit request. An unfit CALL under an open request breaks the protocol, and an unfit answer ends its call, even if it is
    // quiet.
    fn on_unfit(
        &mut self,
        requester: Requester,
        kind: UnfitKind,
        request: Id,
        is_quiet: bool,
    ) -> Result<Vec<Say>, Memory>
        ensures { Does result self.new (on_unfit self.old requester kind request is_quiet) }
    {
        match kind {
            UnfitKind::Publish => {
                self.refuse_unless(requester, RequestKind::Publish, request, is_quiet)
            }
            UnfitKind::Subscribe => {
                self.refuse_unless(requester, RequestKind::Subscribe, request, is_quiet)
            }
            UnfitKind::Register => {
                self.refuse_unless(requester, RequestKind::Register, request, is_quiet)
            }
            UnfitKind::Call => self.unfit_call(requester, request, is_quiet),
            UnfitKind::Cancel => {
                self.refuse_unless(requester, RequestKind::Cancel, request, is_quiet)
            }
            UnfitKind::Yield => self.unfit_yield(requester, request),
        }
    }

    fn unfit_call(
        &mut self,
        requester: Requester,
        request: Id,
        is_quiet: bool,
    ) -> Result<Vec<Say>, Memory>
        ensures { Does result self.new (unfit_call self.old requester request
            (refuse_unless self.old requester kind.Call request is_quiet)) }
    {
        if self.calls.has(requester.session, request) {
            return self.violation(requester.transport);
        }
        self.refuse_unless(requester, RequestKind::Call, request, is_quiet)
    }

    fn refuse_unless(
        &self,
        requester: Requester,
        kind: RequestKind,
        request: Id,
        is_quiet: bool,
    ) -> Result<Vec<Say>, Memory>
        ensures { Does result self.now (refuse_unless self.now requester kind request is_quiet) }
    {
        if is_quiet {
            return Ok(Vec::new(self.alloc));
        }
        self.refuse(requester.transport, kind, request, INVALID_ARGUMENT)
    }

    fn on_message(
        &mut self,
        config: &Config,
        transport: Transport,
        session: Option<Id>,
        draw: Id,
        message: &Message,
    ) -> Result<Vec<Say>, Memory>
        requires { by_transport self.old.sessions.list transport ≡ Some session }
        ensures { Does result self.new (on_message config.now self.old transport session draw
            message.now) }
    {
        match session {
            Some(session) => {
                let requester = Requester {
                    transport,
                    session,
                    draw,
                };
                self.on_request(config, requester, message)
            }
            None => self.on_opening(config, transport, draw, message),
        }
    }

    // Takes the message of a client without a session.
    fn on_opening(
        &mut self,
        config: &Config,
        transport: Transport,
        draw: Id,
        message: &Message,
    ) -> Result<Vec<Say>, Memory>
        requires { by_transport self.old.sessions.list transport ≡ Some None }
        ensures { Does result self.new (on_opening config.now self.old transport draw message.now) }
    {
        match message {
            Message::Hello(hello) => self.open_at(config, transport, draw, hello),
            Message::Abort(_) => self.aborted(transport),
            _ => self.violation(transport),
        }
    }

    // Takes the message of a client with a session. The last ten kinds are those that only the router sends.
    fn on_request(
        &mut self,
        config: &Config,
        requester: Requester,
        message: &Message,
    ) -> Result<Vec<Say>, Memory>
        ensures { Does result self.new (on_request config.now self.old requester message.now) }
    {
        let transport = requester.transport;
        match message {
            Message::Hello(_) => self.violation(transport),
            Message::Abort(_) => self.aborted(transport),
            Message::Goodbye(_) => self.goodbye(transport),
            Message::Error(error) => self.on_error(requester, error),
            Message::Publish(asked) => self.publish(requester, asked),
            Message::Subscribe(asked) => self.subscribe(requester, asked),
            Message::Unsubscribe(asked) => self.unsubscribe(requester, asked),
            Message::Register(asked) => self.register(requester, asked),
            Message::Unregister(asked) => self.unregister(requester, asked),
            Message::Call(call) => self.on_call(requester, call),
            Message::Cancel(cancel) => self.on_cancel(requester, cancel),
            Message::Yield(answer) => self.on_yield(requester, answer),
            Message::Welcome(_) => self.violation(transport),
            Message::Published(_) => self.violation(transport),
            Message::Subscribed(_) => self.violation(transport),
            Message::Unsubscribed(_) => self.violation(transport),
            Message::Event(_) => self.violation(transport),
            Message::Registered(_) => self.violation(transport),
            Message::Unregistered(_) => self.violation(transport),
            Message::CallResult(_) => self.violation(transport),
            Message::Invocation(_) => self.violation(transport),
            Message::Interrupt(_) => self.violation(transport),
        }
    }

    // Takes an ERROR: it answers an invocation, or breaks the protocol.
    fn on_error(&mut self, requester: Requester, error: &Error) -> Result<Vec<Say>, Memory>
        ensures { Does result self.new (on_error self.old requester error.now.kind error.now) }
    {
        match error.kind {
            RequestKind::Invocation => {
                self.on_failure(requester, error.request, error.error.as_str(), &error.args)
            }
            _ => self.violation(requester.transport),
        }
    }
}
