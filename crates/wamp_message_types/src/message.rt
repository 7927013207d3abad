// Messages of any kind, with their copy and comparison.
ghost use Rattle.std.specs.Prelude.{◌≡◌, ◌↔◌, IfOk, IsTrue};

use crate::call::{Call, CallResult, Cancel, Interrupt, Invocation, Yield};
use crate::error::Error;
use crate::memory::Memory;
use crate::publish::{Event, Publish, Published};
use crate::register::{Register, Registered, Unregister, Unregistered};
use crate::session::{Abort, Goodbye, Hello, Welcome};
use crate::subscribe::{Subscribe, Subscribed, Unsubscribe, Unsubscribed};

/// A message of WAMP, with what this router reads of its options and details; docs/PROTOCOL.md has the layouts.
pub enum Message {
    Hello(Hello),
    Welcome(Welcome),
    Abort(Abort),
    Goodbye(Goodbye),
    Error(Error),
    Publish(Publish),
    Published(Published),
    Subscribe(Subscribe),
    Subscribed(Subscribed),
    Event(Event),
    Unsubscribe(Unsubscribe),
    Unsubscribed(Unsubscribed),
    Register(Register),
    Registered(Registered),
    Unregister(Unregister),
    Unregistered(Unregistered),
    Call(Call),
    Cancel(Cancel),
    CallResult(CallResult),
    Invocation(Invocation),
    Interrupt(Interrupt),
    Yield(Yield),
}

impl Drop for Message {
    fn drop(self) {
        match self {
            Message::Hello(_hello) => {},
            Message::Welcome(_welcome) => {},
            Message::Abort(_abort) => {},
            Message::Goodbye(_goodbye) => {},
            Message::Error(_error) => {},
            Message::Publish(_publish) => {},
            Message::Published(_published) => {},
            Message::Subscribe(_subscribe) => {},
            Message::Subscribed(_subscribed) => {},
            Message::Event(_event) => {},
            Message::Unsubscribe(_unsubscribe) => {},
            Message::Unsubscribed(_unsubscribed) => {},
            Message::Register(_register) => {},
            Message::Registered(_registered) => {},
            Message::Unregister(_unregister) => {},
            Message::Unregistered(_unregistered) => {},
            Message::Call(_call) => {},
            Message::Cancel(_cancel) => {},
            Message::CallResult(_reply) => {},
            Message::Invocation(_invocation) => {},
            Message::Interrupt(_interrupt) => {},
            Message::Yield(_yield) => {},
        }
    }
}

impl Message {
    /// Lets later copies share the message's arguments, for which it allocates at most twice. The message stays as it is, also if memory
    /// runs out, for which it returns `Memory`.
    pub fn share(&mut self) -> Result<(), Memory>
        ensures { self.new ≡ self.old }
    {
        let done = match self {
            Message::Abort(abort) => abort.args.share(),
            Message::Error(error) => error.args.share(),
            Message::Publish(publish) => publish.args.share(),
            Message::Event(event) => event.args.share(),
            Message::Call(call) => call.args.share(),
            Message::CallResult(reply) => reply.args.share(),
            Message::Invocation(invocation) => invocation.args.share(),
            Message::Yield(yielded) => yielded.args.share(),
            Message::Hello(_)
            | Message::Welcome(_)
            | Message::Goodbye(_)
            | Message::Published(_)
            | Message::Subscribe(_)
            | Message::Subscribed(_)
            | Message::Unsubscribe(_)
            | Message::Unsubscribed(_)
            | Message::Register(_)
            | Message::Registered(_)
            | Message::Unregister(_)
            | Message::Unregistered(_)
            | Message::Cancel(_)
            | Message::Interrupt(_) => Ok(()),
        };
        Ok(done?)
    }

    /// Returns an equal message. If memory runs out, returns `Memory` and changes nothing.
    pub fn copy(&self) -> Result<Message, Memory>
        ensures { IfOk result (λ made. made ≡ self.now) }
    {
        Ok(match self {
            Message::Hello(hello) => Message::Hello(hello.copy()?),
            Message::Welcome(welcome) => Message::Welcome(*welcome),
            Message::Abort(abort) => Message::Abort(abort.copy()?),
            Message::Goodbye(goodbye) => Message::Goodbye(goodbye.copy()?),
            Message::Error(error) => Message::Error(error.copy()?),
            Message::Publish(publish) => Message::Publish(publish.copy()?),
            Message::Published(published) => Message::Published(*published),
            Message::Subscribe(subscribe) => Message::Subscribe(subscribe.copy()?),
            Message::Subscribed(subscribed) => Message::Subscribed(*subscribed),
            Message::Event(event) => Message::Event(event.copy()?),
            Message::Unsubscribe(unsubscribe) => Message::Unsubscribe(*unsubscribe),
            Message::Unsubscribed(unsubscribed) => Message::Unsubscribed(*unsubscribed),
            Message::Register(register) => Message::Register(register.copy()?),
            Message::Registered(registered) => Message::Registered(*registered),
            Message::Unregister(unregister) => Message::Unregister(*unregister),
            Message::Unregistered(unregistered) => Message::Unregistered(*unregistered),
            Message::Call(call) => Message::Call(call.copy()?),
            Message::Cancel(cancel) => Message::Cancel(*cancel),
            Message::CallResult(reply) => Message::CallResult(reply.copy()?),
            Message::Invocation(invocation) => Message::Invocation(invocation.copy()?),
            Message::Interrupt(interrupt) => Message::Interrupt(*interrupt),
            Message::Yield(yielded) => Message::Yield(yielded.copy()?),
        })
    }

    /// Returns whether the two are equal; does not allocate.
    pub fn same(&self, other: &Message) -> bool
        ensures { IsTrue result ↔ (self.now ≡ other.now) }
    {
        match self {
            Message::Hello(hello) => match other {
                Message::Hello(other) => hello.same(other),
                _ => false,
            },
            Message::Welcome(welcome) => match other {
                Message::Welcome(other) => *welcome == *other,
                _ => false,
            },
            Message::Abort(abort) => match other {
                Message::Abort(other) => abort.same(other),
                _ => false,
            },
            Message::Goodbye(goodbye) => match other {
                Message::Goodbye(other) => goodbye.same(other),
                _ => false,
            },
            Message::Error(error) => match other {
                Message::Error(other) => error.same(other),
                _ => false,
            },
            Message::Publish(publish) => match other {
                Message::Publish(other) => publish.same(other),
                _ => false,
            },
            Message::Published(published) => match other {
                Message::Published(other) => *published == *other,
                _ => false,
            },
            Message::Subscribe(subscribe) => match other {
                Message::Subscribe(other) => subscribe.same(other),
                _ => false,
            },
            Message::Subscribed(subscribed) => match other {
                Message::Subscribed(other) => *subscribed == *other,
                _ => false,
            },
            Message::Event(event) => match other {
                Message::Event(other) => event.same(other),
                _ => false,
            },
            Message::Unsubscribe(unsubscribe) => match other {
                Message::Unsubscribe(other) => *unsubscribe == *other,
                _ => false,
            },
            Message::Unsubscribed(unsubscribed) => match other {
                Message::Unsubscribed(other) => *unsubscribed == *other,
                _ => false,
            },
            Message::Register(register) => match other {
                Message::Register(other) => register.same(other),
                _ => false,
            },
            Message::Registered(registered) => match other {
                Message::Registered(other) => *registered == *other,
                _ => false,
            },
            Message::Unregister(unregister) => match other {
                Message::Unregister(other) => *unregister == *other,
                _ => false,
            },
            Message::Unregistered(unregistered) => match other {
                Message::Unregistered(other) => *unregistered == *other,
                _ => false,
            },
            Message::Call(call) => match other {
                Message::Call(other) => call.same(other),
                _ => false,
            },
            Message::Cancel(cancel) => match other {
                Message::Cancel(other) => *cancel == *other,
                _ => false,
            },
            Message::CallResult(reply) => match other {
                Message::CallResult(other) => reply.same(other),
                _ => false,
            },
            Message::Invocation(invocation) => match other {
                Message::Invocation(other) => invocation.same(other),
                _ => false,
            },
            Message::Interrupt(interrupt) => match other {
                Message::Interrupt(other) => *interrupt == *other,
                _ => false,
            },
            Message::Yield(yielded) => match other {
                Message::Yield(other) => yielded.same(other),
                _ => false,
            },
        }
    }
}
