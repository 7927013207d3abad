// From a message to its text.
ghost use Rattle.std.specs.Prelude.{◌≡◌, ◌++◌, IfOk, OnOk, OnErr};
ghost use Rattle.wamp_values.specs.Tokens.{data_tokens, Appends};
ghost use Rattle.wamp_messages.specs.Writing.{text_of, value_of};
ghost use Rattle.wamp_messages.specs.Message.{HasParts};
ghost use Rattle.wamp_messages.specs.Reading.{read_of};
ghost use Rattle.wamp_message_types.specs.declared.read_result.Read.TheVariants.{Good};

use crate::call::{
    put_call, put_call_result, put_cancel, put_interrupt, put_invocation, put_yield,
};
use crate::error::put_error;
use crate::publish::{put_event, put_publish, put_published};
use crate::register::{put_register, put_registered, put_unregister, put_unregistered};
use crate::session::{put_abort, put_goodbye, put_hello, put_welcome};
use crate::subscribe::{put_subscribe, put_subscribed, put_unsubscribe, put_unsubscribed};
use json::Writer;
use std::alloc::{AllocError, Global};
use std::mem;
use wamp_message_types::{Memory, Message};

/// Returns the message's canonical text: compact JSON, in the order of its layout. If memory runs out, returns `Memory` and changes
/// nothing.
pub fn write(alloc: Global, message: &Message) -> Result<Vec<u8>, Memory>
    ensures spelled { IfOk result (λ octets. octets.items ≡ text_of message.now) }
    ensures read_again { IfOk result (λ octets. read_of octets.items ≡ Good message.now) }
{
    let mut out = Vec::new(alloc);
    write_into(message, &mut out)?;
    Ok(out)
}

/// Appends the message's canonical text, as `write` returns it; allocates only as `out` grows. If memory runs out, `out` is unchanged.
#[tactic(auto, using(wamp_values::proofs::Texts::print_tokens, crate::proofs::RoundTrip::written_again))]
pub fn write_into(message: &Message, out: &mut Vec<u8>) -> Result<(), Memory>
    ensures spelled { OnOk result (out.new.items ≡ out.old.items ++ text_of message.now) }
    ensures read_again { OnOk result (read_of (text_of message.now) ≡ Good message.now) }
    ensures err { OnErr result (out.new.items ≡ out.old.items) }
{
    let start = out.len();
    let alloc = *out.allocator();
    let mut writer = Writer::new(mem::replace(out, Vec::new(alloc)));
    let done = put_message(message, &mut writer);
    *out = writer.into_inner();
    if done.is_err() {
        out.truncate(start);
        return Err(Memory);
    }
    Ok(())
}

fn put_message(message: &Message, out: &mut Writer) -> Result<(), AllocError>
    ensures tokens { Appends result out.old out.new (data_tokens (value_of message.now)) }
    ensures parts { OnOk result (HasParts message.now) }
{
    match message {
        Message::Hello(hello) => put_hello(hello, out),
        Message::Welcome(welcome) => put_welcome(*welcome, out),
        Message::Abort(abort) => put_abort(abort, out),
        Message::Goodbye(goodbye) => put_goodbye(goodbye, out),
        Message::Error(error) => put_error(error, out),
        Message::Publish(publish) => put_publish(publish, out),
        Message::Published(published) => put_published(*published, out),
        Message::Subscribe(subscribe) => put_subscribe(subscribe, out),
        Message::Subscribed(subscribed) => put_subscribed(*subscribed, out),
        Message::Event(event) => put_event(event, out),
        Message::Unsubscribe(unsubscribe) => put_unsubscribe(*unsubscribe, out),
        Message::Unsubscribed(unsubscribed) => put_unsubscribed(*unsubscribed, out),
        Message::Register(register) => put_register(register, out),
        Message::Registered(registered) => put_registered(*registered, out),
        Message::Unregister(unregister) => put_unregister(*unregister, out),
        Message::Unregistered(unregistered) => put_unregistered(*unregistered, out),
        Message::Call(call) => put_call(call, out),
        Message::Cancel(cancel) => put_cancel(*cancel, out),
        Message::CallResult(reply) => put_call_result(reply, out),
        Message::Invocation(invocation) => put_invocation(invocation, out),
        Message::Interrupt(interrupt) => put_interrupt(*interrupt, out),
        Message::Yield(yielded) => put_yield(yielded, out),
    }
}
