// From octets to a message.
ghost use Rattle.std.specs.Prelude.{◌≡◌, IfOk};
ghost use Rattle.serde_json.specs.View.{view, items_view};
ghost use Rattle.wamp_message_layouts.specs.Elements.{elements};
ghost use Rattle.wamp_messages.specs.Reading.{read_of, message_in, list_in, by_code};

use crate::call::{
    read_call, read_call_result, read_cancel, read_interrupt, read_invocation, read_yield,
};
use crate::error::read_error;
use crate::outermost::read_from;
use crate::parser::{Parser, Untaken};
use crate::publish::{read_event, read_publish, read_published};
use crate::register::{read_register, read_registered, read_unregister, read_unregistered};
use crate::session::{read_abort, read_goodbye, read_hello, read_welcome};
use crate::subscribe::{read_subscribe, read_subscribed, read_unsubscribe, read_unsubscribed};
use serde_json::Value;
use std::alloc::Global;
use std::vec::IntoIter;
use wamp_message_types::{Memory, MessageFault, Read, codes};

/// Reads these octets: a message, a request that is unfit, or why they are no message.
///
/// Parses the octets once, as JSON, and moves texts and arguments out of what was parsed (WAMP specification, "Message Definitions"; the
/// order of faults is this profile's). Later copies of the message share its arguments. If memory runs out, returns `Memory` and changes
/// nothing.
#[tactic(auto, using(crate::proofs::Json::json_read, crate::proofs::Json::no_json))]
pub fn read(alloc: Global, octets: &[u8]) -> Result<Read, Memory>
    ensures { IfOk result (λ done. done ≡ read_of octets.now) }
{
    match Value::from_slice(alloc, octets) {
        Ok(value) => shared(read_value(value)),
        Err(error) => if error.is_memory() {
            Err(Memory)
        } else {
            Ok(Read::Bad(MessageFault::NotJson))
        },
    }
}

/// Reads these octets as `read` does, in a buffer that is reused from message to message, which is faster.
///
/// Nearly all messages are read in that buffer. If the octets are no JSON array, or have a number that is no integer of 64 bits, `read`
/// reads them once more. If memory runs out, returns `Memory`.
pub fn read_by(parser: &mut Parser, octets: &[u8]) -> Result<Read, Memory>
    ensures { IfOk result (λ done. done ≡ read_of octets.now) }
{
    match parser.elements(octets) {
        Ok(found) => shared(read_from(found)),
        Err(Untaken::Memory) => Err(Memory),
        Err(Untaken::Unread) => read(parser.alloc, octets),
    }
}

// Lets later copies share what was read.
#[inline(always)]
fn shared(mut read: Read) -> Result<Read, Memory>
    ensures { IfOk result (λ done. done ≡ read) }
{
    read.share().and(Ok(read))
}

fn read_value(value: Value) -> Read
    ensures { result ≡ message_in (view value) }
{
    let Value::Array(elements) = value else {
        return Read::Bad(MessageFault::NotArray);
    };
    read_elements(elements)
}

// Reads the elements of a message's array.
pub(crate) fn read_elements(all: Vec<Value>) -> Read
    ensures { result ≡ list_in (items_view all.items) }
{
    let mut rest = all.into_iter();
    let Some(code) = rest.next() else {
        return Read::Bad(MessageFault::Kind);
    };
    match code.as_u64() {
        Some(code) => read_kind(code, rest),
        None => Read::Bad(MessageFault::Kind),
    }
}

#[tactic(auto, unfolding(crate::specs::Reading::by_code))]
fn read_kind(code: u64, rest: IntoIter<Value>) -> Read
    ensures { result ≡ by_code code (elements rest) }
{
    match code {
        codes::HELLO => read_hello(rest),
        codes::WELCOME => read_welcome(rest),
        codes::ABORT => read_abort(rest),
        codes::GOODBYE => read_goodbye(rest),
        codes::ERROR => read_error(rest),
        codes::PUBLISH => read_publish(rest),
        codes::PUBLISHED => read_published(rest),
        codes::SUBSCRIBE => read_subscribe(rest),
        codes::SUBSCRIBED => read_subscribed(rest),
        codes::EVENT => read_event(rest),
        codes::UNSUBSCRIBE => read_unsubscribe(rest),
        codes::UNSUBSCRIBED => read_unsubscribed(rest),
        codes::REGISTER => read_register(rest),
        codes::REGISTERED => read_registered(rest),
        codes::UNREGISTER => read_unregister(rest),
        codes::UNREGISTERED => read_unregistered(rest),
        codes::CALL => read_call(rest),
        codes::CANCEL => read_cancel(rest),
        codes::RESULT => read_call_result(rest),
        codes::INVOCATION => read_invocation(rest),
        codes::INTERRUPT => read_interrupt(rest),
        codes::YIELD => read_yield(rest),
        _ => Read::Bad(MessageFault::Kind),
    }
}
