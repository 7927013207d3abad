//! What the realm says: messages and closings of transports as sayings, and the lists of them that an act makes.
//!
//! The functions `add_..` append to what is said already. They fail only if memory runs out, and may then have added a part.
ghost use Rattle.std.specs.Prelude.{◌≡◌, ◌∷◌, ◌++◌, [], IfOk, OnOk};
ghost use Rattle.realm_machine.specs.Sayings.{say, shut, refusal, abort, goodbye};

mod endings;
mod events;
mod invocations;
mod say;

use crate::memory::Memory;
pub use endings::{add_end, add_farewell, end_for_callees, end_for_callers};
pub use events::{add_events_to, open_topic};
pub use invocations::{add_interrupt, add_told_canceled, failure, invocation, result_of};
use paxos_packets::Transport;
pub use realm_sessions::{
    INVALID_ARGUMENT, INVALID_URI, LIMIT, NO_SUCH_PROCEDURE, NO_SUCH_SUBSCRIPTION,
};
pub use say::{Out, Say};
use std::alloc::Global;
use wamp_ids::{Id, Text};
use wamp_message_types::{Abort, Error, Goodbye, Message, RequestKind};
use wamp_values::Args;

// The URIs of errors and reasons that are no fault of a part (WAMP specification, "Predefined URIs").
pub const NO_SUCH_REALM: &str = "wamp.error.no_such_realm";

pub const CANCELED: &str = "wamp.error.canceled";

pub const PROTOCOL_VIOLATION: &str = "wamp.error.protocol_violation";

pub const GOODBYE_AND_OUT: &str = "wamp.close.goodbye_and_out";

pub const SYSTEM_SHUTDOWN: &str = "wamp.close.system_shutdown";

impl Say {
    // Returns the saying that sends the message to the transport.
    pub fn send(transport: Transport, message: Message) -> Say
        ensures { result ≡ say transport message }
    {
        Say {
            transport,
            out: Out::Send(message),
        }
    }

    // Returns the saying that closes the transport.
    pub fn close(transport: Transport) -> Say
        ensures { result ≡ shut transport }
    {
        Say {
            transport,
            out: Out::Close,
        }
    }
}

// Returns the ERROR that refuses a request.
pub fn refusal(
    alloc: Global,
    kind: RequestKind,
    request: Id,
    error: &str,
) -> Result<Message, Memory>
    ensures { IfOk result (λ message. message ≡ refusal kind request error.now) }
{
    Ok(Message::Error(Error {
        kind,
        request,
        error: Text::new(alloc, error)?,
        args: Args::Nothing,
    }))
}

// Returns the ABORT with this reason.
pub fn abort(alloc: Global, reason: &str) -> Result<Message, Memory>
    ensures { IfOk result (λ message. message ≡ abort reason.now) }
{
    Ok(Message::Abort(Abort {
        reason: Text::new(alloc, reason)?,
        args: Args::Nothing,
    }))
}

// Returns the GOODBYE with this reason.
pub fn goodbye(alloc: Global, reason: &str) -> Result<Message, Memory>
    ensures { IfOk result (λ message. message ≡ goodbye reason.now) }
{
    Ok(Message::Goodbye(Goodbye {
        reason: Text::new(alloc, reason)?,
    }))
}

// Sends the transport the message.
pub fn add_message(
    says: &mut Vec<Say>,
    transport: Transport,
    message: Message,
) -> Result<(), Memory>
    ensures { OnOk result (says.new.items ≡ says.old.items ++ say transport message ∷ []) }
{
    says.push(Say::send(transport, message))?;
    Ok(())
}

// Closes the transport.
pub fn add_close(says: &mut Vec<Say>, transport: Transport) -> Result<(), Memory>
    ensures { OnOk result (says.new.items ≡ says.old.items ++ shut transport ∷ []) }
{
    says.push(Say::close(transport))?;
    Ok(())
}

// Refuses a request.
pub fn add_refusal(
    alloc: Global,
    says: &mut Vec<Say>,
    transport: Transport,
    kind: RequestKind,
    request: Id,
    error: &str,
) -> Result<(), Memory>
    ensures { OnOk result
        (says.new.items ≡ says.old.items ++ say transport (refusal kind request error.now) ∷ []) }
{
    let message = refusal(alloc, kind, request, error)?;
    add_message(says, transport, message)
}

// Sends the session a GOODBYE with this reason.
pub fn add_goodbye(
    alloc: Global,
    says: &mut Vec<Say>,
    transport: Transport,
    reason: &str,
) -> Result<(), Memory>
    ensures { OnOk result
        (says.new.items ≡ says.old.items ++ say transport (goodbye reason.now) ∷ []) }
{
    let message = goodbye(alloc, reason)?;
    add_message(says, transport, message)
}
