// The kinds of requests, and their codes.
ghost use Rattle.std.specs.Prelude.{◌≡◌};
ghost use Rattle.wamp_message_types.specs.RequestKind.{code_of, kind_of, is_invocation};

use crate::codes;

/// The kind of request that an ERROR answers: its element `REQUEST.Type` (WAMP specification, "Message Codes").
#[derive(Clone, Copy, Debug, PartialEq, Eq, Hash)]
pub enum RequestKind {
    Publish,
    Subscribe,
    Unsubscribe,
    Call,
    Cancel,
    Register,
    Unregister,
    Invocation,
}

impl RequestKind {
    /// Returns the request's code.
    pub fn code(self) -> u64
        ensures { result ≡ code_of self }
    {
        match self {
            RequestKind::Publish => codes::PUBLISH,
            RequestKind::Subscribe => codes::SUBSCRIBE,
            RequestKind::Unsubscribe => codes::UNSUBSCRIBE,
            RequestKind::Call => codes::CALL,
            RequestKind::Cancel => codes::CANCEL,
            RequestKind::Register => codes::REGISTER,
            RequestKind::Unregister => codes::UNREGISTER,
            RequestKind::Invocation => codes::INVOCATION,
        }
    }

    /// Returns the kind of request of this code; `None` if no request has it.
    pub fn of_code(code: u64) -> Option<RequestKind>
        ensures { result ≡ kind_of code }
    {
        match code {
            codes::PUBLISH => Some(RequestKind::Publish),
            codes::SUBSCRIBE => Some(RequestKind::Subscribe),
            codes::UNSUBSCRIBE => Some(RequestKind::Unsubscribe),
            codes::CALL => Some(RequestKind::Call),
            codes::CANCEL => Some(RequestKind::Cancel),
            codes::REGISTER => Some(RequestKind::Register),
            codes::UNREGISTER => Some(RequestKind::Unregister),
            codes::INVOCATION => Some(RequestKind::Invocation),
            _ => None,
        }
    }

    /// Returns whether an ERROR on such a request answers an invocation.
    pub fn is_invocation(self) -> bool
        ensures { result ≡ is_invocation self }
    {
        match self {
            RequestKind::Publish
            | RequestKind::Subscribe
            | RequestKind::Unsubscribe
            | RequestKind::Call
            | RequestKind::Cancel
            | RequestKind::Register
            | RequestKind::Unregister => false,
            RequestKind::Invocation => true,
        }
    }
}
