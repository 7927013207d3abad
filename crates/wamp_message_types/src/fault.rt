// The faults of octets that are no message, and their numbers.
ghost use Rattle.std.specs.Prelude.{◌≡◌};
ghost use Rattle.wamp_message_types.specs.Fault.{number_of};

use thiserror::Error;

/// Why octets are no message. If several causes hold, the one with the least number is reported.
#[derive(Clone, Copy, Debug, PartialEq, Eq, Hash, Error)]
pub enum MessageFault {
    #[error("the message is not JSON")]
    NotJson,
    #[error("the message is not a JSON array")]
    NotArray,
    #[error("the message's first element is no known message code")]
    Kind,
    #[error("the message has too few or too many elements")]
    Length,
    #[error("an element of the message has the wrong type")]
    Shape,
    #[error("an id of the message is not from 1 to 2^53")]
    IdRange,
}

impl MessageFault {
    /// Returns the fault's number, 21 to 26.
    pub fn number(self) -> u8
        ensures { result ≡ number_of self }
    {
        match self {
            MessageFault::NotJson => 21,
            MessageFault::NotArray => 22,
            MessageFault::Kind => 23,
            MessageFault::Length => 24,
            MessageFault::Shape => 25,
            MessageFault::IdRange => 26,
        }
    }
}
