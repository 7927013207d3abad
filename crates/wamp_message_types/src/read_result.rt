// The results of reading: messages, unfit requests and faults.
ghost use Rattle.std.specs.Prelude.{◌≡◌, ◌↔◌, IfOk, IsTrue};

use crate::fault::MessageFault;
use crate::memory::Memory;
use crate::message::Message;
use wamp_ids::Id;

/// The kinds of message that may be unfit: of the right form, but with an option or a payload that this router refuses.
#[derive(Clone, Copy, Debug, PartialEq, Eq, Hash)]
pub enum UnfitKind {
    Publish,
    Subscribe,
    Register,
    Call,
    Cancel,
    /// What answers an invocation: a YIELD, or an ERROR on one.
    Yield,
}

/// What the octets of one message are read as.
pub enum Read {
    /// The message.
    Good(Message),
    /// A request of the right form with an unfit option or payload. It is answered by an ERROR, or not at all if it is `quiet`.
    Unfit {
        kind: UnfitKind,
        request: Id,
        quiet: bool,
    },
    /// No message: its sender breaks the protocol.
    Bad(MessageFault),
}

impl Drop for Read {
    fn drop(self) {
        match self {
            Read::Good(_good) => {},
            Read::Unfit {
                kind: _,
                request: _,
                quiet: _,
            } => {},
            Read::Bad(_) => {},
        }
    }
}

impl Read {
    /// Lets later copies share the message's arguments, as `Message::share` does.
    pub fn share(&mut self) -> Result<(), Memory>
        ensures { self.new ≡ self.old }
    {
        match self {
            Read::Good(message) => message.share(),
            Read::Unfit {
                kind: _,
                request: _,
                quiet: _,
            }
            | Read::Bad(_) => Ok(()),
        }
    }

    /// Returns an equal value. If memory runs out, returns `Memory` and changes nothing.
    pub fn copy(&self) -> Result<Read, Memory>
        ensures { IfOk result (λ made. made ≡ self.now) }
    {
        Ok(match self {
            Read::Good(message) => Read::Good(message.copy()?),
            Read::Unfit {
                kind,
                request,
                quiet,
            } => Read::Unfit {
                kind: *kind,
                request: *request,
                quiet: *quiet,
            },
            Read::Bad(fault) => Read::Bad(*fault),
        })
    }

    /// Returns whether the two are equal; does not allocate.
    pub fn same(&self, other: &Read) -> bool
        ensures { IsTrue result ↔ (self.now ≡ other.now) }
    {
        match self {
            Read::Good(message) => match other {
                Read::Good(other) => message.same(other),
                _ => false,
            },
            Read::Unfit {
                kind,
                request,
                quiet,
            } => match other {
                Read::Unfit {
                    kind: other_kind,
                    request: other_request,
                    quiet: other_quiet,
                } => *kind == *other_kind && *request == *other_request && *quiet == *other_quiet,
                _ => false,
            },
            Read::Bad(fault) => match other {
                Read::Bad(other) => *fault == *other,
                _ => false,
            },
        }
    }
}
