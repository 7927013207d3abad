// Acts, with their copy and equality.
ghost use Rattle.std.specs.Prelude.{◌≡◌};
ghost use Rattle.realm_acts.specs.Act.{same_read};

use paxos_packets::{Body, Memory, Shared};
use std::alloc::Global;
use wamp_ids::Id;
use wamp_message_types::Read;

/// An act: what happens at one client's transport.
pub enum Act {
    /// The transport is open.
    Connect,
    /// The client sent a message. The draw becomes the id of the session or of the publication that the message asks
    /// for, if it asks for one.
    Said { draw: Id, read: Shared<Read> },
    /// The transport is closed.
    Hung,
}

impl Drop for Act {
    fn drop(self) {
        match self {
            Act::Connect => {},
            Act::Said {
                draw: _,
                read: _read,
            } => {},
            Act::Hung => {},
        }
    }
}

impl Body for Act {
    ghost use Rattle.realm_acts.specs.Act.{same_act, act_itself, act_is};

    ghost same = { same_act };

    /// Returns an equal act, which shares what was read: constant time, whatever the message's length. Does not allocate.
    fn copy(&self, _alloc: Global) -> Result<Act, Memory> {
        Ok(match self {
            Act::Connect => Act::Connect,
            Act::Said { draw, read } => Act::Said {
                draw: *draw,
                read: read.share()?,
            },
            Act::Hung => Act::Hung,
        })
    }

    fn same(&self, other: &Act) -> bool {
        match (self, other) {
            (Act::Connect, Act::Connect) => true,
            (Act::Said { draw, read }, Act::Said { draw: d, read: r }) => *draw == *d
                && is_same_read(read.get(), r.get()),
            (Act::Hung, Act::Hung) => true,
            _ => false,
        }
    }

    ghost reflexive = { act_itself };

    ghost sound = { act_is };
}

// Returns whether what was read is equal.
fn is_same_read(read: &Read, other: &Read) -> bool
    ensures { result ≡ same_read read.now other.now }
{
    read.same(other)
}
