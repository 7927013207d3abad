// When a node waits for a client that reads slowly.
ghost use Rattle.std.specs.Prelude.{◌≡◌};
ghost use Rattle.serve_policy.specs.Reader.{first_reader, putting, judging, ignoring};

use std::marker::Model;

/// A client is slow if its ring of 8,192 sayings has room for at most this many: the room is for what the node says in its next round, within
/// which it does not wait.
const SLOW_ROOM: usize = 7168;

/// A client has caught up if its ring has room for at least this many: all was taken that had been put before the last look.
const MUCH_ROOM: usize = 8128;

/// After how many sayings the room in the ring is looked at.
const SAYINGS_A_LOOK: u8 = 64;

/// Whether a client of the node reads what is put into its ring of 8,192 sayings: how many were put since the last look at the room, and
/// whether the node has waited for the client in vain. A clause sees both.
///
/// A node waits for a slow client so that a burst closes no connection of a client that reads. It waits once: a client that does not read
/// holds nobody up for longer.
#[derive(Drop)]
pub struct Reader {
    put: u8,
    is_ignored: bool,
}

impl Model for Reader {
    ghost use Rattle.serve_policy.specs.Reader.{Reads};

    ghost Value = { Reads };

    ghost view = { λ r. record { put = r.put; is_ignored = r.is_ignored } };
}

impl Reader {
    /// Returns the reader of an empty ring.
    pub const fn new() -> Reader
        ensures { result ≡ first_reader }
    {
        Reader {
            put: 0,
            is_ignored: false,
        }
    }

    /// Counts a saying that was put into the ring. Returns whether the room is to be judged now: after each 64 sayings.
    pub fn put(&mut self) -> bool
        ensures { (result, self.new) ≡ putting self.old }
    {
        self.put = self.put.saturating_add(1);
        if self.put < SAYINGS_A_LOOK {
            return false;
        }
        self.put = 0;
        true
    }

    /// Judges the client by the room in its ring. Returns whether the client is slow, so that the node waits for it: there is room for at
    /// most 7,168 sayings, and the node does not ignore the client. With room for 8,128 or more the node no longer ignores it: the client
    /// has taken all but the last 64.
    pub fn judge(&mut self, room: usize) -> bool
        ensures { (result, self.new) ≡ judging room self.old }
    {
        if room >= MUCH_ROOM {
            self.is_ignored = false;
        }
        room <= SLOW_ROOM && !self.is_ignored
    }

    /// Notes that the node has waited for the client in vain: it ignores the client until the client has caught up.
    pub fn ignore(&mut self)
        ensures { self.new ≡ ignoring self.old }
    {
        self.is_ignored = true;
    }
}
