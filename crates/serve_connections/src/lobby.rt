// Where a node's thread rests and is woken, and the permits for its connections.
use std::alloc::{AllocError, Global};
use std::sync::atomic::{AtomicBool, AtomicU64, Ordering};
use std::sync::{Arc, Wait};
use std::thread::Parker;
use std::time::Duration;

/// How many connections a node has at a time, at most.
pub const MOST_CONNECTIONS: u64 = 256;

/// How often a node's thread that expects to be woken looks whether it was, before it rests: for about as long as a rest and a wake-up take.
const LOOKS: u32 = 10_000;

/// What a node's thread shares with its porter and with the threads of its peers: where it rests and how it is woken, for which nodes its packets
/// wait, how many connections there are, and how many of its clients are slow. Only the node's thread rests in it. No call allocates, and only
/// [`Lobby::rest`] waits.
pub struct Lobby {
    bell: Parker,
    is_woken: AtomicBool,
    is_resting: AtomicBool,
    is_stirred: AtomicBool,
    taken: AtomicU64,
    // For which nodes its packets wait: a bit for each.
    waits: AtomicU64,
    // How many of its clients are slow.
    slow: AtomicU64,
}

impl Drop for Lobby {
    fn drop(self) {
        let Lobby {
            bell: _bell,
            is_woken: _is_woken,
            is_resting: _is_resting,
            is_stirred: _is_stirred,
            taken: _taken,
            waits: _waits,
            slow: _slow,
        } = self;
    }
}

// Returns the bit of a node; a node above 7 has none.
fn bit_of(node: u8) -> u64 {
    if node < 8 { 1 << node } else { 0 }
}

impl Lobby {
    /// Returns the lobby of a node without connections that no thread has woken.
    pub const fn new() -> Lobby {
        Lobby {
            bell: Parker::new(),
            is_woken: AtomicBool::new(false),
            is_resting: AtomicBool::new(false),
            is_stirred: AtomicBool::new(false),
            taken: AtomicU64::new(0),
            waits: AtomicU64::new(0),
            slow: AtomicU64::new(0),
        }
    }

    /// Wakes the node's thread: it rests no longer, or its next rest ends at once. For a thread that has put something into the node's mail, or
    /// that ends its run.
    pub fn wake(&self) {
        // If it is woken already, the thread that woke it rings; and the node takes that before it looks again.
        if self.is_woken.load(Ordering::SeqCst) {
            return;
        }
        self.is_woken.store(true, Ordering::SeqCst);
        if self.is_resting.load(Ordering::SeqCst) {
            self.bell.unpark();
        }
    }

    /// Wakes the node's thread as [`Lobby::wake`] does, and makes it look into its rings.
    pub fn stir(&self) {
        if !self.is_stirred.load(Ordering::SeqCst) {
            self.is_stirred.store(true, Ordering::SeqCst);
        }
        self.wake();
    }

    /// Returns whether the node was stirred since the last call. If not, there is nothing new in its rings.
    pub fn take_stirred(&self) -> bool {
        self.is_stirred.load(Ordering::SeqCst) && self.is_stirred.swap(false, Ordering::SeqCst)
    }

    /// Notes whether packets of the node wait for the node `peer`. For the node's thread, at least one round before it rests: a peer that takes a
    /// packet out of the box between the two either sees the note then, or has made room for that round. A peer above 7 changes nothing.
    pub fn set_waits(&self, peer: u8, waits: bool) {
        let kept = self.waits.load(Ordering::SeqCst);
        let told = if waits {
            kept | bit_of(peer)
        } else {
            kept & !bit_of(peer)
        };
        if told != kept {
            self.waits.store(told, Ordering::SeqCst);
        }
    }

    /// Returns whether packets of the node wait for the node `peer`, as noted last. For that peer, after it has taken a packet.
    pub fn waits_for(&self, peer: u8) -> bool {
        self.waits.load(Ordering::SeqCst) & bit_of(peer) != 0
    }

    /// Rests until the node is woken or stirred, for at most `longest`; not at all if it was since the last rest. May return early.
    pub fn rest<R: Wait>(&self, rt: &R, longest: Duration) {
        // From here on a waker rings: either this load sees that the node was woken, or the waker sees that it rests.
        self.is_resting.store(true, Ordering::SeqCst);
        if !self.is_woken.load(Ordering::SeqCst) {
            self.bell.park_timeout(rt, longest);
        }
        self.is_resting.store(false, Ordering::SeqCst);
        self.is_woken.store(false, Ordering::SeqCst);
    }

    /// Returns whether the node is woken or stirred within some microseconds, or was since the last rest: a rest without the cost of one, for a
    /// node that expects it. Does not give the processor away.
    pub fn is_woken_soon(&self) -> bool {
        for _ in 0..LOOKS {
            if self.is_woken.load(Ordering::SeqCst) {
                self.is_woken.store(false, Ordering::SeqCst);
                return true;
            }
        }
        false
    }

    /// Returns whether a client of the node is slow: many sayings wait in its ring, and its porter has not taken them yet.
    pub fn has_slow(&self) -> bool {
        self.slow.load(Ordering::SeqCst) > 0
    }

    // Counts one more slow client.
    pub(crate) fn add_slow(&self) {
        self.slow.fetch_add(1, Ordering::SeqCst);
    }

    // Counts one slow client less, and wakes the node, which may rest until none is left.
    pub(crate) fn remove_slow(&self) {
        self.slow.fetch_sub(1, Ordering::SeqCst);
        self.wake();
    }

    /// Takes one of the 256 permits for a connection. Returns false if none is left.
    pub fn enter(&self) -> bool {
        if self.taken.fetch_add(1, Ordering::SeqCst) < MOST_CONNECTIONS {
            return true;
        }
        self.leave();
        false
    }

    /// Gives back a permit that was taken.
    pub fn leave(&self) {
        self.taken.fetch_sub(1, Ordering::SeqCst);
    }
}

// A permit for a connection, taken from a lobby, which gets it back when this is dropped.
pub(crate) struct ConnectionPermit {
    lobby: Arc<Lobby, Global>,
}

impl ConnectionPermit {
    // Takes a permit. Returns `None` if none is left.
    pub fn take(lobby: &Arc<Lobby, Global>) -> Result<Option<ConnectionPermit>, AllocError> {
        let lobby = Arc::try_clone(lobby)?;
        if !lobby.enter() {
            return Ok(None);
        }
        Ok(Some(ConnectionPermit { lobby }))
    }

    pub fn lobby(&self) -> &Lobby {
        &self.lobby
    }
}

impl Drop for ConnectionPermit {
    fn drop(self) {
        let ConnectionPermit { lobby } = self;
        lobby.leave();
        drop(lobby);
    }
}
