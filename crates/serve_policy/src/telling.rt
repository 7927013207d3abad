// When another member may still tell a node the entry after its log.
ghost use Rattle.std.specs.Prelude.{◌≡◌};
ghost use Rattle.serve_policy.specs.Telling.{unheard, hearing, passing, may_tell};

use crate::behind::ends_above;
use std::marker::Model;

/// After how many ticks without a packet of it a member is taken to tell nothing.
const MOST_QUIET: u16 = 4096;

/// Whether another member may still tell a node the entry after its log. A clause sees how long that log was when the node heard the member
/// last, whether the member has offered a snapshot that ends above it, and for how many ticks it was not heard.
///
/// Floors never fall: a member that has once offered a snapshot that ends above the log tells no entry after the log any more. One that has not
/// may have the entry, and many packets before it.
#[derive(Clone, Copy)]
pub struct Telling {
    log: u64,
    has_offered: bool,
    quiet: u16,
}

impl Model for Telling {
    ghost use Rattle.serve_policy.specs.Telling.{Source};

    ghost Value = { Source };

    ghost view = { λ t. record { log = t.log; has_offered = t.has_offered; quiet = t.quiet } };

    ghost inverse = { λ source. record { log = source.log; has_offered = source.has_offered; quiet = source.quiet } };
}

impl Telling {
    /// Returns the state of a member that was never heard.
    pub const fn new() -> Telling
        ensures { result ≡ unheard }
    {
        Telling {
            log: 0,
            has_offered: false,
            quiet: MOST_QUIET,
        }
    }

    /// Notes that a packet of the member came in a round after which the log has this length; `floor` says where it ends if it is a snapshot.
    /// Takes constant time.
    pub fn hears(&mut self, log: u64, floor: Option<u64>)
        ensures { self.new ≡ hearing log floor self.old }
    {
        self.has_offered = ends_above(floor, log) || log == self.log && self.has_offered;
        self.log = log;
        self.quiet = 0;
    }

    /// Notes that the node ticks. Takes constant time.
    pub fn tick(&mut self)
        ensures { self.new ≡ passing self.old }
    {
        if self.quiet < MOST_QUIET {
            self.quiet += 1;
        }
    }

    /// Returns whether the member may tell the entry after a log of this length: a packet of it came in the last 4,096 ticks, and it has not
    /// offered a snapshot that ends above that log. Takes constant time.
    pub fn may_tell(&self, log: u64) -> bool
        ensures { result ≡ may_tell log self.now }
    {
        self.quiet < MOST_QUIET && !(log == self.log && self.has_offered)
    }
}
