// When a node is behind for good.
ghost use Rattle.std.specs.Prelude.{◌≡◌};
ghost use Rattle.serve_policy.specs.Behind.{no_offers, ends_above, offering, ticking, is_for_good};

use std::marker::Model;

/// After how many ticks with a snapshot that the node does not take it is behind for good, if no member may tell the entry after its log.
const LEAST_TICKS: u16 = 16;

/// The same if one may.
const MOST_TICKS: u16 = 2048;

/// Whether a node is behind for good. A clause sees how long its log was, whether a snapshot that ends above it was offered since the last
/// tick, and after how many ticks one was since the log grew.
///
/// A node whose log ends before the others' floors gets no entry from them, but a snapshot; and it may not take one in which its present boot
/// stands. So it never gets further in this boot. In the next one it may take the snapshot.
#[derive(Drop)]
pub struct Behind {
    log: u64,
    is_offered: bool,
    ticks: u16,
}

impl Model for Behind {
    ghost use Rattle.serve_policy.specs.Behind.{Offers};

    ghost Value = { Offers };

    ghost view = { λ b. record { log = b.log; is_offered = b.is_offered; ticks = b.ticks } };
}

impl Behind {
    /// Returns the state of a node without a log, to which nothing was offered.
    pub const fn new() -> Behind
        ensures { result ≡ no_offers }
    {
        Behind {
            log: 0,
            is_offered: false,
            ticks: 0,
        }
    }

    /// Notes a round, after which the log has this length; `floor` says where a snapshot ends that came in it. Takes constant time.
    pub fn see(&mut self, log: u64, floor: Option<u64>)
        ensures { self.new ≡ offering log floor self.old }
    {
        let is_offered = ends_above(floor, log);
        if log == self.log {
            self.is_offered = self.is_offered || is_offered;
            return;
        }
        self.log = log;
        self.is_offered = is_offered;
        self.ticks = 0;
    }

    /// Notes that the node ticks. Takes constant time.
    pub fn tick(&mut self)
        ensures { self.new ≡ ticking self.old }
    {
        if self.is_offered && self.ticks < MOST_TICKS {
            self.ticks += 1;
        }
        self.is_offered = false;
    }

    /// Returns whether the node is behind for good: a snapshot was offered that ends above its log, and the log did not grow, in 16 ticks, or
    /// in 2,048 if another member may still tell the entry after the log.
    pub fn is_for_good(&self, may_be_told: bool) -> bool
        ensures { result ≡ is_for_good may_be_told self.now }
    {
        self.ticks >= MOST_TICKS || self.ticks >= LEAST_TICKS && !may_be_told
    }
}

// Returns whether a snapshot that ends there, if there is one, ends above a log of this length.
pub(crate) fn ends_above(floor: Option<u64>, log: u64) -> bool
    ensures { result ≡ ends_above floor log }
{
    match floor {
        None => false,
        Some(floor) => floor > log,
    }
}
