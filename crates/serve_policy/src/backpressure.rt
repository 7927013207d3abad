// When acts are held back for another node that does not keep up.
ghost use Rattle.std.specs.Prelude.{◌≡◌};
ghost use Rattle.serve_policy.specs.Backpressure.{backpressure};

use std::marker::Model;

/// The number of packets that may wait for a node that keeps up.
const MOST_WAITING: usize = 64;

/// The number of beats for which acts are held back for a node that does not keep up.
const BEATS_HELD: u64 = 40;

/// Whether another node keeps up with what is sent to it: at which beat it did last. A clause sees that beat.
///
/// If a node falls behind, more and more packets wait for it, until the oldest are lost; it gets what was lost tick by tick, and its clients
/// wait. So acts are held back for a while, but no longer for a node that does not run.
#[derive(Clone, Copy)]
pub struct Backpressure {
    last: u64,
}

impl Model for Backpressure {
    ghost use Rattle.std.specs.Prelude.{ℕ};

    ghost Value = { ℕ };

    ghost view = { λ backpressure. backpressure.last };

    ghost inverse = { λ last. record { last = last } };
}

impl Backpressure {
    /// Returns the state of a node that keeps up at beat 0.
    pub const fn new() -> Backpressure
        ensures { result ≡ 0 }
    {
        Backpressure { last: 0 }
    }

    /// Returns whether acts are to be held back, if this many packets wait for it at this beat: more than 64 wait, and fewer than 40 beats
    /// have ended since the one at which no more waited last. Takes constant time.
    pub fn holds(&mut self, beat: u64, waiting: usize) -> bool
        ensures { (result, self.new) ≡ backpressure beat waiting self.old }
    {
        if waiting <= MOST_WAITING {
            self.last = beat;
            return false;
        }
        beat.saturating_sub(self.last) < BEATS_HELD
    }
}
