// When ticks are held back, since many packets wait for another node that takes them.
ghost use Rattle.std.specs.Prelude.{◌≡◌};
ghost use Rattle.serve_policy.specs.Draining.{draining, took_at};

use std::marker::Model;

/// The number of packets of earlier ticks that may wait.
const MOST_WAITING: usize = 64;

/// The number of beats for which ticks are held back for a node that takes no packet, and how many commits more.
const BEATS_HELD: u64 = 40;

const COMMITS_HELD: u64 = 4;

/// Whether the packets that wait for another node can arrive: at which beat it took some last. A clause sees that beat.
///
/// A tick sends again what is not answered yet. If the packets of the tick before still wait, it only takes the place of packets that would
/// arrive. So ticks are held back while many wait for a node that takes them; a node that takes none holds up nobody.
#[derive(Clone, Copy)]
pub struct Draining {
    last: u64,
}

impl Model for Draining {
    ghost use Rattle.std.specs.Prelude.{ℕ};

    ghost Value = { ℕ };

    ghost view = { λ draining. draining.last };

    ghost inverse = { λ last. record { last = last } };
}

impl Draining {
    /// Returns the state of a node that takes packets at beat 0.
    pub const fn new() -> Draining
        ensures { result ≡ 0 }
    {
        Draining { last: 0 }
    }

    /// Returns whether ticks are to be held back, if this many packets wait for it at this beat, and one was posted to it or none: more than
    /// 64 wait, and it took packets last within the last 40 beats and 4 commits, of which each takes `commit` beats. Takes constant time.
    pub fn holds(&mut self, beat: u64, waiting: usize, is_posted: bool, commit: u8) -> bool
        ensures { (result, self.new) ≡ draining beat waiting is_posted commit self.old }
    {
        if waiting <= MOST_WAITING || is_posted {
            self.last = beat;
        }
        let held = BEATS_HELD + COMMITS_HELD * u64::from(commit);
        waiting > MOST_WAITING && beat.saturating_sub(self.last) < held
    }
}
