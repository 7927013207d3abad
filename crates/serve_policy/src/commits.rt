// How long a node's commits take.
ghost use Rattle.std.specs.Prelude.{◌≡◌};
ghost use Rattle.serve_policy.specs.Commits.{taking, noting, beats_of};

use std::marker::Model;

/// The length of a beat in microseconds.
const BEAT_MICROS: u32 = 2_000;

/// By how many microseconds more than twofold the time rises at a longer commit.
const MICROS_MORE: u32 = 500;

/// The greatest number of beats that is reckoned with for a commit.
const MOST_BEATS: u32 = 100;

/// How long a node's commits take, by its rounds with commits. A clause sees the time in microseconds, which is 0 at first.
///
/// A disk may take ten milliseconds for what another does in a tenth of one. What is sent again goes by that time: what is sent again before it
/// can be answered only keeps the others busy.
#[derive(Drop)]
pub struct Commits {
    micros: u32,
}

impl Model for Commits {
    ghost use Rattle.std.specs.Prelude.{ℕ};

    ghost Value = { ℕ };

    ghost view = { λ commits. commits.micros };
}

impl Commits {
    /// Returns the time before any commit.
    pub const fn new() -> Commits
        ensures { result ≡ 0 }
    {
        Commits { micros: 0 }
    }

    /// Notes that rounds with this many commits took `micros` microseconds. The time rises to that of one of these, to twice what it was and
    /// half a millisecond at most, or falls by an eighth of what it is above it. Takes constant time.
    pub fn note(&mut self, micros: u32, commits: u32)
        ensures { self.new ≡ noting micros commits self.old }
    {
        if commits == 0 {
            return;
        }
        self.micros = taking(micros / commits, self.micros);
    }

    /// Returns how many whole beats a commit takes, at most 100.
    pub fn beats(&self) -> u8
        ensures { result ≡ beats_of self.now }
    {
        (self.micros / BEAT_MICROS).min(MOST_BEATS) as u8
    }
}

// Returns the time that is reckoned with after a commit took this long, if it was `known` before.
fn taking(micros: u32, known: u32) -> u32
    ensures { result ≡ taking micros known }
{
    if micros <= known {
        return known - (known - micros) / 8;
    }
    let most = 2 * u64::from(known) + u64::from(MICROS_MORE);
    u64::from(micros).min(most) as u32
}
