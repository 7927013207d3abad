// When acts are held back for another node that lacks many entries and gains.
ghost use Rattle.std.specs.Prelude.{◌≡◌};
ghost use Rattle.serve_policy.specs.Gaining.{asking, lacked_of, lacked_from, lacking, is_marked, is_gaining};

use std::marker::Model;

/// The number of entries that a node may lack and keep up all the same.
pub(crate) const MOST_LACKED: u64 = 1024;

/// The number of beats for which acts are held back for a node that does not gain.
const BEATS_HELD: u64 = 512;

/// Acts are given in one beat of this many while a node gains.
const BEATS_A_TURN: u64 = 4;

/// Whether another node that lacks many entries gains on this one. A clause sees how long its log was, how many entries it lacked when it
/// had gained last (0 if it lacked few), and at which beat that was.
///
/// A node that did not run for long lacks more entries than it can get while the others go on at full speed. So they hold acts back until it
/// has come level, as long as it gains: each time that it lacks an eighth less. One that asks for what this node has only in its snapshot
/// takes a snapshot first, at whatever speed the others go on; what it lacks then is counted anew.
#[derive(Clone, Copy)]
pub struct Gaining {
    log: u64,
    mark: u64,
    since: u64,
}

impl Model for Gaining {
    ghost use Rattle.serve_policy.specs.Gaining.{Lack};

    ghost Value = { Lack };

    ghost view = { λ g. record { log = g.log; mark = g.mark; since = g.since } };

    ghost inverse = { λ lack. record { log = lack.log; mark = lack.mark; since = lack.since } };
}

impl Gaining {
    /// Returns the state of a node that lacks nothing.
    pub const fn new() -> Gaining
        ensures { result ≡ record { log = 0; mark = 0; since = 0 } }
    {
        Gaining {
            log: 0,
            mark: 0,
            since: 0,
        }
    }

    /// Notes that the other node asks for what was learned from the slot `first` on, while this node has applied this many entries, up to
    /// `floor` by its snapshot. A node that asks for a slot at or below the floor waits for the snapshot, and no acts are held back for it
    /// until it has taken that. Takes constant time.
    pub fn asks(&mut self, beat: u64, first: u64, applied: u64, floor: u64)
        ensures { self.new ≡ asking beat first applied floor self.old }
    {
        let log = first.saturating_sub(1);
        self.lacks(beat, log, lacked_from(first, applied, floor));
    }

    // Notes that its log has this length, and that it lacks this many entries.
    fn lacks(&mut self, beat: u64, log: u64, lacks: u64)
        ensures { self.new ≡ lacking beat log lacks self.old }
    {
        if lacks <= MOST_LACKED {
            self.mark = 0;
        } else if self.is_marked(log, lacks) {
            self.mark = lacks;
            self.since = beat;
        }
        self.log = log;
    }

    // Returns whether it is to be counted from here.
    fn is_marked(&self, log: u64, lacks: u64) -> bool
        ensures { result ≡ is_marked log lacks self.now }
    {
        self.mark == 0 || log < self.log || lacks <= self.mark - self.mark / 8
    }

    /// Returns whether acts are to be held back at this beat: the other node lacks more than 1,024 entries, it has gained an eighth of them
    /// less than 512 beats ago, and the beat is not one of each four in which acts are given all the same. Takes constant time.
    pub fn holds(&self, beat: u64) -> bool
        ensures { result ≡ is_gaining beat self.now }
    {
        beat % BEATS_A_TURN != 0 && self.mark > 0 && beat.saturating_sub(self.since) < BEATS_HELD
    }
}

// Returns how many entries a node lacks that asks so.
pub(crate) fn lacked_of(first: u64, log: u64) -> u64
    ensures { result ≡ lacked_of first log }
{
    log.saturating_sub(first.saturating_sub(1))
}

// Returns for how many of them acts are held back: for none if it waits for the snapshot.
fn lacked_from(first: u64, applied: u64, floor: u64) -> u64
    ensures { result ≡ lacked_from first applied floor }
{
    if first <= floor {
        return 0;
    }
    lacked_of(first, applied)
}
