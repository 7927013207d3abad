// When another member is owed entries, so that a cut is put off.
ghost use Rattle.std.specs.Prelude.{◌≡◌};
ghost use Rattle.serve_policy.specs.Debt.{no_debt, waiting_for, is_late, asked_for, is_owed};

use crate::gaining::{MOST_LACKED, lacked_of};
use std::marker::Model;

/// From how many packets that wait for a member on some may be lost: half as many as there is room for.
const MANY_PACKETS: usize = 2048;

/// The number of beats for which a cut is put off.
const BEATS_OWED: u64 = 2560;

/// Whether another member is owed entries that are above this node's floor now, and would not be after a cut. A clause sees whether so many packets
/// wait for it that some may be lost, up to which entry it is owed all (0 if nothing is owed), and since which beat.
///
/// What waits for a member is lost once there is no more room for it; when the member takes packets again it asks for what it lacks at its next
/// ticks. One that is late, since it waits for a snapshot or lacks many entries, gets them packet by packet. If this node cuts its log before,
/// the member has to begin anew with a later snapshot, and may not take that if the boot that it has just begun is in it. So the member is owed
/// all entries up to the log's end of that moment, until it asks for one after them.
#[derive(Clone, Copy)]
pub struct Debt {
    is_crowded: bool,
    owed: u64,
    since: u64,
}

impl Model for Debt {
    ghost use Rattle.serve_policy.specs.Debt.{Owing};

    ghost Value = { Owing };

    ghost view = { λ d. record { is_crowded = d.is_crowded; owed = d.owed; since = d.since } };

    ghost inverse = { λ owing. record { is_crowded = owing.is_crowded; owed = owing.owed; since = owing.since } };
}

impl Debt {
    /// Returns the state of a member that is owed nothing.
    pub const fn new() -> Debt
        ensures { result ≡ no_debt }
    {
        Debt {
            is_crowded: false,
            owed: 0,
            since: 0,
        }
    }

    /// Notes that this many packets wait for the member at this beat, while this node's log has this length. If 2,048 or more wait, some may be lost,
    /// and the member is owed all entries of the log. Takes constant time.
    pub fn wait(&mut self, beat: u64, waiting: usize, log: u64)
        ensures { self.new ≡ waiting_for beat waiting log self.old }
    {
        let is_crowded = waiting >= MANY_PACKETS;
        if is_crowded != self.is_crowded {
            self.since = beat;
        }
        if is_crowded {
            self.owed = log;
        }
        self.is_crowded = is_crowded;
    }

    /// Notes that the member asks at this beat for what was learned from the slot `first` on, while this node's log has this length and is given up
    /// to `floor` by its snapshot. A member that asks for a slot at or below the floor, lacks more than 1,024 entries, or asks while 2,048 packets
    /// wait for it, is owed all entries of the log. Another one that asks for a slot after what it was owed is owed nothing; one that asks for what it
    /// is owed goes on to be owed that. Takes constant time.
    pub fn asks(&mut self, beat: u64, first: u64, log: u64, floor: u64)
        ensures { self.new ≡ asked_for beat first log floor self.old }
    {
        if self.is_crowded || is_late(first, log, floor) {
            self.owed = log;
            self.since = beat;
        } else if first > self.owed {
            self.owed = 0;
        } else {
            self.since = beat;
        }
    }

    /// Returns whether a cut is put off at this beat for what the member is owed: it is owed entries, and asked for them less than 2,560 beats ago, or
    /// 2,048 packets began to wait for it, or ceased to, less than 2,560 beats ago. Takes constant time.
    pub fn is_owed(&self, beat: u64) -> bool
        ensures { result ≡ is_owed beat self.now }
    {
        self.owed > 0 && beat.saturating_sub(self.since) < BEATS_OWED
    }
}

// Returns whether a member that asks so is late: it waits for the snapshot, or lacks many entries.
fn is_late(first: u64, log: u64, floor: u64) -> bool
    ensures { result ≡ is_late first log floor }
{
    first <= floor || lacked_of(first, log) > MOST_LACKED
}
