// How many acts a node gives before a round, as a leader and otherwise; and how many clients it looks at if it gives none.
ghost use Rattle.std.specs.Prelude.{◌≡◌, ◌-◌, nat_lt};
ghost use Rattle.serve_policy.specs.Admission.{acts_before_round, looks_aside};

use std::marker::Model;

/// How many entries may be pending at a node that leads. A node has room for 1,024, so some is always left for its own.
const MOST_PENDING: usize = 1000;

/// How many acts a node gives before a round at most. A node that does not lead sends all of them to the leader in one Forward, and a leader
/// takes no more of its own than one Forward has.
const MOST_ACTS: usize = 64;

/// The number of clients that a node looks at before a round in which it may give no act.
const LOOKS_ASIDE: u8 = 8;

/// The same if a commit takes a beat or more: such a round takes long, and clients come meanwhile.
const LOOKS_ASIDE_SLOWLY: u8 = 64;

/// How many acts a node may still give before its next round. A clause sees that number.
///
/// A node that does not lead gives acts only before a round at whose beginning nothing of it is pending, and all of these at once. So it gives
/// as many in each round trip to the leader, however long that takes, and forwards an act few times.
#[derive(Drop)]
pub struct Admission {
    left: usize,
}

impl Model for Admission {
    ghost use Rattle.std.specs.Prelude.{ℕ};

    ghost Value = { ℕ };

    ghost view = { λ admission. admission.left };
}

impl Admission {
    /// Returns the admission of a node before its first round: it gives no act.
    pub const fn new() -> Admission
        ensures { result ≡ 0 }
    {
        Admission { left: 0 }
    }

    /// Notes that a round is over, or the first one is to come: whether the node leads, and how many entries of it are pending. Takes constant
    /// time.
    pub fn begin(&mut self, leads: bool, pending: usize)
        ensures { self.new ≡ acts_before_round leads pending }
    {
        self.left = if leads {
            MOST_ACTS.min(MOST_PENDING.saturating_sub(pending))
        } else if pending == 0 {
            MOST_ACTS
        } else {
            0
        };
    }

    /// Returns whether the node may give one more act before its next round.
    pub fn has_room(&self) -> bool
        ensures { result ≡ nat_lt 0 self.now }
    {
        self.left > 0
    }

    /// Notes that the node gives an act.
    pub fn give(&mut self)
        ensures { self.new ≡ self.old - 1 }
    {
        self.left = self.left.saturating_sub(1);
    }
}

/// Returns the number of clients that a node looks at before a round in which it may give no act. A commit takes `commit` beats.
pub const fn looks_aside(commit: u8) -> u8
    ensures { result ≡ looks_aside commit }
{
    match commit {
        0 => LOOKS_ASIDE,
        _ => LOOKS_ASIDE_SLOWLY,
    }
}
