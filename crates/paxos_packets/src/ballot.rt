//! Ballots and their order.

ghost use Rattle.std.specs.Prelude.{◌≡◌};
ghost use Rattle.paxos_packets.specs.Ballot.{below};

/// A numbered ballot: the proposal number of Lamport 2001, section 2.2. Ballots are ordered by round, then by node, so no two nodes ever
/// use the same number.
#[derive(Clone, Copy, Debug, PartialEq, Eq, PartialOrd, Ord, Hash)]
pub struct Ballot {
    /// From 1 to 2^48 - 1.
    pub round: u64,
    /// The member that owns the ballot.
    pub node: u8,
}

impl Ballot {
    /// Returns whether this ballot is lower than the other. Does not allocate.
    pub fn is_below(&self, other: &Ballot) -> bool
        ensures { result ≡ below self.now other.now }
    {
        self < other
    }
}
