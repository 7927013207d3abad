// The phases of a proposer: idle, preparing and leading.
use paxos_packets::Ballot;

/// What a member does as a proposer, without the promises and proposals that it keeps for that.
#[derive(Clone, Copy, Debug, PartialEq, Eq)]
pub enum Phase {
    /// No ballot is under way.
    Idle,
    /// It has asked for promises of the ballot, from the slot `first` on.
    Preparing { ballot: Ballot, first: u64 },
    /// A majority has promised the ballot, and `next` is the slot of its next proposal.
    Leading { ballot: Ballot, next: u64 },
}
