// What a packet shows of the other nodes' work.
ghost use Rattle.std.specs.Prelude.{◌≡◌};
ghost use Rattle.node_actor.specs.Heard.{heard_in};

use paxos_packets::{Ballot, Kind};

/// What a packet shows of the other nodes' work, whatever its node makes of it.
#[derive(Clone, Copy, Debug, PartialEq, Eq)]
pub enum Heard {
    /// It asks for a promise of this ballot.
    Prepare(Ballot),
    /// It asks for a vote in this ballot, or reports a promise or a vote.
    Ballot(Ballot),
    /// It refuses a ballot, since another is promised.
    Refusal { ballot: Ballot, promised: Ballot },
    /// It forwards entries.
    Entries,
    /// It reports the entry of this slot, which its sender has learned.
    Learned(u64),
    /// It asks for what was learned from this slot on: its sender's log ends before it.
    Ask(u64),
    /// It brings its sender's log up to this slot.
    Snapshot(u64),
}

// Returns what a packet of this kind shows.
pub(crate) fn heard_in<B>(kind: &Kind<B>) -> Heard
    ensures { result ≡ heard_in kind.now }
{
    match kind {
        Kind::Prepare { ballot, .. } => Heard::Prepare(*ballot),
        Kind::Promise { ballot, .. } => Heard::Ballot(*ballot),
        Kind::Accept { vote } => Heard::Ballot(vote.ballot),
        Kind::Accepted { vote } => Heard::Ballot(vote.ballot),
        Kind::Nack { ballot, promised } => Heard::Refusal {
            ballot: *ballot,
            promised: *promised,
        },
        Kind::Forward { .. } => Heard::Entries,
        Kind::Learned { slot, .. } => Heard::Learned(slot.get()),
        Kind::Ask { first } => Heard::Ask(*first),
        Kind::Snapshot { snapshot } => Heard::Snapshot(snapshot.floor().get()),
    }
}
