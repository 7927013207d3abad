// The verdict of an acceptor on a packet: a change and an answer.
use paxos_packets::{Change, Kind};

/// An acceptor's answer to a packet.
#[derive(Debug, Drop)]
pub enum Answer<B> {
    /// Nothing is sent.
    Nothing,
    /// A Promise, a Nack or a Snapshot for the member that sent the packet.
    ToSender { kind: Kind<B> },
    /// An Accepted for each of the other members.
    ToOthers { kind: Kind<B> },
}

/// What to commit for a packet, and what to answer once it is committed.
#[derive(Debug, Drop)]
pub struct Verdict<B> {
    pub change: Change<B>,
    pub answer: Answer<B>,
}
