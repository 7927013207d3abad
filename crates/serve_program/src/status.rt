// The line that a node writes when it is asked for its status.
ghost use Rattle.std.specs.Prelude.{◌≡◌};
ghost use Rattle.serve_program.specs.Status.{standing_of};

use actor_run::RoundSeen;
use serve_feed::Held;
use std::fmt;
use std::fmt::Display;

/// Whom a node takes for the leader.
#[derive(Clone, Copy, Debug, PartialEq, Eq, Drop)]
pub(crate) enum Standing {
    /// It leads itself.
    Leads,
    /// It has begun a ballot, and does not lead yet.
    Prepares,
    /// It has promised this node's ballot.
    Follows(u8),
    /// It has promised no ballot.
    Waits,
}

/// Returns whom the node with this number takes for the leader.
pub(crate) fn standing_of(me: u8, seen: &RoundSeen<'_>) -> Standing
    ensures { result ≡ standing_of me seen.now }
{
    if seen.leads {
        return Standing::Leads;
    }
    match seen.promised {
        None => Standing::Waits,
        Some(ballot) if ballot.node == me => Standing::Prepares,
        Some(ballot) => Standing::Follows(ballot.node),
    }
}

impl Display for Standing {
    fn fmt<W: fmt::Write>(&self, f: &mut fmt::Formatter<W>) -> fmt::Result {
        match self {
            Standing::Leads => write!(f, "leads"),
            Standing::Prepares => write!(f, "prepares a ballot"),
            Standing::Follows(node) => write!(f, "follows node {node}"),
            Standing::Waits => write!(f, "has promised no ballot"),
        }
    }
}

/// What a node says of itself.
#[derive(Drop)]
pub(crate) struct Status {
    pub node: u8,
    pub boot: u64,
    pub members: u8,
    pub standing: Standing,
    pub applied: u64,
    pub floor: u64,
    pub pending: usize,
    pub waiting: [u16; 7],
    pub connections: usize,
    pub held: Option<Held>,
}

// Returns why acts are held back, in words.
fn cause_of(held: Held) -> &'static str {
    match held {
        Held::Peer => "another node is behind",
        Held::UnderWay => "as many are under way as may be",
    }
}

impl Display for Status {
    fn fmt<W: fmt::Write>(&self, f: &mut fmt::Formatter<W>) -> fmt::Result {
        let Status {
            node,
            boot,
            standing,
            applied,
            floor,
            pending,
            ..
        } = self;
        write!(
            f,
            "node {node}: boot {boot}, {standing}, {applied} entries applied, {floor} of them in its snapshot, {pending} pending, packets wait"
        )?;
        for below in 0..self.members.min(7) {
            let peer = below + 1;
            if peer != self.node
                && let Some(count) = self.waiting.get(usize::from(below))
            {
                write!(f, " {} for node {peer},", *count)?;
            }
        }
        write!(f, " {} connections", self.connections)?;
        match self.held {
            None => Ok(()),
            Some(held) => write!(f, ", acts are held back: {}", cause_of(held)),
        }
    }
}
