// The keys by which a proposer finds what it proposed.
ghost use Rattle.std.specs.Prelude.{◌≡◌};
ghost use Rattle.paxos_proposer.specs.Identity.{identity_of};

use paxos_packets::Entry;

/// An entry's identity: the entry without the transport and the body of an item. Acts are numbered from 1, so no item has the identity of
/// another kind of entry.
#[derive(Clone, Copy, Debug, PartialEq, Eq, Hash)]
pub struct Identity {
    /// 0 for a Noop.
    pub node: u8,
    pub boot: u64,
    /// The number of the act, or 0 for another kind of entry.
    pub seq: u64,
    /// Whether it is a Lost.
    pub is_lost: bool,
}

impl Identity {
    /// Returns the entry's identity.
    pub fn of<B>(entry: &Entry<B>) -> Identity
        ensures { result ≡ identity_of entry.now }
    {
        match entry {
            Entry::Noop => Identity {
                node: 0,
                boot: 0,
                seq: 0,
                is_lost: false,
            },
            Entry::Boot { node, boot } => Identity {
                node: *node,
                boot: *boot,
                seq: 0,
                is_lost: false,
            },
            Entry::Lost { node, boot } => Identity {
                node: *node,
                boot: *boot,
                seq: 0,
                is_lost: true,
            },
            Entry::Item {
                node,
                boot,
                seq,
                ..
            } => Identity {
                node: *node,
                boot: *boot,
                seq: *seq,
                is_lost: false,
            },
        }
    }
}
