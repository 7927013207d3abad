// Which nodes the rounds of a node wake.
use actor_run::{Hearing, RoundSeen};
use paxos_packets::{Members, NodeSet};
use serve_connections::Lobby;
use std::sync::Arc;

// Says in the node's lobby for which members its packets wait.
pub(crate) fn say_waits(lobby: &Lobby, members: Members, waiting: &[u16; 7]) {
    for below in 0..members.count() {
        if let Some(count) = waiting.get(usize::from(below)) {
            lobby.set_waits(below + 1, *count > 0);
        }
    }
}

// Returns from which nodes these packets came.
fn senders_of(came: &[Hearing]) -> NodeSet {
    let mut senders = NodeSet::new();
    for hearing in came {
        senders.insert(hearing.from);
    }
    senders
}

// Wakes, once each, the nodes that the last round of this node posted to, unless what it posted may wait, and those of which it took packets, if
// further packets of them wait for room. Returns whether the round posted or took any packet.
pub(crate) fn wake_peers(
    node: u8,
    members: Members,
    lobbies: &[Arc<Lobby>],
    seen: &RoundSeen<'_>,
    may_wait: bool,
) -> bool {
    if seen.came.is_empty() && seen.posted == NodeSet::new() {
        return false;
    }
    let senders = senders_of(seen.came);
    for below in 0..members.count() {
        let peer = below + 1;
        let posted = !may_wait && seen.posted.contains(peer);
        let took = senders.contains(peer);
        if let Some(lobby) = lobbies.get(usize::from(below))
            && (posted || took && lobby.waits_for(node))
        {
            lobby.wake();
        }
    }
    true
}
