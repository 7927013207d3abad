//! How a member's machine goes on with its node: after the log that it has, or from a snapshot that its node takes over.

ghost use Rattle.std.specs.Prelude.{◌≡◌, ◌++◌, List, true, None, OnOk, OnErr};
ghost use Rattle.paxos_packets.specs.declared.entry.Entry as log_entries;
ghost use Rattle.paxos_packets.specs.declared.transport.Transport as transports;
ghost use Rattle.replica_machine.specs.Log.{machine_from};
ghost use Rattle.replica_follower.specs.Following.{handed_to, Follows};
ghost use Rattle.replica_follower.specs.Handed.{said_in};
ghost use Rattle.cluster_world.specs.Members.{IsGivenUp};
ghost use Rattle.world_nodes.specs.Nodes.{node_of};
ghost use Rattle.cluster_world.specs.MemberSnapshots.{octets_at, base_of, above_of, Brings};

use paxos_node::Outcome;
use paxos_packets::Memory;
use replica_follower::Follower;
use replica_machine::Machine;
use world_nodes::WorldNode;

// Lets the machine go on with an outcome that its node adopts in this boot: from the snapshot in its change, which came in a packet, or, without
// one, after the log that it has. Whole or not at all.
pub(crate) fn go_on<M: Machine>(
    follower: &mut Follower<M>,
    boot: u64,
    outcome: &Outcome<M::Body>,
) -> Result<(), Memory>
    ensures machine { follower.new.node ≡ follower.old.node }
    ensures log { OnOk result (follower.new.log.applied ≡ above_of outcome.now.change.snapshot follower.old.log.applied ++ outcome.now.applied) }
    ensures err_log { OnErr result (follower.new.log.applied ≡ follower.old.log.applied) }
    ensures given_up { outcome.now.change.snapshot ≡ None → follower.old.given_up ≡ true → IsGivenUp follower.old.log.applied follower.new }
    ensures err_given_up { OnErr result (follower.old.given_up ≡ true → IsGivenUp follower.old.log.applied follower.new) }
    ensures follows { (first : M.Content) (under over : List (log_entries.Entry M.Body))
        → Follows M.content (machine_from M.steps first) under follower.old
        → Brings M.loaded (machine_from M.steps first) over outcome.now.change.snapshot
        → OnOk result (Follows M.content (machine_from M.steps first) (base_of outcome.now.change.snapshot under over) follower.new) }
    ensures err_follows { (first : M.Content) (under : List (log_entries.Entry M.Body))
        → Follows M.content (machine_from M.steps first) under follower.old
        → OnErr result (Follows M.content (machine_from M.steps first) under follower.new) }
    ensures handed { (first : M.Content) (under over : List (log_entries.Entry M.Body))
        → Follows M.content (machine_from M.steps first) under follower.old
        → Brings M.loaded (machine_from M.steps first) over outcome.now.change.snapshot
        → OnOk result ((t : transports.Transport) → said_in t follower.new.told ≡ said_in t follower.old.told
        ++ handed_to (machine_from M.steps first) t follower.old.node boot
        (base_of outcome.now.change.snapshot under over ++ above_of outcome.now.change.snapshot follower.old.log.applied) outcome.now.applied) }
    ensures err_handed { OnErr result ((t : transports.Transport) → said_in t follower.new.told ≡ said_in t follower.old.told) }
{
    match &outcome.change.snapshot {
        Some(snapshot) => follower.take(boot, snapshot.octets(), outcome.applied.as_slice()),
        None => follower.follow(boot, outcome.applied.as_slice()),
    }
}

// Returns the octets of which this node's machine is made as the node restarts: those of its snapshot, or these if it has none.
pub(crate) fn octets_at<'a, B>(node: &'a WorldNode<B>, first: &'a [u8]) -> &'a [u8]
    ensures { result.now ≡ octets_at first.now (node_of node.now).rows.snapshot }
{
    match node.snapshot() {
        Some(snapshot) => snapshot.octets(),
        None => first,
    }
}
