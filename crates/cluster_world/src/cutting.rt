//! How a member cuts: its node rests on what its machine saves of the log.

ghost use Rattle.std.specs.Prelude.{◌≡◌, ◌<◌, ◌^◌, ◌++◌, List, length, true, false, is_some, IfOk, IfSome, OnOk, OnErr};
ghost use Rattle.paxos_packets.specs.declared.entry.Entry as log_entries;
ghost use Rattle.paxos_node.specs.declared.event.Event.TheVariants.{Cut};
ghost use Rattle.paxos_node.specs.Adopting.{adopted, Fits, Planned};
ghost use Rattle.paxos_node.specs.Snapshots.{may_cut};
ghost use Rattle.replica_machine.specs.Given.{AreGiven};
ghost use Rattle.replica_machine.specs.Log.{machine_from};
ghost use Rattle.replica_follower.specs.Following.{Follows};
ghost use Rattle.world_nodes.specs.Nodes.{node_of, IsAtRest};
ghost use Rattle.cluster_world.specs.MemberSnapshots.{own_cut, Cuts, LoadsSaved, StillFollows};

use paxos_node::Outcome;
use paxos_packets::{Body, Memory};
use replica_follower::Follower;
use replica_machine::Machine;
use world_nodes::WorldNode;

// Lets the node, which is up, rest on what its machine saves of its log, whole or not at all; nothing happens if no entry is applied above the
// floor. `Memory` comes too if the machine is given up or has failed.
pub(crate) fn cut<M: Machine>(
    node: &mut WorldNode<M::Body>,
    follower: &mut Follower<M>,
) -> Result<(), Memory>
    requires up { (node_of node.old).up ≡ true }
    requires rests { IsAtRest (node_of node.old) }
    requires log { follower.old.log.applied ≡ (node_of node.old).applied }
    ensures me { node.new.me ≡ node.old.me }
    ensures members { node.new.members ≡ node.old.members }
    ensures machine { follower.new.node ≡ follower.old.node }
    ensures alive { OnOk result (follower.old.given_up ≡ false) }
    ensures ok { OnOk result (Cuts M.Body.same node.old.me node.old.members (own_cut M.saved M.content follower.old.log)
        (node_of node.old) (node_of node.new) follower.old follower.new) }
    ensures follows { (first : M.Content) (under : List (log_entries.Entry M.Body))
        → Follows M.content (machine_from M.steps first) under follower.old
        → OnOk result (StillFollows M.content (machine_from M.steps first) (own_cut M.saved M.content follower.old.log) under
        (node_of node.old) follower.new) }
    ensures loads { (first : M.Content) (under : List (log_entries.Entry M.Body))
        → Follows M.content (machine_from M.steps first) under follower.old
        → AreGiven (under ++ (node_of node.old).applied) → length (under ++ (node_of node.old).applied) < 2 ^ 40
        → OnOk result (LoadsSaved M.saved M.loaded (machine_from M.steps first) (under ++ (node_of node.old).applied)) }
    ensures err_node { OnErr result (node_of node.new ≡ node_of node.old) }
    ensures err_machine { OnErr result (follower.new ≡ follower.old) }
{
    match plan(node, follower)? {
        Some(outcome) => {
            rest(node, outcome)?;
            follower.rest_on();
            Ok(())
        }
        None => Ok(()),
    }
}

// Returns what it makes of the node to rest on what its machine saves of its log, or `None` if no entry is applied above the floor.
fn plan<M: Machine>(
    node: &WorldNode<M::Body>,
    follower: &Follower<M>,
) -> Result<Option<Outcome<M::Body>>, Memory>
    requires { (node_of node.now).up ≡ true }
    ensures alive { IfOk result (λ plan. follower.now.given_up ≡ false) }
    ensures planned { IfOk result (λ plan. IfSome plan (λ outcome. Planned M.Body.same node.now.members
        (Cut node.now.me (own_cut M.saved M.content follower.now.log)) (node_of node.now) outcome)) }
    ensures refused { IfOk result (λ plan. is_some plan ≡ may_cut (own_cut M.saved M.content follower.now.log) (node_of node.now)) }
    ensures fits { IfOk result (λ plan. IfSome plan (λ outcome. Fits node.now.me node.now.members outcome (node_of node.now))) }
    ensures loads { (first : M.Content) (under : List (log_entries.Entry M.Body))
        → Follows M.content (machine_from M.steps first) under follower.now
        → AreGiven (under ++ follower.now.log.applied) → length (under ++ follower.now.log.applied) < 2 ^ 40
        → IfOk result (λ plan. LoadsSaved M.saved M.loaded (machine_from M.steps first) (under ++ follower.now.log.applied)) }
{
    let Ok(octets) = follower.saved() else {
        return Err(Memory);
    };
    let planned = node.plan_cut(&octets);
    drop(octets);
    planned
}

// Lets the node, which is up, adopt the outcome of a cut, which sends nothing and applies nothing.
fn rest<B: Body>(node: &mut WorldNode<B>, outcome: Outcome<B>) -> Result<(), Memory>
    requires up { (node_of node.old).up ≡ true }
    requires fits { Fits node.old.me node.old.members outcome (node_of node.old) }
    ensures me { node.new.me ≡ node.old.me }
    ensures members { node.new.members ≡ node.old.members }
    ensures ok { OnOk result (node_of node.new ≡ adopted node.old.me node.old.members outcome (node_of node.old)) }
    ensures err { OnErr result (node_of node.new ≡ node_of node.old) }
{
    let Ok(()) = node.make_room(&outcome) else {
        return Err(Memory);
    };
    let (packets, applied) = node.adopt_in_room(outcome);
    drop(packets);
    drop(applied);
    Ok(())
}
