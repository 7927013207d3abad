// Commits what an event changes.
ghost use Rattle.std.specs.Prelude.{◌≡◌, ◌≤◌, true, false, OnOk, IfErr, is_err};
ghost use Rattle.paxos_acceptor.specs.Acceptor.{adopted};
ghost use Rattle.paxos_acceptor.specs.Ahead.{IsAhead};
ghost use Rattle.paxos_packets.specs.declared.rows.Rows.{Rows};
ghost use Rattle.actor_parts.specs.Steps.{Falls};

use paxos_acceptor::Ahead;
use paxos_node::Node;
use paxos_packets::{Body, Change};
use store_keeper::{Keeper, KeeperFault};

// Commits what the change adds to the node's rows, and counts the commit. If they have all of it already nothing is committed: the keeper,
// which holds the rows, holds what it is to hold.
pub(crate) fn commit<B: Body, K: Keeper<B>>(
    keeper: &mut K,
    commits: &mut u64,
    node: &Node<B>,
    change: &Change<B>,
) -> Result<(), KeeperFault>
    ensures ok { OnOk result (K.holds keeper.old node.now.state.rows → K.holds keeper.new (adopted node.now.state.rows change.now)) }
    ensures falls { K.holds keeper.old node.now.state.rows
        → IfErr result (λ fault. Falls K.finds K.failures change.now node.now.state.rows keeper.old keeper.new fault) }
    ensures whole { K.is_failed keeper.old ≡ false → K.is_failed keeper.new ≡ is_err result }
    ensures counts { K.failures keeper.old ≤ K.failures keeper.new }
{
    if node.has_all(change) {
        return Ok(());
    }
    *commits = commits.wrapping_add(1);
    keeper.commit(change)
}

// Commits changes by which a node's rows are ahead of what the keeper holds, in one commit, and counts it; commits nothing if they add nothing.
pub(crate) fn commit_all<B: Body, K: Keeper<B>>(
    keeper: &mut K,
    commits: &mut u64,
    ahead: &Ahead<B>,
) -> Result<(), KeeperFault>
    ensures ok { (kept rows : Rows B) → IsAhead kept ahead.now rows → K.holds keeper.old kept → OnOk result (K.holds keeper.new rows) }
    ensures falls { (kept rows : Rows B) → IsAhead kept ahead.now rows → K.holds keeper.old kept
        → IfErr result (λ fault. Falls K.finds K.failures ahead.now.change kept keeper.old keeper.new fault) }
    ensures whole { K.is_failed keeper.old ≡ false → K.is_failed keeper.new ≡ is_err result }
    ensures counts { K.failures keeper.old ≤ K.failures keeper.new }
{
    if ahead.adds_nothing() {
        return Ok(());
    }
    *commits = commits.wrapping_add(1);
    keeper.commit(ahead.change())
}
