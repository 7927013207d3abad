// The faults of a node on its thread and of the whole cluster, and their numbers.
ghost use Rattle.std.specs.Prelude.{◌≡◌};
ghost use Rattle.serve_program.specs.Fault.{number_of, EndsAll, FaultAt, IsEnding};

use node_actor::{ActorFault, KeeperFault};
use std::alloc::{AllocError, AllocFailed};
use thiserror::Error;

/// Why a node ended before its cluster did, or was not begun.
#[derive(Clone, Copy, Debug, PartialEq, Eq, Drop, Error)]
pub enum NodeFault {
    /// The node's store did not open, or has failed.
    #[error("{0}")]
    Store(KeeperFault),
    /// A fault has ended the node before.
    #[error("the actor has failed before")]
    Failed,
    /// No round is left for a new ballot.
    #[error("no round is left for a new ballot")]
    Rounds,
    /// No more entries may be pending, or no number is left for an act.
    #[error("no room for one more pending entry")]
    Full,
    /// Another entry was learned in a slot.
    #[error("another entry was learned in the slot")]
    Disagree,
    /// The node has applied that it is lost in its present boot.
    #[error("the node is lost in its present boot")]
    Lost,
    /// The node's word at the table has counted all events that it can.
    #[error("the node has taken all events that its word counts")]
    Worn,
    /// The node is none of the cluster's members.
    #[error("the node is none of the cluster's members")]
    NoMember,
    /// The folder is of another cluster.
    #[error("the folder is of another cluster")]
    OtherCluster,
    /// Memory ran out.
    #[error("no memory for the node")]
    Memory,
}

impl NodeFault {
    /// Returns the fault's number: the store's 61 to 66, 51, 71 to 76 as those of an actor, 77 for a node that is no member, and 78 for a folder
    /// of another cluster.
    pub fn number(self) -> u8
        ensures { result ≡ number_of self }
    {
        match self {
            NodeFault::Store(fault) => fault.number(),
            NodeFault::Failed => 71,
            NodeFault::Rounds => 51,
            NodeFault::Full => 74,
            NodeFault::Disagree => 72,
            NodeFault::Lost => 73,
            NodeFault::Worn => 75,
            NodeFault::NoMember => 77,
            NodeFault::OtherCluster => 78,
            NodeFault::Memory => 76,
        }
    }
}

impl From<KeeperFault> for NodeFault {
    ghost use Rattle.std.specs.Prelude.{◌≡◌};
    ghost use Rattle.serve_program.specs.declared.fault.NodeFault.TheVariants.{Store};

    ghost from_gives = { λ fault made. made ≡ Store fault };

    fn from(fault: KeeperFault) -> NodeFault {
        NodeFault::Store(fault)
    }
}

// An actor's fault keeps its number; what it says is dropped.
impl<Y: Drop> From<ActorFault<Y>> for NodeFault {
    ghost use Rattle.std.specs.Prelude.{◌≡◌};
    ghost use Rattle.actor_parts.specs.Fault as actor;
    ghost use Rattle.serve_program.specs.Fault.{number_of};

    ghost from_gives = { λ fault made. number_of made ≡ actor.number_of fault };

    fn from(fault: ActorFault<Y>) -> NodeFault {
        match fault {
            ActorFault::Failed => NodeFault::Failed,
            ActorFault::Rounds => NodeFault::Rounds,
            ActorFault::Full => NodeFault::Full,
            ActorFault::Keeper(fault) => NodeFault::Store(fault),
            ActorFault::Disagree => NodeFault::Disagree,
            ActorFault::LostHere(says) => {
                drop(says);
                NodeFault::Lost
            }
            ActorFault::Worn => NodeFault::Worn,
            ActorFault::Memory => NodeFault::Memory,
        }
    }
}

/// How a node ended before its gate was shut: its number and the fault, which is not that it was lost.
#[derive(Drop)]
pub(crate) struct NodeEnd {
    pub node: u8,
    pub fault: NodeFault,
    ghost ending: { IsEnding fault },
}

/// Why the nodes of a cluster were stopped before its input ended.
#[derive(Drop)]
pub(crate) enum ClusterStop {
    /// This node ended before its gate was shut.
    Node(NodeEnd),
    /// Memory ran out, or no thread could be made.
    Memory,
}

/// Why a cluster ended before its input did.
#[derive(Clone, Copy, Debug, PartialEq, Eq, Drop, Error)]
pub enum ServeFault {
    /// A node ended, or was not begun, by this fault, which is not that memory ran out.
    #[error("node {node}: {fault}")]
    Node { node: u8, fault: NodeFault },
    /// Memory ran out, or no thread could be made.
    #[error("memory")]
    Memory,
    /// A port cannot be listened on.
    #[error("transport: 83")]
    Port,
    /// What was to be printed cannot be written.
    #[error("transport: 84")]
    Write,
}

// Returns the cluster's fault, for a node that ended by this one.
fn fault_at(node: u8, fault: NodeFault) -> ServeFault
    ensures { FaultAt node fault result }
{
    match fault {
        NodeFault::Memory => ServeFault::Memory,
        NodeFault::Store(KeeperFault::Memory) => ServeFault::Memory,
        fault => ServeFault::Node { node, fault },
    }
}

// Returns the fault of a cluster in which a node ended so.
pub(crate) fn fault_of(end: NodeEnd) -> ServeFault
    ensures at { FaultAt end.node end.fault result }
    ensures ends { EndsAll result }
{
    let NodeEnd { node, fault } = end;
    fault_at(node, fault)
}

impl From<ClusterStop> for ServeFault {
    ghost use Rattle.serve_program.specs.Fault.{EndsAll};

    ghost from_gives = { λ stop made. EndsAll made };

    fn from(stop: ClusterStop) -> ServeFault {
        match stop {
            ClusterStop::Node(end) => fault_of(end),
            ClusterStop::Memory => ServeFault::Memory,
        }
    }
}

impl From<AllocError> for ServeFault {
    ghost use Rattle.serve_program.specs.Fault.{EndsAll};

    ghost from_gives = { λ error made. EndsAll made };

    fn from(_error: AllocError) -> ServeFault {
        ServeFault::Memory
    }
}

impl<T: Drop> From<AllocFailed<T>> for ServeFault {
    ghost use Rattle.serve_program.specs.Fault.{EndsAll};

    ghost from_gives = { λ error made. EndsAll made };

    fn from(_error: AllocFailed<T>) -> ServeFault {
        ServeFault::Memory
    }
}
