//! A cluster that clients connect to: each node on a thread, with its store and its port (docs/ARCHITECTURE.md, "Threads").
#![tactic(auto)]

mod cluster;
mod cluster_end;
mod counted;
mod desk;
mod fault;
mod folder;
mod lives;
mod nodes;
mod report;
mod serve;
mod source;
mod station;
mod status;
mod stores;

pub use actor_run::Gate;
pub use cluster_end::ClusterEnd;
pub use fault::{NodeFault, ServeFault};
pub use mail_table::NodeSeat;
pub use node_actor::{KeeperFault, Members};
pub use realm_machine::Act;
pub use serve::{ClusterConfig, serve_run};
