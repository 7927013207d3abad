//! What holds of a realm that all nodes of a cluster follow: each node's realm is the written one along its log, and keeps its laws there.
#![tactic(auto)]

pub mod laws;

pub use cluster_world::World;
pub use realm_snapshot::KeptRealm;
