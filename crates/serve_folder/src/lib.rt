//! What the file `cluster` of a folder says: which cluster the folder is of (docs/OPERATING.md, "The folder").
#![tactic(auto)]

mod judgement;
mod text;

pub use judgement::{Judgement, judge};
pub use paxos_packets::Members;
pub use text::cluster_text;
