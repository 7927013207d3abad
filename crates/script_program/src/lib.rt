//! Runs a script from octets to octets: reads it whole, plays its lines on a world of realms, and writes the text of that world
//! (docs/SCRIPTS.md). The world is owned by this crate alone.
#![tactic(auto)]

mod fault;
pub mod laws;
mod lines;
mod player;
mod reading;
mod run;
mod text;

pub use cluster_world::{Memory, World};
pub use fault::ScriptFault;
pub use lines::Line;
pub use paxos_packets::Members;
pub use player::play;
pub use realm_machine::Limits;
pub use realm_snapshot::KeptRealm;
pub use run::script_run;
