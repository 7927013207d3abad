//! Nodes and actors of a cluster, for tests and measures of the consensus core. This crate makes them, lends them to what is done with them, and
//! drops them, so that a crate that tries them owns none: each crate that drops one proves that drop anew.
#![tactic(auto)]

mod closing;
mod nodes;
mod seated_actor;
mod standing;

pub use closing::{close, close_left, close_log, pop_two, push_two};
pub use nodes::{Missed, Nodes, Passes, with_nodes};
pub use seated_actor::{Answer, Begun, Left, SeatedActor, again, count_of, open_actor, told_of};
pub use standing::{NODES, Plays, Source, with_actors, with_actors_by_rounds};
