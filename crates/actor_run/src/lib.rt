//! Runs of an actor: turns or rounds for as long as a gate allows, and before each the events that a feed gives (docs/ARCHITECTURE.md, "Threads").
#![tactic(auto)]

mod events;
mod feed;
mod gate;
mod round_feed;
mod rounds;
mod run;

pub use feed::{Feed, Seen};
pub use gate::Gate;
pub use node_actor::{
    Actor, ActorFault, Ballot, Body, Event, Heard, Hearing, Keeper, Machine, Mail, NodeSet,
};
pub use round_feed::{RoundFeed, RoundSeen};
pub use rounds::run_rounds;
pub use run::run_node;
