//! What an event makes of a node before anything is applied: what it commits and sends, what it does to the proposer, and what the
//! learner hears. It is planned on the parts of the node by reference, which stay as they are (docs/CONSENSUS.md, "One node").
#![tactic(auto)]

mod draft;
mod effects;
mod parts;
mod proposals;
mod replies;
mod starting;
mod ticking;
mod walking;
mod wanted;

pub use draft::Draft;
pub use effects::Effects;
pub use parts::Parts;
pub use paxos_acceptor::Acceptor;
pub use paxos_learner::{Learner, News};
pub use paxos_packets::{Body, Change, Entries, Entry, Kind, Members, Memory, Packet};
pub use paxos_proposer::{Move, Proposer};
pub use wanted::Wanted;
