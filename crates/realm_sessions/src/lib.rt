//! The connected transports of a realm and their sessions (WAMP specification, "Sessions"), and the faults of a realm's parts.
#![tactic(auto)]

mod connected;
mod fault;
pub mod laws;
mod links;
mod restoring;
mod session_index;
mod sessions;

pub use fault::{
    ALREADY_EXISTS, INVALID_ARGUMENT, INVALID_URI, LIMIT, NO_SUCH_PROCEDURE, NO_SUCH_REGISTRATION,
    NO_SUCH_SUBSCRIPTION, RealmFault, RestoreFault,
};
pub use links::{Link, Session};
pub use paxos_packets::Transport;
pub use sessions::Sessions;
pub use wamp_ids::Id;
