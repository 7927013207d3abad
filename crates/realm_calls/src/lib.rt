//! The open calls of a realm (WAMP specification, "Remote Procedure Calls").
#![tactic(auto)]

mod calls;
pub mod laws;
mod open_calls;
mod restoring;

pub use calls::{Calls, Cancelled, Open};
pub use realm_sessions::{RealmFault, RestoreFault};
pub use wamp_ids::{Id, Mode};
