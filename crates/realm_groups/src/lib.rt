//! Groups of sessions, each with a pattern and an id: the callees of registrations, the members of subscriptions.
#![tactic(auto)]

mod group;
mod groups;
mod id_sets;
mod kept;
mod matching;
mod restoring;

pub use group::{Group, Turning};
pub use groups::Groups;
pub use realm_sessions::{RealmFault, RestoreFault};
pub use wamp_ids::{Id, Pattern, Uri};
