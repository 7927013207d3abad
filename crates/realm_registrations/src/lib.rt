//! The registrations of a realm: which sessions are called for a procedure (WAMP specification, "Registering and Unregistering",
//! "Pattern-based Registrations", "Shared Registration").
#![tactic(auto)]

mod callees;
pub mod laws;
mod registration;
mod registrations;
mod restoring;
mod rotation;

pub use callees::Callees;
pub use realm_sessions::{RealmFault, RestoreFault};
pub use registration::{Chosen, Registration};
pub use registrations::Registrations;
pub use restoring::RegistrationParts;
pub use wamp_ids::{Id, Invoke, Match, Pattern, Uri};
