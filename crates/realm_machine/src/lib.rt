//! One realm of a WAMP router as a machine: sessions, registrations, subscriptions, publications and calls (WAMP specification, basic
//! profile; canceling, patterns, shared registrations, progressive results, caller identification). What a client does goes in as an act; what
//! is said to transports comes out as sayings. docs/PROTOCOL.md, "The realm", has the rules. The laws on sessions, registrations,
//! subscriptions and calls are in the crate `realm_laws`.
#![tactic(auto)]

mod calling;
mod config;
mod content;
pub mod laws;
mod leaving;
mod memory;
mod opening;
mod parts;
mod publishing;
mod realm;
mod registering;
mod requester;
mod sayings;
mod served;
mod step;
mod subscribing;
mod unsubscribing;

pub use config::Limits;
pub use parts::{Lists, Parts};
pub use paxos_packets::{Shared, Transport};
pub use realm::Realm;
pub use realm_acts::Act;
pub use realm_calls::{Calls, Open};
pub use realm_registrations::{RegistrationParts, Registrations};
pub use realm_sessions::{Link, RestoreFault, Sessions};
pub use realm_subscriptions::{SubscriptionParts, Subscriptions};
pub use replica_machine::Failed;
pub use sayings::{Out, Say};
pub use wamp_ids::Id;
pub use wamp_message_types::{Message, Read};
