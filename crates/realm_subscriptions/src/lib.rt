//! The subscriptions of a realm (WAMP specification, "Publish and Subscribe", "Pattern-based Subscriptions").
#![tactic(auto)]

mod later;
pub mod laws;
mod leaving;
mod receiving;
mod restoring;
mod subscribers;
mod subscribing;
mod subscription;
mod subscriptions;

pub use realm_sessions::{RealmFault, RestoreFault};
pub use receiving::Receiver;
pub use restoring::SubscriptionParts;
pub use subscribers::Subscribers;
pub use subscription::Subscription;
pub use subscriptions::Subscriptions;
pub use wamp_ids::{Id, Match, Pattern, Uri};
