//! Ids, URIs, patterns, texts and policies: what the messages of WAMP are made of.
#![tactic(auto)]

mod id;
mod memory;
mod pattern;
mod policy;
mod text;
mod uri;

pub use id::{Id, LAST_ID};
pub use memory::Memory;
pub use pattern::Pattern;
pub use policy::{Invoke, Match, Mode};
pub use text::Text;
pub use uri::{Uri, UriFault};
