//! Patterns of URIs: which URIs a pattern matches, which of the matching patterns serves, and a table by patterns.
#![tactic(auto)]

mod index;
mod kinds;
pub mod laws;
mod matching;
mod memory;
mod ranking;
mod table;
mod texts;

pub use matching::matches;
pub use memory::Memory;
pub use ranking::better;
pub use table::PatternTable;
pub use wamp_ids::{Pattern, Uri};
