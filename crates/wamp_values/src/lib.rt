//! The JSON values that messages of WAMP carry: payloads, arguments, and what the router reads of options and details.
#![tactic(auto)]

mod args;
mod equal;
mod fault;
mod fitness;
mod found;
mod held;
pub mod laws;
mod memory;
mod options;
mod payload;
mod tokens;

pub use args::{Args, Arguments, ArgumentsKw};
pub use fault::ValueFault;
pub use found::{Found, bool_option, text_at, text_option};
pub use json::Writer;
pub use memory::Memory;
pub use options::{flag_in, invoke_in, is_canceling, match_in, mode_in, mode_named};
pub use payload::Payload;
pub use serde_json::Value;
pub use wamp_ids::{Invoke, Match, Mode, Text};
