//! Acts of clients as octets, so that entries of the log that carry them have one spelling (docs/CONSENSUS.md, "Entry bytes").
#![tactic(auto)]

mod act;
pub mod laws;
mod read;
mod text;

pub use act::ActCoder;
pub use command_codec::{CodecFault, Coder};
pub use realm_acts::Act;
