//! One client over a reader and a writer, from octets to octets (docs/PROTOCOL.md, "A stream"), and the faults of the program's runs.
#![tactic(auto)]

mod fault;
mod progress;
mod replies;
mod service;
mod stream;
mod turns;

pub use fault::RunFault;
pub use realm_machine::Limits;
pub use stream::stream_run;
