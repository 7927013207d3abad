//! The messages of WAMP as values: a struct for each kind, with its copy and its comparison; the codes of messages; and the faults of
//! octets that are no message.
#![tactic(auto)]

mod call;
pub mod codes;
mod error;
mod fault;
mod memory;
mod message;
mod publish;
mod read_result;
mod register;
mod request_kind;
mod session;
mod subscribe;

pub use call::{Call, CallResult, Cancel, Interrupt, Invocation, Yield};
pub use error::Error;
pub use fault::MessageFault;
pub use memory::Memory;
pub use message::Message;
pub use publish::{Event, Publish, Published};
pub use read_result::{Read, UnfitKind};
pub use register::{Register, Registered, Unregister, Unregistered};
pub use request_kind::RequestKind;
pub use session::{Abort, Goodbye, Hello, Welcome};
pub use subscribe::{Subscribe, Subscribed, Unsubscribe, Unsubscribed};
pub use wamp_ids::{Id, Invoke, Match, Mode, Text};
pub use wamp_values::Args;
