//! The messages of WAMP, read from JSON and written as JSON.
#![tactic(auto)]

mod call;
mod error;
mod flags;
pub mod laws;
mod outermost;
mod parser;
mod publish;
mod reading;
mod register;
mod session;
mod shared;
mod subscribe;
mod writing;

pub use parser::Parser;
pub use reading::{read, read_by};
pub use wamp_ids::{Id, Invoke, Match, Mode, Text};
pub use wamp_message_types::{
    Abort, Call, CallResult, Cancel, Error, Event, Goodbye, Hello, Interrupt, Invocation, Memory,
    Message, MessageFault, Publish, Published, Read, Register, Registered, RequestKind, Subscribe,
    Subscribed, UnfitKind, Unregister, Unregistered, Unsubscribe, Unsubscribed, Welcome, Yield,
};
pub use wamp_values::{Args, Arguments, ArgumentsKw, Payload};
pub use writing::{write, write_into};
