//! A client's connection between its socket and a node's thread: the handshake, what the client sends as items of one ring, and what it is sent
//! out of another.
//!
//! A thread that serves many clients and may wait for none of them uses [`Inlet`] and [`Outbox`], with [`read_handshake`] and
//! [`answer_handshake`]: so does the program. For a thread that has one client on a blocking stream there are [`greet`], [`read_transport`] or
//! [`put_transport`], [`write_transport`] or [`take_transport`], and [`drain`]; the program does not call these. They read and write by an
//! `Inlet` and an `Outbox`, so frames are cut, and rings are filled, in one place.
#![tactic(auto)]

mod draining;
mod fault;
mod handshake;
mod inlet;
mod intake;
mod items;
mod outbox;
mod patience;
mod reading;
mod turns;
mod writing;

pub use bytes::Bytes;
pub use draining::drain;
pub use fault::ListenFault;
pub use handshake::{answer_handshake, greet, read_handshake};
pub use inlet::Inlet;
pub use items::{FromClient, ToClient};
pub use outbox::Outbox;
pub use reading::{put_transport, read_transport};
pub use wamp_messages::{Message, Parser, Read};
pub use wamp_rawsocket::FrameKind;
pub use writing::{take_transport, write_transport};
