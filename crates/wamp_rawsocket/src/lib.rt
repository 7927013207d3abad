//! The RawSocket transport of WAMP: the answer to a handshake, and frames cut out of octets that come in any pieces.
#![tactic(auto)]

mod fault;
mod frame;
mod handshake;
mod handshake_answer;
pub mod laws;
mod splitter;

pub use bytes::Bytes;
pub use fault::FrameFault;
pub use frame::{Frame, FrameKind, FrameRef, append_frame, put_frame};
pub use handshake::answer;
pub use handshake_answer::Answer;
pub use splitter::Splitter;
