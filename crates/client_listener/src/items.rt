// The items of a client's two rings: what its node takes, and what its node hands over.
use bytes::Bytes;
use wamp_messages::{Message, Read};

/// What a node takes from a client's transport.
#[derive(Drop)]
pub enum FromClient {
    /// The transport is open.
    Connect,
    /// What was read of one frame of a message.
    Read(Read),
    /// The client asks for a PONG with these octets.
    Ping(Bytes),
    /// Nothing more comes of this transport.
    Hung,
}

/// What a node hands to a client's transport.
#[derive(Drop)]
pub enum ToClient {
    /// A message.
    Send(Message),
    /// The answer to a PING with these octets.
    Pong(Bytes),
    /// The transport is closed.
    Close,
}
