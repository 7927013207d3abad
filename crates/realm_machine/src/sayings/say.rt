//! Sayings, each with its transport.
use paxos_packets::Transport;
use wamp_message_types::Message;

/// What the realm says to a transport.
#[derive(Drop)]
pub enum Out {
    /// Sends the message.
    Send(Message),
    /// Closes the transport.
    Close,
}

/// One saying: what the realm says, and to which transport.
#[derive(Drop)]
pub struct Say {
    pub transport: Transport,
    pub out: Out,
}
