/// What is to be done about a client's handshake.
#[derive(Clone, Copy, Debug, PartialEq, Eq)]
pub enum Answer {
    /// The client is accepted. `octets` are sent to it, and no frame that is sent after them has a payload of more than `limit` octets.
    Terms { limit: u32, octets: [u8; 4] },
    /// The client is sent these octets, and the connection is closed.
    Refuse([u8; 4]),
    /// The connection is closed without an answer.
    Hang,
}
