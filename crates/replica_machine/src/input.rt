//! The inputs of a machine.
use paxos_packets::Transport;

/// A machine's input: what an entry that takes effect gives it.
#[derive(Debug, Drop)]
pub enum Input<B> {
    /// A node began this boot.
    Boot { node: u8, boot: u64 },
    /// A node was taken to be lost in this boot.
    Lost { node: u8, boot: u64 },
    /// An act of this transport.
    Item { transport: Transport, body: B },
}
