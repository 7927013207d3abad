// The node's end of a client's connection, and the arrival that brings it.
ghost use Rattle.std.specs.Prelude.{◌≡◌, length};
ghost use Rattle.serve_connections.specs.Taken.{taken_by};

use crate::lobby::Lobby;
use crate::requests::RequestReceiver;
use crate::shared::SharedConnection;
use client_listener::ToClient;
use rtrb::Producer;
use std::alloc::{AllocError, Global};
use std::net::TcpStream;
use std::sync::Arc;

/// How many sayings may wait for a client in the ring of its connection, from which its porter takes them. Within a round a node waits for no
/// client, and it says some thousands if it lacked an entry for a moment and then has it.
///
/// A ring takes 176 octets of memory for each saying until it has come around: nothing at first, and 1.4 MiB after 8,192 sayings.
pub const SAYINGS_WAITING: usize = 8192;

/// A connection that came, as its node gets it: the end of its requests, the ring of its sayings, and the node's hold on the
/// connection, which is dropped with the arrival.
///
/// The first request is `Connect`, once the handshake is done. If the handshake fails, the requests end with nothing in them. None of them
/// was taken before the arrival: a node takes it apart, and then takes them.
#[derive(Drop)]
pub struct Arrival {
    pub requests: RequestReceiver,
    pub sayings: Producer<ToClient>,
    pub connection: NodeConnection,
    ghost untouched: { length (taken_by requests) ≡ 0 },
}

/// A node's hold on a client's connection. Only [`NodeConnection::over`] allocates, and no call waits.
///
/// After it is dropped, what waits in the ring of sayings is still written, and then the connection ends.
pub struct NodeConnection {
    shared: Arc<SharedConnection, Global>,
}

impl NodeConnection {
    /// Returns a hold on a connection that no porter serves.
    pub fn over(alloc: Global, stream: TcpStream) -> Result<NodeConnection, AllocError> {
        NodeConnection::over_shared(alloc, SharedConnection::new(stream, None))
    }

    // Returns a hold on a connection that shares this with its porter.
    pub(crate) fn over_shared(
        alloc: Global,
        shared: SharedConnection,
    ) -> Result<NodeConnection, AllocError> {
        let shared = Arc::new(alloc, shared)?;
        Ok(NodeConnection { shared })
    }

    // Returns what the connection's porter shares with the node.
    pub(crate) fn shared(&self) -> Result<Arc<SharedConnection, Global>, AllocError> {
        Arc::try_clone(&self.shared)
    }

    /// Wakes the porter. For a node that has put sayings into the ring: once after all of a round.
    pub fn announce_sayings(&self) {
        self.shared.ring();
    }

    /// Wakes the porter if it waits for room in the ring of requests. For a node that has taken some.
    pub fn announce_room(&self) {
        self.shared.announce_room();
    }

    /// Counts the client as slow in the lobby of its node, until its porter has taken the sayings that wait. For a node that has put many.
    pub fn mark_slow(&self, lobby: &Lobby) {
        self.shared.mark_slow(lobby);
    }

    /// Counts the client as slow no longer. Returns whether it was.
    pub fn clear_slow(&self, lobby: &Lobby) -> bool {
        self.shared.clear_slow(lobby)
    }

    /// Ends the connection at once: nothing more is read or written.
    pub fn hang_up(&self) {
        self.shared.release();
        self.shared.shut();
    }
}

impl Drop for NodeConnection {
    fn drop(self) {
        let NodeConnection { shared } = self;
        shared.release();
        drop(shared);
    }
}
