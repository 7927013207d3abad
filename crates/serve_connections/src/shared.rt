// What the two ends of a connection share.
use crate::bell::Bell;
use crate::lobby::Lobby;
use std::alloc::Global;
use std::net::{Shutdown, TcpStream};
use std::sync::Arc;
use std::sync::atomic::{AtomicBool, Ordering};

// What a connection's node and its porter share: the stream, the porter's bell, whether the node has released the connection, whether the
// porter waits for room in the ring of requests, and whether the client is counted as slow.
#[derive(Drop)]
pub(crate) struct SharedConnection {
    stream: TcpStream,
    bell: Option<Arc<Bell, Global>>,
    is_released: AtomicBool,
    wants_room: AtomicBool,
    is_slow: AtomicBool,
}

impl SharedConnection {
    pub fn new(stream: TcpStream, bell: Option<Arc<Bell, Global>>) -> SharedConnection {
        SharedConnection {
            stream,
            bell,
            is_released: AtomicBool::new(false),
            wants_room: AtomicBool::new(false),
            is_slow: AtomicBool::new(false),
        }
    }

    // Returns the stream, to read or write.
    pub fn stream(&self) -> &TcpStream {
        &self.stream
    }

    // Wakes the porter.
    pub fn ring(&self) {
        if let Some(bell) = &self.bell {
            bell.ring();
        }
    }

    // Wakes the porter if it waits for room.
    pub fn announce_room(&self) {
        if self.wants_room.load(Ordering::SeqCst) {
            self.wants_room.store(false, Ordering::SeqCst);
            self.ring();
        }
    }

    // Notes that the porter waits for room.
    pub fn want_room(&self) {
        self.wants_room.store(true, Ordering::SeqCst);
    }

    // Counts the client as slow.
    pub fn mark_slow(&self, lobby: &Lobby) {
        if !self.is_slow.swap(true, Ordering::SeqCst) {
            lobby.add_slow();
        }
    }

    // Counts the client as slow no longer. Returns whether it was.
    pub fn clear_slow(&self, lobby: &Lobby) -> bool {
        let was = self.is_slow.load(Ordering::SeqCst) && self.is_slow.swap(false, Ordering::SeqCst);
        if was {
            lobby.remove_slow();
        }
        was
    }

    // Notes that the node will neither take nor put anything more, and wakes the porter.
    pub fn release(&self) {
        self.is_released.store(true, Ordering::SeqCst);
        self.ring();
    }

    pub fn is_released(&self) -> bool {
        self.is_released.load(Ordering::SeqCst)
    }

    // Ends the stream in both directions.
    pub fn shut(&self) {
        let _ended = self.stream.shutdown(Shutdown::Both);
    }

    // Ends the stream after the last octet that was written.
    pub fn end_writing(&self) {
        let _ended = self.stream.shutdown(Shutdown::Write);
    }
}
