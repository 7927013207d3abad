// The buffers of a porter, one set for all of its connections.
use crate::lobby::Lobby;
use client_listener::Parser;
use std::alloc::{AllocError, Global};
use std::sync::Arc;

/// The largest number of octets that one read takes.
const ROOM: usize = 1 << 16;

// What all connections of a porter share: a buffer to read into, a parser of messages, how many octets wait for their streams, how many of
// their requests wait for the node, and where the node rests.
#[derive(Drop)]
pub(crate) struct Buffers {
    pub alloc: Global,
    pub room: Vec<u8>,
    pub parser: Parser,
    pub waiting: usize,
    pub requested: usize,
    pub lobby: Arc<Lobby, Global>,
}

impl Buffers {
    pub fn new(alloc: Global, lobby: Arc<Lobby, Global>) -> Result<Buffers, AllocError> {
        let Ok(room) = Vec::from_elem(alloc, 0, ROOM) else {
            drop(lobby);
            return Err(AllocError);
        };
        Ok(Buffers {
            alloc,
            room,
            parser: Parser::new(alloc),
            waiting: 0,
            requested: 0,
            lobby,
        })
    }
}
