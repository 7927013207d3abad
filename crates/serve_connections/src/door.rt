// A node's port, and the run of its porter on a thread.
use crate::buffers::Buffers;
use crate::lobby::Lobby;
use crate::node_connection::Arrival;
use crate::porter::Porter;
use mio::Poll;
use rtrb::Producer;
use std::alloc::Global;
use std::io;
use std::net::{Net, TcpListener};
use std::sync::{Arc, Wait};
use std::time::Clock;

/// A node's port, and the poll at which its porter rests.
#[derive(Drop)]
pub struct Door {
    pub(crate) listener: TcpListener,
    pub(crate) poll: Poll,
}

impl Door {
    /// Returns a door over this listener, which no porter serves yet. An error is the system's.
    pub fn over<R: Net>(rt: &R, listener: TcpListener) -> io::Result<Door> {
        let poll = Poll::new(rt)?;
        Ok(Door { listener, poll })
    }
}

/// Runs a node's porter, the one thread of all of its clients: accepts each client that connects, hands its arrival to the node, reads what it
/// sends and writes what it is sent. It waits for all of them at once.
///
/// While 256 connections are open a client is refused by `7F 40 00 00`. At most 64 refused clients have a connection at a time; any further
/// one is closed without an answer. A client that is refused, or closed for its own fault or because memory ran out, is reported in one line on
/// standard error. The porter ends once the node's end of the arrivals is dropped and all connections have ended, at the next client.
///
/// A turn costs an event for each stream to which something has happened and, if the node has rung, some loads for each connection.
pub fn run_porter<R: Wait + Clock + Eprint + Drop>(
    rt: R,
    alloc: Global,
    door: Door,
    lobby: Arc<Lobby, Global>,
    arrivals: Producer<Arrival>,
    node: u8,
) {
    match open(alloc, door, lobby, arrivals, node) {
        Ok(porter) => turn(&rt, porter),
        Err(error) => {
            let _told = eprintln!(rt; "node {node}: no client can be served: {error}");
        }
    }
}

// Returns a porter at this door.
fn open(
    alloc: Global,
    door: Door,
    lobby: Arc<Lobby, Global>,
    arrivals: Producer<Arrival>,
    node: u8,
) -> io::Result<Porter> {
    match Buffers::new(alloc, lobby) {
        Ok(buffers) => Porter::new(door, arrivals, buffers, node),
        Err(_) => {
            drop(door);
            drop(arrivals);
            Err(io::ErrorKind::OutOfMemory.into())
        }
    }
}

// Turns a porter until it is done.
fn turn<R: Wait + Clock + Eprint>(rt: &R, porter: Porter) {
    let mut porter = porter;
    for _ in rt.forever() {
        porter.turn(rt);
        if porter.is_done() {
            break;
        }
    }
}
