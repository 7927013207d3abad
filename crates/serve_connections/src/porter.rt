// The porter: rests until something happens, accepts clients, and goes on with each of its connections.
use crate::backlog::is_crowded;
use crate::bell::Bell;
use crate::buffers::Buffers;
use crate::door::Door;
use crate::incoming::Incoming;
use crate::lines::{Cause, Lines};
use crate::lobby::ConnectionPermit;
use crate::node_connection::{Arrival, NodeConnection, SAYINGS_WAITING};
use crate::outgoing::Outgoing;
use crate::porter_connection::{Next, PorterConnection};
use crate::requests::open_requests;
use crate::shared::SharedConnection;
use mio::event::Event;
use mio::unix::SourceFd;
use mio::{Events, Interest, Poll, Token};
use rtrb::{Producer, RingBuffer};
use std::alloc::{AllocError, Global};
use std::io;
use std::io::ErrorKind;
use std::net::{SocketAddr, TcpListener, TcpStream};
use std::os::fd::AsRawFd;
use std::sync::Arc;
use std::time::{Clock, Duration, Instant};

/// The tokens of the listener and of the bell; each further one is the number of a connection.
const LISTENER: usize = 0;

const BELL: usize = 1;

const FIRST: usize = 2;

/// How many events the kernel reports at a time, at most.
const EVENTS: usize = 512;

/// How many clients are accepted in a turn at most, and how many connections there are at most, those to be refused among them.
const ADMITTED: u32 = 16;

const MOST_PORTER_CONNECTIONS: usize = 320;

/// The length of a tick in milliseconds, and of the longest rest while a ring is full.
const TICK_MILLIS: u64 = 100;

const FULL_MILLIS: u64 = 1;

// A node's porter: what one thread has of all of the node's connections.
#[derive(Drop)]
pub(crate) struct Porter {
    lines: Lines,
    poll: Poll,
    events: Events,
    bell: Arc<Bell, Global>,
    listener: TcpListener,
    arrivals: Producer<Arrival>,
    // By rising number.
    connections: Vec<PorterConnection>,
    number: usize,
    buffers: Buffers,
    // Whether a client may be there to be accepted, and whether an accept failed since the last tick.
    is_called: bool,
    is_refused: bool,
    // When the next turn is due at the latest: at once, soon, at a tick, or only once something happens.
    is_busy: bool,
    is_soon: bool,
    is_timed: bool,
    ticked: Option<Instant>,
}

// Returns the error of the system that says that memory ran out.
fn no_memory<E: Drop>(error: E) -> io::Error {
    drop(error);
    ErrorKind::OutOfMemory.into()
}

impl Porter {
    // Returns a porter without connections.
    pub fn new(
        door: Door,
        arrivals: Producer<Arrival>,
        buffers: Buffers,
        node: u8,
    ) -> io::Result<Porter> {
        let Door { listener, poll } = door;
        listener.set_nonblocking(true)?;
        let fd = listener.as_raw_fd();
        poll.registry()
            .register(&mut SourceFd(&fd), Token(LISTENER), Interest::READABLE)?;
        let bell = Bell::at(poll.registry(), Token(BELL))?;
        let bell = Arc::new(buffers.alloc, bell).map_err(no_memory)?;
        let events = Events::with_capacity(buffers.alloc, EVENTS).map_err(no_memory)?;
        let connections = Vec::new(buffers.alloc);
        Ok(Porter {
            lines: Lines::new(node),
            poll,
            events,
            bell,
            listener,
            arrivals,
            connections,
            number: FIRST,
            buffers,
            is_called: true,
            is_refused: false,
            is_busy: false,
            is_soon: false,
            is_timed: false,
            ticked: None,
        })
    }

    // Returns whether the node is gone, and all of its connections with it.
    pub fn is_done(&mut self) -> bool {
        self.connections.is_empty() && self.arrivals.is_abandoned()
    }

    // Rests until something happens, accepts clients, and goes on with each connection.
    pub fn turn<R: Clock + Eprint>(&mut self, rt: &R) {
        let is_rung = self.rest(rt);
        note_all(&self.events, &mut self.connections, &mut self.is_called);
        self.tick(rt);
        self.admit_all(rt);
        self.advance_all(rt, is_rung);
    }

    // Rests until something happens or the next turn is due. Returns whether the node has rung.
    fn rest<R: Clock>(&mut self, rt: &R) -> bool {
        let longest = if self.bell.begin_rest() || self.is_busy {
            Some(Duration::ZERO)
        } else if self.is_soon {
            Some(Duration::from_millis(FULL_MILLIS))
        } else if self.is_timed {
            Some(self.left_of_tick(rt))
        } else {
            None
        };
        let _polled = self.poll.poll(&mut self.events, longest);
        self.bell.end_rest()
    }

    // Returns how long the tick goes on that has begun; a whole one if none has, or the clock cannot be read.
    fn left_of_tick<R: Clock>(&self, rt: &R) -> Duration {
        let whole = Duration::from_millis(TICK_MILLIS);
        match (self.ticked, Instant::now(rt)) {
            (Some(ticked), Ok(now)) => whole.saturating_sub(now.saturating_duration_since(ticked)),
            _ => whole,
        }
    }

    // Counts a tick, if ticks are counted and one has passed since the last.
    fn tick<R: Clock + Eprint>(&mut self, rt: &R) {
        if !self.is_timed {
            self.ticked = None;
            return;
        }
        let Ok(now) = Instant::now(rt) else {
            return;
        };
        let Some(ticked) = self.ticked else {
            self.ticked = Some(now);
            return;
        };
        if now.saturating_duration_since(ticked) < Duration::from_millis(TICK_MILLIS) {
            return;
        }
        self.ticked = next_tick(ticked, now);
        self.is_called = self.is_called || self.is_refused;
        self.is_refused = false;
        for connection in &mut self.connections {
            connection.tick();
        }
        self.lines.tick(rt);
    }

    // Accepts the clients that have connected, as long as there is room in the ring of arrivals.
    fn admit_all<R: Eprint>(&mut self, rt: &R) {
        for _ in 0..ADMITTED {
            if !self.is_called || self.arrivals.is_full() {
                return;
            }
            match self.listener.accept() {
                Ok((stream, client)) => {
                    if self.admit(stream, client).is_err() {
                        self.lines.tell(rt, Cause::NoRoom, client);
                    }
                }
                Err(error) => {
                    self.is_called = false;
                    self.is_refused = error.kind() != ErrorKind::WouldBlock;
                }
            }
        }
    }

    // Admits a client that has connected. If no permit is left, the client is refused once it has sent its handshake.
    fn admit(&mut self, stream: TcpStream, client: SocketAddr) -> io::Result<()> {
        if self.arrivals.is_abandoned() || self.connections.len() >= MOST_PORTER_CONNECTIONS {
            return Ok(());
        }
        // Once the node has its end, the connection must find its place: a client whose porter dropped it would wait in vain.
        self.connections.reserve(1).map_err(no_memory)?;
        stream.set_nodelay(true)?;
        stream.set_nonblocking(true)?;
        let number = self.number;
        let fd = stream.as_raw_fd();
        let both = Interest::READABLE | Interest::WRITABLE;
        self.poll
            .registry()
            .register(&mut SourceFd(&fd), Token(number), both)?;
        self.number = number.saturating_add(1);
        let connection = self
            .open_connection(stream, number, client)
            .map_err(no_memory)?;
        self.connections.push(connection).map_err(no_memory)
    }

    // Makes a connection's two ends, and hands the node its own if there is a permit.
    fn open_connection(
        &mut self,
        stream: TcpStream,
        number: usize,
        client: SocketAddr,
    ) -> Result<PorterConnection, AllocError> {
        let alloc = self.buffers.alloc;
        let bell = Arc::try_clone(&self.bell)?;
        let held = NodeConnection::over_shared(alloc, SharedConnection::new(stream, Some(bell)))?;
        let shared = held.shared()?;
        let Some(permit) = ConnectionPermit::take(&self.buffers.lobby)? else {
            return Ok(PorterConnection::new(number, client, None, shared, None, None));
        };
        let (sender, requests) = open_requests(alloc)?;
        let (sayings, from_sayings) = RingBuffer::new(alloc, SAYINGS_WAITING)?;
        announce(
            &mut self.arrivals,
            Arrival {
                requests,
                sayings,
                connection: held,
            },
        );
        self.buffers.lobby.stir();
        let incoming = Incoming::new(alloc, sender);
        let outgoing = Outgoing::new(alloc, from_sayings);
        Ok(PorterConnection::new(
            number,
            client,
            Some(permit),
            shared,
            Some(incoming),
            Some(outgoing),
        ))
    }

    // Goes on with each connection that something has happened to; with all of them if the node has rung, or as many octets of requests wait as
    // may, so that those which the node has taken are no longer counted.
    fn advance_all<R: Eprint>(&mut self, rt: &R, is_rung: bool) {
        self.is_busy = self.is_called && !self.arrivals.is_full();
        self.is_soon = self.is_called;
        self.is_timed = self.is_refused || self.lines.is_timed();
        let concerns_all = is_rung || is_crowded(self.buffers.requested);
        let mut at = 0;
        for _ in 0..self.connections.len() {
            let Some(connection) = self.connections.get_mut(at) else {
                return;
            };
            let next = if concerns_all || connection.is_due() {
                connection.advance(&mut self.buffers)
            } else {
                Next::Rest
            };
            self.is_timed = self.is_timed || connection.is_timed();
            match next {
                Next::Rest => at = at.saturating_add(1),
                Next::Again => {
                    self.is_busy = true;
                    at = at.saturating_add(1);
                }
                Next::Soon => {
                    self.is_soon = true;
                    at = at.saturating_add(1);
                }
                Next::Gone => {
                    report(rt, &mut self.lines, connection);
                    self.is_timed = self.is_timed || self.lines.is_timed();
                    drop(self.connections.remove(at));
                    // The node lets its end go.
                    self.buffers.lobby.stir();
                }
            }
        }
    }
}

// Returns when the tick begins that follows one that began then and has ended: at its end; or now, if that one would have ended, too. So ticks are
// as many as the clock says, but for those in which the thread got no processor.
fn next_tick(ticked: Instant, now: Instant) -> Option<Instant> {
    let tick = Duration::from_millis(TICK_MILLIS);
    match ticked.checked_add(tick) {
        Some(end) if now.saturating_duration_since(end) < tick => Some(end),
        _ => Some(now),
    }
}

// Hands an arrival to the node, whose ring has room.
fn announce(arrivals: &mut Producer<Arrival>, arrival: Arrival) {
    let pushed = arrivals.push(arrival);
    drop(pushed);
}

// Notes what has happened to each connection, and whether a client may be there.
fn note_all(events: &Events, connections: &mut Vec<PorterConnection>, is_called: &mut bool) {
    for event in events.iter() {
        match event.token() {
            Token(LISTENER) => *is_called = true,
            Token(BELL) => {}
            Token(number) => note(connections, number, event),
        }
    }
}

// Notes what has happened to the connection with this number, if it is still there.
fn note(connections: &mut Vec<PorterConnection>, number: usize, event: &Event) {
    let Ok(permit) = connections.binary_search_by_key(&number, |connection| connection.number())
    else {
        return;
    };
    if let Some(connection) = connections.get_mut(permit) {
        let is_ending = event.is_error() || event.is_read_closed();
        connection.on_ready(event.is_readable(), event.is_writable(), is_ending);
    }
}

// Says why a client was refused or closed, if that is to be said.
fn report<R: Eprint>(rt: &R, lines: &mut Lines, connection: &PorterConnection) {
    if let Some(cause) = connection.cause() {
        lines.tell(rt, cause, connection.client());
    }
}
