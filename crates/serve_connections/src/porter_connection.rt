// The porter's end of a client's connection, from the handshake to the end.
use crate::buffers::Buffers;
use crate::due::Ticks;
use crate::incoming::{Incoming, Inward};
use crate::lines::Cause;
use crate::lobby::ConnectionPermit;
use crate::outgoing::{Outgoing, Outward};
use crate::shared::SharedConnection;
use client_listener::{ListenFault, answer_handshake};
use std::alloc::Global;
use std::io::{ErrorKind, Read};
use std::net::SocketAddr;
use std::sync::Arc;

/// How many ticks of 100 ms a client has for its handshake; a client that was refused, to end the connection; and a client that is closed.
const GREETING_TICKS: u32 = 100;

const REFUSED_TICKS: u32 = 10;

const CLOSING_TICKS: u32 = 20;

// How far a connection is.
#[derive(Clone, Copy, Drop)]
enum Stage {
    // `count` octets of its handshake came.
    Greeting { octets: [u8; 4], count: usize },
    // Its client is served.
    Open,
    // Its client was refused; the connection stays open briefly so that the client can read the refusal.
    Refused,
}

// When a connection goes on: once something happens, at once, soon, or never.
#[derive(Clone, Copy, Drop)]
pub(crate) enum Next {
    Rest,
    Again,
    Soon,
    Gone,
}

// A connection as its porter has it.
#[derive(Drop)]
pub(crate) struct PorterConnection {
    number: usize,
    client: SocketAddr,
    permit: Option<ConnectionPermit>,
    shared: Arc<SharedConnection, Global>,
    stage: Stage,
    incoming: Option<Incoming>,
    outgoing: Option<Outgoing>,
    fault: Option<ListenFault>,
    // Why it ran out of ticks, if it did once its client was served.
    late: Option<Cause>,
    is_readable: bool,
    is_writable: bool,
    // Whether the stream has reported its end, which it may do before all that was sent is read.
    is_ending: bool,
    is_due: bool,
    // How many octets of its requests are counted as waiting, once nothing more comes.
    left_behind: usize,
    // The ticks that are left.
    ticks: Ticks,
}

impl PorterConnection {
    // Returns a connection that came, with the ends of its rings if it got a permit.
    pub fn new(
        number: usize,
        client: SocketAddr,
        permit: Option<ConnectionPermit>,
        shared: Arc<SharedConnection, Global>,
        incoming: Option<Incoming>,
        outgoing: Option<Outgoing>,
    ) -> PorterConnection {
        PorterConnection {
            number,
            client,
            permit,
            shared,
            stage: Stage::Greeting {
                octets: [0; 4],
                count: 0,
            },
            incoming,
            outgoing,
            fault: None,
            late: None,
            is_readable: true,
            is_writable: true,
            is_ending: false,
            is_due: true,
            left_behind: 0,
            ticks: Ticks::of_stage(GREETING_TICKS),
        }
    }

    pub fn number(&self) -> usize {
        self.number
    }

    // Returns whether it has something to do though the node has not rung.
    pub fn is_due(&self) -> bool {
        self.is_due
    }

    // Returns whether ticks are counted.
    pub fn is_timed(&self) -> bool {
        self.ticks.left().is_some()
    }

    // Returns where its client is.
    pub fn client(&self) -> SocketAddr {
        self.client
    }

    // Returns why it ended, if that is to be said. Without a permit it was refused.
    pub fn cause(&self) -> Option<Cause> {
        if self.permit.is_none() {
            return Some(Cause::Full);
        }
        if self.late.is_some() {
            return self.late;
        }
        match self.fault {
            Some(fault) => Cause::of(fault),
            None => None,
        }
    }

    // Notes that the stream may have something to read, or room to write, or has reported its end.
    pub fn on_ready(&mut self, is_readable: bool, is_writable: bool, is_ending: bool) {
        self.is_readable = self.is_readable || is_readable || is_ending;
        self.is_writable = self.is_writable || is_writable || is_ending;
        self.is_ending = self.is_ending || is_ending;
        self.is_due = true;
    }

    // Counts a tick. After the last one the stream ends. If much waits for the client a write is tried at each: the kernel reports room only
    // once a part of its buffer is free.
    pub fn tick(&mut self) {
        let Some(left) = self.ticks.left() else {
            return;
        };
        if left > 0 {
            self.ticks.pass();
            if self.ticks.counts_untaken() {
                self.on_ready(false, true, false);
            }
            return;
        }
        let late = self.lateness();
        self.late = self.late.or(late);
        self.ticks = Ticks::of_nothing();
        self.shared.shut();
        self.on_ready(true, true, true);
    }

    // Returns why a client has no ticks left, if it is served.
    fn lateness(&self) -> Option<Cause> {
        if self.ticks.is_untaken_over() {
            return Some(Cause::Untaken);
        }
        match &self.incoming {
            Some(incoming) if self.ticks.is_owed_over() => Some(incoming.late()),
            _ => None,
        }
    }

    // Goes on as far as it can without waiting.
    pub fn advance(&mut self, buffers: &mut Buffers) -> Next {
        let next = match self.stage {
            Stage::Greeting { octets, count } => self.greet(octets, count, buffers),
            Stage::Open => self.serve(buffers),
            Stage::Refused => self.drain(buffers),
        };
        self.is_due = !matches!(next, Next::Rest);
        next
    }

    // Reads more of the handshake, and answers it once it is whole.
    fn greet(&mut self, octets: [u8; 4], count: usize, buffers: &mut Buffers) -> Next {
        if !self.is_readable {
            return Next::Rest;
        }
        let mut octets = octets;
        let count = count.min(4);
        let mut stream = self.shared.stream();
        match stream.read(&mut octets[count..]) {
            Ok(0) => {
                self.fault = Some(ListenFault::Handshake);
                self.leave()
            }
            Ok(read) => self.on_handshake(octets, count.saturating_add(read), buffers),
            Err(error) if error.kind() == ErrorKind::WouldBlock => {
                self.is_readable = false;
                Next::Rest
            }
            Err(error) if error.kind() == ErrorKind::Interrupted => Next::Again,
            Err(_) => self.leave(),
        }
    }

    // Answers the handshake once its four octets are there.
    fn on_handshake(&mut self, octets: [u8; 4], count: usize, buffers: &mut Buffers) -> Next {
        if count < 4 {
            self.stage = Stage::Greeting { octets, count };
            return Next::Again;
        }
        let mut stream = self.shared.stream();
        match answer_handshake(&mut stream, octets, self.permit.is_some()) {
            Ok(limit) => self.open(limit, buffers),
            Err(fault) => self.refuse(fault, buffers),
        }
    }

    // Serves the client from now on.
    fn open(&mut self, limit: u32, buffers: &mut Buffers) -> Next {
        if let Some(outgoing) = &mut self.outgoing {
            outgoing.open(limit);
        }
        self.stage = Stage::Open;
        self.ticks = Ticks::of_nothing();
        self.serve(buffers)
    }

    // Refuses the client, and gives it time to read the refusal: a stream that is closed with octets unread takes back what was written.
    fn refuse(&mut self, fault: ListenFault, buffers: &mut Buffers) -> Next {
        self.fault = Some(fault);
        drop(self.incoming.take());
        drop(self.outgoing.take());
        buffers.lobby.stir();
        self.shared.end_writing();
        self.stage = Stage::Refused;
        self.ticks = Ticks::of_stage(REFUSED_TICKS);
        Next::Again
    }

    // Reads and drops what comes, until the client has ended the connection.
    fn drain(&mut self, buffers: &mut Buffers) -> Next {
        if !self.is_readable {
            return Next::Rest;
        }
        let mut stream = self.shared.stream();
        match stream.read(buffers.room.as_mut_slice()) {
            Ok(0) => self.leave(),
            Ok(_) => Next::Again,
            Err(error) if error.kind() == ErrorKind::WouldBlock => {
                self.is_readable = false;
                Next::Rest
            }
            Err(error) if error.kind() == ErrorKind::Interrupted => Next::Again,
            Err(_) => self.leave(),
        }
    }

    // Writes what the client is sent, and puts what it sends.
    fn serve(&mut self, buffers: &mut Buffers) -> Next {
        let sent = self.send(buffers);
        let received = self.receive(buffers);
        if self.outgoing.is_none() {
            self.shared.clear_slow(&buffers.lobby);
        }
        if self.incoming.is_none() && self.outgoing.is_none() {
            buffers.requested = buffers.requested.saturating_sub(self.left_behind);
            return self.leave();
        }
        match (sent, received) {
            (Next::Again, _) | (_, Next::Again) => Next::Again,
            (_, received) => received,
        }
    }

    // Writes what the client is sent.
    fn send(&mut self, buffers: &mut Buffers) -> Next {
        let Some(outgoing) = &mut self.outgoing else {
            return Next::Rest;
        };
        let course = outgoing.advance(&self.shared, &mut self.is_writable, buffers);
        self.ticks.write(outgoing.waiting(), outgoing.has_written());
        match course {
            Outward::Written => Next::Rest,
            Outward::More => Next::Again,
            Outward::Closed => {
                drop(self.outgoing.take());
                self.shared.end_writing();
                self.ticks = Ticks::of_stage(CLOSING_TICKS);
                Next::Rest
            }
            Outward::Over => {
                self.fault = self.fault.or(outgoing.fault());
                buffers.waiting = buffers.waiting.saturating_sub(outgoing.waiting());
                drop(self.outgoing.take());
                self.ticks = Ticks::of_nothing();
                self.shared.shut();
                self.on_ready(true, true, true);
                Next::Again
            }
        }
    }

    // Puts what the client sends.
    fn receive(&mut self, buffers: &mut Buffers) -> Next {
        let Some(incoming) = &mut self.incoming else {
            return Next::Rest;
        };
        incoming.count_waiting(buffers);
        if !self.is_readable && !incoming.is_full() && !self.shared.is_released() {
            return Next::Rest;
        }
        let came = incoming.advance(&self.shared, &mut self.is_readable, buffers);
        self.is_readable = self.is_readable || self.is_ending;
        // A client that is closed has ticks of its own.
        if self.outgoing.is_some() {
            match came {
                Inward::Put => incoming.note_read(&mut self.ticks),
                Inward::Full | Inward::Done => self.ticks.pause(),
            }
        }
        let next = match came {
            Inward::Put if self.is_readable => Next::Again,
            Inward::Put => Next::Rest,
            Inward::Full => {
                self.shared.want_room();
                Next::Soon
            }
            Inward::Done => {
                self.fault = incoming.fault().or(self.fault);
                self.left_behind = incoming.octets();
                drop(self.incoming.take());
                Next::Rest
            }
        };
        buffers.lobby.stir();
        next
    }

    // Ends the connection.
    fn leave(&mut self) -> Next {
        self.shared.shut();
        Next::Gone
    }
}
