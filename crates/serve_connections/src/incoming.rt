// The way in of a connection: from the client's stream into the ring of its requests.
use crate::backlog::{count, has_room};
use crate::buffers::Buffers;
use crate::due::{Course, Ticks};
use crate::lines::Cause;
use crate::requests::RequestSender;
use crate::shared::SharedConnection;
use client_listener::{Inlet, ListenFault};
use std::alloc::Global;
use std::io::{ErrorKind, Read};

// How far what a client sends has come: all that is there was put, or its ring is full, or nothing more comes.
#[derive(Clone, Copy, Drop)]
pub(crate) enum Inward {
    Put,
    Full,
    Done,
}

// What a client sends, on its way into its node's ring.
#[derive(Drop)]
pub(crate) struct Incoming {
    inlet: Inlet,
    requests: RequestSender,
    // How many octets were read since the ring was found empty.
    octets: usize,
    // How far what came has come in frames, and whether octets came since the ticks were counted last.
    course: Course,
    has_come: bool,
    // Whether something waits for room in the ring. At first that is `Connect`.
    is_full: bool,
    // Whether nothing more is read, and whether memory ran out, so that nothing more is put either.
    is_ended: bool,
    is_lost: bool,
    fault: Option<ListenFault>,
}

impl Incoming {
    // Returns the way in of a connection before its first octet. Does not allocate.
    pub fn new(alloc: Global, requests: RequestSender) -> Incoming {
        Incoming {
            inlet: Inlet::new(alloc),
            requests,
            octets: 0,
            course: Course::new(),
            has_come: false,
            is_full: true,
            is_ended: false,
            is_lost: false,
            fault: None,
        }
    }

    // Returns why nothing more comes, if the stream did not simply end.
    pub fn fault(&self) -> Option<ListenFault> {
        self.fault
    }

    // Returns how many octets are counted as waiting for the node.
    pub fn octets(&self) -> usize {
        self.octets
    }

    // Notes what the client owes, all that came of it being read.
    pub fn note_read(&mut self, ticks: &mut Ticks) {
        let came = self.has_come;
        self.has_come = false;
        ticks.read(self.course.has_spoken(), self.course.is_within(), came);
    }

    // Returns what a client that is served owes if it has no ticks left: its first message, or the rest of a frame.
    pub fn late(&self) -> Cause {
        if self.course.has_spoken() {
            Cause::NoMore
        } else {
            Cause::NoHello
        }
    }

    // Counts the octets that wait, by whether the node has taken all that is in the ring.
    pub fn count_waiting(&mut self, buffers: &mut Buffers) {
        if self.octets > 0 {
            let left = count(self.octets, self.requests.count_waiting());
            buffers.requested = buffers
                .requested
                .saturating_sub(self.octets.saturating_sub(left));
            self.octets = left;
        }
    }

    // Returns whether something waits for room in the ring.
    pub fn is_full(&self) -> bool {
        self.is_full
    }

    // Reads once, if something may be there to be read, and puts what came. Notes in `is_readable` whether more may be there.
    pub fn advance(
        &mut self,
        shared: &SharedConnection,
        is_readable: &mut bool,
        buffers: &mut Buffers,
    ) -> Inward {
        if self.is_full && !self.put(buffers) {
            return self.wait();
        }
        if shared.is_released() {
            self.is_ended = true;
        }
        if !self.is_ended && *is_readable {
            if !has_room(self.octets, buffers.requested) {
                return self.wait();
            }
            *is_readable = self.read(shared, buffers);
            if !self.put(buffers) {
                return self.wait();
            }
        }
        if self.is_lost {
            return Inward::Done;
        }
        if !self.is_ended {
            return Inward::Put;
        }
        if self.requests.hang(&self.inlet) {
            return Inward::Done;
        }
        self.is_full = true;
        self.wait()
    }

    // Waits for room, unless the node is gone, so that no room will come.
    fn wait(&mut self) -> Inward {
        if self.requests.is_abandoned() {
            Inward::Done
        } else {
            Inward::Full
        }
    }

    // Puts what waits. Returns whether there was room for all of it.
    fn put(&mut self, buffers: &mut Buffers) -> bool {
        match self.requests.put(&mut self.inlet, &mut buffers.parser) {
            Ok(done) => {
                self.is_full = !done;
                done
            }
            Err(fault) => {
                self.is_full = false;
                self.fail(fault);
                true
            }
        }
    }

    // Reads once. Returns whether more may be there: after a read that did not fill its buffer nothing is, until the stream reports more.
    fn read(&mut self, shared: &SharedConnection, buffers: &mut Buffers) -> bool {
        let mut stream = shared.stream();
        match stream.read(buffers.room.as_mut_slice()) {
            Ok(0) => {
                self.is_ended = true;
                false
            }
            Ok(count) => {
                self.octets = self.octets.saturating_add(count);
                self.has_come = true;
                self.course.pass(&buffers.room.as_slice()[..count]);
                buffers.requested = buffers.requested.saturating_add(count);
                if let Err(fault) = self.inlet.feed(&buffers.room.as_slice()[..count]) {
                    self.fail(fault);
                }
                count == buffers.room.len()
            }
            Err(error) if error.kind() == ErrorKind::WouldBlock => false,
            Err(error) if error.kind() == ErrorKind::Interrupted => true,
            Err(_) => {
                self.fail(ListenFault::Read);
                false
            }
        }
    }

    // Ends the way in by this fault. If memory ran out nothing more is put either, and the node takes `Hung` by itself.
    fn fail(&mut self, fault: ListenFault) {
        self.is_ended = true;
        self.is_lost = self.is_lost || fault == ListenFault::Memory;
        self.fault = self.fault.or(Some(fault));
    }
}
