// The way out of a connection: from the ring of sayings to the client's stream.
use crate::allowance::may_take;
use crate::buffers::Buffers;
use crate::shared::SharedConnection;
use client_listener::{ListenFault, Outbox, ToClient};
use rtrb::Consumer;
use std::alloc::Global;
use std::collections::VecDeque;
use std::io::ErrorKind;

/// How many times sayings are taken in a row at most, and after how many octets an outbox is full.
const MOST_GATHERED: u8 = 32;

const FULL: usize = 1 << 16;

// How far the way out has come: what can be written is, or more can be at once, or all is written up to a `Close`, or nothing more is
// written.
#[derive(Clone, Copy, Drop)]
pub(crate) enum Outward {
    Written,
    More,
    Closed,
    Over,
}

// What a client is sent, on its way from its node's ring to its stream.
#[derive(Drop)]
pub(crate) struct Outgoing {
    alloc: Global,
    limit: u32,
    // What is written next, what waits after it, and how many octets that is in all.
    outbox: Outbox,
    later: VecDeque<Outbox>,
    waiting: usize,
    sayings: Consumer<ToClient>,
    // Whether a `Close` was taken, and whether nothing more is taken for a fault.
    is_closed: bool,
    fault: Option<ListenFault>,
    // Whether the stream took something when that was tried last.
    has_written: bool,
}

impl Outgoing {
    // Returns the way out to a client that has not said yet what payloads it takes. Does not allocate.
    pub fn new(alloc: Global, sayings: Consumer<ToClient>) -> Outgoing {
        Outgoing {
            alloc,
            limit: 0,
            outbox: Outbox::new(alloc, 0),
            later: VecDeque::new(alloc),
            waiting: 0,
            sayings,
            is_closed: false,
            fault: None,
            has_written: false,
        }
    }

    // Notes that the client takes payloads of up to `limit` octets.
    pub fn open(&mut self, limit: u32) {
        self.limit = limit;
        self.outbox = Outbox::new(self.alloc, limit);
    }

    // Returns why nothing more is written, if that is a fault.
    pub fn fault(&self) -> Option<ListenFault> {
        self.fault
    }

    // Returns how many octets wait for the stream.
    pub fn waiting(&self) -> usize {
        self.waiting
    }

    // Returns whether the client took something as it was written to last.
    pub fn has_written(&self) -> bool {
        self.has_written
    }

    // Takes the sayings that are there, as far as they may wait, and writes once if the stream has room. Notes whether it still has.
    pub fn advance(
        &mut self,
        shared: &SharedConnection,
        is_writable: &mut bool,
        buffers: &mut Buffers,
    ) -> Outward {
        // After it has released the connection the node puts nothing more.
        let is_released = shared.is_released();
        let before = self.waiting;
        self.gather_all(buffers.waiting.saturating_sub(before));
        let written = self.write(shared, is_writable);
        buffers.waiting = buffers
            .waiting
            .saturating_sub(before)
            .saturating_add(self.waiting);
        let is_empty = self.sayings.is_empty();
        if is_empty {
            shared.clear_slow(&buffers.lobby);
        }
        match written {
            Ok(()) => self.course(is_released, is_empty, *is_writable),
            Err(ErrorKind::Interrupted) => Outward::More,
            Err(_) => {
                self.fault = self.fault.or(Some(ListenFault::Write));
                Outward::Over
            }
        }
    }

    // Returns how far it has come, by whether the node has released the connection, the ring is empty, and the stream has room.
    fn course(&self, is_released: bool, is_empty: bool, is_writable: bool) -> Outward {
        if self.waiting > 0 {
            return if is_writable {
                Outward::More
            } else {
                Outward::Written
            };
        }
        if self.is_closed {
            return Outward::Closed;
        }
        if self.fault.is_some() {
            return Outward::Over;
        }
        if !is_empty {
            return Outward::More;
        }
        if is_released {
            Outward::Over
        } else {
            Outward::Written
        }
    }

    // Takes the sayings that are there, as far as they may wait while `others` octets wait for the other clients.
    fn gather_all(&mut self, others: usize) {
        for _ in 0..MOST_GATHERED {
            let in_all = others.saturating_add(self.waiting);
            if self.is_closed || self.fault.is_some() || !may_take(self.waiting, in_all) {
                return;
            }
            if let Err(fault) = self.gather() {
                self.fault = Some(fault);
            }
            // The ring had no more.
            if self.last_len() <= FULL {
                return;
            }
        }
    }

    // Takes sayings into the last outbox, or into one more if that is full.
    fn gather(&mut self) -> Result<(), ListenFault> {
        if self.last_len() > FULL {
            let next = Outbox::new(self.alloc, self.limit);
            if self.later.push_back(next).is_err() {
                return Err(ListenFault::Memory);
            }
        }
        let before = self.last_len();
        let gathered = match self.later.back_mut() {
            Some(last) => last.gather(&mut self.sayings),
            None => self.outbox.gather(&mut self.sayings),
        };
        let more = self.last_len().saturating_sub(before);
        self.waiting = self.waiting.saturating_add(more);
        self.is_closed = !gathered?;
        Ok(())
    }

    // Returns how many octets wait in the last outbox.
    fn last_len(&self) -> usize {
        match self.later.back() {
            Some(last) => last.len(),
            None => self.outbox.len(),
        }
    }

    // Writes once, if something waits and the stream has room.
    fn write(
        &mut self,
        shared: &SharedConnection,
        is_writable: &mut bool,
    ) -> Result<(), ErrorKind> {
        self.has_written = false;
        if self.waiting == 0 || !*is_writable {
            return Ok(());
        }
        let before = self.outbox.len();
        let mut stream = shared.stream();
        match self.outbox.write_some(&mut stream) {
            Ok(()) => {}
            Err(error) if error.kind() == ErrorKind::WouldBlock => {
                *is_writable = false;
                return Ok(());
            }
            Err(error) => return Err(error.kind()),
        }
        let left = self.outbox.len();
        self.has_written = left < before;
        self.waiting = self.waiting.saturating_sub(before.saturating_sub(left));
        *is_writable = left == 0;
        if left == 0
            && let Some(next) = self.later.pop_front()
        {
            self.outbox = next;
        }
        Ok(())
    }
}
