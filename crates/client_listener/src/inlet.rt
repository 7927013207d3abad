// From octets of one client to items in a ring, in steps that wait for nothing.
ghost use Rattle.std.specs.Prelude.{◌≡◌, ◌<◌, ◌++◌, [], ◌∷◌, ℕ, List, None, Some, Ok, Err, false, true, IfErr, IfSome, OnOk, MatchOption, IsOkUnless};
ghost use Rattle.std.specs.Bool.{OnTrue};
ghost use Rattle.std.specs.Option.{option_to_list};
ghost use Rattle.rtrb.specs.Ring.{sent, known_free, SameProducer};
ghost use Rattle.client_listener.specs.Items.{item_of, held_len, Takes, Makes};
ghost use Rattle.client_listener.specs.Inlet.{Inflow, PutsOn, CutsOn, KeepsRoom};
ghost use Rattle.client_listener.specs.declared.items.FromClient.TheVariants.{Hung};

use crate::fault::ListenFault;
use crate::items::FromClient;
use rtrb::{Producer, PushError};
use std::alloc::Global;
use std::marker::Model;
use std::mem;
use wamp_messages::{Parser, read_by};
use wamp_rawsocket::{Frame, FrameFault, FrameKind, Splitter};

/// What a client has sent that is not in its node's ring yet, for a thread that serves many clients and waits for none of them:
/// octets that are no whole frame, and an item that found the ring full. A clause sees both, and the fault by which it failed.
///
/// In whatever order octets are fed and items are put, what is put are the items of [`put_transport`](crate::put_transport), each once and in
/// order. A fault of [`Inlet::feed`] or [`Inlet::put`] ends this: each later call of the two returns the same fault, and does nothing.
pub struct Inlet {
    splitter: Splitter,
    // What is put next.
    next: Option<FromClient>,
    // Why it failed, if it has.
    fault: Option<ListenFault>,
}

impl Drop for Inlet {
    fn drop(self) {
        let Inlet {
            splitter: _splitter,
            next: _next,
            fault: _,
        } = self;
    }
}

impl Model for Inlet {
    ghost use Rattle.std.specs.Coded.{codes};
    ghost use Rattle.wamp_values.specs.Payload.{coded_data};
    ghost use Rattle.client_listener.specs.Pending.{Pending};

    ghost Value = { Pending };

    ghost coded = { Prim.hlevel (codes, coded_data) };

    ghost view = { λ inlet. record { held = inlet.splitter; next = inlet.next; fault = inlet.fault } };
}

impl Inlet {
    /// Makes an inlet that has read nothing; `Connect` is put first. It does not allocate.
    pub fn new(alloc: Global) -> Inlet
        ensures { (before : List FromClient) → Inflow [] before before result }
    {
        Inlet {
            splitter: Splitter::new(alloc),
            next: Some(FromClient::Connect),
            fault: None,
        }
    }

    /// Holds octets that were read after the others, at the cost of a copy. `Memory` if memory for them ran out; an inlet that failed
    /// before returns its fault.
    pub fn feed(&mut self, octets: &[u8]) -> Result<(), ListenFault>
        ensures fed { OnOk result ((read : List ℕ) (before after : List FromClient)
            → Inflow read before after self.old → Inflow (read ++ octets.now) before after self.new) }
        ensures fails { IfErr result (λ fault. self.new.fault ≡ Some fault) }
        ensures refused { MatchOption self.old.fault (IsOkUnless result ListenFault.Memory)
            (λ fault. (result ≡ Err fault) × (self.new ≡ self.old)) }
    {
        if let Some(fault) = self.fault {
            return Err(fault);
        }
        if self.splitter.feed(octets).is_err() {
            self.fault = Some(ListenFault::Memory);
            return Err(ListenFault::Memory);
        }
        Ok(())
    }

    /// Puts the items of all whole frames into a ring, as far as it has room. Returns whether all are put; if not, the producer knows of no
    /// free slot.
    ///
    /// `Frame` for what is no frame: the items of all frames before it are put. `Memory` if memory ran out: what was put is a prefix of what
    /// is due. An inlet that failed before returns its fault, and puts nothing. It costs what its items cost, and allocates for one message
    /// at a time. (WAMP specification, "RawSocket Transport".)
    pub fn put(
        &mut self,
        parser: &mut Parser,
        producer: &mut Producer<FromClient>,
    ) -> Result<bool, ListenFault>
        ensures puts { (read : List ℕ) (before : List FromClient)
            → Inflow read before (sent producer.old) self.old → PutsOn result read before (sent producer.new) self.new }
        ensures full { result ≡ Ok false → known_free producer.new ≡ 0 }
        ensures fails { IfErr result (λ fault. self.new.fault ≡ Some fault) }
        ensures refused { IfSome self.old.fault (λ fault.
            (result ≡ Err fault) × (self.new ≡ self.old) × (sent producer.new ≡ sent producer.old)) }
        ensures room { KeepsRoom producer.old producer.new }
        ensures ring { SameProducer producer.old producer.new }
    {
        if let Some(fault) = self.fault {
            return Err(fault);
        }
        'items: loop {
            if !push(&mut self.next, producer) {
                return Ok(false);
            }
            match self.cut(parser) {
                Ok(true) => {}
                Ok(false) => return Ok(true),
                Err(fault) => {
                    self.fault = Some(fault);
                    return Err(fault);
                }
            }
        }
    }

    /// Puts `Hung`, for a client from which nothing more comes. All that is due is put then, if [`Inlet::put`] returned `Ok(true)` or `Frame`
    /// before. Returns whether it is put; if not, the producer knows of no free slot.
    pub fn hang(&self, producer: &mut Producer<FromClient>) -> bool
        ensures puts { OnTrue result (sent producer.new ≡ sent producer.old ++ Hung ∷ []) }
        ensures full { result ≡ false → (sent producer.new ≡ sent producer.old) × (known_free producer.new ≡ 0) }
        ensures room { KeepsRoom producer.old producer.new }
        ensures ring { SameProducer producer.old producer.new }
    {
        let mut last = Some(FromClient::Hung);
        let done = push(&mut last, producer);
        drop(last);
        done
    }

    // Takes the next whole frame, so that its item is put next. Returns whether there was one.
    fn cut(&mut self, parser: &mut Parser) -> Result<bool, ListenFault>
        ensures cuts { (read : List ℕ) (before after : List FromClient)
            → self.old.next ≡ None → Inflow read before after self.old → CutsOn result read before after self.new }
        ensures shrinks { result ≡ Ok true → held_len self.new.held < held_len self.old.held }
    {
        let Some(frame) = next_frame(&mut self.splitter)? else {
            return Ok(false);
        };
        let item = item_for(parser, frame)?;
        drop(mem::replace(&mut self.next, item));
        Ok(true)
    }
}

// Puts an item that waits, if one does and the ring has room. Returns whether none waits any more. It is generic in the item, so that no exit
// drops one of many variants.
fn push<T: Drop>(waiting: &mut Option<T>, producer: &mut Producer<T>) -> bool
    ensures none { OnTrue result (waiting.new ≡ None) }
    ensures full { result ≡ false
        → (waiting.new ≡ waiting.old) × (sent producer.new ≡ sent producer.old) × (known_free producer.new ≡ 0) }
    ensures put { OnTrue result (sent producer.new ≡ sent producer.old ++ option_to_list waiting.old) }
    ensures room { KeepsRoom producer.old producer.new }
    ensures ring { SameProducer producer.old producer.new }
{
    let Some(item) = waiting.take() else {
        return true;
    };
    match producer.push(item) {
        Ok(()) => true,
        Err(PushError::Full(back)) => {
            *waiting = Some(back);
            false
        }
    }
}

// Takes the next whole frame that a splitter holds. `None` if it holds no whole one.
fn next_frame(splitter: &mut Splitter) -> Result<Option<Frame>, ListenFault>
    ensures { Takes result splitter.old splitter.new }
{
    match splitter.next() {
        Ok(next) => Ok(next),
        Err(FrameFault::Memory) => Err(ListenFault::Memory),
        Err(_) => Err(ListenFault::Frame),
    }
}

// Makes the item that is put for a frame. `None` if none is.
fn item_for(parser: &mut Parser, frame: Frame) -> Result<Option<FromClient>, ListenFault>
    ensures { Makes result (item_of frame.kind frame.payload) }
{
    match frame.kind {
        FrameKind::Message => Ok(Some(FromClient::Read(read_by(
            parser,
            frame.payload.as_slice(),
        )?))),
        FrameKind::Ping => Ok(Some(FromClient::Ping(frame.payload))),
        FrameKind::Pong => Ok(None),
    }
}
