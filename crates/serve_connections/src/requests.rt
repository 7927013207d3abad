// The ring of a client's requests, and a second ring by which the porter shows the node which one was the last.
ghost use Rattle.std.specs.Prelude.{◌≡◌, ◌<◌, ◌-◌, ◌++◌, ◌∷◌, [], ℕ, List, length, Ok, Some, false, IfOk, IfErr, MatchBool, MatchOption};
ghost use Rattle.std.specs.Option.{ForSome};
ghost use Rattle.std.specs.Bool.{OnTrue};
ghost use Rattle.std.specs.declared.alloc.Global.{Global};
ghost use Rattle.rtrb.specs.declared.consumer.Consumer.{Consumer};
ghost use Rattle.rtrb.specs.declared.AnyItems.{AnyItems};
ghost use Rattle.rtrb.specs.Ring.{sent, received, known_free, known_items, IsPair, IsFinishedOf, SameProducer, SameConsumer};
ghost use Rattle.client_listener.specs.Inlet.{Inflow, PutsOn};
ghost use Rattle.client_listener.specs.declared.items.FromClient.TheVariants.{Connect, Ping, Hung};
ghost use Rattle.serve_connections.specs.Handing.{MayCome};
ghost use Rattle.serve_connections.specs.Requests.{HandsOver, IsHanded, Finds};

use client_listener::{Bytes, FromClient, Inlet, ListenFault, Parser};
use rtrb::{Consumer, Finished, Producer, Protocol, RingBuffer};
use std::alloc::{AllocError, Global};

/// How many of a client's requests, all that it sends, may wait for its node.
pub const REQUESTS_WAITING: usize = 64;

// What a porter hands to its node in a second ring: the node's end of the ring of requests, and, once the porter has put the last request, what
// shows all that it put.
#[derive(Drop)]
pub(crate) enum Handed {
    Ring(Consumer<FromClient>),
    Last(Finished<FromClient>),
}

// The rule of that ring: a `Last` is that of the ring which was handed over first.
#[derive(Clone, Copy)]
pub(crate) struct OneRing;

impl Protocol<Handed> for OneRing {
    ghost allows = { MayCome };
}

/// The porter's end of a connection's requests. When it is dropped, the node's end learns which request was the last.
pub struct RequestSender {
    ring: Producer<FromClient>,
    handing: Producer<Handed, Global, OneRing>,
    ghost one: { HandsOver ring handing },
}

/// The node's end of a connection's requests. No call of it allocates or waits.
#[derive(Drop)]
pub struct RequestReceiver {
    ring: Consumer<FromClient>,
    handed: Consumer<Handed, Global, OneRing>,
    // What shows all that was put, once the porter has put the last request.
    last: Option<Finished<FromClient>>,
    ghost one: { IsHanded ring handed },
    ghost of_ring: { ForSome last (λ finished. IsFinishedOf finished ring) },
}

/// What a node finds of a connection's requests: nothing yet, the next one, or that no other will come.
#[derive(Drop)]
pub enum Found {
    Nothing,
    Request(FromClient),
    End,
}

/// Makes the two ends of a connection's requests, of which [`REQUESTS_WAITING`] may wait.
pub fn open_requests(alloc: Global) -> Result<(RequestSender, RequestReceiver), AllocError>
    ensures pair { IfOk result (λ ends. IsPair ends.0.ring ends.1.ring) }
    ensures empty { IfOk result (λ ends. (sent ends.0.ring ≡ []) × (received ends.1.ring ≡ [])) }
{
    let (ring, node_ring) = RingBuffer::new(alloc, REQUESTS_WAITING)?;
    let (mut handing, mut handed) = RingBuffer::with_protocol::<Global, OneRing>(alloc, 2)?;
    handing.push_reserved(Handed::Ring(node_ring));
    handed.slots_beside(&mut handing);
    let Handed::Ring(node_ring) = handed.pop_known() else {
        unreachable!()
    };
    let sender = RequestSender { ring, handing };
    let receiver = RequestReceiver {
        ring: node_ring,
        handed,
        last: None,
    };
    Ok((sender, receiver))
}

impl RequestSender {
    /// Puts the items of all whole frames that the inlet holds, with the results of [`Inlet::put`].
    pub fn put(&mut self, inlet: &mut Inlet, parser: &mut Parser) -> Result<bool, ListenFault>
        ensures puts { (read : List ℕ) (before : List FromClient)
            → Inflow read before (sent self.old.ring) inlet.old → PutsOn result read before (sent self.new.ring) inlet.new }
        ensures full { result ≡ Ok false → known_free self.new.ring ≡ 0 }
        ensures fails { IfErr result (λ fault. inlet.new.fault ≡ Some fault) }
        ensures ring { SameProducer self.old.ring self.new.ring }
    {
        inlet.put(parser, &mut self.ring)
    }

    /// Puts `Hung`, with the results of [`Inlet::hang`].
    pub fn hang(&mut self, inlet: &Inlet) -> bool
        ensures puts { OnTrue result (sent self.new.ring ≡ sent self.old.ring ++ Hung ∷ []) }
        ensures full { result ≡ false → (sent self.new.ring ≡ sent self.old.ring) × (known_free self.new.ring ≡ 0) }
        ensures ring { SameProducer self.old.ring self.new.ring }
    {
        inlet.hang(&mut self.ring)
    }

    /// Returns how many requests wait in the ring.
    pub fn count_waiting(&mut self) -> usize
        ensures count { result ≡ 64 - known_free self.new.ring }
        ensures sent { sent self.new.ring ≡ sent self.old.ring }
        ensures ring { SameProducer self.old.ring self.new.ring }
    {
        REQUESTS_WAITING.saturating_sub(self.ring.slots())
    }

    /// Returns whether the node's end was dropped.
    pub fn is_abandoned(&mut self) -> bool
        ensures sent { sent self.new.ring ≡ sent self.old.ring }
        ensures ring { SameProducer self.old.ring self.new.ring }
    {
        self.ring.is_abandoned()
    }
}

impl Drop for RequestSender {
    fn drop(self) {
        let RequestSender { ring, handing } = self;
        let mut handing = handing;
        if let Some(finished) = ring.finish() {
            handing.push_reserved(Handed::Last(finished));
        }
    }
}

impl RequestReceiver {
    /// Returns how many requests wait in the ring.
    pub fn count_waiting(&mut self) -> usize
        ensures count { result ≡ length (known_items self.new.ring) }
        ensures received { received self.new.ring ≡ received self.old.ring }
        ensures ring { SameConsumer self.old.ring self.new.ring }
    {
        self.ring.slots()
    }

    /// Takes the next request. At the end all requests that the porter put have been taken, in order, each once. Nothing is found only if this
    /// end knew of no request.
    pub fn next(&mut self) -> Found
        ensures finds { Finds result self.old.ring self.new.ring self.new.last }
        ensures ring { SameConsumer self.old.ring self.new.ring }
    {
        if let Ok(request) = self.ring.pop() {
            return Found::Request(request);
        }
        if !self.ring.is_abandoned() {
            return Found::Nothing;
        }
        self.take_last();
        let Some(finished) = &mut self.last else {
            return Found::Nothing;
        };
        if self.ring.slots_after(finished) == 0 {
            return Found::End;
        }
        Found::Request(self.ring.pop_known())
    }

    /// Returns whether the porter's end was dropped: nothing comes any more but what is in the ring.
    pub fn is_abandoned(&mut self) -> bool
        ensures received { received self.new.ring ≡ received self.old.ring }
        ensures ring { SameConsumer self.old.ring self.new.ring }
    {
        self.ring.is_abandoned()
    }

    /// Takes the next request if it is there and is a Connect. Returns whether it is.
    pub fn take_connect(&mut self) -> bool
        ensures takes { MatchBool result (received self.new.ring ≡ received self.old.ring ++ Connect ∷ [])
            (received self.new.ring ≡ received self.old.ring) }
        ensures ring { SameConsumer self.old.ring self.new.ring }
    {
        if !is_connect_next(&mut self.ring) {
            return false;
        }
        let FromClient::Connect = self.ring.pop_known() else {
            unreachable!()
        };
        true
    }

    /// Takes the next request if it is there and is a PING. Returns its octets.
    pub fn take_ping(&mut self) -> Option<Bytes>
        ensures takes { MatchOption result (received self.new.ring ≡ received self.old.ring)
            (λ payload. received self.new.ring ≡ received self.old.ring ++ Ping payload ∷ []) }
        ensures ring { SameConsumer self.old.ring self.new.ring }
    {
        if !is_ping_next(&mut self.ring) {
            return None;
        }
        let FromClient::Ping(payload) = self.ring.pop_known() else {
            unreachable!()
        };
        Some(payload)
    }

    // Takes what shows all that was put, if the porter has handed it over.
    fn take_last(&mut self)
        ensures { self.new.ring ≡ self.old.ring }
    {
        if self.last.is_none() {
            self.last = pop_last(&mut self.handed);
        }
    }
}

// Returns whether the next request is there and is a Connect.
fn is_connect_next(ring: &mut Consumer<FromClient>) -> bool
    ensures some { OnTrue result (0 < length (known_items ring.new)) }
    ensures next { OnTrue result ((rest : List FromClient) × (known_items ring.new ≡ Connect ∷ rest)) }
    ensures received { received ring.new ≡ received ring.old }
    ensures ring { SameConsumer ring.old ring.new }
{
    if ring.slots() == 0 {
        return false;
    }
    match ring.peek_known() {
        FromClient::Connect => true,
        FromClient::Read(_) | FromClient::Ping(_) | FromClient::Hung => false,
    }
}

// Returns whether the next request is there and is a PING.
fn is_ping_next(ring: &mut Consumer<FromClient>) -> bool
    ensures some { OnTrue result (0 < length (known_items ring.new)) }
    ensures next { OnTrue result ((payload : List ℕ) × (rest : List FromClient) × (known_items ring.new ≡ Ping payload ∷ rest)) }
    ensures received { received ring.new ≡ received ring.old }
    ensures ring { SameConsumer ring.old ring.new }
{
    if ring.slots() == 0 {
        return false;
    }
    match ring.peek_known() {
        FromClient::Ping(_) => true,
        FromClient::Connect | FromClient::Read(_) | FromClient::Hung => false,
    }
}

// Takes what was handed over, if that is a `Last`.
fn pop_last(handed: &mut Consumer<Handed, Global, OneRing>) -> Option<Finished<FromClient>>
    ensures last { (ring : Consumer FromClient Global AnyItems) → IsHanded ring handed.old
        → ForSome result (λ finished. IsFinishedOf finished ring) }
    ensures handed { (ring : Consumer FromClient Global AnyItems) → IsHanded ring handed.old → IsHanded ring handed.new }
{
    match handed.pop() {
        Ok(Handed::Last(finished)) => Some(finished),
        Ok(Handed::Ring(other)) => {
            drop(other);
            None
        }
        Err(_) => None,
    }
}
