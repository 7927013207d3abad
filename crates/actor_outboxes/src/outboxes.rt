// A node's outboxes: how packets are put after the others or before them, and taken oldest first, for all peers or for one.
ghost use Rattle.std.specs.Prelude.{◌≡◌, ◌<◌, ◌≤◌, ◌+◌, ◌++◌, ℕ, suc, [], ◌∷◌, length, slice_get, IfOk, IfSome, IfNone, MatchOption, Some, All, filter, not, vec_len, vec_capacity};
ghost use Rattle.actor_outboxes.specs.Outboxes.{empty_boxes, limit, box_of, waiting, filed, without_first, HasLimits, WaitBehind, Leaves};
ghost use Rattle.actor_outboxes.specs.Outboxes.{first_stamp, older, IsOldestBelow, IsPeer, TakenFor, WaitsFirst, filed_first, most_waiting};
ghost use Rattle.actor_outboxes.specs.Outboxes.{is_forward, giving_way, ManyTaken, MayTake, WaitFirst};

use circular_buffer::HeapCircularBuffer;
use paxos_packets::{Kind, Members, Memory, Packet};
use std::alloc::Global;
use std::marker::Model;

/// How many packets may wait for a member.
const MOST_WAITING: usize = 4096;

// A packet, and how many were sent before it.
#[derive(Drop)]
struct Stamped<B> {
    stamp: u64,
    packet: Packet<B>,
}

/// The packets of a node that wait to be sent: for each other member the last 4,096, in the order in which they were sent.
pub struct Outboxes<B> {
    me: u8,
    members: Members,
    // One for each number from 0 up to that of the last member; those of 0 and of the node itself hold nothing.
    boxes: Vec<HeapCircularBuffer<Stamped<B>>>,
    next: u64,
}

impl<B: Drop> Drop for Outboxes<B> {
    fn drop(self) {
        let Outboxes {
            me: _,
            members: _,
            boxes: _boxes,
            next: _,
        } = self;
    }
}

impl<B> Model for Outboxes<B> {
    ghost use Rattle.actor_outboxes.specs.Outboxes.{Waiting, AreKept};

    ghost Value = { Waiting B };

    ghost view = { λ o. record { me = o.me; members = o.members; boxes = o.boxes.items; next = o.next } };

    ghost invariant = { λ o. AreKept o.me o.members o.boxes.items };
}

// Returns for how many packets the outbox of this number has room.
fn limit(me: u8, number: u8) -> usize
    ensures { result ≡ limit me number }
{
    if number == 0 || number == me {
        0
    } else {
        MOST_WAITING
    }
}

// Creates an outbox for each number up to that of the last member.
fn empty_boxes<B: Drop>(
    alloc: Global,
    me: u8,
    members: Members,
) -> Result<Vec<HeapCircularBuffer<Stamped<B>>>, Memory>
    ensures { IfOk result (λ boxes. boxes.items ≡ empty_boxes me (suc members)) }
{
    let mut boxes = Vec::new(alloc);
    for number in 0..members.count() + 1 {
        let empty = HeapCircularBuffer::with_capacity(alloc, limit(me, number))?;
        boxes.push(empty)?;
    }
    Ok(boxes)
}

impl<B> Outboxes<B> {
    /// Returns the number of the node whose outboxes they are.
    pub fn me(&self) -> u8
        ensures { result ≡ self.now.me }
    {
        self.me
    }

    /// Returns the members.
    pub fn members(&self) -> Members
        ensures { result ≡ self.now.members }
    {
        self.members
    }
}

impl<B: Drop> Outboxes<B> {
    /// Creates empty outboxes of this node, one of these members. Allocates all memory that they will ever need.
    pub fn new(alloc: Global, me: u8, members: Members) -> Result<Outboxes<B>, Memory>
        ensures me { IfOk result (λ o. o.me ≡ me) }
        ensures members { IfOk result (λ o. o.members ≡ members) }
        ensures empty { IfOk result (λ o. (k : ℕ) → waiting k o ≡ []) }
    {
        let boxes = empty_boxes(alloc, me, members)?;
        Ok(Outboxes {
            me,
            members,
            boxes,
            next: 0,
        })
    }

    /// Puts the packets, one after the other, after those that wait for their addressees. If 4,096 wait for an addressee, the oldest gives
    /// way. A packet that is for no other member is dropped. Does not allocate.
    pub fn put_all(&mut self, packets: Vec<Packet<B>>)
        ensures me { self.new.me ≡ self.old.me }
        ensures members { self.new.members ≡ self.old.members }
        ensures waits { WaitBehind packets.items self.old self.new }
    {
        self.limits(); // for the proof
        for packet in packets {
            self.put(packet);
        }
    }

    /// Takes the oldest packet that waits, if any does: of those that are first in their outboxes the one that was put first. Does not
    /// allocate.
    pub fn take(&mut self) -> Option<Packet<B>>
        ensures me { self.new.me ≡ self.old.me }
        ensures members { self.new.members ≡ self.old.members }
        ensures none { IfNone result ((self.new ≡ self.old) × ((k : ℕ) → waiting k self.old ≡ [])) }
        ensures some { IfSome result (λ p. Leaves p self.old self.new) }
    {
        match self.oldest() {
            None => None,
            Some(first) => self.take_at(first),
        }
    }

    /// Takes the oldest packet that waits for this node, if any does. Does not allocate.
    pub fn take_for(&mut self, peer: u8) -> Option<Packet<B>>
        ensures me { self.new.me ≡ self.old.me }
        ensures members { self.new.members ≡ self.old.members }
        ensures none { IfNone result ((self.new ≡ self.old) × (waiting peer self.old ≡ [])) }
        ensures some { IfSome result (λ p. TakenFor peer p self.old self.new) }
    {
        let place = usize::from(peer);
        if place >= self.boxes.len() {
            return None;
        }
        let Some(stamped) = take_first(&mut self.boxes, place) else {
            return None;
        };
        Some(packet_of(stamped))
    }

    /// Takes the oldest packets that wait for this node, if any do: up to `most` of them, which has to be at least one, but for Forwards after
    /// which another one is taken. Returns the first one, and those after it in order. Takes fewer if running out of memory forbids more.
    pub fn take_many(
        &mut self,
        alloc: Global,
        peer: u8,
        most: usize,
    ) -> Option<(Packet<B>, Vec<Packet<B>>)>
        requires some { 1 ≤ most }
        ensures me { self.new.me ≡ self.old.me }
        ensures members { self.new.members ≡ self.old.members }
        ensures none { IfNone result ((self.new ≡ self.old) × (waiting peer self.old ≡ [])) }
        ensures some { IfSome result (λ t. ManyTaken peer most (t.0 ∷ t.1.items) self.old self.new) }
    {
        let mut rest = Vec::new(alloc);
        self.take_into(&mut rest, peer, most);
        if let Some(first) = remove_first(&mut rest) {
            return Some((first, rest));
        }
        let Some(packet) = self.take_for(peer) else {
            return None;
        };
        Some((packet, rest))
    }

    // Takes up to `most` of the oldest packets that wait for this node into an empty list, but for Forwards after which another one is taken.
    // Takes fewer if running out of memory forbids more.
    fn take_into(&mut self, list: &mut Vec<Packet<B>>, peer: u8, most: usize)
        requires empty { list.old.items ≡ [] }
        ensures me { self.new.me ≡ self.old.me }
        ensures members { self.new.members ≡ self.old.members }
        ensures taken { MayTake peer most list.new.items self.old self.new }
    {
        self.limits(); // for the proof
        for _turn in 0..most {
            if list.reserve(1).is_err() {
                return;
            }
            let Some(packet) = self.take_for(peer) else {
                return;
            };
            put_due(list, packet);
        }
    }

    /// Puts packets before the others for their addressee, in order, as some that were taken and could not go. There must be room for them. Does
    /// not allocate.
    pub fn put_back_all(&mut self, peer: u8, first: Packet<B>, rest: Vec<Packet<B>>)
        requires peer { IsPeer self.old.me self.old.members peer }
        requires addressed { All (λ p. p.addressee ≡ peer) (first ∷ rest.items) }
        requires room { 1 + length rest.items + length (waiting peer self.old) ≤ most_waiting }
        ensures me { self.new.me ≡ self.old.me }
        ensures members { self.new.members ≡ self.old.members }
        ensures first { WaitFirst peer (first ∷ rest.items) self.old self.new }
    {
        self.put_back_each(peer, rest);
        self.put_back(first);
    }

    // Puts packets before the others for their addressee, in order.
    fn put_back_each(&mut self, peer: u8, mut packets: Vec<Packet<B>>)
        requires peer { IsPeer self.old.me self.old.members peer }
        requires addressed { All (λ p. p.addressee ≡ peer) packets.items }
        requires room { length packets.items + length (waiting peer self.old) ≤ most_waiting }
        ensures me { self.new.me ≡ self.old.me }
        ensures members { self.new.members ≡ self.old.members }
        ensures first { WaitFirst peer packets.items self.old self.new }
    {
        let _ = peer; // for the proof
        while let Some(packet) = packets.pop() {
            self.put_back(packet);
        }
    }

    /// Puts the packet before the others for its addressee, as one that was taken and could not go. There must be room for it. Does not
    /// allocate.
    pub fn put_back(&mut self, packet: Packet<B>)
        requires peer { IsPeer self.old.me self.old.members packet.addressee }
        requires room { length (waiting packet.addressee self.old) < most_waiting }
        ensures me { self.new.me ≡ self.old.me }
        ensures members { self.new.members ≡ self.old.members }
        ensures first { WaitsFirst packet self.old self.new }
    {
        put_first(&mut self.boxes, Stamped { stamp: 0, packet });
    }

    /// Returns how many packets wait for this node. Does not allocate.
    pub fn waiting_for(&self, peer: u8) -> usize
        ensures { result ≡ length (waiting peer self.now) }
    {
        match self.boxes.get(usize::from(peer)) {
            None => 0,
            Some(outbox) => outbox.len(),
        }
    }

    // Finds the outbox whose first packet was put before the first ones of the others.
    fn oldest(&self) -> Option<First>
        ensures { IsOldestBelow (length self.now.boxes) self.now.boxes result }
    {
        oldest(self.boxes.as_slice())
    }

    // Takes the first packet of this outbox.
    fn take_at(&mut self, first: First) -> Option<Packet<B>>
        requires { IsOldestBelow (length self.old.boxes) self.old.boxes (Some first) }
        ensures me { self.new.me ≡ self.old.me }
        ensures members { self.new.members ≡ self.old.members }
        ensures taken { MatchOption result ⊥ (λ p. Leaves p self.old self.new) }
    {
        let Some(stamped) = take_first(&mut self.boxes, first.place) else {
            return None;
        };
        Some(packet_of(stamped))
    }

    /// Does nothing. Its contract says that no more packets wait for a member than may.
    pub fn limits(&self)
        ensures { HasLimits self.now }
    {
        let _ = &self.boxes; // for the proof
    }

    // Puts the packet after the others for its addressee.
    fn put(&mut self, packet: Packet<B>)
        ensures me { self.new.me ≡ self.old.me }
        ensures members { self.new.members ≡ self.old.members }
        ensures waits { WaitBehind (packet ∷ []) self.old self.new }
    {
        let stamp = self.next;
        self.next = stamp.saturating_add(1);
        put_in(&mut self.boxes, Stamped { stamp, packet });
    }
}

// Returns whether the packet is a Forward.
fn is_forward<B>(packet: &Packet<B>) -> bool
    ensures { result ≡ is_forward packet.now }
{
    matches!(packet.kind, Kind::Forward { .. })
}

// Puts the packet after others with which it goes; if it is a Forward, those among them give way. There must be room.
fn put_due<B: Drop>(list: &mut Vec<Packet<B>>, packet: Packet<B>)
    requires room { vec_len list.old < vec_capacity list.old }
    ensures { list.new.items ≡ giving_way packet list.old.items ++ packet ∷ [] }
{
    give_way(list, &packet);
    list.push_reserved(packet);
}

// Drops the Forwards in the list if the packet after them is one.
fn give_way<B: Drop>(list: &mut Vec<Packet<B>>, packet: &Packet<B>)
    ensures items { list.new.items ≡ giving_way packet.now list.old.items }
    ensures length { vec_len list.new ≤ vec_len list.old }
    ensures capacity { vec_capacity list.new ≡ vec_capacity list.old }
{
    if is_forward(packet) {
        drop_forwards(list);
    }
}

// Drops the Forwards in the list.
fn drop_forwards<B: Drop>(list: &mut Vec<Packet<B>>)
    ensures items { list.new.items ≡ filter (λ p. not (is_forward p)) list.old.items }
    ensures length { vec_len list.new ≤ vec_len list.old }
    ensures capacity { vec_capacity list.new ≡ vec_capacity list.old }
{
    list.retain(|packet| !is_forward(packet));
}

// Removes the first packet of the list, if there is one, and returns it.
fn remove_first<B>(list: &mut Vec<Packet<B>>) -> Option<Packet<B>>
    ensures { MatchOption result ((list.old.items ≡ []) × (list.new.items ≡ [])) (λ p. list.old.items ≡ p ∷ list.new.items) }
{
    if list.is_empty() {
        return None;
    }
    Some(list.remove(0))
}

// Puts the packet into the outbox of its addressee, if there is one.
fn put_in<B: Drop>(boxes: &mut Vec<HeapCircularBuffer<Stamped<B>>>, stamped: Stamped<B>)
    ensures { boxes.new.items ≡ filed stamped boxes.old.items }
{
    let place = usize::from(stamped.packet.addressee);
    if place < boxes.len() {
        boxes[place].push_back(stamped);
    }
}

// Puts the packet into the outbox of its addressee, before the others; there is room.
fn put_first<B: Drop>(boxes: &mut Vec<HeapCircularBuffer<Stamped<B>>>, stamped: Stamped<B>)
    requires place { stamped.packet.addressee < length boxes.old.items }
    requires room { length (box_of stamped.packet.addressee boxes.old.items).items < (box_of stamped.packet.addressee boxes.old.items).capacity }
    ensures { boxes.new.items ≡ filed_first stamped boxes.old.items }
{
    let place = usize::from(stamped.packet.addressee);
    boxes[place].push_front(stamped);
}

// Returns the packet without its stamp.
fn packet_of<B>(stamped: Stamped<B>) -> Packet<B>
    ensures { result ≡ stamped.packet }
{
    let Stamped { stamp: _, packet } = stamped;
    packet
}

// Takes the first packet of the outbox at this place.
fn take_first<B: Drop>(
    boxes: &mut Vec<HeapCircularBuffer<Stamped<B>>>,
    place: usize,
) -> Option<Stamped<B>>
    requires { place < length boxes.old.items }
    ensures value { result ≡ slice_get (box_of place boxes.old.items).items 0 }
    ensures boxes { boxes.new.items ≡ without_first place boxes.old.items }
{
    boxes[place].pop_front()
}

// The place of an outbox, and the stamp of its first packet.
#[derive(Clone, Copy)]
struct First {
    place: usize,
    stamp: u64,
}

// Finds the outbox whose first packet was put before the first ones of the others.
fn oldest<B>(boxes: &[HeapCircularBuffer<Stamped<B>>]) -> Option<First>
    ensures { IsOldestBelow (length boxes.now) boxes.now result }
{
    let mut best = None;
    for place in 0..boxes.len() {
        best = older(best, place, first_stamp(&boxes[place]));
    }
    best
}

// Returns the stamp of the first packet in the outbox.
fn first_stamp<B>(outbox: &HeapCircularBuffer<Stamped<B>>) -> Option<u64>
    ensures { result ≡ first_stamp outbox.now }
{
    let first = outbox.front()?;
    Some(first.stamp)
}

// Returns the older of the best so far and what is first at a place.
fn older(best: Option<First>, place: usize, stamp: Option<u64>) -> Option<First>
    ensures { result ≡ older best place stamp }
{
    let Some(stamp) = stamp else {
        return best;
    };
    let Some(first) = best else {
        return Some(First { place, stamp });
    };
    if stamp < first.stamp {
        Some(First { place, stamp })
    } else {
        Some(first)
    }
}
