//! The table, and what a node does at it.
ghost use Rattle.std.specs.Bool.{OnTrue};
ghost use Rattle.std.specs.Prelude.{◌≡◌, ◌==◌, ◌<◌, ◌≤◌, ◌^◌, ℕ, nat_lt, OnOk, OnErr, IfSome, MatchBool, MatchResult, MatchOption, is_ok, [], ◌∷◌, length};
ghost use Rattle.cluster_world.specs.Has.{Has};
ghost use Rattle.paxos_packets.specs.Members.{IsMember};
ghost use Rattle.paxos_packets.specs.declared.packet.Packet as packets;
ghost use Rattle.paxos_packets.specs.Snapshot.{floor_in};
ghost use Rattle.paxos_node.specs.Adopting.{adopted};
ghost use Rattle.paxos_node.specs.Events.{outcome_of};
ghost use Rattle.paxos_planning.specs.Node.{told_length};
ghost use Rattle.mail_table.specs.Boxes.{AreTo, Follows, MayMake};
ghost use Rattle.mail_table.specs.Covered.{MayRenew};
ghost use Rattle.mail_table.specs.Seats.{Owns, knows};
ghost use Rattle.mail_table.specs.Views.{box_of, posting, posting_all, receiving, receiving_all, lost, moving, renewing};

use crate::batch::Batch;
use crate::fault::Worn;
use crate::office::{Mark, same_table};
use crate::plays::Boxes;
use crate::seat::NodeSeat;
use crate::steps::{
    advance_as, advance_by_as, box_at, fetch_from, is_empty, post_in, renew_as, word_at,
};
use paxos_node::{Event, Outcome};
use paxos_packets::{Body, Packet, Rows};
use std::alloc::Global;
use std::marker::{Brand, Model};

/// A table through which the nodes of a cluster pass packets, each node on its own thread: for each ordered pair of nodes a box that
/// holds one packet, or a batch of up to 64 in a table for batches, and for each node a word that counts its events. It is shared by
/// reference; nothing is locked, and no call waits.
#[derive(Drop)]
pub struct Mail<B: Body> {
    pub(crate) table: Boxes<B>,
    pub(crate) nodes: u8,
    // How many packets a box holds at most.
    pub(crate) most: usize,
    pub(crate) alloc: Global,
    pub(crate) mark: Mark,
}

impl<B: Body> Model for Mail<B> {
    ghost use Rattle.std.specs.Prelude.{◌≡◌, slice_get, Some};
    ghost use Rattle.mail_table.specs.Offices.{name_of};
    ghost use Rattle.mail_table.specs.Seats.{Mailed, IsSized};

    ghost Value = { Mailed };

    ghost view = { λ m. record { office = m.mark.seen.book; table = m.mark.number; members = m.nodes; most = m.most } };

    ghost invariant = { λ m. IsSized m.nodes m.most m.table.shared.key m.table.shared.table_id
        × (slice_get m.mark.seen.log m.mark.number ≡ Some (name_of m.table.shared.table_id)) };
}

impl<B: Body> Mail<B> {
    /// Returns whether the seat is one of this table. The seats of two offices cannot be compared.
    pub fn owns(&self, seat: &NodeSeat<B>) -> bool
        requires office { seat.now.office ≡ self.now.office }
        ensures exactly { result ≡ (seat.now.table == self.now.table) }
        ensures owned { OnTrue result (Owns self.now seat.now) }
    {
        if seat.mark.number != self.mark.number {
            return false;
        }
        same_table(&self.mark, &self.table, &seat.mark, &seat.seat); // for the proof
        true
    }

    /// Puts the packet, one that the seat's node sent, into the box to another node, in one try. Returns it if the box is not empty. Costs
    /// a load of the box's word; if that finds the box empty, two atomic steps and one move of the packet.
    pub fn post(&self, seat: &mut NodeSeat<B>, to: u8, packet: Packet<B>) -> Result<(), Packet<B>>
        requires owned { Owns self.now seat.old }
        requires member { IsMember self.now.members to }
        requires sent { Has seat.old.part.seen.sent packet }
        requires addressed { packet.addressee ≡ to }
        ensures posted { MatchResult result
            (λ _. seat.new ≡ knows (posting (box_of self.now.members seat.old.part.me to) packet seat.old.part) seat.old)
            (λ p. (p ≡ packet) × (seat.new ≡ knows (lost (box_of self.now.members seat.old.part.me to) seat.old.part) seat.old)) }
        ensures still_owned { Owns self.now seat.new }
    {
        let one = self.batch_of(packet);
        let Err(batch) = self.post_all(seat, to, one) else {
            return Ok(());
        };
        Err(batch.into_one())
    }

    // Returns a batch of one packet, which each table's boxes can hold.
    fn batch_of(&self, packet: Packet<B>) -> Batch<B>
        ensures one { result ≡ packet ∷ [] }
        ensures short { length result ≤ self.now.most }
    {
        Batch::of(self.alloc, packet)
    }

    /// Puts the packets, which the seat's node sent, into the box to another node, all of them in one try and in this order. Returns them if
    /// the box is not empty. Costs as much as `post`, however many there are.
    pub fn post_all(&self, seat: &mut NodeSeat<B>, to: u8, batch: Batch<B>) -> Result<(), Batch<B>>
        requires owned { Owns self.now seat.old }
        requires member { IsMember self.now.members to }
        requires sent { (p : packets.Packet B) → Has batch p → Has seat.old.part.seen.sent p }
        requires addressed { AreTo to batch }
        requires short { length batch ≤ self.now.most }
        ensures posted { MatchResult result
            (λ _. seat.new ≡ knows (posting_all (box_of self.now.members seat.old.part.me to) batch seat.old.part) seat.old)
            (λ b. (b ≡ batch) × (seat.new ≡ knows (lost (box_of self.now.members seat.old.part.me to) seat.old.part) seat.old)) }
        ensures still_owned { Owns self.now seat.new }
    {
        same_table(&self.mark, &self.table, &seat.mark, &seat.seat); // for the proof
        let at = box_at(self.nodes, seat.node, to);
        post_in(&self.table, &mut seat.seat, at, batch)
    }

    /// Returns whether the box to another node is empty, by a load of its word. If it is not, that was a try to post, which is lost.
    pub fn is_free(&self, seat: &mut NodeSeat<B>, to: u8) -> bool
        requires owned { Owns self.now seat.old }
        requires member { IsMember self.now.members to }
        ensures found { MatchBool result (seat.new ≡ seat.old)
            (seat.new ≡ knows (lost (box_of self.now.members seat.old.part.me to) seat.old.part) seat.old) }
        ensures still_owned { Owns self.now seat.new }
    {
        same_table(&self.mark, &self.table, &seat.mark, &seat.seat); // for the proof
        let at = box_at(self.nodes, seat.node, to);
        is_empty(&self.table, &mut seat.seat, at)
    }

    /// Returns how many packets a box holds at most: 1, or 64 in a table for batches.
    pub fn most(&self) -> usize
        ensures value { result ≡ self.now.most }
        ensures some { 1 ≤ result }
    {
        self.most
    }

    /// Takes the packet out of the box from another node, in one try, at a table whose boxes hold one. Returns `None` if the box is not full.
    /// Costs a load of the box's word; if that finds the box full, two atomic steps and one move of the packet.
    pub fn fetch(&self, seat: &mut NodeSeat<B>, from: u8) -> Option<Packet<B>>
        requires owned { Owns self.now seat.old }
        requires member { IsMember self.now.members from }
        requires single { self.now.most ≡ 1 }
        ensures fetched { MatchOption result (seat.new ≡ knows (lost (box_of self.now.members from seat.old.part.me) seat.old.part) seat.old)
            (λ p. seat.new ≡ knows (receiving (box_of self.now.members from seat.old.part.me) p seat.old.part) seat.old) }
        ensures addressed { IfSome result (λ p. p.addressee ≡ seat.old.part.me) }
        ensures still_owned { Owns self.now seat.new }
    {
        let Some(batch) = self.fetch_all(seat, from) else {
            return None;
        };
        Some(batch.into_one())
    }

    /// Takes the packets out of the box from another node, all of them in one try, in the order in which they were put in. Returns `None` if
    /// the box is not full. Costs as much as `fetch`, however many there are.
    pub fn fetch_all(&self, seat: &mut NodeSeat<B>, from: u8) -> Option<Batch<B>>
        requires owned { Owns self.now seat.old }
        requires member { IsMember self.now.members from }
        ensures fetched { MatchOption result (seat.new ≡ knows (lost (box_of self.now.members from seat.old.part.me) seat.old.part) seat.old)
            (λ b. seat.new ≡ knows (receiving_all (box_of self.now.members from seat.old.part.me) b seat.old.part) seat.old) }
        ensures addressed { IfSome result (λ b. AreTo seat.old.part.me b) }
        ensures short { IfSome result (λ b. length b ≤ self.now.most) }
        ensures still_owned { Owns self.now seat.new }
    {
        same_table(&self.mark, &self.table, &seat.mark, &seat.seat); // for the proof
        let at = box_at(self.nodes, from, seat.node);
        fetch_from(&self.table, &mut seat.seat, at)
    }

    /// Takes the step whose outcome this is: that of a possible event of the node that the seat knows; a packet that it delivers is one
    /// that the seat received. `Worn` after 2^62 events, which changes nothing.
    pub fn advance(&self, seat: &mut NodeSeat<B>, outcome: &Outcome<B>) -> Result<(), Worn>
        requires owned { Owns self.now seat.old }
        requires follows { Follows B.same self.now.members seat.old.part outcome.now }
        ensures exactly { is_ok result ≡ nat_lt seat.old.part.events (2 ^ 62) }
        ensures moved { OnOk result (seat.new ≡ knows
            (moving (adopted seat.old.part.me self.now.members outcome.now seat.old.part.seen.node) outcome.now.packets seat.old.part) seat.old) }
        ensures worn { OnErr result (seat.new ≡ seat.old) }
        ensures still_owned { Owns self.now seat.new }
    {
        if !seat.may_advance() {
            return Err(Worn);
        }
        same_table(&self.mark, &self.table, &seat.mark, &seat.seat); // for the proof
        let at = word_at(self.nodes, seat.node);
        advance_as::<B, Brand>(&self.table, &mut seat.seat, at, outcome);
        seat.events += 1;
        seat.log = outcome.log();
        Ok(())
    }

    /// Takes the step of this event, without its outcome: a possible event of the node that the seat knows; a packet that it delivers is one
    /// that the seat received. After it the node's log is `log` entries long, or the node is down and `log` is 0. `Worn` after 2^62 events,
    /// which changes nothing.
    pub fn advance_by(&self, seat: &mut NodeSeat<B>, event: &Event<B>, log: u64) -> Result<(), Worn>
        requires owned { Owns self.now seat.old }
        requires may { MayMake self.now.members seat.old.part event.now }
        requires log { log ≡ told_length (outcome_of B.same self.now.members event.now seat.old.part.seen.node).node }
        ensures exactly { is_ok result ≡ nat_lt seat.old.part.events (2 ^ 62) }
        ensures moved { OnOk result (seat.new ≡ knows
            (moving (outcome_of B.same self.now.members event.now seat.old.part.seen.node).node
            (outcome_of B.same self.now.members event.now seat.old.part.seen.node).packets seat.old.part) seat.old) }
        ensures worn { OnErr result (seat.new ≡ seat.old) }
        ensures still_owned { Owns self.now seat.new }
    {
        if !seat.may_advance() {
            return Err(Worn);
        }
        same_table(&self.mark, &self.table, &seat.mark, &seat.seat); // for the proof
        let at = word_at(self.nodes, seat.node);
        advance_by_as::<B, Brand>(&self.table, &mut seat.seat, at, event);
        seat.events += 1;
        seat.log = log;
        Ok(())
    }

    /// Opens the node with these rows; a node that was opened before crashes and restarts up to their boot instead: they are its own rows
    /// in a later boot. `Worn` after 2^62 events, which changes nothing.
    pub fn renew(&self, seat: &mut NodeSeat<B>, rows: &Rows<B>) -> Result<(), Worn>
        requires owned { Owns self.now seat.old }
        requires may { MayRenew seat.old.part.seen.opened seat.old.part.seen.node rows.now }
        ensures exactly { is_ok result ≡ nat_lt seat.old.part.events (2 ^ 62) }
        ensures renewed { OnOk result (seat.new ≡ knows (renewing rows.now seat.old.part) seat.old) }
        ensures worn { OnErr result (seat.new ≡ seat.old) }
        ensures still_owned { Owns self.now seat.new }
    {
        if !seat.may_advance() {
            return Err(Worn);
        }
        same_table(&self.mark, &self.table, &seat.mark, &seat.seat); // for the proof
        let at = word_at(self.nodes, seat.node);
        renew_as::<B, Brand>(&self.table, &mut seat.seat, at, rows);
        seat.events += 1;
        seat.log = length_of(rows);
        Ok(())
    }
}

// Returns the length of the log of a node that begins with these rows: it is that of their snapshot.
fn length_of<B: Body>(rows: &Rows<B>) -> u64
    ensures { result ≡ floor_in rows.now.snapshot }
{
    match &rows.snapshot {
        Some(snapshot) => snapshot.floor().get(),
        None => 0,
    }
}
