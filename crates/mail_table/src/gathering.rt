//! How the seats of all nodes are gathered, and what they know together.
ghost use Rattle.std.specs.List.{list_any, list_all};
ghost use Rattle.std.specs.Prelude.{◌≡◌, ◌<◌, ◌≤◌, ◌==◌, ℕ, true, false, [], length};
ghost use Rattle.std.specs.Prelude.{vec_len, is_ok, IfOk, IfErr, OnOk, All, Some, slice_get, slice_index_or};
ghost use Rattle.std.specs.Slots.{IsFull};
ghost use Rattle.cluster_world.specs.Has.{Has};
ghost use Rattle.mail_table.specs.Boxes.{sits};
ghost use Rattle.mail_table.specs.Gathered.{Gathered, PostsArrive, LogsAgree, LearnersAgree};
ghost use Rattle.mail_table.specs.Offices.{name_of};
ghost use Rattle.mail_table.specs.Seats.{IsSized, all_sit, is_whole, lengths_of, parts_of};
ghost use Rattle.mail_table.specs.declared.part.Part.{Part};

use crate::batch::Batch;
use crate::mail::Mail;
use crate::office::{Mark, same_table};
use crate::plays::{Boxes, Collect, Token};
use crate::seat::NodeSeat;
use atomic_table::Closed;
use paxos_packets::Body;
use std::alloc::Global;
use std::marker::Model;

impl<B: Body> Mail<B> {
    /// Gathers the seats of all nodes, just one for each and all of this table, and returns the lengths of their logs, by node: 0 if a node
    /// is down, was never opened or is no member. If a seat is missing or foreign, all is handed back.
    pub fn gather(self, seats: Vec<NodeSeat<B>>) -> Result<[u64; 7], (Mail<B>, Vec<NodeSeat<B>>)>
        requires office { All (λ s. s.office ≡ self.office) seats.items }
        ensures exactly { is_ok result ≡ is_whole self seats.items }
        ensures back { IfErr result (λ r. (r.0 ≡ self) × (r.1.items ≡ seats.items)) }
        ensures lengths { IfOk result (λ lengths. lengths ≡ lengths_of seats.items) }
        ensures gathered { OnOk result (Gathered B.same self.members self.most (parts_of seats.items)) }
        ensures posts { OnOk result (PostsArrive self.members self.most (parts_of seats.items)) }
        ensures logs { OnOk result (LogsAgree B.same self.members (parts_of seats.items)) }
        ensures learners { OnOk result (LearnersAgree B.same self.members (parts_of seats.items)) }
    {
        if !self.has_all(seats.as_slice()) {
            return Err((self, seats));
        }
        let lengths = lengths_of(seats.as_slice());
        self.collect(seats);
        Ok(lengths)
    }

    // Returns whether there is just one seat for each node, all of this table.
    fn has_all(&self, seats: &[NodeSeat<B>]) -> bool
        ensures value { result ≡ is_whole self.now seats.now }
        ensures least { 3 ≤ self.now.members }
        ensures most { self.now.members ≤ 7 }
    {
        seats.len() == self.nodes as usize
            && all_of(seats, self.mark.number)
            && every_node_sits(seats, self.nodes)
    }

    // Takes in all seats, and frees the table.
    fn collect(self, seats: Vec<NodeSeat<B>>)
        requires office { All (λ s. s.office ≡ self.office) seats.items }
        requires whole { is_whole self seats.items ≡ true }
        ensures { Gathered B.same self.members self.most (parts_of seats.items) }
    {
        let Mail { table, mark, .. } = self;
        let gatherer = take_in(&table, &mark, seats);
        free(table.close_with(gatherer));
    }
}

// Returns whether all seats are of the table with this number.
fn all_of<B: Body>(seats: &[NodeSeat<B>], table: u64) -> bool
    ensures { result ≡ list_all (λ s. s.table == table) seats.now }
{
    seats.iter().all(|seat| seat.table() == table)
}

// Returns whether a seat of the node is there.
fn has_seat<B: Body>(seats: &[NodeSeat<B>], node: u8) -> bool
    ensures { result ≡ list_any (λ s. s.part.me == node) seats.now }
{
    seats.iter().any(|seat| seat.node() == node)
}

// Returns whether a seat of each node is there.
fn every_node_sits<B: Body>(seats: &[NodeSeat<B>], nodes: u8) -> bool
    ensures { result ≡ all_sit nodes seats.now }
{
    let mut all = true;
    for below in 0..nodes {
        all = all && has_seat(seats, below + 1);
    }
    all
}

// Returns the lengths of the logs, by node.
fn lengths_of<B: Body>(seats: &[NodeSeat<B>]) -> [u64; 7]
    ensures { result ≡ lengths_of seats.now }
{
    let mut lengths = [0; 7];
    for seat in seats {
        lengths[seat.place()] = seat.log();
    }
    lengths
}

// Takes the table's seat out of a node's.
fn take_token<B: Body>(table: &Boxes<B>, mark: &Mark, seat: NodeSeat<B>) -> Token<B>
    requires owned { (seat.office ≡ mark.now.seen.book) × (seat.table ≡ mark.now.number) }
    requires marked { slice_get mark.now.seen.log mark.now.number ≡ Some (name_of table.now.shared.table_id) }
    ensures same { result.table_id ≡ table.now.shared.table_id }
    ensures knows { result.me ≡ sits seat.part [] }
{
    let NodeSeat {
        seat,
        mark: known,
        ..
    } = seat;
    same_table(mark, table, &known, &seat); // for the proof
    seat
}

// Joins the seats into one that knows all that they know.
fn take_in<B: Body>(table: &Boxes<B>, mark: &Mark, mut seats: Vec<NodeSeat<B>>) -> Token<B>
    requires some { 0 < vec_len seats }
    requires owned { All (λ s. (s.office ≡ mark.now.seen.book) × (s.table ≡ mark.now.number)) seats.items }
    requires marked { slice_get mark.now.seen.log mark.now.number ≡ Some (name_of table.now.shared.table_id) }
    requires sized { IsSized table.now.shared.key.nodes table.now.shared.key.most table.now.shared.key table.now.shared.table_id }
    ensures same { result.table_id ≡ table.now.shared.table_id }
    ensures knows { (x : Part B) → Has (parts_of seats.items) x → Has result.me.0 x }
{
    let Some(first) = seats.pop() else {
        unreachable!()
    };
    let mut gatherer = take_token(table, mark, first);
    while let Some(next) = seats.pop() {
        let seat = take_token(table, mark, next);
        table.shared.join_seat::<Collect>(&mut gatherer, seat);
    }
    gatherer
}

// Drops the batches that are left in boxes, and frees the memory.
fn free<B: Body>(mut closed: Closed<Option<Batch<B>>, Global>)
    requires { IsFull closed.slots }
{
    let mut next = 0;
    while next < closed.slot_count() {
        drop(closed.take(next));
        next += 1;
    }
    closed.free();
}
