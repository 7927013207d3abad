//! How a table is founded.
ghost use Rattle.std.specs.Prelude.{◌≡◌, ◌≤◌, ◌+◌, ◌*◌, ◌<◌, [], All, IfOk, OnOk, slice_get, Some, vec_len, vec_capacity};
ghost use Rattle.mail_table.specs.Boxes.{rising};
ghost use Rattle.mail_table.specs.Offices.{name_of};
ghost use Rattle.mail_table.specs.Seats.{IsSized, Owns, new_seats};

use crate::fault::Memory;
use crate::mail::Mail;
use crate::office::{Mark, Office};
use crate::plays::{Boxes, Deal, Token};
use crate::seat::NodeSeat;
use crate::size::Size;
use crate::steps::{SPACING, WORDS};
use atomic_table::Table;
use paxos_packets::{Body, Members};
use std::alloc::Global;

/// How many packets a box holds at most, in a table for batches.
pub const MOST_IN_BATCH: usize = 64;

/// Founds a table for these members whose boxes hold one packet each, and returns it with the seats of its nodes, by ascending node. The office
/// gives it the next number. If memory runs out, or no number is left, nothing is founded.
pub fn found<B: Body>(
    alloc: Global,
    office: &mut Office,
    members: Members,
) -> Result<(Mail<B>, Vec<NodeSeat<B>>), Memory>
    ensures mail { IfOk result (λ r. r.0 ≡ record { office = office.old.book; table = office.old.founded; members = members; most = 1 }) }
    ensures seats { IfOk result (λ r. r.1.items ≡ new_seats r.0 members) }
    ensures owned { IfOk result (λ r. All (Owns r.0) r.1.items) }
    ensures office { office.new.book ≡ office.old.book }
    ensures one_more { OnOk result (office.new.founded ≡ office.old.founded + 1) }
    ensures no_less { office.old.founded ≤ office.new.founded }
{
    found_with(alloc, office, members, 1)
}

/// Founds a table as `found` does, whose boxes hold up to 64 packets each.
pub fn found_for_batches<B: Body>(
    alloc: Global,
    office: &mut Office,
    members: Members,
) -> Result<(Mail<B>, Vec<NodeSeat<B>>), Memory>
    ensures mail { IfOk result (λ r. r.0 ≡ record { office = office.old.book; table = office.old.founded; members = members; most = 64 }) }
    ensures seats { IfOk result (λ r. r.1.items ≡ new_seats r.0 members) }
    ensures owned { IfOk result (λ r. All (Owns r.0) r.1.items) }
    ensures office { office.new.book ≡ office.old.book }
    ensures one_more { OnOk result (office.new.founded ≡ office.old.founded + 1) }
    ensures no_less { office.old.founded ≤ office.new.founded }
{
    found_with(alloc, office, members, MOST_IN_BATCH)
}

// Founds a table whose boxes hold so many packets at most.
fn found_with<B: Body>(
    alloc: Global,
    office: &mut Office,
    members: Members,
    most: usize,
) -> Result<(Mail<B>, Vec<NodeSeat<B>>), Memory>
    requires some { 1 ≤ most }
    ensures mail { IfOk result (λ r. r.0 ≡ record { office = office.old.book; table = office.old.founded; members = members; most = most }) }
    ensures seats { IfOk result (λ r. r.1.items ≡ new_seats r.0 members) }
    ensures owned { IfOk result (λ r. All (Owns r.0) r.1.items) }
    ensures office { office.new.book ≡ office.old.book }
    ensures one_more { OnOk result (office.new.founded ≡ office.old.founded + 1) }
    ensures no_less { office.old.founded ≤ office.new.founded }
{
    let nodes = members.count();
    let mut seats = Vec::with_capacity(alloc, nodes as usize)?;
    let (table, founder) = boxes(alloc, nodes, most)?;
    let Some(mark) = office.enter(&founder) else {
        return Err(Memory);
    };
    hand_out(&table, founder, nodes, most, &mark, &mut seats);
    Ok((
        Mail {
            table,
            nodes,
            most,
            alloc,
            mark,
        },
        seats,
    ))
}

// Creates empty boxes for this many nodes, which hold so many packets at most, and the seat that knows of all nodes.
fn boxes<B: Body>(alloc: Global, nodes: u8, most: usize) -> Result<(Boxes<B>, Token<B>), Memory>
    requires least { 3 ≤ nodes }
    requires few { nodes ≤ 7 }
    requires some { 1 ≤ most }
    ensures sized { IfOk result (λ t. IsSized nodes most t.0.shared.key t.0.shared.table_id) }
    ensures seat { IfOk result (λ t. t.1.table_id ≡ t.0.shared.table_id) }
    ensures knows { IfOk result (λ t. t.1.me ≡ (rising 0 nodes, [])) }
{
    let count = nodes as usize;
    let words = [0; WORDS];
    let made = Table::vacant(
        alloc,
        &words[..SPACING * (count * count + count)],
        SPACING * (count * count),
        &Size {
            nodes: nodes as u64,
            most: most as u64,
        },
    )?;
    Ok(made)
}

// Hands out a seat for each node.
fn hand_out<B: Body>(
    table: &Boxes<B>,
    mut founder: Token<B>,
    nodes: u8,
    most: usize,
    mark: &Mark,
    seats: &mut Vec<NodeSeat<B>>,
)
    requires sized { IsSized nodes most table.now.shared.key table.now.shared.table_id }
    requires founder { founder.table_id ≡ table.now.shared.table_id }
    requires knows { founder.me ≡ (rising 0 nodes, []) }
    requires marked { slice_get mark.now.seen.log mark.now.number ≡ Some (name_of founder.table_id) }
    requires empty { seats.old.items ≡ [] }
    requires room { nodes ≤ vec_capacity seats.old }
    ensures { seats.new.items ≡ new_seats (record { office = mark.now.seen.book; table = mark.now.number; members = nodes; most = most }) nodes }
{
    let _ = most; // for the proof
    for below in 0..nodes {
        let seat = table.shared.split_seat::<Deal>(&mut founder);
        seats.push_reserved(NodeSeat::of(seat, below + 1, nodes, mark.again()));
    }
}
