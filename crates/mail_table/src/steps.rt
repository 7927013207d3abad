//! The steps of post, fetch, advance and renew, over a table and a seat at it. None waits.
ghost use Rattle.std.specs.Prelude.{◌≡◌, ◌<◌, ◌≤◌, ◌^◌, [], MatchBool, MatchResult, MatchOption, IfSome, length};
ghost use Rattle.paxos_packets.specs.Members.{IsMember};
ghost use Rattle.mail_table.specs.Boxes.{sits, word_of, AreTo, MaySeek, MayPost, MayFetch, MayMake, Follows};
ghost use Rattle.mail_table.specs.Covered.{MayRenew};
ghost use Rattle.mail_table.specs.Seats.{IsSized};
ghost use Rattle.mail_table.specs.Views.{only, box_of, posting_all, receiving_all, lost, moving, renewing};
ghost use Rattle.paxos_node.specs.Adopting.{adopted};
ghost use Rattle.paxos_node.specs.Events.{outcome_of};

use crate::batch::Batch;
use crate::plays::{
    Advance, Beginning, Boxes, Claim, Clear, Deliver, Fetch, Holding, Renew, SeekEmpty, SeekFull,
    Telling, Token,
};
use paxos_node::{Event, Outcome};
use paxos_packets::{Body, Rows};
use std::marker::Brand;

// The word of a box that holds no batch.
const EMPTY: u64 = 0;

// The word of a box into which its sender is putting a batch.
const CLAIMED: u64 = 1;

// The word of a box that holds a batch.
const FULL: u64 = 2;

// The word of a box out of which its addressee is taking the batch.
const EMPTYING: u64 = 3;

// How far apart the words in use are: none shares 64 octets with another, so that a step at one takes no other from its processor.
pub(crate) const SPACING: usize = 8;

// The words of a table of seven nodes, the most that there are: a box for each ordered pair, and a word for each node.
pub(crate) const WORDS: usize = SPACING * (7 * 7 + 7);

// Returns the number of the box from one node to another.
pub(crate) fn box_at(nodes: u8, from: u8, to: u8) -> usize
    requires most { nodes ≤ 7 }
    requires from { IsMember nodes from }
    requires to { IsMember nodes to }
    ensures value { result ≡ box_of nodes from to }
{
    SPACING * ((from as usize - 1) * nodes as usize + (to as usize - 1))
}

// Returns the number of a node's word.
pub(crate) fn word_at(nodes: u8, node: u8) -> usize
    requires most { nodes ≤ 7 }
    requires node { IsMember nodes node }
    ensures value { result ≡ word_of nodes node }
{
    SPACING * (nodes as usize * nodes as usize + (node as usize - 1))
}

// Returns whether the box is empty, by a load. If it is not, its word stays with the thread that works at the box, and the try is lost.
pub(crate) fn is_empty<B: Body>(table: &Boxes<B>, seat: &mut Token<B>, at: usize) -> bool
    requires table { seat.old.table_id ≡ table.now.shared.table_id }
    requires sized { IsSized table.now.shared.key.nodes table.now.shared.key.most table.now.shared.key table.now.shared.table_id }
    requires alone { seat.old.me ≡ sits (only seat.old.me.0) [] }
    requires may { MaySeek table.now.shared.key.nodes (only seat.old.me.0) at }
    ensures found { MatchBool result (seat.new ≡ seat.old) (seat.new.me ≡ sits (lost at (only seat.old.me.0)) []) }
    ensures same { seat.new.table_id ≡ seat.old.table_id }
{
    table.shared.load::<SeekEmpty>(seat, at) == EMPTY
}

// Returns whether the box is full, by a load. If it is not, its word stays with the thread that works at the box, and the try is lost.
fn is_full<B: Body>(table: &Boxes<B>, seat: &mut Token<B>, at: usize) -> bool
    requires table { seat.old.table_id ≡ table.now.shared.table_id }
    requires sized { IsSized table.now.shared.key.nodes table.now.shared.key.most table.now.shared.key table.now.shared.table_id }
    requires alone { seat.old.me ≡ sits (only seat.old.me.0) [] }
    requires may { MayFetch table.now.shared.key.nodes (only seat.old.me.0) at }
    ensures found { MatchBool result (seat.new ≡ seat.old) (seat.new.me ≡ sits (lost at (only seat.old.me.0)) []) }
    ensures same { seat.new.table_id ≡ seat.old.table_id }
{
    table.shared.load::<SeekFull>(seat, at) == FULL
}

// Puts the batch into the box, in one try; returns it if the box is not empty.
pub(crate) fn post_in<B: Body>(
    table: &Boxes<B>,
    seat: &mut Token<B>,
    at: usize,
    batch: Batch<B>,
) -> Result<(), Batch<B>>
    requires table { seat.old.table_id ≡ table.now.shared.table_id }
    requires sized { IsSized table.now.shared.key.nodes table.now.shared.key.most table.now.shared.key table.now.shared.table_id }
    requires alone { seat.old.me ≡ sits (only seat.old.me.0) [] }
    requires may { MayPost table.now.shared.key.nodes table.now.shared.key.most (only seat.old.me.0) at batch }
    ensures posted { MatchResult result (λ _. seat.new.me ≡ sits (posting_all at batch (only seat.old.me.0)) [])
        (λ b. (b ≡ batch) × (seat.new.me ≡ sits (lost at (only seat.old.me.0)) [])) }
    ensures same { seat.new.table_id ≡ seat.old.table_id }
{
    if is_empty(table, seat, at) {
        return claim_in(table, seat, at, batch);
    }
    Err(batch)
}

// Claims the box, if it is still empty, and puts the batch into it.
fn claim_in<B: Body>(
    table: &Boxes<B>,
    seat: &mut Token<B>,
    at: usize,
    batch: Batch<B>,
) -> Result<(), Batch<B>>
    requires table { seat.old.table_id ≡ table.now.shared.table_id }
    requires sized { IsSized table.now.shared.key.nodes table.now.shared.key.most table.now.shared.key table.now.shared.table_id }
    requires alone { seat.old.me ≡ sits (only seat.old.me.0) [] }
    requires may { MayPost table.now.shared.key.nodes table.now.shared.key.most (only seat.old.me.0) at batch }
    ensures posted { MatchResult result (λ _. seat.new.me ≡ sits (posting_all at batch (only seat.old.me.0)) [])
        (λ b. (b ≡ batch) × (seat.new.me ≡ sits (lost at (only seat.old.me.0)) [])) }
    ensures same { seat.new.table_id ≡ seat.old.table_id }
{
    let found = table
        .shared
        .compare_exchange::<Claim>(seat, at, EMPTY, CLAIMED);
    if found != EMPTY {
        return Err(batch);
    }
    let None = table.shared.exchange(seat, at, Some(batch)) else {
        unreachable!()
    };
    table.shared.store::<Deliver>(seat, at, FULL);
    Ok(())
}

// Takes the batch out of the box, in one try.
pub(crate) fn fetch_from<B: Body>(
    table: &Boxes<B>,
    seat: &mut Token<B>,
    at: usize,
) -> Option<Batch<B>>
    requires table { seat.old.table_id ≡ table.now.shared.table_id }
    requires sized { IsSized table.now.shared.key.nodes table.now.shared.key.most table.now.shared.key table.now.shared.table_id }
    requires alone { seat.old.me ≡ sits (only seat.old.me.0) [] }
    requires may { MayFetch table.now.shared.key.nodes (only seat.old.me.0) at }
    ensures fetched { MatchOption result (seat.new.me ≡ sits (lost at (only seat.old.me.0)) [])
        (λ b. AreTo (only seat.old.me.0).me b × (seat.new.me ≡ sits (receiving_all at b (only seat.old.me.0)) [])) }
    ensures short { IfSome result (λ b. length b ≤ table.now.shared.key.most) }
    ensures same { seat.new.table_id ≡ seat.old.table_id }
{
    if is_full(table, seat, at) {
        return empty_out::<B, Brand>(table, seat, at);
    }
    None
}

// Takes the batch out of the box, if it is still full.
fn empty_out<B: Body, J: Holding>(
    table: &Boxes<B>,
    seat: &mut Token<B>,
    at: usize,
) -> Option<Batch<B>>
    requires table { seat.old.table_id ≡ table.now.shared.table_id }
    requires sized { IsSized table.now.shared.key.nodes table.now.shared.key.most table.now.shared.key table.now.shared.table_id }
    requires alone { seat.old.me ≡ sits (only seat.old.me.0) [] }
    requires may { MayFetch table.now.shared.key.nodes (only seat.old.me.0) at }
    requires most { J.most ≡ table.now.shared.key.most }
    ensures fetched { MatchOption result (seat.new.me ≡ sits (lost at (only seat.old.me.0)) [])
        (λ b. AreTo (only seat.old.me.0).me b × (seat.new.me ≡ sits (receiving_all at b (only seat.old.me.0)) [])) }
    ensures short { IfSome result (λ b. length b ≤ J.most) }
    ensures same { seat.new.table_id ≡ seat.old.table_id }
{
    let found = table
        .shared
        .compare_exchange::<Fetch<J>>(seat, at, FULL, EMPTYING);
    if found != FULL {
        return None;
    }
    let batch = table.shared.exchange(seat, at, None);
    table.shared.store::<Clear>(seat, at, EMPTY);
    batch
}

// Takes the step whose outcome this is.
pub(crate) fn advance_as<B: Body, J: Telling<B>>(
    table: &Boxes<B>,
    seat: &mut Token<B>,
    at: usize,
    outcome: &Outcome<B>,
)
    requires table { seat.old.table_id ≡ table.now.shared.table_id }
    requires sized { IsSized table.now.shared.key.nodes table.now.shared.key.most table.now.shared.key table.now.shared.table_id }
    requires alone { seat.old.me ≡ sits (only seat.old.me.0) [] }
    requires member { IsMember table.now.shared.key.nodes (only seat.old.me.0).me }
    requires word { at ≡ word_of table.now.shared.key.nodes (only seat.old.me.0).me }
    requires room { (only seat.old.me.0).events < 2 ^ 62 }
    requires follows { Follows B.same table.now.shared.key.nodes (only seat.old.me.0) outcome.now }
    requires node { J.node ≡ adopted (only seat.old.me.0).me table.now.shared.key.nodes outcome.now (only seat.old.me.0).seen.node }
    requires packets { J.packets ≡ outcome.now.packets }
    ensures moved { seat.new.me ≡ sits (moving J.node J.packets (only seat.old.me.0)) [] }
    ensures same { seat.new.table_id ≡ seat.old.table_id }
{
    let _ = outcome; // for the proof
    table.shared.fetch_add::<Advance<J>>(seat, at, 1);
}

// Takes the step of this event.
pub(crate) fn advance_by_as<B: Body, J: Telling<B>>(
    table: &Boxes<B>,
    seat: &mut Token<B>,
    at: usize,
    event: &Event<B>,
)
    requires table { seat.old.table_id ≡ table.now.shared.table_id }
    requires sized { IsSized table.now.shared.key.nodes table.now.shared.key.most table.now.shared.key table.now.shared.table_id }
    requires alone { seat.old.me ≡ sits (only seat.old.me.0) [] }
    requires member { IsMember table.now.shared.key.nodes (only seat.old.me.0).me }
    requires word { at ≡ word_of table.now.shared.key.nodes (only seat.old.me.0).me }
    requires room { (only seat.old.me.0).events < 2 ^ 62 }
    requires may { MayMake table.now.shared.key.nodes (only seat.old.me.0) event.now }
    requires node { J.node ≡ (outcome_of B.same table.now.shared.key.nodes event.now (only seat.old.me.0).seen.node).node }
    requires packets { J.packets ≡ (outcome_of B.same table.now.shared.key.nodes event.now (only seat.old.me.0).seen.node).packets }
    ensures moved { seat.new.me ≡ sits (moving J.node J.packets (only seat.old.me.0)) [] }
    ensures same { seat.new.table_id ≡ seat.old.table_id }
{
    let _ = event; // for the proof
    table.shared.fetch_add::<Advance<J>>(seat, at, 1);
}

// Opens the node with these rows, or begins it anew with them.
pub(crate) fn renew_as<B: Body, J: Beginning<B>>(
    table: &Boxes<B>,
    seat: &mut Token<B>,
    at: usize,
    rows: &Rows<B>,
)
    requires table { seat.old.table_id ≡ table.now.shared.table_id }
    requires sized { IsSized table.now.shared.key.nodes table.now.shared.key.most table.now.shared.key table.now.shared.table_id }
    requires alone { seat.old.me ≡ sits (only seat.old.me.0) [] }
    requires member { IsMember table.now.shared.key.nodes (only seat.old.me.0).me }
    requires word { at ≡ word_of table.now.shared.key.nodes (only seat.old.me.0).me }
    requires room { (only seat.old.me.0).events < 2 ^ 62 }
    requires may { MayRenew (only seat.old.me.0).seen.opened (only seat.old.me.0).seen.node rows.now }
    requires rows { J.rows ≡ rows.now }
    ensures renewed { seat.new.me ≡ sits (renewing J.rows (only seat.old.me.0)) [] }
    ensures same { seat.new.table_id ≡ seat.old.table_id }
{
    let _ = rows; // for the proof
    table.shared.fetch_add::<Renew<J>>(seat, at, 1);
}
