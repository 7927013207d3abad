// From the rows of the three tables to the rows of an acceptor (docs/CONSENSUS.md, "The store").
ghost use Rattle.std.specs.Prelude.{◌≡◌, ◌≢◌, ◌||◌, not, true, [], Ok, Err, Some, None, option_map, option_and_then, IfOk, IfErr, OnOk};
ghost use Rattle.sqlite_value.specs.Order.{column};
ghost use Rattle.paxos_packets.specs.Snapshot.{floor_in};
ghost use Rattle.store_rows.specs.Rows.{number, is_number, octets, within, if_within, slot_in, floor_of, ballot_in, promise_in, entry_in, vote_of, is_promised, with_row, votes_after, is_other_version, numbers_of, numbers_in, at_floor, snapshot_at, snapshot_shown, snapshot_in, rows_with, votes_with, rows_of};
ghost use Rattle.store_rows.specs.Numbers.{are_numbers, numbers_in_rows};
ghost use Rattle.store_rows.specs.Faults.{LiesBelow};

use command_codec::{CodecFault, Coder, take_entry};
use paxos_packets::{Ballot, Entry, Floor, Rows, Slot, Snapshot, Vote, Votes};
use sqlite::Row;
use sqlite::types::ValueRef;
use std::alloc::Global;
use store_keeper::KeeperFault;

/// The numbers that `meta` keeps beside the version, and the floor of the snapshot.
#[derive(Clone, Copy, Debug, PartialEq, Eq)]
pub struct Numbers {
    /// How often the node was started, from 0.
    pub boot: u64,
    /// The greatest ballot that the node has promised, if any.
    pub promised: Option<Ballot>,
    /// Up to which slot the snapshot gives the log.
    pub floor: Floor,
}

impl Numbers {
    /// Returns the numbers among the rows.
    pub fn of<B>(rows: &Rows<B>) -> Numbers
        ensures { result ≡ numbers_in_rows rows.now }
    {
        Numbers {
            boot: rows.boot,
            promised: rows.promised,
            floor: floor_in(&rows.snapshot),
        }
    }
}

// Returns the natural number in a column.
fn number(row: &Row, at: usize) -> Option<u64>
    ensures { result ≡ number (column row.now at) }
{
    match row.get_ref(at) {
        Ok(ValueRef::Int(n)) => u64::try_from(n).ok(),
        _ => None,
    }
}

// Returns the number, if it is within these bounds.
fn if_within(low: u64, high: u64, n: u64) -> Option<u64>
    ensures { result ≡ if_within low high n }
{
    if low <= n && n <= high { Some(n) } else { None }
}

// Returns the number in a column, if it is within these bounds.
fn within(row: &Row, at: usize, low: u64, high: u64) -> Option<u64>
    ensures { result ≡ within low high (column row.now at) }
{
    let n = number(row, at)?;
    if_within(low, high, n)
}

// Returns the ballot in two columns: a round from 1 to 2^48 - 1, and a node from 1 to 7.
fn ballot_in(row: &Row, round: usize, node: usize) -> Option<Ballot>
    ensures { result ≡ ballot_in (column row.now round) (column row.now node) }
{
    let round = within(row, round, 1, 281_474_976_710_655)?;
    let node = within(row, node, 1, 7)?;
    Some(Ballot {
        round,
        node: node as u8,
    })
}

// Returns the promise in two columns; round 0 and node 0 stand for no promise.
fn promise_in(row: &Row, round: usize, node: usize) -> Option<Option<Ballot>>
    ensures { result ≡ promise_in (column row.now round) (column row.now node) }
{
    if number(row, round) == Some(0) && number(row, node) == Some(0) {
        return Some(None);
    }
    let ballot = ballot_in(row, round, node)?;
    Some(Some(ballot))
}

// Returns whether the version in a column is neither this one nor the one before it.
fn is_other(row: &Row, at: usize) -> bool
    ensures { result ≡ not (is_number 1 (number (column row.now at)) || is_number 2 (number (column row.now at))) }
{
    !matches!(number(row, at), Some(1 | 2))
}

/// Returns whether `meta` has one row, of k 1 and of a version other than 1 and 2.
pub fn is_other_version(metas: &[Row]) -> bool
    ensures { result ≡ is_other_version metas.now }
{
    match metas {
        [row] => number(row, 0) == Some(1) && is_other(row, 1),
        _ => false,
    }
}

// Returns the numbers that a row of `meta` of this version shows beside the floor: k, version, boot, round, node.
fn numbers_of(version: u64, floor: Floor, row: &Row) -> Option<Numbers>
    ensures { result ≡ numbers_of version floor row.now }
{
    if number(row, 0) != Some(1) || number(row, 1) != Some(version) {
        return None;
    }
    let boot = within(row, 2, 0, 281_474_976_710_655)?;
    let promised = promise_in(row, 3, 4)?;
    Some(Numbers {
        boot,
        promised,
        floor,
    })
}

// Returns the numbers that the rows of `meta` show beside the floor, if there is just one row, of this version.
fn numbers_in(version: u64, floor: Floor, rows: &[Row]) -> Option<Numbers>
    ensures { result ≡ numbers_in version floor rows.now }
{
    match rows {
        [row] => numbers_of(version, floor, row),
        _ => None,
    }
}

/// Returns the numbers of a store of version 1, which has no snapshot, or `None` if `meta` does not have just one row, of k 1 and version 1,
/// or a number is out of range.
pub fn old_numbers(metas: &[Row]) -> Option<Numbers>
    ensures { result ≡ numbers_in 1 0 metas.now }
{
    numbers_in(1, Floor::none(), metas)
}

// Returns the floor in a column.
fn floor_of(row: &Row, at: usize) -> Option<u64>
    ensures { result ≡ floor_of (column row.now at) }
{
    within(row, at, 0, 1_099_511_627_775)
}

// Returns the snapshot, if it is that of this floor.
fn at_floor(floor: u64, snapshot: Option<Snapshot>) -> Option<Option<Snapshot>>
    ensures { result ≡ at_floor floor snapshot }
{
    let snapshot = snapshot?;
    if snapshot.floor().get() != floor {
        drop(snapshot);
        return None;
    }
    Some(Some(snapshot))
}

// Returns the snapshot of these octets, which are copied, if they begin with this floor; with floor 0 there must be no octets.
fn snapshot_at(alloc: Global, floor: u64, octets: &[u8]) -> Result<Option<Snapshot>, KeeperFault>
    ensures snapshot { IfOk result (λ s. snapshot_at floor octets.now ≡ Some s) }
    ensures fault { IfErr result (λ fault. fault ≢ KeeperFault.Memory
        → (fault ≡ KeeperFault.Damaged) × (snapshot_at floor octets.now ≡ None)) }
{
    if floor == 0 {
        return none_of(octets);
    }
    let Ok(copy) = Vec::from_slice(alloc, octets) else {
        return Err(KeeperFault::Memory);
    };
    let Ok(snapshot) = Snapshot::of(copy) else {
        return Err(KeeperFault::Memory);
    };
    match at_floor(floor, snapshot) {
        Some(snapshot) => Ok(snapshot),
        None => Err(KeeperFault::Damaged),
    }
}

// Returns no snapshot, if there are no octets.
fn none_of(octets: &[u8]) -> Result<Option<Snapshot>, KeeperFault>
    ensures snapshot { IfOk result (λ s. snapshot_at 0 octets.now ≡ Some s) }
    ensures fault { IfErr result (λ fault. (fault ≡ KeeperFault.Damaged) × (snapshot_at 0 octets.now ≡ None)) }
{
    if octets.is_empty() {
        Ok(None)
    } else {
        Err(KeeperFault::Damaged)
    }
}

// Returns the snapshot that a row of `snapshot` shows, or none: k, floor, octets.
fn snapshot_shown(alloc: Global, row: &Row) -> Result<Option<Snapshot>, KeeperFault>
    ensures snapshot { IfOk result (λ s. snapshot_shown row.now ≡ Some s) }
    ensures fault { IfErr result (λ fault. fault ≢ KeeperFault.Memory
        → (fault ≡ KeeperFault.Damaged) × (snapshot_shown row.now ≡ None)) }
{
    if number(row, 0) != Some(1) {
        return Err(KeeperFault::Damaged);
    }
    let Some(floor) = floor_of(row, 1) else {
        return Err(KeeperFault::Damaged);
    };
    let Some(octets) = octets(row, 2) else {
        return Err(KeeperFault::Damaged);
    };
    snapshot_at(alloc, floor, octets)
}

// Returns the snapshot that the rows of `snapshot` show, of which there must be just one.
fn snapshot_in(alloc: Global, rows: &[Row]) -> Result<Option<Snapshot>, KeeperFault>
    ensures snapshot { IfOk result (λ s. snapshot_in rows.now ≡ Some s) }
    ensures fault { IfErr result (λ fault. fault ≢ KeeperFault.Memory
        → (fault ≡ KeeperFault.Damaged) × (snapshot_in rows.now ≡ None)) }
{
    match rows {
        [row] => snapshot_shown(alloc, row),
        _ => Err(KeeperFault::Damaged),
    }
}

// Returns up to which slot the snapshot gives the log.
fn floor_in(snapshot: &Option<Snapshot>) -> Floor
    ensures { result ≡ floor_in snapshot.now }
{
    match snapshot {
        Some(snapshot) => Floor::at(snapshot.floor()),
        None => Floor::none(),
    }
}

// Returns whether a vote may be cast in the ballot under this promise.
pub(crate) fn is_promised(promised: &Option<Ballot>, ballot: &Ballot) -> bool
    ensures { result ≡ is_promised promised.now ballot.now }
{
    match promised {
        Some(promised) => !promised.is_below(ballot),
        None => false,
    }
}

// Returns the octets in a column.
fn octets(row: &Row, at: usize) -> Option<&[u8]>
    ensures { option_map (λ octets. octets.now) result ≡ octets (column row.now at) }
{
    match row.get_ref(at) {
        Ok(ValueRef::Blob(octets)) => Some(octets),
        _ => None,
    }
}

// Returns the entry in a column.
fn entry_in<B: Drop, C: Coder<B>>(
    alloc: Global,
    row: &Row,
    at: usize,
) -> Result<Entry<B>, KeeperFault>
    ensures entry { IfOk result (λ entry. entry_in C.reading (column row.now at) ≡ Some entry) }
    ensures fault { IfErr result (λ fault. fault ≢ KeeperFault.Memory
        → (fault ≡ KeeperFault.Damaged) × (entry_in C.reading (column row.now at) ≡ None)) }
{
    let Some(octets) = octets(row, at) else {
        return Err(KeeperFault::Damaged);
    };
    match take_entry::<B, C>(alloc, octets) {
        Ok(entry) => Ok(entry),
        Err(CodecFault::Memory) => Err(KeeperFault::Memory),
        Err(CodecFault::Short | CodecFault::Tag | CodecFault::Range | CodecFault::Rest) => Err(
            KeeperFault::Damaged,
        ),
    }
}

// Returns the vote that a row of `vote` shows: slot, round, node, entry.
fn vote_of<B: Drop, C: Coder<B>>(alloc: Global, row: &Row) -> Result<Vote<B>, KeeperFault>
    ensures vote { IfOk result (λ vote. vote_of C.reading row.now ≡ Some vote) }
    ensures fault { IfErr result (λ fault. fault ≢ KeeperFault.Memory
        → (fault ≡ KeeperFault.Damaged) × (vote_of C.reading row.now ≡ None)) }
{
    let Some(slot) = slot_in(row, 0) else {
        return Err(KeeperFault::Damaged);
    };
    let Some(ballot) = ballot_in(row, 1, 2) else {
        return Err(KeeperFault::Damaged);
    };
    let entry = entry_in::<B, C>(alloc, row, 3)?;
    Ok(Vote {
        slot,
        ballot,
        entry,
    })
}

// Returns the slot in a column.
fn slot_in(row: &Row, at: usize) -> Option<Slot>
    ensures { result ≡ slot_in (column row.now at) }
{
    let slot = within(row, at, 1, 1_099_511_627_775)?;
    Slot::new(slot)
}

// Puts the vote that a row shows among the others.
fn put_row<B: Drop, C: Coder<B>>(
    alloc: Global,
    promised: &Option<Ballot>,
    floor: Floor,
    votes: &mut Votes<B>,
    row: &Row,
) -> Result<(), KeeperFault>
    ensures put { OnOk result (option_and_then (with_row promised.now floor votes.old) (vote_of C.reading row.now) ≡ Some votes.new) }
    ensures fault { IfErr result (λ fault. fault ≢ KeeperFault.Memory
        → (fault ≡ KeeperFault.Damaged) × (option_and_then (with_row promised.now floor votes.old) (vote_of C.reading row.now) ≡ None)) }
{
    let vote = vote_of::<B, C>(alloc, row)?;
    if votes.find(vote.slot).is_some()
        || !is_promised(promised, &vote.ballot)
        || vote.slot.get() <= floor.get()
    {
        return Err(KeeperFault::Damaged);
    }
    if votes.put(vote).is_err() {
        return Err(KeeperFault::Memory);
    }
    Ok(())
}

// Returns the votes that the rows of `vote` show. Each row is dropped as it is read.
fn votes_in<B: Drop, C: Coder<B>>(
    alloc: Global,
    promised: &Option<Ballot>,
    floor: Floor,
    rows: Vec<Row>,
) -> Result<Votes<B>, KeeperFault>
    ensures votes { IfOk result (λ votes. votes_after C.reading promised.now floor [] rows.items ≡ Some votes) }
    ensures fault { IfErr result (λ fault. fault ≢ KeeperFault.Memory
        → (fault ≡ KeeperFault.Damaged) × (votes_after C.reading promised.now floor [] rows.items ≡ None)) }
{
    let mut votes = Votes::new(alloc);
    for row in rows {
        put_row::<B, C>(alloc, promised, floor, &mut votes, &row)?;
    }
    Ok(votes)
}

// Returns the rows with these votes.
fn rows_with<B>(numbers: &Numbers, snapshot: Option<Snapshot>, votes: Votes<B>) -> Rows<B>
    ensures { result ≡ rows_with numbers.now snapshot votes }
{
    Rows {
        boot: numbers.boot,
        promised: numbers.promised,
        snapshot,
        votes,
    }
}

// Reads the numbers and the votes beside the snapshot.
fn read_beside<B: Drop, C: Coder<B>>(
    alloc: Global,
    metas: &[Row],
    votes: Vec<Row>,
    snapshot: Option<Snapshot>,
) -> Result<Rows<B>, KeeperFault>
    ensures rows { IfOk result (λ rows. option_and_then (votes_with C.reading votes.items snapshot) (numbers_in 2 (floor_in snapshot) metas.now) ≡ Some rows) }
    ensures fault { IfErr result (λ fault. fault ≢ KeeperFault.Memory
        → (fault ≡ KeeperFault.Damaged) × (option_and_then (votes_with C.reading votes.items snapshot) (numbers_in 2 (floor_in snapshot) metas.now) ≡ None)) }
    ensures numbers { IfOk result (λ rows. are_numbers (numbers_in_rows rows) ≡ true) }
{
    let Some(numbers) = numbers_in(2, floor_in(&snapshot), metas) else {
        drop(snapshot);
        return Err(KeeperFault::Damaged);
    };
    match votes_in::<B, C>(alloc, &numbers.promised, numbers.floor, votes) {
        Ok(votes) => Ok(rows_with(&numbers, snapshot, votes)),
        Err(fault) => {
            drop(snapshot);
            Err(fault)
        }
    }
}

/// Reads the rows of an acceptor from those of the three tables: of `meta` k, version, boot, round and node, of `vote` slot, round, node and
/// entry, of `snapshot` k, floor and octets, in any order. Each row of `vote` is dropped as it is read; the snapshot's octets are copied once.
///
/// `Version` if `meta` has one row, of k 1 and of a version other than 1 and 2; otherwise `Damaged` if `meta` does not have just one row, of
/// k 1 and version 2, or `snapshot` just one, of k 1, a number is out of range, the snapshot's octets do not begin with its floor (with floor
/// 0, if there are any), an entry cannot be read, two votes have one slot, or a vote is above the promise, or not above the floor; `Memory`
/// if memory runs out.
pub fn read_rows<B: Drop, C: Coder<B>>(
    alloc: Global,
    metas: &[Row],
    votes: Vec<Row>,
    snapshots: &[Row],
) -> Result<Rows<B>, KeeperFault>
    ensures rows { IfOk result (λ rows. rows_of C.reading (record { metas = metas.now; votes = votes.items; snapshots = snapshots.now }) ≡ Ok rows) }
    ensures fault { IfErr result (λ fault. fault ≢ KeeperFault.Memory
        → rows_of C.reading (record { metas = metas.now; votes = votes.items; snapshots = snapshots.now }) ≡ Err fault) }
    ensures below { IfErr result LiesBelow }
    ensures numbers { IfOk result (λ rows. are_numbers (numbers_in_rows rows) ≡ true) }
{
    if is_other_version(metas) {
        drop(votes);
        return Err(KeeperFault::Version);
    }
    match snapshot_in(alloc, snapshots) {
        Ok(snapshot) => read_beside::<B, C>(alloc, metas, votes, snapshot),
        Err(fault) => {
            drop(votes);
            Err(fault)
        }
    }
}
