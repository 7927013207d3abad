// What is made, read and committed over a connection, one transaction for each change.
ghost use Rattle.std.specs.Prelude.{is_some, ◌≡◌, ◌≢◌, ◌⊎◌, ◌↔◌, ◌<◌, ◌≤◌, ℕ, suc, [], true, false, IsTrue, OnOk, IfOk, IfErr, IsErrOf, Ok, Err, Some, None};
ghost use Rattle.std.specs.Option.{option_or};
ghost use Rattle.std.specs.List.{AllByRecursion};
ghost use Rattle.sqlite_trees.specs.Tree.{Trees};
ghost use Rattle.sqlite_trees.specs.View.{doubt};
ghost use Rattle.sqlite.specs.Effect.{Database};
ghost use Rattle.sqlite.specs.Held.{state};
ghost use Rattle.sqlite.specs.State.{HasCleanDisk, IsLive, Survives, Shows};
ghost use Rattle.paxos_packets.specs.Rows.{kept_votes};
ghost use Rattle.paxos_packets.specs.Snapshot.{floor_in};
ghost use Rattle.paxos_packets.specs.Vote.{put_vote, put_votes, votes_from};
ghost use Rattle.paxos_packets.specs.declared.rows.Rows.{Rows};
ghost use Rattle.paxos_packets.specs.declared.vote.Vote.{Vote};
ghost use Rattle.command_codec.specs.Entry.{entry_reading, entry_spelling};
ghost use Rattle.acceptor_store.specs.Tables.{store_schema, old_schema, empty_schema};
ghost use Rattle.acceptor_store.specs.Statements.{IsFounded};
ghost use Rattle.store_rows.specs.Faults.{LiesBelow};
ghost use Rattle.acceptor_store.specs.Answers.{Gives, HasOtherVersion, Tells, Refuses, IsUnfit, are_spelled};
ghost use Rattle.acceptor_store.specs.Store.{Reads, written, Leaves, Follows, GoesOn, Wrote, Stores, StoresOld};
ghost use Rattle.store_rows.specs.Numbers.{numbers_in_rows, is_ballot, are_numbers};
ghost use Rattle.store_rows.specs.Changes.{is_placed, floor_after};
ghost use Rattle.store_rows.specs.Rows.{is_other_version};

use crate::statements::{
    Read, fault_of, forget_votes, make_tables, put_meta, put_snapshot, put_vote, read_meta,
    read_tables, renew_tables,
};
use crate::tables::{has_old_tables, has_store_tables};
use command_codec::laws::spellings_are_apart;
use command_codec::{CodecFault, Coder, Entry, put_entry};
use paxos_packets::{Body, Floor, Rows, Snapshot, Vote};
use sqlite::{Alter, Connection, Row, Transaction};
use std::alloc::Global;
use store_keeper::KeeperFault;
use store_rows::{Numbers, is_other_version, read_rows};

// Does nothing. Its contract says what a connection is known to be between two calls.
pub(crate) fn settle<S: Alter>(conn: &Connection<S>)
    ensures live { IsLive (state S.Store conn.now) }
    ensures settled { conn.now.in_transaction ≡ false → IsTrue (state S.Store conn.now).is_open
        → (state S.Store conn.now).now ≡ (state S.Store conn.now).committed }
    ensures crash { IsTrue (state S.Store conn.now).is_open → (trees : Trees) → (state S.Store conn.now).may_leave trees
        → trees ≡ (state S.Store conn.now).committed.trees }
    ensures stays { IsTrue (state S.Store conn.now).is_open → (state S.Store conn.now).may_leave (state S.Store conn.now).committed.trees }
{
    let _settled = conn.is_autocommit(); // for the proof
    let _schema = conn.schema(); // for the proof
}

// Writes the entry's octets in the place of those that were there.
fn spell<B, C: Coder<B>>(entry: &Entry<B>, octets: &mut Vec<u8>) -> Result<(), KeeperFault>
    ensures read { OnOk result (entry_reading C.reading octets.new.items ≡ Ok entry.now) }
    ensures spelled { OnOk result (is_some (entry_spelling C.spelling entry.now) ≡ true) }
    ensures fault { IfErr result (λ e. (e ≡ KeeperFault.Memory) ⊎ ((e ≡ KeeperFault.Damaged) × (entry_spelling C.spelling entry.now ≡ None))) }
{
    spellings_are_apart::<B, C>(); // for the proof
    octets.clear();
    match put_entry::<B, C>(entry, octets) {
        Ok(()) => Ok(()),
        Err(CodecFault::Range) => Err(KeeperFault::Damaged),
        Err(CodecFault::Short | CodecFault::Tag | CodecFault::Rest | CodecFault::Memory) => Err(
            KeeperFault::Memory,
        ),
    }
}

// Puts one vote, which may be held under the promise.
fn write_vote<B, C: Coder<B>, S: Alter>(
    tx: &mut Transaction<'_, S>,
    vote: &Vote<B>,
    octets: &mut Vec<u8>,
) -> Result<(), KeeperFault>
    requires { is_ballot vote.now.ballot ≡ true }
    ensures same_reference { tx.new.conn.ghost_name ≡ tx.old.conn.ghost_name }
    ensures put { HasCleanDisk (state S.Store tx.new.conn.now) → IsTrue (state S.Store tx.old.conn.now).in_transaction
        → (rows : Rows B) → Reads C.reading (state S.Store tx.old.conn.now).now rows → is_placed rows.promised (floor_in rows.snapshot) vote.now ≡ true
        → OnOk result (Reads C.reading (state S.Store tx.new.conn.now).now (record rows { votes = put_vote vote.now rows.votes })) }
    ensures goes { HasCleanDisk (state S.Store tx.new.conn.now) → IsTrue (state S.Store tx.old.conn.now).in_transaction
        → OnOk result (GoesOn (Unit {0}) (state S.Store tx.old.conn.now) (state S.Store tx.new.conn.now)) }
    ensures survives { Survives (state S.Store tx.old.conn.now) (state S.Store tx.new.conn.now) (λ _. ⊥) }
    ensures spelled { OnOk result (is_some (entry_spelling C.spelling vote.now.entry) ≡ true) }
    ensures refused { IfErr result (Refuses (is_some (entry_spelling C.spelling vote.now.entry) ≡ false)) }
    ensures below { IfErr result LiesBelow }
{
    spell::<B, C>(&vote.entry, octets)?;
    put_vote::<B, C, S>(tx, vote.slot.get(), &vote.ballot, octets.as_slice())
}

// Puts the votes, one after the other, each of which may be held under the promise.
fn write_votes<B, C: Coder<B>, S: Alter>(
    tx: &mut Transaction<'_, S>,
    votes: &[Vote<B>],
    octets: &mut Vec<u8>,
) -> Result<(), KeeperFault>
    requires { AllByRecursion (λ v. is_ballot v.ballot ≡ true) votes.now }
    ensures same_reference { tx.new.conn.ghost_name ≡ tx.old.conn.ghost_name }
    ensures put { HasCleanDisk (state S.Store tx.new.conn.now) → IsTrue (state S.Store tx.old.conn.now).in_transaction
        → (rows : Rows B) → Reads C.reading (state S.Store tx.old.conn.now).now rows
        → AllByRecursion (λ v. is_placed rows.promised (floor_in rows.snapshot) v ≡ true) votes.now
        → OnOk result (Reads C.reading (state S.Store tx.new.conn.now).now (record rows { votes = put_votes votes.now rows.votes })) }
    ensures goes { HasCleanDisk (state S.Store tx.new.conn.now) → IsTrue (state S.Store tx.old.conn.now).in_transaction
        → OnOk result (GoesOn (votes.now ≢ []) (state S.Store tx.old.conn.now) (state S.Store tx.new.conn.now)) }
    ensures survives { Survives (state S.Store tx.old.conn.now) (state S.Store tx.new.conn.now) (λ _. ⊥) }
    ensures spelled { OnOk result (are_spelled C.spelling votes.now ≡ true) }
    ensures refused { IfErr result (Refuses (are_spelled C.spelling votes.now ≡ false)) }
    ensures below { IfErr result LiesBelow }
{
    for vote in votes {
        write_vote::<B, C, S>(tx, vote, octets)?;
    }
    Ok(())
}

// Puts the snapshot, and forgets the votes up to its floor.
fn put_cut<B, C: Coder<B>, S: Alter>(
    tx: &mut Transaction<'_, S>,
    snapshot: &Snapshot,
) -> Result<(), KeeperFault>
    ensures same_reference { tx.new.conn.ghost_name ≡ tx.old.conn.ghost_name }
    ensures put { HasCleanDisk (state S.Store tx.new.conn.now) → IsTrue (state S.Store tx.old.conn.now).in_transaction
        → (rows : Rows B) → Reads C.reading (state S.Store tx.old.conn.now).now rows → floor_after (floor_in rows.snapshot) (Some snapshot.now) ≡ Some snapshot.now.floor
        → OnOk result (Reads C.reading (state S.Store tx.new.conn.now).now
        (record rows { snapshot = Some snapshot.now; votes = votes_from (suc snapshot.now.floor) rows.votes })) }
    ensures goes { HasCleanDisk (state S.Store tx.new.conn.now) → IsTrue (state S.Store tx.old.conn.now).in_transaction
        → OnOk result (GoesOn (Unit {0}) (state S.Store tx.old.conn.now) (state S.Store tx.new.conn.now)) }
    ensures survives { Survives (state S.Store tx.old.conn.now) (state S.Store tx.new.conn.now) (λ _. ⊥) }
    ensures fault { IfErr result (λ e. (e ≡ KeeperFault.Memory) ⊎ (e ≡ KeeperFault.Store)) }
    ensures below { IfErr result LiesBelow }
{
    let floor = Floor::at(snapshot.floor());
    put_snapshot(tx, floor, snapshot.octets())?;
    forget_votes::<B, C, S>(tx, floor)
}

// Puts the snapshot, if there is one, and forgets the votes up to its floor.
fn write_snapshot<B, C: Coder<B>, S: Alter>(
    tx: &mut Transaction<'_, S>,
    snapshot: &Option<Snapshot>,
) -> Result<(), KeeperFault>
    ensures same_reference { tx.new.conn.ghost_name ≡ tx.old.conn.ghost_name }
    ensures put { HasCleanDisk (state S.Store tx.new.conn.now) → IsTrue (state S.Store tx.old.conn.now).in_transaction
        → (rows : Rows B) → Reads C.reading (state S.Store tx.old.conn.now).now rows
        → (floor : ℕ) → floor_after (floor_in rows.snapshot) snapshot.now ≡ Some floor
        → OnOk result (Reads C.reading (state S.Store tx.new.conn.now).now
        (record rows { snapshot = option_or snapshot.now rows.snapshot; votes = kept_votes snapshot.now rows.votes })) }
    ensures goes { HasCleanDisk (state S.Store tx.new.conn.now) → IsTrue (state S.Store tx.old.conn.now).in_transaction
        → OnOk result (GoesOn (snapshot.now ≢ None) (state S.Store tx.old.conn.now) (state S.Store tx.new.conn.now)) }
    ensures survives { Survives (state S.Store tx.old.conn.now) (state S.Store tx.new.conn.now) (λ _. ⊥) }
    ensures idle { snapshot.now ≡ None → tx.new.conn.now ≡ tx.old.conn.now }
    ensures fault { IfErr result (λ e. (e ≡ KeeperFault.Memory) ⊎ (e ≡ KeeperFault.Store)) }
    ensures below { IfErr result LiesBelow }
{
    match snapshot {
        Some(snapshot) => put_cut::<B, C, S>(tx, snapshot),
        None => Ok(()),
    }
}

// Puts the numbers, if they are to be put.
fn write_numbers<B, C: Coder<B>, S: Alter>(
    tx: &mut Transaction<'_, S>,
    puts: bool,
    numbers: &Numbers,
) -> Result<(), KeeperFault>
    requires { are_numbers numbers.now ≡ true }
    ensures same_reference { tx.new.conn.ghost_name ≡ tx.old.conn.ghost_name }
    ensures put { HasCleanDisk (state S.Store tx.new.conn.now) → IsTrue (state S.Store tx.old.conn.now).in_transaction
        → (rows : Rows B) → Reads C.reading (state S.Store tx.old.conn.now).now rows → Follows puts rows numbers.now None
        → OnOk result (Reads C.reading (state S.Store tx.new.conn.now).now (written numbers.now None [] rows)) }
    ensures goes { HasCleanDisk (state S.Store tx.new.conn.now) → IsTrue (state S.Store tx.old.conn.now).in_transaction
        → OnOk result (GoesOn (puts ≡ true) (state S.Store tx.old.conn.now) (state S.Store tx.new.conn.now)) }
    ensures survives { Survives (state S.Store tx.old.conn.now) (state S.Store tx.new.conn.now) (λ _. ⊥) }
    ensures idle { puts ≡ false → tx.new.conn.now ≡ tx.old.conn.now }
    ensures fault { IfErr result (λ e. (e ≡ KeeperFault.Memory) ⊎ (e ≡ KeeperFault.Store)) }
    ensures below { IfErr result LiesBelow }
{
    if puts {
        return put_meta(tx, numbers.boot, &numbers.promised);
    }
    Ok(())
}

// Puts the snapshot, the numbers and the votes.
fn write<B, C: Coder<B>, S: Alter>(
    tx: &mut Transaction<'_, S>,
    puts: bool,
    numbers: &Numbers,
    snapshot: &Option<Snapshot>,
    votes: &[Vote<B>],
    octets: &mut Vec<u8>,
) -> Result<(), KeeperFault>
    requires something { (puts ≡ true) ⊎ ((snapshot.now ≢ None) ⊎ (votes.now ≢ [])) }
    requires numbers { are_numbers numbers.now ≡ true }
    requires ballots { AllByRecursion (λ v. is_ballot v.ballot ≡ true) votes.now }
    ensures same_reference { tx.new.conn.ghost_name ≡ tx.old.conn.ghost_name }
    ensures put { HasCleanDisk (state S.Store tx.new.conn.now) → IsTrue (state S.Store tx.old.conn.now).in_transaction
        → (rows : Rows B) → Reads C.reading (state S.Store tx.old.conn.now).now rows → Follows puts rows numbers.now snapshot.now
        → AllByRecursion (λ v. is_placed numbers.now.promised numbers.now.floor v ≡ true) votes.now
        → OnOk result (Reads C.reading (state S.Store tx.new.conn.now).now (written numbers.now snapshot.now votes.now rows)) }
    ensures goes { HasCleanDisk (state S.Store tx.new.conn.now) → IsTrue (state S.Store tx.old.conn.now).in_transaction
        → OnOk result (GoesOn (Unit {0}) (state S.Store tx.old.conn.now) (state S.Store tx.new.conn.now)) }
    ensures survives { Survives (state S.Store tx.old.conn.now) (state S.Store tx.new.conn.now) (λ _. ⊥) }
    ensures spelled { OnOk result (are_spelled C.spelling votes.now ≡ true) }
    ensures refused { IfErr result (Refuses (are_spelled C.spelling votes.now ≡ false)) }
    ensures below { IfErr result LiesBelow }
{
    write_snapshot::<B, C, S>(tx, snapshot)?;
    write_numbers::<B, C, S>(tx, puts, numbers)?;
    write_votes::<B, C, S>(tx, votes, octets)
}

// Ends the transaction.
fn end<S: Alter>(tx: Transaction<'_, S>) -> Result<(), KeeperFault>
    ensures ended { tx.exit.0.now.in_transaction ≡ false }
    ensures ok { HasCleanDisk (state S.Store tx.exit.0.now)
        → OnOk result (Shows (state S.Store tx.entry.conn.now) (state S.Store tx.exit.0.now) (state S.Store tx.entry.conn.now).now (state S.Store tx.entry.conn.now).now false) }
    ensures survives { Survives (state S.Store tx.entry.conn.now) (state S.Store tx.exit.0.now) (λ trees. trees ≡ (state S.Store tx.entry.conn.now).now.trees) }
    ensures fault { IfErr result (λ e. (e ≡ KeeperFault.Memory) ⊎ (e ≡ KeeperFault.Store)) }
{
    match tx.commit() {
        Ok(()) => Ok(()),
        Err(error) => Err(fault_of(error)),
    }
}

// Commits the votes, the snapshot if there is a new one, and the numbers if they are to be put, in one transaction.
pub(crate) fn commit<B, C: Coder<B>, S: Alter>(
    conn: &mut Connection<S>,
    puts: bool,
    numbers: &Numbers,
    snapshot: &Option<Snapshot>,
    votes: &[Vote<B>],
    octets: &mut Vec<u8>,
) -> Result<(), KeeperFault>
    requires alone { conn.old.in_transaction ≡ false }
    requires something { (puts ≡ true) ⊎ ((snapshot.now ≢ None) ⊎ (votes.now ≢ [])) }
    requires numbers { are_numbers numbers.now ≡ true }
    requires ballots { AllByRecursion (λ v. is_ballot v.ballot ≡ true) votes.now }
    ensures alone { conn.new.in_transaction ≡ false }
    ensures ok { HasCleanDisk (state S.Store conn.new)
        → OnOk result (IsTrue (state S.Store conn.old).is_open × IsTrue (state S.Store conn.new).is_open
        × Wrote C.reading puts numbers.now snapshot.now votes.now (state S.Store conn.old).now (state S.Store conn.new).committed) }
    ensures crash { Survives (state S.Store conn.old) (state S.Store conn.new)
        (λ trees. IsTrue (state S.Store conn.old).is_open
        × ((db : Database) × Wrote C.reading puts numbers.now snapshot.now votes.now (state S.Store conn.old).now db × (trees ≡ db.trees))) }
    ensures spelled { OnOk result (are_spelled C.spelling votes.now ≡ true) }
    ensures refused { IfErr result (Refuses (are_spelled C.spelling votes.now ≡ false)) }
    ensures kept { IsErrOf result KeeperFault.Damaged → Survives (state S.Store conn.old) (state S.Store conn.new) (λ _. ⊥) }
    ensures below { IfErr result LiesBelow }
{
    let mut tx = conn.transaction();
    write::<B, C, S>(&mut tx, puts, numbers, snapshot, votes, octets)?;
    end(tx)
}

// Makes the tables of an empty database, in one transaction.
pub(crate) fn found_store<S: Alter>(conn: &mut Connection<S>) -> Result<(), KeeperFault>
    requires { conn.old.in_transaction ≡ false }
    ensures alone { conn.new.in_transaction ≡ false }
    ensures ok { HasCleanDisk (state S.Store conn.new) → (state S.Store conn.old).now.schema ≡ empty_schema
        → OnOk result (IsTrue (state S.Store conn.new).is_open × IsFounded (state S.Store conn.new).committed) }
    ensures crash { Survives (state S.Store conn.old) (state S.Store conn.new)
        (λ trees. (db : Database) × ((state S.Store conn.old).now.schema ≡ empty_schema → IsFounded db) × (trees ≡ db.trees)) }
    ensures fault { IfErr result (λ e. (e ≡ KeeperFault.Memory) ⊎ (e ≡ KeeperFault.Store)) }
{
    let mut tx = conn.transaction();
    make_tables(&mut tx)?;
    end(tx)
}

// Makes the tables of version 1 those of this version, in one transaction.
pub(crate) fn renew_store<B, C: Coder<B>, S: Alter>(
    conn: &mut Connection<S>,
    numbers: &Numbers,
) -> Result<(), KeeperFault>
    requires alone { conn.old.in_transaction ≡ false }
    requires numbers { are_numbers numbers.now ≡ true }
    ensures alone { conn.new.in_transaction ≡ false }
    ensures ok { HasCleanDisk (state S.Store conn.new) → (state S.Store conn.old).now.schema ≡ old_schema
        → (rows : Rows B) → StoresOld C.reading (state S.Store conn.old).now.trees rows → numbers.now ≡ numbers_in_rows rows
        → OnOk result (IsTrue (state S.Store conn.new).is_open × Reads C.reading (state S.Store conn.new).committed rows) }
    ensures crash { Survives (state S.Store conn.old) (state S.Store conn.new)
        (λ trees. (db : Database) × ((state S.Store conn.old).now.schema ≡ old_schema → (rows : Rows B) → StoresOld C.reading (state S.Store conn.old).now.trees rows
        → numbers.now ≡ numbers_in_rows rows → Reads C.reading db rows) × (trees ≡ db.trees)) }
    ensures fault { IfErr result (λ e. (e ≡ KeeperFault.Memory) ⊎ (e ≡ KeeperFault.Store)) }
{
    let mut tx = conn.transaction();
    renew_tables::<B, C, S>(&mut tx, numbers)?;
    end(tx)
}

// Returns the fault for tables that are not the store's: damage if the connection is open, since what a shut one shows says nothing.
fn damage<S: Alter>(conn: &mut Connection<S>) -> KeeperFault
    ensures mode { conn.old.in_transaction ≡ false → conn.new.in_transaction ≡ false }
    ensures open { HasCleanDisk (state S.Store conn.new) → result ≡ KeeperFault.Damaged → IsTrue (state S.Store conn.old).is_open }
    ensures fault { (result ≡ KeeperFault.Damaged) ⊎ ((result ≡ KeeperFault.Memory) ⊎ (result ≡ KeeperFault.Store)) }
    ensures survives { Survives (state S.Store conn.old) (state S.Store conn.new) (λ _. ⊥) }
{
    match conn.prepare("SELECT 1") {
        Ok(_) => KeeperFault::Damaged,
        Err(error) => fault_of(error),
    }
}

// Reads the rows that the store has.
pub(crate) fn read_store<B: Body, C: Coder<B>, S: Alter>(
    alloc: Global,
    conn: &mut Connection<S>,
) -> Result<Rows<B>, KeeperFault>
    requires { conn.old.in_transaction ≡ false }
    ensures alone { conn.new.in_transaction ≡ false }
    ensures stores { HasCleanDisk (state S.Store conn.new) → IfOk result (Leaves C.reading (state S.Store conn.new)) }
    ensures right { HasCleanDisk (state S.Store conn.new) → (rows : Rows B) → Leaves C.reading (state S.Store conn.old) rows
        → IfOk result (λ read. read ≡ rows) }
    ensures gives { HasCleanDisk (state S.Store conn.new) → IfOk result (Gives C.reading (state S.Store conn.old).now) }
    ensures tells { HasCleanDisk (state S.Store conn.new) → IfErr result (Tells C.reading (state S.Store conn.old).now) }
    ensures open { HasCleanDisk (state S.Store conn.new) → IsUnfit result → IsTrue (state S.Store conn.old).is_open }
    ensures survives { Survives (state S.Store conn.old) (state S.Store conn.new) (λ _. ⊥) }
    ensures below { IfErr result LiesBelow }
    ensures numbers { IfOk result (λ rows. are_numbers (numbers_in_rows rows) ≡ true) }
{
    match has_store_tables(alloc, conn.schema()) {
        Ok(true) => read_in_tables::<B, C, S>(alloc, conn),
        Ok(false) => Err(judge(alloc, conn)),
        Err(_) => Err(KeeperFault::Memory),
    }
}

// Returns the fault for tables that are not those of this version: another version if they are those of version 1 and `meta` says so,
// otherwise damage.
fn judge<S: Alter>(alloc: Global, conn: &mut Connection<S>) -> KeeperFault
    requires { conn.old.schema ≢ store_schema }
    ensures mode { conn.old.in_transaction ≡ false → conn.new.in_transaction ≡ false }
    ensures open { HasCleanDisk (state S.Store conn.new) → (result ≡ KeeperFault.Damaged) ⊎ (result ≡ KeeperFault.Version) → IsTrue (state S.Store conn.old).is_open }
    ensures version { HasCleanDisk (state S.Store conn.new) → result ≡ KeeperFault.Version → HasOtherVersion (state S.Store conn.old).now }
    ensures damaged { HasCleanDisk (state S.Store conn.new) → result ≡ KeeperFault.Damaged → ¬ HasOtherVersion (state S.Store conn.old).now }
    ensures survives { Survives (state S.Store conn.old) (state S.Store conn.new) (λ _. ⊥) }
    ensures below { LiesBelow result }
{
    match has_old_tables(alloc, conn.schema()) {
        Ok(true) => judge_old(conn),
        Ok(false) => damage(conn),
        Err(_) => KeeperFault::Memory,
    }
}

// Returns the fault for the tables of version 1: another version if `meta` says so, otherwise damage.
fn judge_old<S: Alter>(conn: &mut Connection<S>) -> KeeperFault
    requires { conn.old.schema ≡ old_schema }
    ensures mode { conn.old.in_transaction ≡ false → conn.new.in_transaction ≡ false }
    ensures open { HasCleanDisk (state S.Store conn.new) → (result ≡ KeeperFault.Damaged) ⊎ (result ≡ KeeperFault.Version) → IsTrue (state S.Store conn.old).is_open }
    ensures version { HasCleanDisk (state S.Store conn.new) → result ≡ KeeperFault.Version → HasOtherVersion (state S.Store conn.old).now }
    ensures damaged { HasCleanDisk (state S.Store conn.new) → result ≡ KeeperFault.Damaged → ¬ HasOtherVersion (state S.Store conn.old).now }
    ensures survives { Survives (state S.Store conn.old) (state S.Store conn.new) (λ _. ⊥) }
    ensures below { LiesBelow result }
{
    match read_meta(conn) {
        Ok(metas) => version_or_damage(metas.as_slice()),
        Err(fault) => fault,
    }
}

// Returns the fault for rows of `meta` that are not read.
fn version_or_damage(metas: &[Row]) -> KeeperFault
    ensures version { (result ≡ KeeperFault.Version) ↔ (is_other_version metas.now ≡ true) }
    ensures fault { (result ≡ KeeperFault.Version) ⊎ (result ≡ KeeperFault.Damaged) }
{
    if is_other_version(metas) {
        KeeperFault::Version
    } else {
        KeeperFault::Damaged
    }
}

// Reads the rows that the store has, whose tables are the store's.
fn read_in_tables<B: Body, C: Coder<B>, S: Alter>(
    alloc: Global,
    conn: &mut Connection<S>,
) -> Result<Rows<B>, KeeperFault>
    requires alone { conn.old.in_transaction ≡ false }
    requires tables { conn.old.schema ≡ store_schema }
    ensures alone { conn.new.in_transaction ≡ false }
    ensures stores { HasCleanDisk (state S.Store conn.new) → IfOk result (Leaves C.reading (state S.Store conn.new)) }
    ensures right { HasCleanDisk (state S.Store conn.new) → (rows : Rows B) → Leaves C.reading (state S.Store conn.old) rows
        → IfOk result (λ read. read ≡ rows) }
    ensures gives { HasCleanDisk (state S.Store conn.new) → IfOk result (Gives C.reading (state S.Store conn.old).now) }
    ensures tells { HasCleanDisk (state S.Store conn.new) → IfErr result (Tells C.reading (state S.Store conn.old).now) }
    ensures open { HasCleanDisk (state S.Store conn.new) → IsUnfit result → IsTrue (state S.Store conn.old).is_open }
    ensures survives { Survives (state S.Store conn.old) (state S.Store conn.new) (λ _. ⊥) }
    ensures below { IfErr result LiesBelow }
    ensures numbers { IfOk result (λ rows. are_numbers (numbers_in_rows rows) ≡ true) }
{
    let read = read_tables(conn)?;
    settle(conn); // for the proof
    let Read {
        metas,
        votes,
        snapshots,
    } = read;
    read_rows::<B, C>(alloc, metas.as_slice(), votes, snapshots.as_slice())
}

// Commits as `commit` does; its contract speaks of rows: those that are left after it, and those that a crash leaves of it.
pub(crate) fn commit_rows<B, C: Coder<B>, S: Alter>(
    conn: &mut Connection<S>,
    puts: bool,
    numbers: &Numbers,
    snapshot: &Option<Snapshot>,
    votes: &[Vote<B>],
    octets: &mut Vec<u8>,
) -> Result<(), KeeperFault>
    requires alone { conn.old.in_transaction ≡ false }
    requires something { (puts ≡ true) ⊎ ((snapshot.now ≢ None) ⊎ (votes.now ≢ [])) }
    requires numbers { are_numbers numbers.now ≡ true }
    requires ballots { AllByRecursion (λ v. is_ballot v.ballot ≡ true) votes.now }
    ensures alone { conn.new.in_transaction ≡ false }
    ensures ok { HasCleanDisk (state S.Store conn.new) → (rows : Rows B) → Leaves C.reading (state S.Store conn.old) rows
        → Follows puts rows numbers.now snapshot.now → AllByRecursion (λ v. is_placed numbers.now.promised numbers.now.floor v ≡ true) votes.now
        → OnOk result (Leaves C.reading (state S.Store conn.new) (written numbers.now snapshot.now votes.now rows)) }
    ensures found { HasCleanDisk (state S.Store conn.new) → (rows : Rows B) → Leaves C.reading (state S.Store conn.old) rows
        → Follows puts rows numbers.now snapshot.now → AllByRecursion (λ v. is_placed numbers.now.promised numbers.now.floor v ≡ true) votes.now
        → (trees : Trees) → (state S.Store conn.new).may_leave trees
        → (state S.Store conn.old).may_leave trees ⊎ Stores C.reading trees (written numbers.now snapshot.now votes.now rows) }
    ensures clean { doubt (state S.Store conn.old).is_clean ≤ doubt (state S.Store conn.new).is_clean }
    ensures spelled { OnOk result (are_spelled C.spelling votes.now ≡ true) }
    ensures refused { IfErr result (Refuses (are_spelled C.spelling votes.now ≡ false)) }
    ensures kept { IsErrOf result KeeperFault.Damaged → Survives (state S.Store conn.old) (state S.Store conn.new) (λ _. ⊥) }
    ensures below { IfErr result LiesBelow }
{
    settle(conn); // for the proof
    commit::<B, C, S>(conn, puts, numbers, snapshot, votes, octets)?;
    settle(conn); // for the proof
    Ok(())
}
