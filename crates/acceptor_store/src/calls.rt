// The calls of a keeper, over its session.
ghost use Rattle.std.specs.Prelude.{◌≡◌, ◌⊎◌, ◌<◌, ◌≤◌, ◌-◌, ◌^◌, ◌≢◌, Some, None, [], IsTrue, IfOk, IfErr, OnOk, IsErrOf, true, false};
ghost use Rattle.std.specs.List.{AllByRecursion};
ghost use Rattle.sqlite_trees.specs.Tree.{Trees};
ghost use Rattle.sqlite_trees.specs.View.{doubt};
ghost use Rattle.sqlite.specs.Effect.{Database};
ghost use Rattle.sqlite.specs.Held.{state};
ghost use Rattle.sqlite.specs.State.{HasCleanDisk, Survives};
ghost use Rattle.paxos_packets.specs.Rows.{last_boot, raised};
ghost use Rattle.paxos_packets.specs.declared.rows.Rows.{Rows};
ghost use Rattle.paxos_acceptor.specs.Acceptor.{adopted};
ghost use Rattle.store_keeper.specs.Keeper.{no_rows};
ghost use Rattle.acceptor_store.specs.Tables.{empty_schema, old_schema};
ghost use Rattle.acceptor_store.specs.Statements.{IsFounded};
ghost use Rattle.acceptor_store.specs.Store.{Stores, StoresOld, HasStored, Leaves, LeavesOr, written, Follows};
ghost use Rattle.store_rows.specs.Numbers.{numbers_in_rows, are_numbers, is_ballot};
ghost use Rattle.store_rows.specs.Changes.{is_placed};
ghost use Rattle.acceptor_store.specs.Calls.{HeldBy, WhenHeld, Readies};
ghost use Rattle.store_rows.specs.Faults.{LiesBelow};
ghost use Rattle.acceptor_store.specs.Answers.{Gives, Tells, Refuses, IsUnfit, are_spelled, has_place};

use crate::session::Session;
use crate::statements::read_meta;
use crate::store::{commit_rows, found_store, read_store, renew_store, settle};
use crate::tables::{has_old_tables, is_empty};
use command_codec::Coder;
use paxos_packets::{Body, Change, Rows, Snapshot, Vote, Votes};
use sqlite::{Alter, Connection};
use std::alloc::Global;
use store_keeper::KeeperFault;
use store_rows::{Numbers, numbers_after, old_numbers, raise_boot};

// Makes the tables of an empty database.
fn found_anew<B, C: Coder<B>, S: Alter>(conn: &mut Connection<S>) -> Result<(), KeeperFault>
    requires alone { conn.old.in_transaction ≡ false }
    requires nothing { conn.old.schema ≡ empty_schema }
    ensures alone { conn.new.in_transaction ≡ false }
    ensures founded { HasCleanDisk (state S.Store conn.new) → OnOk result (Leaves C.reading (state S.Store conn.new) no_rows) }
    ensures crash { Survives (state S.Store conn.old) (state S.Store conn.new)
        (λ trees. (db : Database) × (conn.old.schema ≡ empty_schema → IsFounded db) × (trees ≡ db.trees)) }
    ensures fault { IfErr result (λ e. (e ≡ KeeperFault.Memory) ⊎ (e ≡ KeeperFault.Store)) }
{
    found_store(conn)?;
    settle(conn); // for the proof
    Ok(())
}

// Makes the tables of version 1 those of this version.
fn renew<B, C: Coder<B>, S: Alter>(
    conn: &mut Connection<S>,
    numbers: &Numbers,
) -> Result<(), KeeperFault>
    requires alone { conn.old.in_transaction ≡ false }
    requires numbers { are_numbers numbers.now ≡ true }
    ensures alone { conn.new.in_transaction ≡ false }
    ensures renewed { IsTrue (state S.Store conn.old).is_open → (rows : Rows B) → StoresOld C.reading (state S.Store conn.old).committed.trees rows
        → numbers.now ≡ numbers_in_rows rows → HasCleanDisk (state S.Store conn.new) → OnOk result (Leaves C.reading (state S.Store conn.new) rows) }
    ensures crash { Survives (state S.Store conn.old) (state S.Store conn.new)
        (λ trees. (db : Database) × (IsTrue (state S.Store conn.old).is_open → (rows : Rows B) → StoresOld C.reading (state S.Store conn.old).committed.trees rows
        → numbers.now ≡ numbers_in_rows rows → Stores C.reading db.trees rows) × (trees ≡ db.trees)) }
    ensures fault { IfErr result (λ e. (e ≡ KeeperFault.Memory) ⊎ (e ≡ KeeperFault.Store)) }
{
    settle(conn); // for the proof
    renew_store::<B, C, S>(conn, numbers)?;
    settle(conn); // for the proof
    Ok(())
}

// Makes the tables of version 1 those of this version, if `meta` has one row of that version; leaves them as they are otherwise.
fn renew_where_old<B, C: Coder<B>, S: Alter>(conn: &mut Connection<S>) -> Result<(), KeeperFault>
    requires alone { conn.old.in_transaction ≡ false }
    requires tables { conn.old.schema ≡ old_schema }
    ensures alone { conn.new.in_transaction ≡ false }
    ensures renewed { IsTrue (state S.Store conn.old).is_open → (rows : Rows B) → StoresOld C.reading (state S.Store conn.old).committed.trees rows
        → HasCleanDisk (state S.Store conn.new) → OnOk result (Leaves C.reading (state S.Store conn.new) rows) }
    ensures crash { Survives (state S.Store conn.old) (state S.Store conn.new)
        (λ trees. (db : Database) × (IsTrue (state S.Store conn.old).is_open → (rows : Rows B) → StoresOld C.reading (state S.Store conn.old).committed.trees rows
        → Stores C.reading db.trees rows) × (trees ≡ db.trees)) }
    ensures fault { IfErr result (λ e. (e ≡ KeeperFault.Memory) ⊎ (e ≡ KeeperFault.Store)) }
{
    settle(conn); // for the proof
    let metas = read_meta(conn)?;
    let Some(numbers) = old_numbers(metas.as_slice()) else {
        return Ok(());
    };
    renew::<B, C, S>(conn, &numbers)
}

// Makes the tables, if the database is empty, and those of version 1 those of this version.
pub(crate) fn make_ready<B, C: Coder<B>, S: Alter>(
    alloc: Global,
    conn: &mut Connection<S>,
) -> Result<(), KeeperFault>
    requires { conn.old.in_transaction ≡ false }
    ensures alone { conn.new.in_transaction ≡ false }
    ensures founded { conn.old.schema ≡ empty_schema → HasCleanDisk (state S.Store conn.new)
        → OnOk result (Leaves C.reading (state S.Store conn.new) no_rows) }
    ensures again { IsTrue (state S.Store conn.old).is_open → (rows : Rows B) → HasStored C.reading (state S.Store conn.old).committed.trees rows
        → HasCleanDisk (state S.Store conn.new) → OnOk result (Leaves C.reading (state S.Store conn.new) rows) }
    ensures crash { Survives (state S.Store conn.old) (state S.Store conn.new)
        (λ trees. (db : Database) × Readies C.reading (state S.Store conn.old) db × (trees ≡ db.trees)) }
    ensures fault { IfErr result (λ e. (e ≡ KeeperFault.Memory) ⊎ (e ≡ KeeperFault.Store)) }
{
    settle(conn); // for the proof
    if is_empty(conn.schema()) {
        return found_anew::<B, C, S>(conn);
    }
    match has_old_tables(alloc, conn.schema()) {
        Ok(true) => renew_where_old::<B, C, S>(conn),
        Ok(false) => Ok(()),
        Err(_) => Err(KeeperFault::Memory),
    }
}

// Reads the rows, whose numbers are known from then on.
fn read<B: Body, C: Coder<B>, S: Alter>(session: &mut Session<S>) -> Result<Rows<B>, KeeperFault>
    ensures held { IfOk result (HeldBy S.Store C.reading session.new) }
    ensures right { WhenHeld S.Store C.reading session.old session.new (λ rows. IfOk result (λ read. read ≡ rows)) }
    ensures kept { (rows : Rows B) → HeldBy S.Store C.reading session.old rows → HeldBy S.Store C.reading session.new rows }
    ensures survives { Survives (state S.Store session.old.conn) (state S.Store session.new.conn) (λ _. ⊥) }
    ensures told { IfOk result (λ rows. session.new.known ≡ Some (numbers_in_rows rows)) }
    ensures gives { HasCleanDisk (state S.Store session.new.conn) → IfOk result (Gives C.reading (state S.Store session.old.conn).now) }
    ensures tells { HasCleanDisk (state S.Store session.new.conn) → IfErr result (Tells C.reading (state S.Store session.old.conn).now) }
    ensures sound { WhenHeld S.Store C.reading session.old session.new (λ rows. IsUnfit result → ⊥) }
    ensures fault { IfErr result LiesBelow }
{
    settle(&session.conn); // for the proof
    let rows = read_store::<B, C, S>(session.alloc, &mut session.conn)?;
    session.known = Some(Numbers::of(&rows));
    Ok(rows)
}

// Returns the numbers that the store has; reads the rows if they are not known.
fn numbers<B: Body, C: Coder<B>, S: Alter>(session: &mut Session<S>) -> Result<Numbers, KeeperFault>
    ensures kept { (rows : Rows B) → HeldBy S.Store C.reading session.old rows → HeldBy S.Store C.reading session.new rows }
    ensures survives { Survives (state S.Store session.old.conn) (state S.Store session.new.conn) (λ _. ⊥) }
    ensures told { IfOk result (λ numbers. session.new.known ≡ Some numbers) }
    ensures refused { WhenHeld S.Store C.reading session.old session.new (λ rows.
        IsTrue (state S.Store session.old.conn).is_open → IfErr result (Refuses ⊥)) }
    ensures fault { IfErr result LiesBelow }
{
    if let Some(numbers) = session.known {
        return Ok(numbers);
    }
    settle(&session.conn); // for the proof
    let rows = read::<B, C, S>(session)?;
    Ok(Numbers::of(&rows))
}

// Returns whether the boot number and the promise are the same.
fn are_same(left: &Numbers, right: &Numbers) -> bool
    ensures { IsTrue result → (left.now.boot ≡ right.now.boot) × (left.now.promised ≡ right.now.promised) }
{
    left.boot == right.boot && left.promised == right.promised
}

// Returns whether there is neither a snapshot nor a vote.
fn is_nothing<B>(snapshot: &Option<Snapshot>, votes: &[Vote<B>]) -> bool
    ensures nothing { IsTrue result → (snapshot.now ≡ None) × (votes.now ≡ []) }
    ensures something { result ≡ false → (snapshot.now ≢ None) ⊎ (votes.now ≢ []) }
{
    snapshot.is_none() && votes.is_empty()
}

// Commits the votes, the snapshot if there is a new one, and the numbers if they differ from those that are known.
fn commit_over<B, C: Coder<B>, S: Alter>(
    conn: &mut Connection<S>,
    known: &Numbers,
    numbers: &Numbers,
    snapshot: &Option<Snapshot>,
    votes: &[Vote<B>],
    octets: &mut Vec<u8>,
) -> Result<(), KeeperFault>
    requires alone { conn.old.in_transaction ≡ false }
    requires numbers { are_numbers numbers.now ≡ true }
    requires ballots { AllByRecursion (λ v. is_ballot v.ballot ≡ true) votes.now }
    ensures alone { conn.new.in_transaction ≡ false }
    ensures ok { HasCleanDisk (state S.Store conn.new) → (rows : Rows B) → Leaves C.reading (state S.Store conn.old) rows
        → known.now ≡ numbers_in_rows rows → Follows true rows numbers.now snapshot.now
        → AllByRecursion (λ v. is_placed numbers.now.promised numbers.now.floor v ≡ true) votes.now
        → OnOk result (Leaves C.reading (state S.Store conn.new) (written numbers.now snapshot.now votes.now rows)) }
    ensures found { HasCleanDisk (state S.Store conn.new) → (rows : Rows B) → Leaves C.reading (state S.Store conn.old) rows
        → known.now ≡ numbers_in_rows rows → Follows true rows numbers.now snapshot.now
        → AllByRecursion (λ v. is_placed numbers.now.promised numbers.now.floor v ≡ true) votes.now
        → (trees : Trees) → (state S.Store conn.new).may_leave trees
        → (state S.Store conn.old).may_leave trees ⊎ Stores C.reading trees (written numbers.now snapshot.now votes.now rows) }
    ensures clean { doubt (state S.Store conn.old).is_clean ≤ doubt (state S.Store conn.new).is_clean }
    ensures spelled { OnOk result (are_spelled C.spelling votes.now ≡ true) }
    ensures refused { IfErr result (Refuses (are_spelled C.spelling votes.now ≡ false)) }
    ensures kept { IsErrOf result KeeperFault.Damaged → Survives (state S.Store conn.old) (state S.Store conn.new) (λ _. ⊥) }
    ensures fault { IfErr result LiesBelow }
{
    if !are_same(numbers, known) {
        return commit_rows::<B, C, S>(conn, true, numbers, snapshot, votes, octets);
    }
    if is_nothing(snapshot, votes) {
        return Ok(());
    }
    commit_rows::<B, C, S>(conn, false, numbers, snapshot, votes, octets)
}

// Commits the numbers.
fn put_numbers<B: Body, C: Coder<B>, S: Alter>(
    alloc: Global,
    conn: &mut Connection<S>,
    numbers: &Numbers,
    octets: &mut Vec<u8>,
) -> Result<(), KeeperFault>
    requires alone { conn.old.in_transaction ≡ false }
    requires numbers { are_numbers numbers.now ≡ true }
    ensures alone { conn.new.in_transaction ≡ false }
    ensures ok { HasCleanDisk (state S.Store conn.new) → (rows : Rows B) → Leaves C.reading (state S.Store conn.old) rows → Follows true rows numbers.now None
        → OnOk result (Leaves C.reading (state S.Store conn.new) (written numbers.now None [] rows)) }
    ensures found { HasCleanDisk (state S.Store conn.new) → (rows : Rows B) → Leaves C.reading (state S.Store conn.old) rows → Follows true rows numbers.now None
        → (trees : Trees) → (state S.Store conn.new).may_leave trees
        → (state S.Store conn.old).may_leave trees ⊎ Stores C.reading trees (written numbers.now None [] rows) }
    ensures clean { doubt (state S.Store conn.old).is_clean ≤ doubt (state S.Store conn.new).is_clean }
    ensures whole { IfErr result (Refuses ⊥) }
    ensures fault { IfErr result LiesBelow }
{
    let none: Votes<B> = Votes::new(alloc);
    commit_rows::<B, C, S>(conn, true, numbers, &None, none.as_slice(), octets)
}

// Commits the change, if it has a place.
fn write<B: Body, C: Coder<B>, S: Alter>(
    session: &mut Session<S>,
    change: &Change<B>,
) -> Result<(), KeeperFault>
    ensures ok { OnOk result ((rows : Rows B) → HeldBy S.Store C.reading session.old rows
        → HeldBy S.Store C.reading session.new (adopted rows change.now)) }
    ensures crash { (rows : Rows B) → HeldBy S.Store C.reading session.old rows
        → LeavesOr S.Store C.reading session.old.conn session.new.conn (adopted rows change.now) }
    ensures placed { WhenHeld S.Store C.reading session.old session.new (λ rows. OnOk result (has_place C.spelling (numbers_in_rows rows) change.now ≡ true)) }
    ensures refused { WhenHeld S.Store C.reading session.old session.new (λ rows.
        IsTrue (state S.Store session.old.conn).is_open → IfErr result (Refuses (has_place C.spelling (numbers_in_rows rows) change.now ≡ false))) }
    ensures kept { IsErrOf result KeeperFault.Damaged → Survives (state S.Store session.old.conn) (state S.Store session.new.conn) (λ _. ⊥) }
    ensures fault { IfErr result LiesBelow }
{
    let before = numbers::<B, C, S>(session)?;
    let Some(next) = numbers_after(&before, change) else {
        return Err(KeeperFault::Damaged);
    };
    commit_over::<B, C, S>(
        &mut session.conn,
        &before,
        &next,
        &change.snapshot,
        change.votes.as_slice(),
        &mut session.octets,
    )?;
    session.known = Some(next);
    Ok(())
}

// Raises the boot number, and commits that.
fn raise<B: Body, C: Coder<B>, S: Alter>(session: &mut Session<S>) -> Result<Rows<B>, KeeperFault>
    ensures held { IfOk result (HeldBy S.Store C.reading session.new) }
    ensures right { WhenHeld S.Store C.reading session.old session.new (λ rows. IfOk result (λ booted. booted ≡ raised rows)) }
    ensures sound { WhenHeld S.Store C.reading session.old session.new (λ rows. IsUnfit result → ⊥) }
    ensures clean { doubt (state S.Store session.old.conn).is_clean ≤ doubt (state S.Store session.new.conn).is_clean }
    ensures within { IfOk result (λ rows. rows.boot ≤ last_boot) }
    ensures last { WhenHeld S.Store C.reading session.old session.new (λ rows. IsErrOf result KeeperFault.Boots → last_boot ≤ rows.boot) }
    ensures crash { (rows : Rows B) → HeldBy S.Store C.reading session.old rows
        → LeavesOr S.Store C.reading session.old.conn session.new.conn (raised rows) }
    ensures fault { IfErr result (λ e. e ≢ KeeperFault.Failed) }
{
    let mut rows = read::<B, C, S>(session)?;
    raise_boot(&mut rows)?;
    let numbers = Numbers::of(&rows);
    put_numbers::<B, C, S>(
        session.alloc,
        &mut session.conn,
        &numbers,
        &mut session.octets,
    )?;
    session.known = Some(numbers);
    Ok(rows)
}

// Counts a refusal of the connection, and returns the fault.
fn count_refusal(fault: KeeperFault, failures: &mut u64) -> KeeperFault
    ensures fault { (result ≡ fault) ⊎ (result ≡ KeeperFault.Failed) }
    ensures store { result ≡ KeeperFault.Store → failures.old < failures.new }
    ensures counts { failures.old ≤ failures.new }
    ensures spent { result ≡ KeeperFault.Failed → (fault ≡ KeeperFault.Failed) ⊎ (failures.old ≡ 2 ^ 64 - 1) }
{
    if fault != KeeperFault::Store {
        return fault;
    }
    if *failures == u64::MAX {
        return KeeperFault::Failed;
    }
    *failures += 1;
    KeeperFault::Store
}

// Reads the rows; counts refusals of the connection.
pub(crate) fn load_from<B: Body, C: Coder<B>, S: Alter>(
    session: &mut Session<S>,
    failures: &mut u64,
) -> Result<Rows<B>, KeeperFault>
    ensures held { IfOk result (HeldBy S.Store C.reading session.new) }
    ensures right { WhenHeld S.Store C.reading session.old session.new (λ rows. IfOk result (λ read. read ≡ rows)) }
    ensures kept { (rows : Rows B) → HeldBy S.Store C.reading session.old rows → HeldBy S.Store C.reading session.new rows }
    ensures survives { Survives (state S.Store session.old.conn) (state S.Store session.new.conn) (λ _. ⊥) }
    ensures gives { HasCleanDisk (state S.Store session.new.conn) → IfOk result (Gives C.reading (state S.Store session.old.conn).now) }
    ensures tells { HasCleanDisk (state S.Store session.new.conn) → IfErr result (Tells C.reading (state S.Store session.old.conn).now) }
    ensures sound { WhenHeld S.Store C.reading session.old session.new (λ rows. IsUnfit result → ⊥) }
    ensures spent { IsErrOf result KeeperFault.Failed → failures.old ≡ 2 ^ 64 - 1 }
    ensures store { IsErrOf result KeeperFault.Store → failures.old < failures.new }
    ensures counts { failures.old ≤ failures.new }
{
    match read::<B, C, S>(session) {
        Ok(rows) => Ok(rows),
        Err(fault) => Err(count_refusal(fault, failures)),
    }
}

// Commits the change; counts refusals of the connection.
pub(crate) fn commit_to<B: Body, C: Coder<B>, S: Alter>(
    session: &mut Session<S>,
    change: &Change<B>,
    failures: &mut u64,
) -> Result<(), KeeperFault>
    ensures ok { OnOk result ((rows : Rows B) → HeldBy S.Store C.reading session.old rows
        → HeldBy S.Store C.reading session.new (adopted rows change.now)) }
    ensures crash { (rows : Rows B) → HeldBy S.Store C.reading session.old rows
        → LeavesOr S.Store C.reading session.old.conn session.new.conn (adopted rows change.now) }
    ensures placed { WhenHeld S.Store C.reading session.old session.new (λ rows. OnOk result (has_place C.spelling (numbers_in_rows rows) change.now ≡ true)) }
    ensures refused { WhenHeld S.Store C.reading session.old session.new (λ rows.
        IsTrue (state S.Store session.old.conn).is_open → IfErr result (Refuses (has_place C.spelling (numbers_in_rows rows) change.now ≡ false))) }
    ensures kept { IsErrOf result KeeperFault.Damaged → Survives (state S.Store session.old.conn) (state S.Store session.new.conn) (λ _. ⊥) }
    ensures spent { IsErrOf result KeeperFault.Failed → failures.old ≡ 2 ^ 64 - 1 }
    ensures store { IsErrOf result KeeperFault.Store → failures.old < failures.new }
    ensures counts { failures.old ≤ failures.new }
{
    match write::<B, C, S>(session, change) {
        Ok(()) => Ok(()),
        Err(fault) => Err(count_refusal(fault, failures)),
    }
}

// Begins a boot; counts refusals of the connection.
pub(crate) fn boot_from<B: Body, C: Coder<B>, S: Alter>(
    session: &mut Session<S>,
    failures: &mut u64,
) -> Result<Rows<B>, KeeperFault>
    ensures held { IfOk result (HeldBy S.Store C.reading session.new) }
    ensures right { WhenHeld S.Store C.reading session.old session.new (λ rows. IfOk result (λ booted. booted ≡ raised rows)) }
    ensures sound { WhenHeld S.Store C.reading session.old session.new (λ rows. IsUnfit result → ⊥) }
    ensures clean { doubt (state S.Store session.old.conn).is_clean ≤ doubt (state S.Store session.new.conn).is_clean }
    ensures within { IfOk result (λ rows. rows.boot ≤ last_boot) }
    ensures last { WhenHeld S.Store C.reading session.old session.new (λ rows. IsErrOf result KeeperFault.Boots → last_boot ≤ rows.boot) }
    ensures crash { (rows : Rows B) → HeldBy S.Store C.reading session.old rows
        → LeavesOr S.Store C.reading session.old.conn session.new.conn (raised rows) }
    ensures spent { IsErrOf result KeeperFault.Failed → failures.old ≡ 2 ^ 64 - 1 }
    ensures store { IsErrOf result KeeperFault.Store → failures.old < failures.new }
    ensures counts { failures.old ≤ failures.new }
{
    match raise::<B, C, S>(session) {
        Ok(rows) => Ok(rows),
        Err(fault) => Err(count_refusal(fault, failures)),
    }
}
