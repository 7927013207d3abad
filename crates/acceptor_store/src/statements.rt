// The statements of the store, each a function whose contract says what its text means.
ghost use Rattle.std.specs.Prelude.{◌≡◌, ◌⊎◌, ◌<◌, ◌^◌, ◌∷◌, [], ℕ, suc, List, Option, pos, true, false, IsTrue, OnOk, IfOk, IfErr, Ok, Err, IsPermutation};
ghost use Rattle.sqlite_value.specs.declared.value.Value.TheVariants.{Int, Blob};
ghost use Rattle.sqlite.specs.Held.{state};
ghost use Rattle.sqlite.specs.State.{HasCleanDisk, Survives, Shows, Shown, IsUnchanged, ExecutesInside, CommitsShowing};
ghost use Rattle.paxos_packets.specs.Vote.{put_vote, votes_from};
ghost use Rattle.paxos_packets.specs.declared.rows.Rows.{Rows};
ghost use Rattle.paxos_packets.specs.declared.ballot.Ballot.{Ballot};
ghost use Rattle.paxos_packets.specs.declared.vote.Vote.{Vote};
ghost use Rattle.acceptor_store.specs.Tables.{meta_table, vote_table, snapshot_table, old_tables, schema_of, store_schema, old_schema, empty_schema, meta_row, vote_row, snapshot_row};
ghost use Rattle.acceptor_store.specs.Tables.{create_meta_text, create_vote_text, create_snapshot_text, put_meta_text, put_vote_text, put_snapshot_text, delete_votes_text, read_meta_text, read_votes_text, read_snapshot_text};
ghost use Rattle.acceptor_store.specs.Statements.{round_of, node_of, HasAtMost, Makes, Edits, PutsAlone, Keeps, is_above, shown_in, AreShown, IsFounded};
ghost use Rattle.store_rows.specs.Rows.{is_promised};
ghost use Rattle.store_rows.specs.Numbers.{are_numbers, numbers_in_rows};
ghost use Rattle.acceptor_store.specs.Store.{IsVote, AreVotes, StoresOld, Reads};
ghost use Rattle.store_rows.specs.Faults.{LiesBelow};

use command_codec::Coder;
use paxos_packets::{Ballot, Floor};
use sqlite::{Alter, Connection, Error, ErrorCode, Row, Transaction, params};
use store_keeper::KeeperFault;
use store_rows::Numbers;

fn execute_create_meta<S: Alter>(tx: &mut Transaction<'_, S>) -> Result<usize, Error>
    ensures same_reference { tx.new.conn.ghost_name ≡ tx.old.conn.ghost_name }
    ensures runs { HasCleanDisk (state S.Store tx.new.conn.now) → IsTrue (state S.Store tx.old.conn.now).in_transaction
        → ExecutesInside 0 create_meta_text [] (state S.Store tx.old.conn.now) (state S.Store tx.new.conn.now) result }
    ensures survives { Survives (state S.Store tx.old.conn.now) (state S.Store tx.new.conn.now) (λ _. ⊥) }
{
    tx.execute(
        "CREATE TABLE meta (k INTEGER PRIMARY KEY, version INTEGER NOT NULL, boot INTEGER NOT NULL, round INTEGER NOT NULL, node INTEGER NOT NULL) STRICT",
        &[],
    )
}

fn execute_create_vote<S: Alter>(tx: &mut Transaction<'_, S>) -> Result<usize, Error>
    ensures same_reference { tx.new.conn.ghost_name ≡ tx.old.conn.ghost_name }
    ensures runs { HasCleanDisk (state S.Store tx.new.conn.now) → IsTrue (state S.Store tx.old.conn.now).in_transaction
        → ExecutesInside 0 create_vote_text [] (state S.Store tx.old.conn.now) (state S.Store tx.new.conn.now) result }
    ensures survives { Survives (state S.Store tx.old.conn.now) (state S.Store tx.new.conn.now) (λ _. ⊥) }
{
    tx.execute(
        "CREATE TABLE vote (slot INTEGER PRIMARY KEY, round INTEGER NOT NULL, node INTEGER NOT NULL, entry BLOB NOT NULL) STRICT",
        &[],
    )
}

fn execute_create_snapshot<S: Alter>(tx: &mut Transaction<'_, S>) -> Result<usize, Error>
    ensures same_reference { tx.new.conn.ghost_name ≡ tx.old.conn.ghost_name }
    ensures runs { HasCleanDisk (state S.Store tx.new.conn.now) → IsTrue (state S.Store tx.old.conn.now).in_transaction
        → ExecutesInside 0 create_snapshot_text [] (state S.Store tx.old.conn.now) (state S.Store tx.new.conn.now) result }
    ensures survives { Survives (state S.Store tx.old.conn.now) (state S.Store tx.new.conn.now) (λ _. ⊥) }
{
    tx.execute(
        "CREATE TABLE snapshot (k INTEGER PRIMARY KEY, floor INTEGER NOT NULL, bytes BLOB NOT NULL) STRICT",
        &[],
    )
}

fn execute_put_meta<S: Alter>(
    tx: &mut Transaction<'_, S>,
    boot: i64,
    round: i64,
    node: i64,
) -> Result<usize, Error>
    ensures same_reference { tx.new.conn.ghost_name ≡ tx.old.conn.ghost_name }
    ensures runs { HasCleanDisk (state S.Store tx.new.conn.now) → IsTrue (state S.Store tx.old.conn.now).in_transaction
        → ExecutesInside 0 put_meta_text (Int boot ∷ Int round ∷ Int node ∷ []) (state S.Store tx.old.conn.now) (state S.Store tx.new.conn.now) result }
    ensures survives { Survives (state S.Store tx.old.conn.now) (state S.Store tx.new.conn.now) (λ _. ⊥) }
{
    tx.execute(
        "INSERT OR REPLACE INTO meta VALUES (1, 2, ?1, ?2, ?3)",
        params![boot, round, node],
    )
}

fn execute_put_vote<S: Alter>(
    tx: &mut Transaction<'_, S>,
    slot: i64,
    round: i64,
    node: i64,
    entry: &[u8],
) -> Result<usize, Error>
    ensures same_reference { tx.new.conn.ghost_name ≡ tx.old.conn.ghost_name }
    ensures runs { HasCleanDisk (state S.Store tx.new.conn.now) → IsTrue (state S.Store tx.old.conn.now).in_transaction
        → ExecutesInside 0 put_vote_text (Int slot ∷ Int round ∷ Int node ∷ Blob entry.now ∷ []) (state S.Store tx.old.conn.now) (state S.Store tx.new.conn.now) result }
    ensures survives { Survives (state S.Store tx.old.conn.now) (state S.Store tx.new.conn.now) (λ _. ⊥) }
{
    tx.execute(
        "INSERT OR REPLACE INTO vote VALUES (?1, ?2, ?3, ?4)",
        params![slot, round, node, entry],
    )
}

fn execute_put_snapshot<S: Alter>(
    tx: &mut Transaction<'_, S>,
    floor: i64,
    octets: &[u8],
) -> Result<usize, Error>
    ensures same_reference { tx.new.conn.ghost_name ≡ tx.old.conn.ghost_name }
    ensures runs { HasCleanDisk (state S.Store tx.new.conn.now) → IsTrue (state S.Store tx.old.conn.now).in_transaction
        → ExecutesInside 0 put_snapshot_text (Int floor ∷ Blob octets.now ∷ []) (state S.Store tx.old.conn.now) (state S.Store tx.new.conn.now) result }
    ensures survives { Survives (state S.Store tx.old.conn.now) (state S.Store tx.new.conn.now) (λ _. ⊥) }
{
    tx.execute(
        "INSERT OR REPLACE INTO snapshot VALUES (1, ?1, ?2)",
        params![floor, octets],
    )
}

fn execute_delete_votes<S: Alter>(tx: &mut Transaction<'_, S>, floor: i64) -> Result<usize, Error>
    ensures same_reference { tx.new.conn.ghost_name ≡ tx.old.conn.ghost_name }
    ensures runs { HasCleanDisk (state S.Store tx.new.conn.now) → IsTrue (state S.Store tx.old.conn.now).in_transaction
        → ExecutesInside 0 delete_votes_text (Int floor ∷ []) (state S.Store tx.old.conn.now) (state S.Store tx.new.conn.now) result }
    ensures survives { Survives (state S.Store tx.old.conn.now) (state S.Store tx.new.conn.now) (λ _. ⊥) }
{
    tx.execute("DELETE FROM vote WHERE slot <= ?1", params![floor])
}

// Returns the keeper's fault for a refusal of the connection.
pub(crate) fn fault_of(error: Error) -> KeeperFault
    ensures { (result ≡ KeeperFault.Memory) ⊎ (result ≡ KeeperFault.Store) }
{
    match error {
        Error::SqliteFailure(ErrorCode::OutOfMemory) => KeeperFault::Memory,
        _ => KeeperFault::Store,
    }
}

// Returns the number as SQLite keeps it.
fn signed(number: u64) -> i64
    requires { number < 2 ^ 63 }
    ensures { result ≡ pos number }
{
    number as i64
}

fn round_of(promised: &Option<Ballot>) -> u64
    ensures { result ≡ round_of promised.now }
{
    match promised {
        Some(ballot) => ballot.round,
        None => 0,
    }
}

fn node_in(ballot: &Ballot) -> u64
    ensures value { result ≡ ballot.now.node }
    ensures small { result < 256 }
{
    u64::from(ballot.node)
}

fn node_of(promised: &Option<Ballot>) -> u64
    ensures value { result ≡ node_of promised.now }
    ensures small { result < 256 }
{
    match promised {
        Some(ballot) => u64::from(ballot.node),
        None => 0,
    }
}

// Makes the first table of an empty database.
fn create_meta<S: Alter>(tx: &mut Transaction<'_, S>) -> Result<(), KeeperFault>
    ensures same_reference { tx.new.conn.ghost_name ≡ tx.old.conn.ghost_name }
    ensures made { HasCleanDisk (state S.Store tx.new.conn.now) → IsTrue (state S.Store tx.old.conn.now).in_transaction
        → (state S.Store tx.old.conn.now).now.schema ≡ empty_schema
        → OnOk result (Makes [] meta_table (state S.Store tx.old.conn.now).now (state S.Store tx.new.conn.now).now) }
    ensures shown { HasCleanDisk (state S.Store tx.new.conn.now) → IsTrue (state S.Store tx.old.conn.now).in_transaction
        → OnOk result (Shows (state S.Store tx.old.conn.now) (state S.Store tx.new.conn.now) (state S.Store tx.new.conn.now).now (state S.Store tx.old.conn.now).committed true) }
    ensures survives { Survives (state S.Store tx.old.conn.now) (state S.Store tx.new.conn.now) (λ _. ⊥) }
    ensures fault { IfErr result (λ e. (e ≡ KeeperFault.Memory) ⊎ (e ≡ KeeperFault.Store)) }
{
    match execute_create_meta(tx) {
        Ok(_) => Ok(()),
        Err(error) => Err(fault_of(error)),
    }
}

// Makes the second table, after the first.
fn create_vote<S: Alter>(tx: &mut Transaction<'_, S>) -> Result<(), KeeperFault>
    ensures same_reference { tx.new.conn.ghost_name ≡ tx.old.conn.ghost_name }
    ensures made { HasCleanDisk (state S.Store tx.new.conn.now) → IsTrue (state S.Store tx.old.conn.now).in_transaction
        → (state S.Store tx.old.conn.now).now.schema ≡ schema_of (meta_table ∷ [])
        → OnOk result (Makes (meta_table ∷ []) vote_table (state S.Store tx.old.conn.now).now (state S.Store tx.new.conn.now).now) }
    ensures shown { HasCleanDisk (state S.Store tx.new.conn.now) → IsTrue (state S.Store tx.old.conn.now).in_transaction
        → OnOk result (Shows (state S.Store tx.old.conn.now) (state S.Store tx.new.conn.now) (state S.Store tx.new.conn.now).now (state S.Store tx.old.conn.now).committed true) }
    ensures survives { Survives (state S.Store tx.old.conn.now) (state S.Store tx.new.conn.now) (λ _. ⊥) }
    ensures fault { IfErr result (λ e. (e ≡ KeeperFault.Memory) ⊎ (e ≡ KeeperFault.Store)) }
{
    match execute_create_vote(tx) {
        Ok(_) => Ok(()),
        Err(error) => Err(fault_of(error)),
    }
}

// Makes the third table, after the others.
fn create_snapshot<S: Alter>(tx: &mut Transaction<'_, S>) -> Result<(), KeeperFault>
    ensures same_reference { tx.new.conn.ghost_name ≡ tx.old.conn.ghost_name }
    ensures made { HasCleanDisk (state S.Store tx.new.conn.now) → IsTrue (state S.Store tx.old.conn.now).in_transaction
        → (state S.Store tx.old.conn.now).now.schema ≡ old_schema
        → OnOk result (Makes old_tables snapshot_table (state S.Store tx.old.conn.now).now (state S.Store tx.new.conn.now).now) }
    ensures shown { HasCleanDisk (state S.Store tx.new.conn.now) → IsTrue (state S.Store tx.old.conn.now).in_transaction
        → OnOk result (Shows (state S.Store tx.old.conn.now) (state S.Store tx.new.conn.now) (state S.Store tx.new.conn.now).now (state S.Store tx.old.conn.now).committed true) }
    ensures survives { Survives (state S.Store tx.old.conn.now) (state S.Store tx.new.conn.now) (λ _. ⊥) }
    ensures fault { IfErr result (λ e. (e ≡ KeeperFault.Memory) ⊎ (e ≡ KeeperFault.Store)) }
{
    match execute_create_snapshot(tx) {
        Ok(_) => Ok(()),
        Err(error) => Err(fault_of(error)),
    }
}

// Puts the one row of `meta`, in the place of the one that is there.
pub(crate) fn put_meta<S: Alter>(
    tx: &mut Transaction<'_, S>,
    boot: u64,
    promised: &Option<Ballot>,
) -> Result<(), KeeperFault>
    requires boot { boot < 2 ^ 63 }
    requires round { round_of promised.now < 2 ^ 63 }
    ensures same_reference { tx.new.conn.ghost_name ≡ tx.old.conn.ghost_name }
    ensures put { HasCleanDisk (state S.Store tx.new.conn.now) → IsTrue (state S.Store tx.old.conn.now).in_transaction
        → (state S.Store tx.old.conn.now).now.schema ≡ store_schema → HasAtMost 1 ((state S.Store tx.old.conn.now).now.trees 0)
        → OnOk result (PutsAlone store_schema 0 (meta_row boot (round_of promised.now) (node_of promised.now))
        (state S.Store tx.old.conn.now).now (state S.Store tx.new.conn.now).now) }
    ensures shown { HasCleanDisk (state S.Store tx.new.conn.now) → IsTrue (state S.Store tx.old.conn.now).in_transaction
        → OnOk result (Shows (state S.Store tx.old.conn.now) (state S.Store tx.new.conn.now) (state S.Store tx.new.conn.now).now (state S.Store tx.old.conn.now).committed true) }
    ensures survives { Survives (state S.Store tx.old.conn.now) (state S.Store tx.new.conn.now) (λ _. ⊥) }
    ensures fault { IfErr result (λ e. (e ≡ KeeperFault.Memory) ⊎ (e ≡ KeeperFault.Store)) }
    ensures below { IfErr result LiesBelow }
{
    let round = signed(round_of(promised));
    let node = signed(node_of(promised));
    match execute_put_meta(tx, signed(boot), round, node) {
        Ok(_) => Ok(()),
        Err(error) => Err(fault_of(error)),
    }
}

// Puts a row of `vote`, in the place of the one with its slot.
pub(crate) fn put_vote<B, C: Coder<B>, S: Alter>(
    tx: &mut Transaction<'_, S>,
    slot: u64,
    ballot: &Ballot,
    entry: &[u8],
) -> Result<(), KeeperFault>
    requires slot { slot < 2 ^ 63 }
    requires round { ballot.now.round < 2 ^ 63 }
    ensures same_reference { tx.new.conn.ghost_name ≡ tx.old.conn.ghost_name }
    ensures put { HasCleanDisk (state S.Store tx.new.conn.now) → IsTrue (state S.Store tx.old.conn.now).in_transaction
        → (state S.Store tx.old.conn.now).now.schema ≡ store_schema
        → (promised : Option Ballot) (floor : ℕ) (votes : List (Vote B)) (v : Vote B)
        → AreVotes C.reading promised floor ((state S.Store tx.old.conn.now).now.trees 1) votes
        → IsVote C.reading (vote_row slot ballot.now.round ballot.now.node entry.now) v → is_promised promised v.ballot ≡ true → floor < v.slot
        → OnOk result (Edits store_schema 1 (state S.Store tx.old.conn.now).now (state S.Store tx.new.conn.now).now
        × AreVotes C.reading promised floor ((state S.Store tx.new.conn.now).now.trees 1) (put_vote v votes)) }
    ensures shown { HasCleanDisk (state S.Store tx.new.conn.now) → IsTrue (state S.Store tx.old.conn.now).in_transaction
        → OnOk result (Shows (state S.Store tx.old.conn.now) (state S.Store tx.new.conn.now) (state S.Store tx.new.conn.now).now (state S.Store tx.old.conn.now).committed true) }
    ensures survives { Survives (state S.Store tx.old.conn.now) (state S.Store tx.new.conn.now) (λ _. ⊥) }
    ensures fault { IfErr result (λ e. (e ≡ KeeperFault.Memory) ⊎ (e ≡ KeeperFault.Store)) }
    ensures below { IfErr result LiesBelow }
{
    let round = signed(ballot.round);
    let node = signed(node_in(ballot));
    match execute_put_vote(tx, signed(slot), round, node, entry) {
        Ok(_) => Ok(()),
        Err(error) => Err(fault_of(error)),
    }
}

// Puts the one row of `snapshot`, in the place of the one that is there.
pub(crate) fn put_snapshot<S: Alter>(
    tx: &mut Transaction<'_, S>,
    floor: Floor,
    octets: &[u8],
) -> Result<(), KeeperFault>
    ensures same_reference { tx.new.conn.ghost_name ≡ tx.old.conn.ghost_name }
    ensures put { HasCleanDisk (state S.Store tx.new.conn.now) → IsTrue (state S.Store tx.old.conn.now).in_transaction
        → (state S.Store tx.old.conn.now).now.schema ≡ store_schema → HasAtMost 1 ((state S.Store tx.old.conn.now).now.trees 2)
        → OnOk result (PutsAlone store_schema 2 (snapshot_row floor octets.now) (state S.Store tx.old.conn.now).now (state S.Store tx.new.conn.now).now) }
    ensures shown { HasCleanDisk (state S.Store tx.new.conn.now) → IsTrue (state S.Store tx.old.conn.now).in_transaction
        → OnOk result (Shows (state S.Store tx.old.conn.now) (state S.Store tx.new.conn.now) (state S.Store tx.new.conn.now).now (state S.Store tx.old.conn.now).committed true) }
    ensures survives { Survives (state S.Store tx.old.conn.now) (state S.Store tx.new.conn.now) (λ _. ⊥) }
    ensures fault { IfErr result (λ e. (e ≡ KeeperFault.Memory) ⊎ (e ≡ KeeperFault.Store)) }
    ensures below { IfErr result LiesBelow }
{
    match execute_put_snapshot(tx, signed(floor.get()), octets) {
        Ok(_) => Ok(()),
        Err(error) => Err(fault_of(error)),
    }
}

// Forgets the votes up to a slot.
pub(crate) fn forget_votes<B, C: Coder<B>, S: Alter>(
    tx: &mut Transaction<'_, S>,
    floor: Floor,
) -> Result<(), KeeperFault>
    ensures same_reference { tx.new.conn.ghost_name ≡ tx.old.conn.ghost_name }
    ensures left { HasCleanDisk (state S.Store tx.new.conn.now) → IsTrue (state S.Store tx.old.conn.now).in_transaction
        → (state S.Store tx.old.conn.now).now.schema ≡ store_schema
        → (promised : Option Ballot) (low : ℕ) (votes : List (Vote B))
        → AreVotes C.reading promised low ((state S.Store tx.old.conn.now).now.trees 1) votes
        → OnOk result (Keeps store_schema 1 (is_above floor) (state S.Store tx.old.conn.now).now (state S.Store tx.new.conn.now).now
        × AreVotes C.reading promised floor ((state S.Store tx.new.conn.now).now.trees 1) (votes_from (suc floor) votes)) }
    ensures shown { HasCleanDisk (state S.Store tx.new.conn.now) → IsTrue (state S.Store tx.old.conn.now).in_transaction
        → OnOk result (Shows (state S.Store tx.old.conn.now) (state S.Store tx.new.conn.now) (state S.Store tx.new.conn.now).now (state S.Store tx.old.conn.now).committed true) }
    ensures survives { Survives (state S.Store tx.old.conn.now) (state S.Store tx.new.conn.now) (λ _. ⊥) }
    ensures fault { IfErr result (λ e. (e ≡ KeeperFault.Memory) ⊎ (e ≡ KeeperFault.Store)) }
    ensures below { IfErr result LiesBelow }
{
    match execute_delete_votes(tx, signed(floor.get())) {
        Ok(_) => Ok(()),
        Err(error) => Err(fault_of(error)),
    }
}

// Makes the tables of an empty database, and the rows of a node that was never started.
pub(crate) fn make_tables<S: Alter>(tx: &mut Transaction<'_, S>) -> Result<(), KeeperFault>
    ensures same_reference { tx.new.conn.ghost_name ≡ tx.old.conn.ghost_name }
    ensures founded { HasCleanDisk (state S.Store tx.new.conn.now) → IsTrue (state S.Store tx.old.conn.now).in_transaction
        → (state S.Store tx.old.conn.now).now.schema ≡ empty_schema → OnOk result (IsFounded (state S.Store tx.new.conn.now).now) }
    ensures shown { HasCleanDisk (state S.Store tx.new.conn.now) → IsTrue (state S.Store tx.old.conn.now).in_transaction
        → OnOk result (Shows (state S.Store tx.old.conn.now) (state S.Store tx.new.conn.now) (state S.Store tx.new.conn.now).now (state S.Store tx.old.conn.now).committed true) }
    ensures survives { Survives (state S.Store tx.old.conn.now) (state S.Store tx.new.conn.now) (λ _. ⊥) }
    ensures fault { IfErr result (λ e. (e ≡ KeeperFault.Memory) ⊎ (e ≡ KeeperFault.Store)) }
{
    create_meta(tx)?;
    create_vote(tx)?;
    create_snapshot(tx)?;
    put_snapshot(tx, Floor::none(), &[])?;
    put_meta(tx, 0, &None)
}

// Makes the tables of version 1 those of this version, beside the votes that are there: the third table, without a snapshot, and the numbers
// with the version.
pub(crate) fn renew_tables<B, C: Coder<B>, S: Alter>(
    tx: &mut Transaction<'_, S>,
    numbers: &Numbers,
) -> Result<(), KeeperFault>
    requires { are_numbers numbers.now ≡ true }
    ensures same_reference { tx.new.conn.ghost_name ≡ tx.old.conn.ghost_name }
    ensures renewed { HasCleanDisk (state S.Store tx.new.conn.now) → IsTrue (state S.Store tx.old.conn.now).in_transaction
        → (state S.Store tx.old.conn.now).now.schema ≡ old_schema
        → (rows : Rows B) → StoresOld C.reading (state S.Store tx.old.conn.now).now.trees rows → numbers.now ≡ numbers_in_rows rows
        → OnOk result (Reads C.reading (state S.Store tx.new.conn.now).now rows) }
    ensures shown { HasCleanDisk (state S.Store tx.new.conn.now) → IsTrue (state S.Store tx.old.conn.now).in_transaction
        → OnOk result (Shows (state S.Store tx.old.conn.now) (state S.Store tx.new.conn.now) (state S.Store tx.new.conn.now).now (state S.Store tx.old.conn.now).committed true) }
    ensures survives { Survives (state S.Store tx.old.conn.now) (state S.Store tx.new.conn.now) (λ _. ⊥) }
    ensures fault { IfErr result (λ e. (e ≡ KeeperFault.Memory) ⊎ (e ≡ KeeperFault.Store)) }
{
    create_snapshot(tx)?;
    put_snapshot(tx, Floor::none(), &[])?;
    put_meta(tx, numbers.boot, &numbers.promised)
}

fn query_meta<S: Alter>(conn: &mut Connection<S>) -> Result<Vec<Row>, Error>
    ensures shown { HasCleanDisk (state S.Store conn.new)
        → IfOk result (λ rows. Shown read_meta_text [] (state S.Store conn.old) (state S.Store conn.new) rows.items) }
    ensures mode { conn.old.in_transaction ≡ false → conn.new.in_transaction ≡ false }
    ensures survives { Survives (state S.Store conn.old) (state S.Store conn.new) (CommitsShowing read_meta_text [] (state S.Store conn.old)) }
{
    conn.query_all("SELECT k, version, boot, round, node FROM meta", &[])
}

fn query_votes<S: Alter>(conn: &mut Connection<S>) -> Result<Vec<Row>, Error>
    ensures shown { HasCleanDisk (state S.Store conn.new)
        → IfOk result (λ rows. Shown read_votes_text [] (state S.Store conn.old) (state S.Store conn.new) rows.items) }
    ensures mode { conn.old.in_transaction ≡ false → conn.new.in_transaction ≡ false }
    ensures survives { Survives (state S.Store conn.old) (state S.Store conn.new) (CommitsShowing read_votes_text [] (state S.Store conn.old)) }
{
    conn.query_all(
        "SELECT slot, round, node, entry FROM vote ORDER BY slot",
        &[],
    )
}

// Reads the rows of `meta`, in some order, in the tables of this version or the one before it.
pub(crate) fn read_meta<S: Alter>(conn: &mut Connection<S>) -> Result<Vec<Row>, KeeperFault>
    ensures shown { HasCleanDisk (state S.Store conn.new) → ((state S.Store conn.old).now.schema ≡ store_schema) ⊎ ((state S.Store conn.old).now.schema ≡ old_schema)
        → IfOk result (λ rows. IsPermutation (shown_in (state S.Store conn.old).now.trees).metas rows.items) }
    ensures same { HasCleanDisk (state S.Store conn.new) → ((state S.Store conn.old).now.schema ≡ store_schema) ⊎ ((state S.Store conn.old).now.schema ≡ old_schema)
        → OnOk result (IsUnchanged (state S.Store conn.old) (state S.Store conn.new)) }
    ensures mode { conn.old.in_transaction ≡ false → conn.new.in_transaction ≡ false }
    ensures survives { Survives (state S.Store conn.old) (state S.Store conn.new) (CommitsShowing read_meta_text [] (state S.Store conn.old)) }
    ensures fault { IfErr result (λ e. (e ≡ KeeperFault.Memory) ⊎ (e ≡ KeeperFault.Store)) }
{
    match query_meta(conn) {
        Ok(rows) => Ok(rows),
        Err(error) => Err(fault_of(error)),
    }
}

// Reads the rows of `vote`, in some order.
fn read_votes<S: Alter>(conn: &mut Connection<S>) -> Result<Vec<Row>, KeeperFault>
    ensures shown { HasCleanDisk (state S.Store conn.new) → (state S.Store conn.old).now.schema ≡ store_schema
        → IfOk result (λ rows. IsPermutation (shown_in (state S.Store conn.old).now.trees).votes rows.items) }
    ensures same { HasCleanDisk (state S.Store conn.new) → (state S.Store conn.old).now.schema ≡ store_schema
        → OnOk result (IsUnchanged (state S.Store conn.old) (state S.Store conn.new)) }
    ensures mode { conn.old.in_transaction ≡ false → conn.new.in_transaction ≡ false }
    ensures survives { Survives (state S.Store conn.old) (state S.Store conn.new) (CommitsShowing read_votes_text [] (state S.Store conn.old)) }
    ensures fault { IfErr result (λ e. (e ≡ KeeperFault.Memory) ⊎ (e ≡ KeeperFault.Store)) }
{
    match query_votes(conn) {
        Ok(rows) => Ok(rows),
        Err(error) => Err(fault_of(error)),
    }
}

fn query_snapshot<S: Alter>(conn: &mut Connection<S>) -> Result<Vec<Row>, Error>
    ensures shown { HasCleanDisk (state S.Store conn.new)
        → IfOk result (λ rows. Shown read_snapshot_text [] (state S.Store conn.old) (state S.Store conn.new) rows.items) }
    ensures mode { conn.old.in_transaction ≡ false → conn.new.in_transaction ≡ false }
    ensures survives { Survives (state S.Store conn.old) (state S.Store conn.new) (CommitsShowing read_snapshot_text [] (state S.Store conn.old)) }
{
    conn.query_all("SELECT k, floor, bytes FROM snapshot", &[])
}

// Reads the rows of `snapshot`, in some order.
fn read_snapshot<S: Alter>(conn: &mut Connection<S>) -> Result<Vec<Row>, KeeperFault>
    ensures shown { HasCleanDisk (state S.Store conn.new) → (state S.Store conn.old).now.schema ≡ store_schema
        → IfOk result (λ rows. IsPermutation (shown_in (state S.Store conn.old).now.trees).snapshots rows.items) }
    ensures same { HasCleanDisk (state S.Store conn.new) → (state S.Store conn.old).now.schema ≡ store_schema
        → OnOk result (IsUnchanged (state S.Store conn.old) (state S.Store conn.new)) }
    ensures mode { conn.old.in_transaction ≡ false → conn.new.in_transaction ≡ false }
    ensures survives { Survives (state S.Store conn.old) (state S.Store conn.new) (CommitsShowing read_snapshot_text [] (state S.Store conn.old)) }
    ensures fault { IfErr result (λ e. (e ≡ KeeperFault.Memory) ⊎ (e ≡ KeeperFault.Store)) }
{
    match query_snapshot(conn) {
        Ok(rows) => Ok(rows),
        Err(error) => Err(fault_of(error)),
    }
}

// The rows of the tables, each in some order.
pub(crate) struct Read {
    pub metas: Vec<Row>,
    pub votes: Vec<Row>,
    pub snapshots: Vec<Row>,
}

// Reads the rows of the tables.
pub(crate) fn read_tables<S: Alter>(conn: &mut Connection<S>) -> Result<Read, KeeperFault>
    requires { conn.old.schema ≡ store_schema }
    ensures shown { HasCleanDisk (state S.Store conn.new)
        → IfOk result (λ rows. AreShown (state S.Store conn.old).now.trees
        (record { metas = rows.metas.items; votes = rows.votes.items; snapshots = rows.snapshots.items })) }
    ensures same { HasCleanDisk (state S.Store conn.new) → OnOk result (IsUnchanged (state S.Store conn.old) (state S.Store conn.new)) }
    ensures mode { conn.old.in_transaction ≡ false → conn.new.in_transaction ≡ false }
    ensures survives { Survives (state S.Store conn.old) (state S.Store conn.new) (λ _. ⊥) }
    ensures fault { IfErr result (λ e. (e ≡ KeeperFault.Memory) ⊎ (e ≡ KeeperFault.Store)) }
{
    let metas = read_meta(conn)?;
    let votes = read_votes(conn)?;
    let snapshots = read_snapshot(conn)?;
    Ok(Read {
        metas,
        votes,
        snapshots,
    })
}
