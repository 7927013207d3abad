// The keeper over SQLite: how it opens and closes, and its calls as a `Keeper`.
ghost use Rattle.std.specs.Prelude.{◌≡◌, ◌⊎◌, ◌<◌, ◌≤◌, ◌-◌, ◌^◌, IsTrue, IfOk, IfErr, OnOk, IsErrOf, is_err, Err, None, true, false};
ghost use Rattle.sqlite_trees.specs.View.{doubt};
ghost use Rattle.sqlite.specs.Effect.{Database};
ghost use Rattle.sqlite.specs.Held.{state};
ghost use Rattle.sqlite.specs.State.{HasCleanDisk, Survives};
ghost use Rattle.paxos_packets.specs.declared.rows.Rows.{Rows};
ghost use Rattle.store_keeper.specs.Keeper.{no_rows, FindsOr, FindsNoMore};
ghost use Rattle.paxos_acceptor.specs.Acceptor.{adopted};
ghost use Rattle.acceptor_store.specs.Tables.{empty_schema};
ghost use Rattle.acceptor_store.specs.Calls.{Readies};
ghost use Rattle.acceptor_store.specs.Once.{stored_once};
ghost use Rattle.acceptor_store.specs.Store.{Stores, HasStored, Holds, Finds, LeavesRows};
ghost use Rattle.store_rows.specs.Numbers.{numbers_in_rows};
ghost use Rattle.acceptor_store.specs.Answers.{Gives, Tells, Refuses, has_place};

use crate::calls::{boot_from, commit_to, load_from, make_ready};
use crate::session::Session;
use crate::store::settle;
use command_codec::Coder;
use paxos_packets::{Body, Change, Rows};
use sqlite::{Alter, Connection};
use std::alloc::Global;
use std::marker::{Model, PhantomData};
use store_keeper::{Keeper, KeeperFault};

/// A keeper whose rows are three tables of a SQLite database, with one transaction for each commit.
///
/// It knows the numbers of `meta` from its last read or commit, and keeps one buffer for the octets of an entry; it holds no votes.
pub struct SqlKeeper<B, C: Coder<B>, S: Alter> {
    session: Session<S>,
    failed: bool,
    failures: u64,
    of: PhantomData<(B, C)>,
}

impl<B, C: Coder<B>, S: Alter> Model for SqlKeeper<B, C, S> {
    ghost use Rattle.acceptor_store.specs.Store.{Kept, kept_code};

    ghost Value = { Kept S };

    ghost coded = { kept_code S.code };

    ghost view = { λ k. record { conn = k.session.conn; known = k.session.known; is_failed = k.failed; failures = k.failures } };
}

impl<B, C: Coder<B>, S: Alter + Drop> Drop for SqlKeeper<B, C, S> {
    fn drop(self) {
        let SqlKeeper {
            session: _session,
            failed: _,
            failures: _,
            of: _,
        } = self;
    }
}

impl<B: Body, C: Coder<B>, S: Alter> SqlKeeper<B, C, S> {
    /// Opens a keeper over the database of this connection. Makes the three tables if the database is empty, and adds the third to those of
    /// version 1, without a snapshot, if `meta` has one row of that version with numbers in range: each in one transaction. It judges nothing
    /// else; `load` does.
    /// SQLite's own open has read each page, so opening takes time linear in the file as a whole; this call itself takes none.
    ///
    /// After a fault, `Store` or `Memory`, the connection is handed back, and the database is as it was, or has the three tables, and the rows
    /// that it had. A connection inside a transaction is handed back as it is, with `Store`.
    pub fn open(
        alloc: Global,
        conn: Connection<S>,
    ) -> Result<SqlKeeper<B, C, S>, (KeeperFault, Connection<S>)>
        ensures fresh { IfOk result (λ k. (k.is_failed ≡ false) × (k.failures ≡ 0) × (k.known ≡ None)) }
        ensures founded { IfOk result (λ k. conn.schema ≡ empty_schema → Holds S.Store C.reading k no_rows) }
        ensures again { IfOk result (λ k. (rows : Rows B) → IsTrue (state S.Store conn).is_open
            → HasStored C.reading (state S.Store conn).committed.trees rows → Holds S.Store C.reading k rows) }
        ensures fault { IfErr result (λ e. (e.0 ≡ KeeperFault.Memory) ⊎ (e.0 ≡ KeeperFault.Store)) }
        ensures clean { IfOk result (λ k. doubt (state S.Store conn).is_clean ≤ doubt (state S.Store k.conn).is_clean) }
        ensures alone { conn.in_transaction ≡ false → IfErr result (λ e. e.1.in_transaction ≡ false) }
        ensures refused { conn.in_transaction ≡ true → result ≡ Err (KeeperFault.Store, conn) }
        ensures left { IfErr result (λ e. Survives (state S.Store conn) (state S.Store e.1)
            (λ trees. (db : Database) × Readies C.reading (state S.Store conn) db × (trees ≡ db.trees))) }
    {
        let mut conn = conn;
        if !conn.is_autocommit() {
            return Err((KeeperFault::Store, conn));
        }
        match make_ready::<B, C, S>(alloc, &mut conn) {
            Ok(()) => Ok(SqlKeeper {
                session: Session {
                    alloc,
                    conn,
                    known: None,
                    octets: Vec::new(alloc),
                },
                failed: false,
                failures: 0,
                of: PhantomData,
            }),
            Err(fault) => Err((fault, conn)),
        }
    }

    /// Returns the connection, with which the store may be opened again: what it held is committed there. After a fault of `commit` or `boot`
    /// that left the connection open, rows are committed there that the store may find.
    pub fn close(self) -> Connection<S>
        ensures same { result ≡ self.conn }
        ensures alone { result.in_transaction ≡ false }
        ensures stored { HasCleanDisk (state S.Store result) → IsTrue (state S.Store result).is_open → (rows : Rows B) → Holds S.Store C.reading self rows
            → Stores C.reading (state S.Store result).committed.trees rows }
        ensures left { HasCleanDisk (state S.Store result) → IsTrue (state S.Store result).is_open → LeavesRows S.Store C.reading self
            → (rows : Rows B) × Finds S.Store C.reading self rows × Stores C.reading (state S.Store result).committed.trees rows }
    {
        let SqlKeeper {
            session,
            failed: _,
            failures: _,
            of: _,
        } = self;
        settle(&session.conn); // for the proof
        session.into_connection()
    }
}

impl<B: Body, C: Coder<B>, S: Alter> Keeper<B> for SqlKeeper<B, C, S> {
    ghost holds = { Holds S.Store C.reading };

    ghost finds = { Finds S.Store C.reading };

    ghost leaves_rows = { LeavesRows S.Store C.reading };

    ghost is_faithful = { λ k. HasCleanDisk (state S.Store k.conn) };

    ghost is_failed = { λ k. k.is_failed };

    ghost failures = { λ k. k.failures };

    /// Reads each table in one pass; a row is dropped as it is read. If the connection is shut, the fault is `Store`, not damage.
    ///
    /// `Version` exactly if `meta` has one row, of k 1 and of a version other than 1 and 2, in the tables of version 2 or 1; otherwise
    /// `Damaged` exactly if the tables are not those of version 2, `meta` does not have just one row, of k 1 and version 2, or `snapshot` just
    /// one, of k 1, a number is out of range, the snapshot's octets do not begin with its floor, an entry cannot be read, two votes have one
    /// slot, or a vote is above the promise, or not above the floor.
    fn load(&mut self) -> Result<Rows<B>, KeeperFault>
        ensures gives { HasCleanDisk (state S.Store self.new.conn) → IfOk result (Gives C.reading (state S.Store self.old.conn).now) }
        ensures tells { HasCleanDisk (state S.Store self.new.conn) → IfErr result (Tells C.reading (state S.Store self.old.conn).now) }
        ensures held { IfOk result (Holds S.Store C.reading self.new) }
        ensures right { HasCleanDisk (state S.Store self.new.conn) → (r : Rows B) → Holds S.Store C.reading self.old r → IfOk result (λ x. x ≡ r) }
        ensures sound { HasCleanDisk (state S.Store self.new.conn) → (r : Rows B) → Holds S.Store C.reading self.old r → IsErrOf result KeeperFault.Damaged → ⊥ }
        ensures current { HasCleanDisk (state S.Store self.new.conn) → (r : Rows B) → Holds S.Store C.reading self.old r → IsErrOf result KeeperFault.Version → ⊥ }
        ensures same { (r : Rows B) → Holds S.Store C.reading self.old r → Holds S.Store C.reading self.new r }
        ensures found { FindsNoMore (Finds S.Store C.reading) self.old self.new }
        ensures left { LeavesRows S.Store C.reading self.old → LeavesRows S.Store C.reading self.new }
        ensures stays { self.new.is_failed ≡ self.old.is_failed }
        ensures again { self.old.is_failed ≡ true → result ≡ Err KeeperFault.Failed }
        ensures spent { IsErrOf result KeeperFault.Failed → (self.old.is_failed ≡ true) ⊎ (self.old.failures ≡ 2 ^ 64 - 1) }
        ensures store { IsErrOf result KeeperFault.Store → self.old.failures < self.new.failures }
        ensures counts { self.old.failures ≤ self.new.failures }
    {
        if self.failed {
            return Err(KeeperFault::Failed);
        }
        load_from::<B, C, S>(&mut self.session, &mut self.failures)
    }

    /// Commits in one transaction and one sync, with a statement for `meta` if the promise changes and one for each vote, which takes the
    /// place of the one in its slot; for a snapshot two come first: its row, and one that deletes the votes up to its floor. Reads no table
    /// (except in the first commit of a keeper that has loaded nothing yet, and that of a snapshot): takes time logarithmic in the votes
    /// stored, linear in the octets of a snapshot and in the votes that it deletes, and memory for one entry, or for these. An empty change
    /// touches nothing.
    ///
    /// `Damaged` exactly if the change has no place over the rows that are held: a lowered promise, a floor that is lowered or repeated, a
    /// number out of range, a vote above the promise, or not above the floor, or an entry without a spelling. The store is then as it was.
    fn commit(&mut self, change: &Change<B>) -> Result<(), KeeperFault>
        ensures placed { HasCleanDisk (state S.Store self.new.conn) → (r : Rows B) → Holds S.Store C.reading self.old r
            → OnOk result (has_place C.spelling (numbers_in_rows r) change.now ≡ true) }
        ensures refused { HasCleanDisk (state S.Store self.new.conn) → IsTrue (state S.Store self.old.conn).is_open
            → (r : Rows B) → Holds S.Store C.reading self.old r
            → IfErr result (Refuses (has_place C.spelling (numbers_in_rows r) change.now ≡ false)) }
        ensures kept { IsErrOf result KeeperFault.Damaged → FindsNoMore (Finds S.Store C.reading) self.old self.new }
        ensures ok { OnOk result ((r : Rows B) → Holds S.Store C.reading self.old r → Holds S.Store C.reading self.new (adopted r change.now)) }
        ensures found { (r : Rows B) → Holds S.Store C.reading self.old r → FindsOr (Finds S.Store C.reading) self.old self.new (adopted r change.now) }
        ensures left { (r : Rows B) → Holds S.Store C.reading self.old r → LeavesRows S.Store C.reading self.new }
        ensures fails { self.new.is_failed ≡ is_err result }
        ensures again { self.old.is_failed ≡ true → result ≡ Err KeeperFault.Failed }
        ensures unchanged { self.old.is_failed ≡ true → FindsNoMore (Finds S.Store C.reading) self.old self.new }
        ensures untouched { self.old.is_failed ≡ true → LeavesRows S.Store C.reading self.old → LeavesRows S.Store C.reading self.new }
        ensures spent { IsErrOf result KeeperFault.Failed → (self.old.is_failed ≡ true) ⊎ (self.old.failures ≡ 2 ^ 64 - 1) }
        ensures store { IsErrOf result KeeperFault.Store → self.old.failures < self.new.failures }
        ensures counts { self.old.failures ≤ self.new.failures }
    {
        if self.failed {
            return Err(KeeperFault::Failed);
        }
        let done = commit_to::<B, C, S>(&mut self.session, change, &mut self.failures);
        self.failed = done.is_err();
        done
    }

    /// Begins a boot by a load, one statement and one sync.
    fn boot(&mut self) -> Result<Rows<B>, KeeperFault> {
        if self.failed {
            return Err(KeeperFault::Failed);
        }
        let booted = boot_from::<B, C, S>(&mut self.session, &mut self.failures);
        self.failed = booted.is_err();
        booted
    }

    fn failures(&self) -> u64 {
        self.failures
    }

    ghost kept = { λ k r holds clean trees may. (r, (holds clean).0 trees may) };

    ghost only = { λ k rows found holds finds. stored_once C.reading finds.1.0 rows found ((holds finds.0).0 finds.1.0 finds.1.1) finds.1.2 };
}
