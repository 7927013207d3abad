//! Laws of a store over two files, each the contract of a function that does nothing.
ghost use Rattle.std.specs.Prelude.{IsTrue};
ghost use Rattle.sqlite_wal.specs.Recovery.{Image};
ghost use Rattle.sqlite_store.specs.FileStore as files;
ghost use Rattle.sqlite.specs.Files.{file_state, over_files};
ghost use Rattle.sqlite.specs.Start.{FindsIn};
ghost use Rattle.sqlite.specs.State.{HasCleanDisk};
ghost use Rattle.paxos_packets.specs.declared.rows.Rows.{Rows};
ghost use Rattle.acceptor_store.specs.Store.{Stores, Holds, Finds, LeavesRows};

use crate::sql::SqlKeeper;
use command_codec::Coder;
use paxos_packets::Body;
use sqlite::{Connection, FileStore};
use sqlite_disk::Disk;

/// From one run of the process to the next: whatever a crash leaves of the files of a keeper that holds rows, a connection that finds it has
/// these rows committed, and a keeper opened over that connection holds them (`SqlKeeper::open`). If the keeper has failed, the rows of before
/// or of after are committed there: some that the keeper might find. That a connection's store is numbered is a clause of
/// `Connection::into_store`. Does not allocate.
pub fn next_run<B: Body, C: Coder<B>, D: Disk, E: Disk>(
    keeper: &SqlKeeper<B, C, FileStore<D>>,
    opened: &Connection<FileStore<E>>,
)
    ensures held { HasCleanDisk (file_state keeper.now.conn) → IsTrue (files.view keeper.now.conn.store).is_numbered
        → (rows : Rows B) → Holds over_files C.reading keeper.now rows
        → (left : Image) → (files.state keeper.now.conn.store).may_leave left → FindsIn left (file_state opened.now)
        → ∥ Stores C.reading (file_state opened.now).committed.trees rows ∥₁ }
    ensures left { HasCleanDisk (file_state keeper.now.conn) → IsTrue (files.view keeper.now.conn.store).is_numbered
        → LeavesRows over_files C.reading keeper.now
        → (left : Image) → (files.state keeper.now.conn.store).may_leave left → FindsIn left (file_state opened.now)
        → ∥ ((rows : Rows B) × Finds over_files C.reading keeper.now rows × Stores C.reading (file_state opened.now).committed.trees rows) ∥₁ }
{}
