// Where the rows of a served cluster's nodes are kept: in memory, or in a database for each node in a folder.
ghost use Rattle.std.specs.Prelude.{◌≡◌, ◌≤◌, IfOk, IsTrue};
ghost use Rattle.sqlite_wal.specs.Recovery.{Image};
ghost use Rattle.sqlite_wal.specs.Files.{image_at};
ghost use Rattle.sqlite_trees.specs.View.{doubt};
ghost use Rattle.sqlite.specs.Files.{file_state, IsOpened};
ghost use Rattle.sqlite.specs.Held.{state};
ghost use Rattle.sqlite.specs.Start.{FindsIn};
ghost use Rattle.sqlite.specs.State.{HasCleanDisk};
ghost use Rattle.paxos_packets.specs.declared.rows.Rows.{Rows};
ghost use Rattle.realm_codec.specs.Act.{act_reading};
ghost use Rattle.store_keeper.specs.Keeper.{no_rows};
ghost use Rattle.acceptor_store.specs.Tables.{empty_schema};
ghost use Rattle.acceptor_store.specs.Store.{HasStored, Holds};
ghost use Rattle.acceptor_store.specs.Files.{HoldsImage, HoldsFrom};

use acceptor_store::SqlKeeper;
use command_codec::Coder;
use node_actor::Members;
use paxos_packets::Body;
use realm_codec::ActCoder;
use realm_machine::Act;
use sqlite::{Alter, Connection, FileFrom, FileStore};
use sqlite_disk::{Disk, Start};
use std::alloc::{AllocError, Global};
use std::fs;
use store_keeper::{KeeperFault, MemKeeper};

// The most nodes of a cluster.
const MOST_NODES: u8 = 7;

/// Where the nodes' rows are kept.
#[derive(Clone, Copy, Drop)]
pub(crate) enum Stores<'a> {
    /// In memory; they are empty at first.
    Memory,
    /// In a database for each node, in this folder, which has to be there.
    Folder {
        host: &'a HostRuntime,
        folder: &'a str,
    },
}

/// A store in memory.
pub(crate) type MemoryStore = MemKeeper<Act>;

/// A store over files, which held what `S` stands for as they were opened.
pub(crate) type FolderStore<S> = SqlKeeper<Act, ActCoder, FileStore<FileFrom<S>>>;

// Returns the path of a node's database in a folder.
fn path_of(alloc: Global, folder: &str, node: u8) -> Result<String, AllocError> {
    let Ok(path) = format!(in alloc; "{folder}/node-{node}.db") else {
        return Err(AllocError);
    };
    Ok(path)
}

/// Returns the lowest node above the members whose database is in the folder, if there is one. It opens and changes nothing. A file that cannot
/// be looked at counts as absent.
pub(crate) fn find_stray(
    host: &HostRuntime,
    folder: &str,
    members: Members,
) -> Result<Option<u8>, AllocError> {
    let first = members.count().saturating_add(1);
    for node in first..=MOST_NODES {
        let path = path_of(host.alloc(), folder, node)?;
        let found = fs::exists(host, path.as_str());
        drop(path);
        if let Ok(true) = found {
            return Ok(Some(node));
        }
    }
    Ok(None)
}

/// Opens the store of a node in a folder; makes its database if it is absent. `Store` if the database does not open.
///
/// What its files held is held: rows, if they were a store that had these, or those of a node that was never started, if there was no file.
/// `start` stands for what they held; which path is opened no clause says.
pub(crate) fn open_node_store<S: Start>(
    host: &HostRuntime,
    folder: &str,
    node: u8,
    start: S,
) -> Result<FolderStore<S>, KeeperFault>
    ensures { IfOk result (HoldsFrom act_reading S.Start) }
{
    let alloc = host.alloc();
    let Ok(path) = path_of(alloc, folder, node) else {
        drop(start);
        return Err(KeeperFault::Memory);
    };
    let opened = open_database(host, path.as_str(), start);
    drop(path);
    open_over(alloc, opened?)
}

// Opens the database at this path; makes it if it is absent.
fn open_database<S: Start>(
    host: &HostRuntime,
    path: &str,
    start: S,
) -> Result<Connection<FileStore<FileFrom<S>>>, KeeperFault>
    ensures opened { IfOk result (λ conn. HasCleanDisk (file_state conn) → IsOpened conn) }
    ensures found { IfOk result (λ conn. HasCleanDisk (file_state conn) → FindsIn (image_at S.Start) (file_state conn)) }
{
    match Connection::open_from(host, path, false, start) {
        Ok(conn) => Ok(conn),
        Err(left) => {
            drop(left);
            Err(KeeperFault::Store)
        }
    }
}

// Opens the store over this database; closes the database if the store does not open.
fn open_over<B: Body, C: Coder<B>, D: Disk + Drop>(
    alloc: Global,
    conn: Connection<FileStore<D>>,
) -> Result<SqlKeeper<B, C, FileStore<D>>, KeeperFault>
    ensures { IfOk result (λ k. (image : Image) → (HasCleanDisk (file_state conn) → IsOpened conn)
        → (HasCleanDisk (file_state conn) → FindsIn image (file_state conn)) → HoldsImage C.reading image k) }
{
    match open_store(alloc, conn) {
        Ok(store) => Ok(store),
        Err((fault, conn)) => {
            let _ = conn.close();
            Err(fault)
        }
    }
}

// Opens the store over this connection, or hands the connection back with the fault. It is over any storage, has few clauses and drops no
// connection: at the types of a file the clauses of `open` are dear, and so is each part that is dropped.
fn open_store<B: Body, C: Coder<B>, S: Alter>(
    alloc: Global,
    conn: Connection<S>,
) -> Result<SqlKeeper<B, C, S>, (KeeperFault, Connection<S>)>
    ensures founded { IfOk result (λ k. conn.schema ≡ empty_schema → Holds S.Store C.reading k no_rows) }
    ensures again { IfOk result (λ k. (rows : Rows B) → IsTrue (state S.Store conn).is_open
        → HasStored C.reading (state S.Store conn).committed.trees rows → Holds S.Store C.reading k rows) }
    ensures clean { IfOk result (λ k. doubt (state S.Store conn).is_clean ≤ doubt (state S.Store k.conn).is_clean) }
{
    SqlKeeper::open(alloc, conn)
}
