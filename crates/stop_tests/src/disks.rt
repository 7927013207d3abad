// A store over SQLite, whose files are disks in memory. One of them fails each call after k; the crash that follows leaves of each file
// what was synced, and nothing or all of what was not.
use crate::session::{Course, Crashes, Life, live};
use acceptor_store::SqlKeeper;
use sqlite::{Alter, Connection, FileStore, Files, Options};
use sqlite_disk::{Crash, Disk, Fuse, Memory};
use std::alloc::Global;
use std::process::Abort;
use test_machines::{Number, Octet};

/// A disk that fails.
pub type Fused = Fuse<Memory>;

/// A store over such disks.
pub type Stored = SqlKeeper<Number, Octet, FileStore<Fused>>;

/// The files of a database.
#[derive(Clone, Copy)]
pub enum Which {
    Log,
    Database,
}

/// What a crash leaves of what a file has not synced.
#[derive(Clone, Copy)]
pub enum Leaves {
    Nothing,
    All,
}

/// Which file stops; how many frames the log has at most before it is copied into the database file; and what the crash leaves of the log
/// and of the database file.
#[derive(Clone, Copy)]
pub struct Plan {
    pub which: Which,
    pub frames: usize,
    pub log: Leaves,
    pub database: Leaves,
}

impl Plan {
    pub fn new(which: Which, frames: usize, log: Leaves, database: Leaves) -> Plan {
        Plan {
            which,
            frames,
            log,
            database,
        }
    }
}

/// What the files of a database have.
#[derive(Drop)]
pub struct Octets {
    log: Vec<u8>,
    database: Vec<u8>,
}

// A disk with these octets, which are synced, and which fails after so many calls.
fn disk_of(rt: &impl Abort, alloc: Global, octets: &[u8], calls: u64) -> Fused {
    let mut disk = Memory::new(alloc);
    if disk.write_at(0, octets).is_err() || disk.sync().is_err() {
        panic!(rt; "no room for a disk");
    }
    Fuse::new(disk, calls)
}

// The disk after a crash.
fn crashed(rt: &impl Abort, alloc: Global, disk: Fused, leaves: Leaves) -> Fused {
    match leaves {
        Leaves::Nothing => {
            let mut disk = disk;
            disk.crash();
            disk
        }
        Leaves::All => disk_of(rt, alloc, disk.inner().bytes(), u64::MAX),
    }
}

/// The files after a crash.
pub fn crashed_files(
    rt: &impl Abort,
    alloc: Global,
    files: Files<Fused>,
    plan: Plan,
) -> Files<Fused> {
    let Files { log, db } = files;
    Files {
        log: crashed(rt, alloc, log, plan.log),
        db: crashed(rt, alloc, db, plan.database),
    }
}

/// What the files have.
pub fn octets_of(rt: &impl Abort, alloc: Global, files: Files<Fused>) -> Octets {
    let Files { log, db } = files;
    Octets {
        log: Vec::from_slice(alloc, log.inner().bytes()).expect(rt, "room for a log"),
        database: Vec::from_slice(alloc, db.inner().bytes()).expect(rt, "room for a file"),
    }
}

// After how many calls the log and the database file fail, if this one does after so many.
fn calls_of(which: Which, calls: u64) -> (u64, u64) {
    match which {
        Which::Log => (calls, u64::MAX),
        Which::Database => (u64::MAX, calls),
    }
}

/// Files with these octets, of which one fails after so many calls.
pub fn files_with(
    rt: &impl Abort,
    alloc: Global,
    octets: &Octets,
    which: Which,
    calls: u64,
) -> Files<Fused> {
    let (log, db) = calls_of(which, calls);
    Files {
        log: disk_of(rt, alloc, octets.log.as_slice(), log),
        db: disk_of(rt, alloc, octets.database.as_slice(), db),
    }
}

fn fused(alloc: Global, calls: u64) -> Fused {
    Fuse::new(Memory::new(alloc), calls)
}

/// Files that have nothing, and do not fail.
pub fn new_files(alloc: Global) -> Files<Fused> {
    Files {
        log: fused(alloc, u64::MAX),
        db: fused(alloc, u64::MAX),
    }
}

fn options(frames: usize) -> Options {
    let mut options = Options::new(1);
    options.checkpoint_frames = frames;
    options
}

// A store over any storage or any files: one call each, without contracts.

/// The store over a connection, or its storage, if that stopped.
pub fn opened<S: Alter + Drop>(
    alloc: Global,
    conn: Connection<S>,
) -> Result<SqlKeeper<Number, Octet, S>, S> {
    match SqlKeeper::open(alloc, conn) {
        Ok(keeper) => Ok(keeper),
        Err((_, conn)) => Err(conn.into_store()),
    }
}

/// The storage of a store.
pub fn closed<S: Alter + Drop>(keeper: SqlKeeper<Number, Octet, S>) -> S {
    keeper.close().into_store()
}

/// The files of a storage.
pub fn files_of<D: Disk>(store: FileStore<D>) -> Files<D> {
    store.close()
}

/// The connection over these files, or the files, if one of them stopped.
pub fn connected<D: Disk + Drop>(
    alloc: Global,
    files: Files<D>,
    frames: usize,
) -> Result<Connection<FileStore<D>>, Files<D>> {
    if !files.may_be_used() {
        return Err(files);
    }
    match Connection::open_files(alloc, files, options(frames)) {
        Ok(conn) => Ok(conn),
        Err((_, left)) => Err(left.into_files()),
    }
}

/// The store over these files, or the files, if one of them stopped.
pub fn store_over<D: Disk + Drop>(
    alloc: Global,
    files: Files<D>,
    frames: usize,
) -> Result<SqlKeeper<Number, Octet, FileStore<D>>, Files<D>> {
    match connected(alloc, files, frames) {
        Ok(conn) => match opened(alloc, conn) {
            Ok(keeper) => Ok(keeper),
            Err(store) => Err(files_of(store)),
        },
        Err(files) => Err(files),
    }
}

// What becomes of the store as its node crashes.
#[derive(Drop)]
struct Crashing<'a, R> {
    rt: &'a R,
    alloc: Global,
    plan: Plan,
}

impl<R: Abort> Crashing<'_, R> {
    // The store over what the crash left of these files.
    fn store_after(&self, files: Files<Fused>) -> Stored {
        let left = crashed_files(self.rt, self.alloc, files, self.plan);
        match store_over(self.alloc, left, self.plan.frames) {
            Ok(keeper) => keeper,
            Err(_) => panic!(self.rt; "no store after a crash"),
        }
    }
}

impl<R: Abort> Crashes<Stored> for Crashing<'_, R> {
    fn reopened(&self, keeper: Stored) -> Stored {
        self.store_after(files_of(closed(keeper)))
    }
}

fn live_over<S: Alter + Drop, C: Crashes<SqlKeeper<Number, Octet, S>>>(
    rt: &impl Abort,
    alloc: Global,
    keeper: SqlKeeper<Number, Octet, S>,
    crashes: &C,
    course: Course,
) -> Life {
    live(rt, alloc, keeper, crashes, course)
}

/// A new store, whose disks do not fail.
pub fn new_store(rt: &impl Abort, alloc: Global) -> Stored {
    match store_over(alloc, new_files(alloc), 1_000) {
        Ok(keeper) => keeper,
        Err(_) => panic!(rt; "no store"),
    }
}

/// A life of node 2, whose store stops after this many calls of one file; and whether it stopped before it was open. It is opened again on
/// what the crash left then, and does not stop any more.
pub fn live_on_disks(
    rt: &impl Abort,
    alloc: Global,
    course: Course,
    plan: Plan,
    calls: u64,
) -> (Life, bool) {
    let crashing = Crashing { rt, alloc, plan };
    let (log, db) = calls_of(plan.which, calls);
    let files = Files {
        log: fused(alloc, log),
        db: fused(alloc, db),
    };
    let (keeper, opened_late) = match store_over(alloc, files, plan.frames) {
        Ok(keeper) => (keeper, false),
        Err(files) => (crashing.store_after(files), true),
    };
    (live_over(rt, alloc, keeper, &crashing, course), opened_late)
}
