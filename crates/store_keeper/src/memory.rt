// The keeper in memory, which may fail at a chosen commit.
ghost use Rattle.std.specs.Prelude.{◌≡◌, true, false, OnOk, OnErr};
ghost use Rattle.std.proofs.Common.{sym, ◌∙◌};
ghost use Rattle.std.specs.Option.{option_or};
ghost use Rattle.paxos_packets.specs.Rows.{kept_votes};
ghost use Rattle.paxos_packets.specs.Vote.{put_votes};
ghost use Rattle.paxos_acceptor.specs.Acceptor.{adopted};
ghost use Rattle.store_keeper.specs.Keeper.{no_rows};
ghost use Rattle.store_keeper.specs.Memory.{Commits, BootsIn, Loads};

use crate::fault::KeeperFault;
use crate::keeper::Keeper;
use paxos_packets::{Body, Change, Memory, Rows};
use std::alloc::Global;
use std::marker::Model;

/// The greatest boot number.
const LAST_BOOT: u64 = (1 << 48) - 1;

/// A keeper whose rows are in memory, and which fails at a chosen call: for tests, and for a node that need not survive a crash.
pub struct MemKeeper<B> {
    alloc: Global,
    rows: Rows<B>,
    left: u64,
    keeps: bool,
    failed: bool,
    failures: u64,
}

impl<B: Drop> Drop for MemKeeper<B> {
    fn drop(self) {
        let MemKeeper {
            alloc: _,
            rows: _rows,
            left: _,
            keeps: _,
            failed: _,
            failures: _,
        } = self;
    }
}

impl<B> Model for MemKeeper<B> {
    ghost use Rattle.std.specs.Prelude.{◌+◌, ◌≤◌, ◌==◌, if◌then◌else◌};
    ghost use Rattle.store_keeper.specs.Memory.{Kept};

    ghost Value = { Kept B };

    ghost view = { λ k. record { rows = k.rows; left = k.left; keeps = k.keeps; is_failed = k.failed; failures = k.failures } };

    ghost invariant = { λ k. k.failures + (if k.left == 0 then 0 else 1) ≤ 1 };
}

impl<B> MemKeeper<B> {
    /// Creates a keeper of the rows of a node that was never started, which does not fail. Does not allocate; commits will, from `alloc`.
    pub fn new(alloc: Global) -> MemKeeper<B>
        ensures { result ≡ record { rows = no_rows; left = 0; keeps = false; is_failed = false; failures = 0 } }
    {
        MemKeeper::failing(alloc, 0, false)
    }

    /// Creates a keeper of the rows of a node that was never started, whose `k`th call of `commit` fails, calls of `boot` not counted: it
    /// returns `Store`, and leaves the new rows if `after`, otherwise those of before. With `k` 0 it does not fail. Does not allocate.
    pub fn failing(alloc: Global, k: u64, after: bool) -> MemKeeper<B>
        ensures { result ≡ record { rows = no_rows; left = k; keeps = after; is_failed = false; failures = 0 } }
    {
        MemKeeper {
            alloc,
            rows: Rows::bare(alloc, 0),
            left: k,
            keeps: after,
            failed: false,
            failures: 0,
        }
    }

    /// Opens the keeper again: it holds what it found, and fails no more. Does not allocate.
    pub fn reopen(self) -> MemKeeper<B>
        ensures { result ≡ record self { left = 0; is_failed = false } }
    {
        let MemKeeper {
            alloc,
            rows,
            left: _,
            keeps,
            failed: _,
            failures,
        } = self;
        MemKeeper {
            alloc,
            rows,
            left: 0,
            keeps,
            failed: false,
            failures,
        }
    }
}

impl<B: Body> Keeper<B> for MemKeeper<B> {
    ghost holds = { λ k rows. rows ≡ k.rows };

    ghost finds = { λ k rows. rows ≡ k.rows };

    ghost leaves_rows = { λ _. Unit {0} };

    ghost is_faithful = { λ _. Unit {0} };

    ghost is_failed = { λ k. k.is_failed };

    ghost failures = { λ k. k.failures };

    fn load(&mut self) -> Result<Rows<B>, KeeperFault>
        ensures loads { Loads result self.old }
        ensures same { self.new ≡ self.old }
    {
        if self.failed {
            return Err(KeeperFault::Failed);
        }
        Ok(self.rows.copy(self.alloc)?)
    }

    fn commit(&mut self, change: &Change<B>) -> Result<(), KeeperFault>
        ensures { Commits change.now result self.old self.new }
    {
        if self.failed {
            return Err(KeeperFault::Failed);
        }
        let stops = self.left == 1;
        let writes = !stops || self.keeps;
        if writes && adopt(self.alloc, &mut self.rows, change).is_err() {
            self.failed = true;
            return Err(KeeperFault::Memory);
        }
        self.left = self.left.saturating_sub(1);
        if stops {
            self.failed = true;
            self.failures += 1;
            return Err(KeeperFault::Store);
        }
        Ok(())
    }

    #[tactic(auto, unfolding(paxos_packets::specs::Rows::last_boot))]
    fn boot(&mut self) -> Result<Rows<B>, KeeperFault>
        ensures { BootsIn result self.old self.new }
    {
        if self.failed {
            return Err(KeeperFault::Failed);
        }
        if self.rows.boot >= LAST_BOOT {
            self.failed = true;
            return Err(KeeperFault::Boots);
        }
        let Ok(mut rows) = self.rows.copy(self.alloc) else {
            self.failed = true;
            return Err(KeeperFault::Memory);
        };
        rows.boot += 1;
        self.rows.boot = rows.boot;
        Ok(rows)
    }

    fn failures(&self) -> u64 {
        self.failures
    }

    ghost kept = { λ k r held. tt };

    ghost only = { λ k r x held found. found ∙ sym held };
}

/// Takes the change over into the rows. After `Memory` they are as they were.
fn adopt<B: Body>(alloc: Global, rows: &mut Rows<B>, change: &Change<B>) -> Result<(), Memory>
    ensures ok { OnOk result (rows.new ≡ adopted rows.old change.now) }
    ensures err { OnErr result (rows.new ≡ rows.old) }
{
    put(alloc, rows, change)?;
    if change.promised.is_some() {
        rows.promised = change.promised;
    }
    Ok(())
}

// Takes the change's snapshot and votes over into the rows. After `Memory` they are as they were.
fn put<B: Body>(alloc: Global, rows: &mut Rows<B>, change: &Change<B>) -> Result<(), Memory>
    ensures ok { OnOk result (rows.new ≡ record rows.old {
      snapshot = option_or change.now.snapshot rows.old.snapshot;
      votes = put_votes change.now.votes (kept_votes change.now.snapshot rows.old.votes);
    }) }
    ensures err { OnErr result (rows.new ≡ rows.old) }
{
    let votes = change.votes.copy(alloc)?;
    let Some(snapshot) = &change.snapshot else {
        rows.votes.put_all(votes)?;
        return Ok(());
    };
    let snapshot = snapshot.share()?;
    let mut kept = rows.votes.copy_from(alloc, snapshot.floor().get() + 1)?;
    kept.put_all(votes)?;
    rows.votes = kept;
    rows.snapshot = Some(snapshot);
    Ok(())
}
