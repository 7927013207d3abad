// Whether a store's rows belong to a node: compares them, apart from the boot number.
ghost use Rattle.std.specs.Prelude.{◌≡◌, false, true, IfOk, OnOk, OnErr, is_some, option_copied};
ghost use Rattle.std.specs.Option.{option_or};
ghost use Rattle.paxos_packets.specs.Rows.{kept_votes};
ghost use Rattle.paxos_packets.specs.Vote.{put_votes};
ghost use Rattle.paxos_acceptor.specs.Acceptor.{adopted};
ghost use Rattle.node_actor.specs.Compare.{same_promise, same_base, same_but_boot, is_ahead, is_later, fit_of};

use paxos_packets::{Ballot, Body, Change, Memory, Rows, Snapshot};
use std::alloc::Global;

// What a store has that belongs to a node: the rows that the node had, those that a failed commit was to leave, or others.
#[derive(Clone, Copy)]
pub(crate) enum Fit {
    Left,
    Meant,
    Others,
}

// Compares the rows with those that were kept, and with those that the failed change was to leave, apart from a boot number that is not lower.
// Only the second comparison needs memory.
pub(crate) fn fit_of<B: Body>(
    alloc: Global,
    failed: Option<&Change<B>>,
    kept: &Rows<B>,
    rows: &Rows<B>,
) -> Result<Fit, Memory>
    ensures fit { IfOk result (λ fit. fit ≡ fit_of B.same (option_copied failed.entry) kept.now rows.now) }
    ensures other { OnErr result (is_ahead B.same kept.now rows.now ≡ false) }
    ensures failed { OnErr result (is_some (option_copied failed.entry) ≡ true) }
{
    if is_ahead(kept, rows) {
        return Ok(Fit::Left);
    }
    match failed {
        None => Ok(Fit::Others),
        Some(change) => {
            if is_meant(alloc, change, kept, rows)? {
                Ok(Fit::Meant)
            } else {
                Ok(Fit::Others)
            }
        }
    }
}

// Returns whether the rows are those that the change was to leave, apart from a boot number that is not lower.
fn is_meant<B: Body>(
    alloc: Global,
    change: &Change<B>,
    kept: &Rows<B>,
    rows: &Rows<B>,
) -> Result<bool, Memory>
    ensures { IfOk result (λ meant. meant ≡ is_ahead B.same (adopted kept.now change.now) rows.now) }
{
    let mut meant = kept.copy(alloc)?;
    put(alloc, &mut meant, change)?;
    if change.promised.is_some() {
        meant.promised = change.promised;
    }
    Ok(is_ahead(&meant, rows))
}

// Takes the change's snapshot and votes over into the rows.
fn put<B: Body>(alloc: Global, rows: &mut Rows<B>, change: &Change<B>) -> Result<(), Memory>
    ensures { OnOk result (rows.new ≡ record rows.old {
      snapshot = option_or change.now.snapshot rows.old.snapshot;
      votes = put_votes change.now.votes (kept_votes change.now.snapshot rows.old.votes);
    }) }
{
    let votes = change.votes.copy(alloc)?;
    let Some(snapshot) = &change.snapshot else {
        rows.votes.put_all(votes)?;
        return Ok(());
    };
    let snapshot = snapshot.share()?;
    let mut kept = rows.votes.copy_from(alloc, snapshot.floor().get() + 1)?;
    kept.put_all(votes)?;
    rows.votes = kept;
    rows.snapshot = Some(snapshot);
    Ok(())
}

// Returns whether the rows are these, apart from a boot number that is not lower.
fn is_ahead<B: Body>(kept: &Rows<B>, rows: &Rows<B>) -> bool
    ensures { result ≡ is_ahead B.same kept.now rows.now }
{
    kept.boot <= rows.boot && same_but_boot(kept, rows)
}

// Returns whether the rows are these in a later boot.
pub(crate) fn is_later<B: Body>(kept: &Rows<B>, rows: &Rows<B>) -> bool
    ensures { result ≡ is_later B.same kept.now rows.now }
{
    kept.boot < rows.boot && same_but_boot(kept, rows)
}

// Returns whether the rows are the same apart from the boot number.
fn same_but_boot<B: Body>(kept: &Rows<B>, rows: &Rows<B>) -> bool
    ensures { result ≡ same_but_boot B.same kept.now rows.now }
{
    same_promise(kept.promised, rows.promised)
        && same_base(&kept.snapshot, &rows.snapshot)
        && kept.votes.same(&rows.votes)
}

// Returns whether the two promise the same.
fn same_promise(one: Option<Ballot>, other: Option<Ballot>) -> bool
    ensures { result ≡ same_promise one other }
{
    match (one, other) {
        (None, None) => true,
        (Some(one), Some(other)) => one == other,
        (None, Some(_)) => false,
        (Some(_), None) => false,
    }
}

// Returns whether the two have the same snapshot.
fn same_base(one: &Option<Snapshot>, other: &Option<Snapshot>) -> bool
    ensures { result ≡ same_base one.now other.now }
{
    match (one, other) {
        (None, None) => true,
        (Some(one), Some(other)) => one.same(other),
        (None, Some(_)) => false,
        (Some(_), None) => false,
    }
}
