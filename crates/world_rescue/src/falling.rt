//! What a node is to make of the entries that it applies next: whether it goes down, and what it still waits for.

ghost use Rattle.std.specs.Bool.{OnFalse};
ghost use Rattle.std.specs.Prelude.{◌≡◌, ◌++◌, ◌∷◌, [], ℕ, filter, IfOk, OnOk};
ghost use Rattle.paxos_node.specs.Adopting.{pending_behind};
ghost use Rattle.paxos_node.specs.Applying.{is_own_lost, ends_boot, has_end};
ghost use Rattle.replica_machine.specs.declared.roll.Standing.{Standing};
ghost use Rattle.replica_machine.specs.Roll.{HasStandings, is_wanted_by, standings_after, standings_from};
ghost use Rattle.world_rescue.specs.Course.{entries_of};

use paxos_packets::{Body, Entries, Entry, Memory, Vote};
use replica_machine::Roll;
use std::alloc::Global;

// Goes on over the entries of these votes, up to the loss of the node's boot. Returns whether that is among them.
pub(crate) fn falls<B>(roll: &mut Roll, node: u8, boot: u64, votes: &[Vote<B>]) -> bool
    ensures ended { (stands : ℕ → Standing) → HasStandings stands roll.old →
        result ≡ has_end node boot (stands node) (entries_of votes.now) }
    ensures roll { (stands : ℕ → Standing) → HasStandings stands roll.old →
        OnFalse result (HasStandings (standings_from stands (entries_of votes.now)) roll.new) }
{
    for vote in votes {
        if ends(roll, node, boot, &vote.entry) {
            return true;
        }
        let _took = roll.take(&vote.entry);
    }
    false
}

// Returns whether the entry is the loss of the node's boot, and takes effect.
fn ends<B>(roll: &Roll, node: u8, boot: u64, entry: &Entry<B>) -> bool
    ensures { (stands : ℕ → Standing) → HasStandings stands roll.now → result ≡ ends_boot node boot (stands node) entry.now }
{
    is_own_lost(entry, node, boot) && roll.standing(node).is_live(boot)
}

// Returns whether the entry is the loss of this node in this boot.
fn is_own_lost<B>(entry: &Entry<B>, me: u8, own: u64) -> bool
    ensures { result ≡ is_own_lost me own entry.now }
{
    match entry {
        Entry::Lost { node, boot } => *node == me && *boot == own,
        Entry::Noop | Entry::Boot { .. } | Entry::Item { .. } => false,
    }
}

// Goes on over these entries, up to the loss of the node's boot. Returns whether that is among them.
pub(crate) fn falls_in<B>(roll: &mut Roll, node: u8, boot: u64, entries: &[Entry<B>]) -> bool
    ensures { (stands : ℕ → Standing) → HasStandings stands roll.old → result ≡ has_end node boot (stands node) entries.now }
{
    for entry in entries {
        if ends(roll, node, boot, entry) {
            return true;
        }
        let _took = roll.take(entry);
    }
    false
}

// Applies these entries, one by one, and returns what is still wanted of what was pending then.
pub(crate) fn wanted_after<B: Body>(
    alloc: Global,
    roll: &mut Roll,
    pending: &[Entry<B>],
    entries: &[Entry<B>],
) -> Result<Vec<Entry<B>>, Memory>
    ensures roll { (stands : ℕ → Standing) → HasStandings stands roll.old → OnOk result (HasStandings (standings_from stands entries.now) roll.new) }
    ensures pending { (stands : ℕ → Standing) → HasStandings stands roll.old →
        IfOk result (λ left. left.items ≡ pending_behind stands entries.now (filter (is_wanted_by stands) pending.now)) }
{
    let mut left = wanted(alloc, roll, pending)?.into_vec();
    apply_all(roll, &mut left, entries);
    Ok(left)
}

// Applies the entries, one by one: what each settles is no longer pending.
fn apply_all<B: Drop>(roll: &mut Roll, pending: &mut Vec<Entry<B>>, entries: &[Entry<B>])
    ensures roll { (stands : ℕ → Standing) → HasStandings stands roll.old → HasStandings (standings_from stands entries.now) roll.new }
    ensures pending { (stands : ℕ → Standing) → HasStandings stands roll.old
        → pending.new.items ≡ pending_behind stands entries.now pending.old.items }
{
    for entry in entries {
        apply(roll, pending, entry);
    }
}

// Applies the entry.
fn apply<B: Drop>(roll: &mut Roll, pending: &mut Vec<Entry<B>>, entry: &Entry<B>)
    ensures roll { (stands : ℕ → Standing) → HasStandings stands roll.old → HasStandings (standings_after stands entry.now) roll.new }
    ensures pending { (stands : ℕ → Standing) → HasStandings stands roll.old
        → pending.new.items ≡ filter (is_wanted_by (standings_after stands entry.now)) pending.old.items }
{
    let _took = roll.take(entry);
    let_go(roll, pending);
}

// Lets go of what is no longer wanted.
fn let_go<B: Drop>(roll: &Roll, pending: &mut Vec<Entry<B>>)
    ensures { (stands : ℕ → Standing) → HasStandings stands roll.now → pending.new.items ≡ filter (is_wanted_by stands) pending.old.items }
{
    pending.retain(|entry| roll.wants(entry));
}

// Copies these entries.
pub(crate) fn copied<B: Body>(alloc: Global, entries: &[Entry<B>]) -> Result<Vec<Entry<B>>, Memory>
    ensures { IfOk result (λ copies. copies.items ≡ entries.now) }
{
    let mut copies = Vec::new(alloc);
    for entry in entries {
        copies.push(entry.copy(alloc)?)?;
    }
    Ok(copies)
}

// Copies what is still wanted of these entries.
pub(crate) fn wanted<B: Body>(
    alloc: Global,
    roll: &Roll,
    pending: &[Entry<B>],
) -> Result<Entries<B>, Memory>
    ensures { (stands : ℕ → Standing) → HasStandings stands roll.now →
        IfOk result (λ entries. entries ≡ filter (is_wanted_by stands) pending.now) }
{
    let mut entries = Entries::new(alloc);
    for entry in pending {
        keep_wanted(alloc, roll, &mut entries, entry)?;
    }
    Ok(entries)
}

// Appends a copy of the entry, if it is still wanted.
fn keep_wanted<B: Body>(
    alloc: Global,
    roll: &Roll,
    entries: &mut Entries<B>,
    entry: &Entry<B>,
) -> Result<(), Memory>
    ensures { (stands : ℕ → Standing) → HasStandings stands roll.now →
        OnOk result (entries.new ≡ entries.old ++ filter (is_wanted_by stands) (entry.now ∷ [])) }
{
    if !roll.wants(entry) {
        return Ok(());
    }
    let copy = entry.copy(alloc)?;
    let Ok(()) = entries.push(copy) else {
        return Err(Memory);
    };
    Ok(())
}
