//! The entries that wait for a slot, and the standing of each node, while learned entries are applied.

ghost use Rattle.std.specs.Prelude.{◌≡◌, ◌≤◌, ◌-◌, ℕ, filter, vec_len, vec_capacity};
ghost use Rattle.replica_machine.specs.declared.roll.Standing.{Standing};
ghost use Rattle.replica_machine.specs.Roll.{HasStandings, is_wanted_by, standings_after, standings_from};
ghost use Rattle.paxos_planning.specs.Parts.{pending_with, counted_with, taken_with};
ghost use Rattle.paxos_node.specs.Adopting.{pending_behind};
ghost use Rattle.paxos_node.specs.Held.{additions};

use paxos_packets::Entry;
use replica_machine::Roll;

// Applies the entries, one by one: what each settles is no longer pending.
pub(crate) fn apply_all<B: Drop>(roll: &mut Roll, pending: &mut Vec<Entry<B>>, entries: &[Entry<B>])
    ensures roll { (stands : ℕ → Standing) → HasStandings stands roll.old → HasStandings (standings_from stands entries.now) roll.new }
    ensures pending { (stands : ℕ → Standing) → HasStandings stands roll.old
        → pending.new.items ≡ pending_behind stands entries.now pending.old.items }
{
    for entry in entries {
        apply(roll, pending, entry);
    }
}

// Applies the entry.
fn apply<B: Drop>(roll: &mut Roll, pending: &mut Vec<Entry<B>>, entry: &Entry<B>)
    ensures roll { (stands : ℕ → Standing) → HasStandings stands roll.old → HasStandings (standings_after stands entry.now) roll.new }
    ensures pending { (stands : ℕ → Standing) → HasStandings stands roll.old
        → pending.new.items ≡ filter (is_wanted_by (standings_after stands entry.now)) pending.old.items }
{
    advance(roll, entry);
    keep_wanted(roll, pending);
}

fn advance<B>(roll: &mut Roll, entry: &Entry<B>)
    ensures { (stands : ℕ → Standing) → HasStandings stands roll.old → HasStandings (standings_after stands entry.now) roll.new }
{
    let _took = roll.take(entry);
}

// Lets go of what is settled where the nodes stand so.
fn keep_wanted<B: Drop>(roll: &Roll, pending: &mut Vec<Entry<B>>)
    ensures { (stands : ℕ → Standing) → HasStandings stands roll.now
        → pending.new.items ≡ filter (is_wanted_by stands) pending.old.items }
{
    pending.retain(|entry| roll.wants(entry));
}

// Lets the entry wait for a slot; an Item counts by its number.
pub(crate) fn wait<B>(pending: &mut Vec<Entry<B>>, taken: &mut u64, added: Option<Entry<B>>)
    requires { additions added ≤ vec_capacity pending.old - vec_len pending.old }
    ensures pending { pending.new.items ≡ pending_with added pending.old.items }
    ensures taken { taken.new ≡ counted_with added taken.old }
{
    let Some(entry) = added else {
        return;
    };
    *taken = taken_with(&entry, *taken);
    pending.push_reserved(entry);
}

fn taken_with<B>(entry: &Entry<B>, taken: u64) -> u64
    ensures { result ≡ taken_with entry.now taken }
{
    match entry {
        Entry::Noop | Entry::Boot { .. } | Entry::Lost { .. } => taken,
        Entry::Item { seq, .. } => *seq,
    }
}
