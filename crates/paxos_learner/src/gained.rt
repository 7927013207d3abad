//! What one event adds to a learner's entries.

ghost use Rattle.std.specs.Prelude.{◌≡◌, [], ◌∷◌, None, OnOk, OnErr, IsOkUnless, option_copied};
ghost use Rattle.paxos_learner.specs.declared.fault.LearnerFault.TheVariants.{Memory};
ghost use Rattle.paxos_learner.specs.Gained.{gains_in, StandsApart};
ghost use Rattle.paxos_learner.specs.Learner.{learned_at, put_learned};

use crate::fault::LearnerFault;
use crate::learned::{LearnedEntries, LearnedEntry};
use paxos_packets::{Entry, Floor, Slot};
use std::alloc::Global;
use std::marker::Model;

// The entries that an event gains. Nearly every event gains at most one, which is stored inline; only further ones allocate.
#[derive(Drop)]
pub(crate) struct Gained<B> {
    one: Option<LearnedEntry<B>>,
    more: LearnedEntries<B>,
}

impl<B> Model for Gained<B> {
    ghost use Rattle.std.specs.Prelude.{◌≡◌};
    ghost use Rattle.paxos_learner.specs.Gained.{Gains, gains_in, StandsApart};

    ghost Value = { Gains B };

    ghost view = { λ g. gains_in g.one g.more };

    ghost invariant = { λ g. (g.more.floor ≡ 0) × StandsApart g.one g.more };
}

impl<B> Gained<B> {
    // Returns nothing gained. Does not allocate; `put` will, from `alloc`, once something is gained.
    pub fn new(alloc: Global) -> Gained<B>
        ensures { result.learned ≡ [] }
    {
        Gained {
            one: None,
            more: LearnedEntries::new(alloc, Floor::none()),
        }
    }

    // Returns the entry that is gained in the slot. Finds it as `LearnedEntries::find` does.
    pub fn find(&self, slot: Slot) -> Option<&Entry<B>>
        ensures { option_copied result ≡ learned_at slot self.now.learned }
    {
        match &self.one {
            Some(one) => entry_in(one, slot),
            None => self.more.find(slot),
        }
    }
}

impl<B: Drop> Gained<B> {
    // Puts the entry into a slot in which none is gained. On `Memory` the entries are as they were.
    pub fn put(&mut self, slot: Slot, entry: Entry<B>) -> Result<(), LearnerFault>
        requires { learned_at slot self.old.learned ≡ None }
        ensures ok { OnOk result (self.new.learned ≡ put_learned (record { slot = slot; entry = entry }) self.old.learned) }
        ensures err { OnErr result (self.new.learned ≡ self.old.learned) }
        ensures memory { IsOkUnless result Memory }
    {
        if self.one.is_none() && self.more.is_empty() {
            self.one = Some(LearnedEntry { slot, entry });
            return Ok(());
        }
        let _number = slot.get();
        join(&mut self.one, &mut self.more)?;
        self.more.put(slot, entry)
    }
}

// Moves the inline entry to the others. On `Memory` it stays where it is.
fn join<B: Drop>(
    one: &mut Option<LearnedEntry<B>>,
    more: &mut LearnedEntries<B>,
) -> Result<(), LearnerFault>
    requires floor { more.old.floor ≡ 0 }
    requires apart { StandsApart one.old more.old }
    ensures floor { more.new.floor ≡ 0 }
    ensures ok { OnOk result (one.new ≡ None) }
    ensures learned { OnOk result (more.new.learned ≡ (gains_in one.old more.old).learned) }
    ensures err { OnErr result (one.new ≡ one.old) }
    ensures more { OnErr result (more.new.learned ≡ more.old.learned) }
    ensures memory { IsOkUnless result Memory }
{
    let Some(known) = one else {
        return Ok(());
    };
    let _number = known.slot.get();
    more.keep_place(known.slot)?;
    if let Some(LearnedEntry { slot, entry }) = one.take() {
        more.put_in_place(slot, entry);
    }
    Ok(())
}

// Returns the entry, if it is the slot's.
fn entry_in<B>(one: &LearnedEntry<B>, slot: Slot) -> Option<&Entry<B>>
    ensures { option_copied result ≡ learned_at slot (one.now ∷ []) }
{
    if one.slot == slot {
        Some(&one.entry)
    } else {
        None
    }
}
