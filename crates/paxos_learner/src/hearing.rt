//! How an event is planned on a learner: which votes and reports it is to hear, and what it would have learned then.

ghost use Rattle.std.specs.Prelude.{◌≡◌, ◌∷◌, [], ◌++◌, ◌+◌, ◌<◌, ◌≤◌, ◌^◌, ℕ, suc, IfOk, OnOk, OnErr, IsOkUnless, option_copied};
ghost use Rattle.std.specs.Map.{lookup};
ghost use Rattle.std.specs.Option.{unwrap_or};
ghost use Rattle.paxos_learner.specs.declared.fault.LearnerFault.TheVariants.{Memory};
ghost use Rattle.paxos_learner.specs.declared.hearing.News.TheVariants.{Cast, Told};
ghost use Rattle.paxos_learner.specs.Hearing.{after, and_news, over, gain};
ghost use Rattle.paxos_learner.specs.Learned.{Rises};
ghost use Rattle.paxos_learner.specs.Learner.{learned_at, is_other, disagrees, vote_disagrees, run_from, learned_within};
ghost use Rattle.paxos_learner.specs.Tallies.{nodes_heard, same_place};

use crate::changes::Changes;
use crate::fault::LearnerFault;
use crate::gained::Gained;
use crate::learned::LearnedEntry;
use crate::learner::Learner;
use crate::tallies::SlotBallot;
use paxos_packets::{Body, Entries, Entry, NodeSet, Slot, Vote};
use std::alloc::Global;
use std::marker::Model;

// One past the greatest slot.
const SLOT_END: u64 = 1 << 40;

/// One thing that a learner hears.
#[derive(Debug, Drop)]
pub enum News<B> {
    /// The member cast the vote.
    Cast { node: u8, vote: Vote<B> },
    /// A member reports that it learned the entry in the slot.
    Told { slot: Slot, entry: Entry<B> },
}

/// A learner, and what it is to hear: an event is planned on it, and the learner itself stays as it is. It keeps only what changes, and
/// copies nothing else of the learner.
#[derive(Drop)]
pub struct Hearing<'a, B> {
    alloc: Global,
    learner: &'a Learner<B>,
    news: Vec<News<B>>,
    // The sets of members at the places where a vote was heard, and the entries that were not learned before.
    changed: Changes,
    gained: Gained<B>,
}

impl<'a, B> Model for Hearing<'a, B> {
    ghost use Rattle.paxos_learner.specs.Hearing.{Draft, IsOver, hear_all};

    ghost Value = { Draft B };

    ghost view = { λ h. record { before = h.learner.now.state; news = h.news.items } };

    ghost invariant = { λ h. IsOver h.changed.heard h.gained.learned h.learner.now.state.learner
        (hear_all h.news.items h.learner.now.state).learner };
}

impl<'a, B> Hearing<'a, B> {
    /// Begins planning on the learner, with nothing to hear. Does not allocate; the other calls will, from `alloc`.
    pub fn of(alloc: Global, learner: &'a Learner<B>) -> Hearing<'a, B>
        ensures before { result.before ≡ learner.now.state }
        ensures news { result.news ≡ [] }
    {
        learner.ascends();
        Hearing {
            alloc,
            learner,
            news: Vec::new(alloc),
            changed: Changes::new(alloc),
            gained: Gained::new(alloc),
        }
    }

    /// Returns the entry that would be learned in the slot. Finds it as `Learner::learned` does.
    pub fn learned(&self, slot: Slot) -> Option<&Entry<B>>
        ensures { option_copied result ≡ learned_at slot (after self.now).learner.learned }
    {
        find_over(self.learner, &self.gained, slot)
    }

    // Returns the entry that would be learned in the slot with this number, if there is such a slot.
    fn learned_in(&self, number: u64) -> Option<&Entry<B>>
        ensures { option_copied result ≡ learned_at number (after self.now).learner.learned }
    {
        self.ascends();
        match Slot::new(number) {
            Some(slot) => self.learned(slot),
            None => None,
        }
    }

    // What would be learned ascends by slot, from above the floor.
    fn ascends(&self)
        ensures { Rises (after self.now).learner.floor (after self.now).learner.learned }
    {
        let _ = &self.gained;
    }
}

impl<'a, B: Drop> Hearing<'a, B> {
    /// Returns what is to be heard, in order: after it, what is learned ascends by slot, from above the floor.
    pub fn into_news(self) -> Vec<News<B>>
        ensures news { result.items ≡ self.entry.news }
        ensures rises { Rises (after self.entry).learner.floor (after self.entry).learner.learned }
    {
        let Hearing { news, .. } = self;
        news
    }
}

impl<'a, B: Body> Hearing<'a, B> {
    /// Plans that the learner hears this vote of the member. Returns whether its slot would have learned another entry than the one that a
    /// majority voted for. On `Memory` it is to hear what it was to hear before. Takes a constant number of steps, unless what changes
    /// moves to larger memory; copies the vote once, and its entry once more if it is learned.
    pub fn vote(&mut self, node: u8, vote: &Vote<B>) -> Result<bool, LearnerFault>
        ensures ok { OnOk result (self.new ≡ and_news (Cast node vote.now) self.old) }
        ensures other { IfOk result (λ other. other ≡ vote_disagrees B.same (after self.old).members node vote.now (after self.old).learner) }
        ensures err { OnErr result (self.new ≡ self.old) }
        ensures memory { IsOkUnless result Memory }
    {
        let place = SlotBallot {
            slot: vote.slot,
            ballot: vote.ballot,
        };
        let nodes = nodes_over(self.learner, &self.changed, &place).with(node);
        let Ok(copy) = vote.copy(self.alloc) else {
            return Err(LearnerFault::Memory);
        };
        if self.news.reserve(1).is_err() {
            return Err(LearnerFault::Memory);
        }
        if self.learner.is_closed(vote.slot) {
            self.news.push_reserved(News::Cast { node, vote: copy });
            return Ok(false);
        }
        self.changed.make_room()?;
        if !self.learner.has_majority(nodes) {
            self.changed.put_in_room(place, nodes);
            self.news.push_reserved(News::Cast { node, vote: copy });
            return Ok(false);
        }
        let other = gain(
            self.alloc,
            self.learner,
            &mut self.gained,
            vote.slot,
            &vote.entry,
        )?;
        self.changed.put_in_room(place, nodes);
        self.news.push_reserved(News::Cast { node, vote: copy });
        Ok(other)
    }

    /// Plans that the learner hears that the entry was learned in the slot. Returns whether another one would be learned there. On `Memory`
    /// it is to hear what it was to hear before.
    pub fn tell(&mut self, slot: Slot, entry: &Entry<B>) -> Result<bool, LearnerFault>
        ensures ok { OnOk result (self.new ≡ and_news (Told slot entry.now) self.old) }
        ensures other { IfOk result (λ other. other ≡ disagrees B.same slot entry.now (after self.old).learner) }
        ensures err { OnErr result (self.new ≡ self.old) }
        ensures memory { IsOkUnless result Memory }
    {
        let Ok(copy) = entry.copy(self.alloc) else {
            return Err(LearnerFault::Memory);
        };
        if self.news.reserve(1).is_err() {
            return Err(LearnerFault::Memory);
        }
        if self.learner.is_closed(slot) {
            self.news.push_reserved(News::Told { slot, entry: copy });
            return Ok(false);
        }
        let other = gain(self.alloc, self.learner, &mut self.gained, slot, entry)?;
        self.news.push_reserved(News::Told { slot, entry: copy });
        Ok(other)
    }

    /// Copies the entries that would be learned in the slots after the first `applied`, up to the first slot that would have none. Finds
    /// each as `learned` does, and looks at nothing else.
    pub fn run_after(&self, applied: u64) -> Result<Entries<B>, LearnerFault>
        ensures run { IfOk result (λ run. run ≡ run_from (suc applied) (after self.now).learner.learned) }
        ensures memory { IsOkUnless result Memory }
    {
        run_after(self, self.alloc, applied)
    }

    /// Copies what would be learned in the slot with this number and the 63 after it. Finds each as `learned` does, and looks at nothing
    /// else.
    pub fn learned_from(&self, first: u64) -> Result<Vec<LearnedEntry<B>>, LearnerFault>
        ensures learned { IfOk result (λ told. told.items ≡ learned_within first (first + 64) (after self.now).learner.learned) }
        ensures memory { IsOkUnless result Memory }
    {
        learned_from(self, self.alloc, first)
    }
}

fn run_after<B: Body>(
    hearing: &Hearing<'_, B>,
    alloc: Global,
    applied: u64,
) -> Result<Entries<B>, LearnerFault>
    ensures run { IfOk result (λ run. run ≡ run_from (suc applied) (after hearing.now).learner.learned) }
    ensures memory { IsOkUnless result Memory }
{
    hearing.ascends();
    let mut run = Entries::new(alloc);
    for number in applied..SLOT_END {
        let Some(entry) = hearing.learned_in(number + 1) else {
            return Ok(run);
        };
        push_copy(alloc, &mut run, entry)?;
    }
    Ok(run)
}

fn learned_from<B: Body>(
    hearing: &Hearing<'_, B>,
    alloc: Global,
    first: u64,
) -> Result<Vec<LearnedEntry<B>>, LearnerFault>
    ensures learned { IfOk result (λ told. told.items ≡ learned_within first (first + 64) (after hearing.now).learner.learned) }
    ensures memory { IsOkUnless result Memory }
{
    hearing.ascends();
    let mut told = Vec::new(alloc);
    if first >= SLOT_END {
        return Ok(told);
    }
    for number in first..first + 64 {
        tell_one(hearing, alloc, &mut told, number)?;
    }
    Ok(told)
}

// Appends what would be learned in the slot with this number, if anything.
fn tell_one<B: Body>(
    hearing: &Hearing<'_, B>,
    alloc: Global,
    told: &mut Vec<LearnedEntry<B>>,
    number: u64,
) -> Result<(), LearnerFault>
    ensures ok { OnOk result (told.new.items ≡ told.old.items ++ learned_within number (suc number) (after hearing.now).learner.learned) }
    ensures memory { IsOkUnless result Memory }
{
    hearing.ascends();
    let Some(slot) = Slot::new(number) else {
        return Ok(());
    };
    let Some(entry) = hearing.learned(slot) else {
        return Ok(());
    };
    let Ok(entry) = entry.copy(alloc) else {
        return Err(LearnerFault::Memory);
    };
    let Ok(()) = told.push(LearnedEntry { slot, entry }) else {
        return Err(LearnerFault::Memory);
    };
    Ok(())
}

// Appends a copy of the entry.
fn push_copy<B: Body>(
    alloc: Global,
    entries: &mut Entries<B>,
    entry: &Entry<B>,
) -> Result<(), LearnerFault>
    ensures ok { OnOk result (entries.new ≡ entries.old ++ entry.now ∷ []) }
    ensures memory { IsOkUnless result Memory }
{
    let Ok(copy) = entry.copy(alloc) else {
        return Err(LearnerFault::Memory);
    };
    let Ok(()) = entries.push(copy) else {
        return Err(LearnerFault::Memory);
    };
    Ok(())
}

// Returns the members that would have been heard to vote there.
fn nodes_over<B>(learner: &Learner<B>, changed: &Changes, place: &SlotBallot) -> NodeSet
    ensures { result ≡ unwrap_or (lookup (same_place place.now) changed.now.heard) (nodes_heard place.now learner.now.state.learner.heard) }
{
    match changed.find(place) {
        Some(nodes) => nodes,
        None => learner.nodes(place),
    }
}

// Returns the entry that would be learned in the slot.
fn find_over<'a, B>(
    learner: &'a Learner<B>,
    gained: &'a Gained<B>,
    slot: Slot,
) -> Option<&'a Entry<B>>
    ensures { option_copied result ≡ over slot gained.now.learned learner.now.state.learner.learned }
{
    match gained.find(slot) {
        Some(entry) => Some(entry),
        None => learner.learned(slot),
    }
}

// Gains the entry, unless one would be learned in the slot. Returns whether that is another one.
fn gain<B: Body>(
    alloc: Global,
    learner: &Learner<B>,
    gained: &mut Gained<B>,
    slot: Slot,
    entry: &Entry<B>,
) -> Result<bool, LearnerFault>
    ensures ok { OnOk result (gained.new.learned
        ≡ gain slot entry.now (over slot gained.old.learned learner.now.state.learner.learned) gained.old.learned) }
    ensures other { IfOk result (λ other. other
        ≡ is_other B.same entry.now (over slot gained.old.learned learner.now.state.learner.learned)) }
    ensures err { OnErr result (gained.new.learned ≡ gained.old.learned) }
    ensures memory { IsOkUnless result Memory }
    ensures least { 1 ≤ slot }
    ensures most { slot < 2 ^ 40 }
{
    let _number = slot.get();
    if let Some(known) = find_over(learner, gained, slot) {
        return Ok(!known.same(entry));
    }
    let Ok(copy) = entry.copy(alloc) else {
        return Err(LearnerFault::Memory);
    };
    gained.put(slot, copy)?;
    Ok(false)
}
