//! Laws over the definitions in `specs/`, each the contract of a function that does nothing.
ghost use Rattle.std.specs.Prelude.{◌≡◌, true, false, Some, None, [], ◌∷◌};
ghost use Rattle.replica_machine.specs.Effects.{effects, live_boot, items_taken, item_numbers};
ghost use Rattle.replica_machine.specs.Examples.{items_out_of_order, item_without_first, lost_and_back, adding, transport};
ghost use Rattle.replica_machine.specs.Replay.{state, said};
ghost use Rattle.replica_machine.specs.Laws.{EffectsGoByPlaces, EffectsAreOne, LiveBootsAreOne, ItemsTakenAreOne};
ghost use Rattle.replica_machine.specs.Laws.{EffectsGoOn, ItemsAreNumbered, EffectEndsWant, ItemsStayWanted};
ghost use Rattle.replica_machine.specs.Laws.{BootsStayWanted, LostsStayWanted, StateGoesOn, SayingsGoOn, SayingsGoBySlot};
ghost use Rattle.std.specs.Prelude.{List, ◌++◌, map, take, length};
ghost use Rattle.paxos_packets.specs.declared.entry.Entry.{Entry};
ghost use Rattle.replica_machine.specs.Given.{AreGiven};
ghost use Rattle.replica_machine.specs.Log.{machine_from};
ghost use Rattle.replica_machine.specs.Roll.{standing};
ghost use Rattle.replica_machine.specs.Snapshot.{kept_octets, loaded_log};
ghost use Rattle.replica_machine.specs.SnapshotLaws.{LoadedStands, CutStands};
ghost use Rattle.replica_machine.specs.SnapshotExamples.{eight, of_eight, summed, summed_octets};
ghost use Rattle.replica_machine.specs.SnapshotExamples.{live_at_none, counts_lost, no_flag, no_slot};

use crate::machine::Machine;

/// The positions of a log, and the standings that a roll keeps as it goes along, agree on which entries take effect, which boot of a node
/// is live, and how many of its Items took effect. Does not allocate.
pub fn effects<B>()
    ensures by_places { EffectsGoByPlaces B }
    ensures effects { EffectsAreOne B }
    ensures live { LiveBootsAreOne B }
    ensures taken { ItemsTakenAreOne B }
    ensures goes_on { EffectsGoOn B }
{}

/// The Items of one boot that take effect in a log are numbered 1, 2, 3 and so on, in order. Does not allocate.
pub fn numbering<B>()
    ensures { ItemsAreNumbered B }
{}

/// What stays pending after a log: an Item until it took effect, a Boot until its node has one as great, a Lost while it names the live
/// boot. Does not allocate.
pub fn pending<B>()
    ensures effect_ends_it { EffectEndsWant B }
    ensures items { ItemsStayWanted B }
    ensures boots { BootsStayWanted B }
    ensures losts { LostsStayWanted B }
{}

/// A machine that has followed a log follows a longer one from there. Does not allocate.
pub fn replay<B, S, Y>()
    ensures state { StateGoesOn B S Y }
    ensures sayings { SayingsGoOn B S Y }
    ensures by_slot { SayingsGoBySlot B S Y }
{}

/// Small logs, computed. Does not allocate.
pub fn examples()
    // took, took, skipped, skipped, took, took
    ensures out_of_order { effects items_out_of_order ≡ true ∷ true ∷ false ∷ false ∷ true ∷ true ∷ [] }
    ensures out_of_order_numbers { item_numbers 1 1 items_out_of_order ≡ 1 ∷ 2 ∷ 3 ∷ [] }

    // a Noop never takes effect, nor an Item before the one that its node took before it
    ensures without_first { effects item_without_first ≡ true ∷ false ∷ false ∷ true ∷ [] }

    // the Lost ends the boot once, and nothing of the boot takes effect after it
    ensures lost { effects lost_and_back
        ≡ true ∷ true ∷ true ∷ true ∷ false ∷ false ∷ false ∷ true ∷ false ∷ false ∷ true ∷ true ∷ [] }
    ensures lost_live { live_boot 3 lost_and_back ≡ Some 2 }
    ensures lost_taken { items_taken 3 lost_and_back ≡ 1 }
    ensures never_booted { live_boot 2 lost_and_back ≡ None }

    // a machine that adds up has the sum of the Items that took effect, and said each sum to its act's transport
    ensures sum { state adding lost_and_back ≡ 100 }
    ensures said_first { said adding (transport 3 1 1) lost_and_back ≡ (transport 3 1 1, 10) ∷ [] }
    ensures said_second { said adding (transport 3 2 1) lost_and_back ≡ (transport 3 2 1, 50) ∷ [] }
    ensures said_other { said adding (transport 1 1 1) lost_and_back ≡ (transport 1 1 1, 100) ∷ [] }
{}

/// A log that is made of what is kept of another stands for the same one, and so does a log that is cut. Does not allocate.
pub fn snapshots<B, S, Y, M>()
    ensures loaded { LoadedStands B S Y M }
    ensures cut { CutStands B S Y M }
{}

/// Along entries that are ones a machine's content stays sound. Does not allocate.
pub fn soundness<M: Machine>()
    ensures { (first : M.Content) (log : List (Entry M.Body)) → AreGiven log → M.is_sound first
        → M.is_sound (state (machine_from M.steps first) log) }
{}

/// A small log as octets, computed. Does not allocate.
pub fn snapshot_examples()
    ensures standings { map (λ n. standing n lost_and_back) (1 ∷ 2 ∷ 3 ∷ 4 ∷ 5 ∷ 6 ∷ 7 ∷ []) ≡ summed.standings }
    ensures floor { length lost_and_back ≡ summed.floor }
    ensures saved { kept_octets eight summed ≡ summed_octets }
    ensures loaded { loaded_log of_eight summed_octets ≡ Some summed }
    ensures missing { loaded_log of_eight (take 134 summed_octets) ≡ None }
    ensures left { loaded_log of_eight (summed_octets ++ 0 ∷ []) ≡ None }
    ensures live_at_none { loaded_log of_eight live_at_none ≡ None }
    ensures counts_lost { loaded_log of_eight counts_lost ≡ None }
    ensures no_flag { loaded_log of_eight no_flag ≡ None }
    ensures no_slot { loaded_log of_eight no_slot ≡ None }
{}
