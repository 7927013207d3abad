//! Laws over every list of events, each the contract of a function that does nothing.
ghost use Rattle.cluster_world.specs.Answers.{HandedIsSaid, HandedStays};
ghost use Rattle.cluster_world.specs.AtOnce.{AppliesAsAtOnce};
ghost use Rattle.cluster_world.specs.Origins.{ItemsWereTaken, BootsWereHad, LostsWereSuspected, LogsAreGiven};
ghost use Rattle.replica_machine.specs.Laws.{ItemsAreNumbered};
ghost use Rattle.std.specs.Prelude.{◌≡◌, true, false, [], ◌∷◌};
ghost use Rattle.paxos_packets.specs.declared.entry.Entry.TheVariants.{Boot, Lost};
ghost use Rattle.replica_machine.specs.Effects.{effects};
ghost use Rattle.cluster_world.specs.Examples.{run, one_session, leader_crash, hung_before_boot, asked_in_vain};
ghost use Rattle.cluster_world.specs.Examples.{asked_again, lost_node, duel, session_log, after_crash_log, hung_log};
ghost use Rattle.cluster_world.specs.Examples.{lost_log, duel_log, crash_packets, logs, ups, sums_handed};
ghost use Rattle.cluster_world.specs.CutExamples.{shown, up_at, item};
ghost use Rattle.cluster_world.specs.CutExamples.{long_down, raised_next, cut_before_majority, own_boot, own_boot_left, two_floors};
ghost use Rattle.cluster_world.specs.CutExamples.{two_floors_asked, accept_below, overtaken, lost_above, lost_dropped, at_the_floor};
ghost use Rattle.cluster_world.specs.RescueExamples.{rescued, saved_act, behind_a_cut, behind_own_boot, learned_above, own_lost_above};
ghost use Rattle.cluster_world.specs.RescueExamples.{cut_by_another, cut_by_itself, floors_of_two};
ghost use Rattle.cluster_world.specs.CutLogs.{CutsAreLogs, NodesRestOnLogs, PacketsBringLogs, NodesStandByLogs};
ghost use Rattle.cluster_world.specs.Owed.{PendingIsOwed, TakenAreCounted, PendingLostsAreLive, PendingIsFew, DownIsRows};
ghost use Rattle.cluster_world.specs.Proposers.{RoundsWereSent, ProposalsFollow};
ghost use Rattle.cluster_world.specs.Majorities.{MajoritiesHold, NewBallotsAreFresh};
ghost use Rattle.cluster_world.specs.Rescue.{NoDeadEnd, RescuesHaveRoom};
ghost use Rattle.cluster_world.specs.Scripts.{ScriptsArePlayed};
ghost use Rattle.cluster_world.specs.Steps.{SentIsAmong, NodesAreMembers, OneEventMore, EventGoes, EventStays};
ghost use Rattle.cluster_world.specs.Told.{HandedIsOne};
ghost use Rattle.cluster_world.specs.Laws.{LearnedIsChosen, ChosenIsOne, ToldIsChosen, LearnedIsOne, NeverDisagrees, NothingWaits};
ghost use Rattle.cluster_world.specs.Laws.{LogIsChosen, LogsArePrefixes, AppliedIsChosen, AppliedArePrefixes, LogAfterIsApplied, LogIsApplied};

use paxos_packets::Body;

/// How a world goes on: an event that is possible makes of its node what the node's own part of the event does, and appends its packets;
/// any other changes nothing. Only what was sent is delivered, and whatever was sent may be.
pub fn steps<B: Body>()
    ensures sent { SentIsAmong B B.same }
    ensures nodes { NodesAreMembers B B.same }
    ensures one_more { OneEventMore B B.same }
    ensures goes { EventGoes B B.same }
    ensures stays { EventStays B B.same }
{}

/// Agreement: what a node has learned in a slot is chosen there, two chosen entries of one slot are equal, and a packet that reports a
/// learned entry reports a chosen one. So no two nodes, nor one at two moments, learn different entries in one slot.
pub fn agreement<B: Body>()
    ensures learned { LearnedIsChosen B B.same }
    ensures one { ChosenIsOne B B.same }
    ensures told { ToldIsChosen B B.same }
    ensures at_any_moments { LearnedIsOne B B.same }
{}

/// Log agreement: each entry of a log is chosen in its slot, and of two logs, at any two moments, one is a prefix of the other.
pub fn log_agreement<B: Body>()
    ensures chosen { LogIsChosen B B.same }
    ensures prefixes { LogsArePrefixes B B.same }
{}

/// What is applied is chosen: whatever a node ever applied, in whatever boot, a Lost of that boot included, is chosen in its slot, and of
/// two such lists, at any two moments, one is a prefix of the other. Each event leaves its node with such a list, and each log is one or
/// empty.
pub fn applied_is_chosen<B: Body>()
    ensures chosen { AppliedIsChosen B B.same }
    ensures prefixes { AppliedArePrefixes B B.same }
    ensures after { LogAfterIsApplied B B.same }
    ensures logs { LogIsApplied B B.same }
{}

/// No disagreement: no event brings a node another entry of a slot that it has learned.
pub fn no_disagreement<B: Body>()
    ensures { NeverDisagrees B B.same }
{}

/// Nothing waits: a node has applied what it has learned, up to the first slot that it lacks.
pub fn nothing_waits<B: Body>()
    ensures { NothingWaits B B.same }
{}

/// Answers, for every machine: while a node is up, each transport of its present boot was handed what the machine says to it along the
/// node's log, if that says nothing to it before the boot begins there. Once an event takes the node down, that stays as it is then, with
/// the slot of a Lost of its own boot. Of at most seven members: a snapshot tells where nodes 1 to 7 stand.
pub fn answers<B: Body, S, Y>()
    ensures said { HandedIsSaid B B.same S Y }
    ensures stays { HandedStays B B.same S Y }
{}

/// What transports were handed in a world is one list, by node, boot and number.
pub fn handed_once<B: Body, S, Y>()
    ensures { HandedIsOne B S Y }
{}

/// Applying at an event's end equals applying at once: in every world an event makes of its node what it would make of one that applies
/// each entry as soon as it learned it. For a vote of its own for a new proposal teaches a node nothing, since no other can have voted for
/// that slot in that ballot before.
pub fn applies_as_at_once<B: Body>()
    ensures { AppliesAsAtOnce B B.same }
{}

/// At most once: the items of a boot that take effect in a log are numbered 1, 2, 3 and so on; each item in a log is the act, with
/// transport and body, that its node took under that number in that boot; a boot in a log is one that its node had; and a loss comes from a
/// suspicion by another node, in whose log that boot was live then, which had room for it, and at which it was pending after that.
pub fn at_most_once<B: Body>()
    ensures numbered { ItemsAreNumbered B }
    ensures taken { ItemsWereTaken B B.same }
    ensures boots { BootsWereHad B B.same }
    ensures losses { LostsWereSuspected B B.same }
{}

/// What was cut stands for the log that it was made from: each snapshot is as long as its log, whose entries are chosen in their slots, and
/// its head tells where the nodes stand after it. Each snapshot that a node has, or that a packet brings, was cut. So a node that is up
/// stands where its whole log says, and knows how long that is.
pub fn cuts_are_logs<B: Body>()
    ensures cuts { CutsAreLogs B B.same }
    ensures nodes { NodesRestOnLogs B B.same }
    ensures packets { PacketsBringLogs B B.same }
    ensures stands { NodesStandByLogs B B.same }
{}

/// Each entry of a log names a node from 1 to 7 and a boot from 1 to 2^48 - 1, and an Item a number of that range and a transport from 1. So
/// what a log is saved as is read again as a log that stands for it (`laws::snapshots` of `replica_machine`).
pub fn logs_are_given<B: Body>()
    ensures { LogsAreGiven B B.same }
{}

/// What is pending at a node that is up is what it owes and Losts: its own Boot until its boot is live by its log, and the Items of the acts
/// that it took in this boot and that did not take effect yet, in their order. Each of those Losts names another node's live boot. No more
/// than 1,024 entries are pending. A node that is down has its rows alone.
pub fn pending<B: Body>()
    ensures owed { PendingIsOwed B B.same }
    ensures counted { TakenAreCounted B B.same }
    ensures losts { PendingLostsAreLive B B.same }
    ensures few { PendingIsFew B B.same }
    ensures down { DownIsRows B B.same }
{}

/// Each round that a node holds was sent: the greatest that it saw, that of its promise, and that of the ballot that it prepares or leads
/// are each the greatest round in some packet that was sent, or 0.
pub fn rounds_were_sent<B: Body>()
    ensures { RoundsWereSent B B.same }
{}

/// What a leader proposed is in slots that follow one another: those right below its next slot, one in each.
pub fn proposals_follow<B: Body>()
    ensures { ProposalsFollow B B.same }
{}

/// What is chosen is not lost: in each majority whose members' floors are below its slot some member has a vote for it there, and each vote
/// that a node has there in that ballot or a higher one is for it, too. So of the votes that a majority has in the slot the highest is for
/// what is chosen.
pub fn majorities_hold<B: Body>()
    ensures { MajoritiesHold B B.same }
{}

/// A ballot is fresh until its own node promises it, or one above it: no packet asks for its promise, and no vote was asked for, cast or
/// heard in it.
pub fn new_ballots_are_fresh<B: Body>()
    ensures { NewBallotsAreFresh B B.same }
{}

/// No dead end: from every world that events lead to, with a majority up and room for rounds and slots, the events of a rescue of a node that is
/// up bring an act to be applied there. They restart the node at most once, and take no other node down.
pub fn no_dead_end<B: Body>()
    ensures { NoDeadEnd B B.same }
{}

/// Where no refusal stands, a rescue has room: after the rounds and slots that its crew holds there are those that its course needs, so the
/// course is listed unless memory runs out (`Crew::course` of `world_rescue`, clause `room`).
pub fn rescues_have_room<B: Body>()
    ensures { RescuesHaveRoom B B.same }
{}

/// A script, line by line, leads to the world of its events, with each flush written out as its deliveries; a Cut has what the machine saves.
pub fn scripts<B: Body, S, Y>()
    ensures { ScriptsArePlayed B B.same S Y }
{}

/// Runs by hand, computed: for each the logs of all nodes, and which are up.
pub fn examples()
    // one session through three nodes
    ensures session { logs (run 3 one_session) 3 ≡ session_log ∷ session_log ∷ session_log ∷ [] }
    ensures session_handed { sums_handed 2 1 1 (run 3 one_session) ≡ 10 ∷ 21 ∷ [] }

    // a leader crashes after one other has voted; another one leads, and proposes what is reported to it
    ensures crash { logs (run 3 leader_crash) 3 ≡ [] ∷ after_crash_log ∷ after_crash_log ∷ [] }
    ensures crash_up { ups (run 3 leader_crash) 3 ≡ false ∷ true ∷ true ∷ [] }
    ensures crash_packets { (run 3 leader_crash).sent ≡ crash_packets }

    // the second act of a node is reported without the first: a gap is filled, and the act is skipped
    ensures hung { logs (run 3 hung_before_boot) 3 ≡ [] ∷ hung_log ∷ hung_log ∷ [] }
    ensures hung_effects { effects hung_log ≡ true ∷ false ∷ false ∷ true ∷ [] }

    // two of four are no majority, three are
    ensures in_vain { logs (run 4 asked_in_vain) 4 ≡ [] ∷ [] ∷ [] ∷ [] ∷ [] }
    ensures again { logs (run 4 asked_again) 4 ≡ (Boot 1 1 ∷ []) ∷ [] ∷ [] ∷ [] ∷ [] }

    // a node is taken to be lost, goes down at that slot, and comes back in another boot
    ensures lost { logs (run 3 lost_node) 3 ≡ lost_log ∷ lost_log ∷ lost_log ∷ [] }
    ensures lost_up { ups (run 3 lost_node) 3 ≡ true ∷ true ∷ true ∷ [] }
    ensures lost_handed { sums_handed 3 1 1 (run 3 lost_node) ≡ 10 ∷ 21 ∷ 33 ∷ [] }
    ensures back_handed { sums_handed 2 1 1 (run 3 lost_node) ≡ 53 ∷ 74 ∷ 96 ∷ [] }

    // two nodes want to lead
    ensures duel { logs (run 3 duel) 3 ≡ duel_log ∷ duel_log ∷ duel_log ∷ [] }
{}

/// Runs by hand in which nodes cut and take snapshots, computed.
pub fn cut_examples()
    ensures long_down_1 { shown (run 3 long_down) 1 ≡ up_at 2 (Boot 2 1 ∷ Boot 3 2 ∷ []) }
    ensures long_down_2 { shown (run 3 long_down) 2 ≡ up_at 2 (Boot 2 1 ∷ Boot 3 2 ∷ []) }
    ensures long_down_3 { shown (run 3 long_down) 3 ≡ up_at 2 (Boot 2 1 ∷ Boot 3 2 ∷ []) }
    ensures raised_next_1 { shown (run 3 raised_next) 1 ≡ up_at 2 (Boot 1 1 ∷ item 1 1 ∷ Boot 2 1 ∷ []) }
    ensures cut_before_majority_1 { shown (run 3 cut_before_majority) 1 ≡ up_at 1 (item 1 1 ∷ []) }
    ensures cut_before_majority_2 { shown (run 3 cut_before_majority) 2 ≡ up_at 0 (Boot 1 1 ∷ item 1 1 ∷ []) }
    ensures cut_before_majority_3 { shown (run 3 cut_before_majority) 3 ≡ up_at 0 (Boot 1 1 ∷ item 1 1 ∷ []) }
    ensures own_boot_1 { shown (run 3 own_boot) 1 ≡ up_at 3 [] }
    ensures own_boot_3 { shown (run 3 own_boot) 3 ≡ up_at 0 (Boot 1 1 ∷ Boot 3 1 ∷ []) }
    ensures own_boot_left_3 { shown (run 3 own_boot_left) 3 ≡ up_at 3 [] }
    ensures two_floors_2 { shown (run 5 two_floors) 2 ≡ up_at 2 (item 1 2 ∷ Boot 5 1 ∷ []) }
    ensures two_floors_3 { shown (run 5 two_floors) 3 ≡ up_at 3 (Boot 5 1 ∷ []) }
    ensures two_floors_5 { shown (run 5 two_floors) 5 ≡ up_at 0 [] }
    ensures two_floors_asked_5 { shown (run 5 two_floors_asked) 5 ≡ up_at 2 (item 1 2 ∷ Boot 5 1 ∷ []) }
    ensures accept_below_1 { shown (run 3 accept_below) 1 ≡ up_at 0 (Boot 1 1 ∷ item 1 1 ∷ Boot 3 1 ∷ []) }
    ensures accept_below_2 { shown (run 3 accept_below) 2 ≡ up_at 2 (Boot 3 1 ∷ []) }
    ensures accept_below_3 { shown (run 3 accept_below) 3 ≡ up_at 2 (Boot 3 1 ∷ []) }
    ensures overtaken_1 { shown (run 3 overtaken) 1 ≡ up_at 1 (item 1 1 ∷ []) }
    ensures overtaken_2 { shown (run 3 overtaken) 2 ≡ up_at 2 [] }
    ensures overtaken_3 { shown (run 3 overtaken) 3 ≡ up_at 2 [] }
    ensures lost_above_1 { shown (run 3 lost_above) 1 ≡ up_at 1 (Boot 3 2 ∷ Lost 3 2 ∷ []) }
    ensures lost_dropped_1 { shown (run 3 lost_dropped) 1 ≡ up_at 3 (Boot 2 1 ∷ []) }
    ensures lost_dropped_2 { shown (run 3 lost_dropped) 2 ≡ up_at 3 (Boot 2 1 ∷ []) }
    ensures at_the_floor_2 { shown (run 3 at_the_floor) 2 ≡ up_at 1 (item 1 1 ∷ []) }
    ensures lost_above_3 { (shown (run 3 lost_above) 3).up ≡ false }
{}

/// Rescues by hand in which nodes rest on snapshots, computed.
pub fn rescue_examples()
    ensures behind_a_cut_3 { shown (rescued 3 behind_a_cut 3) 3 ≡ up_at 2 (Boot 3 2 ∷ saved_act 3 2 ∷ []) }
    ensures behind_own_boot_3 { shown (rescued 3 behind_own_boot 3) 3 ≡ up_at 3 (Boot 3 2 ∷ saved_act 3 2 ∷ []) }
    ensures learned_above_3 { shown (rescued 3 learned_above 3) 3 ≡ up_at 1 (item 1 1 ∷ Boot 3 2 ∷ saved_act 3 2 ∷ []) }
    ensures own_lost_above_3 { shown (rescued 3 own_lost_above 3) 3 ≡ up_at 1 (Boot 3 2 ∷ Lost 3 2 ∷ Boot 3 3 ∷ saved_act 3 3 ∷ []) }
    ensures cut_by_another_3 { shown (rescued 3 cut_by_another 3) 3 ≡ up_at 2 (Lost 3 1 ∷ Boot 3 2 ∷ saved_act 3 2 ∷ []) }
    ensures cut_by_itself_3 { shown (rescued 3 cut_by_itself 3) 3 ≡ up_at 2 (Lost 3 1 ∷ Boot 3 2 ∷ saved_act 3 2 ∷ []) }
    ensures floors_of_two_5 { shown (rescued 5 floors_of_two 5) 5 ≡ up_at 3 (Boot 5 1 ∷ saved_act 5 1 ∷ []) }
{}
