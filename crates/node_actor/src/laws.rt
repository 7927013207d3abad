//! What the definitions of an actor say, each as the contract of a function that does nothing.
ghost use Rattle.std.specs.Prelude.{◌≡◌, true, false, Some, None, [], ◌∷◌, length};
ghost use Rattle.paxos_node.specs.Applying.{down, started};
ghost use Rattle.paxos_node.specs.Examples.{ballot, promised_to, waiting};
ghost use Rattle.paxos_node.specs.declared.event.Event.TheVariants.{Start, Tick, Deliver};
ghost use Rattle.paxos_planning.specs.Node.{told_length};
ghost use Rattle.replica_machine.specs.Examples.{adding, lost_and_back, transport};
ghost use Rattle.replica_machine.specs.SnapshotExamples.{of_eight};
ghost use Rattle.node_actor.specs.Compare.{fit_of};
ghost use Rattle.node_actor.specs.Examples.{same_number, summed_up, cut_short, logs, first_node, full_node, rested_rows, ahead_node};
ghost use Rattle.node_actor.specs.Examples.{brings, cuts, voted_rows, cut_outcome, cut_rows, bare_cut_rows};
ghost use Rattle.node_actor.specs.Snapshots.{takes_over, takes_no_log, log_before, under_after, handed_by, cut_to};
ghost use Rattle.actor_outboxes.specs.Outboxes.{due_of};
ghost use Rattle.node_actor.specs.RoundExamples.{accept, accepted, act, asks, astray, follower, forward_of, holds, looks, makes, posts, sends, treats};
ghost use Rattle.node_actor.specs.RoundExamples.{two_applied};
ghost use Rattle.node_actor.specs.Rounds.{came, hearings};
ghost use Rattle.node_actor.specs.Turns.{EachIsTried};
ghost use Rattle.node_actor.specs.declared.compare.Fit.TheVariants.{Left, Meant, Others};

/// A round of fetches tries each other member, whichever it begins from. So a turn that got no packet tried to fetch from each.
pub fn each_is_tried()
    ensures { EachIsTried }
{}

/// Cuts, and snapshots that nodes take over, computed. Does not allocate.
pub fn snapshot_examples()
    // a node cuts that has applied entries above its floor, and no other; it says nothing then, and has the same log after it
    ensures cut { cut_to 2 (Some summed_up) full_node ≡ Some cuts }
    ensures cut_none { cut_to 2 (Some summed_up) (first_node 2) ≡ None }
    ensures cut_silent { handed_by same_number 3 adding logs [] (Some cuts) full_node ≡ [] }
    ensures cut_under { under_after same_number 3 logs [] (Some cuts) full_node ≡ lost_and_back }

    // a snapshot is taken over by a node whose boot it does not have, and what is applied and said then follows its log
    ensures taken { takes_over same_number 3 (Some (brings summed_up 2)) (first_node 2) ≡ Some summed_up }
    ensures read { takes_no_log same_number 3 of_eight (Some (brings summed_up 2)) (first_node 2) ≡ false }
    ensures taken_before { log_before same_number 3 logs [] (Some (brings summed_up 2)) ahead_node ≡ lost_and_back }
    ensures taken_under { under_after same_number 3 logs [] (Some (brings summed_up 2)) ahead_node ≡ lost_and_back }
    ensures taken_says { handed_by same_number 3 adding logs [] (Some (brings summed_up 2)) ahead_node ≡ (transport 2 1 1, 107) ∷ [] }

    // one of which no log is made is told so, but not by a node that would not take it over
    ensures unread { takes_no_log same_number 3 of_eight (Some (brings cut_short 2)) (first_node 2) ≡ true }
    ensures passed { takes_over same_number 3 (Some (brings cut_short 3)) (first_node 3) ≡ None }
    ensures passed_read { takes_no_log same_number 3 of_eight (Some (brings cut_short 3)) (first_node 3) ≡ false }

    // a node begins as long as its snapshot says; one that is down has no length
    ensures begins { told_length (started 2 rested_rows) ≡ 12 }
    ensures downs { told_length (down rested_rows) ≡ 0 }

    // after a cut whose commit failed a store may have the rows of before, or those that it was to leave, but no others
    ensures left { fit_of same_number (Some cut_outcome.change) voted_rows voted_rows ≡ Left }
    ensures meant { fit_of same_number (Some cut_outcome.change) voted_rows cut_rows ≡ Meant }
    ensures others { fit_of same_number (Some cut_outcome.change) voted_rows bare_cut_rows ≡ Others }
{}

/// Which events a round makes, and which packets it posts, computed. Does not allocate.
pub fn round_examples()
    // own events are made in order; one for which no round is left is dropped
    ensures own { makes (act 5 ∷ Tick 1 ∷ act 6 ∷ []) (waiting 0) ≡ act 5 ∷ Tick 1 ∷ act 6 ∷ [] }
    ensures own_held { holds (act 5 ∷ Tick 1 ∷ act 6 ∷ []) (waiting 0) ≡ [] }
    ensures dropped { makes (Start 1 ∷ act 6 ∷ []) (promised_to 281474976710655 2) ≡ act 6 ∷ [] }
    ensures dropped_held { holds (Start 1 ∷ act 6 ∷ []) (promised_to 281474976710655 2) ≡ [] }

    // from one for which there is no room on they are held back, whatever they are
    ensures last_one { makes (act 5 ∷ act 6 ∷ Tick 1 ∷ []) (waiting 1023) ≡ act 5 ∷ [] }
    ensures held { holds (act 5 ∷ act 6 ∷ Tick 1 ∷ []) (waiting 1023) ≡ act 6 ∷ Tick 1 ∷ [] }

    // packets are treated in order; passed over is an Accepted of a slot that is applied, and what is for another node
    ensures treated { treats (accepted 3 ∷ accept 2 ∷ []) two_applied ≡ Deliver (accepted 3) ∷ Deliver (accept 2) ∷ [] }
    ensures late { treats (accepted 1 ∷ accepted 2 ∷ accepted 3 ∷ []) two_applied ≡ Deliver (accepted 3) ∷ [] }
    ensures elsewhere { treats (astray ∷ accept 2 ∷ []) two_applied ≡ Deliver (accept 2) ∷ [] }

    // three acts make three Forwards, of which the last one is due: it has all of them. Nothing else is left out or changes its place
    ensures forwards { sends (act 5 ∷ act 6 ∷ act 7 ∷ []) follower ≡ forward_of (5 ∷ []) ∷ forward_of (5 ∷ 6 ∷ []) ∷ forward_of (5 ∷ 6 ∷ 7 ∷ []) ∷ [] }
    ensures forwarded { posts (act 5 ∷ act 6 ∷ act 7 ∷ []) follower ≡ forward_of (5 ∷ 6 ∷ 7 ∷ []) ∷ [] }
    ensures among_others { due_of (forward_of (5 ∷ []) ∷ asks ∷ forward_of (6 ∷ []) ∷ asks ∷ []) ≡ asks ∷ forward_of (6 ∷ []) ∷ asks ∷ [] }

    // what came in looks came in their order
    ensures in_turn { came looks ≡ accept 1 ∷ accepted 1 ∷ accepted 2 ∷ [] }
    ensures heard { length (hearings looks) ≡ 3 }
{}
