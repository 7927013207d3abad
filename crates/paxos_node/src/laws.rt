//! Laws over the definitions in `specs/`, each the contract of a function that does nothing.
ghost use Rattle.std.specs.Prelude.{◌≡◌, ℕ, true, false, Some, [], ◌∷◌, ◌++◌};
ghost use Rattle.paxos_packets.specs.Packet.{to_others};
ghost use Rattle.paxos_packets.specs.declared.entry.Entry.TheVariants.{Item};
ghost use Rattle.paxos_node.specs.declared.event.Event.TheVariants.{Take, Tick, Start};
ghost use Rattle.paxos_packets.specs.declared.packet.Kind.TheVariants.{Prepare, Accept, Accepted, Ask};
ghost use Rattle.paxos_node.specs.Events.{is_round_refused};
ghost use Rattle.paxos_node.specs.Laws.{CommitsItsChange, JudgesAsAnAcceptor, SeesItsBallots, StaysSeen, KeepsItsBoot};
ghost use Rattle.paxos_packets.specs.declared.rows.Rows.{Rows};
ghost use Rattle.paxos_node.specs.Applying.{started};
ghost use Rattle.paxos_node.specs.Examples.{after, ballot, boot_vote, change, first_node, asked, led, promised_to};
ghost use Rattle.paxos_node.specs.Examples.{waiting, takes_refused, leading_at};

/// Nodes by hand, computed.
pub fn examples()
    // a first start asks the others for promises, and has seen its own round
    ensures asked { asked.change ≡ change (Some (ballot 1 1)) [] }
    ensures asked_round { asked.node.proposer.seen ≡ 1 }
    ensures asked_packets { asked.packets ≡ to_others 3 1 (Prepare (ballot 1 1) 1) }

    // with one more promise there is a majority: the leader votes for its own Boot, and proposes it
    ensures led { led.change ≡ change (Some (ballot 1 1)) (boot_vote ∷ []) }
    ensures led_packets { led.packets ≡ to_others 3 1 (Accept boot_vote) ++ to_others 3 1 (Accepted boot_vote) }

    // a tick asks, and does nothing else
    ensures tick_packets { (after (Tick 1) first_node).packets ≡ to_others 3 1 (Ask 1) }
    ensures tick_node { (after (Tick 1) first_node).node ≡ first_node }

    // the 1,025th pending entry is refused
    ensures room { takes_refused (waiting 1023) ≡ false }
    ensures full { takes_refused (waiting 1024) ≡ true }
    ensures full_node { (after (Take 1 1 5) (waiting 1024)).node ≡ waiting 1024 }

    // the last round is 2^48 - 1
    ensures last_round { (after (Start 1) (promised_to 281474976710654 2)).change ≡ change (Some (ballot 281474976710655 1)) [] }
    ensures rounds_spent { is_round_refused (Start 1) (promised_to 281474976710655 2) ≡ true }
    ensures rounds_node { (after (Start 1) (promised_to 281474976710655 2)).node ≡ promised_to 281474976710655 2 }

    // the last slot is 2^40 - 1; after it an act stays pending
    ensures last_slot { (after (Take 1 1 5) (leading_at 1099511627775)).change
        ≡ change (Some (ballot 1 1)) (record { slot = 1099511627775; ballot = ballot 1 1; entry = Item 1 1 1 1 5 } ∷ []) }
    ensures slots_spent { (after (Take 1 1 5) (leading_at 1099511627776)).packets ≡ [] }
    ensures stays_pending { (after (Take 1 1 5) (leading_at 1099511627776)).node.pending ≡ Item 1 1 1 1 5 ∷ [] }
{}

/// One commit: what a node that is up commits in an event is all that changes its rows.
pub fn one_commit<B>()
    ensures { CommitsItsChange B }
{}

/// A node treats each Prepare and each Accept as its acceptor does (`paxos_acceptor`, `Acceptor::plan`).
pub fn acceptor_judges<B>()
    ensures { JudgesAsAnAcceptor B }
{}

/// A node that is up has seen the rounds that it promised, and that of its own ballot: a node that starts has, and each event keeps it so.
/// So what it saw determines its next ballot alone (`paxos_proposer::laws::seen_promises_add_nothing`).
pub fn ballots_are_seen<B>()
    ensures started { (me : ℕ) (rows : Rows B) → SeesItsBallots (started me rows) }
    ensures kept { StaysSeen B }
{}

/// A snapshot that has a node's present boot changes nothing of a node that has applied what it learned, but what it saw.
pub fn present_boots_stay<B>()
    ensures { KeepsItsBoot B }
{}
