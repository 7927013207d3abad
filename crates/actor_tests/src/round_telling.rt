// A feed of rounds that keeps all that it gives and gets, so that the contract of a run by rounds speaks of both.
ghost use Rattle.std.specs.Prelude.{◌≡◌, ◌++◌, [], ℕ, List, eqb, true, false};
ghost use Rattle.std.specs.Option.{option_to_list};
ghost use Rattle.mail_table.specs.Seats.{Owns};
ghost use Rattle.node_actor.specs.Views.{View, StandsFor};
ghost use Rattle.paxos_node.specs.declared.event.Event.{Event};
ghost use Rattle.paxos_packets.specs.declared.transport.Transport.{Transport};
ghost use Rattle.replica_machine.specs.Examples.{adds};
ghost use Rattle.test_machines.specs.Sum.{loaded_sum};
ghost use Rattle.actor_tests.specs.Telling.{Told, TellsRounds};

use crate::counting::Sum;
use crate::telling::{Adding, Telling, keep_event, keep_says};
use actor_run::{Gate, RoundFeed, RoundSeen, run_rounds};
use mail_table::Mail;
use node_actor::Event;
use paxos_packets::Transport;
use std::alloc::Global;
use test_machines::Number;

/// Where the events of rounds come from, and answers go.
pub trait RoundAsks {
    /// Returns the next event of the round to come, if there is one.
    fn next(&mut self, seen: &RoundSeen<'_>) -> Option<Event<Number>>;

    /// Hears what the node says.
    fn hear(&mut self, says: &[Sum]);
}

impl<F: RoundAsks> RoundFeed<Number, Sum> for Telling<F> {
    ghost use Rattle.actor_tests.specs.Telling.{Told};

    ghost saw = { λ t given said. Told t.short t.gave.items t.got.items given said };

    fn next(&mut self, seen: &RoundSeen<'_>) -> Option<Event<Number>>
        ensures { (given : List (Event ℕ)) (said : List (Transport × ℕ)) → Told self.old.short self.old.gave.items self.old.got.items given said
            → Told self.new.short self.new.gave.items self.new.got.items (given ++ option_to_list result) said }
    {
        let Some(event) = self.asks.next(seen) else {
            return None;
        };
        keep_event(&mut self.gave, &mut self.short, &event);
        Some(event)
    }

    fn hand(&mut self, says: Vec<Sum>)
        ensures { (given : List (Event ℕ)) (said : List (Transport × ℕ)) → Told self.old.short self.old.gave.items self.old.got.items given said
            → Told self.new.short self.new.gave.items self.new.got.items given (said ++ says.items) }
    {
        let mut says = says;
        self.asks.hear(says.as_slice());
        keep_says(&mut self.got, &mut self.short, &mut says);
        drop(says);
    }
}

/// Runs the actor by rounds over a feed that has told nothing yet. Returns whether no fault ended it. Then the node took the acts that the feed
/// gave, in order, but for those that are held back for want of room at the end, and the feed got what the core hands out in the events that were
/// made: this is what the contract of `run_rounds` says of two lists that are there.
pub fn run_rounds_telling<G: Gate, F: RoundAsks>(
    alloc: Global,
    mail: &Mail<Number>,
    actor: &mut Adding,
    gate: &G,
    feed: &mut Telling<F>,
) -> bool
    requires owned { Owns mail.now actor.old.seat }
    requires gave { feed.old.gave.items ≡ [] }
    requires got { feed.old.got.items ≡ [] }
    ensures still_owned { Owns mail.now actor.new.seat }
    ensures told { result ≡ true → feed.new.short ≡ false → (view : View ℕ) → StandsFor actor.old view →
        TellsRounds eqb adds (λ c. c.0) loaded_sum actor.old view feed.new.gave.items feed.new.got.items }
{
    let done = run_rounds(alloc, mail, actor, gate, feed);
    let good = done.is_ok();
    drop(done);
    good
}
