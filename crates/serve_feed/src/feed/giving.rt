// Which events the feed gives: what time has brought, the cut of a round, and what clients do.
ghost use Rattle.std.specs.Prelude.{◌≡◌, ◌++◌, [], ℕ, List};
ghost use Rattle.std.specs.Option.{option_to_list};
ghost use Rattle.paxos_node.specs.declared.event.Event.{Event};
ghost use Rattle.actor_run.specs.Events.{asked_by, asked_in};
ghost use Rattle.realm_acts.specs.declared.act.Act.{Act};
ghost use Rattle.serve_feed.specs.Tells.{Tells};
ghost use Rattle.serve_feed.specs.Saw.{Saw};

use crate::feed::ClientFeed;
use crate::signs::lacks_entries;
use actor_run::RoundSeen;
use paxos_node::Event;
use realm_acts::Act;
use serve_policy::{Due, looks_aside};

impl ClientFeed<'_> {
    // Returns whether a tick may come: none is held back for another member, or the node lacks entries.
    pub(super) fn may_tick(&self, seen: &RoundSeen<'_>) -> bool {
        !self.boot.peers.holds_ticks() || lacks_entries(seen)
    }

    // Returns the event that time has brought.
    fn due(&mut self, due: Due) -> Event<Act>
        ensures node { self.new.node ≡ self.old.node }
        ensures sources { self.new.lanes.sources ≡ self.old.lanes.sources }
        ensures none { (me : ℕ) → asked_by me result ≡ [] }
    {
        self.stay();
        let node = self.node;
        match due {
            Due::Tick => {
                self.round.is_ticked = !self.pace.is_moving();
                self.pace.ticked();
                self.boot.behind.tick();
                self.boot.peers.tick();
                Event::Tick { node }
            }
            Due::Start => Event::Start { node },
            Due::Suspect(other) => Event::Suspect { node, other },
        }
    }

    // Returns the cut of this round; nothing once it was given.
    fn cut(&mut self) -> Option<Event<Act>>
        ensures node { self.new.node ≡ self.old.node }
        ensures sources { self.new.lanes.sources ≡ self.old.lanes.sources }
        ensures none { (me : ℕ) → asked_in me (option_to_list result) ≡ [] }
    {
        if self.round.is_cut {
            return None;
        }
        self.stay();
        self.round.is_cut = true;
        self.pace.cuts();
        Some(Event::Cut {
            node: self.node,
            snapshot: None,
        })
    }

    // Returns whether the node may give acts.
    fn has_room(&self) -> bool {
        !self.boot.peers.holds_acts() && self.boot.admission.has_room()
    }

    // Returns whether a client may do something next, and may have done it.
    pub(super) fn may_act(&self) -> bool {
        self.has_room() && self.lanes.is_on()
    }

    // Returns whether a client may have done what wants no act, while none may be given.
    pub(super) fn may_tend(&self) -> bool {
        !self.has_room() && self.lanes.is_on_aside()
    }

    // Does for the clients what wants no act, if none may be given.
    fn tend(&mut self)
        ensures node { self.new.node ≡ self.old.node }
        ensures tells { (given : List (ℕ × Act)) → Tells self.old.lanes.sources given → Tells self.new.lanes.sources given }
    {
        if !self.may_tend() {
            return;
        }
        let looks = looks_aside(self.boot.commits.beats());
        self.lanes.tend(self.lobby, looks);
        self.lanes.wake_told();
    }

    // Returns what a client does next.
    fn act(&mut self) -> Option<Event<Act>>
        ensures saw { (given : List (Event Act)) → Saw self.old.node self.old.lanes.sources given
            → Saw self.new.node self.new.lanes.sources (given ++ option_to_list result) }
    {
        let next = self.lanes.next(self.lobby, &mut self.boot.draws);
        self.lanes.wake_told();
        let Some((transport, body)) = next else {
            return None;
        };
        self.stay();
        self.boot.admission.give();
        Some(Event::Take {
            node: self.node,
            transport,
            body,
        })
    }

    // Returns the next event of the round, if there is one: its cut, what time has brought, of which ticks may be held back, or what a client does.
    pub(super) fn give(&mut self, may_tick: bool) -> Option<Event<Act>>
        ensures { (given : List (Event Act)) → Saw self.old.node self.old.lanes.sources given
            → Saw self.new.node self.new.lanes.sources (given ++ option_to_list result) }
    {
        if self.round.is_cutting {
            return self.cut();
        }
        let commit = self.boot.commits.beats();
        if self.round.may_be_due
            && let Some(due) = self.boot.ticks.next(may_tick, commit)
        {
            return Some(self.due(due));
        }
        self.round.may_be_due = false;
        if !self.may_act() {
            self.tend();
            return None;
        }
        self.act()
    }
}
