// What a node reports on standard error: its boots, that it leads, that it serves, how far a long start is, and its status.
ghost use Rattle.std.specs.Prelude.{◌≡◌, ◌++◌, [], List};
ghost use Rattle.std.specs.Option.{option_to_list};
ghost use Rattle.paxos_node.specs.declared.event.Event.{Event};
ghost use Rattle.realm_acts.specs.declared.act.Act.{Act};
ghost use Rattle.realm_machine.specs.declared.sayings.say.Say.{Say};
ghost use Rattle.serve_feed.specs.Feeds.{HasGiven};

use crate::source::{Boots, Cause};
use crate::status::{Status, standing_of};
use actor_run::{RoundFeed, RoundSeen};
use node_actor::{Event, Members};
use realm_machine::{Act, Say};
use serve_feed::ClientFeed;
use std::cell::Cell;
use std::io::Eprint;
use std::sync::atomic::{AtomicU64, Ordering};
use std::time::{Clock, Duration, Instant};

/// After how many seconds each a node that does not serve yet says how far it is.
const SECONDS_A_LINE: u64 = 5;

/// What a node reports, apart from what its clients do.
#[derive(Drop)]
pub(crate) struct Reporter<'a, R> {
    rt: &'a R,
    node: u8,
    members: Members,
    // The last slot in which the node had voted when its boot began.
    last: &'a Cell<u64>,
    // How often a status was asked for, and how often it was when this node answered last.
    asked: &'a AtomicU64,
    answered: u64,
    boot: u64,
    leads: bool,
    // Whether its own start is applied, and whether anything was said to a client of this boot, which shows that.
    serves: bool,
    is_told: bool,
    // When it has said last how far it is.
    said: Option<Instant>,
}

impl<'a, R> Reporter<'a, R> {
    /// Returns what a node reports before its first boot.
    pub fn new(
        rt: &'a R,
        node: u8,
        members: Members,
        last: &'a Cell<u64>,
        asked: &'a AtomicU64,
    ) -> Reporter<'a, R> {
        Reporter {
            rt,
            node,
            members,
            last,
            asked,
            answered: asked.load(Ordering::SeqCst),
            boot: 0,
            leads: false,
            serves: false,
            is_told: false,
            said: None,
        }
    }

    // Begins a boot.
    fn begin(&mut self, boot: u64) {
        self.boot = boot;
        self.leads = false;
        self.serves = false;
        self.is_told = false;
        self.said = None;
    }

    // Notes what the node says to its clients. Only after its own start is applied it says something to one of its present boot.
    fn hear(&mut self, says: &[Say]) {
        if self.serves || self.is_told {
            return;
        }
        for say in says {
            if say.transport.node == self.node && say.transport.boot == self.boot {
                self.is_told = true;
            }
        }
    }
}

impl<R: Eprint + Clock> Reporter<'_, R> {
    // Reports what is new.
    fn see(&mut self, seen: &RoundSeen<'_>, clients: &ClientFeed<'_>) {
        if seen.leads && !self.leads {
            let _ = eprintln!(self.rt; "node {} leads", self.node);
        }
        self.leads = seen.leads;
        if !self.serves {
            self.start(seen);
        }
        let asked = self.asked.load(Ordering::SeqCst);
        if asked != self.answered {
            self.answered = asked;
            self.answer(seen, clients);
        }
    }

    // Reports that the node's own start is applied, which was pending until then, or how far it is.
    fn start(&mut self, seen: &RoundSeen<'_>) {
        if seen.pending == 0 || self.is_told {
            self.serves = true;
            let _ = eprintln!(self.rt; "node {} serves", self.node);
            return;
        }
        let Ok(now) = Instant::now(self.rt) else {
            return;
        };
        let Some(said) = self.said else {
            self.said = Some(now);
            return;
        };
        if now.saturating_duration_since(said) < Duration::from_secs(SECONDS_A_LINE) {
            return;
        }
        self.said = Some(now);
        let all = self.last.get().max(seen.applied);
        let _ = eprintln!(self.rt;
            "node {} has applied {} of about {all} entries",
            self.node, seen.applied
        );
    }

    // Writes the node's status.
    fn answer(&self, seen: &RoundSeen<'_>, clients: &ClientFeed<'_>) {
        let status = Status {
            node: self.node,
            boot: self.boot,
            members: self.members.count(),
            standing: standing_of(self.node, seen),
            applied: seen.applied,
            floor: seen.floor,
            pending: seen.pending,
            waiting: seen.waiting,
            connections: clients.connections(),
            held: clients.held(),
        };
        let _ = eprintln!(self.rt; "{status}");
    }
}

/// The feed of a node's clients, and what the node reports.
#[derive(Drop)]
pub(crate) struct ReportingFeed<'a, R> {
    pub reporter: Reporter<'a, R>,
    pub clients: ClientFeed<'a>,
}

impl<R: Eprint + Clock> RoundFeed<Act, Say> for ReportingFeed<'_, R> {
    ghost use Rattle.serve_feed.specs.Feeds.{HasGiven};

    ghost saw = { λ feed given got. HasGiven feed.clients given };

    fn next(&mut self, seen: &RoundSeen<'_>) -> Option<Event<Act>>
        ensures { (given : List (Event Act)) (got : List Say) → HasGiven self.old.clients given
            → HasGiven self.new.clients (given ++ option_to_list result) }
    {
        self.reporter.see(seen, &self.clients);
        self.clients.next(seen)
    }

    fn hand(&mut self, says: Vec<Say>)
        ensures { (given : List (Event Act)) (got : List Say) → HasGiven self.old.clients given → HasGiven self.new.clients given }
    {
        self.reporter.hear(says.as_slice());
        self.clients.hand(says)
    }
}

impl<R: Eprint + Clock> Boots<Act, Say> for ReportingFeed<'_, R> {
    fn up(&mut self, node: u8, boot: u64)
        ensures { HasGiven self.new.clients [] }
    {
        self.clients.begin(boot);
        self.reporter.begin(boot);
        let _ = eprintln!(self.reporter.rt; "node {node} is up in boot {boot}");
    }

    fn up_again(&mut self, node: u8, boot: u64, cause: Cause)
        ensures { HasGiven self.new.clients [] }
    {
        self.clients.restart(boot);
        self.reporter.begin(boot);
        let why = match cause {
            Cause::Lost => "it was taken to be lost",
            Cause::Behind => "it was too far behind",
        };
        let _ = eprintln!(self.reporter.rt; "node {node} is restarted in boot {boot}: {why}");
    }

    fn is_behind(&self) -> bool {
        self.clients.is_behind()
    }
}
