// The feed of a served node: its boots and connections, how the last round is judged, and where sayings go.
ghost use Rattle.std.specs.Prelude.{◌≡◌, ◌++◌, [], ℕ, List};
ghost use Rattle.std.specs.Option.{option_to_list};
ghost use Rattle.paxos_node.specs.declared.event.Event.{Event};
ghost use Rattle.realm_acts.specs.declared.act.Act.{Act};
ghost use Rattle.realm_machine.specs.declared.sayings.say.Say.{Say};
ghost use Rattle.serve_feed.specs.Tells.{Tells};
ghost use Rattle.serve_feed.specs.Saw.{Saw};
ghost use Rattle.serve_feed.specs.Hears.{Hear};
ghost use Rattle.serve_feed.specs.Says.{item_of, said_one, said_to};

mod giving;
mod watching;

use crate::held::Held;
use crate::home::Home;
use crate::lanes::Lanes;
use crate::pace::Pace;
use crate::peers::Peers;
use crate::waking::wake_peers;
use actor_run::{RoundFeed, RoundSeen};
use client_listener::ToClient;
use paxos_node::Event;
use paxos_packets::{Ballot, Members};
use realm_acts::Act;
use realm_machine::{Out, Say};
use rtrb::Consumer;
use serve_connections::{Arrival, Lobby};
use serve_policy::{Admission, Behind, Commits, Draws, Ticks};
use std::alloc::Global;
use std::sync::Arc;

/// How many arrivals are taken at once, at most: as many as their ring has room for.
const MOST_ARRIVALS: u8 = 64;

/// The events of a node in one boot: what its clients do, ticks, ballots, suspicions and cuts of its log; and the way of its sayings to their
/// clients.
///
/// A round in which no thread stirred the node costs some loads. A client's request costs constant time, and a removed connection as many moves
/// as there are connections; each time the node was stirred, each connection's ring is asked once. Messages are moved, not copied. After an
/// idle round, if entries or many packets moved since the last tick, the feed looks for some microseconds whether the node is woken: a thread
/// that waits for a packet has it sooner than the node could rest and be woken.
pub struct ClientFeed<'a> {
    node: u8,
    members: Members,
    key: u64,
    lobby: &'a Lobby,
    lobbies: &'a [Arc<Lobby>],
    pace: &'a Pace,
    arrivals: Consumer<Arrival>,
    lanes: Lanes,
    boot: Boot,
    round: Round,
}

// What begins anew with each boot.
#[derive(Drop)]
struct Boot {
    number: u64,
    draws: Draws,
    ticks: Ticks,
    admission: Admission,
    commits: Commits,
    peers: Peers,
    behind: Behind,
    // How long the node's log was after the round that was counted last, and what the node had promised.
    log: u64,
    promised: Option<Ballot>,
}

impl Boot {
    // Returns the boot with this number, in which nothing is counted yet. It is the first one of the run or a later one.
    fn new(key: u64, node: u8, members: Members, number: u64, is_first: bool) -> Boot {
        Boot {
            number,
            draws: Draws::new(key, node, number),
            ticks: Ticks::new(node, members, is_first),
            admission: Admission::new(),
            commits: Commits::new(),
            peers: Peers::new(members),
            behind: Behind::new(),
            log: 0,
            promised: None,
        }
    }
}

// The round that was counted last, and what has happened since.
#[derive(Drop)]
struct Round {
    number: u64,
    // How many entries the node had applied, and how many commits it had made.
    applied: u64,
    commits: u64,
    // Whether the node's log is cut in this round, in which nothing else is given then, and whether the cut was given.
    is_cutting: bool,
    is_cut: bool,
    // Whether something happened since.
    is_busy: bool,
    // Whether a tick while nothing moved was all that happened since.
    is_ticked: bool,
    // Whether something may be due that was not asked for yet.
    may_be_due: bool,
}

impl Drop for ClientFeed<'_> {
    fn drop(self) {
        let ClientFeed {
            node: _,
            members: _,
            key: _,
            lobby: _lobby,
            lobbies: _lobbies,
            pace: _pace,
            arrivals: _arrivals,
            lanes: _lanes,
            boot: _boot,
            round: _round,
        } = self;
    }
}

impl<'a> ClientFeed<'a> {
    /// Returns the feed of a node without connections. Does not allocate.
    pub fn new(
        alloc: Global,
        home: Home<'a>,
        boot: u64,
        arrivals: Consumer<Arrival>,
    ) -> ClientFeed<'a>
        ensures begins { Saw result.node result.lanes.sources [] }
    {
        let Home {
            node,
            members,
            key,
            lobby,
            lobbies,
            pace,
            ..
        } = home;
        ClientFeed {
            node,
            members,
            key,
            lobby,
            lobbies,
            pace,
            arrivals,
            lanes: Lanes::new(alloc),
            boot: Boot::new(key, node, members, boot, true),
            round: Round {
                number: 0,
                applied: 0,
                commits: 0,
                is_cutting: false,
                is_cut: false,
                is_busy: true,
                is_ticked: false,
                may_be_due: true,
            },
        }
    }

    /// Begins the first boot of the node in this run, as [`ClientFeed::restart`] does a later one; a ballot is due at once at node 1.
    pub fn begin(&mut self, boot: u64)
        ensures begins { Saw self.new.node self.new.lanes.sources [] }
    {
        self.begin_boot(boot, true);
    }

    /// Begins another boot of the node: every connection ends, transports are numbered from 1, the draws are those of the boot, and nothing is
    /// counted yet. Arrivals that were not taken yet stay.
    pub fn restart(&mut self, boot: u64)
        ensures begins { Saw self.new.node self.new.lanes.sources [] }
    {
        self.begin_boot(boot, false);
    }

    // Begins a boot, which is the first one of the run or a later one.
    fn begin_boot(&mut self, boot: u64, is_first: bool)
        ensures begins { Saw self.new.node self.new.lanes.sources [] }
    {
        self.lanes.end_all(self.lobby);
        self.boot = Boot::new(self.key, self.node, self.members, boot, is_first);
        self.pace.begin_boot();
        self.round.commits = 0;
        self.round.is_cutting = false;
        self.round.is_cut = false;
        self.round.may_be_due = true;
        self.round.is_busy = true;
        self.lanes.stir();
    }

    /// Ends every connection, those that have just come among them.
    pub fn close(&mut self) {
        self.take_arrivals();
        self.lanes.end_all(self.lobby);
    }

    /// Returns how many connections the node has, of those that it has seen.
    pub fn connections(&self) -> usize {
        self.lanes.count()
    }

    /// Returns whether the node is behind for good, so that its gate lets no round pass before its next boot: its log ends before the other
    /// nodes' floors, and it may not take their snapshots in this boot.
    pub fn is_behind(&self) -> bool {
        self.pace.is_behind()
    }

    /// Returns why the node holds its clients' acts back, if it does.
    pub fn held(&self) -> Option<Held> {
        if self.boot.peers.holds_acts() {
            Some(Held::Peer)
        } else if !self.boot.admission.has_room() {
            Some(Held::UnderWay)
        } else {
            None
        }
    }

    // Gives lanes to the connections that came.
    fn take_arrivals(&mut self)
        ensures node { self.new.node ≡ self.old.node }
        ensures tells { (given : List (ℕ × Act)) → Tells self.old.lanes.sources given → Tells self.new.lanes.sources given }
    {
        for _ in 0..MOST_ARRIVALS {
            let Ok(arrival) = self.arrivals.pop() else {
                return;
            };
            self.lanes.come(arrival);
        }
    }

    // Counts the last round, and wakes the nodes that it concerns.
    fn count(&mut self, seen: &RoundSeen<'_>)
        ensures node { self.new.node ≡ self.old.node }
        ensures tells { (given : List (ℕ × Act)) → Tells self.old.lanes.sources given → Tells self.new.lanes.sources given }
    {
        // What a tick alone has posted waits for the peers' own ticks.
        let may_wait = self.round.is_ticked && !self.boot.peers.has_waiting();
        self.round.is_ticked = false;
        self.watch(seen);
        self.watch_log(seen);
        let moved = wake_peers(self.node, self.members, self.lobbies, seen, may_wait);
        self.take_stirred();
        self.judge(seen, moved);
        self.count_time(seen);
        if self.pace.take_waited() {
            self.lanes.ignore_slow(self.lobby);
        }
    }

    // Judges whether the last round was idle: nothing came, all that could be posted is, and no event is at hand.
    fn judge(&mut self, seen: &RoundSeen<'_>, moved: bool)
        ensures node { self.new.node ≡ self.old.node }
        ensures tells { (given : List (ℕ × Act)) → Tells self.old.lanes.sources given → Tells self.new.lanes.sources given }
    {
        if seen.pending > 0 || seen.applied != self.round.applied {
            self.pace.moved();
        } else if moved {
            self.pace.stirred();
        }
        self.round.applied = seen.applied;
        let is_still = !moved || seen.came.is_empty() && seen.waiting == [0; 7];
        let is_idle = is_still && !self.round.is_busy && !self.may_act() && !self.may_tend();
        self.pace.judge(is_idle && !self.is_woken_soon());
        self.round.is_busy = false;
    }

    // Looks into the node's rings if a thread has put something there.
    fn take_stirred(&mut self)
        ensures node { self.new.node ≡ self.old.node }
        ensures tells { (given : List (ℕ × Act)) → Tells self.old.lanes.sources given → Tells self.new.lanes.sources given }
    {
        if self.lobby.take_stirred() {
            self.take_arrivals();
            self.lanes.stir();
        }
    }

    // Returns whether the node is woken within some microseconds, if that is expected. The round that follows then finds what it was woken for,
    // and no idle one comes between.
    fn is_woken_soon(&mut self) -> bool
        ensures node { self.new.node ≡ self.old.node }
        ensures tells { (given : List (ℕ × Act)) → Tells self.old.lanes.sources given → Tells self.new.lanes.sources given }
    {
        let is_woken = self.pace.expects_more() && self.lobby.is_woken_soon();
        if is_woken {
            self.take_stirred();
        }
        is_woken
    }

    // Notes that something happens in this round: no rest comes before the round that follows is counted.
    fn stay(&mut self)
        ensures node { self.new.node ≡ self.old.node }
        ensures boot { self.new.boot.number ≡ self.old.boot.number }
        ensures lanes { self.new.lanes ≡ self.old.lanes }
    {
        self.round.is_busy = true;
        self.round.is_ticked = false;
        self.pace.judge(false);
    }

    // Notes how many acts may be given in the round that begins.
    fn begin_acts(&mut self, seen: &RoundSeen<'_>)
        ensures node { self.new.node ≡ self.old.node }
        ensures lanes { self.new.lanes ≡ self.old.lanes }
    {
        self.boot.admission.begin(seen.leads, seen.pending);
    }

    // Notes what the node has come to.
    fn see(&mut self, seen: &RoundSeen<'_>)
        ensures node { self.new.node ≡ self.old.node }
        ensures tells { (given : List (ℕ × Act)) → Tells self.old.lanes.sources given → Tells self.new.lanes.sources given }
    {
        let round = self.pace.round();
        if round != self.round.number {
            self.round.number = round;
            self.begin_acts(seen);
            self.count(seen);
        }
    }

    // Passes a saying to its transport; one for another boot's is dropped.
    fn tell(&mut self, say: Say)
        ensures node { self.new.node ≡ self.old.node }
        ensures sources { self.new.lanes.sources ≡ self.old.lanes.sources }
        ensures boot { self.new.boot.number ≡ self.old.boot.number }
        ensures hears { Hear (said_one self.old.node self.old.boot.number say) self.old.lanes.lanes.items self.new.lanes.lanes.items }
    {
        let Say { transport, out } = say;
        let saying = saying_of(out);
        if transport.node == self.node && transport.boot == self.boot.number {
            self.lanes.say(self.lobby, transport.number, saying);
        } else {
            drop(saying);
        }
    }
}

impl RoundFeed<Act, Say> for ClientFeed<'_> {
    ghost use Rattle.serve_feed.specs.Saw.{Saw};

    // What it did with its sayings is a clause of `hand`: one for a transport that is gone is dropped.
    ghost saw = { λ feed given got. Saw feed.node feed.lanes.sources given };

    fn next(&mut self, seen: &RoundSeen<'_>) -> Option<Event<Act>>
        ensures { (given : List (Event Act)) (got : List Say) → Saw self.old.node self.old.lanes.sources given
            → Saw self.new.node self.new.lanes.sources (given ++ option_to_list result) }
    {
        self.see(seen);
        let may_tick = self.may_tick(seen);
        self.give(may_tick)
    }

    fn hand(&mut self, says: Vec<Say>)
        ensures saw { (given : List (Event Act)) (got : List Say) → Saw self.old.node self.old.lanes.sources given
            → Saw self.new.node self.new.lanes.sources given }
        ensures hears { Hear (said_to self.old.node self.old.boot.number says.items) self.old.lanes.lanes.items self.new.lanes.lanes.items }
    {
        if says.is_empty() {
            return;
        }
        self.stay();
        for say in says {
            self.tell(say);
        }
        self.lanes.wake_told();
    }
}

// Returns a saying in the form in which a porter takes it.
fn saying_of(out: Out) -> ToClient
    ensures { result ≡ item_of out }
{
    match out {
        Out::Send(message) => ToClient::Send(message),
        Out::Close => ToClient::Close,
    }
}
