// A feed at a node whose log is long, or that others go on without: when the log is cut, for whom a cut is put off and acts are held back, and
// when the node is behind for good.
use crate::check::Check;
use crate::clients::{Client, connect, send};
use crate::feeding::{BOOT, Happens, at_node};
use crate::rounds::{NODE, comes, gives, quiet, ticks_before};
use actor_run::{Gate, Heard, Hearing, RoundFeed, RoundSeen};
use realm_acts::Act;
use realm_machine::Say;
use rtrb::Producer;
use serve_connections::{Arrival, Lobby};
use serve_feed::ClientFeed;
use std::alloc::Global;
use std::net::{Net, TcpListener, TcpStream};
use std::panic::Expect;
use std::process::Abort;
use std::sync::Wait;
use std::thread;
use std::time::{Clock, Duration, Instant};
use test_checks::{check, check_eq};

// A log with the floor 8,192: how many entries it has above that, how many packets wait for another node, from which slot on that node asks, if
// it does, and whether the log is cut.
#[derive(Clone, Copy)]
pub struct Length {
    entries: u64,
    waiting: u16,
    asks: Option<u64>,
    is_cut: bool,
}

const LENGTHS: &[Length] = &[
    Length {
        entries: 4095,
        waiting: 0,
        asks: None,
        is_cut: false,
    },
    Length {
        entries: 4096,
        waiting: 256,
        asks: None,
        is_cut: true,
    },
    Length {
        entries: 65_535,
        waiting: 257,
        asks: None,
        is_cut: false,
    },
    Length {
        entries: 65_536,
        waiting: 257,
        asks: None,
        is_cut: true,
    },
    // Some packets may be lost.
    Length {
        entries: 65_536,
        waiting: 2047,
        asks: None,
        is_cut: true,
    },
    Length {
        entries: 131_071,
        waiting: 2048,
        asks: None,
        is_cut: false,
    },
    Length {
        entries: 131_072,
        waiting: 2048,
        asks: None,
        is_cut: true,
    },
    // It lacks 1,024 entries, and one more.
    Length {
        entries: 4096,
        waiting: 0,
        asks: Some(11_265),
        is_cut: true,
    },
    Length {
        entries: 4096,
        waiting: 0,
        asks: Some(11_264),
        is_cut: false,
    },
    // It waits for a snapshot.
    Length {
        entries: 131_071,
        waiting: 0,
        asks: Some(8192),
        is_cut: false,
    },
    Length {
        entries: 131_072,
        waiting: 0,
        asks: Some(8192),
        is_cut: true,
    },
];

// What a packet showed of node 1 that asked for what was learned from a slot on.
fn asks_from(first: u64) -> [Hearing; 1] {
    [Hearing {
        from: 1,
        heard: Heard::Ask(first),
    }]
}

// What a round showed in which these packets came.
fn with<'a>(seen: &RoundSeen<'_>, came: &'a [Hearing]) -> RoundSeen<'a> {
    RoundSeen { came, ..*seen }
}

// What a round showed in which nothing came, and after which 2,048 packets waited for node 1.
fn crowded(seen: &RoundSeen<'_>) -> RoundSeen<'static> {
    let mut waiting = seen.waiting;
    waiting[0] = 2048;
    RoundSeen {
        came: &[],
        waiting,
        ..*seen
    }
}

// A log that is long enough is cut in the next round, in which nothing else is given.
fn cuts<F: RoundFeed<Act, Say>, G: Gate>(
    rt: &impl Abort,
    alloc: Global,
    gate: &G,
    feed: &mut F,
    lobby: &Lobby,
    client: &mut Client,
    length: Length,
) {
    let mut seen = quiet();
    seen.floor = 8192;
    seen.applied = seen.floor.saturating_add(length.entries);
    seen.waiting[0] = length.waiting;
    send(rt, client, "C");
    match length.asks {
        Some(first) => gives(rt, alloc, gate, feed, &with(&seen, &asks_from(first)), ""),
        None => gives(rt, alloc, gate, feed, &seen, ""),
    }
    lobby.stir();
    if length.is_cut {
        gives(rt, alloc, gate, feed, &seen, "c");
        seen.floor = seen.applied;
    }
    seen.waiting[0] = 0;
    gives(rt, alloc, gate, feed, &seen, "1C");
}

// A cut is put off while another node waits for a snapshot, and comes 2,560 beats after that has asked last. From one tick to the next there are
// five beats, or nine at most.
fn puts_off<F: RoundFeed<Act, Say>, G: Gate>(
    rt: &impl Abort,
    alloc: Global,
    gate: &G,
    feed: &mut F,
) {
    let mut seen = quiet();
    seen.floor = 8192;
    seen.applied = 12_288;
    gives(rt, alloc, gate, feed, &with(&seen, &asks_from(8192)), "");
    let ticks = ticks_before(rt, alloc, gate, feed, &seen, "c");
    check!(rt; 285 <= ticks && ticks <= 512, ticks);
}

// Why a cut is put off for another node.
#[derive(Clone, Copy)]
pub enum Owed {
    // So many packets waited for it that some may be lost.
    Packets,
    // It waited for a snapshot.
    Snapshot,
}

const OWED: &[Owed] = &[Owed::Packets, Owed::Snapshot];

// A cut is put off until the other node has asked for what comes after the entries that it may lack. Members are judged once a beat, so each time
// it asks after a tick.
fn owes<F: RoundFeed<Act, Say>, G: Gate>(
    rt: &impl Abort,
    alloc: Global,
    gate: &G,
    feed: &mut F,
    owed: Owed,
) {
    let mut seen = quiet();
    seen.floor = 8192;
    seen.applied = 12_288;
    match owed {
        Owed::Packets => gives(rt, alloc, gate, feed, &crowded(&seen), ""),
        Owed::Snapshot => gives(rt, alloc, gate, feed, &with(&seen, &asks_from(8192)), ""),
    }
    comes(rt, alloc, gate, feed, &seen, "t");
    gives(rt, alloc, gate, feed, &with(&seen, &asks_from(12_288)), "");
    comes(rt, alloc, gate, feed, &seen, "t");
    gives(rt, alloc, gate, feed, &with(&seen, &asks_from(12_289)), "");
    gives(rt, alloc, gate, feed, &seen, "c");
}

// From which slot on another node asks one whose log has 4,000 entries, 1,000 of them in its snapshot, and whether acts are held back for it.
#[derive(Clone, Copy)]
pub struct Asks {
    first: u64,
    is_held: bool,
}

const ASKS: &[Asks] = &[
    // It waits for the snapshot.
    Asks {
        first: 1,
        is_held: false,
    },
    Asks {
        first: 1000,
        is_held: false,
    },
    // It lacks 3,000 entries, 1,025, and 1,024.
    Asks {
        first: 1001,
        is_held: true,
    },
    Asks {
        first: 2976,
        is_held: true,
    },
    Asks {
        first: 2977,
        is_held: false,
    },
];

// No act is held back for a node that waits for a snapshot. After the first tick five beats have ended, and acts may be held back.
fn is_asked<F: RoundFeed<Act, Say>, G: Gate>(
    rt: &impl Abort,
    alloc: Global,
    gate: &G,
    feed: &mut F,
    lobby: &Lobby,
    client: &mut Client,
    asks: Asks,
) {
    let mut seen = quiet();
    seen.floor = 1000;
    seen.applied = 4000;
    comes(rt, alloc, gate, feed, &seen, "t");
    send(rt, client, "C");
    lobby.stir();
    let wanted = if asks.is_held { "" } else { "1C" };
    gives(
        rt,
        alloc,
        gate,
        feed,
        &with(&seen, &asks_from(asks.first)),
        wanted,
    );
}

// A client arrives at a node with such a log.
fn one_is_late<R: Abort + Net<Listener = TcpListener, Stream = TcpStream>>(
    rt: &R,
    alloc: Global,
    gate: &impl Gate,
    feed: &mut ClientFeed<'_>,
    lobby: &Lobby,
    arrivals: &mut Producer<Arrival>,
    length: Length,
) {
    let mut client = connect(rt, alloc, arrivals);
    cuts(rt, alloc, gate, feed, lobby, &mut client, length);
    drop::<Client>(client);
}

// A client arrives at a node that another one asks for entries.
fn one_is_held<R: Abort + Net<Listener = TcpListener, Stream = TcpStream>>(
    rt: &R,
    alloc: Global,
    gate: &impl Gate,
    feed: &mut ClientFeed<'_>,
    lobby: &Lobby,
    arrivals: &mut Producer<Arrival>,
    asks: Asks,
) {
    let mut client = connect(rt, alloc, arrivals);
    is_asked(rt, alloc, gate, feed, lobby, &mut client, asks);
    drop::<Client>(client);
}

// After how many ticks with snapshots that it does not take a node is behind for good, if no other one may tell the next entry.
const TICKS_BEHIND: u16 = 16;

// Snapshots that end above the node's log are offered at this many ticks, at which it is not behind yet. A node may tell the next entry, or none
// may.
fn is_offered(
    rt: &impl Abort,
    alloc: Global,
    gate: &impl Gate,
    feed: &mut ClientFeed<'_>,
    ticks: u16,
    may_be_told: bool,
) {
    let mut seen = quiet();
    seen.applied = 100;
    let snapshot = [Hearing {
        from: 1,
        heard: Heard::Snapshot(4196),
    }];
    let entries = [Hearing {
        from: 3,
        heard: Heard::Entries,
    }];
    let offers = with(&seen, &snapshot);
    let tells = with(&seen, &entries);
    for tick in 0..ticks {
        check!(rt; !feed.is_behind(), tick);
        gives(rt, alloc, gate, feed, &offers, "");
        if may_be_told {
            gives(rt, alloc, gate, feed, &tells, "");
        }
        comes(rt, alloc, gate, feed, &seen, "t");
    }
    gives(rt, alloc, gate, feed, &seen, "");
}

// A node that is behind for good takes no further round in its boot.
fn falls_behind(rt: &impl Abort, alloc: Global, gate: &impl Gate, feed: &mut ClientFeed<'_>) {
    is_offered(rt, alloc, gate, feed, TICKS_BEHIND, false);
    check!(rt; feed.is_behind());
    check!(rt; !gate.pass(NODE, 1));
    feed.restart(BOOT + 1);
    check!(rt; !feed.is_behind());
    check!(rt; gate.pass(NODE, 1));
}

// A node goes on for longer while another one may tell the next entry.
fn may_be_told(rt: &impl Abort, alloc: Global, gate: &impl Gate, feed: &mut ClientFeed<'_>) {
    is_offered(rt, alloc, gate, feed, 2 * TICKS_BEHIND, true);
    check!(rt; !feed.is_behind());
    check!(rt; gate.pass(NODE, 1));
}

// A round with a cut takes 20 ms, so the next cut comes 80 ms after it at the earliest.
fn rests<F: RoundFeed<Act, Say>, G: Gate, R: Clock + Abort>(
    rt: &R,
    alloc: Global,
    gate: &G,
    feed: &mut F,
) {
    let mut seen = quiet();
    seen.floor = 8192;
    seen.applied = 12_288;
    gives(rt, alloc, gate, feed, &seen, "");
    gives(rt, alloc, gate, feed, &seen, "c");
    thread::sleep(rt, Duration::from_millis(20));
    seen.floor = seen.applied;
    seen.applied = 16_384;
    let began = Instant::now(rt).expect(rt, "a clock");
    ticks_before(rt, alloc, gate, feed, &seen, "c");
    let ended = Instant::now(rt).expect(rt, "a clock");
    check!(rt; Duration::from_millis(80) <= ended.saturating_duration_since(began));
}

// What happens at a node.
#[derive(Clone, Copy)]
pub enum AtFloor {
    // A client comes to a node with such a log.
    Cuts(Length),
    // Another node waits for a snapshot, and then asks no more.
    PutsOff,
    // Another node may lack entries, and asks for them.
    Owes(Owed),
    // A client comes to a node that another one asks for entries.
    IsAsked(Asks),
    // Snapshots come that the node does not take, and no other node may tell.
    FallsBehind,
    // The same while another one may.
    MayBeTold,
    // The log is long again after a cut.
    Rests,
}

// This happens at a node.
pub fn happen_at_floor<R: Clock + Abort + Net<Listener = TcpListener, Stream = TcpStream>>(
    rt: &R,
    alloc: Global,
    gate: &impl Gate,
    feed: &mut ClientFeed<'_>,
    lobby: &Lobby,
    arrivals: &mut Producer<Arrival>,
    what: AtFloor,
) {
    match what {
        AtFloor::Cuts(length) => one_is_late(rt, alloc, gate, feed, lobby, arrivals, length),
        AtFloor::PutsOff => puts_off(rt, alloc, gate, feed),
        AtFloor::Owes(owed) => owes(rt, alloc, gate, feed, owed),
        AtFloor::IsAsked(asks) => one_is_held(rt, alloc, gate, feed, lobby, arrivals, asks),
        AtFloor::FallsBehind => falls_behind(rt, alloc, gate, feed),
        AtFloor::MayBeTold => may_be_told(rt, alloc, gate, feed),
        AtFloor::Rests => rests(rt, alloc, gate, feed),
    }
}

// This happens at a node of three.
fn play<R: Wait + Clock + Abort + Net<Listener = TcpListener, Stream = TcpStream>>(
    rt: &R,
    alloc: Global,
    what: AtFloor,
) {
    at_node(rt, alloc, NODE, Happens::AtFloor(what));
}

#[test]
fn cuts_a_log_that_is_long_enough_and_gives_nothing_beside(rt: HostRuntime) {
    for length in LENGTHS {
        play(&rt, rt.alloc(), AtFloor::Cuts(*length));
    }
}

#[test]
fn puts_a_cut_off_while_another_node_waits_for_a_snapshot(rt: HostRuntime) {
    play(&rt, rt.alloc(), AtFloor::PutsOff);
}

#[test]
fn puts_a_cut_off_until_another_node_has_asked_for_what_it_may_lack(rt: HostRuntime) {
    for owed in OWED {
        play(&rt, rt.alloc(), AtFloor::Owes(*owed));
    }
}

#[test]
fn holds_no_act_back_for_a_node_that_waits_for_a_snapshot(rt: HostRuntime) {
    for asks in ASKS {
        play(&rt, rt.alloc(), AtFloor::IsAsked(*asks));
    }
}

#[test]
fn takes_no_turn_once_it_is_behind_for_good(rt: HostRuntime) {
    play(&rt, rt.alloc(), AtFloor::FallsBehind);
}

#[test]
fn goes_on_for_longer_while_another_node_may_tell(rt: HostRuntime) {
    play(&rt, rt.alloc(), AtFloor::MayBeTold);
}

#[test]
fn rests_four_times_as_long_as_a_cut_took(rt: HostRuntime) {
    play(&rt, rt.alloc(), AtFloor::Rests);
}
