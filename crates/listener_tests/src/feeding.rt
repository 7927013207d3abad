// A feed over rings that are made by hand: which events come out, what it answers itself, and where it puts what the node says. One function
// owns the gate and the feed, and lends them to what happens there. What cannot be had, as memory or a socket, ends the test at once, so that
// no other way out drops what a test has.
use crate::check::Check;
use crate::clients::{Client, connect, has_ended, is_closed, is_told, leave, send};
use crate::floors::{AtFloor, happen_at_floor};
use crate::rounds::{NODE, comes, gives, next_letter, quiet};
use actor_run::{Gate, RoundFeed};
use paxos_packets::{Members, Transport};
use realm_acts::Act;
use realm_machine::{Out, Say};
use rtrb::{Producer, RingBuffer};
use serve_connections::{Arrival, Lobby, SAYINGS_WAITING};
use serve_feed::{ClientFeed, Home, Pace, Paced};
use std::alloc::Global;
use std::net::{Net, TcpListener, TcpStream};
use std::panic::Expect;
use std::process::Abort;
use std::sync::{Arc, Wait};
use std::time::Clock;
use test_checks::{check, check_eq};
use wamp_messages::{Read as ReadResult, read};

pub const BOOT: u64 = 5;

const KEY: u64 = 9;

// A gate that lets every round pass.
struct Open;

impl Gate for Open {
    fn pass(&self, _node: u8, _turn: u64) -> bool {
        true
    }
}

// A saying for the transport with this number, in this boot.
fn say(rt: &impl Abort, alloc: Global, boot: u64, number: u32) -> Say {
    let read = read(alloc, b"[33,1,1]").expect(rt, "room for a message");
    let ReadResult::Good(message) = &read else {
        panic!(rt; "no message")
    };
    let message = message.copy().expect(rt, "room for its copy");
    drop(read);
    Say {
        transport: Transport {
            node: NODE,
            boot,
            number,
        },
        out: Out::Send(message),
    }
}

// Hands sayings to the transports with these numbers.
fn hand<F: RoundFeed<Act, Say>>(
    rt: &impl Abort,
    alloc: Global,
    feed: &mut F,
    boot: u64,
    numbers: &[u32],
) {
    let mut says = Vec::new(alloc);
    for number in numbers {
        says.push(say(rt, alloc, boot, *number))
            .expect(rt, "room for a saying");
    }
    feed.hand(says);
}

// Where three nodes rest.
fn lobbies(rt: &impl Abort, alloc: Global) -> Vec<Arc<Lobby>> {
    let mut lobbies = Vec::new(alloc);
    for _ in 0..3 {
        let lobby = Arc::new(alloc, Lobby::new()).expect(rt, "a lobby");
        lobbies.push(lobby).expect(rt, "room for a lobby");
    }
    lobbies
}

// What two clients send, by its letters; whether somebody stirs then; and the letters of the round's events.
struct Row {
    one: &'static str,
    two: &'static str,
    stirs: bool,
    events: &'static str,
}

// What clients do comes out, each's in order; a round that nobody stirred gives nothing.
const ACTS: &[Row] = &[
    Row {
        one: "CSPS",
        two: "CS",
        stirs: false,
        events: "",
    },
    Row {
        one: "",
        two: "",
        stirs: true,
        events: "1C1S1S2C2S",
    },
    Row {
        one: "",
        two: "H",
        stirs: false,
        events: "",
    },
    Row {
        one: "",
        two: "",
        stirs: true,
        events: "2H",
    },
];

const PING: &[Row] = &[Row {
    one: "P",
    two: "",
    stirs: true,
    events: "",
}];

const BOTH: &[Row] = &[Row {
    one: "C",
    two: "C",
    stirs: true,
    events: "1C2C",
}];

const NOTHING: &[Row] = &[Row {
    one: "",
    two: "",
    stirs: false,
    events: "",
}];

const HUNG: &[Row] = &[Row {
    one: "",
    two: "S",
    stirs: false,
    events: "1H2S",
}];

// Plays rows.
fn play<F: RoundFeed<Act, Say>, G: Gate>(
    rt: &impl Abort,
    alloc: Global,
    gate: &G,
    feed: &mut F,
    lobby: &Lobby,
    one: &mut Client,
    two: &mut Client,
    rows: &[Row],
) {
    for row in rows {
        send(rt, one, row.one);
        send(rt, two, row.two);
        if row.stirs {
            lobby.stir();
        }
        gives(rt, alloc, gate, feed, &quiet(), row.events);
    }
}

// What two clients do comes out; a PING is answered after what was said before, and what is said in another boot goes nowhere.
fn acts<F: RoundFeed<Act, Say>, G: Gate>(
    rt: &impl Abort,
    alloc: Global,
    gate: &G,
    feed: &mut F,
    lobby: &Lobby,
    one: &mut Client,
    two: &mut Client,
) {
    play(rt, alloc, gate, feed, lobby, one, two, ACTS);
    hand(rt, alloc, feed, BOOT, &[1, 2, 1]);
    hand(rt, alloc, feed, BOOT - 1, &[1]);
    play(rt, alloc, gate, feed, lobby, one, two, PING);
    hand(rt, alloc, feed, BOOT, &[1]);
    is_told(rt, one, "pmmpm");
    is_told(rt, two, "");
}

// A node that does not lead gives acts if no entry is pending, and else none; one that leads goes on, until too many packets wait for another.
fn holds_back<F: RoundFeed<Act, Say>, G: Gate>(
    rt: &impl Abort,
    alloc: Global,
    gate: &G,
    feed: &mut F,
    lobby: &Lobby,
    client: &mut Client,
) {
    send(rt, client, "SSSSSSSS");
    lobby.stir();
    gives(rt, alloc, gate, feed, &quiet(), "1S1S1S1S1S1S1S1S");
    send(rt, client, "SSS");
    lobby.stir();
    let mut seen = quiet();
    seen.pending = 1;
    gives(rt, alloc, gate, feed, &seen, "");
    seen.leads = true;
    seen.waiting[2] = 65;
    gives(rt, alloc, gate, feed, &seen, "");
    seen.waiting[2] = 64;
    seen.pending = 999;
    gives(rt, alloc, gate, feed, &seen, "1S");
    seen.pending = 1;
    gives(rt, alloc, gate, feed, &seen, "1S1S");
}

// While no act may be given a PING is answered if no message comes before it; a client that has gone before anything of it was given is gone
// without an act; and what waits is given in order once acts may be given again.
fn waits<F: RoundFeed<Act, Say>, G: Gate>(
    rt: &impl Abort,
    alloc: Global,
    gate: &G,
    feed: &mut F,
    lobby: &Lobby,
    one: &mut Client,
    two: &mut Client,
    three: Client,
) {
    let mut three = three;
    let mut seen = quiet();
    seen.pending = 1;
    send(rt, one, "CSSSSP");
    send(rt, two, "CPP");
    send(rt, &mut three, "CSP");
    lobby.stir();
    gives(rt, alloc, gate, feed, &seen, "");
    is_told(rt, one, "");
    is_told(rt, two, "pp");
    is_told(rt, &mut three, "");
    send(rt, two, "SP");
    let mut gone = leave(three);
    lobby.stir();
    gives(rt, alloc, gate, feed, &seen, "");
    check!(rt; is_closed(rt, &mut gone));
    is_told(rt, two, "");
    drop::<TcpStream>(gone);
    gives(rt, alloc, gate, feed, &quiet(), "1C1S1S1S1S2C2S");
    is_told(rt, one, "p");
    is_told(rt, two, "p");
}

// A client for whom more than 8,192 sayings wait is closed, and nobody else; in another boot all are.
fn closes(
    rt: &impl Abort,
    alloc: Global,
    gate: &impl Gate,
    feed: &mut ClientFeed<'_>,
    lobby: &Lobby,
    one: &mut Client,
    two: &mut Client,
) {
    play(rt, alloc, gate, feed, lobby, one, two, BOTH);
    for _ in 0..SAYINGS_WAITING {
        hand(rt, alloc, feed, BOOT, &[1]);
    }
    play(rt, alloc, gate, feed, lobby, one, two, NOTHING);
    hand(rt, alloc, feed, BOOT, &[1, 2]);
    play(rt, alloc, gate, feed, lobby, one, two, HUNG);
    check!(rt; has_ended(rt, one));
    is_told(rt, two, "m");
    feed.restart(BOOT + 1);
    check!(rt; has_ended(rt, two));
}

// In the next boot transports are numbered from 1.
fn begins_anew(
    rt: &impl Abort,
    alloc: Global,
    gate: &impl Gate,
    feed: &mut ClientFeed<'_>,
    lobby: &Lobby,
    three: &mut Client,
) {
    send(rt, three, "C");
    lobby.stir();
    gives(rt, alloc, gate, feed, &quiet(), "1C");
}

// Node 1 begins a ballot at once; each node ticks after 64 rounds, and again once it has rested.
fn ticks<F: RoundFeed<Act, Say>, G: Gate>(
    rt: &impl Abort,
    alloc: Global,
    gate: &G,
    feed: &mut F,
    is_first: bool,
) {
    if is_first {
        check_eq!(rt; comes(rt, alloc, gate, feed, &quiet(), "b"), 1);
        check_eq!(rt; comes(rt, alloc, gate, feed, &quiet(), "t"), 63);
    } else {
        check_eq!(rt; comes(rt, alloc, gate, feed, &quiet(), "t"), 64);
    }
    check!(rt; comes(rt, alloc, gate, feed, &quiet(), "t") >= 64);
}

// While many packets wait for another node no tick comes, unless the node lacks entries: it does not lead, and more than 4,096 slots are open.
fn ticks_behind<F: RoundFeed<Act, Say>, G: Gate>(
    rt: &impl Abort,
    alloc: Global,
    gate: &G,
    feed: &mut F,
) {
    let mut seen = quiet();
    seen.waiting[2] = 65;
    for (leads, open_slots) in [(false, 4096), (true, 4097)] {
        seen.leads = leads;
        seen.open_slots = open_slots;
        for _ in 0..128 {
            gives(rt, alloc, gate, feed, &seen, "");
        }
    }
    seen.leads = false;
    check!(rt; comes(rt, alloc, gate, feed, &seen, "t") < 200);
}

// What happens at a node.
#[derive(Clone, Copy)]
pub enum Happens {
    // Two clients do what they do, and are answered.
    Acts,
    // A client takes nothing and is closed; then the node begins its next boot, and one more comes.
    Closes,
    // A client for whom many sayings wait leaves.
    Leaves,
    // Three clients come while acts are held back, and one of them goes.
    Waits,
    // Time passes.
    Ticks,
    // Time passes while packets wait for another node.
    TicksBehind,
    // Its log is long, or others wait for it or go on without it.
    AtFloor(AtFloor),
}

// Two clients arrive, and do so.
fn two_come<R: Abort + Net<Listener = TcpListener, Stream = TcpStream>>(
    rt: &R,
    alloc: Global,
    gate: &impl Gate,
    feed: &mut ClientFeed<'_>,
    lobby: &Lobby,
    arrivals: &mut Producer<Arrival>,
    closes_one: bool,
) {
    let mut one = connect(rt, alloc, arrivals);
    let mut two = connect(rt, alloc, arrivals);
    if closes_one {
        closes(rt, alloc, gate, feed, lobby, &mut one, &mut two);
    } else {
        acts(rt, alloc, gate, feed, lobby, &mut one, &mut two);
        holds_back(rt, alloc, gate, feed, lobby, &mut one);
    }
    drop::<Client>(one);
    drop::<Client>(two);
}

// One more client arrives, in the next boot.
fn one_more_comes<R: Abort + Net<Listener = TcpListener, Stream = TcpStream>>(
    rt: &R,
    alloc: Global,
    gate: &impl Gate,
    feed: &mut ClientFeed<'_>,
    lobby: &Lobby,
    arrivals: &mut Producer<Arrival>,
) {
    let mut three = connect(rt, alloc, arrivals);
    begins_anew(rt, alloc, gate, feed, lobby, &mut three);
    drop::<Client>(three);
}

// A client for whom 1,024 sayings wait is slow, until the node finds that the client has hung up.
fn slow_leaves<F: RoundFeed<Act, Say>, G: Gate>(
    rt: &impl Abort,
    alloc: Global,
    gate: &G,
    feed: &mut F,
    lobby: &Lobby,
    client: &mut Client,
) {
    send(rt, client, "CH");
    lobby.stir();
    check!(rt; gate.pass(NODE, 1));
    check_eq!(rt; next_letter(feed), Some('C'));
    for _ in 0..SAYINGS_WAITING / 8 {
        check!(rt; !lobby.has_slow());
        hand(rt, alloc, feed, BOOT, &[1]);
    }
    check!(rt; lobby.has_slow());
    check_eq!(rt; next_letter(feed), Some('H'));
    check!(rt; !lobby.has_slow());
}

// A client arrives and leaves.
fn one_leaves<R: Abort + Net<Listener = TcpListener, Stream = TcpStream>>(
    rt: &R,
    alloc: Global,
    gate: &impl Gate,
    feed: &mut ClientFeed<'_>,
    lobby: &Lobby,
    arrivals: &mut Producer<Arrival>,
) {
    let mut client = connect(rt, alloc, arrivals);
    slow_leaves(rt, alloc, gate, feed, lobby, &mut client);
    drop::<Client>(client);
}

// Three clients arrive, and wait.
fn three_wait<R: Abort + Net<Listener = TcpListener, Stream = TcpStream>>(
    rt: &R,
    alloc: Global,
    gate: &impl Gate,
    feed: &mut ClientFeed<'_>,
    lobby: &Lobby,
    arrivals: &mut Producer<Arrival>,
) {
    let mut one = connect(rt, alloc, arrivals);
    let mut two = connect(rt, alloc, arrivals);
    let three = connect(rt, alloc, arrivals);
    waits(rt, alloc, gate, feed, lobby, &mut one, &mut two, three);
    drop::<Client>(one);
    drop::<Client>(two);
}

// This happens at a node.
fn happen<R: Clock + Abort + Net<Listener = TcpListener, Stream = TcpStream>>(
    rt: &R,
    alloc: Global,
    gate: &impl Gate,
    feed: &mut ClientFeed<'_>,
    lobby: &Lobby,
    arrivals: &mut Producer<Arrival>,
    node: u8,
    happens: Happens,
) {
    match happens {
        Happens::Acts => two_come(rt, alloc, gate, feed, lobby, arrivals, false),
        Happens::Closes => {
            two_come(rt, alloc, gate, feed, lobby, arrivals, true);
            one_more_comes(rt, alloc, gate, feed, lobby, arrivals);
        }
        Happens::Leaves => one_leaves(rt, alloc, gate, feed, lobby, arrivals),
        Happens::Waits => three_wait(rt, alloc, gate, feed, lobby, arrivals),
        Happens::Ticks => ticks(rt, alloc, gate, feed, node == 1),
        Happens::TicksBehind => ticks_behind(rt, alloc, gate, feed),
        Happens::AtFloor(what) => happen_at_floor(rt, alloc, gate, feed, lobby, arrivals, what),
    }
}

// Where the node of this number is at home.
fn home_of<'a>(
    node: u8,
    members: Members,
    lobby: &'a Lobby,
    lobbies: &'a [Arc<Lobby>],
    pace: &'a Pace,
) -> Home<'a> {
    Home {
        node,
        members,
        key: KEY,
        lobby,
        lobbies,
        pace,
        is_on_disk: false,
        began: None,
    }
}

// A gate and a feed at a node, and what happens there.
fn at_home<'a, R: Wait + Clock + Abort + Net<Listener = TcpListener, Stream = TcpStream>>(
    rt: &'a R,
    alloc: Global,
    open: &'a Open,
    node: u8,
    members: Members,
    lobby: &'a Lobby,
    lobbies: &'a [Arc<Lobby>],
    pace: &'a Pace,
    happens: Happens,
) {
    let (mut arrivals, arrived) = RingBuffer::new(alloc, 64).expect(rt, "a ring");
    let gate = Paced::new(rt, home_of(node, members, lobby, lobbies, pace), open);
    let home = home_of(node, members, lobby, lobbies, pace);
    let mut feed = ClientFeed::new(alloc, home, BOOT, arrived);
    happen(
        rt,
        alloc,
        &gate,
        &mut feed,
        lobby,
        &mut arrivals,
        node,
        happens,
    );
    drop(feed);
    drop::<Producer<Arrival>>(arrivals);
}

// This happens at a node of three.
pub fn at_node<R: Wait + Clock + Abort + Net<Listener = TcpListener, Stream = TcpStream>>(
    rt: &R,
    alloc: Global,
    node: u8,
    happens: Happens,
) {
    let members = Members::new(3).expect(rt, "three members");
    let lobbies = lobbies(rt, alloc);
    let lobby = lobbies.get(1).expect(rt, "a lobby");
    let pace = Pace::new();
    at_home(
        rt, alloc, &Open, node, members, lobby, &lobbies, &pace, happens,
    );
    drop(lobbies);
}

#[test]
fn gives_what_clients_do_and_answers_a_ping_in_its_place(rt: HostRuntime) {
    at_node(&rt, rt.alloc(), NODE, Happens::Acts);
}

#[test]
fn closes_a_client_that_takes_nothing_and_begins_anew(rt: HostRuntime) {
    at_node(&rt, rt.alloc(), NODE, Happens::Closes);
}

#[test]
fn does_not_wait_for_a_slow_client_that_has_hung_up(rt: HostRuntime) {
    at_node(&rt, rt.alloc(), NODE, Happens::Leaves);
}

#[test]
fn answers_pings_and_lets_clients_go_while_acts_are_held_back(rt: HostRuntime) {
    at_node(&rt, rt.alloc(), NODE, Happens::Waits);
}

#[test]
fn ticks_after_64_rounds_and_starts_at_once_at_node_1(rt: HostRuntime) {
    for node in 1..3 {
        at_node(&rt, rt.alloc(), node, Happens::Ticks);
    }
}

#[test]
fn ticks_while_packets_wait_if_it_lacks_entries(rt: HostRuntime) {
    at_node(&rt, rt.alloc(), NODE, Happens::TicksBehind);
}
