// What a porter does for its connections, from the handshake to the end.
use crate::check::Check;
use crate::house::{
    Guest, House, comes, hand_close, hand_message, hand_pong, reads, reads_the_end,
};
use crate::writing::hand;
use bytes::Bytes;
use client_listener::ToClient;
use serve_connections::{REQUESTS_WAITING, SAYINGS_WAITING};
use std::alloc::Global;
use std::io::{Read, Write};
use std::net::{Net, Shutdown, TcpListener, TcpStream};
use std::panic::Expect;
use std::process::Abort;
use std::thread;
use std::time::{Clock, CpuClock, Duration};
use test_checks::{check, check_eq};

const HELLO: &[u8] = b"\0\0\0\x28[1,\"realm1\",{\"roles\":{\"subscriber\":{}}}]";

const PING: &[u8] = b"\x01\0\0\x02hi";

const PONG: &[u8] = b"\x02\0\0\x02hi";

const REGISTERED: &[u8] = b"\0\0\0\x09[65,7,12]";

// A client sends these octets `times` times.
fn sends(rt: &impl Abort, client: &mut TcpStream, octets: &[u8], times: u32) {
    for _ in 0..times {
        client.write_all(octets).expect(rt, "the octets are sent");
    }
}

// A message and a PONG that are handed over reach the client, and then the end.
fn is_answered(rt: &impl Abort, alloc: Global, client: &mut TcpStream, arrival: &mut Guest) {
    check!(rt; hand_message(alloc, &mut arrival.sayings, &REGISTERED[4..]));
    arrival.connection.announce_sayings();
    check!(rt; reads(rt, client, alloc, REGISTERED));
    check!(rt; hand_pong(rt, alloc, &mut arrival.sayings, b"hi"));
    arrival.connection.announce_sayings();
    check!(rt; reads(rt, client, alloc, PONG));
    check!(rt; hand_close(&mut arrival.sayings));
    arrival.connection.announce_sayings();
    check!(rt; reads_the_end(client));
}

#[test]
fn a_client_is_heard_and_answered(rt: HostRuntime) {
    let mut house = House::open(&rt, rt.alloc());
    let (mut client, mut arrival) = house.client(&rt);
    sends(&rt, &mut client, HELLO, 1);
    sends(&rt, &mut client, PING, 1);
    comes(&rt, &mut arrival, "CRP");
    check!(&rt; house.lobby.take_stirred());
    is_answered(&rt, rt.alloc(), &mut client, &mut arrival);
    drop(client);
    comes(&rt, &mut arrival, "HE");
    drop(arrival);
    check!(&rt; house.is_empty_soon(&rt));
    house.close(&rt);
}

#[test]
fn the_257th_client_is_refused(rt: HostRuntime) {
    let mut house = House::open(&rt, rt.alloc());
    for at in 0..256 {
        check!(&rt; house.lobby.enter(), at);
    }
    check!(&rt; !house.lobby.enter());
    let (mut refused, answer) = house.knock(&rt, [0x7F, 0xF1, 0, 0]);
    check_eq!(&rt; answer, [0x7F, 0x40, 0, 0]);
    check!(&rt; reads_the_end(&mut refused));
    drop(refused);
    house.lobby.leave();
    let (client, arrival) = house.client(&rt);
    drop(client);
    drop(arrival);
    house.close(&rt);
}

#[test]
fn a_client_that_is_refused_leaves_nothing(rt: HostRuntime) {
    let mut house = House::open(&rt, rt.alloc());
    let (mut client, answer) = house.knock(&rt, [0x7F, 0xF2, 0, 0]);
    check_eq!(&rt; answer, [0x7F, 0x10, 0, 0]);
    check!(&rt; reads_the_end(&mut client));
    drop(client);
    let mut arrival = house.arrival(&rt);
    comes(&rt, &mut arrival, "E");
    drop(arrival);
    check!(&rt; house.is_empty_soon(&rt));
    house.close(&rt);
}

#[test]
fn hanging_up_ends_a_connection(rt: HostRuntime) {
    let mut house = House::open(&rt, rt.alloc());
    let (mut client, mut arrival) = house.client(&rt);
    comes(&rt, &mut arrival, "C");
    arrival.connection.hang_up();
    check!(&rt; reads_the_end(&mut client));
    comes(&rt, &mut arrival, "HE");
    check!(&rt; house.is_empty_soon(&rt));
    drop(arrival);
    drop(client);
    house.close(&rt);
}

#[test]
fn what_waits_is_written_before_a_dropped_line_ends(rt: HostRuntime) {
    let mut house = House::open(&rt, rt.alloc());
    let (mut client, mut arrival) = house.client(&rt);
    for _ in 0..1_000 {
        check!(&rt; hand_message(rt.alloc(), &mut arrival.sayings, &REGISTERED[4..]));
    }
    drop(arrival);
    for at in 0..1_000 {
        check!(&rt; reads(&rt, &mut client, rt.alloc(), REGISTERED), at);
    }
    check!(&rt; reads_the_end(&mut client));
    check!(&rt; house.is_empty_soon(&rt));
    drop(client);
    house.close(&rt);
}

#[test]
fn a_reader_waits_for_room_and_goes_on(rt: HostRuntime) {
    let mut house = House::open(&rt, rt.alloc());
    let (mut client, mut arrival) = house.client(&rt);
    sends(&rt, &mut client, PING, 1_000);
    client
        .shutdown(Shutdown::Write)
        .expect(&rt, "nothing more is sent");
    comes(&rt, &mut arrival, "C");
    for _ in 0..1_000 {
        comes(&rt, &mut arrival, "P");
    }
    comes(&rt, &mut arrival, "HE");
    drop(arrival);
    check!(&rt; reads_the_end(&mut client));
    check!(&rt; house.is_empty_soon(&rt));
    drop(client);
    house.close(&rt);
}

// Waits until a client's ring is full, at most ten seconds. Returns how many items are there.
fn fills<R: Clock>(rt: &R, arrival: &mut Guest) -> usize {
    for _ in 0..1_000 {
        if arrival.requests.count_waiting() == REQUESTS_WAITING {
            break;
        }
        thread::sleep(rt, Duration::from_millis(10));
    }
    arrival.requests.count_waiting()
}

// A client sends PINGs of 2^16 octets.
fn sends_long_pings(rt: &impl Abort, alloc: Global, client: &mut TcpStream, times: u32) {
    let payload = vec![in alloc; b'x'; 1 << 16].expect(rt, "room for a payload");
    for _ in 0..times {
        sends(rt, client, &[1, 1, 0, 0], 1);
        sends(rt, client, payload.as_slice(), 1);
    }
    drop(payload);
}

// Waits until so many items are in a client's ring, at most ten seconds, and then for as long as more could come. Returns how many are
// there.
fn stops_at<R: Clock>(rt: &R, arrival: &mut Guest, least: usize) -> usize {
    for _ in 0..1_000 {
        if arrival.requests.count_waiting() >= least {
            break;
        }
        thread::sleep(rt, Duration::from_millis(10));
    }
    thread::sleep(rt, Duration::from_millis(300));
    arrival.requests.count_waiting()
}

#[test]
fn a_reader_stops_once_a_mebibyte_waits_and_goes_on(rt: HostRuntime) {
    let mut house = House::open(&rt, rt.alloc());
    let (mut client, mut arrival) = house.client(&rt);
    sends_long_pings(&rt, rt.alloc(), &mut client, 20);
    // `Connect`, and the PINGs of which the last octet is among the first 2^20 and one read more.
    let waiting = stops_at(&rt, &mut arrival, 16);
    check!(&rt; waiting == 16 || waiting == 17, waiting);
    comes(&rt, &mut arrival, "C");
    for _ in 0..20 {
        comes(&rt, &mut arrival, "P");
    }
    drop(arrival);
    drop(client);
    check!(&rt; house.is_empty_soon(&rt));
    house.close(&rt);
}

#[test]
fn a_reader_at_a_full_ring_ends_with_its_node(rt: HostRuntime) {
    let mut house = House::open(&rt, rt.alloc());
    let (mut client, mut arrival) = house.client(&rt);
    sends(&rt, &mut client, PING, 1_000);
    check_eq!(&rt; fills(&rt, &mut arrival), REQUESTS_WAITING);
    drop(arrival);
    check!(&rt; house.is_empty_soon(&rt));
    drop(client);
    house.close(&rt);
}

#[test]
fn a_client_without_a_message_is_closed(rt: HostRuntime) {
    let mut house = House::open(&rt, rt.alloc());
    let (mut client, mut arrival) = house.client(&rt);
    let (mut other, mut greeted) = house.client(&rt);
    sends(&rt, &mut client, PING, 1);
    sends(&rt, &mut other, HELLO, 1);
    thread::sleep(&rt, Duration::from_secs(5));
    check!(&rt; reads_the_end(&mut client));
    comes(&rt, &mut arrival, "CPHE");
    sends(&rt, &mut other, PING, 1);
    comes(&rt, &mut greeted, "CRP");
    drop(client);
    drop(arrival);
    drop(other);
    drop(greeted);
    check!(&rt; house.is_empty_soon(&rt));
    house.close(&rt);
}

// How many PONGs of 2^16 octets are handed to a client: 32 MiB, which are more than may wait and than the kernel keeps of a stream; or 12 MiB, so
// that more than 1 MiB waits.
const LONG_PONGS: usize = 512;

const SOME_LONG_PONGS: usize = 192;

// Hands a client's porter so many PONGs of 2^16 octets, which share them.
fn hand_long_pongs(rt: &impl Abort, alloc: Global, arrival: &mut Guest, times: usize) {
    let octets = vec![in alloc; b'x'; 1 << 16].expect(rt, "room for a payload");
    let payload = Bytes::copy_from_slice(alloc, octets.as_slice()).expect(rt, "a payload");
    drop(octets);
    for at in 0..times {
        let again = payload.clone().expect(rt, "the payload again");
        check!(rt; hand(&mut arrival.sayings, Some(ToClient::Pong(again))), at);
    }
    drop(payload);
    arrival.connection.announce_sayings();
}

// How many of 512 long PONGs a client's porter has taken.
fn count_taken(arrival: &mut Guest) -> usize {
    let left = SAYINGS_WAITING.saturating_sub(arrival.sayings.slots());
    LONG_PONGS.saturating_sub(left)
}

// Waits until a client's porter has taken this many long PONGs, at most ten seconds, and then for as long as it could take more. Returns how
// many it has taken.
fn takes<R: Clock>(rt: &R, arrival: &mut Guest, least: usize) -> usize {
    for _ in 0..1_000 {
        if count_taken(arrival) >= least {
            break;
        }
        thread::sleep(rt, Duration::from_millis(10));
    }
    thread::sleep(rt, Duration::from_millis(300));
    count_taken(arrival)
}

// A client whose HELLO its node has.
fn greeted<R: Net<Listener = TcpListener, Stream = TcpStream> + Clock + Abort>(
    rt: &R,
    house: &mut House,
) -> (TcpStream, Guest) {
    let (mut client, mut arrival) = house.client(rt);
    sends(rt, &mut client, HELLO, 1);
    comes(rt, &mut arrival, "CR");
    (client, arrival)
}

#[test]
fn sixteen_mebibytes_wait_for_a_client_and_one_where_many_wait_for_all(rt: HostRuntime) {
    let mut house = House::open(&rt, rt.alloc());
    let (one, mut first) = greeted(&rt, &mut house);
    let (two, mut second) = greeted(&rt, &mut house);
    let (three, mut third) = greeted(&rt, &mut house);
    hand_long_pongs(&rt, rt.alloc(), &mut first, LONG_PONGS);
    let taken = takes(&rt, &mut first, 256);
    check!(&rt; taken >= 256 && taken < LONG_PONGS, taken);
    hand_long_pongs(&rt, rt.alloc(), &mut second, LONG_PONGS);
    let taken = takes(&rt, &mut second, 255);
    check!(&rt; taken >= 255 && taken < LONG_PONGS, taken);
    // Now more than 32 MiB wait for all.
    hand_long_pongs(&rt, rt.alloc(), &mut third, LONG_PONGS);
    let taken = takes(&rt, &mut third, 16);
    check!(&rt; taken >= 16 && taken < 240, taken);
    drop(one);
    drop(two);
    drop(three);
    drop(first);
    drop(second);
    drop(third);
    check!(&rt; house.is_empty_soon(&rt));
    house.close(&rt);
}

// A second passes for clients for whom much waits, one that takes nothing but sends PINGs, and one that takes a little; and for one that
// says nothing and is told something.
fn a_second_passes<R: Clock + Abort>(
    rt: &R,
    alloc: Global,
    stuck: &mut TcpStream,
    stuck_arrival: &mut Guest,
    slow: &mut TcpStream,
    silent_arrival: &mut Guest,
) {
    thread::sleep(rt, Duration::from_secs(1));
    sends(rt, stuck, PING, 1);
    comes(rt, stuck_arrival, "P");
    read_some(rt, alloc, slow);
    check!(rt; hand_pong(rt, alloc, &mut silent_arrival.sayings, b"hi"));
    silent_arrival.connection.announce_sayings();
}

// A client reads 2^18 octets.
fn read_some(rt: &impl Abort, alloc: Global, client: &mut TcpStream) {
    let mut came = vec![in alloc; 0; 1 << 18].expect(rt, "room for the octets");
    client
        .read_exact(came.as_mut_slice())
        .expect(rt, "the octets come");
    drop(came);
}

#[test]
fn a_client_that_takes_nothing_is_closed_and_a_slow_one_is_not(rt: HostRuntime) {
    let mut house = House::open(&rt, rt.alloc());
    let (mut stuck, mut stuck_arrival) = greeted(&rt, &mut house);
    let (mut slow, mut slow_arrival) = greeted(&rt, &mut house);
    let (silent, mut silent_arrival) = house.client(&rt);
    hand_long_pongs(&rt, rt.alloc(), &mut stuck_arrival, SOME_LONG_PONGS);
    hand_long_pongs(&rt, rt.alloc(), &mut slow_arrival, SOME_LONG_PONGS);
    for _ in 0..6 {
        a_second_passes(
            &rt,
            rt.alloc(),
            &mut stuck,
            &mut stuck_arrival,
            &mut slow,
            &mut silent_arrival,
        );
    }
    thread::sleep(&rt, Duration::from_secs(3));
    comes(&rt, &mut stuck_arrival, "HE");
    comes(&rt, &mut silent_arrival, "CHE");
    read_some(&rt, rt.alloc(), &mut slow);
    sends(&rt, &mut slow, PING, 1);
    comes(&rt, &mut slow_arrival, "P");
    drop(stuck);
    drop(stuck_arrival);
    drop(slow);
    drop(slow_arrival);
    drop(silent);
    drop(silent_arrival);
    check!(&rt; house.is_empty_soon(&rt));
    house.close(&rt);
}

// The time of processors that the program takes in a second of rest.
fn spent<R: Clock + CpuClock + Abort>(rt: &R) -> Duration {
    thread::sleep(rt, Duration::from_millis(100));
    let before = rt.process_cpu_time().expect(rt, "a time");
    thread::sleep(rt, Duration::from_millis(1_000));
    rt.process_cpu_time()
        .expect(rt, "a time")
        .saturating_sub(before)
}

#[test]
fn idle_connections_cost_no_processor_time(rt: HostRuntime) {
    let mut house = House::open(&rt, rt.alloc());
    let mut clients = Vec::new(rt.alloc());
    for _ in 0..20 {
        clients
            .push(house.client(&rt))
            .expect(&rt, "room for a client");
    }
    let spent = spent(&rt);
    check!(&rt; spent < Duration::from_millis(20), spent);
    drop(clients);
    check!(&rt; house.is_empty_soon(&rt));
    house.close(&rt);
}
