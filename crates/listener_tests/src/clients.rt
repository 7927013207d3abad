// Clients of a feed, made by hand: both ends of a connection that arrives, what a client sends and what is said to it, by letters.
use crate::check::Check;
use client_listener::{Inlet, Parser, ToClient};
use rtrb::{Consumer, Producer, RingBuffer};
use serve_connections::{Arrival, NodeConnection, RequestSender, SAYINGS_WAITING, open_requests};
use std::alloc::Global;
use std::io::Read;
use std::net::{Net, TcpListener, TcpStream};
use std::panic::Expect;
use std::process::Abort;
use test_checks::{check, check_eq};

// A client's ends of a connection: of both rings, and of the stream; and what its porter has of its octets.
#[derive(Drop)]
pub struct Client {
    inlet: Inlet,
    parser: Parser,
    requests: RequestSender,
    replies: Consumer<ToClient>,
    stream: TcpStream,
}

// A stream over loopback, from both sides.
fn streams<R: Abort + Net<Listener = TcpListener, Stream = TcpStream>>(
    rt: &R,
) -> (TcpStream, TcpStream) {
    let listener = TcpListener::bind(rt, "127.0.0.1:0").expect(rt, "a port");
    let address = listener.local_addr().expect(rt, "an address");
    let ours = TcpStream::connect(rt, address).expect(rt, "a connection");
    let (theirs, _address) = listener.accept().expect(rt, "its other end");
    drop(listener);
    (ours, theirs)
}

// Puts an item into a ring, which has room for it.
pub fn put<T>(rt: &impl Abort, ring: &mut Producer<T>, item: T) {
    ring.push(item).expect(rt, "room in a ring");
}

// A connection that arrives.
pub fn connect<R: Abort + Net<Listener = TcpListener, Stream = TcpStream>>(
    rt: &R,
    alloc: Global,
    arrivals: &mut Producer<Arrival>,
) -> Client {
    let (stream, theirs) = streams(rt);
    let connection = NodeConnection::over(alloc, theirs).expect(rt, "a connection");
    let (requests, node_requests) = open_requests(alloc).expect(rt, "the ends of its requests");
    let (node_replies, replies) = RingBuffer::new(alloc, SAYINGS_WAITING).expect(rt, "a ring");
    let arrival = Arrival {
        requests: node_requests,
        sayings: node_replies,
        connection,
    };
    put(rt, arrivals, arrival);
    Client {
        inlet: Inlet::new(alloc),
        parser: Parser::new(alloc),
        requests,
        replies,
        stream,
    }
}

// Returns the octets of a letter: none for the Connect that comes first, a PING, or a CALL.
fn octets_of(rt: &impl Abort, letter: char) -> &'static [u8] {
    match letter {
        'C' => b"",
        'P' => b"\x01\0\0\x02hi",
        'S' => b"\0\0\0\x0D[48,1,{},\"a\"]",
        _ => panic!(rt; "no octets have the letter {letter}"),
    }
}

// Puts what a letter says into the client's ring, which has room for it; `H` is a Hung.
fn send_one(rt: &impl Abort, client: &mut Client, letter: char) {
    if letter == 'H' {
        check!(rt; client.requests.hang(&client.inlet));
        return;
    }
    client
        .inlet
        .feed(octets_of(rt, letter))
        .expect(rt, "memory for octets");
    let outcome = client.requests.put(&mut client.inlet, &mut client.parser);
    check_eq!(rt; outcome, Ok(true), letter);
}

// Puts items into the client's ring, by their letters. The first is a Connect.
pub fn send(rt: &impl Abort, client: &mut Client, letters: &str) {
    for letter in letters.chars() {
        send_one(rt, client, letter);
    }
}

// The letter of what is said to a client.
fn letter_of(saying: &ToClient) -> char {
    match saying {
        ToClient::Send(_) => 'm',
        ToClient::Pong(payload) => if payload.as_slice() == b"hi".as_slice() {
            'p'
        } else {
            '?'
        },
        ToClient::Close => 'x',
    }
}

// The letter of the next saying in a ring, which is taken out.
fn next_letter(replies: &mut Consumer<ToClient>) -> Option<char> {
    let Ok(saying) = replies.pop() else {
        return None;
    };
    let letter = letter_of(&saying);
    drop(saying);
    Some(letter)
}

// What these letters say was said to a client, and nothing more.
pub fn is_told(rt: &impl Abort, client: &mut Client, letters: &str) {
    for letter in letters.chars() {
        check_eq!(rt; next_letter(&mut client.replies), Some(letter));
    }
    check_eq!(rt; next_letter(&mut client.replies), None);
}

// Whether the stream has ended.
pub fn has_ended(rt: &impl Abort, client: &mut Client) -> bool {
    is_closed(rt, &mut client.stream)
}

pub fn is_closed(rt: &impl Abort, stream: &mut TcpStream) -> bool {
    let mut buffer = [0; 4];
    let count = stream.read(&mut buffer).expect(rt, "a read");
    count == 0
}

// A client has gone, and its porter puts nothing more. Returns its end of the stream.
pub fn leave(client: Client) -> TcpStream {
    let Client {
        inlet,
        parser,
        requests,
        replies,
        stream,
    } = client;
    drop(inlet);
    drop(parser);
    drop(requests);
    drop(replies);
    stream
}
