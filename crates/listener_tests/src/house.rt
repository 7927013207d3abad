// A node's side of its clients, without a node: the test takes and puts in its place. Every wait ends after ten seconds, and what cannot be
// had (memory, a socket, an answer in time) ends the test at once, so that no way out drops what a test has.
use crate::check::Check;
use crate::reading::letter;
use crate::writing::{hand, message_of};
use bytes::Bytes;
use client_listener::ToClient;
use rtrb::{Consumer, Producer, RingBuffer};
use serve_connections::{Arrival, Door, Found, Lobby, NodeConnection, RequestReceiver, run_porter};
use std::alloc::{AllocError, Global};
use std::io::{Read, Write};
use std::net::{Net, SocketAddr, TcpListener, TcpStream};
use std::panic::Expect;
use std::process::Abort;
use std::sync::{Arc, Wait};
use std::thread;
use std::thread::{JoinHandle, Threads};
use std::time::{Clock, Duration};
use test_checks::check_eq;

/// A client whose requests a test takes, as a node has it.
#[derive(Drop)]
pub struct Guest {
    pub requests: RequestReceiver,
    pub sayings: Producer<ToClient>,
    pub connection: NodeConnection,
}

// A listener's thread, and what it shares with the test.
pub struct House {
    pub lobby: Arc<Lobby, Global>,
    pub arrivals: Consumer<Arrival>,
    address: SocketAddr,
    door: JoinHandle<()>,
}

impl House {
    pub fn open<
        R: Net<Listener = TcpListener, Stream = TcpStream>
            + Wait
            + Clock
            + Threads
            + Eprint
            + Abort
            + Clone
            + Drop
            + Send
            + 'static,
    >(rt: &R, alloc: Global) -> House {
        let listener = TcpListener::bind(rt, "127.0.0.1:0").expect(rt, "a port");
        let address = listener.local_addr().expect(rt, "an address");
        let lobby = Arc::new(alloc, Lobby::new()).expect(rt, "a lobby");
        let theirs = Arc::try_clone(&lobby).expect(rt, "the lobby again");
        let (producer, arrivals) = RingBuffer::new(alloc, 64).expect(rt, "a ring");
        let runtime = rt.clone().expect(rt, "a runtime");
        let door = Door::over(rt, listener).expect(rt, "a door");
        let door = start(rt, runtime, alloc, door, theirs, producer).expect(rt, "a thread");
        House {
            lobby,
            arrivals,
            address,
            door,
        }
    }

    // A client that has sent its handshake, and what it was answered.
    pub fn knock<R: Net<Listener = TcpListener, Stream = TcpStream> + Abort>(
        &self,
        rt: &R,
        handshake: [u8; 4],
    ) -> (TcpStream, [u8; 4]) {
        let mut client = TcpStream::connect(rt, self.address).expect(rt, "a connection");
        let ten_seconds = Some(Duration::from_secs(10));
        client
            .set_read_timeout(ten_seconds)
            .expect(rt, "a limit to each wait");
        client
            .write_all(&handshake)
            .expect(rt, "the handshake is sent");
        let mut answer = [0; 4];
        client
            .read_exact(&mut answer)
            .expect(rt, "the handshake is answered");
        (client, answer)
    }

    // A client whose handshake is done, as it is and as the node has it.
    pub fn client<R: Net<Listener = TcpListener, Stream = TcpStream> + Clock + Abort>(
        &mut self,
        rt: &R,
    ) -> (TcpStream, Guest) {
        let (client, answer) = self.knock(rt, [0x7F, 0xF1, 0, 0]);
        check_eq!(rt; answer, [0x7F, 0xB1, 0, 0]);
        (client, self.arrival(rt))
    }

    pub fn arrival<R: Clock + Abort>(&mut self, rt: &R) -> Guest {
        for _ in 0..10_000 {
            if let Ok(
                Arrival {
                    requests,
                    sayings,
                    connection,
                },
            ) = self.arrivals.pop()
            {
                return Guest {
                    requests,
                    sayings,
                    connection,
                };
            }
            thread::sleep(rt, Duration::from_millis(1));
        }
        rt.panic("no arrival")
    }

    // Whether all places are free, or will be soon.
    pub fn is_empty_soon<R: Clock>(&self, rt: &R) -> bool {
        for _ in 0..1_000 {
            if count_free(&self.lobby) == 256 {
                return true;
            }
            thread::sleep(rt, Duration::from_millis(10));
        }
        false
    }

    // Ends the listener's thread. A last client makes it look for its node, unless it has seen already that the node is gone.
    pub fn close<R: Net<Listener = TcpListener, Stream = TcpStream> + Threads + Abort>(
        self,
        rt: &R,
    ) {
        let House {
            lobby,
            arrivals,
            address,
            door,
        } = self;
        drop(arrivals);
        drop(lobby);
        let last = TcpStream::connect(rt, address);
        door.join(rt);
        drop(last);
    }
}

// Starts a thread that runs the porter of a door.
fn start<R: Wait + Clock + Threads + Eprint + Clone + Drop + Send + 'static>(
    rt: &R,
    runtime: R,
    alloc: Global,
    door: Door,
    lobby: Arc<Lobby, Global>,
    arrivals: Producer<Arrival>,
) -> Result<JoinHandle<()>, AllocError> {
    let porter = thread::spawn(rt, move || {
        run_porter(runtime, alloc, door, lobby, arrivals, 1)
    })?;
    Ok(porter)
}

// How many places are free.
fn count_free(lobby: &Lobby) -> u32 {
    let mut free: u32 = 0;
    for _ in 0..300 {
        if !lobby.enter() {
            break;
        }
        free = free.saturating_add(1);
    }
    for _ in 0..free {
        lobby.leave();
    }
    free
}

// The letter of the next item of a client; 'E' once none is left and its reader has ended, 'L' if none came in time.
fn next_letter<R: Clock>(rt: &R, arrival: &mut Guest) -> char {
    for _ in 0..10_000 {
        match arrival.requests.next() {
            Found::Request(request) => {
                let letter = letter(&request);
                drop(request);
                arrival.connection.announce_room();
                return letter;
            }
            Found::End => return 'E',
            Found::Nothing => thread::sleep(rt, Duration::from_millis(1)),
        }
    }
    'L'
}

// The next items of a client have these letters, one after another.
pub fn comes<R: Clock + Abort>(rt: &R, arrival: &mut Guest, letters: &str) {
    for letter in letters.chars() {
        check_eq!(rt; next_letter(rt, arrival), letter, letters);
    }
}

// Hands a message to a client's porter, without waking it. Returns whether its ring had room.
pub fn hand_message(alloc: Global, replies: &mut Producer<ToClient>, text: &[u8]) -> bool {
    let message = message_of(alloc, text);
    hand(replies, message)
}

// Hands over a PONG with these octets, or the end.
pub fn hand_pong(
    rt: &impl Abort,
    alloc: Global,
    replies: &mut Producer<ToClient>,
    octets: &[u8],
) -> bool {
    let payload = Bytes::copy_from_slice(alloc, octets).expect(rt, "a payload");
    hand(replies, Some(ToClient::Pong(payload)))
}

pub fn hand_close(replies: &mut Producer<ToClient>) -> bool {
    hand(replies, Some(ToClient::Close))
}

// Whether these are the next octets that a client reads.
pub fn reads(rt: &impl Abort, client: &mut TcpStream, alloc: Global, octets: &[u8]) -> bool {
    let mut came = vec![in alloc; 0; octets.len()].expect(rt, "room for the octets");
    client
        .read_exact(came.as_mut_slice())
        .expect(rt, "the octets come");
    let is_same = came.as_slice() == octets;
    drop(came);
    is_same
}

// Whether a client reads the end of its stream.
pub fn reads_the_end(client: &mut TcpStream) -> bool {
    let mut octet = [0];
    matches!(client.read(&mut octet), Ok(0))
}
