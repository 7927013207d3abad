// A served cluster: its nodes step on threads of their own, and what a client of one node publishes reaches a client of another.
use crate::check::Check;
use cluster_program::{Gate, Members, serve_run};
use std::alloc::{AllocError, Global};
use std::io::{Read, Write};
use std::net::{Ipv4Addr, Net, TcpListener, TcpStream};
use std::process::Abort;
use std::sync::Arc;
use std::sync::atomic::{AtomicBool, Ordering};
use std::time::{Clock, Duration};
use std::{io, thread};
use test_checks::check;

// How often a flag is looked at, a millisecond apart.
const POLLS: u32 = 10_000;

// How often ports are drawn of which one is in use.
const TRIES: u32 = 32;

const HELLO: &str = r#"[1,"realm1",{"roles":{"subscriber":{},"publisher":{}}}]"#;

// Looks until the flag is set. Returns whether it was.
fn is_set_in_time<R: Clock>(rt: &R, flag: &AtomicBool) -> bool {
    for _ in 0..POLLS {
        if flag.load(Ordering::SeqCst) {
            return true;
        }
        thread::sleep(rt, Duration::from_millis(1));
    }
    false
}

// Holds the second turn of node 1 until node 2 asks for its second.
#[derive(Drop)]
struct InTurn<'a, R: Clock> {
    rt: &'a R,
    second: AtomicBool,
}

impl<R: Clock> Gate for InTurn<'_, R> {
    fn pass(&self, node: u8, turn: u64) -> bool {
        if turn != 1 {
            return true;
        }
        match node {
            1 => is_set_in_time(self.rt, &self.second),
            2 => {
                self.second.store(true, Ordering::SeqCst);
                true
            }
            _ => true,
        }
    }
}

// Input that ends once the flag is set.
#[derive(Drop)]
struct Input<R: Clock> {
    rt: R,
    over: Arc<AtomicBool, Global>,
}

impl<R: Clock> Read for Input<R> {
    fn read(&mut self, _buf: &mut [u8]) -> io::Result<usize> {
        for _ in 0..10 {
            if is_set_in_time(&self.rt, &self.over) {
                break;
            }
        }
        Ok(0)
    }
}

// Connects to this port as soon as it is listened on.
fn connected<R: Net<Stream = TcpStream> + Clock>(rt: &R, port: u16) -> io::Result<TcpStream> {
    for _ in 0..POLLS {
        if let Ok(stream) = TcpStream::connect(rt, (Ipv4Addr::LOCALHOST, port)) {
            return Ok(stream);
        }
        thread::sleep(rt, Duration::from_millis(1));
    }
    Err(io::ErrorKind::TimedOut.into())
}

// Whether nothing listens at this port.
fn is_free<R: Net<Listener = TcpListener, Stream = TcpStream>>(rt: &R, port: u16) -> bool {
    TcpListener::bind(rt, (Ipv4Addr::LOCALHOST, port)).is_ok()
}

// Returns a port that the system has chosen, if the next two are free as well.
fn draw_port<R: Net<Listener = TcpListener, Stream = TcpStream>>(
    rt: &R,
) -> io::Result<Option<u16>> {
    let listener = TcpListener::bind(rt, (Ipv4Addr::LOCALHOST, 0))?;
    let address = listener.local_addr();
    let port = address?.port();
    let (Some(second), Some(third)) = (port.checked_add(1), port.checked_add(2)) else {
        return Ok(None);
    };
    let are_free = is_free(rt, second) && is_free(rt, third);
    drop(listener);
    if are_free { Ok(Some(port)) } else { Ok(None) }
}

// Returns the first of three successive ports that are free.
fn free_port<R: Net<Listener = TcpListener, Stream = TcpStream> + Abort>(rt: &R) -> u16 {
    for _ in 0..TRIES {
        if let Some(port) = draw_port(rt).expect(rt, "a port") {
            return port;
        }
    }
    rt.panic("no three successive ports are free")
}

// A client, which has done the handshake.
#[derive(Drop)]
struct Client {
    stream: TcpStream,
}

impl Client {
    // Connects as soon as the port is listened on.
    fn open<R: Net<Stream = TcpStream> + Clock>(rt: &R, port: u16) -> io::Result<Client> {
        let mut client = Client {
            stream: connected(rt, port)?,
        };
        match client.greet() {
            Ok(()) => Ok(client),
            Err(error) => {
                drop(client);
                Err(error)
            }
        }
    }

    fn greet(&mut self) -> io::Result<()> {
        self.stream.set_read_timeout(Some(Duration::from_secs(30)))?;
        self.stream.write_all(&[0x7F, 0xF1, 0, 0])?;
        let mut answer = [0u8; 4];
        self.stream.read_exact(&mut answer)
    }

    // Sends a message of fewer than 256 octets.
    fn say(&mut self, text: &str) -> io::Result<()> {
        let Ok(length) = u8::try_from(text.len()) else {
            return Err(io::ErrorKind::InvalidInput.into());
        };
        self.stream.write_all(&[0, 0, 0, length])?;
        self.stream.write_all(text.as_bytes())
    }

    // Sends a message, and reads its answer.
    fn ask(&mut self, alloc: Global, text: &str) -> io::Result<()> {
        self.say(text)?;
        drop(self.hear(alloc)?);
        Ok(())
    }

    // Reads the next message, which fails if it has more than 512 octets.
    fn hear(&mut self, alloc: Global) -> io::Result<String> {
        let mut head = [0u8; 4];
        self.stream.read_exact(&mut head)?;
        let mut text = [0u8; 512];
        let length = usize::from(u16::from_be_bytes([head[2], head[3]]));
        if head[1] != 0 || length > text.len() {
            return Err(io::ErrorKind::InvalidData.into());
        }
        self.stream.read_exact(&mut text[..length])?;
        match str::from_utf8(&text[..length]) {
            Ok(text) => Ok(String::from_str(alloc, text)?),
            Err(_) => Err(io::ErrorKind::InvalidData.into()),
        }
    }
}

// A client of node 1, which listens at this port, subscribes, and once it is answered one of node 2 publishes. Returns what the first one reads.
fn event_at<R: Net<Stream = TcpStream> + Clock>(
    rt: &R,
    alloc: Global,
    port: u16,
) -> io::Result<String> {
    let mut first = Client::open(rt, port)?;
    let heard = event_of(rt, alloc, port, &mut first);
    drop(first);
    heard
}

fn event_of<R: Net<Stream = TcpStream> + Clock>(
    rt: &R,
    alloc: Global,
    port: u16,
    first: &mut Client,
) -> io::Result<String> {
    first.ask(alloc, HELLO)?;
    first.ask(alloc, r#"[32,1,{},"a.b"]"#)?;
    let mut second = Client::open(rt, port.saturating_add(1))?;
    let heard = event_between(alloc, first, &mut second);
    drop(second);
    heard
}

fn event_between(alloc: Global, first: &mut Client, second: &mut Client) -> io::Result<String> {
    second.ask(alloc, HELLO)?;
    second.say(r#"[16,2,{},"a.b",["hi"]]"#)?;
    first.hear(alloc)
}

fn is_event(rt: &impl Abort, heard: io::Result<String>) -> bool {
    let heard = heard.expect(rt, "an event");
    heard.as_str().starts_with("[36,1,") && heard.as_str().ends_with(r#",{},["hi"]]"#)
}

// Whether these octets say that the nodes listen at this port and the next two.
fn are_ports(rt: &impl Abort, alloc: Global, octets: &[u8], port: u16) -> bool {
    let (second, third) = (port.saturating_add(1), port.saturating_add(2));
    let wanted = format!(in alloc;
        "node 1 listens on 127.0.0.1:{port}\nnode 2 listens on 127.0.0.1:{second}\nnode 3 listens on 127.0.0.1:{third}\n"
    ).expect(rt, "room for a text");
    wanted.as_str().as_bytes() == octets
}

#[test]
fn an_event_crosses_nodes_that_step_on_threads_of_their_own(rt: HostRuntime) {
    let alloc = rt.alloc();
    let members = Members::new(3).expect(&rt, "three nodes");
    let port = free_port(&rt);
    let over = Arc::new(alloc, AtomicBool::new(false)).expect(&rt, "room for a flag");
    let input = Input {
        rt: rt.clone().expect(&rt, "the same handle"),
        over: Arc::try_clone(&over).expect(&rt, "the same flag"),
    };
    let gate = InTurn {
        rt: &rt,
        second: AtomicBool::new(false),
    };
    let mut printed = Vec::new(alloc);
    let (served, heard) = thread::join(
        &rt,
        || serve_run(
            &rt,
            &rt,
            input,
            &mut printed,
            members,
            port,
            7,
            None,
            "realm1",
            &gate,
        ),
        || {
            let heard = event_at(&rt, alloc, port);
            over.store(true, Ordering::SeqCst);
            heard
        },
    );
    check!(&rt; served.is_ok());
    check!(&rt; gate.second.load(Ordering::SeqCst));
    check!(&rt; is_event(&rt, heard));
    check!(&rt; are_ports(&rt, alloc, printed.as_slice(), port));
}
