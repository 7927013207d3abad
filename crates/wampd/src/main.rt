//! A WAMP router: `wampd stream` serves one client on standard input and output, `wampd script` plays a cluster's schedule, `wampd serve`
//! runs a cluster that clients connect to.
#![tactic(auto)]

use cluster_program::{
    Gate, Members, Order, RunFault, UsageFault, help_of, order_of, say_last, script_run, serve_run,
    stream_run, unreadable_words,
};
use std::env;
use std::io::{Eprint, ErrorKind, Write};
use std::net::{Net, TcpListener, TcpStream};
use std::process::ExitCode;
use std::sync::Wait;
use std::thread::Threads;
use std::time::Clock;

// The status if the help or the version cannot be written: that of a transport that failed.
const UNWRITTEN: u8 = 6;

// Returns the words of the command line, without the program's own name.
fn words_of(rt: &HostRuntime) -> Result<Vec<String>, UsageFault> {
    let args = match env::args(rt) {
        Ok(args) => args,
        Err(error) if error.kind() == ErrorKind::InvalidData => {
            return Err(unreadable_words(rt.alloc()));
        }
        Err(_) => return Err(UsageFault::Memory),
    };
    let mut words = Vec::new(rt.alloc());
    for word in args.skip(1) {
        if words.push(word).is_err() {
            return Err(UsageFault::Memory);
        }
    }
    Ok(words)
}

// Serves one client, and says on standard error why its transport failed.
fn stream(rt: &HostRuntime, realm: &str) -> ExitCode {
    match stream_run(rt.alloc(), &mut rt.stdin(), &mut rt.stdout(), realm) {
        Ok(()) => ExitCode::SUCCESS,
        Err(fault) => failure(rt, fault),
    }
}

// Plays a script, and says on standard error why it was not played to its end.
fn script(rt: &HostRuntime, members: Members, realm: &str) -> ExitCode {
    match script_run(
        rt.alloc(),
        &mut rt.stdin(),
        &mut rt.stdout(),
        members,
        realm,
    ) {
        Ok(()) => ExitCode::SUCCESS,
        Err(fault) => failure(rt, fault),
    }
}

// Lets each node make each of its rounds.
#[derive(Drop)]
struct Always;

impl Gate for Always {
    fn pass(&self, _node: u8, _turn: u64) -> bool {
        true
    }
}

// Serves clients until standard input ends, and says on standard error why it ended before.
fn serve<R>(
    rt: &HostRuntime,
    threads: &R,
    members: Members,
    port: u16,
    key: u64,
    dir: Option<&str>,
    realm: &str,
) -> ExitCode
where
    R: Net<Listener = TcpListener, Stream = TcpStream>
        + Threads
        + Wait
        + Clock
        + Eprint
        + Clone
        + Drop
        + Send
        + Sync
        + 'static,
{
    let mut out = rt.stdout();
    match serve_run(
        threads,
        rt,
        rt.stdin(),
        &mut out,
        members,
        port,
        key,
        dir,
        realm,
        &Always,
    ) {
        Ok(()) => ExitCode::SUCCESS,
        Err(fault) => last_failure(rt, threads, fault),
    }
}

// Says the fault that ended a cluster on standard error, for which nobody waits long, and returns its status.
fn last_failure<R>(rt: &HostRuntime, threads: &R, fault: RunFault) -> ExitCode
where
    R: Threads + Wait + Clock + Eprint + Clone + Drop + Send + 'static,
{
    let status = fault.status();
    say_last(threads, rt.alloc(), fault);
    ExitCode::from(status)
}

// Says the fault on standard error, and returns its status.
fn failure(rt: &HostRuntime, fault: RunFault) -> ExitCode {
    let _ = eprintln!(rt; "{fault}");
    ExitCode::from(fault.status())
}

// Says on standard error what is wrong with the command line, and how the program is used.
fn misuse(rt: &HostRuntime, fault: UsageFault) -> ExitCode {
    let _ = eprintln!(rt; "{fault}");
    ExitCode::from(fault.status())
}

// Writes what was asked for on standard output.
fn tell(rt: &HostRuntime, text: &str) -> ExitCode {
    let mut out = rt.stdout();
    if out.write_all(text.as_bytes()).is_err() || out.flush().is_err() {
        let _ = eprintln!(rt; "error: standard output cannot be written");
        return ExitCode::from(UNWRITTEN);
    }
    ExitCode::SUCCESS
}

// Does what is asked for.
fn run<R>(rt: &HostRuntime, threads: &R, order: &Order) -> ExitCode
where
    R: Net<Listener = TcpListener, Stream = TcpStream>
        + Threads
        + Wait
        + Clock
        + Eprint
        + Clone
        + Drop
        + Send
        + Sync
        + 'static,
{
    match order {
        Order::Stream { realm } => stream(rt, realm.as_str()),
        Order::Script { members, realm } => script(rt, *members, realm.as_str()),
        Order::Serve {
            members,
            port,
            key,
            dir,
            realm,
        } => {
            let dir = dir.as_ref().map(|dir| dir.as_str());
            serve(rt, threads, *members, *port, *key, dir, realm.as_str())
        }
    }
}

fn main(rt: HostRuntime) -> ExitCode {
    let words = match words_of(&rt) {
        Ok(words) => words,
        Err(fault) => return misuse(&rt, fault),
    };
    match help_of(rt.alloc(), &words) {
        Ok(Some(text)) => return tell(&rt, text.as_str()),
        Ok(None) => {}
        Err(fault) => return misuse(&rt, fault),
    }
    match order_of(rt.alloc(), &words) {
        Ok(order) => run(&rt, &rt, &order),
        Err(fault) => misuse(&rt, fault),
    }
}
