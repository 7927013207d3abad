//! The cluster: its table, its ports, its threads.
ghost use Rattle.std.specs.Prelude.{IfOk, IfErr, IfSome};
ghost use Rattle.serve_program.specs.ClusterEnd.{AgreesAtEnd};
ghost use Rattle.serve_program.specs.Fault.{EndsAll};

use crate::cluster_end::{ClusterEnd, gather_seats};
use crate::desk::Desk;
use crate::fault::{NodeEnd, NodeFault, ServeFault, fault_of};
use crate::folder::claim_folder;
use crate::nodes::{End, FoundedCluster, run_cluster};
use crate::station::Site;
use crate::stores::{Stores, find_stray};
use actor_run::Gate;
use crossbeam_channel::{Sender, bounded};
use mail_table::{Office, found_for_batches};
use node_actor::Members;
use rtrb::{Consumer, Producer, RingBuffer};
use serve_connections::{Arrival, Door, Lobby, run_porter};
use serve_lines::{Lined, Lines, start_writer};
use std::alloc::Global;
use std::io::{Eprint, Read, Write};
use std::marker::Brand;
use std::net::{Ipv4Addr, Net, TcpListener, TcpStream};
use std::sync::atomic::{AtomicBool, AtomicU64};
use std::sync::{Arc, Wait};
use std::thread;
use std::thread::Threads;
use std::time::{Clock, Instant};

// The most connections that wait to be seen by their node.
const ARRIVALS: usize = 64;

// The most ends that wait: one of each node, and that of the input.
const ENDS: usize = 8;

/// A cluster to be served.
#[derive(Drop)]
pub struct ClusterConfig<'a> {
    /// Its members, a node each.
    pub members: Members,
    /// The port of node 1 at 127.0.0.1; each further node's port is the next one.
    pub port: u16,
    /// The key of the nodes' draws.
    pub key: u64,
    /// The folder with the nodes' databases, `node-I.db` for node I; without one the rows are kept in memory.
    pub dir: Option<&'a str>,
    /// The realm's name.
    pub realm: &'a str,
}

// ---- before the threads

// Makes the lobby of each node, where it is woken.
fn make_lobbies(alloc: Global, members: Members) -> Result<Vec<Arc<Lobby>>, ServeFault>
    ensures { IfErr result EndsAll }
{
    let mut lobbies = Vec::new(alloc);
    for _ in 0..members.count() {
        lobbies.push(Arc::new(alloc, Lobby::new())?)?;
    }
    Ok(lobbies)
}

// Opens a door for each node, the first one's at this port and each further one's at the next.
fn open_doors<R: Net<Listener = TcpListener, Stream = TcpStream>>(
    rt: &R,
    alloc: Global,
    members: Members,
    port: u16,
) -> Result<Vec<Door>, ServeFault>
    ensures { IfErr result EndsAll }
{
    let mut doors = Vec::new(alloc);
    for below in 0..members.count() {
        let Some(port) = port.checked_add(u16::from(below)) else {
            return Err(ServeFault::Port);
        };
        doors.push(open_door(rt, port)?)?;
    }
    Ok(doors)
}

// Opens a door at this port.
fn open_door<R: Net<Listener = TcpListener, Stream = TcpStream>>(
    rt: &R,
    port: u16,
) -> Result<Door, ServeFault>
    ensures { IfErr result EndsAll }
{
    let Ok(listener) = TcpListener::bind(rt, (Ipv4Addr::LOCALHOST, port)) else {
        return Err(ServeFault::Port);
    };
    match Door::over(rt, listener) {
        Ok(door) => Ok(door),
        Err(_) => Err(ServeFault::Port),
    }
}

// Writes where each node listens.
fn print_ports<W: Write>(writer: &mut W, members: Members, port: u16) -> Result<(), ServeFault>
    ensures { IfErr result EndsAll }
{
    for below in 0..members.count() {
        let node = below.saturating_add(1);
        let at = port.saturating_add(u16::from(below));
        if writeln!(writer, "node {node} listens on 127.0.0.1:{at}").is_err() {
            return Err(ServeFault::Write);
        }
    }
    match writer.flush() {
        Ok(()) => Ok(()),
        Err(_) => Err(ServeFault::Write),
    }
}

// Makes the nodes' rings of arrivals, the first node's first. Returns where the nodes take them, and adds where their porters put them to
// `porters`.
fn make_arrivals(
    alloc: Global,
    members: Members,
    porters: &mut Vec<Producer<Arrival>>,
) -> Result<Vec<Consumer<Arrival>>, ServeFault>
    ensures { IfErr result EndsAll }
{
    let mut all = Vec::new(alloc);
    for _ in 0..members.count() {
        let (put, taken) = RingBuffer::new(alloc, ARRIVALS)?;
        all.push(taken)?;
        porters.push(put)?;
    }
    Ok(all)
}

// ---- threads that are not joined

// Starts the thread of a node's porter.
fn start_porter<R: Threads + Wait + Clock + Eprint + Clone + Drop + Send + 'static>(
    rt: &R,
    alloc: Global,
    door: Door,
    lobby: &Arc<Lobby>,
    arrivals: Producer<Arrival>,
    node: u8,
) -> Result<(), ServeFault>
    ensures { IfErr result EndsAll }
{
    let theirs = rt.clone()?;
    let lobby = Arc::try_clone(lobby)?;
    match thread::spawn(
        rt,
        move || run_porter(theirs, alloc, door, lobby, arrivals, node),
    ) {
        Ok(_) => Ok(()),
        Err(_) => Err(ServeFault::Memory),
    }
}

// Starts the porters of all nodes, the last one first.
fn start_porters<R: Threads + Wait + Clock + Eprint + Clone + Drop + Send + 'static>(
    rt: &R,
    alloc: Global,
    lobbies: &[Arc<Lobby>],
    doors: &mut Vec<Door>,
    mut porters: Vec<Producer<Arrival>>,
) -> Result<(), ServeFault>
    ensures { IfErr result EndsAll }
{
    let count = doors.len().min(7) as u8;
    let mut node = count;
    for _ in 0..count {
        let Some(arrivals) = porters.pop() else {
            return Err(ServeFault::Memory);
        };
        let Some(door) = doors.pop() else {
            return Err(ServeFault::Memory);
        };
        let Some(lobby) = lobbies.get(usize::from(node).saturating_sub(1)) else {
            return Err(ServeFault::Memory);
        };
        start_porter(rt, alloc, door, lobby, arrivals, node)?;
        node = node.saturating_sub(1);
    }
    Ok(())
}

// Makes the desk at which the nodes with these lobbies are asked for their status.
fn make_desk(
    alloc: Global,
    asked: &Arc<AtomicU64>,
    lobbies: &[Arc<Lobby>],
) -> Result<Desk, ServeFault>
    ensures { IfErr result EndsAll }
{
    let mut theirs = Vec::new(alloc);
    for lobby in lobbies {
        theirs.push(Arc::try_clone(lobby)?)?;
    }
    Ok(Desk {
        asked: Arc::try_clone(asked)?,
        lobbies: theirs,
    })
}

// Starts the thread that does what the input asks for, and waits for its end.
fn watch_input<R, I>(rt: &R, reader: I, desk: Desk, ends: &Sender<End>) -> Result<(), ServeFault>
where
    R: Threads + Wait + Eprint + Clone + Drop + Send + 'static,
    I: Read + Drop + Send + 'static,
    ensures { IfErr result EndsAll }
{
    let theirs = rt.clone()?;
    let ends = ends.clone()?;
    let spawned = thread::spawn(rt, move || {
        let mut reader = reader;
        desk.run(&theirs, &mut reader);
        let _ = ends.send(&theirs, End::Input);
    });
    match spawned {
        Ok(_) => Ok(()),
        Err(_) => Err(ServeFault::Memory),
    }
}

// ---- the whole

// Refuses a folder with the database of a node above the members, since a cluster's members stay the same.
fn refuse_stray<R: Eprint>(
    rt: &R,
    host: &HostRuntime,
    folder: &str,
    members: Members,
) -> Result<(), ServeFault>
    ensures { IfErr result EndsAll }
{
    let Some(node) = find_stray(host, folder, members)? else {
        return Ok(());
    };
    let count = members.count();
    let _ = eprintln!(rt;
        "{folder}/node-{node}.db is of a node above --nodes {count}: give --nodes as when the folder was made, or another folder"
    );
    Err(ServeFault::Node {
        node,
        fault: NodeFault::NoMember,
    })
}

// Returns where the nodes' rows are kept. Refuses a folder with the database of a node above the members, and one of another cluster.
fn stores_of<'a, R: Eprint>(
    rt: &R,
    host: &'a HostRuntime,
    dir: Option<&'a str>,
    members: Members,
    realm: &str,
) -> Result<Stores<'a>, ServeFault>
    ensures { IfErr result EndsAll }
{
    let Some(folder) = dir else {
        return Ok(Stores::Memory);
    };
    refuse_stray(rt, host, folder, members)?;
    if let Err(fault) = claim_folder(rt, host, folder, members, realm) {
        return Err(fault_of(NodeEnd { node: 1, fault }));
    }
    Ok(Stores::Folder { host, folder })
}

// Runs this cluster, whose threads say their lines to this runtime.
fn serve_lined<R, I, W, G>(
    rt: &R,
    lined: &Lined<R>,
    host: &HostRuntime,
    reader: I,
    writer: &mut W,
    config: ClusterConfig<'_>,
    gate: &G,
) -> Result<Option<ClusterEnd>, ServeFault>
where
    R: Net<Listener = TcpListener, Stream = TcpStream>
        + Threads
        + Wait
        + Clock
        + Eprint
        + Clone
        + Drop
        + Send
        + Sync
        + 'static,
    I: Read + Drop + Send + 'static,
    W: Write,
    G: Gate + Sync,
    ensures agrees { IfOk result (λ end. IfSome end (AgreesAtEnd config.entry.members)) }
    ensures ends { IfErr result EndsAll }
{
    let ClusterConfig {
        members,
        port,
        key,
        dir,
        realm,
    } = config;
    let alloc = host.alloc();
    let stores = stores_of(lined, host, dir, members, realm)?;
    let mut doors = open_doors(rt, alloc, members, port)?;
    print_ports(writer, members, port)?;
    let lobbies = make_lobbies(alloc, members)?;
    let (sender, receiver) = bounded(alloc, ENDS)?;
    let mut office = Office::new();
    let Ok((mail, seats)) = found_for_batches(alloc, &mut office, members) else {
        return Err(ServeFault::Memory);
    };
    let mut porters = Vec::new(alloc);
    let arrivals = make_arrivals(alloc, members, &mut porters)?;
    start_porters(lined, alloc, &lobbies, &mut doors, porters)?;
    let asked = Arc::new(alloc, AtomicU64::new(0))?;
    let desk = make_desk(alloc, &asked, &lobbies)?;
    watch_input(lined, reader, desk, &sender)?;
    let open = AtomicBool::new(true);
    let site = Site {
        stores,
        gate,
        open: &open,
        asked: &asked,
        lobbies: &lobbies,
        key,
        realm,
        began: Instant::now(rt).ok(),
    };
    let founded = FoundedCluster {
        mail: &mail,
        members,
        seats,
        arrivals,
    };
    let ends = (&sender, &receiver);
    let seats = run_cluster::<Lined<R>, G, Brand>(lined, alloc, founded, &site, ends)?;
    Ok(gather_seats(mail, seats))
}

/// Runs this cluster, each node on a thread under this gate, and serves its clients. Writes where each node listens before that.
///
/// Returns when the reader ends, with what the nodes' seats knew. An error is the first fault by which a node ended, before that or in its
/// last round after it. A node that is lost in its boot, or too far behind, ends nothing: it begins its next boot, without its clients. A folder
/// that has the database of a node above the members is refused with `NoMember`, and one whose file `cluster` is of other members or of
/// another realm with `OtherCluster`, by a line on standard error that names the file: nothing is opened or changed then. A folder without
/// that file gets it.
///
/// Writes each boot, each node that begins to lead or to serve, how far a long start is, and the fault by which a node ends, in a line on standard
/// error; a line `status` from the reader is answered by one of each node. A thread of its own writes the lines, so that nobody waits for a
/// write; at the end it has five seconds to take the last one, and one second more to write it. Threads that wait for a connection, for a
/// client or for the reader are left.
pub fn serve_run<R, I, W, G>(
    rt: &R,
    host: &HostRuntime,
    reader: I,
    writer: &mut W,
    config: ClusterConfig<'_>,
    gate: &G,
) -> Result<Option<ClusterEnd>, ServeFault>
where
    R: Net<Listener = TcpListener, Stream = TcpStream>
        + Threads
        + Wait
        + Clock
        + Eprint
        + Clone
        + Drop
        + Send
        + Sync
        + 'static,
    I: Read + Drop + Send + 'static,
    W: Write,
    G: Gate + Sync,
    ensures agrees { IfOk result (λ end. IfSome end (AgreesAtEnd config.entry.members)) }
    ensures ends { IfErr result EndsAll }
{
    // Taken apart until nothing fails before the run: no exit is to hold it.
    let ClusterConfig {
        members,
        port,
        key,
        dir,
        realm,
    } = config;
    let alloc = host.alloc();
    let lines = Arc::new(alloc, Lines::new(alloc)?)?;
    start_writer(rt, &lines)?;
    let lined = Lined::new(rt.clone()?, Arc::try_clone(&lines)?);
    let config = ClusterConfig {
        members,
        port,
        key,
        dir,
        realm,
    };
    let end = serve_lined(rt, &lined, host, reader, writer, config, gate);
    lines.settle(rt);
    end
}
