// The nodes' threads: each runs a station until its gate is shut, and hands its seat back.
ghost use Rattle.std.specs.Prelude.{◌≡◌, All, IfOk, IfErr, OnOk};
ghost use denote.Param.Send.{IsSend, IsSync};
ghost use Rattle.mail_table.specs.Seats.{Owns};
ghost use Rattle.paxos_node.specs.declared.view.Opened.TheVariants.{Never};
ghost use Rattle.serve_program.specs.Fault.{EndsAll};

use crate::cluster::{Cluster, FreshSeat, Left};
use crate::fault::{ClusterStop, NodeEnd, ServeFault};
use crate::station::{Runs, Site, Station};
use actor_run::Gate;
use crossbeam_channel::{Receiver, Sender};
use mail_table::{Mail, NodeSeat};
use node_actor::Members;
use realm_machine::Act;
use rtrb::Consumer;
use serve_connections::Arrival;
use std::alloc::Global;
use std::io::Eprint;
use std::sync::Wait;
use std::sync::atomic::Ordering;
use std::thread;
use std::thread::Threads;
use std::time::Clock;

/// A cluster that was founded and does not run yet: its table and its members, and of each node, the first one first, its seat and where its
/// clients' connections arrive.
#[derive(Drop)]
pub(crate) struct FoundedCluster<'a> {
    pub mail: &'a Mail<Act>,
    pub members: Members,
    pub seats: Vec<NodeSeat<Act>>,
    pub arrivals: Vec<Consumer<Arrival>>,
}

/// What ends a cluster, or a part of it.
#[derive(Drop)]
pub(crate) enum End {
    /// The input has ended.
    Input,
    /// A node's gate was shut.
    Shut,
    /// A node has ended before.
    Node(NodeEnd),
}

// Takes the last of these seats and the last of these arrivals, and returns the station of the node.
fn station_of<'a, C: Cluster>(
    mail: &'a Mail<Act>,
    members: Members,
    seats: &mut Vec<NodeSeat<Act>>,
    arrivals: &mut Vec<Consumer<Arrival>>,
) -> Result<Station<'a, C>, ServeFault>
    requires cluster { mail.now ≡ C.table }
    requires fresh { All (λ s. Owns mail.now s × (s.part.seen.opened ≡ Never)) seats.old.items }
    requires members { members ≡ mail.now.members }
    ensures fresh { OnOk result (All (λ s. Owns mail.now s × (s.part.seen.opened ≡ Never)) seats.new.items) }
    ensures ends { IfErr result EndsAll }
{
    let Some(arrivals) = arrivals.pop() else {
        return Err(ServeFault::Memory);
    };
    let Some(seat) = seats.pop() else {
        return Err(ServeFault::Memory);
    };
    let fresh = FreshSeat {
        mail,
        members,
        seat,
    };
    Ok(Station::new(fresh, arrivals))
}

// Returns the stations of all nodes, the last one first.
fn stations_of<'a, C: Cluster>(
    alloc: Global,
    founded: FoundedCluster<'a>,
) -> Result<Vec<Station<'a, C>>, ServeFault>
    requires cluster { founded.mail.now ≡ C.table }
    requires fresh { All (λ s. Owns founded.mail.now s × (s.part.seen.opened ≡ Never)) founded.seats.items }
    requires members { founded.members ≡ founded.mail.now.members }
    ensures ends { IfErr result EndsAll }
{
    let FoundedCluster {
        mail,
        members,
        mut seats,
        mut arrivals,
    } = founded;
    let mut stations = Vec::new(alloc);
    for _ in 0..members.count() {
        let station = station_of(mail, members, &mut seats, &mut arrivals)?;
        stations.push(station)?;
    }
    Ok(stations)
}

// Waits until the input has ended, a node has ended before its gate was shut, or the gates of this many nodes are shut.
fn await_end<R: Wait>(rt: &R, ends: &Receiver<End>, nodes: usize) -> Result<(), ClusterStop> {
    let mut left = nodes;
    for _ in rt.forever() {
        match ends.recv(rt) {
            Ok(End::Input) => return Ok(()),
            Ok(End::Node(end)) => return Err(ClusterStop::Node(end)),
            Ok(End::Shut) => left = left.saturating_sub(1),
            Err(_) => return Err(ClusterStop::Memory),
        }
        if left == 0 {
            return Ok(());
        }
    }
    unreachable!()
}

// Fails if a node has ended by a fault after the end that was awaited. The threads of all nodes are over, so nothing is waited for.
fn check_ends<R: Wait>(rt: &R, ends: &Receiver<End>) -> Result<(), ClusterStop> {
    for _ in rt.forever() {
        match ends.try_recv(rt) {
            Ok(End::Node(end)) => return Err(ClusterStop::Node(end)),
            Ok(End::Input | End::Shut) => {}
            Err(_) => return Ok(()),
        }
    }
    unreachable!()
}

// Runs a node to its end, on its thread. Returns what is left of it if its gate was shut.
fn run_node_thread<'b, R, G, T, L>(
    rt: &'b R,
    alloc: Global,
    station: T,
    site: &'b Site<'b, G>,
    ends: &Sender<End>,
) -> Option<L>
where
    R: Wait + Eprint,
    T: Runs<R, G, L>,
{
    match station.run(rt, alloc, site) {
        Ok(left) => {
            let _ = ends.send(rt, End::Shut);
            Some(left)
        }
        Err(end) => {
            let (node, fault) = (end.node, end.fault);
            let number = fault.number();
            let _ = eprintln!(rt; "node {node} has ended by fault {number}: {fault}");
            let _ = ends.send(rt, End::Node(end));
            None
        }
    }
}

// Runs all nodes' threads until an end comes, shuts their gates, and returns what is left of the nodes. An error is the first fault by which a
// node ended, or `Memory`. It is generic in what runs on the threads and what is left, so that both cross by their bounds.
#[tactic(auto, using(crate::proofs::Sendable::ended_send))]
fn run_all<'b, R, G, T, L>(
    rt: &'b R,
    alloc: Global,
    stations: Vec<T>,
    site: &'b Site<'b, G>,
    ends: (&Sender<End>, &Receiver<End>),
) -> Result<Vec<L>, ClusterStop>
where
    R: Threads + Wait + Eprint + Sync,
    G: Sync,
    T: Runs<R, G, L> + Drop + Send,
    L: Drop + Send,
{
    let (sender, receiver) = ends;
    thread::scope(
        thread::scope_env(),
        rt,
        |scope| -> Result<Vec<L>, ClusterStop>
            requires { IsSync R.row × IsSync G.row × IsSend T.row × IsSend L.row }
        {
            let mut threads = Vec::new(alloc);
            let mut spawned = true;
            for station in stations {
                match scope.spawn(move || run_node_thread(rt, alloc, station, site, sender)) {
                    Ok(thread) => spawned = threads.push(thread).is_ok() && spawned,
                    Err(_) => spawned = false,
                }
            }
            let end = if spawned {
                await_end(rt, receiver, threads.len())
            } else {
                Err(ClusterStop::Memory)
            };
            site.open.store(false, Ordering::SeqCst);
            for lobby in site.lobbies {
                lobby.wake();
            }
            let mut all = Vec::new(alloc);
            for thread in threads {
                if let Some(left) = thread.join(rt) {
                    spawned = all.push(left).is_ok() && spawned;
                }
            }
            end?;
            check_ends(rt, receiver)?;
            if spawned {
                Ok(all)
            } else {
                Err(ClusterStop::Memory)
            }
        },
    )
}

// Returns the seats of what is left of nodes.
fn seats_of<C: Cluster>(alloc: Global, all: Vec<Left<C>>) -> Result<Vec<NodeSeat<Act>>, ServeFault>
    ensures owned { IfOk result (λ seats. All (λ s. Owns C.table s) seats.items) }
    ensures ends { IfErr result EndsAll }
{
    let mut seats = Vec::new(alloc);
    for left in all {
        let Left { seat, of: _ } = left;
        seats.push(seat)?;
    }
    Ok(seats)
}

/// Runs the nodes of a founded cluster, each on a thread, until an end comes. Returns the seats of all nodes. An error is the first fault by
/// which a node ended, before the end or after it in its last round, or `Memory`.
pub(crate) fn run_cluster<R, G, C>(
    rt: &R,
    alloc: Global,
    founded: FoundedCluster<'_>,
    site: &Site<'_, G>,
    ends: (&Sender<End>, &Receiver<End>),
) -> Result<Vec<NodeSeat<Act>>, ServeFault>
where
    R: Threads + Wait + Clock + Eprint + Sync,
    G: Gate + Sync,
    C: Cluster + Send,
    requires cluster { founded.mail.now ≡ C.table }
    requires fresh { All (λ s. Owns founded.mail.now s × (s.part.seen.opened ≡ Never)) founded.seats.items }
    requires members { founded.members ≡ founded.mail.now.members }
    ensures owned { IfOk result (λ seats. All (λ s. Owns founded.entry.mail.now s) seats.items) }
    ensures ends { IfErr result EndsAll }
{
    let stations = stations_of::<C>(alloc, founded)?;
    let all = run_all(rt, alloc, stations, site, ends)?;
    seats_of(alloc, all)
}
