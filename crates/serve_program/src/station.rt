// A node's thread.
ghost use Rattle.std.specs.Prelude.{◌≡◌, false, IfOk};
ghost use Rattle.mail_table.specs.Seats.{Owns};
ghost use Rattle.realm_machine.specs.Machine.{has_failed};

use crate::cluster::{Cluster, FreshSeat, Left};
use crate::counted::CountedStore;
use crate::fault::{NodeEnd, NodeFault};
use crate::lives::run_lives;
use crate::report::{Reporter, ReportingFeed};
use crate::source::Source;
use crate::stores::{MemoryStore, Stores, open_node_store};
use actor_run::Gate;
use node_actor::{Keeper, KeeperFault, Mail, Members, NodeSeat};
use realm_machine::{Act, Limits, Realm};
use realm_snapshot::KeptRealm;
use rtrb::Consumer;
use serve_connections::{Arrival, Lobby};
use serve_feed::{ClientFeed, Home, Pace, Paced};
use sqlite_disk::Unknown;
use std::alloc::{AllocError, Global};
use std::cell::Cell;
use std::io::Eprint;
use std::marker::PhantomData;
use std::sync::atomic::{AtomicBool, AtomicU64, Ordering};
use std::sync::{Arc, Wait};
use std::time::{Clock, Instant};

/// What all nodes' threads share: the stores, the gate that each round asks, whether the cluster is still to run, how often the nodes were asked
/// for their status, where each node is woken, the key of its draws, the realm's name, and when the cluster began.
#[derive(Drop)]
pub(crate) struct Site<'a, G> {
    pub stores: Stores<'a>,
    pub gate: &'a G,
    pub open: &'a AtomicBool,
    pub asked: &'a AtomicU64,
    pub lobbies: &'a [Arc<Lobby>],
    pub key: u64,
    pub realm: &'a str,
    pub began: Option<Instant>,
}

// The gate of a node's rounds, which shuts once the cluster is to end.
#[derive(Drop)]
struct ShutGate<'a, R: Wait + Clock, G: Gate> {
    open: &'a AtomicBool,
    paced: Paced<'a, R, G>,
}

impl<R: Wait + Clock, G: Gate> Gate for ShutGate<'_, R, G> {
    fn pass(&self, node: u8, turn: u64) -> bool {
        self.open.load(Ordering::SeqCst)
            && self.paced.pass(node, turn)
            && self.open.load(Ordering::SeqCst)
    }
}

// Realms of this name, with no transport.
#[derive(Drop)]
struct Realms<'a> {
    name: &'a str,
}

impl Source<KeptRealm> for Realms<'_> {
    fn make_machine(&self, alloc: Global) -> Result<KeptRealm, AllocError>
        ensures { IfOk result (λ realm. has_failed realm ≡ false) }
    {
        match String::from_str(alloc, self.name) {
            Ok(name) => Ok(KeptRealm::new(Realm::new(alloc, name, Limits::SERVED))),
            Err(_) => Err(AllocError),
        }
    }
}

/// What runs a node on a thread.
pub(crate) trait Runs<R, G, L> {
    /// Runs the node until its gate is shut, and returns what is left of it. An error says how it ended before.
    fn run<'b>(self, rt: &'b R, alloc: Global, site: &'b Site<'b, G>) -> Result<L, NodeEnd>;
}

/// A node that was never opened: its seat, and where its clients' connections arrive.
#[derive(Drop)]
pub(crate) struct Station<'a, C: Cluster> {
    fresh: FreshSeat<'a, Act>,
    arrivals: Consumer<Arrival>,
    of: PhantomData<C>,
    ghost cluster: { fresh.mail.now ≡ C.table },
}

impl<'a, C: Cluster> Station<'a, C> {
    pub fn new(fresh: FreshSeat<'a, Act>, arrivals: Consumer<Arrival>) -> Station<'a, C>
        requires { fresh.mail.now ≡ C.table }
    {
        Station {
            fresh,
            arrivals,
            of: PhantomData,
        }
    }

    // Runs the node at this lobby, over this store.
    fn run_over<'b, R: Wait + Clock + Eprint, G: Gate, K: Keeper<Act> + Drop>(
        self,
        rt: &'b R,
        alloc: Global,
        site: &'b Site<'b, G>,
        lobby: &'b Lobby,
        keeper: K,
    ) -> Result<Left<C>, NodeEnd> {
        let Station {
            fresh,
            arrivals,
            of: _,
        } = self;
        let mail = fresh.mail;
        let node = fresh.node();
        let pace = Pace::new();
        let home = home_of(node, fresh.members, site, lobby, &pace);
        let gate = ShutGate {
            open: site.open,
            paced: Paced::new(rt, home, site.gate),
        };
        let again = home_of(node, fresh.members, site, lobby, &pace);
        let last = Cell::new(0);
        let keeper = CountedStore::new(keeper, &last);
        let mut feed = ReportingFeed {
            reporter: Reporter::new(rt, node, fresh.members, &last, site.asked),
            clients: ClientFeed::new(alloc, again, 0, arrivals),
        };
        let source = Realms { name: site.realm };
        let done = run_lives::<KeptRealm, _, _, _, _>(
            alloc, fresh, &source, keeper, &gate, &mut feed,
        );
        feed.clients.close();
        drop(feed);
        match done {
            Ok(seat) => Ok(left_of(mail, seat)),
            Err(fault) => Err(NodeEnd { node, fault }),
        }
    }
}

impl<R: Wait + Clock + Eprint, G: Gate, C: Cluster> Runs<R, G, Left<C>> for Station<'_, C> {
    // Opens the node over the store that the site names, and runs it until its gate is shut. A node that is lost, or too far
    // behind, begins its next boot.
    fn run<'b>(self, rt: &'b R, alloc: Global, site: &'b Site<'b, G>) -> Result<Left<C>, NodeEnd> {
        let node = self.fresh.node();
        let Some(lobby) = site.lobbies.get(usize::from(node).saturating_sub(1)) else {
            drop(self);
            return Err(NodeEnd {
                node,
                fault: NodeFault::NoMember,
            });
        };
        match site.stores {
            Stores::Memory => self.run_over(rt, alloc, site, lobby, MemoryStore::new(alloc)),
            Stores::Folder { host, folder } => {
                match open_node_store(host, folder, node, Unknown) {
                    Ok(keeper) => self.run_over(rt, alloc, site, lobby, keeper),
                    Err(fault) => {
                        drop(self);
                        Err(end_by_store(node, fault))
                    }
                }
            }
        }
    }
}

// Returns what is left of a node of the cluster.
fn left_of<C: Cluster>(mail: &Mail<Act>, seat: NodeSeat<Act>) -> Left<C>
    requires cluster { mail.now ≡ C.table }
    requires owned { Owns mail.now seat }
{
    let _ = mail; // for the proof
    Left {
        seat,
        of: PhantomData,
    }
}

// Returns how a node ends whose store does not open.
fn end_by_store(node: u8, fault: KeeperFault) -> NodeEnd {
    NodeEnd {
        node,
        fault: NodeFault::Store(fault),
    }
}

// Returns what a node's gate or its feed is made from. It is made twice, since it is not copied while one of them holds it.
fn home_of<'c, G>(
    node: u8,
    members: Members,
    site: &'c Site<'_, G>,
    lobby: &'c Lobby,
    pace: &'c Pace,
) -> Home<'c> {
    Home {
        node,
        members,
        key: site.key,
        lobby,
        lobbies: site.lobbies,
        pace,
        is_on_disk: matches!(site.stores, Stores::Folder { .. }),
        began: site.began,
    }
}
