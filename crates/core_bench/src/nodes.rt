// Three nodes in one process: the acts that they take, and the packets, passed by hand in the order in which they are sent.
use crate::bodies::{Acts, Numbers, Source, text_of};
use crate::cluster::{Cluster, Counts, Load, measure};
use crate::fault::BenchFault;
use paxos_packets::Body;
use realm_acts::Act;
use test_machines::Number;
use test_stands::{NODES, Nodes, Passes, with_nodes};

// How many acts are taken at a time by nodes that cut, unless they cut more often.
const WINDOW: u64 = 16;

// The nodes, which belong to `test_stands`. If they cut, each does so after this many acts.
#[derive(Drop)]
struct Standing<'n, B> {
    nodes: &'n mut Nodes<B>,
    counts: Counts,
    every: Option<u64>,
    // how many acts were taken since the last cuts
    uncut: u64,
}

impl<B: Body> Standing<'_, B> {
    // Prints up to which slot each log is cut, if they are.
    fn tell_floors(&self, rt: &HostRuntime) -> Result<(), BenchFault> {
        if self.every.is_some() {
            println!(rt;
                "logs cut up to the slots {}, {} and {}",
                self.nodes.floor(1),
                self.nodes.floor(2),
                self.nodes.floor(3)
            )?;
        }
        Ok(())
    }

    // Lets each node cut, if that is due.
    fn cut_if_due(&mut self) -> Result<(), BenchFault> {
        let Some(every) = self.every else {
            return Ok(());
        };
        if self.uncut < every {
            return Ok(());
        }
        self.uncut = 0;
        for node in 1..=NODES {
            self.counts.event();
            self.nodes.cut(node)?;
        }
        Ok(())
    }
}

impl<B: Body> Cluster for Standing<'_, B> {
    type Body = B;

    fn start(&mut self, node: u8) -> Result<(), BenchFault> {
        self.counts.event();
        Ok(self.nodes.start(node)?)
    }

    fn tick(&mut self, node: u8) -> Result<(), BenchFault> {
        self.counts.event();
        Ok(self.nodes.tick(node)?)
    }

    fn take(&mut self, node: u8, body: B) -> Result<(), BenchFault> {
        self.counts.event();
        self.uncut = self.uncut.saturating_add(1);
        Ok(self.nodes.take(node, body)?)
    }

    fn pass_all(&mut self) -> Result<(), BenchFault> {
        for _ in 0..u64::MAX {
            if !self.nodes.deliver()? {
                return self.cut_if_due();
            }
            self.counts.packet();
        }
        Ok(())
    }

    fn has_pending(&mut self, node: u8) -> Result<bool, BenchFault> {
        Ok(self.nodes.has_pending(node))
    }

    fn has_all(&mut self, acts: u64) -> bool {
        self.nodes.have_applied(acts)
    }

    fn counts(&mut self) -> &mut Counts {
        &mut self.counts
    }
}

// A run over bodies of this source.
#[derive(Drop)]
struct Measuring<'r, S> {
    rt: &'r HostRuntime,
    source: S,
    load: Load,
    every: Option<u64>,
}

impl<B: Body, S: Source<B>> Passes<B> for Measuring<'_, S> {
    type End = Result<(), BenchFault>;

    fn pass(&mut self, nodes: &mut Nodes<B>) -> Result<(), BenchFault> {
        let mut standing = Standing {
            nodes,
            counts: Counts::nothing(),
            every: self.every,
            uncut: 0,
        };
        measure(self.rt, &mut standing, &self.source, self.load, "nodes")?;
        standing.tell_floors(self.rt)
    }
}

/// Takes the acts, a window at a time, at two of three nodes by turns, and passes their packets by hand; prints how many were applied, events
/// and packets, and on standard error what they took. Each body is a number.
pub fn run_numbers(rt: &HostRuntime, load: Load) -> Result<(), BenchFault> {
    let mut measuring = Measuring {
        rt,
        source: Numbers,
        load,
        every: None,
    };
    with_nodes::<Number, _>(rt.alloc(), &mut measuring).ok_or(BenchFault::Memory)?
}

/// Does so with at most 16 acts at a time, while each node cuts after the load's width of acts; prints also up to which slots the logs are cut.
pub fn run_cuts(rt: &HostRuntime, load: Load) -> Result<(), BenchFault> {
    let mut measuring = Measuring {
        rt,
        source: Numbers,
        load: Load {
            acts: load.acts,
            width: load.width.min(WINDOW),
        },
        every: Some(load.width),
    };
    with_nodes::<Number, _>(rt.alloc(), &mut measuring).ok_or(BenchFault::Memory)?
}

/// Does so with a realm's act as each body, a PUBLISH whose text has 200 octets.
pub fn run_acts(rt: &HostRuntime, load: Load) -> Result<(), BenchFault> {
    let text = text_of(rt.alloc())?;
    let mut measuring = Measuring {
        rt,
        source: Acts {
            text: text.as_slice(),
        },
        load,
        every: None,
    };
    with_nodes::<Act, _>(rt.alloc(), &mut measuring).ok_or(BenchFault::Memory)?
}
