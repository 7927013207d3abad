// What takes acts by windows: three nodes, or three actors.
use crate::bodies::Source;
use crate::fault::BenchFault;
use std::alloc::Global;
use std::time::Instant;
use test_stands::NODES;

// How often a node ticks at most until none of its own entries is pending: at most 1,024 entries are, and a tick forwards 64.
const MOST_TICKS: u64 = 64;

/// How many events there were, and how many packets reached their addressees.
#[derive(Clone, Copy)]
pub struct Counts {
    pub events: u64,
    pub packets: u64,
}

impl Counts {
    /// None yet.
    pub fn nothing() -> Counts {
        Counts {
            events: 0,
            packets: 0,
        }
    }

    /// One event more.
    pub fn event(&mut self) {
        self.events = self.events.saturating_add(1);
    }

    /// One event more, which a packet brought about.
    pub fn packet(&mut self) {
        self.event();
        self.packets = self.packets.saturating_add(1);
    }
}

/// What a run is to do: how many acts there are, and how many are taken at a time.
#[derive(Clone, Copy)]
pub struct Load {
    pub acts: u64,
    pub width: u64,
}

/// Three of them, whose packets pass.
pub trait Cluster {
    /// What an act holds.
    type Body: Drop;

    /// Lets the node begin a ballot.
    fn start(&mut self, node: u8) -> Result<(), BenchFault>;

    /// Lets time pass at the node.
    fn tick(&mut self, node: u8) -> Result<(), BenchFault>;

    /// The node takes an act with this body.
    fn take(&mut self, node: u8, body: Self::Body) -> Result<(), BenchFault>;

    /// Packets pass until none is left.
    fn pass_all(&mut self) -> Result<(), BenchFault>;

    /// Returns whether entries of the node wait for a slot.
    fn has_pending(&mut self, node: u8) -> Result<bool, BenchFault>;

    /// Returns whether this many acts, and no other, took effect at each of them.
    fn has_all(&mut self, acts: u64) -> bool;

    /// What there was since the cluster began.
    fn counts(&mut self) -> &mut Counts;
}

// Lets the node tick until none of its own entries is pending.
fn settle<C: Cluster>(cluster: &mut C, node: u8) -> Result<(), BenchFault> {
    for _ in 0..MOST_TICKS {
        if !cluster.has_pending(node)? {
            return Ok(());
        }
        cluster.tick(node)?;
        cluster.pass_all()?;
    }
    Err(BenchFault::Stuck)
}

// The first node leads, and the Boot of each is applied.
fn begin<C: Cluster>(cluster: &mut C) -> Result<(), BenchFault> {
    cluster.start(1)?;
    cluster.pass_all()?;
    for node in 1..=NODES {
        settle(cluster, node)?;
    }
    *cluster.counts() = Counts::nothing();
    Ok(())
}

// Returns `count` bodies.
fn made<B: Drop, S: Source<B>>(
    alloc: Global,
    source: &S,
    count: u64,
) -> Result<Vec<B>, BenchFault> {
    let mut bodies = Vec::new(alloc);
    for _ in 0..count {
        bodies.push(source.make(alloc)?)?;
    }
    Ok(bodies)
}

// The node takes acts with these bodies before a packet is passed, and then all that they bring about happens.
fn take_all<C: Cluster>(cluster: &mut C, node: u8, bodies: Vec<C::Body>) -> Result<(), BenchFault> {
    for body in bodies {
        cluster.take(node, body)?;
    }
    cluster.pass_all()?;
    settle(cluster, node)
}

// Does so with `count` bodies, which are made before. Returns the nanoseconds that it took.
fn window<C: Cluster, S: Source<C::Body>>(
    rt: &HostRuntime,
    cluster: &mut C,
    source: &S,
    node: u8,
    count: u64,
) -> Result<u128, BenchFault> {
    let bodies = made(rt.alloc(), source, count)?;
    let start = Instant::now(rt)?;
    take_all(cluster, node, bodies)?;
    Ok(start.elapsed(rt)?.as_nanos())
}

// The acts, a window at a time, at the first node and the second by turns; the nanoseconds that they took.
fn windows<C: Cluster, S: Source<C::Body>>(
    rt: &HostRuntime,
    cluster: &mut C,
    source: &S,
    load: Load,
) -> Result<u128, BenchFault> {
    let mut nanos = 0u128;
    for turn in 0..load.acts.div_ceil(load.width.max(1)) {
        let left = load.acts.saturating_sub(turn.saturating_mul(load.width));
        let node = if turn % 2 == 0 { 1 } else { 2 };
        let taken = window(rt, cluster, source, node, left.min(load.width))?;
        nanos = nanos.saturating_add(taken);
    }
    Ok(nanos)
}

// Prints on standard error how many events there were in a second, and what an event and an act took.
fn tell(rt: &HostRuntime, counts: Counts, acts: u64, nanos: u128) {
    let events = u128::from(counts.events);
    let _ = eprintln!(rt;
        "{} events a second, {} ns an event, {} ns an act",
        events.saturating_mul(1_000_000_000) / nanos.max(1),
        nanos / events.max(1),
        nanos / u128::from(acts.max(1))
    );
}

/// Lets the cluster, whose members are so called, begin and take these acts, with bodies of this source; prints how many were applied, events and
/// packets, and on standard error what they took.
pub fn measure<C: Cluster, S: Source<C::Body>>(
    rt: &HostRuntime,
    cluster: &mut C,
    source: &S,
    load: Load,
    members: &str,
) -> Result<(), BenchFault> {
    begin(cluster)?;
    let nanos = windows(rt, cluster, source, load)?;
    if !cluster.has_all(load.acts) {
        return Err(BenchFault::Stuck);
    }
    let (acts, counts) = (load.acts, *cluster.counts());
    println!(rt;
        "{acts} acts applied at each of {NODES} {members}, {} events, {} packets",
        counts.events, counts.packets
    )?;
    tell(rt, counts, acts, nanos);
    Ok(())
}
