// Rescues: what the events of one take to be computed, in a cluster with a long log.
use crate::cluster::Load;
use crate::fault::BenchFault;
use cluster_world::World;
use paxos_node::Event;
use paxos_packets::{Body, Members};
use std::alloc::Global;
use std::time::Instant;
use test_machines::{Count, Number};

// How many rescues are computed.
const TURNS: u32 = 2000;

// Lets the event happen.
fn happens(world: &mut World<Count>, event: Event<Number>) -> Result<(), BenchFault> {
    let events = [event];
    let done = world.run(&events).is_ok();
    drop(events);
    if !done {
        return Err(BenchFault::Memory);
    }
    Ok(())
}

// A copy of the packet with this number.
fn packet_event(
    alloc: Global,
    world: &World<Count>,
    number: usize,
) -> Result<Event<Number>, BenchFault> {
    let Some(packet) = world.packet(number) else {
        return Err(BenchFault::Nobody);
    };
    let Ok(packet) = packet.copy(alloc) else {
        return Err(BenchFault::Memory);
    };
    Ok(Event::Deliver { packet })
}

// Delivers each packet after the first `from`, and those that come meanwhile. Returns how many were sent then.
fn deliver_all(alloc: Global, world: &mut World<Count>, from: usize) -> Result<usize, BenchFault> {
    for before in from..usize::MAX {
        if world.sent() <= before {
            return Ok(before);
        }
        let event = packet_event(alloc, world, before + 1)?;
        happens(world, event)?;
    }
    Ok(from)
}

// Node 1 leads, and takes acts one at a time.
fn fill(alloc: Global, world: &mut World<Count>, acts: u64) -> Result<(), BenchFault> {
    happens(world, Event::Start { node: 1 })?;
    let mut sent = deliver_all(alloc, world, 0)?;
    for _ in 0..acts {
        happens(
            world,
            Event::Take {
                node: 1,
                transport: 1,
                body: Number::new(1),
            },
        )?;
        sent = deliver_all(alloc, world, sent)?;
    }
    Ok(())
}

// Returns how many events a rescue of node 1 has.
fn rescue(world: &World<Count>) -> Result<usize, BenchFault> {
    let Ok(events) = world.rescue(1, 1, Number::new(1)) else {
        return Err(BenchFault::Stuck);
    };
    let count = events.len();
    drop(events);
    Ok(count)
}

fn run_over(rt: &HostRuntime, world: &mut World<Count>, load: Load) -> Result<(), BenchFault> {
    fill(rt.alloc(), world, load.acts)?;
    let mut events = 0;
    let start = Instant::now(rt)?;
    for _ in 0..TURNS {
        events = rescue(world)?;
    }
    let taken = start.elapsed(rt)?;
    println!(rt;
        "{} entries in the log, {events} events a rescue",
        world.log(1).len()
    )?;
    let _ = eprintln!(rt; "{} ns a rescue", taken.as_nanos() / u128::from(TURNS));
    Ok(())
}

fn world_of_three(alloc: Global) -> Result<World<Count>, BenchFault> {
    let members = Members::new(3).ok_or(BenchFault::Nobody)?;
    let mut machines = Vec::new(alloc);
    machines.push(Count::new(alloc))?;
    machines.push(Count::new(alloc))?;
    machines.push(Count::new(alloc))?;
    let Ok(world) = World::new(alloc, members, machines) else {
        return Err(BenchFault::Memory);
    };
    Ok(world)
}

/// Lets three nodes apply the acts, and computes rescues of the one that leads; prints how long its log is and how many events a rescue has,
/// and on standard error the nanoseconds of a rescue.
pub fn run(rt: &HostRuntime, load: Load) -> Result<(), BenchFault> {
    let mut world = world_of_three(rt.alloc())?;
    let done = run_over(rt, &mut world, load);
    drop(world);
    done
}
