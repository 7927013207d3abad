// A realm alone, with a number of sessions, and how long its operations take.
use crate::acts::{Operation, Planned, opening_of, plan_of};
use crate::fault::BenchFault;
use crate::keeping;
use realm_machine::{Limits, Realm};
use std::alloc::Global;
use std::time::Instant;

// How often each operation has its turn; of each its fastest turn is printed.
const TURNS: u64 = 8;

const OPERATIONS: [Operation; 5] = [
    Operation::Publish,
    Operation::Call,
    Operation::Subscribe,
    Operation::Register,
    Operation::Connect,
];

// What an operation took: how often it was done, how much was said then, and the nanoseconds of one in its fastest turn.
#[derive(Clone, Copy)]
struct Timed {
    done: u64,
    said: u64,
    nanos: u128,
}

fn realm_of(alloc: Global, sessions: u64) -> Result<Realm, BenchFault> {
    let name = String::from_str(alloc, "realm1")?;
    let Ok(most) = u32::try_from(sessions) else {
        return Err(BenchFault::Number);
    };
    let limits = Limits {
        sessions: most.saturating_add(1),
        registrations: 16,
        subscriptions: 16,
        calls: 16,
    };
    Ok(Realm::new(alloc, name, limits))
}

// How much is said to these acts, one after the other.
fn perform(realm: &mut Realm, plan: &[Planned]) -> Result<u64, BenchFault> {
    let mut said: u64 = 0;
    for planned in plan {
        let says = realm.act(planned.transport, &planned.act)?;
        said = said.saturating_add(says.len() as u64);
        drop(says);
    }
    Ok(said)
}

// Each session opens, and subscribes and registers.
fn open_all(alloc: Global, realm: &mut Realm, sessions: u64) -> Result<u64, BenchFault> {
    let mut said: u64 = 0;
    for number in 0..sessions {
        let plan = opening_of(alloc, number.saturating_add(1))?;
        let answered = perform(realm, &plan);
        drop(plan);
        said = said.saturating_add(answered?);
    }
    Ok(said)
}

// Does the operation once, and gives the nanoseconds that its acts took.
fn once(
    rt: &HostRuntime,
    realm: &mut Realm,
    operation: Operation,
    timed: &mut Timed,
    sessions: u64,
) -> Result<u128, BenchFault> {
    let plan = plan_of(rt.alloc(), operation, timed.done, sessions)?;
    let start = Instant::now(rt)?;
    let said = perform(realm, &plan);
    let taken = start.elapsed(rt)?.as_nanos();
    drop(plan);
    timed.said = timed.said.saturating_add(said?);
    timed.done = timed.done.saturating_add(1);
    Ok(taken)
}

// A turn of this many operations, whose time is kept if no turn before was as fast.
fn turn(
    rt: &HostRuntime,
    realm: &mut Realm,
    operation: Operation,
    timed: &mut Timed,
    sessions: u64,
    times: u64,
) -> Result<(), BenchFault> {
    let mut nanos: u128 = 0;
    for _ in 0..times {
        nanos = nanos.saturating_add(once(rt, realm, operation, timed, sessions)?);
    }
    timed.nanos = timed.nanos.min(nanos / u128::from(times.max(1)));
    Ok(())
}

fn measure(
    rt: &HostRuntime,
    realm: &mut Realm,
    operation: Operation,
    sessions: u64,
    times: u64,
) -> Result<(), BenchFault> {
    let mut timed = Timed {
        done: 0,
        said: 0,
        nanos: u128::MAX,
    };
    for _ in 0..TURNS {
        turn(rt, realm, operation, &mut timed, sessions, times)?;
    }
    println!(rt;
        "{}: {} times, {} said",
        operation.name(),
        timed.done,
        timed.said
    )?;
    let _ = eprintln!(rt; "{}: {} ns", operation.name(), timed.nanos);
    Ok(())
}

fn measure_all(
    rt: &HostRuntime,
    realm: &mut Realm,
    sessions: u64,
    times: u64,
) -> Result<(), BenchFault> {
    let said = open_all(rt.alloc(), realm, sessions)?;
    println!(rt; "{sessions} sessions open, {said} said")?;
    keeping::measure(rt, realm, sessions)?;
    for operation in OPERATIONS {
        measure(rt, realm, operation, sessions, times)?;
    }
    Ok(())
}

/// Opens `sessions` sessions, and does each operation in turns of `times`.
pub fn run(rt: &HostRuntime, sessions: u64, times: u64) -> Result<(), BenchFault> {
    let mut realm = realm_of(rt.alloc(), sessions)?;
    measure_all(rt, &mut realm, sessions, times)
}
