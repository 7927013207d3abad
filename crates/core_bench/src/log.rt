// The applied log: what learning and applying an entry takes, after a gap of one slot and of many.
use crate::cluster::Load;
use crate::fault::BenchFault;
use replica_machine::{AppliedLog, Entry, Slot};
use std::time::Instant;
use test_machines::{Count, Number};
use test_stands::close_log;

// The entry of a slot: the Boot of node 1, then its Items in their order.
fn entry_of(slot: u64) -> Entry<Number> {
    if slot <= 1 {
        Entry::Boot { node: 1, boot: 1 }
    } else {
        Entry::Item {
            node: 1,
            boot: 1,
            seq: slot - 1,
            transport: 1,
            body: Number::new(1),
        }
    }
}

// Learns the slots after `from` up to `to`, the last one first, and applies what can be. Returns how many were applied.
fn step(log: &mut AppliedLog<Count>, from: u64, to: u64) -> Result<u64, BenchFault> {
    for before in (from..to).rev() {
        let slot = before + 1;
        log.learn(Slot::new(slot).ok_or(BenchFault::Slots)?, entry_of(slot))?;
    }
    let mut applied = 0u64;
    for _slot in from..to {
        if log.advance()?.is_some() {
            applied = applied.saturating_add(1);
        }
    }
    Ok(applied)
}

fn run_over(rt: &HostRuntime, log: &mut AppliedLog<Count>, load: Load) -> Result<(), BenchFault> {
    let start = Instant::now(rt)?;
    let mut applied = 0u64;
    for turn in 0..load.acts.div_ceil(load.width.max(1)) {
        let learned = turn.saturating_mul(load.width);
        let next = load.acts.min(learned.saturating_add(load.width));
        applied = applied.saturating_add(step(log, learned, next)?);
    }
    let taken = start.elapsed(rt)?;
    println!(rt;
        "{applied} entries applied, their sum {}",
        log.machine().sum()
    )?;
    let _ = eprintln!(rt;
        "{} ns an entry",
        taken.as_nanos() / u128::from(load.acts.max(1))
    );
    Ok(())
}

/// Learns entries in windows of slots, each from its last slot to its first, and applies them; prints how many were
/// applied and the machine's sum, and on standard error the nanoseconds an entry.
pub fn run(rt: &HostRuntime, load: Load) -> Result<(), BenchFault> {
    let mut log = AppliedLog::new(rt.alloc(), Count::new(rt.alloc()));
    let done = run_over(rt, &mut log, load);
    close_log(log);
    done
}
