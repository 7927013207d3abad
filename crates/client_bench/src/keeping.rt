// How long a realm takes to be saved and to be loaded.
use crate::fault::BenchFault;
use realm_machine::Realm;
use realm_snapshot::{load, save};
use std::alloc::Global;
use std::time::Instant;

// How often the realm is saved and loaded; of each the fastest is printed.
const TURNS: u64 = 8;

// The octets of a realm, and the nanoseconds that saving and loading took, each in its fastest turn.
#[derive(Clone, Copy)]
struct Kept {
    octets: usize,
    save: u128,
    load: u128,
}

// Saves the realm, and gives its octets and the nanoseconds that it took.
fn saved(rt: &HostRuntime, realm: &Realm, kept: &mut Kept) -> Result<Vec<u8>, BenchFault> {
    let start = Instant::now(rt)?;
    let octets = save(rt.alloc(), realm)?;
    kept.save = kept.save.min(start.elapsed(rt)?.as_nanos());
    kept.octets = octets.len();
    Ok(octets)
}

fn loaded(alloc: Global, octets: &[u8]) -> Result<(), BenchFault> {
    let realm = load(alloc, octets)?;
    drop(realm);
    Ok(())
}

// Saves the realm and loads it once.
fn turn(rt: &HostRuntime, realm: &Realm, kept: &mut Kept) -> Result<(), BenchFault> {
    let octets = saved(rt, realm, kept)?;
    let start = Instant::now(rt)?;
    let done = loaded(rt.alloc(), &octets);
    let taken = start.elapsed(rt)?.as_nanos();
    drop(octets);
    kept.load = kept.load.min(taken);
    done
}

/// Saves and loads the realm of this many sessions, and prints how many octets it is; a loaded realm is dropped within the time.
pub fn measure(rt: &HostRuntime, realm: &Realm, sessions: u64) -> Result<(), BenchFault> {
    let mut kept = Kept {
        octets: 0,
        save: u128::MAX,
        load: u128::MAX,
    };
    for _ in 0..TURNS {
        turn(rt, realm, &mut kept)?;
    }
    let sessions = sessions.max(1);
    println!(rt;
        "saved: {} octets, {} a session",
        kept.octets,
        kept.octets as u64 / sessions
    )?;
    let _ = eprintln!(rt; "save: {} ns a session", kept.save / u128::from(sessions));
    let _ = eprintln!(rt; "load: {} ns a session", kept.load / u128::from(sessions));
    Ok(())
}
