// The log that is made of a snapshot.
ghost use Rattle.std.specs.Prelude.{◌≡◌, true, Some, IfOk, IsErrOf};
ghost use Rattle.actor_parts.specs.Snapshots.{is_no_log, unboxed, IsMadeOf};

use paxos_packets::Snapshot;
use replica_machine::{AppliedLog, LoadFault, Machine};
use std::alloc::Global;

/// Returns the log that is made of the snapshot, if there is one: of its length, without entries. Fails with `Damaged` if its octets are none
/// that a log is saved as, and with `Memory`. The log is on the heap, since each event passes on what this returns, and mostly there is none.
pub fn load_log<M: Machine>(
    alloc: Global,
    snapshot: &Option<Snapshot>,
) -> Result<Option<Box<AppliedLog<M>>>, LoadFault>
    ensures made { IfOk result (λ made. IsMadeOf M.content M.loaded snapshot.now (unboxed made)) }
    ensures damaged { IsErrOf result LoadFault.Damaged → is_no_log M.loaded snapshot.now ≡ true }
{
    match snapshot {
        None => Ok(None),
        Some(snapshot) => {
            let made = load_from(alloc, snapshot)?;
            Ok(Some(made))
        },
    }
}

// Returns the log that is made of this snapshot. It is apart from `load_log`, which is called for each event: a function pays at entry for the size
// of its locals, and a log is large.
fn load_from<M: Machine>(
    alloc: Global,
    snapshot: &Snapshot,
) -> Result<Box<AppliedLog<M>>, LoadFault>
    ensures made { IfOk result (λ made. IsMadeOf M.content M.loaded (Some snapshot.now) (Some made.value)) }
    ensures damaged { IsErrOf result LoadFault.Damaged → is_no_log M.loaded (Some snapshot.now) ≡ true }
{
    let _floor = snapshot.floor().get(); // for the proof
    let log = AppliedLog::load(alloc, snapshot.octets())?;
    let Ok(made) = Box::new(alloc, log) else {
        return Err(LoadFault::Memory);
    };
    Ok(made)
}
