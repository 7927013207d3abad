//! Giving a machine the entries after its log, and handing out what it says.

ghost use Rattle.std.specs.Prelude.{◌≡◌, ◌<◌, ◌++◌, length, vec_len, List, IsErrOf, IfOk, OnOk, OnErr, []};
ghost use Rattle.paxos_packets.specs.declared.entry.Entry as log_entries;
ghost use Rattle.paxos_packets.specs.declared.transport.Transport.{Transport};
ghost use Rattle.replica_machine.specs.Log.{Begins, IsLogOf, machine_from};
ghost use Rattle.replica_follower.specs.declared.telling.Untold.TheVariants.{Unheard, Heard};
ghost use Rattle.replica_follower.specs.Following.{HasHeard, handed_to};
ghost use Rattle.replica_follower.specs.Handed.{said_in};

use crate::handed::Handed;
use crate::picking::hand_out_all;
use paxos_packets::{Body, Entry, Memory};
use replica_machine::{AppliedLog, LearnFault, Machine};
use std::alloc::Global;

// Why a machine was not given entries: memory ran out, and it heard nothing of them, or it heard of some.
#[derive(Clone, Copy, Debug, PartialEq, Eq)]
pub enum Untold {
    Unheard,
    Heard,
}

// Copies the entries, in order.
pub fn copies<B: Body>(alloc: Global, entries: &[Entry<B>]) -> Result<Vec<Entry<B>>, Memory>
    ensures { IfOk result (λ copies. copies.items ≡ entries.now) }
{
    let mut copies = Vec::with_capacity(alloc, entries.len())?;
    for entry in entries {
        copies.push(entry.copy(alloc)?)?;
    }
    Ok(copies)
}

// Gives the machine the entries, in this boot of its node, and hands out what it says to transports of that boot.
pub fn tell<M: Machine>(
    alloc: Global,
    applied: &mut AppliedLog<M>,
    handed: &mut Handed<M::Say>,
    node: u8,
    boot: u64,
    entries: Vec<Entry<M::Body>>,
) -> Result<(), Untold>
    requires ahead { applied.old.ahead ≡ [] }
    ensures ahead { applied.new.ahead ≡ [] }
    ensures floor { applied.new.floor ≡ applied.old.floor }
    ensures applied { OnOk result (applied.new.applied ≡ applied.old.applied ++ entries.items) }
    ensures begins { OnErr result (Begins applied.old.applied applied.new.applied) }
    ensures goes_on { (first : M.Content) (under : List (log_entries.Entry M.Body))
        → IsLogOf M.steps M.content first under applied.old
        → OnOk result (IsLogOf M.steps M.content first under applied.new) }
    ensures unheard { IsErrOf result Unheard → applied.new ≡ applied.old }
    ensures heard { IsErrOf result Heard → 0 < vec_len entries → HasHeard (length applied.old.applied) applied.new }
    ensures told { (first : M.Content) (under : List (log_entries.Entry M.Body))
        → IsLogOf M.steps M.content first under applied.old
        → OnOk result ((t : Transport) → said_in t handed.new ≡ said_in t handed.old
        ++ handed_to (machine_from M.steps first) t node boot (under ++ applied.old.applied) entries.items) }
    ensures said { OnErr result ((t : Transport) → said_in t handed.new ≡ said_in t handed.old) }
{
    let said = match applied.append(entries) {
        Ok(said) => said,
        Err(LearnFault::Memory) => return Err(Untold::Unheard),
        Err(LearnFault::Failed) => return Err(Untold::Heard),
        Err(LearnFault::Disagree) => unreachable!(),
    };
    let Ok(()) = hand_out_all::<M>(alloc, handed, node, boot, said) else {
        return Err(Untold::Heard);
    };
    Ok(())
}
