//! Of what a machine said: what is for transports of its node's present boot, and how that is handed out.

ghost use Rattle.std.specs.Prelude.{◌≡◌, ◌+◌, ◌≤◌, ◌++◌, [], ◌∷◌, length, IfOk, OnOk, OnErr};
ghost use Rattle.std.specs.List.{flat_map};
ghost use Rattle.paxos_packets.specs.declared.transport.Transport.{Transport};
ghost use Rattle.replica_follower.specs.Following.{said_to, said_in_boot};
ghost use Rattle.replica_follower.specs.Handed.{said_in, room_in};

use crate::handed::Handed;
use paxos_packets::Memory;
use replica_machine::Machine;
use std::alloc::Global;

// Appends what is for a transport that the node has in this boot; drops what is for any other.
fn pick<M: Machine>(
    picked: &mut Vec<M::Say>,
    node: u8,
    boot: u64,
    say: M::Say,
) -> Result<(), Memory>
    ensures { OnOk result (picked.new.items ≡ picked.old.items ++ said_in_boot M.steps.to node boot (say ∷ [])) }
{
    let to = M::to(&say);
    if to.node != node || to.boot != boot {
        return Ok(());
    }
    picked.push(say)?;
    Ok(())
}

// Appends so what is said at one entry.
fn pick_all<M: Machine>(
    picked: &mut Vec<M::Say>,
    node: u8,
    boot: u64,
    says: Vec<M::Say>,
) -> Result<(), Memory>
    ensures { OnOk result (picked.new.items ≡ picked.old.items ++ said_in_boot M.steps.to node boot says.items) }
{
    for say in says {
        pick::<M>(picked, node, boot, say)?;
    }
    Ok(())
}

// Returns what is for transports that the node has in this boot, of what was said entry by entry.
fn picked<M: Machine>(
    alloc: Global,
    node: u8,
    boot: u64,
    said: Vec<Vec<M::Say>>,
) -> Result<Vec<M::Say>, Memory>
    ensures { IfOk result (λ picked. picked.items ≡ said_in_boot M.steps.to node boot (flat_map (λ says. says.items) said.items)) }
{
    let mut picked = Vec::new(alloc);
    for says in said {
        pick_all::<M>(&mut picked, node, boot, says)?;
    }
    Ok(picked)
}

// Reserves memory to hand these out.
fn expect<M: Machine>(handed: &mut Handed<M::Say>, says: &[M::Say]) -> Result<(), Memory>
    ensures said { (t : Transport) → said_in t handed.new ≡ said_in t handed.old }
    ensures room { OnOk result ((t : Transport) → room_in t handed.new ≡ room_in t handed.old + length (said_to M.steps.to t says.now)) }
{
    for say in says {
        handed.expect(M::to(say))?;
    }
    Ok(())
}

// Hands these out, given the room that was made. Does not allocate.
fn hand_out<M: Machine>(handed: &mut Handed<M::Say>, says: Vec<M::Say>)
    requires { (t : Transport) → length (said_to M.steps.to t says.items) ≤ room_in t handed.old }
    ensures said { (t : Transport) → said_in t handed.new ≡ said_in t handed.old ++ said_to M.steps.to t says.items }
    ensures room { (t : Transport) → room_in t handed.old ≡ room_in t handed.new + length (said_to M.steps.to t says.items) }
{
    for say in says {
        handed.put(M::to(&say), say);
    }
}

// Hands out what is for transports that the node has in this boot, of what was said entry by entry: whole or not at all.
pub fn hand_out_all<M: Machine>(
    alloc: Global,
    handed: &mut Handed<M::Say>,
    node: u8,
    boot: u64,
    said: Vec<Vec<M::Say>>,
) -> Result<(), Memory>
    ensures ok { OnOk result ((t : Transport) → said_in t handed.new
        ≡ said_in t handed.old ++ said_to M.steps.to t (said_in_boot M.steps.to node boot (flat_map (λ says. says.items) said.items))) }
    ensures err { OnErr result ((t : Transport) → said_in t handed.new ≡ said_in t handed.old) }
{
    let picked = picked::<M>(alloc, node, boot, said)?;
    expect::<M>(handed, &picked)?;
    hand_out::<M>(handed, picked);
    Ok(())
}
