// What a machine says at the entries that its node applies.
ghost use Rattle.std.specs.Prelude.{◌≡◌, ◌++◌, ◌∷◌, [], false, filter, map, IfOk, OnOk, OnErr};
ghost use Rattle.std.specs.List.{flat_map};
ghost use Rattle.actor_parts.specs.Parts.{IsPrefixOf};
ghost use Rattle.actor_parts.specs.Handing.{is_of};
ghost use Rattle.actor_parts.specs.Steps.{IsAtEnd, Applied};

use paxos_packets::{Entry, Transport};
use replica_machine::{AppliedLog, Failed, Machine};
use std::alloc::Global;

// Applies the entries at the end of the log. Returns what the machine says at them to the transports of this node in this boot.
pub(crate) fn apply_all<M: Machine>(
    alloc: Global,
    log: &mut AppliedLog<M>,
    node: u8,
    boot: u64,
    entries: Vec<Entry<M::Body>>,
) -> Result<Vec<M::Say>, Failed>
    requires alive { log.old.failed ≡ false }
    requires end { IsAtEnd log.old }
    ensures ok { IfOk result (λ says.
        Applied M.steps M.content node boot entries.items log.old log.new says.items) }
    ensures end { IsAtEnd log.new }
    ensures err { OnErr result (IsPrefixOf log.new.applied (log.old.applied ++ entries.items)) }
{
    let Ok(said) = log.append(entries) else {
        return Err(Failed);
    };
    collect_own::<M>(alloc, said, node, boot)
}

// Returns those of what is said in each slot that are for the transports of this node in this boot.
fn collect_own<M: Machine>(
    alloc: Global,
    said: Vec<Vec<M::Say>>,
    node: u8,
    boot: u64,
) -> Result<Vec<M::Say>, Failed>
    ensures { IfOk result (λ says. says.items
        ≡ filter (λ y. is_of node boot (M.steps.to y)) (flat_map (λ ys. ys) (map (λ more. more.items) said.items))) }
{
    let mut says = Vec::new(alloc);
    for more in said {
        retain_own::<M>(&mut says, more, node, boot)?;
    }
    Ok(says)
}

// Appends those of the sayings that are for the transports of this node in this boot.
fn retain_own<M: Machine>(
    says: &mut Vec<M::Say>,
    more: Vec<M::Say>,
    node: u8,
    boot: u64,
) -> Result<(), Failed>
    ensures { OnOk result (says.new.items ≡ says.old.items ++ filter (λ y. is_of node boot (M.steps.to y)) more.items) }
{
    for say in more {
        retain_if_own::<M>(says, say, node, boot)?;
    }
    Ok(())
}

// Appends the saying, if it is for a transport of this node in this boot.
fn retain_if_own<M: Machine>(
    says: &mut Vec<M::Say>,
    say: M::Say,
    node: u8,
    boot: u64,
) -> Result<(), Failed>
    ensures { OnOk result (says.new.items ≡ says.old.items ++ filter (λ y. is_of node boot (M.steps.to y)) (say ∷ [])) }
{
    if !is_of(node, boot, &M::to(&say)) {
        return Ok(());
    }
    says.push(say)?;
    Ok(())
}

// Returns whether the transport is of this node in this boot.
fn is_of(node: u8, boot: u64, transport: &Transport) -> bool
    ensures { result ≡ is_of node boot transport.now }
{
    transport.node == node && transport.boot == boot
}
