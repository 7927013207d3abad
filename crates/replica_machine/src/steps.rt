//! One slot after the other: what the log, the roll and the machine make of an entry.
ghost use Rattle.std.specs.Prelude.{◌≡◌, ◌<◌, ◌++◌, [], ◌∷◌, IfOk, OnOk, OnErr, List, ◌+◌, ◌≤◌, length, map, vec_len, vec_capacity};
ghost use Rattle.std.specs.Prelude.{true, false};
ghost use Rattle.paxos_packets.specs.declared.entry.Entry.{Entry};
ghost use Rattle.replica_machine.specs.Log.{IsAt, Begins, machine_from, next_by, says_by};
ghost use Rattle.replica_machine.specs.Replay.{input_of, sayings_by_slot};
ghost use Rattle.replica_machine.specs.Roll.{IsRollOf, takes_effect};

use crate::input::Input;
use crate::log::Step;
use crate::machine::{Failed, Machine};
use crate::roll::Roll;
use paxos_packets::{Entry, Slot, Transport};
use std::alloc::Global;

// Applies the entry in the next slot. After an error the applied entries are as they were.
pub(crate) fn apply<M: Machine>(
    applied: &mut Vec<Entry<M::Body>>,
    roll: &mut Roll,
    machine: &mut M,
    slot: Slot,
    entry: Entry<M::Body>,
) -> Result<Step<M::Say>, Failed>
    ensures ok { OnOk result (applied.new.items ≡ applied.old.items ++ entry ∷ []) }
    ensures err { OnErr result (applied.new.items ≡ applied.old.items) }
    ensures roll { (log : List (Entry M.Body)) → IsRollOf log roll.old → OnOk result (IsRollOf (log ++ entry ∷ []) roll.new) }
    ensures slot { IfOk result (λ step. step.slot ≡ slot) }
    ensures took { (log : List (Entry M.Body)) → IsRollOf log roll.old → IfOk result (λ step. step.took ≡ takes_effect log entry) }
    ensures content { IfOk result (λ step. M.content machine.new
        ≡ next_by M.steps.next step.took (M.content machine.old) (input_of entry)) }
    ensures says { IfOk result (λ step. step.says.items ≡ says_by M.steps.says step.took (M.content machine.old) (input_of entry)) }
    ensures alive { M.has_failed machine.old ≡ false → OnOk result (M.has_failed machine.new ≡ false) }
{
    applied.reserve(1)?;
    let (took, says) = apply_in_room(applied, roll, machine, entry)?;
    Ok(Step { slot, took, says })
}

// Applies the entry, given room for it: returns whether it took effect, and what was said.
fn apply_in_room<M: Machine>(
    applied: &mut Vec<Entry<M::Body>>,
    roll: &mut Roll,
    machine: &mut M,
    entry: Entry<M::Body>,
) -> Result<(bool, Vec<M::Say>), Failed>
    requires { vec_len applied.old < vec_capacity applied.old }
    ensures ok { OnOk result (applied.new.items ≡ applied.old.items ++ entry ∷ []) }
    ensures err { OnErr result (applied.new.items ≡ applied.old.items) }
    ensures length { OnOk result (vec_len applied.new ≡ vec_len applied.old + 1) }
    ensures capacity { vec_capacity applied.new ≡ vec_capacity applied.old }
    ensures roll { (log : List (Entry M.Body)) → IsRollOf log roll.old → OnOk result (IsRollOf (log ++ entry ∷ []) roll.new) }
    ensures took { (log : List (Entry M.Body)) → IsRollOf log roll.old → IfOk result (λ did. did.0 ≡ takes_effect log entry) }
    ensures content { IfOk result (λ did. M.content machine.new ≡ next_by M.steps.next did.0 (M.content machine.old) (input_of entry)) }
    ensures says { IfOk result (λ did. did.1.items ≡ says_by M.steps.says did.0 (M.content machine.old) (input_of entry)) }
    ensures alive { M.has_failed machine.old ≡ false → OnOk result (M.has_failed machine.new ≡ false) }
{
    let took = roll.take(&entry);
    let (entry, said) = follow(machine, *applied.allocator(), took, entry);
    let says = said?;
    applied.push_reserved(entry);
    Ok((took, says))
}

// Applies the entries after those that are applied, given room for them, and appends what was said at each to `said`. After an error some
// of them may be applied.
pub(crate) fn apply_all<M: Machine>(
    applied: &mut Vec<Entry<M::Body>>,
    roll: &mut Roll,
    machine: &mut M,
    entries: Vec<Entry<M::Body>>,
    said: &mut Vec<Vec<M::Say>>,
) -> Result<(), Failed>
    requires room { vec_len applied.old + vec_len entries ≤ vec_capacity applied.old }
    requires said_room { vec_len said.old + vec_len entries ≤ vec_capacity said.old }
    ensures applied { OnOk result (applied.new.items ≡ applied.old.items ++ entries.items) }
    ensures count { OnOk result (vec_len said.new ≡ vec_len said.old + length entries.items) }
    ensures err { OnErr result (Begins applied.old.items applied.new.items) }
    ensures front { OnErr result (Begins applied.new.items (applied.old.items ++ entries.items)) }
    ensures rolled { (under : List (Entry M.Body)) → IsRollOf (under ++ applied.old.items) roll.old
        → OnOk result (IsRollOf (under ++ applied.new.items) roll.new) }
    ensures stands { (first : M.Content) (under : List (Entry M.Body))
        → IsAt M.steps M.content first (under ++ applied.old.items) roll.old machine.old
        → OnOk result (IsAt M.steps M.content first (under ++ applied.new.items) roll.new machine.new) }
    ensures said { (first : M.Content) (under : List (Entry M.Body))
        → IsAt M.steps M.content first (under ++ applied.old.items) roll.old machine.old
        → OnOk result (map (λ says. says.items) said.new.items ≡ map (λ says. says.items) said.old.items
        ++ sayings_by_slot (machine_from M.steps first) (under ++ applied.old.items) entries.items) }
    ensures alive { M.has_failed machine.old ≡ false → OnOk result (M.has_failed machine.new ≡ false) }
{
    for entry in entries {
        let (_took, says) = apply_in_room(applied, roll, machine, entry)?;
        said.push_reserved(says);
    }
    Ok(())
}

// Does the machine's part in a slot: lends it the entry if that takes effect. Returns the entry, with what the machine said.
fn follow<M: Machine>(
    machine: &mut M,
    alloc: Global,
    took: bool,
    entry: Entry<M::Body>,
) -> (Entry<M::Body>, Result<Vec<M::Say>, Failed>)
    ensures entry { result.0 ≡ entry }
    ensures content { OnOk result.1 (M.content machine.new ≡ next_by M.steps.next took (M.content machine.old) (input_of entry)) }
    ensures says { IfOk result.1 (λ says. says.items ≡ says_by M.steps.says took (M.content machine.old) (input_of entry)) }
    ensures alive { M.has_failed machine.old ≡ false → OnOk result.1 (M.has_failed machine.new ≡ false) }
{
    if took {
        lend(machine, alloc, entry)
    } else {
        (entry, Ok(Vec::new(alloc)))
    }
}

// Lends the entry to the machine, and returns it with what the machine said.
fn lend<M: Machine>(
    machine: &mut M,
    alloc: Global,
    entry: Entry<M::Body>,
) -> (Entry<M::Body>, Result<Vec<M::Say>, Failed>)
    ensures entry { result.0 ≡ entry }
    ensures content { OnOk result.1 (M.content machine.new ≡ next_by M.steps.next true (M.content machine.old) (input_of entry)) }
    ensures says { IfOk result.1 (λ says. says.items ≡ says_by M.steps.says true (M.content machine.old) (input_of entry)) }
    ensures alive { M.has_failed machine.old ≡ false → OnOk result.1 (M.has_failed machine.new ≡ false) }
{
    match entry {
        Entry::Noop => (Entry::Noop, Ok(Vec::new(alloc))),
        Entry::Boot { node, boot } => {
            let said = machine.apply(&Input::Boot { node, boot });
            (Entry::Boot { node, boot }, said)
        },
        Entry::Lost { node, boot } => {
            let said = machine.apply(&Input::Lost { node, boot });
            (Entry::Lost { node, boot }, said)
        },
        Entry::Item {
            node,
            boot,
            seq,
            transport,
            body,
        } => {
            let (body, said) = lend_body(
                machine,
                Transport {
                    node,
                    boot,
                    number: transport,
                },
                body,
            );
            (
                Entry::Item {
                    node,
                    boot,
                    seq,
                    transport,
                    body,
                },
                said,
            )
        },
    }
}

// Lends an Item's body to the machine.
fn lend_body<M: Machine>(
    machine: &mut M,
    transport: Transport,
    body: M::Body,
) -> (M::Body, Result<Vec<M::Say>, Failed>)
    ensures body { result.0 ≡ body }
    ensures content { OnOk result.1 (M.content machine.new ≡ M.steps.next (M.content machine.old) (Input.Item transport body)) }
    ensures says { IfOk result.1 (λ says. says.items ≡ M.steps.says (M.content machine.old) (Input.Item transport body)) }
    ensures alive { OnOk result.1 (M.has_failed machine.new ≡ false) }
{
    let input = Input::Item { transport, body };
    let said = machine.apply(&input);
    let Input::Item { body, .. } = input else {
        unreachable!()
    };
    (body, said)
}
