// Writes the text of a world, line by line.
ghost use Rattle.std.specs.Prelude.{◌≡◌, ◌+◌, ◌<◌, ◌^◌, ◌++◌, List, length, map};
ghost use Rattle.paxos_packets.specs.declared.entry.Entry as entries;
ghost use Rattle.replica_machine.specs.Effects.{effects_from};
ghost use Rattle.replica_machine.specs.Roll.{IsRollOf};
ghost use Rattle.script_program.specs.Text.{entry_text, first_text, floor_text, log_from, log_text, said_text, handed_text};
ghost use Rattle.script_program.specs.Printing.{Prints};

use crate::fault::ScriptFault;
use crate::text::page::write_full;
use crate::text::put::{put_entry, put_floor, put_node, put_said};
use paxos_packets::{Entry, Transport};
use realm_machine::{Out, Say};
use replica_machine::Roll;
use replica_machine::laws::effects;
use std::io::Write;

// Writes a node's first line.
pub(crate) fn print_first<W: Write>(
    writer: &mut W,
    out: &mut Vec<u8>,
    node: u8,
    is_up: bool,
) -> Result<(), ScriptFault>
    ensures { Prints result (W.contents writer.old) (W.contents writer.new) out.old.items out.new.items (first_text node is_up) }
{
    put_node(out, node, is_up)?;
    write_full(writer, out)
}

// Writes the lines of a log: its floor, and its entries above that. The roll says where the nodes stand at the floor.
pub(crate) fn print_log<B, W: Write>(
    writer: &mut W,
    out: &mut Vec<u8>,
    floor: u64,
    at_floor: Roll,
    log: &[Entry<B>],
) -> Result<(), ScriptFault>
    requires low { floor < 2 ^ 40 }
    ensures { (under : List (entries.Entry B)) → length under ≡ floor → IsRollOf under at_floor →
        Prints result (W.contents writer.old) (W.contents writer.new) out.old.items out.new.items
        (log_text floor (under ++ log.now)) }
{
    print_floor(writer, out, floor)?;
    print_entries(writer, out, floor, at_floor, log)
}

fn print_floor<W: Write>(writer: &mut W, out: &mut Vec<u8>, floor: u64) -> Result<(), ScriptFault>
    ensures { Prints result (W.contents writer.old) (W.contents writer.new) out.old.items out.new.items (floor_text floor) }
{
    put_floor(out, floor)?;
    write_full(writer, out)
}

// Writes the lines of the entries above a floor, slot by slot.
fn print_entries<B, W: Write>(
    writer: &mut W,
    out: &mut Vec<u8>,
    floor: u64,
    at_floor: Roll,
    log: &[Entry<B>],
) -> Result<(), ScriptFault>
    requires low { floor < 2 ^ 40 }
    ensures { (under : List (entries.Entry B)) → IsRollOf under at_floor →
        Prints result (W.contents writer.old) (W.contents writer.new) out.old.items out.new.items
        (log_from (floor + 1) log.now (effects_from under log.now)) }
{
    // for the proof
    effects::<B>();
    let mut roll = at_floor;
    let mut slot = floor;
    for entry in log {
        slot += 1;
        let took = roll.take(entry);
        print_entry(writer, out, slot, entry, took)?;
    }
    Ok(())
}

fn print_entry<B, W: Write>(
    writer: &mut W,
    out: &mut Vec<u8>,
    slot: u64,
    entry: &Entry<B>,
    took: bool,
) -> Result<(), ScriptFault>
    ensures { Prints result (W.contents writer.old) (W.contents writer.new) out.old.items out.new.items
        (entry_text slot entry.now took) }
{
    put_entry(out, slot, entry, took)?;
    write_full(writer, out)
}

// Writes what a transport was handed.
pub(crate) fn print_handed<W: Write>(
    writer: &mut W,
    out: &mut Vec<u8>,
    transport: Transport,
    says: &[Say],
) -> Result<(), ScriptFault>
    ensures { Prints result (W.contents writer.old) (W.contents writer.new) out.old.items out.new.items
        (handed_text transport (map (λ say. say.out) says.now)) }
{
    for say in says {
        print_said(writer, out, transport, &say.out)?;
    }
    Ok(())
}

fn print_said<W: Write>(
    writer: &mut W,
    out: &mut Vec<u8>,
    transport: Transport,
    said: &Out,
) -> Result<(), ScriptFault>
    ensures { Prints result (W.contents writer.old) (W.contents writer.new) out.old.items out.new.items
        (said_text transport said.now) }
{
    put_said(out, transport, said)?;
    write_full(writer, out)
}
