// Writes the text of a world: its nodes with their logs, and then what its transports were handed.
ghost use Rattle.std.specs.Prelude.{◌≡◌, List};
ghost use Rattle.paxos_node.specs.declared.event.Event as occurred;
ghost use Rattle.replica_machine.specs.Log.{machine_from};
ghost use Rattle.cluster_world.specs.StandsAt.{StandsAt};
ghost use Rattle.cluster_world.specs.Saving.{played_of};
ghost use Rattle.realm_machine.specs.Config.{Config};
ghost use Rattle.script_program.specs.declared.lines.line.Line as lines;
ghost use Rattle.script_program.specs.Playing.{IsPlayed};
ghost use Rattle.script_program.specs.Printing.{Prints, PrintsSome, WritesSome};
ghost use Rattle.script_program.specs.WorldText.{text_in, nodes_text, told_text, IsTextOf};

use crate::fault::ScriptFault;
use crate::laws::realms_are_handed_out;
use crate::text::page::write_rest;
use crate::text::print::{print_first, print_handed, print_log};
use cluster_world::laws::cuts_are_logs;
use cluster_world::{Handings, World};
use paxos_packets::Members;
use realm_snapshot::KeptRealm;
use replica_machine::Machine;
use std::alloc::Global;
use std::io::Write;

// Writes the text of the world.
pub(crate) fn write_world<W: Write>(
    alloc: Global,
    writer: &mut W,
    members: Members,
    world: &World<KeptRealm>,
) -> Result<(), ScriptFault>
    requires members { world.now.members ≡ members }
    ensures { (config : Config) (ls : List lines.Line) → IsPlayed config members ls world.now →
        WritesSome (IsTextOf config members ls) result (W.contents writer.old) (W.contents writer.new) }
{
    let mut out = Vec::new(alloc);
    print_world(writer, &mut out, members, world)?;
    write_rest(writer, &mut out)
}

fn print_world<W: Write>(
    writer: &mut W,
    out: &mut Vec<u8>,
    members: Members,
    world: &World<KeptRealm>,
) -> Result<(), ScriptFault>
    requires members { world.now.members ≡ members }
    ensures { (config : Config) (ls : List lines.Line) → IsPlayed config members ls world.now →
        PrintsSome (IsTextOf config members ls) result (W.contents writer.old) (W.contents writer.new) out.old.items out.new.items }
{
    // for the proof
    realms_are_handed_out();
    let told = world.handed();
    print_nodes(writer, out, members, world)?;
    print_told(writer, out, told)
}

// Writes the lines of all nodes.
fn print_nodes<M: Machine, W: Write>(
    writer: &mut W,
    out: &mut Vec<u8>,
    members: Members,
    world: &World<M>,
) -> Result<(), ScriptFault>
    requires members { world.now.members ≡ members }
    ensures { (first : M.Content) (es : List (occurred.Event M.Body)) →
        StandsAt M.Body.same M.content M.saved M.loaded (machine_from M.steps first) world.now es →
        Prints result (W.contents writer.old) (W.contents writer.new) out.old.items out.new.items
        (nodes_text members (played_of M.saved (machine_from M.steps first) M.Body.same world.now.members es)) }
{
    for below in 0..members.count() {
        print_node(writer, out, members, world, below + 1)?;
    }
    Ok(())
}

// Writes the lines of one node.
fn print_node<M: Machine, W: Write>(
    writer: &mut W,
    out: &mut Vec<u8>,
    members: Members,
    world: &World<M>,
    node: u8,
) -> Result<(), ScriptFault>
    requires members { world.now.members ≡ members }
    ensures { (first : M.Content) (es : List (occurred.Event M.Body)) →
        StandsAt M.Body.same M.content M.saved M.loaded (machine_from M.steps first) world.now es →
        Prints result (W.contents writer.old) (W.contents writer.new) out.old.items out.new.items
        (text_in (played_of M.saved (machine_from M.steps first) M.Body.same world.now.members es) node) }
{
    // for the proof: what the snapshot of a node stands for
    cuts_are_logs::<M::Body>();
    let _ = members.count();
    let is_up = world.is_up(node);
    print_first(writer, out, node, is_up)?;
    if !is_up {
        return Ok(());
    }
    print_log(
        writer,
        out,
        world.floor(node),
        world.standings(node),
        world.log(node),
    )
}

// Writes what each transport was handed.
fn print_told<'a, W: Write>(
    writer: &mut W,
    out: &mut Vec<u8>,
    told: Handings<'a, KeptRealm>,
) -> Result<(), ScriptFault>
    ensures { Prints result (W.contents writer.old) (W.contents writer.new) out.old.items out.new.items (told_text told.entry) }
{
    for (transport, says) in told {
        print_handed(writer, out, transport, says)?;
    }
    Ok(())
}
