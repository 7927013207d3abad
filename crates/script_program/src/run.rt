// The run of a script, from its octets to the text of a world.
ghost use Rattle.script_program.specs.Run.{Ends, ReadsLines};

use crate::fault::ScriptFault;
use crate::lines::{Line, lines_of};
use crate::player::play;
use crate::reading::read_all;
use crate::text::write_world;
use paxos_packets::Members;
use realm_machine::Limits;
use std::alloc::Global;
use std::io::{Read, Write};

/// Plays a script in a cluster of these members, each of which has a realm of this name with these limits: reads it whole,
/// plays its lines, and writes the text of the world that they lead to.
///
/// Fails with `Line` at the first line that is not an event, with `Read` if a read failed, and with `Reads` after 2^32 reads of up
/// to 64 KiB; nothing is written with these. Fails with `Write` if a write failed, and with `Memory` if memory runs out; what was
/// written with `Memory` is the beginning of the text, or nothing. The text goes through a buffer of 64 KiB. Allocates for the script,
/// its world and what was said in it.
pub fn script_run<R: Read, W: Write>(
    alloc: Global,
    reader: &mut R,
    writer: &mut W,
    members: Members,
    realm: &str,
    limits: Limits,
) -> Result<(), ScriptFault>
    ensures { Ends (record { name = realm.now; limits = limits }) members result (R.remaining reader.old) (R.remaining reader.new)
        (W.contents writer.old) (W.contents writer.new) }
{
    let lines = read_lines(alloc, reader, members)?;
    let played = play(alloc, members, realm, limits, lines.as_slice());
    drop(lines);
    let world = played?;
    let written = write_world(alloc, writer, members, &world);
    drop(world);
    written
}

// Reads all that the reader gives, and returns its lines.
fn read_lines<R: Read>(
    alloc: Global,
    reader: &mut R,
    members: Members,
) -> Result<Vec<Line>, ScriptFault>
    ensures { ReadsLines members result (R.remaining reader.old) (R.remaining reader.new) }
{
    let text = read_all(alloc, reader)?;
    let lines = lines_of(alloc, members, text.as_slice())?;
    Ok(lines)
}
