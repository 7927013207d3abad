// The run of a script, with the program's limits and faults.
ghost use Rattle.cluster_program.specs.Script.{Plays};

use crate::fault::of_script;
use program_order::Members;
use realm_machine::Limits;
use std::alloc::Global;
use std::io::{Read, Write};
use stream_program::RunFault;

/// Plays a script in a cluster of these members, in the realm of this name: reads it whole, plays its lines, and writes the
/// logs of all nodes and all that transports were sent (docs/SCRIPTS.md).
///
/// Fails with `Line` at the first line that is not an event, with `Memory` if memory runs out, and with `Transport`: 83 if a read
/// failed, 84 if a write failed, 85 after 2^32 reads. With `Line`, 83 and 85 nothing is written; with `Memory` the beginning of the
/// text is, or nothing.
///
/// Reads up to 64 KiB at a time, and writes once 64 KiB wait. Allocates for the script, the world to which it leads and what was said in it, and takes
/// time for its events and deliveries.
pub fn script_run<R: Read, W: Write>(
    alloc: Global,
    reader: &mut R,
    writer: &mut W,
    members: Members,
    realm: &str,
) -> Result<(), RunFault>
    ensures { Plays realm.now members result (R.remaining reader.old) (R.remaining reader.new)
        (W.contents writer.old) (W.contents writer.new) }
{
    match script_program::script_run(alloc, reader, writer, members, realm, Limits::SERVED) {
        Ok(()) => Ok(()),
        Err(fault) => Err(of_script(fault)),
    }
}
