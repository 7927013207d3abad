// Reads a script, all of it before its first line is played.
ghost use Rattle.std.specs.Prelude.{◌≡◌, ◌<◌, length};
ghost use Rattle.script_program.specs.Reading.{ReadsAll, ReadsInto, ReadsOnce};

use crate::fault::ScriptFault;
use std::alloc::Global;
use std::io::Read;

// How many octets one read takes at most.
const CHUNK: usize = 1 << 16;

// How many reads are made at most.
const MOST_READS: u64 = 1 << 32;

// Returns all that the reader gives.
pub(crate) fn read_all<R: Read>(alloc: Global, reader: &mut R) -> Result<Vec<u8>, ScriptFault>
    ensures { ReadsAll result (R.remaining reader.old) (R.remaining reader.new) }
{
    let mut room = vec![in alloc; 0u8; CHUNK]?;
    let mut text = Vec::new(alloc);
    read_into(reader, room.as_mut_slice(), &mut text)?;
    Ok(text)
}

// Appends all that the reader gives to the text, by reads into the chunk.
fn read_into<R: Read>(
    reader: &mut R,
    chunk: &mut [u8],
    text: &mut Vec<u8>,
) -> Result<(), ScriptFault>
    requires room { 0 < length chunk.old }
    ensures { ReadsInto result (R.remaining reader.old) (R.remaining reader.new) text.old.items text.new.items }
{
    for _read in 0..MOST_READS {
        if !read_once(reader, chunk, text)? {
            return Ok(());
        }
    }
    Err(ScriptFault::Reads)
}

// Appends what one read gives to the text. Returns whether there may be more.
fn read_once<R: Read>(
    reader: &mut R,
    chunk: &mut [u8],
    text: &mut Vec<u8>,
) -> Result<bool, ScriptFault>
    requires room { 0 < length chunk.old }
    ensures room { length chunk.new ≡ length chunk.old }
    ensures reads { ReadsOnce result (R.remaining reader.old) (R.remaining reader.new) text.old.items text.new.items }
{
    match reader.read(chunk) {
        Ok(0) => Ok(false),
        Ok(count) => {
            text.extend_from_slice(&chunk[..count])?;
            Ok(true)
        }
        Err(_) => Err(ScriptFault::Read),
    }
}
