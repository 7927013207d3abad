// Writes the text through one buffer.
ghost use Rattle.std.specs.Prelude.{◌≡◌, [], OnOk, OnErr, Err};
ghost use Rattle.std.specs.Io.KnownBytes.{Appends};
ghost use Rattle.script_program.specs.declared.fault.ScriptFault.TheVariants as fault;
ghost use Rattle.script_program.specs.Printing.{Prints, Closes};

use crate::fault::ScriptFault;
use std::io::Write;

// How many octets may wait before they are written.
const FULL: usize = 1 << 16;

// Writes what waits, if it is `FULL` octets or more.
pub(crate) fn write_full<W: Write>(writer: &mut W, out: &mut Vec<u8>) -> Result<(), ScriptFault>
    ensures { Prints result (W.contents writer.old) (W.contents writer.new) out.old.items out.new.items [] }
{
    if out.len() < FULL {
        return Ok(());
    }
    write_out(writer, out)
}

// Writes what waits, and flushes the writer.
pub(crate) fn write_rest<W: Write>(writer: &mut W, out: &mut Vec<u8>) -> Result<(), ScriptFault>
    ensures { Closes result (W.contents writer.old) (W.contents writer.new) out.old.items }
{
    write_out(writer, out)?;
    if writer.flush().is_err() {
        return Err(ScriptFault::Write);
    }
    Ok(())
}

fn write_out<W: Write>(writer: &mut W, out: &mut Vec<u8>) -> Result<(), ScriptFault>
    ensures written { OnOk result (Appends (W.contents writer.old) (W.contents writer.new) out.old.items) }
    ensures empty { OnOk result (out.new.items ≡ []) }
    ensures err { OnErr result (result ≡ Err fault.Write) }
{
    if writer.write_all(out.as_slice()).is_err() {
        return Err(ScriptFault::Write);
    }
    out.clear();
    Ok(())
}
