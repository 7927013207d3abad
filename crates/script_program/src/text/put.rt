// Appends the lines of a text to a buffer. If memory runs out, the buffer ends with the beginning of the line.
ghost use Rattle.std.specs.Prelude.{◌≡◌, ◌++◌, ◌∷◌, [], List, ◌<◌, ◌^◌, length, codes, OnOk};
ghost use Rattle.std.specs.Fmt.{decimal};
ghost use Rattle.script_program.specs.Text.{numbers_text, named_text, entry_text, floor_text, first_text, effect_text, out_text, said_text};

use itoa::Buffer;
use paxos_packets::{Entry, Memory, Transport};
use realm_machine::Out;
use wamp_messages::write_into;

// Appends the line of a log's entry in this slot, with whether it took effect.
pub(crate) fn put_entry<B>(
    out: &mut Vec<u8>,
    slot: u64,
    entry: &Entry<B>,
    took: bool,
) -> Result<(), Memory>
    ensures { OnOk result (out.new.items ≡ out.old.items ++ entry_text slot entry.now took) }
{
    match entry {
        Entry::Noop => {
            put_number(out, slot)?;
            out.extend_from_slice(b" noop\n")?;
            Ok(())
        }
        Entry::Boot { node, boot } => {
            put_named(out, slot, " boot", &[u64::from(*node), *boot], took)
        }
        Entry::Lost { node, boot } => {
            put_named(out, slot, " lost", &[u64::from(*node), *boot], took)
        }
        Entry::Item {
            node,
            boot,
            seq,
            transport,
            ..
        } => {
            let numbers = [u64::from(*node), *boot, *seq, u64::from(*transport)];
            put_named(out, slot, " item", &numbers, took)
        }
    }
}

// Appends the line of a node's floor, if there is one.
pub(crate) fn put_floor(out: &mut Vec<u8>, floor: u64) -> Result<(), Memory>
    ensures { OnOk result (out.new.items ≡ out.old.items ++ floor_text floor) }
{
    if floor == 0 {
        return Ok(());
    }
    put_number(out, floor)?;
    out.extend_from_slice(b" snapshot\n")?;
    Ok(())
}

// Appends the first line of a node.
pub(crate) fn put_node(out: &mut Vec<u8>, node: u8, is_up: bool) -> Result<(), Memory>
    ensures { OnOk result (out.new.items ≡ out.old.items ++ first_text node is_up) }
{
    out.extend_from_slice(b"node")?;
    put_numbers(out, &[u64::from(node)])?;
    out.extend_from_slice(if is_up {
        b" up\n".as_slice()
    } else {
        b" down\n".as_slice()
    })?;
    Ok(())
}

// Appends the line of what a transport was sent.
pub(crate) fn put_said(out: &mut Vec<u8>, transport: Transport, said: &Out) -> Result<(), Memory>
    ensures { OnOk result (out.new.items ≡ out.old.items ++ said_text transport said.now) }
{
    out.extend_from_slice(b"to")?;
    let numbers = [
        u64::from(transport.node),
        transport.boot,
        u64::from(transport.number),
    ];
    put_numbers(out, &numbers)?;
    out.push(b' ')?;
    put_out(out, said)?;
    out.push(b'\n')?;
    Ok(())
}

fn put_out(out: &mut Vec<u8>, said: &Out) -> Result<(), Memory>
    ensures { OnOk result (out.new.items ≡ out.old.items ++ out_text said.now) }
{
    match said {
        Out::Send(message) => match write_into(message, out) {
            Ok(()) => Ok(()),
            Err(_) => Err(Memory),
        },
        Out::Close => {
            out.extend_from_slice(b"close")?;
            Ok(())
        }
    }
}

fn put_named(
    out: &mut Vec<u8>,
    slot: u64,
    name: &str,
    numbers: &[u64],
    took: bool,
) -> Result<(), Memory>
    ensures { OnOk result (out.new.items ≡ out.old.items ++ named_text slot name.now numbers.now took) }
{
    put_number(out, slot)?;
    out.extend_from_slice(name.as_bytes())?;
    put_numbers(out, numbers)?;
    out.extend_from_slice(effect_of(took).as_bytes())?;
    out.push(b'\n')?;
    Ok(())
}

fn effect_of(took: bool) -> &'static str
    ensures { result.now ≡ effect_text took }
{
    if took { " took" } else { " skipped" }
}

// Appends each number after a space.
fn put_numbers(out: &mut Vec<u8>, numbers: &[u64]) -> Result<(), Memory>
    ensures { OnOk result (out.new.items ≡ out.old.items ++ numbers_text numbers.now) }
{
    for number in numbers {
        out.push(b' ')?;
        put_number(out, *number)?;
    }
    Ok(())
}

fn put_number(out: &mut Vec<u8>, number: u64) -> Result<(), Memory>
    ensures { OnOk result (out.new.items ≡ out.old.items ++ decimal number) }
{
    let mut buffer = Buffer::new();
    out.extend_from_slice(buffer.format(number).as_bytes())?;
    Ok(())
}
