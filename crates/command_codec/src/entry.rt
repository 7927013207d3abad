// Entries as octets, put and taken (docs/CONSENSUS.md, "Entry bytes").
ghost use Rattle.paxos_packets.specs.declared.entry.Entry.{Entry};
ghost use Rattle.std.specs.Prelude.{◌≡◌, ◌≢◌, [], ◌∷◌, Some, Ok, Err, IfOk, IfErr, MatchResult};
ghost use Rattle.command_codec.specs.Coder.{Puts};
ghost use Rattle.command_codec.specs.Entry.{is_boot_spelled, is_item_spelled, boot_spelling, numbers_spelling, item_spelling};
ghost use Rattle.command_codec.specs.Entry.{entry_spelling, boot_front, item_front, entry_front, entry_reading};

use crate::coder::Coder;
use crate::fault::CodecFault;
use crate::number::{BOOT, NODE, SEQ, TRANSPORT, take_number};
use paxos_packets::Entry;
use std::alloc::Global;

/// Appends the entry's spelling, in time linear in its length.
///
/// Returns `Range` if it has none, since a number is out of its range or the body has no spelling, and `Memory` if memory runs out. After a
/// fault the octets are as they were.
pub fn put_entry<B, C: Coder<B>>(entry: &Entry<B>, out: &mut Vec<u8>) -> Result<(), CodecFault>
    ensures { Puts result (entry_spelling C.spelling entry.now) out.old.items out.new.items }
{
    match entry {
        Entry::Noop => put_noop(out),
        Entry::Boot { node, boot } => put_boot(1, *node, *boot, out),
        Entry::Lost { node, boot } => put_boot(2, *node, *boot, out),
        Entry::Item {
            node,
            boot,
            seq,
            transport,
            body,
        } => put_item::<B, C>(*node, *boot, *seq, *transport, body, out),
    }
}

fn put_noop(out: &mut Vec<u8>) -> Result<(), CodecFault>
    ensures { Puts result (Some (0 ∷ [])) out.old.items out.new.items }
{
    out.push(0)?;
    Ok(())
}

// Returns whether the numbers of a Boot or a Lost have a spelling.
fn is_boot_spelled(node: u8, boot: u64) -> bool
    ensures { result ≡ is_boot_spelled node boot }
{
    NODE.contains(u64::from(node)) && BOOT.contains(boot)
}

// Returns whether an Item's numbers have a spelling.
fn is_item_spelled(node: u8, boot: u64, seq: u64, transport: u32) -> bool
    ensures { result ≡ is_item_spelled node boot seq transport }
{
    is_boot_spelled(node, boot) && SEQ.contains(seq) && TRANSPORT.contains(u64::from(transport))
}

// Appends a Boot or a Lost, by its tag.
fn put_boot(tag: u8, node: u8, boot: u64, out: &mut Vec<u8>) -> Result<(), CodecFault>
    ensures { Puts result (boot_spelling tag node boot) out.old.items out.new.items }
{
    if !is_boot_spelled(node, boot) {
        return Err(CodecFault::Range);
    }
    out.reserve(10)?;
    out.push(tag)?;
    out.extend_from_slice(&node.to_be_bytes())?;
    out.extend_from_slice(&boot.to_be_bytes())?;
    Ok(())
}

fn put_item<B, C: Coder<B>>(
    node: u8,
    boot: u64,
    seq: u64,
    transport: u32,
    body: &B,
    out: &mut Vec<u8>,
) -> Result<(), CodecFault>
    ensures { Puts result (item_spelling node boot seq transport (C.spelling body.now)) out.old.items out.new.items }
{
    let start = out.len();
    put_numbers(node, boot, seq, transport, out)?;
    match C::put(body, out) {
        Ok(()) => Ok(()),
        Err(fault) => {
            out.truncate(start);
            Err(fault)
        },
    }
}

// Appends an Item's tag and its numbers.
fn put_numbers(
    node: u8,
    boot: u64,
    seq: u64,
    transport: u32,
    out: &mut Vec<u8>,
) -> Result<(), CodecFault>
    ensures { Puts result (numbers_spelling node boot seq transport) out.old.items out.new.items }
{
    if !is_item_spelled(node, boot, seq, transport) {
        return Err(CodecFault::Range);
    }
    out.reserve(22)?;
    out.push(3)?;
    out.extend_from_slice(&node.to_be_bytes())?;
    out.extend_from_slice(&boot.to_be_bytes())?;
    out.extend_from_slice(&seq.to_be_bytes())?;
    out.extend_from_slice(&transport.to_be_bytes())?;
    Ok(())
}

// Returns the entry at the head of the octets, and the octets after it.
fn take_front<B, C: Coder<B>>(alloc: Global, octets: &[u8]) -> Result<(Entry<B>, &[u8]), CodecFault>
    ensures taken { IfOk result (λ read. entry_front C.reading octets.now ≡ Ok (read.0, read.1.now)) }
    ensures fault { IfErr result (λ fault. fault ≢ CodecFault.Memory → entry_front C.reading octets.now ≡ Err fault) }
{
    let [tag, rest @ ..] = octets else {
        return Err(CodecFault::Short);
    };
    match *tag {
        0 => Ok((Entry::Noop, rest)),
        1 => {
            let (node, boot, rest) = take_boot(rest)?;
            Ok((Entry::Boot { node, boot }, rest))
        },
        2 => {
            let (node, boot, rest) = take_boot(rest)?;
            Ok((Entry::Lost { node, boot }, rest))
        },
        3 => take_item::<B, C>(alloc, rest),
        _ => Err(CodecFault::Tag),
    }
}

// Reads the node and the boot of a Boot, a Lost or an Item.
fn take_boot(octets: &[u8]) -> Result<(u8, u64, &[u8]), CodecFault>
    ensures { MatchResult result (λ read. boot_front octets.now ≡ Ok ((read.0, read.1), read.2.now))
        (λ fault. boot_front octets.now ≡ Err fault) }
{
    let (node, rest) = take_number(NODE, octets)?;
    let (boot, rest) = take_number(BOOT, rest)?;
    Ok((node as u8, boot, rest))
}

// Reads an Item after its tag.
fn take_item<B, C: Coder<B>>(alloc: Global, octets: &[u8]) -> Result<(Entry<B>, &[u8]), CodecFault>
    ensures taken { IfOk result (λ read. item_front C.reading octets.now ≡ Ok (read.0, read.1.now)) }
    ensures fault { IfErr result (λ fault. fault ≢ CodecFault.Memory → item_front C.reading octets.now ≡ Err fault) }
{
    let (node, boot, rest) = take_boot(octets)?;
    let (seq, rest) = take_number(SEQ, rest)?;
    let (transport, rest) = take_number(TRANSPORT, rest)?;
    let (body, rest) = C::take(alloc, rest)?;
    Ok((
        Entry::Item {
            node,
            boot,
            seq,
            transport: transport as u32,
            body,
        },
        rest,
    ))
}

/// Returns the entry that these octets spell, in time linear in their length.
///
/// Otherwise returns the fault of the first octet that is wrong: `Short` if one is missing, `Tag` for an unknown tag, `Range` for a number
/// at the first octet after which it cannot be in its range, `Rest` for octets after the entry; or the fault that the coder of bodies
/// returns; or `Memory`.
pub fn take_entry<B: Drop, C: Coder<B>>(
    alloc: Global,
    octets: &[u8],
) -> Result<Entry<B>, CodecFault>
    ensures taken { IfOk result (λ entry. entry_reading C.reading octets.now ≡ Ok entry) }
    ensures fault { IfErr result (λ fault. fault ≢ CodecFault.Memory → entry_reading C.reading octets.now ≡ Err fault) }
    ensures spelled { IfOk result (λ entry. entry_spelling C.spelling entry ≡ Some octets.now) }
    ensures read_again { (entry : Entry B) → entry_spelling C.spelling entry ≡ Some octets.now
        → MatchResult result (λ read. read ≡ entry) (λ fault. fault ≡ CodecFault.Memory) }
{
    let (entry, rest) = match take_front::<B, C>(alloc, octets) {
        Ok(front) => front,
        Err(fault) => return Err(fault),
    };
    if rest.is_empty() {
        Ok(entry)
    } else {
        Err(CodecFault::Rest)
    }
}
