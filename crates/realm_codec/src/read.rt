//! What was read from a client, as octets.
ghost use Rattle.std.specs.Prelude.{◌≡◌, ◌≢◌, Ok, Err, IfOk, IfErr, MatchResult};
ghost use Rattle.command_codec.specs.Coder.{Puts};
ghost use Rattle.realm_codec.specs.Parts.{choice_reading, kind_octet, kinds, quiet_octet, quiets, faults};
ghost use Rattle.wamp_message_types.specs.Fault.{number_of};
ghost use Rattle.realm_codec.specs.Read.{read_spelling, may_be_quiet, unfit_spelling, fault_spelling, read_reading, unfit_reading, fault_reading};

use crate::act::take_id;
use crate::text::{put_text, take_text};
use command_codec::CodecFault;
use std::alloc::Global;
use wamp_ids::Id;
use wamp_message_types::{MessageFault, Read, UnfitKind};

// Puts what was read.
pub(crate) fn put_read(read: &Read, out: &mut Vec<u8>) -> Result<(), CodecFault>
    ensures { Puts result (read_spelling read.now) out.old.items out.new.items }
{
    match read {
        Read::Good(message) => put_text(message, out),
        Read::Unfit {
            kind,
            request,
            quiet,
        } => put_unfit(*kind, *request, *quiet, out),
        Read::Bad(fault) => put_fault(*fault, out),
    }
}

// Returns the octet of a kind, which is its message's code.
fn kind_octet(kind: UnfitKind) -> u8
    ensures { result ≡ kind_octet kind }
{
    match kind {
        UnfitKind::Publish => 16,
        UnfitKind::Subscribe => 32,
        UnfitKind::Register => 64,
        UnfitKind::Call => 48,
        UnfitKind::Cancel => 49,
        UnfitKind::Yield => 70,
    }
}

fn may_be_quiet(kind: UnfitKind, quiet: bool) -> bool
    ensures { result ≡ may_be_quiet kind quiet }
{
    !quiet || kind == UnfitKind::Publish
}

// Puts an unfit request with its tag; only a PUBLISH is quiet.
fn put_unfit(kind: UnfitKind, request: Id, quiet: bool, out: &mut Vec<u8>) -> Result<(), CodecFault>
    ensures { Puts result (unfit_spelling kind request quiet) out.old.items out.new.items }
{
    let number = request.get();
    if !may_be_quiet(kind, quiet) {
        return Err(CodecFault::Range);
    }
    out.reserve(11)?;
    out.push(1)?;
    out.push(kind_octet(kind))?;
    out.extend_from_slice(&number.to_be_bytes())?;
    out.push(u8::from(quiet))?;
    Ok(())
}

// Puts a fault with its tag.
fn put_fault(fault: MessageFault, out: &mut Vec<u8>) -> Result<(), CodecFault>
    ensures { Puts result (fault_spelling fault) out.old.items out.new.items }
{
    out.reserve(2)?;
    out.push(2)?;
    out.push(fault.number())?;
    Ok(())
}

// Takes what was read at the head of the octets; returns it and the octets after it.
pub(crate) fn take_read(alloc: Global, octets: &[u8]) -> Result<(Read, &[u8]), CodecFault>
    ensures taken { IfOk result (λ read. read_reading octets.now ≡ Ok (read.0, read.1.now)) }
    ensures fault { IfErr result (λ fault. fault ≢ CodecFault.Memory → read_reading octets.now ≡ Err fault) }
{
    let [tag, rest @ ..] = octets else {
        return Err(CodecFault::Short);
    };
    match *tag {
        0 => take_text(alloc, rest),
        1 => take_unfit(rest),
        2 => take_fault(rest),
        _ => Err(CodecFault::Tag),
    }
}

// Takes an unfit request, after its tag.
fn take_unfit(octets: &[u8]) -> Result<(Read, &[u8]), CodecFault>
    ensures taken { IfOk result (λ read. unfit_reading octets.now ≡ Ok (read.0, read.1.now)) }
    ensures fault { IfErr result (λ fault. unfit_reading octets.now ≡ Err fault) }
{
    let (kind, rest) = match take_kind(octets) {
        Ok(read) => read,
        Err(fault) => return Err(fault),
    };
    let (request, rest) = match take_id(rest) {
        Ok(read) => read,
        Err(fault) => return Err(fault),
    };
    let (quiet, rest) = match take_quiet(kind, rest) {
        Ok(read) => read,
        Err(fault) => return Err(fault),
    };
    Ok((
        Read::Unfit {
            kind,
            request,
            quiet,
        },
        rest,
    ))
}

fn take_kind(octets: &[u8]) -> Result<(UnfitKind, &[u8]), CodecFault>
    ensures { MatchResult result (λ read. choice_reading kind_octet kinds octets.now ≡ Ok (read.0, read.1.now))
        (λ fault. choice_reading kind_octet kinds octets.now ≡ Err fault) }
{
    let [octet, rest @ ..] = octets else {
        return Err(CodecFault::Short);
    };
    match *octet {
        16 => Ok((UnfitKind::Publish, rest)),
        32 => Ok((UnfitKind::Subscribe, rest)),
        64 => Ok((UnfitKind::Register, rest)),
        48 => Ok((UnfitKind::Call, rest)),
        49 => Ok((UnfitKind::Cancel, rest)),
        70 => Ok((UnfitKind::Yield, rest)),
        _ => Err(CodecFault::Range),
    }
}

fn take_quiet(kind: UnfitKind, octets: &[u8]) -> Result<(bool, &[u8]), CodecFault>
    ensures { MatchResult result (λ read. choice_reading quiet_octet (quiets kind) octets.now ≡ Ok (read.0, read.1.now))
        (λ fault. choice_reading quiet_octet (quiets kind) octets.now ≡ Err fault) }
{
    let [octet, rest @ ..] = octets else {
        return Err(CodecFault::Short);
    };
    match (*octet, kind) {
        (0, _) => Ok((false, rest)),
        (1, UnfitKind::Publish) => Ok((true, rest)),
        _ => Err(CodecFault::Range),
    }
}

// Takes a fault, after its tag.
fn take_fault(octets: &[u8]) -> Result<(Read, &[u8]), CodecFault>
    ensures taken { IfOk result (λ read. fault_reading octets.now ≡ Ok (read.0, read.1.now)) }
    ensures fault { IfErr result (λ fault. fault_reading octets.now ≡ Err fault) }
{
    let (fault, rest) = match take_fault_number(octets) {
        Ok(read) => read,
        Err(fault) => return Err(fault),
    };
    Ok((Read::Bad(fault), rest))
}

fn take_fault_number(octets: &[u8]) -> Result<(MessageFault, &[u8]), CodecFault>
    ensures { MatchResult result (λ read. choice_reading number_of faults octets.now ≡ Ok (read.0, read.1.now))
        (λ fault. choice_reading number_of faults octets.now ≡ Err fault) }
{
    let [octet, rest @ ..] = octets else {
        return Err(CodecFault::Short);
    };
    match *octet {
        21 => Ok((MessageFault::NotJson, rest)),
        22 => Ok((MessageFault::NotArray, rest)),
        23 => Ok((MessageFault::Kind, rest)),
        24 => Ok((MessageFault::Length, rest)),
        25 => Ok((MessageFault::Shape, rest)),
        26 => Ok((MessageFault::IdRange, rest)),
        _ => Err(CodecFault::Range),
    }
}
