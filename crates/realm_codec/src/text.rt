//! A message as octets: its written text, after its length.
ghost use Rattle.std.specs.Prelude.{◌≡◌, ◌≢◌, ◌+◌, ◌≤◌, ◌++◌, true, false, Ok, Err, IfOk, IfErr, OnOk, length, take, drop};
ghost use Rattle.command_codec.specs.Coder.{Puts};
ghost use Rattle.std.specs.Str.{bytes_eq};
ghost use Rattle.command_codec.specs.Number.{number_octets};
ghost use Rattle.realm_codec.specs.Parts.{tagged, length_form};
ghost use Rattle.realm_codec.specs.Text.{text_spelling, is_written, text_reading, good_reading};

use command_codec::{CodecFault, Form, take_number};
use std::alloc::Global;
use wamp_message_types::{Message, Read};
use wamp_messages::{read, write, write_into};

/// A text's length: at most 2^32 - 1.
const LENGTH: Form = Form {
    width: 4,
    low: 0,
    high: 4_294_967_295,
};

// Puts a message with its tag: the text directly after room for its length, which is then filled in.
pub(crate) fn put_text(message: &Message, out: &mut Vec<u8>) -> Result<(), CodecFault>
    ensures { Puts result (tagged 0 (text_spelling message.now)) out.old.items out.new.items }
{
    let start = out.len();
    out.extend_from_slice(&[0, 0, 0, 0, 0])?;
    let begin = out.len();
    let Ok(()) = write_into(message, out) else {
        out.truncate(start);
        return Err(CodecFault::Memory);
    };
    let Ok(length) = u32::try_from(out.len() - begin) else {
        out.truncate(start);
        return Err(CodecFault::Range);
    };
    fill_in(out, start + 1, length);
    Ok(())
}

// Puts a text's length over the four octets from `at` on.
fn fill_in(octets: &mut [u8], at: usize, count: u32)
    requires { at + 4 ≤ length octets.old }
    ensures { octets.new ≡ take at octets.old ++ (number_octets length_form count ++ drop (at + 4) octets.old) }
{
    octets[at..at + 4].copy_from_slice(&count.to_be_bytes());
}

// Takes a message, after its tag.
pub(crate) fn take_text(alloc: Global, octets: &[u8]) -> Result<(Read, &[u8]), CodecFault>
    ensures taken { IfOk result (λ read. good_reading octets.now ≡ Ok (read.0, read.1.now)) }
    ensures fault { IfErr result (λ fault. fault ≢ CodecFault.Memory → good_reading octets.now ≡ Err fault) }
{
    let (length, rest) = take_number(LENGTH, octets)?;
    let Some((text, rest)) = rest.split_at_checked(length as usize) else {
        return Err(CodecFault::Short);
    };
    match read_text(alloc, text) {
        Ok(read) => Ok((read, rest)),
        Err(fault) => Err(fault),
    }
}

// Returns what a text is read as, if it is the one that is written of it.
fn read_text(alloc: Global, text: &[u8]) -> Result<Read, CodecFault>
    ensures taken { IfOk result (λ read. text_reading text.now ≡ Ok read) }
    ensures fault { IfErr result (λ fault. fault ≢ CodecFault.Memory → text_reading text.now ≡ Err fault) }
{
    let Ok(read) = read(alloc, text) else {
        return Err(CodecFault::Memory);
    };
    check_written(alloc, &read, text).and(Ok(read))
}

// Checks that what was read is a message whose written text is this one; `Range` if not.
fn check_written(alloc: Global, read: &Read, text: &[u8]) -> Result<(), CodecFault>
    ensures written { OnOk result (is_written text.now read.now ≡ true) }
    ensures fault { IfErr result (λ fault. fault ≢ CodecFault.Memory
        → (fault ≡ CodecFault.Range) × (is_written text.now read.now ≡ false)) }
{
    let Read::Good(message) = read else {
        return Err(CodecFault::Range);
    };
    let Ok(written) = write(alloc, message) else {
        return Err(CodecFault::Memory);
    };
    if is_text(written.as_slice(), text) {
        Ok(())
    } else {
        Err(CodecFault::Range)
    }
}

fn is_text(written: &[u8], text: &[u8]) -> bool
    ensures { result ≡ bytes_eq written.now text.now }
{
    written == text
}
