// From tokens to a message: the outermost array is read element by element, and no object is made of a publication's options.
ghost use Rattle.std.specs.Prelude.{◌≡◌, ◌<◌, length, Some, IfOk, OnOk};
ghost use Rattle.std.specs.Bool.{OnTrue};
ghost use Rattle.serde_json.specs.Data.{unsigned, number, object, Members};
ghost use Rattle.serde_json.specs.Read.{read as read_text};
ghost use Rattle.serde_json.specs.View.{view};
ghost use Rattle.wamp_message_types.specs.Codes as code;
ghost use Rattle.wamp_messages.specs.Flags.{Tells};
ghost use Rattle.wamp_messages.specs.Outermost.{IsNext, Reads, read_from};
ghost use Rattle.wamp_messages.specs.Reading.{json_read_as};

use crate::flags::{Flags, flags_in};
use crate::parser::{DEPTH, ROOM, Untaken, more_items, value_in};
use crate::publish::read_flagged;
use crate::reading::read_elements;
use json::{Reader, Scratch, Token};
use serde_json::Value;
use serde_json::value::Map;
use std::alloc::Global;
use wamp_message_types::{Read, codes};

// The elements of a message's array.
#[derive(Drop)]
pub(crate) enum Elements {
    // Those after the code of a publication, with an empty object in the place of its options, and what the options say.
    Publication(Vec<Value>, Flags),
    // All, the code first.
    All(Vec<Value>),
}

// Reads the elements of this text, if it is a JSON array whose numbers are all integers of 64 bits.
pub(crate) fn elements_of(
    alloc: Global,
    text: &str,
    scratch: &mut Scratch,
) -> Result<Elements, Untaken>
    ensures { IfOk result (λ found. read_from found ≡ json_read_as (read_text text.now)) }
{
    let mut reader = Reader::new(text, scratch)?;
    let token = reader.next().ok_or(Untaken::Unread)?;
    let Token::BeginArray = token else {
        return Err(Untaken::Unread);
    };
    let first = element(alloc, &mut reader)?;
    let found = elements_behind(alloc, &mut reader, first)?;
    if reader.next().is_some() {
        drop(found);
        return Err(Untaken::Unread);
    }
    Ok(found)
}

// Makes a message of these elements.
#[inline(always)]
pub(crate) fn read_from(found: Elements) -> Read
    ensures { result ≡ read_from found }
{
    match found {
        Elements::Publication(rest, flags) => read_flagged(rest.into_iter(), flags),
        Elements::All(all) => read_elements(all),
    }
}

// Reads the elements that begin with this one, which was read, and the end of their array.
#[inline(always)]
fn elements_behind(
    alloc: Global,
    reader: &mut Reader<'_>,
    first: Value,
) -> Result<Elements, Untaken>
    ensures { IfOk result (λ found. Reads found (view first) reader.old reader.new) }
{
    if is_publication(&first) {
        drop(first);
        return publication(alloc, reader);
    }
    others(alloc, reader, first)
}

#[inline(always)]
fn is_publication(first: &Value) -> bool
    ensures { OnTrue result (view first.now ≡ number (unsigned code.publish)) }
{
    match first.as_u64() {
        Some(number) => number == codes::PUBLISH,
        None => false,
    }
}

#[inline(always)]
fn others(alloc: Global, reader: &mut Reader<'_>, first: Value) -> Result<Elements, Untaken>
    ensures { IfOk result (λ found. Reads found (view first) reader.old reader.new) }
{
    let mut found = Vec::with_capacity(alloc, ROOM)?;
    found.push(first)?;
    let all = more_items(alloc, reader, DEPTH - 1, found)?;
    Ok(Elements::All(all))
}

#[inline(always)]
fn publication(alloc: Global, reader: &mut Reader<'_>) -> Result<Elements, Untaken>
    ensures { IfOk result
        (λ found. Reads found (number (unsigned code.publish)) reader.old reader.new) }
{
    let request = element(alloc, reader)?;
    let flags = options(alloc, reader)?;
    let mut found = Vec::with_capacity(alloc, ROOM)?;
    found.push(request)?;
    found.push(Value::Object(Map::new(alloc)))?;
    let rest = more_items(alloc, reader, DEPTH - 1, found)?;
    Ok(Elements::Publication(rest, flags))
}

// Reads the next element of the outermost array, if there is one.
fn element(alloc: Global, reader: &mut Reader<'_>) -> Result<Value, Untaken>
    ensures value { IfOk result (λ found. IsNext (view found) reader.old reader.new) }
    ensures shorter { OnOk result (length reader.new < length reader.old) }
{
    if reader.take_end_array() {
        return Err(Untaken::Unread);
    }
    let found = value_in(alloc, reader, DEPTH - 1)?;
    Ok(found)
}

// Reads the flags of the next element, if it is an object.
#[inline(always)]
fn options(alloc: Global, reader: &mut Reader<'_>) -> Result<Flags, Untaken>
    ensures value { IfOk result (λ flags. (ms : Members)
        × IsNext (object ms) reader.old reader.new × Tells flags ms) }
    ensures shorter { OnOk result (length reader.new < length reader.old) }
{
    let token = reader.next().ok_or(Untaken::Unread)?;
    let Token::BeginObject = token else {
        return Err(Untaken::Unread);
    };
    let flags = flags_in(alloc, reader, DEPTH - 2)?;
    Ok(flags)
}
