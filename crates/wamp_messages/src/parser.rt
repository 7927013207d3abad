// From octets to a JSON value, in a buffer that is reused from text to text.
ghost use Rattle.std.specs.Prelude.{◌≡◌, ◌<◌, ◌≤◌, ◌==◌, ℕ, length, slice_index, true, false, Some, IfSome, IfOk, OnOk, IsTrue, IsUtf8};
ghost use Rattle.json.specs.Json.{value, items, members, parse_map};
ghost use Rattle.serde_json.specs.Data.{no_members};
ghost use Rattle.serde_json.specs.Read.{of_json, of_items, of_members, converted, number_of, number_from};
ghost use Rattle.serde_json.specs.View.{view, number_view, items_view, members_view};
ghost use Rattle.wamp_messages.specs.Outermost.{before, read_from};
ghost use Rattle.wamp_messages.specs.Reading.{read_of};

use crate::outermost::{Elements, elements_of};
use fast_float::Numeral;
use json::{Invalid, Reader, Scratch, Token};
use serde_json::value::Map;
use serde_json::{Number, Value};
use simdutf8::basic::from_utf8;
use std::alloc::{AllocError, AllocFailed, Global};

// How deep a value may nest, as in `serde_json`.
pub(crate) const DEPTH: usize = 127;

// The initial capacity of an array that has an item: a message has at most seven elements.
pub(crate) const ROOM: usize = 8;

/// What reading needs: the allocator, and a buffer that is reused from message to message.
pub struct Parser {
    pub(crate) alloc: Global,
    scratch: Scratch,
}

impl Drop for Parser {
    fn drop(self) {
        let Parser {
            alloc: _,
            scratch: _scratch,
        } = self;
    }
}

// Why a text is not taken here.
#[derive(Clone, Copy, Drop)]
pub(crate) enum Untaken {
    // Memory ran out.
    Memory,
    // It is no JSON array, or has a number that is no integer of 64 bits.
    Unread,
}

impl From<AllocError> for Untaken {
    fn from(_error: AllocError) -> Untaken {
        Untaken::Memory
    }
}

impl<T: Drop> From<AllocFailed<T>> for Untaken {
    fn from(_error: AllocFailed<T>) -> Untaken {
        Untaken::Memory
    }
}

impl From<Invalid> for Untaken {
    fn from(_error: Invalid) -> Untaken {
        Untaken::Unread
    }
}

impl Parser {
    /// Returns a parser that holds 16 KiB in itself; it allocates only when it reads.
    pub fn new(alloc: Global) -> Parser {
        Parser {
            alloc,
            scratch: Scratch::new(alloc),
        }
    }

    // Reads the elements of these octets, if they are a JSON array whose numbers are all integers of 64 bits.
    #[tactic(auto, using(crate::proofs::Json::octets_read))]
    pub(crate) fn elements(&mut self, octets: &[u8]) -> Result<Elements, Untaken>
        ensures { IfOk result (λ found. read_from found ≡ read_of octets.now) }
    {
        let Ok(text) = from_utf8(octets) else {
            return Err(Untaken::Unread);
        };
        let found = elements_of(self.alloc, text, &mut self.scratch)?;
        Ok(found)
    }
}

// Reads the next value, nested no deeper than this.
#[cycle(value_in)]
#[inline(always)]
pub(crate) fn value_in(
    alloc: Global,
    reader: &mut Reader<'_>,
    depth: usize,
) -> Result<Value, Untaken>
    ensures value { IfOk result
        (λ found. converted of_json (value depth reader.old) ≡ Some (view found, reader.new)) }
    ensures shorter { OnOk result (length reader.new < length reader.old) }
{
    let token = reader.next().ok_or(Untaken::Unread)?;
    match token {
        Token::String(text) => Ok(Value::String(String::from_str(alloc, text)?)),
        Token::Number(text) => match integer_in(text) {
            Some(number) => Ok(Value::Number(number)),
            None => Err(Untaken::Unread),
        },
        Token::Bool(truth) => Ok(Value::Bool(truth)),
        Token::Null => Ok(Value::Null),
        Token::EndObject | Token::EndArray | Token::Key(_) | Token::Bad => Err(Untaken::Unread),
        Token::BeginArray => {
            if depth == 0 {
                return Err(Untaken::Unread);
            }
            Ok(Value::Array(items_in(alloc, reader, depth - 1)?))
        }
        Token::BeginObject => {
            if depth == 0 {
                return Err(Untaken::Unread);
            }
            Ok(Value::Object(members_in(alloc, reader, depth - 1)?))
        }
    }
}

// Reads the items of an array whose bracket was passed, and its end.
#[cycle(value_in)]
#[inline(never)]
fn items_in(alloc: Global, reader: &mut Reader<'_>, depth: usize) -> Result<Vec<Value>, Untaken>
    ensures value { IfOk result
        (λ found. converted of_items (items (value depth) (length reader.old) reader.old)
        ≡ Some (items_view found.items, reader.new)) }
    ensures shorter { OnOk result (length reader.new < length reader.old) }
{
    if reader.take_end_array() {
        return Ok(Vec::new(alloc));
    }
    more_items(alloc, reader, depth, Vec::with_capacity(alloc, ROOM)?)
}

// Adds the items that follow these, up to the end of the array.
#[cycle(value_in)]
#[inline(never)]
pub(crate) fn more_items(
    alloc: Global,
    reader: &mut Reader<'_>,
    depth: usize,
    found: Vec<Value>,
) -> Result<Vec<Value>, Untaken>
    ensures value { IfOk result (λ all. (n : ℕ) → length reader.old ≤ n
        → parse_map (before found.items) (converted of_items (items (value depth) n reader.old))
        ≡ Some (items_view all.items, reader.new)) }
    ensures shorter { OnOk result (length reader.new < length reader.old) }
{
    let mut all = found;
    'items: while !reader.take_end_array() {
        let item = value_in(alloc, reader, depth)?;
        all.push(item)?;
    }
    Ok(all)
}

// Reads the members of an object whose brace was passed, and its end. Of members with the same key the last stays.
#[cycle(value_in)]
#[inline(never)]
fn members_in(
    alloc: Global,
    reader: &mut Reader<'_>,
    depth: usize,
) -> Result<Map<String, Value>, Untaken>
    ensures value { IfOk result
        (λ found. converted (λ ms. of_members ms no_members)
        (members (value depth) (length reader.old) reader.old)
        ≡ Some (members_view found.entries, reader.new)) }
    ensures shorter { OnOk result (length reader.new < length reader.old) }
{
    let mut found = Map::new(alloc);
    'members: while let Some(name) = reader.next_key()? {
        let key = String::from_str(alloc, name)?;
        let member = value_in(alloc, reader, depth)?;
        drop(found.insert(key, member)?);
    }
    Ok(found)
}

// Returns the number of a token, if it is an integer of 64 bits.
fn integer_in(text: &str) -> Option<Number>
    ensures { IfSome result (λ number. number_of text.now ≡ Some (number_view number)) }
{
    let octets = text.as_bytes();
    if has_minus(octets) {
        negative_in(&Numeral::scan(&octets[1..]))
    } else {
        positive_in(&Numeral::scan(octets))
    }
}

fn has_minus(octets: &[u8]) -> bool
    ensures test { result ≡ (slice_index octets.now 0 == 45) }
    ensures within { IsTrue result → 0 < length octets.now }
{
    !octets.is_empty() && octets[0] == b'-'
}

fn positive_in(digits: &Numeral<'_>) -> Option<Number>
    ensures { IfSome result (λ number. number_from false digits.now ≡ Some (number_view number)) }
{
    Some(Number::from(digits.to_u64()?))
}

// Returns the negative number with these digits after the sign; `None` for zero, or if an i64 does not hold it.
fn negative_in(digits: &Numeral<'_>) -> Option<Number>
    ensures { IfSome result (λ number. number_from true digits.now ≡ Some (number_view number)) }
{
    let number = digits.to_i64(true)?;
    if number < 0 {
        Some(Number::from(number))
    } else {
        None
    }
}
