// Reads the options of a publication from their tokens, without making an object of them.
ghost use Rattle.std.specs.Prelude.{◌≡◌, ◌<◌, length, IfOk, OnOk};
ghost use Rattle.json.specs.Json.{members, value};
ghost use Rattle.serde_json.specs.Data.{Members, no_members, object, put};
ghost use Rattle.serde_json.specs.Read.{of_members, converted};
ghost use Rattle.serde_json.specs.View.{view};
ghost use Rattle.wamp_values.specs.Found.{bool_at};
ghost use Rattle.wamp_messages.specs.Flags.{Tells, truth_of, flag_of};

use crate::parser::{Untaken, value_in};
use json::Reader;
use serde_json::Value;
use std::alloc::Global;
use wamp_values::Found;

// What the options of a publication hold at the two keys that they may have.
#[derive(Clone, Copy, Drop)]
pub(crate) struct Flags {
    pub acknowledge: Found<bool>,
    pub exclude_me: Found<bool>,
}

impl Flags {
    // Returns the flags after this member is added to those that they show.
    #[inline(always)]
    fn with(self, name: &str, member: &Value) -> Flags
        ensures { (ms : Members) → Tells self ms
            → Tells result (put name.now (view member.now) ms) }
    {
        Flags {
            acknowledge: found_with(self.acknowledge, "acknowledge", name, member),
            exclude_me: found_with(self.exclude_me, "exclude_me", name, member),
        }
    }
}

// Returns what is at this key after this member is added to the others.
#[inline(always)]
fn found_with(found: Found<bool>, key: &str, name: &str, member: &Value) -> Found<bool>
    ensures { (ms : Members) → found ≡ bool_at key.now (object ms)
        → result ≡ bool_at key.now (object (put name.now (view member.now) ms)) }
{
    if key == name { truth_of(member) } else { found }
}

#[inline(always)]
fn truth_of(value: &Value) -> Found<bool>
    ensures { result ≡ truth_of (view value.now) }
{
    match value.as_bool() {
        Some(truth) => Found::Is(truth),
        None => Found::Other,
    }
}

// Returns the truth value of a flag, or `missing` if it is absent; `None` if it has another type.
#[inline(always)]
pub(crate) fn flag_of(found: Found<bool>, missing: bool) -> Option<bool>
    ensures { result ≡ flag_of missing found }
{
    match found {
        Found::Absent => Some(missing),
        Found::Is(flag) => Some(flag),
        Found::Other => None,
    }
}

// Reads the flags of an object whose brace was passed, and the object's end. Of members with the same key the last counts.
pub(crate) fn flags_in(
    alloc: Global,
    reader: &mut Reader<'_>,
    depth: usize,
) -> Result<Flags, Untaken>
    ensures value { IfOk result (λ flags. (ms : Members)
        × (converted (λ ms. of_members ms no_members)
        (members (value depth) (length reader.old) reader.old)
        ≡ Some (ms, reader.new))
        × Tells flags ms) }
    ensures shorter { OnOk result (length reader.new < length reader.old) }
{
    let mut flags = Flags {
        acknowledge: Found::Absent,
        exclude_me: Found::Absent,
    };
    'members: while let Some(name) = reader.next_key()? {
        let member = value_in(alloc, reader, depth)?;
        flags = flags.with(name, &member);
        drop(member);
    }
    Ok(flags)
}
