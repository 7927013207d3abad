// Looks up keys of options and details.
ghost use Rattle.std.specs.Prelude.{◌≡◌, IfOk};
ghost use Rattle.serde_json.specs.View.{view};
ghost use Rattle.wamp_values.specs.Found.{text_at, bool_at, found_map};

use crate::memory::Memory;
use serde_json::Value;
use std::alloc::Global;
use wamp_ids::Text;

/// What a dictionary holds at a key.
#[derive(Clone, Copy, Debug, Drop)]
pub enum Found<T> {
    /// The dictionary has no such key, or the value is no dictionary.
    Absent,
    /// A value of the type that was asked for.
    Is(T),
    /// A value of another type.
    Other,
}

/// Returns the text at this key of a dictionary, borrowed from it (WAMP specification, "Protocol Messages": Options|dict); does not
/// allocate.
pub fn text_at<'a>(options: &'a Value, key: &str) -> Found<&'a str>
    ensures { found_map (λ text. text.now) result ≡ text_at key.now (view options.now) }
{
    let Some(value) = options.get(key) else {
        return Found::Absent;
    };
    match value.as_str() {
        Some(text) => Found::Is(text),
        None => Found::Other,
    }
}

/// Returns a copy of the text at this key of a dictionary. If memory runs out, returns `Memory` and changes nothing.
pub fn text_option(alloc: Global, options: &Value, key: &str) -> Result<Found<Text>, Memory>
    ensures { IfOk result (λ found. found ≡ text_at key.now (view options.now)) }
{
    match text_at(options, key) {
        Found::Absent => Ok(Found::Absent),
        Found::Is(text) => Ok(Found::Is(Text::new(alloc, text)?)),
        Found::Other => Ok(Found::Other),
    }
}

/// Returns the truth value at this key of a dictionary; does not allocate.
pub fn bool_option(options: &Value, key: &str) -> Found<bool>
    ensures { result ≡ bool_at key.now (view options.now) }
{
    let Some(value) = options.get(key) else {
        return Found::Absent;
    };
    match value.as_bool() {
        Some(truth) => Found::Is(truth),
        None => Found::Other,
    }
}
