// The keys of options and details, each with the type of its value; what a dictionary holds at them.
ghost use Rattle.std.specs.Prelude.{◌≡◌, option_map};
ghost use Rattle.serde_json.specs.Find.{get};
ghost use Rattle.serde_json.specs.View.{view};
ghost use Rattle.wamp_message_layouts.specs.Keys.{name_of, type_of, has_type, is_typed, are_typed, flag_at, id_at, text_at};

use crate::elements::id_in;
use serde_json::Value;
use wamp_ids::{Id, Text};

/// A key of options or details (WAMP specification, "Progressive Call Results", "Caller Identification", "Pattern-based Registrations" and
/// "Pattern-based Subscriptions").
#[derive(Clone, Copy, Drop)]
pub enum Key {
    Caller,
    DiscloseMe,
    Procedure,
    Progress,
    ReceiveProgress,
    Topic,
}

// The type of the value at a key.
#[derive(Clone, Copy, Drop)]
pub(crate) enum KeyType {
    // A truth value; an absent one is false.
    Flag,
    // An id, or none.
    Id,
    // A text, or none.
    Text,
}

impl Key {
    /// Returns the key as a message has it.
    pub fn name(self) -> &'static str
        ensures { result.now ≡ name_of self }
    {
        match self {
            Key::Caller => "caller",
            Key::DiscloseMe => "disclose_me",
            Key::Procedure => "procedure",
            Key::Progress => "progress",
            Key::ReceiveProgress => "receive_progress",
            Key::Topic => "topic",
        }
    }

    fn value_type(self) -> KeyType
        ensures { result ≡ type_of self }
    {
        match self {
            Key::Caller => KeyType::Id,
            Key::DiscloseMe => KeyType::Flag,
            Key::Procedure => KeyType::Text,
            Key::Progress => KeyType::Flag,
            Key::ReceiveProgress => KeyType::Flag,
            Key::Topic => KeyType::Text,
        }
    }
}

/// Returns whether the dictionary has a value of its type, or none, at each of these keys.
pub fn are_typed(keys: &[Key], details: &Value) -> bool
    ensures { result ≡ are_typed keys.now (view details.now) }
{
    for key in keys {
        if !is_typed(details, *key) {
            return false;
        }
    }
    true
}

fn is_typed(details: &Value, key: Key) -> bool
    ensures { result ≡ is_typed (view details.now) key }
{
    let Some(value) = details.get(key.name()) else {
        return true;
    };
    has_type(key.value_type(), value)
}

fn has_type(value_type: KeyType, value: &Value) -> bool
    ensures { result ≡ has_type value_type (view value.now) }
{
    match value_type {
        KeyType::Flag => value.is_boolean(),
        KeyType::Id => id_in(value).is_some(),
        KeyType::Text => value.is_string(),
    }
}

/// Returns the truth value at this key; false if there is none.
pub fn flag_at(details: &Value, key: Key) -> bool
    ensures { result ≡ flag_at key (view details.now) }
{
    let Some(value) = details.get(key.name()) else {
        return false;
    };
    value.as_bool().unwrap_or(false)
}

/// Returns the id at this key, if there is one.
pub fn id_at(details: &Value, key: Key) -> Option<Id>
    ensures { result ≡ id_at key (view details.now) }
{
    id_in(details.get(key.name())?)
}

/// Takes the text at this key out of the dictionary, if there is one; does not allocate.
pub fn take_text(details: &mut Value, key: Key) -> Option<Text>
    ensures { result ≡ text_at key (view details.old) }
{
    match take_value(details, key.name()) {
        Some(Value::String(text)) => Some(Text::from(text)),
        Some(other) => {
            drop(other);
            None
        }
        None => None,
    }
}

fn take_value(details: &mut Value, name: &str) -> Option<Value>
    ensures { option_map (λ value. view value) result ≡ get name.now (view details.old) }
{
    match details.get_mut(name) {
        Some(value) => Some(value.take()),
        None => None,
    }
}
