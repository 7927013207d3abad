// The comparison of two values.
ghost use Rattle.std.specs.Prelude.{◌≡◌};
ghost use Rattle.serde_json.specs.View.{view, number_view, items_view, members_view};
ghost use Rattle.wamp_values.specs.Equal.{same_data, same_items, same_members, same_num};

use serde_json::{Map, Number, Value};

#[cycle(same)]
pub(crate) fn same_values(first: &Value, second: &Value) -> bool
    ensures { result ≡ same_data (view first.now) (view second.now) }
{
    match first {
        Value::Null => match second {
            Value::Null => true,
            _ => false,
        },
        Value::Bool(a) => match second {
            Value::Bool(b) => *a == *b,
            _ => false,
        },
        Value::Number(a) => match second {
            Value::Number(b) => same_numbers(a, b),
            _ => false,
        },
        Value::String(a) => match second {
            Value::String(b) => a.as_str() == b.as_str(),
            _ => false,
        },
        Value::Array(a) => match second {
            Value::Array(b) => same_lists(a, b),
            _ => false,
        },
        Value::Object(a) => match second {
            Value::Object(b) => same_maps(a, b),
            _ => false,
        },
    }
}

#[cycle(same)]
fn same_lists(first: &Vec<Value>, second: &Vec<Value>) -> bool
    ensures { result ≡ same_items (items_view first.now.items) (items_view second.now.items) }
{
    let mut rest = second.iter();
    for item in first {
        match rest.next() {
            Some(other) => if !same_values(item, other) {
                return false;
            },
            None => return false,
        }
    }
    rest.next().is_none()
}

#[cycle(same)]
fn same_maps(first: &Map<String, Value>, second: &Map<String, Value>) -> bool
    ensures { result ≡ same_members (members_view first.now.entries)
        (members_view second.now.entries) }
{
    let mut rest = second.iter();
    for (key, member) in first.iter() {
        match rest.next() {
            Some((name, other)) => if key.as_str() != name.as_str() || !same_values(member, other) {
                return false;
            },
            None => return false,
        }
    }
    rest.next().is_none()
}

fn same_numbers(first: &Number, second: &Number) -> bool
    ensures { result ≡ same_num (number_view first.now) (number_view second.now) }
{
    match (first.as_u64(), second.as_u64()) {
        (Some(a), Some(b)) => a == b,
        (None, None) => match (first.as_i64(), second.as_i64()) {
            (Some(a), Some(b)) => a == b,
            _ => false,
        },
        _ => false,
    }
}
