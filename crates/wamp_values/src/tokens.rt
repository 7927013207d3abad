// A value as tokens of JSON.
ghost use Rattle.std.specs.Prelude.{◌≡◌, ◌∷◌, [], false};
ghost use Rattle.serde_json.specs.Find.{is_float};
ghost use Rattle.serde_json.specs.Written.{has_float, items_have_float, members_have_float};
ghost use Rattle.serde_json.specs.View.{view, number_view, items_view, members_view};
ghost use Rattle.wamp_values.specs.Tokens.{data_tokens, list_tokens, dict_tokens, number_token, Appends};

use json::Writer;
use serde_json::{Map, Number, Value};
use std::alloc::AllocError;

#[cycle(put)]
#[inline(always)]
pub(crate) fn put(value: &Value, out: &mut Writer) -> Result<(), AllocError>
    requires { has_float (view value.now) ≡ false }
    ensures { Appends result out.old out.new (data_tokens (view value.now)) }
{
    match value {
        Value::Null => out.null(),
        Value::Bool(truth) => out.boolean(*truth),
        Value::Number(number) => put_number(number, out),
        Value::String(text) => out.string(text.as_str()),
        Value::Array(items) => {
            out.begin_array()?;
            put_items(items, out)
        }
        Value::Object(members) => {
            out.begin_object()?;
            put_members(members, out)
        }
    }
}

// Writes the items and the closing bracket.
#[cycle(put)]
#[inline(never)]
fn put_items(items: &Vec<Value>, out: &mut Writer) -> Result<(), AllocError>
    requires { items_have_float (items_view items.now.items) ≡ false }
    ensures { Appends result out.old out.new (list_tokens (items_view items.now.items)) }
{
    for item in items {
        put(item, out)?;
    }
    out.end_array()
}

// Writes the members and the closing brace.
#[cycle(put)]
#[inline(never)]
fn put_members(members: &Map<String, Value>, out: &mut Writer) -> Result<(), AllocError>
    requires { members_have_float (members_view members.now.entries) ≡ false }
    ensures { Appends result out.old out.new (dict_tokens (members_view members.now.entries)) }
{
    for (key, member) in members.iter() {
        out.key(key.as_str())?;
        put(member, out)?;
    }
    out.end_object()
}

fn put_number(number: &Number, out: &mut Writer) -> Result<(), AllocError>
    requires { is_float (number_view number.now) ≡ false }
    ensures { Appends result out.old out.new (number_token (number_view number.now) ∷ []) }
{
    if let Some(whole) = number.as_u64() {
        return out.u64(whole);
    }
    let Some(negative) = number.as_i64() else {
        unreachable!();
    };
    out.i64(negative)
}
