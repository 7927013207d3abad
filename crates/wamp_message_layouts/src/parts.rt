// Writers of the parts of messages.
ghost use Rattle.std.specs.Prelude.{◌≡◌, ◌∷◌, [], true, codes, OnOk, Some, decimal};
ghost use Rattle.json.specs.Token.{begin_array, begin_object, end_object, number, string, key, boolean};
ghost use Rattle.serde_json.specs.Data.{string as string_value, boolean as boolean_value};
ghost use Rattle.wamp_values.specs.Args.{IsArgs, args_items};
ghost use Rattle.wamp_values.specs.Tokens.{data_tokens, list_tokens, Appends};
ghost use Rattle.wamp_message_layouts.specs.Keys.{name_of};
ghost use Rattle.wamp_message_layouts.specs.Parts.{nothing, only, told_tokens, flag_told, id_told, text_told, IsToldId};

use crate::keys::Key;
use json::Writer;
use std::alloc::AllocError;
use wamp_ids::{Id, Text};
use wamp_values::Args;

/// Writes the array's bracket and the message's code.
pub fn begin(code: u64, out: &mut Writer) -> Result<(), AllocError>
    ensures { Appends result out.old out.new (begin_array ∷ number (decimal code) ∷ []) }
{
    out.begin_array()?;
    out.u64(code)
}

/// Writes the arguments, and the bracket that ends the message.
#[tactic(auto, using(wamp_values::proofs::Texts::close_args))]
pub fn end(args: &Args, out: &mut Writer) -> Result<(), AllocError>
    ensures tokens { Appends result out.old out.new (list_tokens (args_items args.now)) }
    ensures parts { OnOk result (IsArgs args.now) }
{
    args.put(out)?;
    out.end_array()
}

/// Writes an object up to its first value.
pub fn open(name: &str, out: &mut Writer) -> Result<(), AllocError>
    ensures { Appends result out.old out.new (begin_object ∷ key name.now ∷ []) }
{
    out.begin_object()?;
    out.key(name)
}

/// Writes an object in an object, up to the inner one's first key.
pub fn open_within(name: &str, out: &mut Writer) -> Result<(), AllocError>
    ensures { Appends result out.old out.new (begin_object ∷ key name.now ∷ begin_object ∷ []) }
{
    open(name, out)?;
    out.begin_object()
}

/// Closes two objects.
pub fn close_two(out: &mut Writer) -> Result<(), AllocError>
    ensures { Appends result out.old out.new (end_object ∷ end_object ∷ []) }
{
    out.end_object()?;
    out.end_object()
}

/// Writes an empty dictionary.
pub fn put_nothing(out: &mut Writer) -> Result<(), AllocError>
    ensures { Appends result out.old out.new (data_tokens nothing) }
{
    out.begin_object()?;
    out.end_object()
}

/// Writes a dictionary of one text.
pub fn put_text_option(name: &str, text: &str, out: &mut Writer) -> Result<(), AllocError>
    ensures { Appends result out.old out.new (data_tokens (only name.now (string_value text.now))) }
{
    open(name, out)?;
    out.string(text)?;
    out.end_object()
}

/// Writes a dictionary of one truth value.
pub fn put_flag_option(name: &str, flag: bool, out: &mut Writer) -> Result<(), AllocError>
    ensures { Appends result out.old out.new (data_tokens (only name.now (boolean_value flag))) }
{
    open(name, out)?;
    out.boolean(flag)?;
    out.end_object()
}

/// Writes a feature as announced.
pub fn put_feature(name: &str, out: &mut Writer) -> Result<(), AllocError>
    ensures { Appends result out.old out.new (key name.now ∷ boolean true ∷ []) }
{
    out.key(name)?;
    out.boolean(true)
}

/// Writes a key of a dictionary with the value true, or nothing if `flag` is false.
pub fn put_flag(key: Key, flag: bool, out: &mut Writer) -> Result<(), AllocError>
    ensures { Appends result out.old out.new (told_tokens (name_of key) (flag_told flag)) }
{
    if flag {
        put_feature(key.name(), out)
    } else {
        Ok(())
    }
}

/// Writes a key of a dictionary with this id, or nothing if there is none.
pub fn put_id(key: Key, id: Option<Id>, out: &mut Writer) -> Result<(), AllocError>
    ensures tokens { Appends result out.old out.new (told_tokens (name_of key) (id_told id)) }
    ensures parts { OnOk result (IsToldId id) }
{
    let Some(id) = id else {
        return Ok(());
    };
    put_number(key.name(), id, out)
}

fn put_number(name: &str, id: Id, out: &mut Writer) -> Result<(), AllocError>
    ensures tokens { Appends result out.old out.new (key name.now ∷ number (decimal id) ∷ []) }
    ensures parts { OnOk result (IsToldId (Some id)) }
{
    out.key(name)?;
    out.u64(id.get())
}

/// Writes a key of a dictionary with this text, or nothing if there is none.
pub fn put_text(key: Key, text: &Option<Text>, out: &mut Writer) -> Result<(), AllocError>
    ensures { Appends result out.old out.new (told_tokens (name_of key) (text_told text.now)) }
{
    match text {
        Some(text) => put_string(key.name(), text.as_str(), out),
        None => Ok(()),
    }
}

fn put_string(name: &str, text: &str, out: &mut Writer) -> Result<(), AllocError>
    ensures { Appends result out.old out.new (key name.now ∷ string text.now ∷ []) }
{
    out.key(name)?;
    out.string(text)
}
