// Writers of what the layouts of several kinds have in common.
ghost use Rattle.std.specs.Prelude.{◌∷◌, [], OnOk, decimal};
ghost use Rattle.json.specs.Token.{begin_array, number};
ghost use Rattle.serde_json.specs.Data.{string, array, no_items, item};
ghost use Rattle.wamp_values.specs.Args.{IsArgs, args_items};
ghost use Rattle.wamp_values.specs.Tokens.{data_tokens, list_tokens, Appends};
ghost use Rattle.wamp_message_layouts.specs.Parts.{whole};
ghost use Rattle.wamp_messages.specs.Message.{IsId};

use json::Writer;
use std::alloc::AllocError;
use wamp_ids::{Id, Text};
use wamp_message_layouts::{begin, end};
use wamp_values::Args;

// Writes the array's bracket, the message's code and an id.
pub(crate) fn begin_with_id(code: u64, id: Id, out: &mut Writer) -> Result<(), AllocError>
    ensures tokens { Appends result out.old out.new
        (begin_array ∷ number (decimal code) ∷ number (decimal id) ∷ []) }
    ensures parts { OnOk result (IsId id) }
{
    begin(code, out)?;
    out.u64(id.get())
}

// Writes the array's bracket, the message's code and two ids.
pub(crate) fn begin_with_ids(
    code: u64,
    first: Id,
    second: Id,
    out: &mut Writer,
) -> Result<(), AllocError>
    ensures tokens { Appends result out.old out.new
        (begin_array ∷ number (decimal code) ∷ number (decimal first) ∷ number (decimal second) ∷ []) }
    ensures parts { OnOk result (IsId first × IsId second) }
{
    begin_with_id(code, first, out)?;
    out.u64(second.get())
}

// Writes a message of one id.
pub(crate) fn put_id(code: u64, id: Id, out: &mut Writer) -> Result<(), AllocError>
    ensures tokens { Appends result out.old out.new
        (data_tokens (array (item (whole code) (item (whole id) no_items)))) }
    ensures parts { OnOk result (IsId id) }
{
    begin_with_id(code, id, out)?;
    out.end_array()
}

// Writes a message of two ids.
pub(crate) fn put_ids(code: u64, first: Id, second: Id, out: &mut Writer) -> Result<(), AllocError>
    ensures tokens { Appends result out.old out.new
        (data_tokens (array (item (whole code) (item (whole first) (item (whole second) no_items))))) }
    ensures parts { OnOk result (IsId first × IsId second) }
{
    begin_with_ids(code, first, second, out)?;
    out.end_array()
}

// Writes a text, and the bracket that ends the message.
pub(crate) fn end_with_text(text: &Text, out: &mut Writer) -> Result<(), AllocError>
    ensures { Appends result out.old out.new (list_tokens (item (string text.now) no_items)) }
{
    out.string(text.as_str())?;
    out.end_array()
}

// Writes a text, the arguments, and the bracket that ends the message.
pub(crate) fn end_with_args(text: &Text, args: &Args, out: &mut Writer) -> Result<(), AllocError>
    ensures tokens { Appends result out.old out.new
        (list_tokens (item (string text.now) (args_items args.now))) }
    ensures parts { OnOk result (IsArgs args.now) }
{
    out.string(text.as_str())?;
    end(args, out)
}
