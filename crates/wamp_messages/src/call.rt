// The messages of calls.
ghost use Rattle.std.specs.Prelude.{◌≡◌, false, OnOk};
ghost use Rattle.serde_json.specs.Data.{array, item};
ghost use Rattle.wamp_values.specs.Args.{IsArgs, args_items};
ghost use Rattle.wamp_values.specs.Tokens.{data_tokens, Appends};
ghost use Rattle.wamp_message_layouts.specs.Elements.{elements};
ghost use Rattle.wamp_message_layouts.specs.Layouts.{seen_asked, seen_answered, seen_details};
ghost use Rattle.wamp_message_layouts.specs.Parts.{whole, dictionary_of, IsToldId};
ghost use Rattle.wamp_messages.specs.Message.{IsId};
ghost use Rattle.wamp_messages.specs.Call.{call_in, call_read, call_with, call_value, call_told, cancel_in, cancel_with, cancel_value, cancel_options};
ghost use Rattle.wamp_messages.specs.Call.{call_result_in, call_result_read, call_result_value, progress_told, invocation_in, invocation_read};
ghost use Rattle.wamp_messages.specs.Call.{invocation_value, invocation_told, interrupt_in, interrupt_value};
ghost use Rattle.wamp_messages.specs.Call.{mode_name, mode_options, yield_in, yield_read, yield_with, yield_value};
ghost use Rattle.wamp_message_types.specs.declared.read_result.Read.TheVariants.{Unfit};
ghost use Rattle.wamp_message_types.specs.declared.read_result.UnfitKind.TheVariants as unfit;

use crate::shared::{begin_with_id, begin_with_ids, end_with_args};
use json::Writer;
use serde_json::Value;
use std::alloc::AllocError;
use std::vec::IntoIter;
use wamp_ids::{Id, Mode, Text};
use wamp_message_layouts::{
    Answered, Key, KeyedDetails, UriRequest, are_typed, end, flag_at, id_at, id_dictionary,
    id_dictionary_text_args, id_keys_args, id_mode, put_flag, put_id, put_nothing, put_text,
    put_text_option, take_text, two_ids_keys_args,
};
use wamp_message_types::{
    Call, CallResult, Cancel, Interrupt, Invocation, Message, Read, UnfitKind, Yield, codes,
};
use wamp_values::{Args, mode_in};

// The keys of CALL, of RESULT and YIELD, and of INVOCATION.
const CALL_KEYS: &[Key] = &[Key::DiscloseMe, Key::ReceiveProgress];

const PROGRESS_KEYS: &[Key] = &[Key::Progress];

const INVOCATION_KEYS: &[Key] = &[Key::Caller, Key::Procedure, Key::ReceiveProgress];

// Reads the elements after the code of CALL.
pub(crate) fn read_call(rest: IntoIter<Value>) -> Read
    ensures { result ≡ call_in (elements rest) }
{
    match id_dictionary_text_args(rest) {
        Ok(uri_request) => call_of(uri_request),
        Err(fault) => Read::Bad(fault),
    }
}

fn call_of(uri_request: UriRequest) -> Read
    ensures { result ≡ call_read (seen_asked uri_request) }
{
    let UriRequest {
        request,
        options,
        uri,
        args,
    } = uri_request;
    let is_typed = are_typed(CALL_KEYS, &options);
    let disclose_me = flag_at(&options, Key::DiscloseMe);
    let receive_progress = flag_at(&options, Key::ReceiveProgress);
    drop(options);
    call_with(request, is_typed, disclose_me, receive_progress, uri, args)
}

fn call_with(
    request: Id,
    is_typed: bool,
    disclose_me: bool,
    receive_progress: bool,
    procedure: Text,
    args: Option<Args>,
) -> Read
    ensures { result ≡ call_with request is_typed disclose_me receive_progress procedure args }
{
    if !is_typed {
        drop(procedure);
        drop(args);
        return unfit_call(request);
    }
    let Some(args) = args else {
        drop(procedure);
        return unfit_call(request);
    };
    Read::Good(Message::Call(Call {
        request,
        disclose_me,
        receive_progress,
        procedure,
        args,
    }))
}

fn unfit_call(request: Id) -> Read
    ensures { result ≡ Unfit unfit.Call request false }
{
    Read::Unfit {
        kind: UnfitKind::Call,
        request,
        quiet: false,
    }
}

pub(crate) fn put_call(call: &Call, out: &mut Writer) -> Result<(), AllocError>
    ensures tokens { Appends result out.old out.new (data_tokens (call_value call.now)) }
    ensures parts { OnOk result (IsId call.now.request × IsArgs call.now.args) }
{
    begin_with_id(codes::CALL, call.request, out)?;
    put_call_options(call.disclose_me, call.receive_progress, out)?;
    end_with_args(&call.procedure, &call.args, out)
}

fn put_call_options(
    disclose_me: bool,
    receive_progress: bool,
    out: &mut Writer,
) -> Result<(), AllocError>
    ensures { Appends result out.old out.new
        (data_tokens (dictionary_of (call_told disclose_me receive_progress))) }
{
    out.begin_object()?;
    put_flag(Key::DiscloseMe, disclose_me, out)?;
    put_flag(Key::ReceiveProgress, receive_progress, out)?;
    out.end_object()
}

// Reads the elements after the code of CANCEL.
pub(crate) fn read_cancel(rest: IntoIter<Value>) -> Read
    ensures { result ≡ cancel_in (elements rest) }
{
    match id_dictionary(rest) {
        Ok(numbered) => cancel_of(numbered.id, mode_in(&numbered.details)),
        Err(fault) => Read::Bad(fault),
    }
}

fn cancel_of(request: Id, mode: Option<Mode>) -> Read
    ensures { result ≡ cancel_with request mode }
{
    match mode {
        Some(mode) => Read::Good(Message::Cancel(Cancel { request, mode })),
        None => Read::Unfit {
            kind: UnfitKind::Cancel,
            request,
            quiet: false,
        },
    }
}

pub(crate) fn put_cancel(cancel: Cancel, out: &mut Writer) -> Result<(), AllocError>
    ensures tokens { Appends result out.old out.new (data_tokens (cancel_value cancel)) }
    ensures parts { OnOk result (IsId cancel.request) }
{
    begin_with_id(codes::CANCEL, cancel.request, out)?;
    put_cancel_options(cancel.mode, out)?;
    out.end_array()
}

// Reads the elements after the code of RESULT.
pub(crate) fn read_call_result(rest: IntoIter<Value>) -> Read
    ensures { result ≡ call_result_in (elements rest) }
{
    match id_keys_args(rest, PROGRESS_KEYS, false) {
        Ok(answered) => call_result_of(answered),
        Err(fault) => Read::Bad(fault),
    }
}

fn call_result_of(answered: Answered) -> Read
    ensures { result ≡ call_result_read (seen_answered answered) }
{
    let Answered {
        request,
        details,
        args,
    } = answered;
    let progress = flag_at(&details, Key::Progress);
    drop(details);
    Read::Good(Message::CallResult(CallResult {
        request,
        progress,
        args: args.unwrap_or(Args::Nothing),
    }))
}

pub(crate) fn put_call_result(reply: &CallResult, out: &mut Writer) -> Result<(), AllocError>
    ensures tokens { Appends result out.old out.new (data_tokens (call_result_value reply.now)) }
    ensures parts { OnOk result (IsId reply.now.request × IsArgs reply.now.args) }
{
    put_answer(
        codes::RESULT,
        reply.request,
        reply.progress,
        &reply.args,
        out,
    )
}

// Writes a message of an id, whether more follows, and arguments.
fn put_answer(
    code: u64,
    id: Id,
    progress: bool,
    args: &Args,
    out: &mut Writer,
) -> Result<(), AllocError>
    ensures tokens { Appends result out.old out.new
        (data_tokens (array (item (whole code) (item (whole id)
        (item (dictionary_of (progress_told progress)) (args_items args.now)))))) }
    ensures parts { OnOk result (IsId id × IsArgs args.now) }
{
    begin_with_id(code, id, out)?;
    put_progress(progress, out)?;
    end(args, out)
}

fn put_progress(progress: bool, out: &mut Writer) -> Result<(), AllocError>
    ensures { Appends result out.old out.new (data_tokens (dictionary_of (progress_told progress))) }
{
    out.begin_object()?;
    put_flag(Key::Progress, progress, out)?;
    out.end_object()
}

// Reads the elements after the code of INVOCATION.
pub(crate) fn read_invocation(rest: IntoIter<Value>) -> Read
    ensures { result ≡ invocation_in (elements rest) }
{
    match two_ids_keys_args(rest, INVOCATION_KEYS) {
        Ok(keyed) => invocation_of(keyed),
        Err(fault) => Read::Bad(fault),
    }
}

fn invocation_of(keyed: KeyedDetails) -> Read
    ensures { result ≡ invocation_read (seen_details keyed) }
{
    let KeyedDetails {
        first,
        second,
        details,
        args,
    } = keyed;
    let mut details = details;
    let caller = id_at(&details, Key::Caller);
    let receive_progress = flag_at(&details, Key::ReceiveProgress);
    let procedure = take_text(&mut details, Key::Procedure);
    drop(details);
    Read::Good(Message::Invocation(Invocation {
        request: first,
        registration: second,
        caller,
        procedure,
        receive_progress,
        args,
    }))
}

pub(crate) fn put_invocation(invocation: &Invocation, out: &mut Writer) -> Result<(), AllocError>
    ensures tokens { Appends result out.old out.new (data_tokens (invocation_value invocation.now)) }
    ensures parts { OnOk result (IsId invocation.now.request
        × (IsId invocation.now.registration × (IsToldId invocation.now.caller × IsArgs invocation.now.args))) }
{
    begin_with_ids(
        codes::INVOCATION,
        invocation.request,
        invocation.registration,
        out,
    )?;
    put_invocation_details(
        invocation.caller,
        &invocation.procedure,
        invocation.receive_progress,
        out,
    )?;
    end(&invocation.args, out)
}

fn put_invocation_details(
    caller: Option<Id>,
    procedure: &Option<Text>,
    receive_progress: bool,
    out: &mut Writer,
) -> Result<(), AllocError>
    ensures tokens { Appends result out.old out.new
        (data_tokens (dictionary_of (invocation_told caller procedure.now receive_progress))) }
    ensures parts { OnOk result (IsToldId caller) }
{
    out.begin_object()?;
    put_id(Key::Caller, caller, out)?;
    put_text(Key::Procedure, procedure, out)?;
    put_flag(Key::ReceiveProgress, receive_progress, out)?;
    out.end_object()
}

// Reads the elements after the code of INTERRUPT.
pub(crate) fn read_interrupt(rest: IntoIter<Value>) -> Read
    ensures { result ≡ interrupt_in (elements rest) }
{
    match id_mode(rest) {
        Ok(stopped) => Read::Good(Message::Interrupt(Interrupt {
            request: stopped.request,
            mode: stopped.mode,
        })),
        Err(fault) => Read::Bad(fault),
    }
}

pub(crate) fn put_interrupt(interrupt: Interrupt, out: &mut Writer) -> Result<(), AllocError>
    ensures tokens { Appends result out.old out.new (data_tokens (interrupt_value interrupt)) }
    ensures parts { OnOk result (IsId interrupt.request) }
{
    begin_with_id(codes::INTERRUPT, interrupt.request, out)?;
    put_mode(interrupt.mode, out)?;
    out.end_array()
}

// Reads the elements after the code of YIELD.
pub(crate) fn read_yield(rest: IntoIter<Value>) -> Read
    ensures { result ≡ yield_in (elements rest) }
{
    match id_keys_args(rest, &[], true) {
        Ok(answered) => yield_of(answered),
        Err(fault) => Read::Bad(fault),
    }
}

fn yield_of(answered: Answered) -> Read
    ensures { result ≡ yield_read (seen_answered answered) }
{
    let Answered {
        request,
        details,
        args,
    } = answered;
    let is_typed = are_typed(PROGRESS_KEYS, &details);
    let progress = flag_at(&details, Key::Progress);
    drop(details);
    yield_with(request, is_typed, progress, args)
}

fn yield_with(request: Id, is_typed: bool, progress: bool, args: Option<Args>) -> Read
    ensures { result ≡ yield_with request is_typed progress args }
{
    if !is_typed {
        drop(args);
        return unfit_yield(request);
    }
    match args {
        Some(args) => Read::Good(Message::Yield(Yield {
            request,
            progress,
            args,
        })),
        None => unfit_yield(request),
    }
}

fn unfit_yield(request: Id) -> Read
    ensures { result ≡ Unfit unfit.Yield request false }
{
    Read::Unfit {
        kind: UnfitKind::Yield,
        request,
        quiet: false,
    }
}

pub(crate) fn put_yield(yielded: &Yield, out: &mut Writer) -> Result<(), AllocError>
    ensures tokens { Appends result out.old out.new (data_tokens (yield_value yielded.now)) }
    ensures parts { OnOk result (IsId yielded.now.request × IsArgs yielded.now.args) }
{
    put_answer(
        codes::YIELD,
        yielded.request,
        yielded.progress,
        &yielded.args,
        out,
    )
}

fn put_cancel_options(mode: Mode, out: &mut Writer) -> Result<(), AllocError>
    ensures { Appends result out.old out.new (data_tokens (cancel_options mode)) }
{
    match mode {
        Mode::Skip => put_mode(mode, out),
        Mode::Kill => put_mode(mode, out),
        Mode::KillNoWait => put_nothing(out),
    }
}

fn put_mode(mode: Mode, out: &mut Writer) -> Result<(), AllocError>
    ensures { Appends result out.old out.new (data_tokens (mode_options mode)) }
{
    put_text_option("mode", mode_name(mode), out)
}

fn mode_name(mode: Mode) -> &'static str
    ensures { result.now ≡ mode_name mode }
{
    match mode {
        Mode::Skip => "skip",
        Mode::Kill => "kill",
        Mode::KillNoWait => "killnowait",
    }
}
