// Readers of the elements of a message's array. They are moved out one after another; none is copied.
ghost use Rattle.std.specs.Prelude.{◌≡◌, ◌&&◌, MatchOption, false, if◌then◌else◌};
ghost use Rattle.serde_json.specs.Data.{no_items, item};
ghost use Rattle.serde_json.specs.View.{view};
ghost use Rattle.wamp_message_layouts.specs.Elements.{elements, is_one, is_two, is_three, has_two, has_three, has_four};
ghost use Rattle.wamp_message_layouts.specs.Elements.{args_given, is_list, is_dictionary, is_whole, id_in, kind_in};
ghost use Rattle.wamp_message_layouts.specs.declared.elements.Given.TheVariants.{Misshapen, Fit};
ghost use Rattle.wamp_values.specs.declared.args.Args.TheVariants.{Both};

use serde_json::Value;
use std::vec::IntoIter;
use wamp_ids::Id;
use wamp_message_types::RequestKind;
use wamp_values::{Args, Arguments, ArgumentsKw, Payload};

// What a message has at its end, in the place of arguments.
#[derive(Drop)]
pub(crate) enum Given {
    // More elements than a list and a dictionary.
    TooMany,
    // No list, or no dictionary.
    Misshapen,
    // Some number is not kept exactly.
    Inexact,
    Fit(Args),
}

// Takes the one element that is left; `None` if there is none, or more than one.
pub(crate) fn exactly_one(mut rest: IntoIter<Value>) -> Option<Value>
    ensures { MatchOption result (is_one (elements rest) ≡ false)
        (λ only. elements rest ≡ item (view only) no_items) }
{
    let first = rest.next()?;
    if let Some(more) = rest.next() {
        drop((first, more));
        return None;
    }
    Some(first)
}

// Takes the two elements that are left; `None` if there are fewer or more.
pub(crate) fn exactly_two(mut rest: IntoIter<Value>) -> Option<(Value, Value)>
    ensures { MatchOption result (is_two (elements rest) ≡ false)
        (λ all. elements rest ≡ item (view all.0) (item (view all.1) no_items)) }
{
    let first = rest.next()?;
    let Some(second) = rest.next() else {
        drop(first);
        return None;
    };
    if let Some(more) = rest.next() {
        drop((first, second, more));
        return None;
    }
    Some((first, second))
}

// Takes the three elements that are left; `None` if there are fewer or more.
pub(crate) fn exactly_three(mut rest: IntoIter<Value>) -> Option<(Value, Value, Value)>
    ensures { MatchOption result (is_three (elements rest) ≡ false)
        (λ all. elements rest ≡ item (view all.0) (item (view all.1) (item (view all.2) no_items))) }
{
    let first = rest.next()?;
    let Some(second) = rest.next() else {
        drop(first);
        return None;
    };
    let Some(third) = rest.next() else {
        drop((first, second));
        return None;
    };
    if let Some(more) = rest.next() {
        drop(more);
        drop((first, second, third));
        return None;
    }
    Some((first, second, third))
}

// Takes the next two elements.
pub(crate) fn two(rest: &mut IntoIter<Value>) -> Option<(Value, Value)>
    ensures { MatchOption result (has_two (elements rest.old) ≡ false)
        (λ some. elements rest.old ≡ item (view some.0) (item (view some.1) (elements rest.new))) }
{
    let first = rest.next()?;
    let second = rest.next()?;
    Some((first, second))
}

// Takes the next three elements.
#[inline(always)]
pub(crate) fn three(rest: &mut IntoIter<Value>) -> Option<(Value, Value, Value)>
    ensures { MatchOption result (has_three (elements rest.old) ≡ false)
        (λ some. elements rest.old
        ≡ item (view some.0) (item (view some.1) (item (view some.2) (elements rest.new)))) }
{
    let first = rest.next()?;
    let second = rest.next()?;
    let third = rest.next()?;
    Some((first, second, third))
}

// Takes the next four elements.
pub(crate) fn four(rest: &mut IntoIter<Value>) -> Option<(Value, Value, Value, Value)>
    ensures { MatchOption result (has_four (elements rest.old) ≡ false)
        (λ some. elements rest.old
        ≡ item (view some.0)
        (item (view some.1) (item (view some.2) (item (view some.3) (elements rest.new))))) }
{
    let first = rest.next()?;
    let Some(second) = rest.next() else {
        drop(first);
        return None;
    };
    let Some(third) = rest.next() else {
        drop((first, second));
        return None;
    };
    let Some(fourth) = rest.next() else {
        drop((first, second, third));
        return None;
    };
    Some((first, second, third, fourth))
}

// Takes the elements that are left, as arguments.
#[inline(always)]
pub(crate) fn arguments(mut rest: IntoIter<Value>) -> Given
    ensures { result ≡ args_given (elements rest) }
{
    let Some(list) = rest.next() else {
        return Given::Fit(Args::Nothing);
    };
    let Some(dictionary) = rest.next() else {
        return listed(list);
    };
    if let Some(more) = rest.next() {
        drop((list, dictionary, more));
        return Given::TooMany;
    }
    both(list, dictionary)
}

#[inline(always)]
fn listed(list: Value) -> Given
    ensures { result ≡ args_given (item (view list) no_items) }
{
    if !list.is_array() {
        drop(list);
        return Given::Misshapen;
    }
    let Ok(payload) = Payload::check(list) else {
        return Given::Inexact;
    };
    match Arguments::of(payload) {
        Some(list) => Given::Fit(Args::List(list)),
        None => Given::Misshapen,
    }
}

fn both(list: Value, dictionary: Value) -> Given
    ensures { result ≡ args_given (item (view list) (item (view dictionary) no_items)) }
{
    if !list.is_array() || !dictionary.is_object() {
        drop((list, dictionary));
        return Given::Misshapen;
    }
    let Ok(list) = Payload::check(list) else {
        drop(dictionary);
        return Given::Inexact;
    };
    let Ok(dictionary) = Payload::check(dictionary) else {
        drop(list);
        return Given::Inexact;
    };
    both_fit(list, dictionary)
}

// Returns two payloads as arguments, if they are a list and a dictionary.
fn both_fit(list: Payload, dictionary: Payload) -> Given
    ensures { result ≡ (if is_list list && is_dictionary dictionary then Fit (Both list dictionary) else Misshapen) }
{
    let Some(list) = Arguments::of(list) else {
        drop(dictionary);
        return Given::Misshapen;
    };
    let Some(dictionary) = ArgumentsKw::of(dictionary) else {
        drop(list);
        return Given::Misshapen;
    };
    Given::Fit(Args::Both(list, dictionary))
}

pub(crate) fn is_whole(value: &Value) -> bool
    ensures { result ≡ is_whole (view value.now) }
{
    value.is_number() && !value.is_f64()
}

pub(crate) fn id_in(value: &Value) -> Option<Id>
    ensures { result ≡ id_in (view value.now) }
{
    Id::new(value.as_u64()?)
}

// Returns the kind of request whose code the element is.
pub(crate) fn kind_in(value: &Value) -> Option<RequestKind>
    ensures { result ≡ kind_in (view value.now) }
{
    RequestKind::of_code(value.as_u64()?)
}
