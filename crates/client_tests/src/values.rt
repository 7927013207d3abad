// Rows on payloads: which numbers and depths are taken, and the text that is written.
use crate::check::Check;
use json::Writer;
use serde_json::Value;
use std::alloc::Global;
use std::process::Abort;
use test_checks::{check, check_eq};
use wamp_ids::Text;
use wamp_values::{
    Args, Arguments, ArgumentsKw, Found, Memory, Payload, ValueFault, bool_option, text_at,
    text_option,
};

// Returns `inside` within `depth` arrays, or objects.
fn nested(
    rt: &impl Abort,
    alloc: Global,
    open: &str,
    inside: &str,
    close: &str,
    depth: usize,
) -> Value {
    let mut text = String::new(alloc);
    for _level in 0..depth {
        text.push_str(open).expect(rt, "room for a text");
    }
    text.push_str(inside).expect(rt, "room for a text");
    for _level in 0..depth {
        text.push_str(close).expect(rt, "room for a text");
    }
    value(rt, alloc, text.as_str())
}

fn value(rt: &impl Abort, alloc: Global, text: &str) -> Value {
    Value::from_str(alloc, text).expect(rt, "a value")
}

fn payload(rt: &impl Abort, alloc: Global, text: &str) -> Payload {
    Payload::check(value(rt, alloc, text)).expect(rt, "a payload")
}

// Returns the number of the fault, or 0 if the value is a payload.
fn fault_of(value: Value) -> u8 {
    match Payload::check(value) {
        Ok(_) => 0,
        Err(fault) => fault.number(),
    }
}

fn fault_in(rt: &impl Abort, alloc: Global, text: &str) -> u8 {
    fault_of(value(rt, alloc, text))
}

// A text, and the number of its fault, or 0.
const NUMBERS: &[(&str, u8)] = &[
    ("0", 0),
    ("18446744073709551615", 0),
    ("-9223372036854775808", 0),
    ("[{\"a\":-1}]", 0),
    ("\"1.5\"", 0),
    ("1.5", 11),
    ("1.0", 11),
    ("-0", 11),
    ("1e2", 11),
    ("18446744073709551616", 11),
    ("-9223372036854775809", 11),
    ("[{\"a\":[0.5]}]", 11),
];

#[test]
fn numbers_are_i64_or_u64(rt: HostRuntime) {
    for (text, number) in NUMBERS {
        check!(&rt; fault_in(&rt, rt.alloc(), text) == *number, text);
    }
}

fn fault_nested(
    rt: &impl Abort,
    alloc: Global,
    open: &str,
    inside: &str,
    close: &str,
    depth: usize,
) -> u8 {
    fault_of(nested(rt, alloc, open, inside, close, depth))
}

// What opens and closes a level, and what is inside, how deep, and the number of the fault, or 0.
const DEPTHS: &[(&str, &str, &str, usize, u8)] = &[
    ("[", "0", "]", 126, 0),
    ("[", "0", "]", 127, 13),
    ("[", "1.5", "]", 127, 11),
    ("{\"a\":", "0", "}", 126, 0),
    ("{\"a\":", "0", "}", 127, 13),
    ("{\"a\":", "1.5", "}", 127, 11),
];

#[test]
fn nests_at_most_126_deep(rt: HostRuntime) {
    for (open, inside, close, depth, number) in DEPTHS {
        let given = fault_nested(&rt, rt.alloc(), open, inside, close, *depth);
        check!(&rt; given == *number, (open, inside, depth));
    }
}

#[test]
fn faults_have_numbers(rt: HostRuntime) {
    check_eq!(&rt; ValueFault::Number.number(), 11);
    check_eq!(&rt; ValueFault::Deep.number(), 13);
    check_eq!(&rt; ValueFault::Memory.number(), 12);
    check_eq!(&rt; Memory.number(), 12);
}

// Whether the payload is written as this text.
fn is_text_of(rt: &impl Abort, alloc: Global, payload: &Payload, text: &str) -> bool {
    let mut out = Vec::new(alloc);
    payload.write_into(&mut out).expect(rt, "room for a text");
    out.as_slice() == text.as_bytes()
}

// Appends the payload that this text is of.
fn append(rt: &impl Abort, alloc: Global, text: &str, out: &mut Vec<u8>) {
    payload(rt, alloc, text)
        .write_into(out)
        .expect(rt, "room for a text");
}

// Whether that payload is written so, at the end of what is there.
fn is_appended(rt: &impl Abort, alloc: Global, text: &str, written: &str) -> bool {
    let mut out = Vec::from_slice(alloc, b"a,").expect(rt, "room for a text");
    append(rt, alloc, text, &mut out);
    out.as_slice().strip_prefix(b"a,") == Some(written.as_bytes())
}

// A text, and what is written of it.
const TEXTS: &[(&str, &str)] = &[
    (
        "[ null , true , false , -5 , 18446744073709551615 ]",
        "[null,true,false,-5,18446744073709551615]",
    ),
    (
        "{\"b\":1,\"a\":{},\"b\":[[]],\"\":\"x\"}",
        "{\"\":\"x\",\"a\":{},\"b\":[[]]}",
    ),
    (
        "{\"\\uffff\":0,\"\\ud800\\udc00\":1,\"\\u00e9\":2}",
        "{\"\u{e9}\":2,\"\u{ffff}\":0,\"\u{10000}\":1}",
    ),
    (
        "\"\\u0022\\u005c\\u002f\\u0008\\u0009\\u000a\\u000c\\u000d\\u0001\\u001F\\u007f\\u00e9\"",
        "\"\\\"\\\\/\\b\\t\\n\\f\\r\\u0001\\u001f\u{7f}\u{e9}\"",
    ),
    ("{\"a\\u0000\":0}", "{\"a\\u0000\":0}"),
];

#[test]
fn writes_compact_text(rt: HostRuntime) {
    for (text, written) in TEXTS {
        check!(&rt; is_appended(&rt, rt.alloc(), text, written), text);
    }
}

// Whether the first is the same as the second, and the second as the first.
fn are_same(rt: &impl Abort, alloc: Global, one: &Payload, text: &str) -> (bool, bool) {
    let other = payload(rt, alloc, text);
    (one.same(&other), other.same(one))
}

fn copied(rt: &impl Abort, alloc: Global, text: &str) -> Payload {
    payload(rt, alloc, text)
        .copy()
        .expect(rt, "room for a copy")
}

const COPIED: &str = "{\"a\":[1,\"x\",null],\"b\":true}";

// Another text, and whether its payload is the same.
const OTHERS: &[(&str, bool)] = &[
    (COPIED, true),
    ("{\"a\":[1,\"x\",null],\"c\":true}", false),
    ("{\"a\":[1,\"x\"],\"b\":true}", false),
    ("{\"a\":[1,\"x\",null]}", false),
    ("null", false),
];

fn is_copy(rt: &impl Abort, alloc: Global, copy: &Payload) {
    for (text, same) in OTHERS {
        check!(rt; are_same(rt, alloc, copy, text) == (*same, *same), text);
    }
    check!(rt; is_text_of(rt, alloc, copy, COPIED));
}

#[test]
fn a_copy_is_equal(rt: HostRuntime) {
    let copy = copied(&rt, rt.alloc(), COPIED);
    is_copy(&rt, rt.alloc(), &copy);
}

const OPTIONS: &str = "{\"match\":\"prefix\",\"acknowledge\":true}";

fn text_of(found: &Found<Text>) -> &str {
    match found {
        Found::Is(text) => text.as_str(),
        Found::Other => "other",
        Found::Absent => "absent",
    }
}

fn is_found(rt: &impl Abort, alloc: Global, options: &Value, key: &str, want: &str) -> bool {
    let found = text_option(alloc, options, key).expect(rt, "room for a text");
    text_of(&found) == want
}

fn texts_are_found(rt: &impl Abort, alloc: Global, options: &Value) {
    check!(rt; is_found(rt, alloc, options, "match", "prefix"));
    check!(rt; is_found(rt, alloc, options, "acknowledge", "other"));
    check!(rt; is_found(rt, alloc, options, "none", "absent"));
}

#[test]
fn finds_texts(rt: HostRuntime) {
    let options = value(&rt, rt.alloc(), OPTIONS);
    texts_are_found(&rt, rt.alloc(), &options);
}

fn text_found<'a>(options: &'a Value, key: &str) -> &'a str {
    match text_at(options, key) {
        Found::Is(text) => text,
        Found::Other => "other",
        Found::Absent => "absent",
    }
}

fn bool_found(options: &Value, key: &str) -> &'static str {
    match bool_option(options, key) {
        Found::Is(true) => "true",
        Found::Is(false) => "false",
        Found::Other => "other",
        Found::Absent => "absent",
    }
}

// A key, and what is found there as a text, and as a truth value.
const KEYS: &[(&str, &str, &str)] = &[
    ("match", "prefix", "other"),
    ("acknowledge", "other", "true"),
    ("none", "absent", "absent"),
];

fn options_are_found(rt: &impl Abort, options: &Value) {
    for (key, text, truth) in KEYS {
        check!(rt; text_found(options, key) == *text, key);
        check!(rt; bool_found(options, key) == *truth, key);
    }
}

#[test]
fn finds_options(rt: HostRuntime) {
    let options = value(&rt, rt.alloc(), OPTIONS);
    options_are_found(&rt, &options);
}

fn list(rt: &impl Abort, alloc: Global, text: &str) -> Arguments {
    Arguments::of(payload(rt, alloc, text)).expect(rt, "an array")
}

fn dict(rt: &impl Abort, alloc: Global, text: &str) -> ArgumentsKw {
    ArgumentsKw::of(payload(rt, alloc, text)).expect(rt, "an object")
}

fn is_copied(rt: &impl Abort, args: &Args) -> bool {
    let copy = args.copy().expect(rt, "room for a copy");
    args.same(&copy)
}

// Whether these arguments end a message of the code 36 as this text.
fn is_written(rt: &impl Abort, alloc: Global, args: &Args, text: &str) -> bool {
    let mut out = Writer::new(Vec::new(alloc));
    out.begin_array().expect(rt, "room for a text");
    out.u64(36).expect(rt, "room for a text");
    args.put(&mut out).expect(rt, "room for a text");
    out.end_array().expect(rt, "room for a text");
    out.into_inner().as_slice() == text.as_bytes()
}

#[test]
fn arguments_are_an_array_and_an_object(rt: HostRuntime) {
    check!(&rt; Arguments::of(payload(&rt, rt.alloc(), "{}")).is_none());
    check!(&rt; ArgumentsKw::of(payload(&rt, rt.alloc(), "[]")).is_none());
}

fn list_is_copied(rt: &impl Abort, alloc: Global, text: &str) -> bool {
    let list = list(rt, alloc, text);
    let copied = list.copy().map(|copy| list.same(&copy));
    drop(list);
    copied.expect(rt, "room for a copy")
}

fn dict_is_copied(rt: &impl Abort, alloc: Global, text: &str) -> bool {
    let dict = dict(rt, alloc, text);
    let copied = dict.copy().map(|copy| dict.same(&copy));
    drop(dict);
    copied.expect(rt, "room for a copy")
}

fn list_is_shared(rt: &impl Abort, alloc: Global, text: &str) -> bool {
    let mut list = list(rt, alloc, text);
    let shared = list.share();
    let copied = list.copy().map(|copy| list.same(&copy));
    drop(list);
    shared.expect(rt, "room to share it");
    copied.expect(rt, "room for a copy")
}

fn dict_is_shared(rt: &impl Abort, alloc: Global, text: &str) -> bool {
    let mut dict = dict(rt, alloc, text);
    let shared = dict.share();
    let copied = dict.copy().map(|copy| dict.same(&copy));
    drop(dict);
    shared.expect(rt, "room to share it");
    copied.expect(rt, "room for a copy")
}

#[test]
fn arguments_are_shared(rt: HostRuntime) {
    check!(&rt; list_is_shared(&rt, rt.alloc(), "[\"hi\"]"));
    check!(&rt; list_is_shared(&rt, rt.alloc(), "[]"));
    check!(&rt; dict_is_shared(&rt, rt.alloc(), "{\"a\":1}"));
    check!(&rt; dict_is_shared(&rt, rt.alloc(), "{}"));
}

#[test]
fn arguments_are_copied(rt: HostRuntime) {
    check!(&rt; list_is_copied(&rt, rt.alloc(), "[\"hi\"]"));
    check!(&rt; list_is_copied(&rt, rt.alloc(), "[]"));
    check!(&rt; dict_is_copied(&rt, rt.alloc(), "{\"a\":1}"));
    check!(&rt; dict_is_copied(&rt, rt.alloc(), "{}"));
}

#[test]
fn no_arguments_end_a_message(rt: HostRuntime) {
    check!(&rt; is_written(&rt, rt.alloc(), &Args::Nothing, "[36]"));
}

fn alone(rt: &impl Abort, alloc: Global) -> Args {
    Args::List(list(rt, alloc, "[\"hi\"]"))
}

fn is_alone(rt: &impl Abort, alloc: Global, alone: &Args) {
    check!(rt; is_written(rt, alloc, alone, "[36,[\"hi\"]]"));
    check!(rt; !alone.same(&Args::Nothing));
}

#[test]
fn a_list_ends_a_message(rt: HostRuntime) {
    let alone = alone(&rt, rt.alloc());
    is_alone(&rt, rt.alloc(), &alone);
}

fn list_and_dict(rt: &impl Abort, alloc: Global) -> Args {
    let list = list(rt, alloc, "[\"hi\"]");
    let dict = dict(rt, alloc, "{\"a\":1}");
    Args::Both(list, dict)
}

fn is_same_alone(rt: &impl Abort, alloc: Global, both: &Args) -> bool {
    let alone = alone(rt, alloc);
    both.same(&alone)
}

fn are_both(rt: &impl Abort, alloc: Global, both: &Args) {
    check!(rt; is_written(rt, alloc, both, "[36,[\"hi\"],{\"a\":1}]"));
    check!(rt; is_copied(rt, both));
    check!(rt; !is_same_alone(rt, alloc, both));
}

#[test]
fn a_list_and_an_object_end_a_message(rt: HostRuntime) {
    let mut both = list_and_dict(&rt, rt.alloc());
    are_both(&rt, rt.alloc(), &both);
    let shared = both.share();
    are_both(&rt, rt.alloc(), &both);
    drop(both);
    shared.expect(&rt, "room to share them");
}
