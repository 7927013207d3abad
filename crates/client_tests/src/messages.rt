// Rows of messages: what is read of a text, and the one text that is written.
use crate::check::Check;
use std::alloc::Global;
use std::process::Abort;
use test_checks::{check, check_eq};
use wamp_messages::{Memory, Message, Parser, Read, UnfitKind, read, read_by, write};

const WELCOME: &str = "[2,1,{\"roles\":{\"broker\":{\"features\":{\
    \"pattern_based_subscription\":true,\"publisher_exclusion\":true}},\
    \"dealer\":{\"features\":{\"call_canceling\":true,\"caller_identification\":true,\
    \"pattern_based_registration\":true,\"progressive_call_results\":true,\
    \"shared_registration\":true}}}}]";

// Returns the number of the fault, or 0 if there is none.
fn fault_number(done: &Read) -> u8 {
    match done {
        Read::Bad(fault) => fault.number(),
        _ => 0,
    }
}

// What is read. It has no contract, so that nothing is known of the value: a proof carries what is known through each drop. What owns one
// drops it by std's call, since a separate exit would be proved for each kind of message.
fn read_of(rt: &impl Abort, alloc: Global, octets: &[u8]) -> Read {
    read(alloc, octets).expect(rt, "room for a message")
}

fn fault(rt: &impl Abort, alloc: Global, octets: &[u8]) -> u8 {
    let done = read_of(rt, alloc, octets);
    let number = fault_number(&done);
    drop(done);
    number
}

// Whether this is the unfit request 1 of this kind.
fn is_unfit(done: &Read, wanted: UnfitKind, silent: bool) -> bool {
    match done {
        Read::Unfit {
            kind,
            request,
            quiet,
        } => *kind == wanted && request.get() == 1 && *quiet == silent,
        _ => false,
    }
}

fn reads_unfit(rt: &impl Abort, alloc: Global, text: &str, kind: UnfitKind, quiet: bool) -> bool {
    let done = read_of(rt, alloc, text.as_bytes());
    let unfit = is_unfit(&done, kind, quiet);
    drop(done);
    unfit
}

fn is_spelled(rt: &impl Abort, alloc: Global, message: &Message, text: &str) -> bool {
    let octets = write(alloc, message).expect(rt, "room for a text");
    octets.as_slice() == text.as_bytes()
}

// A copy, of which nothing is known either.
fn copy_of(rt: &impl Abort, message: &Message) -> Message {
    message.copy().expect(rt, "room for a copy")
}

fn is_same(copy: &Message, message: &Message) -> bool {
    copy.same(message)
}

// Whether the copy is equal, and has the text.
fn is_copy(rt: &impl Abort, alloc: Global, copy: &Message, message: &Message, text: &str) -> bool {
    is_same(copy, message) && is_spelled(rt, alloc, copy, text)
}

fn is_copied(rt: &impl Abort, alloc: Global, message: &Message, text: &str) -> bool {
    let copy = copy_of(rt, message);
    let equal = is_copy(rt, alloc, &copy, message, text);
    drop(copy);
    equal
}

// Whether this is a message, and has the text.
fn is_good(rt: &impl Abort, alloc: Global, done: &Read, text: &str) -> bool {
    match done {
        Read::Good(message) => is_copied(rt, alloc, message, text),
        _ => false,
    }
}

// Whether the message that is read of the one text has the other.
fn is_written_as(rt: &impl Abort, alloc: Global, text: &str, written: &str) -> bool {
    let done = read_of(rt, alloc, text.as_bytes());
    let good = is_good(rt, alloc, &done, written);
    drop(done);
    good
}

// Whether the text is that of the message that is read of it.
fn is_written_again(rt: &impl Abort, alloc: Global, text: &str) -> bool {
    is_written_as(rt, alloc, text, text)
}

// Texts that are no message, and the number of the first fault of each.
const FAULTS: &[(&str, u8)] = &[
    ("{", 21),
    ("{}", 22),
    ("[]", 23),
    ("[5,\"x\",{}]", 23),
    ("[4,\"x\",{}]", 23),
    ("[71,1,{}]", 23),
    ("[33,1]", 24),
    ("[34,1]", 24),
    ("[66,1]", 24),
    ("[67,1,2]", 24),
    ("[32,1,{},\"a\",[]]", 24),
    ("[32,1,[],\"a\"]", 25),
    ("[32,1.0,{},\"a\"]", 25),
    ("[32,-1,[],\"a\"]", 25),
    ("[8,33,0,{},\"a\"]", 25),
    ("[36,0,1,{},[0.5]]", 25),
    ("[34,-1,\"1\"]", 25),
    ("[64,1,{},7]", 25),
    ("[66,\"1\",0]", 25),
    ("[50,0,{},[0.5]]", 25),
    ("[69,0,{}]", 25),
    ("[68,1,1,{\"procedure\":1}]", 25),
    ("[68,0,1,{\"receive_progress\":1}]", 25),
    ("[68,1,1,{\"receive_progress\":null}]", 25),
    ("[68,1,1,{\"caller\":\"21\"}]", 25),
    ("[68,1,1,{\"caller\":0}]", 25),
    ("[68,1,1,{\"caller\":-1}]", 25),
    ("[68,1,1,{\"caller\":9007199254740993}]", 25),
    ("[68,1,1,{\"caller\":1.5}]", 25),
    ("[50,0,{\"progress\":1}]", 25),
    ("[50,7,{\"progress\":\"true\"},[1]]", 25),
    ("[32,0,{},\"a\"]", 26),
    ("[32,-1,{},\"a\"]", 26),
    ("[16,0,{},\"a\",[0.5]]", 26),
    ("[34,0,1]", 26),
    ("[64,0,{\"invoke\":\"random\"},\"p\"]", 26),
    ("[70,0,{},[0.5]]", 26),
    ("[70,0,{\"progress\":1}]", 26),
    ("[48,0,{\"disclose_me\":1},\"p.q\"]", 26),
];

#[test]
fn faults_come_in_the_order_of_their_numbers(rt: HostRuntime) {
    for (text, number) in FAULTS {
        check_eq!(&rt; fault(&rt, rt.alloc(), text.as_bytes()), *number, text);
    }
    check_eq!(&rt; fault(&rt, rt.alloc(), &[0x5b, 0x22, 0xff, 0x22, 0x5d]), 21);
    check_eq!(&rt; fault(&rt, rt.alloc(), &[0xff]), 21);
}

// A PUBLISH whose arrays nest this deep; its own is the first.
fn nested(rt: &impl Abort, alloc: Global, depth: usize) -> String {
    let mut text = String::from_str(alloc, "[16,1,{},\"a\",").expect(rt, "room for a text");
    for _level in 1..depth {
        text.push_str("[").expect(rt, "room for a text");
    }
    for _level in 0..depth {
        text.push_str("]").expect(rt, "room for a text");
    }
    text
}

#[test]
fn a_message_nests_at_most_127_deep(rt: HostRuntime) {
    let mut parser = Parser::new(rt.alloc());
    let deep = nested(&rt, rt.alloc(), 127);
    check!(&rt; is_written_again(&rt, rt.alloc(), deep.as_str()));
    check!(&rt; is_read_in(&rt, &mut parser, rt.alloc(), deep.as_str()));
    let too_deep = nested(&rt, rt.alloc(), 128);
    check_eq!(&rt; fault(&rt, rt.alloc(), too_deep.as_bytes()), 21);
    check_eq!(&rt; fault_in(&rt, &mut parser, too_deep.as_str()), 21);
}

#[test]
fn unfit_requests_are_told_apart_from_faults(rt: HostRuntime) {
    let alloc = rt.alloc();
    let subscribe = UnfitKind::Subscribe;
    let publish = UnfitKind::Publish;
    check!(&rt; reads_unfit(
            &rt,
            alloc,
            "[32,1,{\"match\":\"fuzzy\"},\"a\"]",
            subscribe,
            false
        ));
    check!(&rt; reads_unfit(&rt, alloc, "[32,1,{\"match\":null},\"a\"]", subscribe, false));
    check!(&rt; reads_unfit(&rt, alloc, "[16,1,{},\"a\",[0.5]]", publish, true));
    check!(&rt; reads_unfit(&rt, alloc, "[16,1,{\"acknowledge\":1},\"a\"]", publish, true));
    check!(&rt; reads_unfit(
            &rt,
            alloc,
            "[16,1,{\"acknowledge\":true},\"a\",[0.5]]",
            publish,
            false
        ));
    check!(&rt; reads_unfit(&rt, alloc, "[8,68,1,{},\"a\",[0.5]]", UnfitKind::Yield, false));
}

#[test]
fn each_kind_of_unfit_request_is_told(rt: HostRuntime) {
    for (text, kind) in [
        ("[64,1,{\"invoke\":\"random\"},\"p\"]", UnfitKind::Register),
        ("[64,1,{\"invoke\":null},\"p\"]", UnfitKind::Register),
        ("[64,1,{\"match\":\"fuzzy\"},\"p\"]", UnfitKind::Register),
        ("[48,1,{},\"p\",[1.5]]", UnfitKind::Call),
        ("[48,1,{\"disclose_me\":1},\"p.q\"]", UnfitKind::Call),
        (
            "[48,1,{\"receive_progress\":\"true\"},\"p.q\"]",
            UnfitKind::Call,
        ),
        (
            "[48,1,{\"disclose_me\":true,\"receive_progress\":null},\"p.q\"]",
            UnfitKind::Call,
        ),
        ("[49,1,{\"mode\":\"stop\"}]", UnfitKind::Cancel),
        ("[70,1,{},[0.5]]", UnfitKind::Yield),
        ("[70,1,{\"progress\":1}]", UnfitKind::Yield),
        ("[70,1,{\"progress\":[]},[1]]", UnfitKind::Yield),
    ] {
        check!(&rt; reads_unfit(&rt, rt.alloc(), text, kind, false), text);
    }
}

#[test]
fn keys_are_written_in_their_order(rt: HostRuntime) {
    for (text, written) in [
        (
            "[64,1,{\"match\":\"wildcard\",\"invoke\":\"first\"},\"a..b\"]",
            "[64,1,{\"invoke\":\"first\",\"match\":\"wildcard\"},\"a..b\"]",
        ),
        (
            "[64,1,{\"match\":\"exact\",\"invoke\":\"single\"},\"a\"]",
            "[64,1,{},\"a\"]",
        ),
        ("[49,1,{\"mode\":\"killnowait\"}]", "[49,1,{}]"),
        (
            "[48,7,{\"receive_progress\":true,\"disclose_me\":true},\"p.q\"]",
            "[48,7,{\"disclose_me\":true,\"receive_progress\":true},\"p.q\"]",
        ),
        (
            "[48,7,{\"disclose_me\":false,\"receive_progress\":false,\"timeout\":9},\"p.q\"]",
            "[48,7,{},\"p.q\"]",
        ),
        (
            "[68,1,1,{\"receive_progress\":true,\"procedure\":\"p.q\",\"caller\":21}]",
            "[68,1,1,{\"caller\":21,\"procedure\":\"p.q\",\"receive_progress\":true}]",
        ),
        (
            "[68,1,1,{\"receive_progress\":false},[1]]",
            "[68,1,1,{},[1]]",
        ),
        ("[50,7,{\"progress\":false},[1]]", "[50,7,{},[1]]"),
        ("[70,1,{\"progress\":false}]", "[70,1,{}]"),
    ] {
        check!(&rt; is_written_as(&rt, rt.alloc(), text, written), text);
    }
}

// A text of each kind of message, with the keys that are written.
const WRITTEN: &[&str] = &[
    "[1,\"realm1\",{}]",
    "[1,\"realm1\",{\"roles\":{\"callee\":{\"features\":{\"call_canceling\":true}}}}]",
    "[3,{},\"wamp.error.protocol_violation\"]",
    "[6,{},\"wamp.close.goodbye_and_out\"]",
    "[8,32,1,{},\"wamp.error.invalid_argument\",[],{\"a\":-1}]",
    "[16,2,{\"acknowledge\":true,\"exclude_me\":false},\"a.b\",[\"hi\"]]",
    "[17,2,3]",
    "[32,1,{\"match\":\"prefix\"},\"com.a.x\"]",
    "[33,1,9007199254740992]",
    "[34,3,1]",
    "[35,3]",
    "[64,1,{},\"a.b\"]",
    "[64,1,{\"invoke\":\"roundrobin\"},\"a\"]",
    "[64,1,{\"invoke\":\"last\",\"match\":\"prefix\"},\"a\"]",
    "[65,1,1]",
    "[66,2,9]",
    "[67,2]",
    "[48,7,{},\"p.q\",[1]]",
    "[49,7,{\"mode\":\"skip\"}]",
    "[50,7,{},[2]]",
    "[68,1,1,{\"procedure\":\"p.q\"},[1]]",
    "[69,1,{\"mode\":\"killnowait\"}]",
    "[70,1,{},[2],{\"a\":1}]",
    "[48,7,{\"disclose_me\":true,\"receive_progress\":true},\"p.q\"]",
    "[48,7,{\"disclose_me\":true},\"p.q\",[1]]",
    "[48,7,{\"receive_progress\":true},\"p.q\"]",
    "[68,1,1,{}]",
    "[68,1,1,{\"caller\":21,\"receive_progress\":true}]",
    "[68,1,1,{\"caller\":9007199254740992,\"procedure\":\"p.q\",\"receive_progress\":true},[1]]",
    "[50,7,{\"progress\":true},[1]]",
    "[70,1,{\"progress\":true},[1]]",
    "[70,1,{\"progress\":true}]",
    "[36,1,500,{\"topic\":\"com.a.x-low\"},[\"hi\"]]",
    WELCOME,
];

#[test]
fn what_is_read_is_written_as_its_one_text(rt: HostRuntime) {
    for text in WRITTEN {
        check!(&rt; is_written_again(&rt, rt.alloc(), *text), text);
    }
}

// What is read in kept room. It has no contract either.
fn read_in(rt: &impl Abort, parser: &mut Parser, octets: &[u8]) -> Read {
    read_by(parser, octets).expect(rt, "room for a message")
}

fn fault_in(rt: &impl Abort, parser: &mut Parser, text: &str) -> u8 {
    let done = read_in(rt, parser, text.as_bytes());
    let number = fault_number(&done);
    drop(done);
    number
}

fn is_read_in(rt: &impl Abort, parser: &mut Parser, alloc: Global, text: &str) -> bool {
    let done = read_in(rt, parser, text.as_bytes());
    let good = is_good(rt, alloc, &done, text);
    drop(done);
    good
}

#[test]
fn one_parser_finds_the_fault_of_each_text(rt: HostRuntime) {
    let mut parser = Parser::new(rt.alloc());
    for (text, number) in [
        ("[32,1,{},\"a\"]", 0),
        ("{", 21),
        ("[32,1,{},\"a\"]]", 21),
        ("[32,1,{},\"a\"] 1", 21),
        ("[]", 23),
        ("[32,1.0,{},\"a\"]", 25),
        ("[16,0,{},\"a\",[0.5]]", 26),
        ("[32,1,{},\"a\"]", 0),
    ] {
        check_eq!(&rt; fault_in(&rt, &mut parser, text), number, text);
    }
}

#[test]
fn one_parser_reads_message_after_message(rt: HostRuntime) {
    let mut parser = Parser::new(rt.alloc());
    for text in [
        "[16,2,{\"acknowledge\":true},\"a.b\",[-1,[],{\"a\":{\"b\":[null,false]}}]]",
        "[32,1,{\"match\":\"prefix\"},\"com.a.x\"]",
        "[8,32,1,{},\"wamp.error.invalid_argument\",[],{\"a\":\"x\\n\"}]",
        "[48,7,{},\"p.q\",[18446744073709551615,-9223372036854775808]]",
    ] {
        check!(&rt; is_read_in(&rt, &mut parser, rt.alloc(), text), text);
    }
}

#[test]
fn out_of_memory_has_number_27(rt: HostRuntime) {
    check_eq!(&rt; Memory.number(), 27);
}
