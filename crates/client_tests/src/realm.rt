// Rows of what transports do and what a realm says then, how they are checked, and those on topics and subscriptions.
use crate::check::Check;
use realm_machine::{Act, Id, Limits, Out, Realm, Say, Shared, Transport};
use realm_snapshot::{load, save};
use std::alloc::Global;
use std::process::Abort;
use test_checks::check;
use wamp_messages::{Read, read, write};

pub fn realm_of(rt: &impl Abort, alloc: Global, limit: u32) -> Realm {
    let name = String::from_str(alloc, "realm1").expect(rt, "room for a name");
    let limits = Limits {
        sessions: limit,
        registrations: limit,
        subscriptions: limit,
        calls: limit,
    };
    Realm::new(alloc, name, limits)
}

// What is read of a text.
fn shared(rt: &impl Abort, alloc: Global, text: &str) -> Shared<Read> {
    let read = read(alloc, text.as_bytes()).expect(rt, "room for a message");
    Shared::new(alloc, read).expect(rt, "room to share it")
}

// `connect`, `hang up`, or the text of a message or of what is none, which begins as JSON: another word ends the test.
fn parsed(rt: &impl Abort, alloc: Global, draw: u64, text: &str) -> Act {
    if text == "connect" {
        return Act::Connect;
    }
    if text == "hang up" {
        return Act::Hung;
    }
    check!(rt; text.starts_with("[") || text.starts_with("{"), text);
    let draw = Id::new(draw).expect(rt, "an id");
    let read = shared(rt, alloc, text);
    Act::Said { draw, read }
}

pub fn spelled(rt: &impl Abort, alloc: Global, out: &Out) -> Vec<u8> {
    match out {
        Out::Send(message) => write(alloc, message).expect(rt, "room for a text"),
        Out::Close => Vec::from_slice(alloc, b"close").expect(rt, "room for a text"),
    }
}

// Appends `NUMBER TEXT;`, the text cut after 60 octets.
fn append(rt: &impl Abort, alloc: Global, all: &mut Vec<u8>, say: &Say) {
    let number = format!(in alloc; "{} ", say.transport.number).expect(rt, "room for a number");
    all.extend_from_slice(number.as_bytes())
        .expect(rt, "room for a number");
    let octets = spelled(rt, alloc, &say.out);
    all.extend_from_slice(&octets[..octets.len().min(60)])
        .expect(rt, "room for a text");
    all.push(b';').expect(rt, "room for its end");
}

// `NUMBER TEXT;` for each saying.
pub fn in_one_text(rt: &impl Abort, alloc: Global, says: &[Say]) -> Vec<u8> {
    let mut all = Vec::new(alloc);
    for say in says {
        append(rt, alloc, &mut all, say);
    }
    all
}

pub fn transport(number: u32) -> Transport {
    Transport {
        node: 1,
        boot: 1,
        number,
    }
}

fn act(rt: &impl Abort, realm: &mut Realm, transport: Transport, act: &Act) -> Vec<Say> {
    realm.act(transport, act).expect(rt, "what the realm says")
}

// What is said to the act of a transport.
fn told(
    rt: &impl Abort,
    alloc: Global,
    realm: &mut Realm,
    transport: Transport,
    said: &Act,
) -> Vec<u8> {
    let says = act(rt, realm, transport, said);
    in_one_text(rt, alloc, says.as_slice())
}

pub fn replies(
    rt: &impl Abort,
    alloc: Global,
    realm: &mut Realm,
    transport: Transport,
    draw: u64,
    text: &str,
) -> Vec<u8> {
    let said = parsed(rt, alloc, draw, text);
    told(rt, alloc, realm, transport, &said)
}

/// What a transport does, with the draw for it, and what the realm says then.
pub type Row = (u32, u64, &'static str, &'static str);

// Whether the realm says what the row says.
fn is_said(rt: &impl Abort, alloc: Global, realm: &mut Realm, row: &Row) -> bool {
    let (number, draw, text, says) = *row;
    let octets = replies(rt, alloc, realm, transport(number), draw, text);
    octets.as_slice() == says.as_bytes()
}

// Each transport does what its row says; and the realm says then what the row says.
fn goes(rt: &impl Abort, alloc: Global, realm: &mut Realm, rows: &[Row]) {
    for row in rows {
        check!(rt; is_said(rt, alloc, realm, row), (row.0, row.2));
    }
}

/// A HELLO.
pub const HELLO: &str = "[1,\"realm1\",{}]";

// A client as which one of four connects, and what its HELLO is answered if its number is the draw.
const CLIENTS: &[(u32, u64, &str)] = &[
    (
        1,
        1,
        "1 [2,1,{\"roles\":{\"broker\":{\"features\":{\"pattern_based_subscrip;",
    ),
    (
        2,
        2,
        "2 [2,2,{\"roles\":{\"broker\":{\"features\":{\"pattern_based_subscrip;",
    ),
    (
        3,
        3,
        "3 [2,3,{\"roles\":{\"broker\":{\"features\":{\"pattern_based_subscrip;",
    ),
    (
        4,
        4,
        "4 [2,4,{\"roles\":{\"broker\":{\"features\":{\"pattern_based_subscrip;",
    ),
];

fn connects(rt: &impl Abort, alloc: Global, realm: &mut Realm, clients: usize) {
    for (number, draw, _welcome) in CLIENTS.iter().take(clients) {
        check!(rt; is_said(rt, alloc, realm, &(*number, *draw, "connect", "")), number);
    }
}

// Opens a session for each client that has a HELLO.
fn opens(rt: &impl Abort, alloc: Global, realm: &mut Realm, clients: &[Option<&'static str>]) {
    for ((number, draw, welcome), hello) in CLIENTS.iter().zip(clients.iter()) {
        if let Some(hello) = hello {
            check!(rt; is_said(rt, alloc, realm, &(*number, *draw, hello, welcome)), number);
        }
    }
}

// Saves the realm, and goes on with the one that is loaded.
pub fn reload(rt: &impl Abort, alloc: Global, realm: &mut Realm) {
    let octets = save(alloc, realm).ok().expect(rt, "the realm's octets");
    *realm = load(alloc, &octets).ok().expect(rt, "the realm again");
}

// The same, with a realm that is saved and loaded before each row and after the last.
fn goes_reloaded(rt: &impl Abort, alloc: Global, realm: &mut Realm, rows: &[Row]) {
    for row in rows {
        reload(rt, alloc, realm);
        check!(rt; is_said(rt, alloc, realm, row), (row.0, row.2));
    }
    reload(rt, alloc, realm);
}

fn opens_and_goes(
    rt: &impl Abort,
    alloc: Global,
    realm: &mut Realm,
    clients: &[Option<&'static str>],
    rows: &[Row],
) {
    connects(rt, alloc, realm, clients.len());
    opens(rt, alloc, realm, clients);
    goes(rt, alloc, realm, rows);
}

fn opens_and_goes_reloaded(
    rt: &impl Abort,
    alloc: Global,
    realm: &mut Realm,
    clients: &[Option<&'static str>],
    rows: &[Row],
) {
    connects(rt, alloc, realm, clients.len());
    reload(rt, alloc, realm);
    opens(rt, alloc, realm, clients);
    goes_reloaded(rt, alloc, realm, rows);
}

// Rows in a realm with this limit, in which clients are connected, each with a session by its HELLO, or with none; and the same rows in
// a realm that is saved and loaded between each two of them.
pub fn check(
    rt: &impl Abort,
    alloc: Global,
    limit: u32,
    clients: &[Option<&'static str>],
    rows: &[Row],
) {
    let mut realm = realm_of(rt, alloc, limit);
    opens_and_goes(rt, alloc, &mut realm, clients, rows);
    realm = realm_of(rt, alloc, limit);
    opens_and_goes_reloaded(rt, alloc, &mut realm, clients, rows);
}

const TWO_CLIENTS_AND_ONE_TOPIC: &[Row] = &[
    (1, 1, "connect", ""),
    (2, 1, "connect", ""),
    (
        1,
        1,
        "[1,\"realm1\",{}]",
        "1 [2,1,{\"roles\":{\"broker\":{\"features\":{\"pattern_based_subscrip;",
    ),
    (1, 2, "[32,1,{},\"a.b\"]", "1 [33,1,1];"),
    (
        1,
        3,
        "[16,2,{\"acknowledge\":true,\"exclude_me\":false},\"a.b\",[\"hi\"]]",
        "1 [17,2,3];1 [36,1,3,{},[\"hi\"]];",
    ),
    (
        2,
        1,
        "[1,\"realm1\",{}]",
        "2 [2,2,{\"roles\":{\"broker\":{\"features\":{\"pattern_based_subscrip;",
    ),
    (2, 2, "[32,1,{},\"a.b\"]", "2 [33,1,1];"),
    (
        2,
        9,
        "[16,3,{},\"a.b\",[\"hi\"]]",
        "1 [36,1,9,{},[\"hi\"]];",
    ),
    (
        2,
        9,
        "[16,3,{\"exclude_me\":false},\"a.b\"]",
        "1 [36,1,9,{}];2 [36,1,9,{}];",
    ),
    (
        1,
        4,
        "[6,{},\"wamp.close.close_realm\"]",
        "1 [6,{},\"wamp.close.goodbye_and_out\"];",
    ),
    (
        2,
        9,
        "[16,3,{\"exclude_me\":false},\"a.b\"]",
        "2 [36,1,9,{}];",
    ),
    (
        2,
        5,
        "[1,\"realm2\",{}]",
        "2 [3,{},\"wamp.error.protocol_violation\"];2 close;",
    ),
    (2, 6, "[1,\"realm1\",{}]", ""),
    (1, 6, "hang up", ""),
];

#[test]
fn two_clients_and_one_topic(rt: HostRuntime) {
    check(&rt, rt.alloc(), 4096, &[], TWO_CLIENTS_AND_ONE_TOPIC);
}

const LIMITS_OF_ONE_AND_REFUSALS: &[Row] = &[
    (
        2,
        2,
        "[1,\"realm1\",{}]",
        "2 [3,{},\"cluster.error.limit\"];2 close;",
    ),
    (1, 3, "[32,1,{},\"a\"]", "1 [33,1,1];"),
    (
        1,
        4,
        "[32,2,{},\"b\"]",
        "1 [8,32,2,{},\"cluster.error.limit\"];",
    ),
    (1, 5, "[32,3,{},\"a\"]", "1 [33,3,1];"),
    (
        1,
        6,
        "[32,4,{\"match\":\"prefix\"},\"a\"]",
        "1 [8,32,4,{},\"cluster.error.limit\"];",
    ),
    (
        1,
        7,
        "[32,5,{},\"a..b\"]",
        "1 [8,32,5,{},\"wamp.error.invalid_uri\"];",
    ),
    (1, 8, "[16,6,{},\"a b\"]", ""),
    (
        1,
        9,
        "[16,7,{\"acknowledge\":true},\"wamp.a\"]",
        "1 [8,16,7,{},\"wamp.error.invalid_uri\"];",
    ),
    (
        1,
        9,
        "{}",
        "1 [3,{},\"wamp.error.protocol_violation\"];1 close;",
    ),
];

#[test]
fn limits_of_one_and_refusals(rt: HostRuntime) {
    check(
        &rt,
        rt.alloc(),
        1,
        &[Some(HELLO), None],
        LIMITS_OF_ONE_AND_REFUSALS,
    );
}

const EVENTS_NAME_THEIR_TOPICS: &[Row] = &[
    (
        1,
        3,
        "[32,1,{\"match\":\"prefix\"},\"com.a.x\"]",
        "1 [33,1,1];",
    ),
    (
        2,
        3,
        "[32,1,{\"match\":\"prefix\"},\"com.a.x\"]",
        "2 [33,1,1];",
    ),
    (
        2,
        500,
        "[16,2,{\"acknowledge\":true},\"com.a.x-low\",[\"hi\"]]",
        "2 [17,2,500];1 [36,1,500,{\"topic\":\"com.a.x-low\"},[\"hi\"]];",
    ),
    (2, 9, "[16,2,{},\"com.a\"]", ""),
    (
        1,
        3,
        "[32,2,{\"match\":\"exact\"},\"a..b\"]",
        "1 [8,32,2,{},\"wamp.error.invalid_uri\"];",
    ),
    (
        1,
        3,
        "[32,3,{\"match\":\"wildcard\"},\"a..b\"]",
        "1 [33,3,2];",
    ),
    (
        1,
        3,
        "[32,4,{\"match\":\"prefix\"},\"a b\"]",
        "1 [8,32,4,{},\"wamp.error.invalid_uri\"];",
    ),
    (
        2,
        9,
        "[16,2,{},\"a.x.b\"]",
        "1 [36,2,9,{\"topic\":\"a.x.b\"}];",
    ),
    (1, 9, "[16,2,{},\"a.x.b\"]", ""),
];

#[test]
fn events_name_their_topics(rt: HostRuntime) {
    check(
        &rt,
        rt.alloc(),
        4096,
        &[Some(HELLO), Some(HELLO)],
        EVENTS_NAME_THEIR_TOPICS,
    );
}

const ONE_SESSION_IN_THREE_MATCHES: &[Row] = &[
    (1, 3, "[32,1,{},\"a.b\"]", "1 [33,1,1];"),
    (1, 3, "[32,2,{\"match\":\"prefix\"},\"a\"]", "1 [33,2,2];"),
    (
        1,
        3,
        "[32,3,{\"match\":\"wildcard\"},\"a.\"]",
        "1 [33,3,3];",
    ),
    (
        2,
        9,
        "[16,1,{},\"a.b\"]",
        "1 [36,1,9,{}];1 [36,2,9,{\"topic\":\"a.b\"}];1 [36,3,9,{\"topic\":\"a.b\"}];",
    ),
    (1, 3, "[32,4,{},\"wamp.x\"]", "1 [33,4,4];"),
    (
        2,
        9,
        "[16,2,{\"acknowledge\":true},\"wamp.x\"]",
        "2 [8,16,2,{},\"wamp.error.invalid_uri\"];",
    ),
    (2, 9, "[16,3,{},\"wamp.x\"]", ""),
];

#[test]
fn one_session_in_three_matches(rt: HostRuntime) {
    check(
        &rt,
        rt.alloc(),
        4096,
        &[Some(HELLO), Some(HELLO)],
        ONE_SESSION_IN_THREE_MATCHES,
    );
}

const PATTERNS_OF_EMPTY_COMPONENTS: &[Row] = &[
    (1, 3, "[32,1,{\"match\":\"prefix\"},\"\"]", "1 [33,1,1];"),
    (1, 3, "[32,2,{\"match\":\"wildcard\"},\".\"]", "1 [33,2,2];"),
    (
        1,
        5,
        "[16,4,{\"exclude_me\":false},\"a.b\",[],{\"k\":1}]",
        "1 [36,1,5,{\"topic\":\"a.b\"},[],{\"k\":1}];1 [36,2,5,{\"topic\":\"a.b\"},[],{\"k\":1}];",
    ),
];

#[test]
fn patterns_of_empty_components(rt: HostRuntime) {
    check(
        &rt,
        rt.alloc(),
        4096,
        &[Some(HELLO)],
        PATTERNS_OF_EMPTY_COMPONENTS,
    );
}

const SINGLE_SUBSCRIPTIONS_ARE_LEFT: &[Row] = &[
    (1, 2, "[32,1,{},\"a.b\"]", "1 [33,1,1];"),
    (1, 2, "[32,2,{},\"a.b\"]", "1 [33,2,1];"),
    (1, 2, "[34,3,1]", "1 [35,3];"),
    (
        1,
        2,
        "[34,4,1]",
        "1 [8,34,4,{},\"wamp.error.no_such_subscription\"];",
    ),
    (1, 2, "[32,5,{},\"a.b\"]", "1 [33,5,2];"),
    (
        1,
        9,
        "[16,6,{\"exclude_me\":false},\"a.b\"]",
        "1 [36,2,9,{}];",
    ),
    (
        1,
        2,
        "[34,7,1]",
        "1 [8,34,7,{},\"wamp.error.no_such_subscription\"];",
    ),
    (
        1,
        2,
        "[35,9]",
        "1 [3,{},\"wamp.error.protocol_violation\"];1 close;",
    ),
];

#[test]
fn single_subscriptions_are_left(rt: HostRuntime) {
    check(
        &rt,
        rt.alloc(),
        4096,
        &[Some(HELLO)],
        SINGLE_SUBSCRIPTIONS_ARE_LEFT,
    );
}
