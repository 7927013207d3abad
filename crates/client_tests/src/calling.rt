// Rows on a realm's calls: callees in turn, canceled, unfit and refused calls, and callers, callees and nodes that leave.
use crate::check::Check;
use crate::realm::{HELLO, Row, check, in_one_text, realm_of, reload, replies};
use realm_machine::{Realm, Say, Transport};
use std::alloc::Global;
use std::process::Abort;
use test_checks::check;

// A HELLO that announces call canceling.
pub const CANCELING: &str =
    "[1,\"realm1\",{\"roles\":{\"callee\":{\"features\":{\"call_canceling\":true}}}}]";

const CANCELED_CALLS: &[Row] = &[
    (1, 3, "[64,1,{},\"p.q\"]", "1 [65,1,1];"),
    (2, 3, "[48,7,{},\"p.q\",[1]]", "1 [68,1,1,{},[1]];"),
    (
        2,
        3,
        "[49,7,{\"mode\":\"kill\"}]",
        "1 [69,1,{\"mode\":\"kill\"}];",
    ),
    (1, 3, "[70,1,{},[2]]", "2 [50,7,{},[2]];"),
    (2, 3, "[48,8,{},\"p.q\"]", "1 [68,2,1,{}];"),
    (
        2,
        3,
        "[49,8,{}]",
        "1 [69,2,{\"mode\":\"killnowait\"}];2 [8,48,8,{},\"wamp.error.canceled\"];",
    ),
    (1, 3, "[70,2,{}]", ""),
    (2, 3, "[48,9,{},\"p.q\"]", "1 [68,3,1,{}];"),
    (
        2,
        3,
        "[49,9,{\"mode\":\"skip\"}]",
        "2 [8,48,9,{},\"wamp.error.canceled\"];",
    ),
    (2, 3, "[49,9,{\"mode\":\"skip\"}]", ""),
    (2, 3, "[48,10,{},\"p.q\"]", "1 [68,4,1,{}];"),
    (
        2,
        3,
        "[49,10,{\"mode\":\"stop\"}]",
        "2 [8,49,10,{},\"wamp.error.invalid_argument\"];",
    ),
    (1, 3, "[70,4,{}]", "2 [50,10,{}];"),
];

#[test]
fn canceled_calls(rt: HostRuntime) {
    check(
        &rt,
        rt.alloc(),
        4096,
        &[Some(CANCELING), Some(HELLO)],
        CANCELED_CALLS,
    );
}

const CALLEES_TAKE_TURNS: &[Row] = &[
    (
        1,
        3,
        "[64,1,{\"invoke\":\"roundrobin\"},\"p\"]",
        "1 [65,1,1];",
    ),
    (
        2,
        3,
        "[64,1,{\"invoke\":\"roundrobin\"},\"p\"]",
        "2 [65,1,1];",
    ),
    (1, 3, "[48,1,{},\"p\"]", "1 [68,1,1,{}];"),
    (
        3,
        3,
        "[64,1,{\"invoke\":\"roundrobin\"},\"p\"]",
        "3 [65,1,1];",
    ),
    (1, 3, "[48,2,{},\"p\"]", "2 [68,1,1,{}];"),
    (1, 3, "[48,3,{},\"p\"]", "1 [68,2,1,{}];"),
    (1, 3, "[48,4,{},\"p\"]", "3 [68,1,1,{}];"),
    (
        4,
        3,
        "[64,2,{\"invoke\":\"first\"},\"p\"]",
        "4 [8,64,2,{},\"wamp.error.procedure_already_exists\"];",
    ),
    (
        4,
        3,
        "[64,3,{\"invoke\":\"random\"},\"p\"]",
        "4 [8,64,3,{},\"wamp.error.invalid_argument\"];",
    ),
    (
        1,
        3,
        "[48,5,{},\"p\"]",
        "1 [8,48,5,{},\"cluster.error.limit\"];",
    ),
    (3, 3, "[48,4,{},\"p\"]", "2 [68,2,1,{}];"),
    (2, 3, "[48,4,{},\"p\"]", "1 [68,3,1,{}];"),
    (
        2,
        3,
        "[48,4,{},\"p\"]",
        "1 [8,48,2,{},\"wamp.error.canceled\"];3 [8,48,4,{},\"wamp.error.canceled\"];2 [3,{},\"wamp.error.protocol_violation\"];2 close;",
    ),
];

#[test]
fn callees_take_turns(rt: HostRuntime) {
    check(
        &rt,
        rt.alloc(),
        4,
        &[Some(HELLO), Some(HELLO), Some(HELLO), Some(HELLO)],
        CALLEES_TAKE_TURNS,
    );
}

const UNFIT_CALLS_AND_ANSWERS: &[Row] = &[
    (
        2,
        3,
        "[48,1,{},\"p\",[1.5]]",
        "2 [8,48,1,{},\"wamp.error.invalid_argument\"];",
    ),
    (
        2,
        3,
        "[48,1,{},\"p\",[18446744073709551615,-9223372036854775808]]",
        "2 [8,48,1,{},\"wamp.error.no_such_procedure\"];",
    ),
    (
        2,
        3,
        "[48,1,{},\"p\",[18446744073709551616]]",
        "2 [8,48,1,{},\"wamp.error.invalid_argument\"];",
    ),
    (
        2,
        3,
        "[48,1,{},\"p\",[-9223372036854775809]]",
        "2 [8,48,1,{},\"wamp.error.invalid_argument\"];",
    ),
    (
        2,
        3,
        "[48,2,{},\"p..q\"]",
        "2 [8,48,2,{},\"wamp.error.invalid_uri\"];",
    ),
    (
        2,
        3,
        "[48,9007199254740992,{},\"p\"]",
        "2 [8,48,9007199254740992,{},\"wamp.error.no_such_procedure\"];",
    ),
    (1, 3, "[64,1,{\"match\":\"prefix\"},\"wam\"]", "1 [65,1,1];"),
    (
        2,
        3,
        "[48,3,{},\"wamp.x\"]",
        "2 [8,48,3,{},\"wamp.error.no_such_procedure\"];",
    ),
    (
        2,
        3,
        "[48,3,{},\"wamx\"]",
        "1 [68,1,1,{\"procedure\":\"wamx\"}];",
    ),
    (
        1,
        3,
        "[70,1,{},[0.5]]",
        "2 [8,48,3,{},\"wamp.error.invalid_argument\"];",
    ),
    (
        2,
        3,
        "[48,3,{},\"wamy\",[],{\"k\":1}]",
        "1 [68,2,1,{\"procedure\":\"wamy\"},[],{\"k\":1}];",
    ),
    (1, 3, "[66,2,1]", "1 [67,2];"),
    (
        1,
        3,
        "[8,68,2,{},\"a.failure\",[7]]",
        "2 [8,48,3,{},\"a.failure\",[7]];",
    ),
    (1, 3, "[8,68,2,{},\"a.failure\"]", ""),
    (
        2,
        3,
        "[48,9007199254740993,{},\"p\"]",
        "2 [3,{},\"wamp.error.protocol_violation\"];2 close;",
    ),
];

#[test]
fn unfit_calls_and_answers(rt: HostRuntime) {
    check(
        &rt,
        rt.alloc(),
        4096,
        &[Some(HELLO), Some(HELLO)],
        UNFIT_CALLS_AND_ANSWERS,
    );
}

const ONE_OPEN_CALL: &[Row] = &[
    (1, 3, "[64,4,{},\"p\"]", "1 [65,4,1];"),
    (1, 3, "[48,5,{},\"p\"]", "1 [68,1,1,{}];"),
    (
        1,
        3,
        "[48,6,{},\"p\"]",
        "1 [8,48,6,{},\"cluster.error.limit\"];",
    ),
    (1, 3, "[49,5,{}]", "1 [8,48,5,{},\"wamp.error.canceled\"];"),
    (2, 2, HELLO, "2 [3,{},\"cluster.error.limit\"];2 close;"),
    (1, 3, "[48,5,{},\"p\"]", "1 [68,2,1,{}];"),
    (
        1,
        3,
        "[48,5,{},\"p\",[1.5]]",
        "1 [3,{},\"wamp.error.protocol_violation\"];1 close;",
    ),
];

#[test]
fn one_open_call(rt: HostRuntime) {
    check(&rt, rt.alloc(), 1, &[Some(HELLO), None], ONE_OPEN_CALL);
}

const CALLERS_AND_CALLEES_LEAVE: &[Row] = &[
    (1, 3, "[64,1,{},\"p\"]", "1 [65,1,1];"),
    (2, 3, "[48,3,{},\"p\"]", "1 [68,1,1,{}];"),
    (
        1,
        3,
        "[6,{},\"wamp.close.close_realm\"]",
        "2 [8,48,3,{},\"wamp.error.canceled\"];1 [6,{},\"wamp.close.goodbye_and_out\"];",
    ),
    (
        1,
        5,
        CANCELING,
        "1 [2,5,{\"roles\":{\"broker\":{\"features\":{\"pattern_based_subscrip;",
    ),
    (1, 3, "[64,1,{},\"p\"]", "1 [65,1,2];"),
    (2, 3, "[48,3,{},\"p\"]", "1 [68,1,2,{}];"),
    (2, 3, "hang up", "1 [69,1,{\"mode\":\"killnowait\"}];"),
    (1, 3, "[70,1,{}]", ""),
    (3, 1, "connect", ""),
    (
        3,
        7,
        "[1,\"realm2\",{}]",
        "3 [3,{},\"wamp.error.no_such_realm\"];3 close;",
    ),
    (3, 1, "connect", ""),
    (
        3,
        7,
        HELLO,
        "3 [2,7,{\"roles\":{\"broker\":{\"features\":{\"pattern_based_subscrip;",
    ),
    (3, 3, "[48,3,{},\"p\"]", "1 [68,2,2,{}];"),
    (
        1,
        3,
        "[3,{},\"x\"]",
        "3 [8,48,3,{},\"wamp.error.canceled\"];1 close;",
    ),
    (1, 3, "[70,2,{}]", ""),
];

#[test]
fn callers_and_callees_leave(rt: HostRuntime) {
    check(
        &rt,
        rt.alloc(),
        4096,
        &[Some(CANCELING), Some(HELLO)],
        CALLERS_AND_CALLEES_LEAVE,
    );
}

const A_VIOLATION_ENDS_CALLS_BOTH_WAYS: &[Row] = &[
    (1, 3, "[64,1,{},\"s\"]", "1 [65,1,1];"),
    (2, 3, "[64,1,{},\"e\"]", "2 [65,1,2];"),
    (1, 3, "[48,1,{},\"e\"]", "2 [68,1,2,{}];"),
    (1, 3, "[48,2,{},\"s\"]", "1 [68,1,1,{}];"),
    (3, 3, "[48,5,{},\"s\"]", "1 [68,2,1,{}];"),
    (4, 3, "[48,6,{},\"s\"]", "1 [68,3,1,{}];"),
    (
        1,
        3,
        "[36,1,1,{}]",
        "3 [8,48,5,{},\"wamp.error.canceled\"];4 [8,48,6,{},\"wamp.error.canceled\"];2 [69,1,{\"mode\":\"killnowait\"}];1 [3,{},\"wamp.error.protocol_violation\"];1 close;",
    ),
];

#[test]
fn a_violation_ends_calls_both_ways(rt: HostRuntime) {
    check(
        &rt,
        rt.alloc(),
        4096,
        &[Some(HELLO), Some(CANCELING), Some(HELLO), Some(HELLO)],
        A_VIOLATION_ENDS_CALLS_BOTH_WAYS,
    );
}

const A_PROCEDURE_PASSES_ON: &[Row] = &[
    (1, 3, "[64,1,{},\"a.b\"]", "1 [65,1,1];"),
    (
        2,
        3,
        "[64,1,{},\"a.b\"]",
        "2 [8,64,1,{},\"wamp.error.procedure_already_exists\"];",
    ),
    (
        1,
        3,
        "[6,{},\"x\"]",
        "1 [6,{},\"wamp.close.goodbye_and_out\"];",
    ),
    (2, 3, "[64,2,{},\"a.b\"]", "2 [65,2,2];"),
    (2, 3, "[64,3,{\"invoke\":\"last\"},\"p\"]", "2 [65,3,3];"),
    (
        2,
        3,
        "[64,4,{\"invoke\":\"last\",\"match\":\"prefix\"},\"p\"]",
        "2 [65,4,4];",
    ),
    (2, 3, "[66,5,2]", "2 [67,5];"),
    (
        2,
        3,
        "[66,6,2]",
        "2 [8,66,6,{},\"wamp.error.no_such_registration\"];",
    ),
    (2, 3, "[64,7,{},\"a.b\"]", "2 [65,7,5];"),
    (2, 3, "hang up", ""),
];

#[test]
fn a_procedure_passes_on(rt: HostRuntime) {
    check(
        &rt,
        rt.alloc(),
        4096,
        &[Some(HELLO), Some(HELLO)],
        A_PROCEDURE_PASSES_ON,
    );
}

const REFUSED_PROCEDURES: &[Row] = &[
    (
        1,
        2,
        "[64,1,{},\"wamp.x\"]",
        "1 [8,64,1,{},\"wamp.error.invalid_uri\"];",
    ),
    (
        1,
        2,
        "[64,1,{\"match\":\"prefix\"},\"wamp\"]",
        "1 [8,64,1,{},\"wamp.error.invalid_uri\"];",
    ),
    (
        1,
        2,
        "[64,1,{},\"a..b\"]",
        "1 [8,64,1,{},\"wamp.error.invalid_uri\"];",
    ),
    (
        1,
        2,
        "[64,1,{\"invoke\":\"random\"},\"p\"]",
        "1 [8,64,1,{},\"wamp.error.invalid_argument\"];",
    ),
    (
        1,
        2,
        "[66,2,9]",
        "1 [8,66,2,{},\"wamp.error.no_such_registration\"];",
    ),
    (
        1,
        2,
        "[64,3,{\"match\":\"wildcard\"},\"a..b\"]",
        "1 [65,3,1];",
    ),
    (
        1,
        2,
        "[64,4,{},\"p\"]",
        "1 [8,64,4,{},\"cluster.error.limit\"];",
    ),
    (
        1,
        2,
        "[65,1,1]",
        "1 [3,{},\"wamp.error.protocol_violation\"];1 close;",
    ),
];

#[test]
fn refused_procedures(rt: HostRuntime) {
    check(&rt, rt.alloc(), 1, &[Some(HELLO)], REFUSED_PROCEDURES);
}

fn at(node: u8, number: u32) -> Transport {
    Transport {
        node,
        boot: 1,
        number,
    }
}

fn gone(rt: &impl Abort, realm: &mut Realm, node: u8) -> Vec<Say> {
    realm.gone(node).expect(rt, "what the realm says")
}

// What is said at the end of this node.
fn told_gone(rt: &impl Abort, alloc: Global, realm: &mut Realm, node: u8) -> Vec<u8> {
    let says = gone(rt, realm, node);
    in_one_text(rt, alloc, says.as_slice())
}

// What a transport does, by node and number.
type Gone = (u8, u32, u64, &'static str);

// Each transport does what its row says.
fn say_all(rt: &impl Abort, alloc: Global, realm: &mut Realm, rows: &[Gone]) {
    for (node, number, draw, text) in rows {
        let _said = replies(rt, alloc, realm, at(*node, *number), *draw, text);
    }
}

// The same, with a realm that is saved and loaded before each row and after the last.
fn say_all_reloaded(rt: &impl Abort, alloc: Global, realm: &mut Realm, rows: &[Gone]) {
    for (node, number, draw, text) in rows {
        reload(rt, alloc, realm);
        let _said = replies(rt, alloc, realm, at(*node, *number), *draw, text);
    }
    reload(rt, alloc, realm);
}

// Whether the end of node 3 makes the realm say this.
fn is_told_gone(rt: &impl Abort, alloc: Global, realm: &mut Realm, says: &str) -> bool {
    let said = told_gone(rt, alloc, realm, 3);
    said.as_slice() == says.as_bytes()
}

fn is_gone(rt: &impl Abort, alloc: Global, realm: &mut Realm, rows: &[Gone], says: &str) {
    say_all(rt, alloc, realm, rows);
    check!(rt; is_told_gone(rt, alloc, realm, says));
    check!(rt; is_told_gone(rt, alloc, realm, ""));
}

fn is_gone_reloaded(rt: &impl Abort, alloc: Global, realm: &mut Realm, rows: &[Gone], says: &str) {
    say_all_reloaded(rt, alloc, realm, rows);
    check!(rt; is_told_gone(rt, alloc, realm, says));
    reload(rt, alloc, realm);
    check!(rt; is_told_gone(rt, alloc, realm, ""));
}

// Checks what the end of node 3 makes the realm say after these rows, once, and the same of a realm that is saved and loaded between them.
fn check_gone(rt: &impl Abort, alloc: Global, rows: &[Gone], says: &str) {
    let mut realm = realm_of(rt, alloc, 4096);
    is_gone(rt, alloc, &mut realm, rows, says);
    realm = realm_of(rt, alloc, 4096);
    is_gone_reloaded(rt, alloc, &mut realm, rows, says);
}

const A_NODE_IS_GONE: &[Gone] = &[
    (2, 9, 1, "connect"),
    (3, 1, 1, "connect"),
    (3, 2, 1, "connect"),
    (2, 9, 1, HELLO),
    (3, 1, 2, HELLO),
    (3, 1, 3, "[64,1,{},\"p\"]"),
    (2, 9, 3, "[48,3,{},\"p\"]"),
];

#[test]
fn a_node_is_gone(rt: HostRuntime) {
    check_gone(
        &rt,
        rt.alloc(),
        A_NODE_IS_GONE,
        "9 [8,48,3,{},\"wamp.error.canceled\"];1 [6,{},\"wamp.close.system_shutdown\"];1 close;2 close;",
    );
}
