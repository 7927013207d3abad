// The program's own limits: what is one more than they allow is refused for the limit, and again once the realm was saved and loaded.
use crate::check::Check;
use crate::realm::{HELLO, reload, replies, transport};
use realm_machine::{Limits, Realm};
use std::alloc::Global;
use std::process::Abort;
use test_checks::check;

// What a client asks for again and again.
#[derive(Clone, Copy)]
enum Asked {
    Subscription,
    Registration,
    Call,
}

fn served(rt: &impl Abort, alloc: Global) -> Realm {
    let name = String::from_str(alloc, "realm1").expect(rt, "room for a name");
    Realm::new(alloc, name, Limits::SERVED)
}

// Connects a transport, and returns what the realm says to its HELLO, whose draw is the transport's number.
fn hello(rt: &impl Abort, alloc: Global, realm: &mut Realm, number: u32) -> Vec<u8> {
    drop(replies(rt, alloc, realm, transport(number), 1, "connect"));
    replies(
        rt,
        alloc,
        realm,
        transport(number),
        u64::from(number),
        HELLO,
    )
}

fn is_welcome(rt: &impl Abort, alloc: Global, realm: &mut Realm, number: u32) -> bool {
    let says = hello(rt, alloc, realm, number);
    let welcome = format!(in alloc; "{number} [2,{number},").expect(rt, "room for a text");
    says.as_slice().starts_with(welcome.as_bytes())
}

fn is_refused(
    rt: &impl Abort,
    alloc: Global,
    realm: &mut Realm,
    number: u32,
    wanted: &str,
) -> bool {
    let says = hello(rt, alloc, realm, number);
    says.as_slice() == wanted.as_bytes()
}

fn opens_sessions(rt: &impl Abort, alloc: Global, realm: &mut Realm, sessions: u32) {
    for number in 1..=sessions {
        check!(rt; is_welcome(rt, alloc, realm, number), number);
    }
}

fn sessions_end(rt: &impl Abort, alloc: Global, realm: &mut Realm) {
    opens_sessions(rt, alloc, realm, 4096);
    check!(rt; is_refused(rt, alloc, realm, 4097, "4097 [3,{},\"cluster.error.limit\"];4097 close;"));
    reload(rt, alloc, realm);
    check!(rt; is_refused(rt, alloc, realm, 4098, "4098 [3,{},\"cluster.error.limit\"];4098 close;"));
}

#[test]
fn session_4097_is_refused(rt: HostRuntime) {
    let mut realm = served(&rt, rt.alloc());
    sessions_end(&rt, rt.alloc(), &mut realm);
}

// The request of this number.
fn request(rt: &impl Abort, alloc: Global, asked: Asked, number: u64) -> String {
    match asked {
        Asked::Subscription => format!(in alloc; "[32,{number},{{}},\"t{number}\"]"),
        Asked::Registration => format!(in alloc; "[64,{number},{{}},\"p{number}\"]"),
        Asked::Call => format!(in alloc; "[48,{number},{{}},\"p1\"]"),
    }
    .expect(rt, "room for a text")
}

// What the realm says to it below the limit.
fn granted(rt: &impl Abort, alloc: Global, asked: Asked, number: u64) -> String {
    match asked {
        Asked::Subscription => format!(in alloc; "1 [33,{number},{number}];"),
        Asked::Registration => format!(in alloc; "1 [65,{number},{number}];"),
        Asked::Call => format!(in alloc; "1 [68,{number},1,{{}}];"),
    }
    .expect(rt, "room for a text")
}

// What client 1 is told to the request of this number.
fn told(rt: &impl Abort, alloc: Global, realm: &mut Realm, asked: Asked, number: u64) -> Vec<u8> {
    let text = request(rt, alloc, asked, number);
    replies(rt, alloc, realm, transport(1), 1, text.as_str())
}

fn is_granted(
    rt: &impl Abort,
    alloc: Global,
    realm: &mut Realm,
    asked: Asked,
    number: u64,
) -> bool {
    let says = told(rt, alloc, realm, asked, number);
    let wanted = granted(rt, alloc, asked, number);
    says.as_slice() == wanted.as_bytes()
}

fn is_over(rt: &impl Abort, alloc: Global, realm: &mut Realm, asked: Asked, wanted: &str) -> bool {
    let says = told(rt, alloc, realm, asked, 1025);
    says.as_slice() == wanted.as_bytes()
}

fn goes_to_1024(rt: &impl Abort, alloc: Global, realm: &mut Realm, asked: Asked, wanted: &str) {
    for number in 1..=1024 {
        check!(rt; is_granted(rt, alloc, realm, asked, number), number);
    }
    check!(rt; is_over(rt, alloc, realm, asked, wanted), wanted);
    reload(rt, alloc, realm);
    check!(rt; is_over(rt, alloc, realm, asked, wanted), wanted);
}

// A session calls its own procedure.
fn one_session_goes(rt: &impl Abort, alloc: Global, realm: &mut Realm) {
    opens_sessions(rt, alloc, realm, 1);
    let subscription = "1 [8,32,1025,{},\"cluster.error.limit\"];";
    goes_to_1024(rt, alloc, realm, Asked::Subscription, subscription);
    let registration = "1 [8,64,1025,{},\"cluster.error.limit\"];";
    goes_to_1024(rt, alloc, realm, Asked::Registration, registration);
    let call = "1 [8,48,1025,{},\"cluster.error.limit\"];";
    goes_to_1024(rt, alloc, realm, Asked::Call, call);
}

#[test]
fn number_1025_of_a_session_is_refused(rt: HostRuntime) {
    let mut realm = served(&rt, rt.alloc());
    one_session_goes(&rt, rt.alloc(), &mut realm);
}
