// Rows on registrations: steps of sessions that register and withdraw, and which callee is called.
use crate::check::Check;
use realm_registrations::Registrations;
use realm_sessions::RealmFault;
use std::alloc::Global;
use std::process::Abort;
use test_checks::check;
use wamp_ids::{Id, Invoke, Match, Pattern, Uri};

// By which match and policy a session registers.
type Way = (Match, Invoke);

const SINGLE: Way = (Match::Exact, Invoke::Single);

const FIRST: Way = (Match::Exact, Invoke::First);

const LAST: Way = (Match::Exact, Invoke::Last);

const ROUND_ROBIN: Way = (Match::Exact, Invoke::RoundRobin);

const PREFIX: Way = (Match::Prefix, Invoke::Single);

const WILDCARD: Way = (Match::Wildcard, Invoke::Single);

// What is done or asked, and what comes of it.
#[derive(Drop)]
enum Step<'a> {
    // A session registers for a pattern: the registration's id.
    Register(u64, &'a str, Way, Result<u64, RealmFault>),
    // A session withdraws from a registration.
    Unregister(u64, u64, Result<(), RealmFault>),
    // A session leaves.
    Leave(u64),
    // The registration's callees take turns.
    Turn(u64),
    // The callee that a call of the URI goes to.
    Callee(&'a str, Option<u64>),
    // The registration that serves the URI.
    Serving(&'a str, Option<u64>),
    // The callee that a call of the URI goes to; then its registration's callees take turns.
    Call(&'a str, Option<u64>),
}

fn id(rt: &impl Abort, number: u64) -> Id {
    Id::new(number).expect(rt, "an id")
}

fn registers(
    rt: &impl Abort,
    registrations: &mut Registrations,
    session: u64,
    text: &str,
    way: Way,
    wanted: Result<u64, RealmFault>,
) -> bool {
    let pattern = Pattern::of(text, way.0).expect(rt, "a pattern");
    let given = registrations.register(id(rt, session), &pattern, way.1);
    given.map(|id| id.get()) == wanted
}

fn unregisters(
    rt: &impl Abort,
    registrations: &mut Registrations,
    session: u64,
    registration: u64,
    wanted: Result<(), RealmFault>,
) -> bool {
    registrations.unregister(id(rt, session), id(rt, registration)) == wanted
}

fn leaves(rt: &impl Abort, registrations: &mut Registrations, session: u64) -> bool {
    registrations.leave(id(rt, session));
    true
}

fn turns(rt: &impl Abort, registrations: &mut Registrations, registration: u64) -> bool {
    registrations.turn(id(rt, registration));
    true
}

// The registration that serves the URI, and its callee.
fn chosen(rt: &impl Abort, registrations: &Registrations, uri: &str) -> Option<(Id, Id)> {
    let uri = Uri::of(uri).expect(rt, "a URI");
    match registrations.choose(&uri) {
        Some(chosen) => Some((chosen.registration, chosen.callee)),
        None => None,
    }
}

fn callee(rt: &impl Abort, registrations: &Registrations, uri: &str) -> Option<u64> {
    let (_, callee) = chosen(rt, registrations, uri)?;
    Some(callee.get())
}

fn serving(rt: &impl Abort, registrations: &Registrations, uri: &str) -> Option<u64> {
    let (registration, _) = chosen(rt, registrations, uri)?;
    Some(registration.get())
}

// Returns the callee that is called, if there is one; then its registration's callees take turns.
fn called(rt: &impl Abort, registrations: &mut Registrations, uri: &str) -> Option<u64> {
    let (registration, callee) = chosen(rt, registrations, uri)?;
    registrations.turn(registration);
    Some(callee.get())
}

// Takes the step. Returns whether it comes as it says.
fn take(rt: &impl Abort, registrations: &mut Registrations, step: &Step<'_>) -> bool {
    match step {
        Step::Register(session, text, way, wanted) => {
            registers(rt, registrations, *session, text, *way, *wanted)
        },
        Step::Unregister(session, registration, wanted) => {
            unregisters(rt, registrations, *session, *registration, *wanted)
        },
        Step::Leave(session) => leaves(rt, registrations, *session),
        Step::Turn(registration) => turns(rt, registrations, *registration),
        Step::Callee(uri, wanted) => callee(rt, registrations, uri) == *wanted,
        Step::Serving(uri, wanted) => serving(rt, registrations, uri) == *wanted,
        Step::Call(uri, wanted) => called(rt, registrations, uri) == *wanted,
    }
}

// Takes all steps; a note on a failed check is the step's place among them, from 0 on.
fn take_all(rt: &impl Abort, registrations: &mut Registrations, steps: &[Step<'_>]) {
    for (place, step) in steps.iter().enumerate() {
        check!(rt; take(rt, registrations, step), place);
    }
}

// Takes these steps at registrations with this limit.
fn check(rt: &impl Abort, alloc: Global, limit: u32, steps: &[Step<'_>]) {
    let mut registrations = Registrations::new(alloc, limit);
    take_all(rt, &mut registrations, steps);
}

const THE_LAST_THAT_REGISTERED_IS_CALLED: &[Step<'static>] = &[
    Step::Callee("p", None),
    Step::Register(1, "p", LAST, Ok(1)),
    Step::Register(2, "p", LAST, Ok(1)),
    Step::Serving("p", Some(1)),
    Step::Callee("p", Some(2)),
    Step::Leave(2),
    Step::Callee("p", Some(1)),
    Step::Leave(1),
    Step::Callee("p", None),
    Step::Register(1, "p", FIRST, Ok(2)),
    Step::Register(2, "p", FIRST, Ok(2)),
    Step::Callee("p", Some(1)),
    Step::Turn(2),
    Step::Callee("p", Some(1)),
];

#[test]
fn the_last_that_registered_is_called(rt: HostRuntime) {
    check(&rt, rt.alloc(), 8, THE_LAST_THAT_REGISTERED_IS_CALLED);
}

const CALLEES_TAKE_TURNS: &[Step<'static>] = &[
    Step::Register(1, "p", ROUND_ROBIN, Ok(1)),
    Step::Register(2, "p", ROUND_ROBIN, Ok(1)),
    Step::Callee("p", Some(1)),
    Step::Turn(1),
    Step::Register(3, "p", ROUND_ROBIN, Ok(1)),
    Step::Callee("p", Some(2)),
    Step::Turn(1),
    Step::Callee("p", Some(1)),
    Step::Turn(1),
    Step::Callee("p", Some(3)),
    Step::Turn(1),
    Step::Callee("p", Some(2)),
    Step::Turn(7),
    Step::Callee("p", Some(2)),
];

#[test]
fn callees_take_turns(rt: HostRuntime) {
    check(&rt, rt.alloc(), 8, CALLEES_TAKE_TURNS);
}

const A_NEWCOMER_COMES_LAST: &[Step<'static>] = &[
    Step::Register(1, "p", ROUND_ROBIN, Ok(1)),
    Step::Register(2, "p", ROUND_ROBIN, Ok(1)),
    Step::Register(3, "p", ROUND_ROBIN, Ok(1)),
    Step::Call("p", Some(1)),
    Step::Call("p", Some(2)),
    Step::Register(4, "p", ROUND_ROBIN, Ok(1)),
    Step::Call("p", Some(3)),
    Step::Call("p", Some(1)),
    Step::Call("p", Some(2)),
    Step::Call("p", Some(4)),
    Step::Call("p", Some(3)),
    Step::Unregister(2, 1, Ok(())),
    Step::Call("p", Some(1)),
    Step::Call("p", Some(4)),
    Step::Call("p", Some(3)),
    Step::Leave(1),
    Step::Call("p", Some(4)),
    Step::Leave(4),
    Step::Call("p", Some(3)),
    Step::Leave(3),
    Step::Call("p", None),
    Step::Register(5, "p", ROUND_ROBIN, Ok(2)),
];

#[test]
fn a_newcomer_comes_last(rt: HostRuntime) {
    check(&rt, rt.alloc(), 8, A_NEWCOMER_COMES_LAST);
}

const REGISTRATIONS_ARE_REFUSED: &[Step<'static>] = &[
    Step::Register(1, "wamp.x", SINGLE, Err(RealmFault::InvalidUri)),
    Step::Register(1, "wamp", PREFIX, Err(RealmFault::InvalidUri)),
    Step::Register(1, "wamp..x", WILDCARD, Err(RealmFault::InvalidUri)),
    Step::Register(1, "a.b", SINGLE, Ok(1)),
    Step::Register(2, "a.b", SINGLE, Err(RealmFault::AlreadyExists)),
    Step::Register(1, "a.b", SINGLE, Err(RealmFault::AlreadyExists)),
    Step::Register(2, "a.b", FIRST, Err(RealmFault::AlreadyExists)),
    Step::Register(2, "a.b", PREFIX, Ok(2)),
    Step::Register(1, "c", LAST, Ok(3)),
    Step::Register(2, "c", FIRST, Err(RealmFault::AlreadyExists)),
    Step::Register(2, "c", LAST, Ok(3)),
    Step::Register(2, "c", LAST, Err(RealmFault::AlreadyExists)),
    Step::Register(2, "d", SINGLE, Err(RealmFault::Limit)),
    Step::Register(1, "c", LAST, Err(RealmFault::AlreadyExists)),
    Step::Register(1, "d", SINGLE, Err(RealmFault::Limit)),
    Step::Register(3, "d", ROUND_ROBIN, Ok(4)),
    Step::Register(1, "d", ROUND_ROBIN, Err(RealmFault::Limit)),
    Step::Unregister(3, 1, Err(RealmFault::NoSuchRegistration)),
    Step::Unregister(1, 9, Err(RealmFault::NoSuchRegistration)),
    Step::Unregister(1, 1, Ok(())),
    Step::Unregister(1, 1, Err(RealmFault::NoSuchRegistration)),
    Step::Register(1, "a.b", SINGLE, Ok(5)),
    Step::Leave(2),
    Step::Callee("c", Some(1)),
    Step::Register(2, "e", SINGLE, Ok(6)),
    Step::Register(2, "", WILDCARD, Ok(7)),
    Step::Register(2, "f", SINGLE, Err(RealmFault::Limit)),
];

#[test]
fn registrations_are_refused(rt: HostRuntime) {
    check(&rt, rt.alloc(), 2, REGISTRATIONS_ARE_REFUSED);
}

const ONE_REGISTRATION_SERVES: &[Step<'static>] = &[
    Step::Register(1, "a.", WILDCARD, Ok(1)),
    Step::Register(1, "a", PREFIX, Ok(2)),
    Step::Register(1, "a.", PREFIX, Ok(3)),
    Step::Register(1, "a.b", SINGLE, Ok(4)),
    Step::Serving("a.b", Some(4)),
    Step::Unregister(1, 4, Ok(())),
    Step::Serving("a.b", Some(3)),
    Step::Unregister(1, 3, Ok(())),
    Step::Serving("a.b", Some(2)),
    Step::Unregister(1, 2, Ok(())),
    Step::Serving("a.b", Some(1)),
    Step::Callee("a.b", Some(1)),
    Step::Unregister(1, 1, Ok(())),
    Step::Serving("a.b", None),
];

#[test]
fn one_registration_serves(rt: HostRuntime) {
    check(&rt, rt.alloc(), 8, ONE_REGISTRATION_SERVES);
}

#[test]
fn one_of_two_wildcards_is_chosen(rt: HostRuntime) {
    for (one, other, uri, serves) in [
        ("a1.b2..d4.e5", "a1.b2.c33..e5", "a1.b2.c33.d4.e5", 2),
        (
            "a1.b2..d4.e5..g7",
            "a1.b2..d4..f6.g7",
            "a1.b2.c88.d4.e5.f6.g7",
            1,
        ),
        ("a.b...", "a..c.d.e", "a.b.c.d.e", 1),
    ] {
        let rows = [
            Step::Register(1, one, WILDCARD, Ok(1)),
            Step::Register(2, other, WILDCARD, Ok(2)),
            Step::Callee(uri, Some(serves)),
            Step::Leave(1),
            Step::Register(1, one, WILDCARD, Ok(3)),
            Step::Callee(uri, Some(serves)),
        ];
        check(&rt, rt.alloc(), 8, rows.as_slice());
    }
}
