// Rows on sessions: steps, and what comes of each; and on the faults of a realm's parts.
use crate::check::Check;
use realm_sessions::{Link, RealmFault, Sessions, Transport};
use std::process::Abort;
use test_checks::{check, check_eq};
use wamp_ids::Id;

fn transport(node: u8, number: u32) -> Transport {
    Transport {
        node,
        boot: 1,
        number,
    }
}

// What is done with a transport of node 1 or asked of it, by its number, or of a session; and what comes of it.
enum Step {
    // The transport is connected.
    Connect(u32, Result<(), RealmFault>),
    // A session is opened there by this draw: its id.
    Open(u32, u64, Result<u64, RealmFault>),
    // No session may be opened there, since the transport is not connected, or has one.
    MayNotOpen(u32, u64),
    // Its session is closed, if it has one.
    Close(u32),
    // The transport is removed.
    Remove(u32),
    // Its session's id.
    Session(u32, u64),
    // The transport is connected, and has no session.
    NoSession(u32),
    NotConnected(u32),
    // The number of the transport of the session with this id, if it is open, and whether it announced call canceling.
    Place(u64, Option<u32>, bool),
}

fn id(rt: &impl Abort, number: u64) -> Id {
    Id::new(number).expect(rt, "an id")
}

// Opens a session by this draw, which announces call canceling at transport 1 alone; `None` if the transport is not connected, or has a session.
fn opened(sessions: &mut Sessions, number: u32, draw: Id) -> Option<Result<Id, RealmFault>> {
    let transport = transport(1, number);
    if let Some(None) = sessions.by_transport(transport) {
        Some(sessions.open(transport, draw, number == 1))
    } else {
        None
    }
}

fn opens(
    rt: &impl Abort,
    sessions: &mut Sessions,
    number: u32,
    draw: u64,
    wanted: Result<u64, RealmFault>,
) -> bool {
    match opened(sessions, number, id(rt, draw)) {
        Some(outcome) => outcome.map(|id| id.get()) == wanted,
        None => false,
    }
}

fn session_at(sessions: &Sessions, number: u32) -> Option<Option<Id>> {
    sessions.by_transport(transport(1, number))
}

// The number of the transport of the session with this id.
fn place_of(sessions: &Sessions, id: Id) -> Option<u32> {
    match sessions.by_id(id) {
        Some(transport) => Some(transport.number),
        None => None,
    }
}

fn is_placed(
    rt: &impl Abort,
    sessions: &Sessions,
    number: u64,
    place: Option<u32>,
    announces: bool,
) -> bool {
    let id = id(rt, number);
    place_of(sessions, id) == place && sessions.announces(id) == announces
}

fn close(sessions: &mut Sessions, number: u32) -> bool {
    sessions.close(transport(1, number));
    true
}

fn remove(sessions: &mut Sessions, number: u32) -> bool {
    sessions.remove(transport(1, number));
    true
}

// Takes the step. Returns whether it comes as it says.
fn take(rt: &impl Abort, sessions: &mut Sessions, step: &Step) -> bool {
    match step {
        Step::Connect(number, wanted) => sessions.connect(transport(1, *number)) == *wanted,
        Step::Open(number, draw, wanted) => opens(rt, sessions, *number, *draw, *wanted),
        Step::MayNotOpen(number, draw) => opened(sessions, *number, id(rt, *draw)).is_none(),
        Step::Close(number) => close(sessions, *number),
        Step::Remove(number) => remove(sessions, *number),
        Step::Session(number, wanted) => {
            session_at(sessions, *number) == Some(Some(id(rt, *wanted)))
        },
        Step::NoSession(number) => session_at(sessions, *number) == Some(None),
        Step::NotConnected(number) => session_at(sessions, *number).is_none(),
        Step::Place(number, place, announces) => {
            is_placed(rt, sessions, *number, *place, *announces)
        },
    }
}

const STEPS: &[Step] = &[
    Step::NotConnected(1),
    Step::MayNotOpen(1, 5),
    Step::Connect(1, Ok(())),
    Step::NoSession(1),
    Step::Open(1, 5, Ok(5)),
    Step::Connect(1, Ok(())),
    Step::Session(1, 5),
    Step::Connect(2, Ok(())),
    Step::Open(2, 5, Ok(6)),
    Step::Place(5, Some(1), true),
    Step::Place(6, Some(2), false),
    Step::Place(7, None, false),
    Step::Connect(3, Ok(())),
    Step::Open(3, 9, Err(RealmFault::Limit)),
    Step::NoSession(3),
    Step::Close(1),
    Step::NoSession(1),
    Step::Place(5, None, false),
    Step::Open(3, 9_007_199_254_740_992, Ok(9_007_199_254_740_992)),
    Step::Remove(2),
    Step::NotConnected(2),
    Step::Open(1, 9_007_199_254_740_992, Ok(1)),
    Step::Place(9_007_199_254_740_992, Some(3), false),
];

// Takes all steps; a note on a failed check is the step's place among them, from 0 on.
fn take_all(rt: &impl Abort, sessions: &mut Sessions) {
    for (place, step) in STEPS.iter().enumerate() {
        check!(rt; take(rt, sessions, step), place);
    }
}

#[test]
fn opens_and_closes_sessions(rt: HostRuntime) {
    let mut sessions = Sessions::new(rt.alloc(), 2);
    take_all(&rt, &mut sessions);
}

// The id of the session's next invocation; `None` if there is no such session.
fn next_of(sessions: &mut Sessions, session: Id, taken: &[Id]) -> Option<u64> {
    match sessions.next_invocation(session, taken) {
        Some(invocation) => Some(invocation.get()),
        None => None,
    }
}

// The id after that of the session's last invocation; `None` if there is no such session.
fn due_of(rt: &impl Abort, sessions: &Sessions, session: u64) -> Option<u64> {
    match sessions.due_invocation(id(rt, session)) {
        Some(invocation) => Some(invocation.get()),
        None => None,
    }
}

// A session, two ids that are taken, and the id of its next invocation.
const INVOCATIONS: &[(u64, [u64; 2], Option<u64>)] = &[
    (5, [9_007_199_254_740_992, 4], Some(1)),
    (5, [9_007_199_254_740_992, 4], Some(2)),
    (6, [1, 4], Some(2)),
    (6, [1, 4], Some(3)),
    (6, [1, 4], Some(5)),
    (5, [1, 4], Some(3)),
    (5, [4, 1], Some(5)),
    (7, [1, 4], None),
];

// Connects a transport.
fn connect(rt: &impl Abort, sessions: &mut Sessions, transport: Transport) {
    sessions
        .connect(transport)
        .expect(rt, "room for a transport");
}

// Connects two transports, and opens sessions 5 and 6 there.
fn open_both(rt: &impl Abort, sessions: &mut Sessions) {
    connect(rt, sessions, transport(1, 1));
    connect(rt, sessions, transport(1, 2));
    check!(rt; opens(rt, sessions, 1, 5, Ok(5)));
    check!(rt; opens(rt, sessions, 2, 6, Ok(6)));
}

fn is_next(
    rt: &impl Abort,
    sessions: &mut Sessions,
    session: u64,
    taken: [u64; 2],
    next: Option<u64>,
) -> bool {
    let taken = [id(rt, taken[0]), id(rt, taken[1])];
    next_of(sessions, id(rt, session), &taken) == next
}

fn hands_out(rt: &impl Abort, sessions: &mut Sessions) {
    open_both(rt, sessions);
    check!(rt; due_of(rt, sessions, 5) == Some(1));
    for (session, taken, next) in INVOCATIONS {
        check!(rt; is_next(rt, sessions, *session, *taken, *next), session);
    }
    check!(rt; due_of(rt, sessions, 5) == Some(6) && due_of(rt, sessions, 7).is_none());
    check!(rt; is_placed(rt, sessions, 5, Some(1), true));
}

#[test]
fn hands_out_ids_of_invocations(rt: HostRuntime) {
    let mut sessions = Sessions::new(rt.alloc(), 2);
    hands_out(&rt, &mut sessions);
}

fn connect_all(rt: &impl Abort, sessions: &mut Sessions) {
    for (node, number) in [(1, 4), (2, 1), (1, 2), (1, 4), (2, 3)] {
        connect(rt, sessions, transport(node, number));
    }
}

fn are_of(rt: &impl Abort, sessions: &Sessions, node: u8, wanted: &[Transport]) -> bool {
    let found = sessions.of_origin(node).expect(rt, "room for transports");
    found.as_slice() == wanted
}

// Whether the transports have these numbers, in this order.
fn are_numbered(links: &[Link], wanted: &[u32]) -> bool {
    links.len() == wanted.len()
        && links
            .iter()
            .zip(wanted.iter())
            .all(|(link, number)| link.transport.number == *number)
}

// Whether all transports are there in the order in which they came.
fn are_in_order(rt: &impl Abort, sessions: &Sessions) -> bool {
    let links = sessions.to_vec().expect(rt, "room for transports");
    are_numbered(&links, &[4, 1, 2, 3])
}

fn gives_all(rt: &impl Abort, sessions: &mut Sessions) {
    connect_all(rt, sessions);
    check!(rt; are_of(rt, sessions, 1, &[transport(1, 4), transport(1, 2)]));
    check!(rt; are_of(rt, sessions, 2, &[transport(2, 1), transport(2, 3)]));
    check!(rt; are_of(rt, sessions, 3, &[]));
    check!(rt; are_in_order(rt, sessions));
}

#[test]
fn gives_the_transports_of_a_node(rt: HostRuntime) {
    let mut sessions = Sessions::new(rt.alloc(), 2);
    gives_all(&rt, &mut sessions);
}

// Each fault, its number and its URI.
const FAULTS: &[(RealmFault, u8, Option<&str>)] = &[
    (RealmFault::InvalidUri, 101, Some("wamp.error.invalid_uri")),
    (
        RealmFault::InvalidArgument,
        102,
        Some("wamp.error.invalid_argument"),
    ),
    (RealmFault::Limit, 103, Some("cluster.error.limit")),
    (
        RealmFault::AlreadyExists,
        104,
        Some("wamp.error.procedure_already_exists"),
    ),
    (
        RealmFault::NoSuchRegistration,
        105,
        Some("wamp.error.no_such_registration"),
    ),
    (
        RealmFault::NoSuchSubscription,
        106,
        Some("wamp.error.no_such_subscription"),
    ),
    (
        RealmFault::NoSuchProcedure,
        107,
        Some("wamp.error.no_such_procedure"),
    ),
    (RealmFault::NotOpen, 108, None),
    (RealmFault::Memory, 109, None),
];

#[test]
fn seven_faults_have_uris(rt: HostRuntime) {
    for (fault, number, uri) in FAULTS {
        check_eq!(&rt; fault.number(), *number);
        check_eq!(&rt; fault.uri(), *uri);
    }
}
