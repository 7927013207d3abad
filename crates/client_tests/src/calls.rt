// Rows on open calls: steps, and what comes of each.
ghost use Rattle.std.specs.Prelude.{◌≡◌};
ghost use Rattle.realm_sessions.specs.Links.{has_number};

use crate::check::Check;
use realm_calls::{Calls, Cancelled, Open};
use realm_sessions::RealmFault;
use std::process::Abort;
use test_checks::check;
use wamp_ids::{Id, Mode};

// A caller and its request.
type Request = (u64, u64);

// A callee and the id of an invocation there.
type Invocation = (u64, u64);

// What is done or asked, and what comes of it.
enum Step {
    // The request opens a call with this invocation.
    Open(Request, Invocation, Result<(), RealmFault>),
    // The request opens a call whose caller takes progressive results.
    OpenProgressive(Request, Invocation),
    // The request or the invocation is open already, so that no call may be opened with both.
    IsOpen(Request, Invocation),
    // Whether the request is open.
    Has(Request, bool),
    // Whether the caller has as many open calls as it may have.
    IsFull(u64, bool),
    // The callee of the request, if that is open.
    Callee(Request, Option<u64>),
    // The open call of the invocation, and whether its caller takes progressive results.
    Peek(Invocation, Option<(Request, bool)>),
    // Whether the invocation is open.
    IsInvoked(Invocation, bool),
    // The open invocations of a callee.
    Invocations(u64, &'static [u64]),
    // The open calls, oldest first.
    Calls(&'static [Request]),
    // The callee answers an invocation, which ends this call.
    Answer(Invocation, Result<Request, RealmFault>),
    // The caller cancels its request in this mode, at a callee that announced call canceling or did not: whether that ends the call, and the
    // mode of the INTERRUPT.
    Cancel(Request, Mode, bool, Result<(bool, Option<Mode>), RealmFault>),
    // A callee leaves, which ends these calls.
    CalleeLeaves(u64, &'static [Request]),
    // A caller leaves, which ends these calls.
    CallerLeaves(u64, &'static [Request]),
}

fn id(rt: &impl Abort, number: u64) -> Id {
    Id::new(number).expect(rt, "an id")
}

fn request_of(call: &Open) -> Request {
    (call.caller.get(), call.request.get())
}

// Whether these are the calls, in this order.
fn are_calls(calls: &[Open], wanted: &[Request]) -> bool {
    calls.len() == wanted.len()
        && calls
            .iter()
            .zip(wanted.iter())
            .all(|(call, wanted)| request_of(call) == *wanted)
}

// Whether these are the ids, in this order.
fn are_ids(ids: &[Id], wanted: &[u64]) -> bool {
    ids.len() == wanted.len()
        && ids
            .iter()
            .zip(wanted.iter())
            .all(|(id, wanted)| id.get() == *wanted)
}

fn is_among(ids: &[Id], id: Id) -> bool
    ensures { result ≡ has_number ids.now id }
{
    ids.iter().any(|other| *other == id)
}

fn call_of(rt: &impl Abort, request: Request, invocation: Invocation, progress: bool) -> Open {
    Open {
        caller: id(rt, request.0),
        request: id(rt, request.1),
        callee: id(rt, invocation.0),
        invocation: id(rt, invocation.1),
        progress,
    }
}

// Opens the call; `None` if its request or its invocation is open already.
fn opened(rt: &impl Abort, calls: &mut Calls, call: &Open) -> Option<Result<(), RealmFault>> {
    let taken = calls.open_of(call.callee).expect(rt, "room for ids");
    if is_among(&taken, call.invocation) || calls.has(call.caller, call.request) {
        return None;
    }
    Some(calls.open(
        call.caller,
        call.request,
        call.callee,
        call.invocation,
        call.progress,
    ))
}

fn opens(
    rt: &impl Abort,
    calls: &mut Calls,
    request: Request,
    invocation: Invocation,
    progress: bool,
    wanted: Result<(), RealmFault>,
) -> bool {
    let call = call_of(rt, request, invocation, progress);
    match opened(rt, calls, &call) {
        Some(outcome) => outcome == wanted,
        None => false,
    }
}

fn is_open(rt: &impl Abort, calls: &mut Calls, request: Request, invocation: Invocation) -> bool {
    let call = call_of(rt, request, invocation, false);
    opened(rt, calls, &call).is_none()
}

fn has(rt: &impl Abort, calls: &Calls, request: Request) -> bool {
    calls.has(id(rt, request.0), id(rt, request.1))
}

// The callee of the request, if that is open.
fn callee_of(rt: &impl Abort, calls: &Calls, request: Request) -> Option<u64> {
    match calls.call_of(id(rt, request.0), id(rt, request.1)) {
        Some(call) => Some(call.callee.get()),
        None => None,
    }
}

// The open call of the invocation, and whether its caller takes progressive results.
fn peeked(rt: &impl Abort, calls: &Calls, invocation: Invocation) -> Option<(Request, bool)> {
    match calls.peek(id(rt, invocation.0), id(rt, invocation.1)) {
        Some(call) => Some((request_of(call), call.progress)),
        None => None,
    }
}

fn is_invoked(rt: &impl Abort, calls: &Calls, invocation: Invocation) -> bool {
    calls.is_invoked(id(rt, invocation.0), id(rt, invocation.1))
}

fn are_invocations(rt: &impl Abort, calls: &Calls, callee: u64, wanted: &[u64]) -> bool {
    let found = calls.open_of(id(rt, callee)).expect(rt, "room for ids");
    are_ids(&found, wanted)
}

fn are_open(rt: &impl Abort, calls: &Calls, wanted: &[Request]) -> bool {
    let open = calls.to_vec().expect(rt, "room for calls");
    are_calls(&open, wanted)
}

fn answers(
    rt: &impl Abort,
    calls: &mut Calls,
    invocation: Invocation,
    wanted: Result<Request, RealmFault>,
) -> bool {
    let given = calls.answer(id(rt, invocation.0), id(rt, invocation.1));
    given.map(|call| request_of(&call)) == wanted
}

// Whether the canceled call is that of the request, and has this outcome.
fn is_canceled(canceled: &Cancelled, request: Request, wanted: (bool, Option<Mode>)) -> bool {
    request_of(&canceled.call) == request
        && canceled.is_ended == wanted.0
        && canceled.interrupt == wanted.1
}

fn cancels(
    rt: &impl Abort,
    calls: &mut Calls,
    request: Request,
    mode: Mode,
    announces: bool,
    wanted: Result<(bool, Option<Mode>), RealmFault>,
) -> bool {
    let given = calls.cancel(id(rt, request.0), id(rt, request.1), mode, announces);
    match (given, wanted) {
        (Ok(canceled), Ok(wanted)) => is_canceled(&canceled, request, wanted),
        (Err(fault), Err(wanted)) => fault == wanted,
        (Ok(_), Err(_)) | (Err(_), Ok(_)) => false,
    }
}

fn callee_leaves(rt: &impl Abort, calls: &mut Calls, callee: u64, wanted: &[Request]) -> bool {
    let ended = calls
        .leave_callee(id(rt, callee))
        .expect(rt, "room for calls");
    are_calls(&ended, wanted)
}

fn caller_leaves(rt: &impl Abort, calls: &mut Calls, caller: u64, wanted: &[Request]) -> bool {
    let ended = calls
        .leave_caller(id(rt, caller))
        .expect(rt, "room for calls");
    are_calls(&ended, wanted)
}

// Takes the step. Returns whether it comes as it says.
fn take(rt: &impl Abort, calls: &mut Calls, step: &Step) -> bool {
    match step {
        Step::Open(request, invocation, wanted) => {
            opens(rt, calls, *request, *invocation, false, *wanted)
        },
        Step::OpenProgressive(request, invocation) => {
            opens(rt, calls, *request, *invocation, true, Ok(()))
        },
        Step::IsOpen(request, invocation) => is_open(rt, calls, *request, *invocation),
        Step::Has(request, wanted) => has(rt, calls, *request) == *wanted,
        Step::IsFull(caller, wanted) => calls.is_full(id(rt, *caller)) == *wanted,
        Step::Callee(request, wanted) => callee_of(rt, calls, *request) == *wanted,
        Step::Peek(invocation, wanted) => peeked(rt, calls, *invocation) == *wanted,
        Step::IsInvoked(invocation, wanted) => is_invoked(rt, calls, *invocation) == *wanted,
        Step::Invocations(callee, wanted) => are_invocations(rt, calls, *callee, wanted),
        Step::Calls(wanted) => are_open(rt, calls, wanted),
        Step::Answer(invocation, wanted) => answers(rt, calls, *invocation, *wanted),
        Step::Cancel(request, mode, announces, wanted) => {
            cancels(rt, calls, *request, *mode, *announces, *wanted)
        },
        Step::CalleeLeaves(callee, wanted) => callee_leaves(rt, calls, *callee, wanted),
        Step::CallerLeaves(caller, wanted) => caller_leaves(rt, calls, *caller, wanted),
    }
}

// Takes all steps; a note on a failed check is the step's place among them, from 0 on.
fn take_all(rt: &impl Abort, calls: &mut Calls, steps: &[Step]) {
    for (place, step) in steps.iter().enumerate() {
        check!(rt; take(rt, calls, step), place);
    }
}

const OPENS_AND_ANSWERS_CALLS: &[Step] = &[
    Step::Has((1, 5), false),
    Step::IsFull(1, false),
    Step::Open((1, 5), (9, 1), Ok(())),
    Step::IsOpen((1, 5), (9, 2)),
    Step::IsOpen((2, 5), (9, 1)),
    Step::Has((1, 5), true),
    Step::Callee((1, 5), Some(9)),
    Step::Open((1, 6), (1, 1), Ok(())),
    Step::IsFull(1, true),
    Step::Open((1, 7), (9, 2), Err(RealmFault::Limit)),
    Step::IsFull(2, false),
    Step::Open((2, 5), (9, 3), Ok(())),
    Step::Open((2, 6), (1, 2), Ok(())),
    Step::Invocations(9, &[1, 3]),
    Step::Invocations(1, &[1, 2]),
    Step::Invocations(3, &[]),
    Step::IsInvoked((9, 3), true),
    Step::IsInvoked((9, 2), false),
    Step::Calls(&[(1, 5), (1, 6), (2, 5), (2, 6)]),
    Step::Answer((9, 2), Err(RealmFault::NotOpen)),
    Step::Answer((9, 3), Ok((2, 5))),
    Step::Answer((9, 3), Err(RealmFault::NotOpen)),
    Step::Has((2, 5), false),
    Step::Callee((2, 5), None),
    Step::IsFull(2, false),
    Step::Open((2, 7), (9, 3), Ok(())),
    Step::Calls(&[(1, 5), (1, 6), (2, 6), (2, 7)]),
];

#[test]
fn opens_and_answers_calls(rt: HostRuntime) {
    let mut calls = Calls::new(rt.alloc(), 2);
    take_all(&rt, &mut calls, OPENS_AND_ANSWERS_CALLS);
}

const CANCELS_CALLS: &[Step] = &[
    Step::Cancel((2, 5), Mode::Kill, true, Err(RealmFault::NotOpen)),
    Step::Open((2, 5), (9, 1), Ok(())),
    Step::Open((2, 6), (9, 2), Ok(())),
    Step::Open((2, 7), (9, 3), Ok(())),
    Step::Cancel((2, 5), Mode::Kill, true, Ok((false, Some(Mode::Kill)))),
    Step::Cancel((2, 5), Mode::Kill, true, Ok((false, Some(Mode::Kill)))),
    Step::Has((2, 5), true),
    Step::Cancel(
        (2, 5),
        Mode::KillNoWait,
        true,
        Ok((true, Some(Mode::KillNoWait))),
    ),
    Step::Cancel((2, 5), Mode::Kill, true, Err(RealmFault::NotOpen)),
    Step::Answer((9, 1), Err(RealmFault::NotOpen)),
    Step::Cancel((2, 6), Mode::Skip, true, Ok((true, None))),
    Step::Cancel((2, 6), Mode::Skip, true, Err(RealmFault::NotOpen)),
    Step::Cancel((2, 7), Mode::Kill, false, Ok((true, None))),
    Step::Calls(&[]),
];

#[test]
fn cancels_calls(rt: HostRuntime) {
    let mut calls = Calls::new(rt.alloc(), 4);
    take_all(&rt, &mut calls, CANCELS_CALLS);
}

const PEEKS_AT_CALLS: &[Step] = &[
    Step::Peek((9, 1), None),
    Step::OpenProgressive((1, 5), (9, 1)),
    Step::Open((2, 5), (9, 2), Ok(())),
    Step::Peek((9, 1), Some(((1, 5), true))),
    Step::Peek((9, 1), Some(((1, 5), true))),
    Step::Peek((9, 2), Some(((2, 5), false))),
    Step::Peek((1, 5), None),
    Step::Cancel((1, 5), Mode::Kill, true, Ok((false, Some(Mode::Kill)))),
    Step::Peek((9, 1), Some(((1, 5), true))),
    Step::Calls(&[(1, 5), (2, 5)]),
    Step::Answer((9, 1), Ok((1, 5))),
    Step::Peek((9, 1), None),
    Step::Cancel(
        (2, 5),
        Mode::KillNoWait,
        true,
        Ok((true, Some(Mode::KillNoWait))),
    ),
    Step::Peek((9, 2), None),
];

#[test]
fn peeks_at_calls(rt: HostRuntime) {
    let mut calls = Calls::new(rt.alloc(), 4);
    take_all(&rt, &mut calls, PEEKS_AT_CALLS);
}

const ENDS_THE_CALLS_OF_A_SESSION: &[Step] = &[
    Step::Open((4, 1), (5, 1), Ok(())),
    Step::Open((4, 2), (4, 1), Ok(())),
    Step::Open((3, 5), (4, 2), Ok(())),
    Step::Open((2, 6), (4, 3), Ok(())),
    Step::Open((3, 7), (2, 1), Ok(())),
    Step::Open((4, 3), (2, 2), Ok(())),
    Step::CalleeLeaves(4, &[(3, 5), (2, 6)]),
    Step::Calls(&[(4, 1), (4, 2), (3, 7), (4, 3)]),
    Step::CallerLeaves(4, &[(4, 1), (4, 3)]),
    Step::Calls(&[(3, 7)]),
    Step::CalleeLeaves(4, &[]),
    Step::CallerLeaves(4, &[]),
    Step::Calls(&[(3, 7)]),
];

#[test]
fn ends_the_calls_of_a_session(rt: HostRuntime) {
    let mut calls = Calls::new(rt.alloc(), 4);
    take_all(&rt, &mut calls, ENDS_THE_CALLS_OF_A_SESSION);
}
