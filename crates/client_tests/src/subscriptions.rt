// Rows on subscriptions: steps, and what comes of each.
use crate::check::Check;
use realm_sessions::RealmFault;
use realm_subscriptions::{Receiver, Subscriptions};
use std::process::Abort;
use test_checks::check;
use wamp_ids::{Id, Match, Pattern, Uri};

// A receiver of an event: its subscription, how that matches, and its session.
type Reached = (u64, Match, u64);

// What is done or asked, and what comes of it.
enum Step {
    // A session subscribes to a pattern: the subscription's id.
    Subscribe(u64, &'static str, Match, Result<u64, RealmFault>),
    // A session withdraws from a subscription.
    Unsubscribe(u64, u64, Result<(), RealmFault>),
    // A session leaves: the number of subscriptions that are left.
    Leave(u64, usize),
    // The receivers of an event on the URI, except this session.
    Receivers(&'static str, Option<u64>, &'static [Reached]),
}

fn id(rt: &impl Abort, number: u64) -> Id {
    Id::new(number).expect(rt, "an id")
}

fn subscribes(
    rt: &impl Abort,
    subscriptions: &mut Subscriptions,
    session: u64,
    text: &str,
    matching: Match,
    wanted: Result<u64, RealmFault>,
) -> bool {
    let pattern = Pattern::of(text, matching).expect(rt, "a pattern");
    let given = subscriptions.subscribe(id(rt, session), &pattern);
    given.map(|id| id.get()) == wanted
}

fn unsubscribes(
    rt: &impl Abort,
    subscriptions: &mut Subscriptions,
    session: u64,
    subscription: u64,
    wanted: Result<(), RealmFault>,
) -> bool {
    subscriptions.unsubscribe(id(rt, session), id(rt, subscription)) == wanted
}

fn leaves(rt: &impl Abort, subscriptions: &mut Subscriptions, session: u64, left: usize) -> bool {
    subscriptions.leave(id(rt, session));
    subscriptions.len() == left
}

fn reached(receiver: &Receiver) -> Reached {
    (
        receiver.subscription.get(),
        receiver.matching,
        receiver.member.get(),
    )
}

// Whether these are the receivers, in this order.
fn are_reached(receivers: &[Receiver], wanted: &[Reached]) -> bool {
    receivers.len() == wanted.len()
        && receivers
            .iter()
            .zip(wanted.iter())
            .all(|(receiver, wanted)| reached(receiver) == *wanted)
}

fn reaches(
    rt: &impl Abort,
    subscriptions: &Subscriptions,
    uri: &str,
    except: Option<u64>,
    wanted: &[Reached],
) -> bool {
    let uri = Uri::of(uri).expect(rt, "a URI");
    let except = match except {
        Some(session) => Some(id(rt, session)),
        None => None,
    };
    let receivers = subscriptions
        .receivers(&uri, except)
        .expect(rt, "room for receivers");
    are_reached(&receivers, wanted)
}

// Takes the step. Returns whether it comes as it says.
fn take(rt: &impl Abort, subscriptions: &mut Subscriptions, step: &Step) -> bool {
    match step {
        Step::Subscribe(session, text, matching, wanted) => {
            subscribes(rt, subscriptions, *session, text, *matching, *wanted)
        },
        Step::Unsubscribe(session, subscription, wanted) => {
            unsubscribes(rt, subscriptions, *session, *subscription, *wanted)
        },
        Step::Leave(session, left) => leaves(rt, subscriptions, *session, *left),
        Step::Receivers(uri, except, wanted) => {
            reaches(rt, subscriptions, uri, *except, wanted)
        },
    }
}

const STEPS: &[Step] = &[
    Step::Unsubscribe(7, 1, Err(RealmFault::NoSuchSubscription)),
    Step::Subscribe(7, "a.b", Match::Exact, Ok(1)),
    Step::Subscribe(7, "a.b", Match::Exact, Ok(1)),
    Step::Unsubscribe(8, 1, Err(RealmFault::NoSuchSubscription)),
    Step::Unsubscribe(7, 1, Ok(())),
    Step::Unsubscribe(7, 1, Err(RealmFault::NoSuchSubscription)),
    Step::Subscribe(7, "a.", Match::Wildcard, Ok(2)),
    Step::Subscribe(7, "a", Match::Prefix, Ok(3)),
    Step::Subscribe(8, "a.b", Match::Exact, Ok(4)),
    Step::Subscribe(7, "a.b", Match::Exact, Ok(4)),
    Step::Receivers(
        "a.b",
        None,
        &[
            (2, Match::Wildcard, 7),
            (3, Match::Prefix, 7),
            (4, Match::Exact, 8),
            (4, Match::Exact, 7),
        ],
    ),
    Step::Receivers("a.b", Some(7), &[(4, Match::Exact, 8)]),
    Step::Receivers(
        "a.c",
        None,
        &[(2, Match::Wildcard, 7), (3, Match::Prefix, 7)],
    ),
    Step::Receivers("ab.c", Some(9), &[(3, Match::Prefix, 7)]),
    Step::Receivers("b", None, &[]),
    Step::Subscribe(7, "c", Match::Exact, Err(RealmFault::Limit)),
    Step::Subscribe(7, "a.b", Match::Exact, Ok(4)),
    Step::Subscribe(8, "c", Match::Exact, Ok(5)),
    Step::Unsubscribe(8, 5, Ok(())),
    Step::Subscribe(8, "c", Match::Exact, Ok(6)),
    Step::Unsubscribe(8, 4, Ok(())),
    Step::Receivers(
        "a.b",
        None,
        &[
            (2, Match::Wildcard, 7),
            (3, Match::Prefix, 7),
            (4, Match::Exact, 7),
        ],
    ),
    Step::Leave(7, 1),
    Step::Receivers("a.b", None, &[]),
    Step::Receivers("c", None, &[(6, Match::Exact, 8)]),
    Step::Subscribe(7, "", Match::Prefix, Ok(7)),
    Step::Subscribe(7, ".", Match::Wildcard, Ok(8)),
    Step::Receivers(
        "a.b",
        None,
        &[(7, Match::Prefix, 7), (8, Match::Wildcard, 7)],
    ),
    Step::Receivers("c", None, &[(6, Match::Exact, 8), (7, Match::Prefix, 7)]),
    Step::Leave(8, 2),
    Step::Leave(7, 0),
];

// Takes all steps; a note on a failed check is the step's place among them, from 0 on.
fn take_all(rt: &impl Abort, subscriptions: &mut Subscriptions) {
    for (place, step) in STEPS.iter().enumerate() {
        check!(rt; take(rt, subscriptions, step), place);
    }
}

#[test]
fn comes_to_subscriptions_and_leaves_them(rt: HostRuntime) {
    let mut subscriptions = Subscriptions::new(rt.alloc(), 3);
    take_all(&rt, &mut subscriptions);
}
