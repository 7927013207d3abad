// What a round of a node shows of the cluster's work.
ghost use Rattle.std.specs.Prelude.{◌≡◌};
ghost use Rattle.serve_feed.specs.Signs.{turn_of, quiet_turn, sign_of, shown, counted, is_promised, is_news, ends_at, later, offered_in, entries_above, lacks_entries};

use actor_run::{Hearing, RoundSeen};
use node_actor::Heard;
use paxos_packets::Ballot;
use serve_policy::{Sign, Turn};

/// How many slots may be open after the log of a node before it is taken to lack entries.
const MOST_OPEN: u64 = 4096;

// Returns what a packet of a round brought while `beats` are due, if `before` was promised before it, and the log had the length `log` after it.
pub(crate) fn turn_of(
    hearing: Hearing,
    log: u64,
    seen: &RoundSeen<'_>,
    before: Option<Ballot>,
    beats: u64,
) -> Turn
    ensures { result ≡ turn_of hearing log seen.now before beats }
{
    Turn {
        from: Some(hearing.from),
        sign: sign_of(hearing.heard, seen.promised, before, seen.open_slots),
        applied: log,
        is_pending: seen.pending > 0,
        beats,
    }
}

// Returns what a round brought in which no packet came, while `beats` are due.
pub(crate) fn quiet_turn(seen: &RoundSeen<'_>, beats: u64) -> Turn
    ensures { result ≡ quiet_turn seen.now beats }
{
    Turn {
        from: None,
        sign: Sign::Nothing,
        applied: seen.applied,
        is_pending: seen.pending > 0,
        beats,
    }
}

// Returns what a packet showed.
fn sign_of(heard: Heard, promised: Option<Ballot>, before: Option<Ballot>, slots: u64) -> Sign
    ensures { result ≡ sign_of heard promised before slots }
{
    match promised {
        Some(promised) => shown(heard, promised, before, slots),
        None => Sign::Nothing,
    }
}

// Returns what a packet showed to a node that has promised a ballot, and whose votes are for so many slots after its log.
fn shown(heard: Heard, promised: Ballot, before: Option<Ballot>, slots: u64) -> Sign
    ensures { result ≡ shown heard promised before slots }
{
    match heard {
        Heard::Prepare(ballot) if ballot == promised && !is_promised(before, promised) => {
            Sign::Prepared {
                owner: ballot.node,
                slots: counted(slots),
            }
        }
        Heard::Ballot(ballot) if !ballot.is_below(&promised) => Sign::AtWork { owner: ballot.node },
        Heard::Refusal {
            ballot,
            promised: other,
        } if ballot == promised && ballot.is_below(&other) => Sign::Refused { owner: other.node },
        Heard::Learned(_) => Sign::Told,
        Heard::Prepare(_) => Sign::Nothing,
        Heard::Ballot(_) => Sign::Nothing,
        Heard::Refusal { .. } => Sign::Nothing,
        Heard::Entries => Sign::Nothing,
        Heard::Ask(_) => Sign::Nothing,
        Heard::Snapshot(_) => Sign::Nothing,
    }
}

// Returns the number as far as 32 bits count.
fn counted(number: u64) -> u32
    ensures { result ≡ counted number }
{
    number.min(4_294_967_295) as u32
}

// Returns whether the node had promised this ballot before.
fn is_promised(before: Option<Ballot>, ballot: Ballot) -> bool
    ensures { result ≡ is_promised before ballot }
{
    match before {
        Some(other) => other == ballot,
        None => false,
    }
}

// Returns whether a packet reported an entry that a log of length `after` has and one of length `before` has not.
pub(crate) fn is_news(heard: Heard, before: u64, after: u64) -> bool
    ensures { result ≡ is_news heard before after }
{
    match heard {
        Heard::Learned(slot) => before < slot && slot <= after,
        Heard::Prepare(_) => false,
        Heard::Ballot(_) => false,
        Heard::Refusal { .. } => false,
        Heard::Entries => false,
        Heard::Ask(_) => false,
        Heard::Snapshot(_) => false,
    }
}

// Returns where a snapshot ends that came, if the packet brought one.
pub(crate) fn offered_by(heard: Heard) -> Option<u64>
    ensures { result ≡ ends_at heard }
{
    match heard {
        Heard::Snapshot(floor) => Some(floor),
        Heard::Prepare(_) => None,
        Heard::Ballot(_) => None,
        Heard::Refusal { .. } => None,
        Heard::Entries => None,
        Heard::Learned(_) => None,
        Heard::Ask(_) => None,
    }
}

// Returns the greater of two slots, of those that are there.
fn later(one: Option<u64>, other: Option<u64>) -> Option<u64>
    ensures { result ≡ later one other }
{
    match (one, other) {
        (Some(one), Some(other)) => Some(one.max(other)),
        (Some(one), None) => Some(one),
        (None, other) => other,
    }
}

// Returns where the snapshot ends that ends last, of those that came in the round, if any came.
pub(crate) fn offered_in(came: &[Hearing]) -> Option<u64>
    ensures { result ≡ offered_in came.now }
{
    let mut last = None;
    for hearing in came {
        last = later(last, offered_by(hearing.heard));
    }
    last
}

// Returns how many entries the node has applied above its floor.
pub(crate) fn entries_above(seen: &RoundSeen<'_>) -> u64
    ensures { result ≡ entries_above seen.now }
{
    seen.applied.saturating_sub(seen.floor)
}

// Returns whether a node lacks entries: it does not lead, and has voted in more than 4,096 slots after its log. A packet to it was lost, and its
// tick asks for what it lacks. Once it has that, it applies all that follows in one round, and says what that says.
pub(crate) fn lacks_entries(seen: &RoundSeen<'_>) -> bool
    ensures { result ≡ lacks_entries seen.now }
{
    !seen.leads && seen.open_slots > MOST_OPEN
}
