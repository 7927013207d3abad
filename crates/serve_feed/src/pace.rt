// The gate of a served node and its rests, and what gate and feed share of rounds and beats.
use crate::home::Home;
use actor_run::Gate;
use serve_connections::Lobby;
use serve_policy::{
    BEAT_MICROS, BEATS_A_TICK, Passed, beats_due, left_of_waits, left_to_wait, rest_after,
};
use std::cell::Cell;
use std::sync::Wait;
use std::time::{Clock, Duration, Instant};

/// After how many rounds with packets a node expects more before the next tick. A few come with each tick.
const ROUNDS_MOVING: u8 = 16;

/// After how many rounds each a node that does not rest looks at the clock.
const ROUNDS_A_LOOK: u64 = 64;

/// What the gate and the feed of one node's thread share. It stays on its thread.
#[derive(Drop)]
pub struct Pace {
    // The number of the round.
    round: Cell<u64>,
    // Whether the round that was judged last was idle, and whether none was judged since the last rest.
    is_idle: Cell<bool>,
    is_rested: Cell<bool>,
    // How many beats are due, and how many the feed has counted since the gate looked at the clock.
    due: Cell<u64>,
    counted: Cell<u64>,
    // Whether beats are counted one by one.
    is_quick: Cell<bool>,
    // Whether entries or many packets moved since the last tick, and in how many rounds packets did.
    is_moving: Cell<bool>,
    stirs: Cell<u8>,
    // Whether the node has waited for slow clients in vain.
    has_waited: Cell<bool>,
    // How many microseconds the last round took, 0 if rounds are not timed.
    took: Cell<u32>,
    // How far the next cut of the node's log is.
    cut: Cell<Cut>,
    // Whether the node is behind for good.
    is_behind: Cell<bool>,
}

// How far a cut of the node's log is: none is due; the log is long enough; the node has rested from the last one, too, so it may come in this
// round; it has come in this round.
#[derive(Clone, Copy, PartialEq, Eq)]
enum Cut {
    No,
    Wanted,
    Due,
    Made,
}

impl Pace {
    /// Returns the pace before the first round: a tick is due.
    pub const fn new() -> Pace {
        Pace {
            round: Cell::new(0),
            is_idle: Cell::new(false),
            is_rested: Cell::new(true),
            due: Cell::new(BEATS_A_TICK),
            counted: Cell::new(0),
            is_quick: Cell::new(false),
            is_moving: Cell::new(false),
            stirs: Cell::new(0),
            has_waited: Cell::new(false),
            took: Cell::new(0),
            cut: Cell::new(Cut::No),
            is_behind: Cell::new(false),
        }
    }

    // Begins a boot of the node: no cut is due, and it is not behind.
    pub(crate) fn begin_boot(&self) {
        self.cut.set(Cut::No);
        self.is_behind.set(false);
    }

    // Begins a round.
    fn begin(&self) {
        self.round.set(self.round.get().wrapping_add(1));
    }

    // Returns how many microseconds the last round took, 0 if rounds are not timed.
    pub(crate) fn took(&self) -> u32 {
        self.took.get()
    }

    // Returns the number of the round that began last.
    pub(crate) fn round(&self) -> u64 {
        self.round.get()
    }

    // Notes whether the last round was idle. One that came before a rest says nothing of what came since.
    pub(crate) fn judge(&self, is_idle: bool) {
        self.is_idle.set(is_idle && !self.is_rested.get());
        self.is_rested.set(false);
    }

    // Notes that the node has rested: what was judged before says nothing of what it was woken for.
    fn rested(&self) {
        self.is_idle.set(false);
        self.is_rested.set(true);
    }

    // Returns whether the node is likely to be woken before beats are due: entries or many packets moved since the last tick. The first
    // round after a rest comes before any look.
    pub(crate) fn expects_more(&self) -> bool {
        self.is_moving() && self.due.get() == 0 && !self.is_rested.get()
    }

    // Returns how many beats are due: rounds without a packet count while some are.
    pub(crate) fn due(&self) -> u64 {
        self.due.get()
    }

    // Notes that the beats that were due are counted.
    pub(crate) fn counted(&self) {
        self.counted
            .set(self.counted.get().saturating_add(self.due.get()));
        self.due.set(0);
    }

    // Sets whether beats are counted one by one, or a tick's together.
    pub(crate) fn set_quick(&self, is_quick: bool) {
        self.is_quick.set(is_quick);
    }

    // Notes that a tick was given.
    pub(crate) fn ticked(&self) {
        self.is_moving.set(false);
        self.stirs.set(0);
    }

    // Returns whether entries or many packets moved since the last tick.
    pub(crate) fn is_moving(&self) -> bool {
        self.is_moving.get()
    }

    // Notes that entries are pending, or were applied.
    pub(crate) fn moved(&self) {
        self.is_moving.set(true);
    }

    // Notes that packets were posted or taken.
    pub(crate) fn stirred(&self) {
        let stirs = self.stirs.get().saturating_add(1);
        self.stirs.set(stirs);
        if stirs >= ROUNDS_MOVING {
            self.moved();
        }
    }

    // Notes whether the node's log is long enough to be cut. Returns whether it is to be cut in this round.
    pub(crate) fn wants_cut(&self, is_wanted: bool) -> bool {
        let is_due = is_wanted && self.cut.get() == Cut::Due;
        self.cut.set(if is_wanted { Cut::Wanted } else { Cut::No });
        is_due
    }

    // Notes that the node's log is cut in this round.
    pub(crate) fn cuts(&self) {
        self.cut.set(Cut::Made);
    }

    // Notes that the node is behind for good: no further round passes the gate in this boot.
    pub(crate) fn gives_up(&self) {
        self.is_behind.set(true);
    }

    // Returns whether the node is behind for good.
    pub(crate) fn is_behind(&self) -> bool {
        self.is_behind.get()
    }

    // Returns whether the node has waited in vain for slow clients since the last call.
    pub(crate) fn take_waited(&self) -> bool {
        self.has_waited.replace(false)
    }
}

/// The gate of a node's thread. If a round since the last rest was idle and no beats are due, it rests until another thread wakes the node
/// or the next beats are due; then it asks the caller's gate. One more round comes between the idle one and the rest: what that round may
/// take was put there after the idle one, and the thread that put it there wakes the node. If entries or many packets moved since the last
/// tick, the feed first looks, between the two, whether the node is woken.
///
/// While a client of the node is slow the gate rests, so that the porter takes what waits for the client: for at most 80 ms, and 80 ms of
/// each second for all clients together.
///
/// A round costs some loads, and each 64th one a look at the clock; where the node's store is files two looks, since the rounds with a
/// commit are timed, and one while the log is long enough to be cut. If the clock cannot be read a tick is always due, and so is a cut of such
/// a log. Once the feed has found the node behind for good no round passes until the next boot.
#[derive(Drop)]
pub struct Paced<'a, R: Wait + Clock, G: Gate> {
    rt: &'a R,
    pace: &'a Pace,
    lobby: &'a Lobby,
    gate: &'a G,
    // When the last counted beat ended, and its number since the cluster began.
    last: Cell<Option<Instant>>,
    beat: Cell<u64>,
    // For how many microseconds of late it has waited for slow clients, and when the last wait ended.
    waited: Cell<u64>,
    wait_ended: Cell<Option<Instant>>,
    // Whether rounds are timed, and when the present one began.
    is_timed: bool,
    began: Cell<Option<Instant>>,
    // From when on the node's log may be cut again, if it was cut.
    next_cut: Cell<Option<Instant>>,
}

impl<'a, R: Wait + Clock, G: Gate> Paced<'a, R, G> {
    /// Returns a gate that rests before it asks the caller's gate. Beats of 2 ms are counted from the cluster's beginning, or from now if
    /// that is not known: nodes that tick together wake each other less often.
    pub fn new(rt: &'a R, home: Home<'a>, gate: &'a G) -> Paced<'a, R, G> {
        Paced {
            rt,
            pace: home.pace,
            lobby: home.lobby,
            gate,
            last: Cell::new(home.began.or(Instant::now(rt).ok())),
            beat: Cell::new(0),
            waited: Cell::new(0),
            wait_ended: Cell::new(None),
            is_timed: home.is_on_disk,
            began: Cell::new(None),
            next_cut: Cell::new(None),
        }
    }

    // Notes how long the round took that ends, if rounds are timed or the log was cut in it.
    fn end_round(&self) {
        let is_cut = self.pace.cut.get() == Cut::Made;
        if !self.is_timed && !is_cut {
            return;
        }
        let now = Instant::now(self.rt).ok();
        let micros = match (self.began.get(), now) {
            (Some(began), Some(now)) => micros_of(now.saturating_duration_since(began)),
            _ => 0,
        };
        let took = u32::try_from(micros).unwrap_or(u32::MAX);
        if self.is_timed {
            self.pace.took.set(took);
        }
        if is_cut {
            self.rest_from_cut(now, took);
        }
    }

    // Notes that a cut has ended now and took this many microseconds.
    fn rest_from_cut(&self, now: Option<Instant>, took: u32) {
        self.pace.cut.set(Cut::No);
        let next = match now {
            Some(now) => now.checked_add(Duration::from_micros(rest_after(took))),
            None => None,
        };
        self.next_cut.set(next);
    }

    // Notes when the next round begins, if rounds are timed or the log is long enough to be cut, and whether it may be cut in it.
    fn begin_round(&self) {
        let is_wanted = matches!(self.pace.cut.get(), Cut::Wanted | Cut::Due);
        if !self.is_timed && !is_wanted {
            return;
        }
        let now = Instant::now(self.rt).ok();
        self.began.set(now);
        if is_wanted && self.has_rested(now) {
            self.pace.cut.set(Cut::Due);
        }
    }

    // Returns whether the node has rested from its last cut.
    fn has_rested(&self, now: Option<Instant>) -> bool {
        match (self.next_cut.get(), now) {
            (Some(next), Some(now)) => next.saturating_duration_since(now).is_zero(),
            _ => true,
        }
    }

    // Notes how many beats are due. Returns the time until some are: zero if some are due now.
    fn left(&self) -> Duration {
        let (Ok(now), Some(last)) = (Instant::now(self.rt), self.since()) else {
            self.pace.due.set(BEATS_A_TICK);
            return Duration::ZERO;
        };
        let micros = micros_of(now.saturating_duration_since(last));
        match beats_due(micros, self.beat.get(), self.pace.is_quick.get()) {
            Passed::Early { left } => Duration::from_micros(left),
            Passed::Due { skipped, beats } => {
                self.skip(last, skipped);
                self.pace.due.set(beats);
                Duration::ZERO
            }
        }
    }

    // Returns the end of the last beat that is counted, those that the feed has counted among them.
    fn since(&self) -> Option<Instant> {
        let last = self.last.get()?;
        let counted = self.pace.counted.replace(0);
        Some(self.skip(last, counted))
    }

    // Counts `beats` after the end of the last one. Returns their end.
    fn skip(&self, last: Instant, beats: u64) -> Instant {
        if beats == 0 {
            return last;
        }
        let next = last.checked_add(time_of(beats)).unwrap_or(last);
        self.last.set(Some(next));
        self.beat.set(self.beat.get().wrapping_add(beats));
        next
    }

    // Rests until somebody wakes the node or beats are due; at least two rounds follow.
    fn rest(&self) {
        let left = self.left();
        if !left.is_zero() {
            self.lobby.rest(self.rt, left);
        }
        self.pace.rested();
    }

    // Rests until no client is slow: for at most 80 ms, and 80 ms of each second.
    fn wait_for_slow(&self) {
        let began = Instant::now(self.rt).ok();
        self.forget_waits(began);
        for _ in 0..u64::MAX {
            let left = self.left_of_wait(began);
            if left.is_zero() {
                self.pace.has_waited.set(true);
                break;
            }
            self.lobby.rest(self.rt, left);
            if !self.lobby.has_slow() {
                break;
            }
        }
        self.note_wait(began);
        self.pace.rested();
    }

    // Forgets earlier waits, by the time that has passed since the last one.
    fn forget_waits(&self, now: Option<Instant>) {
        let passed = match (self.wait_ended.get(), now) {
            (Some(ended), Some(now)) => micros_of(now.saturating_duration_since(ended)),
            _ => 0,
        };
        self.waited.set(left_of_waits(passed, self.waited.get()));
    }

    // Notes a wait that began then and ends now.
    fn note_wait(&self, began: Option<Instant>) {
        let (Some(began), Ok(now)) = (began, Instant::now(self.rt)) else {
            return;
        };
        let micros = micros_of(now.saturating_duration_since(began));
        self.waited.set(self.waited.get().saturating_add(micros));
        self.wait_ended.set(Some(now));
    }

    // Returns how long a wait that began then may go on: not at all if the clock cannot be read.
    fn left_of_wait(&self, began: Option<Instant>) -> Duration {
        let (Some(began), Ok(now)) = (began, Instant::now(self.rt)) else {
            return Duration::ZERO;
        };
        let micros = micros_of(now.saturating_duration_since(began));
        Duration::from_micros(left_to_wait(self.waited.get().saturating_add(micros)))
    }
}

// Returns this time in microseconds.
fn micros_of(time: Duration) -> u64 {
    u64::try_from(time.as_micros()).unwrap_or(u64::MAX)
}

// Returns how long this many beats take.
fn time_of(beats: u64) -> Duration {
    Duration::from_micros(beats.saturating_mul(BEAT_MICROS))
}

impl<R: Wait + Clock, G: Gate> Gate for Paced<'_, R, G> {
    fn pass(&self, node: u8, turn: u64) -> bool {
        self.end_round();
        if self.pace.is_behind() {
            return false;
        }
        self.pace.begin();
        if self.lobby.has_slow() {
            self.wait_for_slow();
        }
        if self.pace.due.get() == 0 {
            if self.pace.is_idle.get() {
                self.rest();
            } else if turn % ROUNDS_A_LOOK == 0 {
                self.left();
            }
        }
        self.begin_round();
        self.gate.pass(node, turn)
    }
}
