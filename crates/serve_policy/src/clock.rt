// Beats and ticks by time: which beats are due, and how long a node waits for slow clients.
ghost use Rattle.std.specs.Prelude.{◌≡◌};
ghost use Rattle.serve_policy.specs.Clock.{beats_in, passing, waiting_on, forgetting};

/// The length of a beat in microseconds.
pub const BEAT_MICROS: u64 = 2_000;

/// The number of beats between two ticks.
pub const BEATS_A_TICK: u64 = 5;

/// A beat of which three quarters have passed counts as ended: a node that is awake then counts it together with those that woke it.
const QUARTER_MICROS: u64 = 500;

/// The longest time in microseconds for which a node waits for slow clients.
const MOST_WAIT_MICROS: u64 = 80_000;

/// What the time since the last counted beat has brought.
#[derive(Clone, Copy, Debug, PartialEq, Eq)]
pub enum Passed {
    /// No beat is due yet: some will be after this many microseconds.
    Early { left: u64 },
    /// This many beats are due, at most five. As many as `skipped` ended before them in which the node did not run: they are not counted.
    Due { skipped: u64, beats: u64 },
}

/// Returns what is due `micros` microseconds after the end of the beat that was counted last, which had the number `beat` since the cluster
/// began. Beats are counted one by one if `is_quick`, and else at the end of each tick of the cluster, which has five. Takes constant time.
pub const fn beats_due(micros: u64, beat: u64, is_quick: bool) -> Passed
    ensures { result ≡ passing micros beat is_quick }
{
    let ended = beats_in(micros);
    let wanted = if is_quick {
        1
    } else {
        BEATS_A_TICK - beat % BEATS_A_TICK
    };
    if ended < wanted {
        return Passed::Early {
            left: (wanted * BEAT_MICROS).saturating_sub(micros),
        };
    }
    Passed::Due {
        skipped: ended.saturating_sub(BEATS_A_TICK),
        beats: if ended < BEATS_A_TICK {
            ended
        } else {
            BEATS_A_TICK
        },
    }
}

// Returns how many beats end within this time.
const fn beats_in(micros: u64) -> u64
    ensures { result ≡ beats_in micros }
{
    (micros / QUARTER_MICROS + 1) / 4
}

/// Returns how many of the microseconds for which a node has waited for slow clients still count, if `passed` have passed since the last
/// wait: of each second 80 ms are forgotten.
pub const fn left_of_waits(passed: u64, waited: u64) -> u64
    ensures { result ≡ forgetting passed waited }
{
    waited.saturating_sub(2 * (passed / 25))
}

/// Returns for how many microseconds more a node waits for slow clients after it has waited for `waited`: at most 80 ms in all.
pub const fn left_to_wait(waited: u64) -> u64
    ensures { result ≡ waiting_on waited }
{
    MOST_WAIT_MICROS.saturating_sub(waited)
}
