// The turns that a call may spend, and the most of them.
ghost use Rattle.std.specs.Prelude.{◌≡◌, ◌+◌, MatchBool};

/// The most turns of a call.
pub(crate) const MOST_TURNS: u64 = 1 << 32;

// Spends one turn. Returns whether one was left.
pub(crate) fn spend(turns: &mut u64) -> bool
    ensures { MatchBool result (turns.old ≡ turns.new + 1) ((turns.old ≡ 0) × (turns.new ≡ 0)) }
{
    if *turns == 0 {
        return false;
    }
    *turns -= 1;
    true
}
