// Which of two patterns serves a URI that both match.
ghost use Rattle.std.specs.Prelude.{◌≡◌};
ghost use Rattle.wamp_patterns.specs.Ranking.{better, is_named_first};

use wamp_ids::{Match, Pattern};

/// Returns whether, of two patterns that match one URI, the first serves it before the other: exact before prefix before wildcard; the
/// longer of two prefixes; of two wildcards the one that names the first component which only one of them names. Does not allocate; linear
/// in the two texts.
pub fn better(pattern: &Pattern, other: &Pattern) -> bool
    ensures { result ≡ better pattern.now other.now }
{
    match (pattern.matching(), other.matching()) {
        (Match::Exact, Match::Exact) => false,
        (Match::Exact, _) => true,
        (Match::Prefix, Match::Exact) => false,
        (Match::Prefix, Match::Prefix) => pattern.as_str().len() > other.as_str().len(),
        (Match::Prefix, Match::Wildcard) => true,
        (Match::Wildcard, Match::Wildcard) => is_named_first(pattern, other),
        (Match::Wildcard, _) => false,
    }
}

fn is_named_first(pattern: &Pattern, other: &Pattern) -> bool
    ensures { result ≡ is_named_first pattern.now.text other.now.text }
{
    let gaps = pattern.parts().map(|part| part.is_empty());
    gaps.cmp(other.parts().map(|part| part.is_empty())).is_lt()
}
