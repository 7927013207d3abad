// Which URIs a pattern matches.
ghost use Rattle.std.specs.Prelude.{◌≡◌, nat_eq};
ghost use Rattle.std.specs.List.{starts_with};
ghost use Rattle.std.specs.Cmp.Lexicographic.{pointwise};
ghost use Rattle.wamp_ids.specs.Uri.{parts};
ghost use Rattle.wamp_patterns.specs.Matching.{matches, part_matches};

use wamp_ids::{Match, Pattern, Uri};

/// Returns whether the pattern matches the URI: an equal text for `Exact`, a text that begins with the pattern's for `Prefix`, and for
/// `Wildcard` a text of as many components, of which each that the pattern names is equal. Does not allocate; linear in the two texts.
#[inline(always)]
pub fn matches(pattern: &Pattern, uri: &Uri) -> bool
    ensures { result ≡ matches pattern.now uri.now }
{
    match pattern.matching() {
        Match::Exact => pattern.as_str() == uri.as_str(),
        Match::Prefix => begins(pattern.as_str(), uri.as_str()),
        Match::Wildcard => parts_match(pattern, uri),
    }
}

// Out of line, so that the test of an exact pattern, which each publication asks most often, stays short.
#[inline(never)]
fn begins(start: &str, text: &str) -> bool
    ensures { result ≡ starts_with nat_eq text.now start.now }
{
    text.starts_with(start)
}

#[inline(never)]
fn parts_match(pattern: &Pattern, uri: &Uri) -> bool
    ensures { result ≡ pointwise part_matches (parts pattern.now.text) (parts uri.now) }
{
    pattern.parts().count() == uri.parts().count()
        && pattern
            .parts()
            .zip(uri.parts())
            .all(|(part, other)| part.is_empty() || part == other)
}
