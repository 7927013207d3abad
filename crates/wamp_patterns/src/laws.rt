//! Laws of the definitions. Each is the contract of a function that does nothing.

ghost use Rattle.std.specs.Prelude.{◌≡◌, ◌≢◌, ◌↔◌, IsTrue, ℕ, List, true, false, not, None, Some, Option, is_some, slice_get};
ghost use Rattle.std.specs.List.{fold, list_any};
ghost use Rattle.wamp_ids.specs.declared.policy.Match.TheVariants.{Wildcard};
ghost use Rattle.wamp_ids.specs.Pattern.{PatternValue};
ghost use Rattle.wamp_patterns.specs.Matching.{matches, text_matches};
ghost use Rattle.wamp_patterns.specs.Ranking.{best_so_far, better, has_longer_run, is_named_first, is_unbeaten, matching, serves};
ghost use Rattle.wamp_patterns.specs.Table.{same_pattern};

/// Patterns are ranked: none is better than itself, and what is better than a better one is better.
pub fn patterns_are_ranked()
    ensures itself { (a : PatternValue) → better a a ≡ false }
    ensures through { (a b c : PatternValue) → better a b ≡ true → better b c ≡ true → better a c ≡ true }
{}

/// Of two different patterns that match one URI exactly one is better.
pub fn exactly_one_is_better()
    ensures { (a b : PatternValue) (uri : List ℕ)
        → matches a uri ≡ true → matches b uri ≡ true → a ≢ b → better b a ≡ not (better a b) }
{}

/// Both wordings of the order of wildcards choose the same of two that match one URI: the one that names the first component which
/// only one of them names, and the one whose first different run of named components is longer.
pub fn wordings_agree()
    ensures { (a b uri : List ℕ)
        → text_matches Wildcard a uri ≡ true → text_matches Wildcard b uri ≡ true → is_named_first a b ≡ has_longer_run a b }
{}

/// One pass with the best so far finds the entry that serves.
pub fn one_pass_finds_who_serves<X>()
    ensures { (pattern_of : X → PatternValue) (entries : List X) (uri : List ℕ)
        → fold (best_so_far pattern_of) None (matching pattern_of entries uri) ≡ serves pattern_of entries uri }
{}

/// One pattern serves exactly if one matches: some entry serves if an entry matches, and any two of those that match and that no other
/// beats have the same pattern.
pub fn one_pattern_serves<X>()
    ensures some { (pattern_of : X → PatternValue) (entries : List X) (uri : List ℕ)
        → is_some (serves pattern_of entries uri) ≡ list_any (λ entry. matches (pattern_of entry) uri) entries }
    ensures one { (pattern_of : X → PatternValue) (entries : List X) (uri : List ℕ) (i j : ℕ) (x y : X)
        → slice_get (matching pattern_of entries uri) i ≡ Some x → slice_get (matching pattern_of entries uri) j ≡ Some y
        → is_unbeaten pattern_of (matching pattern_of entries uri) x ≡ true
        → is_unbeaten pattern_of (matching pattern_of entries uri) y ≡ true
        → pattern_of x ≡ pattern_of y }
{}

/// A table keeps two patterns apart exactly if their texts or matches differ.
pub fn equal_patterns_are_kept_as_one()
    ensures { (a b : PatternValue) → IsTrue (same_pattern a b) ↔ (a ≡ b) }
{}
