// Patterns: how a text becomes one, its components, and copies.
ghost use Rattle.std.specs.Prelude.{◌≡◌, IsTrue, ◌↔◌, IfOk, slice_get, option_map};
ghost use Rattle.std.specs.Str.Iter.{split_text, split_has_more, split_pattern};
ghost use Rattle.wamp_ids.specs.Uri.{parts, is_reserved, Reads};
ghost use Rattle.wamp_ids.specs.Pattern.{IsPattern, pattern_of};

use crate::memory::Memory;
use crate::policy::Match;
use crate::uri::{UriFault, check, first_part_is_wamp, starts_with_w};
use std::alloc::Global;
use std::borrow::CowStr;
use std::marker::Model;
use std::str::Split;

/// A pattern of URIs: a text, and how it matches. The text is a URI for `Exact`, and for `Prefix` and `Wildcard` 0 to 1,024 octets of
/// components joined by `.`, where components may be empty (WAMP specification, "Pattern-based Subscriptions"). Borrows its text or owns a
/// copy.
#[derive(Debug, Drop)]
pub struct Pattern<'a> {
    text: CowStr<'a>,
    matching: Match,
}

impl<'a> Model for Pattern<'a> {
    ghost use Rattle.std.specs.Cow.{cow_str_bytes};
    ghost use Rattle.wamp_ids.specs.Pattern.{PatternValue, IsPattern};

    ghost Value = { PatternValue };

    ghost view = { λ a. record { text = cow_str_bytes a.text; matching = a.matching } };

    ghost invariant = { λ a. IsPattern (record { text = cow_str_bytes a.text; matching = a.matching }) };
}

impl<'a> Pattern<'a> {
    /// Returns this text with this match as a pattern that borrows the text; does not allocate. An error is the first fault in the order of
    /// their numbers, never `Memory`; `EmptyPart` comes for `Exact` alone.
    pub fn of(text: &'a str, matching: Match) -> Result<Pattern<'a>, UriFault>
        ensures { result ≡ pattern_of text.now matching }
    {
        check(text, matching)?;
        Ok(Pattern {
            text: CowStr::Borrowed(text),
            matching,
        })
    }

    /// Returns a pattern with a copy of this text, and with this match. An error is the first fault in the order of their numbers, `Memory`
    /// last, and changes nothing.
    pub fn read(alloc: Global, text: &str, matching: Match) -> Result<Pattern<'a>, UriFault>
        ensures { Reads result (pattern_of text.now matching) }
    {
        let pattern = Pattern::of(text, matching)?;
        Ok(Pattern {
            text: CowStr::Owned(String::from_str(alloc, pattern.as_str())?),
            matching,
        })
    }

    /// Returns the pattern's text.
    pub fn as_str(&self) -> &str
        ensures text { result.now ≡ self.now.text }
        ensures pattern { IsPattern self.now }
    {
        self.text.as_str()
    }

    /// Returns how the pattern matches.
    pub fn matching(&self) -> Match
        ensures { result ≡ self.now.matching }
    {
        self.matching
    }

    /// Returns the components, which dots separate, in their order.
    pub fn parts(&self) -> Split<'_, char>
        ensures text { split_text result ≡ self.now.text }
        ensures whole { IsTrue (split_has_more result) }
        ensures dots { split_pattern result ≡ 46 }
    {
        self.text.as_str().split('.')
    }

    /// Returns the component at this place, counted from 0; `None` if there are not as many.
    pub fn part(&self, place: usize) -> Option<&str>
        ensures { option_map (λ part. part.now) result ≡ slice_get (parts self.now.text) place }
    {
        self.parts().nth(place)
    }

    /// Returns whether the first component is `wamp`: such patterns are reserved for the router.
    pub fn is_reserved(&self) -> bool
        ensures { result ≡ is_reserved self.now.text }
    {
        starts_with_w(self.as_str()) && first_part_is_wamp(self.part(0))
    }

    /// Returns an equal pattern that owns its text. If memory runs out, returns `Memory` and changes nothing.
    pub fn copy(&self, alloc: Global) -> Result<Pattern<'static>, Memory>
        ensures { IfOk result (λ made. made ≡ self.now) }
    {
        Ok(Pattern {
            text: CowStr::Owned(String::from_str(alloc, self.as_str())?),
            matching: self.matching,
        })
    }

    /// Returns whether the two have the same text and the same match; does not allocate.
    pub fn same(&self, other: &Pattern<'_>) -> bool
        ensures { IsTrue result ↔ (self.now ≡ other.now) }
    {
        self.matching == other.matching && self.as_str() == other.as_str()
    }
}
