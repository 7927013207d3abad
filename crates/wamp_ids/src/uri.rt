// URIs: how a text becomes one, its components, and the faults of a text that is none.
ghost use Rattle.std.specs.Prelude.{◌≡◌, List, ℕ, IsTrue, ◌↔◌, IfOk, slice_get, option_map, true, false};
ghost use Rattle.std.specs.Bool.{OnTrue};
ghost use Rattle.std.specs.Cow.{cow_str_bytes};
ghost use Rattle.std.specs.Str.Iter.{split_text, split_has_more, split_pattern};
ghost use Rattle.wamp_ids.specs.Uri.{parts, is_reserved, number_of, uri_of, unless_faulty, is_wamp, Reads, IsUri, has_space};
ghost use Rattle.wamp_ids.specs.Uri.{has_hash, has_empty_part};
ghost use Rattle.wamp_ids.specs.Glance.{is_visible, is_plain};

use crate::memory::Memory;
use crate::policy::Match;
use std::alloc::{AllocError, Global};
use std::borrow::CowStr;
use std::marker::Model;
use std::str::Split;
use thiserror::Error;

/// The greatest length of a URI and of a pattern, in octets.
const LONGEST: usize = 1024;

/// Why a text is no URI, or no URI was made of it.
#[derive(Clone, Copy, Debug, PartialEq, Eq, Hash, Error)]
pub enum UriFault {
    #[error("a URI has at most 1024 octets")]
    TooLong,
    #[error("a URI has no white space")]
    Space,
    #[error("a URI has no '#'")]
    Hash,
    #[error("a URI has no empty component")]
    EmptyPart,
    #[error("out of memory")]
    Memory,
}

impl UriFault {
    /// Returns the fault's number, 1 to 5.
    pub fn number(self) -> u8
        ensures { result ≡ number_of self }
    {
        match self {
            UriFault::TooLong => 1,
            UriFault::Space => 2,
            UriFault::Hash => 3,
            UriFault::EmptyPart => 4,
            UriFault::Memory => 5,
        }
    }
}

impl From<AllocError> for UriFault {
    ghost use Rattle.wamp_ids.specs.declared.uri.UriFault.TheVariants.{Memory};

    ghost from_gives = { λ _ e. e ≡ Memory };

    fn from(_error: AllocError) -> UriFault {
        UriFault::Memory
    }
}

/// A URI of WAMP by the loose rules: 1 to 1,024 octets of components joined by `.`, a component being one or more characters that are not
/// white space, `.` or `#` (WAMP specification, "URIs"). Borrows its text or owns a copy.
#[derive(Debug, Drop)]
pub struct Uri<'a> {
    text: CowStr<'a>,
}

impl<'a> Model for Uri<'a> {
    ghost Value = { List ℕ };

    ghost view = { λ a. cow_str_bytes a.text };

    ghost invariant = { λ a. IsUri (cow_str_bytes a.text) };
}

impl<'a> Uri<'a> {
    /// Returns this text as a URI that borrows it; does not allocate. An error is the first fault in the order of their numbers, never
    /// `Memory`.
    pub fn of(text: &'a str) -> Result<Uri<'a>, UriFault>
        ensures { result ≡ uri_of text.now }
    {
        check(text, Match::Exact)?;
        Ok(Uri {
            text: CowStr::Borrowed(text),
        })
    }

    /// Returns a URI with a copy of this text. An error is the first fault in the order of their numbers, `Memory` last, and changes
    /// nothing.
    pub fn read(alloc: Global, text: &str) -> Result<Uri<'a>, UriFault>
        ensures { Reads result (uri_of text.now) }
    {
        let uri = Uri::of(text)?;
        Ok(Uri {
            text: CowStr::Owned(String::from_str(alloc, uri.as_str())?),
        })
    }

    /// Returns the URI's text.
    pub fn as_str(&self) -> &str
        ensures text { result.now ≡ self.now }
        ensures uri { IsUri result.now }
    {
        self.text.as_str()
    }

    /// Returns the components, which dots separate, in their order.
    pub fn parts(&self) -> Split<'_, char>
        ensures text { split_text result ≡ self.now }
        ensures whole { IsTrue (split_has_more result) }
        ensures dots { split_pattern result ≡ 46 }
    {
        self.text.as_str().split('.')
    }

    /// Returns the component at this place, counted from 0; `None` if there are not as many.
    pub fn part(&self, place: usize) -> Option<&str>
        ensures { option_map (λ part. part.now) result ≡ slice_get (parts self.now) place }
    {
        self.parts().nth(place)
    }

    /// Returns whether the first component is `wamp`: such URIs are reserved for the router.
    pub fn is_reserved(&self) -> bool
        ensures { result ≡ is_reserved self.now }
    {
        starts_with_w(self.as_str()) && first_part_is_wamp(self.part(0))
    }

    /// Returns an equal URI that owns its text. If memory runs out, returns `Memory` and changes nothing.
    pub fn copy(&self, alloc: Global) -> Result<Uri<'static>, Memory>
        ensures { IfOk result (λ made. made ≡ self.now) }
    {
        Ok(Uri {
            text: CowStr::Owned(String::from_str(alloc, self.as_str())?),
        })
    }

    /// Returns whether the two are equal; does not allocate.
    pub fn same(&self, other: &Uri<'_>) -> bool
        ensures { IsTrue result ↔ (self.now ≡ other.now) }
    {
        self.as_str() == other.as_str()
    }
}

// Judges a text with this match: an error is the first cause why it is no pattern, never `Memory`. Does not allocate.
pub(crate) fn check(text: &str, matching: Match) -> Result<(), UriFault>
    ensures { result ≡ unless_faulty matching text.now tt }
{
    if text.len() > LONGEST {
        return Err(UriFault::TooLong);
    }
    if is_plain(text) {
        return Ok(());
    }
    if has_space(text) {
        return Err(UriFault::Space);
    }
    if text.as_bytes().contains(&b'#') {
        return Err(UriFault::Hash);
    }
    if matching == Match::Exact && has_empty_part(text) {
        return Err(UriFault::EmptyPart);
    }
    Ok(())
}

// Returns whether a text starts with `w`, as every reserved one does: one look rules out nearly all others.
#[tactic(auto, using(crate::proofs::Glance::not_own))]
pub(crate) fn starts_with_w(text: &str) -> bool
    ensures { result ≡ false → is_reserved text.now ≡ false }
{
    let octets = text.as_bytes();
    !octets.is_empty() && octets[0] == b'w'
}

// Returns whether this first component makes a text reserved.
pub(crate) fn first_part_is_wamp(part: Option<&str>) -> bool
    ensures { result ≡ is_wamp (option_map (λ text. text.now) part.entry) }
{
    match part {
        Some(part) => part == "wamp",
        None => false,
    }
}

// Returns whether one pass over the text shows that it breaks no rule of any match, as it does for nearly all texts.
#[tactic(auto, using(crate::proofs::Glance::glance_shows))]
fn is_plain(text: &str) -> bool
    ensures { OnTrue result ((has_space text.now ≡ false)
        × (has_hash text.now ≡ false) × (has_empty_part text.now ≡ false)) }
{
    is_plain_ascii(text.as_bytes())
}

// Returns whether all octets are visible ASCII other than `#`, and none of the components that dots separate is empty.
fn is_plain_ascii(octets: &[u8]) -> bool
    ensures { result ≡ is_plain true octets.now }
{
    let mut at_start = true;
    for octet in octets {
        if *octet == b'.' {
            if at_start {
                return false;
            }
            at_start = true;
        } else {
            if !is_visible(*octet) {
                return false;
            }
            at_start = false;
        }
    }
    !at_start
}

fn is_visible(octet: u8) -> bool
    ensures { result ≡ is_visible octet }
{
    32 < octet && octet < 127 && octet != b'#'
}

fn has_space(text: &str) -> bool
    ensures { result ≡ has_space text.now }
{
    text.chars().any(|character| character.is_whitespace())
}

fn has_empty_part(text: &str) -> bool
    ensures { result ≡ has_empty_part text.now }
{
    text.split('.').any(|part| part.is_empty())
}
