// Lookup keys of patterns. A pattern's *kind* is a key made of its match and text. A URI and a kind leave one text that a pattern of
// this kind may have to match the URI: so a search does one look-up for each kind that the table has, and visits no pattern that does not
// match.
//
// - All exact patterns have the empty kind. The text to look up is the URI.
// - The prefix `com.app.` has the kind `FF F7 2E`: 65,535 less its length 8, in two octets, and its last octet, a dot. The text to look up
//   is the URI's first 8 octets, if they end with a dot. The longer a prefix, the lower its kind.
// - The wildcard `com..log` has the kind `01 01 01 00 00 01 00`: a one for each of its three components, a zero, and for each component
//   whether it is empty. Of the URI `com.app.log` the text to look up is `com..log`.
//
// Kinds of one match are ordered as their patterns serve.
ghost use Rattle.std.specs.Prelude.{◌≡◌, ◌≤◌, ◌-◌, ◌+◌, ◌++◌, not, ◌&&◌, length, option_map, drop, replicate};
ghost use Rattle.std.specs.Ordering.{is_le};
ghost use Rattle.wamp_patterns.specs.Kinds.{behind, components, ended, ending, filled, front, gaps_from, is_named, is_shaped, kind, masked};
ghost use Rattle.wamp_patterns.specs.Texts.{text_cmp};

use arrayvec::ArrayVec;
use wamp_ids::Match;

/// The kind of a pattern: the key by which a search finds it.
pub(crate) type LookupKey = ArrayVec<u8, 2051>;

// As many ones as a text of 1,024 octets may have components, plus one.
const ONES: &[u8; 1026] = &[1; 1026];

/// Returns the kind of a pattern with this match and text: one for all exact patterns, for prefixes their length and last octet, for
/// wildcards how many components they have and which are empty. Kinds of one match are ordered as their patterns serve. Does not allocate.
pub(crate) fn kind_of(matching: Match, text: &[u8]) -> LookupKey
    requires { length text.now ≤ 1024 }
    ensures { result.items ≡ kind matching text.now }
{
    match matching {
        Match::Exact => ArrayVec::new(),
        Match::Prefix => by_length(text),
        Match::Wildcard => shape(text),
    }
}

// Returns the kind of a prefix; the longest prefix comes first.
fn by_length(text: &[u8]) -> LookupKey
    requires { length text.now ≤ 1024 }
    ensures { result.items ≡ kind Match.Prefix text.now }
{
    let [high, low] = (65535 - text.len() as u16).to_be_bytes();
    let mut kind = ArrayVec::new();
    kind.push(high);
    kind.push(low);
    kind.push(ending(text));
    kind
}

// Returns the last octet, or 0 if the text is empty.
fn ending(text: &[u8]) -> u8
    ensures { result ≡ ending text.now }
{
    text.last().copied().unwrap_or(0)
}

/// Returns how many components the text has. Does not allocate; linear in the text.
pub(crate) fn components(text: &[u8]) -> usize
    requires { length text.now ≤ 1024 }
    ensures number { result ≡ components text.now }
    ensures within { result ≤ 1025 }
{
    text.iter().filter(|octet| **octet == b'.').count() + 1
}

/// Returns `number` ones. The kinds of wildcards of `number` components are those from here on and before one more one.
pub(crate) fn ones(number: usize) -> &'static [u8]
    requires { number ≤ 1026 }
    ensures { result.now ≡ replicate number 1 }
{
    &ONES[..number]
}

// Returns the kind of a wildcard: as many ones as it has components, then 0, then for each component 1 if it is empty, else 0.
fn shape(text: &[u8]) -> LookupKey
    requires { length text.now ≤ 1024 }
    ensures { result.items ≡ kind Match.Wildcard text.now }
{
    let mut shape = ArrayVec::new();
    let Ok(()) = shape.try_extend_from_slice(ones(components(text))) else {
        unreachable!()
    };
    shape.push(0);
    add_gaps(text, &mut shape);
    shape
}

// Adds for each component 1 if it is empty, else 0.
fn add_gaps(text: &[u8], gaps: &mut LookupKey)
    requires short { length text.now ≤ 1024 }
    requires room { length gaps.old.items ≤ 1026 }
    ensures { gaps.new.items ≡ gaps.old.items ++ gaps_from 1 text.now }
{
    let mut gap = 1;
    for octet in text {
        if *octet == b'.' {
            gaps.push(gap);
            gap = 1;
        } else {
            gap = 0;
        }
    }
    gaps.push(gap);
}

/// Returns the one text that a prefix of this kind may have to match the URI, if any. Does not allocate.
pub(crate) fn front<'a>(kind: &[u8], uri: &'a [u8]) -> Option<&'a [u8]>
    ensures { option_map (λ text. text.now) result ≡ front kind.now uri.now }
{
    let [high, low, end] = kind else {
        return None;
    };
    let length = 65535 - u16::from_be_bytes([*high, *low]) as usize;
    if length <= uri.len() {
        return ended(*end, &uri[..length]);
    }
    None
}

// Returns the text if this is its last octet.
fn ended(end: u8, text: &[u8]) -> Option<&[u8]>
    ensures { option_map (λ text. text.now) result ≡ ended end text.now }
{
    if ending(text) == end {
        return Some(text);
    }
    None
}

/// Returns the one text that a wildcard of this kind may have to match the URI, which has `number` components, if any. Does not allocate;
/// linear in the URI.
pub(crate) fn masked_if_fit(kind: &[u8], number: usize, uri: &[u8]) -> Option<ArrayVec<u8, 1024>>
    requires short { length uri.now ≤ 1024 }
    requires number { number ≡ components uri.now }
    requires within { number ≤ 1025 }
    ensures { option_map (λ text. text.items) result ≡ filled Match.Wildcard kind.now uri.now }
{
    if is_shaped(number, kind) {
        return Some(masked(past(number + 1, kind), uri));
    }
    None
}

// Returns whether the kind is in the range of those of wildcards with `number` components.
fn is_shaped(number: usize, kind: &[u8]) -> bool
    requires { number ≤ 1025 }
    ensures { result ≡ is_shaped number kind.now }
{
    let starts = is_from(ones(number), kind);
    let ends = is_from(ones(number + 1), kind);
    is_within(starts, ends)
}

// Returns whether the kind is the first one or comes after it.
fn is_from(first: &[u8], kind: &[u8]) -> bool
    ensures { result ≡ is_le (text_cmp first.now kind.now) }
{
    first.cmp(kind).is_le()
}

// Returns whether it is past the range's start and not past its end.
fn is_within(starts: bool, ends: bool) -> bool
    ensures { result ≡ (starts && not ends) }
{
    starts && !ends
}

// Returns what follows the first `count` octets.
fn past(count: usize, kind: &[u8]) -> &[u8]
    ensures { result.now ≡ drop count kind.now }
{
    kind.get(count..).unwrap_or(&[])
}

// Returns the URI without the octets of the components that are to be empty.
fn masked(gaps: &[u8], uri: &[u8]) -> ArrayVec<u8, 1024>
    requires { length uri.now ≤ 1024 }
    ensures { result.items ≡ masked gaps.now uri.now }
{
    let mut text = ArrayVec::new();
    let mut gaps = gaps;
    for octet in uri {
        if *octet == b'.' {
            gaps = behind(gaps);
            text.push(*octet);
        } else if is_named(gaps) {
            text.push(*octet);
        }
    }
    text
}

fn behind(gaps: &[u8]) -> &[u8]
    ensures { result.now ≡ behind gaps.now }
{
    match gaps {
        [_, rest @ ..] => rest,
        [] => gaps,
    }
}

fn is_named(gaps: &[u8]) -> bool
    ensures { result ≡ is_named gaps.now }
{
    match gaps {
        [gap, ..] => *gap == 0,
        [] => true,
    }
}
