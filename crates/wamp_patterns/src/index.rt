// An index of the patterns of one match: which of them match a URI, kind by kind.
ghost use Rattle.std.specs.Prelude.{◌≡◌, ◌≤◌, ◌+◌, ◌++◌, [], None, Some, IfOk, IfErr, OnOk, OnErr, option_copied, length, filter, map};
ghost use Rattle.std.specs.Map.{keys_of, lookup, remove_entry, values_of};
ghost use Rattle.std.specs.BTreeMap.{insert_entry};
ghost use Rattle.wamp_patterns.specs.Kinds.{Tells, all_found, components, count_of, filled, first_found, found_kind, is_shaped, lowered, with_text};
ghost use Rattle.wamp_patterns.specs.Texts.{AreTextsInOrder, same_text, shown, text_cmp, texts_of};

use crate::kinds::{components, front, kind_of, masked_if_fit, ones};
use crate::memory::Memory;
use crate::texts::Texts;
use std::alloc::Global;
use std::borrow::CowSlice;
use std::collections::BTreeMap;
use std::collections::btree_map::Range;
use wamp_ids::Match;

/// Values by the texts of the patterns of one match, and how many patterns there are of each kind that occurs.
#[derive(Debug, Drop)]
pub(crate) struct Index<V> {
    pub(crate) texts: Texts<V>,
    pub(crate) kinds: Texts<usize>,
}

impl<V> Index<V> {
    /// Returns an index without patterns. Does not allocate.
    pub(crate) fn new(alloc: Global) -> Index<V>
        ensures texts { result.texts ≡ [] }
        ensures kinds { result.kinds ≡ [] }
    {
        Index {
            texts: Texts::new(alloc),
            kinds: Texts::new(alloc),
        }
    }

    /// Inserts the value for this text, and returns the previous one, if any. Allocates only for a new text. After `Memory` the texts are
    /// unchanged, and the value is returned.
    pub(crate) fn put(
        &mut self,
        alloc: Global,
        matching: Match,
        text: &[u8],
        value: V,
    ) -> Result<Option<V>, (V, Memory)>
        requires within { length text.now ≤ 1024 }
        requires tells { Tells matching self.old.texts self.old.kinds }
        ensures old { IfOk result (λ old. old ≡ lookup (same_text text.now) self.old.texts) }
        ensures entries { OnOk result (self.new.texts ≡ insert_entry text_cmp self.old.texts text.now value) }
        ensures value_returned { IfErr result (λ back. back.0 ≡ value) }
        ensures unchanged { OnErr result (self.new.texts ≡ self.old.texts) }
        ensures only_new { OnErr result (lookup (same_text text.now) self.old.texts ≡ None) }
        ensures tells { Tells matching self.new.texts self.new.kinds }
    {
        match self.texts.replace(text, value) {
            Ok(old) => Ok(Some(old)),
            Err(value) => self.add(alloc, matching, text, value),
        }
    }

    // Adds a text that is absent.
    fn add(
        &mut self,
        alloc: Global,
        matching: Match,
        text: &[u8],
        value: V,
    ) -> Result<Option<V>, (V, Memory)>
        requires within { length text.now ≤ 1024 }
        requires tells { Tells matching self.old.texts self.old.kinds }
        requires missing { lookup (same_text text.now) self.old.texts ≡ None }
        ensures old { IfOk result (λ old. old ≡ None) }
        ensures entries { OnOk result (self.new.texts ≡ insert_entry text_cmp self.old.texts text.now value) }
        ensures value_returned { IfErr result (λ back. back.0 ≡ value) }
        ensures unchanged { OnErr result (self.new.texts ≡ self.old.texts) }
        ensures tells { Tells matching self.new.texts self.new.kinds }
    {
        let kind = kind_of(matching, text);
        let Ok(()) = raise(&mut self.kinds, alloc, kind.as_slice()) else {
            return Err((value, Memory));
        };
        match self.texts.add(alloc, text, value) {
            Ok(old) => return Ok(old),
            Err(back) => {
                lower(&mut self.kinds, kind.as_slice());
                return Err(back);
            }
        }
    }

    /// Removes and returns the value for this text, if any. Does not allocate.
    pub(crate) fn remove(&mut self, matching: Match, text: &[u8]) -> Option<V>
        requires within { length text.now ≤ 1024 }
        requires tells { Tells matching self.old.texts self.old.kinds }
        ensures value { result ≡ lookup (same_text text.now) self.old.texts }
        ensures entries { self.new.texts ≡ remove_entry (same_text text.now) self.old.texts }
        ensures tells { Tells matching self.new.texts self.new.kinds }
    {
        let Some(value) = self.texts.remove(text) else {
            return None;
        };
        let kind = kind_of(matching, text);
        lower(&mut self.kinds, kind.as_slice());
        Some(value)
    }

    /// Returns the value of the first kind, in their order, of which a pattern matches the URI. Does not allocate. Does one look-up for
    /// each kind that occurs; of wildcards only for those with as many components as the URI, and the others are not visited.
    #[tactic(auto, using(crate::proofs::OneKind::none_first))]
    pub(crate) fn first(&self, matching: Match, uri: &[u8]) -> Option<&V>
        requires { length uri.now ≤ 1024 }
        ensures found { option_copied result ≡ first_found matching self.now.texts uri.now (keys_of self.now.kinds) }
        ensures ordered { AreTextsInOrder self.now.kinds }
    {
        if self.kinds.len() == 0 {
            return None;
        }
        match matching {
            Match::Wildcard => self.first_shape(uri),
            _ => self.first_kind(matching, uri),
        }
    }

    // As `first`, for wildcards.
    fn first_shape(&self, uri: &[u8]) -> Option<&V>
        requires { length uri.now ≤ 1024 }
        ensures found { option_copied result ≡ first_found Match.Wildcard self.now.texts uri.now (keys_of self.now.kinds) }
        ensures ordered { AreTextsInOrder self.now.kinds }
    {
        let number = components(uri);
        for (kind, _count) in shapes(&self.kinds, number) {
            if let Some(value) = self.of_shape(kind.as_slice(), number, uri) {
                return Some(value);
            }
        }
        None
    }

    // As `first`, for exact patterns and prefixes: visits every kind.
    fn first_kind(&self, matching: Match, uri: &[u8]) -> Option<&V>
        requires { length uri.now ≤ 1024 }
        ensures found { option_copied result ≡ first_found matching self.now.texts uri.now (keys_of self.now.kinds) }
        ensures ordered { AreTextsInOrder self.now.kinds }
    {
        for (kind, _count) in self.kinds.iter() {
            if let Some(value) = self.of_kind(matching, kind.as_slice(), uri) {
                return Some(value);
            }
        }
        None
    }

    // Returns the value of the one pattern of this kind that matches the URI, if any.
    fn of_kind(&self, matching: Match, kind: &[u8], uri: &[u8]) -> Option<&V>
        requires { length uri.now ≤ 1024 }
        ensures { option_copied result ≡ found_kind matching self.now.texts uri.now kind.now }
    {
        match matching {
            Match::Exact => self.texts.get(uri),
            Match::Prefix => self.of_ending(kind, uri),
            Match::Wildcard => self.of_shape(kind, components(uri), uri),
        }
    }

    // As `of_kind`, for prefixes.
    fn of_ending(&self, kind: &[u8], uri: &[u8]) -> Option<&V>
        ensures { option_copied result ≡ found_kind Match.Prefix self.now.texts uri.now kind.now }
    {
        let Some(text) = front(kind, uri) else {
            return None;
        };
        self.texts.get(text)
    }

    // As `of_kind`, for wildcards; the URI has `number` components.
    fn of_shape(&self, kind: &[u8], number: usize, uri: &[u8]) -> Option<&V>
        requires short { length uri.now ≤ 1024 }
        requires number { number ≡ components uri.now }
        requires within { number ≤ 1025 }
        ensures { option_copied result ≡ found_kind Match.Wildcard self.now.texts uri.now kind.now }
    {
        let Some(text) = masked_if_fit(kind, number, uri) else {
            return None;
        };
        self.texts.get(text.as_slice())
    }

    /// Appends to the list the values of all patterns that match the URI, by text in byte order. Does one look-up for each kind that
    /// occurs, and for each value found a number of steps that is logarithmic in the number of these.
    #[tactic(auto, using(crate::proofs::Keyed::values_shown))]
    pub(crate) fn with_all<'a>(
        &'a self,
        alloc: Global,
        matching: Match,
        uri: &[u8],
        mut found: Vec<&'a V>,
    ) -> Result<Vec<&'a V>, Memory>
        requires { length uri.now ≤ 1024 }
        ensures { IfOk result (λ all. map (λ value. value.now) all.items ≡ map (λ value. value.now) found.entry.items
            ++ values_of (all_found matching self.now.texts uri.now [] (keys_of self.now.kinds))) }
    {
        if self.kinds.len() < 2 {
            return self.with_first(matching, uri, found);
        }
        let hits = self.hits(alloc, matching, uri)?;
        for value in hits.values() {
            found.push(*value)?;
        }
        Ok(found)
    }

    // As `with_all`, if there is at most one kind.
    #[tactic(auto, using(crate::proofs::OneKind::none_more, crate::proofs::OneKind::one_more))]
    fn with_first<'a>(
        &'a self,
        matching: Match,
        uri: &[u8],
        mut found: Vec<&'a V>,
    ) -> Result<Vec<&'a V>, Memory>
        requires short { length uri.now ≤ 1024 }
        requires few { length self.now.kinds ≤ 1 }
        ensures { IfOk result (λ all. map (λ value. value.now) all.items ≡ map (λ value. value.now) found.entry.items
            ++ values_of (all_found matching self.now.texts uri.now [] (keys_of self.now.kinds))) }
    {
        let Some(value) = self.first(matching, uri) else {
            return Ok(found);
        };
        found.push(value)?;
        Ok(found)
    }

    // Returns the texts of the patterns that match the URI, with their values.
    fn hits<'a>(
        &'a self,
        alloc: Global,
        matching: Match,
        uri: &[u8],
    ) -> Result<BTreeMap<&'a [u8], &'a V>, Memory>
        requires { length uri.now ≤ 1024 }
        ensures { IfOk result (λ hits. shown hits.entries ≡ all_found matching self.now.texts uri.now [] (keys_of self.now.kinds)) }
    {
        match matching {
            Match::Wildcard => self.shape_hits(alloc, uri),
            _ => self.kind_hits(alloc, matching, uri),
        }
    }

    // As `hits`, for wildcards.
    fn shape_hits<'a>(
        &'a self,
        alloc: Global,
        uri: &[u8],
    ) -> Result<BTreeMap<&'a [u8], &'a V>, Memory>
        requires { length uri.now ≤ 1024 }
        ensures { IfOk result (λ hits. shown hits.entries ≡ all_found Match.Wildcard self.now.texts uri.now [] (keys_of self.now.kinds)) }
    {
        let mut hits = BTreeMap::new(alloc);
        for (kind, _count) in shapes(&self.kinds, components(uri)) {
            self.add_hit(Match::Wildcard, kind.as_slice(), uri, &mut hits)?;
        }
        Ok(hits)
    }

    // As `hits`, for exact patterns and prefixes: visits every kind.
    fn kind_hits<'a>(
        &'a self,
        alloc: Global,
        matching: Match,
        uri: &[u8],
    ) -> Result<BTreeMap<&'a [u8], &'a V>, Memory>
        requires { length uri.now ≤ 1024 }
        ensures { IfOk result (λ hits. shown hits.entries ≡ all_found matching self.now.texts uri.now [] (keys_of self.now.kinds)) }
    {
        let mut hits = BTreeMap::new(alloc);
        for (kind, _count) in self.kinds.iter() {
            self.add_hit(matching, kind.as_slice(), uri, &mut hits)?;
        }
        Ok(hits)
    }

    // Adds the one pattern of this kind that matches the URI, if any.
    fn add_hit<'a>(
        &'a self,
        matching: Match,
        kind: &[u8],
        uri: &[u8],
        hits: &mut BTreeMap<&'a [u8], &'a V>,
    ) -> Result<(), Memory>
        requires { length uri.now ≤ 1024 }
        ensures { OnOk result (shown hits.new.entries ≡ with_text matching self.now.texts (filled matching kind.now uri.now) (shown hits.old.entries)) }
    {
        match matching {
            Match::Exact => self.add_text(uri, hits),
            Match::Prefix => {
                let Some(text) = front(kind, uri) else {
                    return Ok(());
                };
                self.add_text(text, hits)
            }
            Match::Wildcard => {
                let Some(text) = masked_if_fit(kind, components(uri), uri) else {
                    return Ok(());
                };
                self.add_text(text.as_slice(), hits)
            }
        }
    }

    // Adds the pattern with this text, if any.
    fn add_text<'a>(
        &'a self,
        text: &[u8],
        hits: &mut BTreeMap<&'a [u8], &'a V>,
    ) -> Result<(), Memory>
        ensures { OnOk result (shown hits.new.entries ≡ with_text Match.Exact self.now.texts (Some text.now) (shown hits.old.entries)) }
    {
        let Some((text, value)) = self.texts.stored(text) else {
            return Ok(());
        };
        hits.insert(text, value)?;
        Ok(())
    }
}

// Returns the kinds of wildcards with `number` components.
fn shapes(kinds: &Texts<usize>, number: usize) -> Range<'_, CowSlice<'static, u8>, usize>
    requires { number ≤ 1025 }
    ensures shapes { texts_of result ≡ filter (λ entry. is_shaped number entry.0) kinds.now }
    ensures ordered { AreTextsInOrder kinds.now }
{
    kinds.between(ones(number), ones(number + 1))
}

fn count_of(kinds: &Texts<usize>, kind: &[u8]) -> usize
    ensures { result ≡ count_of kinds.now kind.now }
{
    match kinds.get(kind) {
        Some(count) => *count,
        None => 0,
    }
}

// One more of this kind. No memory holds as many as cannot be counted.
fn raise(kinds: &mut Texts<usize>, alloc: Global, kind: &[u8]) -> Result<(), Memory>
    ensures entries { OnOk result (kinds.new ≡ insert_entry text_cmp kinds.old kind.now (count_of kinds.old kind.now + 1)) }
    ensures unchanged { OnErr result (kinds.new ≡ kinds.old) }
{
    let Some(count) = count_of(kinds, kind).checked_add(1) else {
        return Err(Memory);
    };
    match kinds.put(alloc, kind, count) {
        Ok(_) => return Ok(()),
        Err(_) => return Err(Memory),
    }
}

// Counts one less of this kind, and removes it once none is left.
fn lower(kinds: &mut Texts<usize>, kind: &[u8])
    ensures lowered { kinds.new ≡ lowered kinds.old kind.now }
    ensures was_ordered { AreTextsInOrder kinds.old }
{
    let count = count_of(kinds, kind);
    if count > 1 {
        let _ = kinds.replace(kind, count - 1);
        return;
    }
    let _ = kinds.remove(kind);
}
