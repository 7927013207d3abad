// A table by patterns: finds the value of a pattern, the one that serves a URI, and all that match it.
ghost use Rattle.std.specs.Prelude.{◌≡◌, ◌≤◌, [], None, IfOk, IfErr, OnOk, OnErr, false, map, length, option_copied, option_map};
ghost use Rattle.wamp_ids.specs.Uri.{is_empty, parts};
ghost use Rattle.std.specs.List.{list_any};
ghost use Rattle.std.specs.Map.{lookup, remove_entry, values_of};
ghost use Rattle.std.specs.BTreeMap.{insert_entry};
ghost use Rattle.wamp_patterns.specs.Ranking.{matching, serves};
ghost use Rattle.wamp_patterns.specs.Table.{AreInOrder, pattern_cmp, same_pattern};

use crate::index::Index;
use crate::memory::Memory;
use std::alloc::Global;
use std::marker::Model;
use wamp_ids::{Match, Pattern, Uri};

/// Values by patterns, at most one for each text and match. Contracts see the entries in one order: exact, then prefix, then wildcard, each
/// by text in byte order.
#[derive(Debug)]
pub struct PatternTable<V> {
    exact: Index<V>,
    prefix: Index<V>,
    wildcard: Index<V>,
    alloc: Global,
}

impl<V: Drop> Drop for PatternTable<V> {
    fn drop(self) {
        let PatternTable {
            exact: _exact,
            prefix: _prefix,
            wildcard: _wildcard,
            alloc: _,
        } = self;
    }
}

impl<V> Model for PatternTable<V> {
    ghost use Rattle.std.specs.Prelude.{List};
    ghost use Rattle.wamp_ids.specs.Pattern.{PatternValue};
    ghost use Rattle.wamp_ids.specs.declared.policy.Match.TheVariants.{Exact, Prefix, Wildcard};
    ghost use Rattle.wamp_patterns.specs.Kinds.{Tells};
    ghost use Rattle.wamp_patterns.specs.Table.{AreInOrder, all_entries};

    ghost Value = { List (PatternValue × V) };

    ghost view = { λ a. all_entries a.exact.texts a.prefix.texts a.wildcard.texts };

    ghost invariant = { λ a. AreInOrder (all_entries a.exact.texts a.prefix.texts a.wildcard.texts)
        × Tells Exact a.exact.texts a.exact.kinds
        × Tells Prefix a.prefix.texts a.prefix.kinds
        × Tells Wildcard a.wildcard.texts a.wildcard.kinds };
}

impl<V> PatternTable<V> {
    /// Returns an empty table. Does not allocate; `put` and `all` will, from `alloc`.
    pub fn new(alloc: Global) -> PatternTable<V>
        ensures { result ≡ [] }
    {
        PatternTable {
            exact: Index::new(alloc),
            prefix: Index::new(alloc),
            wildcard: Index::new(alloc),
            alloc,
        }
    }

    /// Inserts the value for this pattern, and returns the previous one, if any. Takes a number of steps that is logarithmic in the number
    /// of entries of this match. Allocates only for a new pattern: a copy of its text and an entry, and an entry for its kind (see `best`)
    /// if that is new too. After `Memory` the table is unchanged, and the value is returned.
    pub fn put(&mut self, pattern: &Pattern<'_>, value: V) -> Result<Option<V>, (V, Memory)>
        ensures old { IfOk result (λ old. old ≡ lookup (same_pattern pattern.now) self.old) }
        ensures entries { OnOk result (self.new ≡ insert_entry pattern_cmp self.old pattern.now value) }

        ensures value_returned { IfErr result (λ back. back.0 ≡ value) }
        ensures unchanged { OnErr result (self.new ≡ self.old) }
        ensures only_new { OnErr result (lookup (same_pattern pattern.now) self.old ≡ None) }

        ensures ordered { AreInOrder self.new }
    {
        let text = octets(pattern);
        match pattern.matching() {
            Match::Exact => self.exact.put(self.alloc, Match::Exact, text, value),
            Match::Prefix => self.prefix.put(self.alloc, Match::Prefix, text, value),
            Match::Wildcard => self.wildcard.put(self.alloc, Match::Wildcard, text, value),
        }
    }

    /// Returns the value for this pattern, if any. Does not allocate; takes a number of steps that is logarithmic in the number of entries
    /// of this match.
    pub fn get(&self, pattern: &Pattern<'_>) -> Option<&V>
        ensures value { option_copied result ≡ lookup (same_pattern pattern.now) self.now }
        ensures ordered { AreInOrder self.now }
    {
        let text = octets(pattern);
        match pattern.matching() {
            Match::Exact => self.exact.texts.get(text),
            Match::Prefix => self.prefix.texts.get(text),
            Match::Wildcard => self.wildcard.texts.get(text),
        }
    }

    /// Removes and returns the value for this pattern, if any. Does not allocate; takes a number of steps that is logarithmic in the number
    /// of entries of this match.
    pub fn remove(&mut self, pattern: &Pattern<'_>) -> Option<V>
        ensures value { result ≡ lookup (same_pattern pattern.now) self.old }
        ensures entries { self.new ≡ remove_entry (same_pattern pattern.now) self.old }
        ensures ordered { AreInOrder self.new }
    {
        let text = octets(pattern);
        match pattern.matching() {
            Match::Exact => self.exact.remove(Match::Exact, text),
            Match::Prefix => self.prefix.remove(Match::Prefix, text),
            Match::Wildcard => self.wildcard.remove(Match::Wildcard, text),
        }
    }

    /// Returns the value whose pattern serves the URI: of the patterns that match it the one that no other beats (`better`). Does not
    /// allocate. Does a look-up for the exact pattern, then one for each length of the prefixes in the table that end with the octet which
    /// the URI has there, the longest first, then one for each shape of the wildcards in the table (how many components, and which of them
    /// are empty), until one is found; each takes a number of steps that is logarithmic in the number of entries. Entries that do not match
    /// are not visited.
    pub fn best(&self, uri: &Uri<'_>) -> Option<&V>
        ensures { option_copied result ≡ option_map (λ entry. entry.1) (serves (λ entry. entry.0) self.now uri.now) }
    {
        let text = uri_octets(uri);
        if let Some(value) = self.exact.first(Match::Exact, text) {
            return Some(value);
        }
        if let Some(value) = self.prefix.first(Match::Prefix, text) {
            return Some(value);
        }
        self.wildcard.first(Match::Wildcard, text)
    }

    /// Returns the values whose patterns match the URI: exact, then prefix, then wildcard, each by text in byte order. Does all the
    /// look-ups of `best`, and takes memory and steps for what is found. If memory runs out, returns `Memory` and changes nothing.
    pub fn all(&self, uri: &Uri<'_>) -> Result<Vec<&V>, Memory>
        ensures found { IfOk result (λ found. map (λ value. value.now) found.items ≡ values_of (matching (λ entry. entry.0) self.now uri.now)) }
        ensures ordered { AreInOrder self.now }
    {
        let text = uri_octets(uri);
        let found = Vec::new(self.alloc);
        let found = self.exact.with_all(self.alloc, Match::Exact, text, found)?;
        let found = self
            .prefix
            .with_all(self.alloc, Match::Prefix, text, found)?;
        self.wildcard
            .with_all(self.alloc, Match::Wildcard, text, found)
    }
}

fn octets<'a>(pattern: &'a Pattern<'_>) -> &'a [u8]
    ensures text { result.now ≡ pattern.now.text }
    ensures within { length result.now ≤ 1024 }
{
    pattern.as_str().as_bytes()
}

fn uri_octets<'a>(uri: &'a Uri<'_>) -> &'a [u8]
    ensures text { result.now ≡ uri.now }
    ensures within { length result.now ≤ 1024 }
    ensures named { list_any is_empty (parts result.now) ≡ false }
{
    uri.as_str().as_bytes()
}
