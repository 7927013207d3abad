// An ordered map by texts.
ghost use Rattle.std.specs.Prelude.{◌≡◌, ◌<◌, ◌^◌, [], None, Some, false, IfOk, IfErr, OnOk, OnErr, MatchOption, option_copied, length};
ghost use Rattle.std.specs.Cow.{cow_slice_items};
ghost use Rattle.std.specs.Map.{lookup, remove_entry};
ghost use Rattle.std.specs.BTreeMap.{insert_entry};
ghost use Rattle.std.specs.Ordering.{is_gt};
ghost use Rattle.wamp_patterns.specs.Texts.{AreTextsInOrder, same_text, text_cmp, texts_between, texts_of};

use crate::memory::Memory;
use std::alloc::Global;
use std::borrow::CowSlice;
use std::collections::BTreeMap;
use std::collections::btree_map::{Iter, Range};
use std::marker::Model;
use std::mem;

/// Values by texts, at most one for each text, in byte order. Each call but `iter` takes a number of steps that is logarithmic in the
/// number of texts, each step linear in the given text.
#[derive(Debug, Drop)]
pub(crate) struct Texts<V> {
    map: BTreeMap<CowSlice<'static, u8>, V>,
}

impl<V> Model for Texts<V> {
    ghost use Rattle.std.specs.Prelude.{List, ℕ};
    ghost use Rattle.wamp_patterns.specs.Texts.{texts_of};

    ghost Value = { List (List ℕ × V) };

    ghost view = { λ a. texts_of a.map.entries };
}

impl<V> Texts<V> {
    /// Returns an empty map. Does not allocate.
    pub(crate) fn new(alloc: Global) -> Texts<V>
        ensures { result ≡ [] }
    {
        Texts {
            map: BTreeMap::new(alloc),
        }
    }

    /// Returns how many texts there are.
    pub(crate) fn len(&self) -> usize
        ensures len { result ≡ length self.now }
        ensures small { result < 2 ^ 63 }
        ensures ordered { AreTextsInOrder self.now }
    {
        self.map.len()
    }

    /// Returns the value of this text.
    pub(crate) fn get(&self, text: &[u8]) -> Option<&V>
        ensures { option_copied result ≡ lookup (same_text text.now) self.now }
    {
        self.map.get(text)
    }

    /// Returns the stored text, with its value.
    pub(crate) fn stored(&self, text: &[u8]) -> Option<(&[u8], &V)>
        ensures { MatchOption result (lookup (same_text text.now) self.now ≡ None)
            (λ stored. (stored.0.now ≡ text.now) × (lookup (same_text text.now) self.now ≡ Some stored.1.now)) }
    {
        match self.map.get_key_value(text) {
            Some((key, value)) => Some((key.as_slice(), value)),
            None => None,
        }
    }

    /// Replaces the value of a text that is there, and returns the previous one; otherwise returns the value as the error. Does not
    /// allocate.
    pub(crate) fn replace(&mut self, text: &[u8], value: V) -> Result<V, V>
        ensures old { IfOk result (λ old. lookup (same_text text.now) self.old ≡ Some old) }
        ensures entries { OnOk result (self.new ≡ insert_entry text_cmp self.old text.now value) }
        ensures value_returned { IfErr result (λ back. back ≡ value) }
        ensures unchanged { OnErr result (self.new ≡ self.old) }
        ensures missing { OnErr result (lookup (same_text text.now) self.old ≡ None) }
        ensures was_ordered { AreTextsInOrder self.old }
    {
        let Some(slot) = self.map.get_mut(text) else {
            return Err(value);
        };
        Ok(mem::replace(slot, value))
    }

    /// Adds a text that is absent. Allocates a copy of it and an entry; after `Memory` nothing has changed, and the value is returned.
    pub(crate) fn add(
        &mut self,
        alloc: Global,
        text: &[u8],
        value: V,
    ) -> Result<Option<V>, (V, Memory)>
        requires { lookup (same_text text.now) self.old ≡ None }
        ensures old { IfOk result (λ old. old ≡ None) }
        ensures entries { OnOk result (self.new ≡ insert_entry text_cmp self.old text.now value) }
        ensures value_returned { IfErr result (λ back. back.0 ≡ value) }
        ensures unchanged { OnErr result (self.new ≡ self.old) }
    {
        let Ok(copy) = copied(alloc, text) else {
            return Err((value, Memory));
        };
        match self.map.insert(copy, value) {
            Ok(old) => return Ok(old),
            Err(failed) => {
                let (_copy, value) = failed.value;
                return Err((value, Memory));
            }
        }
    }

    /// Inserts the value for this text, whether it is there or not.
    pub(crate) fn put(
        &mut self,
        alloc: Global,
        text: &[u8],
        value: V,
    ) -> Result<Option<V>, (V, Memory)>
        ensures entries { OnOk result (self.new ≡ insert_entry text_cmp self.old text.now value) }
        ensures unchanged { OnErr result (self.new ≡ self.old) }
    {
        match self.replace(text, value) {
            Ok(old) => Ok(Some(old)),
            Err(value) => self.add(alloc, text, value),
        }
    }

    /// Removes and returns the value of this text, if any. Does not allocate.
    pub(crate) fn remove(&mut self, text: &[u8]) -> Option<V>
        ensures value { result ≡ lookup (same_text text.now) self.old }
        ensures entries { self.new ≡ remove_entry (same_text text.now) self.old }
        ensures was_ordered { AreTextsInOrder self.old }
    {
        let _length = self.map.len();
        self.map.remove(text)
    }

    /// Returns the texts with their values, in order.
    pub(crate) fn iter(&self) -> Iter<'_, CowSlice<'static, u8>, V>
        ensures rest { texts_of result ≡ self.now }
        ensures ordered { AreTextsInOrder self.now }
    {
        self.map.iter()
    }

    /// Returns the texts from `first` on and before `last` with their values, in order.
    pub(crate) fn between(
        &self,
        first: &'static [u8],
        last: &'static [u8],
    ) -> Range<'_, CowSlice<'static, u8>, V>
        requires { is_gt (text_cmp first.now last.now) ≡ false }
        ensures rest { texts_of result ≡ texts_between first.now last.now self.now }
        ensures ordered { AreTextsInOrder self.now }
    {
        self.map
            .range(CowSlice::Borrowed(first)..CowSlice::Borrowed(last))
    }
}

// Returns a copy of the text.
fn copied(alloc: Global, text: &[u8]) -> Result<CowSlice<'static, u8>, Memory>
    ensures { IfOk result (λ copy. cow_slice_items copy ≡ text.now) }
{
    let Ok(copy) = text.to_vec(alloc) else {
        return Err(Memory);
    };
    Ok(CowSlice::Owned(copy))
}
