//! Octets that are read from their head on.
ghost use Rattle.std.specs.Prelude.{◌≡◌, ◌≢◌, ◌<◌, ◌≤◌, Ok, Err, IfOk, IfErr, IsErr, MatchResult, string_bytes, length, ◌==◌};
ghost use Rattle.command_codec.specs.Number.{number_reading};
ghost use Rattle.wamp_ids.specs.Pattern.{pattern_of};
ghost use Rattle.realm_snapshot.specs.Forms.{count_form};
ghost use Rattle.realm_snapshot.specs.Fault.{Takes};
ghost use Rattle.realm_snapshot.specs.Reading.{id_reading, flag_reading, option_reading, match_reading, invoke_reading};
ghost use Rattle.realm_snapshot.specs.Reading.{octets_reading, name_reading, pattern_reading};

use crate::forms::{COUNT, FLAG, ID, ID_OR_NONE, INVOKE, LENGTH, MATCH, invoke_of, match_of};
use command_codec::{CodecFault, Form, take_number};
use std::alloc::Global;
use std::marker::Model;
use wamp_ids::{Id, Invoke, Match, Pattern};

// What is left to be read.
pub(crate) struct Cursor<'a> {
    octets: &'a [u8],
}

impl<'a> Drop for Cursor<'a> {
    fn drop(self) {
        let Cursor { octets: _ } = self;
    }
}

impl<'a> Model for Cursor<'a> {
    ghost use Rattle.std.specs.Prelude.{ℕ, List};

    ghost Value = { List ℕ };

    ghost view = { λ a. a.octets.now };
}

impl<'a> Cursor<'a> {
    pub(crate) fn new(octets: &'a [u8]) -> Cursor<'a>
        ensures { result ≡ octets.now }
    {
        Cursor { octets }
    }

    // Returns whether nothing is left.
    pub(crate) fn is_at_end(&self) -> bool
        ensures { result ≡ (length self.now == 0) }
    {
        self.octets.is_empty()
    }

    // Takes a number of this form.
    pub(crate) fn number(&mut self, form: Form) -> Result<u64, CodecFault>
        requires least { 0 < form.width }
        requires most { form.width ≤ 8 }
        ensures taken { Takes result (number_reading form self.old) self.new }
        ensures within { IfOk result (λ n. (form.low ≤ n) × (n ≤ form.high)) }
    {
        match take_number(form, self.octets) {
            Ok((number, rest)) => {
                self.octets = rest;
                Ok(number)
            },
            Err(fault) => Err(fault),
        }
    }

    pub(crate) fn id(&mut self) -> Result<Id, CodecFault>
        ensures { Takes result (id_reading self.old) self.new }
    {
        let number = self.number(ID)?;
        let Some(id) = Id::new(number) else {
            unreachable!();
        };
        Ok(id)
    }

    // Takes an id, or 0 for none.
    pub(crate) fn option(&mut self) -> Result<Option<Id>, CodecFault>
        ensures { Takes result (option_reading self.old) self.new }
    {
        let number = self.number(ID_OR_NONE)?;
        Ok(Id::new(number))
    }

    pub(crate) fn flag(&mut self) -> Result<bool, CodecFault>
        ensures { Takes result (flag_reading self.old) self.new }
    {
        let number = self.number(FLAG)?;
        Ok(number == 1)
    }

    pub(crate) fn matching(&mut self) -> Result<Match, CodecFault>
        ensures { Takes result (match_reading self.old) self.new }
    {
        let number = self.number(MATCH)?;
        Ok(match_of(number))
    }

    pub(crate) fn invoke(&mut self) -> Result<Invoke, CodecFault>
        ensures { Takes result (invoke_reading self.old) self.new }
    {
        let number = self.number(INVOKE)?;
        Ok(invoke_of(number))
    }

    // Takes how many there are of something.
    pub(crate) fn count(&mut self) -> Result<u64, CodecFault>
        ensures { Takes result (number_reading count_form self.old) self.new }
    {
        self.number(COUNT)
    }

    // Takes the realm's name, after the number of its octets.
    pub(crate) fn name(&mut self, alloc: Global) -> Result<String, CodecFault>
        ensures taken { IfOk result (λ name. name_reading self.old ≡ Ok (string_bytes name, self.new)) }
        ensures fault { IfErr result (λ fault. fault ≢ CodecFault.Memory → name_reading self.old ≡ Err fault) }
    {
        let count = self.count()?;
        let (text, rest) = match text_at(self.octets, count) {
            Ok(read) => read,
            Err(fault) => return Err(fault),
        };
        self.octets = rest;
        Ok(String::from_str(alloc, text)?)
    }

    // Takes a pattern of this match by its text, after the number of its octets.
    pub(crate) fn pattern(
        &mut self,
        alloc: Global,
        matching: Match,
    ) -> Result<Pattern<'static>, CodecFault>
        ensures { Takes result (pattern_reading matching self.old) self.new }
    {
        let count = self.number(LENGTH)?;
        let (text, rest) = match text_at(self.octets, count) {
            Ok(read) => read,
            Err(fault) => return Err(fault),
        };
        self.octets = rest;
        pattern_of(alloc, text, matching)
    }
}

// Returns the text of this many octets at the head, and what follows it.
fn text_at(octets: &[u8], count: u64) -> Result<(&str, &[u8]), CodecFault>
    ensures { MatchResult result (λ read. octets_reading count octets.now ≡ Ok (read.0.now, read.1.now))
        (λ fault. octets_reading count octets.now ≡ Err fault) }
{
    let Some((text, rest)) = octets.split_at_checked(count as usize) else {
        return Err(CodecFault::Short);
    };
    match str::from_utf8(text) {
        Ok(text) => Ok((text, rest)),
        Err(_) => Err(CodecFault::Range),
    }
}

// Returns the pattern of this text and match.
fn pattern_of(alloc: Global, text: &str, matching: Match) -> Result<Pattern<'static>, CodecFault>
    ensures taken { IfOk result (λ made. pattern_of text.now matching ≡ Ok made) }
    ensures fault { IfErr result (λ fault. fault ≢ CodecFault.Memory
        → (fault ≡ CodecFault.Range) × IsErr (pattern_of text.now matching)) }
{
    let Ok(pattern) = Pattern::of(text, matching) else {
        return Err(CodecFault::Range);
    };
    let Ok(pattern) = pattern.copy(alloc) else {
        return Err(CodecFault::Memory);
    };
    Ok(pattern)
}
