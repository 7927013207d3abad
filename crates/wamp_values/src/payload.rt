// Payloads: how a JSON value becomes one, and how it is copied, compared and written.
ghost use Rattle.std.specs.Prelude.{◌≡◌, ◌++◌, ◌↔◌, IfOk, IsTrue, OnOk, OnErr};
ghost use Rattle.serde_json.specs.View.{view};
ghost use Rattle.serde_json.specs.Written.{compact_text};
ghost use Rattle.wamp_values.specs.Payload.{payload_of, IsPayload};
ghost use Rattle.wamp_values.specs.Tokens.{data_tokens, Appends};

use crate::equal::same_values;
use crate::fault::ValueFault;
use crate::fitness::{Fitness, fitness_of};
use crate::memory::Memory;
use crate::tokens::put;
use json::Writer;
use serde_json::Value;
use std::marker::Model;
use std::mem;

/// How deep the arrays and objects of a payload may nest.
const DEEPEST: usize = 126;

/// A JSON value that a message may carry. Each of its numbers is held as an i64 or a u64, and its arrays and objects nest at most 126 deep.
#[derive(Debug)]
pub struct Payload {
    value: Value,
}

impl Drop for Payload {
    fn drop(self) {
        let Payload { value: _value } = self;
    }
}

impl Model for Payload {
    ghost use Rattle.serde_json.specs.Data.{Data};
    ghost use Rattle.serde_json.specs.View as json;
    ghost use Rattle.wamp_values.specs.Payload.{coded_data, IsPayload};

    ghost Value = { Data };

    ghost coded = { coded_data };

    ghost view = { λ a. json.view a.value };

    ghost invariant = { λ a. IsPayload (json.view a.value) };
}

impl Payload {
    /// Returns this value as a payload; walks it once, and does not allocate.
    ///
    /// `Number` if a number is not held as an i64 or a u64: one with a fraction, an exponent or out of range, or `-0`. Else `Deep` if
    /// arrays and objects nest more than 126 deep.
    pub fn check(value: Value) -> Result<Payload, ValueFault>
        ensures { result ≡ payload_of (view value) }
    {
        match fitness_of(&value, DEEPEST) {
            Fitness::Inexact => Err(ValueFault::Number),
            Fitness::TooDeep => Err(ValueFault::Deep),
            Fitness::Fit => Ok(Payload { value }),
        }
    }

    /// Returns the value; does not allocate.
    pub fn value(&self) -> &Value
        ensures value { view result.now ≡ self.now }
        ensures payload { IsPayload self.now }
    {
        &self.value
    }

    // Takes the payload out, and leaves null.
    pub(crate) fn take(&mut self) -> Payload
        ensures { result ≡ self.old }
    {
        Payload {
            value: self.value.take(),
        }
    }

    /// Returns an equal payload. If memory runs out, returns `Memory` and changes nothing.
    pub fn copy(&self) -> Result<Payload, Memory>
        ensures { IfOk result (λ made. made ≡ self.now) }
    {
        Ok(Payload {
            value: self.value.clone()?,
        })
    }

    /// Returns whether the two are equal; stops at the first difference, and does not allocate.
    #[tactic(auto, using(crate::proofs::Sameness::same_decides))]
    pub fn same(&self, other: &Payload) -> bool
        ensures { IsTrue result ↔ (self.now ≡ other.now) }
    {
        same_values(&self.value, &other.value)
    }

    /// Writes the payload's tokens, which print as its compact text.
    ///
    /// After an error some tokens may have been written; what the writer held before stays.
    #[tactic(auto, using(crate::proofs::Plain::plain_has_no_float))]
    pub fn put(&self, out: &mut Writer) -> Result<(), Memory>
        ensures tokens { Appends result out.old out.new (data_tokens self.now) }
        ensures payload { IsPayload self.now }
    {
        Ok(put(&self.value, out)?)
    }

    /// Appends the payload's compact text, without spaces and with an object's keys in byte order. An error leaves `out` unchanged.
    #[tactic(auto, using(crate::proofs::Texts::print_tokens))]
    pub fn write_into(&self, out: &mut Vec<u8>) -> Result<(), Memory>
        ensures ok { OnOk result (out.new.items ≡ out.old.items ++ compact_text self.now) }
        ensures err { OnErr result (out.new.items ≡ out.old.items) }
    {
        let start = out.len();
        let alloc = *out.allocator();
        let mut writer = Writer::new(mem::replace(out, Vec::new(alloc)));
        let done = self.put(&mut writer);
        *out = writer.into_inner();
        if done.is_err() {
            out.truncate(start);
        }
        done
    }
}
