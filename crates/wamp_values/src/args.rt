// The arguments of messages: how payloads become arguments, and how copies share them.
ghost use Rattle.std.specs.Prelude.{◌≡◌, ◌↔◌, IfOk, IsTrue, OnOk, is_some, Some, None, if◌then◌else◌};
ghost use Rattle.serde_json.specs.View.{view};
ghost use Rattle.serde_json.specs.Find.{as_array, as_object};
ghost use Rattle.wamp_values.specs.Args.{args_tokens, IsArgs, IsArguments, IsArgumentsKw};
ghost use Rattle.wamp_values.specs.Tokens.{data_tokens, Appends};

use crate::held::HeldPayload;
use crate::memory::Memory;
use crate::payload::Payload;
use json::Writer;
use serde_json::Value;
use std::marker::Model;

/// A payload that is an array (WAMP specification, "Protocol Messages": Arguments|list).
#[derive(Debug)]
pub struct Arguments {
    list: HeldPayload,
}

impl Drop for Arguments {
    fn drop(self) {
        let Arguments { list: _list } = self;
    }
}

impl Model for Arguments {
    ghost use Rattle.std.specs.Prelude.{IsTrue, is_some};
    ghost use Rattle.serde_json.specs.Data.{Data};
    ghost use Rattle.serde_json.specs.Find.{as_array};
    ghost use Rattle.wamp_values.specs.Payload.{coded_data};

    ghost Value = { Data };

    ghost coded = { coded_data };

    ghost view = { λ a. a.list };

    ghost invariant = { λ a. IsTrue (is_some (as_array a.list)) };
}

impl Arguments {
    /// Returns the payload as arguments if it is an array, else `None`. Does not allocate.
    pub fn of(payload: Payload) -> Option<Arguments>
        ensures { result ≡ (if is_some (as_array payload) then Some payload else None) }
    {
        if payload.value().is_array() {
            Some(Arguments {
                list: HeldPayload::of(payload),
            })
        } else {
            None
        }
    }

    /// Lets later copies share the array, for which it allocates once, unless they do already. The value stays as it is, also if memory runs
    /// out.
    pub fn share(&mut self) -> Result<(), Memory>
        ensures { self.new ≡ self.old }
    {
        self.list.share()
    }

    /// Returns the array; does not allocate.
    pub fn value(&self) -> &Value
        ensures value { view result.now ≡ self.now }
        ensures arguments { IsArguments self.now }
    {
        self.list.get().value()
    }

    /// Returns an equal array. A shared one gets one more holder, in constant time and without an allocation; an unshared one is copied. If
    /// memory runs out, returns `Memory` and changes nothing.
    pub fn copy(&self) -> Result<Arguments, Memory>
        ensures { IfOk result (λ made. made ≡ self.now) }
    {
        Ok(Arguments {
            list: self.list.copy()?,
        })
    }

    /// Returns whether the two are equal; does not allocate.
    pub fn same(&self, other: &Arguments) -> bool
        ensures { IsTrue result ↔ (self.now ≡ other.now) }
    {
        self.list.get().same(other.list.get())
    }

    /// Writes the array's tokens, as `Payload::put` does.
    pub fn put(&self, out: &mut Writer) -> Result<(), Memory>
        ensures tokens { Appends result out.old out.new (data_tokens self.now) }
        ensures arguments { IsArguments self.now }
    {
        self.list.get().put(out)
    }
}

/// A payload that is an object (WAMP specification, "Protocol Messages": ArgumentsKw|dict).
#[derive(Debug)]
pub struct ArgumentsKw {
    dict: HeldPayload,
}

impl Drop for ArgumentsKw {
    fn drop(self) {
        let ArgumentsKw { dict: _dict } = self;
    }
}

impl Model for ArgumentsKw {
    ghost use Rattle.std.specs.Prelude.{IsTrue, is_some};
    ghost use Rattle.serde_json.specs.Data.{Data};
    ghost use Rattle.serde_json.specs.Find.{as_object};
    ghost use Rattle.wamp_values.specs.Payload.{coded_data};

    ghost Value = { Data };

    ghost coded = { coded_data };

    ghost view = { λ a. a.dict };

    ghost invariant = { λ a. IsTrue (is_some (as_object a.dict)) };
}

impl ArgumentsKw {
    /// Returns the payload as arguments by name if it is an object, else `None`. Does not allocate.
    pub fn of(payload: Payload) -> Option<ArgumentsKw>
        ensures { result ≡ (if is_some (as_object payload) then Some payload else None) }
    {
        if payload.value().is_object() {
            Some(ArgumentsKw {
                dict: HeldPayload::of(payload),
            })
        } else {
            None
        }
    }

    /// Lets later copies share the object, as [`Arguments::share`] does for an array; an object without members needs no memory.
    pub fn share(&mut self) -> Result<(), Memory>
        ensures { self.new ≡ self.old }
    {
        self.dict.share()
    }

    /// Returns the object; does not allocate.
    pub fn value(&self) -> &Value
        ensures value { view result.now ≡ self.now }
        ensures arguments { IsArgumentsKw self.now }
    {
        self.dict.get().value()
    }

    /// Returns an equal object, as [`Arguments::copy`] returns an equal array.
    pub fn copy(&self) -> Result<ArgumentsKw, Memory>
        ensures { IfOk result (λ made. made ≡ self.now) }
    {
        Ok(ArgumentsKw {
            dict: self.dict.copy()?,
        })
    }

    /// Returns whether the two are equal; does not allocate.
    pub fn same(&self, other: &ArgumentsKw) -> bool
        ensures { IsTrue result ↔ (self.now ≡ other.now) }
    {
        self.dict.get().same(other.dict.get())
    }

    /// Writes the object's tokens, as `Payload::put` does.
    pub fn put(&self, out: &mut Writer) -> Result<(), Memory>
        ensures tokens { Appends result out.old out.new (data_tokens self.now) }
        ensures arguments { IsArgumentsKw self.now }
    {
        self.dict.get().put(out)
    }
}

/// The arguments of a message: none, a list, or a list and a dictionary.
#[derive(Debug)]
pub enum Args {
    Nothing,
    List(Arguments),
    Both(Arguments, ArgumentsKw),
}

impl Drop for Args {
    fn drop(self) {
        match self {
            Args::Nothing => {},
            Args::List(_list) => {},
            Args::Both(_list, _dict) => {},
        }
    }
}

impl Args {
    /// Lets later copies share the arguments, as [`Arguments::share`] does.
    pub fn share(&mut self) -> Result<(), Memory>
        ensures { self.new ≡ self.old }
    {
        match self {
            Args::Nothing => Ok(()),
            Args::List(list) => list.share(),
            Args::Both(list, dict) => {
                list.share()?;
                dict.share()
            }
        }
    }

    /// Returns equal arguments, as [`Arguments::copy`] does.
    pub fn copy(&self) -> Result<Args, Memory>
        ensures { IfOk result (λ made. made ≡ self.now) }
    {
        match self {
            Args::Nothing => Ok(Args::Nothing),
            Args::List(list) => Ok(Args::List(list.copy()?)),
            Args::Both(list, dict) => {
                let list = list.copy()?;
                let Ok(dict) = dict.copy() else {
                    drop(list);
                    return Err(Memory);
                };
                Ok(Args::Both(list, dict))
            }
        }
    }

    /// Returns whether the two are equal; does not allocate.
    pub fn same(&self, other: &Args) -> bool
        ensures { IsTrue result ↔ (self.now ≡ other.now) }
    {
        match (self, other) {
            (Args::Nothing, Args::Nothing) => true,
            (Args::List(list), Args::List(other)) => list.same(other),
            (Args::Both(list, dict), Args::Both(other, names)) => {
                list.same(other) && dict.same(names)
            }
            _ => false,
        }
    }

    /// Writes the arguments' tokens as the last items of a message's array, without a bracket, as `Payload::put` does.
    pub fn put(&self, out: &mut Writer) -> Result<(), Memory>
        ensures tokens { Appends result out.old out.new (args_tokens self.now) }
        ensures args { OnOk result (IsArgs self.now) }
    {
        match self {
            Args::Nothing => Ok(()),
            Args::List(list) => list.put(out),
            Args::Both(list, dict) => {
                list.put(out)?;
                dict.put(out)
            }
        }
    }
}
