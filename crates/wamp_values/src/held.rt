// A payload that its copies share: a copy is one more holder of one allocation.
ghost use Rattle.std.specs.Prelude.{◌≡◌, IfOk};

use crate::memory::Memory;
use crate::payload::Payload;
use serde_json::Value;
use std::alloc::Global;
use std::marker::Model;
use std::sync::Arc;

// How a payload is held.
#[derive(Debug, Drop)]
enum Held {
    // Shared by all copies.
    Together(Arc<Payload>),
    // Held by this one alone.
    Alone(Payload),
}

// A payload that all its copies share.
#[derive(Debug, Drop)]
pub(crate) struct HeldPayload {
    held: Held,
}

impl Model for HeldPayload {
    ghost use Rattle.serde_json.specs.Data.{Data};
    ghost use Rattle.wamp_values.specs.Payload.{coded_data};
    ghost use Rattle.wamp_values.specs.Held.{held_data};

    ghost Value = { Data };

    ghost coded = { coded_data };

    ghost view = { λ a. held_data a.held };
}

impl HeldPayload {
    // Holds the payload unshared; does not allocate.
    pub fn of(payload: Payload) -> HeldPayload
        ensures { result ≡ payload }
    {
        HeldPayload {
            held: Held::Alone(payload),
        }
    }

    // Makes the payload shared by later copies, unless it is, or keeps no allocator to ask.
    pub fn share(&mut self) -> Result<(), Memory>
        ensures { self.new ≡ self.old }
    {
        let Held::Alone(payload) = &mut self.held else {
            return Ok(());
        };
        let Some(alloc) = allocator_of(payload.value()) else {
            return Ok(());
        };
        match Arc::new(alloc, payload.take()) {
            Ok(payload) => {
                self.held = Held::Together(payload);
                Ok(())
            }
            Err(failed) => {
                self.held = Held::Alone(failed.value);
                Err(Memory)
            }
        }
    }

    pub fn get(&self) -> &Payload
        ensures { result.now ≡ self.now }
    {
        match &self.held {
            Held::Together(payload) => payload,
            Held::Alone(payload) => payload,
        }
    }

    // Adds a holder; does not allocate if the payload is shared.
    pub fn copy(&self) -> Result<HeldPayload, Memory>
        ensures { IfOk result (λ made. made ≡ self.now) }
    {
        Ok(HeldPayload {
            held: match &self.held {
                Held::Together(payload) => Held::Together(Arc::try_clone(payload)?),
                Held::Alone(payload) => Held::Alone(payload.copy()?),
            },
        })
    }
}

// Returns the allocator that the value keeps, if any: an object without members keeps none that can be asked for.
fn allocator_of(value: &Value) -> Option<Global> {
    match value {
        Value::Array(items) => Some(*items.allocator()),
        Value::Object(members) => match members.iter().next() {
            Some((key, _member)) => Some(*key.allocator()),
            None => None,
        },
        Value::String(text) => Some(*text.allocator()),
        Value::Null | Value::Bool(_) | Value::Number(_) => None,
    }
}
