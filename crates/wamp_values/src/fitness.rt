// Judges whether a value is fit to be a payload: one walk over it for both tests, its numbers and how deep it nests.
ghost use Rattle.std.specs.Prelude.{◌≡◌, suc, not, if◌then◌else◌};
ghost use Rattle.std.specs.Bool.{OnTrue};
ghost use Rattle.std.specs.List.Sorted.{IsStrictlySortedBy};
ghost use Rattle.std.specs.Cmp.Lexicographic.{slice_cmp};
ghost use Rattle.std.specs.Ordering.{nat_cmp};
ghost use Rattle.serde_json.specs.Data.{depth, items_depth, members_depth};
ghost use Rattle.serde_json.specs.Find.{is_float};
ghost use Rattle.serde_json.specs.Written.{has_float, items_have_float, members_have_float};
ghost use Rattle.serde_json.specs.View.{view, number_view, items_view, members_view};
ghost use Rattle.wamp_values.specs.Fitness.{fitness, IfExact};
ghost use Rattle.wamp_values.specs.declared.fitness.Fitness.TheVariants.{TooDeep, Fit};
ghost use Rattle.wamp_values.specs.Payload.{IsHeld, IsPlain, ItemsArePlain, MembersArePlain, keys};

use serde_json::{Map, Number, Value};

// What a walk over a value finds.
#[derive(Clone, Copy)]
pub(crate) enum Fitness {
    // Some number is not held as an i64 or a u64.
    Inexact,
    // Arrays and objects nest deeper than the room.
    TooDeep,
    Fit,
}

// Returns the value's fitness if its arrays and objects may nest `room` deep.
#[cycle(fitness)]
#[inline(always)]
pub(crate) fn fitness_of(value: &Value, room: usize) -> Fitness
    ensures value { result ≡ fitness (has_float (view value.now)) (depth (view value.now)) room }
    ensures plain { IfExact result (IsPlain (view value.now)) }
{
    match value {
        Value::Null | Value::Bool(_) | Value::String(_) => Fitness::Fit,
        Value::Number(number) => if is_held(number) {
            Fitness::Fit
        } else {
            Fitness::Inexact
        },
        Value::Array(items) => items_fitness(items, room),
        Value::Object(members) => members_fitness(members, room),
    }
}

// Returns the fitness of the array of these items.
#[cycle(fitness)]
#[inline(never)]
fn items_fitness(items: &Vec<Value>, room: usize) -> Fitness
    ensures value { result ≡ fitness (items_have_float (items_view items.now.items))
        (suc (items_depth (items_view items.now.items))) room }
    ensures plain { IfExact result (ItemsArePlain (items_view items.now.items)) }
{
    let mut within = 0 < room;
    for item in items {
        match fitness_of(item, room.saturating_sub(1)) {
            Fitness::Inexact => return Fitness::Inexact,
            Fitness::TooDeep => within = false,
            Fitness::Fit => {}
        }
    }
    exact(within)
}

// Returns the fitness of the object of these members.
#[cycle(fitness)]
#[inline(never)]
#[tactic(auto, using(crate::proofs::Plain::keys_in_order))]
fn members_fitness(members: &Map<String, Value>, room: usize) -> Fitness
    ensures sorted { IsStrictlySortedBy (slice_cmp nat_cmp) (keys (members_view members.now.entries)) }
    ensures value { result ≡ fitness (members_have_float (members_view members.now.entries))
        (suc (members_depth (members_view members.now.entries))) room }
    ensures plain { IfExact result (MembersArePlain (members_view members.now.entries)) }
{
    let mut within = 0 < room;
    for (_key, member) in members.iter() {
        match fitness_of(member, room.saturating_sub(1)) {
            Fitness::Inexact => return Fitness::Inexact,
            Fitness::TooDeep => within = false,
            Fitness::Fit => {}
        }
    }
    exact(within)
}

// Returns the fitness of a value whose numbers are all held exactly.
fn exact(within: bool) -> Fitness
    ensures { result ≡ (if within then Fit else TooDeep) }
{
    if within {
        Fitness::Fit
    } else {
        Fitness::TooDeep
    }
}

fn is_held(number: &Number) -> bool
    ensures value { result ≡ not (is_float (number_view number.now)) }
    ensures held { OnTrue result (IsHeld (number_view number.now)) }
{
    if number.as_u64().is_some() {
        return true;
    }
    number.as_i64().is_some()
}
