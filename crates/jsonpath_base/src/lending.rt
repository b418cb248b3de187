//! Borrows the value at a location for writing. All checks come first, so the functions that borrow cannot fail: they
//! go straight down, and count the steps that remain.
ghost use Rattle.std.specs.Prelude.{◌≡◌, ◌<◌, ◌≤◌, IfSome, IsSome, IsTrue, Some, is_some, length, option_map};
ghost use Rattle.jsonpath_base.specs.Prelude.{is_entry, location_view, lookup, name_in, next, rest, sem, value_is_whole, value_tree};
ghost use Rattle.jsonpath_base.specs.Lending.{LendsAt};
ghost use Rattle.jsonpath_base.specs.Places as places;
ghost use Rattle.jsonpath_base.specs.inner.Lent.{LendsFound, LendsRest};

mod parts;

use crate::place::at;
use crate::step::Step;
use parts::{is_index, item_at, list_mut, map_mut, member_by, take};
use serde_json::{Map, Value};

/// Borrows the value at the location of these steps for writing, or returns None where there is no value (RFC 9535,
/// 1.1). When the borrow ends, what was written is there, and nothing else has changed. It takes no memory, and twice
/// the time of `at`.
pub fn at_mut<'v>(value: &'v mut Value, place: &[Step]) -> Option<&'v mut Value>
    ensures* writes_back { sem 𝓛 (LendsAt (location_view place.now) value.entry result) }
    ensures value { option_map (λ v. value_tree v.now) result ≡ places.at (location_view place.now) (value_tree value.old) }
    ensures whole { IsTrue (value_is_whole value.old) → IfSome result (λ v. IsTrue (value_is_whole v.now)) }
{
    let remaining = count(place);
    let found = is_there(value, place);
    if found {
        return Some(place_mut(value, place, remaining));
    }
    None
}

/// Returns the number of steps.
fn count(steps: &[Step]) -> usize
    ensures { result ≡ length steps.now }
{
    steps.len()
}

/// Returns whether there is a value at the location.
fn is_there(value: &Value, steps: &[Step]) -> bool
    ensures { result ≡ is_some (places.at (location_view steps.now) (value_tree value.now)) }
{
    at(value, steps).is_some()
}

/// Borrows the value that the remaining steps lead to.
#[cycle(place_mut)]
fn place_mut<'v>(value: &'v mut Value, steps: &[Step], remaining: usize) -> &'v mut Value
    requires { (remaining ≤ length steps.now) × IsSome (places.at (rest steps.now remaining) (value_tree value.old)) }
    ensures* writes_back { sem 𝓛 (LendsRest steps.now remaining value.entry result) }
    ensures value { Some (value_tree result.now) ≡ places.at (rest steps.now remaining) (value_tree value.old) }
    ensures whole { IsTrue (value_is_whole value.old) → IsTrue (value_is_whole result.now) }
{
    if remaining == 0 {
        return value;
    }
    if is_index(steps, remaining) {
        let list = list_mut(value);
        let item = item_at(list, steps, remaining);
        return place_mut(item, steps, remaining - 1);
    }
    let map = map_mut(value);
    let member = member_at(map, steps, remaining);
    place_mut(member, steps, remaining - 1)
}

/// Borrows the member of the next step's name, which is there.
fn member_at<'v>(map: &'v mut Map<String, Value>, steps: &[Step], remaining: usize) -> &'v mut Value
    requires { (0 < remaining) × (remaining ≤ length steps.now) × IsSome (lookup (is_entry (name_in (next steps.now remaining))) map.old.entries) }
    ensures* writes_back { sem 𝓛 (LendsFound (name_in (next steps.now remaining)) map.entry result) }
    ensures value { Some result.now ≡ lookup (is_entry (name_in (next steps.now remaining))) map.old.entries }
{
    take(member_by(map, steps, remaining))
}
