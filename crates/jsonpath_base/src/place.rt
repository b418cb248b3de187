//! Reads and writes the value at a location.
ghost use Rattle.std.specs.Prelude.{◌≡◌, IfNone, IfSome, IsTrue, false, is_some, option_map};
ghost use Rattle.jsonpath_base.specs.Prelude.{location_view, null, owned_step, put, value_is_whole, value_tree, view};
ghost use Rattle.jsonpath_base.specs.Places as places;

use crate::step::Step;
use serde_json::Value;
use std::mem;

/// Returns the value at the location of these steps, or None where there is none (RFC 9535, 1.1). It takes no memory,
/// and time linear in the steps and their names, times the logarithm of an object's members. For a value with a number
/// that is not an integer less is proved: that number counts as null in these clauses.
#[cycle(at)]
pub fn at<'v>(value: &'v Value, place: &[Step]) -> Option<&'v Value>
    ensures value { option_map (λ v. value_tree v.now) result ≡ places.at (location_view place.now) (value_tree value.now) }
    ensures whole { IsTrue (value_is_whole value.now) → IfSome result (λ v. IsTrue (value_is_whole v.now)) }
{
    match place.split_first() {
        None => Some(value),
        Some((step, rest)) => match child(value, step) {
            Some(below) => at(below, rest),
            None => None,
        },
    }
}

/// Returns the child that a step leads to, or None.
pub fn child<'v>(value: &'v Value, step: &Step) -> Option<&'v Value>
    ensures value { option_map (λ v. value_tree v.now) result ≡ places.child (owned_step step.now) (value_tree value.now) }
    ensures whole { IsTrue (value_is_whole value.now) → IfSome result (λ v. IsTrue (value_is_whole v.now)) }
{
    match step {
        Step::Name(name) => value.get(name.as_str()),
        Step::Index(index) => value.get(*index),
    }
}

/// Replaces the value at the location of these steps, and returns true. Where there is no value, it returns false,
/// changes nothing, and drops the new value. It takes no memory, and the time of `at`. For values with a number that is
/// not an integer less is proved, as for `at`.
pub fn put_at(value: &mut Value, place: &[Step], new: Value) -> bool
    ensures value { value_tree value.new ≡ put (location_view place.now) (value_tree new) (value_tree value.old) }
    ensures found { result ≡ is_some (places.at (location_view place.now) (value_tree value.old)) }
    ensures unchanged { result ≡ false → view value.new ≡ view value.old }
    ensures whole { IsTrue (value_is_whole value.old) → IsTrue (value_is_whole new) → IsTrue (value_is_whole value.new) }
{
    exchange(value, place, new).is_some()
}

/// Takes the value at the location of these steps, and leaves null there. Where there is no value, it returns None, and
/// nothing changes. It takes no memory, and the time of `at`. For a value with a number that is not an integer less is
/// proved, as for `at`.
pub fn take_at(value: &mut Value, place: &[Step]) -> Option<Value>
    ensures taken { option_map value_tree result ≡ places.at (location_view place.now) (value_tree value.old) }
    ensures remaining { value_tree value.new ≡ put (location_view place.now) null (value_tree value.old) }
    ensures unchanged { IfNone result (view value.new ≡ view value.old) }
    ensures whole { IsTrue (value_is_whole value.old) → IsTrue (value_is_whole value.new) }
    ensures taken_whole { IsTrue (value_is_whole value.old) → IfSome result (λ v. IsTrue (value_is_whole v)) }
{
    exchange(value, place, Value::Null)
}

/// Replaces the value at the location of these steps, and returns the old one, or None where there was none.
#[cycle(exchange)]
fn exchange(value: &mut Value, steps: &[Step], new: Value) -> Option<Value>
    ensures value { value_tree value.new ≡ put (location_view steps.now) (value_tree new) (value_tree value.old) }
    ensures taken { option_map value_tree result ≡ places.at (location_view steps.now) (value_tree value.old) }
    ensures unchanged { IfNone result (view value.new ≡ view value.old) }
    ensures whole { IsTrue (value_is_whole value.old) → IsTrue (value_is_whole new) → IsTrue (value_is_whole value.new) }
    ensures taken_whole { IsTrue (value_is_whole value.old) → IfSome result (λ v. IsTrue (value_is_whole v)) }
{
    let (step, rest) = match steps.split_first() {
        Some((step, rest)) => (step, rest),
        None => return Some(mem::replace(value, new)),
    };
    match step {
        Step::Index(index) => match value.as_array_mut() {
            Some(items) => match items.get_mut(*index) {
                Some(item) => exchange(item, rest, new),
                None => None,
            },
            None => None,
        },
        Step::Name(name) => match value.as_object_mut() {
            Some(members) => match members.get_mut(name.as_str()) {
                Some(member) => exchange(member, rest, new),
                None => None,
            },
            None => None,
        },
    }
}
