//! Borrows the parts of a value for writing, and reads the steps that lead to them. Of the steps of a location, the
//! last `remaining` ones are still to be taken.
ghost use Rattle.std.specs.Prelude.{◌≡◌, ◌<◌, ◌≤◌, IsSome, Some, length, option_map, slice_index_or, vec_len};
ghost use Rattle.jsonpath_base.specs.Prelude.{as_array, as_object, has_index, index_in, is_entry, items_view, LendsMember, lookup, members_view, name_in, next, sem, view};
ghost use Rattle.jsonpath_base.specs.inner.Lent.{LendsItem, LendsList, LendsMap};

use crate::step::Step;
use serde_json::{Map, Value};

/// Returns whether the next step is an index.
pub fn is_index(steps: &[Step], remaining: usize) -> bool
    requires { (0 < remaining) × (remaining ≤ length steps.now) }
    ensures { result ≡ has_index (next steps.now remaining) }
{
    match &steps[steps.len() - remaining] {
        Step::Index(_) => true,
        Step::Name(_) => false,
    }
}

/// Returns the next step's index, or 0 for a name.
fn next_index(steps: &[Step], remaining: usize) -> usize
    requires { (0 < remaining) × (remaining ≤ length steps.now) }
    ensures { result ≡ index_in (next steps.now remaining) }
{
    match &steps[steps.len() - remaining] {
        Step::Index(index) => *index,
        Step::Name(_) => 0,
    }
}

/// Returns the next step's name, or the empty name for an index.
fn next_name<'s>(steps: &'s [Step], remaining: usize) -> &'s str
    requires { (0 < remaining) × (remaining ≤ length steps.now) }
    ensures { result.now ≡ name_in (next steps.now remaining) }
{
    match &steps[steps.len() - remaining] {
        Step::Name(name) => name.as_str(),
        Step::Index(_) => "",
    }
}

/// Borrows the elements of a list.
pub fn list_mut(value: &mut Value) -> &mut Vec<Value>
    requires { IsSome (as_array (view value.old)) }
    ensures* writes_back { sem 𝓛 (LendsList value.entry result) }
    ensures value { Some (items_view result.now.items) ≡ as_array (view value.old) }
{
    value.as_array_mut().unwrap()
}

/// Borrows the element at an index.
fn item_mut(items: &mut Vec<Value>, index: usize) -> &mut Value
    requires { index < vec_len items.old }
    ensures* writes_back { sem 𝓛 (LendsItem index items.entry result) }
    ensures value { result.now ≡ slice_index_or items.old.items index result.now }
{
    &mut items[index]
}

/// Borrows the element at the next step's index.
pub fn item_at<'v>(items: &'v mut Vec<Value>, steps: &[Step], remaining: usize) -> &'v mut Value
    requires { (0 < remaining) × (remaining ≤ length steps.now) × (index_in (next steps.now remaining) < vec_len items.old) }
    ensures* writes_back { sem 𝓛 (LendsItem (index_in (next steps.now remaining)) items.entry result) }
    ensures value { result.now ≡ slice_index_or items.old.items (index_in (next steps.now remaining)) result.now }
{
    item_mut(items, next_index(steps, remaining))
}

/// Borrows the members of an object.
pub fn map_mut(value: &mut Value) -> &mut Map<String, Value>
    requires { IsSome (as_object (view value.old)) }
    ensures* writes_back { sem 𝓛 (LendsMap value.entry result) }
    ensures value { Some (members_view result.now.entries) ≡ as_object (view value.old) }
{
    value.as_object_mut().unwrap()
}

/// Borrows the member of a name.
fn member_mut<'v>(map: &'v mut Map<String, Value>, key: &str) -> Option<&'v mut Value>
    ensures* writes_back { sem 𝓛 (LendsMember key.now map.entry result) }
    ensures value { option_map (λ v. v.now) result ≡ lookup (is_entry key.now) map.old.entries }
{
    map.get_mut(key)
}

/// Borrows the member of the next step's name.
pub fn member_by<'v>(
    map: &'v mut Map<String, Value>,
    steps: &[Step],
    remaining: usize,
) -> Option<&'v mut Value>
    requires { (0 < remaining) × (remaining ≤ length steps.now) }
    ensures* writes_back { sem 𝓛 (LendsMember (name_in (next steps.now remaining)) map.entry result) }
    ensures value { option_map (λ v. v.now) result ≡ lookup (is_entry (name_in (next steps.now remaining))) map.old.entries }
{
    member_mut(map, next_name(steps, remaining))
}

/// Returns the value that was found.
pub fn take<'v>(found: Option<&'v mut Value>) -> &'v mut Value
    requires { IsSome found }
    ensures { Some result ≡ found.entry }
{
    found.unwrap()
}
