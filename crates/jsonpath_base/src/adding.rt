//! Adds a value to an object or a list (RFC 6902, 4.1).
ghost use Rattle.std.specs.Prelude.{◌≡◌, IfErr, IfOk, IsTrue, OnErr, OnOk, if◌then◌else◌, insert, is_ok, length, nat_le, string_cmp, true, false, unwrap_or};
ghost use Rattle.jsonpath_base.specs.Prelude.{added, Adds, insert_entry, IsOrdered, location_view, owned_step, result_ok, takes, takes_at, value_is_whole, value_tree, view, with_new};

use crate::step::Step;
use jsonpath_parser::errors::{JsonPathError, Parsed};
use serde_json::{Map, Value};
use std::alloc::{AllocError, Global};

/// Adds a value to the object or the list at the location `parent`, and returns true (RFC 6902, 4.1). An object gets a
/// member, which replaces a member of the same name. A list gets an element before the one of an index, which may be
/// the length of the list. Where no object or list takes the step, it returns false, changes nothing, and drops the new
/// value. It takes the time of `at`, and time linear in the elements after the new one.
///
/// # Errors
///
/// `OutOfMemory` where memory ran out, and then nothing changes.
pub fn add_at(
    _alloc: Global,
    value: &mut Value,
    parent: &[Step],
    step: Step,
    new: Value,
) -> Parsed<bool>
    ensures value { OnOk result (value_tree value.new ≡ added (location_view parent.now) (owned_step step) (value_tree new) (value_tree value.old)) }
    ensures found { IfOk result (λ b. b ≡ takes_at (location_view parent.now) (owned_step step) (value_tree value.old)) }
    ensures unchanged { IfOk result (λ b. b ≡ false → view value.new ≡ view value.old) }
    ensures unchanged_on_error { OnErr result (view value.new ≡ view value.old) }
    ensures memory { IfErr result (λ e. e ≡ JsonPathError.OutOfMemory) }
    ensures whole { IsTrue (value_is_whole value.old) → IsTrue (value_is_whole new) → IsTrue (value_is_whole value.new) }
{
    Ok(add_below(value, parent, step, new)?)
}

/// Adds a value as [`add_at`] does.
#[cycle(add_below)]
fn add_below(value: &mut Value, parent: &[Step], step: Step, new: Value) -> Result<bool, AllocError>
    ensures { Adds (added (location_view parent.now) (owned_step step) (value_tree new)) (takes_at (location_view parent.now) (owned_step step)) new value.old value.new result }
{
    let (first, rest) = match parent.split_first() {
        Some((first, rest)) => (first, rest),
        None => return add_child(value, step, new),
    };
    match first {
        Step::Index(index) => match value.as_array_mut() {
            Some(items) => match items.get_mut(*index) {
                Some(item) => add_below(item, rest, step, new),
                None => Ok(false),
            },
            None => Ok(false),
        },
        Step::Name(name) => match value.as_object_mut() {
            Some(members) => match members.get_mut(name.as_str()) {
                Some(member) => add_below(member, rest, step, new),
                None => Ok(false),
            },
            None => Ok(false),
        },
    }
}

/// Adds a child to an object or a list.
fn add_child(value: &mut Value, step: Step, new: Value) -> Result<bool, AllocError>
    ensures { Adds (with_new (owned_step step) (value_tree new)) (takes (owned_step step)) new value.old value.new result }
{
    match step {
        Step::Index(index) => match value.as_array_mut() {
            Some(items) => add_element(items, index, new),
            None => Ok(false),
        },
        Step::Name(name) => match value.as_object_mut() {
            Some(members) => add_member(members, name, new),
            None => Ok(false),
        },
    }
}

/// Adds an element to a list, if the index is at most its length.
fn add_element(items: &mut Vec<Value>, index: usize, new: Value) -> Result<bool, AllocError>
    ensures found { IfOk result (λ b. b ≡ nat_le index (length items.old.items)) }
    ensures items { items.new.items ≡ (if unwrap_or (result_ok result) false then insert items.old.items index new else items.old.items) }
{
    if index > items.len() {
        return Ok(false);
    }
    items.insert(index, new)?;
    Ok(true)
}

/// Adds a member to an object, or replaces the member of that name.
fn add_member(
    members: &mut Map<String, Value>,
    name: String,
    new: Value,
) -> Result<bool, AllocError>
    ensures found { IfOk result (λ b. b ≡ true) }
    ensures entries { members.new.entries ≡ (if is_ok result then insert_entry string_cmp members.old.entries name new else members.old.entries) }
    ensures ordered { IsOrdered string_cmp members.new }
{
    let _ = members.insert(name, new)?;
    Ok(true)
}
