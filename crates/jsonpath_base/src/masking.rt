//! Replaces values at marked locations: all copies are made first, and then moved in.
ghost use Rattle.std.specs.Prelude.{◌≡◌, ◌<◌, ◌≤◌, ◌+◌, IfOk, IsTrue, string_cmp};
ghost use Rattle.jsonpath_base.specs.Prelude.{AreAll, Data, data_overwritten, in_order, items_overwritten, items_view, level_in_order, marked, marked_below, members_overwritten, members_view, nat_cmp, outermost_count, outermost_total, to_member, view};
ghost use Rattle.std.specs.Vec.{vec_len};
ghost use Rattle.jsonpath_parser.specs.Location as location;
ghost use Rattle.jsonpath_base.specs.inner.Masking.{IsFilledAt, IsFilledBy};

use crate::location_trie::LocationTrie;
use crate::ordering::sum;
use serde_json::{Map, Value};
use std::alloc::{AllocError, Global};

/// Returns copies of a value, one for each outermost marked location.
pub fn copies_for(
    alloc: Global,
    marks: &LocationTrie,
    value: &Value,
) -> Result<Vec<Value>, AllocError>
    ensures alike { IfOk result (λ v. AreAll (view value.now) v.items) }
    ensures enough { IfOk result (λ v. vec_len v ≡ outermost_count marks.now) }
{
    let count = outermost(marks)?;
    let mut copies = Vec::with_capacity(alloc, count)?;
    for _ in 0..count {
        let copy = value.clone()?;
        copies.push(copy)?;
    }
    Ok(copies)
}

/// Returns the number of marked locations that are inside no other.
#[cycle(outermost)]
fn outermost(marks: &LocationTrie) -> Result<usize, AllocError>
    ensures { IfOk result (λ n. n ≡ outermost_count marks.now) }
{
    if marks.is_marked {
        return Ok(1);
    }
    let names = outermost_members(&marks.names)?;
    let indexes = outermost_elements(&marks.indexes)?;
    sum(names, indexes)
}

/// Returns the number of outermost locations below these members.
#[cycle(outermost)]
fn outermost_members(below: &[(String, LocationTrie)]) -> Result<usize, AllocError>
    ensures { IfOk result (λ n. n ≡ outermost_total below.now) }
{
    let mut count = 0;
    for (_, marks) in below {
        let held = outermost(marks)?;
        count = sum(count, held)?;
    }
    Ok(count)
}

/// Returns the number of outermost locations below these elements.
#[cycle(outermost)]
fn outermost_elements(below: &[(usize, LocationTrie)]) -> Result<usize, AllocError>
    ensures { IfOk result (λ n. n ≡ outermost_total below.now) }
{
    let mut count = 0;
    for (_, marks) in below {
        let held = outermost(marks)?;
        count = sum(count, held)?;
    }
    Ok(count)
}

/// Replaces each value that is marked, and inside no other marked one, by one of the copies. It takes no memory.
#[cycle(fill)]
pub fn fill(value: &mut Value, marks: &LocationTrie, copies: &mut Vec<Value>)
    requires ordered { IsTrue (in_order marks.now) }
    requires enough { outermost_count marks.now ≤ vec_len copies.old }
    ensures filled { (u : Data) → AreAll u copies.old.items → view value.new ≡ data_overwritten (marked marks.now) u (view value.old) }
    ensures alike { (u : Data) → AreAll u copies.old.items → AreAll u copies.new.items }
    ensures fewer { vec_len copies.old ≤ vec_len copies.new + outermost_count marks.now }
{
    if marks.is_marked {
        put_copy(value, copies);
        return;
    }
    if let Some(items) = value.as_array_mut() {
        fill_items(items, &marks.indexes, copies);
    } else if let Some(members) = value.as_object_mut() {
        fill_members(members, &marks.names, copies);
    }
}

/// Replaces what is marked in a list.
#[cycle(fill)]
fn fill_items(items: &mut Vec<Value>, marks: &[(usize, LocationTrie)], copies: &mut Vec<Value>)
    requires ordered { IsTrue (level_in_order nat_cmp marks.now) }
    requires enough { outermost_total marks.now ≤ vec_len copies.old }
    ensures filled { (u : Data) → AreAll u copies.old.items → items_view items.new.items ≡ items_overwritten (marked_below location.index marks.now) u 0 (items_view items.old.items) }
    ensures alike { (u : Data) → AreAll u copies.old.items → AreAll u copies.new.items }
    ensures fewer { vec_len copies.old ≤ vec_len copies.new + outermost_total marks.now }
{
    for (index, below) in marks {
        fill_item(items, *index, below, copies);
    }
}

/// Replaces what is marked at an element, if the list is long enough.
#[cycle(fill)]
fn fill_item(items: &mut Vec<Value>, index: usize, marks: &LocationTrie, copies: &mut Vec<Value>)
    requires ordered { IsTrue (in_order marks.now) }
    requires enough { outermost_count marks.now ≤ vec_len copies.old }
    ensures filled { (u : Data) → AreAll u copies.old.items → IsFilledAt index marks.now u (items_view items.old.items) (items_view items.new.items) }
    ensures alike { (u : Data) → AreAll u copies.old.items → AreAll u copies.new.items }
    ensures fewer { vec_len copies.old ≤ vec_len copies.new + outermost_count marks.now }
{
    if let Some(item) = items.get_mut(index) {
        fill(item, marks, copies);
    }
}

/// Replaces what is marked in an object.
#[cycle(fill)]
fn fill_members(
    members: &mut Map<String, Value>,
    marks: &[(String, LocationTrie)],
    copies: &mut Vec<Value>,
)
    requires ordered { IsTrue (level_in_order string_cmp marks.now) }
    requires enough { outermost_total marks.now ≤ vec_len copies.old }
    ensures filled { (u : Data) → AreAll u copies.old.items → members_view members.new.entries ≡ members_overwritten (marked_below to_member marks.now) u (members_view members.old.entries) }
    ensures alike { (u : Data) → AreAll u copies.old.items → AreAll u copies.new.items }
    ensures fewer { vec_len copies.old ≤ vec_len copies.new + outermost_total marks.now }
{
    for (name, below) in marks {
        fill_member(members, name, below, copies);
    }
}

/// Replaces what is marked at a member, if there is one of that name.
#[cycle(fill)]
fn fill_member(
    members: &mut Map<String, Value>,
    name: &String,
    marks: &LocationTrie,
    copies: &mut Vec<Value>,
)
    requires ordered { IsTrue (in_order marks.now) }
    requires enough { outermost_count marks.now ≤ vec_len copies.old }
    ensures filled { (u : Data) → AreAll u copies.old.items → IsFilledBy name.now marks.now u (members_view members.old.entries) (members_view members.new.entries) }
    ensures alike { (u : Data) → AreAll u copies.old.items → AreAll u copies.new.items }
    ensures fewer { vec_len copies.old ≤ vec_len copies.new + outermost_count marks.now }
{
    if let Some(member) = members.get_mut(name.as_str()) {
        fill(member, marks, copies);
    }
}

/// Replaces the value by the last of the copies.
fn put_copy(value: &mut Value, copies: &mut Vec<Value>)
    requires { 0 < vec_len copies.old }
    ensures put { (u : Data) → AreAll u copies.old.items → view value.new ≡ u }
    ensures alike { (u : Data) → AreAll u copies.old.items → AreAll u copies.new.items }
    ensures fewer { vec_len copies.old ≡ vec_len copies.new + 1 }
{
    if let Some(copy) = copies.pop() {
        *value = copy;
    }
}
