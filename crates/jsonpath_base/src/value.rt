//! Values of `serde_json` as documents.
ghost use Rattle.std.specs.Prelude.{◌≡◌, ◌&&◌};
ghost use Rattle.jsonpath_base.specs.Prelude.{has_distinct_names, has_whole_numbers, items_view, items_whole, list, members_of, members_view, members_whole, object, trees_of, value_is_whole, view};

use serde_json::{Map, Value};

/// Returns whether every number in a value is an integer of 64 bits. Such a value has one tree: each of its objects has
/// a name once, because its map keeps them sorted.
#[cycle(whole)]
#[inline(always)]
pub fn whole(value: &Value) -> bool
    ensures numbers { result ≡ has_whole_numbers (view value.now) }
    ensures whole { result ≡ value_is_whole value.now }
{
    match value {
        Value::Number(_) => value.as_i64().is_some(),
        Value::Array(items) => items_whole(items),
        Value::Object(members) => members_whole(members),
        _ => true,
    }
}

#[cycle(whole)]
fn items_whole(items: &Vec<Value>) -> bool
    ensures numbers { result ≡ items_whole (items_view items.now.items) }
    ensures whole { result ≡ (items_whole (items_view items.now.items) && has_distinct_names (list (trees_of (items_view items.now.items)))) }
{
    for item in items {
        if !whole(item) {
            return false;
        }
    }
    true
}

#[cycle(whole)]
fn members_whole(members: &Map<String, Value>) -> bool
    ensures numbers { result ≡ members_whole (members_view members.now.entries) }
    ensures whole { result ≡ (members_whole (members_view members.now.entries) && has_distinct_names (object (members_of (members_view members.now.entries)))) }
{
    for (_, member) in members.iter() {
        if !whole(member) {
            return false;
        }
    }
    true
}
