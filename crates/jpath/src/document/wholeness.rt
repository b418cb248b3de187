//! Whether a document is whole.
ghost use Rattle.std.specs.Prelude.{◌≡◌, ◌&&◌};
ghost use Rattle.jsonpath_base.specs.Prelude.{has_distinct_names, has_whole_numbers, items_whole, list, members_of, members_whole, object, trees_of};
ghost use Rattle.jpath.specs.Document.{items_data, json_data, json_is_whole, members_data};

use crate::document::Json;
use serde_json::Map;

/// Whether every number in a document is a whole number of 64 bits. A document that passes is one tree: each of its
/// objects has a name once, since its map keeps them in order.
#[cycle(whole)]
#[inline(always)]
pub fn whole(value: &Json<'_>) -> bool
    ensures numbers { result ≡ has_whole_numbers (json_data value.now) }
    ensures whole { result ≡ json_is_whole value.now }
{
    match value {
        Json::Number(number) => number.as_i64().is_some(),
        Json::Array(items) => items_whole(items),
        Json::Object(members) => members_whole(members),
        _ => true,
    }
}

#[cycle(whole)]
fn items_whole(items: &Vec<Json<'_>>) -> bool
    ensures numbers { result ≡ items_whole (items_data items.now.items) }
    ensures whole { result ≡ (items_whole (items_data items.now.items) && has_distinct_names (list (trees_of (items_data items.now.items)))) }
{
    for item in items {
        if !whole(item) {
            return false;
        }
    }
    true
}

#[cycle(whole)]
fn members_whole(members: &Map<&str, Json<'_>>) -> bool
    ensures numbers { result ≡ members_whole (members_data members.now.entries) }
    ensures whole { result ≡ (members_whole (members_data members.now.entries) && has_distinct_names (object (members_of (members_data members.now.entries)))) }
{
    for (_, member) in members.iter() {
        if !whole(member) {
            return false;
        }
    }
    true
}
