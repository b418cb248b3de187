//! When two documents are the same (RFC 9535, 2.3.5.2.2).
ghost use Rattle.std.specs.Prelude.{◌≡◌, IsTrue, All};
ghost use Rattle.jsonpath_base.specs.Prelude.{members_of, object, same, same_trees, trees_of};
ghost use Rattle.jpath.specs.Document.{items_data, json_is_whole, json_tree, members_data};

use crate::document::Json;
use serde_json::Map;

/// Whether two documents are the same: of one kind, scalars equal, lists of one length the same place by place, objects
/// with the same names the same name by name, in any order (RFC 9535, 2.3.5.2.2). Takes no memory, and time linear in
/// the smaller of the two: a map keeps its names in order, so two maps are walked side by side.
#[cycle(same)]
pub fn same(left: &Json<'_>, right: &Json<'_>) -> bool
    requires left_whole { IsTrue (json_is_whole left.now) }
    requires right_whole { IsTrue (json_is_whole right.now) }
    ensures { result ≡ same (json_tree left.now) (json_tree right.now) }
{
    match (left, right) {
        (Json::Null, Json::Null) => true,
        (Json::Bool(a), Json::Bool(b)) => a == b,
        (Json::Number(a), Json::Number(b)) => a.as_i64() == b.as_i64(),
        (Json::String(a), Json::String(b)) => a == b,
        (Json::String(a), Json::Owned(b)) => *a == b.as_str(),
        (Json::Owned(a), Json::String(b)) => a.as_str() == *b,
        (Json::Owned(a), Json::Owned(b)) => a == b,
        (Json::Array(a), Json::Array(b)) => same_items(a, b),
        (Json::Object(a), Json::Object(b)) => same_members(a, b),
        _ => false,
    }
}

#[cycle(same)]
fn same_items(items: &Vec<Json<'_>>, others: &Vec<Json<'_>>) -> bool
    requires items_whole { All (λ v. IsTrue (json_is_whole v)) items.now.items }
    requires others_whole { All (λ v. IsTrue (json_is_whole v)) others.now.items }
    ensures { result ≡ same_trees (trees_of (items_data items.now.items)) (trees_of (items_data others.now.items)) }
{
    if items.len() != others.len() {
        return false;
    }
    for (item, other) in items.iter().zip(others.iter()) {
        if !same(item, other) {
            return false;
        }
    }
    true
}

#[cycle(same)]
fn same_members(members: &Map<&str, Json<'_>>, others: &Map<&str, Json<'_>>) -> bool
    requires members_whole { All (λ e. IsTrue (json_is_whole e.1)) members.now.entries }
    requires others_whole { All (λ e. IsTrue (json_is_whole e.1)) others.now.entries }
    ensures { result ≡ same (object (members_of (members_data members.now.entries))) (object (members_of (members_data others.now.entries))) }
{
    if members.len() != others.len() {
        return false;
    }
    for ((name, member), (other_name, other)) in members.iter().zip(others.iter()) {
        if name != other_name || !same(member, other) {
            return false;
        }
    }
    true
}
