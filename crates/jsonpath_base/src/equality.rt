//! The equality of values of `serde_json` (RFC 9535, 2.3.5.2.2).
ghost use Rattle.std.specs.Prelude.{◌≡◌, IsTrue, All};
ghost use Rattle.jsonpath_base.specs.Prelude.{items_view, members_of, members_view, object, same, same_trees, trees_of, value_is_whole, value_tree};

use serde_json::{Map, Value};

/// Returns whether two values are the same: equal scalars of one kind, lists of one length with the same elements in
/// order, or objects with the same names and the same value for each, in any order (RFC 9535, 2.3.5.2.2). It takes no
/// memory, and time linear in the smaller of the two values: a map keeps its names sorted, so two maps are walked side
/// by side.
#[cycle(same)]
pub fn same(left: &Value, right: &Value) -> bool
    requires left_whole { IsTrue (value_is_whole left.now) }
    requires right_whole { IsTrue (value_is_whole right.now) }
    ensures { result ≡ same (value_tree left.now) (value_tree right.now) }
{
    match (left, right) {
        (Value::Null, Value::Null) => true,
        (Value::Bool(a), Value::Bool(b)) => a == b,
        (Value::Number(_), Value::Number(_)) => left.as_i64() == right.as_i64(),
        (Value::String(a), Value::String(b)) => a == b,
        (Value::Array(a), Value::Array(b)) => same_items(a, b),
        (Value::Object(a), Value::Object(b)) => same_members(a, b),
        _ => false,
    }
}

#[cycle(same)]
fn same_items(items: &Vec<Value>, others: &Vec<Value>) -> bool
    requires items_whole { All (λ v. IsTrue (value_is_whole v)) items.now.items }
    requires others_whole { All (λ v. IsTrue (value_is_whole v)) others.now.items }
    ensures { result ≡ same_trees (trees_of (items_view items.now.items)) (trees_of (items_view others.now.items)) }
{
    if items.len() != others.len() {
        return false;
    }
    for (item, other) in items.iter().zip(others.iter()) {
        if !same(item, other) {
            return false;
        }
    }
    true
}

#[cycle(same)]
fn same_members(members: &Map<String, Value>, others: &Map<String, Value>) -> bool
    requires members_whole { All (λ e. IsTrue (value_is_whole e.1)) members.now.entries }
    requires others_whole { All (λ e. IsTrue (value_is_whole e.1)) others.now.entries }
    ensures { result ≡ same (object (members_of (members_view members.now.entries))) (object (members_of (members_view others.now.entries))) }
{
    if members.len() != others.len() {
        return false;
    }
    for ((name, member), (other_name, other)) in members.iter().zip(others.iter()) {
        if name != other_name || !same(member, other) {
            return false;
        }
    }
    true
}
