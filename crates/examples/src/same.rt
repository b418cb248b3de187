//! Whether two queries are one query.
ghost use Rattle.std.specs.Prelude.{◌≡◌, ◌↔◌, IsTrue};
ghost use Rattle.jsonpath_rust.specs.View.{query_view};

use jsonpath_rust::parser::model::JpQuery;
use jsonpath_rust::query::laws::equal_parts_are_one_tree;

/// Whether two queries are the same tree, however each was spelled. The cost is linear in the shorter one.
pub fn is_same_query(left: &JpQuery, right: &JpQuery) -> bool
    ensures { IsTrue result ↔ (query_view left.now ≡ query_view right.now) }
{
    // The law of `==`, which the proof cites.
    equal_parts_are_one_tree();
    *left == *right
}
