//! When two documents are the same (RFC 9535, 2.3.5.2.2), and the custom function that asks that of its arguments.
ghost use Rattle.std.specs.Prelude.{◌≡◌, All, IsTrue, map, reverse};
ghost use Rattle.std.specs.List.{list_all};
ghost use Rattle.jsonpath_base.specs.Tree.{object, has_distinct_names, trees_distinct};
ghost use Rattle.jsonpath_base.specs.Same.{same, same_trees, same_members, has_name};
ghost use Rattle.jsonpath_rust.specs.documents.Args.{arg_value};
ghost use Rattle.cases.specs.DocTree.{all_same, doc_is_whole, doc_tree, members, pairs_of, trees};

use crate::doc::{self, Doc};
use jsonpath_rust::query::queryable::Arg;
use std::collections::BTreeMap;

/// Whether two documents are the same: of one kind, with equal scalars, lists place by place, objects name by name in
/// any order.
#[cycle(same)]
pub fn same(left: &Doc, right: &Doc) -> bool
    requires { IsTrue (has_distinct_names (doc_tree right.now)) }
    ensures { result ≡ same (doc_tree left.now) (doc_tree right.now) }
{
    match left {
        Doc::Null => doc::is_null(right),
        Doc::Bool(truth) => doc::truth(right) == Some(*truth),
        Doc::Num(number) => doc::number(right) == Some(*number),
        Doc::Text(text) => doc::text(right) == Some(text.as_str()),
        Doc::List(items) => match doc::list(right) {
            Some(others) => same_items(items, others),
            None => false,
        },
        Doc::Members(entries) => match doc::object(right) {
            Some(others) => same_members(entries, others) && has_names(entries, others),
            None => false,
        },
    }
}

#[cycle(same)]
fn same_items(left: &Vec<Doc>, right: &Vec<Doc>) -> bool
    requires { IsTrue (trees_distinct (trees (map doc_tree right.now.items))) }
    ensures { result ≡ same_trees (trees (map doc_tree left.now.items)) (trees (map doc_tree right.now.items)) }
{
    if left.len() != right.len() {
        return false;
    }
    for (i, item) in left.iter().enumerate() {
        if !same(item, &right[i]) {
            return false;
        }
    }
    true
}

/// Whether for each member on the left there is one of its name on the right, with the same value.
#[cycle(same)]
fn same_members(left: &BTreeMap<String, Doc>, right: &BTreeMap<String, Doc>) -> bool
    requires { IsTrue (has_distinct_names (object (members (reverse (pairs_of right.now.entries))))) }
    ensures { result ≡ same_members (members (reverse (pairs_of left.now.entries))) (reverse (pairs_of right.now.entries)) }
{
    for (name, member) in left.iter().rev() {
        let Some(other) = right.get(name.as_str()) else {
            return false;
        };
        if !same(member, other) {
            return false;
        }
    }
    true
}

/// Whether each name on the right stands on the left.
fn has_names(left: &BTreeMap<String, Doc>, right: &BTreeMap<String, Doc>) -> bool
    ensures { result ≡ list_all (λ n. has_name (reverse (pairs_of left.now.entries)) n.0) (reverse (pairs_of right.now.entries)) }
{
    for (name, _) in right.iter().rev() {
        if !left.contains_key(name.as_str()) {
            return false;
        }
    }
    true
}

/// Whether each argument is the same as the first.
pub fn all_same(args: &[Arg<'_, Doc>]) -> bool
    requires { All (λ a. IsTrue (doc_is_whole (arg_value a))) args.now }
    ensures { result ≡ all_same (map (λ a. doc_tree (arg_value a)) args.now) }
{
    match args.first() {
        Some(first) => are_same_as(first.get(), args),
        None => true,
    }
}

fn are_same_as(first: &Doc, args: &[Arg<'_, Doc>]) -> bool
    requires { All (λ a. IsTrue (doc_is_whole (arg_value a))) args.now }
    ensures { result ≡ list_all (same (doc_tree first.now)) (map (λ a. doc_tree (arg_value a)) args.now) }
{
    for arg in args {
        if !same(first, arg.get()) {
            return false;
        }
    }
    true
}
