//! What was found is asked again: a node by its printed path, and a part of a document as a document of its own.
ghost use Rattle.std.specs.Prelude.{IfOk, map, option_map};
ghost use Rattle.jsonpath_rust.specs.Document.{value_document};
ghost use Rattle.jsonpath_rust.specs.Places as places;
ghost use Rattle.jsonpath_rust.specs.View.{query_view};
ghost use Rattle.jsonpath_rust.specs.base.Steps.{location_view};
ghost use Rattle.jsonpath_rust.specs.base.Values.{value_tree};
ghost use Rattle.examples.specs.Again.{AreValuesIn, IsAtFirst};

use crate::first::first_path;
use jsonpath_rust::parser::model::JpQuery;
use jsonpath_rust::query::{Queried, Step, at};
use jsonpath_rust::{Prepared, Queryable, Whole, WholeRef};
use serde_json::Value;
use std::alloc::Global;

/// The value of the first node that a query selects, found by that node's printed path; None where the query selects none.
///
/// # Errors
///
/// Those of [`first_path`], and `OutOfMemory`.
///
/// The cost is that of [`first_path`], and of the way down to the node.
pub fn first_again<'a>(
    alloc: Global,
    query: &JpQuery,
    document: &'a Whole<Value>,
) -> Queried<Option<&'a Value>>
    ensures again { IfOk result (λ o. IsAtFirst (value_document document.now.value) (query_view query.now) (option_map (λ v. value_tree v.now) o)) }
{
    match first_path(alloc, query, document.as_ref())? {
        Some(path) => document.reference(alloc, path.as_str()),
        None => Ok(None),
    }
}

/// The values that a query selects in the part of a document at these steps, which is asked as a document of its own, with no
/// test of its numbers; no values where nothing is there.
///
/// # Errors
///
/// Those of a runner.
///
/// The cost is that of the way down, and of the query of the part.
pub fn values_below<'a>(
    alloc: Global,
    query: &JpQuery,
    document: &'a Whole<Value>,
    steps: &[Step],
) -> Queried<Vec<&'a Value>>
    ensures values { IfOk result (λ v. AreValuesIn (query_view query.now) (places.at (location_view steps.now) (value_tree document.now.value)) (map (λ x. value_tree x.now) v.items)) }
{
    match at(document.get(), steps) {
        Some(part) => {
            let prepared = Prepared::of(alloc, query)?;
            prepared.runner(alloc).values(alloc, WholeRef::of(part))
        }
        None => Ok(Vec::new(alloc)),
    }
}
