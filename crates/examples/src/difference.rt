//! Whether two queries answer the same values, for a test that says what differs.
ghost use Rattle.std.specs.Prelude.{◌≡◌, ◌⊎◌, None, All, IsTrue, IfOk, IfErr, IfSome, IfNone, map};
ghost use Rattle.jsonpath_rust.specs.View.{query_view};
ghost use Rattle.jsonpath_rust.specs.Document.{document_of};
ghost use Rattle.jsonpath_rust.specs.Patterns.{IsStop};
ghost use Rattle.examples.specs.Difference.{values_of, AreSame, IsFirstDifference};

use jsonpath_rust::parser::model::JpQuery;
use jsonpath_rust::query::Queried;
use jsonpath_rust::{Prepared, Queryable, WholeRef};
use std::alloc::Global;

/// Which of two lists of values ends before an index.
#[derive(Debug, Clone, Copy)]
pub enum Missing {
    /// Both have a value there, and these are not the same.
    Neither,
    First,
    Second,
}

/// Where two lists of values differ first.
#[derive(Debug, Clone, Copy)]
pub struct Difference {
    /// The place in both lists, from 0.
    pub index: usize,
    pub missing: Missing,
}

/// The first place at which the values that a query selects in a document differ from those that another query selects in
/// another document; None exactly where both select as many values, and these are the same place by place.
///
/// # Errors
///
/// Those of a runner, for either query.
///
/// The cost is that of both queries, and of comparing the values, which takes no memory.
pub fn difference_of<T: Queryable>(
    alloc: Global,
    query: &JpQuery,
    document: WholeRef<'_, T>,
    other_query: &JpQuery,
    other: WholeRef<'_, T>,
) -> Queried<Option<Difference>>
    ensures same { IfOk result (λ o. IfNone o (AreSame (values_of query.now (document_of T.tree T.custom document.entry.value.now)) (values_of other_query.now (document_of T.tree T.custom other.entry.value.now)))) }
    ensures different { IfOk result (λ o. IfSome o (λ d. IsFirstDifference d (values_of query.now (document_of T.tree T.custom document.entry.value.now)) (values_of other_query.now (document_of T.tree T.custom other.entry.value.now)))) }
    ensures complete { AreSame (values_of query.now (document_of T.tree T.custom document.entry.value.now)) (values_of other_query.now (document_of T.tree T.custom other.entry.value.now)) → IfOk result (λ o. o ≡ None) }
    ensures refused { IfErr result (λ e. IsStop (query_view query.now) (document_of T.tree T.custom document.entry.value.now) e ⊎ IsStop (query_view other_query.now) (document_of T.tree T.custom other.entry.value.now) e) }
{
    let prepared = Prepared::of(alloc, query)?;
    let values = prepared.runner(alloc).values(alloc, document)?;
    let other_prepared = Prepared::of(alloc, other_query)?;
    let others = other_prepared.runner(alloc).values(alloc, other)?;
    Ok(first_difference(&values, &others))
}

/// The first place at which two lists of values differ; None where they are the same place by place.
fn first_difference<T: Queryable>(values: &[&T], others: &[&T]) -> Option<Difference>
    requires values_whole { All (λ v. IsTrue (T.is_whole v.now)) values.now }
    requires others_whole { All (λ v. IsTrue (T.is_whole v.now)) others.now }
    ensures same { IfNone result (AreSame (map (λ v. T.tree v.now) values.now) (map (λ v. T.tree v.now) others.now)) }
    ensures different { IfSome result (λ d. IsFirstDifference d (map (λ v. T.tree v.now) values.now) (map (λ v. T.tree v.now) others.now)) }
{
    for (index, value) in values.iter().enumerate() {
        match others.get(index) {
            Some(other) => {
                if !value.equal(*other) {
                    let missing = Missing::Neither;
                    return Some(Difference { index, missing });
                }
            }
            None => {
                let missing = Missing::Second;
                return Some(Difference { index, missing });
            }
        }
    }
    if values.len() < others.len() {
        let index = values.len();
        let missing = Missing::First;
        return Some(Difference { index, missing });
    }
    None
}
