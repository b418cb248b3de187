//! The first node that a query selects.
ghost use Rattle.std.specs.Prelude.{IfOk, IfErr, IfSome, IfNone, string_bytes};
ghost use Rattle.jsonpath_rust.specs.View.{query_view};
ghost use Rattle.jsonpath_rust.specs.Document.{document_of};
ghost use Rattle.jsonpath_rust.specs.Patterns.{IsStop};
ghost use Rattle.examples.specs.First.{IsSilent, IsFirstPath};

use jsonpath_rust::parser::model::JpQuery;
use jsonpath_rust::query::{Queried, QueryPath};
use jsonpath_rust::{Prepared, Queryable, WholeRef};
use std::alloc::Global;

/// The Normalized Path of the first node that a query selects in a document, or None where it selects none.
///
/// It refuses as a runner does. The document is walked no further than to that node.
pub fn first_path<T: Queryable>(
    alloc: Global,
    query: &JpQuery,
    document: WholeRef<'_, T>,
) -> Queried<Option<QueryPath>>
    ensures found { IfOk result (λ o. IfSome o (λ path. IsFirstPath (document_of T.tree T.custom document.entry.value.now) (string_bytes path) (query_view query.now))) }
    ensures silent { IfOk result (λ o. IfNone o (IsSilent (document_of T.tree T.custom document.entry.value.now) (query_view query.now))) }
    ensures refused { IfErr result (IsStop (query_view query.now) (document_of T.tree T.custom document.entry.value.now)) }
{
    let prepared = Prepared::of(alloc, query)?;
    match prepared.runner(alloc).first(alloc, document)? {
        Some(node) => Ok(Some(node.path)),
        None => Ok(None),
    }
}
