//! An inbox: in which documents a query selects something.
ghost use Rattle.std.specs.Prelude.{IfOk};
ghost use Rattle.std.specs.List.{AllZip};
ghost use Rattle.jsonpath_rust.specs.Document.{document_of};
ghost use Rattle.jsonpath_rust.specs.Prepared.{prepared_view};
ghost use Rattle.jsonpath_rust.specs.Only.{TellsWhether};

use jsonpath_rust::query::{Prepared, Queried};
use jsonpath_rust::{Queryable, Whole};
use std::alloc::Global;

/// For each document, in order, whether the query selects something in it.
///
/// # Errors
///
/// Those of `has_node`, for the first document for which it refuses.
///
/// The cost is that of `has_node` for each document. What searches for the patterns of the query is made once.
pub fn matching<T: Queryable>(
    alloc: Global,
    query: &Prepared,
    documents: &[Whole<T>],
) -> Queried<Vec<bool>>
    ensures { IfOk result (λ v. AllZip (λ w found_so_far. TellsWhether (document_of T.tree T.custom w.value) (prepared_view query.now) found_so_far) documents.now v.items) }
{
    let mut runner = query.runner(alloc);
    let mut found_so_far = Vec::new(alloc);
    for document in documents {
        let found = runner.has_node(alloc, document.as_ref())?;
        found_so_far.push(found)?;
    }
    Ok(found_so_far)
}
