//! The nodes that [`Query::process`] returns from the root, in the form that a caller of `js_path_process` needs.
ghost use Rattle.std.specs.Prelude.{◌≡◌, All, IfErr, IfOk, IsTrue, map};
ghost use Rattle.jsonpath_base.specs.Prelude.Documents.{document_of, query_view, segments_patterns, shown};
ghost use Rattle.jsonpath_rust.specs.Prelude.States.{IsProcessStop, PointersAreWhole, processed, root_content, segments_content, targets, targets_of};

use crate::documents::queryable::Queryable;
use crate::documents::{Queried, QueryRef};
use crate::states::process::Query;
use crate::states::state::{Data, Pointer, State};
use jsonpath_parser::model::JpQuery;
use std::alloc::Global;

/// Returns the nodes, with their values and the texts of their paths. It fails as [`Query::process`] does.
pub fn processed_nodes<'a, T: Queryable>(
    alloc: Global,
    query: &JpQuery,
    root: &'a T,
) -> Queried<Vec<QueryRef<'a, T>>>
    requires { IsTrue (T.is_whole root.now) }
    ensures nodes { IfOk result (λ v. shown T.tree v.items ≡ processed (query_view query.now) (document_of T.tree T.custom root.now)) }
    ensures whole { IfOk result (λ v. All (λ r. IsTrue (T.is_whole r.val.now)) v.items) }
    ensures refused { IfErr result (IsProcessStop (segments_patterns (query_view query.now))
        (document_of T.tree T.custom root.now) (root_content
        (document_of T.tree T.custom root.now))) }
{
    let pointers = pointers_from_root(alloc, query, root)?;
    let mut nodes = Vec::new(alloc);
    for pointer in pointers {
        nodes.push(QueryRef::from(pointer))?;
    }
    Ok(nodes)
}

/// Returns the values of the nodes. It fails as [`Query::process`] does.
pub fn processed_values<'a, T: Queryable>(
    alloc: Global,
    query: &JpQuery,
    root: &'a T,
) -> Queried<Vec<&'a T>>
    requires { IsTrue (T.is_whole root.now) }
    ensures values { IfOk result (λ v. map (λ x. T.tree x.now) v.items
        ≡ map (λ n. n.1) (processed (query_view query.now)
        (document_of T.tree T.custom root.now))) }
    ensures whole { IfOk result (λ v. All (λ x. IsTrue (T.is_whole x.now)) v.items) }
    ensures refused { IfErr result (IsProcessStop (segments_patterns (query_view query.now))
        (document_of T.tree T.custom root.now) (root_content
        (document_of T.tree T.custom root.now))) }
{
    let pointers = pointers_from_root(alloc, query, root)?;
    let mut values = Vec::new(alloc);
    for pointer in &pointers {
        values.push(pointer.inner)?;
    }
    Ok(values)
}

/// Returns the nodes, as they are in the state that is returned.
fn pointers_from_root<'a, T: Queryable>(
    alloc: Global,
    query: &JpQuery,
    root: &'a T,
) -> Queried<Vec<Pointer<'a, T>>>
    requires { IsTrue (T.is_whole root.now) }
    ensures targets { IfOk result (λ v. targets_of T.tree v.items
        ≡ targets (segments_content (query_view query.now) (document_of T.tree T.custom root.now)
        (root_content (document_of T.tree T.custom root.now)))) }
    ensures whole { IfOk result (λ v. PointersAreWhole T.is_whole v.items) }
    ensures refused { IfErr result (IsProcessStop (segments_patterns (query_view query.now))
        (document_of T.tree T.custom root.now) (root_content
        (document_of T.tree T.custom root.now))) }
{
    let state = query.process(alloc, State::root(alloc, root)?)?;
    match state.content {
        Data::Ref(pointer) => {
            let mut all = Vec::new(alloc);
            all.push(pointer)?;
            Ok(all)
        }
        Data::Refs(all) => Ok(all),
        Data::Value(_value) => Ok(Vec::new(alloc)),
        Data::Nothing => Ok(Vec::new(alloc)),
    }
}
