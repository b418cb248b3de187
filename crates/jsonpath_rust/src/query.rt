//! Queries on a document.
ghost use Rattle.std.specs.Prelude.{◌≡◌, All, IfErr, IfOk, IsFalse, IsTrue, map};
ghost use Rattle.jsonpath_base.specs.Prelude.Documents.{AreNodes, ArePaths, AreValues, document_of, IsNodeThere, IsPathThere, IsStop, IsValueThere, query_view, segments_patterns, shown};
ghost use Rattle.jsonpath_rust.specs.Prelude.Calls.{ByText};
ghost use Rattle.jsonpath_rust.specs.Prelude.States.{IsProcessStop, processed, root_content};
ghost use Rattle.jsonpath_parser.specs.tree.Typing as typing;

mod deletion;
pub mod laws;
mod location;
mod masking;
pub mod queryable;

use crate::documents::queryable::Queryable;
use crate::documents::whole::WholeRef;
pub use crate::documents::{
    Queried, QueryPath, QueryRef, not_a_reference, referred_location, replace_by_path,
};
pub use crate::query::deletion::delete_within;
pub use crate::query::location::{location_by_path, location_of};
pub use crate::query::masking::{replace_all_by_path, replace_within};
pub use crate::selection::{
    Condition, ConditionRunner, Limit, LimitError, Only, Prepared, PreparedRef, Runner, Units,
    Unlimited,
};
pub use crate::states::{Query, apply, selector, state};
use crate::states::{processed_nodes, processed_values};
pub use jsonpath_base::{
    Step, add_at, at, at_mut, constant_prefix, location_by_pointer, path_of, pointer_of, put_at,
    remove_all, replace_all, starts_with, step_by_token, take_at,
};
use jsonpath_parser::model::JpQuery;
use jsonpath_parser::{MAX_NESTING_DEPTH, is_typed};
use std::alloc::Global;

/// Returns the nodes that a query text selects in a document, in order (RFC 9535, 2.1.2): their values and their
/// Normalized Paths.
///
/// # Errors
///
/// - Those of `parse_json_path`, where the text is no query.
/// - `InvalidJsonPath` where `regex` refuses a pattern for its size: one in the query, in a call of `match` or
///   `search`, whose value at some node of the document is a text that `regex` reads.
/// - `OutOfMemory` where memory ran out.
pub fn js_path<'a, T: Queryable>(
    alloc: Global,
    path: &str,
    value: &'a T,
) -> Queried<Vec<QueryRef<'a, T>>>
    requires { IsTrue (T.is_whole value.now) }
    ensures { ByText MAX_NESTING_DEPTH path.now (document_of T.tree T.custom value.now) (AreNodes T.Queryable.own) (IsNodeThere T.Queryable.own) result }
{
    js_path_within(alloc, path, MAX_NESTING_DEPTH, value)
}

/// Returns the nodes that a query text selects in a document. [`js_path`] is this with a depth of 128.
///
/// # Errors
///
/// Those of [`js_path`], but `MaxNestingDepthExceeded(depth)` where more than `depth` brackets are open at a time.
pub fn js_path_within<'a, T: Queryable>(
    alloc: Global,
    path: &str,
    depth: usize,
    value: &'a T,
) -> Queried<Vec<QueryRef<'a, T>>>
    requires { IsTrue (T.is_whole value.now) }
    ensures { ByText depth path.now (document_of T.tree T.custom value.now) (AreNodes T.Queryable.own) (IsNodeThere T.Queryable.own) result }
{
    let query = Prepared::read_within(alloc, path, depth)?;
    query.runner(alloc).nodes(alloc, WholeRef { value })
}

/// Returns the values of the nodes that a query text selects in a document, in order. It makes no paths.
///
/// # Errors
///
/// Those of [`js_path`].
pub fn js_path_vals<'a, T: Queryable>(
    alloc: Global,
    path: &str,
    value: &'a T,
) -> Queried<Vec<&'a T>>
    requires { IsTrue (T.is_whole value.now) }
    ensures { ByText MAX_NESTING_DEPTH path.now (document_of T.tree T.custom value.now) (AreValues T.Queryable.own) (IsValueThere T.Queryable.own) result }
{
    let query = Prepared::read(alloc, path)?;
    query.runner(alloc).values(alloc, WholeRef { value })
}

/// Returns the Normalized Paths of the nodes that a query text selects in a document, in order.
///
/// # Errors
///
/// Those of [`js_path`].
pub fn js_path_path<T: Queryable>(alloc: Global, path: &str, value: &T) -> Queried<Vec<QueryPath>>
    requires { IsTrue (T.is_whole value.now) }
    ensures { ByText MAX_NESTING_DEPTH path.now (document_of T.tree T.custom value.now) ArePaths IsPathThere result }
{
    let query = Prepared::read(alloc, path)?;
    query.runner(alloc).paths(alloc, WholeRef { value })
}

/// Returns the nodes that a query selects in a document, in order (RFC 9535, 2.1.2): their values and their Normalized
/// Paths.
///
/// That is proved for each tree that [`is_typed`], with any index and any slice; every tree that was read from a text
/// is one. A tree made by hand may be ill-typed (RFC 9535, 2.4.3), such as one with `length(@.*)`, where `length` gets
/// nodes in place of a value. By the RFC such a tree is no query and selects nothing. Here it is evaluated all the
/// same, and for [`Query::process`] that `length` is the number of the nodes. For every tree the nodes are those of
/// [`Query::process`] from [`State::root`](state::State::root), which for a typed tree are those that it selects
/// ([`laws::process_gives_the_nodelist`]).
///
/// # Errors
///
/// - `InvalidJsonPath` where `regex` refuses a pattern for its size: one in the query, in a call of `match` or
///   `search`, whose value at some node of the document is a text that `regex` reads. For a tree that is not typed, as
///   in [`Query::process`].
/// - `OutOfMemory` where memory ran out.
pub fn js_path_process<'a, T: Queryable>(
    alloc: Global,
    path: &JpQuery,
    value: &'a T,
) -> Queried<Vec<QueryRef<'a, T>>>
    requires { IsTrue (T.is_whole value.now) }
    ensures nodes { IsTrue (typing.is_typed (query_view path.now)) →
        IfOk result (AreNodes T.Queryable.own (document_of T.tree T.custom value.now) (query_view path.now)) }
    ensures processed { IfOk result (λ v. shown T.tree v.items ≡ processed (query_view path.now) (document_of T.tree T.custom value.now)) }
    ensures whole { IfOk result (λ v. All (λ r. IsTrue (T.is_whole r.val.now)) v.items) }
    ensures refused { IsTrue (typing.is_typed (query_view path.now)) →
        IfErr result (IsStop (query_view path.now) (document_of T.tree T.custom value.now)) }
    ensures processing_refused { IsFalse (typing.is_typed (query_view path.now)) →
        IfErr result (IsProcessStop (segments_patterns (query_view path.now))
        (document_of T.tree T.custom value.now)
        (root_content (document_of T.tree T.custom value.now))) }
{
    if is_typed(path) {
        let prepared = Prepared::of(alloc, path)?;
        prepared.runner(alloc).nodes(alloc, WholeRef { value })
    } else {
        processed_nodes(alloc, path, value)
    }
}

/// Returns the values of the nodes that [`js_path_process`] returns, in order. For a tree that [`is_typed`] it makes no
/// paths.
///
/// # Errors
///
/// Those of [`js_path_process`].
pub fn js_path_process_vals<'a, T: Queryable>(
    alloc: Global,
    query: &JpQuery,
    value: &'a T,
) -> Queried<Vec<&'a T>>
    requires { IsTrue (T.is_whole value.now) }
    ensures values { IsTrue (typing.is_typed (query_view query.now)) →
        IfOk result (AreValues T.Queryable.own (document_of T.tree T.custom value.now) (query_view query.now)) }
    ensures processed { IfOk result (λ v. map (λ x. T.tree x.now) v.items
        ≡ map (λ n. n.1) (processed (query_view query.now) (document_of T.tree T.custom value.now))) }
    ensures whole { IfOk result (λ v. All (λ x. IsTrue (T.is_whole x.now)) v.items) }
    ensures refused { IsTrue (typing.is_typed (query_view query.now)) →
        IfErr result (IsStop (query_view query.now) (document_of T.tree T.custom value.now)) }
    ensures processing_refused { IsFalse (typing.is_typed (query_view query.now)) →
        IfErr result (IsProcessStop (segments_patterns (query_view query.now))
        (document_of T.tree T.custom value.now)
        (root_content (document_of T.tree T.custom value.now))) }
{
    if is_typed(query) {
        let prepared = Prepared::of(alloc, query)?;
        prepared.runner(alloc).values(alloc, WholeRef { value })
    } else {
        processed_values(alloc, query, value)
    }
}
