//! Deletes what a query selects.
ghost use Rattle.std.specs.Prelude.{◌≡◌, Bool, false, IfOk, IsTrue, OnErr, true};
ghost use Rattle.jsonpath_base.specs.Prelude.Documents.{document_of, IsErrAnd, value_document, value_is_whole, value_tree};
ghost use Rattle.jsonpath_rust.specs.Prelude.Selection.{runner_view};
ghost use Rattle.jsonpath_rust.specs.Calls.{ByText, Runs};
ghost use Rattle.jsonpath_rust.specs.Defaults.{IsUnsupported};
ghost use Rattle.jsonpath_rust.specs.Deleting.{Deletes, Deletion, DeletionAt};

use crate::documents::Queried;
use crate::documents::queryable::Queryable;
use crate::documents::whole::WholeRef;
use crate::selection::{Limit, Prepared, Runner};
use jsonpath_parser::MAX_NESTING_DEPTH;
use jsonpath_parser::errors::JsonPathError;
use serde_json::Value;
use std::alloc::Global;

/// A document from which the locations that a query selects can be removed.
pub trait Deletable: Queryable {
    /// Whether `delete_by_path` removes anything. If not, it returns an error.
    ghost deletes: { Bool } = { false };

    /// Removes all locations that a query text selects, and returns the number of distinct ones. By default it fails
    /// with `InvalidJsonPath`. After any error the value has the tree it had.
    fn delete_by_path(&mut self, alloc: Global, _path: &str) -> Queried<usize>
        requires { IsTrue (Self.is_whole self.old) }
        ensures unchanged_on_error { OnErr result (Self.tree self.new ≡ Self.tree self.old) }
        ensures whole { IsTrue (Self.is_whole self.new) }
        ensures deleted { IfOk result (Deletes MAX_NESTING_DEPTH _path.now (document_of Self.tree Self.custom self.old) (Self.tree self.new)) }
        ensures refused { deletes ≡ false → IsErrAnd result IsUnsupported }
    {
        Err(JsonPathError::InvalidJsonPath(String::from_str(alloc, "Deletion not supported")?))
    }
}

impl Deletable for Value {
    ghost deletes = { true };

    /// Removes all locations that a query text selects, as [`delete_within`] with a depth of 128.
    fn delete_by_path(&mut self, alloc: Global, path: &str) -> Queried<usize>
        requires { IsTrue (value_is_whole self.old) }
        ensures deleted { ByText MAX_NESTING_DEPTH path.now (value_document self.old) (Deletion (value_tree self.new))
            (DeletionAt (value_tree self.new)) result }
        ensures unchanged_on_error { OnErr result (self.new ≡ self.old) }
        ensures whole { IsTrue (value_is_whole self.new) }
    {
        delete_within(alloc, self, path, MAX_NESTING_DEPTH)
    }
}

/// Removes all locations that a query text selects in a document, at once and each by its original place, and returns
/// the number of distinct ones. Those inside other ones count too. If the root is selected, null is left.
///
/// All nodes are found, and all memory is taken, before anything is removed. A step with which many locations begin is
/// stored once. It takes the time of [`js_path_within`], and n log n in the steps of the locations; the first steps
/// that a location shares with the one before it count without their names. In a list that loses elements, each element
/// after the first of them is moved once.
///
/// # Errors
///
/// Those of [`js_path_within`]. After any of them the document is as it was.
///
/// [`js_path_within`]: crate::query::js_path_within
pub fn delete_within(alloc: Global, value: &mut Value, path: &str, depth: usize) -> Queried<usize>
    requires { IsTrue (value_is_whole value.old) }
    ensures deleted { ByText depth path.now (value_document value.old) (Deletion (value_tree value.new))
        (DeletionAt (value_tree value.new)) result }
    ensures unchanged_on_error { OnErr result (value.new ≡ value.old) }
    ensures whole { IsTrue (value_is_whole value.new) }
{
    let query = Prepared::read_within(alloc, path, depth)?;
    query.runner(alloc).delete(alloc, value)
}

impl<'p, L: Limit> Runner<'p, L> {
    /// Removes all locations that the query selects in a document, and returns the number of distinct ones.
    pub(crate) fn delete(&mut self, alloc: Global, value: &mut Value) -> Result<usize, L::Error>
        requires { IsTrue (value_is_whole value.old) }
        ensures deleted { Runs L.stops (runner_view self.old) (runner_view self.new) (value_document value.old)
            (Deletion (value_tree value.new)) result }
        ensures unchanged_on_error { OnErr result (value.new ≡ value.old) }
        ensures whole { IsTrue (value_is_whole value.new) }
    {
        let marked = self.marked(alloc, WholeRef { value }, 0)?;
        marked.remove_from(value);
        Ok(marked.count())
    }
}
