//! Masks what a query selects: replaces it by one value.
ghost use Rattle.std.specs.Prelude.{◌≡◌, IsTrue, OnErr};
ghost use Rattle.jsonpath_base.specs.Prelude.Documents.{value_document, value_is_whole, value_tree};
ghost use Rattle.jsonpath_rust.specs.Prelude.Selection.{runner_view};
ghost use Rattle.jsonpath_rust.specs.Prelude.Calls.{ByText, Replacement, ReplacementAt, Runs};

use crate::documents::Queried;
use crate::documents::walk_error::WalkError;
use crate::documents::whole::WholeRef;
use crate::selection::{Limit, Prepared, Runner};
use jsonpath_parser::MAX_NESTING_DEPTH;
use serde_json::Value;
use std::alloc::Global;

/// Puts a copy of `new` at all locations that a query text selects in a document, at once, and returns the number of
/// distinct ones. Of locations that are inside one another the outermost is replaced; the others count too.
///
/// All nodes are found, and all memory is taken, before anything is replaced. It takes the time of [`js_path_within`],
/// n log n in the steps of the locations as [`delete_within`], and the size of `new` for each location that is inside
/// no other.
///
/// # Errors
///
/// Those of [`js_path_within`]. After any of them the document is as it was.
///
/// [`js_path_within`]: crate::query::js_path_within
/// [`delete_within`]: crate::query::delete_within
pub fn replace_within(
    alloc: Global,
    value: &mut Value,
    path: &str,
    depth: usize,
    new: &Value,
) -> Queried<usize>
    requires value_whole { IsTrue (value_is_whole value.old) }
    requires new_whole { IsTrue (value_is_whole new.now) }
    ensures replaced { ByText depth path.now (value_document value.old) (Replacement (value_tree new.now) (value_tree value.new))
        (ReplacementAt (value_tree new.now) (value_tree value.new)) result }
    ensures unchanged_on_error { OnErr result (value.new ≡ value.old) }
    ensures whole { IsTrue (value_is_whole value.new) }
{
    let query = Prepared::read_within(alloc, path, depth)?;
    query.runner(alloc).replace(alloc, value, new)
}

/// Replaces as [`replace_within`], with a depth of 128.
pub fn replace_all_by_path(
    alloc: Global,
    value: &mut Value,
    path: &str,
    new: &Value,
) -> Queried<usize>
    requires value_whole { IsTrue (value_is_whole value.old) }
    requires new_whole { IsTrue (value_is_whole new.now) }
    ensures replaced { ByText MAX_NESTING_DEPTH path.now (value_document value.old)
        (Replacement (value_tree new.now) (value_tree value.new))
        (ReplacementAt (value_tree new.now) (value_tree value.new)) result }
    ensures unchanged_on_error { OnErr result (value.new ≡ value.old) }
    ensures whole { IsTrue (value_is_whole value.new) }
{
    replace_within(alloc, value, path, MAX_NESTING_DEPTH, new)
}

impl<'p, L: Limit> Runner<'p, L> {
    /// Puts a copy of `new` at all locations that the query selects in a document, and returns the number of distinct
    /// ones.
    pub(crate) fn replace(
        &mut self,
        alloc: Global,
        value: &mut Value,
        new: &Value,
    ) -> Result<usize, L::Error>
        requires value_whole { IsTrue (value_is_whole value.old) }
        requires new_whole { IsTrue (value_is_whole new.now) }
        ensures replaced { Runs L.stops (runner_view self.old) (runner_view self.new) (value_document value.old)
            (Replacement (value_tree new.now) (value_tree value.new)) result }
        ensures unchanged_on_error { OnErr result (value.new ≡ value.old) }
        ensures whole { IsTrue (value_is_whole value.new) }
    {
        let copy = self.copy_cost(alloc, WholeRef { value: new })?;
        let marked = self.marked(alloc, WholeRef { value }, copy)?;
        match marked.replace_in(alloc, value, new) {
            Ok(()) => Ok(marked.count()),
            Err(_memory) => Err(L::error(alloc, WalkError::Memory)),
        }
    }
}
