//! The changes of a whole `Value` by a runner, with any limit.
ghost use Rattle.std.specs.Prelude.{◌≡◌, OnErr};
ghost use Rattle.jsonpath_base.specs.Prelude.Documents.{value_document, value_tree};
ghost use Rattle.jsonpath_rust.specs.Prelude.Selection.{runner_view};
ghost use Rattle.jsonpath_rust.specs.Prelude.Calls.{Deletion, Replacement, Runs};

use crate::documents::whole::Whole;
use crate::selection::{Limit, Runner};
use serde_json::Value;
use std::alloc::Global;

impl Whole<Value> {
    /// Removes all locations that the runner's query selects, at once and each by its original place, and returns the
    /// number of distinct ones, as [`delete_within`] does.
    ///
    /// # Errors
    ///
    /// Those of each call of a [`Runner`]. After any of them the document is as it was.
    ///
    /// [`delete_within`]: crate::query::delete_within
    pub fn delete<L: Limit>(
        &mut self,
        alloc: Global,
        runner: &mut Runner<'_, L>,
    ) -> Result<usize, L::Error>
        ensures deleted { Runs L.stops (runner_view runner.old) (runner_view runner.new) (value_document self.old.value)
            (Deletion (value_tree self.new.value)) result }
        ensures unchanged_on_error { OnErr result (self.new.value ≡ self.old.value) }
    {
        runner.delete(alloc, &mut self.value)
    }

    /// Puts a copy of `new` at all locations that the runner's query selects, at once, and returns the number of
    /// distinct ones, as [`replace_within`] does. The size of the copies is not limited.
    ///
    /// # Errors
    ///
    /// Those of each call of a [`Runner`]. After any of them the document is as it was.
    ///
    /// [`replace_within`]: crate::query::replace_within
    pub fn replace<L: Limit>(
        &mut self,
        alloc: Global,
        runner: &mut Runner<'_, L>,
        new: &Whole<Value>,
    ) -> Result<usize, L::Error>
        ensures replaced { Runs L.stops (runner_view runner.old) (runner_view runner.new) (value_document self.old.value)
            (Replacement (value_tree new.now.value) (value_tree self.new.value)) result }
        ensures unchanged_on_error { OnErr result (self.new.value ≡ self.old.value) }
    {
        runner.replace(alloc, &mut self.value, &new.value)
    }
}
