//! The changes of a whole `Value`.
ghost use Rattle.std.specs.Prelude.{◌≡◌, false, IfErr, IfOk, is_some, map, OnErr, OnOk, option_map};
ghost use Rattle.jsonpath_base.specs.Prelude.Documents.{distinct_count, HasIndexesInRange, is_among, IsNormal, IsPut, IsReplaced, Location, location_view, null, OutOfMemory, overwritten, owned_step, put, value_document, value_tree, view, without};
ghost use Rattle.jsonpath_rust.specs.Prelude.Calls.{ByText, Deletion, DeletionAt, Replacement, ReplacementAt};
ghost use Rattle.jsonpath_base.specs.Added.{added, takes_at};
ghost use Rattle.jsonpath_base.specs.Places as places;

use crate::documents::Queried;
use crate::documents::whole::Whole;
use crate::query::{delete_within, replace_all_by_path, replace_by_path, replace_within};
use jsonpath_base::{Step, add_at, put_at, remove_all, replace_all, take_at};
use jsonpath_parser::MAX_NESTING_DEPTH;
use serde_json::Value;
use std::alloc::Global;

impl Whole<Value> {
    /// Replaces the value at the one location that a path of names and indexes means, as [`replace_by_path`].
    pub fn replace_by_path(&mut self, alloc: Global, path: &str, new: Whole<Value>) -> Queried<bool>
        ensures replaced { IfOk result (λ found. IsReplaced path.now (value_document self.old.value)
            (value_tree new.value) found (value_tree self.new.value)) }

        // The Normalized Path of a location means that location, wherever there is a value.
        ensures normal { (l : Location) → IsNormal l path.now → HasIndexesInRange l →
            IfOk result (λ found. IsPut l (value_tree self.old.value) (value_tree new.value) found
            (value_tree self.new.value)) }
        ensures unchanged_on_error { OnErr result (self.new.value ≡ self.old.value) }
        ensures memory { IfErr result (λ e. e ≡ OutOfMemory) }
    {
        replace_by_path(alloc, &mut self.value, path, new.value)
    }

    /// Replaces the value at the location of these steps, as [`put_at`].
    pub fn put_at(&mut self, steps: &[Step], new: Whole<Value>) -> bool
        ensures value { value_tree self.new.value ≡ put (location_view steps.now) (value_tree new.value) (value_tree self.old.value) }
        ensures found { result ≡ is_some (places.at (location_view steps.now) (value_tree self.old.value)) }
    {
        put_at(&mut self.value, steps, new.value)
    }

    /// Adds a value to the object or the list at the location `parent`, as [`add_at`].
    pub fn add_at(
        &mut self,
        alloc: Global,
        parent: &[Step],
        step: Step,
        new: Whole<Value>,
    ) -> Queried<bool>
        ensures value { OnOk result (value_tree self.new.value
            ≡ added (location_view parent.now) (owned_step step) (value_tree new.value)
            (value_tree self.old.value)) }
        ensures found { IfOk result (λ b. b ≡ takes_at (location_view parent.now) (owned_step step) (value_tree self.old.value)) }
        ensures unchanged { IfOk result (λ b. b ≡ false → view self.new.value ≡ view self.old.value) }
        ensures unchanged_on_error { OnErr result (view self.new.value ≡ view self.old.value) }
        ensures memory { IfErr result (λ e. e ≡ OutOfMemory) }
    {
        add_at(alloc, &mut self.value, parent, step, new.value)
    }

    /// Takes the value at the location of these steps, and leaves null there, as [`take_at`].
    pub fn take_at(&mut self, place: &[Step]) -> Option<Whole<Value>>
        ensures taken { option_map (λ w. value_tree w.value) result ≡ places.at (location_view place.now) (value_tree self.old.value) }
        ensures remaining { value_tree self.new.value ≡ put (location_view place.now) null (value_tree self.old.value) }
    {
        match take_at(&mut self.value, place) {
            Some(value) => Some(Whole { value }),
            None => None,
        }
    }

    /// Removes all locations that a query text selects, at once, as [`delete_within`] with a depth of 128.
    pub fn delete_by_path(&mut self, alloc: Global, path: &str) -> Queried<usize>
        ensures deleted { ByText MAX_NESTING_DEPTH path.now (value_document self.old.value) (Deletion (value_tree self.new.value))
            (DeletionAt (value_tree self.new.value)) result }
        ensures unchanged_on_error { OnErr result (self.new.value ≡ self.old.value) }
    {
        delete_within(alloc, &mut self.value, path, MAX_NESTING_DEPTH)
    }

    /// Removes all locations that a query text selects, at once, as [`delete_within`].
    pub fn delete_within(&mut self, alloc: Global, path: &str, depth: usize) -> Queried<usize>
        ensures deleted { ByText depth path.now (value_document self.old.value) (Deletion (value_tree self.new.value))
            (DeletionAt (value_tree self.new.value)) result }
        ensures unchanged_on_error { OnErr result (self.new.value ≡ self.old.value) }
    {
        delete_within(alloc, &mut self.value, path, depth)
    }

    /// Removes all these locations, at once, as [`remove_all`].
    pub fn remove_all(&mut self, alloc: Global, places: &[Vec<Step>]) -> Queried<usize>
        ensures removed { OnOk result (value_tree self.new.value
            ≡ without (is_among (map (λ p. location_view p.items) places.now))
            (value_tree self.old.value)) }
        ensures count { IfOk result (λ n. n ≡ distinct_count (map (λ p. location_view p.items) places.now)) }
        ensures unchanged_on_error { OnErr result (self.new.value ≡ self.old.value) }
        ensures memory { IfErr result (λ e. e ≡ OutOfMemory) }
    {
        remove_all(alloc, &mut self.value, places)
    }

    /// Puts a copy of `new` at all locations that a query text selects, at once, as [`replace_within`].
    pub fn replace_within(
        &mut self,
        alloc: Global,
        path: &str,
        depth: usize,
        new: &Whole<Value>,
    ) -> Queried<usize>
        ensures replaced { ByText depth path.now (value_document self.old.value)
            (Replacement (value_tree new.now.value) (value_tree self.new.value))
            (ReplacementAt (value_tree new.now.value) (value_tree self.new.value)) result }
        ensures unchanged_on_error { OnErr result (self.new.value ≡ self.old.value) }
    {
        replace_within(alloc, &mut self.value, path, depth, &new.value)
    }

    /// Puts a copy of `new` at all locations that a query text selects, at once, as [`replace_all_by_path`], with a
    /// depth of 128.
    pub fn replace_all_by_path(
        &mut self,
        alloc: Global,
        path: &str,
        new: &Whole<Value>,
    ) -> Queried<usize>
        ensures replaced { ByText MAX_NESTING_DEPTH path.now (value_document self.old.value)
            (Replacement (value_tree new.now.value) (value_tree self.new.value))
            (ReplacementAt (value_tree new.now.value) (value_tree self.new.value)) result }
        ensures unchanged_on_error { OnErr result (self.new.value ≡ self.old.value) }
    {
        replace_all_by_path(alloc, &mut self.value, path, &new.value)
    }

    /// Puts a copy of `new` at all these locations, at once, as [`replace_all`].
    pub fn replace_all(
        &mut self,
        alloc: Global,
        places: &[Vec<Step>],
        new: &Whole<Value>,
    ) -> Queried<usize>
        ensures replaced { OnOk result (value_tree self.new.value
            ≡ overwritten (is_among (map (λ p. location_view p.items) places.now))
            (value_tree new.now.value) (value_tree self.old.value)) }
        ensures count { IfOk result (λ n. n ≡ distinct_count (map (λ p. location_view p.items) places.now)) }
        ensures unchanged_on_error { OnErr result (self.new.value ≡ self.old.value) }
        ensures memory { IfErr result (λ e. e ≡ OutOfMemory) }
    {
        replace_all(alloc, &mut self.value, places, &new.value)
    }
}
