//! Removes a set of locations from a value, or replaces the values there, all at once.
ghost use Rattle.std.specs.Prelude.{◌≡◌, ◌<◌, ◌≤◌, ◌-◌, ◌++◌, take, drop, length, map, false, IfOk, IfErr, OnOk, OnErr, IsTrue, string_cmp};
ghost use Rattle.std.specs.Vec.{vec_len};
ghost use Rattle.serde_json.specs.View.{view, items_view, members_view};
ghost use Rattle.std.specs.Ordering.{nat_cmp};
ghost use Rattle.jsonpath_parser.specs.Location as location;
ghost use Rattle.jsonpath_parser.specs.Location.{Location};
ghost use Rattle.jsonpath_base.specs.Steps.{location_view, lent_location};
ghost use Rattle.jsonpath_base.specs.Values.{value_tree, value_is_whole};
ghost use Rattle.jsonpath_base.specs.Overwritten.{overwritten};
ghost use Rattle.jsonpath_base.specs.Without.{without, is_among, distinct_count, counted_with, HasAlso};
ghost use Rattle.jsonpath_base.specs.inner.LocationTries.{to_member, marked, marked_below, in_order, level_in_order, IsSameSet};
ghost use Rattle.jsonpath_base.specs.inner.Thinning.{data_thinned, items_thinned, members_thinned, sieved, IsThinnedAt, IsThinnedBy};

use crate::location_trie::{LocationTrie, mark};
use crate::masking::{copies_for, fill};
use crate::ordering::put_in_order;
use crate::size::{marks_size, steps_size};
use crate::step::{Step, StepRef};
use jsonpath_parser::errors::{JsonPathError, Parsed};
use serde_json::{Map, Value};
use std::alloc::{AllocError, Global};
use std::mem;

/// The least size that is added out of order before the trie is sorted.
const LEAST: usize = 1024;

/// A set of locations to be removed from a value, or replaced in it.
///
/// A step with which several of them begin is stored once if they are added in order. Otherwise it may be stored again,
/// until a quarter of the stored size, or a small number, was added. Then the trie is sorted, so that each step is
/// stored once; the sort takes room for what was added. So memory grows with the distinct steps and their names, to
/// about twice these at most.
#[derive(Drop)]
pub struct LocationSet {
    marks: LocationTrie,
    /// The size that was added since a location came out of order; 0 where the trie is sorted.
    added: usize,
    /// The size that is added before the trie is sorted.
    most: usize,
}

impl LocationSet {
    ghost use Rattle.jsonpath_base.specs.LocationSetViews.{location_set, location_count, sorted_set, sorted_count, LastBegins};

    /// Returns the empty set.
    pub fn new(alloc: Global) -> Self
        ensures none { (l : Location) → location_set result l ≡ false }
        ensures count { location_count result ≡ 0 }
    {
        LocationSet {
            marks: LocationTrie::new(alloc),
            added: 0,
            most: LEAST,
        }
    }

    /// Adds the location of these steps. It fails with `OutOfMemory` only, and then the set may have lost locations. It
    /// takes time linear in the steps and their names; for many locations n log n.
    pub fn add(&mut self, alloc: Global, steps: &[StepRef<'_>]) -> Parsed<()>
        ensures added { OnOk result (HasAlso (location_set self.old) (lent_location steps.now) (location_set self.new)) }
        ensures count { OnOk result (location_count self.new ≡ counted_with (lent_location steps.now) (location_set self.old) (location_count self.old)) }
        ensures last { OnOk result (LastBegins self.new (lent_location steps.now)) }
        ensures memory { IfErr result (λ e. e ≡ JsonPathError.OutOfMemory) }
    {
        self.add_behind(alloc, steps, 0)
    }

    /// Adds the location of these steps, of which the first `shared_len` are the first ones of the location that was
    /// added last. These are neither compared nor stored again, unless the trie is sorted. If they differ from those,
    /// nothing is known of the set from there on.
    pub fn add_behind(
        &mut self,
        alloc: Global,
        steps: &[StepRef<'_>],
        shared_len: usize,
    ) -> Parsed<()>
        ensures added { OnOk result (LastBegins self.old (take shared_len (lent_location steps.now))
            → HasAlso (location_set self.old) (lent_location steps.now) (location_set self.new)) }
        ensures count { OnOk result (LastBegins self.old (take shared_len (lent_location steps.now))
            → location_count self.new ≡ counted_with (lent_location steps.now) (location_set self.old) (location_count self.old)) }
        ensures last { OnOk result (LastBegins self.old (take shared_len (lent_location steps.now)) → LastBegins self.new (lent_location steps.now)) }
        ensures memory { IfErr result (λ e. e ≡ JsonPathError.OutOfMemory) }
    {
        let known = self.joined(alloc, shared_len)?;
        let rises = mark(alloc, &mut self.marks, steps, known)?;
        let size = if self.added > 0 || !rises {
            steps_size(steps, known)
        } else {
            0
        };
        self.added = self.added.saturating_add(size);
        Ok(())
    }

    /// Sorts the trie, with each step once, if a quarter of the stored size was added out of order. Returns how many of
    /// the shared steps are still in the last entries of the trie.
    fn joined(&mut self, alloc: Global, shared_len: usize) -> Result<usize, AllocError>
        ensures same { OnOk result (IsSameSet (location_set self.old) (location_set self.new)) }
        ensures known { (l : Location) → IfOk result (λ n. LastBegins self.old (take shared_len l) → LastBegins self.new (take n l)) }
    {
        if self.added < self.most {
            return Ok(shared_len);
        }
        let _ = put_in_order(alloc, &mut self.marks)?;
        self.added = 0;
        self.most = (marks_size(&self.marks) / 4).max(LEAST);
        Ok(0)
    }

    /// Returns the same locations, sorted and counted. It fails with `OutOfMemory` only. It takes time linear in the
    /// stored steps if they were added in order, and else n log n.
    pub fn ordered(self, alloc: Global) -> Parsed<SortedLocations>
        ensures set { IfOk result (λ r. sorted_set r ≡ location_set self) }
        ensures count { IfOk result (λ r. sorted_count r ≡ location_count self) }
        ensures memory { IfErr result (λ e. e ≡ JsonPathError.OutOfMemory) }
    {
        let LocationSet { mut marks, .. } = self;
        let count = put_in_order(alloc, &mut marks)?;
        Ok(SortedLocations { marks, count })
    }
}

/// The locations to be removed from a value, or replaced in it, sorted, and the number of distinct ones.
#[derive(Drop)]
pub struct SortedLocations {
    marks: LocationTrie,
    count: usize,
    ghost ordered: { IsTrue (in_order marks) },
}

impl SortedLocations {
    ghost use Rattle.jsonpath_base.specs.LocationSetViews.{sorted_set, sorted_count};

    /// Returns these locations, sorted. It fails with `OutOfMemory` only.
    fn at_places(alloc: Global, places: &[Vec<Step>]) -> Parsed<Self>
        ensures set { IfOk result (λ r. sorted_set r ≡ is_among (map (λ p. location_view p.items) places.now)) }
        ensures count { IfOk result (λ r. sorted_count r ≡ distinct_count (map (λ p. location_view p.items) places.now)) }
        ensures memory { IfErr result (λ e. e ≡ JsonPathError.OutOfMemory) }
    {
        let mut removal = LocationSet::new(alloc);
        for place in places {
            let steps = lent_steps(alloc, place)?;
            removal.add(alloc, &steps)?;
        }
        removal.ordered(alloc)
    }

    /// Returns the number of distinct locations.
    pub fn count(&self) -> usize
        ensures { result ≡ sorted_count self.now }
    {
        self.count
    }

    /// Removes the locations from the value, all at once and each by its original place. A location without a value
    /// changes nothing. If the root is one of them, null is left. It takes no memory.
    pub fn remove_from(&self, value: &mut Value)
        ensures removed { value_tree value.new ≡ without (sorted_set self.now) (value_tree value.old) }
        ensures whole { IsTrue (value_is_whole value.old) → IsTrue (value_is_whole value.new) }
    {
        if self.marks.is_marked {
            drop(mem::replace(value, Value::Null));
            return;
        }
        thin(value, &self.marks);
    }

    /// Puts a copy of `new` at each of the locations, all at once. Of locations that are inside one another the
    /// outermost is replaced, and one without a value changes nothing. It fails with `OutOfMemory` only, and then the
    /// value is as it was: all copies are made first, one for each location that is inside no other.
    pub fn replace_in(&self, alloc: Global, value: &mut Value, new: &Value) -> Parsed<()>
        ensures replaced { OnOk result (value_tree value.new ≡ overwritten (sorted_set self.now) (value_tree new.now) (value_tree value.old)) }
        ensures whole { IsTrue (value_is_whole value.old) → IsTrue (value_is_whole new.now) → IsTrue (value_is_whole value.new) }
        ensures unchanged_on_error { OnErr result (value.new ≡ value.old) }
        ensures memory { IfErr result (λ e. e ≡ JsonPathError.OutOfMemory) }
    {
        let mut copies = copies_for(alloc, &self.marks, new)?;
        fill(value, &self.marks, &mut copies);
        Ok(())
    }
}

/// Removes the values at these locations, all at once and each by its original place, and returns the number of
/// distinct locations. A location without a value counts, and changes nothing. If the root is one of them, null is
/// left. For a value with a number that is not an integer less is proved: that number counts as null in these clauses.
///
/// It takes time n log n in the steps of the locations. In a list that loses elements, each element after the first of
/// them is moved once.
///
/// # Errors
///
/// `OutOfMemory` where memory ran out, and then the value is as it was: all locations are marked first.
pub fn remove_all(alloc: Global, value: &mut Value, places: &[Vec<Step>]) -> Parsed<usize>
    ensures removed { OnOk result (value_tree value.new ≡ without (is_among (map (λ p. location_view p.items) places.now)) (value_tree value.old)) }
    ensures count { IfOk result (λ n. n ≡ distinct_count (map (λ p. location_view p.items) places.now)) }
    ensures whole { IsTrue (value_is_whole value.old) → IsTrue (value_is_whole value.new) }
    ensures unchanged_on_error { OnErr result (value.new ≡ value.old) }
    ensures memory { IfErr result (λ e. e ≡ JsonPathError.OutOfMemory) }
{
    let removal = SortedLocations::at_places(alloc, places)?;
    removal.remove_from(value);
    Ok(removal.count)
}

/// Puts a copy of `new` at each of these locations, all at once, and returns the number of distinct locations. Of
/// locations that are inside one another the outermost is replaced, and the others count. A location without a value
/// counts, and changes nothing. For values with a number that is not an integer less is proved: that number counts as
/// null in these clauses.
///
/// It takes time n log n in the steps of the locations, and the size of `new` for each location that is inside no
/// other. The copies are in memory until the first value is replaced.
///
/// # Errors
///
/// `OutOfMemory` where memory ran out, and then the value is as it was: all locations are marked, and all copies are
/// made, first.
pub fn replace_all(
    alloc: Global,
    value: &mut Value,
    places: &[Vec<Step>],
    new: &Value,
) -> Parsed<usize>
    ensures replaced { OnOk result (value_tree value.new ≡ overwritten (is_among (map (λ p. location_view p.items) places.now)) (value_tree new.now) (value_tree value.old)) }
    ensures count { IfOk result (λ n. n ≡ distinct_count (map (λ p. location_view p.items) places.now)) }
    ensures whole { IsTrue (value_is_whole value.old) → IsTrue (value_is_whole new.now) → IsTrue (value_is_whole value.new) }
    ensures unchanged_on_error { OnErr result (value.new ≡ value.old) }
    ensures memory { IfErr result (λ e. e ≡ JsonPathError.OutOfMemory) }
{
    let removal = SortedLocations::at_places(alloc, places)?;
    removal.replace_in(alloc, value, new)?;
    Ok(removal.count)
}

/// Returns the steps, each borrowed.
fn lent_steps<'s>(alloc: Global, steps: &'s [Step]) -> Parsed<Vec<StepRef<'s>>>
    ensures lent { IfOk result (λ v. lent_location v.items ≡ location_view steps.now) }
    ensures memory { IfErr result (λ e. e ≡ JsonPathError.OutOfMemory) }
{
    let mut lent = Vec::with_capacity(alloc, steps.len())?;
    for step in steps {
        lent.push(step.as_ref())?;
    }
    Ok(lent)
}

/// Removes what is marked below a value.
#[cycle(thin)]
fn thin(value: &mut Value, marks: &LocationTrie)
    requires { IsTrue (in_order marks.now) }
    ensures { view value.new ≡ data_thinned (marked marks.now) (view value.old) }
{
    if let Some(items) = value.as_array_mut() {
        thin_items(items, &marks.indexes);
    } else if let Some(members) = value.as_object_mut() {
        thin_members(members, &marks.names);
    }
}

/// Removes what is marked in a list: first below its elements, while each is in its place, then the elements.
#[cycle(thin)]
fn thin_items(items: &mut Vec<Value>, marks: &[(usize, LocationTrie)])
    requires { IsTrue (level_in_order nat_cmp marks.now) }
    ensures { items_view items.new.items ≡ items_thinned (marked_below location.index marks.now) 0 (items_view items.old.items) }
{
    for (index, below) in marks {
        thin_item(items, *index, below);
    }
    drop_marked(items, marks);
}

/// Removes what is marked below an element, where the element itself is not marked.
#[cycle(thin)]
fn thin_item(items: &mut Vec<Value>, index: usize, marks: &LocationTrie)
    requires { IsTrue (in_order marks.now) }
    ensures { IsThinnedAt index marks.now (items_view items.old.items) (items_view items.new.items) }
{
    if marks.is_marked {
        return;
    }
    if let Some(item) = items.get_mut(index) {
        thin(item, marks);
    }
}

/// Removes what is marked in an object.
#[cycle(thin)]
fn thin_members(members: &mut Map<String, Value>, marks: &[(String, LocationTrie)])
    requires { IsTrue (level_in_order string_cmp marks.now) }
    ensures { members_view members.new.entries ≡ members_thinned (marked_below to_member marks.now) (members_view members.old.entries) }
{
    for (name, below) in marks {
        thin_member(members, name, below);
    }
}

/// Removes a member if it is marked, else what is marked below it.
#[cycle(thin)]
fn thin_member(members: &mut Map<String, Value>, name: &String, marks: &LocationTrie)
    requires { IsTrue (in_order marks.now) }
    ensures { IsThinnedBy name.now marks.now (members_view members.old.entries) (members_view members.new.entries) }
{
    if marks.is_marked {
        drop(members.remove(name.as_str()));
        return;
    }
    if let Some(member) = members.get_mut(name.as_str()) {
        thin(member, marks);
    }
}

/// Removes the marked elements. No element is looked up: the marks are visited in their order, and each run of elements
/// between two of them is moved by itself.
fn drop_marked(items: &mut Vec<Value>, marks: &[(usize, LocationTrie)])
    requires { IsTrue (level_in_order nat_cmp marks.now) }
    ensures { items_view items.new.items ≡ sieved marks.now 0 (items_view items.old.items) }
{
    let length = items.len();
    let mut gone = 0;
    let mut next = 0;
    for (index, below) in marks {
        if below.is_marked && *index < length {
            move_down(items, gone, next, *index);
            gone += 1;
            next = *index + 1;
        }
    }
    move_down(items, gone, next, length);
    items.truncate(length - gone);
}

/// Moves the elements from `start` up to `end` to the front by this many places, over others.
fn move_down(items: &mut Vec<Value>, places: usize, start: usize, end: usize)
    requires { (places ≤ start) × (start ≤ end) × (end ≤ vec_len items.old) }
    ensures moved { take (end - places) items.new.items ++ drop end items.new.items ≡ take (start - places) items.old.items ++ drop start items.old.items }
    ensures length { length items.new.items ≡ length items.old.items }
{
    if places == 0 {
        return;
    }
    for i in start..end {
        items.swap(i - places, i);
    }
}
