//! The units of work that values cost. In a limited walk, comparisons, functions and patterns cost as much as they
//! read.
ghost use Rattle.std.specs.Prelude.{◌-◌, ◌≡◌, ◌≤◌, IfErr, IfOk, length, map, min, option_map};
ghost use Rattle.jsonpath_rust.specs.Prelude.Documents.{Memory, filter_value_tree, filter_ref_tree, tree_of};
ghost use Rattle.jsonpath_rust.specs.Prelude.Selection.{compared_cost, cost, elements_cost, IsSpent, Limited, node_cost, pairs_cost, smaller_cost, text_bytes, valued};

use crate::documents::args::Args;
use crate::documents::filter_value::{FilterValue, FilterValueRef};
use crate::documents::nodes::{WholeElements, WholeMembers};
use crate::documents::queryable::Queryable;
use crate::documents::walk_error::WalkResult;
use crate::documents::whole::WholeRef;
use crate::selection::limits::{Budget, WorkLimit};
use crate::selection::sink::Sink;
use jsonpath_base::MatchKind;
use jsonpath_base::engine::{CurrentPath, Origin, PatternCache, PatternKey, StepRef};
use std::alloc::Global;

/// The number of bytes of a text that are compared for one unit.
const BYTES: usize = 16;

/// The number of bytes of names that are copied for one unit.
const COPIED: usize = 64;

/// The number of steps of a location that are copied for one unit. Each step is a copy of its own.
const STEPS: usize = 4;

/// The number of steps of a path that are written for one unit.
const SPELLED: usize = 16;

impl WorkLimit {
    /// Returns what `length` costs: a unit for each byte of a text and for each member of an object, whether it is from
    /// the document or from a custom function.
    #[inline(always)]
    pub fn length_cost<T: Queryable>(
        self,
        alloc: Global,
        side: &FilterValueRef<'_, '_, T>,
    ) -> WalkResult<usize>
        ensures memory { IfErr result (λ h. h ≡ Memory) }
    {
        match self {
            WorkLimit::Unlimited => Ok(0),
            WorkLimit::Limited => cost_of_length(alloc, side),
        }
    }

    /// Returns what `match` or `search` costs: reading both texts, and asking the pattern ([`PatternCache::cost`]).
    #[inline(always)]
    pub fn search_cost<T: Queryable>(
        self,
        alloc: Global,
        finders: &PatternCache<'_, '_>,
        sides: (&FilterValue<'_, '_, T>, &FilterValue<'_, '_, T>),
        how: (MatchKind, Origin),
    ) -> WalkResult<usize>
        ensures text { IfOk result (λ n. self ≡ Limited → text_bytes (filter_value_tree sides.entry.0.now) ≤ n) }
        ensures memory { IfErr result (λ h. h ≡ Memory) }
    {
        match self {
            WorkLimit::Unlimited => Ok(0),
            WorkLimit::Limited => cost_of_search(alloc, finders, sides, how),
        }
    }

    /// Returns what a comparison costs: the size of the smaller side, but at most `most`. It visits no more values than
    /// that.
    #[inline(always)]
    pub fn comparison_cost<T: Queryable>(
        self,
        alloc: Global,
        sides: (&FilterValueRef<'_, '_, T>, &FilterValueRef<'_, '_, T>),
        most: usize,
    ) -> WalkResult<usize>
        ensures cost { IfOk result (λ n. self ≡ Limited →
            n ≡ min (compared_cost (valued sides.entry.0.now) (valued sides.entry.1.now)) most) }
        ensures memory { IfErr result (λ h. h ≡ Memory) }
    {
        match self {
            WorkLimit::Unlimited => Ok(0),
            WorkLimit::Limited => match (value_in(sides.0), value_in(sides.1)) {
                (Some(left), Some(right)) => smaller_size(alloc, left, right, most),
                _ => Ok(most.min(1)),
            },
        }
    }

    /// Returns what a custom function costs beside the unit for each argument: the product of the arguments' sizes. If
    /// that is greater than `most`, it returns some number that is at least `most`, and visits no more values.
    #[inline(always)]
    pub fn custom_cost<T: Queryable>(
        self,
        alloc: Global,
        args: &Args<'_, T>,
        most: usize,
    ) -> WalkResult<usize>
        ensures memory { IfErr result (λ h. h ≡ Memory) }
    {
        match self {
            WorkLimit::Unlimited => Ok(0),
            WorkLimit::Limited => size_of_arguments(alloc, args, most),
        }
    }

    /// Returns what a copy of a value costs: its size, but at most `most`. It visits no more values than that.
    pub fn copy_cost<T: Queryable>(
        self,
        alloc: Global,
        value: WholeRef<'_, T>,
        most: usize,
    ) -> WalkResult<usize>
        ensures cost { IfOk result (λ n. self ≡ Limited → n ≡ min (cost (tree_of value.entry)) most) }
        ensures memory { IfErr result (λ h. h ≡ Memory) }
    {
        match self {
            WorkLimit::Unlimited => Ok(0),
            WorkLimit::Limited => size_within(alloc, value, most),
        }
    }
}

/// Returns the number of bytes of a text, or 0 for any other value.
fn text_bytes<T: Queryable>(side: &FilterValueRef<'_, '_, T>) -> usize
    ensures { result ≡ text_bytes (filter_ref_tree side.now) }
{
    match side.as_text() {
        Some(text) => text.len(),
        None => 0,
    }
}

/// Returns what it costs to compare a pattern with a cached one: a unit for each byte of a pattern in the document, or
/// for every 16 bytes of a pattern in the query.
fn pattern_cost<T: Queryable>(side: &FilterValueRef<'_, '_, T>) -> usize {
    match value_in(side) {
        Some(_value) => text_bytes(side),
        None => text_bytes(side) / BYTES,
    }
}

/// Returns the number of bytes of a text, or of members of an object, if it is from the document or from a custom
/// function; else 0.
#[inline(never)]
fn cost_of_length<T: Queryable>(
    alloc: Global,
    side: &FilterValueRef<'_, '_, T>,
) -> WalkResult<usize>
    ensures memory { IfErr result (λ h. h ≡ Memory) }
{
    match value_in(side) {
        Some(value) => match value.as_str() {
            Some(text) => Ok(text.len()),
            None => Ok(value.member_count(alloc)?.unwrap_or(0)),
        },
        None => Ok(0),
    }
}

impl Budget {
    /// Spends what it costs to pass the current node to a sink.
    #[inline(always)]
    pub fn spend_path<T: Queryable>(
        &mut self,
        limit: WorkLimit,
        sink: &Sink<'_, T>,
        current_path: &CurrentPath<'_>,
    ) -> WalkResult<()>
        ensures refused { IfErr result (IsSpent limit) }
    {
        match limit {
            WorkLimit::Unlimited => Ok(()),
            WorkLimit::Limited => self.spend(limit, path_cost(sink, current_path)),
        }
    }
}

/// Returns what it costs to pass the current node to a sink. A sink that stores paths or locations costs a unit for
/// every 64 bytes of names, and for every 16 steps of a path or 4 steps of a location. A sink that marks locations
/// costs a unit for each step that is not shared and for every 16 bytes of its name, and what a copy of the value that
/// is put there costs.
fn path_cost<T: Queryable>(sink: &Sink<'_, T>, current_path: &CurrentPath<'_>) -> usize
    ensures { node_cost sink.now (length current_path.now.steps.items) ≤ result }
{
    let steps = current_path.steps.len();
    match sink {
        Sink::Nodes(_) => names_cost(current_path, steps / SPELLED),
        Sink::Paths(_) => names_cost(current_path, steps / SPELLED),
        Sink::Few(_) => names_cost(current_path, steps / SPELLED),
        Sink::Locations(_) => names_cost(current_path, steps / STEPS),
        Sink::LocationSet(_, copy) => current_path.unshared_size().saturating_add(*copy),
        _ => 0,
    }
}

/// Returns what the names of the current path cost, plus `steps`.
fn names_cost(current_path: &CurrentPath<'_>, steps: usize) -> usize
    ensures { steps ≤ result }
{
    (name_bytes(current_path) / COPIED).saturating_add(steps)
}

/// Returns the number of bytes of the names of the current path.
fn name_bytes(current_path: &CurrentPath<'_>) -> usize {
    let mut bytes: usize = 0;
    for step in &current_path.steps {
        if let StepRef::Name(name) = step {
            bytes = bytes.saturating_add(name.len());
        }
    }
    bytes
}

/// Returns what it costs to search a text for a pattern: a unit for each byte of the text, what comparing the pattern
/// costs, and what asking it costs.
fn cost_of_search<T: Queryable>(
    alloc: Global,
    finders: &PatternCache<'_, '_>,
    sides: (&FilterValue<'_, '_, T>, &FilterValue<'_, '_, T>),
    how: (MatchKind, Origin),
) -> WalkResult<usize>
    ensures text { IfOk result (λ n. text_bytes (filter_value_tree sides.entry.0.now) ≤ n) }
    ensures memory { IfErr result (λ h. h ≡ Memory) }
{
    let (text, pattern) = (sides.0.as_side(), sides.1.as_side());
    let read = text_bytes(&text).saturating_add(pattern_cost(&pattern));
    let (Some(text), Some(pattern)) = (text.as_text(), pattern.as_text()) else {
        return Ok(read);
    };
    let (extent, origin) = how;
    let asked = PatternKey { pattern, extent };
    let cost = finders.cost(alloc, text, asked, origin)?;
    Ok(cost.saturating_add(read))
}

/// Returns the value, if it is from the document or from a custom function.
fn value_in<'k, T: Queryable>(side: &FilterValueRef<'k, '_, T>) -> Option<WholeRef<'k, T>>
    ensures { option_map tree_of result ≡ valued side.now }
{
    match side {
        FilterValueRef::Borrowed(value) => Some(*value),
        _ => None,
    }
}

/// Returns the size of the smaller of two values, but at most `most`. It takes time by that size, not by the size of
/// the larger value.
#[inline(never)]
fn smaller_size<T: Queryable>(
    alloc: Global,
    left: WholeRef<'_, T>,
    right: WholeRef<'_, T>,
    most: usize,
) -> WalkResult<usize>
    ensures size { IfOk result (λ n. n ≡ min (smaller_cost (tree_of left.entry) (tree_of right.entry)) most) }
    ensures memory { IfErr result (λ h. h ≡ Memory) }
{
    let bound = bound_of_smaller(alloc, left, right, most)?;
    let size = size_within(alloc, left, bound)?;
    size_within(alloc, right, size)
}

/// Returns an upper bound of the size of the smaller of two values, or `most`. Both are measured up to a bound, which
/// is raised until the size of one of them is below it.
fn bound_of_smaller<T: Queryable>(
    alloc: Global,
    left: WholeRef<'_, T>,
    right: WholeRef<'_, T>,
    most: usize,
) -> WalkResult<usize>
    ensures bound { IfOk result (λ n. min (smaller_cost (tree_of left.entry) (tree_of right.entry)) most ≤ n) }
    ensures within { IfOk result (λ n. n ≤ most) }
    ensures memory { IfErr result (λ h. h ≡ Memory) }
{
    let mut bound: usize = 4;
    while bound < most {
        if size_within(alloc, left, bound)? < bound {
            return Ok(bound);
        }
        if size_within(alloc, right, bound)? < bound {
            return Ok(bound);
        }
        bound = bound.saturating_mul(4);
    }
    Ok(most)
}

/// Returns the product of the sizes of these values. If that is greater than `most`, it returns some number that is at
/// least `most`, and visits no more values.
fn size_of_arguments<T: Queryable>(
    alloc: Global,
    args: &Args<'_, T>,
    most: usize,
) -> WalkResult<usize>
    ensures memory { IfErr result (λ h. h ≡ Memory) }
{
    let mut product: usize = 1;
    for arg in &args.list {
        if product >= most {
            return Ok(product);
        }
        let size = size_within(alloc, WholeRef { value: arg.get() }, most)?;
        product = product.saturating_mul(size);
    }
    Ok(product)
}

/// Returns the size of a value, but at most `most`: one for each value in it, and one for every 16 bytes of its texts
/// and names. It measures no further than that. Where `most` is 0 or 1 the value is not visited.
#[cycle(size)]
fn size_within<T: Queryable>(
    alloc: Global,
    value: WholeRef<'_, T>,
    most: usize,
) -> WalkResult<usize>
    ensures size { IfOk result (λ n. n ≡ min (cost (tree_of value.entry)) most) }
    ensures memory { IfErr result (λ h. h ≡ Memory) }
{
    if most <= 1 {
        return Ok(most);
    }
    let inside = inside_size(alloc, value, most - 1)?;
    Ok(inside.saturating_add(1))
}

/// Returns the size of a value without the one for itself, but at most `most`. Where `most` is 0 the value is not
/// visited. The members of an object are not listed where there are at least `most` of them.
#[cycle(size)]
fn inside_size<T: Queryable>(
    alloc: Global,
    value: WholeRef<'_, T>,
    most: usize,
) -> WalkResult<usize>
    ensures size { IfOk result (λ n. n ≡ min (cost (tree_of value.entry) - 1) most) }
    ensures memory { IfErr result (λ h. h ≡ Memory) }
{
    if most == 0 {
        return Ok(0);
    }
    if let Some(text) = value.as_str() {
        return Ok((text.len() / BYTES).min(most));
    }
    if let Some(items) = value.elements() {
        let items = WholeElements { list: items };
        return elements_size(alloc, &items, most);
    }
    let count = value.member_count(alloc)?.unwrap_or(0);
    if count >= most {
        return Ok(most);
    }
    match value.members(alloc)? {
        Some(listed) => {
            let members = WholeMembers { list: &listed };
            members_size(alloc, &members, most)
        }
        None => Ok(0),
    }
}

/// Returns the sum of the sizes of these elements, but at most `most`.
#[cycle(size)]
fn elements_size<T: Queryable>(
    alloc: Global,
    items: &WholeElements<'_, T>,
    most: usize,
) -> WalkResult<usize>
    ensures size { IfOk result (λ n. n ≡ min (elements_cost (map T.tree items.now.list.now)) most) }
    ensures memory { IfErr result (λ h. h ≡ Memory) }
{
    let mut size: usize = 0;
    for item in items.list {
        if size >= most {
            return Ok(most);
        }
        size = size.saturating_add(size_within(alloc, WholeRef { value: item }, most - size)?);
    }
    Ok(size)
}

/// Returns the sum of the sizes of these members, with their names, but at most `most`. Each member counts one from the
/// beginning, because it is listed. So the lists of all nested objects together have fewer than `most` members.
#[cycle(size)]
fn members_size<T: Queryable>(
    alloc: Global,
    members: &WholeMembers<'_, '_, T>,
    most: usize,
) -> WalkResult<usize>
    ensures size { IfOk result (λ n. n ≡ min (pairs_cost (map (λ m. (m.0.now, T.tree m.1.now)) members.now.list.now)) most) }
    ensures memory { IfErr result (λ h. h ≡ Memory) }
{
    let mut size = members.list.len().min(most);
    for member in members.list {
        size = size.saturating_add(member.0.len() / BYTES);
        if size >= most {
            return Ok(most);
        }
        size = size.saturating_add(inside_size(alloc, WholeRef { value: member.1 }, most - size)?);
    }
    Ok(size)
}
