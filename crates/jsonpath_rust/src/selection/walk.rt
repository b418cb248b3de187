//! The walk over a document: it meets the nodes of a query depth-first, in the order of the nodelist (RFC 9535, 2.1.2).
//!
//! This file holds the context and the state of a walk, what follows a segment (`Continuation`), what is done at a
//! value (`Visit`), and the visits to children and descendants.
//!
//! The current path is a stack of borrowed steps, so nothing is stored for a node that is only passed. Most methods of
//! the cycle require that the current path leads to the current node (`IsPositionedAt`). Those of constants require
//! only that the cache is correct (`IsCacheCorrect`). Each method leaves the current path as it was and the cache
//! correct (`EndsProperly`). If it ends with an error, the cache is still correct and the error is justified, but the
//! current path may differ.
ghost use Rattle.jsonpath_base.specs.Prelude.Documents.{Document, Location, all_pick, below, children, flat_map, lent_location, lent_step, picks, replaced, segment_patterns, segments_patterns, selector_patterns, selectors_patterns, sliced, subtree};
ghost use Rattle.jsonpath_rust.specs.Prelude.Documents.{tree_of};
ghost use Rattle.jsonpath_rust.specs.Prelude.Selection.{AreMembers, Constants, EndsProperly, FeedsInSync, GoesToEachChild, IsPositioned, IsPositionedAt, at_current, constants_of, continued_nodes, document, node_at, rest_patterns, segment_view, segments_meant, selected_from, selector_view, selectors_meant, visit_patterns, visited_nodes};
ghost use Rattle.std.specs.Prelude.{IfSome, IsTrue, [], ◌++◌, ◌∷◌, ◌≡◌};

use crate::documents::queryable::Queryable;
use crate::documents::walk_error::WalkResult;
use crate::documents::whole::WholeRef;
use crate::selection::constants::Cache;
use crate::selection::limits::{Budget, WorkLimit};
use crate::selection::plan::{Filter, Plan, Segment, Selector};
use crate::selection::sink::Sink;
use jsonpath_base::engine::{CurrentPath, PatternCache, QueryMatchers, StepRef};
use jsonpath_base::slice_places;
use std::alloc::Global;

/// Start, end and step of a slice (RFC 9535, 2.3.4).
type Bounds = (Option<i64>, Option<i64>, Option<i64>);

/// What a walk reads and does not change: the plan of the query, the document, and whether the work is limited.
#[derive(Drop)]
pub struct WalkContext<'a, 's, T: Queryable> {
    pub alloc: Global,
    pub plan: &'s Plan,
    pub root: WholeRef<'a, T>,
    pub limit: WorkLimit,
}

/// What a walk changes: the current path, the cache of constants, the cache of patterns, and the work that is left.
#[derive(Drop)]
pub struct WalkState<'a, 's, 'p, T: Queryable> {
    pub current_path: CurrentPath<'s>,
    pub cache: Cache<'a, 's, T>,
    pub finders: PatternCache<'s, 'p>,
    pub budget: Budget,
}

impl<'a, 's, 'p, T: Queryable> WalkState<'a, 's, 'p, T> {
    /// Returns the state at the root, with an empty cache of constants.
    pub fn new(alloc: Global, finders: PatternCache<'s, 'p>, budget: Budget) -> Self {
        WalkState {
            current_path: CurrentPath::new(alloc),
            cache: Cache::empty(alloc),
            finders,
            budget,
        }
    }

    /// Returns the matchers of the query's patterns, and frees the rest.
    pub fn into_finders(self) -> QueryMatchers<'p> {
        let finders = self.finders;
        finders.query
    }
}

/// What comes next, and the segments after it, which continue from each node that it selects.
#[derive(Clone, Copy)]
pub struct Continuation<'s, N> {
    pub next: N,
    pub rest: &'s [Segment],
}

/// What is done at a value: at a child, and for `Descend` also where the descent begins.
#[derive(Clone, Copy)]
pub enum Visit<'s> {
    /// Continues with the remaining segments.
    Continue,
    /// Continues with the remaining segments if the filter holds at the value.
    Filter(&'s Filter),
    /// Applies the segment and then the remaining segments, at the value and at each node below it.
    Descend(&'s Segment),
}

/// Returns whether the visit certainly selects no node of the value: a leaf has nothing below it.
#[inline(always)]
pub fn is_idle<T: Queryable>(action: Visit<'_>, value: WholeRef<'_, T>) -> bool
    ensures { IsTrue result → (constants : Constants) (d : Document) (l : Location) →
        visited_nodes constants action.entry d (record { location = l; tree = tree_of value.entry }) ≡ [] }
{
    match action {
        Visit::Descend(_) => value.is_leaf(),
        _ => false,
    }
}

/// Returns the units that a visit to a number of children costs: two for each child under a filter, else one.
#[inline(always)]
pub fn visit_cost(action: Visit<'_>, count: usize) -> usize {
    match action {
        Visit::Filter(_filter) => count.saturating_mul(2),
        _ => count,
    }
}

/// Returns what visits to a number of elements cost: the units spent before the first, and the units spent at each.
/// Where the walk may end at any node, each element is paid for when it is visited, because the others may never be
/// visited.
#[inline(always)]
pub fn element_costs<T: Queryable>(
    action: Visit<'_>,
    count: usize,
    sink: &Sink<'_, T>,
) -> (usize, usize) {
    if sink.may_end() {
        (0, visit_cost(action, 1))
    } else {
        (visit_cost(action, count), 0)
    }
}

/// Returns the visit that the segment makes at each child, if it does nothing else.
#[inline(always)]
pub fn of_each_child(segment: &Segment) -> Option<Visit<'_>>
    ensures { (constants : Constants) → IfSome result (GoesToEachChild constants (segment_view constants segment.now)) }
{
    match segment {
        Segment::Selector(selector) => match selector {
            Selector::Wildcard => Some(Visit::Continue),
            Selector::Filter(filter) => Some(Visit::Filter(filter)),
            _ => None,
        },
        _ => None,
    }
}

impl<'a: 's, 's, T: Queryable> WalkContext<'a, 's, T> {
    /// Passes to the sink the nodes that the segments select from the current node. Returns whether the walk goes on.
    /// Where no segment is left, the node is passed here, without another call.
    #[cycle(walk)]
    #[inline(always)]
    pub fn walk(
        &self,
        segments: &'s [Segment],
        at: WholeRef<'a, T>,
        state: &mut WalkState<'a, 's, '_, T>,
        sink: &mut Sink<'a, T>,
    ) -> WalkResult<bool>
        requires { IsPositionedAt self.now at state.old }
        ensures outcome { FeedsInSync (sink.old, state.old.current_path) (sink.new, state.new.current_path)
            (at_current self.now state.old at.entry (selected_from (segments_meant (constants_of self.now) segments.now))) result }
        ensures comes { EndsProperly self.now state.old state.new (segments_patterns (segments_meant (constants_of self.now) segments.now)) result }
    {
        match segments.split_first() {
            None => {
                state
                    .budget
                    .spend_path(self.limit, sink, &state.current_path)?;
                sink.take(self.alloc, at, &mut state.current_path)
            }
            Some((next, rest)) => self.pass(Continuation { next, rest }, at, state, sink),
        }
    }

    /// Applies the first segment to the current node, and continues from each node that it selects.
    #[cycle(walk)]
    #[tactic(auto, using(crate::proofs::laws::selection::PlanEquations::plan_equations))]
    pub fn pass(
        &self,
        continuation: Continuation<'s, &'s Segment>,
        at: WholeRef<'a, T>,
        state: &mut WalkState<'a, 's, '_, T>,
        sink: &mut Sink<'a, T>,
    ) -> WalkResult<bool>
        requires { IsPositionedAt self.now at state.old }
        ensures outcome { FeedsInSync (sink.old, state.old.current_path) (sink.new, state.new.current_path)
            (continued_nodes self.now continuation.entry
            (at_current self.now state.old at.entry
            (replaced (segment_view (constants_of self.now) continuation.entry.next.now)))) result }
        ensures comes { EndsProperly self.now state.old state.new
            (segment_patterns (segment_view (constants_of self.now) continuation.entry.next.now) ++ rest_patterns self.now continuation.entry) result }
    {
        let rest = continuation.rest;
        match continuation.next {
            Segment::Selector(next) => self.pick(Continuation { next, rest }, at, state, sink),
            Segment::Selectors(selectors) => {
                let next = selectors.as_slice();
                self.pick_each(Continuation { next, rest }, at, state, sink)
            }
            Segment::Descendant(inner) => {
                let next = Visit::Descend(inner);
                self.act(Continuation { next, rest }, at, state, sink)
            }
        }
    }

    /// Continues from each child that the selectors pick, one selector after the other.
    #[cycle(walk)]
    fn pick_each(
        &self,
        continuation: Continuation<'s, &'s [Selector]>,
        at: WholeRef<'a, T>,
        state: &mut WalkState<'a, 's, '_, T>,
        sink: &mut Sink<'a, T>,
    ) -> WalkResult<bool>
        requires { IsPositionedAt self.now at state.old }
        ensures outcome { FeedsInSync (sink.old, state.old.current_path) (sink.new, state.new.current_path)
            (continued_nodes self.now continuation.entry
            (at_current self.now state.old at.entry
            (all_pick (selectors_meant (constants_of self.now) continuation.entry.next.now)))) result }
        ensures comes { EndsProperly self.now state.old state.new
            (selectors_patterns (selectors_meant (constants_of self.now) continuation.entry.next.now) ++ rest_patterns self.now continuation.entry) result }
    {
        state.budget.spend(self.limit, continuation.next.len())?;
        for selector in continuation.next {
            let one = Continuation {
                next: selector,
                rest: continuation.rest,
            };
            if !self.pick(one, at, state, sink)? {
                return Ok(false);
            }
        }
        Ok(true)
    }

    /// Continues from each child that the selector picks.
    #[cycle(walk)]
    #[tactic(auto, using(crate::proofs::laws::selection::PlanEquations::plan_equations))]
    #[inline(always)]
    fn pick(
        &self,
        continuation: Continuation<'s, &'s Selector>,
        at: WholeRef<'a, T>,
        state: &mut WalkState<'a, 's, '_, T>,
        sink: &mut Sink<'a, T>,
    ) -> WalkResult<bool>
        requires { IsPositionedAt self.now at state.old }
        ensures outcome { FeedsInSync (sink.old, state.old.current_path) (sink.new, state.new.current_path)
            (continued_nodes self.now continuation.entry
            (at_current self.now state.old at.entry
            (picks (selector_view (constants_of self.now) continuation.entry.next.now)))) result }
        ensures comes { EndsProperly self.now state.old state.new
            (selector_patterns (selector_view (constants_of self.now) continuation.entry.next.now) ++ rest_patterns self.now continuation.entry) result }
    {
        let rest = continuation.rest;
        let all = Continuation {
            next: Visit::Continue,
            rest,
        };
        match continuation.next {
            Selector::Name(name) => match at.member(name) {
                Some(value) => {
                    let step = StepRef::Name(name);
                    self.at_child(all, Child { step, value }, state, sink)
                }
                None => Ok(true),
            },
            Selector::Wildcard => self.each_child(all, at, state, sink),
            Selector::Index(index) => match at.element(*index) {
                Some((position, value)) => {
                    let step = StepRef::Index(position);
                    self.at_child(all, Child { step, value }, state, sink)
                }
                None => Ok(true),
            },
            Selector::Slice(start, end, step) => {
                let next = (*start, *end, *step);
                self.pick_slice(Continuation { next, rest }, at, state, sink)
            }
            Selector::Filter(filter) => {
                let next = Visit::Filter(filter);
                self.each_child(Continuation { next, rest }, at, state, sink)
            }
        }
    }

    /// Continues from each element that a slice of these bounds picks, in its order (RFC 9535, 2.3.4).
    #[cycle(walk)]
    fn pick_slice(
        &self,
        continuation: Continuation<'s, Bounds>,
        at: WholeRef<'a, T>,
        state: &mut WalkState<'a, 's, '_, T>,
        sink: &mut Sink<'a, T>,
    ) -> WalkResult<bool>
        requires { IsPositionedAt self.now at state.old }
        ensures outcome { FeedsInSync (sink.old, state.old.current_path) (sink.new, state.new.current_path)
            (continued_nodes self.now continuation.entry
            (sliced continuation.entry.next.0 continuation.entry.next.1 continuation.entry.next.2
            (node_at state.old at.entry))) result }
        ensures comes { EndsProperly self.now state.old state.new (rest_patterns self.now continuation.entry) result }
    {
        let Some(items) = at.elements() else {
            return Ok(true);
        };
        let (start, end, step) = continuation.next;
        let all = Continuation {
            next: Visit::Continue,
            rest: continuation.rest,
        };
        for position in slice_places(start, end, step, items.len()) {
            state.budget.spend(self.limit, 1)?;
            let step = StepRef::Index(position);
            let value = WholeRef {
                value: &items[position],
            };
            if !self.at_child(all, Child { step, value }, state, sink)? {
                return Ok(false);
            }
        }
        Ok(true)
    }
}

/// A child of the current node, and the step that leads to it.
#[derive(Clone, Copy)]
pub struct Child<'a, 's, T: Queryable> {
    pub step: StepRef<'s>,
    pub value: WholeRef<'a, T>,
}

/// An object, and its members in walk order.
#[derive(Drop)]
pub struct Members<'a, 'm, T: Queryable> {
    pub of: WholeRef<'a, T>,
    pub list: &'m [(&'a str, &'a T)],
}

impl<'a: 's, 's, T: Queryable> WalkContext<'a, 's, T> {
    /// Visits each child, in walk order.
    #[cycle(walk)]
    pub fn each_child(
        &self,
        continuation: Continuation<'s, Visit<'s>>,
        at: WholeRef<'a, T>,
        state: &mut WalkState<'a, 's, '_, T>,
        sink: &mut Sink<'a, T>,
    ) -> WalkResult<bool>
        requires { IsPositionedAt self.now at state.old }
        ensures outcome { FeedsInSync (sink.old, state.old.current_path) (sink.new, state.new.current_path)
            (continued_nodes self.now continuation.entry
            (flat_map (visited_nodes (constants_of self.now) continuation.entry.next (document self.now))
            (children (node_at state.old at.entry)))) result }
        ensures comes { EndsProperly self.now state.old state.new
            (visit_patterns (constants_of self.now) continuation.entry.next ++ rest_patterns self.now continuation.entry) result }
    {
        if let Some(items) = at.elements() {
            let (all, each) = element_costs(continuation.next, items.len(), sink);
            state.budget.spend(self.limit, all)?;
            for (i, value) in items.iter().enumerate() {
                state.budget.spend_some(self.limit, each)?;
                let step = StepRef::Index(i);
                let value = WholeRef { value };
                if !self.at_child(continuation, Child { step, value }, state, sink)? {
                    return Ok(false);
                }
            }
        } else if let Some(listed) = at.members(self.alloc)? {
            let members = Members {
                of: at,
                list: &listed,
            };
            return self.each_member(continuation, &members, state, sink);
        }
        Ok(true)
    }

    /// Visits each member, in walk order.
    #[cycle(walk)]
    fn each_member(
        &self,
        continuation: Continuation<'s, Visit<'s>>,
        members: &Members<'a, '_, T>,
        state: &mut WalkState<'a, 's, '_, T>,
        sink: &mut Sink<'a, T>,
    ) -> WalkResult<bool>
        requires stands { IsPositionedAt self.now members.now.of state.old }
        requires listed { AreMembers members.now }
        ensures outcome { FeedsInSync (sink.old, state.old.current_path) (sink.new, state.new.current_path)
            (continued_nodes self.now continuation.entry
            (flat_map (visited_nodes (constants_of self.now) continuation.entry.next (document self.now))
            (children (node_at state.old members.now.of)))) result }
        ensures comes { EndsProperly self.now state.old state.new
            (visit_patterns (constants_of self.now) continuation.entry.next ++ rest_patterns self.now continuation.entry) result }
    {
        let cost = visit_cost(continuation.next, members.list.len());
        state.budget.spend(self.limit, cost)?;
        for member in members.list {
            let step = StepRef::Name(member.0);
            let value = WholeRef { value: member.1 };
            if !self.at_child(continuation, Child { step, value }, state, sink)? {
                return Ok(false);
            }
        }
        Ok(true)
    }

    /// Visits a child, one step below the current node.
    #[cycle(walk)]
    #[inline(always)]
    pub fn at_child(
        &self,
        continuation: Continuation<'s, Visit<'s>>,
        child: Child<'a, 's, T>,
        state: &mut WalkState<'a, 's, '_, T>,
        sink: &mut Sink<'a, T>,
    ) -> WalkResult<bool>
        requires { IsPositioned self.now child.value (state.old.current_path.steps.items ++ child.step ∷ []) state.old.cache }
        ensures outcome { FeedsInSync (sink.old, state.old.current_path) (sink.new, state.new.current_path)
            (continued_nodes self.now continuation.entry
            (visited_nodes (constants_of self.now) continuation.entry.next (document self.now)
            (below (lent_location state.old.current_path.steps.items) (lent_step child.entry.step)
            (tree_of child.entry.value)))) result }
        ensures comes { EndsProperly self.now state.old state.new
            (visit_patterns (constants_of self.now) continuation.entry.next ++ rest_patterns self.now continuation.entry) result }
    {
        if is_idle(continuation.next, child.value) {
            return Ok(true);
        }
        state.current_path.push(child.step)?;
        let goes_on = self.act(continuation, child.value, state, sink)?;
        state.current_path.pop();
        Ok(goes_on)
    }

    /// Visits the current node, and continues from each node that the visit selects.
    #[cycle(walk)]
    #[inline(always)]
    pub fn act(
        &self,
        continuation: Continuation<'s, Visit<'s>>,
        at: WholeRef<'a, T>,
        state: &mut WalkState<'a, 's, '_, T>,
        sink: &mut Sink<'a, T>,
    ) -> WalkResult<bool>
        requires { IsPositionedAt self.now at state.old }
        ensures outcome { FeedsInSync (sink.old, state.old.current_path) (sink.new, state.new.current_path)
            (continued_nodes self.now continuation.entry (at_current self.now state.old at.entry (visited_nodes (constants_of self.now) continuation.entry.next))) result }
        ensures comes { EndsProperly self.now state.old state.new
            (visit_patterns (constants_of self.now) continuation.entry.next ++ rest_patterns self.now continuation.entry) result }
    {
        let rest = continuation.rest;
        match continuation.next {
            Visit::Continue => self.walk(rest, at, state, sink),
            Visit::Filter(filter) => {
                // The walk of a filter shares no further step. This call shows that to the prover.
                let shared_len = state.current_path.shared_len;
                let holds = self.is_met(filter, at, state)?;
                state.current_path.limit_shared(shared_len);
                if holds {
                    self.walk(rest, at, state, sink)
                } else {
                    Ok(true)
                }
            }
            Visit::Descend(next) => self.descend(Continuation { next, rest }, at, state, sink),
        }
    }

    /// Applies the segment and then the remaining segments, to the current node and to each node below it. Where the
    /// segment goes to each child, the members of an object are listed once for both.
    #[cycle(walk)]
    fn descend(
        &self,
        continuation: Continuation<'s, &'s Segment>,
        at: WholeRef<'a, T>,
        state: &mut WalkState<'a, 's, '_, T>,
        sink: &mut Sink<'a, T>,
    ) -> WalkResult<bool>
        requires { IsPositionedAt self.now at state.old }
        ensures outcome { FeedsInSync (sink.old, state.old.current_path) (sink.new, state.new.current_path)
            (continued_nodes self.now continuation.entry
            (flat_map (replaced (segment_view (constants_of self.now) continuation.entry.next.now)
            (document self.now)) (subtree (node_at state.old at.entry)))) result }
        ensures comes { EndsProperly self.now state.old state.new
            (segment_patterns (segment_view (constants_of self.now) continuation.entry.next.now) ++ rest_patterns self.now continuation.entry) result }
    {
        let rest = continuation.rest;
        let further = Continuation {
            next: Visit::Descend(continuation.next),
            rest,
        };
        if let Some(next) = of_each_child(continuation.next) {
            if let Some(listed) = at.members(self.alloc)? {
                let members = Members {
                    of: at,
                    list: &listed,
                };
                if !self.each_member(Continuation { next, rest }, &members, state, sink)? {
                    return Ok(false);
                }
                return self.each_member(further, &members, state, sink);
            }
        }
        if !self.pass(continuation, at, state, sink)? {
            return Ok(false);
        }
        self.each_child(further, at, state, sink)
    }
}
