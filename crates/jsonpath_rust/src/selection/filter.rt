//! Filters: whether they hold at the current node (RFC 9535, 2.3.5).
//!
//! This file evaluates logical expressions, tests and comparisons. A comparison whose sides can be borrowed is
//! evaluated without a walk. For that the file holds the look-ups by names and indexes, the counts of children, and the
//! function calls that need no walk (`is_direct`).
ghost use Rattle.jsonpath_base.specs.Prelude.Documents.{Document, Node, answer, argued, argument_patterns, as_truth, children, compares, each_holds, filter_patterns, filters_patterns, holds, operator_view, relative, root_node, some_holds, step_view, stepped, test_argument, value_at, value_of};
ghost use Rattle.jsonpath_base.specs.documents.Functions as functions;
ghost use Rattle.jsonpath_base.specs.documents.inner.Singular as singular;
ghost use Rattle.jsonpath_rust.specs.Prelude.Documents.{filter_ref_tree, tree_of};
ghost use Rattle.jsonpath_rust.specs.Prelude.Selection.{Constants, Count, Demand, EndsProperly, Exists, IsCacheCorrect, IsPositionedAt, IsWalkError, Limited, Single, argument_at, at_current, call_view, children_query, constants_of, document, expr_view, filter_view, filters_meant, selected_from, steps_query};
ghost use Rattle.std.specs.Prelude.{IfErr, IfOk, IfSome, Some, [], length, map, option_map, ◌++◌, ◌+◌, ◌/◌, ◌≡◌};

use crate::documents::comparison::compares;
use crate::documents::filter_value::{FilterValueRef, Scalar, count_scalar, length_of, scalar_of};
use crate::documents::queryable::Queryable;
use crate::documents::walk_error::WalkResult;
use crate::documents::whole::WholeRef;
use crate::selection::constants::{Cache, CachedResult};
use crate::selection::limits::Budget;
use crate::selection::plan::{Call, Comparison, Expr, Filter};
use crate::selection::sink::Demand;
use crate::selection::walk::{WalkContext, WalkState};
use jsonpath_parser::model::{Operator, SingularQuerySegment};

impl<'a: 's, 's, T: Queryable> WalkContext<'a, 's, T> {
    /// Returns whether a filter holds at the current node. A comparison is evaluated at once, without a call of
    /// `filter_holds`.
    #[cycle(walk)]
    #[tactic(auto, using(crate::proofs::laws::selection::PlanEquations::plan_equations))]
    #[inline(always)]
    pub fn is_met(
        &self,
        filter: &'s Filter,
        at: WholeRef<'a, T>,
        state: &mut WalkState<'a, 's, '_, T>,
    ) -> WalkResult<bool>
        requires { IsPositionedAt self.now at state.old }
        ensures holds { IfOk result (λ b. b ≡ at_current self.now state.old at.entry (holds (filter_view (constants_of self.now) filter.now))) }
        ensures comes { EndsProperly self.now state.old state.new (filter_patterns (filter_view (constants_of self.now) filter.now)) result }
    {
        if let Filter::Comparison(operator, left, right) = filter {
            return self.comparison_holds(
                Comparison {
                    operator: *operator,
                    left,
                    right,
                },
                at,
                state,
            );
        }
        self.filter_holds(filter, at, state)
    }

    /// Returns whether a filter holds at the current node. `is_met` is faster for a comparison.
    #[cycle(walk)]
    #[tactic(auto, using(crate::proofs::laws::selection::PlanEquations::plan_equations))]
    pub fn filter_holds(
        &self,
        filter: &'s Filter,
        at: WholeRef<'a, T>,
        state: &mut WalkState<'a, 's, '_, T>,
    ) -> WalkResult<bool>
        requires { IsPositionedAt self.now at state.old }
        ensures holds { IfOk result (λ b. b ≡ at_current self.now state.old at.entry (holds (filter_view (constants_of self.now) filter.now))) }
        ensures comes { EndsProperly self.now state.old state.new (filter_patterns (filter_view (constants_of self.now) filter.now)) result }
    {
        match filter {
            Filter::Or(parts) => self.some_holds(parts, at, state),
            Filter::And(parts) => self.each_holds(parts, at, state),
            Filter::Group { expr, not } => Ok(self.filter_holds(expr, at, state)? != *not),
            Filter::Test { part, not } => Ok(self.tests_true(part, at, state)? != *not),
            Filter::Comparison(operator, left, right) => {
                self.comparison_holds(
                    Comparison {
                        operator: *operator,
                        left,
                        right,
                    },
                    at,
                    state,
                )
            }
            Filter::Constant(number) => {
                if self.ensure_cached(*number, Demand::Exists, state)? {
                    Ok(state.cache.is_true(*number))
                } else {
                    Ok(true)
                }
            }
        }
    }

    /// Returns whether some operand of `||` holds.
    #[cycle(walk)]
    fn some_holds(
        &self,
        parts: &'s [Filter],
        at: WholeRef<'a, T>,
        state: &mut WalkState<'a, 's, '_, T>,
    ) -> WalkResult<bool>
        requires { IsPositionedAt self.now at state.old }
        ensures holds { IfOk result (λ b. b ≡ at_current self.now state.old at.entry (some_holds (filters_meant (constants_of self.now) parts.now))) }
        ensures comes { EndsProperly self.now state.old state.new (filters_patterns (filters_meant (constants_of self.now) parts.now)) result }
    {
        state.budget.spend(self.limit, parts.len())?;
        for part in parts {
            if self.filter_holds(part, at, state)? {
                return Ok(true);
            }
        }
        Ok(false)
    }

    /// Returns whether every operand of `&&` holds.
    #[cycle(walk)]
    fn each_holds(
        &self,
        parts: &'s [Filter],
        at: WholeRef<'a, T>,
        state: &mut WalkState<'a, 's, '_, T>,
    ) -> WalkResult<bool>
        requires { IsPositionedAt self.now at state.old }
        ensures holds { IfOk result (λ b. b ≡ at_current self.now state.old at.entry (each_holds (filters_meant (constants_of self.now) parts.now))) }
        ensures comes { EndsProperly self.now state.old state.new (filters_patterns (filters_meant (constants_of self.now) parts.now)) result }
    {
        state.budget.spend(self.limit, parts.len())?;
        for part in parts {
            if !self.filter_holds(part, at, state)? {
                return Ok(false);
            }
        }
        Ok(true)
    }

    /// Returns whether a test holds: its query has a node (RFC 9535, 2.3.5.2.1), or its call returns true. A query of
    /// names and indexes is looked up without an allocation.
    #[cycle(walk)]
    #[tactic(auto, using(crate::proofs::laws::selection::PlanEquations::plan_equations))]
    #[inline(always)]
    fn tests_true(
        &self,
        part: &'s Expr,
        at: WholeRef<'a, T>,
        state: &mut WalkState<'a, 's, '_, T>,
    ) -> WalkResult<bool>
        requires { IsPositionedAt self.now at state.old }
        ensures holds { IfOk result (λ b. b
            ≡ as_truth (at_current self.now state.old at.entry (argued (expr_view (constants_of self.now) part.now Exists)))) }
        ensures comes { EndsProperly self.now state.old state.new (argument_patterns (expr_view (constants_of self.now) part.now Exists)) result }
    {
        match part {
            Expr::Lookup(steps) => {
                let found = self.look_up(steps, at, &mut state.budget)?;
                Ok(found.is_some())
            }
            Expr::Children(steps) => {
                let count = self.count_children(steps, at, &mut state.budget)?;
                Ok(count > 0)
            }
            Expr::Walk(segments) => {
                let given = self.gather(segments, Demand::Exists, at, state)?;
                Ok(given.into_value().is_true())
            }
            Expr::Call(call) => Ok(self.answer(call, at, state)?.is_true()),
            _ => Ok(self.value(part, Demand::Exists, at, state)?.is_true()),
        }
    }

    /// Returns whether a comparison holds. Where both sides can be borrowed, they are compared in place, and nothing is
    /// allocated for them.
    #[cycle(walk)]
    pub fn comparison_holds(
        &self,
        comparison: Comparison<'s>,
        at: WholeRef<'a, T>,
        state: &mut WalkState<'a, 's, '_, T>,
    ) -> WalkResult<bool>
        requires { IsPositionedAt self.now at state.old }
        ensures holds { IfOk result (λ b. b ≡ compares (operator_view comparison.entry.operator)
            (at_current self.now state.old at.entry (value_of (expr_view (constants_of self.now) comparison.entry.left.now Single)))
            (at_current self.now state.old at.entry (value_of (expr_view (constants_of self.now) comparison.entry.right.now Single)))) }
        ensures comes { EndsProperly self.now state.old state.new
            (argument_patterns (expr_view (constants_of self.now) comparison.entry.left.now Single)
            ++ argument_patterns (expr_view (constants_of self.now) comparison.entry.right.now Single)) result }
    {
        if let Some(held) = self.compare_borrowed(
            comparison,
            at,
            &state.cache,
            &mut state.budget,
        )? {
            return Ok(held);
        }
        self.compare_evaluated(comparison, at, state)
    }

    /// Evaluates both sides, and returns whether the comparison holds.
    #[cycle(walk)]
    #[inline(never)]
    fn compare_evaluated(
        &self,
        comparison: Comparison<'s>,
        at: WholeRef<'a, T>,
        state: &mut WalkState<'a, 's, '_, T>,
    ) -> WalkResult<bool>
        requires { IsPositionedAt self.now at state.old }
        ensures holds { IfOk result (λ b. b ≡ compares (operator_view comparison.entry.operator)
            (at_current self.now state.old at.entry (value_of (expr_view (constants_of self.now) comparison.entry.left.now Single)))
            (at_current self.now state.old at.entry (value_of (expr_view (constants_of self.now) comparison.entry.right.now Single)))) }
        ensures comes { EndsProperly self.now state.old state.new
            (argument_patterns (expr_view (constants_of self.now) comparison.entry.left.now Single)
            ++ argument_patterns (expr_view (constants_of self.now) comparison.entry.right.now Single)) result }
    {
        let left = self.value(comparison.left, Demand::Single, at, state)?;
        let right = self.value(comparison.right, Demand::Single, at, state)?;
        let held = self.compare_charged(
            comparison.operator,
            left.as_side(),
            right.as_side(),
            &mut state.budget,
        )?;
        Ok(held)
    }
}

impl<'a: 's, 's, T: Queryable> WalkContext<'a, 's, T> {
    /// Returns whether a comparison holds at the current node, or None where a side cannot be borrowed.
    #[inline(always)]
    pub fn compare_borrowed(
        &self,
        comparison: Comparison<'s>,
        at: WholeRef<'a, T>,
        cache: &Cache<'a, 's, T>,
        budget: &mut Budget,
    ) -> WalkResult<Option<bool>>
        requires { IsCacheCorrect self.now cache.now }
        ensures holds { (n : Node) → n.tree ≡ tree_of at.entry →
            IfOk result (λ o. IfSome o (λ b. b ≡ compares (operator_view comparison.entry.operator)
            (value_of (expr_view (constants_of self.now) comparison.entry.left.now Single) (document self.now) n)
            (value_of (expr_view (constants_of self.now) comparison.entry.right.now Single) (document self.now) n))) }
        ensures halts { IfErr result (IsWalkError self.now.limit [] (document self.now)) }
    {
        // The right side is checked first, because that is free: the left side is paid for only where both can be
        // borrowed.
        if !is_at_hand(comparison.right, cache) {
            return Ok(None);
        }
        let Some(left) = self.borrowed_value(comparison.left, at, cache, budget)? else {
            return Ok(None);
        };
        let Some(right) = self.borrowed_value(comparison.right, at, cache, budget)? else {
            return Ok(None);
        };
        let held = self.compare_charged(comparison.operator, left, right, budget)?;
        Ok(Some(held))
    }

    /// Spends what the comparison costs, and returns whether the operator holds between the sides.
    #[inline(always)]
    pub fn compare_charged<'k>(
        &self,
        operator: Operator,
        left: FilterValueRef<'k, 's, T>,
        right: FilterValueRef<'k, 's, T>,
        budget: &mut Budget,
    ) -> WalkResult<bool>
        ensures holds { IfOk result (λ b. b ≡ compares (operator_view operator) (filter_ref_tree left.entry) (filter_ref_tree right.entry)) }
        ensures halts { IfErr result (IsWalkError self.now.limit [] (document self.now)) }
    {
        let most = budget.remaining().saturating_add(1);
        let cost = self
            .limit
            .comparison_cost(self.alloc, (&left, &right), most)?;
        budget.spend(self.limit, cost)?;
        Ok(compares(operator, &left, &right))
    }

    /// Returns the value of an expression, or None where it cannot be borrowed.
    #[inline(always)]
    fn borrowed_value<'k>(
        &self,
        part: &'s Expr,
        at: WholeRef<'k, T>,
        cache: &'k Cache<'a, 's, T>,
        budget: &mut Budget,
    ) -> WalkResult<Option<FilterValueRef<'k, 's, T>>>
        requires { IsCacheCorrect self.now cache.now }
        ensures value { (n : Node) → n.tree ≡ tree_of at.entry →
            IfOk result (λ o. IfSome o (λ s. filter_ref_tree s
            ≡ value_of (expr_view (constants_of self.now) part.now Single) (document self.now) n)) }
        ensures halts { IfErr result (IsWalkError self.now.limit [] (document self.now)) }
    {
        match part {
            Expr::Literal(literal) => Ok(Some(FilterValueRef::Plain(scalar_of(literal)))),
            Expr::Pattern(text, _number) => Ok(Some(FilterValueRef::Plain(Scalar::Text(text)))),
            Expr::Lookup(steps) => {
                let node = self.look_up(steps, at, budget)?;
                Ok(Some(FilterValueRef::from_ref(node)))
            }
            Expr::Call(call) => self.direct_answer(call, at, budget),
            Expr::Constant(number) => Ok(self.cached_ref(*number, cache)),
            _ => Ok(None),
        }
    }

    /// Returns the value of the constant of this number, or None where it is not cached yet.
    #[inline(always)]
    fn cached_ref<'k>(
        &self,
        number: usize,
        cache: &'k Cache<'a, 's, T>,
    ) -> Option<FilterValueRef<'k, 's, T>>
        requires { IsCacheCorrect self.now cache.now }
        ensures { (n : Node) → IfSome result (λ s. filter_ref_tree s ≡ value_of (argument_at (constants_of self.now) Single number) (document self.now) n) }
    {
        let _constant = self.plan.constant(number, Demand::Single)?;
        match cache.get(number) {
            Some(CachedResult::Value(value)) => Some(value.as_side()),
            _ => None,
        }
    }
}

/// Returns whether the value of an expression can be borrowed: a literal, a look-up, a cached constant, a direct call.
#[inline(always)]
fn is_at_hand<T: Queryable>(part: &Expr, cache: &Cache<'_, '_, T>) -> bool {
    match part {
        Expr::Literal(_) | Expr::Pattern(_, _) | Expr::Lookup(_) => true,
        Expr::Constant(number) => cache.get(*number).is_some(),
        Expr::Call(call) => is_direct(call),
        _ => false,
    }
}

/// The number of steps that a look-up takes for one unit.
const STEPS: usize = 16;

impl<'a: 's, 's, T: Queryable> WalkContext<'a, 's, T> {
    /// Returns the value that these steps lead to. It costs one unit for every 16 steps.
    #[inline(always)]
    pub fn look_up<'k>(
        &self,
        steps: &[SingularQuerySegment],
        at: WholeRef<'k, T>,
        budget: &mut Budget,
    ) -> WalkResult<Option<WholeRef<'k, T>>>
        ensures value { IfOk result (λ o. option_map tree_of o ≡ value_at (map step_view steps.now) (tree_of at.entry)) }
        ensures paid { IfOk result (λ o. self.now.limit ≡ Limited →
            budget.new.remaining + length steps.now / 16 ≡ budget.old.remaining) }
        ensures halts { IfErr result (IsWalkError self.now.limit [] (document self.now)) }
    {
        budget.spend_some(self.limit, steps.len() / STEPS)?;
        Ok(value_at(steps, at))
    }
}

/// Returns the value that these steps lead to.
fn value_at<'a, T: Queryable>(
    steps: &[SingularQuerySegment],
    at: WholeRef<'a, T>,
) -> Option<WholeRef<'a, T>>
    ensures { option_map tree_of result ≡ value_at (map step_view steps.now) (tree_of at.entry) }
{
    let (first, rest) = match steps.split_first() {
        Some((first, rest)) => (first, rest),
        None => return Some(at),
    };
    let child = stepped(first, at)?;
    if rest.is_empty() {
        return Some(child);
    }
    value_at(rest, child)
}

/// Returns the value that a step leads to.
#[inline(always)]
fn stepped<'a, T: Queryable>(
    step: &SingularQuerySegment,
    at: WholeRef<'a, T>,
) -> Option<WholeRef<'a, T>>
    ensures { option_map tree_of result ≡ stepped (step_view step.now) (tree_of at.entry) }
{
    match step {
        SingularQuerySegment::Name(name) => at.member(name),
        SingularQuerySegment::Index(index) => match at.element(*index) {
            Some((_position, child)) => Some(child),
            None => None,
        },
    }
}

impl<'a: 's, 's, T: Queryable> WalkContext<'a, 's, T> {
    /// Returns the number of children of the value that these steps lead to, or 0 where there is no such value. Each
    /// member of an object costs a unit, because the type may have to list them all.
    pub fn count_children(
        &self,
        steps: &[SingularQuerySegment],
        at: WholeRef<'_, T>,
        budget: &mut Budget,
    ) -> WalkResult<usize>
        ensures count { (d : Document) (n : Node) → n.tree ≡ tree_of at.entry →
            IfOk result (λ k. k ≡ length (selected_from (children_query (map step_view steps.now)) d n)) }
        ensures halts { IfErr result (IsWalkError self.now.limit [] (document self.now)) }
    {
        match self.look_up(steps, at, budget)? {
            Some(parent) => self.child_count(parent, budget),
            None => Ok(0),
        }
    }

    /// Returns the number of children of a value.
    fn child_count(&self, parent: WholeRef<'_, T>, budget: &mut Budget) -> WalkResult<usize>
        ensures count { IfOk result (λ k. k ≡ length (children (root_node (tree_of parent.entry)))) }
        ensures halts { IfErr result (IsWalkError self.now.limit [] (document self.now)) }
    {
        if let Some(items) = parent.elements() {
            return Ok(items.len());
        }
        match parent.member_count(self.alloc)? {
            Some(count) => {
                budget.spend(self.limit, count)?;
                Ok(count)
            }
            None => Ok(0),
        }
    }
}

impl<'a: 's, 's, T: Queryable> WalkContext<'a, 's, T> {
    /// Returns what a direct call returns ([`is_direct`]), or None for any other call.
    #[inline(always)]
    pub fn direct_answer<'k>(
        &self,
        call: &Call,
        at: WholeRef<'k, T>,
        budget: &mut Budget,
    ) -> WalkResult<Option<FilterValueRef<'k, 's, T>>>
        ensures value { (constants : Constants) (d : Document) (n : Node) → n.tree ≡ tree_of at.entry →
            IfOk result (λ o. IfSome o (λ s. filter_ref_tree s ≡ answer (call_view constants call.now) d n)) }
        ensures halts { IfErr result (IsWalkError self.now.limit [] (document self.now)) }
    {
        match call {
            Call::Length(arg) => match lookup_in(arg) {
                Some(steps) => Ok(Some(self.direct_length(steps, at, budget)?)),
                None => Ok(None),
            },
            Call::Value(arg) => match lookup_in(arg) {
                Some(steps) => {
                    let found = self.look_up(steps, at, budget)?;
                    Ok(Some(FilterValueRef::from_ref(found)))
                }
                None => Ok(None),
            },
            Call::Count(arg) => match children_in(arg) {
                Some(steps) => {
                    let count = self.count_children(steps, at, budget)?;
                    Ok(Some(FilterValueRef::Plain(count_scalar(count))))
                }
                None => Ok(None),
            },
            _ => Ok(None),
        }
    }

    /// Returns the length of the value that these steps lead to (RFC 9535, 2.4.4).
    #[inline(always)]
    fn direct_length<'k>(
        &self,
        steps: &[SingularQuerySegment],
        at: WholeRef<'_, T>,
        budget: &mut Budget,
    ) -> WalkResult<FilterValueRef<'k, 's, T>>
        ensures value { IfOk result (λ s. filter_ref_tree s
            ≡ functions.length_of (singular.value_at (map step_view steps.now) (tree_of at.entry))) }
        ensures halts { IfErr result (IsWalkError self.now.limit [] (document self.now)) }
    {
        match self.look_up(steps, at, budget)? {
            Some(value) => self.length_at(value, budget),
            None => Ok(FilterValueRef::Absent),
        }
    }

    /// Returns the length of a value (RFC 9535, 2.4.4).
    #[inline(always)]
    fn length_at<'k>(
        &self,
        value: WholeRef<'_, T>,
        budget: &mut Budget,
    ) -> WalkResult<FilterValueRef<'k, 's, T>>
        ensures value { IfOk result (λ s. filter_ref_tree s ≡ functions.length_of (Some (tree_of value.entry))) }
        ensures halts { IfErr result (IsWalkError self.now.limit [] (document self.now)) }
    {
        let cost = self
            .limit
            .length_cost(self.alloc, &FilterValueRef::Borrowed(value))?;
        budget.spend(self.limit, cost)?;
        match length_of(self.alloc, value)? {
            Some(length) => Ok(FilterValueRef::Plain(count_scalar(length))),
            None => Ok(FilterValueRef::Absent),
        }
    }
}

/// Returns whether a call is `length` or `value` of a node that is looked up, or `count` of the children of such a
/// node.
#[inline(always)]
pub fn is_direct(call: &Call) -> bool {
    match call {
        Call::Length(arg) => lookup_in(arg).is_some(),
        Call::Value(arg) => lookup_in(arg).is_some(),
        Call::Count(arg) => children_in(arg).is_some(),
        _ => false,
    }
}

/// Returns the steps of a look-up, or None for any other expression.
#[inline(always)]
pub fn lookup_in(part: &Expr) -> Option<&[SingularQuerySegment]>
    ensures { (constants : Constants) (w : Demand) →
        IfSome result (λ ss. expr_view constants part.now w
        ≡ test_argument (relative (steps_query (map step_view ss.now)))) }
{
    match part {
        Expr::Lookup(steps) => Some(steps),
        _ => None,
    }
}

/// Returns the steps to the value whose children are counted, or None for any other expression.
#[inline(always)]
fn children_in(part: &Expr) -> Option<&[SingularQuerySegment]>
    ensures { (constants : Constants) →
        IfSome result (λ ss. expr_view constants part.now Count
        ≡ test_argument (relative (children_query (map step_view ss.now)))) }
{
    match part {
        Expr::Children(steps) => Some(steps),
        _ => None,
    }
}
