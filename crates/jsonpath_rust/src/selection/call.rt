//! Function calls and the values of expressions (RFC 9535, 2.4).
//!
//! This file evaluates calls, their arguments, and the expressions of a plan. It also says what is spent for them.
ghost use Rattle.jsonpath_base.specs.Prelude.Documents.{IsPattern, all_trees, answer, argued, argument_patterns, arguments_patterns, as_trees, as_value, call_patterns, is_entire, is_matched, of_nodes, segments_patterns, truth};
ghost use Rattle.jsonpath_rust.specs.Prelude.Documents.{Memory, arg_trees, filter_value_tree};
ghost use Rattle.jsonpath_rust.specs.Prelude.Selection.{EndsProperly, IsOne, IsPositionedAt, IsWalkError, Limited, ResultView, Single, Values, arguments_meant, at_current, call_view, constants_of, demanded_value, document, expr_view, result_for, result_view, segments_meant, selected_from, slot_at, slots_of, trees_in};
ghost use Rattle.std.specs.Prelude.{IfErr, IfOk, OnOk, Some, [], length, option_to_list, string_bytes, ◌++◌, ◌+◌, ◌∷◌, ◌≡◌};

use crate::documents::args::Args;
use crate::documents::filter_value::{
    FilterValue, FilterValueRef, Scalar, count_scalar, scalar_of,
};
use crate::documents::queryable::Queryable;
use crate::documents::walk_error::WalkResult;
use crate::documents::whole::{Whole, WholeRef};
use crate::selection::constants::{Cache, CachedResult};
use crate::selection::filter::lookup_in;
use crate::selection::limits::Budget;
use crate::selection::plan::{Call, Expr, Segment};
use crate::selection::sink::{Demand, Sink};
use crate::selection::walk::{WalkContext, WalkState};
use jsonpath_base::MatchKind;
use jsonpath_base::engine::{Origin, PatternCache, PatternKey};
use std::alloc::Global;

/// The two arguments of `match` or `search`.
#[derive(Clone, Copy)]
struct PatternOperands<'s> {
    text: &'s Expr,
    pattern: &'s Expr,
}

impl<'a: 's, 's, T: Queryable> WalkContext<'a, 's, T> {
    /// Returns what a call returns at the current node.
    #[cycle(walk)]
    #[tactic(auto, using(crate::proofs::laws::selection::PlanEquations::plan_equations))]
    pub fn answer(
        &self,
        call: &'s Call,
        at: WholeRef<'a, T>,
        state: &mut WalkState<'a, 's, '_, T>,
    ) -> WalkResult<FilterValue<'a, 's, T>>
        requires { IsPositionedAt self.now at state.old }
        ensures value { IfOk result (λ o. filter_value_tree o
            ≡ at_current self.now state.old at.entry (answer (call_view (constants_of self.now) call.now))) }
        ensures comes { EndsProperly self.now state.old state.new (call_patterns (call_view (constants_of self.now) call.now)) result }
    {
        match call {
            Call::Custom(name, args) => self.custom(name, args, at, state),
            Call::Length(arg) => {
                let value = self.value(arg, Demand::Single, at, state)?;
                let cost = self.limit.length_cost(self.alloc, &value.as_side())?;
                state.budget.spend(self.limit, cost)?;
                value.length(self.alloc)
            }
            Call::Value(arg) => {
                if self.plan.is_query(arg, Demand::Single) {
                    self.value(arg, Demand::Single, at, state)
                } else {
                    Ok(FilterValue::Ref(FilterValueRef::Absent))
                }
            }
            Call::Count(arg) => {
                if self.plan.is_query(arg, Demand::Count) {
                    self.value(arg, Demand::Count, at, state)
                } else {
                    Ok(FilterValue::Ref(FilterValueRef::Plain(count_scalar(0))))
                }
            }
            Call::Search(text, pattern) => {
                self.match_or_search(
                    PatternOperands { text, pattern },
                    MatchKind::Partial,
                    at,
                    state,
                )
            }
            Call::Match(text, pattern) => {
                self.match_or_search(
                    PatternOperands { text, pattern },
                    MatchKind::Full,
                    at,
                    state,
                )
            }
        }
    }

    /// Returns whether the text matches the pattern: all of it for `match`, a substring of it for `search` (RFC 9535,
    /// 2.4.6 and 2.4.7).
    #[cycle(walk)]
    fn match_or_search(
        &self,
        operands: PatternOperands<'s>,
        extent: MatchKind,
        at: WholeRef<'a, T>,
        state: &mut WalkState<'a, 's, '_, T>,
    ) -> WalkResult<FilterValue<'a, 's, T>>
        requires { IsPositionedAt self.now at state.old }
        ensures value { IfOk result (λ o. filter_value_tree o ≡ Some (truth (is_matched (is_entire extent)
            (as_value (at_current self.now state.old at.entry (argued (expr_view (constants_of self.now) operands.entry.text.now Single))))
            (as_value (at_current self.now state.old at.entry (argued (expr_view (constants_of self.now) operands.entry.pattern.now Single))))))) }
        ensures comes { EndsProperly self.now state.old state.new
            ((is_entire extent, expr_view (constants_of self.now) operands.entry.pattern.now Single)
            ∷ (argument_patterns (expr_view (constants_of self.now) operands.entry.text.now Single)
            ++ argument_patterns (expr_view (constants_of self.now) operands.entry.pattern.now Single))) result }
    {
        let origin = origin_of(operands.pattern);
        let text = self.operand(operands.text, at, state)?;
        let pattern = self.operand(operands.pattern, at, state)?;
        let how = (extent, origin);
        let cost = self
            .limit
            .search_cost(self.alloc, &state.finders, (&text, &pattern), how)?;
        state.budget.spend(self.limit, cost)?;
        let finders = &mut state.finders;
        let found = is_matched(self.alloc, finders, (&text, &pattern), extent, origin)?;
        Ok(FilterValue::Ref(FilterValueRef::Plain(Scalar::Truth(found))))
    }

    /// Returns what a custom function returns.
    #[cycle(walk)]
    fn custom(
        &self,
        name: &'s String,
        args: &'s [Expr],
        at: WholeRef<'a, T>,
        state: &mut WalkState<'a, 's, '_, T>,
    ) -> WalkResult<FilterValue<'a, 's, T>>
        requires { IsPositionedAt self.now at state.old }
        ensures value { IfOk result (λ o. filter_value_tree o
            ≡ Some ((document self.now).custom (string_bytes name.now)
            (at_current self.now state.old at.entry (all_trees (arguments_meant
            (constants_of self.now) args.now))))) }
        ensures comes { EndsProperly self.now state.old state.new (arguments_patterns (arguments_meant (constants_of self.now) args.now)) result }
    {
        let mut values = Args::new(self.alloc);
        for arg in args {
            self.push(arg, at, state, &mut values)?;
        }
        let most = state.budget.remaining().saturating_add(1);
        let cost = self.limit.custom_cost(self.alloc, &values, most)?;
        state.budget.spend(self.limit, cost)?;
        let value = T::extension_custom(self.alloc, name, &values.list)?;
        Ok(FilterValue::Owned(Whole { value }))
    }
}

/// Returns where a pattern is from: the query, if the argument has a number, else the document.
#[inline(always)]
fn origin_of(arg: &Expr) -> Origin {
    match arg {
        Expr::Pattern(_text, number) => Origin::Query(*number),
        _ => Origin::Document,
    }
}

/// Returns whether a text matches a pattern; false unless both are texts. It fails where the pattern is too large, and
/// where memory runs out.
fn is_matched<T: Queryable>(
    alloc: Global,
    finders: &mut PatternCache<'_, '_>,
    sides: (&FilterValue<'_, '_, T>, &FilterValue<'_, '_, T>),
    extent: MatchKind,
    origin: Origin,
) -> WalkResult<bool>
    ensures value { IfOk result (λ b. b ≡ is_matched (is_entire extent) (filter_value_tree sides.entry.0.now) (filter_value_tree sides.entry.1.now)) }
    ensures refused { IfErr result (λ h. (h ≡ Memory → ⊥) → IsPattern (is_entire extent) (filter_value_tree sides.entry.1.now)) }
{
    let (text, pattern) = (sides.0.as_side(), sides.1.as_side());
    let (Some(text), Some(pattern)) = (text.as_text(), pattern.as_text()) else {
        return Ok(false);
    };
    let asked = PatternKey { pattern, extent };
    Ok(finders.is_found(alloc, text, asked, origin)?)
}

impl<'a: 's, 's, T: Queryable> WalkContext<'a, 's, T> {
    /// Adds a value, unless it is absent. It costs one unit.
    pub fn push_value(
        &self,
        value: FilterValue<'a, 's, T>,
        budget: &mut Budget,
        args: &mut Args<'a, T>,
    ) -> WalkResult<()>
        ensures value { OnOk result (arg_trees args.new ≡ arg_trees args.old ++ option_to_list (filter_value_tree value.entry)) }
        ensures paid { OnOk result (self.now.limit ≡ Limited →
            budget.new.remaining + length (option_to_list (filter_value_tree value.entry)) ≡ budget.old.remaining) }
        ensures halts { IfErr result (IsWalkError self.now.limit [] (document self.now)) }
    {
        budget.spend(self.limit, value.count())?;
        value.push_to(self.alloc, args)
    }

    /// Adds the values of a result. Each costs one unit.
    pub fn push_given(
        &self,
        given: &CachedResult<'a, 's, T>,
        budget: &mut Budget,
        args: &mut Args<'a, T>,
    ) -> WalkResult<()>
        ensures value { OnOk result (arg_trees args.new ≡ arg_trees args.old ++ trees_in (result_view given.now)) }
        ensures paid { OnOk result (self.now.limit ≡ Limited →
            budget.new.remaining + length (trees_in (result_view given.now)) ≡ budget.old.remaining) }
        ensures halts { IfErr result (IsWalkError self.now.limit [] (document self.now)) }
    {
        budget.spend(self.limit, given.count())?;
        given.push_to(self.alloc, args)
    }

    /// Adds the cached result of the constant of this number, if there is one. It costs a unit for each value, and what
    /// a copy costs.
    pub fn push_cached(
        &self,
        number: usize,
        cache: &Cache<'a, 's, T>,
        budget: &mut Budget,
        args: &mut Args<'a, T>,
    ) -> WalkResult<()>
        ensures value { (g : ResultView) → slot_at (slots_of cache.now) number ≡ Some g →
            OnOk result (arg_trees args.new ≡ arg_trees args.old ++ trees_in g) }
        ensures halts { IfErr result (IsWalkError self.now.limit [] (document self.now)) }
    {
        match cache.get(number) {
            Some(given) => {
                self.pay_copy(given, budget)?;
                self.push_given(given, budget, args)
            }
            None => Ok(()),
        }
    }

    /// Pays for a copy of a cached result, if that is a value that a custom function made.
    pub fn pay_copy(&self, given: &CachedResult<'a, 's, T>, budget: &mut Budget) -> WalkResult<()>
        ensures halts { IfErr result (IsWalkError self.now.limit [] (document self.now)) }
    {
        if let CachedResult::Value(FilterValue::Owned(made)) = given {
            let most = budget.remaining().saturating_add(1);
            let cost = self.limit.copy_cost(self.alloc, made.as_ref(), most)?;
            budget.spend(self.limit, cost)?;
        }
        Ok(())
    }
}

impl<'a: 's, 's, T: Queryable> WalkContext<'a, 's, T> {
    /// Returns what is demanded of an expression at the current node. For an expression that is not a query that is its
    /// value.
    #[cycle(walk)]
    #[tactic(auto, using(crate::proofs::laws::selection::PlanEquations::plan_equations))]
    #[inline(never)]
    pub fn value(
        &self,
        part: &'s Expr,
        demand: Demand,
        at: WholeRef<'a, T>,
        state: &mut WalkState<'a, 's, '_, T>,
    ) -> WalkResult<FilterValue<'a, 's, T>>
        requires { IsPositionedAt self.now at state.old }
        ensures value { IfOk result (λ o. filter_value_tree o
            ≡ demanded_value demand (at_current self.now state.old at.entry (argued (expr_view (constants_of self.now) part.now demand)))) }
        ensures comes { EndsProperly self.now state.old state.new (argument_patterns (expr_view (constants_of self.now) part.now demand)) result }
    {
        match part {
            Expr::Literal(literal) => Ok(FilterValue::Ref(FilterValueRef::Plain(scalar_of(
                literal,
            )))),
            Expr::Pattern(text, _number) => Ok(FilterValue::Ref(FilterValueRef::Plain(Scalar::Text(
                text,
            )))),
            Expr::Lookup(steps) => {
                let found = self.look_up(steps, at, &mut state.budget)?;
                Ok(demand.of(found))
            }
            Expr::Children(steps) => {
                let count = self.count_children(steps, at, &mut state.budget)?;
                Ok(demand.of_count(count))
            }
            Expr::Walk(segments) => {
                let given = self.gather(segments, demand, at, state)?;
                Ok(given.into_value())
            }
            Expr::Call(call) => self.answer(call, at, state),
            Expr::Filter(filter) => {
                let truth = self.filter_holds(filter, at, state)?;
                Ok(FilterValue::Ref(FilterValueRef::Plain(Scalar::Truth(truth))))
            }
            Expr::Constant(number) => {
                if self.ensure_cached(*number, demand, state)? {
                    self.cached_value(*number, &state.cache, &mut state.budget)
                } else {
                    Ok(demand.of(Some(self.root)))
                }
            }
        }
    }

    /// Returns the value of an argument; a look-up is done here, without another call.
    #[cycle(walk)]
    #[inline(always)]
    pub fn operand(
        &self,
        part: &'s Expr,
        at: WholeRef<'a, T>,
        state: &mut WalkState<'a, 's, '_, T>,
    ) -> WalkResult<FilterValue<'a, 's, T>>
        requires { IsPositionedAt self.now at state.old }
        ensures value { IfOk result (λ o. filter_value_tree o
            ≡ as_value (at_current self.now state.old at.entry (argued (expr_view (constants_of self.now) part.now Single)))) }
        ensures comes { EndsProperly self.now state.old state.new (argument_patterns (expr_view (constants_of self.now) part.now Single)) result }
    {
        if let Some(steps) = lookup_in(part) {
            let found = self.look_up(steps, at, &mut state.budget)?;
            return Ok(FilterValue::from_ref(found));
        }
        self.value(part, Demand::Single, at, state)
    }

    /// Adds the values of an expression to the arguments of a custom function. A query adds the value of each of its
    /// nodes, as in the Rust crate. Any other expression adds its value, unless that is absent. Each value costs one
    /// unit.
    #[cycle(walk)]
    #[tactic(auto, using(crate::proofs::laws::selection::PlanEquations::plan_equations))]
    pub fn push(
        &self,
        part: &'s Expr,
        at: WholeRef<'a, T>,
        state: &mut WalkState<'a, 's, '_, T>,
        args: &mut Args<'a, T>,
    ) -> WalkResult<()>
        requires { IsPositionedAt self.now at state.old }
        ensures value { OnOk result (arg_trees args.new ≡ arg_trees args.old
            ++ as_trees (at_current self.now state.old at.entry (argued (expr_view
            (constants_of self.now) part.now Values)))) }
        ensures comes { EndsProperly self.now state.old state.new (argument_patterns (expr_view (constants_of self.now) part.now Values)) result }
    {
        match part {
            Expr::Walk(segments) => {
                let given = self.gather(segments, Demand::Values, at, state)?;
                self.push_given(&given, &mut state.budget, args)
            }
            Expr::Constant(number) => {
                if self.ensure_cached(*number, Demand::Values, state)? {
                    self.push_cached(*number, &state.cache, &mut state.budget, args)
                } else {
                    state.budget.spend(self.limit, 1)?;
                    Ok(args.push_lent(self.root)?)
                }
            }
            Expr::Literal(_literal) => self.push_one(part, at, state, args),
            Expr::Pattern(_text, _number) => self.push_one(part, at, state, args),
            Expr::Lookup(_steps) => self.push_one(part, at, state, args),
            Expr::Children(_steps) => self.push_one(part, at, state, args),
            Expr::Call(_call) => self.push_one(part, at, state, args),
            Expr::Filter(_filter) => self.push_one(part, at, state, args),
        }
    }

    /// Adds the value of an expression that has at most one.
    #[cycle(walk)]
    fn push_one(
        &self,
        part: &'s Expr,
        at: WholeRef<'a, T>,
        state: &mut WalkState<'a, 's, '_, T>,
        args: &mut Args<'a, T>,
    ) -> WalkResult<()>
        requires stands { IsPositionedAt self.now at state.old }
        requires one { IsOne (constants_of self.now) part.now }
        ensures value { OnOk result (arg_trees args.new ≡ arg_trees args.old
            ++ as_trees (at_current self.now state.old at.entry (argued (expr_view
            (constants_of self.now) part.now Values)))) }
        ensures comes { EndsProperly self.now state.old state.new (argument_patterns (expr_view (constants_of self.now) part.now Values)) result }
    {
        let value = self.value(part, Demand::Single, at, state)?;
        self.push_value(value, &mut state.budget, args)
    }

    /// Returns what is demanded of the nodes that these segments select from a value.
    #[cycle(walk)]
    pub fn gather(
        &self,
        segments: &'s [Segment],
        demand: Demand,
        at: WholeRef<'a, T>,
        state: &mut WalkState<'a, 's, '_, T>,
    ) -> WalkResult<CachedResult<'a, 's, T>>
        requires { IsPositionedAt self.now at state.old }
        ensures given { IfOk result (λ g. result_view g
            ≡ result_for demand (of_nodes (at_current self.now state.old at.entry (selected_from (segments_meant
            (constants_of self.now) segments.now))))) }
        ensures comes { EndsProperly self.now state.old state.new (segments_patterns (segments_meant (constants_of self.now) segments.now)) result }
    {
        let mut sink = Sink::start(self.alloc, demand);
        let _goes_on = self.walk(segments, at, state, &mut sink)?;
        Ok(sink.finish(demand))
    }
}
