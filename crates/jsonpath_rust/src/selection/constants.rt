//! The constants of a query: the parts of its filters that are evaluated once in a call.
//!
//! This file holds the cache of their results, their evaluation when they are first needed, and the evaluation of
//! queries from the root before the walk, which deep documents need.
ghost use Rattle.jsonpath_base.specs.Prelude.Documents.{Document, absolute, argument_patterns, is_true, no_segments, test_argument};
ghost use Rattle.jsonpath_rust.specs.Prelude.Documents.{Memory, arg_trees, filter_value_tree};
ghost use Rattle.jsonpath_rust.specs.Prelude.Selection.{AreEmpty, Constants, EndsProperly, IsCacheCorrect, IsCacheOf, IsGiven, IsPositionedAt, IsWalkError, WorkLimit, argument_at, constant_view, constants_of, document, fits, given_value, part_at, part_patterns, result_of, result_view, slot_at, slots_of, trees_in};
ghost use Rattle.std.specs.Prelude.{IfErr, IfOk, IsFalse, IsTrue, None, OnOk, Some, [], length, map, option_map, ◌++◌, ◌<◌, ◌≡◌};

use crate::documents::args::Args;
use crate::documents::depth::is_deeper;
use crate::documents::filter_value::{FilterValue, FilterValueRef, Scalar};
use crate::documents::nodes::WholeValues;
use crate::documents::queryable::Queryable;
use crate::documents::walk_error::{WalkError, WalkResult};
use crate::documents::whole::WholeRef;
use crate::selection::limits::{Budget, WorkLimit};
use crate::selection::plan::{Comparison, Constant, DOCUMENT_LEVELS, When};
use crate::selection::sink::Demand;
use crate::selection::walk::{WalkContext, WalkState};
use jsonpath_base::engine::CurrentPath;
use std::alloc::{AllocError, Global};
use std::mem;

/// The results of the constants, during one call.
#[derive(Drop)]
pub struct Cache<'a, 's, T: Queryable> {
    /// The result of each constant that has been evaluated, by its number.
    pub slots: Vec<Option<CachedResult<'a, 's, T>>>,
}

/// The result of a constant, or what was demanded of the nodes of a query.
#[derive(Drop)]
pub enum CachedResult<'a, 's, T: Queryable> {
    /// One value, or none.
    Value(FilterValue<'a, 's, T>),
    /// The values of all nodes.
    Values(WholeValues<'a, T>),
    /// No result, because a pattern is too large.
    Refused,
}

impl<'a, 's, T: Queryable> CachedResult<'a, 's, T> {
    /// Returns the value of the result; absent where it has none.
    #[inline(always)]
    pub fn into_value(self) -> FilterValue<'a, 's, T>
        ensures { filter_value_tree result ≡ given_value (Some (result_view self.entry)) }
    {
        match self {
            CachedResult::Value(value) => value,
            other => {
                drop(other);
                FilterValue::Ref(FilterValueRef::Absent)
            }
        }
    }

    /// Returns the number of values in the result.
    pub fn count(&self) -> usize
        ensures { result ≡ length (trees_in (result_view self.now)) }
    {
        match self {
            CachedResult::Value(value) => value.count(),
            CachedResult::Values(values) => values.list.len(),
            CachedResult::Refused => 0,
        }
    }

    /// Adds the values to the arguments of a custom function.
    pub fn push_to(&self, alloc: Global, args: &mut Args<'a, T>) -> WalkResult<()>
        ensures value { OnOk result (arg_trees args.new ≡ arg_trees args.old ++ trees_in (result_view self.now)) }
        ensures memory { IfErr result (λ h. h ≡ Memory) }
    {
        match self {
            CachedResult::Value(value) => value.try_clone(alloc)?.push_to(alloc, args),
            CachedResult::Values(values) => push_each(values, args),
            CachedResult::Refused => Ok(()),
        }
    }
}

/// Adds these values to the arguments of a custom function.
fn push_each<'a, T: Queryable>(
    values: &WholeValues<'a, T>,
    args: &mut Args<'a, T>,
) -> WalkResult<()>
    ensures value { OnOk result (arg_trees args.new ≡ arg_trees args.old ++ map (λ v. T.tree v.now) values.now.list.items) }
    ensures memory { IfErr result (λ h. h ≡ Memory) }
{
    for value in &values.list {
        args.push_lent(WholeRef { value: *value })?;
    }
    Ok(())
}

impl<'a, 's, T: Queryable> Cache<'a, 's, T> {
    /// Returns a cache for no constants.
    #[inline(always)]
    pub fn empty(alloc: Global) -> Self {
        Cache {
            slots: Vec::new(alloc),
        }
    }

    /// Returns an empty cache for `count` constants.
    pub fn new(alloc: Global, count: usize) -> Result<Self, AllocError>
        ensures { IfOk result (λ c. (constants : Constants) (doc : Document) → length constants ≡ count → IsCacheOf constants doc c) }
    {
        let slots = empty_slots(alloc, count)?;
        Ok(Cache { slots })
    }

    /// Returns the result of the constant of this number, if it is cached.
    #[inline(always)]
    pub fn get(&self, number: usize) -> Option<&CachedResult<'a, 's, T>>
        ensures { option_map (λ s. result_view s.now) result ≡ slot_at (slots_of self.now) number }
    {
        match self.slots.get(number) {
            Some(Some(given)) => Some(given),
            _ => None,
        }
    }

    /// Returns whether the constant of this number is cached. It fails where a pattern in it is too large.
    #[inline(always)]
    pub fn has(&self, number: usize) -> WalkResult<bool>
        ensures given { (constants : Constants) (doc : Document) → IsCacheOf constants doc self.now →
            IfOk result (λ b. IsTrue b → slot_at (slots_of self.now) number ≡ Some (result_of (part_at constants number) doc)) }
        ensures refused { (constants : Constants) (doc : Document) (limit : WorkLimit) → IsCacheOf constants doc self.now →
            IfErr result (IsWalkError limit (part_patterns (part_at constants number)) doc) }
    {
        match self.get(number) {
            Some(CachedResult::Value(_value)) => Ok(true),
            Some(CachedResult::Values(_values)) => Ok(true),
            Some(CachedResult::Refused) => Err(WalkError::Pattern),
            None => Ok(false),
        }
    }

    /// Returns the value of the constant of this number; absent where it has none.
    #[inline(always)]
    pub fn value(&self, alloc: Global, number: usize) -> WalkResult<FilterValue<'a, 's, T>>
        ensures value { IfOk result (λ o. filter_value_tree o ≡ given_value (slot_at (slots_of self.now) number)) }
        ensures memory { IfErr result (λ h. h ≡ Memory) }
    {
        match self.get(number) {
            Some(CachedResult::Value(value)) => value.try_clone(alloc),
            _ => Ok(FilterValue::Ref(FilterValueRef::Absent)),
        }
    }

    /// Returns whether the value of the constant of this number is true.
    #[inline(always)]
    pub fn is_true(&self, number: usize) -> bool
        ensures { result ≡ is_true (given_value (slot_at (slots_of self.now) number)) }
    {
        match self.get(number) {
            Some(CachedResult::Value(value)) => value.is_true(),
            _ => false,
        }
    }

    /// Caches the result of the constant of this number.
    pub fn store(&mut self, number: usize, given: CachedResult<'a, 's, T>)
        requires { number < length (slots_of self.old) }
        ensures value { slot_at (slots_of self.new) number ≡ Some (result_view given.entry) }
        ensures right { (constants : Constants) (doc : Document) →
            IsGiven (result_view given.entry) (part_at constants number) doc → IsCacheOf constants doc self.old →
            IsCacheOf constants doc self.new }
    {
        self.slots[number] = Some(given);
    }

    /// Returns the error, and caches that the constant is refused if a pattern is too large, so that it is not
    /// evaluated again.
    pub fn store_error(&mut self, number: usize, halt: WalkError) -> WalkError
        requires { number < length (slots_of self.old) }
        ensures same { result ≡ halt }
        ensures right { (constants : Constants) (doc : Document) (limit : WorkLimit) →
            IsWalkError limit (part_patterns (part_at constants number)) doc halt → IsCacheOf constants doc self.old →
            IsCacheOf constants doc self.new }
    {
        match halt {
            WalkError::Pattern => {
                self.store(number, CachedResult::Refused);
                WalkError::Pattern
            }
            WalkError::Memory => WalkError::Memory,
            WalkError::Spent => WalkError::Spent,
        }
    }
}

/// Returns `count` empty slots.
fn empty_slots<'a, 's, T: Queryable>(
    alloc: Global,
    count: usize,
) -> Result<Vec<Option<CachedResult<'a, 's, T>>>, AllocError>
    ensures count { IfOk result (λ v. length v.items ≡ count) }
    ensures empty { IfOk result (λ v. AreEmpty v.items) }
{
    let mut slots = Vec::with_capacity(alloc, count)?;
    while slots.len() < count {
        slots.push(None)?;
    }
    Ok(slots)
}

impl<'a: 's, 's, T: Queryable> WalkContext<'a, 's, T> {
    /// Evaluates the constant of this number, unless it is cached. Where a pattern in it is too large, that is cached,
    /// and the walk ends with an error. Returns false where the plan has no such constant for this demand. Such a
    /// constant counts as `$`, and nothing is cached for it.
    #[cycle(walk)]
    pub fn ensure_cached(
        &self,
        number: usize,
        demand: Demand,
        state: &mut WalkState<'a, 's, '_, T>,
    ) -> WalkResult<bool>
        requires { IsCacheCorrect self.now state.old.cache }
        ensures cached { IfOk result (λ b. IsTrue b →
            slot_at (slots_of state.new.cache) number
            ≡ Some (result_of (part_at (constants_of self.now) number) (document self.now))) }
        ensures fits { IfOk result (λ b. IsTrue b → IsTrue (fits demand (part_at (constants_of self.now) number))) }
        ensures none { IfOk result (λ b. IsFalse b →
            argument_at (constants_of self.now) demand number ≡ test_argument (absolute no_segments)) }
        ensures comes { EndsProperly self.now state.old state.new (argument_patterns (argument_at (constants_of self.now) demand number)) result }
    {
        let Some(constant) = self.plan.constant(number, demand) else {
            return Ok(false);
        };
        if state.cache.has(number)? {
            return Ok(true);
        }
        let root = CurrentPath::new(self.alloc);
        let here = mem::replace(&mut state.current_path, root);
        match self.evaluate_constant(constant, state) {
            Ok(given) => {
                state.current_path = here;
                state.cache.store(number, given);
                Ok(true)
            }
            Err(halt) => Err(state.cache.store_error(number, halt)),
        }
    }

    /// Returns the result of a constant. The current path is at the root.
    #[cycle(walk)]
    fn evaluate_constant(
        &self,
        constant: &'s Constant,
        state: &mut WalkState<'a, 's, '_, T>,
    ) -> WalkResult<CachedResult<'a, 's, T>>
        requires stands { IsPositionedAt self.now self.now.root state.old }
        requires root { state.old.current_path.steps.items ≡ [] }
        ensures given { IfOk result (λ g. result_view g ≡ result_of (constant_view (constants_of self.now) constant.now) (document self.now)) }
        ensures comes { EndsProperly self.now state.old state.new (part_patterns (constant_view (constants_of self.now) constant.now)) result }
    {
        match constant {
            Constant::Nodes {
                segments,
                demand,
                ..
            } => self.gather(segments, *demand, self.root, state),
            Constant::Answer(call) => Ok(CachedResult::Value(self.answer(call, self.root, state)?)),
            Constant::Comparison(operator, left, right) => {
                let held = self.comparison_holds(
                    Comparison {
                        operator: *operator,
                        left,
                        right,
                    },
                    self.root,
                    state,
                )?;
                Ok(CachedResult::Value(FilterValue::Ref(FilterValueRef::Plain(Scalar::Truth(
                    held,
                )))))
            }
        }
    }

    /// Returns the value of the constant of this number; absent where it has none. A copy of a value that a custom
    /// function made is paid for.
    pub fn cached_value(
        &self,
        number: usize,
        cache: &Cache<'a, 's, T>,
        budget: &mut Budget,
    ) -> WalkResult<FilterValue<'a, 's, T>>
        ensures value { IfOk result (λ o. filter_value_tree o ≡ given_value (slot_at (slots_of cache.now) number)) }
        ensures halts { IfErr result (IsWalkError self.now.limit [] (document self.now)) }
    {
        if let Some(given) = cache.get(number) {
            self.pay_copy(given, budget)?;
        }
        cache.value(self.alloc, number)
    }
}

impl<'a: 's, 's, T: Queryable> WalkContext<'a, 's, T> {
    /// Begins a walk at the root, with room for the results of the constants. If the document is too deep for all
    /// queries from the root to be on the stack together, some of them are evaluated here, before the walk.
    pub fn begin(&self, state: &mut WalkState<'a, 's, '_, T>) -> WalkResult<()>
        ensures ready { OnOk result (IsCacheCorrect self.now state.new.cache) }
        ensures current_path { OnOk result (state.new.current_path.steps.items ≡ []) }
        ensures halts { IfErr result (IsWalkError self.now.limit [] (document self.now)) }
    {
        let cache = Cache::new(self.alloc, self.plan.constants.len())?;
        state.cache = cache;
        self.precompute(state)
    }

    /// Evaluates the queries that are marked `BeforeWalk`, inner ones first, if the document is too deep. Then it sets
    /// the current path to the root.
    fn precompute(&self, state: &mut WalkState<'a, 's, '_, T>) -> WalkResult<()>
        requires { IsCacheCorrect self.now state.old.cache }
        ensures ready { OnOk result (IsCacheCorrect self.now state.new.cache) }
        ensures current_path { OnOk result (state.new.current_path.steps.items ≡ []) }
        ensures halts { IfErr result (IsWalkError self.now.limit [] (document self.now)) }
    {
        if !self.stands_deep(&mut state.budget)? {
            state.current_path = CurrentPath::new(self.alloc);
            return Ok(());
        }
        for number in 0..self.plan.constants.len() {
            if let Some(demand) = self.precomputed_demand(number) {
                self.precompute_one(number, demand, state)?;
            }
        }
        state.current_path = CurrentPath::new(self.alloc);
        Ok(())
    }

    /// Returns whether the document is so deep that nested queries from the root might not fit on the stack together.
    /// The depth is measured only where the query can need it, at a cost of one unit for each value. Where the units
    /// run out, only the depth seen so far counts, and nothing is left for the walk.
    fn stands_deep(&self, budget: &mut Budget) -> WalkResult<bool>
        ensures { IfErr result (IsWalkError self.now.limit [] (document self.now)) }
    {
        let levels = self.plan.nesting.levels();
        if levels >= DOCUMENT_LEVELS {
            return Ok(false);
        }
        let most = budget.remaining();
        let mut looks = most.saturating_sub(1);
        let deep = is_deeper(self.alloc, self.root.value, levels, &mut looks)?;
        budget.spend(self.limit, most.saturating_sub(looks))?;
        Ok(deep)
    }

    /// Returns what is demanded of the query of this number, if it is evaluated before the walk.
    fn precomputed_demand(&self, number: usize) -> Option<Demand> {
        match self.plan.constants.get(number)? {
            Constant::Nodes {
                demand,
                when: When::BeforeWalk,
                ..
            } => Some(*demand),
            _ => None,
        }
    }

    /// Evaluates a query from the root. A pattern that is too large is cached and is no error here, because the walk
    /// may never need that query.
    fn precompute_one(
        &self,
        number: usize,
        demand: Demand,
        state: &mut WalkState<'a, 's, '_, T>,
    ) -> WalkResult<()>
        requires { IsCacheCorrect self.now state.old.cache }
        ensures ready { IsCacheCorrect self.now state.new.cache }
        ensures halts { IfErr result (IsWalkError self.now.limit [] (document self.now)) }
    {
        match self.ensure_cached(number, demand, state) {
            Ok(_there) => Ok(()),
            Err(WalkError::Pattern) => Ok(()),
            Err(WalkError::Memory) => Err(WalkError::Memory),
            Err(WalkError::Spent) => match self.limit {
                WorkLimit::Limited => Err(WalkError::Spent),
                WorkLimit::Unlimited => Ok(()),
            },
        }
    }
}
