//! Runs a prepared query on one document after another, with or without a limit of work.
//!
//! This file holds the public `Runner`, and one walk over one document (`Request`, `run`).
ghost use Rattle.jsonpath_base.specs.LocationSetViews.{sorted_count, sorted_set};
ghost use Rattle.jsonpath_base.specs.Prelude.Documents.{AreLocations, AreNodes, ArePaths, AreValues, Document, distinct_count, holds, is_among, nodelist, query_shown, query_view, root_node, segments_patterns, selected};
ghost use Rattle.jsonpath_rust.specs.Prelude.Calls.{Runs};
ghost use Rattle.jsonpath_rust.specs.Prelude.Documents.{document_at, tree_of};
ghost use Rattle.jsonpath_rust.specs.Prelude.Selection.{Feeds, IsConditionStop, IsCount, IsFirst, IsLocationSetOf, IsOnlyNode, IsStopOf, IsWalkError, TellsWhether, expression_of, feed, plan_view, planned_view, runner_view, seen};
ghost use Rattle.std.specs.Prelude.{IfErr, IfOk, Some, codes, ◌++◌, ◌≡◌};

use crate::documents::nodes::{WholeNodes, WholeValues};
use crate::documents::queryable::Queryable;
use crate::documents::walk_error::{WalkError, WalkResult};
use crate::documents::whole::WholeRef;
use crate::documents::{QueryPath, QueryRef};
use crate::selection::condition::evaluate;
use crate::selection::limits::{Budget, Limit, Units, Unlimited, condition_budget, query_budget};
use crate::selection::plan::Plan;
use crate::selection::prepared::Planned;
use crate::selection::sink::{Demand, Only, Sink};
use crate::selection::walk::{WalkContext, WalkState};
use jsonpath_base::Step;
use jsonpath_base::engine::{
    DocumentPatternSlots, LocationSet, PatternCache, PatternSlots, QueryMatchers, SortedLocations,
};
use jsonpath_parser::model::JpQuery;
use std::alloc::Global;
use std::fmt::{Debug, Formatter, Write};
use std::{fmt, mem};

/// Runs a [`Prepared`] query on one document after another, with or without a limit of work. It caches the matchers of
/// the query's patterns from one call to the next, so only the first call makes them.
///
/// For untrusted queries the work of each call can be limited, by [`Runner::limited`].
///
/// # Errors
///
/// - `InvalidJsonPath` where `regex` refuses a pattern for its size: one in the query, in a call of `match` or
///   `search`, whose value at some node of the document is a text that `regex` reads.
/// - `OutOfMemory` where memory ran out.
///
/// With a limit these are [`LimitError::Query`], and [`LimitError::Exhausted`] means that the units were not enough.
/// After an error the query can be run again.
///
/// [`Prepared`]: crate::selection::Prepared
/// [`LimitError::Query`]: crate::selection::LimitError::Query
/// [`LimitError::Exhausted`]: crate::selection::LimitError::Exhausted
#[derive(Drop)]
pub struct Runner<'p, L: Limit = Unlimited> {
    planned: Planned<'p>,
    finders: QueryMatchers<'p>,
    limits: L,
}

impl<'p> Runner<'p> {
    /// Returns a runner of this query, with no limit.
    pub(crate) fn new(alloc: Global, planned: Planned<'p>) -> Self
        ensures { runner_view result ≡ planned_view planned.entry }
    {
        let finders = QueryMatchers::new(alloc, planned.cells);
        Runner {
            planned,
            finders,
            limits: Unlimited,
        }
    }
}

impl<'p, L: Limit> Runner<'p, L> {
    /// Returns the query.
    pub fn query(&self) -> &JpQuery
        ensures { query_view result.now ≡ runner_view self.now }
    {
        self.planned.query
    }

    /// Returns the runner with a limit: each of its calls may take `units` units of work. [`Units`] says what they are
    /// spent for.
    pub fn limited(self, units: usize) -> Runner<'p, Units>
        ensures { runner_view result ≡ runner_view self.entry }
    {
        Runner {
            planned: self.planned,
            finders: self.finders,
            limits: Units::new(units),
        }
    }

    /// Returns the nodes that the query selects in a document, in order (RFC 9535, 2.1.2).
    pub fn nodes<'a, T: Queryable>(
        &mut self,
        alloc: Global,
        value: WholeRef<'a, T>,
    ) -> Result<Vec<QueryRef<'a, T>>, L::Error>
        ensures { Runs L.stops (runner_view self.old) (runner_view self.new) (document_at value.entry) (AreNodes T.Queryable.own) result }
    {
        let begun = Sink::Nodes(WholeNodes::new(alloc));
        let sink = self.run_into(alloc, value, begun)?;
        Ok(sink.into_nodes(alloc).list)
    }

    /// Returns the values of these nodes, in order. It makes no paths.
    pub fn values<'a, T: Queryable>(
        &mut self,
        alloc: Global,
        value: WholeRef<'a, T>,
    ) -> Result<Vec<&'a T>, L::Error>
        ensures { Runs L.stops (runner_view self.old) (runner_view self.new) (document_at value.entry) (AreValues T.Queryable.own) result }
    {
        let begun = Sink::Values(WholeValues::new(alloc));
        let sink = self.run_into(alloc, value, begun)?;
        Ok(sink.into_values(alloc).list)
    }

    /// Returns the Normalized Paths of these nodes (RFC 9535, 2.7), in order.
    pub fn paths<T: Queryable>(
        &mut self,
        alloc: Global,
        value: WholeRef<'_, T>,
    ) -> Result<Vec<QueryPath>, L::Error>
        ensures { Runs L.stops (runner_view self.old) (runner_view self.new) (document_at value.entry) ArePaths result }
    {
        let sink = self.run_into(alloc, value, Sink::Paths(Vec::new(alloc)))?;
        Ok(sink.into_paths(alloc))
    }

    /// Returns the locations of these nodes, in order.
    pub fn locations<T: Queryable>(
        &mut self,
        alloc: Global,
        value: WholeRef<'_, T>,
    ) -> Result<Vec<Vec<Step>>, L::Error>
        ensures { Runs L.stops (runner_view self.old) (runner_view self.new) (document_at value.entry) AreLocations result }
    {
        let begun = Sink::Locations(Vec::new(alloc));
        let sink = self.run_into(alloc, value, begun)?;
        Ok(sink.into_locations(alloc))
    }

    /// Returns the first of these nodes, or None where the query selects none. The walk ends at that node.
    pub fn first<'a, T: Queryable>(
        &mut self,
        alloc: Global,
        value: WholeRef<'a, T>,
    ) -> Result<Option<QueryRef<'a, T>>, L::Error>
        ensures { Runs L.stops (runner_view self.old) (runner_view self.new) (document_at value.entry) (IsFirst T.Queryable.own) result }
    {
        let sink = self.run_into(alloc, value, Sink::first(alloc, 1))?;
        let only = sink.into_nodes(alloc).into_only();
        Ok(only.one())
    }

    /// Returns the only node, or that there is none or that there are several. The walk ends at the second node.
    pub fn only<'a, T: Queryable>(
        &mut self,
        alloc: Global,
        value: WholeRef<'a, T>,
    ) -> Result<Only<'a, T>, L::Error>
        ensures { Runs L.stops (runner_view self.old) (runner_view self.new) (document_at value.entry) (IsOnlyNode T.Queryable.own) result }
    {
        let sink = self.run_into(alloc, value, Sink::first(alloc, 2))?;
        Ok(sink.into_nodes(alloc).into_only())
    }

    /// Returns the number of these nodes, up to 2^63 - 1. It makes no paths and no list.
    pub fn count<T: Queryable>(
        &mut self,
        alloc: Global,
        value: WholeRef<'_, T>,
    ) -> Result<usize, L::Error>
        ensures { Runs L.stops (runner_view self.old) (runner_view self.new) (document_at value.entry) IsCount result }
    {
        let sink = self.run_into(alloc, value, Sink::start(alloc, Demand::Count))?;
        Ok(sink.into_count())
    }

    /// Returns whether the query selects a node. The walk ends at the first node, and makes no paths.
    pub fn has_node<T: Queryable>(
        &mut self,
        alloc: Global,
        value: WholeRef<'_, T>,
    ) -> Result<bool, L::Error>
        ensures { Runs L.stops (runner_view self.old) (runner_view self.new) (document_at value.entry) TellsWhether result }
    {
        let sink = self.run_into(alloc, value, Sink::start(alloc, Demand::Exists))?;
        Ok(sink.into_count() > 0)
    }

    /// Returns the locations of these nodes, sorted, to be removed or replaced. Each of them costs `copy` units beside
    /// its steps.
    pub(crate) fn marked<T: Queryable>(
        &mut self,
        alloc: Global,
        value: WholeRef<'_, T>,
        copy: usize,
    ) -> Result<SortedLocations, L::Error>
        ensures set { IfOk result (λ r. sorted_set r ≡ is_among (selected (runner_view self.old) (document_at value.entry))) }
        ensures count { IfOk result (λ r. sorted_count r ≡ distinct_count (selected (runner_view self.old) (document_at value.entry))) }
        ensures same { runner_view self.new ≡ runner_view self.old }
        ensures refused { IfErr result (IsStopOf L.stops (runner_view self.old) (document_at value.entry)) }
    {
        let removal = self.removal(alloc, value, copy)?;
        match removal.ordered(alloc) {
            Ok(marked) => Ok(marked),
            Err(_memory) => Err(L::error(alloc, WalkError::Memory)),
        }
    }

    /// Returns the set of the locations of these nodes.
    fn removal<T: Queryable>(
        &mut self,
        alloc: Global,
        value: WholeRef<'_, T>,
        copy: usize,
    ) -> Result<LocationSet, L::Error>
        ensures removal { IfOk result (λ r. IsLocationSetOf r (selected (runner_view self.old) (document_at value.entry))) }
        ensures same { runner_view self.new ≡ runner_view self.old }
        ensures refused { IfErr result (IsStopOf L.stops (runner_view self.old) (document_at value.entry)) }
    {
        let begun = match Box::new(alloc, LocationSet::new(alloc)) {
            Ok(removal) => Sink::LocationSet(removal, copy),
            Err(_memory) => return Err(L::error(alloc, WalkError::Memory)),
        };
        let sink = self.run_into(alloc, value, begun)?;
        match sink.into_removal() {
            Some(removal) => Ok(Box::into_inner(removal)),
            None => Ok(LocationSet::new(alloc)),
        }
    }

    /// Returns what a copy of a value costs, for each location where it is put.
    pub(crate) fn copy_cost<T: Queryable>(
        &self,
        alloc: Global,
        value: WholeRef<'_, T>,
    ) -> Result<usize, L::Error>
        ensures refused { (doc : Document) → IfErr result (IsStopOf L.stops (runner_view self.now) doc) }
    {
        let budget = query_budget(&self.limits, self.planned.query);
        match budget.limit.copy_cost(alloc, value, budget.remaining()) {
            Ok(cost) => Ok(cost),
            Err(_memory) => Err(L::error(alloc, WalkError::Memory)),
        }
    }

    /// Runs the query, and returns the sink with the nodes that it took.
    fn run_into<'a, T: Queryable>(
        &mut self,
        alloc: Global,
        value: WholeRef<'a, T>,
        mut sink: Sink<'a, T>,
    ) -> Result<Sink<'a, T>, L::Error>
        ensures outcome { IfOk result (λ s. seen s ≡ feed (seen sink.entry) (nodelist (runner_view self.old) (document_at value.entry))) }
        ensures same { runner_view self.new ≡ runner_view self.old }
        ensures refused { IfErr result (IsStopOf L.stops (runner_view self.old) (document_at value.entry)) }
    {
        let budget = query_budget(&self.limits, self.planned.query);
        let request = self.lend(alloc, budget);
        let (given, finders) = run(alloc, request, value, &mut sink);
        self.finders = finders;
        match given {
            Ok(_goes_on) => Ok(sink),
            Err(halt) => {
                drop(sink);
                Err(L::error(alloc, halt))
            }
        }
    }

    /// Returns whether the filter of a query that is one filter holds at the root of a document.
    pub(crate) fn evaluate_condition<T: Queryable>(
        &mut self,
        alloc: Global,
        value: WholeRef<'_, T>,
    ) -> Result<bool, L::Error>
        ensures holds { IfOk result (λ b. b
            ≡ holds (expression_of (runner_view self.old)) (document_at value.entry) (root_node
            (tree_of value.entry))) }
        ensures same { runner_view self.new ≡ runner_view self.old }
        ensures refused { IfErr result (IsConditionStop L.stops (expression_of (runner_view self.old)) (document_at value.entry)) }
    {
        let budget = condition_budget(&self.limits, self.planned.query);
        let request = self.lend(alloc, budget);
        let (held, finders) = evaluate(alloc, request, value);
        self.finders = finders;
        match held {
            Ok(held) => Ok(held),
            Err(halt) => Err(L::error(alloc, halt)),
        }
    }

    /// Returns the request of one call, with this budget. It takes the matchers out of the runner, to be put back after
    /// the call.
    fn lend(&mut self, alloc: Global, budget: Budget) -> Request<'p, 'p>
        ensures plan { plan_view result.plan.now ≡ runner_view self.old }
        ensures budget { result.budget ≡ budget }
        ensures same { runner_view self.new ≡ runner_view self.old }
    {
        let finders = QueryMatchers::new(alloc, self.planned.cells);
        Request {
            plan: self.planned.plan,
            finders: mem::replace(&mut self.finders, finders),
            budget,
        }
    }
}

/// Shows `Runner` with its query in parentheses.
impl<'p, L: Limit> Debug for Runner<'p, L> {
    ghost debug_output = { λ r. Some (codes "Runner(" ++ query_shown (runner_view r) ++ codes ")") };

    fn fmt<W: Write>(&self, f: &mut Formatter<W>) -> fmt::Result {
        write!(f, "Runner({})", self.query())
    }
}

/// What one call needs: a plan, the matchers of its patterns, and the budget.
#[derive(Drop)]
pub struct Request<'s, 'p> {
    pub plan: &'s Plan,
    pub finders: QueryMatchers<'p>,
    pub budget: Budget,
}

/// Walks a document, and passes the nodes of the plan to the sink. Returns whether the walk goes on, and the matchers
/// of the query's patterns, for the next document.
pub fn run<'a, 'p, T: Queryable>(
    alloc: Global,
    request: Request<'_, 'p>,
    root: WholeRef<'a, T>,
    sink: &mut Sink<'a, T>,
) -> (WalkResult<bool>, QueryMatchers<'p>)
    ensures outcome { Feeds sink.old sink.new (nodelist (plan_view request.entry.plan.now) (document_at root.entry)) result.0 }
    ensures refused { IfErr result.0 (IsWalkError request.entry.budget.limit
        (segments_patterns (plan_view request.entry.plan.now)) (document_at root.entry)) }
{
    let Request {
        plan,
        finders,
        budget,
    } = request;
    let slots = DocumentPatternSlots::new();
    let context = WalkContext {
        alloc,
        plan,
        root,
        limit: budget.limit,
    };
    let mut state = WalkState::new(alloc, PatternCache::new(finders, &slots), budget);
    match context.begin(&mut state) {
        Ok(_begun) => {
            let given = context.walk(&plan.segments, root, &mut state, sink);
            (given, state.into_finders())
        }
        Err(halt) => (Err(halt), state.into_finders()),
    }
}
