//! A query that is prepared once, to be run on many documents, and what a runner borrows of it.
ghost use Rattle.std.specs.Prelude.{◌++◌, ◌≡◌, ◌≤◌, codes, IfErr, IfOk, MatchResult, Some};
ghost use Rattle.jsonpath_base.specs.Prelude.Documents.{Derives, HasIndexesInRange, IsNormal, IsRefusal, Location, OutOfMemory, Query, query_shown, query_view, steps_query};
ghost use Rattle.jsonpath_rust.specs.selection.inner.Planned.{IsPlanOf, IsPlanOf-prop, plan_view};

use crate::documents::Queried;
use crate::selection::plan::{Plan, plan_of, release};
use crate::selection::runner::Runner;
use jsonpath_base::engine::PatternSlots;
use jsonpath_parser::model::JpQuery;
use jsonpath_parser::{MAX_NESTING_DEPTH, drop_query, parse_json_path_within};
use std::alloc::Global;
use std::fmt;
use std::fmt::{Debug, Formatter, Write};

/// A query, to be run on any number of documents, of any types, by the [`Runner`]s that [`Prepared::runner`] makes.
///
/// A pattern in the query, as the second argument of `match` or of `search` (RFC 9535, 2.4.6 and 2.4.7), is built by
/// the first call that needs it. It stays built, for all runners of the query. Nothing of a document outlasts a call.
#[derive(Drop)]
pub struct Prepared {
    query: JpQuery,
    plan: Plan,
    /// The slots of its patterns.
    cells: PatternSlots,
    ghost same: { IsPlanOf (query_view query) plan } by { IsPlanOf-prop (query_view query) plan },
}

/// A prepared query that is borrowed, which [`Prepared::of`] makes.
#[derive(Drop)]
pub struct PreparedRef<'q> {
    query: &'q JpQuery,
    plan: Plan,
    /// The slots of its patterns.
    cells: PatternSlots,
    ghost same: { IsPlanOf (query_view query.now) plan } by { IsPlanOf-prop (query_view query.now) plan },
}

/// A query, its plan, and the slots of its patterns, which a runner borrows.
#[derive(Drop)]
pub struct Planned<'p> {
    pub query: &'p JpQuery,
    pub plan: &'p Plan,
    pub cells: &'p PatternSlots,
    ghost same: { IsPlanOf (query_view query.now) plan.now } by { IsPlanOf-prop (query_view query.now) plan.now },
}

impl Prepared {
    ghost use Rattle.jsonpath_rust.specs.Prelude.Selection.{planned_view, prepared_ref_view, prepared_view, runner_view};

    /// Prepares a query. It builds no pattern, so the cost is linear in the query. It fails with `OutOfMemory` only,
    /// and frees the query then.
    pub fn new(alloc: Global, query: JpQuery) -> Queried<Self>
        ensures query { IfOk result (λ p. prepared_view p ≡ query_view query) }
        ensures memory { IfErr result (λ e. e ≡ OutOfMemory) }
    {
        match plan_with_cells(alloc, &query) {
            Ok((plan, cells)) => Ok(Prepared { query, plan, cells }),
            Err(error) => {
                drop_query(query);
                Err(error)
            }
        }
    }

    /// Prepares a query that stays with its owner. The cost is linear in the query. It fails with `OutOfMemory` only.
    ///
    /// A query that is not well-typed is evaluated here as by [`Prepared::new`]; `process` may evaluate it in another
    /// way.
    pub fn of(alloc: Global, query: &JpQuery) -> Queried<PreparedRef<'_>>
        ensures query { IfOk result (λ p. prepared_ref_view p ≡ query_view query.now) }
        ensures memory { IfErr result (λ e. e ≡ OutOfMemory) }
    {
        let (plan, cells) = plan_with_cells(alloc, query)?;
        Ok(PreparedRef { query, plan, cells })
    }

    /// Reads a query text with at most 128 open brackets at a time, and prepares it.
    pub fn read(alloc: Global, text: &str) -> Queried<Self>
        ensures query { IfOk result (λ p. Derives MAX_NESTING_DEPTH text.now (prepared_view p)) }

        // Every tree that the text derives is the tree of the query, unless memory ran out.
        ensures complete { (t : Query) → Derives MAX_NESTING_DEPTH text.now t →
            MatchResult result (λ p. prepared_view p ≡ t) (λ e. e ≡ OutOfMemory) }

        // For a Normalized Path it fails with `OutOfMemory` only.
        ensures normal { (l : Location) → IsNormal l text.now → HasIndexesInRange l →
            MatchResult result (λ p. prepared_view p ≡ steps_query l) (λ e. e ≡ OutOfMemory) }
        ensures refused { IfErr result (IsRefusal MAX_NESTING_DEPTH text.now) }
    {
        Prepared::read_within(alloc, text, MAX_NESTING_DEPTH)
    }

    /// Reads a query text with at most `depth` open brackets at a time, and prepares it.
    pub fn read_within(alloc: Global, text: &str, depth: usize) -> Queried<Self>
        ensures query { IfOk result (λ p. Derives depth text.now (prepared_view p)) }

        // Every tree that the text derives is the tree of the query, unless memory ran out.
        ensures complete { (t : Query) → Derives depth text.now t → MatchResult result (λ p. prepared_view p ≡ t) (λ e. e ≡ OutOfMemory) }

        // For a Normalized Path it fails with `OutOfMemory` only.
        ensures normal { (l : Location) → IsNormal l text.now → HasIndexesInRange l → 1 ≤ depth →
            MatchResult result (λ p. prepared_view p ≡ steps_query l) (λ e. e ≡ OutOfMemory) }
        ensures refused { IfErr result (IsRefusal depth text.now) }
    {
        let query = parse_json_path_within(alloc, text, depth)?;
        Prepared::new(alloc, query)
    }

    /// Returns the query.
    pub fn query(&self) -> &JpQuery
        ensures { query_view result.now ≡ prepared_view self.now }
    {
        &self.query
    }

    /// Returns a runner, which runs the query on one document after another and caches the matchers of its patterns. It
    /// allocates nothing.
    pub fn runner(&self, alloc: Global) -> Runner<'_>
        ensures { runner_view result ≡ prepared_view self.now }
    {
        Runner::new(alloc, self.planned())
    }

    /// Returns the query with its plan.
    pub(crate) fn planned(&self) -> Planned<'_>
        ensures { planned_view result ≡ prepared_view self.now }
    {
        Planned {
            query: &self.query,
            plan: &self.plan,
            cells: &self.cells,
        }
    }
}

impl<'q> PreparedRef<'q> {
    ghost use Rattle.jsonpath_rust.specs.Prelude.Selection.{prepared_ref_view, runner_view};

    /// Returns a runner, as [`Prepared::runner`].
    pub fn runner(&self, alloc: Global) -> Runner<'_>
        ensures { runner_view result ≡ prepared_ref_view self.now }
    {
        let planned = Planned {
            query: self.query,
            plan: &self.plan,
            cells: &self.cells,
        };
        Runner::new(alloc, planned)
    }
}

/// Shows `Prepared` with its query in parentheses.
impl Debug for Prepared {
    ghost use Rattle.jsonpath_rust.specs.Prelude.Selection.{prepared_view};

    ghost debug_output = { λ p. Some (codes "Prepared(" ++ query_shown (prepared_view p) ++ codes ")") };

    fn fmt<W: Write>(&self, f: &mut Formatter<W>) -> fmt::Result {
        write!(f, "Prepared({})", self.query())
    }
}

/// Shows `PreparedRef` with its query in parentheses.
impl<'q> Debug for PreparedRef<'q> {
    ghost use Rattle.jsonpath_rust.specs.Prelude.Selection.{prepared_ref_view};

    ghost debug_output = { λ p. Some (codes "PreparedRef(" ++ query_shown (prepared_ref_view p) ++ codes ")") };

    fn fmt<W: Write>(&self, f: &mut Formatter<W>) -> fmt::Result {
        write!(f, "PreparedRef({})", self.query)
    }
}

/// Returns the plan of a query, and slots for its patterns.
fn plan_with_cells(alloc: Global, query: &JpQuery) -> Queried<(Plan, PatternSlots)>
    ensures plan { IfOk result (λ p. plan_view p.0 ≡ query_view query.now) }
    ensures memory { IfErr result (λ e. e ≡ OutOfMemory) }
{
    let plan = plan_of(alloc, query)?;
    match PatternSlots::new(alloc, plan.pattern_count) {
        Ok(cells) => Ok((plan, cells)),
        Err(error) => {
            release(plan);
            Err(error.into())
        }
    }
}
