//! Conditions on a document itself: the text and the tree of one, its evaluation at the root, and the conditions that
//! are free under a limit of work (a test of one singular query).
ghost use Rattle.jsonpath_base.specs.Prelude.Documents.{Derives, IsCharBoundary, IsRefusal, IsStop, OutOfMemory, atom_view, filter_view, holds, no_filters, or, query_shown, query_view, root_node, segment_view, segments_of, segments_patterns, test_view};
ghost use Rattle.jsonpath_parser.specs.tree.Syntax as syntax;
ghost use Rattle.jsonpath_parser.specs.tree.Typing as typing;
ghost use Rattle.jsonpath_rust.specs.Prelude.Documents.{document_at, tree_of};
ghost use Rattle.jsonpath_rust.specs.Prelude.Selection.{IsConditionRefusal, IsConditionStop, IsWalkError, condition_runner_view, condition_view, expression_of, filter_of, filter_query, in_filter, plan_view, prepared_view, runner_view, segment_filter, tests_singular};
ghost use Rattle.std.specs.Prelude.{IfErr, IfOk, MatchResult, Some, codes, is_some, map, option_map, string_bytes, unwrap_or, ℕ, ◌++◌, ◌≡◌};

use crate::documents::Queried;
use crate::documents::queryable::Queryable;
use crate::documents::walk_error::WalkResult;
use crate::documents::whole::WholeRef;
use crate::selection::limits::{Limit, Units, Unlimited};
use crate::selection::plan;
use crate::selection::prepared::Prepared;
use crate::selection::runner::{Request, Runner};
use crate::selection::walk::{WalkContext, WalkState};
use jsonpath_base::engine::{DocumentPatternSlots, PatternCache, QueryMatchers};
use jsonpath_parser::errors::{JsonPathError, Parsed};
use jsonpath_parser::model::{Filter, FilterAtom, JpQuery, Segment, Selector, Test};
use jsonpath_parser::{are_steps, drop_query, is_singular, parse_json_path_within};
use std::alloc::Global;
use std::fmt;
use std::fmt::{Debug, Formatter, Write};

/// The text before the filter in the query of a condition.
const OPENING: &str = "$[?";

/// A logical expression (RFC 9535, 2.3.5) that is evaluated at the root of a document: `@` and `$` both are the root. A
/// query cannot express that, because `$[?!$.error]` tests the children of the root, and selects nothing in `{}`.
///
/// Its patterns stay built from one document to the next, as in [`Prepared`].
#[derive(Drop)]
pub struct Condition {
    prepared: Prepared,
}

impl Condition {
    /// Returns the condition of an expression, such as a tree of `jsonpath_build`. It fails with `OutOfMemory` only.
    /// The cost is linear in the expression.
    pub fn new(alloc: Global, filter: Filter) -> Queried<Self>
        ensures filter { IfOk result (λ c. condition_view c ≡ filter_view filter) }
        ensures memory { IfErr result (λ e. e ≡ OutOfMemory) }
    {
        let mut segments = Vec::new(alloc);
        segments.push(Segment::Selector(Selector::Filter(filter)))?;
        let prepared = Prepared::new(alloc, JpQuery::new(segments))?;
        Ok(Condition { prepared })
    }

    /// Reads the text of a condition: what may be between `$[?` and `]` in a query, such as
    /// `@.type=='order'&&!@.error`.
    ///
    /// # Errors
    ///
    /// Those of `parse_json_path_within` for the query `$[?..]` around the text, whose `[` counts as one bracket. The
    /// place in a `PestError` is a place in the text. A text whose query is not this one filter, such as `@.a][?@.b`,
    /// is refused by `PestError`, at the text's end.
    pub fn read(alloc: Global, text: &str, depth: usize) -> Queried<Self>
        ensures read { IfOk result (λ c. Derives depth (in_filter text.now) (filter_query (condition_view c))) }

        // Every expression that the text derives is the condition, unless memory ran out.
        ensures complete { (f : syntax.Filter) → Derives depth (in_filter text.now) (filter_query f) →
            MatchResult result (λ c. condition_view c ≡ f) (λ e. e ≡ OutOfMemory) }
        ensures refused { IfErr result (IsConditionRefusal depth text.now) }
    {
        let whole = query_text(alloc, text)?;
        let query = match parse_json_path_within(alloc, whole.as_str(), depth) {
            Ok(query) => query,
            Err(error) => return Err(refusal(text, error)),
        };
        if !is_one_filter(&query) {
            drop_query(query);
            return Err(JsonPathError::PestError(place_in(text, whole.len())));
        }
        let prepared = Prepared::new(alloc, query)?;
        Ok(Condition { prepared })
    }

    /// Returns whether the condition holds for a document.
    ///
    /// # Errors
    ///
    /// Those of a [`Runner`] of the query `$[?..]` of the expression.
    pub fn holds<T: Queryable>(&self, alloc: Global, value: WholeRef<'_, T>) -> Queried<bool>
        ensures holds { IfOk result (λ b. b
            ≡ holds (condition_view self.now) (document_at value.entry) (root_node
            (tree_of value.entry))) }
        ensures refused { IfErr result (IsStop (filter_query (condition_view self.now)) (document_at value.entry)) }
    {
        self.runner(alloc).holds(alloc, value)
    }

    /// Returns a runner, which evaluates the condition on one document after another and caches the matchers of its
    /// patterns. It allocates nothing.
    pub fn runner(&self, alloc: Global) -> ConditionRunner<'_>
        ensures { condition_runner_view result ≡ condition_view self.now }
    {
        ConditionRunner {
            runner: self.prepared.runner(alloc),
        }
    }
}

/// Shows `Condition` with its query in parentheses.
impl Debug for Condition {
    ghost debug_output = { λ c. Some (codes "Condition(" ++ query_shown (prepared_view c.prepared) ++ codes ")") };

    fn fmt<W: Write>(&self, f: &mut Formatter<W>) -> fmt::Result {
        write!(f, "Condition({})", self.prepared.query())
    }
}

/// Evaluates a [`Condition`] on one document after another, with or without a limit of work.
///
/// For untrusted conditions the work of each call can be limited, by [`ConditionRunner::limited`].
#[derive(Drop)]
pub struct ConditionRunner<'c, L: Limit = Unlimited> {
    runner: Runner<'c, L>,
}

impl<'c, L: Limit> ConditionRunner<'c, L> {
    /// Returns the runner with a limit: each of its calls may take `units` units of work. [`Units`] says what they are
    /// spent for.
    pub fn limited(self, units: usize) -> ConditionRunner<'c, Units>
        ensures { condition_runner_view result ≡ condition_runner_view self.entry }
    {
        ConditionRunner {
            runner: self.runner.limited(units),
        }
    }

    /// Returns whether the condition holds for a document, as [`Condition::holds`].
    pub fn holds<T: Queryable>(
        &mut self,
        alloc: Global,
        value: WholeRef<'_, T>,
    ) -> Result<bool, L::Error>
        ensures holds { IfOk result (λ b. b
            ≡ holds (condition_runner_view self.old) (document_at value.entry)
            (root_node (tree_of value.entry))) }
        ensures same { condition_runner_view self.new ≡ condition_runner_view self.old }
        ensures refused { IfErr result (IsConditionStop L.stops (condition_runner_view self.old) (document_at value.entry)) }
    {
        self.runner.evaluate_condition(alloc, value)
    }
}

/// Shows `ConditionRunner` with its query in parentheses.
impl<'c, L: Limit> Debug for ConditionRunner<'c, L> {
    ghost debug_output = { λ r. Some (codes "ConditionRunner(" ++ query_shown (runner_view r.runner) ++ codes ")") };

    fn fmt<W: Write>(&self, f: &mut Formatter<W>) -> fmt::Result {
        write!(f, "ConditionRunner({})", self.runner.query())
    }
}

/// Returns the text of the query `$[?..]` around a text.
fn query_text(alloc: Global, text: &str) -> Parsed<String>
    ensures text { IfOk result (λ s. string_bytes s ≡ in_filter text.now) }
    ensures memory { IfErr result (λ e. e ≡ OutOfMemory) }
{
    let mut whole = String::from_str(alloc, OPENING)?;
    whole.push_str(text)?;
    whole.push_str("]")?;
    Ok(whole)
}

/// Returns whether a query is `$[?..]`.
fn is_one_filter(query: &JpQuery) -> bool
    ensures { result ≡ is_some (filter_of (query_view query.now)) }
{
    only_filter(query).is_some()
}

/// Returns the filter of a query `$[?..]`.
fn only_filter(query: &JpQuery) -> Option<&Filter>
    ensures { option_map (λ f. filter_view f.now) result ≡ filter_of (query_view query.now) }
{
    match query.segments.split_first() {
        None => None,
        Some((first, rest)) => {
            if rest.is_empty() {
                segment_filter(first)
            } else {
                None
            }
        }
    }
}

/// Returns the filter of a segment `[?..]`.
fn segment_filter(segment: &Segment) -> Option<&Filter>
    ensures { option_map (λ f. filter_view f.now) result ≡ segment_filter (segment_view segment.now) }
{
    match segment {
        Segment::Selector(selector) => match selector {
            Selector::Filter(filter) => Some(filter),
            Selector::Name(_) => None,
            Selector::Wildcard => None,
            Selector::Index(_) => None,
            Selector::Slice(_, _, _) => None,
        },
        Segment::Selectors(_) => None,
        Segment::Descendant(_) => None,
    }
}

/// Returns the error for a text, from the error for the query text around it.
fn refusal(text: &str, error: JsonPathError) -> JsonPathError
    ensures refused { (limit : ℕ) → IsRefusal limit (in_filter text.now) error → IsConditionRefusal limit text.now result }
    ensures memory { error ≡ OutOfMemory → result ≡ OutOfMemory }
{
    match error {
        JsonPathError::PestError(place) => JsonPathError::PestError(place_in(text, place)),
        other => other,
    }
}

/// Returns the place in a text, from a place in the query text around it.
fn place_in(text: &str, place: usize) -> usize
    ensures { IsCharBoundary text.now result }
{
    text.floor_char_boundary(place.saturating_sub(OPENING.len()))
}

/// Evaluates a plan that is one filter, at the root. Returns whether the filter holds, and the matchers of the query's
/// patterns, for the next document.
pub fn evaluate<'a, 'p, T: Queryable>(
    alloc: Global,
    request: Request<'_, 'p>,
    root: WholeRef<'a, T>,
) -> (WalkResult<bool>, QueryMatchers<'p>)
    ensures holds { IfOk result.0 (λ b. b
        ≡ holds (expression_of (plan_view request.entry.plan.now)) (document_at root.entry)
        (root_node (tree_of root.entry))) }
    ensures refused { IfErr result.0 (IsWalkError request.entry.budget.limit
        (segments_patterns (filter_query (expression_of (plan_view request.entry.plan.now))))
        (document_at root.entry)) }
{
    let Request {
        plan,
        finders,
        budget,
    } = request;
    let filter = match plan::only_filter(&plan.segments) {
        Some(filter) => filter,
        None => return (Ok(false), finders),
    };
    let slots = DocumentPatternSlots::new();
    let context = WalkContext {
        alloc,
        plan,
        root,
        limit: budget.limit,
    };
    let mut state = WalkState::new(alloc, PatternCache::new(finders, &slots), budget);
    match context.begin(&mut state) {
        Ok(_begun) => {
            let held = context.filter_holds(filter, root, &mut state);
            (held, state.into_finders())
        }
        Err(halt) => (Err(halt), state.into_finders()),
    }
}

/// Returns whether a query is one filter that is a test of a singular query.
pub fn is_one_singular_test(query: &JpQuery) -> bool
    ensures { result ≡ tests_singular (expression_of (query_view query.now)) }
{
    match only_filter(query) {
        Some(filter) => is_singular_filter(filter),
        None => false,
    }
}

/// Returns whether an expression is a test of a singular query, with or without `!`.
fn is_singular_filter(filter: &Filter) -> bool
    ensures { result ≡ tests_singular (filter_view filter.now) }
{
    match filter {
        Filter::Atom(atom) => is_singular_atom(atom),
        Filter::Or(_) => false,
        Filter::And(_) => false,
    }
}

fn is_singular_atom(atom: &FilterAtom) -> bool
    ensures { result ≡ tests_singular (atom_view atom.now) }
{
    match atom {
        FilterAtom::Test { expr, .. } => is_singular_test(expr),
        FilterAtom::Filter { .. } => false,
        FilterAtom::Comparison(_) => false,
    }
}

/// Returns whether a test is a singular query.
fn is_singular_test(test: &Test) -> bool
    ensures { result ≡ typing.is_singular_test (test_view test.now) }
{
    match test {
        Test::RelQuery(segments) => are_steps(segments),
        Test::AbsQuery(query) => is_singular(query),
        Test::Function(_) => false,
    }
}
