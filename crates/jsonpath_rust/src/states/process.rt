//! The calls that evaluate each part of a query on a state.
ghost use Rattle.std.specs.Prelude.{◌≡◌, [], Bool, IfErr, IfOk, IsTrue, List};
ghost use Rattle.jsonpath_base.specs.Prelude.Documents.{Argument, argument_patterns, argument_view, atom_view, call_patterns, call_view, comparable_view, comparison_view, Document, document_of, filter_patterns, filter_view, literal_tree, literal_view, query_view, segment_patterns, segment_view, segments_patterns, selector_patterns, selector_view, singular_view, step_view, test_patterns, test_view, truth};
ghost use Rattle.jsonpath_rust.specs.Prelude.Documents.{Memory};
ghost use Rattle.jsonpath_parser.specs.tree.View.{steps_view, segments_view};
ghost use Rattle.jsonpath_rust.specs.states.Asking.{IsProcessStop};
ghost use Rattle.jsonpath_rust.specs.states.Process.{segments_content, segment_content, selector_content, filter_content};
ghost use Rattle.jsonpath_rust.specs.states.Process.{basic_content, holds_at, test_content};
ghost use Rattle.jsonpath_rust.specs.states.Process.{call_content, argument_content};
ghost use Rattle.jsonpath_base.specs.documents.State.{Content, value, content_of, DataIsWhole};
ghost use Rattle.jsonpath_rust.specs.states.inner.Evaluating.{content_at, document, HaltsAt, HaltsBelow};

use crate::documents::Queried;
use crate::documents::queryable::Queryable;
use crate::documents::walk_error::WalkResult;
use crate::documents::whole::WholeRef;
use crate::states::evaluate::Evaluation;
use crate::states::evaluate::segments::NodeOperation;
use crate::states::evaluate::single::literal_data;
use crate::states::held::WholeData;
use crate::states::state::State;
use jsonpath_parser::model::{
    Comparable, Comparison, Filter, FilterAtom, FnArg, JpQuery, Literal, Segment, Selector,
    SingularQuery, SingularQuerySegment, Test, TestFunction,
};
use std::alloc::Global;

/// A query, or a part of one, that can be evaluated on a state. It has a result on every state, also on one made by
/// hand, and on trees that are ill-typed (RFC 9535, 2.4.3).
pub trait Query {
    /// What it returns for a document and the content of a state.
    ghost answers: { Self → Document → Content → Content };

    /// The patterns in it: the second argument of each call of `match`, with true, and of `search`, with false.
    ghost patterns: { Self → List (Bool × Argument) };

    /// Returns the result, in the same document.
    ///
    /// # Errors
    ///
    /// - `InvalidJsonPath` where `regex` refuses a pattern for its size: one in the query that is a text that `regex`
    ///   reads at the state, or at a value in the document or in the state's nodes.
    /// - `OutOfMemory` where memory ran out.
    fn process<'a, T: Queryable>(&self, alloc: Global, state: State<'a, T>) -> Queried<State<'a, T>>
        requires root { IsTrue (T.is_whole state.root.now) }
        requires whole { DataIsWhole T.is_whole state.content }
        ensures content { IfOk result (λ s. content_of T.tree s.content
            ≡ answers self.now (document_of T.tree T.custom state.entry.root.now)
            (content_of T.tree state.entry.content)) }
        ensures root { IfOk result (λ s. s.root.now ≡ state.entry.root.now) }
        ensures whole { IfOk result (λ s. DataIsWhole T.is_whole s.content) }
        ensures refused { IfErr result
            (IsProcessStop (patterns self.now) (document_of T.tree T.custom state.entry.root.now)
            (content_of T.tree state.entry.content)) };
}

/// The state of the result, or an error.
type Answered<'a, T> = Queried<State<'a, T>>;

/// Returns what evaluates at the root of a state, and the state's data.
fn begun<'a, T: Queryable>(
    alloc: Global,
    state: State<'a, T>,
) -> (Evaluation<'a, T>, WholeData<'a, T>)
    requires root { IsTrue (T.is_whole state.root.now) }
    requires whole { DataIsWhole T.is_whole state.content }
    ensures root { result.0.root.value.now ≡ state.entry.root.now }
    ensures document { document result.0 ≡ document_of T.tree T.custom state.entry.root.now }
    ensures content { content_at result.1 ≡ content_of T.tree state.entry.content }
{
    let State { content, root } = state;
    let root = WholeRef { value: root };
    (Evaluation { alloc, root }, WholeData { content })
}

impl<'a, T: Queryable> Evaluation<'a, T> {
    /// Returns the state of a result, or the error for a caller.
    fn state_of(&self, answer: WalkResult<WholeData<'a, T>>) -> Answered<'a, T>
        ensures content { (c : Content) → IfOk answer.entry (λ d. content_at d ≡ c) → IfOk result (λ s. content_of T.tree s.content ≡ c) }
        ensures root { IfOk result (λ s. s.root.now ≡ self.now.root.value.now) }
        ensures whole { IfOk result (λ s. DataIsWhole T.is_whole s.content) }
        ensures below { (ps : List (Bool × Argument)) → (d : Document) → (c : Content) →
            IfErr answer.entry (HaltsBelow ps d c) → IfErr result (IsProcessStop ps d c) }
        ensures refused { (ps : List (Bool × Argument)) → (d : Document) → (c : Content) →
            IfErr answer.entry (HaltsAt ps d c) → IfErr result (IsProcessStop ps d c) }
        ensures memory { (ps : List (Bool × Argument)) → (d : Document) → (c : Content) →
            IfErr answer.entry (λ h. h ≡ Memory) → IfErr result (IsProcessStop ps d c) }
    {
        match answer {
            Ok(found) => Ok(State {
                content: found.content,
                root: self.root.value,
            }),
            Err(halt) => Err(halt.into_error(self.alloc)),
        }
    }
}

/// Applies its segments, each to the result before.
impl Query for JpQuery {
    ghost answers = { λ q. segments_content (query_view q) };

    ghost patterns = { λ q. segments_patterns (query_view q) };

    fn process<'a, T: Queryable>(&self, alloc: Global, state: State<'a, T>) -> Answered<'a, T> {
        let (at, given) = begun(alloc, state);
        at.state_of(at.segments_data(&self.segments, given))
    }
}

/// Applies each segment to the result before.
impl Query for Vec<Segment> {
    ghost answers = { λ q. segments_content (segments_view q) };

    ghost patterns = { λ q. segments_patterns (segments_view q) };

    fn process<'a, T: Queryable>(&self, alloc: Global, state: State<'a, T>) -> Answered<'a, T> {
        let (at, given) = begun(alloc, state);
        at.state_of(at.segments_data(self, given))
    }
}

/// Applies its selector; or its selectors node by node; or, for a descendant segment, the inner one to the lists and
/// objects there and below.
impl Query for Segment {
    ghost answers = { λ q. segment_content (segment_view q) };

    ghost patterns = { λ q. segment_patterns (segment_view q) };

    fn process<'a, T: Queryable>(&self, alloc: Global, state: State<'a, T>) -> Answered<'a, T> {
        let (at, given) = begun(alloc, state);
        at.state_of(at.segment_data(self, given))
    }
}

/// Returns what it picks at each node.
impl Query for Selector {
    ghost answers = { λ q. selector_content (selector_view q) };

    ghost patterns = { λ q. selector_patterns (selector_view q) };

    fn process<'a, T: Queryable>(&self, alloc: Global, state: State<'a, T>) -> Answered<'a, T> {
        let (at, given) = begun(alloc, state);
        at.state_of(at.selector_data(self, given))
    }
}

/// Returns the children of each node at which it holds.
impl Query for Filter {
    ghost answers = { λ q. filter_content (filter_view q) };

    ghost patterns = { λ q. filter_patterns (filter_view q) };

    fn process<'a, T: Queryable>(&self, alloc: Global, state: State<'a, T>) -> Answered<'a, T> {
        let (at, given) = begun(alloc, state);
        at.state_of(at.each_target(NodeOperation::Kept(self), given))
    }
}

/// Returns whether it holds. For a call that returns a truth, without `!`, it returns what the call returns.
impl Query for FilterAtom {
    ghost answers = { λ q. basic_content (atom_view q) };

    ghost patterns = { λ q. filter_patterns (atom_view q) };

    fn process<'a, T: Queryable>(&self, alloc: Global, state: State<'a, T>) -> Answered<'a, T> {
        let (at, given) = begun(alloc, state);
        at.state_of(at.atom_data(self, &given))
    }
}

/// Returns whether it holds.
impl Query for Comparison {
    ghost answers = { λ q d c. value (truth (holds_at (comparison_view q) d c)) };

    ghost patterns = { λ q. filter_patterns (comparison_view q) };

    fn process<'a, T: Queryable>(&self, alloc: Global, state: State<'a, T>) -> Answered<'a, T> {
        let (at, given) = begun(alloc, state);
        at.state_of(at.comparison_data(self, &given))
    }
}

/// Returns the literal, what the function returns, or what the singular query selects.
impl Query for Comparable {
    ghost answers = { λ q. argument_content (comparable_view q) };

    ghost patterns = { λ q. argument_patterns (comparable_view q) };

    fn process<'a, T: Queryable>(&self, alloc: Global, state: State<'a, T>) -> Answered<'a, T> {
        let (at, given) = begun(alloc, state);
        at.state_of(at.comparable_data(self, &given))
    }
}

/// Applies its steps to the state or to the root.
impl Query for SingularQuery {
    ghost answers = { λ q. test_content (singular_view q) };

    ghost patterns = { λ q. [] };

    fn process<'a, T: Queryable>(&self, alloc: Global, state: State<'a, T>) -> Answered<'a, T> {
        let (at, given) = begun(alloc, state);
        at.state_of(at.singular_data(self, &given))
    }
}

/// Returns the member or the element of each node.
impl Query for SingularQuerySegment {
    ghost answers = { λ q. segment_content (step_view q) };

    ghost patterns = { λ q. [] };

    fn process<'a, T: Queryable>(&self, alloc: Global, state: State<'a, T>) -> Answered<'a, T> {
        let (at, given) = begun(alloc, state);
        at.state_of(at.step_data(self, given))
    }
}

/// Applies each step to the result before.
impl Query for Vec<SingularQuerySegment> {
    ghost answers = { λ q. segments_content (steps_view q) };

    ghost patterns = { λ q. [] };

    fn process<'a, T: Queryable>(&self, alloc: Global, state: State<'a, T>) -> Answered<'a, T> {
        let (at, given) = begun(alloc, state);
        at.state_of(at.steps_data(self, given))
    }
}

/// Returns the literal, on every state.
impl Query for Literal {
    ghost answers = { λ q d c. value (literal_tree (literal_view q)) };

    ghost patterns = { λ q. [] };

    fn process<'a, T: Queryable>(&self, alloc: Global, state: State<'a, T>) -> Answered<'a, T> {
        let (at, _given) = begun(alloc, state);
        at.state_of(literal_data(alloc, self))
    }
}

/// Applies the segments to the state, or the query to the root, or calls the function.
impl Query for Test {
    ghost answers = { λ q. test_content (test_view q) };

    ghost patterns = { λ q. test_patterns (test_view q) };

    fn process<'a, T: Queryable>(&self, alloc: Global, state: State<'a, T>) -> Answered<'a, T> {
        let (at, given) = begun(alloc, state);
        at.state_of(at.test_data(self, &given))
    }
}

/// Returns what the function returns for its arguments at the state.
impl Query for TestFunction {
    ghost answers = { λ q. call_content (call_view q) };

    ghost patterns = { λ q. call_patterns (call_view q) };

    fn process<'a, T: Queryable>(&self, alloc: Global, state: State<'a, T>) -> Answered<'a, T> {
        let (at, given) = begun(alloc, state);
        at.state_of(at.call_data(self, &given))
    }
}

/// Returns the literal, the result of the test, or whether the filter holds at the state.
impl Query for FnArg {
    ghost answers = { λ q. argument_content (argument_view q) };

    ghost patterns = { λ q. argument_patterns (argument_view q) };

    fn process<'a, T: Queryable>(&self, alloc: Global, state: State<'a, T>) -> Answered<'a, T> {
        let (at, given) = begun(alloc, state);
        at.state_of(at.argument_data(self, &given))
    }
}

/// Returns what the function returns, as [`Query::process`] of it.
pub fn apply<'a, T: Queryable>(
    alloc: Global,
    function: &TestFunction,
    state: State<'a, T>,
) -> Queried<State<'a, T>>
    requires root { IsTrue (T.is_whole state.root.now) }
    requires whole { DataIsWhole T.is_whole state.content }
    ensures content { IfOk result (λ s. content_of T.tree s.content
        ≡ call_content (call_view function.now) (document_of T.tree T.custom state.entry.root.now)
        (content_of T.tree state.entry.content)) }
    ensures root { IfOk result (λ s. s.root.now ≡ state.entry.root.now) }
    ensures whole { IfOk result (λ s. DataIsWhole T.is_whole s.content) }
    ensures refused { IfErr result (IsProcessStop (call_patterns (call_view function.now))
        (document_of T.tree T.custom state.entry.root.now)
        (content_of T.tree state.entry.content)) }
{
    function.process(alloc, state)
}
