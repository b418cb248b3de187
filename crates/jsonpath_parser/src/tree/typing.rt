//! Whether the functions of a query get what they take (RFC 9535, 2.4.3).
ghost use Rattle.std.specs.Prelude.{◌≡◌, map};
ghost use Rattle.jsonpath_parser.specs.tree.Typing as typing;
ghost use Rattle.jsonpath_parser.specs.Prelude.{atom_view, call_view, comparable_view, comparison_view, filter_view, query_view, segment_view, segments_of, selector_view, test_view};

use crate::tree::asking::Question;
use crate::tree::model::{
    Comparable, Comparison, Filter, FilterAtom, JpQuery, Segment, Selector, Test, TestFunction,
};

/// Whether a query tree is well-typed (RFC 9535, 2.4.3): each function takes its arguments, a function that stands as a
/// test gives a truth, and one in a comparison gives a value. So `count(5)` is not, and `length(@.*)` is not.
///
/// A tree that was read from a text is well-typed; one that was made by hand may not be. The time is linear in the tree.
pub fn is_typed(query: &JpQuery) -> bool
    ensures { result ≡ typing.is_typed (query_view query.now) }
{
    segments(&query.segments)
}

#[tactic(auto, using(crate::proofs::laws::tree::Asking::typed_segments))]
pub fn segments(segments: &[Segment]) -> bool
    ensures { result ≡ typing.is_typed (segments_of (map segment_view segments.now)) }
{
    Question::Typed.segments(segments).is_none()
}

#[tactic(auto, using(crate::proofs::laws::tree::Asking::typed_segment))]
pub fn segment(segment: &Segment) -> bool
    ensures { result ≡ typing.is_typed_segment (segment_view segment.now) }
{
    Question::Typed.segment(segment).is_none()
}

#[tactic(auto, using(crate::proofs::laws::tree::Asking::typed_selector))]
pub fn selector(selector: &Selector) -> bool
    ensures { result ≡ typing.is_typed_selector (selector_view selector.now) }
{
    Question::Typed.selector(selector).is_none()
}

#[tactic(auto, using(crate::proofs::laws::tree::Asking::typed_filter))]
pub fn filter(filter: &Filter) -> bool
    ensures { result ≡ typing.is_typed_filter (filter_view filter.now) }
{
    Question::Typed.filter(filter).is_none()
}

#[tactic(auto, using(crate::proofs::laws::tree::Asking::typed_filter))]
pub fn atom(atom: &FilterAtom) -> bool
    ensures { result ≡ typing.is_typed_filter (atom_view atom.now) }
{
    Question::Typed.atom(atom).is_none()
}

#[tactic(auto, using(crate::proofs::laws::tree::Asking::typed_filter))]
pub fn comparison(comparison: &Comparison) -> bool
    ensures { result ≡ typing.is_typed_filter (comparison_view comparison.now) }
{
    Question::Typed.comparison(comparison).is_none()
}

#[tactic(auto, using(crate::proofs::laws::tree::Asking::typed_side))]
pub fn comparable(side: &Comparable) -> bool
    ensures { result ≡ typing.is_typed_side (comparable_view side.now) }
{
    Question::Typed.side(side).is_none()
}

/// Whether the test is well-typed, and gives a truth or is asked for existence.
#[tactic(auto, using(crate::proofs::laws::tree::Asking::truth_test, crate::proofs::laws::tree::Asking::typed_test))]
pub fn truth(test: &Test) -> bool
    ensures { result ≡ typing.is_typed_truth (test_view test.now) }
{
    Question::Typed.of_test(test).is_none() && Question::Typed.test(test).is_none()
}

#[tactic(auto, using(crate::proofs::laws::tree::Asking::typed_call))]
pub fn call(call: &TestFunction) -> bool
    ensures { result ≡ typing.is_typed_call (call_view call.now) }
{
    Question::Typed.call(call).is_none()
}
