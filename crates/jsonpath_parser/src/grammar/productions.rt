//! The productions that a part of a query may be: what is read, and how that is turned into the tree (RFC 9535, 2.1 to 2.5).
ghost use Rattle.std.specs.Prelude.{◌≡◌, true, Ok};
ghost use Rattle.jsonpath_parser.specs.Prelude.{argument_view, atom_view, call_view, comparison_view, Gives, literal_view, numbered_at, query_view, Reads, segment_view, segments_view, selector_view, singular_view, test_view};
ghost use Rattle.jsonpath_parser.specs.inner.ReadingParts as spec;

pub use super::filters::{basic, conjunction, logical};
use super::literals::NumberMode;
pub use super::operands::{comparable, filter, operand, steps};
pub use super::segments::{segment, segments};
use super::selectors::selection;
pub use super::selectors::selector;
use super::slices;
use super::words::shorthand;
use crate::tree::model::{
    Comparison, Filter, FilterAtom, FnArg, JpQuery, Literal, Segment, Selector, SingularQuery,
    SliceParts, Test, TestFunction,
};
use crate::words::parse_error::ParseError;
use crate::words::text::first;
use std::alloc::Global;

/// What may stand behind `..`.
#[tactic(auto, unfolding(crate::specs::inner::ReadingParts::child_in))]
pub fn child(alloc: Global, numbers: NumberMode, s: &str) -> Result<(Segment, &str), ParseError>
    ensures { Reads segment_view result (spec.child_in numbers s.now) }
{
    if first(s) == b'[' {
        return selection(alloc, numbers, s);
    }
    let (selector, rest) = shorthand(alloc, s)?;
    Ok((Segment::Selector(selector), rest))
}

/// An index or a slice.
pub fn numbered(_: Global, _: NumberMode, s: &str) -> Result<(Selector, &str), ParseError>
    ensures { Reads selector_view result (numbered_at s.now) }
{
    slices::numbered(s)
}

/// The tree as it was read.
pub fn as_read<T>(tree: T, _remaining: usize) -> Result<T, ParseError>
    ensures { result ≡ Ok tree }
{
    Ok(tree)
}

/// No call stands in the tree.
pub fn has_no_call<T>(_tree: &T) -> bool
    ensures { result ≡ true }
{
    true
}

/// The literal that the operand is; `remaining` bytes follow it, here and below.
pub fn literal_in(operand: FnArg, remaining: usize) -> Result<Literal, ParseError>
    ensures { Gives literal_view result (spec.literal_in (argument_view operand)) }
{
    match operand {
        FnArg::Literal(literal) => Ok(literal),
        FnArg::Test(_) | FnArg::Filter(_) => Err(ParseError::Syntax(remaining)),
    }
}

/// The query or the call that the operand is.
pub fn test_in(operand: FnArg, remaining: usize) -> Result<Test, ParseError>
    ensures { Gives test_view result (spec.test_in (argument_view operand)) }
{
    match operand {
        FnArg::Test(test) => Ok(Box::into_inner(test)),
        FnArg::Literal(_) | FnArg::Filter(_) => Err(ParseError::Syntax(remaining)),
    }
}

/// The call that the operand is.
pub fn call_in(operand: FnArg, remaining: usize) -> Result<TestFunction, ParseError>
    ensures { Gives call_view result (spec.call_in (argument_view operand)) }
{
    match test_in(operand, remaining)? {
        Test::Function(call) => Ok(Box::into_inner(call)),
        Test::RelQuery(_) | Test::AbsQuery(_) => Err(ParseError::Syntax(remaining)),
    }
}

/// The segments behind `@`, where the operand is such a query.
pub fn relative_in(operand: FnArg, remaining: usize) -> Result<Vec<Segment>, ParseError>
    ensures { Gives segments_view result (spec.relative_in (argument_view operand)) }
{
    match test_in(operand, remaining)? {
        Test::RelQuery(segments) => Ok(segments),
        Test::AbsQuery(_) | Test::Function(_) => Err(ParseError::Syntax(remaining)),
    }
}

/// The query from the root that the operand is.
pub fn query_in(operand: FnArg, remaining: usize) -> Result<JpQuery, ParseError>
    ensures { Gives query_view result (spec.query_in (argument_view operand)) }
{
    match test_in(operand, remaining)? {
        Test::AbsQuery(query) => Ok(query),
        Test::RelQuery(_) | Test::Function(_) => Err(ParseError::Syntax(remaining)),
    }
}

/// The singular query that the operand is.
pub fn singular_in(
    alloc: Global,
    operand: FnArg,
    remaining: usize,
) -> Result<SingularQuery, ParseError>
    ensures { Gives singular_view result (spec.singular_in (argument_view operand)) }
{
    match test_in(operand, remaining)? {
        Test::RelQuery(segments) => Ok(SingularQuery::Current(steps(alloc, segments, remaining)?)),
        Test::AbsQuery(query) => Ok(SingularQuery::Root(steps(alloc, query.segments, remaining)?)),
        Test::Function(_) => Err(ParseError::Syntax(remaining)),
    }
}

/// The operand of `&&` that the argument is.
#[tactic(auto, using(crate::proofs::laws::tree::Kinds::atom_is_basic))]
pub fn atom_in(argument: FnArg, remaining: usize) -> Result<FilterAtom, ParseError>
    ensures { Gives atom_view result (spec.atom_in (argument_view argument)) }
{
    match filter(argument, remaining)? {
        Filter::Atom(atom) => Ok(atom),
        Filter::Or(_) | Filter::And(_) => Err(ParseError::Syntax(remaining)),
    }
}

/// The comparison that the argument is.
#[tactic(auto, using(crate::proofs::laws::tree::Kinds::comparison_is_comparison))]
pub fn comparison_in(argument: FnArg, remaining: usize) -> Result<Comparison, ParseError>
    ensures { Gives comparison_view result (spec.comparison_in (argument_view argument)) }
{
    match atom_in(argument, remaining)? {
        FilterAtom::Comparison(comparison) => Ok(Box::into_inner(comparison)),
        FilterAtom::Filter { .. } | FilterAtom::Test { .. } => Err(ParseError::Syntax(remaining)),
    }
}

/// The start, the end and the step, where the selector is a slice.
pub fn slice_in(selector: Selector, remaining: usize) -> Result<SliceParts, ParseError>
    ensures { Gives (λ p. p) result (spec.slice_in (selector_view selector)) }
{
    match selector {
        Selector::Slice(start, end, step) => Ok((start, end, step)),
        Selector::Name(_) | Selector::Wildcard | Selector::Index(_) | Selector::Filter(_) => {
            Err(ParseError::Syntax(remaining))
        }
    }
}
