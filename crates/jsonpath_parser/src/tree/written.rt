//! The text of a tree, part by part (RFC 9535, 2.1 to 2.5). Each function appends the text of its part; where memory runs
//! out, a part of that may stand there.
ghost use Rattle.std.specs.Prelude.{◌≡◌, [], ◌++◌, OnOk, map, string_bytes};
ghost use Rattle.jsonpath_parser.specs.Prelude.{argument_view, arguments_of, atom_view, call_view, comparable_view, comparison_view, custom_call, filter_view, filters_of, literal_view, query_view, segment_view, segments_of, selector_view, selectors_of, signed_decimal, singular_view, step_view, test_view};
ghost use Rattle.jsonpath_parser.specs.tree.QueryTexts as spec;

use crate::tree::model::display::not_sign;
use crate::tree::model::{
    Comparable, Comparison, Filter, FilterAtom, FnArg, JpQuery, Literal, Segment, Selector,
    SingularQuery, SingularQuerySegment, Test, TestFunction,
};
use crate::words::quoting::push_name_chars;
use itoa::Buffer;
use std::alloc::AllocError;

/// `$` and the segments.
pub fn query(text: &mut String, query: &JpQuery) -> Result<(), AllocError>
    ensures { OnOk result (string_bytes text.new ≡ string_bytes text.old ++ spec.query_text (query_view query.now)) }
{
    text.push('$')?;
    segments(text, &query.segments)
}

#[cycle(written)]
fn segments(text: &mut String, segments: &[Segment]) -> Result<(), AllocError>
    ensures { OnOk result (string_bytes text.new ≡ string_bytes text.old ++ spec.segments_text (segments_of (map segment_view segments.now))) }
{
    'segments: for one in segments {
        segment(text, one)?;
    }
    Ok(())
}

#[cycle(written)]
fn segment(text: &mut String, segment: &Segment) -> Result<(), AllocError>
    ensures { OnOk result (string_bytes text.new ≡ string_bytes text.old ++ spec.segment_text (segment_view segment.now)) }
{
    match segment {
        Segment::Descendant(inner) => {
            text.push_str("..")?;
            self::segment(text, inner)
        }
        Segment::Selector(one) => {
            text.push('[')?;
            selector(text, one)?;
            text.push(']')
        }
        Segment::Selectors(several) => {
            text.push('[')?;
            selectors(text, several)?;
            text.push(']')
        }
    }
}

#[cycle(written)]
fn selectors(text: &mut String, selectors: &[Selector]) -> Result<(), AllocError>
    ensures { OnOk result (string_bytes text.new ≡ string_bytes text.old ++ spec.selectors_text [] (selectors_of (map selector_view selectors.now))) }
{
    let mut before = "";
    'selectors: for one in selectors {
        text.push_str(before)?;
        selector(text, one)?;
        before = ",";
    }
    Ok(())
}

#[cycle(written)]
fn selector(text: &mut String, selector: &Selector) -> Result<(), AllocError>
    ensures { OnOk result (string_bytes text.new ≡ string_bytes text.old ++ spec.selector_text (selector_view selector.now)) }
{
    match selector {
        Selector::Name(name) => string(text, name.as_str()),
        Selector::Wildcard => text.push('*'),
        Selector::Index(index) => number(text, *index),
        Selector::Slice(start, end, step) => slice(text, *start, *end, *step),
        Selector::Filter(inner) => {
            text.push('?')?;
            filter(text, inner)
        }
    }
}

fn slice(
    text: &mut String,
    start: Option<i64>,
    end: Option<i64>,
    step: Option<i64>,
) -> Result<(), AllocError>
    ensures { OnOk result (string_bytes text.new ≡ string_bytes text.old ++ spec.slice_text start end step) }
{
    bound(text, start)?;
    text.push(':')?;
    bound(text, end)?;
    slice_step(text, step)
}

/// The start or the end of a slice.
fn bound(text: &mut String, bound: Option<i64>) -> Result<(), AllocError>
    ensures { OnOk result (string_bytes text.new ≡ string_bytes text.old ++ spec.bound_text bound) }
{
    match bound {
        Some(index) => number(text, index),
        None => Ok(()),
    }
}

fn slice_step(text: &mut String, step: Option<i64>) -> Result<(), AllocError>
    ensures { OnOk result (string_bytes text.new ≡ string_bytes text.old ++ spec.slice_step_text step) }
{
    match step {
        Some(index) => {
            text.push(':')?;
            number(text, index)
        }
        None => Ok(()),
    }
}

#[cycle(written)]
fn filter(text: &mut String, filter: &Filter) -> Result<(), AllocError>
    ensures { OnOk result (string_bytes text.new ≡ string_bytes text.old ++ spec.filter_text (filter_view filter.now)) }
{
    match filter {
        Filter::Or(parts) => filters(text, "||", parts),
        Filter::And(parts) => filters(text, "&&", parts),
        Filter::Atom(one) => atom(text, one),
    }
}

#[cycle(written)]
fn filters(text: &mut String, between: &str, filters: &[Filter]) -> Result<(), AllocError>
    ensures { OnOk result (string_bytes text.new ≡ string_bytes text.old ++ spec.filters_text between.now [] (filters_of (map filter_view filters.now))) }
{
    let mut before = "";
    'filters: for one in filters {
        text.push_str(before)?;
        filter(text, one)?;
        before = between;
    }
    Ok(())
}

#[cycle(written)]
fn atom(text: &mut String, atom: &FilterAtom) -> Result<(), AllocError>
    ensures { OnOk result (string_bytes text.new ≡ string_bytes text.old ++ spec.filter_text (atom_view atom.now)) }
{
    match atom {
        FilterAtom::Filter { expr, not } => {
            text.push_str(not_sign(*not))?;
            text.push('(')?;
            filter(text, expr)?;
            text.push(')')
        }
        FilterAtom::Test { expr, not } => {
            text.push_str(not_sign(*not))?;
            test(text, expr)
        }
        FilterAtom::Comparison(sides) => comparison(text, sides),
    }
}

#[cycle(written)]
fn comparison(text: &mut String, comparison: &Comparison) -> Result<(), AllocError>
    ensures { OnOk result (string_bytes text.new ≡ string_bytes text.old ++ spec.filter_text (comparison_view comparison.now)) }
{
    let (left, operator, right) = match comparison {
        Comparison::Eq(left, right) => (left, "==", right),
        Comparison::Ne(left, right) => (left, "!=", right),
        Comparison::Gt(left, right) => (left, ">", right),
        Comparison::Gte(left, right) => (left, ">=", right),
        Comparison::Lt(left, right) => (left, "<", right),
        Comparison::Lte(left, right) => (left, "<=", right),
    };
    comparable(text, left)?;
    text.push_str(operator)?;
    comparable(text, right)
}

#[cycle(written)]
fn comparable(text: &mut String, comparable: &Comparable) -> Result<(), AllocError>
    ensures { OnOk result (string_bytes text.new ≡ string_bytes text.old ++ spec.argument_text (comparable_view comparable.now)) }
{
    match comparable {
        Comparable::Literal(one) => literal(text, one),
        Comparable::Function(function) => call(text, function),
        Comparable::SingularQuery(query) => singular(text, query),
    }
}

fn literal(text: &mut String, literal: &Literal) -> Result<(), AllocError>
    ensures { OnOk result (string_bytes text.new ≡ string_bytes text.old ++ spec.literal_text (literal_view literal.now)) }
{
    match literal {
        Literal::Int(value) => number(text, *value),
        Literal::String(value) => string(text, value.as_str()),
        Literal::Bool(truth) => text.push_str(word(*truth)),
        Literal::Null => text.push_str("null"),
    }
}

fn word(truth: bool) -> &'static str
    ensures { result.now ≡ spec.bool_text truth }
{
    if truth { "true" } else { "false" }
}

/// A number in decimal.
fn number(text: &mut String, number: i64) -> Result<(), AllocError>
    ensures { OnOk result (string_bytes text.new ≡ string_bytes text.old ++ signed_decimal number) }
{
    text.push_str(Buffer::new().format(number))
}

/// A name or a string between `'`, its characters as in a Normalized Path (2.7).
fn string(text: &mut String, value: &str) -> Result<(), AllocError>
    ensures { OnOk result (string_bytes text.new ≡ string_bytes text.old ++ spec.string_text value.now) }
{
    text.push('\'')?;
    push_name_chars(text, value)?;
    text.push('\'')
}

fn singular(text: &mut String, query: &SingularQuery) -> Result<(), AllocError>
    ensures { OnOk result (string_bytes text.new ≡ string_bytes text.old ++ spec.test_text (singular_view query.now)) }
{
    let (mark, parts) = match query {
        SingularQuery::Current(parts) => ('@', parts),
        SingularQuery::Root(parts) => ('$', parts),
    };
    text.push(mark)?;
    steps(text, parts)
}

fn steps(text: &mut String, steps: &[SingularQuerySegment]) -> Result<(), AllocError>
    ensures { OnOk result (string_bytes text.new ≡ string_bytes text.old ++ spec.segments_text (segments_of (map step_view steps.now))) }
{
    'steps: for one in steps {
        step(text, one)?;
    }
    Ok(())
}

#[tactic(auto, using(crate::proofs::laws::tree::Steps::step_written))]
fn step(text: &mut String, step: &SingularQuerySegment) -> Result<(), AllocError>
    ensures { OnOk result (string_bytes text.new ≡ string_bytes text.old ++ spec.segment_text (step_view step.now)) }
{
    text.push('[')?;
    bare_step(text, step)?;
    text.push(']')
}

/// What stands in the brackets of a step.
fn bare_step(text: &mut String, step: &SingularQuerySegment) -> Result<(), AllocError>
    ensures { OnOk result (string_bytes text.new ≡ string_bytes text.old ++ spec.bare_text (step_view step.now)) }
{
    match step {
        SingularQuerySegment::Index(index) => number(text, *index),
        SingularQuerySegment::Name(name) => string(text, name.as_str()),
    }
}

#[cycle(written)]
fn test(text: &mut String, test: &Test) -> Result<(), AllocError>
    ensures { OnOk result (string_bytes text.new ≡ string_bytes text.old ++ spec.test_text (test_view test.now)) }
{
    match test {
        Test::RelQuery(inner) => {
            text.push('@')?;
            segments(text, inner)
        }
        Test::AbsQuery(query) => {
            text.push('$')?;
            segments(text, &query.segments)
        }
        Test::Function(function) => call(text, function),
    }
}

#[cycle(written)]
fn call(text: &mut String, call: &TestFunction) -> Result<(), AllocError>
    ensures { OnOk result (string_bytes text.new ≡ string_bytes text.old ++ spec.call_text (call_view call.now)) }
{
    let (name, first, second) = match call {
        TestFunction::Custom(name, args) => return custom(text, name.as_str(), args),
        TestFunction::Length(arg) => ("length(", &**arg, None),
        TestFunction::Value(arg) => ("value(", arg, None),
        TestFunction::Count(arg) => ("count(", arg, None),
        TestFunction::Search(left, right) => ("search(", left, Some(right)),
        TestFunction::Match(left, right) => ("match(", left, Some(right)),
    };
    text.push_str(name)?;
    argument(text, first)?;
    if let Some(other) = second {
        text.push(',')?;
        argument(text, other)?;
    }
    text.push(')')
}

/// A call of a function outside the table of types.
#[cycle(written)]
fn custom(text: &mut String, name: &str, args: &[FnArg]) -> Result<(), AllocError>
    ensures { OnOk result (string_bytes text.new ≡ string_bytes text.old ++ spec.call_text (custom_call name.now (arguments_of (map argument_view args.now)))) }
{
    text.push_str(name)?;
    text.push('(')?;
    arguments(text, args)?;
    text.push(')')
}

#[cycle(written)]
fn arguments(text: &mut String, arguments: &[FnArg]) -> Result<(), AllocError>
    ensures { OnOk result (string_bytes text.new ≡ string_bytes text.old ++ spec.arguments_text [] (arguments_of (map argument_view arguments.now))) }
{
    let mut before = "";
    'arguments: for one in arguments {
        text.push_str(before)?;
        argument(text, one)?;
        before = ",";
    }
    Ok(())
}

#[cycle(written)]
fn argument(text: &mut String, argument: &FnArg) -> Result<(), AllocError>
    ensures { OnOk result (string_bytes text.new ≡ string_bytes text.old ++ spec.argument_text (argument_view argument.now)) }
{
    match argument {
        FnArg::Literal(one) => literal(text, one),
        FnArg::Test(inner) => test(text, inner),
        FnArg::Filter(inner) => filter(text, inner),
    }
}
