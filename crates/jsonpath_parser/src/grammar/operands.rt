//! What stands on a side of a comparison, or alone (RFC 9535, 2.3.5.1).
ghost use Rattle.std.specs.Prelude.{◌≡◌, ◌≢◌, ℕ, ◌<◌, ◌≤◌, length, IfOk, option_map, IfErr};
ghost use Rattle.jsonpath_parser.specs.Prelude.{argument_view, comparable_view, filter_view, Gives, number_reading, Reads, segment_view, segments_view, step_view, steps_view};
ghost use Rattle.jsonpath_parser.specs.inner.ReadingGrammar as spec;

use super::calls::called;
use super::literals::{NumberMode, number_literal};
use super::segments::segments;
use super::slices::is_int_first;
use super::words::{word, word_literal};
use crate::tree::model::{
    Comparable, Filter, FilterAtom, FnArg, JpQuery, Literal, Segment, Selector, SingularQuery,
    SingularQuerySegment, Test,
};
use crate::words::parse_error::ParseError;
use crate::words::string::string;
use crate::words::text::{first, skip};
use std::alloc::Global;

/// A call, or a literal that is a word.
#[cycle(reading)]
#[tactic(auto, unfolding(crate::specs::inner::ReadingGrammar::word_operand_at))]
fn word_operand(alloc: Global, numbers: NumberMode, s: &str) -> Result<(FnArg, &str), ParseError>
    ensures value { (n : ℕ) → length s.now ≤ n → Reads argument_view result (spec.word_operand_at (number_reading numbers) (spec.argument_at (number_reading numbers) n) s.now) }
    ensures shorter { IfOk result (λ p. length p.1.now < length s.now) }
{
    let (word, after) = word(s)?;
    if first(after) == b'(' {
        let (call, rest) = called(alloc, numbers, word, skip(after, 1))?;
        let test = Test::Function(Box::new(alloc, call)?);
        return Ok((FnArg::Test(Box::new(alloc, test)?), rest));
    }
    match word_literal(word) {
        Some(literal) => Ok((FnArg::Literal(literal), after)),
        None => Err(ParseError::Syntax(s.len())),
    }
}

/// A literal, a query or a call.
#[cycle(reading)]
#[tactic(auto, unfolding(crate::specs::inner::ReadingGrammar::operand_at))]
pub fn operand(alloc: Global, numbers: NumberMode, s: &str) -> Result<(FnArg, &str), ParseError>
    ensures value { (n : ℕ) → length s.now ≤ n → Reads argument_view result (spec.operand_at (number_reading numbers) (spec.argument_at (number_reading numbers) n) s.now) }
    ensures shorter { IfOk result (λ p. length p.1.now < length s.now) }
{
    match first(s) {
        b'@' => {
            let (segments, rest) = segments(alloc, numbers, skip(s, 1))?;
            let test = Test::RelQuery(segments);
            Ok((FnArg::Test(Box::new(alloc, test)?), rest))
        }
        b'$' => {
            let (segments, rest) = segments(alloc, numbers, skip(s, 1))?;
            let test = Test::AbsQuery(JpQuery::new(segments));
            Ok((FnArg::Test(Box::new(alloc, test)?), rest))
        }
        b'\'' | b'"' => {
            let (text, rest) = string(alloc, s)?;
            Ok((FnArg::Literal(Literal::String(text)), rest))
        }
        byte if is_int_first(byte) => {
            let (value, rest) = number_literal(numbers, s)?;
            Ok((FnArg::Literal(Literal::Int(value)), rest))
        }
        _ => word_operand(alloc, numbers, s),
    }
}

/// A segment of one name or one index as a step of a singular query.
fn step(segment: Segment) -> Option<SingularQuerySegment>
    ensures { option_map step_view result ≡ spec.step_of_segment (segment_view segment) }
{
    match segment {
        Segment::Selector(Selector::Name(name)) => Some(SingularQuerySegment::Name(name)),
        Segment::Selector(Selector::Index(index)) => Some(SingularQuerySegment::Index(index)),
        Segment::Selector(_) | Segment::Selectors(_) | Segment::Descendant(_) => None,
    }
}

/// The segments as steps, where each is one name or one index; `remaining` bytes follow them.
pub fn steps(
    alloc: Global,
    mut segments: Vec<Segment>,
    remaining: usize,
) -> Result<Vec<SingularQuerySegment>, ParseError>
    ensures { Gives steps_view result (spec.steps_in (segments_view segments)) }
{
    let mut found = Vec::with_capacity(alloc, segments.len())?;
    segments.reverse();
    'steps: while let Some(segment) = segments.pop() {
        match step(segment) {
            Some(step) => found.push(step)?,
            None => return Err(ParseError::Syntax(remaining)),
        }
    }
    Ok(found)
}

/// The operand as a side of a comparison; `remaining` bytes follow it.
pub fn comparable(alloc: Global, operand: FnArg, remaining: usize) -> Result<Comparable, ParseError>
    ensures { Gives comparable_view result (spec.comparable_of (argument_view operand)) }
{
    match operand {
        FnArg::Literal(literal) => Ok(Comparable::Literal(literal)),
        FnArg::Test(test) => match Box::into_inner(test) {
            Test::RelQuery(segments) => {
                let steps = steps(alloc, segments, remaining)?;
                Ok(Comparable::SingularQuery(SingularQuery::Current(steps)))
            }
            Test::AbsQuery(query) => {
                let steps = steps(alloc, query.segments, remaining)?;
                Ok(Comparable::SingularQuery(SingularQuery::Root(steps)))
            }
            Test::Function(call) => Ok(Comparable::Function(Box::into_inner(call))),
        },
        FnArg::Filter(_) => Err(ParseError::Syntax(remaining)),
    }
}

/// The argument as a logical expression; `remaining` bytes follow it.
pub fn filter(argument: FnArg, remaining: usize) -> Result<Filter, ParseError>
    ensures value { Gives filter_view result (spec.filter_of (argument_view argument)) }
    ensures no_memory { IfErr result (λ e. e ≢ ParseError.Memory) }
{
    match argument {
        FnArg::Literal(_) => Err(ParseError::Syntax(remaining)),
        FnArg::Test(expr) => Ok(Filter::Atom(FilterAtom::Test { expr, not: false })),
        FnArg::Filter(filter) => Ok(filter),
    }
}

/// The test behind `!`; `remaining` bytes follow it.
pub fn negated_test(operand: FnArg, remaining: usize) -> Result<FnArg, ParseError>
    ensures value { Gives argument_view result (spec.negated_of (argument_view operand)) }
    ensures no_memory { IfErr result (λ e. e ≢ ParseError.Memory) }
{
    match operand {
        FnArg::Test(expr) => Ok(FnArg::Filter(Filter::Atom(FilterAtom::Test { expr, not: true }))),
        FnArg::Literal(_) | FnArg::Filter(_) => Err(ParseError::Syntax(remaining)),
    }
}
