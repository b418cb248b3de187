//! Logical expressions, and the arguments of calls, which are the widest production (RFC 9535, 2.3.5.1 and 2.4).
ghost use Rattle.std.specs.Prelude.{ℕ, ◌<◌, ◌≤◌, [], ◌∷◌, length, IfOk};
ghost use Rattle.jsonpath_parser.specs.Prelude.{argument_view, filter_then, filter_view, filters_view, found_then, number_reading, Reads};
ghost use Rattle.jsonpath_parser.specs.inner.ReadingGrammar as spec;

use super::literals::NumberMode;
use super::operands::{comparable, filter, negated_test, operand};
use super::words::{is_operator_first, is_twice, read_operator};
use crate::tree::model::{Filter, FilterAtom, FnArg};
use crate::words::parse_error::ParseError;
use crate::words::text::{first, skip, skip_blank};
use std::alloc::Global;

/// A group in parentheses.
#[cycle(reading)]
#[tactic(auto, unfolding(crate::specs::inner::ReadingGrammar::group_at))]
fn group(
    alloc: Global,
    numbers: NumberMode,
    not: bool,
    s: &str,
) -> Result<(FnArg, &str), ParseError>
    ensures value { (n : ℕ) → length s.now ≤ n → Reads argument_view result (spec.group_at (number_reading numbers) (spec.argument_at (number_reading numbers) n) not s.now) }
    ensures shorter { IfOk result (λ p. length p.1.now < length s.now) }
{
    if first(s) != b'(' {
        return Err(ParseError::Syntax(s.len()));
    }
    let (expr, after) = logical(alloc, numbers, skip_blank(skip(s, 1)))?;
    let end = skip_blank(after);
    if first(end) != b')' {
        return Err(ParseError::Syntax(end.len()));
    }
    let expr = Box::new(alloc, expr)?;
    let atom = FilterAtom::Filter { expr, not };
    Ok((FnArg::Filter(Filter::Atom(atom)), skip(end, 1)))
}

/// A group or a test, behind `!`.
#[cycle(reading)]
#[tactic(auto, unfolding(crate::specs::inner::ReadingGrammar::negated_at))]
fn negated(alloc: Global, numbers: NumberMode, s: &str) -> Result<(FnArg, &str), ParseError>
    ensures value { (n : ℕ) → length s.now ≤ n → Reads argument_view result (spec.negated_at (number_reading numbers) (spec.argument_at (number_reading numbers) n) s.now) }
    ensures shorter { IfOk result (λ p. length p.1.now < length s.now) }
{
    if first(s) == b'(' {
        return group(alloc, numbers, true, s);
    }
    let (test, rest) = operand(alloc, numbers, s)?;
    Ok((negated_test(test, rest.len())?, rest))
}

/// A comparison, from its operator on.
#[cycle(reading)]
#[tactic(auto, unfolding(crate::specs::inner::ReadingGrammar::compared_at))]
fn compared(
    alloc: Global,
    numbers: NumberMode,
    left: FnArg,
    s: &str,
) -> Result<(FnArg, &str), ParseError>
    ensures value { (n : ℕ) → length s.now ≤ n → Reads argument_view result (spec.compared_at (number_reading numbers) (spec.argument_at (number_reading numbers) n) (argument_view left) s.now) }
    ensures shorter { IfOk result (λ p. length p.1.now < length s.now) }
{
    let (operator, after) = read_operator(s)?;
    let (right, rest) = operand(alloc, numbers, skip_blank(after))?;
    let left = comparable(alloc, left, s.len())?;
    let right = comparable(alloc, right, rest.len())?;
    let atom = FilterAtom::Comparison(Box::new(alloc, operator.compare(left, right))?);
    Ok((FnArg::Filter(Filter::Atom(atom)), rest))
}

/// An operand alone, or a comparison.
#[cycle(reading)]
#[tactic(auto, unfolding(crate::specs::inner::ReadingGrammar::plain_at))]
fn plain(alloc: Global, numbers: NumberMode, s: &str) -> Result<(FnArg, &str), ParseError>
    ensures value { (n : ℕ) → length s.now ≤ n → Reads argument_view result (spec.plain_at (number_reading numbers) (spec.argument_at (number_reading numbers) n) s.now) }
    ensures shorter { IfOk result (λ p. length p.1.now < length s.now) }
{
    let (left, rest) = operand(alloc, numbers, s)?;
    let next = skip_blank(rest);
    if is_operator_first(first(next)) {
        return compared(alloc, numbers, left, next);
    }
    Ok((left, rest))
}

/// An operand of `&&`, or a literal.
#[cycle(reading)]
#[tactic(auto, unfolding(crate::specs::inner::ReadingGrammar::basic_at))]
pub fn basic(alloc: Global, numbers: NumberMode, s: &str) -> Result<(FnArg, &str), ParseError>
    ensures value { (n : ℕ) → length s.now ≤ n → Reads argument_view result (spec.basic_at (number_reading numbers) (spec.argument_at (number_reading numbers) n) s.now) }
    ensures shorter { IfOk result (λ p. length p.1.now < length s.now) }
{
    match first(s) {
        b'!' => negated(alloc, numbers, skip_blank(skip(s, 1))),
        b'(' => group(alloc, numbers, false, s),
        _ => plain(alloc, numbers, s),
    }
}

/// The operands of `&&` from the first one on.
#[cycle(reading)]
#[tactic(auto, unfolding(crate::specs::inner::ReadingLists::many_at))]
fn ands(
    alloc: Global,
    numbers: NumberMode,
    first_part: Filter,
    s: &str,
) -> Result<(Vec<Filter>, &str), ParseError>
    ensures value { (n k : ℕ) → length s.now ≤ n → length s.now < k → Reads filters_view result (found_then filter_then (filter_view first_part ∷ []) (spec.ands_at (number_reading numbers) (spec.argument_at (number_reading numbers) n) k s.now)) }
    ensures within { IfOk result (λ p. length p.1.now ≤ length s.now) }
{
    let mut found = Vec::new(alloc);
    found.push(first_part)?;
    let mut rest = s;
    'ands: loop {
        let next = skip_blank(rest);
        if !is_twice(b'&', next) {
            return Ok((found, rest));
        }
        let (one, after) = basic(alloc, numbers, skip_blank(skip(next, 2)))?;
        found.push(filter(one, after.len())?)?;
        rest = after;
    }
}

/// An operand of `||`, or a literal.
#[cycle(reading)]
#[tactic(auto, unfolding(crate::specs::inner::ReadingGrammar::conjunction_at))]
pub fn conjunction(alloc: Global, numbers: NumberMode, s: &str) -> Result<(FnArg, &str), ParseError>
    ensures value { (n : ℕ) → length s.now ≤ n → Reads argument_view result (spec.conjunction_at (number_reading numbers) (spec.argument_at (number_reading numbers) n) s.now) }
    ensures shorter { IfOk result (λ p. length p.1.now < length s.now) }
{
    let (one, after) = basic(alloc, numbers, s)?;
    if !is_twice(b'&', skip_blank(after)) {
        return Ok((one, after));
    }
    let (all, rest) = ands(alloc, numbers, filter(one, after.len())?, after)?;
    Ok((FnArg::Filter(Filter::And(all)), rest))
}

/// The operands of `||` from the first one on.
#[cycle(reading)]
#[tactic(auto, unfolding(crate::specs::inner::ReadingLists::many_at))]
fn ors(
    alloc: Global,
    numbers: NumberMode,
    first_part: Filter,
    s: &str,
) -> Result<(Vec<Filter>, &str), ParseError>
    ensures value { (n k : ℕ) → length s.now ≤ n → length s.now < k → Reads filters_view result (found_then filter_then (filter_view first_part ∷ []) (spec.ors_at (number_reading numbers) (spec.argument_at (number_reading numbers) n) k s.now)) }
    ensures within { IfOk result (λ p. length p.1.now ≤ length s.now) }
{
    let mut found = Vec::new(alloc);
    found.push(first_part)?;
    let mut rest = s;
    'ors: loop {
        let next = skip_blank(rest);
        if !is_twice(b'|', next) {
            return Ok((found, rest));
        }
        let (one, after) = conjunction(alloc, numbers, skip_blank(skip(next, 2)))?;
        found.push(filter(one, after.len())?)?;
        rest = after;
    }
}

/// An argument of a call: a literal, a query or a call alone, or a logical expression.
#[cycle(reading)]
#[tactic(auto, unfolding(crate::specs::inner::ReadingGrammar::disjunction_at))]
pub fn argument(alloc: Global, numbers: NumberMode, s: &str) -> Result<(FnArg, &str), ParseError>
    ensures value { (n : ℕ) → length s.now ≤ n → Reads argument_view result (spec.disjunction_at (number_reading numbers) (spec.argument_at (number_reading numbers) n) s.now) }
    ensures shorter { IfOk result (λ p. length p.1.now < length s.now) }
{
    let (one, after) = conjunction(alloc, numbers, s)?;
    if !is_twice(b'|', skip_blank(after)) {
        return Ok((one, after));
    }
    let (all, rest) = ors(alloc, numbers, filter(one, after.len())?, after)?;
    Ok((FnArg::Filter(Filter::Or(all)), rest))
}

/// A logical expression (2.3.5.1).
#[cycle(reading)]
#[tactic(auto, unfolding(crate::specs::inner::ReadingGrammar::logical_at, crate::specs::inner::ReadingGrammar::argument_at))]
pub fn logical(alloc: Global, numbers: NumberMode, s: &str) -> Result<(Filter, &str), ParseError>
    ensures value { (n : ℕ) → length s.now < n → Reads filter_view result (spec.logical_at (number_reading numbers) (spec.argument_at (number_reading numbers) n) s.now) }
    ensures shorter { IfOk result (λ p. length p.1.now < length s.now) }
{
    let (argument, rest) = argument(alloc, numbers, s)?;
    Ok((filter(argument, rest.len())?, rest))
}
