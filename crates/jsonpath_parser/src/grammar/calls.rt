//! Calls of functions (RFC 9535, 2.4).
ghost use Rattle.std.specs.Prelude.{ℕ, ◌<◌, ◌≤◌, length, IfOk};
ghost use Rattle.jsonpath_parser.specs.Prelude.{arguments_view, call_view, number_reading, Reads};
ghost use Rattle.jsonpath_parser.specs.inner.ReadingGrammar as spec;

use super::filters::argument;
use super::literals::NumberMode;
use crate::tree::call_of;
use crate::tree::model::{FnArg, TestFunction};
use crate::words::parse_error::ParseError;
use crate::words::text::{first, skip, skip_blank};
use std::alloc::Global;

/// Arguments with commas between them.
#[cycle(reading)]
#[tactic(auto, unfolding(crate::specs::inner::ReadingLists::separated_at))]
fn some_arguments(
    alloc: Global,
    numbers: NumberMode,
    s: &str,
) -> Result<(Vec<FnArg>, &str), ParseError>
    ensures value { (n k : ℕ) → length s.now < n → length s.now < k → Reads arguments_view result (spec.arguments_at (number_reading numbers) (spec.argument_at (number_reading numbers) n) k s.now) }
    ensures shorter { IfOk result (λ p. length p.1.now < length s.now) }
{
    let mut found = Vec::new(alloc);
    let mut rest = s;
    'arguments: loop {
        let (one, after) = argument(alloc, numbers, rest)?;
        found.push(one)?;
        let next = skip_blank(after);
        if first(next) != b',' {
            return Ok((found, after));
        }
        rest = skip_blank(skip(next, 1));
    }
}

/// Arguments, perhaps none, up to `)`.
#[cycle(reading)]
#[tactic(auto, unfolding(crate::specs::inner::ReadingGrammar::all_arguments_at))]
fn arguments(alloc: Global, numbers: NumberMode, s: &str) -> Result<(Vec<FnArg>, &str), ParseError>
    ensures value { (n : ℕ) → length s.now < n → Reads arguments_view result (spec.all_arguments_at (number_reading numbers) (spec.argument_at (number_reading numbers) n) s.now) }
    ensures within { IfOk result (λ p. length p.1.now ≤ length s.now) }
{
    if first(s) == b')' {
        return Ok((Vec::new(alloc), s));
    }
    some_arguments(alloc, numbers, s)
}

/// The call of the function of this name, behind its `(`.
#[cycle(reading)]
#[tactic(auto, unfolding(crate::specs::inner::ReadingGrammar::called_at))]
pub fn called<'s>(
    alloc: Global,
    numbers: NumberMode,
    name: &str,
    s: &'s str,
) -> Result<(TestFunction, &'s str), ParseError>
    ensures value { (n : ℕ) → length s.now < n → Reads call_view result (spec.called_at (number_reading numbers) (spec.argument_at (number_reading numbers) n) name.now s.now) }
    ensures shorter { IfOk result (λ p. length p.1.now < length s.now) }
{
    let (args, after) = arguments(alloc, numbers, skip_blank(s))?;
    let end = skip_blank(after);
    if first(end) != b')' {
        return Err(ParseError::Syntax(end.len()));
    }
    match call_of(alloc, name, args)? {
        Some(call) => Ok((call, skip(end, 1))),
        None => Err(ParseError::Syntax(s.len())),
    }
}
