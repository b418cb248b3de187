//! Selectors, and selectors between brackets (RFC 9535, 2.3 and 2.5.1).
ghost use Rattle.std.specs.Prelude.{◌≡◌, ℕ, ◌<◌, ◌≤◌, length, IfOk};
ghost use Rattle.jsonpath_parser.specs.Prelude.{number_reading, Reads, segment_view, selector_view, selectors_view};
ghost use Rattle.jsonpath_parser.specs.inner.ReadingGrammar as spec;

use super::filters::logical;
use super::literals::NumberMode;
use super::slices::numbered;
use crate::tree::model::{Segment, Selector};
use crate::words::parse_error::ParseError;
use crate::words::string::string;
use crate::words::text::{first, skip, skip_blank};
use std::alloc::Global;

/// A selector (2.3).
#[cycle(reading)]
#[tactic(auto, unfolding(crate::specs::inner::ReadingGrammar::selector_at))]
pub fn selector(alloc: Global, numbers: NumberMode, s: &str) -> Result<(Selector, &str), ParseError>
    ensures value { (n : ℕ) → length s.now ≤ n → Reads selector_view result (spec.selector_at (number_reading numbers) (spec.argument_at (number_reading numbers) n) s.now) }
    ensures shorter { IfOk result (λ p. length p.1.now < length s.now) }
{
    match first(s) {
        b'*' => Ok((Selector::Wildcard, skip(s, 1))),
        b'?' => {
            let (filter, rest) = logical(alloc, numbers, skip_blank(skip(s, 1)))?;
            Ok((Selector::Filter(filter), rest))
        }
        b'\'' | b'"' => {
            let (name, rest) = string(alloc, s)?;
            Ok((Selector::Name(name), rest))
        }
        _ => numbered(s),
    }
}

/// Selectors with commas between them.
#[cycle(reading)]
#[tactic(auto, unfolding(crate::specs::inner::ReadingLists::separated_at))]
fn selectors(
    alloc: Global,
    numbers: NumberMode,
    s: &str,
) -> Result<(Vec<Selector>, &str), ParseError>
    ensures value { (n k : ℕ) → length s.now ≤ n → length s.now < k → Reads selectors_view result (spec.selectors_at (number_reading numbers) (spec.argument_at (number_reading numbers) n) k s.now) }
    ensures shorter { IfOk result (λ p. length p.1.now < length s.now) }
{
    let mut found = Vec::new(alloc);
    let mut rest = s;
    'selectors: loop {
        let (one, after) = selector(alloc, numbers, rest)?;
        found.push(one)?;
        let next = skip_blank(after);
        if first(next) != b',' {
            return Ok((found, after));
        }
        rest = skip_blank(skip(next, 1));
    }
}

/// One selector alone, or several.
#[tactic(auto, using(crate::proofs::Turns::selection_several))]
fn selection_of(mut selectors: Vec<Selector>) -> Segment
    ensures { segment_view result ≡ spec.selection_of (selectors_view selectors) }
{
    if selectors.len() != 1 {
        return Segment::Selectors(selectors);
    }
    match selectors.pop() {
        Some(selector) => Segment::Selector(selector),
        None => Segment::Selectors(selectors),
    }
}

/// Selectors between brackets (2.5.1).
#[cycle(reading)]
#[tactic(auto, unfolding(crate::specs::inner::ReadingGrammar::selection_at))]
pub fn selection(alloc: Global, numbers: NumberMode, s: &str) -> Result<(Segment, &str), ParseError>
    ensures value { (n : ℕ) → length s.now ≤ n → Reads segment_view result (spec.selection_at (number_reading numbers) (spec.argument_at (number_reading numbers) n) s.now) }
    ensures shorter { IfOk result (λ p. length p.1.now < length s.now) }
{
    if first(s) != b'[' {
        return Err(ParseError::Syntax(s.len()));
    }
    let (selectors, after) = selectors(alloc, numbers, skip_blank(skip(s, 1)))?;
    let end = skip_blank(after);
    if first(end) != b']' {
        return Err(ParseError::Syntax(end.len()));
    }
    Ok((selection_of(selectors), skip(end, 1)))
}
