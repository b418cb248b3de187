//! Segments (RFC 9535, 2.5).
ghost use Rattle.std.specs.Prelude.{◌≡◌, ℕ, ◌<◌, ◌≤◌, length, IfOk};
ghost use Rattle.jsonpath_parser.specs.Prelude.{number_reading, Reads, segment_view, segments_view};
ghost use Rattle.jsonpath_parser.specs.inner.ReadingGrammar as spec;

use super::literals::NumberMode;
use super::selectors::selection;
use super::words::shorthand;
use crate::tree::model::Segment;
use crate::words::parse_error::ParseError;
use crate::words::text::{byte_at, first, skip, skip_blank};
use std::alloc::Global;

/// What stands behind `..` (2.5.2.1).
#[cycle(reading)]
#[tactic(auto, unfolding(crate::specs::inner::ReadingGrammar::descendant_at))]
fn descendant(alloc: Global, numbers: NumberMode, s: &str) -> Result<(Segment, &str), ParseError>
    ensures value { (n : ℕ) → length s.now ≤ n → Reads segment_view result (spec.descendant_at (number_reading numbers) (spec.argument_at (number_reading numbers) n) s.now) }
    ensures within { IfOk result (λ p. length p.1.now ≤ length s.now) }
{
    if first(s) == b'[' {
        let (inner, rest) = selection(alloc, numbers, s)?;
        return Ok((Segment::Descendant(Box::new(alloc, inner)?), rest));
    }
    let (selector, rest) = shorthand(alloc, s)?;
    let inner = Segment::Selector(selector);
    Ok((Segment::Descendant(Box::new(alloc, inner)?), rest))
}

/// A segment (2.5).
#[cycle(reading)]
#[tactic(auto, unfolding(crate::specs::inner::ReadingGrammar::segment_at))]
pub fn segment(alloc: Global, numbers: NumberMode, s: &str) -> Result<(Segment, &str), ParseError>
    ensures value { (n : ℕ) → length s.now ≤ n → Reads segment_view result (spec.segment_at (number_reading numbers) (spec.argument_at (number_reading numbers) n) s.now) }
    ensures shorter { IfOk result (λ p. length p.1.now < length s.now) }
{
    if first(s) != b'.' {
        return selection(alloc, numbers, s);
    }
    if byte_at(s, 1) == b'.' {
        return descendant(alloc, numbers, skip(s, 2));
    }
    let (selector, rest) = shorthand(alloc, skip(s, 1))?;
    Ok((Segment::Selector(selector), rest))
}

fn starts_segment(s: &str) -> bool
    ensures { result ≡ spec.starts_segment s.now }
{
    first(s) == b'.' || first(s) == b'['
}

/// Segments, each perhaps after blanks. Blanks that no segment follows are not read.
#[cycle(reading)]
#[tactic(auto, unfolding(crate::specs::inner::ReadingGrammar::all_segments_at, crate::specs::inner::ReadingLists::many_at))]
pub fn segments(
    alloc: Global,
    numbers: NumberMode,
    s: &str,
) -> Result<(Vec<Segment>, &str), ParseError>
    ensures value { (n : ℕ) → length s.now ≤ n → Reads segments_view result (spec.all_segments_at (number_reading numbers) (spec.argument_at (number_reading numbers) n) s.now) }
    ensures within { IfOk result (λ p. length p.1.now ≤ length s.now) }
{
    let mut found = Vec::new(alloc);
    let mut rest = s;
    'segments: loop {
        let start = skip_blank(rest);
        if !starts_segment(start) {
            return Ok((found, rest));
        }
        let (one, after) = segment(alloc, numbers, start)?;
        found.push(one)?;
        rest = after;
    }
}
