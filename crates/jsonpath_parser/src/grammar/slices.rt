//! Indexes and slices (RFC 9535, 2.3.3 and 2.3.4).
ghost use Rattle.std.specs.Prelude.{◌≡◌, ◌≢◌, ◌<◌, ◌≤◌, length, IfOk, IfErr};
ghost use Rattle.jsonpath_parser.specs.Prelude.{Reads, selector_view};
ghost use Rattle.jsonpath_parser.specs.inner.ReadingGrammar as spec;

use crate::tree::model::Selector;
use crate::words::int::int;
use crate::words::parse_error::ParseError;
use crate::words::text::{first, skip, skip_blank};

/// Whether an int, or a number literal, begins with this byte.
#[inline]
pub fn is_int_first(byte: u8) -> bool
    ensures { result ≡ spec.is_int_first byte }
{
    byte.is_ascii_digit() || byte == b'-'
}

/// The end of a slice and the blanks behind it, where it stands.
#[tactic(auto, unfolding(crate::specs::inner::ReadingGrammar::end_at))]
fn end(s: &str) -> Result<(Option<i64>, &str), ParseError>
    ensures value { Reads (λ n. n) result (spec.end_at s.now) }
    ensures within { IfOk result (λ p. length p.1.now ≤ length s.now) }
    ensures no_memory { IfErr result (λ e. e ≢ ParseError.Memory) }
{
    if !is_int_first(first(s)) {
        return Ok((None, s));
    }
    let (end, rest) = int(s)?;
    Ok((Some(end), skip_blank(rest)))
}

/// The step of a slice, behind its `:`. Blanks that no int follows are not read.
#[tactic(auto, unfolding(crate::specs::inner::ReadingGrammar::step_at))]
fn step(s: &str) -> Result<(Option<i64>, &str), ParseError>
    ensures value { Reads (λ n. n) result (spec.step_at s.now) }
    ensures within { IfOk result (λ p. length p.1.now ≤ length s.now) }
    ensures no_memory { IfErr result (λ e. e ≢ ParseError.Memory) }
{
    let start = skip_blank(s);
    if !is_int_first(first(start)) {
        return Ok((None, s));
    }
    let (step, rest) = int(start)?;
    Ok((Some(step), rest))
}

/// The end and the step of a slice, behind its first `:`.
#[tactic(auto, unfolding(crate::specs::inner::ReadingGrammar::slice_at))]
fn slice(start: Option<i64>, s: &str) -> Result<(Selector, &str), ParseError>
    ensures value { Reads selector_view result (spec.slice_at start s.now) }
    ensures within { IfOk result (λ p. length p.1.now ≤ length s.now) }
    ensures no_memory { IfErr result (λ e. e ≢ ParseError.Memory) }
{
    let (end, after) = end(skip_blank(s))?;
    if first(after) != b':' {
        return Ok((Selector::Slice(start, end, None), after));
    }
    let (step, rest) = step(skip(after, 1))?;
    Ok((Selector::Slice(start, end, step), rest))
}

/// An index or a slice.
#[tactic(auto, unfolding(crate::specs::inner::ReadingGrammar::numbered_at))]
pub fn numbered(s: &str) -> Result<(Selector, &str), ParseError>
    ensures value { Reads selector_view result (spec.numbered_at s.now) }
    ensures shorter { IfOk result (λ p. length p.1.now < length s.now) }
    ensures no_memory { IfErr result (λ e. e ≢ ParseError.Memory) }
{
    if first(s) == b':' {
        return slice(None, skip(s, 1));
    }
    let (index, rest) = int(s)?;
    let after = skip_blank(rest);
    if first(after) == b':' {
        return slice(Some(index), skip(after, 1));
    }
    Ok((Selector::Index(index), rest))
}
