//! The reading functions: from a text to a tree and the text after it (RFC 9535, 2.1 to 2.5). Each reads its text
//! once, from the left, and never goes back over what it has read, so the time is linear in the text.
ghost use Rattle.std.specs.Prelude.{ℕ, ◌≤◌, length};
ghost use Rattle.jsonpath_parser.specs.Prelude.{Gives, number_reading, query_view, Reads};
ghost use Rattle.jsonpath_parser.specs.inner.ReadingGrammar as spec;

mod calls;
mod filters;
mod literals;
mod operands;
pub mod productions;
mod segments;
mod selectors;
mod slices;
mod words;

pub use self::literals::NumberMode;
use self::segments::segments;
use crate::tree::model::JpQuery;
use crate::words::parse_error::ParseError;
use crate::words::text::{first, skip};
use std::alloc::Global;

/// `$` and segments (2.1.1, 2.2.1).
#[tactic(auto, unfolding(crate::specs::inner::ReadingGrammar::query_at))]
fn query(alloc: Global, numbers: NumberMode, s: &str) -> Result<(JpQuery, &str), ParseError>
    ensures value { (n : ℕ) → length s.now ≤ n → Reads query_view result (spec.query_at (number_reading numbers) n s.now) }
{
    if first(s) != b'$' {
        return Err(ParseError::Syntax(s.len()));
    }
    let (segments, rest) = segments(alloc, numbers, skip(s, 1))?;
    Ok((JpQuery::new(segments), rest))
}

/// The query that the whole text is.
#[tactic(auto, unfolding(crate::specs::inner::ReadingGrammar::whole_query))]
pub fn whole_query(alloc: Global, numbers: NumberMode, s: &str) -> Result<JpQuery, ParseError>
    ensures { Gives query_view result (spec.whole_query (number_reading numbers) s.now) }
{
    let (query, rest) = query(alloc, numbers, s)?;
    if !rest.is_empty() {
        return Err(ParseError::Syntax(rest.len()));
    }
    Ok(query)
}
