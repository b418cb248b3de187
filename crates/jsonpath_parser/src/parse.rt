//! Query texts to query trees, at a limit of depth (RFC 9535, 2.1 and 4.1).
ghost use Rattle.std.specs.Prelude.{◌≡◌, ◌<◌, ◌≤◌, Some, IfOk, IfErr};
ghost use Rattle.jsonpath_parser.specs.Prelude.{Derives, Gives, HasIndexesInRange, IsCharBoundary, IsNormal, IsReadRefusal, IsRefusal, IsValuelessIn, Location, Query, query_view, Spells, SpellsNumber, steps_query, Valued};
ghost use Rattle.jsonpath_parser.specs.words.Depth as spec;
ghost use Rattle.jsonpath_parser.specs.Derives.{Answers};
ghost use Rattle.jsonpath_parser.specs.inner.ReadingQuery as reading;
ghost use Rattle.jsonpath_parser.specs.inner.ReadingQuery.{IsTextRefusal};

use crate::errors::{JsonPathError, Parsed};
use crate::grammar::{NumberMode, whole_query};
use crate::tree::is_typed;
use crate::tree::model::JpQuery;
use crate::words::depth::nests_deeper;
use crate::words::number::number;
use crate::words::parse_error::ParseError;
use std::alloc::Global;

/// How many brackets may stand open in a query text.
pub const MAX_NESTING_DEPTH: usize = 128;

/// The query that the whole text is, where it is well-typed.
#[tactic(auto, unfolding(crate::specs::inner::ReadingQuery::typed_query))]
pub fn typed_query(alloc: Global, numbers: NumberMode, text: &str) -> Result<JpQuery, ParseError>
    ensures { Gives query_view result (reading.typed_query numbers text.now) }
{
    let query = whole_query(alloc, numbers, text)?;
    if !is_typed(&query) {
        return Err(ParseError::Syntax(0));
    }
    Ok(query)
}

/// The number literal without a value at the front, or no text where none stands there.
#[tactic(auto, using(crate::proofs::ValuelessLaws::number_boundary, crate::proofs::ValuelessLaws::valueless_front))]
fn valueless(s: &str) -> &str
    ensures { IsValuelessIn s.now result.now }
{
    match number(s) {
        Ok((None, rest)) => s.split_at(s.len().saturating_sub(rest.len())).0,
        _ => "",
    }
}

/// The place where so many bytes are left, between two characters or at an end of the text.
pub fn place_at(text: &str, remaining: usize) -> usize
    ensures { IsCharBoundary text.now result }
{
    // What is left is an end of the text, so this is its start.
    text.floor_char_boundary(text.len().saturating_sub(remaining))
}

/// The number literal without a value that stands where so many bytes are left, or no text where none stands there.
pub fn literal_at(text: &str, remaining: usize) -> &str
    ensures { IsValuelessIn text.now result.now }
{
    let (_, start) = text.split_at(place_at(text, remaining));
    valueless(start)
}

/// The refusal of a text that is no query, whose reading stopped where so many bytes were left.
fn refusal(alloc: Global, text: &str, remaining: usize) -> JsonPathError
    ensures { IsTextRefusal text.now result }
{
    match typed_query(alloc, NumberMode::Any, text) {
        Ok(_) => match String::from_str(alloc, literal_at(text, remaining)) {
            Ok(literal) => JsonPathError::InvalidNumber(literal),
            Err(_) => JsonPathError::OutOfMemory,
        },
        Err(ParseError::Memory) => JsonPathError::OutOfMemory,
        Err(ParseError::Syntax(remaining)) => JsonPathError::PestError(place_at(text, remaining)),
    }
}

/// The query that the text is, where no more than `depth` brackets stand open.
fn read_within(alloc: Global, text: &str, depth: usize) -> Parsed<JpQuery>
    ensures within { IfOk result (λ q. spec.depth text.now ≤ depth) }
    ensures read { IfOk result (λ q. reading.typed_query Valued text.now ≡ Some (query_view q)) }
    ensures refused { IfErr result (IsReadRefusal depth text.now) }
    ensures too_deep { depth < spec.depth text.now → result ≡ Err (JsonPathError.MaxNestingDepthExceeded depth) }
{
    if nests_deeper(text, depth) {
        return Err(JsonPathError::MaxNestingDepthExceeded(depth));
    }
    match typed_query(alloc, NumberMode::Valued, text) {
        Ok(query) => Ok(query),
        Err(ParseError::Memory) => Err(JsonPathError::OutOfMemory),
        Err(ParseError::Syntax(remaining)) => Err(refusal(alloc, text, remaining)),
    }
}

/// The query that the text is, as RFC 9535, 2.1 spells it: nothing stands before `$`, and nothing after the last segment.
/// A Normalized Path (2.7) is the query of its steps, one name or one index for each, where its indexes lie below 2^53.
///
/// # Errors
///
/// - `MaxNestingDepthExceeded(128)` where more than 128 brackets stand open. It is looked at before all else.
/// - `InvalidNumber(literal)` where the text would be a query, but a number literal in it is not whole or lies outside
///   -2^63 to 2^63 - 1. It is the first such literal, as written.
/// - `PestError(place)` where the text is no query for another cause: its spelling, an index or a part of a slice
///   outside -(2^53 - 1) to 2^53 - 1, or a function that does not take its arguments or stands where it may not (2.4.3).
///   The place is where reading stopped, a count of bytes from the start: it is at most the text's length and stands
///   between two characters, so `&text[..place]` can be shown.
/// - `OutOfMemory` where memory ran out.
///
/// The time is linear in the length of the text. Only a text that is refused is read twice.
pub fn parse_json_path(alloc: Global, text: &str) -> Parsed<JpQuery>
    ensures limit { MAX_NESTING_DEPTH ≡ 128 }
    ensures derived { IfOk result (λ q. Derives MAX_NESTING_DEPTH text.now (query_view q)) }

    // Every tree that the text derives is the one answered, unless memory ran out.
    ensures complete { (t : Query) → Derives MAX_NESTING_DEPTH text.now t → Answers result t }

    // At Ok no other tree is spelled, each of its number literals with a value or without.
    ensures one_tree { (t : Query) → Spells SpellsNumber t text.now → IfOk result (λ q. query_view q ≡ t) }

    // A Normalized Path is refused by `OutOfMemory` alone.
    ensures normal { (l : Location) → IsNormal l text.now → HasIndexesInRange l → Answers result (steps_query l) }
    ensures refused { IfErr result (IsRefusal MAX_NESTING_DEPTH text.now) }
    ensures too_deep { MAX_NESTING_DEPTH < spec.depth text.now → result ≡ Err (JsonPathError.MaxNestingDepthExceeded MAX_NESTING_DEPTH) }
{
    parse_json_path_within(alloc, text, MAX_NESTING_DEPTH)
}

/// The query that the text is, where no more than `depth` brackets stand open. It is `parse_json_path` at another limit.
///
/// # Errors
///
/// - `MaxNestingDepthExceeded(depth)` where more brackets stand open. It is looked at before all else, and takes no memory.
/// - `InvalidNumber(literal)`, `PestError(place)` and `OutOfMemory`, as `parse_json_path`.
///
/// The time is linear in the length of the text. Only a text that is refused is read twice.
#[tactic(auto, using(crate::proofs::Whole::read_derives, crate::proofs::Whole::read_only, crate::proofs::Whole::refused_only, crate::proofs::Whole::read_one, crate::proofs::Whole::refusal_of))]
pub fn parse_json_path_within(alloc: Global, text: &str, depth: usize) -> Parsed<JpQuery>
    ensures derived { IfOk result (λ q. Derives depth text.now (query_view q)) }
    ensures complete { (t : Query) → Derives depth text.now t → Answers result t }
    ensures one_tree { (t : Query) → Spells SpellsNumber t text.now → IfOk result (λ q. query_view q ≡ t) }
    ensures normal { (l : Location) → IsNormal l text.now → HasIndexesInRange l → 1 ≤ depth → Answers result (steps_query l) }
    ensures refused { IfErr result (IsRefusal depth text.now) }
    ensures too_deep { depth < spec.depth text.now → result ≡ Err (JsonPathError.MaxNestingDepthExceeded depth) }
{
    // The two arms are the two cases of the contract: the lemmas above serve one each.
    match read_within(alloc, text, depth) {
        Ok(query) => Ok(query),
        Err(error) => Err(error),
    }
}
