//! Query trees as query texts that read back (RFC 9535, 2.1 to 2.5).
ghost use Rattle.std.specs.Prelude.{◌≡◌, ◌≤◌, ◌↔◌, ℕ, List, Some, IfOk, IfErr, IfSome, IsSome, IsTrue, string_bytes};
ghost use Rattle.jsonpath_parser.specs.Prelude.{depth, Derives, OutOfMemory, query_text, query_view, Valued};
ghost use Rattle.jsonpath_parser.specs.inner.ReadingQuery as reading;

use crate::errors::{JsonPathError, Parsed};
use crate::grammar::NumberMode;
use crate::parse::typed_query;
use crate::tree::model::JpQuery;
use crate::tree::written;
use crate::words::parse_error::ParseError;
use std::alloc::Global;

/// Whether the text is the query of this tree, however deep it nests.
#[tactic(auto, using(crate::proofs::laws::tree::TreeEquality::query_same))]
fn reads_back(alloc: Global, text: &str, query: &JpQuery) -> Parsed<bool>
    ensures read { IfOk result (λ b. IsTrue b ↔ (reading.typed_query Valued text.now ≡ Some (query_view query.now))) }
    ensures memory { IfErr result (λ e. e ≡ OutOfMemory) }
{
    match typed_query(alloc, NumberMode::Valued, text) {
        Ok(read) => Ok(read == *query),
        Err(ParseError::Memory) => Err(JsonPathError::OutOfMemory),
        Err(ParseError::Syntax(_)) => Ok(false),
    }
}

/// A tree as a text that reads back as exactly this tree (RFC 9535, 2.1 to 2.5). Names and strings stand between `'` as in
/// a Normalized Path (2.7), each selector in brackets, also behind `..`, parentheses where the tree has a group, and no
/// blanks: `$..[?!(@.a<1)||match(@.b,'x')]['k',0]` becomes `$..[?!(@['a']<1)||match(@['b'],'x')]['k',0]`, and that text
/// itself. So equal trees have equal texts, and what is kept for a query may be found by its text.
///
/// Every tree that was read from a text has one. It is None for a tree made by hand that no text derives: one that is not
/// well-typed; of an `Or`, an `And` or `Selectors` with fewer than two parts; of an `Or` or an `And` in an `And`, or an `Or`
/// in an `Or`, with no group around it; of `..` behind `..`; of an index or a part of a slice outside -(2^53 - 1) to
/// 2^53 - 1; of a custom function whose name the grammar does not have, or is one of its own functions'; and of a query or
/// a call alone that stands as a logical expression in an argument.
///
/// A name that stood behind a dot stands in brackets now: `$.a[?@.b]` opens one at once, `$['a'][?@['b']]` two. So the text
/// may nest one deeper than what was read: `nests_deeper` says whether it is within a limit.
///
/// # Errors
///
/// `OutOfMemory` where memory ran out.
///
/// The time is linear in the tree and in its text, which is read once.
pub fn to_query_text(alloc: Global, query: &JpQuery) -> Parsed<Option<String>>
    ensures written { IfOk result (λ o. IfSome o (λ s. string_bytes s ≡ query_text (query_view query.now))) }

    // The text derives this tree at each limit of depth that it does not exceed; by `no_text_derives_two_trees` it derives no other.
    ensures derives { IfOk result (λ o. IfSome o (λ s. (d : ℕ) → depth (string_bytes s) ≤ d → Derives d (string_bytes s) (query_view query.now))) }

    // A tree that some text derives has one.
    ensures read { (d : ℕ) (t : List ℕ) → Derives d t (query_view query.now) → IfOk result (λ o. IsSome o) }
    ensures memory { IfErr result (λ e. e ≡ OutOfMemory) }
{
    let mut text = String::new(alloc);
    written::query(&mut text, query)?;
    if !reads_back(alloc, text.as_str(), query)? {
        return Ok(None);
    }
    Ok(Some(text))
}
