//! What a query can reach, known before any document (RFC 9535, 2.3.5 and 2.4).
ghost use Rattle.std.specs.Prelude.{◌≡◌, map, option_map};
ghost use Rattle.jsonpath_parser.specs.tree.Reach as reach;
ghost use Rattle.jsonpath_parser.specs.tree.Typing as typing;
ghost use Rattle.jsonpath_parser.specs.Prelude.{query_view, segment_view, segments_of};

use crate::tree::asking::Question;
use crate::tree::model::{JpQuery, Segment, call};

/// Whether a query is singular (RFC 9535, 2.3.5.1), one that selects a node at most by its form alone: each of its
/// segments is one name or one index, as in `$.a[0]`. `$.a[*]` and `$..a` are not, and `$` is.
///
/// The time is linear in its segments.
pub fn is_singular(query: &JpQuery) -> bool
    ensures { result ≡ typing.is_singular (query_view query.now) }
{
    call::are_steps(&query.segments)
}

/// Whether no filter of a query has a `$`: no query from the root, singular or not, in filters at any depth and in the
/// arguments of calls there (RFC 9535, 2.3.5). The `$` in front of the query does not count. So `$.a[?@.b>10]` is local,
/// and `$.a[?@.b>$.c]` is not.
///
/// The time is linear in the tree.
pub fn is_local(query: &JpQuery) -> bool
    ensures { result ≡ reach.is_local (query_view query.now) }
{
    are_local(&query.segments)
}

#[tactic(auto, using(crate::proofs::laws::tree::Asking::local_segments))]
fn are_local(segments: &[Segment]) -> bool
    ensures { result ≡ reach.is_local (segments_of (map segment_view segments.now)) }
{
    Question::Local.segments(segments).is_none()
}

/// The first name of a custom function that is none of these, in the order in which the query is written, at any depth and
/// in the arguments of other calls too (RFC 9535, 2.4); None where there is none. In a tree that was read from a text each
/// call is one of a custom function but those of `length`, `value`, `count`, `search` and `match`. So a misspelt function is
/// found before any document: `$[?mach(@,'x')]` calls `mach`.
///
/// The time is linear in the tree, times the names for each custom call.
#[tactic(auto, using(crate::proofs::laws::tree::Asking::known_segments))]
pub fn first_unknown_function<'t>(query: &'t JpQuery, names: &[&str]) -> Option<&'t str>
    ensures { option_map (λ s. s.now) result ≡ reach.first_other (reach.is_one_of names.now) (query_view query.now) }
{
    Question::Known(names).segments(&query.segments)
}
