//! Selectors, segments and the query (RFC 9535, 2.1 to 2.5).
ghost use Rattle.std.specs.Prelude.{◌≡◌, IfOk, IfErr};
ghost use Rattle.jsonpath_parser.specs.tree.Syntax as tree;
ghost use Rattle.jsonpath_parser.specs.tree.View.{filter_view, query_view, segment_view, segments_view, selector_view, selectors_view};
ghost use Rattle.jsonpath_parser.specs.declared.errors.JsonPathError.TheVariants.{OutOfMemory};

use jsonpath_parser::errors::Parsed;
use jsonpath_parser::model::{Filter, JpQuery, Segment, Selector, SliceParts, slice_from};
use std::alloc::Global;

/// The selector `*`.
pub fn selector_wildcard() -> Selector
    ensures { selector_view result ≡ tree.wildcard }
{
    Selector::Wildcard
}

/// The selector `?` of this filter.
pub fn selector_filter(filter: Filter) -> Selector
    ensures { selector_view result ≡ tree.filter (filter_view filter) }
{
    Selector::Filter(filter)
}

/// The selector of this slice.
pub fn selector_slice(parts: SliceParts) -> Selector
    ensures { selector_view result ≡ tree.slice parts.0 parts.1 parts.2 }
{
    slice_from(parts)
}

/// The selector of this name.
///
/// # Errors
///
/// `OutOfMemory` where memory ran out.
pub fn selector_name(alloc: Global, name: &str) -> Parsed<Selector>
    ensures made { IfOk result (λ s. selector_view s ≡ tree.name name.now) }
    ensures memory { IfErr result (λ e. e ≡ OutOfMemory) }
{
    Ok(Selector::Name(String::from_str(alloc, name)?))
}

/// The selector of this index, counted from the end where it is negative.
pub fn selector_index(index: i64) -> Selector
    ensures { selector_view result ≡ tree.index index }
{
    Selector::Index(index)
}

/// `..` and this segment.
///
/// # Errors
///
/// `OutOfMemory` where memory ran out.
pub fn segment_descendant(alloc: Global, segment: Segment) -> Parsed<Segment>
    ensures made { IfOk result (λ g. segment_view g ≡ tree.descendant (segment_view segment)) }
    ensures memory { IfErr result (λ e. e ≡ OutOfMemory) }
{
    Ok(Segment::Descendant(Box::new(alloc, segment)?))
}

/// The segment of one selector.
pub fn segment_one(selector: Selector) -> Segment
    ensures { segment_view result ≡ tree.one (selector_view selector) }
{
    Segment::Selector(selector)
}

/// The segment of several selectors.
pub fn segment_many(selectors: Vec<Selector>) -> Segment
    ensures { segment_view result ≡ tree.several (selectors_view selectors) }
{
    Segment::Selectors(selectors)
}

/// The query `$` and these segments.
pub fn jq(segments: Vec<Segment>) -> JpQuery
    ensures { query_view result ≡ segments_view segments }
{
    JpQuery::new(segments)
}
