//! The grammar functions for queries, segments and selectors (RFC 9535, 2.1 to 2.3.4, 2.3.5.1 and 2.5).
ghost use Rattle.jsonpath_parser.specs.Prelude.{always, query_view, ReadsPart, segment_view, segments_view, selector_view, singular_view, Spells, SpellsChild, SpellsRelative, SpellsSegment, SpellsSegments, SpellsSelector, SpellsSingular, SpellsSliceParts, SpellsSteps, steps_view};
ghost use Rattle.jsonpath_parser.specs.tree.Typing as typed;

use super::Cursor;
use super::part::part;
use crate::errors::Parsed;
use crate::grammar::productions;
use crate::tree::model::{
    JpQuery, Segment, Selector, SingularQuery, SingularQuerySegment, SliceParts,
};
use crate::tree::typing;
use std::alloc::Global;

/// Reads a query: `$` and segments (2.1.1, 2.2.1). It returns the query tree.
///
/// # Errors
///
/// Those of [`Cursor`].
pub fn jp_query(alloc: Global, cursor: &mut Cursor<'_>) -> Parsed<JpQuery>
    ensures { ReadsPart Spells typed.is_typed query_view cursor.old cursor.new result }
{
    part(
        alloc,
        cursor,
        productions::operand,
        productions::query_in,
        typing::is_typed,
    )
}

/// Reads a query from the current node: `@` and segments (2.3.5.1). It returns the segments.
///
/// # Errors
///
/// Those of [`Cursor`].
pub fn rel_query(alloc: Global, cursor: &mut Cursor<'_>) -> Parsed<Vec<Segment>>
    ensures { ReadsPart SpellsRelative typed.is_typed segments_view cursor.old cursor.new result }
{
    part(
        alloc,
        cursor,
        productions::operand,
        productions::relative_in,
        |relative| typing::segments(relative),
    )
}

/// Reads segments, also none, each perhaps after blanks (2.1.1, 2.5). It returns them in their order.
///
/// # Errors
///
/// Those of [`Cursor`].
pub fn segments(alloc: Global, cursor: &mut Cursor<'_>) -> Parsed<Vec<Segment>>
    ensures { ReadsPart SpellsSegments typed.is_typed segments_view cursor.old cursor.new result }
{
    part(
        alloc,
        cursor,
        productions::segments,
        productions::as_read,
        |segments| typing::segments(segments),
    )
}

/// Reads selectors between brackets, `*` or a shorthand name, as behind `..` or a dot (2.5.1, 2.5.2.1). It returns the child segment.
///
/// # Errors
///
/// Those of [`Cursor`].
pub fn child_segment(alloc: Global, cursor: &mut Cursor<'_>) -> Parsed<Segment>
    ensures { ReadsPart SpellsChild typed.is_typed_segment segment_view cursor.old cursor.new result }
{
    part(
        alloc,
        cursor,
        productions::child,
        productions::as_read,
        typing::segment,
    )
}

/// Reads a segment: between brackets, behind `.` or behind `..` (2.5). It returns the segment.
///
/// # Errors
///
/// Those of [`Cursor`].
pub fn segment(alloc: Global, cursor: &mut Cursor<'_>) -> Parsed<Segment>
    ensures { ReadsPart SpellsSegment typed.is_typed_segment segment_view cursor.old cursor.new result }
{
    part(
        alloc,
        cursor,
        productions::segment,
        productions::as_read,
        typing::segment,
    )
}

/// Reads a selector: a string, `*`, an index, a slice, or `?` and a logical expression (2.3). It returns the selector.
///
/// # Errors
///
/// Those of [`Cursor`].
pub fn selector(alloc: Global, cursor: &mut Cursor<'_>) -> Parsed<Selector>
    ensures { ReadsPart SpellsSelector typed.is_typed_selector selector_view cursor.old cursor.new result }
{
    part(
        alloc,
        cursor,
        productions::selector,
        productions::as_read,
        typing::selector,
    )
}

/// Reads a slice (2.3.4). It returns the start, the end and the step; a part that does not stand there is `None`.
/// Blanks behind the first `:`, or behind the end, belong to the slice.
///
/// # Errors
///
/// Those of [`Cursor`].
pub fn slice_selector(alloc: Global, cursor: &mut Cursor<'_>) -> Parsed<SliceParts>
    ensures { ReadsPart SpellsSliceParts always (λ p. p) cursor.old cursor.new result }
{
    part(
        alloc,
        cursor,
        productions::numbered,
        productions::slice_in,
        productions::has_no_call,
    )
}

/// Reads a singular query: `@` or `$` and steps of one name or one index each (2.3.5.1). It returns the singular query.
///
/// # Errors
///
/// Those of [`Cursor`].
pub fn singular_query(alloc: Global, cursor: &mut Cursor<'_>) -> Parsed<SingularQuery>
    ensures { ReadsPart SpellsSingular always singular_view cursor.old cursor.new result }
{
    part(
        alloc,
        cursor,
        productions::operand,
        |operand, remaining| productions::singular_in(alloc, operand, remaining),
        productions::has_no_call,
    )
}

/// Reads the steps of a singular query, also none, each perhaps after blanks (2.3.5.1). It returns them in their order.
///
/// # Errors
///
/// Those of [`Cursor`].
pub fn singular_query_segments(
    alloc: Global,
    cursor: &mut Cursor<'_>,
) -> Parsed<Vec<SingularQuerySegment>>
    ensures { ReadsPart SpellsSteps always steps_view cursor.old cursor.new result }
{
    part(
        alloc,
        cursor,
        productions::segments,
        |segments, remaining| productions::steps(alloc, segments, remaining),
        productions::has_no_call,
    )
}
