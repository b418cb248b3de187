//! Functions of locations: whether one begins with another, the Normalized Path of each (RFC 9535, 2.7), and the
//! constant prefix of a query.
ghost use Rattle.std.specs.Prelude.{◌≡◌, ◌↔◌, ◌++◌, IfErr, IfOk, IsTrue, OnOk, map, option_map, string_bytes};
ghost use Rattle.jsonpath_base.specs.Prelude.{Begins, constant_prefix, location_view, owned_step, segment_view, segments_of, step_text};
ghost use Rattle.jsonpath_parser.specs.Normal.{IsNormal};
ghost use Rattle.jsonpath_parser.specs.tree.Syntax as syntax;
ghost use Rattle.jsonpath_parser.specs.tree.View.{query_view, selector_view};
ghost use Rattle.jsonpath_base.specs.ConstantPrefix.{fixed_step};

use crate::step::{Step, add_index, add_name};
use jsonpath_parser::errors::{JsonPathError, Parsed};
use jsonpath_parser::model::{JpQuery, Segment, Selector};
use std::alloc::Global;

/// Returns whether a location begins with the steps of another, so that it is that one or is below it. It takes no
/// memory, and time linear in the steps of `beginning` and their names.
pub fn starts_with(place: &[Step], beginning: &[Step]) -> bool
    ensures { IsTrue result ↔ Begins (location_view beginning.now) (location_view place.now) }
{
    place.starts_with(beginning)
}

/// Returns the Normalized Path of the location of these steps (RFC 9535, 2.7), in time linear in the steps and their
/// names.
///
/// # Errors
///
/// `OutOfMemory` where memory ran out.
pub fn path_of(alloc: Global, place: &[Step]) -> Parsed<String>
    ensures value { IfOk result (λ path. IsNormal (location_view place.now) (string_bytes path)) }
    ensures memory { IfErr result (λ e. e ≡ JsonPathError.OutOfMemory) }
{
    let mut path = String::from_str(alloc, "$")?;
    for step in place {
        add_step(alloc, &mut path, step)?;
    }
    Ok(path)
}

/// Appends a step to a path.
fn add_step(alloc: Global, path: &mut String, step: &Step) -> Parsed<()>
    ensures value { OnOk result (string_bytes path.new ≡ string_bytes path.old ++ step_text (owned_step step.now)) }
    ensures memory { IfErr result (λ e. e ≡ JsonPathError.OutOfMemory) }
{
    match step {
        Step::Name(name) => add_name(alloc, path, name),
        Step::Index(index) => add_index(alloc, path, *index),
    }
}

/// Returns the location with which each location begins that a query selects, in every document: the steps of its first
/// segments that are one name each, or one index from 0 on, up to the first that is neither (RFC 9535, 2.3.1 and
/// 2.3.3). For `$.tenants['t1'].orders[?@.total>10].id` it is `$['tenants']['t1']['orders']`, and for `$..a` and
/// `$[-1]` it is `$`.
///
/// It takes time linear in these steps and their names.
///
/// # Errors
///
/// `OutOfMemory` where memory ran out.
pub fn constant_prefix(alloc: Global, query: &JpQuery) -> Parsed<Vec<Step>>
    ensures steps { IfOk result (λ v. location_view v.items ≡ constant_prefix (query_view query.now)) }
    ensures memory { IfErr result (λ e. e ≡ JsonPathError.OutOfMemory) }
{
    leading_steps(alloc, &query.segments)
}

/// Returns the steps of the first segments, up to the first segment that is not a step.
fn leading_steps(alloc: Global, segments: &[Segment]) -> Parsed<Vec<Step>>
    ensures value { IfOk result (λ v. location_view v.items ≡ constant_prefix (segments_of (map segment_view segments.now))) }
    ensures memory { IfErr result (λ e. e ≡ JsonPathError.OutOfMemory) }
{
    let mut steps = Vec::new(alloc);
    for segment in segments {
        match segment_step(alloc, segment)? {
            Some(step) => steps.push(step)?,
            None => return Ok(steps),
        }
    }
    Ok(steps)
}

/// Returns the step of a segment that is one name, or one index from 0 on.
fn segment_step(alloc: Global, segment: &Segment) -> Parsed<Option<Step>>
    ensures value { IfOk result (λ o. option_map owned_step o ≡ fixed_step (segment_view segment.now)) }
    ensures memory { IfErr result (λ e. e ≡ JsonPathError.OutOfMemory) }
{
    match segment {
        Segment::Selector(selector) => selector_step(alloc, selector),
        Segment::Selectors(_) | Segment::Descendant(_) => Ok(None),
    }
}

/// Returns the step of a selector that is a name, or an index from 0 on.
fn selector_step(alloc: Global, selector: &Selector) -> Parsed<Option<Step>>
    ensures value { IfOk result (λ o. option_map owned_step o ≡ fixed_step (syntax.one (selector_view selector.now))) }
    ensures memory { IfErr result (λ e. e ≡ JsonPathError.OutOfMemory) }
{
    match selector {
        Selector::Name(name) => Ok(Some(Step::Name(String::from_str(alloc, name)?))),
        Selector::Index(index) => Ok(index_step(*index)),
        Selector::Wildcard | Selector::Slice(_, _, _) | Selector::Filter(_) => Ok(None),
    }
}

/// Returns the step of an index from 0 on.
fn index_step(index: i64) -> Option<Step>
    ensures { option_map owned_step result ≡ fixed_step (syntax.one (syntax.Selector.index index)) }
{
    if index < 0 {
        None
    } else {
        Some(Step::Index(index as usize))
    }
}
