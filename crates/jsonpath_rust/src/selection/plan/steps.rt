//! Recognizes the queries from the current node that are looked up: each of their segments is one name or one index.
ghost use Rattle.std.specs.Prelude.{◌≡◌, IfOk, IfSome, IsTrue, map};
ghost use Rattle.jsonpath_base.specs.Prelude.Documents.{MemoryAlone, one, relative, segment_view, segments_of, step_view, test_argument, wildcard};
ghost use Rattle.jsonpath_rust.specs.Prelude.Selection.{Constants};
ghost use Rattle.jsonpath_rust.specs.selection.inner.PlanViews as plan;

use super::{Expr, Segment, Selector};
use crate::selection::sink::Demand;
use jsonpath_parser::errors::Parsed;
use jsonpath_parser::model::SingularQuerySegment;
use jsonpath_parser::{are_steps, model as tree};
use std::alloc::Global;

/// Returns the expression of these segments from the current node, if they need no walk: names and indexes, or these
/// and then `[*]` if its children are counted.
pub fn looked_up(alloc: Global, segments: &[tree::Segment], demand: Demand) -> Parsed<Option<Expr>>
    ensures same { (constants : Constants) → IfOk result (λ o. IfSome o (λ p. plan.expr_view constants p demand
        ≡ test_argument (relative (segments_of (map segment_view segments.now))))) }
    ensures memory { MemoryAlone result }
{
    if let Some(steps) = steps_of(alloc, segments)? {
        return Ok(Some(Expr::Lookup(steps)));
    }
    if !demand.is_counted() {
        return Ok(None);
    }
    match steps_to_children(alloc, segments)? {
        Some(steps) => Ok(Some(Expr::Children(steps))),
        None => Ok(None),
    }
}

/// Returns the steps of these segments, if each is one name or one index.
fn steps_of(alloc: Global, segments: &[tree::Segment]) -> Parsed<Option<Vec<SingularQuerySegment>>>
    ensures same { IfOk result (λ o. IfSome o (λ v. map step_view v.items ≡ map segment_view segments.now)) }
    ensures memory { MemoryAlone result }
{
    if !are_steps(segments) {
        return Ok(None);
    }
    let mut steps = Vec::with_capacity(alloc, segments.len())?;
    'segments: for segment in segments {
        match step_of(alloc, segment)? {
            Some(step) => steps.push(step)?,
            None => return Ok(None),
        }
    }
    Ok(Some(steps))
}

/// Returns the steps before `[*]`, if these segments are names and indexes and then `[*]`.
fn steps_to_children(
    alloc: Global,
    segments: &[tree::Segment],
) -> Parsed<Option<Vec<SingularQuerySegment>>>
    ensures same { IfOk result (λ o. IfSome o (λ v. plan.children_query (map step_view v.items)
        ≡ segments_of (map segment_view segments.now))) }
    ensures memory { MemoryAlone result }
{
    let Some((last, before)) = segments.split_last() else {
        return Ok(None);
    };
    if is_wildcard(last) {
        return steps_of(alloc, before);
    }
    Ok(None)
}

/// Returns whether a segment is `[*]`.
fn is_wildcard(segment: &tree::Segment) -> bool
    ensures { IsTrue result → segment_view segment.now ≡ one wildcard }
{
    match segment {
        tree::Segment::Selector(tree::Selector::Wildcard) => true,
        _ => false,
    }
}

/// Returns the step of a segment, if it is one name or one index.
fn step_of(alloc: Global, segment: &tree::Segment) -> Parsed<Option<SingularQuerySegment>>
    ensures same { IfOk result (λ o. IfSome o (λ s. step_view s ≡ segment_view segment.now)) }
    ensures memory { MemoryAlone result }
{
    match segment {
        tree::Segment::Selector(tree::Selector::Name(name)) => {
            let name = String::from_str(alloc, name)?;
            Ok(Some(SingularQuerySegment::Name(name)))
        }
        tree::Segment::Selector(tree::Selector::Index(index)) => {
            Ok(Some(SingularQuerySegment::Index(*index)))
        }
        _ => Ok(None),
    }
}

/// Returns a copy of these steps.
pub fn steps_again(
    alloc: Global,
    steps: &[SingularQuerySegment],
) -> Parsed<Vec<SingularQuerySegment>>
    ensures same { IfOk result (λ v. map step_view v.items ≡ map step_view steps.now) }
    ensures memory { MemoryAlone result }
{
    let mut copies = Vec::with_capacity(alloc, steps.len())?;
    'steps: for step in steps {
        copies.push(step.try_clone(alloc)?)?;
    }
    Ok(copies)
}

/// Returns the segments of these steps.
pub fn segments_of_steps(alloc: Global, steps: &[SingularQuerySegment]) -> Parsed<Vec<Segment>>
    ensures same { (constants : Constants) → IfOk result (λ v. map (plan.segment_view constants) v.items ≡ map step_view steps.now) }
    ensures memory { MemoryAlone result }
{
    let mut segments = Vec::with_capacity(alloc, steps.len())?;
    'steps: for step in steps {
        segments.push(segment_of(alloc, step)?)?;
    }
    Ok(segments)
}

/// Returns the segment of a step.
#[tactic(auto, using(crate::proofs::laws::selection::PlanEquations::plan_equations))]
fn segment_of(alloc: Global, step: &SingularQuerySegment) -> Parsed<Segment>
    ensures same { (constants : Constants) → IfOk result (λ g. plan.segment_view constants g ≡ step_view step.now) }
    ensures memory { MemoryAlone result }
{
    match step {
        SingularQuerySegment::Name(name) => {
            let name = String::from_str(alloc, name)?;
            Ok(Segment::Selector(Selector::Name(name)))
        }
        SingularQuerySegment::Index(index) => Ok(Segment::Selector(Selector::Index(*index))),
    }
}
