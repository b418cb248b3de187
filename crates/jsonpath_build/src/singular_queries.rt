//! Queries of at most one node, and their steps (RFC 9535, 2.3.5.1).
ghost use Rattle.std.specs.Prelude.{◌≡◌, [], ◌∷◌, IfOk, IfErr};
ghost use Rattle.jsonpath_parser.specs.tree.Syntax as tree;
ghost use Rattle.jsonpath_parser.specs.tree.View.{step_view, steps_view, singular_view};
ghost use Rattle.jsonpath_parser.specs.declared.errors.JsonPathError.TheVariants.{OutOfMemory};

use jsonpath_parser::errors::Parsed;
use jsonpath_parser::model::{SingularQuery, SingularQuerySegment};
use std::alloc::Global;

/// The step to the member of this name.
///
/// # Errors
///
/// `OutOfMemory` where memory ran out.
pub fn q_name(alloc: Global, name: &str) -> Parsed<SingularQuerySegment>
    ensures made { IfOk result (λ s. step_view s ≡ tree.one (tree.name name.now)) }
    ensures memory { IfErr result (λ e. e ≡ OutOfMemory) }
{
    Ok(SingularQuerySegment::Name(String::from_str(alloc, name)?))
}

/// The step to the element of this index, counted from the end where it is negative.
pub fn q_index(index: i64) -> SingularQuerySegment
    ensures { step_view result ≡ tree.one (tree.index index) }
{
    SingularQuerySegment::Index(index)
}

/// The steps of which there is this one.
///
/// # Errors
///
/// `OutOfMemory` where memory ran out.
pub fn q_segments_one(
    alloc: Global,
    step: SingularQuerySegment,
) -> Parsed<Vec<SingularQuerySegment>>
    ensures made { IfOk result (λ v. v.items ≡ step ∷ []) }
    ensures memory { IfErr result (λ e. e ≡ OutOfMemory) }
{
    q_segments(alloc, step, Vec::new(alloc))
}

/// This step in front of the others.
///
/// # Errors
///
/// `OutOfMemory` where memory ran out.
///
/// The time is linear in the others.
pub fn q_segments(
    _alloc: Global,
    step: SingularQuerySegment,
    mut rest: Vec<SingularQuerySegment>,
) -> Parsed<Vec<SingularQuerySegment>>
    ensures made { IfOk result (λ v. v.items ≡ step ∷ rest.items) }
    ensures memory { IfErr result (λ e. e ≡ OutOfMemory) }
{
    rest.insert(0, step)?;
    Ok(rest)
}

/// The query `@` and these steps.
pub fn singular_current(steps: Vec<SingularQuerySegment>) -> SingularQuery
    ensures { singular_view result ≡ tree.relative (steps_view steps) }
{
    SingularQuery::Current(steps)
}

/// The query `$` and these steps.
pub fn singular_root(steps: Vec<SingularQuerySegment>) -> SingularQuery
    ensures { singular_view result ≡ tree.absolute (steps_view steps) }
{
    SingularQuery::Root(steps)
}
