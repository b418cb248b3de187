//! The result of a test, from its data (RFC 9535, 2.3.5.2.1).
ghost use Rattle.std.specs.Prelude.{◌++◌, ◌∷◌, ◌≡◌, [], cond, IfErr, IfOk, OnOk};
ghost use Rattle.jsonpath_base.specs.Prelude.Documents.{is_truth_call, MemoryAlone, test_view};
ghost use Rattle.jsonpath_rust.specs.Prelude.Documents.{Memory};
ghost use Rattle.jsonpath_rust.specs.Prelude.States.{content_at, is_truth, target_at, targets, targets_at, test_truth};
ghost use Rattle.jsonpath_rust.specs.states.Process as process;

use crate::documents::Queried;
use crate::documents::queryable::Queryable;
use crate::states::evaluate::Returned;
use crate::states::evaluate::single::truth_data;
use crate::states::held::{WholeData, WholePointerRef, WholePointers};
use crate::states::state::Data;
use jsonpath_parser::model::Test;
use std::alloc::Global;

/// Returns whether it is the owned value `true`.
pub fn is_true<'a, T: Queryable>(given: &WholeData<'a, T>) -> bool
    ensures { result ≡ is_truth (content_at given.now) }
{
    match &given.content {
        Data::Value(own) => own.as_bool() == Some(true),
        _ => false,
    }
}

/// Returns whether it has a node.
fn has_target<'a, T: Queryable>(given: &WholeData<'a, T>) -> bool
    ensures { result ≡ process.has_target (targets (content_at given.now)) }
{
    match &given.content {
        Data::Ref(_) => true,
        Data::Refs(all) => !all.is_empty(),
        _ => false,
    }
}

/// Returns what a test in a filter returns: for a call that returns a truth, that truth; else whether there is a
/// result. Both are negated after `!`.
pub fn test_answer<'a, T: Queryable>(
    alloc: Global,
    not: bool,
    test: &Test,
    answer: WholeData<'a, T>,
) -> Returned<'a, T>
    ensures value { IfOk result (λ d. content_at d ≡ test_truth not (is_truth_call (test_view test.now)) (content_at answer.entry)) }
    ensures memory { IfErr result (λ h. h ≡ Memory) }
{
    if !test.is_res_bool() {
        truth_data(alloc, has_target(&answer) != not)
    } else if not {
        truth_data(alloc, !is_true(&answer))
    } else {
        Ok(answer)
    }
}

/// Adds this pointer if `is_kept`. It fails with `OutOfMemory` only.
pub fn keep_if<'a, T: Queryable>(
    alloc: Global,
    is_kept: bool,
    pointer: WholePointerRef<'_, 'a, T>,
    found: &mut WholePointers<'a, T>,
) -> Queried<()>
    ensures value { OnOk result (targets_at found.new ≡ targets_at found.old ++ cond is_kept (target_at pointer.entry ∷ []) []) }
    ensures memory { MemoryAlone result }
{
    if is_kept {
        found.push(pointer.try_clone(alloc)?)?;
        Ok(())
    } else {
        Ok(())
    }
}
