//! Borrows the value that a reference means for writing. The text is read first, and its result is stored, an error
//! too; then borrowing cannot fail.
ghost use Rattle.std.specs.Prelude.{◌≡◌, IfErr, IfOk, IfSome, is_some, IsTrue, option_map, Some};
ghost use Rattle.jsonpath_base.specs.Prelude.Documents.{answer_of, IsReference, IsReferred, LendsReferred, LendsThere, lent_in, location_view, OutOfMemory, place_in, sem, tree_there, value_document, value_is_whole, value_tree};

use crate::documents::Queried;
use crate::documents::reference::referred_location;
use crate::{Step, at_mut};
use serde_json::Value;
use std::alloc::Global;

/// The result of reading a text: the steps to a value, none, or an error.
#[derive(Drop)]
struct Sought {
    steps: Queried<Option<Vec<Step>>>,
}

/// Borrows the value at the one location that a path of names and indexes means for writing, or returns None. When the
/// borrow ends, what was written is there, and nothing else has changed. It fails with `OutOfMemory` only.
pub fn referred_mut<'v>(
    alloc: Global,
    value: &'v mut Value,
    path: &str,
) -> Queried<Option<&'v mut Value>>
    ensures* writes_back { sem 𝓛 (LendsReferred path.now value.entry (lent_in result)) }
    ensures value { IfOk result (λ o. IsReferred path.now (value_document value.old) (option_map (λ v. value_tree v.now) o)) }
    ensures whole { IsTrue (value_is_whole value.old) → IfOk result (λ o. IfSome o (λ v. IsTrue (value_is_whole v.now))) }
    ensures memory { IfErr result (λ e. e ≡ OutOfMemory) }
{
    let sought = seek(alloc, value, path);
    let lent = lend_sought(value, &sought);
    answer(sought, lent)
}

/// Returns what a text means.
fn seek(alloc: Global, value: &Value, path: &str) -> Sought
    ensures means { IfOk result.steps (λ o. IsReference path.now (value_document value.now) (option_map (λ v. location_view v.items) o)) }
    ensures memory { IfErr result.steps (λ e. e ≡ OutOfMemory) }
{
    Sought {
        steps: referred_location(alloc, value, path),
    }
}

/// Returns whether there are steps.
fn is_found(sought: &Sought) -> bool
    ensures { result ≡ is_some (place_in sought.now.steps) }
{
    match &sought.steps {
        Ok(Some(_)) => true,
        Ok(None) | Err(_) => false,
    }
}

/// Returns the steps, or an empty slice if there are none.
fn steps_in(sought: &Sought) -> &[Step]
    ensures { IsTrue (is_some (place_in sought.now.steps)) → place_in sought.now.steps ≡ Some (location_view result.now) }
{
    match &sought.steps {
        Ok(Some(steps)) => steps,
        Ok(None) | Err(_) => &[],
    }
}

/// Borrows the value at these steps for writing, or returns None where there are none.
fn lend_sought<'v>(value: &'v mut Value, sought: &Sought) -> Option<&'v mut Value>
    ensures* writes_back { sem 𝓛 (LendsThere (place_in sought.now.steps) value.entry result) }
    ensures value { option_map (λ v. value_tree v.now) result ≡ tree_there (place_in sought.now.steps) (value_tree value.old) }
    ensures whole { IsTrue (value_is_whole value.old) → IfSome result (λ v. IsTrue (value_is_whole v.now)) }
{
    if is_found(sought) {
        return at_mut(value, steps_in(sought));
    }
    None
}

/// Returns the borrowed value, or the error.
fn answer<'v>(sought: Sought, lent: Option<&'v mut Value>) -> Queried<Option<&'v mut Value>>
    ensures { result ≡ answer_of sought.steps lent.entry }
{
    match sought.steps {
        Ok(_) => Ok(lent),
        Err(error) => Err(error),
    }
}
