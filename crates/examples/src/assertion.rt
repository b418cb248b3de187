//! Assertions: conditions that a document is to meet, and those that it does not.
ghost use Rattle.std.specs.Prelude.{◌≡◌, Any, IfOk, IfErr, filter, map, not};
ghost use Rattle.jsonpath_rust.specs.Document.{document_of};
ghost use Rattle.examples.specs.Conditions.{is_met, IsUndecided};

use jsonpath_rust::query::Queried;
use jsonpath_rust::{Condition, Queryable, WholeRef};
use std::alloc::Global;

/// A condition that a document is to meet.
#[derive(Drop)]
pub struct Assertion {
    /// What a report says of it, as the condition's text.
    pub text: String,
    pub condition: Condition,
}

/// The assertions that fail of a document, in order: those whose condition does not hold.
///
/// # Errors
///
/// Those of [`Condition::holds`], for any of the conditions, and `OutOfMemory`.
///
/// The cost is that of `holds` for each condition.
pub fn failures<'a, T: Queryable>(
    alloc: Global,
    assertions: &'a [Assertion],
    document: WholeRef<'_, T>,
) -> Queried<Vec<&'a Assertion>>
    ensures failed { IfOk result (λ v. map (λ a. a.now) v.items
        ≡ filter (λ a. not (is_met (document_of T.tree T.custom document.entry.value.now) a.condition)) assertions.now) }
    ensures refused { IfErr result (λ e. Any (λ a. IsUndecided (document_of T.tree T.custom document.entry.value.now) e a.condition) assertions.now) }
{
    let mut failed = Vec::new(alloc);
    for assertion in assertions {
        if assertion.condition.holds(alloc, document)? {
            continue;
        }
        failed.push(assertion)?;
    }
    Ok(failed)
}
