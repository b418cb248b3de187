//! Routing: the first condition of a table that holds of a document.
ghost use Rattle.std.specs.Prelude.{◌≡◌, IfOk, IfErr, position};
ghost use Rattle.jsonpath_rust.specs.Document.{document_of};
ghost use Rattle.examples.specs.Conditions.{is_met, IsUnrouted};

use jsonpath_rust::query::Queried;
use jsonpath_rust::{Condition, Queryable, WholeRef};
use std::alloc::Global;

/// The index of the first condition of a table that holds of a document; None where none does.
///
/// # Errors
///
/// Those of [`Condition::holds`], for a condition before which none holds. The conditions behind the one that holds are not
/// asked.
///
/// The cost is that of `holds` for each condition that is asked. The table stays prepared for the next document.
pub fn route<T: Queryable>(
    alloc: Global,
    table: &[Condition],
    document: WholeRef<'_, T>,
) -> Queried<Option<usize>>
    ensures routed { IfOk result (λ o. o ≡ position (is_met (document_of T.tree T.custom document.entry.value.now)) table.now) }
    ensures refused { IfErr result (IsUnrouted table.now (document_of T.tree T.custom document.entry.value.now)) }
{
    for (index, condition) in table.iter().enumerate() {
        if condition.holds(alloc, document)? {
            return Ok(Some(index));
        }
    }
    Ok(None)
}
