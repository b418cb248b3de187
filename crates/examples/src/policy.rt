//! A policy: conditions that every document is to meet, and where a document does not meet one.
ghost use Rattle.std.specs.Prelude.{All, IfOk, IfErr, IfSome, IfNone, option_map, string_bytes};
ghost use Rattle.jsonpath_rust.specs.Document.{document_of};
ghost use Rattle.examples.specs.First.{IsFirst};
ghost use Rattle.examples.specs.Policy.{IsKept, IsBroken, IsUnjudged};

use crate::first::first_path;
use jsonpath_rust::parser::model::JpQuery;
use jsonpath_rust::query::{Queried, QueryPath};
use jsonpath_rust::{Condition, Queryable, WholeRef};
use std::alloc::Global;

/// A condition that every document is to meet, and a query that shows where one does not.
#[derive(Drop)]
pub struct Rule {
    pub condition: Condition,
    pub shown: JpQuery,
}

/// A rule whose condition a document does not meet.
#[derive(Debug, Drop)]
pub struct Violation {
    /// Its index in the policy, from 0.
    pub rule: usize,
    /// The Normalized Path of the first node that its query selects, or None where that selects nothing.
    pub path: Option<QueryPath>,
}

/// The first rule of a policy whose condition a document does not meet, and where; None where it meets all.
///
/// # Errors
///
/// Those of [`Condition::holds`], for a rule before which all are met, and those of [`first_path`], for the query of the rule
/// that is told. The rules behind it are not asked.
///
/// The cost is that of `holds` for each rule that is asked, and that of [`first_path`] for the one that is told. The conditions
/// stay prepared for the next document.
pub fn first_violation<T: Queryable>(
    alloc: Global,
    policy: &[Rule],
    document: WholeRef<'_, T>,
) -> Queried<Option<Violation>>
    ensures obeyed { IfOk result (λ o. IfNone o (All (IsKept (document_of T.tree T.custom document.entry.value.now)) policy.now)) }
    ensures broken { IfOk result (λ o. IfSome o (λ v. IsFirst policy.now (IsKept (document_of T.tree T.custom document.entry.value.now)) v.rule
        (IsBroken (document_of T.tree T.custom document.entry.value.now) (option_map string_bytes v.path)))) }
    ensures refused { IfErr result (IsUnjudged policy.now (document_of T.tree T.custom document.entry.value.now)) }
{
    for (index, rule) in policy.iter().enumerate() {
        if !rule.condition.holds(alloc, document)? {
            let path = first_path(alloc, &rule.shown, document)?;
            return Ok(Some(Violation { rule: index, path }));
        }
    }
    Ok(None)
}
