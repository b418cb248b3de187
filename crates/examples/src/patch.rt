//! JSON Patch (RFC 6902): operations on a document, of which all are applied or none.
ghost use Rattle.std.specs.Prelude.{◌≡◌, IfErr, IfNone, IfOk, IfSome, IsTrue, None, OnErr, Some, if◌then◌else◌};
ghost use Rattle.jsonpath_rust.specs.JsonPathError.TheVariants.{OutOfMemory};
ghost use Rattle.jsonpath_rust.specs.base.Values.{value_tree, value_is_whole};
ghost use Rattle.examples.specs.Patch.{FailsAt, all_patched, patched};

mod operations;
mod place;

use crate::patch::operations::{add, copy, move_value, remove, replace, test};
use jsonpath_rust::query::Queried;
use jsonpath_rust::{Queryable, Whole};
use serde_json::Value;
use std::alloc::Global;
use std::mem;

/// An operation on a document (RFC 6902, 4). `path` and `from` are JSON Pointers (RFC 6901).
#[derive(Debug, Drop)]
pub enum Operation {
    /// Adds a member, in the place of one of its name; or an element, before the one at its index, which may be the length, as `-` is; or
    /// puts the value in the place of the document (4.1).
    Add { path: String, value: Whole<Value> },
    /// Removes what is there, and of the document leaves null (4.2).
    Remove { path: String },
    /// Puts the value in the place of what is there (4.3).
    Replace { path: String, value: Whole<Value> },
    /// Removes what is at `from`, and adds it at `path`, which does not lead inside `from` (4.4).
    Move { from: String, path: String },
    /// Adds what is at `from` at `path` (4.5).
    Copy { from: String, path: String },
    /// Applies where what is there is the same as the value, objects in any order, and changes nothing (4.6).
    Test { path: String, value: Whole<Value> },
}

/// Applies the operations to a document, in order, and returns None; or the index of the first that fails (RFC 6902, 3 and 5): its
/// `path` or `from` is no JSON Pointer, or leads nowhere, or a test does not hold.
///
/// Only where all apply is the document another one than before: they are applied to a copy, which takes its place at the end. The
/// values that are added are copied too.
///
/// # Errors
///
/// `OutOfMemory` where memory ran out. The document is as it was then.
///
/// The cost is that of a copy of the document, and for each operation of its value and its paths, of a look-up for each step, and of the
/// elements behind one that is added or removed.
pub fn apply_patch(
    alloc: Global,
    operations: &[Operation],
    document: &mut Whole<Value>,
) -> Queried<Option<usize>>
    ensures made { IfOk result (λ o. IfNone o (all_patched operations.now (value_tree document.old.value) ≡ Some (value_tree document.new.value))) }
    ensures stuck { IfOk result (λ o. IfSome o (FailsAt operations.now (value_tree document.old.value))) }
    ensures unchanged { IfOk result (λ o. IfSome o (λ i. document.new.value ≡ document.old.value)) }
    ensures unchanged_on_error { OnErr result (document.new.value ≡ document.old.value) }
    ensures memory { IfErr result (λ e. e ≡ OutOfMemory) }
{
    let mut edited = document.get().try_clone(alloc)?;
    if let Some(index) = apply_each(alloc, operations, &mut edited)? {
        return Ok(Some(index));
    }
    let Ok(edited) = Whole::new(edited) else {
        unreachable!();
    };
    drop(mem::replace(document, edited));
    Ok(None)
}

/// Applies the operations, up to the first that fails, and returns its index.
fn apply_each(
    alloc: Global,
    operations: &[Operation],
    document: &mut Value,
) -> Queried<Option<usize>>
    requires { IsTrue (value_is_whole document.old) }
    ensures made { IfOk result (λ o. IfNone o (all_patched operations.now (value_tree document.old) ≡ Some (value_tree document.new))) }
    ensures stuck { IfOk result (λ o. IfSome o (FailsAt operations.now (value_tree document.old))) }
    ensures whole { IsTrue (value_is_whole document.new) }
    ensures memory { IfErr result (λ e. e ≡ OutOfMemory) }
{
    for (index, operation) in operations.iter().enumerate() {
        if !apply(alloc, operation, document)? {
            return Ok(Some(index));
        }
    }
    Ok(None)
}

/// Applies one operation, and returns whether it applies.
fn apply(alloc: Global, operation: &Operation, document: &mut Value) -> Queried<bool>
    requires { IsTrue (value_is_whole document.old) }
    ensures value { IfOk result (λ b. patched operation.now (value_tree document.old) ≡ (if b then Some (value_tree document.new) else None)) }
    ensures whole { IsTrue (value_is_whole document.new) }
    ensures memory { IfErr result (λ e. e ≡ OutOfMemory) }
{
    match operation {
        Operation::Add { path, value } => {
            let new = value.get().try_clone(alloc)?;
            add(alloc, document, path, new)
        }
        Operation::Remove { path } => remove(alloc, document, path),
        Operation::Replace { path, value } => {
            let new = value.get().try_clone(alloc)?;
            replace(alloc, document, path, new)
        }
        Operation::Move { from, path } => move_value(alloc, document, from, path),
        Operation::Copy { from, path } => copy(alloc, document, from, path),
        Operation::Test { path, value } => test(alloc, document, path, value.get()),
    }
}
