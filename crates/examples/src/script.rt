//! An edit script: deletions and replacements by path, of which all are made or none.
ghost use Rattle.std.specs.Prelude.{◌≡◌, ◌⊎◌, IfOk, IfErr, IfSome, IfNone, OnErr};
ghost use Rattle.jsonpath_rust.specs.JsonPathError.TheVariants.{OutOfMemory};
ghost use Rattle.jsonpath_rust.specs.base.Values.{value_tree};
ghost use Rattle.examples.specs.Script.{AllLeave, FindsNothing, IsEditRefusal, IsReached, IsRefusedIn, Leaves};

use jsonpath_rust::Whole;
use jsonpath_rust::query::Queried;
use serde_json::Value;
use std::alloc::Global;
use std::mem;

/// An edit of a document.
#[derive(Debug, Drop)]
pub enum Edit {
    /// All that a query selects is removed, at once.
    Delete(String),
    /// The value at the one location that a path of names and indexes means becomes this one.
    Replace(String, Whole<Value>),
}

/// Makes each of the edits of a document, in order, and returns None; or the index of the first that finds nothing to
/// remove or to replace.
///
/// Only where all are made is the document another one than before: they are made of a copy, which takes its place at the
/// end. The new values are copied too.
///
/// # Errors
///
/// Those of `delete_by_path` and `replace_by_path`, for an edit before which each finds something, and `OutOfMemory`. The
/// document is as it was then.
///
/// The cost is that of the edits, and of a copy of the document and of the new values.
pub fn apply_edits(
    alloc: Global,
    edits: &[Edit],
    document: &mut Whole<Value>,
) -> Queried<Option<usize>>
    ensures made { IfOk result (λ o. IfNone o (AllLeave edits.now (value_tree document.old.value) (value_tree document.new.value))) }
    ensures stuck { IfOk result (λ o. IfSome o (λ i. IsReached edits.now (value_tree document.old.value) i FindsNothing)) }
    ensures unchanged { IfOk result (λ o. IfSome o (λ i. document.new.value ≡ document.old.value)) }
    ensures unchanged_on_error { OnErr result (document.new.value ≡ document.old.value) }
    ensures refused { IfErr result (λ e. (e ≡ OutOfMemory) ⊎ IsRefusedIn edits.now (value_tree document.old.value) e) }
{
    let mut edited = document.try_clone(alloc)?;
    match make_each(alloc, edits, &mut edited)? {
        Some(index) => Ok(Some(index)),
        None => {
            drop(mem::replace(document, edited));
            Ok(None)
        }
    }
}

/// Makes the edits, up to the first that finds nothing, and returns its index.
fn make_each(alloc: Global, edits: &[Edit], document: &mut Whole<Value>) -> Queried<Option<usize>>
    ensures made { IfOk result (λ o. IfNone o (AllLeave edits.now (value_tree document.old.value) (value_tree document.new.value))) }
    ensures stuck { IfOk result (λ o. IfSome o (λ i. IsReached edits.now (value_tree document.old.value) i FindsNothing)) }
    ensures refused { IfErr result (IsRefusedIn edits.now (value_tree document.old.value)) }
{
    for (index, edit) in edits.iter().enumerate() {
        if !make(alloc, edit, document)? {
            return Ok(Some(index));
        }
    }
    Ok(None)
}

/// Makes one edit, and returns whether it found something.
fn make(alloc: Global, edit: &Edit, document: &mut Whole<Value>) -> Queried<bool>
    ensures made { IfOk result (λ found. Leaves edit.now (value_tree document.old.value) found (value_tree document.new.value)) }
    ensures refused { IfErr result (IsEditRefusal edit.now (value_tree document.old.value)) }
{
    match edit {
        Edit::Delete(path) => Ok(document.delete_by_path(alloc, path)? > 0),
        Edit::Replace(path, new) => {
            let new = new.try_clone(alloc)?;
            document.replace_by_path(alloc, path, new)
        }
    }
}
