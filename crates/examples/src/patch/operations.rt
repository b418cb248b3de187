//! The operations of a JSON Patch (RFC 6902, 4), each on a whole value. Each returns whether it applies; where it does not, a part of it may be done.
ghost use Rattle.std.specs.Prelude.{◌≡◌, IfErr, IfOk, IsTrue, None, Some, if◌then◌else◌};
ghost use Rattle.jsonpath_rust.specs.JsonPathError.TheVariants.{OutOfMemory};
ghost use Rattle.jsonpath_rust.specs.base.Values.{value_tree, value_is_whole};
ghost use Rattle.examples.specs.Patch.{copied, moved, removed, replaced, tested, with_added};

use crate::patch::place::{is_inside, target_of, value_of};
use jsonpath_rust::Queryable;
use jsonpath_rust::query::laws::{among_is_listed, pointer_leads_as_found};
use jsonpath_rust::query::{Queried, add_at, location_by_pointer, put_at, remove_all, take_at};
use serde_json::Value;
use std::alloc::Global;
use std::mem;

/// Adds a value (4.1).
pub fn add(alloc: Global, document: &mut Value, path: &str, new: Value) -> Queried<bool>
    requires old_whole { IsTrue (value_is_whole document.old) }
    requires new_whole { IsTrue (value_is_whole new) }
    ensures value { IfOk result (λ b. with_added path.now (value_tree new) (value_tree document.old) ≡ (if b then Some (value_tree document.new) else None)) }
    ensures whole { IsTrue (value_is_whole document.new) }
    ensures memory { IfErr result (λ e. e ≡ OutOfMemory) }
{
    if path.is_empty() {
        drop(mem::replace(document, new));
        return Ok(true);
    }
    match target_of(alloc, document, path)? {
        Some((parent, step)) => add_at(alloc, document, &parent, step, new),
        None => Ok(false),
    }
}

/// Removes what is there (4.2).
pub fn remove(alloc: Global, document: &mut Value, path: &str) -> Queried<bool>
    requires { IsTrue (value_is_whole document.old) }
    ensures value { IfOk result (λ b. removed path.now (value_tree document.old) ≡ (if b then Some (value_tree document.new) else None)) }
    ensures whole { IsTrue (value_is_whole document.new) }
    ensures memory { IfErr result (λ e. e ≡ OutOfMemory) }
{
    match location_by_pointer(alloc, document, path)? {
        Some(place) => {
            remove_all(alloc, document, &[place])?;
            Ok(true)
        }
        None => Ok(false),
    }
}

/// Puts a value in the place of what is there (4.3).
pub fn replace(alloc: Global, document: &mut Value, path: &str, new: Value) -> Queried<bool>
    requires old_whole { IsTrue (value_is_whole document.old) }
    requires new_whole { IsTrue (value_is_whole new) }
    ensures value { IfOk result (λ b. replaced path.now (value_tree new) (value_tree document.old) ≡ (if b then Some (value_tree document.new) else None)) }
    ensures whole { IsTrue (value_is_whole document.new) }
    ensures memory { IfErr result (λ e. e ≡ OutOfMemory) }
{
    // The law that something is where a pointer leads, which the proof cites.
    pointer_leads_as_found();
    match location_by_pointer(alloc, document, path)? {
        Some(place) => Ok(put_at(document, &place, new)),
        None => Ok(false),
    }
}

/// Takes what is at `from`, and adds it at `path` (4.4).
pub fn move_value(alloc: Global, document: &mut Value, from: &str, path: &str) -> Queried<bool>
    requires { IsTrue (value_is_whole document.old) }
    ensures value { IfOk result (λ b. moved from.now path.now (value_tree document.old) ≡ (if b then Some (value_tree document.new) else None)) }
    ensures whole { IsTrue (value_is_whole document.new) }
    ensures memory { IfErr result (λ e. e ≡ OutOfMemory) }
{
    if is_inside(path, from) {
        return Ok(false);
    }
    let Some(origin) = location_by_pointer(alloc, document, from)? else {
        return Ok(false);
    };
    let Some(moved) = take_at(document, &origin) else {
        return Ok(false);
    };
    remove_all(alloc, document, &[origin])?;

    // The law of the set of a list, which the proof cites: what was taken from its place was removed there.
    among_is_listed();
    add(alloc, document, path, moved)
}

/// Adds what is at `from` at `path` (4.5).
pub fn copy(alloc: Global, document: &mut Value, from: &str, path: &str) -> Queried<bool>
    requires { IsTrue (value_is_whole document.old) }
    ensures value { IfOk result (λ b. copied from.now path.now (value_tree document.old) ≡ (if b then Some (value_tree document.new) else None)) }
    ensures whole { IsTrue (value_is_whole document.new) }
    ensures memory { IfErr result (λ e. e ≡ OutOfMemory) }
{
    let Some(found) = value_of(alloc, document, from)? else {
        return Ok(false);
    };
    let new = found.try_clone(alloc)?;
    add(alloc, document, path, new)
}

/// Whether what is there is the same as this value (4.6).
pub fn test(alloc: Global, document: &Value, path: &str, wanted: &Value) -> Queried<bool>
    requires document_whole { IsTrue (value_is_whole document.now) }
    requires wanted_whole { IsTrue (value_is_whole wanted.now) }
    ensures value { IfOk result (λ b. tested path.now (value_tree wanted.now) (value_tree document.now) ≡ (if b then Some (value_tree document.now) else None)) }
    ensures memory { IfErr result (λ e. e ≡ OutOfMemory) }
{
    match value_of(alloc, document, path)? {
        Some(found) => Ok(found.equal(wanted)),
        None => Ok(false),
    }
}
