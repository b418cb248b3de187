//! Documents: what a query selects in one, changes of one, calls of a document type, and nodes, each a list of its path and its value.
ghost use Rattle.std.specs.Prelude.{All, IsTrue};
ghost use Rattle.jsonpath_rust.specs.documents.Args.{arg_value};

use crate::answers::{self, CaseResult, Cause, Refusal, list_of, member, pair, with_left};
use crate::arguments::{self, each, exactly, given, size, spelled, text, whole};
use crate::doc::documents::{Document, document_of};
use jsonpath_rust::query::queryable::{Arg, Deletable, Queryable};
use jsonpath_rust::query::{
    Queried, QueryRef, js_path, not_a_reference, replace_all_by_path, replace_by_path,
    replace_within,
};
use jsonpath_rust::{Only, Prepared, ReadError, Whole};
use serde_json::Value;
use std::alloc::Global;
use std::mem;

/// The document of a text.
pub fn read(alloc: Global, json: &Value) -> CaseResult<Value> {
    let json = spelled(alloc, json)?;
    match Whole::read(alloc, &json) {
        Ok(document) => Ok(document.into_inner()),
        Err(ReadError::NotJson) => Err(Refusal::Other(Cause::NotJson)),
        Err(ReadError::NotWhole) => Err(Refusal::Other(Cause::NotWhole)),
        Err(ReadError::Memory) => Err(Refusal::memory()),
    }
}

/// The nodes that `js_path` finds.
pub fn found<T: Document>(alloc: Global, asked: &[Value]) -> CaseResult<Value> {
    let [query, document] = exactly::<2>(asked)?;
    let query = spelled(alloc, query)?;
    let document = document_of::<T>(alloc, document)?;
    nodes(alloc, &js_path(alloc, &query, document.get())?)
}

/// `"Nothing"`, `"Several"`, or `{"One": NODE}`.
pub fn only(alloc: Global, query: &str, document: &Value) -> CaseResult<Value> {
    let prepared = Prepared::read(alloc, query)?;
    let document = whole(document)?;
    match prepared.runner(alloc).only(alloc, document)? {
        Only::Nothing => answers::text(alloc, "Nothing"),
        Only::One(found) => member(alloc, "One", node(alloc, &found.path, found.val)?),
        Only::Several => answers::text(alloc, "Several"),
    }
}

/// How many nodes a runner counts.
pub fn count(alloc: Global, query: &str, document: &Value) -> CaseResult<Value> {
    let prepared = Prepared::read(alloc, query)?;
    let document = whole(document)?;
    counted(prepared.runner(alloc).count(alloc, document))
}

/// A list of the value that `reference` finds, empty for None.
pub fn referred<T: Document>(alloc: Global, asked: &[Value]) -> CaseResult<Value> {
    let [document, path] = exactly::<2>(asked)?;
    let document = document_of::<T>(alloc, document)?;
    let found = document.get().reference(alloc, text(path)?)?;
    list_of(alloc, found.as_slice(), |found| Ok(found.value(alloc)?))
}

/// What `delete_by_path` answers and leaves.
pub fn deleted<T: Document + Deletable>(alloc: Global, asked: &[Value]) -> CaseResult<Value> {
    let [value, query] = exactly::<2>(asked)?;
    let query = text(query)?;
    let mut document = document_of::<T>(alloc, value)?.into_inner();
    let count = document.delete_by_path(alloc, query);
    let left = document.value(alloc);
    drop(document);
    with_left(alloc, counted(count), left?, value)
}

fn counted(count: Queried<usize>) -> CaseResult<Value> {
    Ok(Value::from(count?))
}

/// What the call of that name answers and leaves of a value, which is its first argument; the new value is its last.
pub fn changed(alloc: Global, name: &str, asked: &[Value]) -> CaseResult<Value> {
    let (value, change) = given(asked.split_first())?;
    let mut left = value.clone()?;
    let answer = match name {
        "reference_mut" => written(alloc, &mut left, change),
        "replace_by_path" => replaced(alloc, &mut left, change),
        _ => masked(alloc, &mut left, change),
    };
    with_left(alloc, answer, left, value)
}

/// Whether `reference_mut` lends the place at which the new value is written then.
fn written(alloc: Global, left: &mut Value, change: &[Value]) -> CaseResult<Value> {
    let [path, new] = exactly::<2>(change)?;
    match left.reference_mut(alloc, text(path)?)? {
        Some(place) => {
            drop(mem::replace(place, new.clone()?));
            Ok(Value::from(true))
        }
        None => Ok(Value::from(false)),
    }
}

fn replaced(alloc: Global, left: &mut Value, change: &[Value]) -> CaseResult<Value> {
    let [path, new] = exactly::<2>(change)?;
    Ok(Value::from(replace_by_path(alloc, left, text(path)?, new.clone()?)?))
}

/// How many locations `replace_all_by_path` puts the new value at or, with a depth, `replace_within`. Both values have to be whole.
fn masked(alloc: Global, left: &mut Value, change: &[Value]) -> CaseResult<Value> {
    match change {
        [query, new] if left.is_whole() && new.is_whole() => {
            counted(replace_all_by_path(alloc, left, text(query)?, new))
        }
        [query, depth, new] if left.is_whole() && new.is_whole() => {
            counted(replace_within(alloc, left, text(query)?, size(depth)?, new))
        }
        _ => Err(Refusal::NoAnswer),
    }
}

/// Whether both are equal.
pub fn equal<T: Document>(alloc: Global, asked: &[Value]) -> CaseResult<Value> {
    let [left, right] = exactly::<2>(asked)?;
    let left = document_of::<T>(alloc, left)?;
    let right = document_of::<T>(alloc, right)?;
    Ok(Value::from(left.get().equal(right.get())))
}

/// The list that `from_list` makes of the values.
pub fn list<T: Document>(alloc: Global, values: &[Value]) -> CaseResult<Value> {
    let elements = each(alloc, values, |value| made::<T>(alloc, value))?;
    if !are_whole(&elements) {
        return Err(Refusal::NoAnswer);
    }
    let list = T::from_list(alloc, elements)?;
    Ok(list.value(alloc)?)
}

fn made<T: Document>(alloc: Global, value: &Value) -> CaseResult<T> {
    Ok(document_of::<T>(alloc, value)?.into_inner())
}

fn are_whole<T: Queryable>(values: &[T]) -> bool
    ensures { IsTrue result → All (λ v. IsTrue (T.is_whole v)) values.now }
{
    values.iter().all(|value| value.is_whole())
}

/// What `extension_custom` answers of the function of that name, and of the values.
pub fn custom<T: Document>(alloc: Global, asked: &[Value]) -> CaseResult<Value> {
    let (name, values) = given(asked.split_first())?;
    let name = text(name)?;
    let mut arguments = Vec::new(alloc);
    for value in values {
        arguments.push(Arg::Owned(made::<T>(alloc, value)?))?;
    }
    let answer = custom_of(alloc, name, &arguments);
    drop(arguments);
    answer
}

fn custom_of<T: Document>(
    alloc: Global,
    name: &str,
    arguments: &[Arg<'_, T>],
) -> CaseResult<Value> {
    if !are_whole_arguments(arguments) {
        return Err(Refusal::NoAnswer);
    }
    let answer = T::extension_custom(alloc, name, arguments)?;
    Ok(answer.value(alloc)?)
}

fn are_whole_arguments<T: Queryable>(arguments: &[Arg<'_, T>]) -> bool
    ensures { IsTrue result → All (λ a. IsTrue (T.is_whole (arg_value a))) arguments.now }
{
    arguments.iter().all(|argument| argument.get().is_whole())
}

/// The error that `not_a_reference` makes.
pub fn refused<T: Document>(alloc: Global, asked: &[Value]) -> CaseResult<Value> {
    let [value] = exactly::<1>(asked)?;
    let value = document_of::<T>(alloc, value)?;
    Err(Refusal::Error(not_a_reference(alloc, value.get())?))
}

/// Whether two nodes, each a list of a path and a value, are equal: a copy of the first, and one made of the parts of the second.
pub fn equal_nodes<T: Document>(alloc: Global, asked: &[Value]) -> CaseResult<Value> {
    let [left, right] = exactly::<2>(asked)?;
    let (path, value) = parts_of(left)?;
    let (other_path, other_value) = parts_of(right)?;
    let value = document_of::<T>(alloc, value)?;
    let other_value = document_of::<T>(alloc, other_value)?;
    let node = QueryRef::from_str_path(alloc, value.get(), path)?.try_clone(alloc)?;
    let other = QueryRef::from_str_path(alloc, other_value.get(), other_path)?;
    let other = QueryRef::from((other.val, other.path()));
    if node.val.is_whole() && other.val.is_whole() {
        Ok(Value::from(node.equal(&other)))
    } else {
        Err(Refusal::NoAnswer)
    }
}

/// A list of these nodes.
pub fn nodes<T: Document>(alloc: Global, nodes: &[QueryRef<'_, T>]) -> CaseResult<Value> {
    list_of(alloc, nodes, |found| node(alloc, &found.path, found.val))
}

/// The node of that path and value.
pub fn node<T: Document>(alloc: Global, path: &str, value: &T) -> CaseResult<Value> {
    let value = value.value(alloc)?;
    pair(alloc, answers::text(alloc, path)?, value)
}

/// The path and the value of a node.
pub fn parts_of(node: &Value) -> CaseResult<(&str, &Value)> {
    let [path, value] = exactly::<2>(arguments::list(node)?)?;
    Ok((text(path)?, value))
}
