//! A `Doc` of a `Value`, a `Value` of a `Doc`, and copies of a `Doc`.
ghost use Rattle.std.specs.Prelude.{◌≡◌, IfOk, map};
ghost use Rattle.serde_json.specs.View.{items_view, members_view};
ghost use Rattle.jsonpath_base.specs.Values.{tree_of_number, value_tree, trees_of, members_of};
ghost use Rattle.cases.specs.DocTree.{doc_tree, pairs_of, trees};
ghost use Rattle.cases.specs.Turned.{turned, turned_trees, turned_members};

use crate::doc::Doc;
use serde_json::{Map, Value};
use std::alloc::{AllocError, Global};
use std::collections::BTreeMap;

/// The document of a value: the same tree, but that members walk in the other order. A number that is no whole number of
/// 64 bits becomes null.
#[cycle(of_value)]
pub fn of_value(alloc: Global, value: &Value) -> Result<Doc, AllocError>
    ensures { IfOk result (λ d. doc_tree d ≡ turned (value_tree value.now)) }
{
    match value {
        Value::Null => Ok(Doc::Null),
        Value::Bool(truth) => Ok(Doc::Bool(*truth)),
        Value::Number(_) => Ok(of_number(value.as_i64())),
        Value::String(text) => Ok(Doc::Text(text.clone()?)),
        Value::Array(items) => Ok(Doc::List(of_items(alloc, items)?)),
        Value::Object(members) => Ok(Doc::Members(of_members(alloc, members)?)),
    }
}

fn of_number(number: Option<i64>) -> Doc
    ensures { doc_tree result ≡ tree_of_number number }
{
    match number {
        Some(number) => Doc::Num(number),
        None => Doc::Null,
    }
}

#[cycle(of_value)]
fn of_items(alloc: Global, items: &Vec<Value>) -> Result<Vec<Doc>, AllocError>
    ensures { IfOk result (λ v. trees (map doc_tree v.items) ≡ turned_trees (trees_of (items_view items.now.items))) }
{
    let mut docs = Vec::with_capacity(alloc, items.len())?;
    for item in items {
        docs.push(of_value(alloc, item)?)?;
    }
    Ok(docs)
}

#[cycle(of_value)]
fn of_members(
    alloc: Global,
    members: &Map<String, Value>,
) -> Result<BTreeMap<String, Doc>, AllocError>
    ensures { IfOk result (λ m. pairs_of m.entries ≡ turned_members (members_of (members_view members.now.entries))) }
{
    let mut docs = BTreeMap::new(alloc);
    for (key, member) in members.iter() {
        let name = key.clone()?;
        drop(docs.insert(name, of_value(alloc, member)?)?);
    }
    Ok(docs)
}

/// The value that the document would be made of.
#[cycle(to_value)]
pub fn to_value(alloc: Global, doc: &Doc) -> Result<Value, AllocError> {
    match doc {
        Doc::Null => Ok(Value::Null),
        Doc::Bool(truth) => Ok(Value::Bool(*truth)),
        Doc::Num(number) => Ok(Value::from(*number)),
        Doc::Text(text) => Ok(Value::String(text.clone()?)),
        Doc::List(items) => Ok(Value::Array(items_of(alloc, items)?)),
        Doc::Members(entries) => Ok(Value::Object(members_of(alloc, entries)?)),
    }
}

#[cycle(to_value)]
fn items_of(alloc: Global, items: &Vec<Doc>) -> Result<Vec<Value>, AllocError> {
    let mut values = Vec::with_capacity(alloc, items.len())?;
    for item in items {
        values.push(to_value(alloc, item)?)?;
    }
    Ok(values)
}

#[cycle(to_value)]
fn members_of(
    alloc: Global,
    entries: &BTreeMap<String, Doc>,
) -> Result<Map<String, Value>, AllocError> {
    let mut members = BTreeMap::new(alloc);
    for (key, member) in entries.iter() {
        let name = key.clone()?;
        drop(members.insert(name, to_value(alloc, member)?)?);
    }
    Ok(members)
}

/// A document of the same tree.
#[cycle(copy)]
pub fn copy(alloc: Global, doc: &Doc) -> Result<Doc, AllocError>
    ensures { IfOk result (λ d. doc_tree d ≡ doc_tree doc.now) }
{
    match doc {
        Doc::Null => Ok(Doc::Null),
        Doc::Bool(truth) => Ok(Doc::Bool(*truth)),
        Doc::Num(number) => Ok(Doc::Num(*number)),
        Doc::Text(text) => Ok(Doc::Text(text.clone()?)),
        Doc::List(items) => Ok(Doc::List(copy_items(alloc, items)?)),
        Doc::Members(entries) => Ok(Doc::Members(copy_members(alloc, entries)?)),
    }
}

#[cycle(copy)]
fn copy_items(alloc: Global, items: &Vec<Doc>) -> Result<Vec<Doc>, AllocError>
    ensures { IfOk result (λ v. map doc_tree v.items ≡ map doc_tree items.now.items) }
{
    let mut copies = Vec::with_capacity(alloc, items.len())?;
    for item in items {
        copies.push(copy(alloc, item)?)?;
    }
    Ok(copies)
}

#[cycle(copy)]
fn copy_members(
    alloc: Global,
    entries: &BTreeMap<String, Doc>,
) -> Result<BTreeMap<String, Doc>, AllocError>
    ensures { IfOk result (λ m. pairs_of m.entries ≡ pairs_of entries.now.entries) }
{
    let mut copies = BTreeMap::new(alloc);
    for (key, member) in entries.iter() {
        let name = key.clone()?;
        drop(copies.insert(name, copy(alloc, member)?)?);
    }
    Ok(copies)
}
