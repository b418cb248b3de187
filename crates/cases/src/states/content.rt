//! What states hold, as cases have it: `"nothing"`, `{"value": V}`, `{"ref": [PATH, V]}`, or `{"refs": [[PATH, V], ..]}`.
ghost use Rattle.std.specs.Prelude.{IsTrue, IfOk};
ghost use Rattle.jsonpath_rust.specs.states.State.{DataIsWhole, PointersAreWhole};

use crate::answers::{CaseResult, Refusal, list_of, member, text};
use crate::arguments::{each, given, given_if};
use crate::doc::documents::{Document, document_of};
use crate::types::{node, parts_of};
use jsonpath_rust::Whole;
use jsonpath_rust::query::queryable::Queryable;
use jsonpath_rust::query::state::{Data, Pointer, State};
use serde_json::Value;
use std::alloc::Global;
use std::slice;

/// What a state is made of: its document, its content, or null for that of the root, and the values that its pointers borrow.
#[derive(Drop)]
pub struct Ground<'r, T: Queryable> {
    pub alloc: Global,
    pub document: Whole<T>,
    content: &'r Value,
    values: Vec<Whole<T>>,
}

/// A content and a document.
pub type Place<'r> = (&'r Value, &'r Value);

/// The ground of a state, whose values have to be whole.
pub fn ground_of<'r, T: Document>(alloc: Global, place: Place<'r>) -> CaseResult<Ground<'r, T>> {
    let (content, document) = place;
    let document = document_of(alloc, document)?;
    let nodes = nodes_of(content);
    let values = each(alloc, nodes, |node| document_of(alloc, parts_of(node)?.1))?;
    Ok(Ground {
        alloc,
        document,
        content,
        values,
    })
}

/// The nodes that the content has, each a list of a path and a value. A value has none, and nothing has none.
fn nodes_of(content: &Value) -> &[Value] {
    match (content.get("ref"), content.get("refs")) {
        (Some(node), None) => slice::from_ref(node),
        (None, Some(Value::Array(nodes))) => nodes,
        _ => &[],
    }
}

/// The content, whose pointers borrow the values of the ground.
pub fn data_of<'d, T: Document>(ground: &'d Ground<'_, T>) -> CaseResult<Data<'d, T>> {
    let content = ground.content;
    if content.as_str() == Some("nothing") {
        return Ok(Data::Nothing);
    }
    let members = given(content.as_object())?;
    let (kind, held) = given(members.iter().next())?;
    match kind.as_str() {
        _ if members.len() > 1 => Err(Refusal::NoAnswer),
        "value" => Ok(Data::Value(document_of::<T>(ground.alloc, held)?.into_inner())),
        "ref" => Ok(Data::new_ref(given(pointers_of(ground)?.pop())?)),
        "refs" => Ok(Data::new_refs(pointers_of(ground)?)),
        _ => Err(Refusal::NoAnswer),
    }
}

fn pointers_of<'d, T: Document>(ground: &'d Ground<'_, T>) -> CaseResult<Vec<Pointer<'d, T>>> {
    let mut pointers = Vec::new(ground.alloc);
    for (node, value) in nodes_of(ground.content).iter().zip(&ground.values) {
        let path = String::from_str(ground.alloc, parts_of(node)?.0)?;
        pointers.push(Pointer::new(value.get(), path))?;
    }
    Ok(pointers)
}

/// The state.
pub fn state_of<'d, T: Document>(ground: &'d Ground<'_, T>) -> CaseResult<State<'d, T>>
    ensures content { IfOk result (λ s. DataIsWhole T.is_whole s.content) }
    ensures root { IfOk result (λ s. IsTrue (T.is_whole s.root.now)) }
{
    if ground.content.is_null() {
        return Ok(State::root(ground.alloc, ground.document.get())?);
    }
    let content = data_of(ground)?;
    if is_whole(&content) {
        Ok(State::data(ground.document.get(), content))
    } else {
        drop(content);
        Err(Refusal::NoAnswer)
    }
}

/// Whether all values of the data are documents of whole numbers.
fn is_whole<T: Queryable>(held: &Data<'_, T>) -> bool
    ensures { IsTrue result → DataIsWhole T.is_whole held.now }
{
    match held {
        Data::Ref(pointer) => pointer.inner.is_whole(),
        Data::Refs(pointers) => are_whole(pointers),
        Data::Value(value) => value.is_whole(),
        Data::Nothing => true,
    }
}

fn are_whole<T: Queryable>(pointers: &[Pointer<'_, T>]) -> bool
    ensures { IsTrue result → PointersAreWhole T.is_whole pointers.now }
{
    pointers.iter().all(|pointer| pointer.inner.is_whole())
}

/// The content of a copy of the state, which has to be in the document of the ground.
pub fn content_of<T: Document>(ground: &Ground<'_, T>, state: State<'_, T>) -> CaseResult<Value> {
    let copy = state.try_clone(ground.alloc);
    drop(state);
    let copy = copy?;
    let is_there = copy.root.is_whole() && copy.root.equal(ground.document.get());
    let content = value_of(ground.alloc, &copy.content);
    drop(copy);
    given_if(is_there, content?)
}

fn value_of<T: Document>(alloc: Global, data: &Data<'_, T>) -> CaseResult<Value> {
    match data {
        Data::Ref(pointer) => member(alloc, "ref", node(alloc, &pointer.path, pointer.inner)?),
        Data::Refs(pointers) => member(alloc, "refs", nodes(alloc, pointers)?),
        Data::Value(value) => member(alloc, "value", value.value(alloc)?),
        Data::Nothing => text(alloc, "nothing"),
    }
}

/// A list of these nodes.
pub fn nodes<T: Document>(alloc: Global, pointers: &[Pointer<'_, T>]) -> CaseResult<Value> {
    list_of(alloc, pointers, |held| node(alloc, &held.path, held.inner))
}
