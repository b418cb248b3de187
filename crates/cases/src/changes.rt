//! Calls that change a document, of `examples` and of a `Whole`: what each answers, null for None and for nothing, and what is left.
use crate::answers::{CaseResult, Cause, Refusal, optional, pair, with_left};
use crate::arguments::{each, exactly, given, list, size, steps, text, text_copy, whole_copy};
use crate::callers::query_of;
use examples::changing::{Change, put_each};
use examples::patch::{Operation, apply_patch};
use examples::redaction::redact;
use examples::script::{Edit, apply_edits};
use jsonpath_rust::Whole;
use jsonpath_rust::query::{LimitError, Prepared, Runner, at};
use serde_json::Value;
use std::alloc::Global;

/// What the call of that name answers, and leaves of the document, which is the first argument of a call of a `Whole` by locations or
/// texts, and the last of any other.
pub fn answer(alloc: Global, name: &str, asked: &[Value]) -> CaseResult<Value> {
    let (document, change) = match name {
        "Whole::take_at" => return taken(alloc, asked),
        "Whole::add_at" | "Whole::delete_within" => given(asked.split_first())?,
        _ => given(asked.split_last())?,
    };
    let mut left = whole_copy(document)?;
    let answer = changed(alloc, name, change, &mut left);
    with_left(alloc, answer, left.into_inner(), document)
}

/// A list of the value that is taken, empty for None, and what that leaves.
fn taken(alloc: Global, asked: &[Value]) -> CaseResult<Value> {
    let [document, location] = exactly::<2>(asked)?;
    let steps = steps(alloc, location)?;
    let mut left = whole_copy(document)?;
    let taken = left.take_at(&steps).map(|taken| taken.into_inner());
    pair(alloc, optional(alloc, taken)?, left.into_inner())
}

fn changed(
    alloc: Global,
    name: &str,
    change: &[Value],
    left: &mut Whole<Value>,
) -> CaseResult<Value> {
    match name {
        "redact" => redacted(alloc, change, left),
        "apply_edits" => edited(alloc, change, left),
        "apply_patch" => patched(alloc, change, left),
        "add_one" => one_added(alloc, change, left),
        "put_each" => put(alloc, change, left),
        "Whole::add_at" => added(alloc, change, left),
        "Whole::delete_within" => {
            let [query, depth] = exactly::<2>(change)?;
            Ok(Value::from(left.delete_within(alloc, text(query)?, size(depth)?)?))
        }
        _ if name.starts_with("Whole::") => run(alloc, name, change, left),
        _ => Err(Refusal::NoAnswer),
    }
}

fn redacted(alloc: Global, change: &[Value], left: &mut Whole<Value>) -> CaseResult<Value> {
    let [rules, mask] = exactly::<2>(change)?;
    let mask = whole_copy(mask)?;
    let queries = each(alloc, list(rules)?, |rule| query_of(alloc, rule))?;
    Ok(Value::from(redact(alloc, &queries, left, &mask)?))
}

fn edited(alloc: Global, change: &[Value], left: &mut Whole<Value>) -> CaseResult<Value> {
    let [edits] = exactly::<1>(change)?;
    let edits = each(alloc, list(edits)?, |edit| edit_of(alloc, edit))?;
    Ok(Value::from(apply_edits(alloc, &edits, left)?))
}

fn patched(alloc: Global, change: &[Value], left: &mut Whole<Value>) -> CaseResult<Value> {
    let [patch] = exactly::<1>(change)?;
    Ok(Value::from(apply_patch(alloc, &patch_of(alloc, patch)?, left)?))
}

fn put(alloc: Global, change: &[Value], left: &mut Whole<Value>) -> CaseResult<Value> {
    let [changes] = exactly::<1>(change)?;
    let changes = each(alloc, list(changes)?, |change| change_of(alloc, change))?;
    put_each(changes, left);
    Ok(Value::Null)
}

fn added(alloc: Global, change: &[Value], left: &mut Whole<Value>) -> CaseResult<Value> {
    let [location, new] = exactly::<2>(change)?;
    let mut parent = steps(alloc, location)?;
    let step = given(parent.pop())?;
    Ok(Value::from(left.add_at(alloc, &parent, step, whole_copy(new)?)?))
}

/// What the call of that name answers, by a runner of the query, which is its first argument; the units of a limit come next, if any.
fn run(alloc: Global, name: &str, asked: &[Value], left: &mut Whole<Value>) -> CaseResult<Value> {
    let (query, change) = given(asked.split_first())?;
    let query = Prepared::read(alloc, text(query)?)?;
    let answer = run_by(alloc, name, query.runner(alloc), change, left);
    drop(query);
    answer
}

fn run_by(
    alloc: Global,
    name: &str,
    mut runner: Runner<'_>,
    change: &[Value],
    left: &mut Whole<Value>,
) -> CaseResult<Value> {
    match (name, change) {
        ("Whole::delete", []) => Ok(Value::from(left.delete(alloc, &mut runner)?)),
        ("Whole::delete", [units]) => {
            let mut limited = runner.limited(size(units)?);
            told(left.delete(alloc, &mut limited))
        }
        ("Whole::replace", [new]) => {
            Ok(Value::from(left.replace(alloc, &mut runner, &whole_copy(new)?)?))
        }
        ("Whole::replace", [units, new]) => {
            let mut limited = runner.limited(size(units)?);
            told(left.replace(alloc, &mut limited, &whole_copy(new)?))
        }
        _ => Err(Refusal::NoAnswer),
    }
}

/// How many, null where the units are not enough.
fn told(count: Result<usize, LimitError>) -> CaseResult<Value> {
    match count {
        Ok(count) => Ok(Value::from(count)),
        Err(LimitError::Exhausted) => Ok(Value::Null),
        Err(LimitError::Query(error)) => Err(error.into()),
    }
}

/// Adds one to each whole number that the query selects: the new values are put when all of them are made, of the old ones.
fn one_added(alloc: Global, change: &[Value], document: &mut Whole<Value>) -> CaseResult<Value> {
    let [query] = exactly::<1>(change)?;
    let query = Prepared::read(alloc, text(query)?)?;
    let places = query.runner(alloc).locations(alloc, document.as_ref());
    drop(query);
    let mut changes = Vec::new(alloc);
    for place in places? {
        if let Some(value) = one_more(at(document.get(), &place)) {
            changes.push(Change { place, value })?;
        }
    }
    put_each(changes, document);
    Ok(Value::Null)
}

/// One more than a whole number, unless it is the greatest.
fn one_more(value: Option<&Value>) -> Option<Whole<Value>> {
    Whole::new(Value::from(value?.as_i64()?.checked_add(1)?)).ok()
}

/// The change that a pair of a location and a value tells.
fn change_of(alloc: Global, pair: &Value) -> CaseResult<Change> {
    let [location, value] = exactly::<2>(list(pair)?)?;
    let (place, value) = (steps(alloc, location)?, whole_copy(value)?);
    Ok(Change { place, value })
}

/// The edit that a step tells: `{"delete": ..}`, with a query, or `{"put": .., "value": ..}`, with a path.
fn edit_of(alloc: Global, step: &Value) -> CaseResult<Edit> {
    match (step.get("delete"), step.get("put"), step.get("value")) {
        (Some(query), None, None) => Ok(Edit::Delete(text_copy(alloc, query)?)),
        (None, Some(path), Some(value)) => {
            Ok(Edit::Replace(text_copy(alloc, path)?, whole_copy(value)?))
        }
        _ => Err(Refusal::NoAnswer),
    }
}

/// The operations of a patch (RFC 6902, 3); what is no list of them is refused as `NoPatch`.
fn patch_of(alloc: Global, patch: &Value) -> CaseResult<Vec<Operation>> {
    match operations_of(alloc, patch) {
        Err(Refusal::NoAnswer) => Err(Refusal::Other(Cause::NoPatch)),
        operations => operations,
    }
}

fn operations_of(alloc: Global, patch: &Value) -> CaseResult<Vec<Operation>> {
    each(alloc, list(patch)?, |element| operation_of(alloc, element))
}

/// The operation that an object is (RFC 6902, 4), by the members that it needs. Other members mean nothing.
fn operation_of(alloc: Global, element: &Value) -> CaseResult<Operation> {
    let path = text_at(alloc, element, "path")?;
    match text(given(element.get("op"))?)? {
        "add" => {
            let value = value_at(element)?;
            Ok(Operation::Add { path, value })
        }
        "remove" => Ok(Operation::Remove { path }),
        "replace" => {
            let value = value_at(element)?;
            Ok(Operation::Replace { path, value })
        }
        "move" => {
            let from = text_at(alloc, element, "from")?;
            Ok(Operation::Move { from, path })
        }
        "copy" => {
            let from = text_at(alloc, element, "from")?;
            Ok(Operation::Copy { from, path })
        }
        "test" => {
            let value = value_at(element)?;
            Ok(Operation::Test { path, value })
        }
        _ => Err(Refusal::NoAnswer),
    }
}

/// The text of that member.
fn text_at(alloc: Global, object: &Value, name: &str) -> CaseResult<String> {
    text_copy(alloc, given(object.get(name))?)
}

/// The member `value`.
fn value_at(object: &Value) -> CaseResult<Whole<Value>> {
    whole_copy(given(object.get("value"))?)
}
