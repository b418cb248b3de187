//! Calls of states, of what they hold and of pointers: of a content, or of two, and of what the call takes beside. The document of a
//! state is null where no argument tells it.
ghost use Rattle.std.specs.Prelude.{IsTrue, IfOk};

mod content;

use crate::answers::{CaseResult, Refusal, member};
use crate::arguments::{given_if, number, size, text, truth};
use crate::doc::documents::Document;
use crate::states::content::{data_of, nodes};
pub use crate::states::content::{Ground, Place, content_of, ground_of, state_of};
use jsonpath_rust::parser::errors::JsonPathError;
use jsonpath_rust::query::Queried;
use jsonpath_rust::query::queryable::Queryable;
use jsonpath_rust::query::selector::{process_index, process_key};
use jsonpath_rust::query::state::{Data, Pointer, State};
use serde_json::Value;
use std::alloc::Global;

/// What the call of that name answers.
pub fn answer<T: Document>(alloc: Global, name: &str, asked: &[Value]) -> CaseResult<Value> {
    let null = &Value::Null;
    match asked {
        [document] if is_maker(name) => of_one::<T>(alloc, name, (null, document), null),
        [content] => of_one::<T>(alloc, name, (content, null), null),
        [asked, document] if is_maker(name) => of_one::<T>(alloc, name, (null, document), asked),
        [content, document] if name == "State::shift_to_root" => {
            of_one::<T>(alloc, name, (content, document), null)
        }
        [left, right] if matches!(name, "State::reduce" | "State::equal") => {
            both::<T>(alloc, name, (left, null), (right, null))
        }
        [content, asked] => of_one::<T>(alloc, name, (content, null), asked),
        [left, right, document, other] => {
            both::<T>(alloc, name, (left, document), (right, other))
        }
        _ => Err(Refusal::NoAnswer),
    }
}

/// Whether the call takes no content.
fn is_maker(name: &str) -> bool {
    matches!(name, "State::root" | "State::nothing" | "Data::default")
        || matches!(name, "State::bool" | "State::i64" | "State::str")
}

fn of_one<T: Document>(
    alloc: Global,
    name: &str,
    place: Place<'_>,
    asked: &Value,
) -> CaseResult<Value> {
    let ground = ground_of::<T>(alloc, place)?;
    of_state(&ground, name, asked)
}

/// What the call makes of the document, or answers of the state.
fn of_state<T: Document>(
    ground: &Ground<'_, T>,
    name: &str,
    argument: &Value,
) -> CaseResult<Value> {
    let (alloc, root) = (ground.alloc, ground.document.get());
    match name {
        "State::root" => content_of(ground, State::root(alloc, root)?),
        "State::nothing" => content_of(ground, State::nothing(root)),
        "State::bool" => content_of(ground, State::bool(alloc, truth(argument)?, root)?),
        "State::i64" => content_of(ground, State::i64(alloc, number(argument)?, root)?),
        "State::str" => content_of(ground, State::str(alloc, text(argument)?, root)?),
        "Data::default" => content_of(ground, State::data(root, Data::default())),
        _ => of_content(ground, name, argument),
    }
}

/// What the call makes of the state, or tells of it.
fn of_content<T: Document>(
    ground: &Ground<'_, T>,
    name: &str,
    argument: &Value,
) -> CaseResult<Value> {
    let alloc = ground.alloc;
    match name {
        "State::is_nothing" => Ok(Value::from(state_of(ground)?.is_nothing())),
        "State::to_string" => {
            let state = state_of(ground)?;
            Ok(Value::String(format!(in alloc; "{state}")?))
        }
        "State::ok_ref" => match state_of(ground)?.ok_ref(alloc)? {
            Some(pointers) => nodes(alloc, &pointers),
            None => Ok(Value::Null),
        },
        "State::ok_val" => match state_of(ground)?.ok_val() {
            Some(value) => member(alloc, "value", value.value(alloc)?),
            None => Ok(Value::Null),
        },
        "State::shift_to_root" => content_of(ground, state_of(ground)?.shift_to_root(alloc)?),
        "State::flat_map" => mapped(ground, text(argument)?),
        _ => of_pointer(ground, name, argument),
    }
}

/// What `flat_map` answers by a closure that no case has: `doubled` the content, and `refused` whether the closure's refusal is returned.
fn mapped<T: Document>(ground: &Ground<'_, T>, closure: &str) -> CaseResult<Value> {
    let alloc = ground.alloc;
    let state = state_of(ground)?;
    if closure == "doubled" {
        let doubled = state.flat_map(alloc, |pointer| doubled(alloc, pointer))?;
        content_of(ground, doubled)
    } else {
        let refused = state.flat_map(alloc, |_pointer| Err(JsonPathError::NoRulePath));
        Ok(Value::from(is_refused(refused)?))
    }
}

/// The value twice: at a step to `a`, and at a step to 0.
fn doubled<T: Document>(alloc: Global, pointer: Pointer<'_, T>) -> Queried<Data<'_, T>> {
    let copy = pointer.try_clone(alloc)?;
    let mut pointers = Vec::new(alloc);
    pointers.push(Pointer::key(alloc, pointer.inner, pointer.path, "a")?)?;
    pointers.push(Pointer::idx(alloc, copy.inner, copy.path, 0)?)?;
    Ok(Data::new_refs(pointers))
}

fn is_refused<T: Drop>(answer: Queried<T>) -> CaseResult<bool> {
    match answer {
        Ok(_) => Ok(false),
        Err(JsonPathError::NoRulePath) => Ok(true),
        Err(error) => Err(Refusal::Error(error)),
    }
}

/// What the call of two states answers.
fn both<T: Document>(
    alloc: Global,
    name: &str,
    left: Place<'_>,
    right: Place<'_>,
) -> CaseResult<Value> {
    let left = ground_of::<T>(alloc, left)?;
    let right = ground_of::<T>(alloc, right)?;
    of_states(name, &left, &right)
}

/// What both reduce to, or whether they are equal, which they have to be from both sides.
fn of_states<'d, T: Document>(
    name: &str,
    left: &'d Ground<'_, T>,
    right: &'d Ground<'_, T>,
) -> CaseResult<Value> {
    let (state, other) = (state_of(left)?, state_of(right)?);
    match name {
        "State::reduce" => content_of(left, state.reduce(left.alloc, other)?),
        "State::equal" => {
            let is_equal = state.equal(&other);
            given_if(other.equal(&state) == is_equal, Value::from(is_equal))
        }
        _ => Err(Refusal::NoAnswer),
    }
}

/// What the call, of nothing, of a name or of an index, makes of the pointer, finds from it, or tells of it.
fn of_pointer<T: Document>(
    ground: &Ground<'_, T>,
    name: &str,
    argument: &Value,
) -> CaseResult<Value> {
    let pointer = pointer_of(ground)?;
    if name == "Pointer::is_internal" {
        return Ok(Value::from(pointer.is_internal()));
    }
    let data = found(ground.alloc, name, pointer, argument)?;
    content_of(ground, State::data(ground.document.get(), data))
}

/// The pointer, whose value is whole.
fn pointer_of<'d, T: Document>(ground: &'d Ground<'_, T>) -> CaseResult<Pointer<'d, T>>
    ensures { IfOk result (λ p. IsTrue (T.is_whole p.inner.now)) }
{
    match data_of(ground)? {
        Data::Ref(pointer) if pointer.inner.is_whole() => Ok(pointer),
        other => {
            drop(other);
            Err(Refusal::NoAnswer)
        }
    }
}

/// What the call makes of the pointer, or finds from it.
fn found<'d, T: Document>(
    alloc: Global,
    name: &str,
    pointer: Pointer<'d, T>,
    argument: &Value,
) -> CaseResult<Data<'d, T>>
    requires { IsTrue (T.is_whole pointer.inner.now) }
{
    match name {
        "process_key" => Ok(process_key(alloc, pointer, text(argument)?)?),
        "process_index" => Ok(process_index(alloc, pointer, &number(argument)?)?),
        "Pointer::key" => {
            let key = text(argument)?;
            Ok(Data::new_ref(Pointer::key(alloc, pointer.inner, pointer.path, key)?))
        }
        "Pointer::idx" => {
            let index = size(argument)?;
            Ok(Data::new_ref(Pointer::idx(alloc, pointer.inner, pointer.path, index)?))
        }
        "Pointer::empty" => Ok(Data::new_ref(Pointer::empty(alloc, pointer.inner))),
        _ => Err(Refusal::NoAnswer),
    }
}
