//! What the calls of cases take. Each function here refuses a value of another kind by `NoAnswer`.
use crate::answers::{CaseResult, Refusal};
use jsonpath_base::Step;
use jsonpath_rust::{Whole, WholeRef};
use serde_json::Value;
use std::alloc::Global;
use std::slice;

/// What is there.
pub fn given<T>(found: Option<T>) -> CaseResult<T> {
    match found {
        Some(found) => Ok(found),
        None => Err(Refusal::NoAnswer),
    }
}

/// The value, if that holds.
pub fn given_if<T: Drop>(holds: bool, value: T) -> CaseResult<T> {
    given(holds.then_some(value))
}

/// The arguments, if they are so many.
pub fn exactly<const N: usize>(arguments: &[Value]) -> CaseResult<&[Value; N]> {
    given(arguments.try_into().ok())
}

/// A text.
pub fn text(value: &Value) -> CaseResult<&str> {
    given(value.as_str())
}

/// The elements of a list.
pub fn list(value: &Value) -> CaseResult<&[Value]> {
    Ok(given(value.as_array())?.as_slice())
}

/// A whole number of 64 bits.
pub fn number(value: &Value) -> CaseResult<i64> {
    given(value.as_i64())
}

/// A whole number from 0 on.
pub fn size(value: &Value) -> CaseResult<usize> {
    given(usize::try_from(given(value.as_u64())?).ok())
}

/// A truth.
pub fn truth(value: &Value) -> CaseResult<bool> {
    given(value.as_bool())
}

/// A copy of a text.
pub fn text_copy(alloc: Global, value: &Value) -> CaseResult<String> {
    Ok(String::from_str(alloc, text(value)?)?)
}

/// What is made of each value, in order.
pub fn each<'v, T: Drop, F: Fn(&'v Value) -> CaseResult<T>>(
    alloc: Global,
    values: &'v [Value],
    make: F,
) -> CaseResult<Vec<T>>
    requires { F.IsAlwaysCallable make }
{
    let mut made = Vec::new(alloc);
    for value in values {
        made.push(make(value)?)?;
    }
    Ok(made)
}

/// The texts of a list.
pub fn texts(alloc: Global, value: &Value) -> CaseResult<Vec<&str>> {
    each(alloc, list(value)?, text)
}

/// The value, if its numbers are whole.
pub fn whole(value: &Value) -> CaseResult<WholeRef<'_, Value>> {
    given(WholeRef::new(value))
}

/// A copy of the value, if its numbers are whole.
pub fn whole_copy(value: &Value) -> CaseResult<Whole<Value>> {
    given(Whole::new(value.clone()?).ok())
}

/// The step of a name or an index.
pub fn step(value: &Value) -> CaseResult<Step> {
    match value {
        Value::String(name) => Ok(Step::Name(name.clone()?)),
        _ => Ok(Step::Index(size(value)?)),
    }
}

/// The location of a list of names and indexes.
pub fn steps(alloc: Global, value: &Value) -> CaseResult<Vec<Step>> {
    each(alloc, list(value)?, step)
}

/// The text of a string, or of a list of pieces, each a string or `[string, count]`, that string so many times.
pub fn spelled(alloc: Global, value: &Value) -> CaseResult<String> {
    let pieces = match value {
        Value::Array(pieces) => pieces.as_slice(),
        _ => slice::from_ref(value),
    };
    let mut spelled = String::new(alloc);
    for piece in pieces {
        push_piece(&mut spelled, piece)?;
    }
    Ok(spelled)
}

fn push_piece(spelled: &mut String, piece: &Value) -> CaseResult<()> {
    let Value::Array(repeated) = piece else {
        return Ok(spelled.push_str(text(piece)?)?);
    };
    let [piece, count] = exactly::<2>(repeated)?;
    let piece = text(piece)?;
    for _ in 0..size(count)? {
        spelled.push_str(piece)?;
    }
    Ok(())
}
