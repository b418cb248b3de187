//! Calls of `jsonpath_base`: of slices, of steps and locations, which are lists of names and indexes, of values at them, read, changed
//! and taken, of sets, and of patterns. What is answered of a change is a list of what the call returns and what it leaves.
use crate::answers::{CaseResult, Refusal, list_of, listed, location, optional, pair, with_left};
use crate::arguments::{
    each, given, given_if, list, number, size, step, steps, text, text_copy, truth,
};
use jsonpath_base::{
    MatchKind, Pattern, SlicePlaces, Step, add_at, add_index, add_name, at, found,
    location_by_pointer, path_of, picked, pointer_of, put_at, remove_all, replace_all,
    set_function, slice_places, starts_with, step_by_token, take_at, whole,
};
use serde_json::Value;
use std::alloc::Global;

/// The places that the slice of a start, an end and a step picks of so many elements, null where a part is left out; for `slice_places`
/// how many there are, and which.
pub fn sliced(alloc: Global, name: &str, parts: [&Value; 4]) -> CaseResult<Value> {
    let [start, end, step, length] = parts;
    let (start, end, step, length) = (part(start)?, part(end)?, part(step)?, size(length)?);
    match name {
        "picked" => listed(alloc, picked(alloc, start, end, step, length)?),
        "slice_places" => told(alloc, slice_places(start, end, step, length)),
        _ => Err(Refusal::NoAnswer),
    }
}

fn part(value: &Value) -> CaseResult<Option<i64>> {
    match value {
        Value::Null => Ok(None),
        _ => Ok(Some(number(value)?)),
    }
}

fn told(alloc: Global, places: SlicePlaces) -> CaseResult<Value> {
    let count = Value::from(places.len());
    let mut given = Vec::new(alloc);
    for place in places {
        given.push(Value::from(place))?;
    }
    pair(alloc, count, Value::Array(given))
}

/// The path with that step behind it: a name or an index, as the call has it.
pub fn longer(alloc: Global, name: &str, path: &Value, step: &Value) -> CaseResult<Value> {
    let mut path = text_copy(alloc, path)?;
    match name {
        "add_name" => add_name(alloc, &mut path, text(step)?)?,
        _ => add_index(alloc, &mut path, size(step)?)?,
    }
    Ok(Value::String(path))
}

/// Whether the copy of a step, which has to be the step, is another one.
pub fn copied(alloc: Global, original: &Value, other: &Value) -> CaseResult<Value> {
    let (original, other) = (step(original)?, step(other)?);
    let copy = original.try_clone(alloc)?;
    given_if(copy == original, Value::from(copy == other))
}

/// Whether the place begins with the steps of the other one.
pub fn begun(alloc: Global, place: &Value, beginning: &Value) -> CaseResult<Value> {
    let (place, beginning) = (steps(alloc, place)?, steps(alloc, beginning)?);
    Ok(Value::from(starts_with(&place, &beginning)))
}

/// The path of the location, or its pointer.
pub fn written(alloc: Global, name: &str, location: &Value) -> CaseResult<Value> {
    let steps = steps(alloc, location)?;
    match name {
        "path_of" => Ok(Value::String(path_of(alloc, &steps)?)),
        _ => Ok(Value::String(pointer_of(alloc, &steps)?)),
    }
}

/// A list of the location that the pointer means, empty for None.
pub fn pointed(alloc: Global, value: &Value, pointer: &str) -> CaseResult<Value> {
    let found = location_by_pointer(alloc, value, pointer)?;
    list_of(alloc, found.as_slice(), |steps| location(alloc, steps))
}

/// The location that is there, null for None.
pub fn located(alloc: Global, found: Option<Vec<Step>>) -> CaseResult<Value> {
    match found {
        Some(steps) => location(alloc, &steps),
        None => Ok(Value::Null),
    }
}

/// A list of the value at the location, empty for None.
pub fn value_at(alloc: Global, value: &Value, location: &Value) -> CaseResult<Value> {
    optional(alloc, at(value, &steps(alloc, location)?))
}

/// A list of the value that `take_at` takes, empty for None, and what it leaves.
pub fn taken(alloc: Global, value: &Value, location: &Value) -> CaseResult<Value> {
    let steps = steps(alloc, location)?;
    let mut left = value.clone()?;
    let taken = optional(alloc, take_at(&mut left, &steps))?;
    pair(alloc, taken, left)
}

/// What the call of that name answers and leaves of a value, of a location, or of several, and of a new value.
pub fn changed(alloc: Global, name: &str, asked: [&Value; 3]) -> CaseResult<Value> {
    let [value, at, new] = asked;
    let mut left = value.clone()?;
    let answer = change(alloc, name, &mut left, at, new);
    with_left(alloc, answer, left, value)
}

fn change(
    alloc: Global,
    name: &str,
    left: &mut Value,
    at: &Value,
    new: &Value,
) -> CaseResult<Value> {
    match name {
        "put_at" => Ok(Value::from(put_at(left, &steps(alloc, at)?, new.clone()?))),
        "add_at" => {
            let mut parent = steps(alloc, at)?;
            let step = given(parent.pop())?;
            Ok(Value::from(add_at(alloc, left, &parent, step, new.clone()?)?))
        }
        "remove_all" => Ok(Value::from(remove_all(alloc, left, &places_of(alloc, at)?)?)),
        _ => Ok(Value::from(replace_all(alloc, left, &places_of(alloc, at)?, new)?)),
    }
}

fn places_of(alloc: Global, places: &Value) -> CaseResult<Vec<Vec<Step>>> {
    each(alloc, list(places)?, |place| steps(alloc, place))
}

/// What the function of sets answers of both, which have to be whole.
pub fn of_sets(name: &str, left: &Value, right: &Value) -> CaseResult<Value> {
    if whole(left) && whole(right) {
        Ok(Value::from(set_function(name, left, right)))
    } else {
        Err(Refusal::NoAnswer)
    }
}

/// Whether a search finds something: of a text, for a pattern, which has to match the entire text where `entire` is true.
pub fn is_found(
    alloc: Global,
    subject: &Value,
    pattern: &Value,
    entire: &Value,
) -> CaseResult<Value> {
    Ok(Value::from(found(alloc, text(subject)?, text(pattern)?, truth(entire)?)?))
}

/// The same of a `Pattern` that was read before, which has to tell what it was read of.
pub fn found_by_pattern(
    alloc: Global,
    subject: &Value,
    pattern: &Value,
    entire: &Value,
) -> CaseResult<Value> {
    let (subject, pattern, entire) = (text(subject)?, text(pattern)?, truth(entire)?);
    let read = Pattern::new(alloc, pattern, extent_of(entire))?;
    let is_told = read.source() == pattern
        && read.extent().is_entire() == entire
        && read.is_of(pattern, extent_of(entire))
        && !read.is_of(pattern, extent_of(!entire));
    given_if(is_told, Value::from(read.is_found(alloc, subject)?))
}

/// What of a text has to match: where `entire`, the entire text.
fn extent_of(entire: bool) -> MatchKind {
    if entire {
        MatchKind::Full
    } else {
        MatchKind::Partial
    }
}

/// In which of the texts one finder of the pattern finds something.
pub fn found_by_finder(
    alloc: Global,
    pattern: &Value,
    entire: &Value,
    texts: &Value,
) -> CaseResult<Value> {
    let read = Pattern::new(alloc, text(pattern)?, extent_of(truth(entire)?))?;
    let answers = found_in(alloc, &read, texts);
    drop(read);
    answers
}

fn found_in(alloc: Global, read: &Pattern, subjects: &Value) -> CaseResult<Value> {
    let mut finder = read.finder(alloc)?;
    let mut answers = Vec::new(alloc);
    for subject in list(subjects)? {
        answers.push(finder.is_found(text(subject)?))?;
    }
    let is_told = finder.is_of(read.source(), read.extent());
    given_if(is_told, listed(alloc, answers)?)
}
