//! Answers of calls, as cases have them, and why a call gives none.
ghost use Rattle.std.specs.Prelude.{IsTrue};
ghost use Rattle.jsonpath_base.specs.Same.{same};
ghost use Rattle.jsonpath_base.specs.Values.{value_tree};

use jsonpath_base::{Step, same, whole};
use jsonpath_parser::errors::JsonPathError;
use serde_json::{Map, ToValue, Value, put};
use std::alloc::{AllocError, AllocFailed, Global};
use std::io;
use std::io::ErrorKind;

/// Why there is no value.
#[derive(Drop)]
pub enum Refusal {
    /// There is no such call, or it takes no such arguments, or what it gave is not what it always has to be.
    NoAnswer,
    /// The call was refused, and left a document other than it was.
    Changed,
    /// The call was refused by this error.
    Error(JsonPathError),
    /// It was refused for another cause.
    Other(Cause),
}

/// A cause that is no `JsonPathError`; its name is the kind that cases have.
#[derive(Clone, Copy, Debug)]
pub enum Cause {
    NotJson,
    NotWhole,
    NoPatch,
    Closed,
    Io,
}

/// The value that a call gives, or why there is none.
pub type CaseResult<T> = Result<T, Refusal>;

impl Refusal {
    /// Memory ran out.
    pub fn memory() -> Refusal {
        Refusal::Error(JsonPathError::OutOfMemory)
    }

    /// Whether memory ran out.
    pub fn is_memory(&self) -> bool {
        matches!(self, Refusal::Error(JsonPathError::OutOfMemory))
    }

    /// Why no answer came.
    pub fn words(&self) -> &'static str {
        match self {
            Refusal::Error(JsonPathError::OutOfMemory) => "out of memory",
            Refusal::Changed => "the document changed",
            _ => "there is no answer",
        }
    }
}

impl From<JsonPathError> for Refusal {
    fn from(error: JsonPathError) -> Refusal {
        Refusal::Error(error)
    }
}

impl From<AllocError> for Refusal {
    fn from(_error: AllocError) -> Refusal {
        Refusal::memory()
    }
}

impl<T: Drop> From<AllocFailed<T>> for Refusal {
    fn from(_error: AllocFailed<T>) -> Refusal {
        Refusal::memory()
    }
}

impl From<io::Error> for Refusal {
    fn from(error: io::Error) -> Refusal {
        if error.kind() == ErrorKind::OutOfMemory {
            Refusal::memory()
        } else {
            Refusal::Other(Cause::Io)
        }
    }
}

/// Whether both are whole, and the same.
pub fn are_same(value: &Value, wanted: &Value) -> bool
    ensures { IsTrue result → IsTrue (same (value_tree value.now) (value_tree wanted.now)) }
{
    whole(value) && whole(wanted) && same(value, wanted)
}

/// A value, or a refusal by an error, which is `{"refused": ..}`, with its kind; `PestError` has the place behind it, `InvalidNumber`
/// the literal, and `MaxNestingDepthExceeded` the depth. Out of memory is no answer.
pub fn answered(alloc: Global, given: CaseResult<Value>) -> CaseResult<Value> {
    let kind = match given {
        Err(Refusal::Error(error)) => {
            let kind = kind_of(alloc, &error);
            drop(error);
            kind?
        }
        Err(Refusal::Other(cause)) => format!(in alloc; "{cause:?}")?,
        given => return given,
    };
    member(alloc, "refused", Value::String(kind))
}

fn kind_of(alloc: Global, error: &JsonPathError) -> CaseResult<String> {
    match error {
        JsonPathError::OutOfMemory => Err(Refusal::memory()),
        JsonPathError::PestError(place) => Ok(format!(in alloc; "PestError {place}")?),
        JsonPathError::InvalidJsonPath(_) => Ok(String::from_str(alloc, "InvalidJsonPath")?),
        JsonPathError::InvalidNumber(literal) => {
            Ok(format!(in alloc; "InvalidNumber {literal}")?)
        }
        JsonPathError::MaxNestingDepthExceeded(depth) => {
            Ok(format!(in alloc; "MaxNestingDepthExceeded {depth}")?)
        }
        _ => Ok(format!(in alloc; "{error:?}")?),
    }
}

/// What a call gave that may have changed a document. Where it is refused, the document has to be as it was.
pub fn unchanged<T: Drop>(given: CaseResult<T>, is_kept: bool) -> CaseResult<T> {
    match given {
        Err(_) if !is_kept => Err(Refusal::Changed),
        given => given,
    }
}

/// A list of what a call gave, and of what it left of a copy of the value. Where it is refused, the copy has to be as the value is.
pub fn with_left(
    alloc: Global,
    given: CaseResult<Value>,
    left: Value,
    value: &Value,
) -> CaseResult<Value> {
    let is_kept = are_same(&left, value);
    pair(alloc, unchanged(given, is_kept)?, left)
}

/// A text.
pub fn text(alloc: Global, text: &str) -> CaseResult<Value> {
    Ok(Value::try_from_str(alloc, text)?)
}

/// A list of two.
pub fn pair(alloc: Global, first: Value, second: Value) -> CaseResult<Value> {
    Ok(Value::Array(vec![in alloc; first, second]?))
}

/// An object of that one member.
pub fn member(alloc: Global, name: &str, value: Value) -> CaseResult<Value> {
    let mut members = Map::new(alloc);
    put(&mut members, alloc, name, value)?;
    Ok(Value::Object(members))
}

/// A list of what is there, and an empty one of None.
pub fn optional<T: ToValue + Drop>(alloc: Global, found: Option<T>) -> CaseResult<Value> {
    let mut values = Vec::new(alloc);
    if let Some(found) = found {
        values.push(found.to_value(alloc)?)?;
    }
    Ok(Value::Array(values))
}

/// A list.
pub fn listed<T: ToValue + Drop>(alloc: Global, items: Vec<T>) -> CaseResult<Value> {
    let mut values = Vec::new(alloc);
    for item in items {
        values.push(item.to_value(alloc)?)?;
    }
    Ok(Value::Array(values))
}

/// A list of what is told of each item.
pub fn list_of<T, F: Fn(&T) -> CaseResult<Value>>(
    alloc: Global,
    items: &[T],
    tell: F,
) -> CaseResult<Value>
    requires { F.IsAlwaysCallable tell }
{
    let mut values = Vec::new(alloc);
    for item in items {
        values.push(tell(item)?)?;
    }
    Ok(Value::Array(values))
}

/// A location, as a list of names and indexes.
pub fn location(alloc: Global, steps: &[Step]) -> CaseResult<Value> {
    list_of(alloc, steps, step_value)
}

fn step_value(step: &Step) -> CaseResult<Value> {
    match step {
        Step::Name(name) => Ok(Value::String(name.clone()?)),
        Step::Index(index) => Ok(Value::from(*index)),
    }
}
