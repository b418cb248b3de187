//! The error for a value that is not in the document.
ghost use Rattle.std.specs.Prelude.{◌≡◌, IfErr, IfOk};
ghost use Rattle.jsonpath_base.specs.Prelude.Documents.{IsInvalid, OutOfMemory};

use crate::documents::Queried;
use crate::documents::queryable::Queryable;
use jsonpath_parser::errors::JsonPathError;
use std::alloc::Global;

/// Returns the error for a caller that asked for a value in a document and got an owned one: `InvalidJsonPath`, with a
/// text that shows the value. It fails with `OutOfMemory` only.
pub fn not_a_reference<T: Queryable>(alloc: Global, value: &T) -> Queried<JsonPathError>
    ensures invalid { IfOk result IsInvalid }
    ensures memory { IfErr result (λ e. e ≡ OutOfMemory) }
{
    let said = format!(in alloc; "{value:?} is no reference")?;
    Ok(JsonPathError::InvalidJsonPath(said))
}
