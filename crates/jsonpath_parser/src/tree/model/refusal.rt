//! The refusal of what cannot be made.
ghost use Rattle.std.specs.Prelude.{true};
ghost use Rattle.jsonpath_parser.specs.tree.Making.{IsMakersRefusal};

use crate::errors::JsonPathError;
use std::alloc::Global;

/// `InvalidJsonPath` with these words and this text, or `OutOfMemory` where memory ran out.
pub fn invalid(alloc: Global, words: &str, text: &str) -> JsonPathError
    ensures { IsMakersRefusal true result }
{
    match format!(in alloc; "{words}{text}") {
        Ok(message) => JsonPathError::InvalidJsonPath(message),
        Err(_) => JsonPathError::OutOfMemory,
    }
}
