//! Reads a document from a text.
ghost use Rattle.std.specs.Prelude.{◌≡◌, IfErr, IfOk, Some};
ghost use Rattle.jsonpath_base.specs.Prelude.Documents.{view};
ghost use Rattle.serde_json.specs.Read.{read as read_text};
ghost use Rattle.jsonpath_rust.specs.Reading.{IsReadRefusal};

use crate::documents::queryable::Queryable;
use crate::documents::whole::Whole;
use serde_json::Value;
use std::alloc::Global;
use thiserror::Error;

/// The reason why a text is no document.
#[derive(Debug, Drop, PartialEq, Error)]
pub enum ReadError {
    /// The text is not JSON.
    #[error("the text is not JSON")]
    NotJson,
    /// The document has a number that is not an integer of 64 bits.
    #[error("the document holds a number that is no whole number of 64 bits")]
    NotWhole,
    /// Memory ran out.
    #[error("out of memory")]
    Memory,
}

impl Whole<Value> {
    /// Returns what `serde_json` reads of a text, if it is whole. It takes time linear in the text.
    ///
    /// # Errors
    ///
    /// - `NotJson` where `serde_json` reads nothing.
    /// - `NotWhole` where a number in it is not an integer of 64 bits.
    /// - `Memory` where memory ran out.
    pub fn read(alloc: Global, text: &str) -> Result<Self, ReadError>
        ensures read { IfOk result (λ w. read_text text.now ≡ Some (view w.value)) }
        ensures refused { IfErr result (IsReadRefusal text.now) }
    {
        let value = match Value::from_str(alloc, text) {
            Ok(value) => value,
            Err(error) => return Err(if error.is_memory() {
                ReadError::Memory
            } else {
                ReadError::NotJson
            }),
        };
        if value.is_whole() {
            Ok(Whole { value })
        } else {
            Err(ReadError::NotWhole)
        }
    }
}
