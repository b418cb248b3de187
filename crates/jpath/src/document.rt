//! The document that `nodes`, `values` and `paths` read: JSON that borrows its texts from the input. `reading` makes it of
//! a text, `queryable` lets it be asked, with `equality` and `wholeness`, and `printing` has its text.
ghost use Rattle.std.specs.Prelude.{◌≡◌, IfErr, IfOk, Some};
ghost use Rattle.jpath.specs.Document.{json_data};
ghost use Rattle.jpath.specs.Output.{IsJson, IsNoDocument};

mod copies;
mod equality;
pub mod printing;
mod queryable;
mod reading;
mod wholeness;

use crate::document::reading::read_json;
use crate::document::wholeness::whole;
use crate::fault::Fault;
use json::Scratch;
use jsonpath_rust::Whole;
use serde_json::{Map, Number};
use std::alloc::Global;

/// A JSON value whose texts and names stand in the text that it was read from, or, where they are escaped there, in room
/// beside it.
#[derive(Debug, Drop)]
pub enum Json<'t> {
    Null,
    Bool(bool),
    Number(Number),
    /// A text that was read.
    String(&'t str),
    /// A text that was made.
    Owned(String),
    Array(Vec<Json<'t>>),
    /// The members in the order of their names' bytes.
    Object(Map<&'t str, Json<'t>>),
}

/// The document of these bytes. Escaped texts and names stand in `scratch`.
pub fn document_of<'t>(
    alloc: Global,
    bytes: &'t [u8],
    scratch: &'t mut Scratch,
) -> Result<Whole<Json<'t>>, Fault>
    ensures json { IfOk result (λ w. IsJson bytes.now (json_data w.value)) }
    ensures fault { IfErr result (IsNoDocument (Some bytes.now)) }
{
    let Ok(text) = simdutf8::compat::from_utf8(bytes) else {
        return Err(Fault::NotJson);
    };
    let document = read_json(alloc, text, scratch)?;
    if whole(&document) {
        Ok(Whole::of(document))
    } else {
        Err(Fault::NotWhole)
    }
}
