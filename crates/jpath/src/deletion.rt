//! The text of what a deletion leaves. The document that it changes is a `Value`.
ghost use Rattle.std.specs.Prelude.{◌≡◌, ◌++◌, decimal, IfErr, IfOk, IsTrue, OnOk, Some, string_bytes};
ghost use Rattle.serde_json.specs.View.{view};
ghost use Rattle.jsonpath_parser.specs.tree.View.{query_view};
ghost use Rattle.jsonpath_base.specs.Values.{value_tree, value_is_whole};
ghost use Rattle.jsonpath_rust.specs.documents.Document.{value_document};
ghost use Rattle.jpath.specs.Json.{json_text};
ghost use Rattle.jpath.specs.Output as output;
ghost use Rattle.jpath.specs.Output.{IsJson, IsNoDocument, deletion_text};
ghost use Rattle.jpath.specs.Printed.{IsNoAnswer, IsNoOutput, IsPrinted};

use crate::fault::Fault;
use crate::words::Command;
use jsonpath_parser::model::JpQuery;
use jsonpath_rust::Whole;
use jsonpath_rust::query::Prepared;
use serde_json::Value;
use std::alloc::{AllocError, Global};
use std::fmt::Write;
use std::mem;

/// How many locations the query deletes from the document of these bytes, and the document that is left.
pub fn deletion(alloc: Global, query: &JpQuery, bytes: Vec<u8>) -> Result<String, Fault>
    ensures text { IfOk result (λ text. IsPrinted Command.Delete (query_view query.now) bytes.items (string_bytes text)) }
    ensures refused { IfErr result (IsNoOutput (query_view query.now) bytes.items) }
{
    let mut document = value_of(alloc, bytes.as_slice())?;
    drop(bytes);
    let text = deletion_printed(alloc, query, &mut document);
    // The process ends after a run, and its memory goes with it: no value is freed by itself.
    mem::forget(document);
    text
}

/// The document of these bytes, which can be changed.
fn value_of(alloc: Global, bytes: &[u8]) -> Result<Whole<Value>, Fault>
    ensures json { IfOk result (λ w. IsJson bytes.now (view w.value)) }
    ensures fault { IfErr result (IsNoDocument (Some bytes.now)) }
{
    let value = match Value::from_slice(alloc, bytes) {
        Ok(value) => value,
        Err(e) => return Err(if e.is_memory() {
            Fault::Memory
        } else {
            Fault::NotJson
        }),
    };
    if jsonpath_base::whole(&value) {
        Ok(Whole::of(value))
    } else {
        Err(Fault::NotWhole)
    }
}

/// How many locations were deleted, and the document that is left.
fn deletion_printed(
    alloc: Global,
    query: &JpQuery,
    document: &mut Whole<Value>,
) -> Result<String, Fault>
    ensures text { IfOk result (λ text. string_bytes text ≡ output.printed Command.Delete (query_view query.now) (value_document document.old.value)) }
    ensures refused { IfErr result (IsNoAnswer (query_view query.now) (value_document document.old.value)) }
{
    let prepared = Prepared::of(alloc, query)?;
    let count = document.delete(alloc, &mut prepared.runner(alloc))?;
    Ok(rest_text(alloc, count, document.get())?)
}

/// A line for a count, and one for a document.
fn rest_text(alloc: Global, count: usize, document: &Value) -> Result<String, AllocError>
    requires { IsTrue (value_is_whole document.now) }
    ensures { IfOk result (λ text. string_bytes text ≡ deletion_text count (value_tree document.now)) }
{
    let mut text = String::new(alloc);
    push_count(&mut text, count)?;
    text.push('\n')?;
    push_value(alloc, &mut text, document)?;
    text.push('\n')?;
    Ok(text)
}

/// Appends a count in decimal.
fn push_count(text: &mut String, count: usize) -> Result<(), AllocError>
    ensures { OnOk result (string_bytes text.new ≡ string_bytes text.old ++ decimal count) }
{
    write!(text, "{count}").map_err(|_| AllocError)
}

/// Appends a value as compact JSON.
fn push_value(alloc: Global, text: &mut String, value: &Value) -> Result<(), AllocError>
    requires { IsTrue (value_is_whole value.now) }
    ensures { OnOk result (string_bytes text.new ≡ string_bytes text.old ++ json_text (value_tree value.now)) }
{
    let json = value.to_string(alloc)?;
    text.push_str(json.as_str())
}
