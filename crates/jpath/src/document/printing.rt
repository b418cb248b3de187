//! The text of a document.
ghost use Rattle.std.specs.Prelude.{◌≡◌, ◌++◌, false, IsTrue, OnOk, is_some, string_bytes};
ghost use Rattle.serde_json.specs.Find.{as_i64};
ghost use Rattle.serde_json.specs.View.{number_view};
ghost use Rattle.jsonpath_base.specs.Values.{has_whole_numbers, items_whole, members_whole, tree_of, tree_of_number, trees_of, members_of};
ghost use Rattle.jpath.specs.Document.{json_data, items_data, members_data};
ghost use Rattle.jpath.specs.Json.{comma_after, json_text, elements_text, members_text};

mod quoting;

use crate::document::Json;
use crate::document::printing::quoting::push_quoted;
use itoa::Buffer;
use serde_json::{Map, Number};
use std::alloc::{AllocError, Global};

/// Appends a value as compact JSON.
#[cycle(print)]
pub fn push_json(alloc: Global, text: &mut String, value: &Json<'_>) -> Result<(), AllocError>
    requires { IsTrue (has_whole_numbers (json_data value.now)) }
    ensures { OnOk result (string_bytes text.new ≡ string_bytes text.old ++ json_text (tree_of (json_data value.now))) }
{
    match value {
        Json::Null => text.push_str("null"),
        Json::Bool(true) => text.push_str("true"),
        Json::Bool(false) => text.push_str("false"),
        Json::Number(number) => push_number(text, number),
        Json::String(content) => push_quoted(alloc, text, content),
        Json::Owned(content) => push_quoted(alloc, text, content.as_str()),
        Json::Array(items) => {
            text.push('[')?;
            push_items(alloc, text, items)
        }
        Json::Object(members) => {
            text.push('{')?;
            push_members(alloc, text, members)
        }
    }
}

/// Appends the elements of a list, to its closing bracket.
#[cycle(print)]
fn push_items(alloc: Global, text: &mut String, items: &Vec<Json<'_>>) -> Result<(), AllocError>
    requires { IsTrue (items_whole (items_data items.now.items)) }
    ensures { OnOk result (string_bytes text.new ≡ string_bytes text.old ++ elements_text false (trees_of (items_data items.now.items))) }
{
    let mut later = false;
    for item in items {
        push_comma(text, later)?;
        push_json(alloc, text, item)?;
        later = true;
    }
    text.push(']')
}

/// Appends the members of an object, to its closing brace.
#[cycle(print)]
fn push_members(
    alloc: Global,
    text: &mut String,
    members: &Map<&str, Json<'_>>,
) -> Result<(), AllocError>
    requires { IsTrue (members_whole (members_data members.now.entries)) }
    ensures { OnOk result (string_bytes text.new ≡ string_bytes text.old ++ members_text false (members_of (members_data members.now.entries))) }
{
    let mut later = false;
    for (name, member) in members.iter() {
        push_comma(text, later)?;
        push_quoted(alloc, text, name)?;
        text.push(':')?;
        push_json(alloc, text, member)?;
        later = true;
    }
    text.push('}')
}

/// Appends a comma, where something stands before.
fn push_comma(text: &mut String, later: bool) -> Result<(), AllocError>
    ensures { OnOk result (string_bytes text.new ≡ string_bytes text.old ++ comma_after later) }
{
    if later { text.push(',') } else { Ok(()) }
}

/// Appends a whole number in decimal.
fn push_number(text: &mut String, number: &Number) -> Result<(), AllocError>
    requires { IsTrue (is_some (as_i64 (number_view number.now))) }
    ensures { OnOk result (string_bytes text.new ≡ string_bytes text.old ++ json_text (tree_of_number (as_i64 (number_view number.now)))) }
{
    let Some(whole) = number.as_i64() else {
        unreachable!()
    };
    text.push_str(Buffer::new().format(whole))
}
