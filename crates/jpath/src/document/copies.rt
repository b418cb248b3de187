//! Copies of documents.
ghost use Rattle.std.specs.Prelude.{◌≡◌, IfOk};
ghost use Rattle.jpath.specs.Document.{items_data, json_data, members_data};

use crate::document::Json;
use serde_json::Map;
use std::alloc::{AllocError, Global};

/// A document of the same data. What was read is borrowed again, not copied.
#[cycle(copy)]
pub fn copy<'t>(alloc: Global, value: &Json<'t>) -> Result<Json<'t>, AllocError>
    ensures { IfOk result (λ v. json_data v ≡ json_data value.now) }
{
    match value {
        Json::Null => Ok(Json::Null),
        Json::Bool(truth) => Ok(Json::Bool(*truth)),
        Json::Number(number) => Ok(Json::Number(*number)),
        Json::String(text) => Ok(Json::String(*text)),
        Json::Owned(text) => Ok(Json::Owned(text.clone()?)),
        Json::Array(items) => Ok(Json::Array(copy_items(alloc, items)?)),
        Json::Object(members) => Ok(Json::Object(copy_members(alloc, members)?)),
    }
}

#[cycle(copy)]
fn copy_items<'t>(alloc: Global, items: &Vec<Json<'t>>) -> Result<Vec<Json<'t>>, AllocError>
    ensures { IfOk result (λ v. items_data v.items ≡ items_data items.now.items) }
{
    let mut copies = Vec::with_capacity(alloc, items.len())?;
    for item in items {
        copies.push(copy(alloc, item)?)?;
    }
    Ok(copies)
}

#[cycle(copy)]
fn copy_members<'t>(
    alloc: Global,
    members: &Map<&'t str, Json<'t>>,
) -> Result<Map<&'t str, Json<'t>>, AllocError>
    ensures { IfOk result (λ m. members_data m.entries ≡ members_data members.now.entries) }
{
    let mut copies = Map::new(alloc);
    for (name, member) in members.iter() {
        drop(copies.insert(*name, copy(alloc, member)?)?);
    }
    Ok(copies)
}
