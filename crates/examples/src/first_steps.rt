//! First steps: a document is read, asked, and changed.
ghost use Rattle.std.specs.Prelude.{◌≡◌, codes, Some, IfOk};
ghost use Rattle.serde_json.specs.Data.{Data};
ghost use Rattle.serde_json.specs.Read.{read};
ghost use Rattle.jsonpath_rust.specs.Deleting.{Deletes};
ghost use Rattle.jsonpath_rust.specs.Document.{document_of};
ghost use Rattle.jsonpath_rust.specs.SetFunctions.{set_function};
ghost use Rattle.jsonpath_rust.specs.base.Values.{tree_of, value_tree};

use jsonpath_rust::{Condition, JsonPath, JsonPathError, Queryable, ReadError, Whole};
use serde_json::Value;
use std::alloc::Global;
use thiserror::Error;

/// Why a text gives no store.
#[derive(Debug, Drop, Error)]
pub enum StoreError {
    #[error(transparent)]
    Read(#[from] ReadError),
    #[error(transparent)]
    Query(#[from] JsonPathError),
    #[error("the store is closed")]
    Closed,
}

/// Reads a store, and deletes its dear books: what is left, and how many they were.
pub fn without_dear(alloc: Global, text: &str) -> Result<(Whole<Value>, usize), StoreError>
    // The text is a store in JSON, of which exactly what this query selects is removed.
    ensures { IfOk result (λ r. (store : Data) × (read text.now ≡ Some store)
        × Deletes 128 (codes "$.book[?@.price >= 10]") (document_of tree_of set_function store) (value_tree r.0.value) r.1) }
{
    // Here the document is checked: no later call asks for it.
    let mut store = Whole::read(alloc, text)?;

    // A condition is asked of the document itself: `@` is its root. At 8, seven brackets may be open in its text.
    let open = Condition::read(alloc, "@.book && !@.closed", 8)?.holds(alloc, store.as_ref())?;
    if !open {
        return Err(StoreError::Closed);
    }

    // The values of all prices in the store, borrowed, in order.
    let prices = store.query(alloc, "$..price")?;
    drop(prices);

    // Nodes: `val` is a value in the store, `path` its place, such as `$['book'][1]`.
    let dear = store.query_with_path(alloc, "$.book[?@.price >= 10]")?;
    for node in &dear {
        // A path leads back to its value.
        let _book = store.reference(alloc, node.path.as_str())?;
    }
    drop(dear);

    // Deletion removes all that is selected, at once.
    let deleted = store.delete_by_path(alloc, "$.book[?@.price >= 10]")?;
    Ok((store, deleted))
}
