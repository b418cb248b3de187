//! How many nodes the queries select.

use crate::documents::{bookstore, inbox, read};
use crate::queries::{QUERIES, TABLE};
use crate::routes::{counted, prepared};
use crate::timing::refused;
use jsonpath_rust::{Prepared, Whole};
use serde_json::Value;
use std::alloc::Global;
use std::io;
use std::io::ErrorKind;

/// How much a query selects.
#[derive(Clone, Copy)]
pub struct Count {
    pub query: &'static str,
    pub selected: usize,
}

/// How many nodes each query selects in a bookstore of that many bytes, and in how many of a hundred messages each of the table
/// selects some.
pub fn all_counts(alloc: Global, bytes: usize) -> io::Result<Vec<Count>> {
    let document = read(alloc, bookstore(alloc, bytes)?)?;
    let books = book_counts(alloc, &document);
    drop(document);
    let mut counts = books?;
    let messages = inbox(alloc, 100)?;
    for query in TABLE {
        let table = prepared(alloc, &[query]).map_err(refused)?;
        let selected = counted(alloc, &table, &messages)?;
        counts.push(Count { query, selected })?;
    }
    Ok(counts)
}

fn book_counts(alloc: Global, document: &Whole<Value>) -> io::Result<Vec<Count>> {
    let mut counts = Vec::new(alloc);
    for query in QUERIES {
        let selected = selected_of(alloc, query, document)?;
        counts.push(Count { query, selected })?;
    }
    Ok(counts)
}

fn selected_of(alloc: Global, text: &str, document: &Whole<Value>) -> io::Result<usize> {
    let query = Prepared::read(alloc, text).map_err(refused)?;
    let selected = selected_both_ways(alloc, &query, document);
    drop(query);
    selected
}

/// How many nodes the query selects, by values alone and with paths.
fn selected_both_ways(
    alloc: Global,
    query: &Prepared,
    document: &Whole<Value>,
) -> io::Result<usize> {
    let mut runner = query.runner(alloc);
    let values = runner.values(alloc, document.as_ref()).map_err(refused)?;
    let nodes = runner.nodes(alloc, document.as_ref()).map_err(refused)?;
    if values.len() == nodes.len() {
        Ok(nodes.len())
    } else {
        Err(ErrorKind::InvalidData.into())
    }
}
