//! Calls that are made many times, on a small document, and deletions and maskings.
use crate::timing::refused;
use jsonpath_rust::parser::model::JpQuery;
use jsonpath_rust::parser::{drop_query, parse_json_path};
use jsonpath_rust::query::{Queried, js_path};
use jsonpath_rust::{Prepared, Whole};
use serde_json::Value;
use std::alloc::Global;
use std::io;
use std::time::{Clock, Duration, Instant};

/// How long so many calls of `js_path` take, which read the query each time.
pub fn reading_calls(
    rt: &(impl Clock + AllocGlobal),
    text: &str,
    document: &Whole<Value>,
    count: usize,
) -> io::Result<Duration> {
    let start = Instant::now(rt)?;
    read_each(rt.alloc(), text, document, count).map_err(refused)?;
    Ok(start.elapsed(rt)?)
}

fn read_each(alloc: Global, text: &str, document: &Whole<Value>, count: usize) -> Queried<()> {
    for _ in 0..count {
        drop(js_path(alloc, text, document.get())?);
    }
    Ok(())
}

/// How long it takes so many times to prepare a query that was read once, and to ask it for nodes.
pub fn walking_calls(
    rt: &(impl Clock + AllocGlobal),
    text: &str,
    document: &Whole<Value>,
    count: usize,
) -> io::Result<Duration> {
    let start = Instant::now(rt)?;
    walk_each(rt.alloc(), text, document, count).map_err(refused)?;
    Ok(start.elapsed(rt)?)
}

fn walk_each(alloc: Global, text: &str, document: &Whole<Value>, count: usize) -> Queried<()> {
    let query = parse_json_path(alloc, text)?;
    for _ in 0..count {
        let prepared = Prepared::of(alloc, &query)?;
        drop(prepared.runner(alloc).nodes(alloc, document.as_ref())?);
    }
    drop_query(query);
    Ok(())
}

/// How many locations a query deletes, and how long that takes.
pub fn deletion(
    rt: &(impl Clock + AllocGlobal),
    text: &str,
    document: &mut Whole<Value>,
) -> io::Result<(usize, Duration)> {
    let query = parse_json_path(rt.alloc(), text).map_err(refused)?;
    let start = Instant::now(rt)?;
    let deleted = deleted(rt.alloc(), &query, document).map_err(refused);
    let taken = start.elapsed(rt)?;
    drop_query(query);
    Ok((deleted?, taken))
}

fn deleted(alloc: Global, query: &JpQuery, document: &mut Whole<Value>) -> Queried<usize> {
    let prepared = Prepared::of(alloc, query)?;
    document.delete(alloc, &mut prepared.runner(alloc))
}

/// How many locations a query masks, and how long that takes.
pub fn masking(
    rt: &(impl Clock + AllocGlobal),
    text: &str,
    document: &mut Whole<Value>,
    mask: &Whole<Value>,
) -> io::Result<(usize, Duration)> {
    let query = parse_json_path(rt.alloc(), text).map_err(refused)?;
    let start = Instant::now(rt)?;
    let masked = masked(rt.alloc(), &query, document, mask).map_err(refused);
    let taken = start.elapsed(rt)?;
    drop_query(query);
    Ok((masked?, taken))
}

fn masked(
    alloc: Global,
    query: &JpQuery,
    document: &mut Whole<Value>,
    mask: &Whole<Value>,
) -> Queried<usize> {
    let prepared = Prepared::of(alloc, query)?;
    document.replace(alloc, &mut prepared.runner(alloc), mask)
}
