//! How long queries of one document take, the least of several rounds. What is given back to memory is not counted.
ghost use Rattle.std.specs.Prelude.{◌≡◌};

use jsonpath_rust::parser::errors::JsonPathError;
use jsonpath_rust::parser::model::JpQuery;
use jsonpath_rust::parser::{drop_query, parse_json_path};
use jsonpath_rust::{Prepared, Whole};
use serde_json::Value;
use std::io;
use std::io::ErrorKind;
use std::time::{Clock, Duration, Instant};

/// How much was selected, and how long it took by values alone and with paths.
#[derive(Clone, Copy)]
pub struct Round {
    pub selected: usize,
    pub lean: Duration,
    pub full: Duration,
}

impl Round {
    /// The lesser time of two rounds, each way.
    pub fn least(self, other: Round) -> Round
        ensures { result.selected ≡ self.selected }
    {
        Round {
            selected: self.selected,
            lean: self.lean.min(other.lean),
            full: self.full.min(other.full),
        }
    }
}

/// A query of a document by values alone and with paths, so many rounds and one more.
pub fn fastest(
    rt: &(impl Clock + AllocGlobal),
    text: &str,
    document: &Whole<Value>,
    more: u32,
) -> io::Result<Round> {
    let query = parse_json_path(rt.alloc(), text).map_err(refused)?;
    let best = least_of(rt, &query, document, more);
    drop_query(query);
    best
}

fn least_of(
    rt: &(impl Clock + AllocGlobal),
    query: &JpQuery,
    document: &Whole<Value>,
    more: u32,
) -> io::Result<Round> {
    let mut best = one_round(rt, query, document)?;
    for _ in 0..more {
        best = best.least(one_round(rt, query, document)?);
    }
    Ok(best)
}

fn one_round(
    rt: &(impl Clock + AllocGlobal),
    query: &JpQuery,
    document: &Whole<Value>,
) -> io::Result<Round> {
    let start = Instant::now(rt)?;
    let prepared = Prepared::of(rt.alloc(), query).map_err(refused)?;
    let values = prepared
        .runner(rt.alloc())
        .values(rt.alloc(), document.as_ref())
        .map_err(refused)?;
    let lean = start.elapsed(rt)?;
    let count = values.len();
    drop(values);
    let start = Instant::now(rt)?;
    let prepared = Prepared::of(rt.alloc(), query).map_err(refused)?;
    let nodes = prepared
        .runner(rt.alloc())
        .nodes(rt.alloc(), document.as_ref())
        .map_err(refused)?;
    let full = start.elapsed(rt)?;
    let selected = nodes.len();
    drop(nodes);
    if count != selected {
        return Err(ErrorKind::InvalidData.into());
    }
    Ok(Round {
        selected,
        lean,
        full,
    })
}

/// How long it takes to read a query text, the least of so many calls and one more.
pub fn reading(rt: &(impl Clock + AllocGlobal), text: &str, more: u32) -> io::Result<Duration> {
    let mut best = one_reading(rt, text)?;
    for _ in 0..more {
        best = best.min(one_reading(rt, text)?);
    }
    Ok(best)
}

fn one_reading(rt: &(impl Clock + AllocGlobal), text: &str) -> io::Result<Duration> {
    let start = Instant::now(rt)?;
    let query = parse_json_path(rt.alloc(), text).map_err(refused)?;
    let taken = start.elapsed(rt);
    drop_query(query);
    taken
}

/// A refusal, as an error of this program.
pub fn refused(error: JsonPathError) -> io::Error {
    let kind = if matches!(error, JsonPathError::OutOfMemory) {
        ErrorKind::OutOfMemory
    } else {
        ErrorKind::InvalidInput
    };
    drop(error);
    kind.into()
}
