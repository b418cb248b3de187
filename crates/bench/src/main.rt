//! The bench: what queries cost, on documents that it makes itself.
//!
//! - `counts BYTES`: how many nodes each query selects.
//! - `time BYTES`: nodes selected, nodes of the bookstore, nanoseconds for each of these for values alone and with paths, query.
//! - `route COUNT`: nanoseconds for each message that all of a table is asked of, by runners that stay, by runners made for it and
//!   by `js_path_process`.
//! - `calls COUNT`: nanoseconds for each call on a tiny document, by text and by tree, query.
//! - `delete BYTES`: locations deleted, nanoseconds for each of these, and for each where they are masked, query.
//! - `units COUNT`: whether so many units of work are enough for the query that is the first line of standard input on the document
//!   that is the second one, and nanoseconds; a third line, `first` or `locations`, names another call than `nodes`.
//! - `document BYTES`, `messages COUNT`: what was asked; before the messages stand the queries of the table.
#![tactic(auto)]

mod calls;
mod counts;
mod documents;
mod queries;
mod report;
mod routes;
mod timing;
mod units;

use std::io::ErrorKind;
use std::{env, io};

/// Does what the word says, for documents of that size.
fn run(rt: &HostRuntime, word: &str, size: &str) -> io::Result<()> {
    match (word, size.parse()) {
        ("counts", Ok(bytes)) => report::counts(rt, bytes),
        ("time", Ok(bytes)) => report::times(rt, bytes),
        ("route", Ok(count)) => report::routes(rt, count),
        ("calls", Ok(count)) => report::calls(rt, count),
        ("delete", Ok(bytes)) => report::deletions(rt, bytes),
        ("units", Ok(count)) => units::limited(rt, count),
        ("document", Ok(bytes)) => report::document(rt, bytes),
        ("messages", Ok(count)) => report::messages(rt, count),
        _ => Err(ErrorKind::InvalidInput.into()),
    }
}

fn main(rt: HostRuntime) -> io::Result<()> {
    let mut words = Vec::new(rt.alloc());
    for word in env::args(&rt)?.skip(1) {
        words.push(word)?;
    }
    match words.as_slice() {
        [word, size] => run(&rt, word.as_str(), size.as_str()),
        _ => Err(ErrorKind::InvalidInput.into()),
    }
}
