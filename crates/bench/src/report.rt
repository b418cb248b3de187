//! What is printed of the queries.

use crate::calls::{deletion, masking, reading_calls, walking_calls};
use crate::counts::{Count, all_counts};
use crate::documents::{Dice, bookstore, inbox, message, numbers, read};
use crate::queries::{QUERIES, TABLE};
use crate::routes::{prepared, routed};
use crate::timing::{fastest, reading, refused};
use jsonpath_rust::Whole;
use serde_json::Value;
use std::io;
use std::time::{Clock, Duration};

/// What is read alone, so many times and once more.
const READ: &str = "$.store.book[?@.price<10].title";

const READINGS: u32 = 3000;

/// A tiny document, and what is asked of it.
const TINY: &str = "{\"a\":[{\"b\":1,\"c\":\"x\"},{\"b\":11,\"c\":\"y\"}]}";

const SHORT: [&str; 4] = ["$.a", "$.a[0].b", "$.a[*].c", "$.a[?@.b<10]"];

/// What stands in the place of what is masked.
const MASK: &str = "\"***\"";

/// What is deleted from a bookstore, and masked in it.
const DELETED: [&str; 3] = ["$..author", "$..*", "$.store.book[?@.price<10]"];

/// How much each query selects.
pub fn counts(rt: &(impl Print + AllocGlobal), bytes: usize) -> io::Result<()> {
    for Count { query, selected } in all_counts(rt.alloc(), bytes)? {
        println!(rt; "{selected}\t{query}")?;
    }
    Ok(())
}

/// The times of each query.
pub fn times(rt: &(impl Print + Clock + AllocGlobal), bytes: usize) -> io::Result<()> {
    let document = read(rt.alloc(), bookstore(rt.alloc(), bytes)?)?;
    let more = if bytes > 4000000 { 8 } else { 29 };
    let timed = book_times(rt, &document, more);
    drop(document);
    timed?;
    let call = each(reading(rt, READ, READINGS)?, 1);
    println!(rt; "{call:.1}\t{READ}")
}

fn book_times(
    rt: &(impl Print + Clock + AllocGlobal),
    document: &Whole<Value>,
    more: u32,
) -> io::Result<()> {
    let below = fastest(rt, "$..*", document, 0)?.selected;
    let nodes = below.saturating_add(1);
    for text in QUERIES {
        let best = fastest(rt, text, document, more)?;
        let selected = best.selected;
        let values = each(best.lean, nodes);
        let paths = each(best.full, nodes);
        println!(rt; "{selected}\t{nodes}\t{values:.2}\t{paths:.2}\t{text}")?;
    }
    Ok(())
}

/// The times of the table.
pub fn routes(rt: &(impl Print + Clock + AllocGlobal), count: usize) -> io::Result<()> {
    let table = prepared(rt.alloc(), &TABLE).map_err(refused)?;
    let messages = inbox(rt.alloc(), count)?;
    let mut best = routed(rt, &table, &messages)?;
    for _ in 0..4 {
        best = best.least(routed(rt, &table, &messages)?);
    }
    let selected = best.selected;
    let runners = each(best.runners, count);
    let found = each(best.prepared, count);
    let processed = each(best.processed, count);
    println!(rt; "{selected}\t{count}\t{runners:.1}\t{found:.1}\t{processed:.1}")
}

/// The times of so many calls on a tiny document: by text, and of a query that was read once.
pub fn calls(rt: &(impl Print + Clock + AllocGlobal), count: usize) -> io::Result<()> {
    let text = String::from_str(rt.alloc(), TINY)?;
    let document = read(rt.alloc(), text)?;
    let timed = tiny_calls(rt, &document, count);
    drop(document);
    timed
}

fn tiny_calls(
    rt: &(impl Print + Clock + AllocGlobal),
    document: &Whole<Value>,
    count: usize,
) -> io::Result<()> {
    for text in SHORT {
        let by_text = each(reading_calls(rt, text, document, count)?, count);
        let by_tree = each(walking_calls(rt, text, document, count)?, count);
        println!(rt; "{by_text:.1}\t{by_tree:.1}\t{text}")?;
    }
    Ok(())
}

/// The times of deletions and of maskings: of every second one of as many numbers as a twentieth of the bytes, and of parts of a
/// bookstore.
pub fn deletions(rt: &(impl Print + Clock + AllocGlobal), bytes: usize) -> io::Result<()> {
    let list = numbers(rt.alloc(), bytes / 20)?;
    changed(rt, "$[::2]", &list)?;
    let store = bookstore(rt.alloc(), bytes)?;
    for text in DELETED {
        changed(rt, text, &store)?;
    }
    Ok(())
}

fn changed(rt: &(impl Print + Clock + AllocGlobal), text: &str, from: &str) -> io::Result<()> {
    let mut document = read(rt.alloc(), String::from_str(rt.alloc(), from)?)?;
    let (count, taken) = deletion(rt, text, &mut document)?;
    drop(document);
    let deleted = each(taken, count);
    let mask = read(rt.alloc(), String::from_str(rt.alloc(), MASK)?)?;
    let mut document = read(rt.alloc(), String::from_str(rt.alloc(), from)?)?;
    let (count, taken) = masking(rt, text, &mut document, &mask)?;
    drop(document);
    drop(mask);
    let masked = each(taken, count);
    println!(rt; "{count}\t{deleted:.1}\t{masked:.1}\t{text}")
}

/// The text of the bookstore.
pub fn document(rt: &(impl Print + AllocGlobal), bytes: usize) -> io::Result<()> {
    let text = bookstore(rt.alloc(), bytes)?;
    println!(rt; "{text}")
}

/// The table, and the texts of the messages, one a line.
pub fn messages(rt: &(impl Print + AllocGlobal), count: usize) -> io::Result<()> {
    for text in TABLE {
        println!(rt; "{text}")?;
    }
    let mut dice = Dice::new(2);
    for _ in 0..count {
        let text = message(rt.alloc(), &mut dice)?;
        println!(rt; "{text}")?;
    }
    Ok(())
}

/// Nanoseconds for each of so many.
fn each(taken: Duration, count: usize) -> f64 {
    let count = u32::try_from(count).unwrap_or(u32::MAX);
    taken.as_secs_f64() * 1e9 / f64::from(count)
}
