//! How long units of work take: a query of a document under a limit, both from standard input.

use crate::documents::read;
use crate::timing::refused;
use jsonpath_rust::{Condition, LimitError, Prepared, Runner, Units, Whole};
use serde_json::Value;
use std::alloc::Global;
use std::io;
use std::io::ErrorKind;
use std::time::{Clock, Duration, Instant};

/// Whether so many units are enough for the query of the first line on the document of the second one, and how long it took. The call
/// of a runner is that of the third line, else `nodes`; `replace` puts null, `copies` the document itself. For `condition` the query
/// is a condition.
pub fn limited(rt: &HostRuntime, units: usize) -> io::Result<()> {
    let input = io::read_to_string(rt.alloc(), rt.reader())?;
    let mut lines = input.lines();
    let (Some(query), Some(text)) = (lines.next(), lines.next()) else {
        return Err(ErrorKind::InvalidInput.into());
    };
    let call = lines.next().unwrap_or("nodes");
    let mut document = read(rt.alloc(), String::from_str(rt.alloc(), text)?)?;
    let timed = one_query(rt, (query, call), units, &mut document);
    drop(document);
    let (enough, taken) = timed?;
    let nanoseconds = taken.as_nanos();
    println!(rt; "{enough}\t{nanoseconds}")
}

fn one_query(
    rt: &(impl Clock + AllocGlobal),
    asked: (&str, &str),
    units: usize,
    document: &mut Whole<Value>,
) -> io::Result<(bool, Duration)> {
    let (query, call) = asked;
    if call == "condition" {
        return one_condition(rt, query, units, document);
    }
    let prepared = Prepared::read(rt.alloc(), query).map_err(refused)?;
    let timed = one_call(rt, &prepared, call, units, document);
    drop(prepared);
    timed
}

fn one_condition(
    rt: &(impl Clock + AllocGlobal),
    text: &str,
    units: usize,
    document: &Whole<Value>,
) -> io::Result<(bool, Duration)> {
    let condition = Condition::read(rt.alloc(), text, 128).map_err(refused)?;
    let start = Instant::now(rt);
    let mut runner = condition.runner(rt.alloc()).limited(units);
    let enough = is_done(runner.holds(rt.alloc(), document.as_ref()));
    drop(runner);
    drop(condition);
    let taken = start?.elapsed(rt)?;
    Ok((enough?, taken))
}

fn one_call(
    rt: &(impl Clock + AllocGlobal),
    prepared: &Prepared,
    call: &str,
    units: usize,
    document: &mut Whole<Value>,
) -> io::Result<(bool, Duration)> {
    let start = Instant::now(rt)?;
    let mut runner = prepared.runner(rt.alloc()).limited(units);
    let enough = is_enough(rt.alloc(), &mut runner, call, document);
    drop(runner);
    let taken = start.elapsed(rt)?;
    Ok((enough?, taken))
}

/// Whether that call returns something.
fn is_enough(
    alloc: Global,
    runner: &mut Runner<'_, Units>,
    call: &str,
    document: &mut Whole<Value>,
) -> io::Result<bool> {
    match call {
        "values" => is_done(runner.values(alloc, document.as_ref())),
        "paths" => is_done(runner.paths(alloc, document.as_ref())),
        "locations" => is_done(runner.locations(alloc, document.as_ref())),
        "first" => is_done(runner.first(alloc, document.as_ref())),
        "delete" => is_done(document.delete(alloc, runner)),
        "replace" => is_replaced(alloc, runner, document, Value::Null),
        "copies" => {
            let copy = document.get().clone()?;
            is_replaced(alloc, runner, document, copy)
        }
        _ => is_done(runner.nodes(alloc, document.as_ref())),
    }
}

/// The same, where the runner puts this value.
fn is_replaced(
    alloc: Global,
    runner: &mut Runner<'_, Units>,
    document: &mut Whole<Value>,
    value: Value,
) -> io::Result<bool> {
    match Whole::new(value) {
        Ok(mask) => is_done(document.replace(alloc, runner, &mask)),
        Err(_value) => Err(ErrorKind::InvalidData.into()),
    }
}

/// Whether something was returned, and the work not spent before.
fn is_done<T: Drop>(given: Result<T, LimitError>) -> io::Result<bool> {
    match given {
        Ok(value) => {
            drop(value);
            Ok(true)
        }
        Err(LimitError::Exhausted) => Ok(false),
        Err(LimitError::Query(error)) => Err(refused(error)),
    }
}
