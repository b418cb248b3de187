//! A router's table, asked of each message: by runners that stay, by runners made for it, and by `js_path_process`.
ghost use Rattle.std.specs.Prelude.{◌≡◌};

use crate::timing::refused;
use jsonpath_rust::Whole;
use jsonpath_rust::query::{Prepared, Queried, QueryRef, Runner, js_path_process};
use serde_json::Value;
use std::alloc::{AllocError, Global};
use std::io;
use std::io::ErrorKind;
use std::time::{Clock, Duration, Instant};

/// How often a query of the table selected something, and how long all messages took, each way.
#[derive(Clone, Copy)]
pub struct Journeys {
    pub selected: usize,
    pub runners: Duration,
    pub prepared: Duration,
    pub processed: Duration,
}

impl Journeys {
    /// The lesser time of two rounds, each way.
    pub fn least(self, other: Journeys) -> Journeys
        ensures { result.selected ≡ self.selected }
    {
        Journeys {
            selected: self.selected,
            runners: self.runners.min(other.runners),
            prepared: self.prepared.min(other.prepared),
            processed: self.processed.min(other.processed),
        }
    }
}

/// The queries of these texts.
pub fn prepared(alloc: Global, texts: &[&str]) -> Queried<Vec<Prepared>> {
    let mut table = Vec::new(alloc);
    for text in texts {
        table.push(Prepared::read(alloc, text)?)?;
    }
    Ok(table)
}

/// What asks them of one message after another.
fn runners(alloc: Global, table: &[Prepared]) -> Result<Vec<Runner<'_>>, AllocError> {
    let mut runners = Vec::new(alloc);
    for query in table {
        runners.push(query.runner(alloc))?;
    }
    Ok(runners)
}

/// Asks the table of each message.
pub fn routed(
    rt: &(impl Clock + AllocGlobal),
    table: &[Prepared],
    messages: &[Whole<Value>],
) -> io::Result<Journeys> {
    let mut runners = runners(rt.alloc(), table)?;
    let mut round = Journeys {
        selected: 0,
        runners: Duration::ZERO,
        prepared: Duration::ZERO,
        processed: Duration::ZERO,
    };
    for message in messages {
        let start = Instant::now(rt)?;
        let run = run(rt.alloc(), &mut runners, message).map_err(refused)?;
        round.runners = round.runners.saturating_add(start.elapsed(rt)?);
        let start = Instant::now(rt)?;
        let found = found(rt.alloc(), table, message).map_err(refused)?;
        round.prepared = round.prepared.saturating_add(start.elapsed(rt)?);
        round.selected = round.selected.saturating_add(found);
        let start = Instant::now(rt)?;
        let nodes = processed(rt.alloc(), table, message).map_err(refused)?;
        round.processed = round.processed.saturating_add(start.elapsed(rt)?);
        drop(nodes);
        if run != found {
            return Err(ErrorKind::InvalidData.into());
        }
    }
    Ok(round)
}

/// How often a query of the table selects something in a message, by runners, by runners made for it and by `js_path_process`.
pub fn counted(alloc: Global, table: &[Prepared], messages: &[Whole<Value>]) -> io::Result<usize> {
    let mut runners = runners(alloc, table)?;
    let mut selected = 0usize;
    for message in messages {
        let run = run(alloc, &mut runners, message).map_err(refused)?;
        let found = found(alloc, table, message).map_err(refused)?;
        let lists = processed(alloc, table, message).map_err(refused)?;
        let full = full_lists(&lists);
        drop(lists);
        if run != found || full != found {
            return Err(ErrorKind::InvalidData.into());
        }
        selected = selected.saturating_add(found);
    }
    Ok(selected)
}

/// How many of the queries select something, by runners.
fn run(alloc: Global, runners: &mut Vec<Runner<'_>>, message: &Whole<Value>) -> Queried<usize> {
    let mut count = 0usize;
    for runner in runners.iter_mut() {
        if runner.has_node(alloc, message.as_ref())? {
            count = count.saturating_add(1);
        }
    }
    Ok(count)
}

/// The same, by runners made for this message.
fn found(alloc: Global, table: &[Prepared], message: &Whole<Value>) -> Queried<usize> {
    let mut count = 0usize;
    for query in table {
        if query.runner(alloc).has_node(alloc, message.as_ref())? {
            count = count.saturating_add(1);
        }
    }
    Ok(count)
}

/// What each of them selects, by `js_path_process`.
fn processed<'a>(
    alloc: Global,
    table: &[Prepared],
    message: &'a Whole<Value>,
) -> Queried<Vec<Vec<QueryRef<'a, Value>>>> {
    let mut lists = Vec::new(alloc);
    for query in table {
        lists.push(js_path_process(alloc, query.query(), message.get())?)?;
    }
    Ok(lists)
}

/// How many of the lists are not empty.
fn full_lists(lists: &[Vec<QueryRef<'_, Value>>]) -> usize {
    let mut count = 0usize;
    for nodes in lists {
        if !nodes.is_empty() {
            count = count.saturating_add(1);
        }
    }
    count
}
