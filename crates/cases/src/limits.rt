//! Conditions on a document, and how much work is just enough for a query or a condition.
use crate::answers::{CaseResult, Refusal, are_same, pair, unchanged};
use crate::arguments::{given_if, size, spelled, text, whole, whole_copy};
use jsonpath_rust::{Condition, LimitError, Prepared, Runner, Units, WholeRef};
use serde_json::Value;
use std::alloc::Global;

/// A value of whole numbers.
type Lent<'v> = WholeRef<'v, Value>;

/// A runner with so many units of work for each call.
type Bounded<'p> = Runner<'p, Units>;

/// More units than a case needs.
const MOST: usize = 65535;

/// The least number of units that is enough, if that is at most [`MOST`]. Each step halves where it may lie.
fn least<F: Fn(usize) -> CaseResult<bool>>(is_enough: F) -> CaseResult<usize>
    requires { F.IsAlwaysCallable is_enough }
{
    let mut least = 0usize;
    let mut most = MOST;
    for _ in 0..16 {
        let middle = least.saturating_add(most.saturating_sub(least) / 2);
        if is_enough(middle)? {
            most = middle;
        } else {
            least = middle.saturating_add(1);
        }
    }
    Ok(least)
}

/// Whether something was returned, and the work not spent before.
fn done<T: Drop>(answer: Result<T, LimitError>) -> CaseResult<bool> {
    match answer {
        Ok(value) => {
            drop(value);
            Ok(true)
        }
        Err(LimitError::Exhausted) => Ok(false),
        Err(LimitError::Query(error)) => Err(error.into()),
    }
}

/// The least number of units with which a runner returns nodes. With them each of its queries has to return something too, and with
/// one less its `nodes` nothing. What changes a document spends more, for steps: with [`MOST`] it has to return something.
pub fn enough(alloc: Global, query: &Value, document: &Value) -> CaseResult<Value> {
    let (query, document) = (spelled(alloc, query)?, whole(document)?);
    let prepared = Prepared::read(alloc, &query)?;
    let units = all_enough(alloc, &prepared, document);
    drop(prepared);
    Ok(Value::from(units?))
}

fn all_enough(alloc: Global, prepared: &Prepared, document: Lent<'_>) -> CaseResult<usize> {
    let units = least(|units| is_returned(alloc, "nodes", prepared, units, document))?;
    given_if(is_least(alloc, prepared, units, document)?, units)
}

fn is_least(
    alloc: Global,
    prepared: &Prepared,
    units: usize,
    document: Lent<'_>,
) -> CaseResult<bool> {
    let mut runner = prepared.runner(alloc).limited(units.saturating_sub(1));
    let is_spent = units == 0 || !done(runner.nodes(alloc, document))?;
    drop(runner);
    let mut runner = prepared.runner(alloc).limited(units);
    let is_enough = is_enough(alloc, &mut runner, document);
    drop(runner);
    let mut runner = prepared.runner(alloc).limited(MOST);
    Ok(
        is_spent
            && is_enough?
            && changes(alloc, &mut runner, document, false)?
            && changes(alloc, &mut runner, document, true)?,
    )
}

/// Whether each query of the runner returns something.
fn is_enough(alloc: Global, runner: &mut Bounded<'_>, document: Lent<'_>) -> CaseResult<bool> {
    Ok(
        done(runner.nodes(alloc, document))?
            && done(runner.values(alloc, document))?
            && done(runner.paths(alloc, document))?
            && done(runner.locations(alloc, document))?
            && is_enough_for_less(alloc, runner, document)?,
    )
}

/// The same of the queries that return no list.
fn is_enough_for_less(
    alloc: Global,
    runner: &mut Bounded<'_>,
    document: Lent<'_>,
) -> CaseResult<bool> {
    Ok(
        done(runner.first(alloc, document))?
            && done(runner.only(alloc, document))?
            && done(runner.count(alloc, document))?
            && done(runner.has_node(alloc, document))?,
    )
}

/// Whether the runner deletes in a copy of the document, or puts the document there.
fn changes(
    alloc: Global,
    runner: &mut Bounded<'_>,
    document: Lent<'_>,
    puts: bool,
) -> CaseResult<bool> {
    let mut copy = whole_copy(document.get())?;
    let answer = if puts {
        done(copy.replace(alloc, runner, &whole_copy(document.get())?))
    } else {
        done(copy.delete(alloc, runner))
    };
    let is_kept = are_same(copy.get(), document.get());
    unchanged(answer, is_kept)
}

/// The least number of units with which that call of a runner returns something.
pub fn enough_for(
    alloc: Global,
    call: &Value,
    query: &Value,
    document: &Value,
) -> CaseResult<Value> {
    let (query, document) = (spelled(alloc, query)?, whole(document)?);
    let call = text(call)?;
    let prepared = Prepared::read(alloc, &query)?;
    let units = least(|units| is_returned(alloc, call, &prepared, units, document));
    drop(prepared);
    Ok(Value::from(units?))
}

fn is_returned(
    alloc: Global,
    call: &str,
    prepared: &Prepared,
    units: usize,
    document: Lent<'_>,
) -> CaseResult<bool> {
    let mut runner = prepared.runner(alloc).limited(units);
    match call {
        "nodes" => done(runner.nodes(alloc, document)),
        "locations" => done(runner.locations(alloc, document)),
        "first" => done(runner.first(alloc, document)),
        "only" => done(runner.only(alloc, document)),
        "has_node" => done(runner.has_node(alloc, document)),
        "delete" => changes(alloc, &mut runner, document, false),
        "replace" => changes(alloc, &mut runner, document, true),
        _ => Err(Refusal::NoAnswer),
    }
}

/// What the call of that name answers of a text and a depth, and of a document: `Condition::read`, which takes no document, the `Debug`
/// text; `Condition::holds`, whether it holds; `Condition::enough`, that, and the least number of units with which a runner tells it.
pub fn condition(alloc: Global, name: &str, asked: [&Value; 3]) -> CaseResult<Value> {
    let [asked, depth, document] = asked;
    let document = whole(document)?;
    let condition = Condition::read(alloc, text(asked)?, size(depth)?)?;
    let answer = answer_of(alloc, name, &condition, document);
    drop(condition);
    answer
}

fn answer_of(
    alloc: Global,
    name: &str,
    condition: &Condition,
    document: Lent<'_>,
) -> CaseResult<Value> {
    if name == "Condition::read" {
        return Ok(Value::String(format!(in alloc; "{condition:?}")?));
    }
    let held = Value::from(is_held(alloc, condition, document)?);
    if name == "Condition::holds" {
        return Ok(held);
    }
    let units = least(|units| is_told(alloc, condition, document, units))?;
    pair(alloc, held, Value::from(units))
}

/// Whether it holds, which a runner has to tell too.
fn is_held(alloc: Global, condition: &Condition, document: Lent<'_>) -> CaseResult<bool> {
    let held = condition.holds(alloc, document)?;
    let mut runner = condition.runner(alloc);
    let told = runner.holds(alloc, document);
    drop(runner);
    given_if(told? == held, held)
}

fn is_told(
    alloc: Global,
    condition: &Condition,
    document: Lent<'_>,
    units: usize,
) -> CaseResult<bool> {
    let mut runner = condition.runner(alloc).limited(units);
    done(runner.holds(alloc, document))
}
