//! Calls of `examples` that ask documents, or queries alone. Null stands for None.
use crate::answers::{self, CaseResult, Cause, Refusal, list_of, listed, pair};
use crate::arguments::{each, exactly, list, steps, text, texts, whole, whole_copy};
use examples::again::{first_again, values_below};
use examples::assertion::{Assertion, failures};
use examples::difference::{Difference, Missing, difference_of};
use examples::first_steps::{StoreError, without_dear};
use examples::gateway::admit;
use examples::inbox::matching;
use examples::methods::methods_answers;
use examples::policy::{Rule, first_violation};
use examples::routing::route;
use examples::same::is_same_query;
use jsonpath_rust::parser::model::JpQuery;
use jsonpath_rust::parser::{MAX_NESTING_DEPTH, parse_json_path};
use jsonpath_rust::query::Prepared;
use jsonpath_rust::{Condition, ReadError};
use serde_json::{Value, json};
use std::alloc::Global;

/// What the call of that name answers.
pub fn answer(alloc: Global, name: &str, asked: &[Value]) -> CaseResult<Value> {
    match name {
        "without_dear" => cleared(alloc, asked),
        "first_violation" => violation(alloc, asked),
        "route" => routed(alloc, asked),
        "failures" => failed(alloc, asked),
        "difference_of" => difference(alloc, asked),
        "is_same_query" => are_same(alloc, asked),
        "first_again" => first(alloc, asked),
        "values_below" => below(alloc, asked),
        "matching" => matched(alloc, asked),
        "admit" => admitted(alloc, asked),
        "query_with_path" => found(alloc, asked),
        _ => Err(Refusal::NoAnswer),
    }
}

/// How many books of a store README's first steps delete, and what is left.
fn cleared(alloc: Global, asked: &[Value]) -> CaseResult<Value> {
    let [store] = exactly::<1>(asked)?;
    match without_dear(alloc, text(store)?) {
        Ok((left, deleted)) => pair(alloc, Value::from(deleted), left.into_inner()),
        Err(StoreError::Read(ReadError::NotJson)) => Err(Refusal::Other(Cause::NotJson)),
        Err(StoreError::Read(ReadError::NotWhole)) => Err(Refusal::Other(Cause::NotWhole)),
        Err(StoreError::Read(ReadError::Memory)) => Err(Refusal::memory()),
        Err(StoreError::Query(error)) => Err(Refusal::from(error)),
        Err(StoreError::Closed) => Err(Refusal::Other(Cause::Closed)),
    }
}

/// `{"rule": .., "path": ..}` of the first violation of a policy.
fn violation(alloc: Global, asked: &[Value]) -> CaseResult<Value> {
    let [rules, document] = exactly::<2>(asked)?;
    let policy = each(alloc, list(rules)?, |rule| rule_of(alloc, rule))?;
    match first_violation(alloc, &policy, whole(document)?)? {
        Some(violation) => Ok(json!(in alloc; {"rule": violation.rule, "path": violation.path})?),
        None => Ok(Value::Null),
    }
}

/// The index of the first condition that holds.
fn routed(alloc: Global, asked: &[Value]) -> CaseResult<Value> {
    let [table, document] = exactly::<2>(asked)?;
    let conditions = each(alloc, list(table)?, |it| condition_of(alloc, text_of(it)))?;
    Ok(Value::from(route(alloc, &conditions, whole(document)?)?))
}

/// The texts of the assertions that fail, in order.
fn failed(alloc: Global, asked: &[Value]) -> CaseResult<Value> {
    let [texts, document] = exactly::<2>(asked)?;
    let assertions = each(alloc, list(texts)?, |text| assertion_of(alloc, text))?;
    let failed = failures(alloc, &assertions, whole(document)?)?;
    list_of(alloc, &failed, |failed| answers::text(alloc, &failed.text))
}

/// `{"index": .., "missing": ..}` of where two queries, each of its document, differ first.
fn difference(alloc: Global, asked: &[Value]) -> CaseResult<Value> {
    let [query, document, other_query, other] = exactly::<4>(asked)?;
    let (document, other) = (whole(document)?, whole(other)?);
    let query = parse_json_path(alloc, text(query)?)?;
    let other_query = parse_json_path(alloc, text(other_query)?)?;
    match difference_of(alloc, &query, document, &other_query, other)? {
        Some(Difference { index, missing }) => {
            Ok(json!(in alloc; {"index": index, "missing": word_of(missing)})?)
        }
        None => Ok(Value::Null),
    }
}

/// The word by which cases name it.
fn word_of(missing: Missing) -> &'static str {
    match missing {
        Missing::Neither => "neither",
        Missing::First => "first",
        Missing::Second => "second",
    }
}

/// Whether two texts spell one query.
fn are_same(alloc: Global, asked: &[Value]) -> CaseResult<Value> {
    let [left, right] = exactly::<2>(asked)?;
    let left = parse_json_path(alloc, text(left)?)?;
    let right = parse_json_path(alloc, text(right)?)?;
    Ok(Value::from(is_same_query(&left, &right)))
}

/// The value of the first node, found again.
fn first(alloc: Global, asked: &[Value]) -> CaseResult<Value> {
    let [query, document] = exactly::<2>(asked)?;
    let document = whole_copy(document)?;
    let query = parse_json_path(alloc, text(query)?)?;
    let first = first_again(alloc, &query, &document)?;
    Ok(first.unwrap_or(&Value::Null).clone()?)
}

/// The values of a query in the part of a document at a location.
fn below(alloc: Global, asked: &[Value]) -> CaseResult<Value> {
    let [query, document, location] = exactly::<3>(asked)?;
    let (document, steps) = (whole_copy(document)?, steps(alloc, location)?);
    let query = parse_json_path(alloc, text(query)?)?;
    listed(alloc, values_below(alloc, &query, &document, &steps)?)
}

/// In which of the documents a query selects something.
fn matched(alloc: Global, asked: &[Value]) -> CaseResult<Value> {
    let [query, documents] = exactly::<2>(asked)?;
    let documents = each(alloc, list(documents)?, whole_copy)?;
    let query = Prepared::read(alloc, text(query)?)?;
    let told = matching(alloc, &query, &documents);
    drop(query);
    listed(alloc, told?)
}

/// The paths that a query selects, if it is admitted to the part of documents at a location, with these functions.
fn admitted(alloc: Global, asked: &[Value]) -> CaseResult<Value> {
    let [query, part, functions, document] = exactly::<4>(asked)?;
    let (part, functions) = (steps(alloc, part)?, texts(alloc, functions)?);
    let document = whole(document)?;
    match admit(alloc, text(query)?, &part, &functions)? {
        Some(query) => {
            let paths = query.runner(alloc).paths(alloc, document);
            drop(query);
            listed(alloc, paths?)
        }
        None => Ok(Value::Null),
    }
}

/// The nodes that the methods of a document find, each a list of its path and its value.
fn found(alloc: Global, asked: &[Value]) -> CaseResult<Value> {
    let [document, query] = exactly::<2>(asked)?;
    let found = methods_answers(alloc, text(query)?, whole(document)?.get())?;
    list_of(alloc, &found.nodes, |node| {
        pair(alloc, answers::text(alloc, &node.path)?, node.val.clone()?)
    })
}

/// The query of this text. What is no text is read as the empty one, which is no query and no condition.
pub fn query_of(alloc: Global, told: &Value) -> CaseResult<JpQuery> {
    Ok(parse_json_path(alloc, text_of(told))?)
}

/// The condition of this text.
fn condition_of(alloc: Global, text: &str) -> CaseResult<Condition> {
    Ok(Condition::read(alloc, text, MAX_NESTING_DEPTH)?)
}

/// The assertion of this condition, told by its text.
fn assertion_of(alloc: Global, told: &Value) -> CaseResult<Assertion> {
    let text = String::from_str(alloc, text_of(told))?;
    let condition = condition_of(alloc, &text)?;
    Ok(Assertion { text, condition })
}

/// The rule of a condition and the query that shows where it is not met; of a query alone, read first, the rule that it selects nothing.
fn rule_of(alloc: Global, told: &Value) -> CaseResult<Rule> {
    let (condition, shown) = match told.as_array().map(|parts| parts.as_slice()) {
        Some([condition, shown]) => (String::from_str(alloc, text_of(condition))?, shown),
        _ => (format!(in alloc; "!{}", text_of(told))?, told),
    };
    let shown = query_of(alloc, shown)?;
    let condition = condition_of(alloc, &condition)?;
    Ok(Rule { condition, shown })
}

fn text_of(told: &Value) -> &str {
    told.as_str().unwrap_or("")
}
