//! Parts of queries, asked of a state by `process`, and queries that no text spells, asked by `js_path_process`.
use crate::answers::{CaseResult, Refusal};
use crate::arguments::{exactly, given, given_if, spelled, text};
use crate::doc::documents::{Document, document_of};
use crate::makers::{arguments_of, unspelled, untyped_call};
use crate::states::{Ground, Place, content_of, ground_of, state_of};
use crate::types::nodes;
use jsonpath_rust::build::{and, or, segment_many};
use jsonpath_rust::parser::errors::Parsed;
use jsonpath_rust::parser::model::TestFunction;
use jsonpath_rust::parser::{
    Cursor, child_segment, comp_expr, comparable, filter_atom, function_expr, jp_query, literal,
    logical_expr, rel_query, segment, selector, singular_query, singular_query_segments, test,
};
use jsonpath_rust::query::{Query, apply, js_path_process};
use serde_json::Value;
use std::alloc::Global;

/// What the state comes to, of a part and a text: that of the content, which stands last, or else of the root of the document.
pub fn answer<T: Document>(alloc: Global, asked: &[Value]) -> CaseResult<Value> {
    match asked {
        [part, query, document] => at::<T>(alloc, part, query, (&Value::Null, document)),
        [part, query, document, content] => at::<T>(alloc, part, query, (content, document)),
        _ => Err(Refusal::NoAnswer),
    }
}

fn at<T: Document>(
    alloc: Global,
    part: &Value,
    query: &Value,
    place: Place<'_>,
) -> CaseResult<Value> {
    let (part, query) = (text(part)?, spelled(alloc, query)?);
    let ground = ground_of::<T>(alloc, place)?;
    of_part(&ground, part, &query)
}

/// The nodes of the query of that name, of a part and in a document, that no text spells.
pub fn found<T: Document>(alloc: Global, asked: &[Value]) -> CaseResult<Value> {
    let [name, part, document] = exactly::<3>(asked)?;
    let document = document_of::<T>(alloc, document)?;
    let query = unspelled(alloc, text(name)?, text(part)?)?;
    nodes(alloc, &js_path_process(alloc, &query, document.get())?)
}

/// What the part answers that no text spells, or that is read of the whole text.
fn of_part<T: Document>(ground: &Ground<'_, T>, part: &str, text: &str) -> CaseResult<Value> {
    let alloc = ground.alloc;
    match part {
        "untyped_call" => by(ground, Ok(untyped_call(alloc, text)?)),
        "argument" => by(ground, Ok(given(arguments_of(alloc, text)?.pop())?)),
        "no_selectors" => by(ground, Ok(segment_many(Vec::new(alloc)))),
        "and_of_nothing" => by(ground, Ok(and(Vec::new(alloc)))),
        "or_of_nothing" => by(ground, Ok(or(Vec::new(alloc)))),
        "index" | "slice" | "query_of_no_selectors" | "untyped_comparison" | "untyped_test" => {
            by(ground, Ok(unspelled(alloc, part, text)?))
        }
        _ => {
            let mut cursor = Cursor::new(text);
            let answer = of_front(ground, part, &mut cursor)?;
            given_if(cursor.at_end(), answer)
        }
    }
}

/// What the part answers that the grammar function of that name reads.
fn of_front<T: Document>(
    ground: &Ground<'_, T>,
    part: &str,
    at: &mut Cursor<'_>,
) -> CaseResult<Value> {
    let alloc = ground.alloc;
    match part {
        "jp_query" => by(ground, jp_query(alloc, at)),
        "rel_query" => by(ground, rel_query(alloc, at)),
        "child_segment" => by(ground, child_segment(alloc, at)),
        "segment" => by(ground, segment(alloc, at)),
        "selector" => by(ground, selector(alloc, at)),
        _ => of_filter_part(ground, part, at),
    }
}

/// The same of a part of a filter.
fn of_filter_part<T: Document>(
    ground: &Ground<'_, T>,
    part: &str,
    at: &mut Cursor<'_>,
) -> CaseResult<Value> {
    let alloc = ground.alloc;
    match part {
        "singular_query" => by(ground, singular_query(alloc, at)),
        "singular_query_segments" => by(ground, singular_query_segments(alloc, at)),
        "step" => by(
            ground,
            Ok(given(singular_query_segments(alloc, at)?.pop())?),
        ),
        "logical_expr" => by(ground, logical_expr(alloc, at)),
        "filter_atom" => by(ground, filter_atom(alloc, at)),
        "comp_expr" => by(ground, comp_expr(alloc, at)),
        "comparable" => by(ground, comparable(alloc, at)),
        "literal" => by(ground, literal(alloc, at)),
        "test" => by(ground, test(alloc, at)),
        "function_expr" => by(ground, function_expr(alloc, at)),
        "apply" => {
            let call = function_expr(alloc, at)?;
            let answer = applied(ground, &call);
            drop(call);
            answer
        }
        _ => Err(Refusal::NoAnswer),
    }
}

/// What the part answers.
fn by<Q: Query + Drop, T: Document>(ground: &Ground<'_, T>, part: Parsed<Q>) -> CaseResult<Value> {
    let part = part?;
    let answer = part.process(ground.alloc, state_of(ground)?)?;
    drop(part);
    content_of(ground, answer)
}

/// What the call answers, by `apply`.
fn applied<T: Document>(ground: &Ground<'_, T>, call: &TestFunction) -> CaseResult<Value> {
    let answer = apply(ground.alloc, call, state_of(ground)?)?;
    content_of(ground, answer)
}
