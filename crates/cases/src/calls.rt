//! The calls that cases name, in a table for each number of arguments: of texts, trees and `jsonpath_base`, of documents, and of
//! `examples`. What a call answers, its function tells.
use crate::answers::{CaseResult, Cause, Refusal, answered, are_same, location, pair};
use crate::arguments::{given_if, text};
use crate::base::{self, located};
use crate::doc::Doc;
use crate::doc::documents::Document;
use crate::trees::{self, Form};
use crate::{built, callers, changes, limits, makers, process, states, types};
use jsonpath_base::{step_by_token, text_length, text_less, whole};
use jsonpath_rust::WholeRef;
use jsonpath_rust::query::queryable::Deletable;
use jsonpath_rust::query::{location_by_path, referred_location};
use serde_json::Value;
use std::alloc::Global;

/// What the call of that name answers.
pub fn answer(alloc: Global, name: &str, asked: &[Value]) -> CaseResult<Value> {
    match without_document(alloc, name, asked) {
        Err(Refusal::NoAnswer) => match of_documents(alloc, name, asked) {
            Err(Refusal::NoAnswer) => of_examples(alloc, name, asked),
            given => given,
        },
        given => given,
    }
}

/// The same of the calls of texts, of trees and of `jsonpath_base`.
fn without_document(alloc: Global, name: &str, asked: &[Value]) -> CaseResult<Value> {
    match asked {
        [] => makers::made(alloc, name),
        [first] => match name {
            "text_length" => Ok(Value::from(text_length(text(first)?))),
            "whole" => Ok(Value::from(whole(first))),
            "path_of" | "pointer_of" => base::written(alloc, name, first),
            "error" => makers::error(alloc, text(first)?),
            "kind" => makers::kind(alloc, text(first)?),
            "FilterAtom::cmp" | "Comparison::vals" | "Comparison::try_new" | "cmp" => {
                makers::compared(alloc, name, text(first)?)
            }
            "parse_json_path" => trees::parsed(alloc, first),
            "is_singular" | "is_local" | "constant_prefix" | "to_query_text" => {
                trees::answer(alloc, name, first, &Value::Null)
            }
            _ => trees::grammar(alloc, name, first, Form::Tree),
        },
        [first, second] => of_two(alloc, name, first, second),
        [first, second, third] => match name {
            "set_function" => base::of_sets(text(first)?, second, third),
            "found" => base::is_found(alloc, first, second, third),
            "pattern" => base::found_by_pattern(alloc, first, second, third),
            "finder" => base::found_by_finder(alloc, first, second, third),
            "put_at" | "add_at" | "replace_all" => {
                base::changed(alloc, name, [first, second, third])
            }
            _ => Err(Refusal::NoAnswer),
        },
        [start, end, step, length] => base::sliced(alloc, name, [start, end, step, length]),
        _ => Err(Refusal::NoAnswer),
    }
}

fn of_two(alloc: Global, name: &str, first: &Value, second: &Value) -> CaseResult<Value> {
    match name {
        "text_less" => Ok(Value::from(text_less(text(first)?, text(second)?))),
        "same" => given_if(
            whole(first) && whole(second),
            Value::from(are_same(first, second)),
        ),
        "add_name" | "add_index" => base::longer(alloc, name, first, second),
        "try_clone" => base::copied(alloc, first, second),
        "starts_with" => base::begun(alloc, first, second),
        "location_by_pointer" => base::pointed(alloc, first, text(second)?),
        "step_by_token" => {
            let step = step_by_token(alloc, first, text(second)?)?;
            location(alloc, step.as_slice())
        }
        "at" => base::value_at(alloc, first, second),
        "take_at" => base::taken(alloc, first, second),
        "remove_all" => base::changed(alloc, name, [first, second, &Value::Null]),
        "to_query_text" => trees::unspelled(alloc, text(first)?, text(second)?),
        "same_tree" | "first_unknown_function" => trees::answer(alloc, name, first, second),
        "cursor" => trees::each(alloc, first, second),
        "built" => built::answer(alloc, text(first)?, second),
        "TestFunction::try_new" => makers::call(alloc, text(first)?, text(second)?),
        _ if second.as_str() == Some("shown") => trees::grammar(alloc, name, first, Form::Shown),
        _ => Err(Refusal::NoAnswer),
    }
}

/// The same of the calls of documents.
fn of_documents(alloc: Global, name: &str, asked: &[Value]) -> CaseResult<Value> {
    match asked {
        [first] => match name {
            "location_by_path" => located(alloc, location_by_path(alloc, text(first)?)?),
            "Whole::read" => types::read(alloc, first),
            _ => of_types(alloc, name, asked),
        },
        [first, second] => match name {
            "referred_location" => located(alloc, referred_location(alloc, first, text(second)?)?),
            "Runner::only" => types::only(alloc, text(first)?, second),
            "Runner::count" => types::count(alloc, text(first)?, second),
            "enough" => limits::enough(alloc, first, second),
            "Condition::read" => limits::condition(alloc, name, [first, second, &Value::Null]),
            _ => of_types(alloc, name, asked),
        },
        [first, second, third] => match name {
            "Condition::holds" | "Condition::enough" => {
                limits::condition(alloc, name, [first, second, third])
            }
            "Runner::enough" => limits::enough_for(alloc, first, second, third),
            "reference_mut" | "replace_all_by_path" | "replace_by_path" => {
                types::changed(alloc, name, asked)
            }
            _ => of_types(alloc, name, asked),
        },
        _ if name == "replace_within" => types::changed(alloc, name, asked),
        _ => of_types(alloc, name, asked),
    }
}

/// The same of a document type. `Value::NAME` and `Doc::NAME` ask one type, and NAME both, which have to answer the same.
fn of_types(alloc: Global, name: &str, asked: &[Value]) -> CaseResult<Value> {
    if let Some(name) = name.strip_prefix("Value::") {
        return of_type::<Value>(alloc, name, asked);
    }
    if let Some(name) = name.strip_prefix("Doc::") {
        return of_type::<Doc>(alloc, name, asked);
    }
    let by_value = answered(alloc, of_type::<Value>(alloc, name, asked))?;
    let by_doc = answered(alloc, of_type::<Doc>(alloc, name, asked))?;
    if are_same(&by_value, &by_doc) {
        drop(by_doc);
        Ok(by_value)
    } else {
        pair(alloc, by_value, by_doc)
    }
}

fn of_type<T: Document + Deletable>(
    alloc: Global,
    name: &str,
    asked: &[Value],
) -> CaseResult<Value> {
    match name {
        "js_path" => types::found::<T>(alloc, asked),
        "js_path_process" => process::found::<T>(alloc, asked),
        "process" => process::answer::<T>(alloc, asked),
        "reference" => types::referred::<T>(alloc, asked),
        "delete_by_path" => types::deleted::<T>(alloc, asked),
        "equal" => types::equal::<T>(alloc, asked),
        "from_list" => types::list::<T>(alloc, asked),
        "extension_custom" => types::custom::<T>(alloc, asked),
        "not_a_reference" => types::refused::<T>(alloc, asked),
        "QueryRef::equal" => types::equal_nodes::<T>(alloc, asked),
        _ => states::answer::<T>(alloc, name, asked),
    }
}

/// The same of the calls of `examples` and of a `Whole`. An argument with a number that is not whole is refused as `NotWhole`, before
/// any call.
fn of_examples(alloc: Global, name: &str, asked: &[Value]) -> CaseResult<Value> {
    if !asked.iter().all(|value| WholeRef::new(value).is_some()) {
        return Err(Refusal::Other(Cause::NotWhole));
    }
    match callers::answer(alloc, name, asked) {
        Err(Refusal::NoAnswer) => changes::answer(alloc, name, asked),
        given => given,
    }
}
