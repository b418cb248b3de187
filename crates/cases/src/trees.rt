//! Query texts, their trees, and what the grammar functions read from the start of a text.
use crate::answers::{CaseResult, Refusal, answered, location, member};
use crate::arguments::{given_if, list, spelled, text, texts};
use crate::makers;
use jsonpath_base::constant_prefix;
use jsonpath_parser::model::JpQuery;
use jsonpath_parser::{
    Cursor, Parsed, child_segment, comp_expr, comparable, filter_atom, first_unknown_function,
    function_expr, is_local, is_singular, jp_query, literal, logical_expr, logical_expr_and,
    parse_json_path, rel_query, segment, segments, selector, singular_query,
    singular_query_segments, slice_selector, test, to_query_text,
};
use serde_json::{Value, json, put};
use std::alloc::Global;
use std::fmt::{Debug, Display};

/// How much is told of a tree.
#[derive(Clone, Copy)]
pub enum Form {
    Tree,
    Shown,
}

/// The `tree` that the function of that name reads of a text, with how it is shown where the form asks that; and the `end`, where that is
/// not the text's.
pub fn grammar(alloc: Global, name: &str, query: &Value, form: Form) -> CaseResult<Value> {
    front(alloc, name, form, &mut Cursor::new(&spelled(alloc, query)?))
}

/// A list of what each of the functions reads, from where the one before it ended.
pub fn each(alloc: Global, query: &Value, names: &Value) -> CaseResult<Value> {
    let query = spelled(alloc, query)?;
    let mut cursor = Cursor::new(&query);
    let mut answers = Vec::new(alloc);
    for name in list(names)? {
        let read = front(alloc, text(name)?, Form::Tree, &mut cursor);
        answers.push(answered(alloc, read)?)?;
    }
    Ok(Value::Array(answers))
}

/// What is read of what follows the cursor. A refusal leaves the cursor; memory may also run out behind it, for what is told.
fn front(alloc: Global, name: &str, form: Form, cursor: &mut Cursor<'_>) -> CaseResult<Value> {
    let start = cursor.at();
    match read(alloc, name, form, cursor) {
        Ok(answer) => ended(alloc, answer, cursor),
        Err(refusal) if refusal.is_memory() || cursor.at() == start => Err(refusal),
        Err(_) => Err(Refusal::NoAnswer),
    }
}

/// The answer, and where the cursor stands, if that is not the end of the text.
fn ended(alloc: Global, mut answer: Value, cursor: &Cursor<'_>) -> CaseResult<Value> {
    let end = cursor.at();
    if cursor.at_end() != (end == cursor.text().len()) {
        drop(answer);
        return Err(Refusal::NoAnswer);
    }
    if let Value::Object(members) = &mut answer
        && !cursor.at_end()
    {
        put(members, alloc, "end", Value::from(end))?;
    }
    Ok(answer)
}

/// What the function of that name reads.
fn read(alloc: Global, name: &str, form: Form, cursor: &mut Cursor<'_>) -> CaseResult<Value> {
    match name {
        "jp_query" => told(alloc, form, jp_query(alloc, cursor)),
        "child_segment" => told(alloc, form, child_segment(alloc, cursor)),
        "segment" => told(alloc, form, segment(alloc, cursor)),
        "selector" => told(alloc, form, selector(alloc, cursor)),
        "function_expr" => told(alloc, form, function_expr(alloc, cursor)),
        "test" => told(alloc, form, test(alloc, cursor)),
        "logical_expr" => told(alloc, form, logical_expr(alloc, cursor)),
        "logical_expr_and" => told(alloc, form, logical_expr_and(alloc, cursor)),
        "singular_query" => told(alloc, form, singular_query(alloc, cursor)),
        "comp_expr" => told(alloc, form, comp_expr(alloc, cursor)),
        "literal" => told(alloc, form, literal(alloc, cursor)),
        "filter_atom" => told(alloc, form, filter_atom(alloc, cursor)),
        "comparable" => told(alloc, form, comparable(alloc, cursor)),
        // What these read has no `Display`.
        _ if matches!(form, Form::Shown) => Err(Refusal::NoAnswer),
        "rel_query" => tree(alloc, rel_query(alloc, cursor)),
        "segments" => tree(alloc, segments(alloc, cursor)),
        "singular_query_segments" => tree(alloc, singular_query_segments(alloc, cursor)),
        "slice_selector" => tree(alloc, slice_selector(alloc, cursor)),
        _ => Err(Refusal::NoAnswer),
    }
}

/// `{"tree": ..}`, as `Debug` writes it, and where that is asked too `{"tree": .., "shown": ..}`, as `Display` does.
pub fn told<T: Debug + Display + Drop>(
    alloc: Global,
    form: Form,
    read: Parsed<T>,
) -> CaseResult<Value> {
    let read = read?;
    let shown = match form {
        Form::Tree => return tree(alloc, Ok(read)),
        Form::Shown => format!(in alloc; "{read}")?,
    };
    let told = format!(in alloc; "{read:?}")?;
    Ok(json!(in alloc; {"tree": told, "shown": shown})?)
}

/// `{"tree": ..}`.
pub fn tree<T: Debug + Drop>(alloc: Global, read: Parsed<T>) -> CaseResult<Value> {
    let read = read?;
    member(alloc, "tree", Value::String(format!(in alloc; "{read:?}")?))
}

/// The tree that the text spells, and how it is shown.
pub fn parsed(alloc: Global, query: &Value) -> CaseResult<Value> {
    let query = spelled(alloc, query)?;
    told(alloc, Form::Shown, parse_json_path(alloc, &query))
}

/// What the call of that name answers of the tree that the text spells, and of one value beside it: `same_tree` whether that text spells
/// it too, and `to_query_text` what is written of it, which has to spell it.
pub fn answer(alloc: Global, name: &str, query: &Value, beside: &Value) -> CaseResult<Value> {
    let tree = parse_json_path(alloc, &spelled(alloc, query)?)?;
    asked(alloc, name, &tree, beside)
}

fn asked(alloc: Global, name: &str, tree: &JpQuery, beside: &Value) -> CaseResult<Value> {
    match name {
        "is_singular" => Ok(Value::from(is_singular(tree))),
        "is_local" => Ok(Value::from(is_local(tree))),
        "first_unknown_function" => other_name(alloc, tree, &texts(alloc, beside)?),
        "constant_prefix" => location(alloc, &constant_prefix(alloc, tree)?),
        "same_tree" => Ok(Value::from(is_spelled(alloc, tree, text(beside)?)?)),
        "to_query_text" => written(alloc, tree),
        _ => Err(Refusal::NoAnswer),
    }
}

/// The first name of a custom function that is none of these, or null.
fn other_name(alloc: Global, tree: &JpQuery, names: &[&str]) -> CaseResult<Value> {
    match first_unknown_function(tree, names) {
        Some(name) => Ok(Value::String(String::from_str(alloc, name)?)),
        None => Ok(Value::Null),
    }
}

/// What is written of the tree of that name that no text spells: null.
pub fn unspelled(alloc: Global, name: &str, part: &str) -> CaseResult<Value> {
    written(alloc, &makers::unspelled(alloc, name, part)?)
}

fn written(alloc: Global, tree: &JpQuery) -> CaseResult<Value> {
    match to_query_text(alloc, tree)? {
        Some(written) => given_if(is_spelled(alloc, tree, &written)?, Value::String(written)),
        None => Ok(Value::Null),
    }
}

/// Whether a text spells a copy of the tree.
fn is_spelled(alloc: Global, tree: &JpQuery, text: &str) -> CaseResult<bool> {
    let copy = tree.try_clone(alloc)?;
    let read = parse_json_path(alloc, text)?;
    Ok(copy == read)
}
