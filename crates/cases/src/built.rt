//! Trees that are made by hand, by `jsonpath_build`: whether each is written as the one that a grammar function reads of its text.
use crate::answers::{CaseResult, Refusal, are_same};
use crate::arguments::text;
use crate::trees::{self, Form, tree};
use jsonpath_build::{
    and, arg_filter, arg_lit, arg_test, atom, atom_cmp, atom_not, atom_test, atom_test_not, cmp,
    comparable_fn, comparable_lit, comparable_query, filter, jq, lit_bool, lit_int, lit_null,
    lit_str, or, q_index, q_name, q_segments, q_segments_one, segment_descendant, segment_many,
    segment_one, selector_filter, selector_index, selector_name, selector_slice, selector_wildcard,
    singular_current, singular_root, slice_all, slice_end, slice_end_step, slice_full, slice_start,
    slice_start_end, slice_start_step, slice_step, test_abs, test_fn1, test_fn2, test_function,
    test_rel,
};
use jsonpath_parser::Parsed;
use jsonpath_parser::model::{Comparable, Filter, FilterAtom, FnArg, Literal, Segment};
use serde_json::Value;
use std::alloc::Global;

/// Whether it is, for the grammar function of a name, and a text.
pub fn answer(alloc: Global, name: &str, query: &Value) -> CaseResult<Value> {
    let made = made(alloc, name, text(query)?)?;
    let read = trees::grammar(alloc, name, query, Form::Tree)?;
    Ok(Value::from(are_same(&read, &made)))
}

/// The tree that is made for the text. Where a function has one case, that tells the text.
fn made(alloc: Global, name: &str, text: &str) -> CaseResult<Value> {
    match name {
        "jp_query" => tree(alloc, Ok(jq(name_and_index(alloc)?))),
        "segments" => tree(alloc, name_and_index(alloc)),
        "rel_query" => tree(
            alloc,
            Ok(vec![in alloc; segment_one(selector_slice(slice_step(-2)))]?),
        ),
        "child_segment" => {
            let selectors = vec![in alloc; selector_index(-1), selector_wildcard()]?;
            tree(alloc, Ok(segment_many(selectors)))
        }
        "segment" => {
            let slice = segment_one(selector_slice(slice_start_end(1, 2)));
            tree(alloc, segment_descendant(alloc, slice))
        }
        "singular_query_segments" => {
            let index = q_segments_one(alloc, q_index(-1))?;
            tree(alloc, q_segments(alloc, q_name(alloc, "a")?, index))
        }
        "singular_query" => tree(alloc, Ok(singular_root(q_segments_one(alloc, q_index(0))?))),
        "slice_selector" => tree(alloc, Ok(slice_of(text))),
        _ => made_filter(alloc, name, text),
    }
}

/// The same of filters and their parts.
fn made_filter(alloc: Global, name: &str, text: &str) -> CaseResult<Value> {
    match name {
        "selector" => {
            let negated = atom_test_not(alloc, test_abs(jq(Vec::new(alloc))))?;
            tree(alloc, Ok(selector_filter(filter(negated))))
        }
        "function_expr" => {
            let pattern = arg_lit(lit_str(alloc, "a")?);
            tree(alloc, test_fn2(alloc, "match", argument(alloc)?, pattern))
        }
        "test" => {
            let call = test_fn1(alloc, "known", arg_filter(filter(below_one(alloc)?)))?;
            tree(alloc, test_function(alloc, call))
        }
        "logical_expr" => {
            let negated = filter(atom_not(alloc, filter(below_one(alloc)?))?);
            tree(alloc, Ok(or(vec![in alloc; current(alloc)?, negated]?)))
        }
        "logical_expr_and" => {
            let below = filter(below_one(alloc)?);
            tree(alloc, Ok(and(vec![in alloc; current(alloc)?, below]?)))
        }
        "comp_expr" => {
            let name = singular_current(q_segments_one(alloc, q_name(alloc, "a")?)?);
            let (left, right) = (comparable_query(name), comparable_lit(lit_null()));
            tree(alloc, cmp(alloc, left, "==", right))
        }
        "literal" => tree(alloc, literal_of(alloc, text)),
        "filter_atom" => tree(alloc, atom_of(alloc, text)),
        "comparable" => tree(alloc, side_of(alloc, text)),
        _ => Err(Refusal::NoAnswer),
    }
}

/// `['a'][0]`
fn name_and_index(alloc: Global) -> Parsed<Vec<Segment>> {
    let name = segment_one(selector_name(alloc, "a")?);
    Ok(vec![in alloc; name, segment_one(selector_index(0))]?)
}

/// `@`
fn current(alloc: Global) -> Parsed<Filter> {
    Ok(filter(atom_test(alloc, test_rel(Vec::new(alloc)))?))
}

/// `@` as an argument.
fn argument(alloc: Global) -> Parsed<FnArg> {
    arg_test(alloc, test_rel(Vec::new(alloc)))
}

/// `@<1`
fn below_one(alloc: Global) -> Parsed<FilterAtom> {
    let current = comparable_query(singular_current(Vec::new(alloc)));
    atom_cmp(alloc, current, "<", comparable_lit(lit_int(1)))
}

/// `null`, `true`, `-1` or `'a'`
fn literal_of(alloc: Global, text: &str) -> Parsed<Literal> {
    match text {
        "null" => Ok(lit_null()),
        "true" => Ok(lit_bool(true)),
        "-1" => Ok(lit_int(-1)),
        _ => lit_str(alloc, "a"),
    }
}

/// `(@)`, `!(@)`, `!@`, `@<1` or `@`
fn atom_of(alloc: Global, text: &str) -> Parsed<FilterAtom> {
    match text {
        "(@)" => atom(alloc, current(alloc)?),
        "!(@)" => atom_not(alloc, current(alloc)?),
        "!@" => atom_test_not(alloc, test_rel(Vec::new(alloc))),
        "@<1" => below_one(alloc),
        _ => atom_test(alloc, test_rel(Vec::new(alloc))),
    }
}

/// `1`, `@` or `length(@)`
fn side_of(alloc: Global, text: &str) -> Parsed<Comparable> {
    match text {
        "1" => Ok(comparable_lit(lit_int(1))),
        "@" => Ok(comparable_query(singular_current(Vec::new(alloc)))),
        _ => Ok(comparable_fn(test_fn1(alloc, "length", argument(alloc)?)?)),
    }
}

/// The slice of this text, of 1, 2 and 3 where it has a start, an end and a step.
fn slice_of(text: &str) -> (Option<i64>, Option<i64>, Option<i64>) {
    match text {
        "1:" => slice_start(1),
        "1:2" => slice_start_end(1, 2),
        "1::3" => slice_start_step(1, 3),
        "::3" => slice_step(3),
        ":2" => slice_end(2),
        ":2:3" => slice_end_step(2, 3),
        "1:2:3" => slice_full(1, 2, 3),
        _ => slice_all(),
    }
}
