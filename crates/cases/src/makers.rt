//! What is made of no text: trees, by their makers or as no text spells them, and errors. And what an argument is.
use crate::answers::{self, CaseResult, Refusal};
use crate::arguments::{given, given_if};
use crate::trees::{Form, told, tree};
use jsonpath_build::{
    and, atom_cmp, atom_test, cmp, comparable_fn, comparable_lit, filter, jq, lit_int, or,
    segment_descendant, segment_many, segment_one, selector_filter, selector_index,
    selector_wildcard, slice_end, test_function, test_rel,
};
use jsonpath_parser::errors::JsonPathError;
use jsonpath_parser::model::{
    Comparison, Filter, FilterAtom, FnArg, JpQuery, Segment, Test, TestFunction, slice_from,
};
use jsonpath_parser::{Cursor, Parsed, function_expr, literal};
use serde_json::Value;
use std::alloc::Global;

/// What the maker of that name makes of nothing.
pub fn made(alloc: Global, name: &str) -> CaseResult<Value> {
    match name {
        "JpQuery::new" => {
            let segments = vec![in alloc; Segment::name(alloc, "a")?]?;
            told(alloc, Form::Shown, Ok(JpQuery::new(segments)))
        }
        "slice_from" => told(alloc, Form::Shown, Ok(slice_from(slice_end(2)))),
        "FilterAtom::filter" => {
            let negated = FilterAtom::filter(alloc, Filter::Or(Vec::new(alloc)), true);
            told(alloc, Form::Shown, negated)
        }
        "FilterAtom::test" => {
            let test = FilterAtom::test(alloc, Test::RelQuery(Vec::new(alloc)), false);
            told(alloc, Form::Shown, test)
        }
        "atom_test" => tree(alloc, atom_test(alloc, test_rel(Vec::new(alloc)))),
        _ => Err(Refusal::NoAnswer),
    }
}

/// What the maker of that name makes of an operator between 1 and 2.
pub fn compared(alloc: Global, name: &str, operator: &str) -> CaseResult<Value> {
    match name {
        "FilterAtom::cmp" => {
            let comparison = Box::new(alloc, comparison(alloc, operator)?)?;
            told(alloc, Form::Shown, Ok(FilterAtom::cmp(comparison)))
        }
        "Comparison::vals" => tree(alloc, Ok(comparison(alloc, operator)?.vals())),
        "Comparison::try_new" => told(alloc, Form::Shown, comparison(alloc, operator)),
        "cmp" => {
            let (one, two) = (comparable_lit(lit_int(1)), comparable_lit(lit_int(2)));
            tree(alloc, cmp(alloc, one, operator, two))
        }
        _ => Err(Refusal::NoAnswer),
    }
}

/// The comparison of 1 and 2.
fn comparison(alloc: Global, operator: &str) -> Parsed<Comparison> {
    let (one, two) = (comparable_lit(lit_int(1)), comparable_lit(lit_int(2)));
    Comparison::try_new(alloc, operator, one, two)
}

/// What `TestFunction::try_new` makes of a name and of arguments as they are written.
pub fn call(alloc: Global, name: &str, arguments: &str) -> CaseResult<Value> {
    let arguments = arguments_of(alloc, arguments)?;
    tree(alloc, TestFunction::try_new(alloc, name, arguments))
}

/// The arguments that the text spells.
pub fn arguments_of(alloc: Global, text: &str) -> CaseResult<Vec<FnArg>> {
    let call = format!(in alloc; "f({text})")?;
    match function_expr(alloc, &mut Cursor::new(&call))? {
        TestFunction::Custom(_, arguments) => Ok(arguments),
        other => {
            drop(other);
            Err(Refusal::NoAnswer)
        }
    }
}

/// What the argument of this text is, by its own calls and those of the test that it holds.
pub fn kind(alloc: Global, argument: &str) -> CaseResult<Value> {
    let arguments = arguments_of(alloc, argument)?;
    let kind = arguments.first().map_or("no argument", kind_of);
    drop(arguments);
    answers::text(alloc, kind)
}

fn kind_of(argument: &FnArg) -> &'static str {
    match (argument, argument.is_lit(), argument.is_filter()) {
        (FnArg::Literal(_), true, false) => "a literal",
        (FnArg::Filter(_), false, true) => "a filter",
        (FnArg::Test(test), false, false) => kind_of_test(test),
        _ => "of two kinds",
    }
}

fn kind_of_test(test: &Test) -> &'static str {
    match (test, test.is_res_bool()) {
        (Test::Function(call), true) if !call.is_comparable() => "a truth",
        (Test::Function(call), false) if call.is_comparable() => "a value",
        (Test::RelQuery(_) | Test::AbsQuery(_), false) => "a query",
        _ => "a test of two kinds",
    }
}

/// The query of that name: of an index or a slice of any numbers, where those of a text lie between -(2^53) and 2^53; of nothing where a
/// text has something; of a function by a name that no text has; or one that the typing of RFC 9535, 2.4.3 may refuse.
pub fn unspelled(alloc: Global, name: &str, text: &str) -> CaseResult<JpQuery> {
    match name {
        "index" => of_one(alloc, segment_one(selector_index(number_in(text)?))),
        "slice" => of_one(alloc, segment_one(slice_from(slice_in(text)?))),
        "query_of_no_selectors" => of_one(alloc, segment_many(Vec::new(alloc))),
        "descendant_of_descendant" => {
            let below = segment_descendant(alloc, segment_one(selector_wildcard()))?;
            of_one(alloc, segment_descendant(alloc, below)?)
        }
        "or_of_nothing" => of_filter(alloc, or(Vec::new(alloc))),
        "and_of_nothing" => of_filter(alloc, and(Vec::new(alloc))),
        "function" => {
            let name = String::from_str(alloc, text)?;
            of_call(alloc, TestFunction::Custom(name, Vec::new(alloc)))
        }
        "test_alone_as_expression" => {
            let name = String::from_str(alloc, text)?;
            let test = atom_test(alloc, test_rel(Vec::new(alloc)))?;
            let arguments = vec![in alloc; FnArg::Filter(filter(test))]?;
            of_call(alloc, TestFunction::Custom(name, arguments))
        }
        "untyped_test" => of_call(alloc, untyped_call(alloc, text)?),
        "untyped_comparison" => comparing(alloc, text),
        _ => Err(Refusal::NoAnswer),
    }
}

fn of_one(alloc: Global, segment: Segment) -> CaseResult<JpQuery> {
    Ok(jq(vec![in alloc; segment]?))
}

fn of_filter(alloc: Global, filter: Filter) -> CaseResult<JpQuery> {
    of_one(alloc, segment_one(selector_filter(filter)))
}

/// `$[?CALL]`.
fn of_call(alloc: Global, call: TestFunction) -> CaseResult<JpQuery> {
    let test = test_function(alloc, call)?;
    of_filter(alloc, filter(atom_test(alloc, test)?))
}

/// `$[?CALL==LITERAL]`, of the text `CALL==LITERAL`.
fn comparing(alloc: Global, text: &str) -> CaseResult<JpQuery> {
    let (left, right) = given(text.split_once("=="))?;
    let right = literal(alloc, &mut Cursor::new(right))?;
    let left = comparable_fn(untyped_call(alloc, left)?);
    let compared = atom_cmp(alloc, left, "==", comparable_lit(right))?;
    of_filter(alloc, filter(compared))
}

/// The call of this text, whatever its arguments are.
pub fn untyped_call(alloc: Global, text: &str) -> CaseResult<TestFunction> {
    let (name, arguments) = given(text.split_once('('))?;
    let mut arguments = arguments_of(alloc, given(arguments.strip_suffix(')'))?)?;
    let last = given(arguments.pop())?;
    match (name, arguments.pop()) {
        ("length", None) => Ok(TestFunction::Length(Box::new(alloc, last)?)),
        ("value", None) => Ok(TestFunction::Value(last)),
        ("count", None) => Ok(TestFunction::Count(last)),
        ("match", Some(first)) => Ok(TestFunction::Match(first, last)),
        ("search", Some(first)) => Ok(TestFunction::Search(first, last)),
        _ => Err(Refusal::NoAnswer),
    }
}

fn number_in(text: &str) -> CaseResult<i64> {
    given(text.parse::<i64>().ok())
}

/// The parts of the slice `START:END:STEP`, where each may be empty.
fn slice_in(text: &str) -> CaseResult<(Option<i64>, Option<i64>, Option<i64>)> {
    let (start, rest) = given(text.split_once(':'))?;
    let (end, step) = given(rest.split_once(':'))?;
    Ok((part(start)?, part(end)?, part(step)?))
}

fn part(text: &str) -> CaseResult<Option<i64>> {
    match text {
        "" => Ok(None),
        _ => Ok(Some(number_in(text)?)),
    }
}

/// The text of the error of that name, whose copy has to be equal to it; it is made by its maker where it has one. Beside the thirteen
/// variants there are the names of two makers, `from_text` and `bad_bool`.
pub fn error(alloc: Global, name: &str) -> CaseResult<Value> {
    let error = error_named(alloc, name)?;
    let shown = shown_alike(alloc, &error);
    drop(error);
    shown
}

fn shown_alike(alloc: Global, error: &JsonPathError) -> CaseResult<Value> {
    let copy = error.try_clone(alloc)?;
    let is_alike = copy == *error;
    drop(copy);
    given_if(is_alike, Value::String(error.to_string(alloc)?))
}

fn error_named(alloc: Global, name: &str) -> CaseResult<JsonPathError> {
    match name {
        "PestError" => Ok(JsonPathError::PestError(7)),
        "UnexpectedRuleLogicError" => Ok(JsonPathError::unexpected_rule(alloc, "a", "b")?),
        "UnexpectedNoneLogicError" => {
            let part = String::from_str(alloc, "a")?;
            let whole = String::from_str(alloc, "b")?;
            Ok(JsonPathError::UnexpectedNoneLogicError(part, whole))
        }
        "UnexpectedPestOutput" => Ok(JsonPathError::UnexpectedPestOutput),
        "NoRulePath" => Ok(JsonPathError::NoRulePath),
        "NoJsonPathDescent" => Ok(JsonPathError::NoJsonPathDescent),
        "NoJsonPathField" => Ok(JsonPathError::NoJsonPathField),
        "InvalidNumber" => {
            let cause = given("1.5".parse::<i64>().err())?;
            Ok(JsonPathError::bad_int(alloc, cause, "1.5")?)
        }
        "InvalidTopLevelRule" => {
            Ok(JsonPathError::InvalidTopLevelRule(String::from_str(alloc, "a")?))
        }
        "EmptyInner" => Ok(JsonPathError::empty(alloc, "a")?),
        "InvalidJsonPath" => Ok(JsonPathError::within(alloc, JsonPathError::NoRulePath, "a")?),
        "MaxNestingDepthExceeded" => Ok(JsonPathError::MaxNestingDepthExceeded(128)),
        "OutOfMemory" => Ok(JsonPathError::OutOfMemory),
        "from_text" => Ok(JsonPathError::from_text(alloc, "b")?),
        "bad_bool" => {
            let cause = given("1.5".parse::<bool>().err())?;
            Ok(JsonPathError::bad_bool(alloc, cause)?)
        }
        _ => Err(Refusal::NoAnswer),
    }
}
