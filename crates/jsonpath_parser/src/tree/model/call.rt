//! Calls of functions, and what they take (RFC 9535, 2.4).
ghost use Rattle.std.specs.Prelude.{◌≡◌, IfOk, map, option_map};
ghost use Rattle.jsonpath_parser.specs.Prelude.{argument_view, arguments_view, call_view, list_all, Makes, segment_view, segments_of, test_view};
ghost use Rattle.jsonpath_parser.specs.tree.Making.{typed_call_of, is_truth_call, is_literal_argument, is_filter_argument};
ghost use Rattle.jsonpath_parser.specs.tree.Typing as typing;

use super::refusal::invalid;
use super::{FnArg, Segment, Selector, Test, TestFunction};
use crate::errors::Parsed;
use std::alloc::{AllocError, Global};

fn is_step(segment: &Segment) -> bool
    ensures { result ≡ typing.is_step (segment_view segment.now) }
{
    matches!(
        segment,
        Segment::Selector(Selector::Name(_) | Selector::Index(_))
    )
}

fn all_steps(segments: &[Segment]) -> bool
    ensures { result ≡ list_all (λ g. typing.is_step (segment_view g)) segments.now }
{
    segments.iter().all(|segment| is_step(segment))
}

/// Whether each segment is one name or one index (2.3.5.1).
#[tactic(auto, using(crate::proofs::laws::tree::Calls::is_singular_all))]
pub fn are_steps(segments: &[Segment]) -> bool
    ensures { result ≡ typing.is_singular (segments_of (map segment_view segments.now)) }
{
    all_steps(segments)
}

impl Test {
    /// Whether it is a call of `Custom`, `Search` or `Match`: those give a truth.
    pub fn is_res_bool(&self) -> bool
        ensures { result ≡ is_truth_call (test_view self.now) }
    {
        match self {
            Test::RelQuery(_) | Test::AbsQuery(_) => false,
            Test::Function(call) => !call.is_comparable(),
        }
    }

    fn is_value(&self) -> bool
        ensures { result ≡ typing.is_value_test (test_view self.now) }
    {
        match self {
            Test::RelQuery(segments) => are_steps(segments),
            Test::AbsQuery(query) => are_steps(&query.segments),
            Test::Function(call) => call.is_comparable(),
        }
    }

    fn is_query(&self) -> bool
        ensures { result ≡ typing.is_query_test (test_view self.now) }
    {
        matches!(self, Test::RelQuery(_) | Test::AbsQuery(_))
    }
}

impl FnArg {
    /// Whether it is a literal.
    pub fn is_lit(&self) -> bool
        ensures { result ≡ is_literal_argument (argument_view self.now) }
    {
        match self {
            FnArg::Literal(_) => true,
            FnArg::Test(_) | FnArg::Filter(_) => false,
        }
    }

    /// Whether it is a logical expression.
    pub fn is_filter(&self) -> bool
        ensures { result ≡ is_filter_argument (argument_view self.now) }
    {
        match self {
            FnArg::Literal(_) | FnArg::Test(_) => false,
            FnArg::Filter(_) => true,
        }
    }

    fn is_value(&self) -> bool
        ensures { result ≡ typing.is_value_argument (argument_view self.now) }
    {
        match self {
            FnArg::Literal(_) => true,
            FnArg::Test(test) => test.is_value(),
            FnArg::Filter(_) => false,
        }
    }

    fn is_query(&self) -> bool
        ensures { result ≡ typing.is_query_argument (argument_view self.now) }
    {
        match self {
            FnArg::Literal(_) | FnArg::Filter(_) => false,
            FnArg::Test(test) => test.is_query(),
        }
    }
}

#[tactic(auto, using(crate::proofs::laws::tree::Calls::one_none))]
fn one_argument(mut args: Vec<FnArg>) -> Option<FnArg>
    ensures { option_map argument_view result ≡ typing.one_argument (arguments_view args) }
{
    if args.len() != 1 {
        return None;
    }
    args.pop()
}

#[tactic(auto, using(crate::proofs::laws::tree::Calls::two_none))]
fn two_arguments(mut args: Vec<FnArg>) -> Option<(FnArg, FnArg)>
    ensures { option_map (λ p. (argument_view p.0, argument_view p.1)) result ≡ typing.two_arguments (arguments_view args) }
{
    if args.len() != 2 {
        return None;
    }
    let right = args.pop()?;
    let left = args.pop()?;
    Some((left, right))
}

/// The call of this name; None where one of the five functions has another number of arguments.
pub fn call_of(
    alloc: Global,
    name: &str,
    args: Vec<FnArg>,
) -> Result<Option<TestFunction>, AllocError>
    ensures { IfOk result (λ call. option_map call_view call ≡ typing.call_of name.now (arguments_view args)) }
{
    match name {
        "length" => {
            let Some(arg) = one_argument(args) else {
                return Ok(None);
            };
            Ok(Some(TestFunction::Length(Box::new(alloc, arg)?)))
        }
        "value" => Ok(one_argument(args).map(TestFunction::Value)),
        "count" => Ok(one_argument(args).map(TestFunction::Count)),
        "search" => Ok(two_arguments(args).map(|(left, right)| TestFunction::Search(left, right))),
        "match" => Ok(two_arguments(args).map(|(left, right)| TestFunction::Match(left, right))),
        _ => Ok(Some(TestFunction::Custom(String::from_str(alloc, name)?, args))),
    }
}

impl TestFunction {
    /// The call of the function of this name. The names `length`, `value`, `count`, `search` and `match` have their own
    /// variants, and any other name is `Custom`. The arguments of those five are checked as 2.4.3 has it: `length`
    /// takes one value, `value` and `count` one query, `search` and `match` two values. What stands inside the
    /// arguments is not looked at.
    ///
    /// # Errors
    ///
    /// - `InvalidJsonPath` where one of the five has a wrong number or a wrong kind of arguments.
    /// - `OutOfMemory` where memory ran out.
    ///
    /// The time is linear in the segments of the arguments.
    pub fn try_new(alloc: Global, name: &str, args: Vec<FnArg>) -> Parsed<Self>
        ensures { Makes call_view result (typed_call_of name.now (arguments_view args)) }
    {
        let Some(call) = call_of(alloc, name, args)? else {
            return Err(invalid(alloc, "wrong number of arguments for the function ", name));
        };
        if !call.takes() {
            // A call of `drop` is proved at once; where a scope ends, each variant is a case.
            drop(call);
            return Err(invalid(alloc, "wrong kind of arguments for the function ", name));
        }
        Ok(call)
    }

    /// Whether it is `Length`, `Value` or `Count`: those give a value.
    pub fn is_comparable(&self) -> bool
        ensures { result ≡ typing.gives_value (call_view self.now) }
    {
        matches!(
            self,
            TestFunction::Length(_) | TestFunction::Value(_) | TestFunction::Count(_)
        )
    }

    /// Whether the function takes its arguments (2.4.3).
    pub(crate) fn takes(&self) -> bool
        ensures { result ≡ typing.takes (call_view self.now) }
    {
        match self {
            TestFunction::Custom(_, _) => true,
            TestFunction::Length(arg) => arg.is_value(),
            TestFunction::Value(arg) | TestFunction::Count(arg) => arg.is_query(),
            TestFunction::Search(left, right) | TestFunction::Match(left, right) => left.is_value()
                && right.is_value(),
        }
    }
}
