//! Calls of functions, and their arguments (RFC 9535, 2.4).
ghost use Rattle.std.specs.Prelude.{◌≡◌, IfOk, IfErr};
ghost use Rattle.jsonpath_parser.specs.tree.Making.{Makes, typed_call_of};
ghost use Rattle.jsonpath_parser.specs.tree.Syntax as tree;
ghost use Rattle.jsonpath_parser.specs.tree.View.{literal_view, argument_view, call_view, filter_view, test_view};
ghost use Rattle.jsonpath_parser.specs.declared.errors.JsonPathError.TheVariants.{OutOfMemory};

use jsonpath_parser::errors::Parsed;
use jsonpath_parser::model::{Filter, FnArg, Literal, Test, TestFunction};
use std::alloc::Global;

/// The call of the function of this name with one argument.
///
/// # Errors
///
/// Those of `TestFunction::try_new`.
pub fn test_fn1(alloc: Global, name: &str, argument: FnArg) -> Parsed<TestFunction>
    ensures { Makes call_view result (typed_call_of name.now (tree.argument (argument_view argument) tree.no_arguments)) }
{
    TestFunction::try_new(alloc, name, vec![in alloc; argument]?)
}

/// The call of the function of this name with two arguments.
///
/// # Errors
///
/// Those of `TestFunction::try_new`.
pub fn test_fn2(alloc: Global, name: &str, first: FnArg, second: FnArg) -> Parsed<TestFunction>
    ensures { Makes call_view result (typed_call_of name.now (tree.argument (argument_view first) (tree.argument (argument_view second) tree.no_arguments))) }
{
    TestFunction::try_new(alloc, name, vec![in alloc; first, second]?)
}

/// The argument that is this literal.
pub fn arg_lit(literal: Literal) -> FnArg
    ensures { argument_view result ≡ tree.literal_argument (literal_view literal) }
{
    FnArg::Literal(literal)
}

/// The argument that is this query or call.
///
/// # Errors
///
/// `OutOfMemory` where memory ran out.
pub fn arg_test(alloc: Global, test: Test) -> Parsed<FnArg>
    ensures made { IfOk result (λ a. argument_view a ≡ tree.test_argument (test_view test)) }
    ensures memory { IfErr result (λ e. e ≡ OutOfMemory) }
{
    Ok(FnArg::Test(Box::new(alloc, test)?))
}

/// The argument that is this logical expression.
pub fn arg_filter(filter: Filter) -> FnArg
    ensures { argument_view result ≡ tree.filter_argument (filter_view filter) }
{
    FnArg::Filter(filter)
}
