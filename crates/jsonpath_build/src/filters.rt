//! Logical expressions, and what they ask (RFC 9535, 2.3.5.1).
ghost use Rattle.std.specs.Prelude.{◌≡◌, true, false, IfOk, IfErr};
ghost use Rattle.jsonpath_parser.specs.tree.Making.{Makes, comparison_of};
ghost use Rattle.jsonpath_parser.specs.tree.Syntax as tree;
ghost use Rattle.jsonpath_parser.specs.tree.View.{atom_view, call_view, comparable_view, filter_view, filters_view, query_view, segments_view, test_view};
ghost use Rattle.jsonpath_parser.specs.declared.errors.JsonPathError.TheVariants.{OutOfMemory};

use crate::comparisons::cmp;
use jsonpath_parser::errors::Parsed;
use jsonpath_parser::model::{
    Comparable, Filter, FilterAtom, JpQuery, Segment, Test, TestFunction,
};
use std::alloc::Global;

/// The test of `@` and these segments.
pub fn test_rel(segments: Vec<Segment>) -> Test
    ensures { test_view result ≡ tree.relative (segments_view segments) }
{
    Test::RelQuery(segments)
}

/// The test of this query from the root.
pub fn test_abs(query: JpQuery) -> Test
    ensures { test_view result ≡ tree.absolute (query_view query) }
{
    Test::AbsQuery(query)
}

/// The test of what this call returns.
///
/// # Errors
///
/// `OutOfMemory` where memory ran out.
pub fn test_function(alloc: Global, call: TestFunction) -> Parsed<Test>
    ensures made { IfOk result (λ t. test_view t ≡ tree.call (call_view call)) }
    ensures memory { IfErr result (λ e. e ≡ OutOfMemory) }
{
    Ok(Test::Function(Box::new(alloc, call)?))
}

/// The expression that holds where some of these does: `||` between them.
pub fn or(parts: Vec<Filter>) -> Filter
    ensures { filter_view result ≡ tree.or (filters_view parts) }
{
    Filter::Or(parts)
}

/// The expression that holds where each of these does: `&&` between them.
pub fn and(parts: Vec<Filter>) -> Filter
    ensures { filter_view result ≡ tree.and (filters_view parts) }
{
    Filter::And(parts)
}

/// The expression that is this basic one.
pub fn filter(atom: FilterAtom) -> Filter
    ensures { filter_view result ≡ atom_view atom }
{
    Filter::Atom(atom)
}

/// The expression in parentheses.
///
/// # Errors
///
/// `OutOfMemory` where memory ran out.
pub fn atom(alloc: Global, expr: Filter) -> Parsed<FilterAtom>
    ensures made { IfOk result (λ a. atom_view a ≡ tree.group false (filter_view expr)) }
    ensures memory { IfErr result (λ e. e ≡ OutOfMemory) }
{
    FilterAtom::filter(alloc, expr, false)
}

/// `!` and the expression in parentheses.
///
/// # Errors
///
/// `OutOfMemory` where memory ran out.
pub fn atom_not(alloc: Global, expr: Filter) -> Parsed<FilterAtom>
    ensures made { IfOk result (λ a. atom_view a ≡ tree.group true (filter_view expr)) }
    ensures memory { IfErr result (λ e. e ≡ OutOfMemory) }
{
    FilterAtom::filter(alloc, expr, true)
}

/// The basic expression that is this test.
///
/// # Errors
///
/// `OutOfMemory` where memory ran out.
pub fn atom_test(alloc: Global, expr: Test) -> Parsed<FilterAtom>
    ensures made { IfOk result (λ a. atom_view a ≡ tree.Filter.test false (test_view expr)) }
    ensures memory { IfErr result (λ e. e ≡ OutOfMemory) }
{
    FilterAtom::test(alloc, expr, false)
}

/// `!` and this test.
///
/// # Errors
///
/// `OutOfMemory` where memory ran out.
pub fn atom_test_not(alloc: Global, expr: Test) -> Parsed<FilterAtom>
    ensures made { IfOk result (λ a. atom_view a ≡ tree.Filter.test true (test_view expr)) }
    ensures memory { IfErr result (λ e. e ≡ OutOfMemory) }
{
    FilterAtom::test(alloc, expr, true)
}

/// The basic expression that compares left and right by this operator.
///
/// # Errors
///
/// Those of `Comparison::try_new`, and `OutOfMemory` where memory ran out.
pub fn atom_cmp(
    alloc: Global,
    left: Comparable,
    operator: &str,
    right: Comparable,
) -> Parsed<FilterAtom>
    ensures { Makes atom_view result (comparison_of operator.now (comparable_view left) (comparable_view right)) }
{
    Ok(FilterAtom::cmp(Box::new(alloc, cmp(alloc, left, operator, right)?)?))
}
