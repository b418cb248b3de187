//! Comparisons and their sides (RFC 9535, 2.3.5.1).
ghost use Rattle.std.specs.Prelude.{◌≡◌, IsOk, IsSome};
ghost use Rattle.jsonpath_parser.specs.tree.Making.{Makes, comparison_of, operator_of};
ghost use Rattle.jsonpath_parser.specs.tree.Syntax as tree;
ghost use Rattle.jsonpath_parser.specs.tree.View.{call_view, comparable_view, comparison_view, literal_view, singular_view};

use jsonpath_parser::errors::Parsed;
use jsonpath_parser::model::{Comparable, Comparison, Literal, SingularQuery, TestFunction};
use std::alloc::Global;

/// The comparison of left and right by this operator: `==`, `!=`, `>`, `>=`, `<` or `<=`.
///
/// # Errors
///
/// Those of `Comparison::try_new`.
pub fn cmp(alloc: Global, left: Comparable, operator: &str, right: Comparable) -> Parsed<Comparison>
    ensures made { Makes comparison_view result (comparison_of operator.now (comparable_view left) (comparable_view right)) }

    // With one of the six it takes no memory.
    ensures succeeds { IsSome (operator_of operator.now) → IsOk result }
{
    Comparison::try_new(alloc, operator, left, right)
}

/// The side that is this literal.
pub fn comparable_lit(literal: Literal) -> Comparable
    ensures { comparable_view result ≡ tree.literal_argument (literal_view literal) }
{
    Comparable::Literal(literal)
}

/// The side that is what this call returns.
pub fn comparable_fn(call: TestFunction) -> Comparable
    ensures { comparable_view result ≡ tree.test_argument (tree.call (call_view call)) }
{
    Comparable::Function(call)
}

/// The side that is the value of this query's one node, if it has one.
pub fn comparable_query(query: SingularQuery) -> Comparable
    ensures { comparable_view result ≡ tree.test_argument (singular_view query) }
{
    Comparable::SingularQuery(query)
}
