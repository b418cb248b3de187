//! The comparison of values in a filter (RFC 9535, 2.3.5.2.2).
ghost use Rattle.std.specs.Prelude.{◌≡◌};
ghost use Rattle.jsonpath_base.specs.Prelude.Documents.{are_equal, compares, is_below, operator_view, same};
ghost use Rattle.jsonpath_rust.specs.Prelude.Documents.{scalar_tree, filter_ref_tree, tree_of};

use crate::documents::filter_value::{FilterValueRef, Scalar};
use crate::documents::queryable::Queryable;
use crate::documents::whole::{Whole, WholeRef};
use jsonpath_base::text_less;
use jsonpath_parser::model::Operator;

/// Returns whether the operator holds between two values (RFC 9535, 2.3.5.2.2).
#[inline(always)]
pub fn compares<'a, 's, T: Queryable>(
    operator: Operator,
    left: &FilterValueRef<'a, 's, T>,
    right: &FilterValueRef<'a, 's, T>,
) -> bool
    ensures { result ≡ compares (operator_view operator) (filter_ref_tree left.now) (filter_ref_tree right.now) }
{
    match operator {
        Operator::Equal => are_equal(left, right),
        Operator::NotEqual => !are_equal(left, right),
        Operator::Less => is_below(left, right),
        Operator::LessOrEqual => is_below(left, right) || are_equal(left, right),
        Operator::Greater => is_below(right, left),
        Operator::GreaterOrEqual => is_below(right, left) || are_equal(left, right),
    }
}

/// Returns whether both are absent, or the same.
fn are_equal<'a, 's, T: Queryable>(
    left: &FilterValueRef<'a, 's, T>,
    right: &FilterValueRef<'a, 's, T>,
) -> bool
    ensures { result ≡ are_equal (filter_ref_tree left.now) (filter_ref_tree right.now) }
{
    match (left, right) {
        (FilterValueRef::Absent, FilterValueRef::Absent) => true,
        (FilterValueRef::Borrowed(value), FilterValueRef::Borrowed(other)) => value.equal(*other),
        (FilterValueRef::Borrowed(value), FilterValueRef::Plain(scalar)) => is_scalar(
            *value, *scalar,
        ),
        (FilterValueRef::Plain(scalar), FilterValueRef::Borrowed(value)) => is_scalar(
            *value, *scalar,
        ),
        (FilterValueRef::Plain(scalar), FilterValueRef::Plain(other)) => scalars_are_same(
            *scalar, *other,
        ),
        _ => false,
    }
}

/// Returns whether a value is the same as a scalar, whichever of them is on the left.
#[inline(always)]
fn is_scalar<T: Queryable>(value: WholeRef<'_, T>, scalar: Scalar<'_>) -> bool
    ensures left { result ≡ same (tree_of value.entry) (scalar_tree scalar.entry) }
    ensures right { result ≡ same (scalar_tree scalar.entry) (tree_of value.entry) }
{
    match scalar {
        Scalar::Null => value.equal(Whole { value: T::null() }.as_ref()),
        Scalar::Truth(truth) => value.as_bool() == Some(truth),
        Scalar::Number(number) => value.as_i64() == Some(number),
        Scalar::Text(text) => value.as_str() == Some(text),
    }
}

/// Returns whether two scalars are the same.
#[inline(always)]
fn scalars_are_same(left: Scalar<'_>, right: Scalar<'_>) -> bool
    ensures { result ≡ same (scalar_tree left.entry) (scalar_tree right.entry) }
{
    match (left, right) {
        (Scalar::Null, Scalar::Null) => true,
        (Scalar::Truth(a), Scalar::Truth(b)) => a == b,
        (Scalar::Number(a), Scalar::Number(b)) => a == b,
        (Scalar::Text(a), Scalar::Text(b)) => a == b,
        _ => false,
    }
}

/// Returns whether both are numbers or both are texts, and the left one is less.
pub fn is_below<'a, 's, T: Queryable>(
    left: &FilterValueRef<'a, 's, T>,
    right: &FilterValueRef<'a, 's, T>,
) -> bool
    ensures { result ≡ is_below (filter_ref_tree left.now) (filter_ref_tree right.now) }
{
    match (left.as_number(), right.as_number()) {
        (Some(a), Some(b)) => a < b,
        _ => match (left.as_text(), right.as_text()) {
            (Some(text), Some(other)) => text_less(text, other),
            _ => false,
        },
    }
}
