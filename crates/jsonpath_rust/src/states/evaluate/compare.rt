//! The comparison of the data of two states.
ghost use Rattle.std.specs.Prelude.{◌≡◌, All, IsTrue, map, Some};
ghost use Rattle.jsonpath_base.specs.Prelude.Documents.{operator_view};
ghost use Rattle.jsonpath_rust.specs.Prelude.Documents.{tree_of};
ghost use Rattle.jsonpath_rust.specs.Prelude.States.{content_at, contents_compare, contents_equal, is_content_below, lists_same, lists_targets, plain, PointersAreWhole, targets_of, values_same};

use crate::documents::comparison::is_below;
use crate::documents::filter_value::FilterValueRef;
use crate::documents::queryable::Queryable;
use crate::documents::whole::WholeRef;
use crate::states::evaluate::single::plain_value;
use crate::states::held::WholeData;
use jsonpath_base::documents::state::{Data, Pointer, are_same};
use jsonpath_parser::model::Operator;

/// Returns whether the operator holds between the data.
pub fn compares<'a, T: Queryable>(
    operator: Operator,
    left: &WholeData<'a, T>,
    right: &WholeData<'a, T>,
) -> bool
    ensures { result ≡ contents_compare (operator_view operator) (content_at left.now) (content_at right.now) }
{
    match operator {
        Operator::Equal => are_equal(left, right),
        Operator::NotEqual => !are_equal(left, right),
        Operator::Less => is_less(left, right),
        Operator::LessOrEqual => is_less(left, right) || are_equal(left, right),
        Operator::Greater => is_less(right, left),
        Operator::GreaterOrEqual => is_less(right, left) || are_equal(left, right),
    }
}

fn are_equal<'a, T: Queryable>(left: &WholeData<'a, T>, right: &WholeData<'a, T>) -> bool
    ensures { result ≡ contents_equal (content_at left.now) (content_at right.now) }
{
    match &right.content {
        Data::Refs(others) => match &left.content {
            Data::Refs(all) => are_same(all, others),
            Data::Ref(from) => are_elements(WholeRef { value: from.inner }, others),
            _ => false,
        },
        Data::Nothing => match &left.content {
            Data::Nothing => true,
            _ => false,
        },
        Data::Ref(other) => is_same_value(left, WholeRef { value: other.inner }),
        Data::Value(value) => is_same_value(left, WholeRef { value }),
    }
}

/// Returns whether the data is a value that is the same as this one, or points to one.
fn is_same_value<'a, T: Queryable>(given: &WholeData<'a, T>, other: WholeRef<'_, T>) -> bool
    ensures { result ≡ values_same (plain (content_at given.now)) (Some (tree_of other.entry)) }
{
    match plain_value(given) {
        Some(own) => own.equal(other),
        None => false,
    }
}

/// Returns whether the value is a list of the values of these pointers.
fn are_elements<'a, T: Queryable>(list: WholeRef<'_, T>, nodes: &[Pointer<'a, T>]) -> bool
    requires { PointersAreWhole T.is_whole nodes.now }
    ensures { result ≡ lists_targets (tree_of list.entry) (targets_of T.tree nodes.now) }
{
    match list.elements() {
        Some(items) => are_same_values(items, nodes),
        None => false,
    }
}

fn are_same_values<'a, T: Queryable>(items: &[T], nodes: &[Pointer<'a, T>]) -> bool
    requires left { All (λ x. IsTrue (T.is_whole x)) items.now }
    requires right { PointersAreWhole T.is_whole nodes.now }
    ensures { result ≡ lists_same (map T.tree items.now) (map (λ p. T.tree p.inner.now) nodes.now) }
{
    if items.len() != nodes.len() {
        return false;
    }
    for (i, item) in items.iter().enumerate() {
        if !item.equal(nodes[i].inner) {
            return false;
        }
    }
    true
}

/// Returns whether both are numbers or both are texts, or point to such values, and the left one is less.
fn is_less<'a, T: Queryable>(left: &WholeData<'a, T>, right: &WholeData<'a, T>) -> bool
    ensures { result ≡ is_content_below (content_at left.now) (content_at right.now) }
{
    let left = FilterValueRef::from_ref(plain_value(left));
    let right = FilterValueRef::from_ref(plain_value(right));
    is_below(&left, &right)
}
