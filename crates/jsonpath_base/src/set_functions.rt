//! The set functions of a filter, an extension of RFC 9535, 2.4.
ghost use Rattle.std.specs.Prelude.{◌≡◌, IsTrue, IfSome, All, Bool, map, option_map};
ghost use Rattle.jsonpath_base.specs.Prelude.{as_list, is_in, list_all, list_any, same, Tree, value_is_whole, value_tree};
ghost use Rattle.jsonpath_base.specs.SetFunctions.{set_truth};

use crate::equality::same;
use serde_json::Value;

/// The values that the set functions take. A value that is whole has one tree.
pub trait SetValue: Sized {
    /// The tree of a value.
    ghost tree: { Self → Tree };

    /// Whether a value is whole.
    ghost is_whole: { Self → Bool };

    /// Returns the elements of a list.
    fn elements(&self) -> Option<&Vec<Self>>
        requires { IsTrue (is_whole self.now) }
        ensures value { option_map (λ v. map tree v.now.items) result ≡ as_list (tree self.now) }
        ensures whole { IfSome result (λ v. All (λ x. IsTrue (is_whole x)) v.now.items) };

    /// Returns whether two values are the same (RFC 9535, 2.3.5.2.2).
    fn is_same(&self, other: &Self) -> bool
        requires left { IsTrue (is_whole self.now) }
        requires right { IsTrue (is_whole other.now) }
        ensures { result ≡ same (tree self.now) (tree other.now) };
}

impl SetValue for Value {
    ghost tree = { value_tree };

    ghost is_whole = { value_is_whole };

    fn elements(&self) -> Option<&Vec<Value>> {
        self.as_array()
    }

    fn is_same(&self, other: &Value) -> bool {
        same(self, other)
    }
}

/// Returns what [`set_truth`] returns for two values of `serde_json`.
pub fn set_function(name: &str, left: &Value, right: &Value) -> Option<bool>
    requires left_whole { IsTrue (value_is_whole left.now) }
    requires right_whole { IsTrue (value_is_whole right.now) }
    ensures { result ≡ set_truth name.now (value_tree left.now) (value_tree right.now) }
{
    set_truth(name, left, right)
}

/// Returns what the function of this name returns for two values. For `in` and `nin` that is whether the second, a
/// list, holds the first, or does not. For `none_of`, `any_of` and `subset_of`, of two lists, it is whether no element,
/// some element or every element of the first is in the second. Returns None for other names and other kinds. It takes
/// no memory of its own. Each comparison is one call of [`SetValue::is_same`]: `in` and `nin` make at most one for each
/// element of the list, the others at most the product of the two lengths.
pub fn set_truth<T: SetValue>(name: &str, left: &T, right: &T) -> Option<bool>
    requires left_whole { IsTrue (T.is_whole left.now) }
    requires right_whole { IsTrue (T.is_whole right.now) }
    ensures { result ≡ set_truth name.now (T.tree left.now) (T.tree right.now) }
{
    let list = right.elements()?;
    match name {
        "in" => Some(is_in(left, list)),
        "nin" => Some(!is_in(left, list)),
        "none_of" => Some(!any_of(left.elements()?, list)),
        "any_of" => Some(any_of(left.elements()?, list)),
        "subset_of" => Some(subset_of(left.elements()?, list)),
        _ => None,
    }
}

/// Returns whether a list holds a value that is the same.
fn is_in<T: SetValue>(value: &T, list: &Vec<T>) -> bool
    requires value_whole { IsTrue (T.is_whole value.now) }
    requires list_whole { All (λ v. IsTrue (T.is_whole v)) list.now.items }
    ensures { result ≡ is_in (T.tree value.now) (map T.tree list.now.items) }
{
    for item in list {
        if value.is_same(item) {
            return true;
        }
    }
    false
}

/// Returns whether some element of the first list is in the second.
fn any_of<T: SetValue>(left: &Vec<T>, right: &Vec<T>) -> bool
    requires left_whole { All (λ v. IsTrue (T.is_whole v)) left.now.items }
    requires right_whole { All (λ v. IsTrue (T.is_whole v)) right.now.items }
    ensures { result ≡ list_any (λ t. is_in t (map T.tree right.now.items)) (map T.tree left.now.items) }
{
    for item in left {
        if is_in(item, right) {
            return true;
        }
    }
    false
}

/// Returns whether every element of the first list is in the second.
fn subset_of<T: SetValue>(left: &Vec<T>, right: &Vec<T>) -> bool
    requires left_whole { All (λ v. IsTrue (T.is_whole v)) left.now.items }
    requires right_whole { All (λ v. IsTrue (T.is_whole v)) right.now.items }
    ensures { result ≡ list_all (λ t. is_in t (map T.tree right.now.items)) (map T.tree left.now.items) }
{
    for item in left {
        if !is_in(item, right) {
            return false;
        }
    }
    true
}
