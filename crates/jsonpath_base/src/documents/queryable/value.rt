//! Values of `serde_json` as documents.
ghost use Rattle.std.specs.Prelude.{◌≡◌, All, IfErr, IfOk, IfSome, IsTrue, map, option_map, Some, true};
ghost use Rattle.jsonpath_base.specs.Prelude.Documents.{AllByRecursion, as_list, as_members, at, find, has_whole_numbers, HasIndexesInRange, IsNormal, IsReferred, LendsReferred, lent_in, Location, members_of, members_view, OutOfMemory, pairs, sem, slice_cmp, value_document, value_is_whole, value_tree, view};
ghost use Rattle.std.specs.List.Sorted.{IsStrictlySortedBy};
ghost use Rattle.std.specs.Ordering.{nat_cmp};
ghost use Rattle.jsonpath_base.specs.SetFunctions.{set_function};
ghost use Rattle.jsonpath_base.specs.Tree.{has_distinct_names};
ghost use Rattle.std.proofs.lemmas.Bool.{and_parts};

use crate::documents::Queried;
use crate::documents::lending::referred_mut;
use crate::documents::queryable::{Arg, Queryable};
use crate::documents::reference::referred;
use serde_json::{Map, Value};
use std::alloc::{AllocError, Global};

/// The number of members up to which a name is looked for one by one. For so few, that takes less time than a search by
/// order.
const FEW_MEMBERS: usize = 11;

impl Queryable for Value {
    ghost tree = { value_tree };

    ghost is_whole = { value_is_whole };

    ghost custom = { set_function };

    ghost refers = { true };

    fn get(&self, key: &str) -> Option<&Value> {
        if let Some(members) = self.as_object() {
            if members.len() <= FEW_MEMBERS {
                return found_among(members, key);
            }
        }
        self.get(key)
    }

    fn as_array(&self) -> Option<&Vec<Value>> {
        self.as_array()
    }

    /// Returns the members in the order of their names' bytes.
    fn as_object(&self, alloc: Global) -> Queried<Option<Vec<(&str, &Value)>>>
        ensures value { IsTrue (value_is_whole self.now) →
            IfOk result (λ o. option_map (λ v. map (λ m. (m.0.now, value_tree m.1.now)) v.items) o
            ≡ as_members (value_tree self.now)) }
        ensures ordered { IfOk result (λ o. IfSome o (λ v. IsStrictlySortedBy (slice_cmp nat_cmp) (map (λ m. m.0.now) v.items))) }
        ensures whole { IsTrue (value_is_whole self.now) →
            IfOk result (λ o. IfSome o (λ v. All (λ m. IsTrue (value_is_whole m.1.now)) v.items)) }
        ensures memory { IfErr result (λ e. e ≡ OutOfMemory) }
    {
        match self.as_object() {
            Some(members) => Ok(Some(lent_members(alloc, members)?)),
            None => Ok(None),
        }
    }

    fn member_count(&self, _alloc: Global) -> Queried<Option<usize>> {
        match self.as_object() {
            Some(members) => Ok(Some(members.len())),
            None => Ok(None),
        }
    }

    fn as_str(&self) -> Option<&str> {
        self.as_str()
    }

    fn as_i64(&self) -> Option<i64> {
        self.as_i64()
    }

    fn as_bool(&self) -> Option<bool> {
        self.as_bool()
    }

    fn is_whole(&self) -> bool
        ensures numbers { result ≡ has_whole_numbers (view self.now) }
        ensures whole { result ≡ value_is_whole self.now }
    {
        crate::whole(self)
    }

    fn null() -> Value {
        Value::Null
    }

    fn from_text(alloc: Global, value: &str) -> Queried<Value> {
        Ok(Value::try_from_str(alloc, value)?)
    }

    fn from_bool(_alloc: Global, value: bool) -> Queried<Value> {
        Ok(Value::Bool(value))
    }

    fn from_i64(_alloc: Global, value: i64) -> Queried<Value> {
        Ok(Value::from(value))
    }

    fn from_list(_alloc: Global, values: Vec<Value>) -> Queried<Value>
        requires { All (λ x. IsTrue (value_is_whole x)) values.items }
        ensures value { IfOk result (λ v. as_list (value_tree v) ≡ Some (map value_tree values.items)) }
        ensures whole { IfOk result (λ v. IsTrue (value_is_whole v)) }
        ensures memory { IfErr result (λ e. e ≡ OutOfMemory) }
    {
        Ok(Value::Array(values))
    }

    fn try_clone(&self, _alloc: Global) -> Queried<Value> {
        Ok(self.clone()?)
    }

    fn equal(&self, other: &Value) -> bool {
        crate::same(self, other)
    }

    /// Evaluates the five set functions: `in`, `nin`, `none_of`, `any_of`, `subset_of`. Returns null for any other
    /// name, and for another number or kind of arguments.
    fn extension_custom(_alloc: Global, name: &str, args: &[Arg<'_, Value>]) -> Queried<Value> {
        match args {
            [left, right] => match crate::set_function(name, left.get(), right.get()) {
                Some(truth) => Ok(Value::Bool(truth)),
                None => Ok(Value::Null),
            },
            _ => Ok(Value::Null),
        }
    }

    /// Returns the value at the one location that a path of names and indexes means, such as a Normalized Path. Returns
    /// None for any other text, and for one that is not a query. It follows the steps down, and does not walk the
    /// value.
    fn reference(&self, alloc: Global, path: &str) -> Queried<Option<&Value>>
        ensures value { IfOk result (λ o. IsReferred path.now (value_document self.now) (option_map (λ v. value_tree v.now) o)) }

        // A Normalized Path leads to its own location, if there is a value.
        ensures normal { (l : Location) → IsNormal l path.now → HasIndexesInRange l →
            IfOk result (λ o. option_map (λ v. value_tree v.now) o ≡ at l (value_tree self.now)) }
        ensures whole { IsTrue (value_is_whole self.now) → IfOk result (λ o. IfSome o (λ v. IsTrue (value_is_whole v.now))) }
        ensures memory { IfErr result (λ e. e ≡ OutOfMemory) }
    {
        referred(alloc, self, path)
    }

    /// Borrows the value that `reference` returns for writing. When the borrow ends, what was written is there, and
    /// nothing else has changed. None and an error leave the value as it was.
    fn reference_mut(&mut self, alloc: Global, path: &str) -> Queried<Option<&mut Value>>
        ensures* writes_back { sem 𝓛 (LendsReferred path.now self.entry (lent_in result)) }
        ensures value { IfOk result (λ o. IsReferred path.now (value_document self.old) (option_map (λ v. value_tree v.now) o)) }

        // A Normalized Path leads to its own location, if there is a value.
        ensures normal { (l : Location) → IsNormal l path.now → HasIndexesInRange l →
            IfOk result (λ o. option_map (λ v. value_tree v.now) o ≡ at l (value_tree self.old)) }
        ensures whole { IsTrue (value_is_whole self.old) → IfOk result (λ o. IfSome o (λ v. IsTrue (value_is_whole v.now))) }
        ensures memory { IfErr result (λ e. e ≡ OutOfMemory) }
    {
        referred_mut(alloc, self, path)
    }

    ghost distinct = { λ x h. (and_parts (has_whole_numbers (view x)) (has_distinct_names (value_tree x)) h).1 };
}

/// Returns the member of that name.
fn found_among<'a>(members: &'a Map<String, Value>, key: &str) -> Option<&'a Value>
    ensures value { option_map (λ v. value_tree v.now) result ≡ find key.now (pairs (members_of (members_view members.now.entries))) }
    ensures whole { AllByRecursion (λ e. IsTrue (value_is_whole e.1)) members.now.entries →
        IfSome result (λ v. IsTrue (value_is_whole v.now)) }
{
    for (name, member) in members.iter() {
        if key == name.as_str() {
            return Some(member);
        }
    }
    None
}

fn lent_members<'a>(
    alloc: Global,
    members: &'a Map<String, Value>,
) -> Result<Vec<(&'a str, &'a Value)>, AllocError>
    ensures value { IfOk result (λ v. map (λ m. (m.0.now, value_tree m.1.now)) v.items
        ≡ pairs (members_of (members_view members.now.entries))) }
    ensures ordered { IfOk result (λ v. IsStrictlySortedBy (slice_cmp nat_cmp) (map (λ m. m.0.now) v.items)) }
    ensures lent { IfOk result (λ v. map (λ m. m.1.now) v.items ≡ map (λ m. m.1) members.now.entries) }
{
    let mut lent = Vec::with_capacity(alloc, members.len())?;
    for (name, member) in members.iter() {
        lent.push((name.as_str(), member))?;
    }
    Ok(lent)
}
