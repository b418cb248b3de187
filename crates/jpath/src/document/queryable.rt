//! A `Json` as a document.
ghost use Rattle.std.specs.Prelude.{◌≡◌, All, IfErr, IfOk, IfSome, IsTrue, map, option_map, Some};
ghost use Rattle.std.proofs.lemmas.Bool.{and_parts};
ghost use Rattle.jsonpath_base.specs.Prelude.Documents.{AllByRecursion, as_list, as_members, find, has_distinct_names, has_whole_numbers, members_of, OutOfMemory, pairs};
ghost use Rattle.jsonpath_base.specs.SetFunctions.{set_function};
ghost use Rattle.jpath.specs.Document.{json_data, json_is_whole, json_tree, members_data};

use crate::document::Json;
use crate::document::copies::copy;
use crate::document::equality::same;
use crate::document::wholeness::whole;
use jsonpath_base::documents::Queried;
use jsonpath_base::documents::queryable::{Arg, Queryable};
use jsonpath_base::{SetValue, set_truth};
use serde_json::{Map, Number};
use std::alloc::{AllocError, Global};

/// Up to how many members are gone through for a name, which takes less time in few than to compare by order.
const FEW_MEMBERS: usize = 11;

impl<'t> Queryable for Json<'t> {
    ghost tree = { json_tree };

    ghost is_whole = { json_is_whole };

    ghost custom = { set_function };

    fn get(&self, key: &str) -> Option<&Json<'t>> {
        let Json::Object(members) = self else {
            return None;
        };
        if members.len() <= FEW_MEMBERS {
            return found_among(members, key);
        }
        members.get(key)
    }

    fn as_array(&self) -> Option<&Vec<Json<'t>>> {
        match self {
            Json::Array(items) => Some(items),
            _ => None,
        }
    }

    /// The members in the order of their names' bytes.
    fn as_object(&self, alloc: Global) -> Queried<Option<Vec<(&str, &Json<'t>)>>>
        ensures value { IsTrue (json_is_whole self.now) →
            IfOk result (λ o. option_map (λ v. map (λ m. (m.0.now, json_tree m.1.now)) v.items) o
            ≡ as_members (json_tree self.now)) }
        ensures whole { IsTrue (json_is_whole self.now) →
            IfOk result (λ o. IfSome o (λ v. All (λ m. IsTrue (json_is_whole m.1.now)) v.items)) }
        ensures memory { IfErr result (λ e. e ≡ OutOfMemory) }
    {
        match self {
            Json::Object(members) => Ok(Some(lent_members(alloc, members)?)),
            _ => Ok(None),
        }
    }

    fn member_count(&self, _alloc: Global) -> Queried<Option<usize>> {
        match self {
            Json::Object(members) => Ok(Some(members.len())),
            _ => Ok(None),
        }
    }

    fn as_str(&self) -> Option<&str> {
        match self {
            Json::String(text) => Some(*text),
            Json::Owned(text) => Some(text.as_str()),
            _ => None,
        }
    }

    fn as_i64(&self) -> Option<i64> {
        match self {
            Json::Number(number) => number.as_i64(),
            _ => None,
        }
    }

    fn as_bool(&self) -> Option<bool> {
        match self {
            Json::Bool(truth) => Some(*truth),
            _ => None,
        }
    }

    fn is_whole(&self) -> bool
        ensures numbers { result ≡ has_whole_numbers (json_data self.now) }
        ensures whole { result ≡ json_is_whole self.now }
    {
        whole(self)
    }

    fn null() -> Json<'t> {
        Json::Null
    }

    /// That text, copied.
    fn from_text(alloc: Global, value: &str) -> Queried<Json<'t>> {
        Ok(Json::Owned(String::from_str(alloc, value)?))
    }

    fn from_bool(_alloc: Global, value: bool) -> Queried<Json<'t>> {
        Ok(Json::Bool(value))
    }

    fn from_i64(_alloc: Global, value: i64) -> Queried<Json<'t>> {
        Ok(Json::Number(Number::from(value)))
    }

    fn from_list(_alloc: Global, values: Vec<Json<'t>>) -> Queried<Json<'t>>
        requires { All (λ x. IsTrue (json_is_whole x)) values.items }
        ensures value { IfOk result (λ v. as_list (json_tree v) ≡ Some (map json_tree values.entry.items)) }
        ensures whole { IfOk result (λ v. IsTrue (json_is_whole v)) }
        ensures memory { IfErr result (λ e. e ≡ OutOfMemory) }
    {
        Ok(Json::Array(values))
    }

    /// A text that was read is borrowed again, not copied.
    fn try_clone(&self, alloc: Global) -> Queried<Json<'t>> {
        Ok(copy(alloc, self)?)
    }

    fn equal(&self, other: &Json<'t>) -> bool {
        same(self, other)
    }

    /// The five set functions: `in`, `nin`, `none_of`, `any_of`, `subset_of`. Any other name, and another number or kind
    /// of arguments, gives null.
    fn extension_custom(
        _alloc: Global,
        name: &str,
        args: &[Arg<'_, Json<'t>>],
    ) -> Queried<Json<'t>> {
        match args {
            [left, right] => match set_truth(name, left.get(), right.get()) {
                Some(truth) => Ok(Json::Bool(truth)),
                None => Ok(Json::Null),
            },
            _ => Ok(Json::Null),
        }
    }

    ghost distinct = { λ x h. (and_parts (has_whole_numbers (json_data x)) (has_distinct_names (json_tree x)) h).1 };
}

impl<'t> SetValue for Json<'t> {
    ghost tree = { json_tree };

    ghost is_whole = { json_is_whole };

    fn elements(&self) -> Option<&Vec<Json<'t>>> {
        self.as_array()
    }

    fn is_same(&self, other: &Json<'t>) -> bool {
        same(self, other)
    }
}

/// The member of that name.
fn found_among<'a, 't>(members: &'a Map<&'t str, Json<'t>>, key: &str) -> Option<&'a Json<'t>>
    ensures value { option_map (λ v. json_tree v.now) result ≡ find key.now (pairs (members_of (members_data members.now.entries))) }
    ensures whole { AllByRecursion (λ e. IsTrue (json_is_whole e.1)) members.now.entries →
        IfSome result (λ v. IsTrue (json_is_whole v.now)) }
{
    for (name, member) in members.iter() {
        if key == *name {
            return Some(member);
        }
    }
    None
}

fn lent_members<'a, 't>(
    alloc: Global,
    members: &'a Map<&'t str, Json<'t>>,
) -> Result<Vec<(&'a str, &'a Json<'t>)>, AllocError>
    ensures value { IfOk result (λ v. map (λ m. (m.0.now, json_tree m.1.now)) v.items
        ≡ pairs (members_of (members_data members.now.entries))) }
    ensures lent { IfOk result (λ v. map (λ m. m.1.now) v.items ≡ map (λ m. m.1) members.now.entries) }
{
    let mut lent = Vec::with_capacity(alloc, members.len())?;
    for (name, member) in members.iter() {
        lent.push((*name, member))?;
    }
    Ok(lent)
}
