//! A `Doc` as a document, with its walks; and the types of documents that cases are asked of, each made of a value.
ghost use Rattle.std.specs.Prelude.{◌≡◌, All, IfOk, IfErr, IsTrue, Some, map, reverse};
ghost use Rattle.jsonpath_base.specs.Tree.{as_list, object, has_distinct_names, trees_distinct};
ghost use Rattle.jsonpath_parser.specs.declared.errors.JsonPathError.TheVariants.{OutOfMemory};
ghost use Rattle.cases.specs.DocTree.{doc_tree, doc_is_whole, doc_custom, pairs_of, trees, members};

use crate::answers::CaseResult;
use crate::arguments::given;
use crate::doc::conversions::{copy, of_value, to_value};
use crate::doc::{self, Doc, sameness};
use jsonpath_rust::query::Queried;
use jsonpath_rust::query::queryable::{Arg, Deletable, Queryable};
use jsonpath_rust::{Whole, WholeRef};
use serde_json::Value;
use std::alloc::{AllocError, Global};
use std::collections::BTreeMap;

impl Queryable for Doc {
    ghost tree = { doc_tree };

    ghost is_whole = { doc_is_whole };

    ghost custom = { doc_custom };

    fn get(&self, key: &str) -> Option<&Doc> {
        match self {
            Doc::Members(entries) => entries.get(key),
            _ => None,
        }
    }

    fn as_array(&self) -> Option<&Vec<Doc>> {
        doc::list(self)
    }

    /// The members from the greatest name to the least.
    fn as_object(&self, alloc: Global) -> Queried<Option<Vec<(&str, &Doc)>>> {
        match doc::object(self) {
            Some(entries) => Ok(Some(lent_members(alloc, entries)?)),
            None => Ok(None),
        }
    }

    fn as_str(&self) -> Option<&str> {
        doc::text(self)
    }

    fn as_i64(&self) -> Option<i64> {
        doc::number(self)
    }

    fn as_bool(&self) -> Option<bool> {
        doc::truth(self)
    }

    /// True of every document. It looks through it, since that is how a proof learns of all its maps that they are in order.
    fn is_whole(&self) -> bool
        ensures whole { result ≡ doc_is_whole self.now }
        ensures always { IsTrue result }
    {
        look(self);
        true
    }

    fn null() -> Doc {
        Doc::Null
    }

    fn from_text(alloc: Global, value: &str) -> Queried<Doc> {
        Ok(Doc::Text(String::from_str(alloc, value)?))
    }

    fn from_bool(_alloc: Global, value: bool) -> Queried<Doc> {
        Ok(Doc::Bool(value))
    }

    fn from_i64(_alloc: Global, value: i64) -> Queried<Doc> {
        Ok(Doc::Num(value))
    }

    fn from_list(_alloc: Global, values: Vec<Doc>) -> Queried<Doc>
        requires { All (λ x. IsTrue (doc_is_whole x)) values.items }
        ensures value { IfOk result (λ v. as_list (doc_tree v) ≡ Some (map doc_tree values.items)) }
        ensures whole { IfOk result (λ v. IsTrue (doc_is_whole v)) }
        ensures memory { IfErr result (λ e. e ≡ OutOfMemory) }
    {
        Ok(Doc::List(values))
    }

    fn try_clone(&self, alloc: Global) -> Queried<Doc> {
        Ok(copy(alloc, self)?)
    }

    fn equal(&self, other: &Doc) -> bool {
        sameness::same(self, other)
    }

    /// `all_same`: whether each argument is the same as the first. Any other name gives null.
    fn extension_custom(_alloc: Global, name: &str, args: &[Arg<'_, Doc>]) -> Queried<Doc> {
        if name == "all_same" {
            Ok(Doc::Bool(sameness::all_same(args)))
        } else {
            Ok(Doc::Null)
        }
    }

    ghost distinct = { λ _ h. h };
}

/// It refuses every deletion.
impl Deletable for Doc {}

/// Looks through a document: none of its objects has a name twice, since a map keeps its names in order.
#[cycle(look)]
pub fn look(doc: &Doc)
    ensures { IsTrue (has_distinct_names (doc_tree doc.now)) }
{
    match doc {
        Doc::List(items) => look_at_items(items),
        Doc::Members(entries) => look_at_members(entries),
        _ => {}
    }
}

#[cycle(look)]
fn look_at_items(items: &Vec<Doc>)
    ensures { IsTrue (trees_distinct (trees (map doc_tree items.now.items))) }
{
    for item in items {
        look(item);
    }
}

#[cycle(look)]
fn look_at_members(entries: &BTreeMap<String, Doc>)
    ensures { IsTrue (has_distinct_names (object (members (reverse (pairs_of entries.now.entries))))) }
{
    for (_, member) in entries.iter().rev() {
        look(member);
    }
}

/// The members, from the greatest name to the least.
pub fn lent_members<'a>(
    alloc: Global,
    entries: &'a BTreeMap<String, Doc>,
) -> Result<Vec<(&'a str, &'a Doc)>, AllocError>
    ensures { IfOk result (λ v. map (λ m. (m.0.now, doc_tree m.1.now)) v.items ≡ reverse (pairs_of entries.now.entries)) }
{
    let mut lent = Vec::with_capacity(alloc, entries.len())?;
    for (name, member) in entries.iter().rev() {
        lent.push((name.as_str(), member))?;
    }
    Ok(lent)
}

/// A document that can be made of a value.
pub trait Document: Queryable {
    /// The document of a value, whose numbers are whole.
    fn made(alloc: Global, value: &Value) -> Queried<Self>;

    /// The value that it would be made of.
    fn value(&self, alloc: Global) -> Result<Value, AllocError>;
}

impl Document for Value {
    fn made(_alloc: Global, value: &Value) -> Queried<Value> {
        Ok(value.clone()?)
    }

    fn value(&self, _alloc: Global) -> Result<Value, AllocError> {
        self.clone()
    }
}

impl Document for Doc {
    fn made(alloc: Global, value: &Value) -> Queried<Doc> {
        Ok(of_value(alloc, value)?)
    }

    fn value(&self, alloc: Global) -> Result<Value, AllocError> {
        to_value(alloc, self)
    }
}

/// The document of a value of whole numbers.
pub fn document_of<T: Document>(alloc: Global, value: &Value) -> CaseResult<Whole<T>> {
    given(Whole::new(T::made(alloc, given(WholeRef::new(value))?.get())?).ok())
}
