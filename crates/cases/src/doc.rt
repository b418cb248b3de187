//! A second document type beside `Value`: it walks the members of an object from the greatest name to the least. And what a document is.
ghost use Rattle.std.specs.Prelude.{◌≡◌, map, option_map, reverse};
ghost use Rattle.jsonpath_base.specs.Same.{same};
ghost use Rattle.jsonpath_base.specs.Tree.{null, as_bool, as_int, as_text, as_list, as_members};
ghost use Rattle.cases.specs.DocTree.{doc_tree, pairs_of};

mod conversions;
pub mod documents;
mod sameness;

use std::collections::BTreeMap;

/// A document.
#[derive(Debug, Drop)]
pub enum Doc {
    Null,
    Bool(bool),
    Num(i64),
    Text(String),
    List(Vec<Doc>),
    Members(BTreeMap<String, Doc>),
}

/// Whether it is null.
pub fn is_null(doc: &Doc) -> bool
    ensures { result ≡ same null (doc_tree doc.now) }
{
    matches!(doc, Doc::Null)
}

/// The truth that it is, if it is one.
pub fn truth(doc: &Doc) -> Option<bool>
    ensures { result ≡ as_bool (doc_tree doc.now) }
{
    match doc {
        Doc::Bool(truth) => Some(*truth),
        _ => None,
    }
}

/// The number that it is, if it is one.
pub fn number(doc: &Doc) -> Option<i64>
    ensures { result ≡ as_int (doc_tree doc.now) }
{
    match doc {
        Doc::Num(number) => Some(*number),
        _ => None,
    }
}

/// The text that it is, if it is one.
pub fn text(doc: &Doc) -> Option<&str>
    ensures { option_map (λ s. s.now) result ≡ as_text (doc_tree doc.now) }
{
    match doc {
        Doc::Text(text) => Some(text.as_str()),
        _ => None,
    }
}

/// The elements of the list that it is, if it is one.
pub fn list(doc: &Doc) -> Option<&Vec<Doc>>
    ensures { option_map (λ v. map doc_tree v.now.items) result ≡ as_list (doc_tree doc.now) }
{
    match doc {
        Doc::List(items) => Some(items),
        _ => None,
    }
}

/// The members of the object that it is, if it is one.
pub fn object(doc: &Doc) -> Option<&BTreeMap<String, Doc>>
    ensures { option_map (λ m. reverse (pairs_of m.now.entries)) result ≡ as_members (doc_tree doc.now) }
{
    match doc {
        Doc::Members(members) => Some(members),
        _ => None,
    }
}
