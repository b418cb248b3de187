//! JSONPath (RFC 9535) for documents of any type.
//!
//! `jsonpath_base` says what a document is, and what a query means for it. There are two evaluators: `selection` walks
//! to the nodes of a query, and `states` evaluates each part of a query by itself. `documents` has the values that both
//! use. `query` and `json_path` have the calls on any document, and `checked` those on a document that was checked
//! once.
#![tactic(auto)]

mod checked;
mod documents;
mod json_path;
pub mod query;
mod selection;
mod states;

pub use crate::checked::ReadError;
pub use crate::documents::whole::{Whole, WholeRef};
pub use crate::json_path::JsonPath;
pub use crate::query::queryable::{Deletable, Queryable};
pub use crate::query::{
    Condition, ConditionRunner, Limit, LimitError, Only, Prepared, PreparedRef, Runner, Step,
    Units, Unlimited,
};
pub use jsonpath_build as build;
pub use jsonpath_parser as parser;
pub use jsonpath_parser::errors::JsonPathError;
pub use jsonpath_parser::model::JpQuery;
