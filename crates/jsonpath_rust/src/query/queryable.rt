//! The types that are documents.
pub use crate::documents::queryable::{Arg, Queryable};
pub use crate::query::deletion::Deletable;
