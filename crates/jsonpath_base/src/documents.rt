//! Documents, their nodes, and what a query means for them (RFC 9535, 2.1 to 2.4). A document is a value of any type
//! that is `Queryable`. `jsonpath_rust` exports what its callers need; `walk_error` and `depth` serve its evaluators.
pub mod depth;
mod lending;
mod node;
pub mod queryable;
mod reference;
mod refusal;
pub mod state;
pub mod walk_error;

pub use crate::documents::node::{QueryPath, QueryRef};
pub use crate::documents::reference::{referred_location, replace_by_path};
pub use crate::documents::refusal::not_a_reference;
use jsonpath_parser::errors::JsonPathError;

/// The result of a query.
pub type Queried<T> = Result<T, JsonPathError>;
