//! The values that the two evaluators, `selection` and `states`, take from a document: whole values (`whole`), lists of
//! them (`nodes`, `args`), and the values inside a filter (`filter_value`, `comparison`). Documents themselves are
//! defined in `jsonpath_base`.
pub mod args;
pub mod comparison;
pub mod filter_value;
pub mod nodes;
pub mod whole;

pub use jsonpath_base::documents::{
    Queried, QueryPath, QueryRef, depth, not_a_reference, queryable, referred_location,
    replace_by_path, walk_error,
};
